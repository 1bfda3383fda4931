//! Calls that add and delete a column: the step, or why it is refused.

ghost use Rattle.std.specs.Prelude.{◌≡◌, ◌==◌, ◌||◌, IfOk};
ghost use Rattle.std.specs.List.{list_any};
ghost use Rattle.jet_base.specs.TypeKinds.{is_long_type};
ghost use Rattle.index_derive.specs.declared.schema_calls.SchemaStep.TheVariants.{AddColumn, DeleteColumn};
ghost use Rattle.database_state.specs.SchemaChanges.{column_refusals, deleted_column_refusals, rule_columns, is_type_long};
ghost use Rattle.database_state.specs.SchemaSteps.{asked_column};
ghost use Rattle.jet_catalog.specs.Decisions.{answer, named_column};
ghost use Rattle.index_derive.specs.Entries.{column_is_used};
ghost use Rattle.database_state.specs.Table.{primary_first};

use crate::decide::Decision;
use crate::table::TableDef;
use column_set::Column;
use index_derive::{IndexRule, SchemaStep};
use jet_base::{ColType, ColumnFlags, ColumnId, Jet, Name, OutOfMemory};

impl TableDef {
    // The step that adds a column, with the next number of its kind. A long one is tagged, whatever was asked.
    pub(crate) fn decide_column(
        &self,
        name: &Name,
        kind: ColType,
        flags: ColumnFlags,
        has_records: bool,
    ) -> Result<Decision, OutOfMemory>
        ensures { IfOk result (λ made. made ≡ (let column = asked_column self.now name.now kind flags in answer (column_refusals has_records self.now column) (AddColumn (record { 0 = self.now.id }) column))) }
    {
        match self.number_for_column(name, kind, flags, has_records) {
            Err(refusal) => Ok(Err(refusal)),
            Ok(id) => Ok(Ok(SchemaStep::AddColumn {
                table: self.id(),
                column: Column {
                    id,
                    name: name.copy()?,
                    kind,
                    tagged: is_tagged(kind, flags),
                    multi: flags.multi,
                    not_null: flags.not_null,
                    escrow: flags.escrow,
                    version: flags.version,
                    auto: flags.auto,
                },
            })),
        }
    }

    // The number that a new column has, or why there may be no such column.
    fn number_for_column(
        &self,
        name: &Name,
        kind: ColType,
        flags: ColumnFlags,
        has_records: bool,
    ) -> Result<ColumnId, Jet>
        ensures { result ≡ answer (column_refusals has_records self.now (asked_column self.now name.now kind flags)) (asked_column self.now name.now kind flags).id }
    {
        let tagged = is_tagged(kind, flags);
        if self.has_column_named(name) {
            return Err(Jet::ColumnDuplicate);
        }
        if flags.multi && !tagged {
            return Err(Jet::MultiValuedColumnMustBeTagged);
        }
        if flags.escrow && (!is_type_long(kind) || tagged || flags.multi) {
            return Err(Jet::InvalidColumnType);
        }
        if flags.escrow && has_records {
            return Err(Jet::TableNotEmpty);
        }
        match self.greatest().next(kind, tagged) {
            Some(id) => Ok(id),
            None => Err(Jet::TooManyColumns),
        }
    }

    // The step that deletes a column.
    pub(crate) fn decide_deleted_column(&self, name: &Name) -> Decision
        ensures { result ≡ (let column = named_column self.now name.now in answer (deleted_column_refusals self.now column) (DeleteColumn (record { 0 = self.now.id }) column)) }
    {
        let column = self.column_id_named(name);
        if !self.has_column(column) {
            return Err(Jet::ColumnNotFound);
        }
        if self.is_column_used(column) {
            return Err(Jet::ColumnInUse);
        }
        Ok(SchemaStep::DeleteColumn {
            table: self.id(),
            column,
        })
    }

    // Whether the column stands in a key or a condition of an index.
    fn is_column_used(&self, column: ColumnId) -> bool
        ensures { result ≡ column_is_used column (primary_first self.now.indexes) }
    {
        self.indexes().iter().any(|rule| uses_column(rule, column))
    }
}

// Whether the column stands in the key or in a condition of the index.
fn uses_column(rule: &IndexRule, column: ColumnId) -> bool
    ensures { result ≡ list_any (λ id. id == column.0) (rule_columns rule.now) }
{
    rule.segments
        .as_slice()
        .iter()
        .any(|segment| segment.column == column)
        || rule
            .conditions
            .as_slice()
            .iter()
            .any(|condition| condition.column == column)
}

// Whether a new column is tagged: where that was asked, or its type is long.
fn is_tagged(kind: ColType, flags: ColumnFlags) -> bool
    ensures { result ≡ (flags.tagged || is_long_type kind) }
{
    flags.tagged || kind.is_long()
}

/// Whether the type is `Long`, the only one of sums.
pub fn is_type_long(kind: ColType) -> bool
    ensures { result ≡ is_type_long kind }
{
    matches!(kind, ColType::Long)
}
