//! Calls that make and delete an index: the step, or why it is refused.

ghost use Rattle.std.specs.Prelude.{◌≡◌, ◌<◌, not, length, IfOk};
ghost use Rattle.std.specs.List.{list_any};
ghost use Rattle.index_derive.specs.declared.schema_calls.SchemaStep.TheVariants.{CreateIndex, DeleteIndex};
ghost use Rattle.index_derive.specs.Entries.{is_escrow_column};
ghost use Rattle.database_state.specs.Table.{schema_of};
ghost use Rattle.column_set.specs.Refusals.{first_refusal};
ghost use Rattle.database_state.specs.SchemaChanges.{index_refusals, index_number_refusals, index_rule_refusals, deleted_index_refusals, rule_columns, has_column};
ghost use Rattle.database_state.specs.SchemaSteps.{asked_index, index_id_named};
ghost use Rattle.jet_catalog.specs.Decisions.{answer, is_sum};

use crate::asked::{AskedIndex, greatest_order};
use crate::decide::Decision;
use crate::table::TableDef;
use index_derive::{IndexRule, SchemaStep, legal};
use jet_base::{ColumnId, Jet, Name, OutOfMemory};

/// So many indexes may a table have, the primary one included.
const MOST_INDEXES: usize = 64;

impl TableDef {
    // The step that makes an index, with the least free number and the next order of making. Whether its records may
    // stand in it is not asked.
    pub(crate) fn decide_index(
        &self,
        name: &Name,
        asked: &AskedIndex,
        has_records: bool,
    ) -> Result<Decision, OutOfMemory>
        ensures { IfOk result (λ made. made ≡ (let rule = asked_index self.now name.now asked.now.flags asked.now.key_most asked.now.segments.now asked.now.conditions.now in answer (index_refusals has_records self.now rule) (CreateIndex (record { 0 = self.now.id }) rule))) }
    {
        if let Some(refusal) = self.number_refusal(name) {
            return Ok(Err(refusal));
        }
        let index = self.asked_index(name, asked)?;
        match self.rule_refusal(&index, has_records) {
            Some(refusal) => Ok(Err(refusal)),
            None => Ok(Ok(SchemaStep::CreateIndex {
                table: self.id(),
                index,
            })),
        }
    }

    // Why there may be no further index, or none of this name.
    fn number_refusal(&self, name: &Name) -> Option<Jet>
        ensures { result ≡ first_refusal (index_number_refusals self.now name.now) }
    {
        if self.has_index_named(name) {
            return Some(Jet::IndexDuplicate);
        }
        if self.indexes().len() >= MOST_INDEXES || greatest_order(self.indexes()) == u32::MAX {
            return Some(Jet::TooManyIndexes);
        }
        None
    }

    // Why there may be no index of this rule.
    fn rule_refusal(&self, rule: &IndexRule, has_records: bool) -> Option<Jet>
        ensures { result ≡ first_refusal (index_rule_refusals has_records self.now rule.now) }
    {
        if rule.flags.primary && self.has_primary() {
            return Some(Jet::IndexHasPrimary);
        }
        if rule.flags.primary && has_records {
            return Some(Jet::TableNotEmpty);
        }
        if self.lacks_column_of(rule) {
            return Some(Jet::ColumnNotFound);
        }
        if self.has_escrow_column_of(rule) {
            return Some(Jet::CannotIndex);
        }
        if !legal(rule, self.schema()) {
            return Some(Jet::IndexInvalidDef);
        }
        None
    }

    // Whether the key or a condition names a column that the table has not.
    fn lacks_column_of(&self, rule: &IndexRule) -> bool
        ensures { result ≡ list_any (λ id. not (has_column self.now id)) (rule_columns rule.now) }
    {
        rule.segments
            .as_slice()
            .iter()
            .any(|segment| !self.has_column(segment.column))
            || rule
                .conditions
                .as_slice()
                .iter()
                .any(|condition| !self.has_column(condition.column))
    }

    // Whether the key or a condition names a sum.
    fn has_escrow_column_of(&self, rule: &IndexRule) -> bool
        ensures { result ≡ list_any (is_escrow_column (schema_of self.now)) (rule_columns rule.now) }
    {
        rule.segments
            .as_slice()
            .iter()
            .any(|segment| self.is_escrow_column(segment.column))
            || rule
                .conditions
                .as_slice()
                .iter()
                .any(|condition| self.is_escrow_column(condition.column))
    }

    // Whether the column of this number is a sum.
    fn is_escrow_column(&self, id: ColumnId) -> bool
        ensures { result ≡ is_sum self.now id.0 }
    {
        match self.column_of(id) {
            Some(column) => column.escrow,
            None => false,
        }
    }

    // The step that deletes an index.
    pub(crate) fn decide_deleted_index(&self, name: &Name) -> Decision
        ensures { result ≡ (let index = index_id_named self.now.indexes name.now in answer (deleted_index_refusals self.now index) (DeleteIndex (record { 0 = self.now.id }) (record { 0 = index }))) }
    {
        let index = self.index_id_named(name);
        if !self.has_index(index) {
            return Err(Jet::IndexNotFound);
        }
        if self.is_primary(index) {
            return Err(Jet::IndexMustStay);
        }
        Ok(SchemaStep::DeleteIndex {
            table: self.id(),
            index,
        })
    }
}
