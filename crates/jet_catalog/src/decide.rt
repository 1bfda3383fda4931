//! What a schema call asks for.

ghost use Rattle.std.specs.Prelude.{◌≡◌, IfOk, IsTrue, option_copied};
ghost use Rattle.index_derive.specs.declared.schema_calls.SchemaStep.TheVariants.{CreateTable};
ghost use Rattle.database_state.specs.SchemaChanges.{table_refusals};
ghost use Rattle.database_state.specs.SchemaSteps.{called_name, table_step};
ghost use Rattle.jet_catalog.specs.Catalog.{database_of, has_new_id};
ghost use Rattle.jet_catalog.specs.Decisions.{answer, decided, called_table};

use crate::asked::AskedIndex;
use crate::catalog::Catalog;
use crate::table::TableDef;
use index_derive::{SchemaCall, SchemaStep};
use jet_base::{Jet, Name, OutOfMemory, TableId};

/// So many tables may stand.
const MOST_TABLES: usize = 64;

// The step that a call asks for, or why it is refused.
pub(crate) type Decision = Result<SchemaStep, Jet>;

/// The name of the table of which the call speaks.
pub fn called_name(call: &SchemaCall) -> &Name
    ensures { result.now ≡ called_name call.now }
{
    match call {
        SchemaCall::CreateTable { table } => table,
        SchemaCall::DeleteTable { table } => table,
        SchemaCall::AddColumn { table, .. } => table,
        SchemaCall::DeleteColumn { table, .. } => table,
        SchemaCall::CreateIndex { table, .. } => table,
        SchemaCall::DeleteIndex { table, .. } => table,
    }
}

impl Catalog {
    /// The step that the call asks for, with the next free numbers, or why it is refused, given whether its table has
    /// records.
    ///
    /// The refusals are those that names, numbers and limits decide, `ObjectNotFound` first. Whether the records of a
    /// table may stand in a new index is asked after them, and not here; nor is what other sessions do.
    pub fn decide(
        &self,
        call: &SchemaCall,
        has_records: bool,
    ) -> Result<Result<SchemaStep, Jet>, OutOfMemory>
        ensures decided { IfOk result (λ made. made ≡ decided (database_of self.now) has_records call.now) }
        ensures new_id { IfOk result (λ made. IfOk made (λ step. IsTrue (has_new_id self.now step))) }
    {
        self.decide_on(call, self.lookup(called_name(call).as_bytes()), has_records)
    }

    // The same, given the table of the call's name.
    #[tactic(auto, unfolding(crate::specs::Decisions::decided))]
    fn decide_on(
        &self,
        call: &SchemaCall,
        found: Option<&TableDef>,
        has_records: bool,
    ) -> Result<Decision, OutOfMemory>
        requires { option_copied found ≡ called_table (database_of self.now) call.now }
        ensures { IfOk result (λ made. made ≡ decided (database_of self.now) has_records call.now) }
    {
        match (call, found) {
            (SchemaCall::CreateTable { table }, _) => self.decide_table(table),
            (_, None) => Ok(Err(Jet::ObjectNotFound)),
            (SchemaCall::DeleteTable { .. }, Some(found)) => Ok(Ok(SchemaStep::DeleteTable {
                table: found.id(),
            })),
            (
                SchemaCall::AddColumn {
                    column,
                    kind,
                    flags,
                    ..
                },
                Some(found),
            ) => { found.decide_column(column, *kind, *flags, has_records) }
            (SchemaCall::DeleteColumn { column, .. }, Some(found)) => {
                Ok(found.decide_deleted_column(column))
            }
            (
                SchemaCall::CreateIndex {
                    index,
                    flags,
                    key_most,
                    segments,
                    conditions,
                    ..
                },
                Some(found),
            ) => {
                let asked = AskedIndex {
                    flags: *flags,
                    key_most: *key_most,
                    segments: segments.as_slice(),
                    conditions: conditions.as_slice(),
                };
                found.decide_index(index, &asked, has_records)
            }
            (SchemaCall::DeleteIndex { index, .. }, Some(found)) => {
                Ok(found.decide_deleted_index(index))
            }
        }
    }

    // The step that makes a table, with the next number.
    fn decide_table(&self, name: &Name) -> Result<Decision, OutOfMemory>
        ensures { IfOk result (λ made. made ≡ answer (table_refusals (database_of self.now) name.now) (table_step (database_of self.now) name.now)) }
    {
        if self.lookup(name.as_bytes()).is_some() {
            return Ok(Err(Jet::TableDuplicate));
        }
        if self.len() >= MOST_TABLES || self.greatest() == u32::MAX {
            return Ok(Err(Jet::OutOfObjectIDs));
        }
        Ok(Ok(SchemaStep::CreateTable {
            table: TableId(self.greatest() + 1),
            name: name.copy()?,
        }))
    }
}
