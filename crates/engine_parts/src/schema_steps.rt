//! The step that a schema call asks for, or why it is refused, whichever session asks.

ghost use Rattle.std.specs.Prelude.{◌≡◌, true, IfOk, IfSome, option_copied};
ghost use Rattle.column_set.specs.Refusals.{first_refusal};
ghost use Rattle.database_state.specs.SchemaSteps.{called_name};
ghost use Rattle.database_state.specs.Table.{table_named};
ghost use Rattle.jet_catalog.specs.Catalog.{IsNumbered};
ghost use Rattle.engine_parts.specs.CreatingIndexes.{HasKeys, step_refusals_in};
ghost use Rattle.engine_parts.specs.SchemaRequests.{IsDecided, engine_table, has_built_keys, has_rows_in, is_missing, is_used, sessions_in};

use crate::engine::Engine;
use crate::index_records::records_refusal;
use index_derive::{Place, SchemaCall, SchemaStep};
use jet_base::{Jet, OutOfMemory, Session};
use jet_catalog::{
    Catalog, TableDef, called_name, calls_ask_the_same_without_records, refusals_of_a_call,
    tables_are_found_without_records,
};
use laws_engine::{newest_records_are_told, tables_are_told, uses_are_told};

/// The step that the call asks for, with the next free numbers, or why it is refused: because of what sessions do, by names,
/// numbers and limits, or by the records of its table. It is that of every state that the engine holds. The keys of an index that
/// it makes have at most 255 bytes.
pub fn decide_schema(
    engine: &Engine,
    session: Session,
    call: &SchemaCall,
) -> Result<Result<SchemaStep, Jet>, OutOfMemory>
    requires { has_built_keys call.now ≡ true }
    ensures { IfOk result (λ made. IsDecided engine.now session.0 call.now made) }
{
    refusals_of_a_call();
    calls_ask_the_same_without_records();
    tables_are_found_without_records();
    newest_records_are_told();
    uses_are_told();
    tables_are_told();
    let catalog = engine.tables().catalog();
    let found = called_table(catalog, call);
    match sessions_refusal(engine, session, call, found) {
        Some(refusal) => Ok(Err(refusal)),
        None => match catalog.decide(call, has_records(engine, session, found))? {
            Err(refusal) => Ok(Err(refusal)),
            Ok(made) => match step_refusal(engine, session, found, &made)? {
                Some(refusal) => Ok(Err(refusal)),
                None => Ok(Ok(made)),
            },
        },
    }
}

// The table that the call names. The numbers of the tables rise, so that its number finds it too.
fn called_table<'a>(catalog: &'a Catalog, call: &SchemaCall) -> Option<&'a TableDef>
    ensures found { option_copied result ≡ table_named catalog.now.tables (called_name call.now) }
    ensures numbered { IsNumbered catalog.now }
{
    let _numbered = catalog.tables();
    catalog.lookup(called_name(call).as_bytes())
}

// Why the call is refused because of what sessions do, or because its table is not there.
fn sessions_refusal(
    engine: &Engine,
    session: Session,
    call: &SchemaCall,
    found: Option<&TableDef>,
) -> Option<Jet>
    requires { option_copied found ≡ engine_table engine.now call.now }
    ensures { result ≡ first_refusal (sessions_in engine.now session.0 call.now) }
{
    if engine.is_outside(session) {
        if is_missing(call, found) {
            Some(Jet::ObjectNotFound)
        } else if is_used(engine, session, found) {
            Some(Jet::TableInUse)
        } else {
            None
        }
    } else {
        Some(Jet::InTransaction)
    }
}

// Whether another session is in a transaction, or any has a cursor open on the table.
fn is_used(engine: &Engine, session: Session, found: Option<&TableDef>) -> bool
    ensures { result ≡ is_used engine.now session.0 (option_copied found.entry) }
{
    if engine.sessions().other_in_transaction(session) {
        true
    } else {
        match found {
            Some(table) => engine.sessions().is_open(table.id()),
            None => false,
        }
    }
}

// Whether the table has a record that the session sees.
fn has_records(engine: &Engine, session: Session, found: Option<&TableDef>) -> bool
    ensures { result ≡ has_rows_in engine.now session.0 (option_copied found.entry) }
{
    match found {
        Some(table) => {
            let reader = engine.reader(session);
            match engine
                .tables()
                .walk_records(table.id(), &Place::Before, reader)
            {
                Some(_) => true,
                None => false,
            }
        }
        None => false,
    }
}

// Whether the call needs a table that was not found.
fn is_missing(call: &SchemaCall, found: Option<&TableDef>) -> bool
    ensures { result ≡ is_missing call.now (option_copied found.entry) }
{
    match call {
        SchemaCall::CreateTable { .. } => false,
        _ => found.is_none(),
    }
}

// Why the records of the table that was found, as the session sees them, may not stand in the index that the step makes.
fn step_refusal(
    engine: &Engine,
    session: Session,
    found: Option<&TableDef>,
    made: &SchemaStep,
) -> Result<Option<Jet>, OutOfMemory>
    requires { IfSome (option_copied found) (HasKeys made.now) }
    ensures { IfOk result (λ refusal. refusal ≡ first_refusal (step_refusals_in engine.now session.0 (option_copied found.entry) made.now)) }
{
    match found {
        Some(table) => match made {
            SchemaStep::CreateIndex { index, .. } => records_refusal(
                engine.alloc,
                engine.tables(),
                table,
                index,
                engine.reader(session),
            ),
            _ => Ok(None),
        },
        None => Ok(None),
    }
}
