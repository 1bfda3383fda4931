//! Schema calls.

ghost use Rattle.std.specs.Prelude.{◌≡◌, true, IfOk, Some};
ghost use Rattle.session_local.specs.BuiltCalls.{makes_named};
ghost use Rattle.session_local.specs.SchemaRequests.{schema_call_of};
ghost use Rattle.engine_parts.specs.Deciding.{Decides, IsDecision};
ghost use Rattle.engine_parts.specs.DecisionLaws.{AnswersLawfully};
ghost use Rattle.engine_parts.specs.SchemaRequests.{has_built_keys, is_schema_request};

use crate::answers::{done, one, refused};
use crate::engine::Engine;
use crate::schema_steps::decide_schema;
use index_derive::{EntryKind, SchemaCall};
use jet_base::{Jet, OutOfMemory};
use laws_engine::{
    steps_of_columns_are_lawful, steps_of_indexes_are_lawful, steps_of_tables_are_lawful,
};
use session_local::{Decision, Local, Request};

/// CreateTable, DeleteTable, AddColumn, DeleteColumn or DeleteIndex. What is made has a name of 1 to 64 bytes.
pub fn change_schema(
    engine: &Engine,
    local: &Local,
    request: &Request,
) -> Result<Decision, OutOfMemory>
    requires schema { is_schema_request request.now ≡ true }
    requires named { makes_named request.now ≡ true }
    requires shared { local.now.state.begun ≡ true }
    ensures answer { IfOk result (λ decision. Decides engine.now local.now request.now local.now decision) }
    ensures decided { IfOk result (λ decision. IsDecision engine.now local.now request.now local.now decision) }
{
    steps_of_tables_are_lawful();
    steps_of_columns_are_lawful();
    steps_of_indexes_are_lawful();
    let call = schema_call(request)?;
    decide_call(engine, local, request, &call)
}

// What the call is answered.
pub(crate) fn decide_call(
    engine: &Engine,
    local: &Local,
    request: &Request,
    call: &SchemaCall,
) -> Result<Decision, OutOfMemory>
    requires short { has_built_keys call.now ≡ true }
    requires shared { local.now.state.begun ≡ true }
    requires called { Some call.now ≡ schema_call_of request.now }
    requires lawful { AnswersLawfully engine.now local.now request.now }
    ensures answer { IfOk result (λ decision. Decides engine.now local.now request.now local.now decision) }
    ensures decided { IfOk result (λ decision. IsDecision engine.now local.now request.now local.now decision) }
{
    let session = local.session();
    match decide_schema(engine, session, call)? {
        Err(refusal) => Ok(refused(refusal)),
        Ok(made) => {
            if engine.is_full() {
                Ok(refused(Jet::LogSequenceEnd))
            } else {
                Ok(done(one(session, EntryKind::Schema(made)), true))
            }
        }
    }
}

// The schema call that a session makes, its names copied.
fn schema_call(request: &Request) -> Result<SchemaCall, OutOfMemory>
    requires { is_schema_request request.now ≡ true }
    ensures { IfOk result (λ call. Some call ≡ schema_call_of request.now) }
{
    match request {
        Request::CreateTable { table } => Ok(SchemaCall::CreateTable {
            table: table.copy()?,
        }),
        Request::DeleteTable { table } => Ok(SchemaCall::DeleteTable {
            table: table.copy()?,
        }),
        Request::AddColumn {
            table,
            column,
            kind,
            flags,
        } => Ok(SchemaCall::AddColumn {
            table: table.copy()?,
            column: column.copy()?,
            kind: *kind,
            flags: *flags,
        }),
        Request::DeleteColumn { table, column } => Ok(SchemaCall::DeleteColumn {
            table: table.copy()?,
            column: column.copy()?,
        }),
        Request::DeleteIndex { table, index } => Ok(SchemaCall::DeleteIndex {
            table: table.copy()?,
            index: index.copy()?,
        }),
        _ => unreachable!(),
    }
}
