//! CreateIndex.

ghost use Rattle.std.specs.Prelude.{◌≡◌, true, IfOk, Some};
ghost use Rattle.session_local.specs.BuiltCalls.{is_built_request};
ghost use Rattle.session_local.specs.SchemaRequests.{schema_call_of};
ghost use Rattle.engine_parts.specs.Deciding.{Decides, IsDecision};
ghost use Rattle.engine_parts.specs.CreatingIndexes.{makes_index};

use crate::engine::Engine;
use crate::schema_calls::decide_call;
use index_derive::{NamedCondition, NamedSegment, SchemaCall};
use jet_base::{Items, OutOfMemory};
use laws_engine::an_answer_is_lawful_and_stays_in_step;
use session_local::{Decision, Local, Request};
use std::alloc::Global;

/// CreateIndex. Its name has 1 to 64 bytes, and its keys at most 255.
pub fn create_index(
    engine: &Engine,
    local: &Local,
    request: &Request,
) -> Result<Decision, OutOfMemory>
    requires index { makes_index request.now ≡ true }
    requires built { is_built_request request.now ≡ true }
    requires shared { local.now.state.begun ≡ true }
    ensures answer { IfOk result (λ decision. Decides engine.now local.now request.now local.now decision) }
    ensures decided { IfOk result (λ decision. IsDecision engine.now local.now request.now local.now decision) }
{
    an_answer_is_lawful_and_stays_in_step();
    let call = index_call(engine.alloc, request)?;
    decide_call(engine, local, request, &call)
}

// The call that makes an index, its names copied.
fn index_call(alloc: Global, request: &Request) -> Result<SchemaCall, OutOfMemory>
    requires { makes_index request.now ≡ true }
    ensures { IfOk result (λ call. Some call ≡ schema_call_of request.now) }
{
    match request {
        Request::CreateIndex {
            table,
            index,
            flags,
            key_most,
            segments,
            conditions,
        } => Ok(SchemaCall::CreateIndex {
            table: table.copy()?,
            index: index.get().copy()?,
            flags: *flags,
            key_most: *key_most,
            segments: copied_segments(alloc, segments.get())?,
            conditions: copied_conditions(alloc, conditions.get())?,
        }),
        _ => unreachable!(),
    }
}

// The same key columns.
fn copied_segments(
    alloc: Global,
    segments: &Items<NamedSegment>,
) -> Result<Items<NamedSegment>, OutOfMemory>
    ensures { IfOk result (λ made. made ≡ segments.now) }
{
    let mut made = Items::empty(alloc);
    for segment in segments.as_slice() {
        made.push(NamedSegment {
            column: segment.column.copy()?,
            descending: segment.descending,
        })?;
    }
    Ok(made)
}

// The same conditions.
fn copied_conditions(
    alloc: Global,
    conditions: &Items<NamedCondition>,
) -> Result<Items<NamedCondition>, OutOfMemory>
    ensures { IfOk result (λ made. made ≡ conditions.now) }
{
    let mut made = Items::empty(alloc);
    for condition in conditions.as_slice() {
        made.push(NamedCondition {
            column: condition.column.copy()?,
            must_be_null: condition.must_be_null,
        })?;
    }
    Ok(made)
}
