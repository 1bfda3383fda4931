//! What a call that looks at the shared state is answered.

ghost use Rattle.std.specs.Prelude.{◌≡◌, true, false, IfOk, OnErr};
ghost use Rattle.session_local.specs.LocalCalls.{is_answered_locally};
ghost use Rattle.session_local.specs.Run.{takes_no_memory};
ghost use Rattle.session_local.specs.declared.request.Request.TheVariants as call;
ghost use Rattle.session_local.specs.BuiltCalls.{is_built_request};
ghost use Rattle.engine_parts.specs.Deciding.{Decides, HoldsSession, IsDecision, only_reply};
ghost use Rattle.engine_core.specs.Reading.{is_reading};

use engine_parts::{
    Engine, begin_session, begin_transaction, change_schema, commit_transaction, create_index,
    end_session, rollback,
};
use jet_base::{CursorId, OutOfMemory, Prepare};
use record_decisions::{delete, escrow_update, get_lock, prepare_copy, prepare_replace, update};
use session_local::{Decision, Local, Reply, Request};

/// Decides a call that looks at the shared state, but for those that `read` answers: the reply, the step, and what `finish`
/// needs for the session's own state. Of that it writes the reply buffer alone.
///
/// Where there is no memory nothing changes.
pub fn decide(
    engine: &Engine,
    local: &mut Local,
    request: &Request,
) -> Result<Decision, OutOfMemory>
    requires beside { HoldsSession engine.now local.old }
    requires built { is_built_request request.now ≡ true }
    requires shared { is_answered_locally local.old.state request.now ≡ false }
    requires changing { is_reading request.now ≡ false }
    ensures answer { IfOk result (λ decision. Decides engine.now local.old request.now local.new decision) }
    ensures decided { IfOk result (λ decision. IsDecision engine.now local.old request.now local.new decision) }
    ensures kept { OnErr result (local.new ≡ local.old) }
    ensures memory { OnErr result (takes_no_memory request.now ≡ false) }
    ensures session { local.new.session ≡ local.old.session }
{
    match request {
        Request::BeginSession => begin_session(engine, local),
        Request::EndSession => Ok(end_session(engine, local)),
        Request::BeginTransaction => Ok(begin_transaction(engine, local)),
        Request::CommitTransaction { lazy } => Ok(commit_transaction(engine, local, *lazy)),
        Request::Rollback { all } => Ok(rollback(engine, local, *all)),
        Request::CreateTable { .. }
        | Request::DeleteTable { .. }
        | Request::AddColumn { .. }
        | Request::DeleteColumn { .. }
        | Request::DeleteIndex { .. } => change_schema(engine, local, request),
        Request::CreateIndex { .. } => create_index(engine, local, request),
        Request::OpenTable { cursor, table } => engine.open_cursor(local, *cursor, table),
        Request::CloseTable { cursor } => Ok(engine.close_cursor(local, *cursor)),
        Request::PrepareUpdate { cursor, how } => prepare(engine, local, *cursor, *how),
        Request::Update { cursor } => update(engine, local, *cursor),
        Request::Delete { cursor } => delete(engine, local, *cursor),
        Request::GetLock { cursor } => get_lock(engine, local, *cursor),
        Request::EscrowUpdate {
            cursor,
            column,
            amount,
        } => escrow_update(engine, local, *cursor, column, *amount),
        Request::IntersectIndexes { temp, cursors } => {
            engine.intersect_indexes(local, *temp, cursors)
        }
        // A session answers the others by itself, or `read` does.
        _ => unreachable!(),
    }
}

/// Whether a call moves a cursor or reads, and does nothing else: it has no step and takes no memory.
pub fn is_reading(request: &Request) -> bool
    ensures { result ≡ is_reading request.now }
{
    matches!(
        request,
        Request::Move { .. }
            | Request::Seek { .. }
            | Request::SetIndexRange { .. }
            | Request::SetCurrentIndex { .. }
            | Request::GotoBookmark { .. }
            | Request::IndexRecordCount { .. }
            | Request::RetrieveKey { .. }
            | Request::GetBookmark { .. }
            | Request::RetrieveColumn { .. }
    )
}

/// Answers a call that moves a cursor or reads: the cursor has moved, and the reply buffer has what is shown. The call is
/// decided by its reply alone, which is smaller than a decision.
pub fn read(engine: &Engine, local: &mut Local, request: &Request) -> Reply
    requires beside { HoldsSession engine.now local.old }
    requires shared { is_answered_locally local.old.state request.now ≡ false }
    requires reading { is_reading request.now ≡ true }
    ensures answer { Decides engine.now local.old request.now local.new (only_reply result) }
    ensures decided { IsDecision engine.now local.old request.now local.new (only_reply result) }
    ensures session { local.new.session ≡ local.old.session }
{
    match request {
        Request::Move { cursor, .. }
        | Request::Seek { cursor, .. }
        | Request::SetIndexRange { cursor, .. }
        | Request::SetCurrentIndex { cursor, .. }
        | Request::GotoBookmark { cursor, .. } => engine.navigate(local, *cursor, request),
        Request::IndexRecordCount { cursor, most } => {
            engine.index_record_count(local, *cursor, *most)
        }
        Request::RetrieveKey { cursor } => engine.retrieve_key(local, *cursor),
        Request::GetBookmark { cursor } => engine.get_bookmark(local, *cursor),
        Request::RetrieveColumn {
            cursor,
            column,
            sequence,
            most,
            ..
        } => engine.retrieve_column(local, *cursor, column, *sequence, *most),
        _ => unreachable!(),
    }
}

// PrepareUpdate `replace` or `insertcopy`. A session answers the others by itself.
fn prepare(
    engine: &Engine,
    local: &Local,
    cursor: CursorId,
    how: Prepare,
) -> Result<Decision, OutOfMemory>
    requires beside { HoldsSession engine.now local.now }
    requires shared { is_answered_locally local.now.state (call.PrepareUpdate cursor how) ≡ false }
    ensures answer { IfOk result (λ decision. Decides engine.now local.now (call.PrepareUpdate cursor how) local.now decision) }
    ensures decided { IfOk result (λ decision. IsDecision engine.now local.now (call.PrepareUpdate cursor how) local.now decision) }
{
    match how {
        Prepare::Replace => prepare_replace(engine, local, cursor),
        Prepare::InsertCopy => prepare_copy(engine, local, cursor),
        Prepare::Insert | Prepare::Cancel => unreachable!(),
    }
}
