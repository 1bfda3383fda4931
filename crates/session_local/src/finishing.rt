//! What becomes of a session's own state once a call is decided and its step is taken.

ghost use Rattle.std.specs.Prelude.{◌≡◌, false, Option, Some, None, is_some, option_map, unwrap_or};
ghost use Rattle.session_local.specs.Local.{cursor_labelled};
ghost use Rattle.session_local.specs.Finishing.{after_step, begun_with, finished, is_release, with_copied, with_filled, with_opened};
ghost use Rattle.session_local.specs.Deciding.{CopiedFits, begins_or_opens, bytes_after_step, decided_at, decided_in, reply_after, table_of, with_copied_by, with_filled_by};
ghost use Rattle.session_local.specs.Preparing.{FitsCursor, update_of};

use crate::buffers::Buffers;
use crate::decision::Decision;
use crate::local::Local;
use crate::prepared::Prepared;
use crate::request::Request;
use index_derive::{EntryKind, Schema, Step};
use jet_base::{CursorId, TableId};
use temp_table::TempTable;

/// Brings the session's own state to what the definitions say after the call. It takes no memory.
///
/// It goes by the step and not by the reply, since a log that could not be flushed changes the reply alone. The calls that
/// move a cursor have moved it already.
pub fn finish(local: &mut Local, request: &Request, decision: Decision)
    requires { CopiedFits local.old.state request.now decision.copied }
    ensures state { local.new.state ≡ finished local.old.state request.now (decided_in decision) }
    ensures session { local.new.session ≡ local.old.session }
    ensures reply { local.new.reply ≡ reply_after local.old.reply request.now decision.step decision.buffers }
{
    let Decision {
        step,
        table,
        copied,
        temp,
        buffers,
        ..
    } = decision;
    take_copied(local, request, copied);
    take_filled(local, request, temp);
    take_step(local, request, &step, table, buffers);
}

// What the copied update of a PrepareUpdate leaves.
fn take_copied(local: &mut Local, request: &Request, copied: Option<Prepared>)
    requires { CopiedFits local.old.state request.now copied }
    ensures state { local.new.state ≡ with_copied_by local.old.state request.now (option_map update_of copied) }
    ensures session { local.new.session ≡ local.old.session }
    ensures reply { local.new.reply ≡ local.old.reply }
{
    match request {
        Request::PrepareUpdate { cursor, .. } => prepare_copied(local, *cursor, copied),
        _ => {}
    }
}

// The copied update is prepared on the cursor with this label, where there is one.
fn prepare_copied(local: &mut Local, label: CursorId, copied: Option<Prepared>)
    requires { FitsCursor (cursor_labelled local.old.state label.0) copied }
    ensures { local.new ≡ record local.old { state = with_copied local.old.state label.0 (option_map update_of copied) } }
{
    if copied.is_some() {
        local.prepare(label, copied);
    }
}

// The temporary table that an IntersectIndexes filled is open.
fn take_filled(local: &mut Local, request: &Request, filled: Option<TempTable>)
    ensures state { local.new.state ≡ with_filled_by local.old.state request.now filled }
    ensures session { local.new.session ≡ local.old.session }
    ensures reply { local.new.reply ≡ local.old.reply }
{
    match request {
        Request::IntersectIndexes { temp, .. } => open_filled(local, *temp, filled),
        _ => {}
    }
}

// The table is open under this label, where there is one.
fn open_filled(local: &mut Local, label: CursorId, filled: Option<TempTable>)
    ensures { local.new ≡ record local.old { state = with_filled local.old.state label filled } }
{
    if let Some(table) = filled {
        local.open_filled(label, table);
    }
}

// What the step leaves of each call but a PrepareUpdate and an IntersectIndexes.
fn take_step(
    local: &mut Local,
    request: &Request,
    step: &Option<Step>,
    table: Option<(TableId, Schema)>,
    buffers: Option<Buffers>,
)
    ensures state { local.new.state ≡ finished local.old.state request.now (decided_at step.now table buffers) }
    ensures session { local.new.session ≡ local.old.session }
    ensures reply { local.new.reply ≡ reply_after local.old.reply request.now step.now buffers }
{
    match request {
        Request::BeginSession => begin(local, step, buffers),
        Request::OpenTable { cursor, .. } => open(local, *cursor, step, table),
        _ => go_on(local, request, step),
    }
}

// The session begins, where its memory was taken.
fn begin(local: &mut Local, step: &Option<Step>, buffers: Option<Buffers>)
    ensures state { local.new.state ≡ after_step step.now local.old.state (begun_with (is_some buffers) local.old.state) }
    ensures session { local.new.session ≡ local.old.session }
    ensures reply { local.new.reply ≡ bytes_after_step step.now local.old.reply (unwrap_or buffers local.old.reply) }
{
    if step.is_some()
        && let Some(buffers) = buffers
    {
        local.begin(buffers);
    }
}

// A cursor is opened on the table that was found.
fn open(local: &mut Local, cursor: CursorId, step: &Option<Step>, table: Option<(TableId, Schema)>)
    ensures { local.new ≡ record local.old { state = after_step step.now local.old.state (with_opened local.old.state cursor.0 (option_map table_of table)) } }
{
    if step.is_some()
        && let Some((table, schema)) = table
    {
        local.open(cursor, table, schema);
    }
}

// What the step of another call leaves.
fn go_on(local: &mut Local, request: &Request, step: &Option<Step>)
    requires { begins_or_opens request.now ≡ false }
    ensures state { local.new.state ≡ finished local.old.state request.now (decided_at step.now None None) }
    ensures session { local.new.session ≡ local.old.session }
    ensures reply { local.new.reply ≡ reply_after local.old.reply request.now step.now None }
{
    if step.is_none() {
        return;
    }
    match request {
        Request::EndSession => local.end(),
        Request::CommitTransaction { .. } => {
            if !is_release(step) {
                local.drop_prepared();
            }
        }
        Request::Rollback { .. } => local.drop_prepared(),
        Request::CloseTable { cursor } => local.close(*cursor),
        Request::Update { cursor } => local.prepare(*cursor, None),
        _ => {}
    }
}

// Whether the step is the commit of an inner level.
fn is_release(step: &Option<Step>) -> bool
    ensures { result ≡ is_release step.now }
{
    match step {
        Some(Step::One(entry)) => matches!(entry.kind, EntryKind::Release),
        Some(Step::Alone(_)) | None => false,
    }
}
