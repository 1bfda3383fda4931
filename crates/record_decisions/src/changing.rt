//! Delete and GetLock, and what refuses a change of a record.

ghost use Rattle.std.specs.Prelude.{◌≡◌, false, IfOk, nat_lt};
ghost use Rattle.column_set.specs.Refusals.{first_refusal};
ghost use Rattle.session_local.specs.declared.request.Request.TheVariants as call;
ghost use Rattle.session_local.specs.Local.{has_replace_of, is_replace_of};
ghost use Rattle.session_local.specs.LocalCalls.{is_answered_locally};
ghost use Rattle.session_local.specs.RecordCalls.{bookmark_at, drop_at, hold_at};
ghost use Rattle.index_derive.specs.declared.log.EntryKind.TheVariants as entry;
ghost use Rattle.engine_parts.specs.Deciding.{Decides, IsDecision};
ghost use Rattle.record_decisions.specs.Changing.{change_in, current_in, delete_in, lock_in, own_in, span_with, step_by};

use crate::laws::{changes_are_refused_alike, sessions_see_their_records};
use column_set::{Bookmark, Change};
use engine_parts::{Engine, done, refused};
use index_derive::{Entry, EntryKind, Place, Step};
use jet_base::{CursorId, Jet, OutOfMemory, Session};
use laws_engine::{the_step_of_a_delete_is_lawful, the_step_of_a_lock_is_lawful};
use session_local::{Decision, Local, OpenCursor, Purpose};
use std::alloc::Global;
use version_store::By;

/// GetLock of the record at the cursor.
pub fn get_lock(engine: &Engine, local: &Local, cursor: CursorId) -> Result<Decision, OutOfMemory>
    requires shared { is_answered_locally local.now.state (call.GetLock cursor) ≡ false }
    ensures answer { IfOk result (λ decision. Decides engine.now local.now (call.GetLock cursor) local.now decision) }
    ensures decided { IfOk result (λ decision. IsDecision engine.now local.now (call.GetLock cursor) local.now decision) }
{
    sessions_see_their_records();
    changes_are_refused_alike();
    the_step_of_a_lock_is_lawful();
    let Some(found) = local.cursor(cursor) else {
        unreachable!()
    };
    let session = local.session();
    let change = hold_at(engine.alloc, found)?;
    match lock_refusal(engine, session, found, &change) {
        Some(refusal) => Ok(refused(refusal)),
        None => Ok(done(change_step(session, change, false), false)),
    }
}

/// Delete of the record at the cursor: outside a transaction it is one by itself.
pub fn delete(engine: &Engine, local: &Local, cursor: CursorId) -> Result<Decision, OutOfMemory>
    requires shared { is_answered_locally local.now.state (call.Delete cursor) ≡ false }
    ensures answer { IfOk result (λ decision. Decides engine.now local.now (call.Delete cursor) local.now decision) }
    ensures decided { IfOk result (λ decision. IsDecision engine.now local.now (call.Delete cursor) local.now decision) }
{
    sessions_see_their_records();
    changes_are_refused_alike();
    the_step_of_a_delete_is_lawful();
    let Some(found) = local.cursor(cursor) else {
        unreachable!()
    };
    let session = local.session();
    let change = drop_at(engine.alloc, found)?;
    match delete_refusal(engine, local, found, &change) {
        Some(refusal) => Ok(refused(refusal)),
        None => {
            let outside = engine.is_outside(session);
            Ok(done(change_step(session, change, outside), outside))
        }
    }
}

// Why a record may not be locked.
fn lock_refusal(
    engine: &Engine,
    session: Session,
    found: &OpenCursor,
    change: &Change,
) -> Option<Jet>
    requires { change.now ≡ hold_at found.now }
    ensures { result ≡ first_refusal (lock_in engine.now session.0 found.now) }
{
    if engine.is_outside(session) {
        return Some(Jet::NotInTransaction);
    }
    match current_refusal(engine, session, found) {
        Some(refusal) => Some(refusal),
        None => change_refusal(engine, session, change),
    }
}

// Why a record may not be deleted.
fn delete_refusal(
    engine: &Engine,
    local: &Local,
    found: &OpenCursor,
    change: &Change,
) -> Option<Jet>
    requires { change.now ≡ drop_at found.now }
    ensures { result ≡ first_refusal (delete_in engine.now local.now.session local.now.state found.now) }
{
    let session = local.session();
    match current_refusal(engine, session, found) {
        Some(refusal) => Some(refusal),
        None => {
            if has_own_replace(local, found) {
                Some(Jet::SessionWriteConflict)
            } else {
                change_refusal(engine, session, change)
            }
        }
    }
}

/// Why there is no record at the cursor that the session sees.
pub(crate) fn current_refusal(engine: &Engine, session: Session, found: &OpenCursor) -> Option<Jet>
    ensures { result ≡ first_refusal (current_in engine.now session.0 found.now) }
{
    match found.cursor().place() {
        Place::On(_, bookmark) => {
            let table = found.cursor().table();
            let reader = engine.reader(session);
            match engine.tables().look_up(table, bookmark.as_bytes(), reader) {
                Some(_) => None,
                None => Some(Jet::RecordDeleted),
            }
        }
        _ => Some(Jet::NoCurrentRecord),
    }
}

/// Whether the session has a replace of the record at the cursor prepared.
pub(crate) fn has_own_replace(local: &Local, found: &OpenCursor) -> bool
    ensures { result ≡ has_replace_of local.now.state found.now.cursor.table (bookmark_at found.now) }
{
    let bookmark = bookmark_at(found);
    local.cursors().iter().any(|other| other.cursor().table() == found.cursor().table()
        && replaces(other, bookmark))
}

// Whether a replace of the record under the bookmark is prepared on the cursor.
fn replaces(cursor: &OpenCursor, bookmark: &[u8]) -> bool
    ensures { result ≡ is_replace_of bookmark.now cursor.now.prepared }
{
    match cursor.prepared() {
        Some(prepared) => match &prepared.purpose {
            Purpose::Replace(other) => other.as_bytes() == bookmark,
            Purpose::Insert(_) => false,
        },
        None => false,
    }
}

/// Why the change may not be made: a write conflict, or no room in the log or in the version store.
pub(crate) fn change_refusal(engine: &Engine, session: Session, change: &Change) -> Option<Jet>
    ensures { result ≡ first_refusal (change_in engine.now session.0 change.now) }
{
    if engine.tables().conflict(engine.reader(session), change) {
        Some(Jet::WriteConflict)
    } else if engine.is_full() {
        Some(Jet::LogSequenceEnd)
    } else if lacks_room(engine, session, change) {
        Some(Jet::VersionStoreOutOfMemory)
    } else {
        None
    }
}

/// Whether the version store's span passes its limit with the change.
pub(crate) fn lacks_room(engine: &Engine, session: Session, change: &Change) -> bool
    ensures { result ≡ nat_lt engine.now.limit (span_with engine.now change.now) }
{
    let by = By {
        number: engine.number(),
        session,
        begin: 0,
        level: 0,
        limit: engine.limit(),
        oldest: engine.sessions().oldest_begin(),
    };
    !engine.tables().fits(by, change)
}

/// The bookmark at which the cursor stands, without a byte where it is on no entry.
pub(crate) fn bookmark_at(found: &OpenCursor) -> &[u8]
    ensures { result.now ≡ bookmark_at found.now }
{
    match found.cursor().place() {
        Place::On(_, bookmark) => bookmark.as_bytes(),
        _ => &[],
    }
}

/// The lock of the record at the cursor.
pub(crate) fn hold_at(alloc: Global, found: &OpenCursor) -> Result<Change, OutOfMemory>
    ensures { IfOk result (λ change. change ≡ hold_at found.now) }
{
    match Bookmark::from_slice(alloc, bookmark_at(found)) {
        Ok(bookmark) => Ok(Change::Hold {
            table: found.cursor().table(),
            bookmark,
        }),
        Err(fault) => Err(fault),
    }
}

// The delete of the record at the cursor.
fn drop_at(alloc: Global, found: &OpenCursor) -> Result<Change, OutOfMemory>
    ensures { IfOk result (λ change. change ≡ drop_at found.now) }
{
    match Bookmark::from_slice(alloc, bookmark_at(found)) {
        Ok(bookmark) => Ok(Change::Drop {
            table: found.cursor().table(),
            bookmark,
        }),
        Err(fault) => Err(fault),
    }
}

/// The step of the change: in a transaction one entry, outside one by itself.
pub(crate) fn change_step(session: Session, change: Change, alone: bool) -> Step
    ensures { result ≡ step_by alone (record { session = session; kind = entry.Change change }) }
{
    let made = Entry {
        session,
        kind: EntryKind::Change(change),
    };
    if alone {
        Step::Alone(made)
    } else {
        Step::One(made)
    }
}
