//! Entries by their kinds.

ghost use Rattle.std.specs.Prelude.{◌≡◌, ◌&&◌, not, true, length, IfOk, nat_le, nat_lt};
ghost use Rattle.database_state.specs.Lawful.{has_number, is_lawful, is_lawful_kind};
ghost use Rattle.index_derive.specs.declared.log.EntryKind.TheVariants as entry;
ghost use Rattle.session_local.specs.BuiltTables.{makes_built};
ghost use Rattle.version_cleanup.specs.LiveSessions.{is_live};
ghost use Rattle.soft_recovery.specs.LawfulEntries.{HoldsSome, IsTold, is_of_session, may_come};
ghost use Rattle.soft_recovery.specs.LawfulSteps.{HaveOwnNames};

use crate::next_entries::changes::lawful_change;
use crate::next_entries::laws::entries_of_sessions_are_told;
use crate::next_entries::schema::lawful_step;
use engine_parts::{Engine, LOG_LIMIT};
use index_derive::{Entry, EntryKind, SchemaStep};
use jet_base::{OutOfMemory, Session};
use laws_engine::sessions_are_told;
use version_cleanup::{MAX_LEVELS, MAX_SESSIONS, Sessions};

/// Whether the entry may come next: the same in every state that the engine holds. It may be one that no call makes, with ids,
/// names, values, bookmarks and orders of making of any kind. Only a put and a schema step may take memory.
pub fn lawful(engine: &Engine, entry: &Entry) -> Result<bool, OutOfMemory>
    requires held { HoldsSome engine.now }
    requires names { HaveOwnNames engine.now.store.tables }
    requires built { makes_built entry.now.kind ≡ true }
    ensures { IfOk result (IsTold engine.now (λ state. is_lawful state entry.now)) }
{
    if has_number(engine, &entry.kind) {
        lawful_kind(engine, entry.session, &entry.kind)
    } else {
        Ok(false)
    }
}

// Whether the log has a number for the entry: what ends something may always come, and a change may be the one after the last
// that begins something.
fn has_number(engine: &Engine, kind: &EntryKind) -> bool
    ensures { result ≡ has_number engine.now.number kind.now }
{
    match kind {
        EntryKind::Leave
        | EntryKind::Shut(_)
        | EntryKind::Release
        | EntryKind::Undo
        | EntryKind::UndoAll
        | EntryKind::Commit => true,
        EntryKind::Change(_) => engine.number() <= LOG_LIMIT,
        EntryKind::Enter
        | EntryKind::Open(_)
        | EntryKind::Begin
        | EntryKind::Save
        | EntryKind::Schema(_) => engine.number() < LOG_LIMIT,
    }
}

// The same of an entry for which the log has a number.
fn lawful_kind(engine: &Engine, session: Session, kind: &EntryKind) -> Result<bool, OutOfMemory>
    requires held { HoldsSome engine.now }
    requires names { HaveOwnNames engine.now.store.tables }
    requires built { makes_built kind.now ≡ true }
    requires space { has_number engine.now.number kind.now ≡ true }
    ensures { IfOk result (IsTold engine.now (λ state. is_lawful_kind state session.0 kind.now)) }
{
    match kind {
        EntryKind::Change(change) => lawful_change(engine, session, change),
        EntryKind::Schema(made) => lawful_schema(engine, session, made),
        _ => Ok(lawful_for_session(engine, session, kind)),
    }
}

// The same of an entry that neither changes a record nor the schema.
fn lawful_for_session(engine: &Engine, session: Session, kind: &EntryKind) -> bool
    requires { is_of_session kind.now ≡ true }
    ensures { IsTold engine.now (λ state. is_lawful_kind state session.0 kind.now) result }
{
    entries_of_sessions_are_told();
    may_come(engine, session, kind)
}

// Whether the session may make the entry. At a commit no keys of unique indexes are looked for: none brings two records one key.
fn may_come(engine: &Engine, session: Session, kind: &EntryKind) -> bool
    requires { is_of_session kind.now ≡ true }
    ensures { result ≡ may_come engine.now session.0 kind.now }
{
    match kind {
        EntryKind::Enter => may_enter(engine.sessions(), session),
        EntryKind::Leave => engine.sessions().has(session),
        EntryKind::Open(table) => {
            engine.sessions().has(session) && engine.tables().by_id(*table).is_some()
        }
        EntryKind::Shut(table) => engine.sessions().has_open(session, *table),
        EntryKind::Begin => engine.sessions().has(session) && engine.is_outside(session),
        EntryKind::Save => may_save(engine.levels(session)),
        EntryKind::Release => engine.levels(session) >= 2,
        EntryKind::Undo => engine.levels(session) >= 1,
        EntryKind::UndoAll => engine.levels(session) >= 1,
        EntryKind::Commit => engine.levels(session) == 1,
        EntryKind::Change(_) | EntryKind::Schema(_) => unreachable!(),
    }
}

// Whether the session may begin: it is not live, and there is room for one more.
fn may_enter(sessions: &Sessions, session: Session) -> bool
    ensures { result ≡ (not (is_live session.0 sessions.now) && nat_lt (length sessions.now) 64) }
{
    !sessions.has(session) && sessions.len() < MAX_SESSIONS
}

// Whether one more level may begin in a transaction of so many levels.
fn may_save(levels: u8) -> bool
    ensures { result ≡ (nat_le 1 levels && nat_le levels 6) }
{
    levels >= 1 && levels < MAX_LEVELS
}

// Whether a live session may make the schema step.
fn lawful_schema(engine: &Engine, session: Session, made: &SchemaStep) -> Result<bool, OutOfMemory>
    requires names { HaveOwnNames engine.now.store.tables }
    requires built { makes_built (entry.Schema made.now) ≡ true }
    ensures { IfOk result (IsTold engine.now (λ state. is_lawful_kind state session.0 (entry.Schema made.now))) }
{
    sessions_are_told();
    if engine.sessions().has(session) {
        lawful_step(engine, session, made)
    } else {
        Ok(false)
    }
}
