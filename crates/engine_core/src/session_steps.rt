//! Entries of sessions, their cursors and their transactions.

ghost use Rattle.std.specs.Prelude.{◌≡◌, ◌+◌, ◌^◌, ◌≤◌, ◌<◌, false, length, OnOk, OnErr};
ghost use Rattle.index_derive.specs.declared.log.EntryKind.TheVariants as entry;
ghost use Rattle.database_state.specs.State.{DatabaseState};
ghost use Rattle.version_cleanup.specs.LiveSessions.{is_live, levels_in};
ghost use Rattle.laws_engine.specs.HeldRecords.{is_open_of};
ghost use Rattle.laws_engine.specs.VersionedTables.{with_changes_undone};
ghost use Rattle.laws_engine.specs.EngineSteps.{effect_on};
ghost use Rattle.laws_engine.specs.HoldsState.{HoldsState};

use engine_parts::Engine;
use jet_base::{OutOfMemory, Session, TableId};
use laws_engine::open_changes_stand_by_rising_levels;
use version_cleanup::EnterFault;

/// A session begins. It is not live before, and fewer than 64 are. Where memory fails all is as it was.
pub(crate) fn enter(engine: &mut Engine, session: Session) -> Result<(), OutOfMemory>
    requires number { engine.old.number ≤ 2 ^ 35 + 1 }
    requires new_label { is_live session.0 engine.old.sessions ≡ false }
    requires few { length engine.old.sessions < 64 }
    ensures done { OnOk result (engine.new ≡ effect_on engine.old session.0 entry.Enter) }
    ensures kept { OnErr result (engine.new ≡ engine.old) }
{
    match engine.sessions.enter(session) {
        Ok(()) => {
            engine.number += 1;
            Ok(())
        }
        Err(EnterFault::OutOfMemory) => Err(OutOfMemory),
        Err(EnterFault::OutOfSessions) => unreachable!(),
    }
}

/// A cursor of the session is opened on the table. Where memory fails all is as it was.
pub(crate) fn open(engine: &mut Engine, session: Session, table: TableId) -> Result<(), OutOfMemory>
    requires number { engine.old.number ≤ 2 ^ 35 + 1 }
    ensures done { OnOk result (engine.new ≡ effect_on engine.old session.0 (entry.Open table)) }
    ensures kept { OnErr result (engine.new ≡ engine.old) }
{
    match engine.sessions.open_table(session, table) {
        Ok(()) => {
            engine.number += 1;
            Ok(())
        }
        Err(fault) => Err(fault),
    }
}

/// One of the session's cursors on the table is closed.
pub(crate) fn shut(engine: &mut Engine, session: Session, table: TableId)
    requires number { engine.old.number ≤ 2 ^ 35 + 1 }
    ensures { engine.new ≡ effect_on engine.old session.0 (entry.Shut table) }
{
    engine.sessions.shut_table(session, table);
    engine.number += 1;
}

/// A transaction begins.
pub(crate) fn begin(engine: &mut Engine, session: Session)
    requires number { engine.old.number ≤ 2 ^ 35 + 1 }
    ensures { engine.new ≡ effect_on engine.old session.0 entry.Begin }
{
    let number = engine.number + 1;
    engine.sessions.begin(session, number);
    engine.number = number;
}

/// One more level of the session's transaction begins. It has at most six.
pub(crate) fn save(engine: &mut Engine, session: Session)
    requires number { engine.old.number ≤ 2 ^ 35 + 1 }
    requires few { levels_in session.0 engine.old.sessions ≤ 6 }
    ensures { engine.new ≡ effect_on engine.old session.0 entry.Save }
{
    engine.sessions.save(session);
    engine.number += 1;
}

/// The innermost of two levels or more ends, and its changes go to the level below.
pub(crate) fn release(engine: &mut Engine, session: Session)
    requires number { engine.old.number ≤ 2 ^ 35 + 1 }
    requires inner { 2 ≤ levels_in session.0 engine.old.sessions }
    ensures { engine.new ≡ effect_on engine.old session.0 entry.Release }
{
    let level = engine.levels(session);
    engine.tables.release(session, level);
    engine.sessions.release(session);
    engine.number += 1;
}

/// The session's transaction is committed.
pub(crate) fn commit(engine: &mut Engine, session: Session)
    requires number { engine.old.number ≤ 2 ^ 35 + 1 }
    ensures { engine.new ≡ effect_on engine.old session.0 entry.Commit }
{
    let number = engine.number + 1;
    engine.tables.commit(session, number);
    engine.sessions.end_transaction(session);
    engine.number = number;
}

/// The innermost level is undone.
pub(crate) fn undo(engine: &mut Engine, session: Session)
    requires number { engine.old.number ≤ 2 ^ 35 + 1 }
    ensures { engine.new ≡ effect_on engine.old session.0 entry.Undo }
{
    let level = engine.levels(session);
    engine.tables.undo_level(session, level);
    engine.sessions.end_level(session);
    engine.number += 1;
}

/// All levels of the session's transaction are undone.
pub(crate) fn undo_all(engine: &mut Engine, session: Session)
    requires number { engine.old.number ≤ 2 ^ 35 + 1 }
    requires held { (state : DatabaseState) × HoldsState engine.old state }
    ensures { engine.new ≡ effect_on engine.old session.0 entry.UndoAll }
{
    undo_changes(engine, session);
    engine.sessions.end_transaction(session);
    engine.number += 1;
}

/// The session ends, and all levels of its transaction are undone.
pub(crate) fn leave(engine: &mut Engine, session: Session)
    requires number { engine.old.number ≤ 2 ^ 35 + 1 }
    requires held { (state : DatabaseState) × HoldsState engine.old state }
    ensures { engine.new ≡ effect_on engine.old session.0 entry.Leave }
{
    undo_changes(engine, session);
    engine.sessions.leave(session);
    engine.number += 1;
}

// The session's open changes are undone, of all levels.
fn undo_changes(engine: &mut Engine, session: Session)
    requires { (state : DatabaseState) × HoldsState engine.old state }
    ensures { engine.new ≡ record engine.old { store = with_changes_undone (is_open_of session.0) engine.old.store } }
{
    open_changes_stand_by_rising_levels();
    let _ = engine.levels(session);
    engine.tables.undo_session(session);
}
