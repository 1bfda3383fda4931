//! All sessions are given up.

ghost use Rattle.std.specs.Prelude.{◌≡◌, [], None, is_some};
ghost use Rattle.database_state.specs.State.{DatabaseState};
ghost use Rattle.laws_engine.specs.HeldRecords.{from_oldest_kept};
ghost use Rattle.stored_variants.specs.StoredVersions.{next_to_forget};
ghost use Rattle.laws_engine.specs.EngineState.{engine_of};
ghost use Rattle.laws_engine.specs.HoldsState.{HoldsState};
ghost use Rattle.loggable_steps.specs.Replays.{closed};
ghost use Rattle.engine_core.specs.Closing.{HaveLabels, HoldsTables, IsGivenUpTo, without_live};

use engine_parts::Engine;
use jet_base::Session;
use laws_engine::{a_lawful_entry_makes_the_next_state, open_changes_stand_by_rising_levels};
use loggable_steps::an_engine_without_sessions_tells_its_state;
use table_versions::TableVersions;

/// The greatest label of a session. The least is 1.
pub(crate) const LAST_LABEL: u32 = 99;

/// Gives up all sessions with their open changes, and all held changes, which nobody needs then: what is left is the engine of the
/// committed tables and the numbers that were given. It makes no log entry, and want of memory does not stop it.
pub fn close(engine: &mut Engine)
    requires held { (state : DatabaseState) × HoldsState engine.old state }
    requires labels { HaveLabels engine.old.sessions }
    ensures { (state : DatabaseState) → HoldsState engine.old state → engine.new ≡ engine_of engine.old.limit engine.old.newest_put (closed state) }
{
    an_engine_without_sessions_tells_its_state();
    give_up_sessions(engine);
    forget_all(&mut engine.tables);
}

/// Gives up the sessions in the order of their labels.
fn give_up_sessions(engine: &mut Engine)
    requires held { (state : DatabaseState) × HoldsState engine.old state }
    requires labels { HaveLabels engine.old.sessions }
    ensures { IsGivenUpTo 100 engine.old engine.new }
{
    a_lawful_entry_makes_the_next_state();
    let mut label = 1;
    while label <= LAST_LABEL {
        give_up(engine, Session(label));
        label += 1;
    }
}

/// A session ends, if it is live, and its open changes are undone.
fn give_up(engine: &mut Engine, session: Session)
    requires { (state : DatabaseState) × HoldsTables state engine.old }
    ensures { engine.new ≡ without_live session.0 engine.old }
{
    open_changes_stand_by_rising_levels();
    if engine.sessions.has(session) {
        let _ = engine.levels(session);
        engine.tables.undo_session(session);
        engine.sessions.leave(session);
    }
}

/// Forgets all held changes. None of them is needed.
fn forget_all(tables: &mut TableVersions)
    requires { from_oldest_kept None tables.old.store.held ≡ [] }
    ensures { tables.new ≡ record tables.old { store = record tables.old.store { held = [] } } }
{
    let mut more = has_unneeded(tables);
    while more {
        tables.forget();
        more = has_unneeded(tables);
    }
}

/// Whether the oldest held change is not needed once no session is live.
fn has_unneeded(tables: &TableVersions) -> bool
    ensures { result ≡ is_some (next_to_forget None tables.now.store.held) }
{
    tables.next_to_forget(None).is_some()
}
