//! Laws of the live sessions beside those of a database state.

ghost use Rattle.std.specs.Prelude.{◌≡◌, ◌+◌, List, map};
ghost use Rattle.index_derive.specs.declared.log.Entry.{Entry};
ghost use Rattle.database_state.specs.State.{DatabaseState, LiveSession, Status};
ghost use Rattle.database_state.specs.Step.{state_after};
ghost use Rattle.database_state.specs.VersionStore.{is_needed_status};
ghost use Rattle.version_store.specs.HeldChanges.{is_kept_status};
ghost use Rattle.version_cleanup.specs.LiveSessions.{live_state, sessions_after, oldest_begin};

/// An entry does to the sessions of a database state what it does to them without their snapshots.
pub fn entries_change_the_sessions_alike()
    ensures { (state : DatabaseState) (made : Entry)
        → map live_state (state_after state made).sessions ≡ sessions_after (state.number + 1) made.session.0 made.kind (map live_state state.sessions) }
{}

/// A change is kept, with the least begin number of an open transaction, exactly where a database state with these sessions
/// needs it.
pub fn needed_changes_are_kept()
    ensures { (sessions : List LiveSession) (status : Status)
        → is_kept_status (oldest_begin (map live_state sessions)) status ≡ is_needed_status sessions status }
{}
