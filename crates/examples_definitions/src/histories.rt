//! What sessions see and find of a record, and which changes conflict.
#![tactic(auto, unfolding(database_state::specs::Computing::computing))]

ghost use Rattle.std.specs.Prelude.{◌≡◌, List, [], ◌∷◌, true, false, Some, None, map, pos};
ghost use Rattle.index_derive.specs.declared.log.EntryKind.TheVariants as entry;
ghost use Rattle.database_state.specs.State.{uncommitted, committed, undone};
ghost use Rattle.database_state.specs.Conflicts.{has_write_conflict};
ghost use Rattle.database_state.specs.VersionStore.{is_needed, version_span};
ghost use Rattle.database_state.specs.Lawful.{is_lawful};
ghost use Rattle.database_state.specs.Step.{entry_by};
ghost use Rattle.examples_definitions.specs.States.{fields, put};
ghost use Rattle.examples_definitions.specs.Runs.{after, lock, add, shown, latest, found, befores, afters, levels_of, statuses};

/// Session 1 replaces a record under session 2, which goes on seeing the old one, finds it before the change, and may not
/// change it. Another record it may.
pub fn a_record_changed_under_a_reader()
    ensures { let state = after ((1, entry.Begin) ∷ (2, entry.Begin) ∷ (1, entry.Change (put 3 (fields 5 7 0))) ∷ []) in
        (shown state 1 3 ≡ Some (fields 5 7 0)) × (latest state 3 ≡ Some (fields 5 7 0)) × (found state 1 3 ≡ Some (fields 5 7 0))
        × (shown state 2 3 ≡ Some (fields 1 7 0)) × (found state 2 3 ≡ Some (fields 1 7 0))
        × (shown state 3 3 ≡ Some (fields 1 7 0)) × (found state 3 3 ≡ Some (fields 1 7 0))
        × (has_write_conflict state 2 (lock 3) ≡ true) × (is_lawful state (entry_by 2 (entry.Change (put 3 (fields 6 7 0)))) ≡ false)
        × (has_write_conflict state 1 (lock 3) ≡ false) × (is_lawful state (entry_by 2 (entry.Change (put 4 (fields 6 8 0)))) ≡ true) }
{}

/// The change is committed: the reader still sees the old record and may not change it. A transaction that begins now sees the
/// new one, and may; its put has the new record before it.
pub fn a_record_committed_under_a_reader()
    ensures readers { let state = after ((1, entry.Begin) ∷ (2, entry.Begin) ∷ (1, entry.Change (put 3 (fields 5 7 0))) ∷ (1, entry.Commit) ∷ (3, entry.Begin) ∷ []) in
        (shown state 2 3 ≡ Some (fields 1 7 0)) × (found state 2 3 ≡ Some (fields 1 7 0)) × (has_write_conflict state 2 (lock 3) ≡ true)
        × (shown state 3 3 ≡ Some (fields 5 7 0)) × (found state 3 3 ≡ Some (fields 5 7 0)) × (has_write_conflict state 3 (lock 3) ≡ false)
        × (is_lawful state (entry_by 3 (entry.Change (put 3 (fields 6 7 0)))) ≡ true) }
    ensures before { let state = after ((1, entry.Begin) ∷ (2, entry.Begin) ∷ (1, entry.Change (put 3 (fields 5 7 0))) ∷ (1, entry.Commit) ∷ (3, entry.Begin) ∷ (3, entry.Change (put 3 (fields 6 7 0))) ∷ []) in
        (befores state ≡ Some (fields 1 7 0) ∷ Some (fields 5 7 0) ∷ []) × (afters state ≡ Some (fields 5 7 0) ∷ Some (fields 6 7 0) ∷ []) × (statuses state ≡ committed 14 ∷ uncommitted ∷ [])
        × (found state 2 3 ≡ Some (fields 1 7 0)) × (found state 1 3 ≡ Some (fields 5 7 0)) × (found state 3 3 ≡ Some (fields 6 7 0)) }
{}

/// Two sessions add to one column at the same time. Each sees its own sum, and the newest record has both. What a session finds
/// is not its own record but the one with all sums, of which it must leave out those that it does not see.
pub fn sums_under_a_reader()
    ensures open_sums { let state = after ((1, entry.Begin) ∷ (2, entry.Begin) ∷ (1, entry.Change (add 3 (pos 4))) ∷ (2, entry.Change (add 3 (pos 5))) ∷ []) in
        (shown state 1 3 ≡ Some (fields 1 7 4)) × (shown state 2 3 ≡ Some (fields 1 7 5)) × (shown state 3 3 ≡ Some (fields 1 7 0))
        × (latest state 3 ≡ Some (fields 1 7 9)) × (found state 1 3 ≡ Some (fields 1 7 9)) × (found state 3 3 ≡ Some (fields 1 7 9))
        × (has_write_conflict state 2 (add 3 (pos 1)) ≡ false) × (has_write_conflict state 2 (lock 3) ≡ true) }
    ensures committed { let state = after ((1, entry.Begin) ∷ (2, entry.Begin) ∷ (1, entry.Change (add 3 (pos 4))) ∷ (2, entry.Change (add 3 (pos 5))) ∷ (2, entry.Commit) ∷ (1, entry.UndoAll) ∷ []) in
        (shown state 3 3 ≡ Some (fields 1 7 5)) × (latest state 3 ≡ Some (fields 1 7 5)) }
{}

/// A rollback gives up the changes of the innermost level, newest first, and each gives back the record before it. A release
/// hands them to the level below.
pub fn a_rollback_within_levels()
    ensures inner { let state = after ((1, entry.Begin) ∷ (1, entry.Change (put 3 (fields 5 7 0))) ∷ (1, entry.Save) ∷ (1, entry.Change (put 3 (fields 6 7 0))) ∷ (1, entry.Change (put 3 (fields 9 7 0))) ∷ (1, entry.Undo) ∷ []) in
        (shown state 1 3 ≡ Some (fields 5 7 0)) × (latest state 3 ≡ Some (fields 5 7 0))
        × (befores state ≡ Some (fields 1 7 0) ∷ Some (fields 5 7 0) ∷ Some (fields 6 7 0) ∷ []) × (levels_of state ≡ 1 ∷ 2 ∷ 2 ∷ []) × (statuses state ≡ uncommitted ∷ undone ∷ undone ∷ []) }
    ensures outer { let state = after ((1, entry.Begin) ∷ (1, entry.Change (put 3 (fields 5 7 0))) ∷ (1, entry.Save) ∷ (1, entry.Change (put 3 (fields 6 7 0))) ∷ (1, entry.Release) ∷ (1, entry.Undo) ∷ []) in
        (shown state 1 3 ≡ Some (fields 1 7 0)) × (latest state 3 ≡ Some (fields 1 7 0)) × (is_lawful state (entry_by 2 entry.Begin) ≡ true) × (is_lawful state (entry_by 1 entry.Save) ≡ false) }
{}

/// A change that was committed under a reader is needed as long as the reader's transaction stands, and not longer; one that
/// began behind the commit does not need it.
pub fn a_clean_under_a_reader()
    ensures needed { let state = after ((1, entry.Begin) ∷ (2, entry.Begin) ∷ (1, entry.Change (put 3 (fields 5 7 0))) ∷ (1, entry.Commit) ∷ (3, entry.Begin) ∷ []) in
        map (is_needed state.sessions) state.past ≡ true ∷ [] }
    ensures passed { let state = after ((1, entry.Begin) ∷ (2, entry.Begin) ∷ (1, entry.Change (put 3 (fields 5 7 0))) ∷ (1, entry.Commit) ∷ (3, entry.Begin) ∷ (2, entry.Commit) ∷ []) in
        (map (is_needed state.sessions) state.past ≡ false ∷ []) × (version_span state ≡ 0) × (shown state 3 3 ≡ Some (fields 5 7 0)) }
{}
