//! Sums of an escrow column, as sessions see them.
#![tactic(auto, unfolding(database_state::specs::Computing::computing))]

ghost use Rattle.std.specs.Prelude.{◌≡◌, List, [], ◌∷◌, true, false, Some, pos, negsuc};
ghost use Rattle.index_derive.specs.declared.log.EntryKind.TheVariants as entry;
ghost use Rattle.database_state.specs.State.{uncommitted, committed, undone};
ghost use Rattle.database_state.specs.Lawful.{is_lawful};
ghost use Rattle.database_state.specs.Step.{entry_by};
ghost use Rattle.examples_definitions.specs.States.{fields, put};
ghost use Rattle.examples_definitions.specs.Runs.{after, add, shown, latest, found, unseen, stored_number, seen_number, befores, statuses, meets_key, meets_variant, derived_of, entry_of};

/// Session 1 adds 4 under session 2, which began before it: the stored number has the sum, and without it is the one that
/// session 2 sees, while the sum is open and when it is committed. A session that begins then sees the sum.
pub fn a_sum_under_a_reader_that_began_before_it()
    ensures open_sum { let state = after ((2, entry.Begin) ∷ (1, entry.Begin) ∷ (1, entry.Change (add 3 (pos 4))) ∷ []) in
        (shown state 2 3 ≡ Some (fields 1 7 0)) × (found state 2 3 ≡ Some (fields 1 7 4)) × (unseen state 2 3 ≡ (3, pos 4) ∷ []) × (stored_number state 2 3 ≡ pos 4) × (seen_number state 2 3 ≡ pos 0)
        × (shown state 1 3 ≡ Some (fields 1 7 4)) × (unseen state 1 3 ≡ []) × (seen_number state 1 3 ≡ pos 4) }
    ensures committed_sum { let state = after ((2, entry.Begin) ∷ (1, entry.Begin) ∷ (1, entry.Change (add 3 (pos 4))) ∷ (1, entry.Commit) ∷ (3, entry.Begin) ∷ []) in
        (shown state 2 3 ≡ Some (fields 1 7 0)) × (unseen state 2 3 ≡ (3, pos 4) ∷ []) × (seen_number state 2 3 ≡ pos 0)
        × (shown state 3 3 ≡ Some (fields 1 7 4)) × (unseen state 3 3 ≡ []) × (seen_number state 3 3 ≡ pos 4) }
    ensures own_sum { let state = after ((2, entry.Begin) ∷ (1, entry.Begin) ∷ (1, entry.Change (add 3 (pos 4))) ∷ (2, entry.Change (add 3 (negsuc 0))) ∷ (1, entry.Commit) ∷ []) in
        (shown state 2 3 ≡ Some ((1, (1 ∷ 0 ∷ 0 ∷ 0 ∷ []) ∷ []) ∷ (2, (7 ∷ 0 ∷ 0 ∷ 0 ∷ []) ∷ []) ∷ (3, (255 ∷ 255 ∷ 255 ∷ 255 ∷ []) ∷ []) ∷ [])) × (latest state 3 ≡ Some (fields 1 7 3)) × (stored_number state 2 3 ≡ pos 3) × (seen_number state 2 3 ≡ negsuc 0) }
{}

/// Behind that sum session 3 replaces the record: session 2 finds the row before the put, which has the sum, and sees it without
/// it. A sum behind the put is not in that row, and none of what session 2 leaves out.
pub fn a_put_behind_a_sum_under_a_reader()
    ensures put { let state = after ((2, entry.Begin) ∷ (1, entry.Begin) ∷ (1, entry.Change (add 3 (pos 4))) ∷ (1, entry.Commit) ∷ (3, entry.Begin) ∷ (3, entry.Change (put 3 (fields 9 7 4))) ∷ (3, entry.Change (add 3 (pos 8))) ∷ []) in
        (found state 2 3 ≡ Some (fields 1 7 4)) × (unseen state 2 3 ≡ (3, pos 4) ∷ []) × (seen_number state 2 3 ≡ pos 0) × (shown state 2 3 ≡ Some (fields 1 7 0))
        × (shown state 3 3 ≡ Some (fields 9 7 12)) × (seen_number state 3 3 ≡ pos 12) × (latest state 3 ≡ Some (fields 9 7 12)) }
{}

/// Session 1 rolls its sum back after session 2 made another. The newest record has the other one alone, though the record before
/// it, which nobody reads but for its keys, still has the first.
pub fn a_sum_rolled_back_with_anothers_after_it()
    ensures rolled_back { let state = after ((1, entry.Begin) ∷ (2, entry.Begin) ∷ (1, entry.Change (add 3 (pos 4))) ∷ (2, entry.Change (add 3 (pos 5))) ∷ (1, entry.UndoAll) ∷ []) in
        (latest state 3 ≡ Some (fields 1 7 5)) × (shown state 2 3 ≡ Some (fields 1 7 5)) × (shown state 1 3 ≡ Some (fields 1 7 0))
        × (unseen state 1 3 ≡ (3, pos 5) ∷ []) × (seen_number state 1 3 ≡ pos 0) × (unseen state 2 3 ≡ []) × (seen_number state 2 3 ≡ pos 5)
        × (befores state ≡ Some (fields 1 7 0) ∷ Some (fields 1 7 4) ∷ []) × (statuses state ≡ undone ∷ uncommitted ∷ []) }
    ensures keys { let state = after ((1, entry.Begin) ∷ (2, entry.Begin) ∷ (1, entry.Change (add 3 (pos 4))) ∷ (2, entry.Change (add 3 (pos 5))) ∷ (1, entry.UndoAll) ∷ []) in
        (meets_key state 3 7 ≡ true) × (meets_variant state 3 7 ≡ true) × (meets_key state 3 8 ≡ false) × (meets_variant state 3 8 ≡ false)
        × (derived_of state 1 ≡ entry_of 7 3 ∷ entry_of 8 4 ∷ []) × (derived_of state 2 ≡ entry_of 7 3 ∷ entry_of 8 4 ∷ []) }
    ensures committed { let state = after ((1, entry.Begin) ∷ (2, entry.Begin) ∷ (1, entry.Change (add 3 (pos 4))) ∷ (2, entry.Change (add 3 (pos 5))) ∷ (1, entry.UndoAll) ∷ (2, entry.Commit) ∷ []) in
        (shown state 1 3 ≡ Some (fields 1 7 5)) × (seen_number state 1 3 ≡ pos 5) × (is_lawful state (entry_by 1 entry.Begin) ≡ true) }
{}
