//! Equivalent states: what is forgotten of one, and that nothing tells it.
#![tactic(auto, unfolding(database_state::specs::Computing::computing))]

ghost use Rattle.std.specs.Prelude.{◌≡◌, List, [], ◌∷◌, true, false, Some, None, pos};
ghost use Rattle.index_derive.specs.declared.log.EntryKind.TheVariants as entry;
ghost use Rattle.database_state.specs.Conflicts.{has_write_conflict};
ghost use Rattle.database_state.specs.State.{committed};
ghost use Rattle.database_state.specs.Step.{entry_by, state_after};
ghost use Rattle.database_state.specs.Equivalence.{essence};
ghost use Rattle.database_state.specs.Lawful.{is_lawful};
ghost use Rattle.database_state.specs.VersionStore.{version_span};
ghost use Rattle.examples_definitions.specs.States.{fields, past_change, put};
ghost use Rattle.examples_definitions.specs.Runs.{after, first_state, lock, add, shown, latest, meets_key};
ghost use Rattle.examples_definitions.specs.Forgetting.{cleaned, with_undone, with_sums, numbers_kept, costs_kept, meets_sum};

/// Session 1 commits a put before session 2 begins, and one after. A clean takes the first; the second is needed. Session 2 sees
/// and meets the same with it and without it.
pub fn a_clean_that_nobody_notices()
    ensures kept { let state = after ((1, entry.Begin) ∷ (1, entry.Change (put 4 (fields 2 6 0))) ∷ (1, entry.Commit) ∷ (2, entry.Begin) ∷ (1, entry.Begin) ∷ (1, entry.Change (put 3 (fields 5 9 0))) ∷ (1, entry.Commit) ∷ []) in
        (numbers_kept state ≡ 16 ∷ []) × (numbers_kept (cleaned state) ≡ 16 ∷ []) × (costs_kept state ≡ 96 ∷ []) × (version_span state ≡ 96) × (version_span (cleaned state) ≡ 96) }
    ensures before { let state = after ((1, entry.Begin) ∷ (1, entry.Change (put 4 (fields 2 6 0))) ∷ (1, entry.Commit) ∷ (2, entry.Begin) ∷ (1, entry.Begin) ∷ (1, entry.Change (put 3 (fields 5 9 0))) ∷ (1, entry.Commit) ∷ []) in
        (shown state 2 3 ≡ Some (fields 1 7 0)) × (has_write_conflict state 2 (lock 3) ≡ true) × (has_write_conflict state 2 (lock 4) ≡ false)
        × (meets_key state 2 7 ≡ true) × (meets_key state 2 9 ≡ true) × (meets_key state 2 6 ≡ false) × (is_lawful state (entry_by 2 (entry.Change (put 4 (fields 2 8 0)))) ≡ true) }
    ensures cleaned { let state = cleaned (after ((1, entry.Begin) ∷ (1, entry.Change (put 4 (fields 2 6 0))) ∷ (1, entry.Commit) ∷ (2, entry.Begin) ∷ (1, entry.Begin) ∷ (1, entry.Change (put 3 (fields 5 9 0))) ∷ (1, entry.Commit) ∷ [])) in
        (shown state 2 3 ≡ Some (fields 1 7 0)) × (has_write_conflict state 2 (lock 3) ≡ true) × (has_write_conflict state 2 (lock 4) ≡ false)
        × (meets_key state 2 7 ≡ true) × (meets_key state 2 9 ≡ true) × (meets_key state 2 6 ≡ false) × (is_lawful state (entry_by 2 (entry.Change (put 4 (fields 2 8 0)))) ≡ true) }
{}

/// Session 1 locks record 4, and undoes a put of record 3 behind that. Which records the put had is forgotten: no one meets its
/// keys. What it costs is kept, since the span counts it.
pub fn an_undone_put_whose_records_are_forgotten()
    ensures same { let state = after ((1, entry.Begin) ∷ (2, entry.Begin) ∷ (1, entry.Change (lock 4)) ∷ (1, entry.Save) ∷ (1, entry.Change (put 3 (fields 5 9 0))) ∷ (1, entry.Undo) ∷ []) in
        (essence (with_undone (Some (fields 0 0 0)) state)).past ≡ (essence state).past }
    ensures keys { let state = after ((1, entry.Begin) ∷ (2, entry.Begin) ∷ (1, entry.Change (lock 4)) ∷ (1, entry.Save) ∷ (1, entry.Change (put 3 (fields 5 9 0))) ∷ (1, entry.Undo) ∷ []) in
        (meets_key state 2 9 ≡ false) × (meets_key (with_undone (Some (fields 0 0 0)) state) 2 9 ≡ false)
        × (is_lawful state (entry_by 2 (entry.Change (put 3 (fields 6 9 0)))) ≡ true) × (is_lawful (with_undone (Some (fields 0 0 0)) state) (entry_by 2 (entry.Change (put 3 (fields 6 9 0)))) ≡ true) }
    ensures span { let state = after ((1, entry.Begin) ∷ (2, entry.Begin) ∷ (1, entry.Change (lock 4)) ∷ (1, entry.Save) ∷ (1, entry.Change (put 3 (fields 5 9 0))) ∷ (1, entry.Undo) ∷ []) in
        (costs_kept state ≡ 64 ∷ 96 ∷ []) × (version_span state ≡ 160) × (version_span (with_undone (Some (fields 0 0 0)) state) ≡ 160) × (version_span (with_undone None state) ≡ 128) }
{}

/// Session 1 adds to a sum and undoes that behind session 2's own sum, whose records had the sum of both. What the sums were
/// then is forgotten: keys do not read them. An index on the sum would, so none is made.
pub fn a_sum_whose_sums_are_forgotten()
    ensures same { let state = after ((1, entry.Begin) ∷ (2, entry.Begin) ∷ (3, entry.Begin) ∷ (1, entry.Change (add 3 (pos 4))) ∷ (2, entry.Change (add 3 (pos 5))) ∷ (1, entry.Undo) ∷ []) in
        (essence (with_sums (fields 1 7 0) state)).past ≡ (essence state).past }
    ensures seen { let state = after ((1, entry.Begin) ∷ (2, entry.Begin) ∷ (3, entry.Begin) ∷ (1, entry.Change (add 3 (pos 4))) ∷ (2, entry.Change (add 3 (pos 5))) ∷ (1, entry.Undo) ∷ []) in
        (shown (with_sums (fields 1 7 0) state) 2 3 ≡ Some (fields 1 7 5)) × (latest (with_sums (fields 1 7 0) state) 3 ≡ Some (fields 1 7 5)) × (latest state 3 ≡ Some (fields 1 7 5)) }
    ensures keys { let state = after ((1, entry.Begin) ∷ (2, entry.Begin) ∷ (3, entry.Begin) ∷ (1, entry.Change (add 3 (pos 4))) ∷ (2, entry.Change (add 3 (pos 5))) ∷ (1, entry.Undo) ∷ []) in
        (meets_key state 3 7 ≡ true) × (meets_key (with_sums (fields 1 7 0) state) 3 7 ≡ true) × (meets_key state 3 9 ≡ false) × (meets_key (with_sums (fields 1 7 0) state) 3 9 ≡ false) }
    ensures index_on_sum { let state = after ((1, entry.Begin) ∷ (2, entry.Begin) ∷ (3, entry.Begin) ∷ (1, entry.Change (add 3 (pos 4))) ∷ (2, entry.Change (add 3 (pos 5))) ∷ (1, entry.Undo) ∷ []) in
        (meets_sum state 3 9 ≡ true) × (meets_sum (with_sums (fields 1 7 0) state) 3 9 ≡ false) }
{}

/// What a history asks is needed: a past that names a commit after the state's own number, as no entries lead to, is missed once
/// a transaction begins below it.
pub fn a_commit_that_is_yet_to_come()
    ensures kept { let state = record first_state { past = past_change 6 (put 3 (fields 5 7 0)) (Some (fields 1 7 0)) (Some (fields 5 7 0)) (committed 99) ∷ [] } in
        (numbers_kept state ≡ []) × (numbers_kept (cleaned state) ≡ []) }
    ensures begun { let state = record first_state { past = past_change 6 (put 3 (fields 5 7 0)) (Some (fields 1 7 0)) (Some (fields 5 7 0)) (committed 99) ∷ [] } in
        (numbers_kept (state_after state (entry_by 2 entry.Begin)) ≡ 6 ∷ []) × (numbers_kept (state_after (cleaned state) (entry_by 2 entry.Begin)) ≡ []) }
{}
