//! Keys of a unique index, and its entries, as sessions meet them.
#![tactic(auto, unfolding(database_state::specs::Computing::computing))]

ghost use Rattle.std.specs.Prelude.{◌≡◌, List, [], ◌∷◌, true, false, pos};
ghost use Rattle.index_derive.specs.declared.log.EntryKind.TheVariants as entry;
ghost use Rattle.database_state.specs.Lawful.{is_lawful, is_unique_throughout};
ghost use Rattle.database_state.specs.Step.{entry_by};
ghost use Rattle.examples_definitions.specs.States.{fields, put};
ghost use Rattle.examples_definitions.specs.Runs.{first_state, after, are_lawful, delete, meets_key, meets_variant, has_variant, entry_of, shown_of, derived_of};

/// Session 1 changes a unique key from 7 to 9. Session 2 may put neither as long as it stands before that change: one is the
/// key before it, the other the key after it. Another key it may put. The variants of the record tell the same.
pub fn keys_of_a_concurrent_change()
    ensures meets { let state = after ((1, entry.Begin) ∷ (2, entry.Begin) ∷ (1, entry.Change (put 3 (fields 1 9 0))) ∷ []) in
        (meets_key state 2 7 ≡ true) × (meets_key state 2 9 ≡ true) × (meets_key state 2 8 ≡ false) × (meets_key state 2 6 ≡ false) × (meets_key state 1 9 ≡ false)
        × (meets_variant state 2 7 ≡ true) × (meets_variant state 2 9 ≡ true) × (meets_variant state 2 8 ≡ false) × (meets_variant state 2 6 ≡ false) × (meets_variant state 1 9 ≡ false) }
    ensures lawful { let state = after ((1, entry.Begin) ∷ (2, entry.Begin) ∷ (1, entry.Change (put 3 (fields 1 9 0))) ∷ []) in
        (is_lawful state (entry_by 2 (entry.Change (put 14 (fields 4 7 0)))) ≡ false) × (is_lawful state (entry_by 2 (entry.Change (put 14 (fields 4 9 0)))) ≡ false)
        × (is_lawful state (entry_by 2 (entry.Change (put 14 (fields 4 6 0)))) ≡ true) }
    ensures committed { let state = after ((1, entry.Begin) ∷ (2, entry.Begin) ∷ (1, entry.Change (put 3 (fields 1 9 0))) ∷ (1, entry.Commit) ∷ (3, entry.Begin) ∷ []) in
        (meets_key state 2 7 ≡ true) × (meets_variant state 2 7 ≡ true) × (meets_key state 3 7 ≡ false) × (meets_variant state 3 7 ≡ false) × (meets_key state 3 9 ≡ false)
        × (is_lawful state (entry_by 3 (entry.Change (put 16 (fields 4 7 0)))) ≡ true) × (is_lawful state (entry_by 3 (entry.Change (put 16 (fields 4 9 0)))) ≡ false) }
{}

/// The index's tree holds the entries of both variants. Each session is shown those of the record that it sees, which are the
/// index derived of its view. An undo takes the key that no variant has then.
pub fn entries_of_two_variants()
    ensures variants { let state = after ((1, entry.Begin) ∷ (2, entry.Begin) ∷ (1, entry.Change (put 3 (fields 1 9 0))) ∷ []) in
        (has_variant state 7 3 ≡ true) × (has_variant state 9 3 ≡ true) × (has_variant state 8 3 ≡ false) × (has_variant state 8 4 ≡ true) }
    ensures shown { let state = after ((1, entry.Begin) ∷ (2, entry.Begin) ∷ (1, entry.Change (put 3 (fields 1 9 0))) ∷ []) in
        (shown_of state 2 (entry_of 7 3 ∷ entry_of 8 4 ∷ entry_of 9 3 ∷ []) ≡ entry_of 7 3 ∷ entry_of 8 4 ∷ []) × (derived_of state 2 ≡ entry_of 7 3 ∷ entry_of 8 4 ∷ [])
        × (shown_of state 1 (entry_of 7 3 ∷ entry_of 8 4 ∷ entry_of 9 3 ∷ []) ≡ entry_of 8 4 ∷ entry_of 9 3 ∷ []) × (derived_of state 1 ≡ entry_of 8 4 ∷ entry_of 9 3 ∷ []) }
    ensures undone { let state = after ((1, entry.Begin) ∷ (2, entry.Begin) ∷ (1, entry.Change (put 3 (fields 1 9 0))) ∷ (1, entry.Undo) ∷ []) in
        (has_variant state 7 3 ≡ true) × (has_variant state 9 3 ≡ false) × (meets_key state 2 9 ≡ false) × (derived_of state 1 ≡ entry_of 7 3 ∷ entry_of 8 4 ∷ []) }
{}

/// Two sessions put different unique keys side by side, and both commit, in either order. A key that both want, the second may
/// not put at all, so that no commit ever finds it twice.
pub fn commits_of_different_keys()
    ensures one_first { are_lawful first_state ((1, entry.Begin) ∷ (2, entry.Begin) ∷ (1, entry.Change (put 3 (fields 1 9 0))) ∷ (2, entry.Change (put 14 (fields 4 6 0))) ∷ (1, entry.Commit) ∷ (2, entry.Commit) ∷ []) ≡ true }
    ensures other_first { are_lawful first_state ((1, entry.Begin) ∷ (2, entry.Begin) ∷ (1, entry.Change (put 3 (fields 1 9 0))) ∷ (2, entry.Change (put 14 (fields 4 6 0))) ∷ (2, entry.Commit) ∷ (1, entry.Commit) ∷ []) ≡ true }
    ensures both { let state = after ((1, entry.Begin) ∷ (2, entry.Begin) ∷ (1, entry.Change (put 3 (fields 1 9 0))) ∷ (2, entry.Change (put 14 (fields 4 6 0))) ∷ (1, entry.Commit) ∷ (2, entry.Commit) ∷ []) in
        (is_unique_throughout state.tables ≡ true) × (derived_of state 3 ≡ entry_of 6 14 ∷ entry_of 8 4 ∷ entry_of 9 3 ∷ []) }
    ensures same_key { are_lawful first_state ((1, entry.Begin) ∷ (2, entry.Begin) ∷ (1, entry.Change (put 3 (fields 1 9 0))) ∷ (2, entry.Change (put 14 (fields 4 9 0))) ∷ []) ≡ false }
{}

/// Session 1 puts a unique key, deletes its record and commits each; then session 2 puts the key at another record. Session 3,
/// which began between, finds the key at the first record still, and never at both.
pub fn a_key_that_wanders_under_a_reader()
    ensures lawful { are_lawful first_state
        ((1, entry.Begin) ∷ (1, entry.Change (put 12 (fields 4 9 0))) ∷ (1, entry.Commit) ∷ (3, entry.Begin) ∷ (1, entry.Begin) ∷ (1, entry.Change (delete 12)) ∷ (1, entry.Commit) ∷ (2, entry.Begin)
        ∷ (2, entry.Change (put 19 (fields 5 9 0))) ∷ (2, entry.Commit) ∷ []) ≡ true }
    ensures shown { let state = after
        ((1, entry.Begin) ∷ (1, entry.Change (put 12 (fields 4 9 0))) ∷ (1, entry.Commit) ∷ (3, entry.Begin) ∷ (1, entry.Begin) ∷ (1, entry.Change (delete 12)) ∷ (1, entry.Commit) ∷ (2, entry.Begin)
        ∷ (2, entry.Change (put 19 (fields 5 9 0))) ∷ (2, entry.Commit) ∷ []) in
        (derived_of state 3 ≡ entry_of 7 3 ∷ entry_of 8 4 ∷ entry_of 9 12 ∷ []) × (derived_of state 1 ≡ entry_of 7 3 ∷ entry_of 8 4 ∷ entry_of 9 19 ∷ []) × (is_unique_throughout state.tables ≡ true) }
    ensures too_early { are_lawful first_state
        ((1, entry.Begin) ∷ (1, entry.Change (put 12 (fields 4 9 0))) ∷ (1, entry.Commit) ∷ (2, entry.Begin) ∷ (1, entry.Begin) ∷ (1, entry.Change (delete 12)) ∷ (1, entry.Commit)
        ∷ (2, entry.Change (put 18 (fields 5 9 0))) ∷ []) ≡ false }
{}
