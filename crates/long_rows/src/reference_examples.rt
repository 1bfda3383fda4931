//! Worked examples: counts, step by step.

ghost use Rattle.std.specs.Prelude.{◌≡◌, [], ◌∷◌, ◌++◌, true, false, Some, None};
ghost use Rattle.long_rows.specs.RowReferences.{identifiers, references, removed_identifiers};
ghost use Rattle.long_rows.specs.ReferenceCounts.{as_undone, count_of, reference_count, with_all_released, with_all_taken, with_change, with_row};
ghost use Rattle.long_rows.specs.ReferenceSamples.{first_id, naming_first, naming_none, naming_twice, next_id};

/// A row that names a value twice is one reference to it, and gives it up where the row that it becomes does not name it.
pub fn a_value_named_twice()
    ensures once { references first_id (Some naming_twice) ≡ 1 }
    ensures beside { references next_id (Some naming_twice) ≡ 1 }
    ensures names { identifiers (Some naming_twice) ≡ next_id ∷ first_id ∷ [] }
    ensures removed { (removed_identifiers (Some naming_twice) (Some naming_first) ≡ next_id ∷ []) × (removed_identifiers (Some naming_twice) (Some naming_none) ≡ next_id ∷ first_id ∷ []) × (removed_identifiers (Some naming_first) (Some naming_twice) ≡ []) }
    ensures none { (references next_id (Some naming_first) ≡ 0) × (references first_id (Some naming_none) ≡ 0) × (references first_id None ≡ 0) }
{}

/// Records 3 and 4 share a value. Record 3 is replaced by a row without it: the row before it refers to the value still. That
/// change is undone, and the reference goes back to the row. Then record 4 is dropped, and its change is the only one that
/// still refers to the value for it: once the undone change and the drop are cleaned, record 3 alone does.
pub fn a_shared_value()
    ensures shared { let rows = (3 ∷ [], naming_first) ∷ (4 ∷ [], naming_first) ∷ [] in reference_count first_id rows [] ≡ 2 }
    ensures replaced { let rows = (3 ∷ [], naming_first) ∷ (4 ∷ [], naming_first) ∷ [] in
        (with_row (3 ∷ []) (Some naming_none) rows ≡ (3 ∷ [], naming_none) ∷ (4 ∷ [], naming_first) ∷ [])
        × (with_change (3 ∷ []) rows [] ≡ record { bookmark = 3 ∷ []; row = Some naming_first; is_undone = false } ∷ [])
        × (reference_count first_id ((3 ∷ [], naming_none) ∷ (4 ∷ [], naming_first) ∷ []) (record { bookmark = 3 ∷ []; row = Some naming_first; is_undone = false } ∷ []) ≡ 2) }
    ensures undone { reference_count first_id ((3 ∷ [], naming_first) ∷ (4 ∷ [], naming_first) ∷ []) (record { bookmark = 3 ∷ []; row = Some naming_first; is_undone = true } ∷ []) ≡ 2 }
    ensures dropped { let rows = (3 ∷ [], naming_first) ∷ (4 ∷ [], naming_first) ∷ [] in let held = with_change (4 ∷ []) rows (record { bookmark = 3 ∷ []; row = Some naming_first; is_undone = true } ∷ []) in
        reference_count first_id (with_row (4 ∷ []) None rows) held ≡ 2 }
    ensures cleaned { (reference_count first_id ((3 ∷ [], naming_first) ∷ []) (record { bookmark = 4 ∷ []; row = Some naming_first; is_undone = false } ∷ []) ≡ 2) × (reference_count first_id ((3 ∷ [], naming_first) ∷ []) [] ≡ 1) }
    ensures values { let bytes = 1 ∷ 2 ∷ [] in let one = with_all_taken ((first_id, bytes) ∷ []) [] in let two = with_all_taken ((first_id, bytes) ∷ []) one in
        (count_of first_id one ≡ 1) × (count_of first_id two ≡ 2) × (with_all_released (first_id ∷ []) two ≡ one) × (with_all_released (first_id ∷ []) one ≡ []) }
{}
