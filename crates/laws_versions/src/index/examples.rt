//! Worked examples. Each function has an empty body, and its clause says what the definitions give.
#![tactic(auto, unfolding(index_derive::specs::Entries::opening, database_state::specs::Table::index_entries))]

ghost use Rattle.std.specs.Prelude.{◌≡◌, List, [], ◌∷◌, true, false, Some, None, codes};
ghost use Rattle.column_set.specs.RecordValues.{put_by_key, remove_by_key};
ghost use Rattle.index_derive.specs.Entries.{derive, is_legal, has_double_key};
ghost use Rattle.cursor_nav.specs.Places.{are_sorted};
ghost use Rattle.database_state.specs.Puts.{is_taken, new_keys};
ghost use Rattle.laws_versions.specs.KeptEntries.{with_entries, without_entries, without_each, entries_with, has_entry, has_key, has_equal_neighbours};
ghost use Rattle.laws_versions.specs.IndexSamples.{text_index, text_schema, sample_rows, sample_entries, letter_key, with_text};

/// The entries of three records: NULL comes first, then the texts in their order.
pub fn entries_of_three_records()
    ensures legal { is_legal text_index text_schema ≡ true }
    ensures entries { derive text_index text_schema sample_rows ≡ sample_entries }
    ensures sorted { are_sorted sample_entries ≡ true }
    ensures stands { has_entry (letter_key 0x41) (2 ∷ []) sample_entries ≡ true }
    ensures another_record { has_entry (letter_key 0x41) (1 ∷ []) sample_entries ≡ false }
{}

/// A fourth record, with the letter that the second has, adds its entry behind the second's.
pub fn a_fourth_record()
    ensures derived { derive text_index text_schema (put_by_key (4 ∷ []) (with_text (codes "a")) sample_rows)
        ≡ (0 ∷ [], 3 ∷ []) ∷ (letter_key 0x41, 2 ∷ []) ∷ (letter_key 0x41, 4 ∷ []) ∷ (letter_key 0x42, 1 ∷ []) ∷ [] }
    ensures kept_up { with_entries (letter_key 0x41 ∷ []) (4 ∷ []) sample_entries
        ≡ (0 ∷ [], 3 ∷ []) ∷ (letter_key 0x41, 2 ∷ []) ∷ (letter_key 0x41, 4 ∷ []) ∷ (letter_key 0x42, 1 ∷ []) ∷ [] }
    ensures two_keys { with_entries (letter_key 0x41 ∷ letter_key 0x43 ∷ []) (4 ∷ []) sample_entries
        ≡ (0 ∷ [], 3 ∷ []) ∷ (letter_key 0x41, 2 ∷ []) ∷ (letter_key 0x41, 4 ∷ []) ∷ (letter_key 0x42, 1 ∷ []) ∷ (letter_key 0x43, 4 ∷ []) ∷ [] }
{}

/// The second record goes, and its entry with it.
pub fn a_record_that_goes()
    ensures derived { derive text_index text_schema (remove_by_key (2 ∷ []) sample_rows) ≡ (0 ∷ [], 3 ∷ []) ∷ (letter_key 0x42, 1 ∷ []) ∷ [] }
    ensures kept_up { without_entries (2 ∷ []) sample_entries ≡ (0 ∷ [], 3 ∷ []) ∷ (letter_key 0x42, 1 ∷ []) ∷ [] }
    ensures one_by_one { without_each (letter_key 0x41 ∷ letter_key 0x42 ∷ []) (2 ∷ []) sample_entries ≡ (0 ∷ [], 3 ∷ []) ∷ (letter_key 0x42, 1 ∷ []) ∷ [] }
    ensures its_own { entries_with (2 ∷ []) sample_entries ≡ (letter_key 0x41, 2 ∷ []) ∷ [] }
{}

/// The second record takes another text: its old entry goes, and a new one comes last.
pub fn a_record_that_changes()
    ensures lost { new_keys text_index text_schema (Some (with_text (codes "C"))) (with_text (codes "A")) ≡ letter_key 0x41 ∷ [] }
    ensures same_letter { new_keys text_index text_schema (Some (with_text (codes "a"))) (with_text (codes "A")) ≡ [] }
    ensures derived { derive text_index text_schema (put_by_key (2 ∷ []) (with_text (codes "C")) sample_rows)
        ≡ (0 ∷ [], 3 ∷ []) ∷ (letter_key 0x42, 1 ∷ []) ∷ (letter_key 0x43, 2 ∷ []) ∷ [] }
    ensures kept_up { with_entries (letter_key 0x43 ∷ []) (2 ∷ []) (without_each (letter_key 0x41 ∷ []) (2 ∷ []) sample_entries)
        ≡ (0 ∷ [], 3 ∷ []) ∷ (letter_key 0x42, 1 ∷ []) ∷ (letter_key 0x43, 2 ∷ []) ∷ [] }
{}

/// A key that two records share stands at two neighbours, and a key that one has is taken for every other.
pub fn shared_keys()
    ensures of_three { has_equal_neighbours sample_entries ≡ false }
    ensures of_four { has_double_key text_index text_schema (put_by_key (4 ∷ []) (with_text (codes "a")) sample_rows) ≡ true }
    ensures at_neighbours { has_equal_neighbours (with_entries (letter_key 0x41 ∷ []) (4 ∷ []) sample_entries) ≡ true }
    ensures taken { is_taken text_schema sample_rows text_index None (letter_key 0x41) ≡ true }
    ensures its_own { is_taken text_schema sample_rows text_index (Some (2 ∷ [])) (letter_key 0x41) ≡ false }
    ensures free { has_key (letter_key 0x43) sample_entries ≡ false }
{}
