//! The keys that a record has in an index.
#![tactic(auto, unfolding(index_derive::specs::Entries::opening))]

ghost use Rattle.std.specs.Prelude.{◌≡◌, ℕ, List, [], ◌∷◌, ◌++◌, true, false, codes, replicate, length, map};
ghost use Rattle.key_normal.specs.KeyBytes.{segment_bytes, is_cut, cut_key};
ghost use Rattle.jet_base.specs.declared.words.ColType.TheVariants as kind;
ghost use Rattle.index_derive.specs.Entries.{entries, key_list, whole_key, NullKeyDisallowed, KeyTruncated};
ghost use Rattle.index_derive.specs.Flags.{no_flags};
ghost use Rattle.examples_definitions.specs.Samples.{sample_schema, ascending, descending, if_null, if_not_null, index_over};

/// Letters that differ in case alone give one key.
pub fn keys_of_several_values()
    ensures { key_list (index_over no_flags (ascending 256 ∷ [])) sample_schema ((256, codes "b" ∷ codes "B" ∷ codes "a" ∷ []) ∷ [])
        ≡ (0x7f ∷ 0x41 ∷ 0 ∷ 0 ∷ 0 ∷ 0 ∷ 0 ∷ 0 ∷ 0 ∷ 1 ∷ []) ∷ (0x7f ∷ 0x42 ∷ 0 ∷ 0 ∷ 0 ∷ 0 ∷ 0 ∷ 0 ∷ 0 ∷ 1 ∷ []) ∷ [] }
{}

/// Two columns of several values: the first gives the entries, each with the second's first value. With `crossproduct` there is one for each combination.
pub fn entries_over_two_columns_of_several_values()
    ensures first { let fields = (256, codes "a" ∷ codes "b" ∷ codes "c" ∷ []) ∷ (257, codes "x" ∷ codes "y" ∷ []) ∷ [] in
        length (key_list (index_over no_flags (ascending 256 ∷ ascending 257 ∷ [])) sample_schema fields) ≡ 3 }
    ensures all { let fields = (256, codes "a" ∷ codes "b" ∷ codes "c" ∷ []) ∷ (257, codes "x" ∷ codes "y" ∷ []) ∷ [] in
        length (key_list (index_over (record no_flags { crossproduct = true }) (ascending 256 ∷ ascending 257 ∷ [])) sample_schema fields) ≡ 6 }
    ensures first_has_none { length (key_list (index_over no_flags (ascending 256 ∷ ascending 257 ∷ [])) sample_schema ((257, codes "x" ∷ codes "y" ∷ []) ∷ [])) ≡ 1 }
{}

/// A column without a value counts as one NULL.
pub fn entries_with_nulls()
    ensures one { key_list (index_over no_flags (ascending 256 ∷ ascending 2 ∷ [])) sample_schema [] ≡ (0 ∷ 0 ∷ []) ∷ [] }
    ensures high { key_list (index_over (record no_flags { sortnullshigh = true }) (ascending 256 ∷ descending 2 ∷ [])) sample_schema [] ≡ (0xc0 ∷ 0x3f ∷ []) ∷ [] }
    ensures all_ignored { key_list (index_over (record no_flags { ignorenull = true }) (ascending 256 ∷ ascending 2 ∷ [])) sample_schema [] ≡ [] }
    ensures one_of_two_stays { key_list (index_over (record no_flags { ignorenull = true }) (ascending 256 ∷ ascending 2 ∷ [])) sample_schema ((2, (1 ∷ 0 ∷ []) ∷ []) ∷ []) ≡ (0 ∷ 0x7f ∷ 0x80 ∷ 1 ∷ []) ∷ [] }
    ensures any_ignored { key_list (index_over (record no_flags { ignoreanynull = true }) (ascending 256 ∷ ascending 2 ∷ [])) sample_schema ((2, (1 ∷ 0 ∷ []) ∷ []) ∷ []) ≡ [] }
    ensures first_ignored { key_list (index_over (record no_flags { ignorefirstnull = true }) (ascending 256 ∷ ascending 2 ∷ [])) sample_schema ((2, (1 ∷ 0 ∷ []) ∷ []) ∷ []) ≡ [] }
    ensures second_stays { length (key_list (index_over (record no_flags { ignorefirstnull = true }) (ascending 2 ∷ ascending 256 ∷ [])) sample_schema ((2, (1 ∷ 0 ∷ []) ∷ []) ∷ [])) ≡ 1 }
{}

/// A NULL is refused where the index disallows it, but not one that a flag or a condition leaves out.
pub fn disallowed_nulls()
    ensures refused { entries (index_over (record no_flags { disallownull = true }) (ascending 128 ∷ [])) sample_schema [] ≡ Err NullKeyDisallowed }
    ensures ignored { entries (index_over (record no_flags { disallownull = true; ignorenull = true }) (ascending 128 ∷ [])) sample_schema [] ≡ Ok [] }
    ensures not_in_the_index { entries (record (index_over (record no_flags { disallownull = true }) (ascending 128 ∷ [])) { conditions = if_not_null 1 ∷ [] }) sample_schema [] ≡ Ok [] }
    ensures empty_is_a_value { entries (index_over (record no_flags { disallownull = true }) (ascending 128 ∷ [])) sample_schema ((128, [] ∷ []) ∷ []) ≡ Ok ((0x40 ∷ []) ∷ []) }
{}

/// A record stands in the index only where it meets each condition.
pub fn conditions()
    ensures without_a_value { key_list (record (index_over no_flags (ascending 128 ∷ [])) { conditions = if_not_null 256 ∷ [] }) sample_schema ((128, codes "x" ∷ []) ∷ []) ≡ [] }
    ensures with_a_value { length (key_list (record (index_over no_flags (ascending 128 ∷ [])) { conditions = if_not_null 256 ∷ [] }) sample_schema ((128, codes "x" ∷ []) ∷ (256, codes "y" ∷ []) ∷ [])) ≡ 1 }
    ensures must_be_null { key_list (record (index_over no_flags (ascending 128 ∷ [])) { conditions = if_null 256 ∷ [] }) sample_schema ((128, codes "x" ∷ []) ∷ (256, codes "y" ∷ []) ∷ []) ≡ [] }
    ensures both { key_list (record (index_over no_flags (ascending 128 ∷ [])) { conditions = if_null 256 ∷ if_not_null 256 ∷ [] }) sample_schema ((128, codes "x" ∷ []) ∷ []) ≡ [] }
{}

/// An index of parts holds up to ten bytes from each start with three bytes left.
pub fn parts_of_texts()
    ensures two_bytes { key_list (index_over (record no_flags { tuples = true }) (ascending 128 ∷ [])) sample_schema ((128, codes "ab" ∷ []) ∷ []) ≡ [] }
    ensures three_bytes { key_list (index_over (record no_flags { tuples = true }) (ascending 128 ∷ [])) sample_schema ((128, codes "abc" ∷ []) ∷ [])
        ≡ (0x7f ∷ 0x41 ∷ 0x42 ∷ 0x43 ∷ 0 ∷ 0 ∷ 0 ∷ 0 ∷ 0 ∷ 3 ∷ []) ∷ [] }
    ensures ten_bytes { length (key_list (index_over (record no_flags { tuples = true }) (ascending 128 ∷ [])) sample_schema ((128, codes "abcdefghij" ∷ []) ∷ [])) ≡ 8 }
    ensures twelve_bytes { length (key_list (index_over (record no_flags { tuples = true }) (ascending 128 ∷ [])) sample_schema ((128, codes "abcdefghijkl" ∷ []) ∷ [])) ≡ 10 }
    ensures equal_parts { length (key_list (index_over (record no_flags { tuples = true }) (ascending 128 ∷ [])) sample_schema ((128, codes "aaaaaaaaaaaaaaa" ∷ []) ∷ [])) ≡ 8 }
    ensures each_value { length (key_list (index_over (record no_flags { tuples = true }) (ascending 256 ∷ [])) sample_schema ((256, codes "abc" ∷ codes "abcd" ∷ []) ∷ [])) ≡ 3 }
    ensures null { key_list (index_over (record no_flags { tuples = true; disallownull = true }) (ascending 128 ∷ [])) sample_schema [] ≡ [] }
{}

/// A text of 224 bytes and a byte make a key of 255 bytes, which is not cut; with a number of two bytes it is.
pub fn keys_at_the_limit()
    ensures whole { length (whole_key (index_over no_flags (ascending 128 ∷ ascending 3 ∷ [])) sample_schema (Some (replicate 224 97) ∷ Some (1 ∷ []) ∷ [])) ≡ 255 }
    ensures not_cut { is_cut 255 (whole_key (index_over no_flags (ascending 128 ∷ ascending 3 ∷ [])) sample_schema (Some (replicate 224 97) ∷ Some (1 ∷ []) ∷ [])) ≡ false }
    ensures cut { is_cut 255 (whole_key (index_over no_flags (ascending 128 ∷ ascending 2 ∷ [])) sample_schema (Some (replicate 224 97) ∷ Some (1 ∷ 0 ∷ []) ∷ [])) ≡ true }
    ensures refused { entries (index_over (record no_flags { disallowtruncation = true }) (ascending 128 ∷ ascending 2 ∷ [])) sample_schema ((2, (1 ∷ 0 ∷ []) ∷ []) ∷ (128, replicate 224 97 ∷ []) ∷ []) ≡ Err KeyTruncated }
    ensures fits { map length (key_list (index_over (record no_flags { disallowtruncation = true }) (ascending 128 ∷ ascending 3 ∷ [])) sample_schema ((3, (1 ∷ []) ∷ []) ∷ (128, replicate 224 97 ∷ []) ∷ [])) ≡ 255 ∷ [] }
    ensures collide { let rule = index_over no_flags (ascending 128 ∷ ascending 2 ∷ []) in
        key_list rule sample_schema ((2, (1 ∷ 0 ∷ []) ∷ []) ∷ (128, replicate 224 97 ∷ []) ∷ []) ≡ key_list rule sample_schema ((2, (2 ∷ 0 ∷ []) ∷ []) ∷ (128, replicate 224 97 ∷ []) ∷ []) }
{}

/// With a longer limit the same key is whole.
pub fn longer_keys()
    ensures whole { let rule = record (index_over (record no_flags { unique = true }) (ascending 128 ∷ ascending 2 ∷ [])) { key_most = 500 } in
        map length (key_list rule sample_schema ((2, (1 ∷ 0 ∷ []) ∷ []) ∷ (128, replicate 224 97 ∷ []) ∷ [])) ≡ 256 ∷ [] }
    ensures at_the_limit { let rule = record (index_over (record no_flags { disallowtruncation = true }) (ascending 128 ∷ ascending 2 ∷ [])) { key_most = 256 } in
        map length (key_list rule sample_schema ((2, (1 ∷ 0 ∷ []) ∷ []) ∷ (128, replicate 224 97 ∷ []) ∷ [])) ≡ 256 ∷ [] }
    ensures refused { let rule = record (index_over (record no_flags { disallowtruncation = true }) (ascending 128 ∷ ascending 2 ∷ [])) { key_most = 256 } in
        entries rule sample_schema ((2, (1 ∷ 0 ∷ []) ∷ []) ∷ (128, replicate 225 97 ∷ []) ∷ []) ≡ Err KeyTruncated }
    ensures front_of_a_value { let rule = record (index_over (record no_flags { disallowtruncation = true }) (ascending 258 ∷ [])) { key_most = 500 } in
        map length (key_list rule sample_schema ((258, replicate 300 97 ∷ []) ∷ [])) ≡ 289 ∷ [] }
{}
