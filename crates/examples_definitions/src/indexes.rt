//! Rules of indexes, and indexes derived from records.
#![tactic(auto, unfolding(index_derive::specs::Entries::opening))]

ghost use Rattle.std.specs.Prelude.{◌≡◌, ℕ, List, [], ◌∷◌, ◌++◌, true, false, codes, replicate, length, map};
ghost use Rattle.jet_base.specs.Ids.{column_id};
ghost use Rattle.index_derive.specs.Entries.{derive, own_order, has_double_key, primary_key, is_legal, column_is_used, is_unique};
ghost use Rattle.index_derive.specs.Flags.{no_flags};
ghost use Rattle.examples_definitions.specs.Samples.{sample_schema, sum_column, ascending, descending, if_null, if_not_null, index_over};

/// Entries are sorted by key, and those of one key by bookmark.
pub fn derived_index()
    ensures { derive (index_over no_flags (ascending 3 ∷ [])) sample_schema ((codes "a", (3, (9 ∷ []) ∷ []) ∷ []) ∷ (codes "b", []) ∷ (codes "c", (3, (7 ∷ []) ∷ []) ∷ []) ∷ (codes "d", (3, (9 ∷ []) ∷ []) ∷ []) ∷ [])
        ≡ (0 ∷ [], codes "b") ∷ (0x7f ∷ 7 ∷ [], codes "c") ∷ (0x7f ∷ 9 ∷ [], codes "a") ∷ (0x7f ∷ 9 ∷ [], codes "d") ∷ [] }
{}

/// A descending column turns the order round, and its NULLs come last.
pub fn derived_descending_index()
    ensures { derive (index_over no_flags (descending 3 ∷ [])) sample_schema ((codes "a", (3, (9 ∷ []) ∷ []) ∷ []) ∷ (codes "b", []) ∷ (codes "c", (3, (7 ∷ []) ∷ []) ∷ []) ∷ [])
        ≡ (0x80 ∷ 0xf6 ∷ [], codes "a") ∷ (0x80 ∷ 0xf8 ∷ [], codes "c") ∷ (0xff ∷ [], codes "b") ∷ [] }
{}

/// The order of the records pairs each bookmark with itself.
pub fn order_of_the_records()
    ensures { own_order ((codes "a", codes "x") ∷ (codes "b", codes "y") ∷ []) ≡ (codes "a", codes "a") ∷ (codes "b", codes "b") ∷ [] }
{}

/// NULL counts as any other value where keys must differ, and one record may have several keys.
pub fn double_keys()
    ensures none { has_double_key (index_over no_flags (ascending 3 ∷ [])) sample_schema ((codes "a", (3, (9 ∷ []) ∷ []) ∷ []) ∷ (codes "b", []) ∷ []) ≡ false }
    ensures equal_values { has_double_key (index_over no_flags (ascending 3 ∷ [])) sample_schema ((codes "a", (3, (9 ∷ []) ∷ []) ∷ []) ∷ (codes "b", (3, (9 ∷ []) ∷ []) ∷ []) ∷ []) ≡ true }
    ensures two_nulls { has_double_key (index_over no_flags (ascending 3 ∷ [])) sample_schema ((codes "a", []) ∷ (codes "b", []) ∷ []) ≡ true }
    ensures two_ignored_nulls { has_double_key (index_over (record no_flags { ignorenull = true }) (ascending 3 ∷ [])) sample_schema ((codes "a", []) ∷ (codes "b", []) ∷ []) ≡ false }
    ensures of_one_record { has_double_key (index_over no_flags (ascending 256 ∷ [])) sample_schema ((codes "a", (256, codes "x" ∷ codes "X" ∷ []) ∷ []) ∷ []) ≡ false }
{}

/// The key of a record in the primary index: letters of a text do not tell their case, and NULL has a key too.
pub fn primary_keys()
    ensures number { primary_key (index_over (record no_flags { primary = true }) (ascending 1 ∷ [])) sample_schema ((1, (1 ∷ 0 ∷ 0 ∷ 0 ∷ []) ∷ []) ∷ []) ≡ 0x7f ∷ 0x80 ∷ 0 ∷ 0 ∷ 1 ∷ [] }
    ensures small_letter { primary_key (index_over (record no_flags { primary = true }) (ascending 128 ∷ [])) sample_schema ((128, codes "a" ∷ []) ∷ []) ≡ 0x7f ∷ 0x41 ∷ 0 ∷ 0 ∷ 0 ∷ 0 ∷ 0 ∷ 0 ∷ 0 ∷ 1 ∷ [] }
    ensures null { primary_key (index_over (record no_flags { primary = true; disallownull = true }) (ascending 128 ∷ ascending 2 ∷ [])) sample_schema [] ≡ 0 ∷ 0 ∷ [] }
{}

/// Rules that are legal.
pub fn legal_rules()
    ensures primary { is_legal (index_over (record no_flags { primary = true; disallownull = true }) (ascending 1 ∷ descending 128 ∷ [])) sample_schema ≡ true }
    ensures cross { is_legal (index_over (record no_flags { crossproduct = true; unique = true }) (ascending 256 ∷ ascending 1 ∷ ascending 257 ∷ [])) sample_schema ≡ true }
    ensures parts { is_legal (index_over (record no_flags { tuples = true }) (ascending 256 ∷ [])) sample_schema ≡ true }
    ensures conditions { is_legal (record (index_over no_flags (ascending 1 ∷ [])) { conditions = if_null 2 ∷ if_null 2 ∷ if_not_null 2 ∷ []; key_most = 256 }) sample_schema ≡ true }
{}

/// Rules that are not.
pub fn rules_that_are_not_legal()
    ensures no_column { is_legal (index_over no_flags []) sample_schema ≡ false }
    ensures a_column_twice { is_legal (index_over no_flags (ascending 1 ∷ descending 1 ∷ [])) sample_schema ≡ false }
    ensures a_sum { is_legal (index_over no_flags (ascending 1 ∷ [])) (record sample_schema { columns = sum_column ∷ [] }) ≡ false }
    ensures primary_over_several_values { is_legal (index_over (record no_flags { primary = true }) (ascending 256 ∷ [])) sample_schema ≡ false }
    ensures primary_that_ignores { is_legal (index_over (record no_flags { primary = true; ignorenull = true }) (ascending 1 ∷ [])) sample_schema ≡ false }
    ensures primary_with_a_condition { is_legal (record (index_over (record no_flags { primary = true }) (ascending 1 ∷ [])) { conditions = if_null 2 ∷ [] }) sample_schema ≡ false }
    ensures primary_with_longer_keys { is_legal (record (index_over (record no_flags { primary = true }) (ascending 1 ∷ [])) { key_most = 300 }) sample_schema ≡ false }
    ensures parts_of_a_number { is_legal (index_over (record no_flags { tuples = true }) (ascending 1 ∷ [])) sample_schema ≡ false }
    ensures descending_parts { is_legal (index_over (record no_flags { tuples = true }) (descending 128 ∷ [])) sample_schema ≡ false }
    ensures unique_parts { is_legal (index_over (record no_flags { tuples = true; unique = true }) (ascending 128 ∷ [])) sample_schema ≡ false }
    ensures parts_of_two_columns { is_legal (index_over (record no_flags { tuples = true }) (ascending 128 ∷ ascending 129 ∷ [])) sample_schema ≡ false }
{}

/// A column may not be deleted while it stands in a key or a condition.
pub fn columns_in_use()
    ensures key { column_is_used (column_id 2) (index_over no_flags (ascending 1 ∷ ascending 2 ∷ []) ∷ []) ≡ true }
    ensures condition { column_is_used (column_id 2) (record (index_over no_flags (ascending 1 ∷ [])) { conditions = if_null 2 ∷ [] } ∷ []) ≡ true }
    ensures free { column_is_used (column_id 2) (index_over no_flags (ascending 1 ∷ []) ∷ []) ≡ false }
{}

/// A primary index is unique without the flag.
pub fn unique_indexes()
    ensures primary { is_unique (index_over (record no_flags { primary = true }) (ascending 1 ∷ [])) ≡ true }
    ensures plain { is_unique (index_over no_flags (ascending 1 ∷ [])) ≡ false }
{}
