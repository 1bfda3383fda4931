//! The order of the entries, and what it tells of equal keys. The functions do nothing: their contracts are the laws.

ghost use Rattle.std.specs.Prelude.{◌≡◌, ℕ, Bool, List, filter, true};
ghost use Rattle.column_set.specs.RecordValues.{RecordFields};
ghost use Rattle.index_derive.specs.declared.rules.IndexRule.{IndexRule};
ghost use Rattle.index_derive.specs.declared.rules.Schema.{Schema};
ghost use Rattle.index_derive.specs.Entries.{derive, own_order, has_double_key};
ghost use Rattle.cursor_nav.specs.Places.{Pair, are_sorted};
ghost use Rattle.laws_versions.specs.KeptEntries.{has_entry, has_equal_neighbours};

/// The entries of an index are in order and none stands twice, where the bookmarks of the records rise.
pub fn derived_entries_are_in_order()
    ensures { (rule : IndexRule) (schema : Schema) (rows : List (List ℕ × RecordFields))
        → are_sorted (own_order rows) ≡ true → are_sorted (derive rule schema rows) ≡ true }
{}

/// Two records share a key exactly where two entries that follow each other do.
pub fn double_keys_are_entries_of_one_key()
    ensures { (rule : IndexRule) (schema : Schema) (rows : List (List ℕ × RecordFields))
        → has_double_key rule schema rows ≡ has_equal_neighbours (derive rule schema rows) }
{}

/// Entries in order are told by those that are there, and some of them are in order too.
pub fn entries_in_order_are_told_by_those_that_are_there()
    ensures same { (one other : List Pair) → are_sorted one ≡ true → are_sorted other ≡ true → ((key bookmark : List ℕ) → has_entry key bookmark one ≡ has_entry key bookmark other) → one ≡ other }
    ensures some { (test : Pair → Bool) (entries : List Pair) → are_sorted entries ≡ true → are_sorted (filter test entries) ≡ true }
{}
