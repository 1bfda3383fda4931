//! The entries of one record among those of all. The functions do nothing: their contracts are the laws.

ghost use Rattle.std.specs.Prelude.{◌≡◌, ℕ, List, [], ◌∷◌, ◌++◌, map, true, Some, None, option_map};
ghost use Rattle.column_set.specs.RecordValues.{RecordFields, lookup_by_key, put_by_key, remove_by_key};
ghost use Rattle.index_derive.specs.declared.rules.IndexRule.{IndexRule};
ghost use Rattle.index_derive.specs.declared.rules.Schema.{Schema};
ghost use Rattle.index_derive.specs.Entries.{derive, key_list, own_order};
ghost use Rattle.index_derive.specs.Derived.{next_in};
ghost use Rattle.cursor_nav.specs.Places.{are_sorted, least_entry_of};
ghost use Rattle.database_state.specs.Conflicts.{yields_key};
ghost use Rattle.database_state.specs.Puts.{new_keys};
ghost use Rattle.laws_versions.specs.KeptEntries.{with_entries, without_entries, without_each, entries_with, has_entry};

/// A record with a new bookmark adds an entry for each of its keys, put in their places one after the other.
pub fn a_new_record_adds_its_entries()
    ensures { (rule : IndexRule) (schema : Schema) (rows : List (List ℕ × RecordFields)) (bookmark : List ℕ) (values : RecordFields)
        → are_sorted (own_order rows) ≡ true → lookup_by_key bookmark rows ≡ None
        → derive rule schema (put_by_key bookmark values rows) ≡ with_entries (key_list rule schema values) bookmark (derive rule schema rows) }
{}

/// An index is made of its records one after the other, in the order of their bookmarks.
pub fn an_index_is_derived_record_by_record()
    ensures { (rule : IndexRule) (schema : Schema) (rows : List (List ℕ × RecordFields)) (bookmark : List ℕ) (values : RecordFields)
        → are_sorted (own_order (rows ++ (bookmark, values) ∷ [])) ≡ true
        → derive rule schema (rows ++ (bookmark, values) ∷ []) ≡ with_entries (key_list rule schema values) bookmark (derive rule schema rows) }
{}

/// A record that goes takes the entries with its bookmark, and no others: as many as it has keys, one after the other.
pub fn a_record_that_goes_takes_its_entries()
    ensures at_once { (rule : IndexRule) (schema : Schema) (rows : List (List ℕ × RecordFields)) (bookmark : List ℕ)
        → derive rule schema (remove_by_key bookmark rows) ≡ without_entries bookmark (derive rule schema rows) }
    ensures one_by_one { (rule : IndexRule) (schema : Schema) (rows : List (List ℕ × RecordFields)) (bookmark : List ℕ) (values : RecordFields)
        → are_sorted (own_order rows) ≡ true → lookup_by_key bookmark rows ≡ Some values
        → derive rule schema (remove_by_key bookmark rows) ≡ without_each (key_list rule schema values) bookmark (derive rule schema rows) }
{}

/// A record that takes another's place takes that one's entries out, and adds its own. Those of the keys that both have
/// may as well stay.
pub fn a_changed_record_changes_its_entries()
    ensures all { (rule : IndexRule) (schema : Schema) (rows : List (List ℕ × RecordFields)) (bookmark : List ℕ) (values : RecordFields)
        → are_sorted (own_order rows) ≡ true
        → derive rule schema (put_by_key bookmark values rows) ≡ with_entries (key_list rule schema values) bookmark (without_entries bookmark (derive rule schema rows)) }
    ensures by_difference { (rule : IndexRule) (schema : Schema) (rows : List (List ℕ × RecordFields)) (bookmark : List ℕ) (old values : RecordFields)
        → are_sorted (own_order rows) ≡ true → lookup_by_key bookmark rows ≡ Some old
        → derive rule schema (put_by_key bookmark values rows)
        ≡ with_entries (new_keys rule schema (Some old) values) bookmark (without_each (new_keys rule schema (Some values) old) bookmark (derive rule schema rows)) }
{}

/// Entries that were put for a new bookmark, however many of its record's, can be taken out again.
pub fn entries_that_were_put_can_be_taken_out()
    ensures { (rule : IndexRule) (schema : Schema) (rows : List (List ℕ × RecordFields)) (bookmark : List ℕ) (keys : List (List ℕ))
        → lookup_by_key bookmark rows ≡ None
        → without_each keys bookmark (with_entries keys bookmark (derive rule schema rows)) ≡ derive rule schema rows }
{}

/// An entry stands in the index exactly where the record under its bookmark has its key.
pub fn entries_are_of_their_records()
    ensures { (rule : IndexRule) (schema : Schema) (rows : List (List ℕ × RecordFields)) (key bookmark : List ℕ)
        → are_sorted (own_order rows) ≡ true
        → has_entry key bookmark (derive rule schema rows) ≡ yields_key rule schema key (lookup_by_key bookmark rows) }
{}

/// The entries with a record's bookmark are those of its keys, in their order, and the least has its least key.
pub fn a_record_has_an_entry_a_key()
    ensures all { (rule : IndexRule) (schema : Schema) (rows : List (List ℕ × RecordFields)) (bookmark : List ℕ) (values : RecordFields)
        → are_sorted (own_order rows) ≡ true → lookup_by_key bookmark rows ≡ Some values
        → entries_with bookmark (derive rule schema rows) ≡ map (λ key. (key, bookmark)) (key_list rule schema values) }
    ensures least { (rule : IndexRule) (schema : Schema) (rows : List (List ℕ × RecordFields)) (bookmark : List ℕ) (values : RecordFields)
        → are_sorted (own_order rows) ≡ true → lookup_by_key bookmark rows ≡ Some values
        → least_entry_of bookmark (derive rule schema rows) ≡ option_map (λ key. (key, bookmark)) (next_in (key_list rule schema values) None) }
    ensures no_record { (rule : IndexRule) (schema : Schema) (rows : List (List ℕ × RecordFields)) (bookmark : List ℕ)
        → lookup_by_key bookmark rows ≡ None
        → entries_with bookmark (derive rule schema rows) ≡ [] }
{}
