//! Laws of the entries of a record. The functions do nothing: their contracts are the laws.

ghost use Rattle.std.specs.Prelude.{◌≡◌, ℕ, ◌+◌, None, length};
ghost use Rattle.std.specs.List.Sorted.{IsStrictlySortedBy};
ghost use Rattle.std.specs.Ordering.{nat_cmp};
ghost use Rattle.std.specs.Cmp.Lexicographic.{slice_cmp};
ghost use Rattle.column_set.specs.RecordValues.{RecordFields};
ghost use Rattle.index_derive.specs.declared.rules.IndexRule.{IndexRule};
ghost use Rattle.index_derive.specs.declared.rules.Schema.{Schema};
ghost use Rattle.index_derive.specs.Entries.{key_list};
ghost use Rattle.index_derive.specs.Derived.{keys_after};

/// The keys of a record rise, so that each stands once.
pub fn entries_rise()
    ensures { (rule : IndexRule) (schema : Schema) (fields : RecordFields) → IsStrictlySortedBy (slice_cmp nat_cmp) (key_list rule schema fields) }
{}

/// From none onward, the next key after each makes up exactly the keys of a record, however often it is asked for more.
pub fn next_entries_are_entries()
    ensures { (rule : IndexRule) (schema : Schema) (fields : RecordFields) (more : ℕ) → keys_after (length (key_list rule schema fields) + more) (key_list rule schema fields) None ≡ key_list rule schema fields }
{}
