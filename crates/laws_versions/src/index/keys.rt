//! The keys of an index. The functions do nothing: their contracts are the laws.

ghost use Rattle.std.specs.Prelude.{◌≡◌, ℕ, List, [], ◌++◌, length, nat_le, true, bytes_eq};
ghost use Rattle.std.specs.List.{list_any, list_all};
ghost use Rattle.column_set.specs.RecordValues.{RecordFields, record_fits};
ghost use Rattle.index_derive.specs.declared.rules.IndexRule.{IndexRule};
ghost use Rattle.index_derive.specs.declared.rules.Schema.{Schema};
ghost use Rattle.index_derive.specs.Entries.{is_legal, key_list};

/// No key of an index begins a longer one, whether they are cut or not, and whichever records they are of.
pub fn derived_keys_are_apart()
    ensures { (rule : IndexRule) (schema : Schema) (one other : RecordFields) (key rest : List ℕ)
        → is_legal rule schema ≡ true → record_fits schema.columns one ≡ true → record_fits schema.columns other ≡ true
        → list_any (bytes_eq key) (key_list rule schema one) ≡ true → list_any (bytes_eq (key ++ rest)) (key_list rule schema other) ≡ true
        → rest ≡ [] }
{}

/// Each key of an index has at most as many bytes as its rule says.
pub fn derived_keys_are_short()
    ensures { (rule : IndexRule) (schema : Schema) (fields : RecordFields)
        → list_all (λ key. nat_le (length key) rule.key_most) (key_list rule schema fields) ≡ true }
{}
