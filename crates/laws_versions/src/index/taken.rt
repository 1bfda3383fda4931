//! Keys that another record has. The function does nothing: its contract is the law.

ghost use Rattle.std.specs.Prelude.{◌≡◌, ℕ, List, true, false, Some, None, is_some};
ghost use Rattle.index_derive.specs.declared.rules.IndexRule.{IndexRule};
ghost use Rattle.index_derive.specs.declared.rules.Schema.{Schema};
ghost use Rattle.index_derive.specs.Entries.{derive};
ghost use Rattle.database_state.specs.Table.{Rows, row_at};
ghost use Rattle.index_derive.specs.Schemas.{rule_with_id};
ghost use Rattle.database_state.specs.Puts.{is_taken};
ghost use Rattle.laws_versions.specs.KeptEntries.{has_key, without_entries};

/// A key is taken where an entry of the index has it: any entry, for an insert, and one of another record, for a
/// replace. In the primary index it is taken where a record has it as its bookmark.
pub fn a_key_is_taken_where_an_entry_has_it()
    ensures inserted { (schema : Schema) (rows : Rows) (rule : IndexRule) (key : List ℕ)
        → rule_with_id schema rule.id.0 ≡ Some rule → rule.flags.primary ≡ false
        → is_taken schema rows rule None key ≡ has_key key (derive rule schema rows) }
    ensures replaced { (schema : Schema) (rows : Rows) (rule : IndexRule) (own key : List ℕ)
        → rule_with_id schema rule.id.0 ≡ Some rule → rule.flags.primary ≡ false
        → is_taken schema rows rule (Some own) key ≡ has_key key (without_entries own (derive rule schema rows)) }
    ensures primary { (schema : Schema) (rows : Rows) (rule : IndexRule) (key : List ℕ)
        → rule_with_id schema rule.id.0 ≡ Some rule → rule.flags.primary ≡ true
        → is_taken schema rows rule None key ≡ is_some (row_at rows key) }
{}
