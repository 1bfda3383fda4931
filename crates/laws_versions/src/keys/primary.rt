//! The entry of a record in a primary index.

ghost use Rattle.std.specs.Prelude.{◌≡◌, true};
ghost use Rattle.column_set.specs.RecordValues.{RecordFields};
ghost use Rattle.index_derive.specs.declared.rules.IndexRule.{IndexRule};
ghost use Rattle.index_derive.specs.declared.rules.Schema.{Schema};
ghost use Rattle.index_derive.specs.Entries.{entries, is_legal};
ghost use Rattle.index_derive.specs.Primary.{primary_entries};

/// A record has exactly one entry in a primary index, or is refused there: no column of its key has several values,
/// no flag or condition leaves an entry out, and there are no parts of texts.
pub fn a_primary_index_has_one_entry()
    ensures { (rule : IndexRule) (schema : Schema) (fields : RecordFields) → is_legal rule schema ≡ true → rule.flags.primary ≡ true → entries rule schema fields ≡ primary_entries rule schema fields }
{}
