//! Changes of tables, looked up record by record.

ghost use Rattle.std.specs.Prelude.{◌≡◌, List, fold};
ghost use Rattle.std.specs.List.{AllByRecursion};
ghost use Rattle.column_set.specs.declared.changes.Change.{Change};
ghost use Rattle.database_state.specs.Table.{Table};
ghost use Rattle.database_state.specs.Changes.{tables_after, tables_after_all};
ghost use Rattle.laws_versions.specs.Records.{IsThere, records_of, records_after};

/// A change of tables that have its table makes of its own record what a change makes of a record, and leaves all others;
/// and so do many, one after the other.
pub fn changes_of_tables_change_records()
    ensures one { (tables : List Table) (change : Change) → IsThere tables change → records_of (tables_after tables change) ≡ records_after (records_of tables) change }
    ensures many { (tables : List Table) (changes : List Change) → AllByRecursion (IsThere tables) changes
        → records_of (tables_after_all tables changes) ≡ fold records_after (records_of tables) changes }
{}
