//! The order of tables and of their records.

ghost use Rattle.std.specs.Prelude.{◌≡◌, true};
ghost use Rattle.index_derive.specs.declared.log.Entry.{Entry};
ghost use Rattle.database_state.specs.State.{DatabaseState, empty_state};
ghost use Rattle.database_state.specs.Step.{state_after};
ghost use Rattle.database_state.specs.Lawful.{is_lawful};
ghost use Rattle.laws_versions.specs.TableOrder.{HasTablesInOrder};

/// The ids of the tables rise from 1, none is above the greatest that was given, and the records of each table stand in the order of
/// their bookmarks: in the empty state, and after every lawful entry.
pub fn lawful_entries_keep_tables_in_order()
    ensures empty { HasTablesInOrder empty_state }
    ensures kept { (state : DatabaseState) (made : Entry) → HasTablesInOrder state → is_lawful state made ≡ true → HasTablesInOrder (state_after state made) }
{}
