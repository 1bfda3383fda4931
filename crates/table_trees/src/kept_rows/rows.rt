//! The values that a whole row takes, and those that it gives up.

ghost use Rattle.std.specs.Prelude.{◌≡◌, ◌<◌, ℕ, List, true, Some, IsSome, IsTrue, OnErr, OnOk};
ghost use Rattle.std.specs.List.{AllByRecursion};
ghost use Rattle.column_set.specs.Rows.{IsRowBytes, is_row_of};
ghost use Rattle.column_set.specs.RowReading.{row_in};
ghost use Rattle.long_value.specs.Values.{value_of};
ghost use Rattle.long_rows.specs.RowReferences.{identifiers, references, removed_identifiers};
ghost use Rattle.long_rows.specs.ReferenceCounts.{with_all_released, with_all_taken};
ghost use Rattle.long_rows.specs.KeptRows.{MayTake, given_values};
ghost use Rattle.table_trees.specs.StoredTables.{has_table, table_long_values};
ghost use Rattle.table_trees.specs.ValuesChanged.{HasLongValues};

use crate::kept_rows::releasing::release_values;
use crate::kept_rows::taking::take_values;
use crate::trees::TableTrees;
use column_set::row_format::COUNT_BYTES;
use column_set::{Record, rows_are_read_back};
use jet_base::{OutOfMemory, TableId};

/// Gives up one reference to each long value of a table that a row names, however often it does. A value that has no other
/// reference is gone then. It takes no memory.
pub fn release_row(trees: &mut TableTrees, table: TableId, row: &[u8])
    requires table { has_table trees.old.tables table.0 ≡ true }
    requires row { IsRowBytes row.now }
    requires there { (id : List ℕ) → 0 < references id (Some (row_in row.now)) → IsSome (value_of id (table_long_values trees.old.tables table.0)) }
    ensures tables { HasLongValues table.0 (with_all_released (identifiers (Some (row_in row.now))) (table_long_values trees.old.tables table.0)) trees.old.tables trees.new.tables }
    ensures catalog { trees.new.catalog ≡ trees.old.catalog }
{
    rows_are_read_back();
    release_values(trees, table, &row[COUNT_BYTES..], &[]);
}

/// Gives up one reference to each long value of a table that a row names and the row that it becomes does not, however often it
/// is named. A value that has no other reference is gone then. It takes no memory.
pub fn release_removed(trees: &mut TableTrees, table: TableId, row: &[u8], rewritten: &[u8])
    requires table { has_table trees.old.tables table.0 ≡ true }
    requires row { IsRowBytes row.now }
    requires rewritten { IsRowBytes rewritten.now }
    requires there { (id : List ℕ) → 0 < references id (Some (row_in row.now)) → IsSome (value_of id (table_long_values trees.old.tables table.0)) }
    ensures tables { HasLongValues table.0 (with_all_released (removed_identifiers (Some (row_in row.now)) (Some (row_in rewritten.now))) (table_long_values trees.old.tables table.0)) trees.old.tables trees.new.tables }
    ensures catalog { trees.new.catalog ≡ trees.old.catalog }
{
    rows_are_read_back();
    release_values(trees, table, &row[COUNT_BYTES..], &rewritten[COUNT_BYTES..]);
}

/// Takes one reference to each long value that a row of a record names, however often it does: to a value that is there, or to a
/// new one that is put with the record's bytes. Where there is no memory for these, all that was taken is given up again.
pub fn take_row(
    trees: &mut TableTrees,
    table: TableId,
    row: &[u8],
    values: &Record,
) -> Result<(), OutOfMemory>
    requires table { has_table trees.old.tables table.0 ≡ true }
    requires row { IsRowBytes row.now }
    requires form { IsTrue (is_row_of (row_in row.now) values.now) }
    requires may { AllByRecursion (MayTake (table_long_values trees.old.tables table.0)) (given_values (row_in row.now) values.now) }
    ensures ok { OnOk result (HasLongValues table.0 (with_all_taken (given_values (row_in row.now) values.now) (table_long_values trees.old.tables table.0)) trees.old.tables trees.new.tables) }
    ensures err { OnErr result (HasLongValues table.0 (table_long_values trees.old.tables table.0) trees.old.tables trees.new.tables) }
    ensures catalog { trees.new.catalog ≡ trees.old.catalog }
{
    rows_are_read_back();
    take_values(trees, table, &row[COUNT_BYTES..], &[], values.fields())
}
