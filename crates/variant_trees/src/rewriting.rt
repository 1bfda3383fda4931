//! A column goes with its values.

ghost use Rattle.std.specs.Prelude.{◌≡◌, ◌≤◌, true, false, [], Some, length, map, IsSomeAnd, OnErr, OnOk};
ghost use Rattle.std.specs.List.{AllByRecursion};
ghost use Rattle.btree_inplace.specs.Changes.{with_data_at};
ghost use Rattle.btree_inplace.specs.Order.{extent_in};
ghost use Rattle.column_set.specs.RowReading.{row_in};
ghost use Rattle.column_set.specs.Rows.{largest_row};
ghost use Rattle.database_state.specs.Table.{table_with_id};
ghost use Rattle.index_derive.specs.Entries.{column_is_used};
ghost use Rattle.database_state.specs.SchemaChanges.{has_column};
ghost use Rattle.table_trees.specs.ShownCatalogs.{ShowsCatalog};
ghost use Rattle.long_rows.specs.ReferenceCounts.{HasCounts, NamesNoOther};
ghost use Rattle.table_trees.specs.StoredTables.{has_table, table_long_values, table_nodes};
ghost use Rattle.variant_trees.specs.LostColumns.{GivesUp, HasNodes, HoldsRecord, LosesValues, node_without};
ghost use Rattle.stored_variants.specs.CountedValues.{AreCounted, newest_rows};
ghost use Rattle.stored_variants.specs.RecordRows.{IsRecordRow, row_under};
ghost use Rattle.stored_variants.specs.SchemaSteps.{IsMade};
ghost use Rattle.stored_variants.specs.VersionsKept.{AreKept};
ghost use Rattle.index_derive.specs.declared.schema_calls.SchemaStep.TheVariants as step;

use crate::nodes::own_entry;
use arrayvec::ArrayVec;
use column_set::{MAX_ROW_SIZE, rows_are_read_back, rows_without_a_column, write_without_column};
use index_derive::{Place, SchemaStep};
use jet_base::{ColumnId, OutOfMemory, TableId};
use jet_catalog::Catalog;
use long_rows::{rows_without_a_columns_values, values_keep_their_counts};
use long_value::{references_after_a_change, values_after_a_change};
use table_trees::{TableTrees, nodes_after_a_change, nodes_by_bookmark, release_removed};

/// A column that no index uses goes, with its values in all rows of its table, while no change is held. The catalog alone may
/// find no memory, and then all is as it was.
pub fn drop_column(
    catalog: &mut Catalog,
    trees: &mut TableTrees,
    made: &SchemaStep,
    table: TableId,
    column: ColumnId,
) -> Result<(), OutOfMemory>
    requires kept { AreKept catalog.old.tables trees.old.tables [] }
    requires counts { AreCounted trees.old.tables [] }
    requires shown { ShowsCatalog trees.old.catalog catalog.old }
    requires step { made.now ≡ step.DeleteColumn table column }
    requires there { IsSomeAnd (table_with_id catalog.old.tables table.0) (λ t. has_column t column.0 ≡ true) }
    requires unused { IsSomeAnd (table_with_id catalog.old.tables table.0) (λ t. column_is_used column t.indexes ≡ false) }
    ensures ok { OnOk result (IsMade made.now catalog.old trees.old.tables catalog.new trees.new.tables) }
    ensures err { OnErr result ((catalog.new ≡ catalog.old) × (trees.new.tables ≡ trees.old.tables)) }
    ensures shown { ShowsCatalog trees.new.catalog catalog.new }
{
    rows_without_a_column();
    rows_without_a_columns_values();
    rows_are_read_back();
    trees.nodes_are_in_order();
    let _ = catalog.tables();
    match catalog.make(made) {
        Ok(()) => {
            trees.forget_column(table, column);
            remove_values(trees, table, column);
            trees.nodes_are_in_order();
            Ok(())
        }
        Err(fault) => Err(fault),
    }
}

// The values of a column go from each row of a table, and with them the references to long values that the row has no more. It
// takes no memory: no row becomes longer.
fn remove_values(trees: &mut TableTrees, table: TableId, column: ColumnId)
    requires rows { AllByRecursion (HoldsRecord (table_long_values trees.old.tables table.0)) (table_nodes trees.old.tables table.0) }
    requires counts { AreCounted trees.old.tables [] }
    ensures nodes { HasNodes table.0 (map (node_without column.0) (table_nodes trees.old.tables table.0)) trees.old.tables trees.new.tables }
    ensures values { LosesValues table.0 trees.old.tables trees.new.tables }
    ensures catalog { trees.new.catalog ≡ trees.old.catalog }
{
    nodes_after_a_change();
    nodes_by_bookmark();
    rows_are_read_back();
    rows_without_a_column();
    rows_without_a_columns_values();
    trees.nodes_are_in_order();
    let mut before = ArrayVec::new();
    let mut row = ArrayVec::new();
    let mut place = Place::Before;
    while let Some((bookmark, bytes)) = trees.node_after(table, &place) {
        let found = own_entry(bookmark);
        write_without_column(bytes, column, &mut row);
        copy_row(bytes, &mut before);
        rewrite_row(
            trees,
            table,
            found.key.as_bytes(),
            before.as_slice(),
            row.as_slice(),
        );
        place = Place::On(found.key, found.bookmark);
    }
}

// Writes a copy of a row.
fn copy_row(row: &[u8], copy: &mut ArrayVec<u8, MAX_ROW_SIZE>)
    requires { length row.now ≤ largest_row }
    ensures { copy.new.items ≡ row.now }
{
    copy.clear();
    match copy.try_extend_from_slice(row) {
        Ok(()) => {}
        Err(_) => unreachable!(),
    }
}

// A row is written anew as one that names no other long value, and gives up the references that it has no more.
fn rewrite_row(
    trees: &mut TableTrees,
    table: TableId,
    bookmark: &[u8],
    row: &[u8],
    rewritten: &[u8],
)
    requires table { has_table trees.old.tables table.0 ≡ true }
    requires node { row_under (table_nodes trees.old.tables table.0) bookmark.now ≡ Some row.now }
    requires row { IsRecordRow (table_long_values trees.old.tables table.0) row.now }
    requires rewritten { IsRecordRow (table_long_values trees.old.tables table.0) rewritten.now }
    requires fewer { NamesNoOther (Some (row_in rewritten.now)) (Some (row_in row.now)) }
    requires room { IsSomeAnd (extent_in (table_nodes trees.old.tables table.0) bookmark.now) (λ extent. length rewritten.now ≤ extent) }
    requires counts { HasCounts (table_long_values trees.old.tables table.0) (newest_rows (table_nodes trees.old.tables table.0)) [] }
    ensures nodes { HasNodes table.0 (with_data_at (table_nodes trees.old.tables table.0) bookmark.now rewritten.now) trees.old.tables trees.new.tables }
    ensures values { GivesUp table.0 trees.old.tables trees.new.tables }
    ensures catalog { trees.new.catalog ≡ trees.old.catalog }
{
    nodes_after_a_change();
    nodes_by_bookmark();
    references_after_a_change();
    values_after_a_change();
    values_keep_their_counts();
    trees.nodes_are_in_order();
    trees.replace(table, bookmark, rewritten);
    trees.nodes_are_in_order();
    release_removed(trees, table, row, rewritten);
}
