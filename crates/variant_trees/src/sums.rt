//! Sums of escrow columns.

ghost use Rattle.std.specs.Prelude.{◌≡◌, ℤ, neg_ℤ, List, map, true, false, None, IfSome, IsSomeAnd};
ghost use Rattle.std.specs.Int.{w32, cast_unsigned};
ghost use Rattle.column_set.specs.declared.changes.Change.TheVariants.{Add};
ghost use Rattle.database_state.specs.Changes.{is_sum, tables_after};
ghost use Rattle.column_set.specs.ChangedRecords.{changed_bookmark, changed_table};
ghost use Rattle.database_state.specs.Table.{Table, schema_of, table_with_id};
ghost use Rattle.index_derive.specs.Entries.{is_escrow_column};
ghost use Rattle.table_trees.specs.StoredTables.{table_long_values, table_nodes};
ghost use Rattle.version_store.specs.HeldChanges.{HeldChange, kind_of};
ghost use Rattle.variant_trees.specs.GoneKeys.{KeepsValues};
ghost use Rattle.stored_variants.specs.CountedValues.{AreCounted};
ghost use Rattle.stored_variants.specs.RecordRows.{IsRecordRow, row_under};
ghost use Rattle.stored_variants.specs.VersionsKept.{AddsToEscrow, AreKept};
ghost use Rattle.stored_variants.specs.VersionsView.{with_newest};

use crate::undoing::copied_row;
use column_set::{Change, add_to_number, rows_are_read_back, rows_with_another_value};
use jet_base::{ColumnId, TableId};
use table_trees::{TableTrees, nodes_after_a_change, nodes_by_bookmark};

/// Makes a sum in its record: adds the amount to the number in the escrow column, which is one of 32 bits and wraps; nothing
/// where there is no record. Any other change leaves the trees as they are. It takes no memory.
pub fn add_sum(trees: &mut TableTrees, change: &Change)
    requires { IfSome (row_under (table_nodes trees.old.tables (changed_table change.now)) (changed_bookmark change.now)) (IsRecordRow (table_long_values trees.old.tables (changed_table change.now))) }
    ensures kept { (tables : List Table) (held : List HeldChange) → IsSomeAnd (table_with_id tables (changed_table change.now)) (λ t. AddsToEscrow (schema_of t) (kind_of change.now)) → AreKept tables trees.old.tables held → AreKept tables trees.new.tables held }
    ensures shown { (tables : List Table) (held : List HeldChange) → is_sum change.now ≡ true → IsSomeAnd (table_with_id tables (changed_table change.now)) (λ t. AddsToEscrow (schema_of t) (kind_of change.now)) → AreKept tables trees.old.tables held
        → map (with_newest trees.new.tables) tables ≡ tables_after (map (with_newest trees.old.tables) tables) change.now }
    ensures counts { (tables : List Table) (held : List HeldChange) → IsSomeAnd (table_with_id tables (changed_table change.now)) (λ t. AddsToEscrow (schema_of t) (kind_of change.now)) → AreKept tables trees.old.tables held → AreCounted trees.old.tables held → AreCounted trees.new.tables held }
    ensures values { KeepsValues trees.old.tables trees.new.tables }
    ensures other { is_sum change.now ≡ false → trees.new.tables ≡ trees.old.tables }
    ensures absent { row_under (table_nodes trees.old.tables (changed_table change.now)) (changed_bookmark change.now) ≡ None → trees.new.tables ≡ trees.old.tables }
    ensures catalog { trees.new.catalog ≡ trees.old.catalog }
{
    match change {
        Change::Add {
            table,
            bookmark,
            column,
            amount,
        } => add_in_place(
            trees,
            *table,
            bookmark.as_bytes(),
            *column,
            amount.cast_unsigned(),
        ),
        Change::Put { .. } => {}
        Change::Drop { .. } => {}
        Change::Hold { .. } => {}
    }
}

/// The amount that takes another one out again, as a number of 32 bits.
pub(crate) fn opposite(amount: i32) -> u32
    ensures { result ≡ cast_unsigned w32 (neg_ℤ amount) }
{
    0_u32.wrapping_sub(amount.cast_unsigned())
}

/// Adds to the number in an escrow column of the newest record under a bookmark, in its row; nothing where there is no record.
/// The number is one of four bytes, and wraps at 32 bits. It takes no memory: the row keeps its length.
pub(crate) fn add_in_place(
    trees: &mut TableTrees,
    table: TableId,
    bookmark: &[u8],
    column: ColumnId,
    addend: u32,
)
    requires { IfSome (row_under (table_nodes trees.old.tables table.0) bookmark.now) (IsRecordRow (table_long_values trees.old.tables table.0)) }
    ensures kept { (tables : List Table) (held : List HeldChange) → IsSomeAnd (table_with_id tables table.0) (λ t. is_escrow_column (schema_of t) column.0 ≡ true) → AreKept tables trees.old.tables held → AreKept tables trees.new.tables held }
    ensures shown { (tables : List Table) (held : List HeldChange) → IsSomeAnd (table_with_id tables table.0) (λ t. is_escrow_column (schema_of t) column.0 ≡ true) → AreKept tables trees.old.tables held
        → (amount : ℤ) → cast_unsigned w32 amount ≡ addend → map (with_newest trees.new.tables) tables ≡ tables_after (map (with_newest trees.old.tables) tables) (Add table bookmark.now column amount) }
    ensures counts { (tables : List Table) (held : List HeldChange) → IsSomeAnd (table_with_id tables table.0) (λ t. is_escrow_column (schema_of t) column.0 ≡ true) → AreKept tables trees.old.tables held → AreCounted trees.old.tables held → AreCounted trees.new.tables held }
    ensures values { KeepsValues trees.old.tables trees.new.tables }
    ensures absent { row_under (table_nodes trees.old.tables table.0) bookmark.now ≡ None → trees.new.tables ≡ trees.old.tables }
    ensures catalog { trees.new.catalog ≡ trees.old.catalog }
{
    rows_are_read_back();
    rows_with_another_value();
    nodes_after_a_change();
    nodes_by_bookmark();
    trees.nodes_are_in_order();
    match copied_row(trees, table, bookmark) {
        Some(row) => {
            let mut row = row;
            add_to_number(row.as_mut_slice(), column, addend);
            trees.replace(table, bookmark, row.as_slice());
            trees.nodes_are_in_order();
        }
        None => {}
    }
}
