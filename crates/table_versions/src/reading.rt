//! What a reader sees of records.

ghost use Rattle.std.specs.Prelude.{◌≡◌, ℕ, List, IfSome, IsTrue, option_copied};
ghost use Rattle.column_set.specs.Record.{is_record};
ghost use Rattle.database_state.specs.Table.{record_in};
ghost use Rattle.version_store.specs.declared.calls.Reader.{Reader};
ghost use Rattle.laws_versions.specs.EscrowSums.{amounts_to, seen_value};
ghost use Rattle.laws_engine.specs.HeldRecords.{seen_record};
ghost use Rattle.laws_engine.specs.HeldSums.{unseen_sums};
ghost use Rattle.stored_variants.specs.RecordRows.{row_under};
ghost use Rattle.table_trees.specs.StoredTables.{table_nodes};
ghost use Rattle.version_store.specs.HeldChanges.{seen_row};
ghost use Rattle.table_versions.specs.SeenRows.{row_seen};

use crate::store::TableVersions;
use jet_base::{ColumnId, TableId};
use laws_engine::an_unseen_sum_is_that_of_the_unseen_amounts;
use table_trees::{ShownRow, TableTrees};
use variant_trees::{in_place, row_in_node};
use version_store::{Reader, Variant, Versions};

impl TableVersions {
    /// The record that the reader sees under a bookmark, read in place with its long values: the one before the oldest put or drop
    /// that it does not see, or else the newest one. It takes no memory.
    pub fn look_up(&self, table: TableId, bookmark: &[u8], reader: Reader) -> Option<ShownRow<'_>>
        ensures { result ≡ seen_record table.0 bookmark.now reader (record_in self.now.store.tables table.0 bookmark.now) self.now.store.held }
    {
        self.trees.nodes_are_in_order();
        let row = shown_row(&self.trees, &self.versions, table, bookmark, reader);
        in_place(&self.trees, table, row)
    }

    /// The newest record under a bookmark, read in place with its long values. It takes no memory.
    pub fn newest(&self, table: TableId, bookmark: &[u8]) -> Option<ShownRow<'_>>
        ensures { result ≡ record_in self.now.store.tables table.0 bookmark.now }
    {
        self.trees.nodes_are_in_order();
        in_place(&self.trees, table, newest_row(&self.trees, table, bookmark))
    }

    /// The number that a reader sees in an escrow column of a record, where the record that it is shown has this one: without the
    /// amounts that it does not see, those that stand before the oldest put or drop of the record that it does not see. It wraps
    /// at 32 bits, and takes no memory.
    ///
    /// It goes over the held changes of the record, and costs as many steps as there are of them.
    pub fn seen_sum(
        &self,
        table: TableId,
        bookmark: &[u8],
        column: ColumnId,
        reader: Reader,
        stored: i32,
    ) -> i32
        ensures { result ≡ seen_value stored (amounts_to column.0 (unseen_sums table.0 bookmark.now reader self.now.store.held)) }
    {
        an_unseen_sum_is_that_of_the_unseen_amounts();
        let unseen = self.versions.unseen_sum(table, bookmark, column, reader);
        stored.wrapping_sub(unseen.cast_signed())
    }

    /// The columns of a record that a reader sees rise, and each has a value.
    pub fn seen_records_are_formed(&self)
        ensures { (reader : Reader) (table : ℕ) (bookmark : List ℕ) → IfSome (seen_record table bookmark reader (record_in self.now.store.tables table bookmark) self.now.store.held) (λ fields. IsTrue (is_record fields)) }
    {
        self.trees.nodes_are_in_order();
    }
}

/// The row that the reader sees under a bookmark.
pub(crate) fn shown_row<'a>(
    trees: &'a TableTrees,
    versions: &'a Versions,
    table: TableId,
    bookmark: &[u8],
    reader: Reader,
) -> Option<&'a [u8]>
    ensures { option_copied result ≡ row_seen (row_under (table_nodes trees.now.tables table.0) bookmark.now) (seen_row table.0 bookmark.now reader versions.now) }
{
    match versions.variant(table, bookmark, reader) {
        Variant::Current => newest_row(trees, table, bookmark),
        Variant::Before(row) => Some(row),
        Variant::Absent => None,
    }
}

/// The newest row under a bookmark.
pub(crate) fn newest_row<'a>(
    trees: &'a TableTrees,
    table: TableId,
    bookmark: &[u8],
) -> Option<&'a [u8]>
    ensures { option_copied result ≡ row_under (table_nodes trees.now.tables table.0) bookmark.now }
{
    row_in_node(trees.get(table, bookmark))
}
