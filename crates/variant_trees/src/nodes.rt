//! Nodes where they lie: the row of one as a record, and its bookmark as an entry.

ghost use Rattle.std.specs.Prelude.{◌≡◌, option_and_then, option_copied, IfSome, option_map, ◌≤◌, length};
ghost use Rattle.stored_variants.specs.RecordRows.{row_in_node, IsRecordRow, record_of};
ghost use Rattle.table_trees.specs.StoredTables.{table_long_values};

use index_derive::IndexEntry;
use jet_base::TableId;
use key_normal::Key;
use table_trees::{ShownRow, TableTrees};

/// The row in a node's bytes. A node without a byte has none: its record was dropped, and an older variant is still held.
pub fn row_in_node(bytes: Option<&[u8]>) -> Option<&[u8]>
    ensures { option_copied result ≡ option_and_then row_in_node (option_copied bytes.entry) }
{
    match bytes {
        Some(row) => { if row.is_empty() { None } else { Some(row) } }
        None => None,
    }
}

/// The record of a row of a table, read where it lies, with its long values.
pub fn in_place<'a>(
    trees: &'a TableTrees,
    table: TableId,
    row: Option<&'a [u8]>,
) -> Option<ShownRow<'a>>
    requires { IfSome (option_copied row) (IsRecordRow (table_long_values trees.now.tables table.0)) }
    ensures { result ≡ option_map (record_of (table_long_values trees.now.tables table.0)) (option_copied row.entry) }
{
    match row {
        Some(row) => Some(ShownRow::new(trees, table, row)),
        None => None,
    }
}

/// The entry of a record in the order of the bookmarks: a bookmark, of 255 bytes at most, is its own key.
pub fn own_entry(bookmark: &[u8]) -> IndexEntry
    requires { length bookmark.now ≤ 255 }
    ensures key { result.key ≡ bookmark.now }
    ensures bookmark { result.bookmark ≡ bookmark.now }
{
    IndexEntry {
        key: Key::from_slice(bookmark),
        bookmark: Key::from_slice(bookmark),
    }
}
