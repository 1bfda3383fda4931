//! What the nodes of the catalog tell, each as a value.

use column_set::Column;
use index_derive::IndexRule;
use jet_base::{Name, TableId};
use jet_catalog::GreatestColumns;

/// What the node of a table tells: the table without its columns and indexes.
#[derive(Debug, Drop)]
pub struct TableItem {
    /// Its number, from 1.
    pub id: TableId,
    /// Its name, which no other table has.
    pub name: Name,
    /// The greatest column numbers that it ever gave.
    pub greatest: GreatestColumns,
    /// The root page of the tree of its records.
    pub records: u32,
    /// The root page of the tree of its long values.
    pub long_values: u32,
}

/// What one node of the catalog tells.
#[derive(Debug, Drop)]
pub enum CatalogItem {
    /// The greatest number that a table was ever given, 0 where there was none. It stands in every catalog.
    Greatest(u32),
    /// A table.
    Table(TableItem),
    /// A column of a table.
    Column(TableId, Column),
    /// An index of a table, with the root page of its tree. A primary index has no tree of its own, and 0 stands there.
    Index(TableId, u32, IndexRule),
}
