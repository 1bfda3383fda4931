//! The catalog of an image and the trees of its tables, once they are walked.

use crate::making::TreeRoots;
use btree_inplace::Tree;
use catalog_record::CatalogTree;
use jet_base::{IndexId, TableId};
use jet_catalog::Catalog;

/// A catalog that was read from the nodes of its tree.
#[derive(Drop)]
pub struct OpenedCatalog {
    pub tree: CatalogTree,
    pub catalog: Catalog,
    /// The root pages of each table's trees, by rising number of the tables.
    pub roots: Vec<TreeRoots>,
}

/// The tree of an index that has one: of each but the primary index.
#[derive(Drop)]
pub struct OpenedIndex {
    pub index: IndexId,
    pub tree: Tree,
}

/// The trees of a table: each is one, and nothing is known of its nodes yet.
#[derive(Drop)]
pub struct OpenedTable {
    pub table: TableId,
    /// The tree of its records.
    pub nodes: Tree,
    /// The tree of its long values.
    pub long_values: Tree,
    /// The trees of its indexes but the primary one, by rising number.
    pub indexes: Vec<OpenedIndex>,
}
