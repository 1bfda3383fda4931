//! All tables of an engine: the nodes, the long values and the index entries of each, in B-trees of one space.
#![tactic(auto)]

mod catalog;
mod keeping;
mod kept_rows;
mod laws;
mod long_values;
mod nodes;
mod table;
mod trees;

pub use keeping::other_roots_are_not_shown;
pub use kept_rows::{ShownRow, Sources, keep_row, release_removed, release_row, take_row};
pub use laws::{
    a_catalog_stands_alone_in_its_space, a_root_has_one_tree, entries_after_a_change,
    indexes_after_a_change, indexes_beside_a_new_one, indexes_without_one,
    long_values_after_a_change, neighbours_are_those_of_bookmarks, nodes_after_a_change,
    nodes_by_bookmark, tables_beside_a_new_one, tables_without_one,
};
pub use table::{Table, TableIndex};
pub use trees::{StoredSpace, TableTrees};
