//! The bytes of the catalog's nodes, and what a schema change does to them: the definitions, their worked examples and their
//! laws. There is no code here.
#![tactic(auto)]

pub mod change_examples;
pub mod examples;
mod items;
mod laws;
mod single_nodes;
mod steps;

pub use items::{CatalogItem, TableItem};
pub use laws::{
    catalogs_are_read_back, keys_rise, new_indexes_are_spelled_as_in_the_log, nodes_fit_a_tree,
    nodes_have_one_spelling,
};
pub use single_nodes::{columns_are_nodes, indexes_are_nodes, numbers_are_data, tables_are_nodes};
pub use steps::{
    add_column_adds_a_node, add_column_is_taken_back, create_index_adds_a_node,
    create_table_adds_a_node, create_table_is_taken_back, delete_column_removes_a_node,
    delete_index_removes_a_node, delete_table_removes_its_nodes, nodes_go_one_by_one,
    other_roots_do_not_count,
};
