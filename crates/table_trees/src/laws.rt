//! What the nodes, the long values and the entries of all tables are after a change of one, by look-ups.

ghost use Rattle.std.specs.Prelude.{◌≡◌, ◌≢◌, ◌==◌, ◌||◌, ◌&&◌, not, ℕ, true, Option, Some, None, List, [], ◌∷◌, ◌++◌, find, if◌then◌else◌, bytes_eq};
ghost use Rattle.std.specs.Option.{option_map};
ghost use Rattle.page_image.specs.Page.{Node};
ghost use Rattle.page_space.specs.Frames.{Frames};
ghost use Rattle.btree_inplace.specs.Changes.{inserted, with_data_at, with_extent_at, without_key};
ghost use Rattle.btree_inplace.specs.Order.{has_key};
ghost use Rattle.btree_inplace.specs.Shape.{IsSubtree};
ghost use Rattle.btree_inplace.specs.Trees.{Exchanges};
ghost use Rattle.catalog_record.specs.CatalogTrees.{IsCatalogTree, nodes_in, own_pages, root_of};
ghost use Rattle.catalog_record.specs.declared.tree.CatalogTree.{CatalogTree};
ghost use Rattle.index_derive.specs.declared.entries.Place.{Place};
ghost use Rattle.cursor_nav.specs.Places.{Pair, entry_after, entry_before};
ghost use Rattle.table_trees.specs.StoredNodes.{bookmark_entries, node_after, node_before, put_data, put_extent};
ghost use Rattle.long_value.specs.Values.{Values};
ghost use Rattle.table_trees.specs.StoredTables.{StoredIndex, StoredTable, has_index, has_table, index_entries, new_table, table_indexes, table_long_values, table_nodes, with_entries, with_indexes, with_long_values, with_new_index, with_nodes, without_index, without_table};
ghost use Rattle.table_trees.specs.TreesInSpace.{StandsIn};

use crate::nodes::tree_pages_are_own;

/// A table that is there has the nodes that it was given. All others keep theirs, and each table its indexes and its
/// long values.
pub fn nodes_after_a_change()
    ensures named { (tables : List StoredTable) (table : ℕ) (nodes : List Node) → has_table tables table ≡ true → table_nodes (with_nodes table nodes tables) table ≡ nodes }
    ensures others { (tables : List StoredTable) (table other : ℕ) (nodes : List Node) → other ≢ table → table_nodes (with_nodes table nodes tables) other ≡ table_nodes tables other }
    ensures indexes { (tables : List StoredTable) (table other : ℕ) (nodes : List Node) → table_indexes (with_nodes table nodes tables) other ≡ table_indexes tables other }
    ensures long_values { (tables : List StoredTable) (table other : ℕ) (nodes : List Node) → table_long_values (with_nodes table nodes tables) other ≡ table_long_values tables other }
    ensures there { (tables : List StoredTable) (table other : ℕ) (nodes : List Node) → has_table (with_nodes table nodes tables) other ≡ has_table tables other }
{}

/// A table that is there has the long values that it was given. All others keep theirs, and each table its nodes and its
/// indexes.
pub fn long_values_after_a_change()
    ensures named { (tables : List StoredTable) (table : ℕ) (values : Values) → has_table tables table ≡ true → table_long_values (with_long_values table values tables) table ≡ values }
    ensures others { (tables : List StoredTable) (table other : ℕ) (values : Values) → other ≢ table → table_long_values (with_long_values table values tables) other ≡ table_long_values tables other }
    ensures nodes { (tables : List StoredTable) (table other : ℕ) (values : Values) → table_nodes (with_long_values table values tables) other ≡ table_nodes tables other }
    ensures indexes { (tables : List StoredTable) (table other : ℕ) (values : Values) → table_indexes (with_long_values table values tables) other ≡ table_indexes tables other }
    ensures there { (tables : List StoredTable) (table other : ℕ) (values : Values) → has_table (with_long_values table values tables) other ≡ has_table tables other }
{}

/// A table that is there has the indexes that it was given. All others keep theirs, and each table its nodes and its
/// long values. So it is where one index comes, goes or has other entries.
pub fn indexes_after_a_change()
    ensures named { (tables : List StoredTable) (table : ℕ) (indexes : List StoredIndex) → has_table tables table ≡ true → table_indexes (with_indexes table indexes tables) table ≡ indexes }
    ensures others { (tables : List StoredTable) (table other : ℕ) (indexes : List StoredIndex) → other ≢ table → table_indexes (with_indexes table indexes tables) other ≡ table_indexes tables other }
    ensures nodes { (tables : List StoredTable) (table other : ℕ) (indexes : List StoredIndex) → table_nodes (with_indexes table indexes tables) other ≡ table_nodes tables other }
    ensures long_values { (tables : List StoredTable) (table other : ℕ) (indexes : List StoredIndex) → table_long_values (with_indexes table indexes tables) other ≡ table_long_values tables other }
    ensures there { (tables : List StoredTable) (table other : ℕ) (indexes : List StoredIndex) → has_table (with_indexes table indexes tables) other ≡ has_table tables other }
{}

/// An index that is there has the entries that it was given, and all others of its table keep theirs.
pub fn entries_after_a_change()
    ensures named { (tables : List StoredTable) (table index : ℕ) (entries : List Pair) → has_index tables table index ≡ true → index_entries (with_entries table index entries tables) table index ≡ entries }
    ensures others { (tables : List StoredTable) (table index other : ℕ) (entries : List Pair) → other ≢ index → index_entries (with_entries table index entries tables) table other ≡ index_entries tables table other }
    ensures there { (tables : List StoredTable) (table index other : ℕ) (entries : List Pair) → has_index (with_entries table index entries tables) table other ≡ has_index tables table other }
{}

/// An index that was added is there and has no entry, and each index of its table has the entries that it had.
pub fn indexes_beside_a_new_one()
    ensures entries { (tables : List StoredTable) (table index other : ℕ) → index_entries (with_new_index table index tables) table other ≡ index_entries tables table other }
    ensures there { (tables : List StoredTable) (table index other : ℕ) → has_table tables table ≡ true → has_index (with_new_index table index tables) table other ≡ (has_index tables table other || (index == other)) }
{}

/// An index that was removed is not there and has no entry, and all others of its table keep theirs.
pub fn indexes_without_one()
    ensures gone { (tables : List StoredTable) (table index : ℕ) → index_entries (without_index table index tables) table index ≡ [] }
    ensures others { (tables : List StoredTable) (table index other : ℕ) → other ≢ index → index_entries (without_index table index tables) table other ≡ index_entries tables table other }
    ensures there { (tables : List StoredTable) (table index other : ℕ) → has_index (without_index table index tables) table other ≡ (has_index tables table other && not (other == index)) }
{}

/// A table that was added is there, without nodes, long values and indexes, and each table has what it had.
pub fn tables_beside_a_new_one()
    ensures nodes { (tables : List StoredTable) (table other : ℕ) → table_nodes (tables ++ new_table table ∷ []) other ≡ table_nodes tables other }
    ensures long_values { (tables : List StoredTable) (table other : ℕ) → table_long_values (tables ++ new_table table ∷ []) other ≡ table_long_values tables other }
    ensures indexes { (tables : List StoredTable) (table other : ℕ) → table_indexes (tables ++ new_table table ∷ []) other ≡ table_indexes tables other }
    ensures there { (tables : List StoredTable) (table other : ℕ) → has_table (tables ++ new_table table ∷ []) other ≡ (has_table tables other || (table == other)) }
{}

/// A table that was removed is not there and has nothing, and all others keep what they have.
pub fn tables_without_one()
    ensures no_nodes { (tables : List StoredTable) (table : ℕ) → table_nodes (without_table table tables) table ≡ [] }
    ensures no_long_values { (tables : List StoredTable) (table : ℕ) → table_long_values (without_table table tables) table ≡ [] }
    ensures no_indexes { (tables : List StoredTable) (table : ℕ) → table_indexes (without_table table tables) table ≡ [] }
    ensures nodes { (tables : List StoredTable) (table other : ℕ) → other ≢ table → table_nodes (without_table table tables) other ≡ table_nodes tables other }
    ensures long_values { (tables : List StoredTable) (table other : ℕ) → other ≢ table → table_long_values (without_table table tables) other ≡ table_long_values tables other }
    ensures indexes { (tables : List StoredTable) (table other : ℕ) → other ≢ table → table_indexes (without_table table tables) other ≡ table_indexes tables other }
    ensures there { (tables : List StoredTable) (table other : ℕ) → has_table (without_table table tables) other ≡ (has_table tables other && not (other == table)) }
{}

/// What stands under a bookmark once a node was put, taken out, or has another row or extent.
pub fn nodes_by_bookmark()
    ensures put { (nodes : List Node) (node : Node) (bookmark : List ℕ) → find (has_key bookmark) (inserted nodes node) ≡ (if bytes_eq node.key bookmark then Some node else find (has_key bookmark) nodes) }
    ensures removed { (nodes : List Node) (key bookmark : List ℕ) → find (has_key bookmark) (without_key nodes key) ≡ (if bytes_eq key bookmark then None else find (has_key bookmark) nodes) }
    ensures replaced { (nodes : List Node) (key row bookmark : List ℕ) → find (has_key bookmark) (with_data_at nodes key row) ≡ option_map (λ (n : Node). if bytes_eq key bookmark then put_data row n else n) (find (has_key bookmark) nodes) }
    ensures widened { (nodes : List Node) (key bookmark : List ℕ) (extent : ℕ) → find (has_key bookmark) (with_extent_at nodes key extent) ≡ option_map (λ (n : Node). if bytes_eq key bookmark then put_extent extent n else n) (find (has_key bookmark) nodes) }
{}

/// The neighbours of a place among nodes are those among their bookmarks, each of which is its own key.
pub fn neighbours_are_those_of_bookmarks()
    ensures after { (place : Place) (nodes : List Node) → option_map (λ (found : Pair). (found.0, found.0)) (node_after place nodes) ≡ entry_after place (bookmark_entries nodes) }
    ensures before { (place : Place) (nodes : List Node) → option_map (λ (found : Pair). (found.0, found.0)) (node_before place nodes) ≡ entry_before place (bookmark_entries nodes) }
{}

/// A catalog that was made in a space without a page stands there alone.
pub fn a_catalog_stands_alone_in_its_space()
    ensures { (frames : Frames) (catalog : CatalogTree) → IsCatalogTree frames catalog → Exchanges [] frames [] (own_pages frames catalog) → StandsIn frames (Some (root_of catalog)) (record { tables = []; catalog = record { nodes = nodes_in frames catalog; roots = [] } }) }
{
    tree_pages_are_own();
}

/// The pages below a root page tell how deep its tree is, and so which nodes and which pages it has.
pub fn a_root_has_one_tree()
    ensures { (frames : Frames) (root depth other : ℕ) → IsSubtree depth frames root → IsSubtree other frames root → depth ≡ other }
{}
