//! The trees of one table: that of its nodes, that of its long values, and those of its indexes.

ghost use Rattle.std.specs.Prelude.{◌≡◌, ℕ, ◌==◌, ◌≤◌, false, true, [], ◌∷◌, ◌++◌, length, not, IfOk, OnErr, OnOk};
ghost use Rattle.std.specs.List.{list_any, position_from};
ghost use Rattle.std.specs.Option.{option_map};
ghost use Rattle.index_derive.specs.Entries.{insert_entry};
ghost use Rattle.cursor_nav.specs.Places.{entry_after, entry_before};
ghost use Rattle.laws_versions.specs.KeptEntries.{has_entry, has_key, without_entry};
ghost use Rattle.index_tree.specs.Entries.{IsApartFromAll, insert_entry_if_absent};
ghost use Rattle.page_space.specs.Frames.{Frames};
ghost use Rattle.table_trees.specs.Pages.{AreOwn, OthersStay, Rearranges};
ghost use Rattle.table_trees.specs.StoredTables.{changed_where, is_index, new_table, part_of, put_entries, put_indexes, without_where};
ghost use Rattle.table_trees.specs.StoredTrees.{new_roots, root_behind, with_index_root, without_index_root};
ghost use Rattle.table_trees.specs.KeptCatalogs.{IsKeptCatalog, kept_nodes, kept_pages};
ghost use Rattle.table_trees.specs.LongTrees.{IsLongTree, long_pages, long_root, long_values_in};
ghost use Rattle.table_trees.specs.NodeTrees.{IsNodeTree, node_pages, node_root, nodes_in};
ghost use Rattle.table_trees.specs.declared.nodes.NodeTree.{NodeTree};
ghost use Rattle.table_trees.specs.declared.table.TableIndex.{TableIndex};
ghost use Rattle.table_trees.specs.TableParts.{IsIndex, IsTable, TableBecomes, index_pages, stored_index, stored_table, table_pages, tree_roots};

use crate::catalog::catalogs_stay;
use crate::long_values::LongTree;
use crate::nodes::{NodeTree, tree_pages_are_own};
use btree_inplace::{Tree, other_tree_stays};
use index_derive::Place;
use index_tree::{IndexTree, other_index_entries_stay};
use jet_base::{IndexId, OutOfMemory, TableId};
use long_value::{LongValues, other_long_values_stay, values_are_shown};
use page_space::Space;
use std::alloc::Global;

/// An index and its entries.
#[derive(Drop)]
pub struct TableIndex {
    index: IndexId,
    tree: IndexTree,
}

impl TableIndex {
    /// An index of this number with the entries of a tree.
    pub fn of(index: IndexId, tree: IndexTree) -> TableIndex
        ensures index { result.index ≡ index }
        ensures tree { result.tree ≡ tree }
    {
        TableIndex { index, tree }
    }
}

/// A table, its nodes, its long values, and its indexes in the order of their making.
#[derive(Drop)]
pub struct Table {
    pub(crate) table: TableId,
    pub(crate) nodes: NodeTree,
    pub(crate) long_values: LongTree,
    indexes: Vec<TableIndex>,
}

impl Table {
    /// A table of this number with the nodes of a tree, these long values and these indexes, in the order of their making.
    /// Nothing is asked of the trees: [`TableTrees::of`](crate::TableTrees::of) asks it of all tables and their space.
    pub fn of(
        table: TableId,
        nodes: Tree,
        long_values: LongValues,
        indexes: Vec<TableIndex>,
    ) -> Table
        ensures table { result.table ≡ table }
        ensures nodes { result.nodes.tree ≡ nodes }
        ensures long_values { result.long_values.store ≡ long_values }
        ensures indexes { result.indexes ≡ indexes }
    {
        Table {
            table,
            nodes: NodeTree::of(nodes),
            long_values: LongTree::of(long_values),
            indexes,
        }
    }

    /// A table without a node, a long value and an index. After a refusal all its pages are free again.
    pub(crate) fn new(
        alloc: Global,
        space: &mut Space,
        table: TableId,
    ) -> Result<Table, OutOfMemory>
        ensures made { IfOk result (λ made. IsTable space.new made × (stored_table space.new made ≡ new_table table.0) × Rearranges space.old space.new [] (table_pages space.new made)) }
        ensures roots { IfOk result (λ made. tree_roots made ≡ new_roots table.0 (node_root made.nodes) (long_root made.long_values)) }
        ensures err { OnErr result (Rearranges space.old space.new [] []) }
    {
        trees_stay();
        let nodes = NodeTree::new(space)?;
        match LongTree::new(space) {
            Ok(long_values) => Ok(Table {
                table,
                nodes,
                long_values,
                indexes: Vec::new(alloc),
            }),
            Err(fault) => {
                nodes.give_back(space);
                Err(fault)
            }
        }
    }

    /// Whether an index is there.
    pub(crate) fn has_index(&self, index: IndexId) -> bool
        ensures { (frames : Frames) → result ≡ list_any (is_index index.0) (stored_table frames self.now).indexes }
    {
        index_place(self.indexes.as_slice(), index).is_some()
    }

    /// Adds an index without an entry, behind the others.
    pub(crate) fn add_index(&mut self, space: &mut Space, index: IndexId) -> Result<(), OutOfMemory>
        requires table { IsTable space.old self.old }
        requires absent { list_any (is_index index.0) (stored_table space.old self.old).indexes ≡ false }
        ensures ok { OnOk result ((root : ℕ) × TableBecomes space.old self.old space.new self.new (put_indexes ((stored_table space.old self.old).indexes ++ (index.0, []) ∷ []) (stored_table space.old self.old)) (with_index_root index.0 root (tree_roots self.old))) }
        ensures err { OnErr result (TableBecomes space.old self.old space.new self.new (stored_table space.old self.old) (tree_roots self.old)) }
    {
        trees_stay();
        self.indexes.reserve(1)?;
        let tree = IndexTree::new(space)?;
        self.indexes.push(TableIndex { index, tree })?;
        Ok(())
    }

    /// Takes out an index with its entries. It takes no memory.
    pub(crate) fn remove_index(&mut self, space: &mut Space, index: IndexId)
        requires table { IsTable space.old self.old }
        requires there { list_any (is_index index.0) (stored_table space.old self.old).indexes ≡ true }
        ensures { TableBecomes space.old self.old space.new self.new (put_indexes (without_where (is_index index.0) (stored_table space.old self.old).indexes) (stored_table space.old self.old)) (without_index_root index.0 (tree_roots self.old)) }
    {
        trees_stay();
        match index_place(self.indexes.as_slice(), index) {
            Some(i) => {
                let removed = self.indexes.remove(i);
                removed.tree.give_back(space);
            }
            None => {}
        }
    }

    /// Puts an entry that is not there in its place.
    pub(crate) fn insert_entry(
        &mut self,
        space: &mut Space,
        index: IndexId,
        key: &[u8],
        bookmark: &[u8],
    ) -> Result<(), OutOfMemory>
        requires table { IsTable space.old self.old }
        requires there { list_any (is_index index.0) (stored_table space.old self.old).indexes ≡ true }
        requires absent { has_entry key.now bookmark.now (part_of (is_index index.0) (λ x. x.1) (stored_table space.old self.old).indexes) ≡ false }
        requires apart { IsApartFromAll key.now (part_of (is_index index.0) (λ x. x.1) (stored_table space.old self.old).indexes) }
        requires key { length key.now ≤ 255 }
        requires bookmark { length bookmark.now ≤ 255 }
        ensures ok { OnOk result (TableBecomes space.old self.old space.new self.new (put_indexes (changed_where (is_index index.0) (put_entries (insert_entry (key.now, bookmark.now) (part_of (is_index index.0) (λ x. x.1) (stored_table space.old self.old).indexes))) (stored_table space.old self.old).indexes) (stored_table space.old self.old)) (tree_roots self.old)) }
        ensures err { OnErr result (TableBecomes space.old self.old space.new self.new (stored_table space.old self.old) (tree_roots self.old)) }
    {
        trees_stay();
        match index_place(self.indexes.as_slice(), index) {
            Some(i) => {
                let named = &mut self.indexes[i];
                named.tree.insert(space, key, bookmark)
            }
            None => Ok(()),
        }
    }

    /// Puts an entry in its place where it is not there, and says whether it was put.
    pub(crate) fn insert_entry_if_absent(
        &mut self,
        space: &mut Space,
        index: IndexId,
        key: &[u8],
        bookmark: &[u8],
    ) -> Result<bool, OutOfMemory>
        requires table { IsTable space.old self.old }
        requires there { list_any (is_index index.0) (stored_table space.old self.old).indexes ≡ true }
        requires apart { IsApartFromAll key.now (part_of (is_index index.0) (λ x. x.1) (stored_table space.old self.old).indexes) }
        requires key { length key.now ≤ 255 }
        requires bookmark { length bookmark.now ≤ 255 }
        ensures put { IfOk result (λ is_new. is_new ≡ not (has_entry key.now bookmark.now (part_of (is_index index.0) (λ x. x.1) (stored_table space.old self.old).indexes))) }
        ensures ok { OnOk result (TableBecomes space.old self.old space.new self.new (put_indexes (changed_where (is_index index.0) (put_entries (insert_entry_if_absent (key.now, bookmark.now) (part_of (is_index index.0) (λ x. x.1) (stored_table space.old self.old).indexes))) (stored_table space.old self.old).indexes) (stored_table space.old self.old)) (tree_roots self.old)) }
        ensures err { OnErr result (TableBecomes space.old self.old space.new self.new (stored_table space.old self.old) (tree_roots self.old)) }
        ensures absent { OnErr result (has_entry key.now bookmark.now (part_of (is_index index.0) (λ x. x.1) (stored_table space.old self.old).indexes) ≡ false) }
    {
        trees_stay();
        match index_place(self.indexes.as_slice(), index) {
            Some(i) => {
                let named = &mut self.indexes[i];
                named.tree.insert_if_absent(space, key, bookmark)
            }
            None => Ok(false),
        }
    }

    /// Takes out an entry that is there. It takes no memory.
    pub(crate) fn remove_entry(
        &mut self,
        space: &mut Space,
        index: IndexId,
        key: &[u8],
        bookmark: &[u8],
    )
        requires table { IsTable space.old self.old }
        requires there { has_entry key.now bookmark.now (part_of (is_index index.0) (λ x. x.1) (stored_table space.old self.old).indexes) ≡ true }
        ensures { TableBecomes space.old self.old space.new self.new (put_indexes (changed_where (is_index index.0) (put_entries (without_entry key.now bookmark.now (part_of (is_index index.0) (λ x. x.1) (stored_table space.old self.old).indexes))) (stored_table space.old self.old).indexes) (stored_table space.old self.old)) (tree_roots self.old) }
    {
        trees_stay();
        match index_place(self.indexes.as_slice(), index) {
            Some(i) => {
                let named = &mut self.indexes[i];
                named.tree.remove(space, key, bookmark);
            }
            None => {}
        }
    }

    /// The number of the root page of an index's tree, 0 where the table has no such tree.
    pub(crate) fn index_root(&self, index: IndexId) -> u32
        ensures { result ≡ root_behind index.0 (tree_roots self.now).indexes }
    {
        match index_place(self.indexes.as_slice(), index) {
            Some(i) => self.indexes[i].tree.root(),
            None => 0,
        }
    }

    /// Whether an index has an entry.
    pub(crate) fn has_entry(
        &self,
        space: &Space,
        index: IndexId,
        key: &[u8],
        bookmark: &[u8],
    ) -> bool
        requires table { IsTable space.now self.now }
        requires key { length key.now ≤ 255 }
        requires bookmark { length bookmark.now ≤ 255 }
        ensures { result ≡ has_entry key.now bookmark.now (part_of (is_index index.0) (λ x. x.1) (stored_table space.now self.now).indexes) }
    {
        match index_place(self.indexes.as_slice(), index) {
            Some(i) => self.indexes[i].tree.has(space, key, bookmark),
            None => false,
        }
    }

    /// Whether an index has an entry with a key.
    pub(crate) fn has_key(&self, space: &Space, index: IndexId, key: &[u8]) -> bool
        requires { IsTable space.now self.now }
        ensures { result ≡ has_key key.now (part_of (is_index index.0) (λ x. x.1) (stored_table space.now self.now).indexes) }
    {
        match index_place(self.indexes.as_slice(), index) {
            Some(i) => self.indexes[i].tree.has_key(space, key),
            None => false,
        }
    }

    /// The least entry of an index beyond a place: its key and its bookmark.
    pub(crate) fn entry_after<'a>(
        &self,
        space: &'a Space,
        index: IndexId,
        place: &Place,
    ) -> Option<(&'a [u8], &'a [u8])>
        requires { IsTable space.now self.now }
        ensures { option_map (λ found. (found.0.now, found.1.now)) result ≡ entry_after place.now (part_of (is_index index.0) (λ x. x.1) (stored_table space.now self.now).indexes) }
    {
        match index_place(self.indexes.as_slice(), index) {
            Some(i) => self.indexes[i].tree.after(space, place),
            None => None,
        }
    }

    /// The greatest entry of an index before a place: its key and its bookmark.
    pub(crate) fn entry_before<'a>(
        &self,
        space: &'a Space,
        index: IndexId,
        place: &Place,
    ) -> Option<(&'a [u8], &'a [u8])>
        requires { IsTable space.now self.now }
        ensures { option_map (λ found. (found.0.now, found.1.now)) result ≡ entry_before place.now (part_of (is_index index.0) (λ x. x.1) (stored_table space.now self.now).indexes) }
    {
        match index_place(self.indexes.as_slice(), index) {
            Some(i) => self.indexes[i].tree.before(space, place),
            None => None,
        }
    }

    /// Gives the pages of all trees of the table to the space. It takes no memory.
    pub(crate) fn give_back(self, space: &mut Space)
        requires { IsTable space.old self }
        ensures { Rearranges space.old space.new (table_pages space.old self) [] }
    {
        trees_stay();
        self.nodes.give_back(space);
        self.long_values.give_back(space);
        let mut indexes = self.indexes;
        while let Some(last) = indexes.pop() {
            last.tree.give_back(space);
        }
    }
}

/// The place of an index among the indexes of its table.
fn index_place(indexes: &[TableIndex], index: IndexId) -> Option<usize>
    ensures { result ≡ position_from (λ x. x.index.0 == index.0) 0 indexes.now }
{
    indexes.iter().position(|named| named.index == index)
}

/// A change of pages leaves each tree that has none of them.
fn trees_stay()
    ensures nodes { OthersStay IsNodeTree node_pages nodes_in }
    ensures long_values { OthersStay IsLongTree long_pages long_values_in }
    ensures indexes { OthersStay IsIndex index_pages stored_index }
    ensures own { (frames : Frames) (index : TableIndex) → IsIndex frames index → AreOwn frames (index_pages frames index) }
    ensures own_nodes { (frames : Frames) (nodes : NodeTree) → IsNodeTree frames nodes → AreOwn frames (node_pages frames nodes) }
{
    tree_pages_are_own();
    other_tree_stays();
    other_index_entries_stay();
    other_long_values_stay();
    values_are_shown();
}

/// A change of pages leaves each table that has none of them, each tree of a table, and the catalog.
pub fn tables_stay()
    ensures nodes { OthersStay IsNodeTree node_pages nodes_in }
    ensures long_values { OthersStay IsLongTree long_pages long_values_in }
    ensures indexes { OthersStay IsIndex index_pages stored_index }
    ensures tables { OthersStay IsTable table_pages stored_table }
    ensures catalog { OthersStay IsKeptCatalog kept_pages kept_nodes }
{
    trees_stay();
    catalogs_stay();
}
