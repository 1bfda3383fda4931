//! All tables, in trees of one space.

ghost use Rattle.std.specs.Prelude.{◌≡◌, ◌<◌, ◌≤◌, ◌^◌, ◌==◌, ℕ, None, true, false, [], ◌∷◌, ◌++◌, length, take, nat_lt, if◌then◌else◌, bytes_eq, is_some, not, All, IfOk, IfSome, IsSome, IsSomeAnd, OnErr, OnOk};
ghost use Rattle.std.specs.List.{position_from};
ghost use Rattle.std.specs.Option.{option_copied, option_map};
ghost use Rattle.btree_inplace.specs.Changes.{inserted, inserted_if_absent, with_data_at, with_extent_at, without_key};
ghost use Rattle.btree_inplace.specs.Order.{extent_in, get_in};
ghost use Rattle.index_derive.specs.Entries.{insert_entry};
ghost use Rattle.cursor_nav.specs.Places.{are_sorted, entry_after, entry_before};
ghost use Rattle.laws_versions.specs.KeptEntries.{has_entry, has_key, without_entry};
ghost use Rattle.index_tree.specs.Entries.{AreApart, IsApartFromAll, IsShort, insert_entry_if_absent};
ghost use Rattle.long_value.specs.Stores.{id_bytes, read_upto};
ghost use Rattle.long_value.specs.Values.{AreLong, put_value, with_reference, without_reference};
ghost use Rattle.table_trees.specs.StoredNodes.{IsShortNode, bookmark_entries, node_after, node_before};
ghost use Rattle.table_trees.specs.StoredTables.{has_index, has_table, index_entries, long_value_of, new_table, table_long_values, table_nodes, with_entries, with_long_values, with_new_index, with_nodes, without_index, without_table};
ghost use Rattle.table_trees.specs.TreesInSpace.{StandsIn};
ghost use Rattle.table_trees.specs.TreesView.{AreTables, stored_catalog, stored_tables};
ghost use Rattle.table_trees.specs.StoredTrees.{with_root_of, with_table_roots, without_root_of, without_table_roots};
ghost use Rattle.catalog_grammar.specs.Catalogs.{catalog_nodes};

use crate::catalog::KeptCatalog;
use crate::table::{Table, tables_stay};
use btree_inplace::nodes_fit_their_space;
use catalog_record::CatalogTree;
use index_derive::Place;
use index_tree::entries_fit_their_space;
use jet_base::{IndexId, OutOfMemory, TableId};
use long_value::LongId;
use page_space::Space;
use std::alloc::Global;
use std::marker::Model;

/// The space that trees stand in, and where the catalog's stands.
#[derive(Clone, Copy)]
pub struct StoredSpace<'a> {
    pub space: &'a Space,
    /// The number of the root page of the catalog's tree, if it has a page.
    pub catalog_root: Option<u32>,
}

/// All tables: the nodes of each, its long values, and the entries of its indexes. Beside them stands the catalog.
///
/// A node is a row under a bookmark of 1 to 255 bytes. The row may be empty: so a node stands for a record that the
/// newest state does not have. So many bytes are kept for a row as its extent says, 1,700 at most.
///
/// A long value is kept apart from the rows, with a count of the references to it. Each table has a tree for its long
/// values from its making on, one page where it has none.
///
/// Contracts see the tables in the order in which they were made, each with its number, its nodes, which rise by their
/// bookmarks, its indexes with their entries, which rise, and its long values, which rise by their identifiers. Beside the
/// tables they see the nodes of the catalog, and the numbers of the root pages of all tables' trees, which are to stand in
/// these nodes: a root page stays the same while its tree stands.
///
/// A call goes over the tables to the one that is named, over that table's indexes to the one that is named, and down one
/// path of its tree. Look-ups and moves take no memory, and neither does a call that says so. Where another finds none it
/// is refused, and everything is as it was.
#[derive(Drop)]
pub struct TableTrees {
    pub(crate) space: Space,
    pub(crate) catalog: KeptCatalog,
    pub(crate) tables: Vec<Table>,
}

impl Model for TableTrees {
    ghost use Rattle.table_trees.specs.StoredTrees.{StoredTrees};

    ghost Value = { StoredTrees };

    ghost use Rattle.table_trees.specs.TreesView.{IsKept, stored};

    ghost view = { stored };

    ghost invariant = { IsKept };
}

impl TableTrees {
    /// No table. It takes no memory.
    pub fn new(alloc: Global) -> TableTrees
        ensures tables { result.tables ≡ [] }
        ensures catalog { result.catalog ≡ record { nodes = catalog_nodes 0 []; roots = [] } }
    {
        TableTrees {
            space: Space::new(alloc),
            catalog: KeptCatalog::new(),
            tables: Vec::new(alloc),
        }
    }

    /// All tables that were read back: the space, the catalog's tree (none for the catalog of an empty database, which then has
    /// no page), and the tables in the order of their making. Each tree is to be in order, each page that is taken is to be
    /// in one of them and once, and no two tables and no two indexes of a table are to have one number. It takes no memory.
    pub fn of(space: Space, catalog: Option<CatalogTree>, tables: Vec<Table>) -> TableTrees
        requires { AreTables space (record { tree = catalog }) tables.items }
        ensures tables { result.tables ≡ stored_tables space tables.items }
        ensures catalog { result.catalog ≡ stored_catalog space (record { tree = catalog }) tables.items }
    {
        TableTrees {
            space,
            catalog: KeptCatalog::of(catalog),
            tables,
        }
    }

    /// The space of all trees, and the root page of the catalog's tree in it: none for the catalog of an empty database that
    /// has no page yet. Under this root page and under those that the catalog's nodes are to have stand the trees of the
    /// catalog and of the tables, each with exactly the nodes of what it holds. Each page that is taken is in one of these
    /// trees, and there once.
    pub fn space(&self) -> StoredSpace<'_>
        ensures { StandsIn result.space.now result.catalog_root self.now }
    {
        StoredSpace {
            space: &self.space,
            catalog_root: self.catalog.root(),
        }
    }

    /// Adds a table without a node, an index and a long value, behind the others.
    pub fn add_table(&mut self, table: TableId) -> Result<(), OutOfMemory>
        requires { has_table self.old.tables table.0 ≡ false }
        ensures ok { OnOk result (self.new.tables ≡ self.old.tables ++ new_table table.0 ∷ []) }
        ensures err { OnErr result (self.new.tables ≡ self.old.tables) }
        ensures rooted { OnOk result ((records long_values : ℕ) × (self.new.catalog ≡ with_table_roots table.0 records long_values self.old.catalog)) }
        ensures kept { OnErr result (self.new.catalog ≡ self.old.catalog) }
    {
        tables_stay();
        self.tables.reserve(1)?;
        let alloc = *self.tables.allocator();
        let made = Table::new(alloc, &mut self.space, table)?;
        self.tables.push(made)?;
        Ok(())
    }

    /// Takes out a table with its nodes, its indexes and its long values. The other tables keep their order. It takes no memory.
    pub fn remove_table(&mut self, table: TableId)
        requires { has_table self.old.tables table.0 ≡ true }
        ensures tables { self.new.tables ≡ without_table table.0 self.old.tables }
        ensures catalog { self.new.catalog ≡ without_table_roots table.0 self.old.catalog }
    {
        tables_stay();
        match table_place(self.tables.as_slice(), table) {
            Some(i) => {
                let removed = self.tables.remove(i);
                removed.give_back(&mut self.space);
            }
            None => {}
        }
    }

    /// The row under a bookmark of a table, if there is a node: the bytes as they lie in their page.
    pub fn get(&self, table: TableId, bookmark: &[u8]) -> Option<&[u8]>
        ensures { option_copied result ≡ get_in (table_nodes self.now.tables table.0) bookmark.now }
    {
        match table_place(self.tables.as_slice(), table) {
            Some(i) => self.tables[i].nodes.get(&self.space, bookmark),
            None => None,
        }
    }

    /// How many bytes are kept for the row under a bookmark of a table, if there is a node.
    pub fn extent(&self, table: TableId, bookmark: &[u8]) -> Option<usize>
        ensures { result ≡ extent_in (table_nodes self.now.tables table.0) bookmark.now }
    {
        match table_place(self.tables.as_slice(), table) {
            Some(i) => self.tables[i].nodes.extent(&self.space, bookmark),
            None => None,
        }
    }

    /// Puts a node with a row under a bookmark that has none, and keeps so many bytes for its row.
    pub fn insert(
        &mut self,
        table: TableId,
        bookmark: &[u8],
        row: &[u8],
        extent: usize,
    ) -> Result<(), OutOfMemory>
        requires there { has_table self.old.tables table.0 ≡ true }
        requires absent { get_in (table_nodes self.old.tables table.0) bookmark.now ≡ None }
        requires some { 0 < length bookmark.now }
        requires short { length bookmark.now ≤ 255 }
        requires fits { length row.now ≤ extent }
        requires small { extent ≤ 1700 }
        ensures ok { OnOk result (self.new.tables ≡ with_nodes table.0 (inserted (table_nodes self.old.tables table.0) (record { key = bookmark.now; extent = extent; «data» = row.now })) self.old.tables) }
        ensures err { OnErr result (self.new.tables ≡ self.old.tables) }
        ensures catalog { self.new.catalog ≡ self.old.catalog }
    {
        tables_stay();
        match table_place(self.tables.as_slice(), table) {
            Some(i) => {
                let named = &mut self.tables[i];
                named.nodes.insert(&mut self.space, bookmark, row, extent)
            }
            None => Ok(()),
        }
    }

    /// Puts a node with a row under a bookmark that has none, as `insert` does. Where it has one, all stays and no memory is
    /// taken: then it answers how many bytes are kept for the row that is there. It goes down the tree once.
    pub fn insert_if_absent(
        &mut self,
        table: TableId,
        bookmark: &[u8],
        row: &[u8],
        extent: usize,
    ) -> Result<Option<usize>, OutOfMemory>
        requires there { has_table self.old.tables table.0 ≡ true }
        requires some { 0 < length bookmark.now }
        requires short { length bookmark.now ≤ 255 }
        requires fits { length row.now ≤ extent }
        requires small { extent ≤ 1700 }
        ensures there { IfOk result (λ there. there ≡ extent_in (table_nodes self.old.tables table.0) bookmark.now) }
        ensures ok { OnOk result (self.new.tables ≡ with_nodes table.0 (inserted_if_absent (table_nodes self.old.tables table.0) (record { key = bookmark.now; extent = extent; «data» = row.now })) self.old.tables) }
        ensures same { IfOk result (λ there. IsSome there → self.new.tables ≡ self.old.tables) }
        ensures err { OnErr result (self.new.tables ≡ self.old.tables) }
        ensures absent { OnErr result (extent_in (table_nodes self.old.tables table.0) bookmark.now ≡ None) }
        ensures catalog { self.new.catalog ≡ self.old.catalog }
    {
        tables_stay();
        match table_place(self.tables.as_slice(), table) {
            Some(i) => {
                let named = &mut self.tables[i];
                named
                    .nodes
                    .insert_if_absent(&mut self.space, bookmark, row, extent)
            }
            None => Ok(None),
        }
    }

    /// Keeps another number of bytes for the row under a bookmark, at least as many as it has.
    pub fn widen(
        &mut self,
        table: TableId,
        bookmark: &[u8],
        extent: usize,
    ) -> Result<(), OutOfMemory>
        requires fits { IsSomeAnd (get_in (table_nodes self.old.tables table.0) bookmark.now) (λ row. length row ≤ extent) }
        requires small { extent ≤ 1700 }
        ensures ok { OnOk result (self.new.tables ≡ with_nodes table.0 (with_extent_at (table_nodes self.old.tables table.0) bookmark.now extent) self.old.tables) }
        ensures err { OnErr result (self.new.tables ≡ self.old.tables) }
        ensures catalog { self.new.catalog ≡ self.old.catalog }
    {
        tables_stay();
        match table_place(self.tables.as_slice(), table) {
            Some(i) => {
                let named = &mut self.tables[i];
                named.nodes.widen(&mut self.space, bookmark, extent)
            }
            None => Ok(()),
        }
    }

    /// Puts another row under a bookmark that has a node, no longer than what is kept for it. It takes no memory.
    pub fn replace(&mut self, table: TableId, bookmark: &[u8], row: &[u8])
        requires { IsSomeAnd (extent_in (table_nodes self.old.tables table.0) bookmark.now) (λ extent. length row.now ≤ extent) }
        ensures tables { self.new.tables ≡ with_nodes table.0 (with_data_at (table_nodes self.old.tables table.0) bookmark.now row.now) self.old.tables }
        ensures catalog { self.new.catalog ≡ self.old.catalog }
    {
        tables_stay();
        match table_place(self.tables.as_slice(), table) {
            Some(i) => {
                let named = &mut self.tables[i];
                named.nodes.replace(&mut self.space, bookmark, row);
            }
            None => {}
        }
    }

    /// Takes out the node under a bookmark that has one. It takes no memory.
    pub fn remove(&mut self, table: TableId, bookmark: &[u8])
        requires { IsSome (get_in (table_nodes self.old.tables table.0) bookmark.now) }
        ensures tables { self.new.tables ≡ with_nodes table.0 (without_key (table_nodes self.old.tables table.0) bookmark.now) self.old.tables }
        ensures catalog { self.new.catalog ≡ self.old.catalog }
    {
        tables_stay();
        match table_place(self.tables.as_slice(), table) {
            Some(i) => {
                let named = &mut self.tables[i];
                named.nodes.remove(&mut self.space, bookmark);
            }
            None => {}
        }
    }

    /// The node of a table with the least bookmark beyond a place among its bookmarks, each of which is its own key
    /// there: its bookmark and its row, as they lie in their page.
    pub fn node_after(&self, table: TableId, place: &Place) -> Option<(&[u8], &[u8])>
        ensures node { option_map (λ found. (found.0.now, found.1.now)) result ≡ node_after place.now (table_nodes self.now.tables table.0) }
        ensures short { IfSome result (λ found. length found.0.now ≤ 255) }
    {
        match table_place(self.tables.as_slice(), table) {
            Some(i) => self.tables[i].nodes.after(&self.space, place),
            None => None,
        }
    }

    /// The node of a table with the greatest bookmark before a place among its bookmarks, each of which is its own key
    /// there: its bookmark and its row, as they lie in their page.
    pub fn node_before(&self, table: TableId, place: &Place) -> Option<(&[u8], &[u8])>
        ensures node { option_map (λ found. (found.0.now, found.1.now)) result ≡ node_before place.now (table_nodes self.now.tables table.0) }
        ensures short { IfSome result (λ found. length found.0.now ≤ 255) }
    {
        match table_place(self.tables.as_slice(), table) {
            Some(i) => self.tables[i].nodes.before(&self.space, place),
            None => None,
        }
    }

    /// Whether an index of a table is there.
    pub fn has_index(&self, table: TableId, index: IndexId) -> bool
        ensures { result ≡ has_index self.now.tables table.0 index.0 }
    {
        match table_place(self.tables.as_slice(), table) {
            Some(i) => self.tables[i].has_index(index),
            None => false,
        }
    }

    /// Adds an index without an entry to a table, behind its others.
    pub fn add_index(&mut self, table: TableId, index: IndexId) -> Result<(), OutOfMemory>
        requires there { has_table self.old.tables table.0 ≡ true }
        requires absent { has_index self.old.tables table.0 index.0 ≡ false }
        ensures ok { OnOk result (self.new.tables ≡ with_new_index table.0 index.0 self.old.tables) }
        ensures err { OnErr result (self.new.tables ≡ self.old.tables) }
        ensures rooted { OnOk result ((root : ℕ) × (self.new.catalog ≡ with_root_of table.0 index.0 root self.old.catalog)) }
        ensures kept { OnErr result (self.new.catalog ≡ self.old.catalog) }
    {
        tables_stay();
        match table_place(self.tables.as_slice(), table) {
            Some(i) => {
                let named = &mut self.tables[i];
                named.add_index(&mut self.space, index)
            }
            None => Ok(()),
        }
    }

    /// Takes out an index with its entries. It takes no memory.
    pub fn remove_index(&mut self, table: TableId, index: IndexId)
        requires { has_index self.old.tables table.0 index.0 ≡ true }
        ensures tables { self.new.tables ≡ without_index table.0 index.0 self.old.tables }
        ensures catalog { self.new.catalog ≡ without_root_of table.0 index.0 self.old.catalog }
    {
        tables_stay();
        match table_place(self.tables.as_slice(), table) {
            Some(i) => {
                let named = &mut self.tables[i];
                named.remove_index(&mut self.space, index);
            }
            None => {}
        }
    }

    /// Puts an entry that is not there into an index. No key of an entry may begin another one's key.
    pub fn insert_entry(
        &mut self,
        table: TableId,
        index: IndexId,
        key: &[u8],
        bookmark: &[u8],
    ) -> Result<(), OutOfMemory>
        requires there { has_index self.old.tables table.0 index.0 ≡ true }
        requires absent { has_entry key.now bookmark.now (index_entries self.old.tables table.0 index.0) ≡ false }
        requires apart { IsApartFromAll key.now (index_entries self.old.tables table.0 index.0) }
        requires key { length key.now ≤ 255 }
        requires bookmark { length bookmark.now ≤ 255 }
        ensures ok { OnOk result (self.new.tables ≡ with_entries table.0 index.0 (insert_entry (key.now, bookmark.now) (index_entries self.old.tables table.0 index.0)) self.old.tables) }
        ensures err { OnErr result (self.new.tables ≡ self.old.tables) }
        ensures catalog { self.new.catalog ≡ self.old.catalog }
    {
        tables_stay();
        match table_place(self.tables.as_slice(), table) {
            Some(i) => {
                let named = &mut self.tables[i];
                named.insert_entry(&mut self.space, index, key, bookmark)
            }
            None => Ok(()),
        }
    }

    /// Puts an entry into an index where it is not there, and says whether it was put. No key of an entry may begin another
    /// one's key. It goes down the index's tree once.
    pub fn insert_entry_if_absent(
        &mut self,
        table: TableId,
        index: IndexId,
        key: &[u8],
        bookmark: &[u8],
    ) -> Result<bool, OutOfMemory>
        requires there { has_index self.old.tables table.0 index.0 ≡ true }
        requires apart { IsApartFromAll key.now (index_entries self.old.tables table.0 index.0) }
        requires key { length key.now ≤ 255 }
        requires bookmark { length bookmark.now ≤ 255 }
        ensures put { IfOk result (λ is_new. is_new ≡ not (has_entry key.now bookmark.now (index_entries self.old.tables table.0 index.0))) }
        ensures ok { OnOk result (self.new.tables ≡ with_entries table.0 index.0 (insert_entry_if_absent (key.now, bookmark.now) (index_entries self.old.tables table.0 index.0)) self.old.tables) }
        ensures err { OnErr result (self.new.tables ≡ self.old.tables) }
        ensures absent { OnErr result (has_entry key.now bookmark.now (index_entries self.old.tables table.0 index.0) ≡ false) }
        ensures catalog { self.new.catalog ≡ self.old.catalog }
    {
        tables_stay();
        match table_place(self.tables.as_slice(), table) {
            Some(i) => {
                let named = &mut self.tables[i];
                named.insert_entry_if_absent(&mut self.space, index, key, bookmark)
            }
            None => Ok(false),
        }
    }

    /// Takes out an entry that is there. It takes no memory.
    pub fn remove_entry(&mut self, table: TableId, index: IndexId, key: &[u8], bookmark: &[u8])
        requires { has_entry key.now bookmark.now (index_entries self.old.tables table.0 index.0) ≡ true }
        ensures tables { self.new.tables ≡ with_entries table.0 index.0 (without_entry key.now bookmark.now (index_entries self.old.tables table.0 index.0)) self.old.tables }
        ensures catalog { self.new.catalog ≡ self.old.catalog }
    {
        tables_stay();
        match table_place(self.tables.as_slice(), table) {
            Some(i) => {
                let named = &mut self.tables[i];
                named.remove_entry(&mut self.space, index, key, bookmark);
            }
            None => {}
        }
    }

    /// Whether an index has an entry.
    pub fn has_entry(&self, table: TableId, index: IndexId, key: &[u8], bookmark: &[u8]) -> bool
        requires key { length key.now ≤ 255 }
        requires bookmark { length bookmark.now ≤ 255 }
        ensures { result ≡ has_entry key.now bookmark.now (index_entries self.now.tables table.0 index.0) }
    {
        match table_place(self.tables.as_slice(), table) {
            Some(i) => self.tables[i].has_entry(&self.space, index, key, bookmark),
            None => false,
        }
    }

    /// Whether an index has an entry with a key.
    pub fn has_key(&self, table: TableId, index: IndexId, key: &[u8]) -> bool
        ensures { result ≡ has_key key.now (index_entries self.now.tables table.0 index.0) }
    {
        match table_place(self.tables.as_slice(), table) {
            Some(i) => self.tables[i].has_key(&self.space, index, key),
            None => false,
        }
    }

    /// The least entry of an index beyond a place: its key and its bookmark, as they lie in their page.
    pub fn entry_after(
        &self,
        table: TableId,
        index: IndexId,
        place: &Place,
    ) -> Option<(&[u8], &[u8])>
        ensures entry { option_map (λ found. (found.0.now, found.1.now)) result ≡ entry_after place.now (index_entries self.now.tables table.0 index.0) }
        ensures short { IfSome result (λ found. (length found.0.now ≤ 255) × (length found.1.now ≤ 255)) }
    {
        match table_place(self.tables.as_slice(), table) {
            Some(i) => self.tables[i].entry_after(&self.space, index, place),
            None => None,
        }
    }

    /// The greatest entry of an index before a place: its key and its bookmark, as they lie in their page.
    pub fn entry_before(
        &self,
        table: TableId,
        index: IndexId,
        place: &Place,
    ) -> Option<(&[u8], &[u8])>
        ensures entry { option_map (λ found. (found.0.now, found.1.now)) result ≡ entry_before place.now (index_entries self.now.tables table.0 index.0) }
        ensures short { IfSome result (λ found. (length found.0.now ≤ 255) × (length found.1.now ≤ 255)) }
    {
        match table_place(self.tables.as_slice(), table) {
            Some(i) => self.tables[i].entry_before(&self.space, index, place),
            None => None,
        }
    }

    /// Whether a table has a long value.
    pub fn has_long(&self, table: TableId, id: LongId) -> bool
        ensures { result ≡ is_some (long_value_of self.now.tables table.0 (id_bytes id)) }
    {
        match table_place(self.tables.as_slice(), table) {
            Some(i) => self.tables[i].long_values.has(&self.space, id),
            None => false,
        }
    }

    /// How many references a long value of a table has.
    pub fn long_count(&self, table: TableId, id: LongId) -> u32
        requires { IsSome (long_value_of self.now.tables table.0 (id_bytes id)) }
        ensures { IsSomeAnd (long_value_of self.now.tables table.0 (id_bytes id)) (λ value. result ≡ value.count) }
    {
        match table_place(self.tables.as_slice(), table) {
            Some(i) => self.tables[i].long_values.count(&self.space, id),
            None => 0,
        }
    }

    /// The first bytes of a long value of a table, at most 1,024, as they lie in their page.
    pub fn first_part(&self, table: TableId, id: LongId) -> &[u8]
        requires { IsSome (long_value_of self.now.tables table.0 (id_bytes id)) }
        ensures { IsSomeAnd (long_value_of self.now.tables table.0 (id_bytes id)) (λ value. result.now ≡ take 1024 value.bytes) }
    {
        match table_place(self.tables.as_slice(), table) {
            Some(i) => self.tables[i].long_values.first_part(&self.space, id),
            None => &[],
        }
    }

    /// Reads the first bytes of a long value of a table, as many as there is room for, and says how many. What is behind
    /// them in the slice stays.
    pub fn read_long(&self, table: TableId, id: LongId, into: &mut [u8]) -> usize
        requires { IsSome (long_value_of self.now.tables table.0 (id_bytes id)) }
        ensures bytes { IsSomeAnd (long_value_of self.now.tables table.0 (id_bytes id)) (λ value. into.new ≡ read_upto result value.bytes into.old) }
        ensures count { IsSomeAnd (long_value_of self.now.tables table.0 (id_bytes id)) (λ value. result ≡ (if nat_lt (length into.old) (length value.bytes) then length into.old else length value.bytes)) }
    {
        match table_place(self.tables.as_slice(), table) {
            Some(i) => self.tables[i].long_values.read(&self.space, id, into),
            None => 0,
        }
    }

    /// Whether a long value of a table has these bytes. It takes no memory.
    pub fn long_equals(&self, table: TableId, id: LongId, bytes: &[u8]) -> bool
        requires { IsSome (long_value_of self.now.tables table.0 (id_bytes id)) }
        ensures { IsSomeAnd (long_value_of self.now.tables table.0 (id_bytes id)) (λ value. result ≡ bytes_eq value.bytes bytes.now) }
    {
        match table_place(self.tables.as_slice(), table) {
            Some(i) => self.tables[i].long_values.equals(&self.space, id, bytes),
            None => false,
        }
    }

    /// Puts a long value of 256 to 1,048,576 bytes that a table does not have, with one reference to it.
    pub fn put_long(&mut self, table: TableId, id: LongId, bytes: &[u8]) -> Result<(), OutOfMemory>
        requires there { has_table self.old.tables table.0 ≡ true }
        requires absent { long_value_of self.old.tables table.0 (id_bytes id) ≡ None }
        requires long { 256 ≤ length bytes.now }
        requires short { length bytes.now ≤ 1048576 }
        ensures ok { OnOk result (self.new.tables ≡ with_long_values table.0 (put_value (id_bytes id) (record { count = 1; bytes = bytes.now }) (table_long_values self.old.tables table.0)) self.old.tables) }
        ensures err { OnErr result (self.new.tables ≡ self.old.tables) }
        ensures catalog { self.new.catalog ≡ self.old.catalog }
    {
        tables_stay();
        match table_place(self.tables.as_slice(), table) {
            Some(i) => {
                let named = &mut self.tables[i];
                named.long_values.put(&mut self.space, id, bytes)
            }
            None => Ok(()),
        }
    }

    /// One reference more to a long value of a table, which has fewer than 4,294,967,295. It takes no memory.
    pub fn share_long(&mut self, table: TableId, id: LongId)
        requires { IsSomeAnd (long_value_of self.old.tables table.0 (id_bytes id)) (λ value. value.count < 4294967295) }
        ensures tables { self.new.tables ≡ with_long_values table.0 (with_reference (id_bytes id) (table_long_values self.old.tables table.0)) self.old.tables }
        ensures catalog { self.new.catalog ≡ self.old.catalog }
    {
        tables_stay();
        match table_place(self.tables.as_slice(), table) {
            Some(i) => {
                let named = &mut self.tables[i];
                named.long_values.share(&mut self.space, id);
            }
            None => {}
        }
    }

    /// One reference less to a long value of a table, which is gone with its last one. It takes no memory.
    pub fn release_long(&mut self, table: TableId, id: LongId)
        requires { IsSome (long_value_of self.old.tables table.0 (id_bytes id)) }
        ensures tables { self.new.tables ≡ with_long_values table.0 (without_reference (id_bytes id) (table_long_values self.old.tables table.0)) self.old.tables }
        ensures catalog { self.new.catalog ≡ self.old.catalog }
    {
        tables_stay();
        match table_place(self.tables.as_slice(), table) {
            Some(i) => {
                let named = &mut self.tables[i];
                named.long_values.release(&mut self.space, id);
            }
            None => {}
        }
    }

    /// The nodes of each table rise by their bookmarks, none of which stands twice, and are short.
    pub fn nodes_are_in_order(&self)
        ensures sorted { (table : ℕ) → are_sorted (bookmark_entries (table_nodes self.now.tables table)) ≡ true }
        ensures short { (table : ℕ) → All IsShortNode (table_nodes self.now.tables table) }
    {
        let _ = &self.tables;
    }

    /// The long values of each table rise by their identifiers, none of which stands twice. Each has 256 to 1,048,576
    /// bytes and at least one reference.
    pub fn long_values_are_whole(&self)
        ensures { (table : ℕ) → AreLong (table_long_values self.now.tables table) }
    {
        let _ = &self.tables;
    }

    /// The entries of each index rise, and are short. No key of one begins the key of another.
    pub fn entries_are_in_order(&self)
        ensures sorted { (table index : ℕ) → are_sorted (index_entries self.now.tables table index) ≡ true }
        ensures short { (table index : ℕ) → All IsShort (index_entries self.now.tables table index) }
        ensures apart { (table index : ℕ) → AreApart (index_entries self.now.tables table index) }
    {
        let _ = &self.tables;
    }

    /// No table has as many nodes as a count can come to, and no index as many entries: a page holds few nodes, and a
    /// space few pages.
    pub fn nodes_and_entries_are_few(&self)
        ensures nodes { (table : ℕ) → length (table_nodes self.now.tables table) < 2 ^ 34 }
        ensures entries { (table index : ℕ) → length (index_entries self.now.tables table index) < 2 ^ 34 }
    {
        nodes_fit_their_space();
        entries_fit_their_space();
        let _ = self.space.len();
    }
}

/// The place of a table among the tables.
pub(crate) fn table_place(tables: &[Table], table: TableId) -> Option<usize>
    ensures { result ≡ position_from (λ t. t.table.0 == table.0) 0 tables.now }
{
    tables.iter().position(|named| named.table == table)
}
