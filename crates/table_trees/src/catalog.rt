//! The catalog, in a tree beside those of the tables.

ghost use Rattle.std.specs.Prelude.{◌≡◌, ℕ, List, [], None, Some, true, is_some, OnErr, OnOk};
ghost use Rattle.jet_base.specs.Ids.{table_id};
ghost use Rattle.index_derive.specs.declared.schema_calls.SchemaStep.TheVariants as step;
ghost use Rattle.database_state.specs.Table.{table_with_id};
ghost use Rattle.jet_catalog.specs.Catalog.{CatalogState, catalog_after};
ghost use Rattle.catalog_grammar.specs.CatalogSteps.{Roots};
ghost use Rattle.catalog_record.specs.CatalogsKept.{HasColumn, HasIndex, HasTable, TakesColumn, TakesIndex, TakesTable};
ghost use Rattle.table_trees.specs.Pages.{OthersStay};
ghost use Rattle.table_trees.specs.KeptCatalogs.{HoldsKept, HoldsKeptStep, IsKeptCatalog, KeptBecomes, KeptFollows, kept_nodes, kept_pages, kept_root};

use crate::nodes::tree_pages_are_own;
use catalog_record::{CatalogTree, other_catalogs_stay};
use column_set::Column;
use index_derive::IndexRule;
use jet_base::{ColumnId, IndexId, Name, OutOfMemory, TableId};
use jet_catalog::{GreatestColumns, TableDef};
use page_space::Space;

/// The catalog. Its tree is made with the first table, so that an empty catalog takes no page.
#[derive(Drop)]
pub struct KeptCatalog {
    tree: Option<CatalogTree>,
}

impl KeptCatalog {
    /// The catalog of an empty database. It takes no memory.
    pub fn new() -> KeptCatalog
        ensures { result.tree ≡ None }
    {
        KeptCatalog { tree: None }
    }

    /// The catalog of a tree, or an empty one without a page. It takes no memory.
    pub fn of(tree: Option<CatalogTree>) -> KeptCatalog
        ensures { result.tree ≡ tree }
    {
        KeptCatalog { tree }
    }

    /// The number of the root page of the tree, if there is one.
    pub fn root(&self) -> Option<u32>
        ensures { result ≡ kept_root self.now }
    {
        match &self.tree {
            Some(tree) => Some(tree.root()),
            None => None,
        }
    }

    /// Makes the tree of a catalog that has none. All nodes are the same, also after a refusal.
    pub fn make(&mut self, space: &mut Space) -> Result<(), OutOfMemory>
        requires { IsKeptCatalog space.old self.old }
        ensures becomes { KeptBecomes space.old self.old space.new self.new (kept_nodes space.old self.old) }
        ensures made { OnOk result (is_some self.new.tree ≡ true) }
    {
        tree_pages_are_own();
        match &self.tree {
            Some(_) => Ok(()),
            None => match CatalogTree::new(space) {
                Ok(tree) => {
                    self.tree = Some(tree);
                    Ok(())
                }
                Err(fault) => Err(fault),
            },
        }
    }

    /// Puts the node of a new table, with the roots of its trees, into the catalog, whose tree is made where it is the first.
    /// After a refusal all nodes are the same.
    pub fn create_table(
        &mut self,
        space: &mut Space,
        table: TableId,
        name: &Name,
        records: u32,
        long_values: u32,
    ) -> Result<(), OutOfMemory>
        requires { (roots : Roots) × (catalog : CatalogState) × HoldsKept space.old self.old roots catalog × TakesTable roots catalog table name.now records long_values }
        ensures ok { OnOk result ((roots : Roots) (catalog : CatalogState) → HoldsKept space.old self.old roots catalog → TakesTable roots catalog table name.now records long_values → KeptFollows space.old self.old space.new self.new roots (catalog_after catalog (step.CreateTable table name.now))) }
        ensures err { OnErr result (KeptBecomes space.old self.old space.new self.new (kept_nodes space.old self.old)) }
    {
        tree_pages_are_own();
        match self.make(space) {
            Ok(()) => match &mut self.tree {
                Some(tree) => tree.create_table(space, table, name, records, long_values),
                None => Ok(()),
            },
            Err(fault) => Err(fault),
        }
    }

    /// Puts the node of a new column, and writes the greatest columns of its table. After a refusal all nodes are the same.
    pub fn add_column(
        &mut self,
        space: &mut Space,
        table: &TableDef,
        column: &Column,
        greatest: &GreatestColumns,
        records: u32,
        long_values: u32,
    ) -> Result<(), OutOfMemory>
        requires { (roots : Roots) × (catalog : CatalogState) × HoldsKept space.old self.old roots catalog × TakesColumn roots catalog table.now column.now greatest.now records long_values }
        ensures ok { OnOk result ((roots : Roots) (catalog : CatalogState) → HoldsKept space.old self.old roots catalog → TakesColumn roots catalog table.now column.now greatest.now records long_values → KeptFollows space.old self.old space.new self.new roots (catalog_after catalog (step.AddColumn (table_id table.now.id) column.now))) }
        ensures err { OnErr result (KeptBecomes space.old self.old space.new self.new (kept_nodes space.old self.old)) }
    {
        tree_pages_are_own();
        match &mut self.tree {
            Some(tree) => tree.add_column(space, table, column, greatest, records, long_values),
            None => Ok(()),
        }
    }

    /// Puts the node of a new index, with the root of its tree: 0 for a primary index. After a refusal all nodes are the
    /// same.
    pub fn create_index(
        &mut self,
        space: &mut Space,
        table: TableId,
        root: u32,
        rule: &IndexRule,
    ) -> Result<(), OutOfMemory>
        requires { (roots : Roots) × (catalog : CatalogState) × HoldsKept space.old self.old roots catalog × TakesIndex roots catalog table root rule.now }
        ensures ok { OnOk result ((roots : Roots) (catalog : CatalogState) → HoldsKept space.old self.old roots catalog → TakesIndex roots catalog table root rule.now → KeptFollows space.old self.old space.new self.new roots (catalog_after catalog (step.CreateIndex table rule.now))) }
        ensures err { OnErr result (KeptBecomes space.old self.old space.new self.new (kept_nodes space.old self.old)) }
    {
        tree_pages_are_own();
        match &mut self.tree {
            Some(tree) => tree.create_index(space, table, root, rule),
            None => Ok(()),
        }
    }

    /// Takes out the node of a column. It takes no memory.
    pub fn delete_column(&mut self, space: &mut Space, table: TableId, column: ColumnId)
        requires { (roots : Roots) × (catalog : CatalogState) × HoldsKept space.old self.old roots catalog × HasColumn catalog table column }
        ensures { (roots : Roots) (catalog : CatalogState) → HoldsKept space.old self.old roots catalog → HasColumn catalog table column → KeptFollows space.old self.old space.new self.new roots (catalog_after catalog (step.DeleteColumn table column)) }
    {
        tree_pages_are_own();
        match &mut self.tree {
            Some(tree) => tree.delete_column(space, table, column),
            None => {}
        }
    }

    /// Takes out the node of an index. It takes no memory.
    pub fn delete_index(&mut self, space: &mut Space, table: TableId, index: IndexId)
        requires { (roots : Roots) × (catalog : CatalogState) × HoldsKept space.old self.old roots catalog × HasIndex catalog table index }
        ensures { (roots : Roots) (catalog : CatalogState) → HoldsKept space.old self.old roots catalog → HasIndex catalog table index → KeptFollows space.old self.old space.new self.new roots (catalog_after catalog (step.DeleteIndex table index)) }
    {
        tree_pages_are_own();
        match &mut self.tree {
            Some(tree) => tree.delete_index(space, table, index),
            None => {}
        }
    }

    /// Takes out the nodes of a table. It takes no memory.
    pub fn delete_table(&mut self, space: &mut Space, table: &TableDef)
        requires { (roots : Roots) × (catalog : CatalogState) × HoldsKept space.old self.old roots catalog × (table_with_id catalog.tables table.now.id ≡ Some table.now) }
        ensures { (roots : Roots) (catalog : CatalogState) → HoldsKept space.old self.old roots catalog → table_with_id catalog.tables table.now.id ≡ Some table.now → KeptFollows space.old self.old space.new self.new roots (catalog_after catalog (step.DeleteTable (table_id table.now.id))) }
    {
        tree_pages_are_own();
        match &mut self.tree {
            Some(tree) => tree.delete_table(space, table),
            None => {}
        }
    }

    /// Takes back a table that was just created. It takes no memory.
    pub fn take_back_table(&mut self, space: &mut Space, table: TableId, greatest: u32)
        requires { (roots : Roots) × (catalog : CatalogState) × (name : List ℕ) × HoldsKeptStep space.old self.old roots catalog (step.CreateTable table name) × (catalog.greatest_table ≡ greatest) }
        ensures { (roots : Roots) (catalog : CatalogState) (name : List ℕ) → HoldsKeptStep space.old self.old roots catalog (step.CreateTable table name) → catalog.greatest_table ≡ greatest → KeptFollows space.old self.old space.new self.new roots catalog }
    {
        tree_pages_are_own();
        match &mut self.tree {
            Some(tree) => tree.take_back_table(space, table, greatest),
            None => {}
        }
    }

    /// Takes back a column that was just added. It takes no memory.
    pub fn take_back_column(
        &mut self,
        space: &mut Space,
        table: &TableDef,
        column: &Column,
        records: u32,
        long_values: u32,
    )
        requires { (roots : Roots) × (catalog : CatalogState) × HoldsKeptStep space.old self.old roots catalog (step.AddColumn (table_id table.now.id) column.now) × HasTable roots catalog table.now records long_values }
        ensures { (roots : Roots) (catalog : CatalogState) → HoldsKeptStep space.old self.old roots catalog (step.AddColumn (table_id table.now.id) column.now) → HasTable roots catalog table.now records long_values → KeptFollows space.old self.old space.new self.new roots catalog }
    {
        tree_pages_are_own();
        match &mut self.tree {
            Some(tree) => tree.take_back_column(space, table, column, records, long_values),
            None => {}
        }
    }
}

/// A change of pages leaves a catalog that has none of them.
pub fn catalogs_stay()
    ensures { OthersStay IsKeptCatalog kept_pages kept_nodes }
{
    other_catalogs_stay();
}
