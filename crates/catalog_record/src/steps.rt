//! The tree of a catalog through schema steps: what may want memory comes first, and alone.

ghost use Rattle.std.specs.Prelude.{◌≡◌, ℕ, Some, List, map, OnErr, OnOk};
ghost use Rattle.jet_base.specs.Ids.{table_id};
ghost use Rattle.index_derive.specs.declared.schema_calls.SchemaStep.TheVariants as step;
ghost use Rattle.database_state.specs.Table.{table_with_id};
ghost use Rattle.jet_catalog.specs.Catalog.{CatalogState, catalog_after};
ghost use Rattle.catalog_grammar.specs.declared.items.CatalogItem.TheVariants as item;
ghost use Rattle.catalog_grammar.specs.CatalogSteps.{Roots, nodes_of_catalog, without_items};
ghost use Rattle.catalog_record.specs.CatalogTrees.{CatalogBecomes, IsCatalogTree, nodes_in};
ghost use Rattle.catalog_record.specs.CatalogsKept.{GoOneByOne, HasColumn, HasIndex, HasTable, HoldsCatalog, HoldsStep, TakesColumn, TakesIndex, TakesTable};

use crate::{CatalogTree, NodeBuffer, key_of};
use column_set::Column;
use index_derive::IndexRule;
use jet_base::{ColumnId, IndexId, Name, OutOfMemory, TableId};
use jet_catalog::{GreatestColumns, TableDef};
use page_space::Space;

/// The kinds of nodes that go by their key.
const TABLE: u8 = 1;

const COLUMN: u8 = 2;

const INDEX: u8 = 3;

impl CatalogTree {
    /// Puts the node of a new table, with the roots of the trees of its records and of its long values, and writes its
    /// number as the greatest. After a refusal the nodes are the same.
    pub fn create_table(
        &mut self,
        space: &mut Space,
        table: TableId,
        name: &Name,
        records: u32,
        long_values: u32,
    ) -> Result<(), OutOfMemory>
        requires { (roots : Roots) × (catalog : CatalogState) × HoldsCatalog space.old self.old roots catalog × TakesTable roots catalog table name.now records long_values }
        ensures ok { OnOk result ((roots : Roots) (catalog : CatalogState) → HoldsCatalog space.old self.old roots catalog → TakesTable roots catalog table name.now records long_values
            → CatalogBecomes space.old self.old space.new self.new (nodes_of_catalog roots (catalog_after catalog (step.CreateTable table name.now))) × HoldsCatalog space.new self.new roots (catalog_after catalog (step.CreateTable table name.now))) }
        ensures err { OnErr result (CatalogBecomes space.old self.old space.new self.new (nodes_in space.old self.old)) }
    {
        let mut node = NodeBuffer::new();
        node.write_table(table, name, &GreatestColumns::none(), records, long_values);
        self.add(space, &node)?;
        node.write_greatest(table.0);
        self.replace(space, &node);
        Ok(())
    }

    /// Puts the node of a new column of a table, in which a long one is tagged, and writes the greatest columns that the table
    /// has then. After a refusal the nodes are the same.
    pub fn add_column(
        &mut self,
        space: &mut Space,
        table: &TableDef,
        column: &Column,
        greatest: &GreatestColumns,
        records: u32,
        long_values: u32,
    ) -> Result<(), OutOfMemory>
        requires { (roots : Roots) × (catalog : CatalogState) × HoldsCatalog space.old self.old roots catalog × TakesColumn roots catalog table.now column.now greatest.now records long_values }
        ensures ok { OnOk result ((roots : Roots) (catalog : CatalogState) → HoldsCatalog space.old self.old roots catalog → TakesColumn roots catalog table.now column.now greatest.now records long_values
            → CatalogBecomes space.old self.old space.new self.new (nodes_of_catalog roots (catalog_after catalog (step.AddColumn (table_id table.now.id) column.now))) × HoldsCatalog space.new self.new roots (catalog_after catalog (step.AddColumn (table_id table.now.id) column.now))) }
        ensures err { OnErr result (CatalogBecomes space.old self.old space.new self.new (nodes_in space.old self.old)) }
    {
        let made = column.tagged_if_long()?;
        let mut node = NodeBuffer::new();
        node.write_column(table.id(), &made);
        self.add(space, &node)?;
        node.write_table(table.id(), table.name(), greatest, records, long_values);
        self.replace(space, &node);
        Ok(())
    }

    /// Takes back a table that was just created: its node goes, and the greatest number is again the one before. It takes no
    /// memory.
    pub fn take_back_table(&mut self, space: &mut Space, table: TableId, greatest: u32)
        requires { (roots : Roots) × (catalog : CatalogState) × (name : List ℕ) × HoldsStep space.old self.old roots catalog (step.CreateTable table name) × (catalog.greatest_table ≡ greatest) }
        ensures { (roots : Roots) (catalog : CatalogState) (name : List ℕ) → HoldsStep space.old self.old roots catalog (step.CreateTable table name) → catalog.greatest_table ≡ greatest
            → CatalogBecomes space.old self.old space.new self.new (nodes_of_catalog roots catalog) × HoldsCatalog space.new self.new roots catalog }
    {
        self.remove(space, &key_of(TABLE, table.0, 0));
        let mut node = NodeBuffer::new();
        node.write_greatest(greatest);
        self.replace(space, &node);
    }

    /// Takes back a column that was just added to a table: its node goes, and the table's node has again the greatest columns
    /// before. It takes no memory.
    pub fn take_back_column(
        &mut self,
        space: &mut Space,
        table: &TableDef,
        column: &Column,
        records: u32,
        long_values: u32,
    )
        requires { (roots : Roots) × (catalog : CatalogState) × HoldsStep space.old self.old roots catalog (step.AddColumn (table_id table.now.id) column.now) × HasTable roots catalog table.now records long_values }
        ensures { (roots : Roots) (catalog : CatalogState) → HoldsStep space.old self.old roots catalog (step.AddColumn (table_id table.now.id) column.now) → HasTable roots catalog table.now records long_values
            → CatalogBecomes space.old self.old space.new self.new (nodes_of_catalog roots catalog) × HoldsCatalog space.new self.new roots catalog }
    {
        let id = table.id();
        self.remove(space, &key_of(COLUMN, id.0, column.id.0));
        let mut node = NodeBuffer::new();
        node.write_table(id, table.name(), table.greatest(), records, long_values);
        self.replace(space, &node);
    }

    /// Takes out the node of a column. It takes no memory.
    pub fn delete_column(&mut self, space: &mut Space, table: TableId, column: ColumnId)
        requires { (roots : Roots) × (catalog : CatalogState) × HoldsCatalog space.old self.old roots catalog × HasColumn catalog table column }
        ensures { (roots : Roots) (catalog : CatalogState) → HoldsCatalog space.old self.old roots catalog → HasColumn catalog table column
            → CatalogBecomes space.old self.old space.new self.new (nodes_of_catalog roots (catalog_after catalog (step.DeleteColumn table column))) × HoldsCatalog space.new self.new roots (catalog_after catalog (step.DeleteColumn table column)) }
    {
        self.remove(space, &key_of(COLUMN, table.0, column.0));
    }

    /// Puts the node of a new index of a table, with the root of its tree: 0 for a primary index. After a refusal the nodes
    /// are the same.
    pub fn create_index(
        &mut self,
        space: &mut Space,
        table: TableId,
        root: u32,
        rule: &IndexRule,
    ) -> Result<(), OutOfMemory>
        requires { (roots : Roots) × (catalog : CatalogState) × HoldsCatalog space.old self.old roots catalog × TakesIndex roots catalog table root rule.now }
        ensures ok { OnOk result ((roots : Roots) (catalog : CatalogState) → HoldsCatalog space.old self.old roots catalog → TakesIndex roots catalog table root rule.now
            → CatalogBecomes space.old self.old space.new self.new (nodes_of_catalog roots (catalog_after catalog (step.CreateIndex table rule.now))) × HoldsCatalog space.new self.new roots (catalog_after catalog (step.CreateIndex table rule.now))) }
        ensures err { OnErr result (CatalogBecomes space.old self.old space.new self.new (nodes_in space.old self.old)) }
    {
        let mut node = NodeBuffer::new();
        node.write_index(table, root, rule);
        self.add(space, &node)
    }

    /// Takes out the node of an index. It takes no memory.
    pub fn delete_index(&mut self, space: &mut Space, table: TableId, index: IndexId)
        requires { (roots : Roots) × (catalog : CatalogState) × HoldsCatalog space.old self.old roots catalog × HasIndex catalog table index }
        ensures { (roots : Roots) (catalog : CatalogState) → HoldsCatalog space.old self.old roots catalog → HasIndex catalog table index
            → CatalogBecomes space.old self.old space.new self.new (nodes_of_catalog roots (catalog_after catalog (step.DeleteIndex table index))) × HoldsCatalog space.new self.new roots (catalog_after catalog (step.DeleteIndex table index)) }
    {
        self.remove(space, &key_of(INDEX, table.0, index.0));
    }

    /// Takes out the nodes of a table: those of its indexes, then those of its columns, then its own. It takes no memory.
    pub fn delete_table(&mut self, space: &mut Space, table: &TableDef)
        requires { (roots : Roots) × (catalog : CatalogState) × HoldsCatalog space.old self.old roots catalog × (table_with_id catalog.tables table.now.id ≡ Some table.now) }
        ensures { (roots : Roots) (catalog : CatalogState) → HoldsCatalog space.old self.old roots catalog → table_with_id catalog.tables table.now.id ≡ Some table.now
            → CatalogBecomes space.old self.old space.new self.new (nodes_of_catalog roots (catalog_after catalog (step.DeleteTable (table_id table.now.id)))) × HoldsCatalog space.new self.new roots (catalog_after catalog (step.DeleteTable (table_id table.now.id))) }
    {
        let id = table.id();
        remove_indexes(self, space, id, table.indexes());
        remove_columns(self, space, id, table.columns());
        self.remove(space, &key_of(TABLE, id.0, 0));
    }
}

/// Takes out the nodes of indexes of a table, one after the other.
fn remove_indexes(tree: &mut CatalogTree, space: &mut Space, table: TableId, rules: &[IndexRule])
    requires tree { IsCatalogTree space.old tree.old }
    requires there { GoOneByOne (item.Index table 0) rules.now (nodes_in space.old tree.old) }
    ensures { CatalogBecomes space.old tree.old space.new tree.new (without_items (map (item.Index table 0) rules.now) (nodes_in space.old tree.old)) }
{
    for rule in rules {
        tree.remove(space, &key_of(INDEX, table.0, rule.id.0));
    }
}

/// Takes out the nodes of columns of a table, one after the other.
fn remove_columns(tree: &mut CatalogTree, space: &mut Space, table: TableId, columns: &[Column])
    requires tree { IsCatalogTree space.old tree.old }
    requires there { GoOneByOne (item.Column table) columns.now (nodes_in space.old tree.old) }
    ensures { CatalogBecomes space.old tree.old space.new tree.new (without_items (map (item.Column table) columns.now) (nodes_in space.old tree.old)) }
{
    for column in columns {
        tree.remove(space, &key_of(COLUMN, table.0, column.id.0));
    }
}
