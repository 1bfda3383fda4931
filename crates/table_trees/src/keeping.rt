//! What schema steps write into the catalog beside the tables.

ghost use Rattle.std.specs.Prelude.{◌≡◌, ℕ, List, true, false, Some, None, IfSome, OnErr, OnOk};
ghost use Rattle.jet_base.specs.Ids.{table_id};
ghost use Rattle.index_derive.specs.declared.schema_calls.SchemaStep.TheVariants as step;
ghost use Rattle.database_state.specs.Table.{table_with_id};
ghost use Rattle.jet_catalog.specs.Catalog.{CatalogState, catalog_after};
ghost use Rattle.catalog_grammar.specs.CatalogSteps.{has_index};
ghost use Rattle.catalog_record.specs.CatalogsKept.{HasColumn, HasIndex};
ghost use Rattle.table_trees.specs.ShownCatalogs.{IsNewColumn, IsNewIndex, IsNewTable, ShowsCatalog, ShowsStep};
ghost use Rattle.table_trees.specs.StoredTables.{has_table};
ghost use Rattle.table_trees.specs.StoredTrees.{StoredCatalog, with_root_of, with_table_roots, without_root_of, without_table_roots};

use crate::table::tables_stay;
use crate::trees::{TableTrees, table_place};
use catalog_grammar::other_roots_do_not_count;
use column_set::Column;
use index_derive::IndexRule;
use jet_base::{ColumnId, IndexId, Name, OutOfMemory, TableId};
use jet_catalog::{GreatestColumns, TableDef};

impl TableTrees {
    /// Writes a new table, whose trees are there, into the catalog: its node, with the roots of its trees, and its number as
    /// the greatest. After a refusal the catalog is as it was.
    pub fn keep_table(&mut self, table: TableId, name: &Name) -> Result<(), OutOfMemory>
        requires there { has_table self.old.tables table.0 ≡ true }
        requires step { (catalog : CatalogState) × ShowsCatalog self.old.catalog catalog × IsNewTable catalog table name.now }
        ensures ok { OnOk result ((catalog : CatalogState) → ShowsCatalog self.old.catalog catalog → IsNewTable catalog table name.now → ShowsCatalog self.new.catalog (catalog_after catalog (step.CreateTable table name.now))) }
        ensures err { OnErr result (self.new.catalog ≡ self.old.catalog) }
        ensures tables { self.new.tables ≡ self.old.tables }
        ensures roots { self.new.catalog.roots ≡ self.old.catalog.roots }
    {
        tables_stay();
        match table_place(self.tables.as_slice(), table) {
            Some(i) => {
                let named = &self.tables[i];
                let records = named.nodes.root();
                let long_values = named.long_values.root();
                self.catalog
                    .create_table(&mut self.space, table, name, records, long_values)
            }
            None => Ok(()),
        }
    }

    /// Writes a new column of a table into the catalog: its node, and the greatest columns of the table with it. After a
    /// refusal the catalog is as it was.
    pub fn keep_column(
        &mut self,
        table: &TableDef,
        column: &Column,
        greatest: &GreatestColumns,
    ) -> Result<(), OutOfMemory>
        requires there { has_table self.old.tables table.now.id ≡ true }
        requires step { (catalog : CatalogState) × ShowsCatalog self.old.catalog catalog × IsNewColumn catalog table.now column.now greatest.now }
        ensures ok { OnOk result ((catalog : CatalogState) → ShowsCatalog self.old.catalog catalog → IsNewColumn catalog table.now column.now greatest.now → ShowsCatalog self.new.catalog (catalog_after catalog (step.AddColumn (table_id table.now.id) column.now))) }
        ensures err { OnErr result (self.new.catalog ≡ self.old.catalog) }
        ensures tables { self.new.tables ≡ self.old.tables }
        ensures roots { self.new.catalog.roots ≡ self.old.catalog.roots }
    {
        tables_stay();
        let id = table.id();
        match table_place(self.tables.as_slice(), id) {
            Some(i) => {
                let named = &self.tables[i];
                let records = named.nodes.root();
                let long_values = named.long_values.root();
                self.catalog.add_column(
                    &mut self.space,
                    table,
                    column,
                    greatest,
                    records,
                    long_values,
                )
            }
            None => Ok(()),
        }
    }

    /// Writes a new index of a table into the catalog: its node, with the root of its tree, or 0 where it has none. After a
    /// refusal the catalog is as it was.
    pub fn keep_index(&mut self, table: TableId, rule: &IndexRule) -> Result<(), OutOfMemory>
        requires there { has_table self.old.tables table.0 ≡ true }
        requires step { (catalog : CatalogState) × ShowsCatalog self.old.catalog catalog × IsNewIndex catalog table rule.now }
        ensures ok { OnOk result ((catalog : CatalogState) → ShowsCatalog self.old.catalog catalog → IsNewIndex catalog table rule.now → ShowsCatalog self.new.catalog (catalog_after catalog (step.CreateIndex table rule.now))) }
        ensures err { OnErr result (self.new.catalog ≡ self.old.catalog) }
        ensures tables { self.new.tables ≡ self.old.tables }
        ensures roots { self.new.catalog.roots ≡ self.old.catalog.roots }
    {
        tables_stay();
        match table_place(self.tables.as_slice(), table) {
            Some(i) => {
                let root = self.tables[i].index_root(rule.id);
                self.catalog
                    .create_index(&mut self.space, table, root, rule)
            }
            None => Ok(()),
        }
    }

    /// Takes back a table that was just kept: the catalog is the one before again, with its greatest number. It takes no
    /// memory.
    pub fn take_back_table(&mut self, table: TableId, greatest: u32)
        requires { (catalog : CatalogState) × (name : List ℕ) × ShowsStep self.old.catalog catalog (step.CreateTable table name) × (catalog.greatest_table ≡ greatest) }
        ensures shown { (catalog : CatalogState) (name : List ℕ) → ShowsStep self.old.catalog catalog (step.CreateTable table name) → catalog.greatest_table ≡ greatest → ShowsCatalog self.new.catalog catalog }
        ensures tables { self.new.tables ≡ self.old.tables }
        ensures roots { self.new.catalog.roots ≡ self.old.catalog.roots }
    {
        tables_stay();
        self.catalog
            .take_back_table(&mut self.space, table, greatest);
    }

    /// Takes back a column that was just kept: the catalog is the one before again. It takes no memory.
    pub fn take_back_column(&mut self, table: &TableDef, column: &Column)
        requires there { has_table self.old.tables table.now.id ≡ true }
        requires step { (catalog : CatalogState) × ShowsStep self.old.catalog catalog (step.AddColumn (table_id table.now.id) column.now) × (table_with_id catalog.tables table.now.id ≡ Some table.now) }
        ensures shown { (catalog : CatalogState) → ShowsStep self.old.catalog catalog (step.AddColumn (table_id table.now.id) column.now) → table_with_id catalog.tables table.now.id ≡ Some table.now → ShowsCatalog self.new.catalog catalog }
        ensures tables { self.new.tables ≡ self.old.tables }
        ensures roots { self.new.catalog.roots ≡ self.old.catalog.roots }
    {
        tables_stay();
        let id = table.id();
        match table_place(self.tables.as_slice(), id) {
            Some(i) => {
                let named = &self.tables[i];
                let records = named.nodes.root();
                let long_values = named.long_values.root();
                self.catalog
                    .take_back_column(&mut self.space, table, column, records, long_values);
            }
            None => {}
        }
    }

    /// Takes the node of a column out of the catalog. It takes no memory.
    pub fn forget_column(&mut self, table: TableId, column: ColumnId)
        requires { (catalog : CatalogState) × ShowsCatalog self.old.catalog catalog × HasColumn catalog table column }
        ensures shown { (catalog : CatalogState) → ShowsCatalog self.old.catalog catalog → HasColumn catalog table column → ShowsCatalog self.new.catalog (catalog_after catalog (step.DeleteColumn table column)) }
        ensures tables { self.new.tables ≡ self.old.tables }
        ensures roots { self.new.catalog.roots ≡ self.old.catalog.roots }
    {
        tables_stay();
        self.catalog.delete_column(&mut self.space, table, column);
    }

    /// Takes the node of an index out of the catalog. It takes no memory.
    pub fn forget_index(&mut self, table: TableId, index: IndexId)
        requires { (catalog : CatalogState) × ShowsCatalog self.old.catalog catalog × HasIndex catalog table index }
        ensures shown { (catalog : CatalogState) → ShowsCatalog self.old.catalog catalog → HasIndex catalog table index → ShowsCatalog self.new.catalog (catalog_after catalog (step.DeleteIndex table index)) }
        ensures tables { self.new.tables ≡ self.old.tables }
        ensures roots { self.new.catalog.roots ≡ self.old.catalog.roots }
    {
        tables_stay();
        self.catalog.delete_index(&mut self.space, table, index);
    }

    /// Takes the nodes of a table out of the catalog: those of its indexes and of its columns, and its own. It takes no
    /// memory.
    pub fn forget_table(&mut self, table: &TableDef)
        requires { (catalog : CatalogState) × ShowsCatalog self.old.catalog catalog × (table_with_id catalog.tables table.now.id ≡ Some table.now) }
        ensures shown { (catalog : CatalogState) → ShowsCatalog self.old.catalog catalog → table_with_id catalog.tables table.now.id ≡ Some table.now → ShowsCatalog self.new.catalog (catalog_after catalog (step.DeleteTable (table_id table.now.id))) }
        ensures tables { self.new.tables ≡ self.old.tables }
        ensures roots { self.new.catalog.roots ≡ self.old.catalog.roots }
    {
        tables_stay();
        self.catalog.delete_table(&mut self.space, table);
    }
}

/// The roots of trees that the catalog does not name do not count. So the trees of a table or of an index may come before its
/// node does, and go after it.
pub fn other_roots_are_not_shown()
    ensures table_comes { (stored : StoredCatalog) (catalog : CatalogState) (table records long_values : ℕ) → ShowsCatalog stored catalog → table_with_id catalog.tables table ≡ None → ShowsCatalog (with_table_roots table records long_values stored) catalog }
    ensures table_goes { (stored : StoredCatalog) (catalog : CatalogState) (table : ℕ) → ShowsCatalog stored catalog → table_with_id catalog.tables table ≡ None → ShowsCatalog (without_table_roots table stored) catalog }
    ensures index_comes { (stored : StoredCatalog) (catalog : CatalogState) (table index root : ℕ) → ShowsCatalog stored catalog → IfSome (table_with_id catalog.tables table) (λ t. has_index t index ≡ false) → ShowsCatalog (with_root_of table index root stored) catalog }
    ensures index_goes { (stored : StoredCatalog) (catalog : CatalogState) (table index : ℕ) → ShowsCatalog stored catalog → IfSome (table_with_id catalog.tables table) (λ t. has_index t index ≡ false) → ShowsCatalog (without_root_of table index stored) catalog }
{
    other_roots_do_not_count();
}
