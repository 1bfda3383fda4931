//! The tables of an image, beside which its live part is checked.

ghost use Rattle.std.specs.Prelude.{◌≡◌, ◌==◌, List, find, option_copied};
ghost use Rattle.image_findings.specs.TableContents.{TableContents, contents_with_id};
ghost use Rattle.image_opening.specs.declared.opened.OpenedTable.{OpenedTable as Trees};
ghost use Rattle.image_live.specs.TablesRead.{AreTablesOf, FindsRows};

use image_contents::TableRows;
use image_opening::OpenedTable;
use jet_base::TableId;
use jet_catalog::Catalog;
use page_space::Space;

/// The tables of an image, once they are opened.
#[derive(Clone, Copy)]
pub struct ImageTables<'a> {
    pub space: &'a Space,
    pub catalog: &'a Catalog,
    /// The trees of each table of the catalog, in its order.
    pub trees: &'a [OpenedTable],
    /// How many log entries there are.
    pub number: u64,
}

impl<'a> ImageTables<'a> {
    /// What the rows of the table of this number are read with.
    pub(crate) fn rows_of(&self, table: TableId) -> Option<TableRows<'a>>
        ensures { (tables : List TableContents) → AreTablesOf self.now tables → FindsRows self.now.number (contents_with_id tables table.0) result }
    {
        let Some(definition) = self.catalog.by_id(table) else {
            return None;
        };
        let Some(trees) = trees_of(self.trees, table) else {
            return None;
        };
        Some(TableRows {
            space: self.space,
            table: definition,
            long_values: &trees.long_values,
            number: self.number,
        })
    }
}

/// The trees of the table of this number.
pub(crate) fn trees_of(trees: &[OpenedTable], table: TableId) -> Option<&OpenedTable>
    ensures { option_copied result ≡ find (λ (x : Trees). x.table.0 == table.0) trees.now }
{
    trees.iter().find(|trees| trees.table == table)
}
