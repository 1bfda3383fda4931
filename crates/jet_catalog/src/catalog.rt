//! The list of tables.

ghost use Rattle.std.specs.Prelude.{◌≡◌, ◌==◌, [], length, position, option_copied};
ghost use Rattle.database_state.specs.Table.{table_named, table_with_id};
ghost use Rattle.jet_catalog.specs.Catalog.{IsNumbered};

use crate::table::TableDef;
use jet_base::TableId;
use std::alloc::Global;
use std::marker::Model;

/// The tables of a database, in the order of their making, and the greatest number that a table was ever given.
///
/// Contracts see it as these two, each table without its records.
#[derive(Debug, Drop)]
pub struct Catalog {
    pub(crate) tables: Vec<TableDef>,
    pub(crate) greatest: u32,
}

impl Model for Catalog {
    ghost use Rattle.jet_catalog.specs.Catalog.{CatalogState, IsNumbered};

    ghost Value = { CatalogState };

    ghost view = { λ a. record { greatest_table = a.greatest; tables = a.tables.items } };

    ghost invariant = { λ a. IsNumbered (record { greatest_table = a.greatest; tables = a.tables.items }) };
}

impl Catalog {
    /// The catalog of an empty database. It takes no memory.
    pub fn new(alloc: Global) -> Catalog
        ensures { result ≡ record { greatest_table = 0; tables = [] } }
    {
        Catalog {
            tables: Vec::new(alloc),
            greatest: 0,
        }
    }

    /// The catalog of these tables, in the order of their making: their numbers rise from 1, and none is above the greatest
    /// that was ever given.
    pub fn of(greatest: u32, tables: Vec<TableDef>) -> Catalog
        requires { IsNumbered (record { greatest_table = greatest; tables = tables.items }) }
        ensures { result ≡ record { greatest_table = greatest; tables = tables.items } }
    {
        Catalog { tables, greatest }
    }

    /// How many tables there are.
    pub fn len(&self) -> usize
        ensures { result ≡ length self.now.tables }
    {
        self.tables.len()
    }

    /// The greatest number that a table was ever given, 0 where there was none.
    pub fn greatest(&self) -> u32
        ensures { result ≡ self.now.greatest_table }
    {
        self.greatest
    }

    /// The tables, in the order of their making, by which their numbers rise.
    pub fn tables(&self) -> &[TableDef]
        ensures tables { result.now ≡ self.now.tables }
        ensures numbered { IsNumbered self.now }
    {
        self.tables.as_slice()
    }

    /// The table of this name.
    pub fn lookup(&self, name: &[u8]) -> Option<&TableDef>
        ensures { option_copied result ≡ table_named self.now.tables name.now }
    {
        self.tables()
            .iter()
            .find(|table| table.name().as_bytes() == name)
    }

    /// The table of this number.
    pub fn by_id(&self, id: TableId) -> Option<&TableDef>
        ensures { option_copied result ≡ table_with_id self.now.tables id.0 }
    {
        self.tables().iter().find(|table| table.id() == id)
    }

    // The place of the table of this number.
    pub(crate) fn position(&self, id: TableId) -> Option<usize>
        ensures { result ≡ position (λ t. t.id == id.0) self.now.tables }
    {
        self.tables().iter().position(|table| table.id() == id)
    }
}
