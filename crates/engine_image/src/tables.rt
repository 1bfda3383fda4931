//! The tables of a store, with the trees that were opened for them.

ghost use Rattle.std.specs.Prelude.{◌≡◌, ◌<◌, ◌++◌, [], ◌∷◌, get_or, length, IfOk, OnOk};
ghost use Rattle.table_trees.specs.declared.table.Table.{Table as Trees};
ghost use Rattle.engine_image.specs.MadeTables.{AreMadeTables, HasItsTrees, HaveTheirTrees, IsMadeTable};

use crate::indexes::made_indexes;
use image_opening::OpenedTable;
use jet_base::OutOfMemory;
use jet_catalog::TableDef;
use long_value::LongValues;
use std::alloc::Global;
use table_trees::Table;

/// A table with the trees that were opened for it.
#[tactic(none)]
fn made_table(alloc: Global, table: &TableDef, opened: OpenedTable) -> Result<Table, OutOfMemory>
    requires { HasItsTrees table.now opened }
    ensures { IfOk result (IsMadeTable table.now opened) }
{
    match made_indexes(alloc, table.schema().indexes.as_slice(), opened.indexes) {
        Ok(indexes) => {
            let long_values = LongValues::of(opened.long_values);
            Ok(Table::of(opened.table, opened.nodes, long_values, indexes))
        }
        Err(fault) => Err(fault),
    }
}

/// Puts a table behind the others.
fn put_table(made: &mut Vec<Table>, table: Table) -> Result<(), OutOfMemory>
    ensures { OnOk result (made.new.items ≡ made.old.items ++ table ∷ []) }
{
    match made.push(table) {
        Ok(()) => Ok(()),
        Err(_) => Err(OutOfMemory),
    }
}

/// Makes a table with the trees that were opened for it, and puts it behind the others.
#[tactic(none)]
fn add_table(
    made: &mut Vec<Table>,
    alloc: Global,
    table: &TableDef,
    opened: OpenedTable,
) -> Result<(), OutOfMemory>
    requires { HasItsTrees table.now opened }
    ensures { OnOk result ((put : Trees) × IsMadeTable table.now opened put × (made.new.items ≡ made.old.items ++ put ∷ [])) }
{
    match made_table(alloc, table, opened) {
        Ok(put) => put_table(made, put),
        Err(fault) => Err(fault),
    }
}

/// The table at a place.
fn table_at(tables: &[TableDef], place: usize) -> &TableDef
    requires { place < length tables.now }
    ensures { result.now ≡ get_or tables.now place result.now }
{
    &tables[place]
}

/// The tables of a catalog, each with the trees that were opened for it.
pub(crate) fn made_tables(
    alloc: Global,
    tables: &[TableDef],
    opened: Vec<OpenedTable>,
) -> Result<Vec<Table>, OutOfMemory>
    requires { HaveTheirTrees tables.now opened.items }
    ensures { IfOk result (λ made. AreMadeTables opened.items made.items tables.now) }
{
    let mut made = Vec::new(alloc);
    for trees in opened {
        let table = table_at(tables, made.len());
        match add_table(&mut made, alloc, table, trees) {
            Ok(()) => {}
            Err(fault) => return Err(fault),
        }
    }
    Ok(made)
}
