//! Schema steps, once no change is held.

ghost use Rattle.std.specs.Prelude.{◌≡◌, ◌<◌, ℕ, [], List, map, true, is_some, IfSome, IsSomeAnd, OnErr, OnOk};
ghost use Rattle.database_state.specs.Table.{table_with_id};
ghost use Rattle.jet_catalog.specs.Catalog.{catalog_after};
ghost use Rattle.log_grammar.specs.EntryBytes.{name_fits};
ghost use Rattle.table_trees.specs.ShownCatalogs.{ShowsCatalog, ShowsStep};
ghost use Rattle.table_trees.specs.StoredTables.{has_table};
ghost use Rattle.stored_variants.specs.CountedValues.{AreCounted};
ghost use Rattle.stored_variants.specs.SchemaSteps.{IsColumnFor, IsMade, TakesColumn};
ghost use Rattle.stored_variants.specs.VersionsKept.{AreKept, secondary_rule};
ghost use Rattle.stored_variants.specs.VersionsView.{with_newest};
ghost use Rattle.index_derive.specs.declared.schema_calls.SchemaStep.TheVariants as step;

use column_set::Column;
use index_derive::SchemaStep;
use jet_base::{IndexId, Name, OutOfMemory, TableId};
use jet_catalog::{Catalog, GreatestColumns};
use table_trees::{
    TableTrees, indexes_after_a_change, indexes_without_one, other_roots_are_not_shown,
    tables_beside_a_new_one, tables_without_one,
};

/// A table comes, with a number above all that were given, while no change is held: its trees first, which go again where
/// there is no memory for its node in the catalog's tree or in the catalog. After want of memory all is as it was.
pub fn create_table(
    catalog: &mut Catalog,
    trees: &mut TableTrees,
    made: &SchemaStep,
    table: TableId,
    name: &Name,
) -> Result<(), OutOfMemory>
    requires kept { AreKept catalog.old.tables trees.old.tables [] }
    requires counts { AreCounted trees.old.tables [] }
    requires shown { ShowsCatalog trees.old.catalog catalog.old }
    requires step { made.now ≡ step.CreateTable table name.now }
    requires new_id { catalog.old.greatest_table < table.0 }
    requires named { name_fits name.now ≡ true }
    ensures ok { OnOk result (IsMade made.now catalog.old trees.old.tables catalog.new trees.new.tables) }
    ensures err { OnErr result ((catalog.new ≡ catalog.old) × (trees.new.tables ≡ trees.old.tables)) }
    ensures shown { ShowsCatalog trees.new.catalog catalog.new }
{
    tables_beside_a_new_one();
    other_roots_are_not_shown();
    catalog.tables();
    match trees.add_table(table) {
        Ok(()) => match keep_and_make(catalog, trees, made, table, name) {
            Ok(()) => Ok(()),
            Err(fault) => {
                trees.remove_table(table);
                Err(fault)
            }
        },
        Err(fault) => Err(fault),
    }
}

// A table whose trees are there comes into the catalog beside them, and into the one in memory.
fn keep_and_make(
    catalog: &mut Catalog,
    trees: &mut TableTrees,
    made: &SchemaStep,
    table: TableId,
    name: &Name,
) -> Result<(), OutOfMemory>
    requires there { has_table trees.old.tables table.0 ≡ true }
    requires shown { ShowsCatalog trees.old.catalog catalog.old }
    requires step { made.now ≡ step.CreateTable table name.now }
    requires new_id { catalog.old.greatest_table < table.0 }
    requires named { name_fits name.now ≡ true }
    ensures made { OnOk result (catalog.new ≡ catalog_after catalog.old made.now) }
    ensures err { OnErr result (catalog.new ≡ catalog.old) }
    ensures shown { ShowsCatalog trees.new.catalog catalog.new }
    ensures tables { trees.new.tables ≡ trees.old.tables }
{
    catalog.tables();
    match trees.keep_table(table, name) {
        Ok(()) => match catalog.make(made) {
            Ok(()) => Ok(()),
            Err(fault) => {
                trees.take_back_table(table, catalog.greatest());
                Err(fault)
            }
        },
        Err(fault) => Err(fault),
    }
}

/// A table goes, with its records and its indexes, while no change is held. It takes no memory.
pub fn drop_table(catalog: &mut Catalog, trees: &mut TableTrees, made: &SchemaStep, table: TableId)
    requires kept { AreKept catalog.old.tables trees.old.tables [] }
    requires counts { AreCounted trees.old.tables [] }
    requires shown { ShowsCatalog trees.old.catalog catalog.old }
    requires step { made.now ≡ step.DeleteTable table }
    requires there { is_some (table_with_id catalog.old.tables table.0) ≡ true }
    ensures made { IsMade made.now catalog.old trees.old.tables catalog.new trees.new.tables }
    ensures shown { ShowsCatalog trees.new.catalog catalog.new }
{
    tables_without_one();
    other_roots_are_not_shown();
    forget_table(catalog, trees, table);
    catalog.delete_table(table);
    trees.remove_table(table);
}

// The nodes of a table go from the catalog beside the trees.
fn forget_table(catalog: &Catalog, trees: &mut TableTrees, table: TableId)
    requires shown { ShowsCatalog trees.old.catalog catalog.now }
    requires there { is_some (table_with_id catalog.now.tables table.0) ≡ true }
    ensures shown { ShowsCatalog trees.new.catalog (catalog_after catalog.now (step.DeleteTable table)) }
    ensures tables { trees.new.tables ≡ trees.old.tables }
{
    match catalog.by_id(table) {
        Some(known) => trees.forget_table(known),
        None => unreachable!(),
    }
}

/// A column comes, while no change is held: one of which every record has a value only where there is no record. No row is
/// written. After want of memory all is as it was.
pub fn add_column(
    catalog: &mut Catalog,
    trees: &mut TableTrees,
    made: &SchemaStep,
    table: TableId,
    column: &Column,
) -> Result<(), OutOfMemory>
    requires kept { AreKept catalog.old.tables trees.old.tables [] }
    requires counts { AreCounted trees.old.tables [] }
    requires shown { ShowsCatalog trees.old.catalog catalog.old }
    requires step { made.now ≡ step.AddColumn table column.now }
    requires taken { IfSome (table_with_id (map (with_newest trees.old.tables) catalog.old.tables) table.0) (TakesColumn column.now) }
    requires fits { IsSomeAnd (table_with_id (map (with_newest trees.old.tables) catalog.old.tables) table.0) (IsColumnFor column.now) }
    ensures ok { OnOk result (IsMade made.now catalog.old trees.old.tables catalog.new trees.new.tables) }
    ensures err { OnErr result ((catalog.new ≡ catalog.old) × (trees.new.tables ≡ trees.old.tables)) }
    ensures shown { ShowsCatalog trees.new.catalog catalog.new }
{
    trees.nodes_are_in_order();
    match keep_column(catalog, trees, table, column) {
        Ok(()) => match catalog.make(made) {
            Ok(()) => Ok(()),
            Err(fault) => {
                take_back_column(catalog, trees, table, column);
                Err(fault)
            }
        },
        Err(fault) => Err(fault),
    }
}

// A new column comes into the catalog beside the trees, with the greatest columns that its table has then.
fn keep_column(
    catalog: &Catalog,
    trees: &mut TableTrees,
    table: TableId,
    column: &Column,
) -> Result<(), OutOfMemory>
    requires there { has_table trees.old.tables table.0 ≡ true }
    requires shown { ShowsCatalog trees.old.catalog catalog.now }
    requires fits { IsSomeAnd (table_with_id catalog.now.tables table.0) (IsColumnFor column.now) }
    ensures ok { OnOk result (ShowsStep trees.new.catalog catalog.now (step.AddColumn table column.now)) }
    ensures err { OnErr result (trees.new.catalog ≡ trees.old.catalog) }
    ensures tables { trees.new.tables ≡ trees.old.tables }
{
    match catalog.by_id(table) {
        Some(known) => {
            let given = known.greatest();
            let mut greatest = GreatestColumns {
                fixed: given.fixed,
                variable: given.variable,
                tagged: given.tagged,
            };
            greatest.give(column.id);
            trees.keep_column(known, column, &greatest)
        }
        None => unreachable!(),
    }
}

// A column that was just kept goes from the catalog beside the trees.
fn take_back_column(catalog: &Catalog, trees: &mut TableTrees, table: TableId, column: &Column)
    requires there { has_table trees.old.tables table.0 ≡ true }
    requires known { IsSomeAnd (table_with_id catalog.now.tables table.0) (IsColumnFor column.now) }
    requires step { ShowsStep trees.old.catalog catalog.now (step.AddColumn table column.now) }
    ensures shown { ShowsCatalog trees.new.catalog catalog.now }
    ensures tables { trees.new.tables ≡ trees.old.tables }
{
    match catalog.by_id(table) {
        Some(known) => trees.take_back_column(known, column),
        None => unreachable!(),
    }
}

/// An index goes, one that has entries of its own, while no change is held. After want of memory all is as it was.
pub fn drop_index(
    catalog: &mut Catalog,
    trees: &mut TableTrees,
    made: &SchemaStep,
    table: TableId,
    index: IndexId,
) -> Result<(), OutOfMemory>
    requires kept { AreKept catalog.old.tables trees.old.tables [] }
    requires counts { AreCounted trees.old.tables [] }
    requires shown { ShowsCatalog trees.old.catalog catalog.old }
    requires step { made.now ≡ step.DeleteIndex table index }
    requires there { IsSomeAnd (table_with_id catalog.old.tables table.0) (λ t. is_some (secondary_rule t index.0) ≡ true) }
    ensures ok { OnOk result (IsMade made.now catalog.old trees.old.tables catalog.new trees.new.tables) }
    ensures err { OnErr result ((catalog.new ≡ catalog.old) × (trees.new.tables ≡ trees.old.tables)) }
    ensures shown { ShowsCatalog trees.new.catalog catalog.new }
{
    indexes_after_a_change();
    indexes_without_one();
    other_roots_are_not_shown();
    catalog.tables();
    match catalog.make(made) {
        Ok(()) => {
            trees.forget_index(table, index);
            trees.remove_index(table, index);
            Ok(())
        }
        Err(fault) => Err(fault),
    }
}
