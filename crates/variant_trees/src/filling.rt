//! An index comes, with the entries of the records that stand.

ghost use Rattle.std.specs.Prelude.{◌≡◌, true, false, [], map, IfSome, IsSomeAnd, OnErr, OnOk};
ghost use Rattle.database_state.specs.Table.{schema_of, table_with_id};
ghost use Rattle.jet_catalog.specs.Catalog.{catalog_after};
ghost use Rattle.table_trees.specs.ShownCatalogs.{IsNewIndex, ShowsCatalog};
ghost use Rattle.table_trees.specs.StoredTables.{has_index, has_table, index_entries, table_long_values, table_nodes};
ghost use Rattle.variant_trees.specs.NewEntries.{CanFill, HasNewestKeys, OnlyEntries};
ghost use Rattle.stored_variants.specs.CountedValues.{AreCounted};
ghost use Rattle.stored_variants.specs.SchemaSteps.{IsIndexFor, IsMade};
ghost use Rattle.stored_variants.specs.VersionsKept.{AreKept};
ghost use Rattle.stored_variants.specs.VersionsView.{with_newest};
ghost use Rattle.index_derive.specs.declared.schema_calls.SchemaStep.TheVariants as step;

use crate::new_entries::fill;
use index_derive::{IndexRule, SchemaStep};
use jet_base::{OutOfMemory, TableId};
use jet_catalog::Catalog;
use std::alloc::Global;
use table_trees::{
    TableTrees, indexes_after_a_change, indexes_beside_a_new_one, indexes_without_one,
    other_roots_are_not_shown,
};

/// An index of a table comes, with the keys of all its records, while no change is held: its tree with the entries first, and
/// then its rule in the catalog. The primary index needs no tree. After want of memory all is as it was.
pub fn create_index(
    alloc: Global,
    catalog: &mut Catalog,
    trees: &mut TableTrees,
    made: &SchemaStep,
    table: TableId,
    rule: &IndexRule,
) -> Result<(), OutOfMemory>
    requires kept { AreKept catalog.old.tables trees.old.tables [] }
    requires counts { AreCounted trees.old.tables [] }
    requires shown { ShowsCatalog trees.old.catalog catalog.old }
    requires step { made.now ≡ step.CreateIndex table rule.now }
    requires fits { IsSomeAnd (table_with_id (map (with_newest trees.old.tables) catalog.old.tables) table.0) (IsIndexFor rule.now) }
    ensures ok { OnOk result (IsMade made.now catalog.old trees.old.tables catalog.new trees.new.tables) }
    ensures err { OnErr result ((catalog.new ≡ catalog.old) × (trees.new.tables ≡ trees.old.tables)) }
    ensures shown { ShowsCatalog trees.new.catalog catalog.new }
{
    if rule.flags.primary {
        create_primary(catalog, trees, made, table, rule)
    } else {
        create_secondary(alloc, catalog, trees, made, table, rule)
    }
}

// A primary index comes, which needs no tree of its own.
fn create_primary(
    catalog: &mut Catalog,
    trees: &mut TableTrees,
    made: &SchemaStep,
    table: TableId,
    rule: &IndexRule,
) -> Result<(), OutOfMemory>
    requires kept { AreKept catalog.old.tables trees.old.tables [] }
    requires counts { AreCounted trees.old.tables [] }
    requires shown { ShowsCatalog trees.old.catalog catalog.old }
    requires step { made.now ≡ step.CreateIndex table rule.now }
    requires primary { rule.now.flags.primary ≡ true }
    requires fits { IsSomeAnd (table_with_id (map (with_newest trees.old.tables) catalog.old.tables) table.0) (IsIndexFor rule.now) }
    ensures ok { OnOk result (IsMade made.now catalog.old trees.old.tables catalog.new trees.new.tables) }
    ensures err { OnErr result ((catalog.new ≡ catalog.old) × (trees.new.tables ≡ trees.old.tables)) }
    ensures shown { ShowsCatalog trees.new.catalog catalog.new }
{
    trees.nodes_are_in_order();
    match keep_and_make(catalog, trees, made, table, rule) {
        Ok(()) => Ok(()),
        Err(fault) => Err(fault),
    }
}

// An index that has its tree, where it needs one, comes into the catalog beside the trees, and into the one in memory.
fn keep_and_make(
    catalog: &mut Catalog,
    trees: &mut TableTrees,
    made: &SchemaStep,
    table: TableId,
    rule: &IndexRule,
) -> Result<(), OutOfMemory>
    requires there { has_table trees.old.tables table.0 ≡ true }
    requires shown { ShowsCatalog trees.old.catalog catalog.old }
    requires step { made.now ≡ step.CreateIndex table rule.now }
    requires new { IsNewIndex catalog.old table rule.now }
    ensures made { OnOk result (catalog.new ≡ catalog_after catalog.old made.now) }
    ensures err { OnErr result (catalog.new ≡ catalog.old) }
    ensures shown { ShowsCatalog trees.new.catalog catalog.new }
    ensures tables { trees.new.tables ≡ trees.old.tables }
{
    catalog.tables();
    match trees.keep_index(table, rule) {
        Ok(()) => match catalog.make(made) {
            Ok(()) => Ok(()),
            Err(fault) => {
                trees.forget_index(table, rule.id);
                Err(fault)
            }
        },
        Err(fault) => Err(fault),
    }
}

// Another index comes: its tree first, which goes again where there is no memory for its entries or in the catalog.
fn create_secondary(
    alloc: Global,
    catalog: &mut Catalog,
    trees: &mut TableTrees,
    made: &SchemaStep,
    table: TableId,
    rule: &IndexRule,
) -> Result<(), OutOfMemory>
    requires kept { AreKept catalog.old.tables trees.old.tables [] }
    requires counts { AreCounted trees.old.tables [] }
    requires shown { ShowsCatalog trees.old.catalog catalog.old }
    requires step { made.now ≡ step.CreateIndex table rule.now }
    requires secondary { rule.now.flags.primary ≡ false }
    requires fits { IsSomeAnd (table_with_id (map (with_newest trees.old.tables) catalog.old.tables) table.0) (IsIndexFor rule.now) }
    ensures ok { OnOk result (IsMade made.now catalog.old trees.old.tables catalog.new trees.new.tables) }
    ensures err { OnErr result ((catalog.new ≡ catalog.old) × (trees.new.tables ≡ trees.old.tables)) }
    ensures shown { ShowsCatalog trees.new.catalog catalog.new }
{
    indexes_after_a_change();
    indexes_beside_a_new_one();
    indexes_without_one();
    other_roots_are_not_shown();
    catalog.tables();
    trees.nodes_are_in_order();
    match trees.add_index(table, rule.id) {
        Ok(()) => match fill_and_make(alloc, catalog, trees, made, table, rule) {
            Ok(()) => Ok(()),
            Err(fault) => {
                trees.remove_index(table, rule.id);
                Err(fault)
            }
        },
        Err(fault) => Err(fault),
    }
}

// The index gets the keys of all records, and then comes into the catalog.
fn fill_and_make(
    alloc: Global,
    catalog: &mut Catalog,
    trees: &mut TableTrees,
    made: &SchemaStep,
    table: TableId,
    rule: &IndexRule,
) -> Result<(), OutOfMemory>
    requires shown { ShowsCatalog trees.old.catalog catalog.old }
    requires step { made.now ≡ step.CreateIndex table rule.now }
    requires there { has_index trees.old.tables table.0 rule.now.id.0 ≡ true }
    requires empty { index_entries trees.old.tables table.0 rule.now.id.0 ≡ [] }
    requires new { IsNewIndex catalog.old table rule.now }
    requires fits { IsSomeAnd (table_with_id catalog.old.tables table.0) (CanFill (table_long_values trees.old.tables table.0) rule.now (table_nodes trees.old.tables table.0)) }
    ensures only { OnlyEntries table.0 rule.now.id.0 trees.old.tables trees.new.tables }
    ensures filled { OnOk result (IfSome (table_with_id catalog.old.tables table.0) (λ t. HasNewestKeys (table_long_values trees.old.tables table.0) rule.now (table_nodes trees.old.tables table.0) (index_entries trees.new.tables table.0 rule.now.id.0) (schema_of t))) }
    ensures made { OnOk result (catalog.new ≡ catalog_after catalog.old made.now) }
    ensures err { OnErr result (catalog.new ≡ catalog.old) }
    ensures shown { ShowsCatalog trees.new.catalog catalog.new }
{
    match fill_table(alloc, catalog, trees, table, rule) {
        Ok(()) => match keep_and_make(catalog, trees, made, table, rule) {
            Ok(()) => Ok(()),
            Err(fault) => Err(fault),
        },
        Err(fault) => Err(fault),
    }
}

// The index gets the keys of all records, as the columns in the catalog are.
fn fill_table(
    alloc: Global,
    catalog: &Catalog,
    trees: &mut TableTrees,
    table: TableId,
    rule: &IndexRule,
) -> Result<(), OutOfMemory>
    requires there { has_index trees.old.tables table.0 rule.now.id.0 ≡ true }
    requires empty { index_entries trees.old.tables table.0 rule.now.id.0 ≡ [] }
    requires fits { IsSomeAnd (table_with_id catalog.now.tables table.0) (CanFill (table_long_values trees.old.tables table.0) rule.now (table_nodes trees.old.tables table.0)) }
    ensures only { OnlyEntries table.0 rule.now.id.0 trees.old.tables trees.new.tables }
    ensures filled { OnOk result (IfSome (table_with_id catalog.now.tables table.0) (λ t. HasNewestKeys (table_long_values trees.old.tables table.0) rule.now (table_nodes trees.old.tables table.0) (index_entries trees.new.tables table.0 rule.now.id.0) (schema_of t))) }
    ensures catalog { trees.new.catalog ≡ trees.old.catalog }
{
    match catalog.by_id(table) {
        Some(known) => fill(alloc, trees, table, known.schema(), rule),
        None => unreachable!(),
    }
}
