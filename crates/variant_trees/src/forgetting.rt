//! What goes with the oldest held change.

ghost use Rattle.std.specs.Prelude.{◌≡◌, ◌<◌, List, Some, false, length, slice_get};
ghost use Rattle.database_state.specs.Table.{Table};
ghost use Rattle.version_store.specs.HeldChanges.{HeldChange, is_standing};
ghost use Rattle.variant_trees.specs.LeftVariants.{HasSchema, IsForgotten, first_table};
ghost use Rattle.stored_variants.specs.CountedValues.{AreCounted};
ghost use Rattle.stored_variants.specs.VersionsKept.{AreKept};

use crate::gone::Gone;
use crate::variants::take_variant;
use index_derive::Schema;
use jet_base::TableId;
use jet_catalog::Catalog;
use long_rows::values_keep_their_counts;
use long_value::{references_after_a_change, values_after_a_change};
use std::alloc::Global;
use table_trees::{TableTrees, release_row};
use version_store::Versions;

/// Takes away what no reader needs once the oldest change is forgotten: of the record before it the keys that no other
/// variant has, the node where no variant is left, and its references to long values; nothing where the change is undone. The
/// newest records stay, and the other held changes hold the records that they held. The change itself is still held: the caller
/// gives it up. Want of memory does not stop it: it is slower then.
pub fn forget_oldest(alloc: Global, catalog: &Catalog, trees: &mut TableTrees, versions: &Versions)
    requires kept { AreKept catalog.now.tables trees.old.tables versions.now }
    requires counts { AreCounted trees.old.tables versions.now }
    requires some { 0 < length versions.now }
    ensures forgotten { IsForgotten catalog.now.tables trees.old.tables trees.new.tables versions.now }
    ensures same { (h : HeldChange) → slice_get versions.now 0 ≡ Some h → is_standing h ≡ false → trees.new.tables ≡ trees.old.tables }
    ensures catalog { trees.new.catalog ≡ trees.old.catalog }
{
    match versions.oldest_table() {
        Some(table) => forget_of(alloc, catalog, trees, versions, table),
        None => {}
    }
}

// The same where the change's table is known.
fn forget_of(
    alloc: Global,
    catalog: &Catalog,
    trees: &mut TableTrees,
    versions: &Versions,
    table: TableId,
)
    requires kept { AreKept catalog.now.tables trees.old.tables versions.now }
    requires counts { AreCounted trees.old.tables versions.now }
    requires first { first_table versions.now ≡ Some table.0 }
    ensures forgotten { IsForgotten catalog.now.tables trees.old.tables trees.new.tables versions.now }
    ensures same { (h : HeldChange) → slice_get versions.now 0 ≡ Some h → is_standing h ≡ false → trees.new.tables ≡ trees.old.tables }
    ensures catalog { trees.new.catalog ≡ trees.old.catalog }
{
    let _ = catalog.tables();
    match catalog.by_id(table) {
        Some(named) => forget_in(alloc, trees, versions, table, named.schema()),
        None => {}
    }
}

// The same where the table's schema is known.
fn forget_in(
    alloc: Global,
    trees: &mut TableTrees,
    versions: &Versions,
    table: TableId,
    schema: &Schema,
)
    requires was { (tables : List Table) × HasSchema tables table.0 schema.now × AreKept tables trees.old.tables versions.now }
    requires first { first_table versions.now ≡ Some table.0 }
    requires counts { AreCounted trees.old.tables versions.now }
    ensures forgotten { (tables : List Table) → HasSchema tables table.0 schema.now → AreKept tables trees.old.tables versions.now → IsForgotten tables trees.old.tables trees.new.tables versions.now }
    ensures same { (h : HeldChange) → slice_get versions.now 0 ≡ Some h → is_standing h ≡ false → trees.new.tables ≡ trees.old.tables }
    ensures catalog { trees.new.catalog ≡ trees.old.catalog }
{
    references_after_a_change();
    values_after_a_change();
    values_keep_their_counts();
    if versions.is_standing_at(0) {
        match versions.before_at(0) {
            Some(row) => {
                let bookmark = versions.bookmark_at(0);
                let gone = Gone::Row(row);
                take_variant(alloc, trees, versions, 1, table, schema, bookmark, gone);
                trees.nodes_are_in_order();
                release_row(trees, table, row);
            }
            None => {}
        }
    }
}
