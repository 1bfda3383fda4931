//! What is left of a variant that is none any more: its keys, and its node where it was the last one.

ghost use Rattle.std.specs.Prelude.{◌≡◌, ℕ, ◌≤◌, List, map, drop, IfSome, is_some, length, option_copied, option_map};
ghost use Rattle.std.specs.List.{AllByRecursion};
ghost use Rattle.btree_inplace.specs.Order.{get_in};
ghost use Rattle.database_state.specs.Table.{Table, schema_of, table_with_id};
ghost use Rattle.table_trees.specs.StoredTables.{table_long_values, table_nodes};
ghost use Rattle.laws_engine.specs.Variants.{has_variant};
ghost use Rattle.stored_variants.specs.CountedValues.{newest_rows};
ghost use Rattle.stored_variants.specs.PutRecords.{HasKeysOf};
ghost use Rattle.stored_variants.specs.RecordRows.{TableValues, some_before, IsRecordRow, record_of, row_under};
ghost use Rattle.variant_trees.specs.GoneKeys.{AreRows, KeepsValues, held_from};
ghost use Rattle.variant_trees.specs.GoneRecords.{CanRead, gone_fields};
ghost use Rattle.variant_trees.specs.LeftVariants.{AreLeft, DistinctIds, LosesNode, is_empty_node};
ghost use Rattle.stored_variants.specs.VersionsKept.{AreKeptWith};
ghost use Rattle.stored_variants.specs.VersionsView.{with_newest, with_newest_by};

use crate::gone::Gone;
use crate::keys::take_keys;
use index_derive::Schema;
use jet_base::TableId;
use std::alloc::Global;
use table_trees::{TableTrees, nodes_after_a_change, nodes_by_bookmark};
use version_store::Versions;

/// Takes away what is left of a record that is no variant any more, where only the held changes from a place on count: the keys
/// that no variant has, and the node where there is none. The newest records stay. Want of memory does not stop it.
pub(crate) fn take_variant(
    alloc: Global,
    trees: &mut TableTrees,
    versions: &Versions,
    from: usize,
    table: TableId,
    schema: &Schema,
    bookmark: &[u8],
    gone: Gone<'_>,
)
    requires rules { AllByRecursion (HasKeysOf schema.now (gone_fields (table_long_values trees.old.tables table.0) gone)) schema.now.indexes }
    requires gone { CanRead (table_long_values trees.old.tables table.0) gone }
    requires newest { IfSome (row_under (table_nodes trees.old.tables table.0) bookmark.now) (IsRecordRow (table_long_values trees.old.tables table.0)) }
    requires rows { AreRows (table_long_values trees.old.tables) versions.now }
    requires bookmark { length bookmark.now ≤ 255 }
    ensures kept { (tables : List Table) → DistinctIds tables → IfSome (table_with_id tables table.0) (λ t. schema.now ≡ schema_of t) → AreLeft (table_long_values trees.old.tables) tables trees.old.tables (drop from versions.now) table.0 bookmark.now (gone_fields (table_long_values trees.old.tables table.0) gone.entry) → AreKeptWith (table_long_values trees.old.tables) tables trees.new.tables (drop from versions.now) }
    ensures newest { (tables : List Table) → map (with_newest_by (table_long_values trees.old.tables) trees.new.tables) tables ≡ map (with_newest trees.old.tables) tables }
    ensures rows { (other : ℕ) → newest_rows (table_nodes trees.new.tables other) ≡ newest_rows (table_nodes trees.old.tables other) }
    ensures values { KeepsValues trees.old.tables trees.new.tables }
    ensures catalog { trees.new.catalog ≡ trees.old.catalog }
{
    trees.nodes_are_in_order();
    take_keys(alloc, trees, versions, from, table, schema, bookmark, gone);
    take_node(trees, versions, from, table, bookmark);
}

// Takes out the node of a record, where no variant is left: neither a newest one nor one before a held change, of those from a
// place on.
fn take_node(
    trees: &mut TableTrees,
    versions: &Versions,
    from: usize,
    table: TableId,
    bookmark: &[u8],
)
    ensures node { LosesNode (has_variant (option_map (record_of (table_long_values trees.old.tables table.0)) (row_under (table_nodes trees.old.tables table.0) bookmark.now)) (held_from (table_long_values trees.old.tables) from versions.now) table.0 bookmark.now) table.0 bookmark.now trees.old.tables trees.new.tables }
    ensures catalog { trees.new.catalog ≡ trees.old.catalog }
{
    nodes_after_a_change();
    nodes_by_bookmark();
    trees.nodes_are_in_order();
    if has_empty_node(trees, table, bookmark) {
        if !is_record_before(versions, from, table, bookmark) {
            trees.remove(table, bookmark);
        }
    }
}

// Whether the node under a bookmark has no byte.
fn has_empty_node(trees: &TableTrees, table: TableId, bookmark: &[u8]) -> bool
    ensures { result ≡ is_empty_node (get_in (table_nodes trees.now.tables table.0) bookmark.now) }
{
    match trees.get(table, bookmark) {
        Some(bytes) => bytes.is_empty(),
        None => false,
    }
}

// Whether there is a record before a held change that is a put or drop of the record and not undone. It goes from the newest
// of these back.
fn is_record_before(versions: &Versions, from: usize, table: TableId, bookmark: &[u8]) -> bool
    ensures { (longs : TableValues) → result ≡ some_before is_some table.0 bookmark.now (held_from longs from versions.now) }
{
    let mut at = versions.newest_rewrite(table, bookmark);
    while let Some(place) = at {
        if place < from {
            return false;
        }
        if is_record(versions.before_at(place)) {
            return true;
        }
        at = versions.older_rewrite(place);
    }
    false
}

// Whether there is a record.
fn is_record(row: Option<&[u8]>) -> bool
    ensures { result ≡ is_some (option_copied row.entry) }
{
    match row {
        Some(_) => true,
        None => false,
    }
}
