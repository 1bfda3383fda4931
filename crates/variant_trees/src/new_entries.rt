//! The entries that a new index is given.

ghost use Rattle.std.specs.Prelude.{◌≡◌, ◌≤◌, ◌&&◌, ◌||◌, ℕ, true, false, [], List, length, bytes_eq, IfOk, IfSome, OnOk};
ghost use Rattle.std.specs.List.{list_any};
ghost use Rattle.std.specs.List.Sorted.{IsStrictlySortedBy};
ghost use Rattle.std.specs.Ordering.{nat_cmp};
ghost use Rattle.std.specs.Cmp.Lexicographic.{slice_cmp};
ghost use Rattle.laws_versions.specs.KeptEntries.{has_entry};
ghost use Rattle.index_derive.specs.Entries.{is_legal};
ghost use Rattle.index_tree.specs.Entries.{IsApart};
ghost use Rattle.table_trees.specs.StoredTables.{has_index, index_entries, table_long_values, table_nodes};
ghost use Rattle.variant_trees.specs.NewEntries.{HasNewestKeys, IsAmong, IsTakenRow, OnlyEntries, is_key_in_node};
ghost use Rattle.stored_variants.specs.RecordRows.{row_in_node, row_under};

use crate::nodes::{in_place, row_in_node};
use index_derive::derive::entries;
use index_derive::{IndexRule, Place, Schema, entries_rise};
use jet_base::{IndexId, Items, OutOfMemory, TableId};
use key_normal::Key;
use laws_versions::derived_keys_are_apart;
use std::alloc::Global;
use table_trees::{TableTrees, entries_after_a_change, indexes_after_a_change};

/// Puts the keys of all newest records of a table into an index that has no entry yet. Where memory fails some of them may be
/// there.
///
/// It goes over the nodes in the order of their bookmarks, and derives the keys of each row where it lies.
pub(crate) fn fill(
    alloc: Global,
    trees: &mut TableTrees,
    table: TableId,
    schema: &Schema,
    rule: &IndexRule,
) -> Result<(), OutOfMemory>
    requires there { has_index trees.old.tables table.0 rule.now.id.0 ≡ true }
    requires empty { index_entries trees.old.tables table.0 rule.now.id.0 ≡ [] }
    requires legal { is_legal rule.now schema.now ≡ true }
    requires short { rule.now.key_most ≤ 255 }
    requires rows { (bookmark : List ℕ) → IfSome (row_under (table_nodes trees.old.tables table.0) bookmark) (IsTakenRow (table_long_values trees.old.tables table.0) rule.now schema.now) }
    ensures only { OnlyEntries table.0 rule.now.id.0 trees.old.tables trees.new.tables }
    ensures ok { OnOk result (HasNewestKeys (table_long_values trees.old.tables table.0) rule.now (table_nodes trees.old.tables table.0) (index_entries trees.new.tables table.0 rule.now.id.0) schema.now) }
    ensures catalog { trees.new.catalog ≡ trees.old.catalog }
{
    derived_keys_are_apart();
    trees.nodes_are_in_order();
    let mut place = Place::Before;
    while let Some((bookmark, bytes)) = trees.node_after(table, &place) {
        let bookmark = Key::from_slice(bookmark);
        let keys = match keys_in_node(alloc, trees, table, rule, schema, bytes) {
            Ok(keys) => keys,
            Err(error) => return Err(error),
        };
        match put_entries(trees, table, rule.id, keys.as_slice(), bookmark.as_bytes()) {
            Ok(()) => {}
            Err(error) => return Err(error),
        }
        place = Place::On(bookmark.copy(), bookmark);
    }
    Ok(())
}

// The keys of the record in a node's bytes, in rising order. A node without a byte has none.
fn keys_in_node(
    alloc: Global,
    trees: &TableTrees,
    table: TableId,
    rule: &IndexRule,
    schema: &Schema,
    bytes: &[u8],
) -> Result<Items<Key>, OutOfMemory>
    requires legal { is_legal rule.now schema.now ≡ true }
    requires short { rule.now.key_most ≤ 255 }
    requires row { IfSome (row_in_node bytes.now) (IsTakenRow (table_long_values trees.now.tables table.0) rule.now schema.now) }
    ensures rising { IfOk result (λ keys. IsStrictlySortedBy (slice_cmp nat_cmp) keys) }
    ensures keys { IfOk result (λ keys. (key : List ℕ) → list_any (bytes_eq key) keys ≡ is_key_in_node (table_long_values trees.now.tables table.0) rule.now schema.now bytes.now key) }
{
    entries_rise();
    match in_place(trees, table, row_in_node(Some(bytes))) {
        Some(row) => match entries(alloc, rule, schema, &row) {
            Ok(keys) => Ok(keys),
            Err(_) => Err(OutOfMemory),
        },
        None => Ok(Items::empty(alloc)),
    }
}

// Puts an entry for each of the keys of a record into an index that has none of it. Where memory fails some of them may be
// there.
fn put_entries(
    trees: &mut TableTrees,
    table: TableId,
    index: IndexId,
    keys: &[Key],
    bookmark: &[u8],
) -> Result<(), OutOfMemory>
    requires there { has_index trees.old.tables table.0 index.0 ≡ true }
    requires rising { IsStrictlySortedBy (slice_cmp nat_cmp) keys.now }
    requires fresh { (key : List ℕ) → has_entry key bookmark.now (index_entries trees.old.tables table.0 index.0) ≡ false }
    requires apart { (one other : List ℕ) → IsAmong keys.now (index_entries trees.old.tables table.0 index.0) one → IsAmong keys.now (index_entries trees.old.tables table.0 index.0) other → IsApart one other }
    requires short { length bookmark.now ≤ 255 }
    ensures only { OnlyEntries table.0 index.0 trees.old.tables trees.new.tables }
    ensures ok { OnOk result ((key own : List ℕ) → has_entry key own (index_entries trees.new.tables table.0 index.0) ≡ (has_entry key own (index_entries trees.old.tables table.0 index.0) || (bytes_eq own bookmark.now && list_any (bytes_eq key) keys.now))) }
    ensures catalog { trees.new.catalog ≡ trees.old.catalog }
{
    indexes_after_a_change();
    entries_after_a_change();
    for key in keys {
        match trees.insert_entry(table, index, key.as_bytes(), bookmark) {
            Ok(()) => {}
            Err(error) => return Err(error),
        }
    }
    Ok(())
}
