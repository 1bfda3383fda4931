//! The keys of a record that goes which no variant of it has, where each variant's keys are derived once.

ghost use Rattle.std.specs.Prelude.{◌≡◌, ℕ, ◌≤◌, ◌&&◌, true, not, IfOk, IfSome, List, bytes_eq, option_copied, option_map};
ghost use Rattle.std.specs.List.{list_any};
ghost use Rattle.std.specs.List.Sorted.{IsStrictlySortedBy};
ghost use Rattle.std.specs.Ordering.{nat_cmp};
ghost use Rattle.std.specs.Cmp.Lexicographic.{slice_cmp};
ghost use Rattle.database_state.specs.Conflicts.{yields_key};
ghost use Rattle.index_derive.specs.Entries.{is_legal};
ghost use Rattle.table_trees.specs.StoredTables.{table_long_values, table_nodes};
ghost use Rattle.stored_variants.specs.PutRecords.{HasKeysOf};
ghost use Rattle.stored_variants.specs.RecordRows.{some_before, IsRecordRow, record_of, row_under};
ghost use Rattle.variant_trees.specs.GoneKeys.{AreRows, held_from, is_gone_key};
ghost use Rattle.variant_trees.specs.GoneRecords.{CanRead, gone_fields};

use crate::gone::{Gone, keys_of_gone};
use crate::nodes::{in_place, row_in_node};
use index_derive::derive::entries;
use index_derive::{DeriveFault, IndexRule, Schema, entries_rise};
use jet_base::{Items, OutOfMemory, TableId};
use key_normal::Key;
use std::alloc::Global;
use table_trees::TableTrees;
use version_store::Versions;

/// The keys that a record which goes has in an index, but for those that a variant of the record under the bookmark has: the
/// newest one, or the one before a held change, of those from a place on. Each variant is derived at most once, and none once
/// no key is left.
pub(crate) fn keys_that_go(
    alloc: Global,
    trees: &TableTrees,
    versions: &Versions,
    from: usize,
    table: TableId,
    schema: &Schema,
    rule: &IndexRule,
    bookmark: &[u8],
    gone: Gone<'_>,
) -> Result<Items<Key>, OutOfMemory>
    requires gone { CanRead (table_long_values trees.now.tables table.0) gone }
    requires rule { HasKeysOf schema.now (gone_fields (table_long_values trees.now.tables table.0) gone) rule.now }
    requires newest { IfSome (row_under (table_nodes trees.now.tables table.0) bookmark.now) (IsRecordRow (table_long_values trees.now.tables table.0)) }
    requires rows { AreRows (table_long_values trees.now.tables) versions.now }
    ensures { IfOk result (λ keys. (key : List ℕ) → list_any (bytes_eq key) keys ≡ is_gone_key (option_map (record_of (table_long_values trees.now.tables table.0)) (row_under (table_nodes trees.now.tables table.0) bookmark.now)) (held_from (table_long_values trees.now.tables) from versions.now) rule.now schema.now table.0 bookmark.now (gone_fields (table_long_values trees.now.tables table.0) gone.entry) key) }
{
    let keys = match keys_of_gone(alloc, trees, table, rule, schema, gone) {
        Ok(keys) => keys,
        Err(error) => return Err(error),
    };
    let newest = row_in_node(trees.get(table, bookmark));
    let left = match without_keys_of(alloc, trees, table, rule, schema, newest, keys) {
        Ok(left) => left,
        Err(error) => return Err(error),
    };
    match without_keys_before(
        alloc, trees, versions, from, table, schema, rule, bookmark, left,
    ) {
        Ok(left) => Ok(left),
        Err(error) => Err(error),
    }
}

// The keys but for those of a record before a held change, where that is a put or drop of the record that is not undone. It goes
// from the newest of these back, until no key is left.
fn without_keys_before(
    alloc: Global,
    trees: &TableTrees,
    versions: &Versions,
    from: usize,
    table: TableId,
    schema: &Schema,
    rule: &IndexRule,
    bookmark: &[u8],
    keys: Items<Key>,
) -> Result<Items<Key>, OutOfMemory>
    requires legal { is_legal rule.now schema.now ≡ true }
    requires short { rule.now.key_most ≤ 255 }
    requires rows { AreRows (table_long_values trees.now.tables) versions.now }
    ensures { IfOk result (λ left. (key : List ℕ) → list_any (bytes_eq key) left ≡ (list_any (bytes_eq key) keys && not (some_before (yields_key rule.now schema.now key) table.0 bookmark.now (held_from (table_long_values trees.now.tables) from versions.now)))) }
{
    let mut left = keys;
    let mut at = versions.newest_rewrite(table, bookmark);
    while let Some(place) = at {
        if place < from {
            return Ok(left);
        }
        if left.as_slice().is_empty() {
            return Ok(left);
        }
        match without_keys_of(
            alloc,
            trees,
            table,
            rule,
            schema,
            versions.before_at(place),
            left,
        ) {
            Ok(fewer) => left = fewer,
            Err(error) => return Err(error),
        }
        at = versions.older_rewrite(place);
    }
    Ok(left)
}

// The keys but for those that the record of a row of the table has.
fn without_keys_of(
    alloc: Global,
    trees: &TableTrees,
    table: TableId,
    rule: &IndexRule,
    schema: &Schema,
    row: Option<&[u8]>,
    keys: Items<Key>,
) -> Result<Items<Key>, OutOfMemory>
    requires legal { is_legal rule.now schema.now ≡ true }
    requires short { rule.now.key_most ≤ 255 }
    requires row { IfSome (option_copied row) (IsRecordRow (table_long_values trees.now.tables table.0)) }
    ensures { IfOk result (λ left. (key : List ℕ) → list_any (bytes_eq key) left ≡ (list_any (bytes_eq key) keys && not (yields_key rule.now schema.now key (option_map (record_of (table_long_values trees.now.tables table.0)) (option_copied row.entry))))) }
{
    entries_rise();
    match in_place(trees, table, row) {
        Some(row) => match entries(alloc, rule, schema, &row) {
            Ok(others) => match without_keys(alloc, keys.as_slice(), others.as_slice()) {
                Ok(left) => Ok(left),
                Err(error) => Err(error),
            },
            Err(DeriveFault::OutOfMemory) => Err(OutOfMemory),
            // A record that the index refuses has no key.
            Err(DeriveFault::NullKeyDisallowed) => Ok(keys),
            Err(DeriveFault::KeyTruncated) => Ok(keys),
        },
        None => Ok(keys),
    }
}

// The keys that are not among others, which rise.
fn without_keys(alloc: Global, keys: &[Key], others: &[Key]) -> Result<Items<Key>, OutOfMemory>
    requires { IsStrictlySortedBy (slice_cmp nat_cmp) others.now }
    ensures { IfOk result (λ left. (key : List ℕ) → list_any (bytes_eq key) left ≡ (list_any (bytes_eq key) keys.now && not (list_any (bytes_eq key) others.now))) }
{
    let mut left = Items::empty(alloc);
    for key in keys {
        if !is_among(others, key) {
            match left.push(key.copy()) {
                Ok(()) => {}
                Err(error) => return Err(error),
            }
        }
    }
    Ok(left)
}

// Whether the key is one of these, which rise.
fn is_among(keys: &[Key], key: &Key) -> bool
    requires { IsStrictlySortedBy (slice_cmp nat_cmp) keys.now }
    ensures { result ≡ list_any (bytes_eq key.now) keys.now }
{
    match keys.binary_search(key) {
        Ok(_) => true,
        Err(_) => false,
    }
}
