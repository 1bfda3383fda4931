//! The keys of a record that goes: an index loses those that no variant of the record has.

ghost use Rattle.std.specs.Prelude.{◌≡◌, ℕ, ◌≤◌, ◌&&◌, true, not, IfSome, List, bytes_eq, length, option_copied, option_map};
ghost use Rattle.std.specs.List.{AllByRecursion, list_any};
ghost use Rattle.database_state.specs.Conflicts.{yields_key};
ghost use Rattle.laws_versions.specs.KeptEntries.{has_entry};
ghost use Rattle.index_derive.specs.Entries.{is_legal};
ghost use Rattle.table_trees.specs.StoredTables.{index_entries, table_long_values, table_nodes};
ghost use Rattle.laws_engine.specs.Variants.{is_variant_key};
ghost use Rattle.stored_variants.specs.PutRecords.{HasKeysOf};
ghost use Rattle.stored_variants.specs.RecordRows.{some_before, IsRecordRow, record_of, row_under};
ghost use Rattle.variant_trees.specs.GoneRecords.{CanRead, gone_fields};
ghost use Rattle.variant_trees.specs.GoneKeys.{AreRows, ChangesEntries, LosesKey, LosesKeys, LosesRecord, OthersKeep, held_from};

use crate::derived::keys_that_go;
use crate::gone::{Gone, next_key};
use crate::nodes::{in_place, row_in_node};
use index_derive::derive::yields;
use index_derive::{IndexRule, Schema, entries_rise};
use jet_base::{IndexId, TableId};
use key_normal::Key;
use std::alloc::Global;
use table_trees::{TableTrees, entries_after_a_change, indexes_after_a_change};
use version_store::Versions;

/// Takes out of each index that has a tree of its own the keys of a record that goes, but for those that a variant of the
/// record under the bookmark has: the newest one, or the one before a held change, of those from a place on. Want of memory
/// does not stop it: it is slower then.
///
/// Keys that are not there are passed over, so that it may come after some of them were put.
pub(crate) fn take_keys(
    alloc: Global,
    trees: &mut TableTrees,
    versions: &Versions,
    from: usize,
    table: TableId,
    schema: &Schema,
    bookmark: &[u8],
    gone: Gone<'_>,
)
    requires gone { CanRead (table_long_values trees.old.tables table.0) gone }
    requires rules { AllByRecursion (HasKeysOf schema.now (gone_fields (table_long_values trees.old.tables table.0) gone)) schema.now.indexes }
    requires newest { IfSome (row_under (table_nodes trees.old.tables table.0) bookmark.now) (IsRecordRow (table_long_values trees.old.tables table.0)) }
    requires rows { AreRows (table_long_values trees.old.tables) versions.now }
    requires bookmark { length bookmark.now ≤ 255 }
    ensures others { ChangesEntries table.0 trees.old.tables trees.new.tables }
    ensures keys { LosesRecord (option_map (record_of (table_long_values trees.old.tables table.0)) (row_under (table_nodes trees.old.tables table.0) bookmark.now)) (held_from (table_long_values trees.old.tables) from versions.now) schema.now table.0 bookmark.now (gone_fields (table_long_values trees.old.tables table.0) gone.entry) trees.old.tables trees.new.tables }
    ensures catalog { trees.new.catalog ≡ trees.old.catalog }
{
    for rule in schema.indexes.as_slice() {
        if !rule.flags.primary {
            take_keys_of(
                alloc, trees, versions, from, table, schema, rule, bookmark, gone,
            );
        }
    }
}

// The same of one index. Most records have one key in it: that is asked for where it lies, and nothing is allocated.
fn take_keys_of(
    alloc: Global,
    trees: &mut TableTrees,
    versions: &Versions,
    from: usize,
    table: TableId,
    schema: &Schema,
    rule: &IndexRule,
    bookmark: &[u8],
    gone: Gone<'_>,
)
    requires gone { CanRead (table_long_values trees.old.tables table.0) gone }
    requires rule { HasKeysOf schema.now (gone_fields (table_long_values trees.old.tables table.0) gone) rule.now }
    requires newest { IfSome (row_under (table_nodes trees.old.tables table.0) bookmark.now) (IsRecordRow (table_long_values trees.old.tables table.0)) }
    requires rows { AreRows (table_long_values trees.old.tables) versions.now }
    requires bookmark { length bookmark.now ≤ 255 }
    ensures others { ChangesEntries table.0 trees.old.tables trees.new.tables }
    ensures indexes { OthersKeep table.0 rule.now.id.0 trees.old.tables trees.new.tables }
    ensures keys { LosesKeys (option_map (record_of (table_long_values trees.old.tables table.0)) (row_under (table_nodes trees.old.tables table.0) bookmark.now)) (held_from (table_long_values trees.old.tables) from versions.now) rule.now schema.now table.0 bookmark.now (gone_fields (table_long_values trees.old.tables table.0) gone.entry) (index_entries trees.old.tables table.0 rule.now.id.0) (index_entries trees.new.tables table.0 rule.now.id.0) }
    ensures catalog { trees.new.catalog ≡ trees.old.catalog }
{
    entries_rise();
    match next_key(trees, table, rule, schema, gone, None) {
        Some(key) => match next_key(trees, table, rule, schema, gone, Some(&key)) {
            Some(_) => take_derived(
                alloc, trees, versions, from, table, schema, rule, bookmark, gone,
            ),
            None => take_key(trees, versions, from, table, schema, rule, bookmark, &key),
        },
        None => {}
    }
}

// The same where each variant's keys are derived once, and, where there is no memory for that, one key after the other. Apart,
// since most records have one key.
#[inline(never)]
fn take_derived(
    alloc: Global,
    trees: &mut TableTrees,
    versions: &Versions,
    from: usize,
    table: TableId,
    schema: &Schema,
    rule: &IndexRule,
    bookmark: &[u8],
    gone: Gone<'_>,
)
    requires gone { CanRead (table_long_values trees.old.tables table.0) gone }
    requires rule { HasKeysOf schema.now (gone_fields (table_long_values trees.old.tables table.0) gone) rule.now }
    requires newest { IfSome (row_under (table_nodes trees.old.tables table.0) bookmark.now) (IsRecordRow (table_long_values trees.old.tables table.0)) }
    requires rows { AreRows (table_long_values trees.old.tables) versions.now }
    requires bookmark { length bookmark.now ≤ 255 }
    ensures others { ChangesEntries table.0 trees.old.tables trees.new.tables }
    ensures indexes { OthersKeep table.0 rule.now.id.0 trees.old.tables trees.new.tables }
    ensures keys { LosesKeys (option_map (record_of (table_long_values trees.old.tables table.0)) (row_under (table_nodes trees.old.tables table.0) bookmark.now)) (held_from (table_long_values trees.old.tables) from versions.now) rule.now schema.now table.0 bookmark.now (gone_fields (table_long_values trees.old.tables table.0) gone.entry) (index_entries trees.old.tables table.0 rule.now.id.0) (index_entries trees.new.tables table.0 rule.now.id.0) }
    ensures catalog { trees.new.catalog ≡ trees.old.catalog }
{
    match keys_that_go(
        alloc, trees, versions, from, table, schema, rule, bookmark, gone,
    ) {
        Ok(keys) => take_entries(trees, table, rule.id, keys.as_slice(), bookmark),
        Err(_) => take_in_turn(trees, versions, from, table, schema, rule, bookmark, gone),
    }
}

// The same one key after the other: each is asked of each variant. It takes no memory.
fn take_in_turn(
    trees: &mut TableTrees,
    versions: &Versions,
    from: usize,
    table: TableId,
    schema: &Schema,
    rule: &IndexRule,
    bookmark: &[u8],
    gone: Gone<'_>,
)
    requires gone { CanRead (table_long_values trees.old.tables table.0) gone }
    requires rule { HasKeysOf schema.now (gone_fields (table_long_values trees.old.tables table.0) gone) rule.now }
    requires newest { IfSome (row_under (table_nodes trees.old.tables table.0) bookmark.now) (IsRecordRow (table_long_values trees.old.tables table.0)) }
    requires rows { AreRows (table_long_values trees.old.tables) versions.now }
    requires bookmark { length bookmark.now ≤ 255 }
    ensures others { ChangesEntries table.0 trees.old.tables trees.new.tables }
    ensures indexes { OthersKeep table.0 rule.now.id.0 trees.old.tables trees.new.tables }
    ensures keys { LosesKeys (option_map (record_of (table_long_values trees.old.tables table.0)) (row_under (table_nodes trees.old.tables table.0) bookmark.now)) (held_from (table_long_values trees.old.tables) from versions.now) rule.now schema.now table.0 bookmark.now (gone_fields (table_long_values trees.old.tables table.0) gone.entry) (index_entries trees.old.tables table.0 rule.now.id.0) (index_entries trees.new.tables table.0 rule.now.id.0) }
    ensures catalog { trees.new.catalog ≡ trees.old.catalog }
{
    entries_rise();
    let mut next = next_key(trees, table, rule, schema, gone, None);
    while let Some(key) = next {
        take_key(trees, versions, from, table, schema, rule, bookmark, &key);
        next = next_key(trees, table, rule, schema, gone, Some(&key));
    }
}

// Takes a key of the record out of an index, where no variant has it.
fn take_key(
    trees: &mut TableTrees,
    versions: &Versions,
    from: usize,
    table: TableId,
    schema: &Schema,
    rule: &IndexRule,
    bookmark: &[u8],
    key: &Key,
)
    requires legal { is_legal rule.now schema.now ≡ true }
    requires short { rule.now.key_most ≤ 255 }
    requires newest { IfSome (row_under (table_nodes trees.old.tables table.0) bookmark.now) (IsRecordRow (table_long_values trees.old.tables table.0)) }
    requires rows { AreRows (table_long_values trees.old.tables) versions.now }
    requires bookmark { length bookmark.now ≤ 255 }
    ensures others { ChangesEntries table.0 trees.old.tables trees.new.tables }
    ensures indexes { OthersKeep table.0 rule.now.id.0 trees.old.tables trees.new.tables }
    ensures key { LosesKey (λ (k : List ℕ). is_variant_key (option_map (record_of (table_long_values trees.old.tables table.0)) (row_under (table_nodes trees.old.tables table.0) bookmark.now)) (held_from (table_long_values trees.old.tables) from versions.now) rule.now schema.now table.0 k bookmark.now) key.now bookmark.now (index_entries trees.old.tables table.0 rule.now.id.0) (index_entries trees.new.tables table.0 rule.now.id.0) }
    ensures catalog { trees.new.catalog ≡ trees.old.catalog }
{
    if !is_variant_key(trees, versions, from, table, schema, rule, bookmark, key) {
        take_entry(trees, table, rule.id, key, bookmark);
    }
}

// Takes the entries with a bookmark and one of the keys out of an index, where they are there.
fn take_entries(
    trees: &mut TableTrees,
    table: TableId,
    index: IndexId,
    keys: &[Key],
    bookmark: &[u8],
)
    requires { length bookmark.now ≤ 255 }
    ensures others { ChangesEntries table.0 trees.old.tables trees.new.tables }
    ensures indexes { OthersKeep table.0 index.0 trees.old.tables trees.new.tables }
    ensures entries { (k own : List ℕ) → has_entry k own (index_entries trees.new.tables table.0 index.0) ≡ (has_entry k own (index_entries trees.old.tables table.0 index.0) && not (bytes_eq own bookmark.now && list_any (bytes_eq k) keys.now)) }
    ensures catalog { trees.new.catalog ≡ trees.old.catalog }
{
    for key in keys {
        take_entry(trees, table, index, key, bookmark);
    }
}

// Takes an entry out of an index, where it is there.
fn take_entry(trees: &mut TableTrees, table: TableId, index: IndexId, key: &Key, bookmark: &[u8])
    requires { length bookmark.now ≤ 255 }
    ensures others { ChangesEntries table.0 trees.old.tables trees.new.tables }
    ensures indexes { OthersKeep table.0 index.0 trees.old.tables trees.new.tables }
    ensures entry { (k own : List ℕ) → has_entry k own (index_entries trees.new.tables table.0 index.0) ≡ (has_entry k own (index_entries trees.old.tables table.0 index.0) && not (bytes_eq own bookmark.now && bytes_eq k key.now)) }
    ensures catalog { trees.new.catalog ≡ trees.old.catalog }
{
    entries_after_a_change();
    indexes_after_a_change();
    let key = key.as_bytes();
    if trees.has_entry(table, index, key, bookmark) {
        trees.remove_entry(table, index, key, bookmark);
    }
}

// Whether a variant of the record has the key.
fn is_variant_key(
    trees: &TableTrees,
    versions: &Versions,
    from: usize,
    table: TableId,
    schema: &Schema,
    rule: &IndexRule,
    bookmark: &[u8],
    key: &Key,
) -> bool
    requires legal { is_legal rule.now schema.now ≡ true }
    requires short { rule.now.key_most ≤ 255 }
    requires newest { IfSome (row_under (table_nodes trees.now.tables table.0) bookmark.now) (IsRecordRow (table_long_values trees.now.tables table.0)) }
    requires rows { AreRows (table_long_values trees.now.tables) versions.now }
    ensures { result ≡ is_variant_key (option_map (record_of (table_long_values trees.now.tables table.0)) (row_under (table_nodes trees.now.tables table.0) bookmark.now)) (held_from (table_long_values trees.now.tables) from versions.now) rule.now schema.now table.0 key.now bookmark.now }
{
    let newest = row_in_node(trees.get(table, bookmark));
    has_key(trees, table, rule, schema, newest, key)
        || is_key_before(trees, versions, from, table, schema, rule, bookmark, key)
}

// Whether the record before a held change has the key, where it is a put or drop of the record that is not undone. It goes
// from the newest of these back.
fn is_key_before(
    trees: &TableTrees,
    versions: &Versions,
    from: usize,
    table: TableId,
    schema: &Schema,
    rule: &IndexRule,
    bookmark: &[u8],
    key: &Key,
) -> bool
    requires legal { is_legal rule.now schema.now ≡ true }
    requires short { rule.now.key_most ≤ 255 }
    requires rows { AreRows (table_long_values trees.now.tables) versions.now }
    ensures { result ≡ some_before (yields_key rule.now schema.now key.now) table.0 bookmark.now (held_from (table_long_values trees.now.tables) from versions.now) }
{
    let mut at = versions.newest_rewrite(table, bookmark);
    while let Some(place) = at {
        if place < from {
            return false;
        }
        if has_key(trees, table, rule, schema, versions.before_at(place), key) {
            return true;
        }
        at = versions.older_rewrite(place);
    }
    false
}

// Whether the record of a row of the table has the key.
fn has_key(
    trees: &TableTrees,
    table: TableId,
    rule: &IndexRule,
    schema: &Schema,
    row: Option<&[u8]>,
    key: &Key,
) -> bool
    requires legal { is_legal rule.now schema.now ≡ true }
    requires short { rule.now.key_most ≤ 255 }
    requires row { IfSome (option_copied row) (IsRecordRow (table_long_values trees.now.tables table.0)) }
    ensures { result ≡ yields_key rule.now schema.now key.now (option_map (record_of (table_long_values trees.now.tables table.0)) (option_copied row.entry)) }
{
    match in_place(trees, table, row) {
        Some(row) => yields(rule, schema, &row, key),
        None => false,
    }
}
