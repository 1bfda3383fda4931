//! What a put brings into the trees of its table, and how it is taken back.

ghost use Rattle.std.specs.Prelude.{◌≡◌, ℕ, ◌≤◌, ◌<◌, ◌++◌, ◌∷◌, [], List, length, true, false, not, is_none, is_some, Some, None, map, option_copied, option_map, unwrap_or, IfOk, IfSome, IsErrOf, IsSome, IsTrue, OnErr, OnOk};
ghost use Rattle.std.specs.List.{AllByRecursion};
ghost use Rattle.btree_inplace.specs.Order.{extent_in, get_in};
ghost use Rattle.column_set.specs.RecordValues.{record_fits};
ghost use Rattle.column_set.specs.Rows.{IsRowBytes, is_all_here, is_row_of, largest_row, row_bytes};
ghost use Rattle.column_set.specs.RowReading.{row_in};
ghost use Rattle.index_tree.specs.Entries.{IsApartFromAll};
ghost use Rattle.table_trees.specs.ValuesChanged.{HasLongValues};
ghost use Rattle.long_rows.specs.RowReferences.{identifiers};
ghost use Rattle.long_rows.specs.ReferenceCounts.{with_all_taken};
ghost use Rattle.long_rows.specs.KeptRows.{MayKeep, MayTake, given_values, kept_row};
ghost use Rattle.table_trees.specs.StoredTables.{StoredTable, has_index, has_table, index_entries, table_long_values, table_nodes};
ghost use Rattle.version_store.specs.HeldChanges.{has_room, new_change};
ghost use Rattle.version_store.specs.declared.fault.VersionFault.TheVariants as fault;
ghost use Rattle.stored_variants.specs.PutRecords.{HasKeysOf, record_keys, rule_keys};
ghost use Rattle.variant_trees.specs.GoneKeys.{AreRows, KeepsValues, held_from};
ghost use Rattle.variant_trees.specs.PutStages.{AreKeysOfRecords, CanTake, HasKeys, HasNewRow, HasRoom, HasVariantKeys, IsHalfPut, IsNewPut, IsPut, IsSame, MayHaveKeys, one_key, put_found, row_if};
ghost use Rattle.stored_variants.specs.RecordRows.{IsRecordRow, record_of, row_under};

use crate::gone::Gone;
use crate::keys::take_keys;
use crate::nodes::row_in_node;
use column_set::{Change, Record, encode_record, is_all_here, rows_are_read_back};
use index_derive::derive::entries;
use index_derive::{IndexRule, Schema};
use jet_base::{IndexId, OutOfMemory, TableId};
use key_normal::Key;
use laws_versions::derived_keys_are_apart;
use long_rows::{
    form_of_a_kept_row, kept_rows_stand_for_their_records, rows_without_long_values,
    values_that_are_given_back,
};
use long_value::{references_after_a_change, values_after_a_change};
use std::alloc::Global;
use table_trees::{
    Sources, TableTrees, entries_after_a_change, indexes_after_a_change, keep_row,
    nodes_after_a_change, nodes_by_bookmark, release_row, take_row,
};
use version_store::{By, VersionFault, Versions};

// ---- keys

// Puts the keys of a record into each index that has a tree of its own, where they are not there. Where memory fails some of
// them may be there.
fn put_keys(
    alloc: Global,
    trees: &mut TableTrees,
    table: TableId,
    schema: &Schema,
    bookmark: &[u8],
    values: &Record,
) -> Result<(), OutOfMemory>
    requires rules { AllByRecursion (CanTake schema.now values.now table.0 trees.old.tables) schema.now.indexes }
    requires fits { record_fits schema.now.columns values.now ≡ true }
    requires short { length bookmark.now ≤ 255 }
    ensures ok { OnOk result (HasKeys table.0 bookmark.now (record_keys schema.now.indexes schema.now values.now) trees.old.tables trees.new.tables) }
    ensures err { OnErr result (MayHaveKeys table.0 bookmark.now (record_keys schema.now.indexes schema.now values.now) trees.old.tables trees.new.tables) }
    ensures catalog { trees.new.catalog ≡ trees.old.catalog }
{
    for rule in schema.indexes.as_slice() {
        if !rule.flags.primary {
            match put_keys_of(alloc, trees, table, schema, rule, bookmark, values) {
                Ok(()) => {}
                Err(error) => return Err(error),
            }
        }
    }
    Ok(())
}

// The same of one index. Apart, since a key is large and a table without such an index makes none.
#[inline(never)]
fn put_keys_of(
    alloc: Global,
    trees: &mut TableTrees,
    table: TableId,
    schema: &Schema,
    rule: &IndexRule,
    bookmark: &[u8],
    values: &Record,
) -> Result<(), OutOfMemory>
    requires rule { HasKeysOf schema.now values.now rule.now }
    requires there { has_index trees.old.tables table.0 rule.now.id.0 ≡ true }
    requires derived { AreKeysOfRecords rule.now schema.now (index_entries trees.old.tables table.0 rule.now.id.0) }
    requires fits { record_fits schema.now.columns values.now ≡ true }
    requires short { length bookmark.now ≤ 255 }
    ensures ok { OnOk result (HasKeys table.0 bookmark.now (rule_keys schema.now values.now rule.now) trees.old.tables trees.new.tables) }
    ensures err { OnErr result (MayHaveKeys table.0 bookmark.now (rule_keys schema.now values.now rule.now) trees.old.tables trees.new.tables) }
    ensures catalog { trees.new.catalog ≡ trees.old.catalog }
{
    derived_keys_are_apart();
    let keys = match entries(alloc, rule, schema, values) {
        Ok(keys) => keys,
        Err(_) => return Err(OutOfMemory),
    };
    for key in keys.as_slice() {
        match put_key(trees, table, rule.id, key, bookmark) {
            Ok(()) => {}
            Err(error) => return Err(error),
        }
    }
    Ok(())
}

// Puts a key of a record into an index, where it is not there.
fn put_key(
    trees: &mut TableTrees,
    table: TableId,
    index: IndexId,
    key: &Key,
    bookmark: &[u8],
) -> Result<(), OutOfMemory>
    requires there { has_index trees.old.tables table.0 index.0 ≡ true }
    requires apart { IsApartFromAll key.now (index_entries trees.old.tables table.0 index.0) }
    requires short { length bookmark.now ≤ 255 }
    ensures ok { OnOk result (HasKeys table.0 bookmark.now (one_key index.0 key.now) trees.old.tables trees.new.tables) }
    ensures err { OnErr result (trees.new.tables ≡ trees.old.tables) }
    ensures catalog { trees.new.catalog ≡ trees.old.catalog }
{
    indexes_after_a_change();
    entries_after_a_change();
    let key = key.as_bytes();
    match trees.insert_entry_if_absent(table, index, key, bookmark) {
        Ok(_) => Ok(()),
        Err(error) => Err(error),
    }
}

// ---- nodes

// Puts a node with a row under a bookmark that has none. Where it has one, all stays, and it answers how many bytes are kept
// for its row.
fn insert_row(
    trees: &mut TableTrees,
    table: TableId,
    bookmark: &[u8],
    row: &[u8],
) -> Result<Option<usize>, OutOfMemory>
    requires there { has_table trees.old.tables table.0 ≡ true }
    requires some { 0 < length bookmark.now }
    requires short { length bookmark.now ≤ 255 }
    requires small { length row.now ≤ 1700 }
    ensures node { IfOk result (λ there. there ≡ extent_in (table_nodes trees.old.tables table.0) bookmark.now) }
    ensures new { IfOk result (λ there. there ≡ None → HasNewRow table.0 bookmark.now row.now trees.old.tables trees.new.tables) }
    ensures same { IfOk result (λ there. IsSome there → trees.new.tables ≡ trees.old.tables) }
    ensures err { OnErr result (trees.new.tables ≡ trees.old.tables) }
    ensures catalog { trees.new.catalog ≡ trees.old.catalog }
{
    nodes_after_a_change();
    nodes_by_bookmark();
    match trees.insert_if_absent(table, bookmark, row, row.len()) {
        Ok(there) => Ok(there),
        Err(error) => Err(error),
    }
}

// Sees to it that the node under the bookmark, for which so many bytes are kept, has room for so many.
fn make_room(
    trees: &mut TableTrees,
    table: TableId,
    bookmark: &[u8],
    extent: usize,
    size: usize,
) -> Result<(), OutOfMemory>
    requires there { has_table trees.old.tables table.0 ≡ true }
    requires node { extent_in (table_nodes trees.old.tables table.0) bookmark.now ≡ Some extent }
    requires small { size ≤ 1700 }
    ensures ok { OnOk result (HasRoom table.0 bookmark.now size trees.old.tables trees.new.tables) }
    ensures err { OnErr result (trees.new.tables ≡ trees.old.tables) }
    ensures catalog { trees.new.catalog ≡ trees.old.catalog }
{
    nodes_after_a_change();
    nodes_by_bookmark();
    trees.nodes_are_in_order();
    if extent < size {
        match trees.widen(table, bookmark, size) {
            Ok(()) => Ok(()),
            Err(error) => Err(error),
        }
    } else {
        Ok(())
    }
}

// ---- a put that fails

// Takes back what a put has brought into the trees when it fails: of the record's keys those that no variant of it has, and
// its node where that is new. Want of memory does not stop it.
fn take_back(
    alloc: Global,
    trees: &mut TableTrees,
    versions: &Versions,
    table: TableId,
    schema: &Schema,
    bookmark: &[u8],
    values: &Record,
    is_new: bool,
)
    requires rules { AllByRecursion (HasKeysOf schema.now values.now) schema.now.indexes }
    requires newest { IfSome (row_under (table_nodes trees.old.tables table.0) bookmark.now) (IsRecordRow (table_long_values trees.old.tables table.0)) }
    requires rows { AreRows (table_long_values trees.old.tables) versions.now }
    requires short { length bookmark.now ≤ 255 }
    requires there { has_table trees.old.tables table.0 ≡ true }
    requires new_node { is_new ≡ true → is_some (get_in (table_nodes trees.old.tables table.0) bookmark.now) ≡ true }
    ensures back { (base : List StoredTable) → IsHalfPut table.0 bookmark.now (record_keys schema.now.indexes schema.now values.now) base trees.old.tables
        → KeepsValues base trees.old.tables → is_new ≡ is_none (get_in (table_nodes base table.0) bookmark.now)
        → HasVariantKeys (option_map (record_of (table_long_values base table.0)) (row_under (table_nodes base table.0) bookmark.now)) (held_from (table_long_values base) 0 versions.now) schema.now table.0 bookmark.now base
        → IsSame table.0 schema.now base trees.new.tables }
    ensures catalog { trees.new.catalog ≡ trees.old.catalog }
{
    nodes_after_a_change();
    nodes_by_bookmark();
    take_keys(
        alloc,
        trees,
        versions,
        0,
        table,
        schema,
        bookmark,
        Gone::Record(values),
    );
    if is_new {
        trees.remove(table, bookmark);
    }
}

// The same of a put whose row stands in a new node.
fn take_back_new(
    alloc: Global,
    trees: &mut TableTrees,
    versions: &Versions,
    table: TableId,
    schema: &Schema,
    bookmark: &[u8],
    values: &Record,
)
    requires rules { AllByRecursion (HasKeysOf schema.now values.now) schema.now.indexes }
    requires rows { AreRows (table_long_values trees.old.tables) versions.now }
    requires short { length bookmark.now ≤ 255 }
    requires there { has_table trees.old.tables table.0 ≡ true }
    requires node { is_some (get_in (table_nodes trees.old.tables table.0) bookmark.now) ≡ true }
    ensures back { (base : List StoredTable) (row : List ℕ) → IsNewPut table.0 bookmark.now row (record_keys schema.now.indexes schema.now values.now) base trees.old.tables
        → KeepsValues base trees.old.tables → get_in (table_nodes base table.0) bookmark.now ≡ None
        → HasVariantKeys None (held_from (table_long_values base) 0 versions.now) schema.now table.0 bookmark.now base
        → IsSame table.0 schema.now base trees.new.tables }
    ensures catalog { trees.new.catalog ≡ trees.old.catalog }
{
    nodes_after_a_change();
    nodes_by_bookmark();
    trees.replace(table, bookmark, &[]);
    take_back(
        alloc, trees, versions, table, schema, bookmark, values, true,
    );
}

// ---- a put

/// Puts a record under its bookmark, in the place of the one that is there, and holds the put with the row before it. The
/// change is one for which there is room, and the table's indexes can take the record. Only memory may be wanting, and then
/// all is as it was, but for bytes that are kept for nodes.
///
/// A value of more than 255 bytes is kept apart: as that of the row before, or of the row of the record that was copied, where an
/// equal one stands there under the same column and sequence, or as a new one under the number of the put's log entry. No long
/// value of the table has that number yet. A new value is written once.
pub fn put_record(
    alloc: Global,
    trees: &mut TableTrees,
    versions: &mut Versions,
    by: By,
    change: &Change,
    table: TableId,
    schema: &Schema,
    bookmark: &[u8],
    copied: Option<&[u8]>,
    values: &Record,
) -> Result<(), VersionFault>
    requires there { has_table trees.old.tables table.0 ≡ true }
    requires rules { AllByRecursion (CanTake schema.now values.now table.0 trees.old.tables) schema.now.indexes }
    requires fits { record_fits schema.now.columns values.now ≡ true }
    requires copied { IfSome (option_copied copied) IsRowBytes }
    requires may { MayKeep (put_found by.number trees.old.tables table.0 bookmark.now (option_copied copied)) values.now }
    requires some { 0 < length bookmark.now }
    requires short { length bookmark.now ≤ 255 }
    requires newest { IfSome (row_under (table_nodes trees.old.tables table.0) bookmark.now) (IsRecordRow (table_long_values trees.old.tables table.0)) }
    requires rows { AreRows (table_long_values trees.old.tables) versions.old }
    requires keys { HasVariantKeys (option_map (record_of (table_long_values trees.old.tables table.0)) (row_under (table_nodes trees.old.tables table.0) bookmark.now)) (held_from (table_long_values trees.old.tables) 0 versions.old) schema.now table.0 bookmark.now trees.old.tables }
    requires room { has_room by change.now (row_under (table_nodes trees.old.tables table.0) bookmark.now) versions.old ≡ true }
    ensures fault { IsErrOf result fault.OverSpan → ⊥ }
    ensures put { OnOk result (let row = kept_row (put_found by.number trees.old.tables table.0 bookmark.now (option_copied copied.entry)) values.now in
        IsPut table.0 bookmark.now (row_bytes row) (given_values row values.now) (record_keys schema.now.indexes schema.now values.now) trees.old.tables trees.new.tables) }
    ensures held { OnOk result (versions.new ≡ versions.old ++ new_change by change.now (row_under (table_nodes trees.old.tables table.0) bookmark.now) ∷ []) }
    ensures same { OnErr result (IsSame table.0 schema.now trees.old.tables trees.new.tables) }
    ensures unheld { OnErr result (versions.new ≡ versions.old) }
    ensures catalog { trees.new.catalog ≡ trees.old.catalog }
{
    form_of_a_kept_row();
    kept_rows_stand_for_their_records();
    rows_are_read_back();
    // Whether the row has every value itself: asked once, since it goes over them all.
    let is_here = is_all_here(values);
    let row = match row_to_put(
        alloc, trees, table, bookmark, copied, by.number, values, is_here,
    ) {
        Ok(row) => row,
        Err(_) => return Err(VersionFault::OutOfMemory),
    };
    let bytes = row.as_slice();
    put_row(
        alloc, trees, versions, by, change, table, schema, bookmark, values, bytes, is_here,
    )
}

// The row that a put makes of a record. A record without a long value shares none: the row before is not looked up then.
fn row_to_put(
    alloc: Global,
    trees: &TableTrees,
    table: TableId,
    bookmark: &[u8],
    copied: Option<&[u8]>,
    number: u64,
    values: &Record,
    is_here: bool,
) -> Result<Vec<u8>, OutOfMemory>
    requires here { is_here ≡ is_all_here values.now }
    requires newest { IfSome (row_under (table_nodes trees.now.tables table.0) bookmark.now) (IsRecordRow (table_long_values trees.now.tables table.0)) }
    requires copied { IfSome (option_copied copied) IsRowBytes }
    requires may { MayKeep (put_found number trees.now.tables table.0 bookmark.now (option_copied copied)) values.now }
    ensures row { IfOk result (λ bytes. bytes.items ≡ row_bytes (kept_row (put_found number trees.now.tables table.0 bookmark.now (option_copied copied.entry)) values.now)) }
    ensures small { IfOk result (λ bytes. length bytes.items ≤ largest_row) }
{
    rows_without_long_values();
    if is_here {
        return match encode_record(alloc, values) {
            Ok(row) => Ok(row),
            Err(_) => Err(OutOfMemory),
        };
    }
    let sources = Sources {
        trees,
        table,
        before: row_in_node(trees.get(table, bookmark)),
        copied,
        number,
    };
    match keep_row(alloc, &sources, values) {
        Ok(row) => Ok(row),
        Err(_) => Err(OutOfMemory),
    }
}

// Takes the long values that a row of a record names, and holds the put: with the row in the node under its bookmark, or with
// none where the node is new. Where memory fails the long values are as they were. Inlined, since each put comes through it.
#[inline(always)]
fn take_and_hold(
    trees: &mut TableTrees,
    versions: &mut Versions,
    by: By,
    change: &Change,
    table: TableId,
    bookmark: &[u8],
    values: &Record,
    row: &[u8],
    is_here: bool,
    is_new: bool,
) -> Result<(), OutOfMemory>
    requires here { is_here ≡ is_all_here values.now }
    requires there { has_table trees.old.tables table.0 ≡ true }
    requires row { IsRowBytes row.now }
    requires form { IsTrue (is_row_of (row_in row.now) values.now) }
    requires may { AllByRecursion (MayTake (table_long_values trees.old.tables table.0)) (given_values (row_in row.now) values.now) }
    requires names { map (λ one. one.0) (given_values (row_in row.now) values.now) ≡ identifiers (Some (row_in row.now)) }
    requires room { has_room by change.now (row_if (not is_new) (row_under (table_nodes trees.old.tables table.0) bookmark.now)) versions.old ≡ true }
    ensures ok { OnOk result (HasLongValues table.0 (with_all_taken (given_values (row_in row.now) values.now) (table_long_values trees.old.tables table.0)) trees.old.tables trees.new.tables) }
    ensures held { OnOk result (versions.new ≡ versions.old ++ new_change by change.now (row_if (not is_new) (row_under (table_nodes trees.old.tables table.0) bookmark.now)) ∷ []) }
    ensures err { OnErr result (HasLongValues table.0 (table_long_values trees.old.tables table.0) trees.old.tables trees.new.tables) }
    ensures unheld { OnErr result (versions.new ≡ versions.old) }
    ensures catalog { trees.new.catalog ≡ trees.old.catalog }
{
    references_after_a_change();
    values_after_a_change();
    values_that_are_given_back();
    trees.long_values_are_whole();
    match take_long_values(trees, table, row, values, is_here) {
        Ok(()) => {}
        Err(fault) => return Err(fault),
    }
    match versions.push(by, change, row_before(trees, table, bookmark, is_new)) {
        Ok(()) => Ok(()),
        Err(_) => {
            release_row(trees, table, row);
            Err(OutOfMemory)
        }
    }
}

// Takes the long values that a row of a record names. A record without one has none: its row is not looked through.
fn take_long_values(
    trees: &mut TableTrees,
    table: TableId,
    row: &[u8],
    values: &Record,
    is_here: bool,
) -> Result<(), OutOfMemory>
    requires here { is_here ≡ is_all_here values.now }
    requires there { has_table trees.old.tables table.0 ≡ true }
    requires row { IsRowBytes row.now }
    requires form { IsTrue (is_row_of (row_in row.now) values.now) }
    requires may { AllByRecursion (MayTake (table_long_values trees.old.tables table.0)) (given_values (row_in row.now) values.now) }
    ensures ok { OnOk result (HasLongValues table.0 (with_all_taken (given_values (row_in row.now) values.now) (table_long_values trees.old.tables table.0)) trees.old.tables trees.new.tables) }
    ensures err { OnErr result (HasLongValues table.0 (table_long_values trees.old.tables table.0) trees.old.tables trees.new.tables) }
    ensures catalog { trees.new.catalog ≡ trees.old.catalog }
{
    if is_here {
        Ok(())
    } else {
        take_row(trees, table, row, values)
    }
}

// The row in the node under a bookmark, none where the node is new.
fn row_before<'a>(
    trees: &'a TableTrees,
    table: TableId,
    bookmark: &[u8],
    is_new: bool,
) -> Option<&'a [u8]>
    ensures row { option_copied result ≡ row_if (not is_new) (row_under (table_nodes trees.now.tables table.0) bookmark.now) }
    ensures small { length (unwrap_or (option_copied result) []) ≤ 4096 }
{
    trees.nodes_are_in_order();
    if is_new {
        None
    } else {
        row_in_node(trees.get(table, bookmark))
    }
}

// Puts a row of a record: with its node under a bookmark that has none, or in the place of the row that is there.
fn put_row(
    alloc: Global,
    trees: &mut TableTrees,
    versions: &mut Versions,
    by: By,
    change: &Change,
    table: TableId,
    schema: &Schema,
    bookmark: &[u8],
    values: &Record,
    row: &[u8],
    is_here: bool,
) -> Result<(), VersionFault>
    requires here { is_here ≡ is_all_here values.now }
    requires there { has_table trees.old.tables table.0 ≡ true }
    requires rules { AllByRecursion (CanTake schema.now values.now table.0 trees.old.tables) schema.now.indexes }
    requires fits { record_fits schema.now.columns values.now ≡ true }
    requires row { IsRowBytes row.now }
    requires form { IsTrue (is_row_of (row_in row.now) values.now) }
    requires may { AllByRecursion (MayTake (table_long_values trees.old.tables table.0)) (given_values (row_in row.now) values.now) }
    requires names { map (λ one. one.0) (given_values (row_in row.now) values.now) ≡ identifiers (Some (row_in row.now)) }
    requires some { 0 < length bookmark.now }
    requires short { length bookmark.now ≤ 255 }
    requires small { length row.now ≤ 1700 }
    requires newest { IfSome (row_under (table_nodes trees.old.tables table.0) bookmark.now) (IsRecordRow (table_long_values trees.old.tables table.0)) }
    requires rows { AreRows (table_long_values trees.old.tables) versions.old }
    requires keys { HasVariantKeys (option_map (record_of (table_long_values trees.old.tables table.0)) (row_under (table_nodes trees.old.tables table.0) bookmark.now)) (held_from (table_long_values trees.old.tables) 0 versions.old) schema.now table.0 bookmark.now trees.old.tables }
    requires room { has_room by change.now (row_under (table_nodes trees.old.tables table.0) bookmark.now) versions.old ≡ true }
    ensures fault { IsErrOf result fault.OverSpan → ⊥ }
    ensures put { OnOk result (IsPut table.0 bookmark.now row.now (given_values (row_in row.now) values.now) (record_keys schema.now.indexes schema.now values.now) trees.old.tables trees.new.tables) }
    ensures held { OnOk result (versions.new ≡ versions.old ++ new_change by change.now (row_under (table_nodes trees.old.tables table.0) bookmark.now) ∷ []) }
    ensures same { OnErr result (IsSame table.0 schema.now trees.old.tables trees.new.tables) }
    ensures unheld { OnErr result (versions.new ≡ versions.old) }
    ensures catalog { trees.new.catalog ≡ trees.old.catalog }
{
    let there = match insert_row(trees, table, bookmark, row) {
        Ok(there) => there,
        Err(_) => return Err(VersionFault::OutOfMemory),
    };
    match there {
        None => {}
        Some(extent) => {
            return put_over(
                alloc, trees, versions, by, change, table, schema, bookmark, values, row, is_here,
                extent,
            );
        }
    }
    match put_keys(alloc, trees, table, schema, bookmark, values) {
        Ok(()) => {}
        Err(_) => {
            take_back_new(alloc, trees, versions, table, schema, bookmark, values);
            return Err(VersionFault::OutOfMemory);
        }
    }
    match take_and_hold(
        trees, versions, by, change, table, bookmark, values, row, is_here, true,
    ) {
        Ok(()) => Ok(()),
        Err(_) => {
            take_back_new(alloc, trees, versions, table, schema, bookmark, values);
            Err(VersionFault::OutOfMemory)
        }
    }
}

// The same under a bookmark that has a node, for which so many bytes are kept. Apart, since a new record has none.
#[inline(never)]
fn put_over(
    alloc: Global,
    trees: &mut TableTrees,
    versions: &mut Versions,
    by: By,
    change: &Change,
    table: TableId,
    schema: &Schema,
    bookmark: &[u8],
    values: &Record,
    row: &[u8],
    is_here: bool,
    extent: usize,
) -> Result<(), VersionFault>
    requires here { is_here ≡ is_all_here values.now }
    requires there { has_table trees.old.tables table.0 ≡ true }
    requires rules { AllByRecursion (CanTake schema.now values.now table.0 trees.old.tables) schema.now.indexes }
    requires fits { record_fits schema.now.columns values.now ≡ true }
    requires row { IsRowBytes row.now }
    requires form { IsTrue (is_row_of (row_in row.now) values.now) }
    requires may { AllByRecursion (MayTake (table_long_values trees.old.tables table.0)) (given_values (row_in row.now) values.now) }
    requires names { map (λ one. one.0) (given_values (row_in row.now) values.now) ≡ identifiers (Some (row_in row.now)) }
    requires short { length bookmark.now ≤ 255 }
    requires small { length row.now ≤ 1700 }
    requires node { extent_in (table_nodes trees.old.tables table.0) bookmark.now ≡ Some extent }
    requires newest { IfSome (row_under (table_nodes trees.old.tables table.0) bookmark.now) (IsRecordRow (table_long_values trees.old.tables table.0)) }
    requires rows { AreRows (table_long_values trees.old.tables) versions.old }
    requires keys { HasVariantKeys (option_map (record_of (table_long_values trees.old.tables table.0)) (row_under (table_nodes trees.old.tables table.0) bookmark.now)) (held_from (table_long_values trees.old.tables) 0 versions.old) schema.now table.0 bookmark.now trees.old.tables }
    requires room { has_room by change.now (row_under (table_nodes trees.old.tables table.0) bookmark.now) versions.old ≡ true }
    ensures fault { IsErrOf result fault.OverSpan → ⊥ }
    ensures put { OnOk result (IsPut table.0 bookmark.now row.now (given_values (row_in row.now) values.now) (record_keys schema.now.indexes schema.now values.now) trees.old.tables trees.new.tables) }
    ensures held { OnOk result (versions.new ≡ versions.old ++ new_change by change.now (row_under (table_nodes trees.old.tables table.0) bookmark.now) ∷ []) }
    ensures same { OnErr result (IsSame table.0 schema.now trees.old.tables trees.new.tables) }
    ensures unheld { OnErr result (versions.new ≡ versions.old) }
    ensures catalog { trees.new.catalog ≡ trees.old.catalog }
{
    nodes_after_a_change();
    nodes_by_bookmark();
    match make_room(trees, table, bookmark, extent, row.len()) {
        Ok(()) => {}
        Err(_) => return Err(VersionFault::OutOfMemory),
    }
    match put_keys(alloc, trees, table, schema, bookmark, values) {
        Ok(()) => {}
        Err(_) => {
            take_back(
                alloc, trees, versions, table, schema, bookmark, values, false,
            );
            return Err(VersionFault::OutOfMemory);
        }
    }
    match take_and_hold(
        trees, versions, by, change, table, bookmark, values, row, is_here, false,
    ) {
        Ok(()) => {
            trees.replace(table, bookmark, row);
            Ok(())
        }
        Err(_) => {
            take_back(
                alloc, trees, versions, table, schema, bookmark, values, false,
            );
            Err(VersionFault::OutOfMemory)
        }
    }
}
