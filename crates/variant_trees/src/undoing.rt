//! What an open change made is taken back.

ghost use Rattle.std.specs.Prelude.{◌≡◌, ◌<◌, ℕ, true, false, List, Some, [], map, IfSome, length, option_copied, option_map, slice_get, unwrap_or};
ghost use Rattle.database_state.specs.Table.{Table};
ghost use Rattle.table_trees.specs.StoredTables.{table_long_values, table_nodes};
ghost use Rattle.version_store.specs.HeldChanges.{HeldChange, is_rewrite};
ghost use Rattle.version_store.specs.declared.calls.ChangeKind.TheVariants as kind;
ghost use Rattle.variant_trees.specs.GoneKeys.{AreRows, KeepsValues};
ghost use Rattle.variant_trees.specs.LeftVariants.{HasSchema};
ghost use Rattle.stored_variants.specs.CountedValues.{newest_rows};
ghost use Rattle.stored_variants.specs.RecordRows.{IsRecordRow, row_under};
ghost use Rattle.variant_trees.specs.UndoneChanges.{CanPutBack, IsBack, IsUndone, WasOpen, rows_put_back, tables_put_back};
ghost use Rattle.stored_variants.specs.VersionsKept.{AreKept, AreKeptWith};
ghost use Rattle.stored_variants.specs.VersionsView.{with_newest, with_newest_by};

use crate::gone::Gone;
use crate::nodes::row_in_node;
use crate::sums::{add_in_place, opposite};
use crate::variants::take_variant;
use arrayvec::ArrayVec;
use column_set::MAX_ROW_SIZE;
use index_derive::Schema;
use jet_base::TableId;
use jet_catalog::Catalog;
use long_rows::values_keep_their_counts;
use long_value::{references_after_a_change, values_after_a_change};
use std::alloc::Global;
use table_trees::{TableTrees, nodes_after_a_change, nodes_by_bookmark, release_row};
use version_store::{ChangeKind, Versions};

/// Takes back what a change made that has become undone. Of a put or a drop the row before it is again the newest one, and of
/// the row that goes the keys go that no variant has, with the node where none is left, and then its references to long values;
/// of a sum the opposite amount is added; a lock made nothing. Want of memory does not stop it: it is slower then.
pub fn put_back(
    alloc: Global,
    catalog: &Catalog,
    trees: &mut TableTrees,
    versions: &Versions,
    table: TableId,
    place: usize,
)
    requires { (held : List HeldChange) × ((h : HeldChange) × WasOpen catalog.now.tables trees.old.tables versions.now place table.0 held h) }
    ensures back { (held : List HeldChange) (h : HeldChange) → WasOpen catalog.now.tables trees.old.tables versions.now place table.0 held h → IsBack catalog.now.tables trees.old.tables trees.new.tables versions.now h }
    ensures lock { (h : HeldChange) → slice_get versions.now place ≡ Some h → h.kind ≡ kind.Hold → trees.new.tables ≡ trees.old.tables }
    ensures catalog { trees.new.catalog ≡ trees.old.catalog }
{
    let what = versions.kind_at(place);
    if is_rewrite(what) {
        put_back_of(alloc, catalog, trees, versions, table, place);
    } else {
        take_sum_out(trees, versions, table, place, what);
    }
}

// A sum that has become undone goes from the newest record: the opposite one is made. A lock made nothing.
fn take_sum_out(
    trees: &mut TableTrees,
    versions: &Versions,
    table: TableId,
    place: usize,
    what: ChangeKind,
)
    requires within { place < length versions.now }
    requires newest { (bookmark : List ℕ) → IfSome (row_under (table_nodes trees.old.tables table.0) bookmark) (IsRecordRow (table_long_values trees.old.tables table.0)) }
    ensures back { (tables : List Table) (held : List HeldChange) (h : HeldChange) → WasOpen tables trees.old.tables versions.now place table.0 held h → h.kind ≡ what → is_rewrite h.kind ≡ false → IsBack tables trees.old.tables trees.new.tables versions.now h }
    ensures lock { what ≡ kind.Hold → trees.new.tables ≡ trees.old.tables }
    ensures catalog { trees.new.catalog ≡ trees.old.catalog }
{
    match what {
        ChangeKind::Add(column, amount) => {
            let bookmark = versions.bookmark_at(place);
            add_in_place(trees, table, bookmark, column, opposite(amount));
        }
        ChangeKind::Put => {}
        ChangeKind::Drop => {}
        ChangeKind::Hold => {}
    }
}

// Whether it sets or removes the record.
fn is_rewrite(kind: ChangeKind) -> bool
    ensures { result ≡ is_rewrite kind }
{
    match kind {
        ChangeKind::Put => true,
        ChangeKind::Drop => true,
        ChangeKind::Hold => false,
        ChangeKind::Add(_, _) => false,
    }
}

// The same of a put or a drop.
fn put_back_of(
    alloc: Global,
    catalog: &Catalog,
    trees: &mut TableTrees,
    versions: &Versions,
    table: TableId,
    place: usize,
)
    requires was { (held : List HeldChange) × ((h : HeldChange) × WasOpen catalog.now.tables trees.old.tables versions.now place table.0 held h) }
    requires rewrites { (h : HeldChange) → slice_get versions.now place ≡ Some h → is_rewrite h.kind ≡ true }
    ensures back { (held : List HeldChange) (h : HeldChange) → WasOpen catalog.now.tables trees.old.tables versions.now place table.0 held h → IsBack catalog.now.tables trees.old.tables trees.new.tables versions.now h }
    ensures catalog { trees.new.catalog ≡ trees.old.catalog }
{
    let _ = catalog.tables();
    match catalog.by_id(table) {
        Some(named) => put_back_in(alloc, trees, versions, table, named.schema(), place),
        None => {}
    }
}

// The row before a change comes back, and what is left of the newest one goes, its references to long values last. The schema is
// that of its table.
fn put_back_in(
    alloc: Global,
    trees: &mut TableTrees,
    versions: &Versions,
    table: TableId,
    schema: &Schema,
    place: usize,
)
    requires can { (h : HeldChange) × CanPutBack schema.now table.0 trees.old.tables versions.now place h }
    requires rows { AreRows (table_long_values trees.old.tables) versions.now }
    requires was { (tables : List Table) × ((held : List HeldChange) × ((h : HeldChange) × HasSchema tables table.0 schema.now × WasOpen tables trees.old.tables versions.now place table.0 held h × (is_rewrite h.kind ≡ true))) }
    ensures back { (tables : List Table) (held : List HeldChange) (h : HeldChange) → HasSchema tables table.0 schema.now → WasOpen tables trees.old.tables versions.now place table.0 held h → is_rewrite h.kind ≡ true → IsBack tables trees.old.tables trees.new.tables versions.now h }
    ensures catalog { trees.new.catalog ≡ trees.old.catalog }
{
    references_after_a_change();
    values_after_a_change();
    values_keep_their_counts();
    trees.nodes_are_in_order();
    match copied_row(trees, table, versions.bookmark_at(place)) {
        Some(newest) => {
            let row = newest.as_slice();
            put_row_back(alloc, trees, versions, table, schema, place, Some(row));
            trees.nodes_are_in_order();
            release_row(trees, table, row);
        }
        None => {
            put_row_back(alloc, trees, versions, table, schema, place, None);
            trees.nodes_are_in_order();
        }
    }
}

// The row before a change comes back, and what is left of the newest one goes. All long values stay.
fn put_row_back(
    alloc: Global,
    trees: &mut TableTrees,
    versions: &Versions,
    table: TableId,
    schema: &Schema,
    place: usize,
    newest: Option<&[u8]>,
)
    requires can { (h : HeldChange) × CanPutBack schema.now table.0 trees.old.tables versions.now place h }
    requires newest { (h : HeldChange) → slice_get versions.now place ≡ Some h → row_under (table_nodes trees.old.tables table.0) h.bookmark ≡ option_copied newest }
    requires rows { AreRows (table_long_values trees.old.tables) versions.now }
    ensures kept { (tables : List Table) (held : List HeldChange) (h : HeldChange) → HasSchema tables table.0 schema.now → IsUndone held place h versions.now → h.table ≡ table.0 → AreKept tables trees.old.tables held → AreKeptWith (table_long_values trees.old.tables) tables trees.new.tables versions.now }
    ensures shown { (tables : List Table) (h : HeldChange) → slice_get versions.now place ≡ Some h → map (with_newest_by (table_long_values trees.old.tables) trees.new.tables) tables ≡ tables_put_back (table_long_values trees.old.tables table.0) (map (with_newest trees.old.tables) tables) h }
    ensures rows { (h : HeldChange) → slice_get versions.now place ≡ Some h → (other : ℕ) → newest_rows (table_nodes trees.new.tables other) ≡ rows_put_back h table.0 other (newest_rows (table_nodes trees.old.tables other)) }
    ensures values { KeepsValues trees.old.tables trees.new.tables }
    ensures catalog { trees.new.catalog ≡ trees.old.catalog }
{
    nodes_after_a_change();
    nodes_by_bookmark();
    trees.nodes_are_in_order();
    let bookmark = versions.bookmark_at(place);
    let row = bytes_of(versions.before_at(place));
    match newest {
        Some(newest) => {
            trees.replace(table, bookmark, row);
            trees.nodes_are_in_order();
            let gone = Gone::Row(newest);
            take_variant(alloc, trees, versions, 0, table, schema, bookmark, gone);
        }
        None => {
            if !row.is_empty() {
                trees.replace(table, bookmark, row);
                trees.nodes_are_in_order();
            }
        }
    }
}

// The bytes of a row, none where there is none.
fn bytes_of(row: Option<&[u8]>) -> &[u8]
    ensures { result.now ≡ unwrap_or (option_copied row.entry) [] }
{
    match row {
        Some(bytes) => bytes,
        None => &[],
    }
}

// A copy of the newest row under a bookmark.
pub(crate) fn copied_row(
    trees: &TableTrees,
    table: TableId,
    bookmark: &[u8],
) -> Option<ArrayVec<u8, MAX_ROW_SIZE>>
    ensures { option_map (λ copy. copy.items) result ≡ row_under (table_nodes trees.now.tables table.0) bookmark.now }
{
    trees.nodes_are_in_order();
    match row_in_node(trees.get(table, bookmark)) {
        Some(row) => {
            let mut copy = ArrayVec::new();
            match copy.try_extend_from_slice(row) {
                Ok(()) => Some(copy),
                Err(_) => unreachable!(),
            }
        }
        None => None,
    }
}
