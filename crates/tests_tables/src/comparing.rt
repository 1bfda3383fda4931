//! The tables under test beside their model: the count of each long value, and what each session reads.

use crate::model::{Model, Named, Transaction};
use crate::tables::{COLUMN, TABLE, bookmark_of};
use crate::values::{LONGEST, begins_with, size_of};
use column_set::Values;
use jet_base::Session;
use long_value::LongId;
use std::alloc::Global;
use std::process::Abort;
use table_trees::{ShownRow, TableTrees};
use table_versions::{StoreParts, TableVersions};
use version_store::Reader;

/// The keys of these tests are below this one.
pub const KEYS: u8 = 3;

/// How many bytes of a long value are read in place.
const FIRST_BYTES: usize = 1_024;

/// How many references a long value has, 0 where it is not there.
fn count_of(trees: &TableTrees, entry: u64, place: u32) -> u32 {
    let id = LongId { entry, place };
    if !trees.has_long(TABLE, id) {
        return 0;
    }
    trees.long_count(TABLE, id)
}

/// Compares the counts of the values that an entry could make: a record has one value, so that its place is 0.
fn compare_entry(rt: &impl Abort, trees: &TableTrees, model: &Model, entry: u64) {
    let count = if entry == 0 { 0 } else { model.count(entry) };
    assert!(rt; count_of(trees, entry, 0) == count);
    assert!(rt; count_of(trees, entry, 1) == 0);
}

/// Compares the counts of the values of all entries, and of one that is to come.
fn compare_counts(rt: &impl Abort, trees: &TableTrees, model: &Model) {
    for entry in 0..model.number.saturating_add(2) {
        compare_entry(rt, trees, model, entry);
    }
}

/// Whether a record has this value: whole where it is read, and its first bytes in place.
fn has_value(row: &ShownRow<'_>, room: &mut [u8], fill: u8) -> bool {
    let front = match row.value(COLUMN, 0) {
        Some(front) => { front.len() == size_of(fill).min(FIRST_BYTES) && begins_with(fill, front) }
        None => false,
    };
    match row.read(COLUMN, 0, room) {
        Some((read, size)) => {
            read <= room.len()
                && begins_with(fill, &room[..read])
                && read == size_of(fill)
                && size == read
                && front
        }
        None => false,
    }
}

/// Whether this is the record of a row of the model: with its value, or none.
fn is_row(found: Option<ShownRow<'_>>, room: &mut [u8], named: Option<Named>) -> bool {
    match found {
        Some(row) => match named {
            Some(named) => has_value(&row, room, named.fill),
            None => false,
        },
        None => named.is_none(),
    }
}

/// Compares the newest record under a key.
fn compare_newest(
    rt: &impl Abort,
    tables: &TableVersions,
    model: &Model,
    key: u8,
    bookmark: &[u8],
    room: &mut [u8],
) {
    let found = tables.newest(TABLE, bookmark);
    assert!(rt; is_row(found, room, model.newest(key)));
}

/// Compares what a session in a transaction reads under a key.
fn compare_seen(
    rt: &impl Abort,
    tables: &TableVersions,
    model: &Model,
    transaction: Transaction,
    key: u8,
    bookmark: &[u8],
    room: &mut [u8],
) {
    let reader = Reader {
        session: Session(transaction.session),
        begin: Some(transaction.begin),
    };
    let found = tables.look_up(TABLE, bookmark, reader);
    let named = model.seen(key, transaction.session, transaction.begin);
    assert!(rt; is_row(found, room, named));
}

/// Compares what stands under a key, and what each session in a transaction reads there.
fn compare_key(rt: &impl Abort, alloc: Global, tables: &TableVersions, model: &Model, key: u8) {
    let bookmark = bookmark_of(rt, alloc, key);
    let mut room = vec![in alloc; 0u8; LONGEST].expect(rt, "memory");
    compare_newest(rt, tables, model, key, bookmark.as_bytes(), &mut room);
    for transaction in model.transactions() {
        compare_seen(
            rt,
            tables,
            model,
            *transaction,
            key,
            bookmark.as_bytes(),
            &mut room,
        );
    }
}

/// The trees of the tables.
fn trees_of(tables: &TableVersions) -> &TableTrees {
    let StoreParts {
        catalog: _,
        trees,
        versions: _,
        newest_put: _,
    } = tables.parts();
    trees
}

/// How many pages the trees have, and how many of them are taken.
pub fn pages_of(tables: &TableVersions) -> (usize, usize) {
    let space = trees_of(tables).space().space;
    let taken = (0..space.len())
        .filter(|page| space.is_taken(*page as u32))
        .count();
    (space.len(), taken)
}

/// Compares all of it.
pub fn compare(rt: &impl Abort, alloc: Global, tables: &TableVersions, model: &Model) {
    assert!(rt; tables.held() == model.held());
    compare_counts(rt, trees_of(tables), model);
    for key in 0..KEYS {
        compare_key(rt, alloc, tables, model, key);
    }
}
