//! Each call once, with ample memory.

ghost use Rattle.std.specs.Prelude.{◌≡◌, true, [], ◌∷◌, IfOk};
ghost use Rattle.table_trees.specs.StoredTables.{has_table};

use index_derive::Place;
use jet_base::{IndexId, OutOfMemory, TableId};
use std::alloc::Global;
use std::process::Abort;
use std::test::Fail;
use table_trees::{TableTrees, nodes_after_a_change};

const TABLE: TableId = TableId(1);

const INDEX: IndexId = IndexId(2);

/// One table with one index.
fn one_table(alloc: Global) -> Result<TableTrees, OutOfMemory>
    ensures { IfOk result (λ made. made.tables ≡ record { number = 1; nodes = []; indexes = (2, []) ∷ []; long_values = [] } ∷ []) }
{
    let mut tables = TableTrees::new(alloc);
    tables.add_table(TABLE)?;
    tables.add_index(TABLE, INDEX)?;
    Ok(tables)
}

/// Puts a node under a bookmark that has none, or says how many bytes are kept for the row that is there.
fn put(tables: &mut TableTrees, bookmark: &[u8], row: &[u8], extent: usize) -> Option<usize>
    requires { has_table tables.old.tables 1 ≡ true }
    ensures { has_table tables.new.tables 1 ≡ true }
{
    let fits = row.len() <= extent && extent <= 1_700;
    if !fits || bookmark.is_empty() || bookmark.len() > 255 {
        return None;
    }
    nodes_after_a_change();
    match tables.insert_if_absent(TABLE, bookmark, row, extent) {
        Ok(there) => there,
        Err(_) => None,
    }
}

/// Keeps another number of bytes for a row that is there, and says whether it did.
fn widen(tables: &mut TableTrees, bookmark: &[u8], extent: usize) -> bool {
    match tables.get(TABLE, bookmark) {
        Some(row) if row.len() <= extent && extent <= 1_700 => {
            tables.widen(TABLE, bookmark, extent).is_ok()
        }
        _ => false,
    }
}

/// Puts another row under a bookmark that has a node with room for it, and says whether it did.
fn replace(tables: &mut TableTrees, bookmark: &[u8], row: &[u8]) -> bool {
    match tables.extent(TABLE, bookmark) {
        Some(extent) if row.len() <= extent => {
            tables.replace(TABLE, bookmark, row);
            true
        }
        _ => false,
    }
}

/// Takes out a node that is there, and says whether it did.
fn remove(tables: &mut TableTrees, bookmark: &[u8]) -> bool {
    match tables.get(TABLE, bookmark) {
        Some(_) => {
            tables.remove(TABLE, bookmark);
            true
        }
        None => false,
    }
}

/// Takes out an entry that is there, and says whether it did.
fn remove_entry(tables: &mut TableTrees, key: &[u8], bookmark: &[u8]) -> bool {
    if key.len() > 255 || bookmark.len() > 255 {
        return false;
    }
    if !tables.has_entry(TABLE, INDEX, key, bookmark) {
        return false;
    }
    tables.remove_entry(TABLE, INDEX, key, bookmark);
    true
}

/// Compares the one node that there is.
fn compare(rt: &impl Abort, tables: &TableTrees, bookmark: &[u8], row: &[u8]) {
    let found = Some((bookmark, row));
    assert!(rt; tables.node_after(TABLE, &Place::Before) == found);
    assert!(rt; tables.node_before(TABLE, &Place::After) == found);
    assert!(rt; tables.node_after(TABLE, &Place::After).is_none());
    assert!(rt; tables.node_before(TABLE, &Place::Before).is_none());
}

#[test]
fn nodes_come_change_and_go(rt: HostRuntime) -> Result<(), Fail> {
    let mut tables = one_table(rt.alloc())?;
    tables.insert(TABLE, b"a", b"row", 4)?;
    compare(&rt, &tables, b"a", b"row");
    assert!(&rt; !replace(&mut tables, b"a", b"longer"));
    assert!(&rt; widen(&mut tables, b"a", 8));
    assert!(&rt; replace(&mut tables, b"a", b"longer"));
    compare(&rt, &tables, b"a", b"longer");
    assert!(&rt; remove(&mut tables, b"a"));
    assert!(&rt; !remove(&mut tables, b"a"));
    Ok(())
}

#[test]
fn what_is_there_is_not_put_again(rt: HostRuntime) -> Result<(), Fail> {
    let mut tables = one_table(rt.alloc())?;
    assert!(&rt; put(&mut tables, b"a", b"row", 4).is_none());
    assert!(&rt; put(&mut tables, b"a", b"other", 8) == Some(4));
    compare(&rt, &tables, b"a", b"row");
    Ok(())
}

#[test]
fn an_entry_that_is_absent_is_put(rt: HostRuntime) -> Result<(), Fail> {
    let mut tables = one_table(rt.alloc())?;
    let is_new = tables.insert_entry_if_absent(TABLE, INDEX, b"key", b"a")?;
    assert!(&rt; is_new && tables.has_key(TABLE, INDEX, b"key"));
    Ok(())
}

#[test]
fn entries_come_and_go(rt: HostRuntime) -> Result<(), Fail> {
    let mut tables = one_table(rt.alloc())?;
    tables.insert_entry(TABLE, INDEX, b"key", b"a")?;
    assert!(&rt; tables.has_key(TABLE, INDEX, b"key"));
    assert!(&rt; !tables.has_key(TABLE, INDEX, b"ke"));
    assert!(&rt; tables.entry_after(TABLE, INDEX, &Place::Before).is_some());
    assert!(&rt; tables.entry_before(TABLE, INDEX, &Place::After).is_some());
    assert!(&rt; remove_entry(&mut tables, b"key", b"a"));
    assert!(&rt; !remove_entry(&mut tables, b"key", b"a"));
    assert!(&rt; tables.has_index(TABLE, INDEX));
    tables.remove_index(TABLE, INDEX);
    assert!(&rt; !tables.has_index(TABLE, INDEX));
    Ok(())
}

#[test]
fn a_table_goes_with_its_index(rt: HostRuntime) -> Result<(), Fail> {
    let mut tables = one_table(rt.alloc())?;
    assert!(&rt; tables.has_index(TABLE, INDEX));
    tables.remove_table(TABLE);
    assert!(&rt; !tables.has_index(TABLE, INDEX));
    Ok(())
}
