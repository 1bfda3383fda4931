//! Long values that are put, read, shared and released among the other trees of the space.

ghost use Rattle.std.specs.Prelude.{◌≡◌, ℕ, true, [], ◌∷◌, IfOk};
ghost use Rattle.table_trees.specs.StoredTables.{has_table, new_table};

use index_derive::Place;
use jet_base::{OutOfMemory, TableId};
use long_value::LongId;
use std::alloc::Global;
use std::process::Abort;
use std::test::Fail;
use table_trees::{
    TableTrees, long_values_after_a_change, nodes_after_a_change, tables_without_one,
};

const TABLE: TableId = TableId(1);

const OTHER: TableId = TableId(2);

const ID: LongId = LongId {
    entry: 7,
    place: 65_536,
};

/// Two tables with nothing in them.
fn empty_tables(alloc: Global) -> Result<TableTrees, OutOfMemory>
    ensures { IfOk result (λ made. made.tables ≡ new_table 1 ∷ new_table 2 ∷ []) }
{
    let mut tables = TableTrees::new(alloc);
    tables.add_table(TABLE)?;
    tables.add_table(OTHER)?;
    Ok(tables)
}

/// Two tables, of which the first has a node.
fn two_tables(alloc: Global) -> Result<TableTrees, OutOfMemory>
    ensures { IfOk result (λ made. (has_table made.tables 1 ≡ true) × (has_table made.tables 2 ≡ true)) }
{
    nodes_after_a_change();
    let mut tables = empty_tables(alloc)?;
    tables.insert(TABLE, b"a", b"row", 4)?;
    Ok(tables)
}

/// Takes out a table with its values and adds one of its number, and says whether it did and the values were gone.
fn make_anew(tables: &mut TableTrees, table: TableId) -> bool
    requires { has_table tables.old.tables table.0 ≡ true }
{
    tables_without_one();
    tables.remove_table(table);
    let is_gone = !tables.has_long(table, ID);
    tables.add_table(table).is_ok() && is_gone
}

/// Bytes that differ from chunk to chunk.
fn bytes_of(alloc: Global, size: usize) -> Vec<u8> {
    let mut bytes = Vec::new(alloc);
    for i in 0..size {
        let _ = bytes.push((i % 251) as u8);
    }
    bytes
}

/// Puts a value, unless it is there, and says whether it did.
fn put(tables: &mut TableTrees, table: TableId, bytes: &[u8]) -> bool
    requires { has_table tables.old.tables table.0 ≡ true }
    ensures { (other : ℕ) → has_table tables.old.tables other ≡ true → has_table tables.new.tables other ≡ true }
{
    if bytes.len() < 256 || bytes.len() > 1_048_576 {
        return false;
    }
    long_values_after_a_change();
    if tables.has_long(table, ID) {
        return false;
    }
    match tables.put_long(table, ID, bytes) {
        Ok(()) => true,
        Err(_) => false,
    }
}

/// Adds a reference to a value that is there, and says whether it did.
fn share(tables: &mut TableTrees, table: TableId) -> bool {
    if !tables.has_long(table, ID) {
        return false;
    }
    if tables.long_count(table, ID) >= u32::MAX {
        return false;
    }
    tables.share_long(table, ID);
    true
}

/// Takes a reference to a value that is there, and says whether it did.
fn release(tables: &mut TableTrees, table: TableId) -> bool {
    if !tables.has_long(table, ID) {
        return false;
    }
    tables.release_long(table, ID);
    true
}

/// Whether a value is there with this count, length and first part.
fn has_value(tables: &TableTrees, table: TableId, bytes: &[u8], count: u32) -> bool {
    if !tables.has_long(table, ID) {
        return false;
    }
    let first = if bytes.len() < 1_024 {
        bytes
    } else {
        &bytes[..1_024]
    };
    tables.long_count(table, ID) == count && tables.first_part(table, ID) == first
}

/// Whether the first bytes of a value, as many as there is room for, are the first of these.
fn reads(tables: &TableTrees, table: TableId, into: &mut [u8], bytes: &[u8]) -> bool {
    if !tables.has_long(table, ID) {
        return false;
    }
    let read = tables.read_long(table, ID, into);
    read <= into.len() && read <= bytes.len() && into[..read] == bytes[..read]
}

/// Compares the one node that there is.
fn compare_node(rt: &impl Abort, tables: &TableTrees) {
    let row: &[u8] = b"row";
    assert!(rt; tables.get(TABLE, b"a") == Some(row));
    assert!(rt; tables.node_after(OTHER, &Place::Before).is_none());
}

#[test]
fn values_come_are_shared_and_go(rt: HostRuntime) -> Result<(), Fail> {
    let mut tables = two_tables(rt.alloc())?;
    let bytes = bytes_of(rt.alloc(), 3_000);
    let short = bytes_of(rt.alloc(), 256);
    assert!(&rt; put(&mut tables, TABLE, bytes.as_slice()));
    assert!(&rt; !put(&mut tables, TABLE, short.as_slice()));
    assert!(&rt; put(&mut tables, OTHER, short.as_slice()));
    assert!(&rt; share(&mut tables, TABLE));
    assert!(&rt; has_value(&tables, TABLE, bytes.as_slice(), 2));
    assert!(&rt; has_value(&tables, OTHER, short.as_slice(), 1));
    assert!(&rt; release(&mut tables, TABLE));
    assert!(&rt; has_value(&tables, TABLE, bytes.as_slice(), 1));
    assert!(&rt; release(&mut tables, TABLE));
    assert!(&rt; !release(&mut tables, TABLE));
    assert!(&rt; has_value(&tables, OTHER, short.as_slice(), 1));
    compare_node(&rt, &tables);
    Ok(())
}

#[test]
fn values_are_read_whole_and_in_part(rt: HostRuntime) -> Result<(), Fail> {
    let mut tables = two_tables(rt.alloc())?;
    let bytes = bytes_of(rt.alloc(), 3_000);
    let mut room = bytes_of(rt.alloc(), 2_000);
    let mut more = bytes_of(rt.alloc(), 4_000);
    assert!(&rt; put(&mut tables, OTHER, bytes.as_slice()));
    assert!(&rt; reads(&tables, OTHER, room.as_mut_slice(), bytes.as_slice()));
    assert!(&rt; reads(&tables, OTHER, more.as_mut_slice(), bytes.as_slice()));
    assert!(&rt; !reads(&tables, TABLE, more.as_mut_slice(), bytes.as_slice()));
    Ok(())
}

#[test]
fn a_table_goes_with_its_values(rt: HostRuntime) -> Result<(), Fail> {
    let mut tables = two_tables(rt.alloc())?;
    let bytes = bytes_of(rt.alloc(), 1_025);
    assert!(&rt; put(&mut tables, TABLE, bytes.as_slice()));
    assert!(&rt; put(&mut tables, OTHER, bytes.as_slice()));
    assert!(&rt; make_anew(&mut tables, OTHER));
    assert!(&rt; !tables.has_long(OTHER, ID));
    assert!(&rt; has_value(&tables, TABLE, bytes.as_slice(), 1));
    compare_node(&rt, &tables);
    Ok(())
}
