//! Nodes that are written out by hand are read and written again, and others are refused.

use catalog_grammar::CatalogItem;
use catalog_record::{CatalogFault, NodeBuffer, decode};
use log_record::{column_fits, index_fits, name_fits};
use std::alloc::Global;
use std::process::Abort;
use std::test::Fail;

/// One node of each kind: a key and data.
static NODES: [(&[u8], &[u8]); 4] = [
    (b"\0\0\0\0\0\0\0", b"\x2c\x01\0\0"),
    (
        b"\x01\0\0\x01\x02\0\0",
        b"\x05\0\0\0\x06\0\0\0\x02\0\x7f\0\x01\x01\x06people",
    ),
    (b"\x02\0\0\x01\x02\x01\0", b"\x0b\x03\x04mail"),
    (
        b"\x03\0\0\x01\x02\0\x01",
        b"\x07\0\x01\0\x02\0\0\0\0\x02\x01\0\x01\x01\x01\0\x01\0\x01m",
    ),
];

/// Nodes that break one rule each: the lengths of a key, a table or an id where there is none, a kind, a byte less and
/// one more, a name without a byte and one of 65, a type, and flags of a column and of an index.
static OTHERS: [(&[u8], &[u8]); 14] = [
    (b"\0\0\0\0\0\0", b"\x2c\x01\0\0"),
    (b"\0\0\0\0\0\0\0\0", b"\x2c\x01\0\0"),
    (b"\0\0\0\0\x01\0\0", b"\x2c\x01\0\0"),
    (b"\0\0\0\0\0\0\x01", b"\x2c\x01\0\0"),
    (
        b"\x01\0\0\x01\x02\0\x01",
        b"\x05\0\0\0\x06\0\0\0\x02\0\x7f\0\x01\x01\x06people",
    ),
    (b"\x04\0\0\0\0\0\0", b"\x2c\x01\0\0"),
    (b"\0\0\0\0\0\0\0", b"\x2c\x01\0"),
    (b"\0\0\0\0\0\0\0", b"\x2c\x01\0\0\0"),
    (b"\x02\0\0\x01\x02\x01\0", b"\x0b\x03\0"),
    (
        b"\x02\0\0\x01\x02\x01\0",
        b"\x0b\x03\x41aaaaaaaaaaaaaaaaaaaaaaaaaaaaaaaaaaaaaaaaaaaaaaaaaaaaaaaaaaaaaaaaa",
    ),
    (b"\x02\0\0\x01\x02\x01\0", b"\0\x03\x04mail"),
    (b"\x02\0\0\x01\x02\x01\0", b"\x0e\x03\x04mail"),
    (b"\x02\0\0\x01\x02\x01\0", b"\x0b\x10\x04mail"),
    (
        b"\x03\0\0\x01\x02\0\x01",
        b"\x07\0\x01\0\x02\0\0\0\0\x04\x01\0\x01\x01\x01\0\x01\0\x01m",
    ),
];

/// Writes the node of an item, and says whether it can be written.
fn write(item: &CatalogItem, node: &mut NodeBuffer) -> bool {
    match item {
        CatalogItem::Greatest(greatest) => node.write_greatest(*greatest),
        CatalogItem::Table(table) => {
            if !name_fits(&table.name) {
                return false;
            }
            node.write_table(
                table.id,
                &table.name,
                &table.greatest,
                table.records,
                table.long_values,
            );
        }
        CatalogItem::Column(table, column) => {
            if !column_fits(column) {
                return false;
            }
            node.write_column(*table, column);
        }
        CatalogItem::Index(table, root, index) => {
            if !index_fits(index) {
                return false;
            }
            node.write_index(*table, *root, index);
        }
    }
    true
}

/// Reads a node and writes it again.
fn again(rt: &impl Abort, alloc: Global, key: &[u8], data: &[u8], node: &mut NodeBuffer) -> bool {
    match decode(alloc, key, data) {
        Ok(item) => {
            assert!(rt; write(&item, node));
            assert!(rt; node.key() == key);
            assert!(rt; node.data() == data);
            true
        }
        Err(_) => false,
    }
}

#[test]
fn nodes_are_read_and_written_again(rt: HostRuntime) -> Result<(), Fail> {
    let mut node = NodeBuffer::new();
    for (key, data) in NODES {
        assert!(rt; again(&rt, rt.alloc(), key, data, &mut node));
    }
    Ok(())
}

/// Whether a node is none of a catalog.
fn is_refused(alloc: Global, key: &[u8], data: &[u8]) -> bool {
    match decode(alloc, key, data) {
        Ok(_) => false,
        Err(fault) => fault == CatalogFault::BadNode,
    }
}

#[test]
fn other_nodes_are_refused(rt: HostRuntime) -> Result<(), Fail> {
    for (key, data) in OTHERS {
        assert!(rt; is_refused(rt.alloc(), key, data));
    }
    Ok(())
}
