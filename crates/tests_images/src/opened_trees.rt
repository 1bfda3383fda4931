//! The trees of a table, opened behind a catalog that is written out by hand.

use crate::catalogs::{Node, put_all};
use image_opening::{OpenFault, OpenedIndex, OpenedTable, TreeRoots, open_catalog, open_trees};
use page_image::Page;
use page_space::Space;
use std::alloc::Global;
use std::process::Abort;
use std::test::*;

/// The greatest number of a table, 1, and that table with a column and an index. Its records are on page 1, its long values on
/// page 2 and its index on page 3.
static CATALOG: &[Node] = &[
    (b"\0\0\0\0\0\0\0", b"\x01\0\0\0"),
    (
        b"\x01\0\0\0\x01\0\0",
        b"\x01\0\0\0\x02\0\0\0\x01\0\x7f\0\xff\0\x06people",
    ),
    (b"\x02\0\0\0\x01\0\x01", b"\x05\0\x02id"),
    (
        b"\x03\0\0\0\x01\0\x01",
        b"\x03\0\0\0\x01\0\0\0\0\0\x01\x01\0\0\0\x05by_id",
    ),
];

/// The page of the catalog and empty pages behind it, so many together.
fn space_of(rt: &impl Abort, alloc: Global, count: u32) -> Space {
    let mut pages = Vec::new(alloc);
    let mut page = Page::empty(0, 1);
    put_all(rt, &mut page, CATALOG);
    pages.push(Some(page)).expect(rt, "memory");
    for number in 1..count {
        pages
            .push(Some(Page::empty(number, 1)))
            .expect(rt, "memory");
    }
    assert!(rt; pages.len() < 10);
    Space::holding(alloc, pages).expect(rt, "memory")
}

fn has_index(indexes: &[OpenedIndex]) -> bool {
    match indexes {
        [index] => index.index.0 == 1 && index.tree.root() == 3,
        _ => false,
    }
}

/// Whether these are the trees of the table, by the root pages that its catalog names.
fn are_trees(tables: &[OpenedTable]) -> bool {
    match tables {
        [table] => table.table.0 == 1
            && (table.nodes.root(), table.long_values.root()) == (1, 2)
            && has_index(table.indexes.as_slice()),
        _ => false,
    }
}

/// Opens the trees with these roots, which are those of the table or have a fault.
fn fault_of_trees(
    rt: &impl Abort,
    alloc: Global,
    space: &Space,
    roots: &[TreeRoots],
    marks: &mut [bool],
) -> Option<OpenFault> {
    match open_trees(alloc, space, roots, marks) {
        Ok(tables) => {
            assert!(rt; are_trees(tables.as_slice()));
            None
        }
        Err(fault) => Some(fault),
    }
}

/// Opens the catalog of a space and the trees of its table, and tells what is found of them first.
fn fault_of(
    rt: &impl Abort,
    alloc: Global,
    space: &Space,
    marks: &mut [bool],
) -> Option<OpenFault> {
    match open_catalog(alloc, space, 0, marks) {
        Ok(opened) => {
            assert!(rt; opened.tree.root() == 0 && opened.catalog.len() == 1);
            fault_of_trees(rt, alloc, space, opened.roots.as_slice(), marks)
        }
        Err(fault) => Some(fault),
    }
}

#[test]
fn the_trees_that_a_catalog_names_are_opened(rt: HostRuntime) {
    let alloc = rt.alloc();
    let space = space_of(&rt, alloc, 4);
    let mut marks = [false; 4];
    assert!(&rt; fault_of(&rt, alloc, &space, &mut marks).is_none());
    assert!(&rt; marks == [true; 4]);
}

#[test]
fn a_page_that_no_tree_has_is_found(rt: HostRuntime) {
    let alloc = rt.alloc();
    let space = space_of(&rt, alloc, 6);
    let mut marks = [false; 6];
    let fault = fault_of(&rt, alloc, &space, &mut marks);
    assert!(&rt; fault == Some(OpenFault::Pages(4)));
    assert!(&rt; marks == [true, true, true, true, false, false]);
}
