//! The catalog of an image that is written out by hand, page by page: it is told, or what is found first.

use image_opening::{OpenFault, ToldCatalog, ToldTable, open_told, unmarked_page};
use page_image::Page;
use page_space::Space;
use std::alloc::Global;
use std::process::Abort;
use std::test::*;

/// A node: a key and its data.
pub(crate) type Node = (&'static [u8], &'static [u8]);

/// The root has two leaves, the second of which begins with the columns.
static ROOT: &[Node] = &[(b"", b"\x01\0\0\0"), (b"\x02", b"\x02\0\0\0")];

/// The greatest number of a table, 300, and a table.
static FIRST: &[Node] = &[
    (b"\0\0\0\0\0\0\0", b"\x2c\x01\0\0"),
    (
        b"\x01\0\0\x01\x02\0\0",
        b"\x05\0\0\0\x06\0\0\0\x02\0\x7f\0\x01\x01\x06people",
    ),
];

/// A column and an index of the table.
static SECOND: &[Node] = &[
    (b"\x02\0\0\x01\x02\x01\0", b"\x0b\x03\x04mail"),
    (
        b"\x03\0\0\x01\x02\0\x01",
        b"\x07\0\x01\0\x02\0\0\0\0\x02\x01\0\x01\x01\x01\0\x01\0\x01m",
    ),
];

/// A child that is past the last page.
static NO_CHILD: &[Node] = &[(b"", b"\x01\0\0\0"), (b"\x02", b"\x07\0\0\0")];

/// A child of three bytes.
static SHORT_CHILD: &[Node] = &[(b"", b"\x01\0\0\0"), (b"\x02", b"\x02\0\0")];

/// A bound that is above what stands below it.
static HIGH_BOUND: &[Node] = &[(b"", b"\x01\0\0\0"), (b"\x03", b"\x02\0\0\0")];

/// The first leaf in two places.
static TWICE: &[Node] = &[(b"", b"\x01\0\0\0"), (b"\x02", b"\x01\0\0\0")];

/// A column without a name.
static NO_NAME: &[Node] = &[(b"\x02\0\0\x01\x02\x01\0", b"\x0b\x03\0")];

/// A column of a table that is not there.
static NO_TABLE: &[Node] = &[(b"\x02\0\0\x01\x03\x01\0", b"\x0b\x03\x04mail")];

/// Puts a node in its place on a page.
fn put(rt: &impl Abort, page: &mut Page, key: &[u8], data: &[u8]) {
    match page.find(key) {
        Err(place) => assert!(rt; page.insert(place, key, data, data.len()).is_ok()),
        Ok(_) => assert!(rt; false, "a key of its own"),
    }
}

/// Puts nodes in their places on a page.
pub(crate) fn put_all(rt: &impl Abort, page: &mut Page, nodes: &[Node]) {
    for (key, data) in nodes {
        put(rt, page, key, data);
    }
}

/// An inner page with the number 0 and two leaves.
fn space_of(
    rt: &impl Abort,
    alloc: Global,
    root: &[Node],
    first: &[Node],
    second: &[Node],
) -> Space {
    let mut pages = Vec::with_capacity(alloc, 3).expect(rt, "memory");
    let mut page = Page::empty(0, 2);
    put_all(rt, &mut page, root);
    pages.push(Some(page)).expect(rt, "memory");
    let mut page = Page::empty(1, 1);
    put_all(rt, &mut page, first);
    pages.push(Some(page)).expect(rt, "memory");
    let mut page = Page::empty(2, 1);
    put_all(rt, &mut page, second);
    pages.push(Some(page)).expect(rt, "memory");
    assert!(rt; pages.len() == 3);
    Space::holding(alloc, pages).expect(rt, "memory")
}

fn is_people(table: &ToldTable) -> bool {
    let told = &table.table;
    told.id.0 == 258
        && told.name.as_bytes() == b"people".as_slice()
        && (told.records, told.long_values) == (5, 6)
        && (told.greatest.fixed, told.greatest.tagged) == (2, 257)
}

fn has_mail(table: &ToldTable) -> bool {
    match table.columns.as_slice() {
        [column] => column.id.0 == 256
            && column.name.as_bytes() == b"mail".as_slice()
            && column.tagged,
        _ => false,
    }
}

fn has_index(table: &ToldTable) -> bool {
    match table.indexes.as_slice() {
        [(root, index)] => *root == 65_543
            && index.id.0 == 1
            && index.name.as_bytes() == b"m".as_slice(),
        _ => false,
    }
}

fn is_told(catalog: &ToldCatalog) -> bool {
    match catalog.tables.as_slice() {
        [table] => {
            catalog.greatest == 300 && is_people(table) && has_mail(table) && has_index(table)
        }
        _ => false,
    }
}

#[test]
fn a_catalog_of_three_pages_is_told(rt: HostRuntime) {
    let alloc = rt.alloc();
    let space = space_of(&rt, alloc, ROOT, FIRST, SECOND);
    let mut marks = [false; 3];
    assert!(&rt; unmarked_page(&space, &marks) == Some(0));
    match open_told(alloc, &space, 0, &mut marks) {
        Ok((_, told)) => assert!(&rt; is_told(&told)),
        Err(_) => assert!(&rt; false, "a catalog"),
    }
    assert!(&rt; marks == [true; 3]);
    assert!(&rt; unmarked_page(&space, &marks).is_none());
}

/// What is found first of a catalog of these pages, over marks.
fn fault_over(
    rt: &impl Abort,
    alloc: Global,
    root: &[Node],
    second: &[Node],
    marks: &mut [bool],
) -> Option<OpenFault> {
    let space = space_of(rt, alloc, root, FIRST, second);
    open_told(alloc, &space, 0, marks).err()
}

fn fault_of(rt: &impl Abort, alloc: Global, root: &[Node], second: &[Node]) -> Option<OpenFault> {
    fault_over(rt, alloc, root, second, &mut [false; 3])
}

#[test]
fn a_page_that_is_marked_is_found(rt: HostRuntime) {
    let alloc = rt.alloc();
    for marked in 0..3u32 {
        let mut marks = [marked == 0, marked == 1, marked == 2];
        let fault = fault_over(&rt, alloc, ROOT, SECOND, &mut marks);
        assert!(&rt; fault == Some(OpenFault::Pages(marked)));
    }
    assert!(&rt; fault_of(&rt, alloc, TWICE, SECOND) == Some(OpenFault::Pages(1)));
}

#[test]
fn a_broken_inner_page_is_found(rt: HostRuntime) {
    let alloc = rt.alloc();
    assert!(&rt; fault_of(&rt, alloc, NO_CHILD, SECOND) == Some(OpenFault::Tree(0, 7)));
    assert!(&rt; fault_of(&rt, alloc, SHORT_CHILD, SECOND) == Some(OpenFault::Tree(0, 0)));
    assert!(&rt; fault_of(&rt, alloc, HIGH_BOUND, SECOND) == Some(OpenFault::Tree(0, 0)));
}

#[test]
fn nodes_that_tell_no_catalog_are_found(rt: HostRuntime) {
    let alloc = rt.alloc();
    assert!(&rt; fault_of(&rt, alloc, ROOT, NO_NAME) == Some(OpenFault::Catalog));
    assert!(&rt; fault_of(&rt, alloc, ROOT, NO_TABLE) == Some(OpenFault::Catalog));
}
