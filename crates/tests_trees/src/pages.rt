//! Pages against bytes and counts that were worked out by hand.

use page_image::{LEAF, Page};
use std::process::Abort;
use std::test::*;

/// Whether a node of 4 bytes and extent 100 gets into the page under the key.
fn goes_in(page: &mut Page, key: &[u8; 5]) -> bool {
    match page.find(key) {
        Ok(_) => false,
        Err(place) => page.insert(place, key, b"data", 100).is_ok(),
    }
}

#[test]
fn thirty_six_nodes_fit(rt: HostRuntime) {
    let mut page = Page::empty(0, LEAF);
    for i in 0..36u8 {
        assert!(rt; goes_in(&mut page, &[0, 0, 0, 0, i]), "node {i}");
    }
    assert!(rt; page.used() == 4028);
    assert!(rt; !goes_in(&mut page, &[0, 0, 0, 0, 36]));
    assert!(rt; page.len() == 36);
}

/// The bytes of page 7, a leaf with the node "ab": "xyz" of extent 5.
fn spelled() -> [u8; 4096] {
    let mut bytes = [0; 4096];
    let head = [
        0x7d, 0x79, 0x79, 0, 4, 0, 0x60, 0x62, 7, 0, 0, 0, 1, 0, 1, 0,
    ];
    let node = [2, 0, 3, 0, 5, 0, 0x61, 0x62, 0x78, 0x79, 0x7a];
    bytes[..16].copy_from_slice(&head);
    bytes[32..43].copy_from_slice(&node);
    bytes
}

#[test]
fn a_page_is_spelled_so(rt: HostRuntime) {
    let mut page = Page::empty(7, LEAF);
    match page.find(b"ab") {
        Ok(_) => assert!(rt; false),
        Err(place) => assert!(rt; page.insert(place, b"ab", b"xyz", 5).is_ok()),
    }
    assert!(rt; page.bytes() == spelled());
}

#[test]
fn a_page_is_read_from_its_bytes(rt: HostRuntime) {
    match Page::check(spelled()) {
        Ok(read) => {
            assert!(rt; read.number() == 7 && read.kind() == 1 && read.len() == 1);
        }
        Err(_) => assert!(rt; false, "the bytes are a page"),
    }
}

/// Whether the bytes are no page where one of them has another lowest bit.
fn is_refused_with(place: usize) -> bool {
    let mut other = spelled();
    if let Some(byte) = other.get_mut(place) {
        *byte ^= 1;
    }
    Page::check(other).is_err()
}

#[test]
fn other_bytes_are_no_page(rt: HostRuntime) {
    for place in [0, 8, 12, 13, 14, 16, 34, 37, 43, 45, 4095] {
        assert!(rt; is_refused_with(place), "byte {place}");
    }
}

fn put(rt: &impl Abort, page: &mut Page, key: &[u8; 1]) {
    match page.find(key) {
        Ok(_) => assert!(rt; false),
        Err(place) => assert!(rt; page.insert(place, key, b"12", 4).is_ok()),
    }
}

/// A leaf with the keys "a", "b" and "c", each with "12" of extent 4.
fn three_nodes(rt: &impl Abort) -> Page {
    let mut page = Page::empty(1, LEAF);
    put(rt, &mut page, b"a");
    put(rt, &mut page, b"b");
    put(rt, &mut page, b"c");
    page
}

#[test]
fn nodes_change_in_place(rt: HostRuntime) {
    let mut page = three_nodes(&rt);
    match page.find(b"b") {
        Ok(1) => {
            assert!(&rt; page.extent(1) == 4);
            page.replace(1, b"3456");
            assert!(&rt; page.data(1) == b"3456".as_slice());
            assert!(&rt; page.set_extent(1, 9).is_ok());
            assert!(&rt; page.extent(1) == 9);
            assert!(&rt; page.set_extent(1, 4100).is_err());
        }
        _ => assert!(&rt; false),
    }
}

#[test]
fn nodes_move_to_another_page(rt: HostRuntime) {
    let mut page = three_nodes(&rt);
    let mut other = Page::empty(2, LEAF);
    assert!(&rt; page.len() == 3);
    page.move_tail(1, &mut other);
    assert!(&rt; page.len() == 1 && other.len() == 2);
    assert!(&rt; other.key(0) == b"b".as_slice() && other.key(1) == b"c".as_slice());
    assert!(&rt; other.data(1) == b"12".as_slice());
}

#[test]
fn a_copy_stays_as_its_page_changes(rt: HostRuntime) {
    let mut page = three_nodes(&rt);
    let copy = page.copy();
    assert!(&rt; page.len() == 3);
    page.remove(0);
    assert!(&rt; page.len() == 2 && copy.len() == 3);
    assert!(&rt; copy.number() == 1 && copy.kind() == LEAF);
    assert!(&rt; copy.key(0) == b"a".as_slice() && copy.data(0) == b"12".as_slice());
}

#[test]
fn a_node_is_taken_out(rt: HostRuntime) {
    let mut page = three_nodes(&rt);
    assert!(&rt; page.len() == 3);
    page.remove(0);
    assert!(&rt; page.len() == 2 && page.key(0) == b"b".as_slice());
    assert!(&rt; page.used() == 54);
}
