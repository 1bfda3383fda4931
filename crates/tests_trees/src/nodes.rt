//! A full page with three nodes of some 1,256 bytes.

ghost use Rattle.std.specs.Prelude.{◌≤◌, IsTrue, All};
ghost use Rattle.page_image.specs.Page.{node_size};

use btree_node::{child, split_at};
use page_image::{INNER, Page};
use std::process::Abort;
use std::test::*;

fn put(rt: &impl Abort, page: &mut Page, key: &[u8]) {
    if key.len() > 755 {
        return;
    }
    match page.find(key) {
        Ok(_) => assert!(rt; false, "the key is there"),
        Err(place) => assert!(rt; page.insert(place, key, b"1234", 1250).is_ok()),
    }
}

/// A page with the keys "", "b" and "d".
fn three_nodes(rt: &impl Abort) -> Page {
    let mut page = Page::empty(0, INNER);
    put(rt, &mut page, b"");
    put(rt, &mut page, b"b");
    put(rt, &mut page, b"d");
    page
}

#[test]
fn keys_belong_to_children(rt: HostRuntime) {
    let page = three_nodes(&rt);
    assert!(&rt; page.len() == 3 && page.key(0).is_empty());
    assert!(&rt; child(&page, b"a") == 0);
    assert!(&rt; child(&page, b"b") == 1);
    assert!(&rt; child(&page, b"c") == 1);
    assert!(&rt; child(&page, b"e") == 2);
}

#[test]
fn a_full_page_is_cut(rt: HostRuntime) {
    let page = three_nodes(&rt);
    assert!(&rt; page.used() == 3802 && page.len() == 3 && all_small(&page));
    assert!(&rt; split_at(&page, 3, 300) == 2);
    assert!(&rt; split_at(&page, 1, 300) == 2);
}

// Whether each node is as small as a tree wants it.
fn all_small(page: &Page) -> bool
    ensures { IsTrue result → All (λ n. node_size n ≤ 2032) page.now.nodes }
{
    for i in 0..page.len() {
        if page.key(i).len() > 755 || page.extent(i) > 1271 {
            return false;
        }
    }
    true
}
