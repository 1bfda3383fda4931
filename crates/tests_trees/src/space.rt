//! Pages that are taken, written, given back and taken again.

use page_space::Space;

#[test]
fn pages_are_taken_and_written(rt: HostRuntime) {
    let mut space = Space::new(rt.alloc());
    let first = space.take().expect(&rt, "memory");
    let second = space.take().expect(&rt, "memory");
    assert!(&rt; first == 0 && second == 1 && space.len() == 2);
    assert!(&rt; space.is_taken(first));
    match space.page_mut(first).insert(0, b"key", b"data", 4) {
        Ok(()) => {}
        Err(_) => assert!(&rt; false, "the page is empty"),
    }
    assert!(&rt; space.is_taken(first));
    assert!(&rt; space.page(first).len() == 1);
}

#[test]
fn a_free_page_is_taken_first(rt: HostRuntime) {
    let mut space = Space::new(rt.alloc());
    let _first = space.take().expect(&rt, "memory");
    let second = space.take().expect(&rt, "memory");
    assert!(&rt; space.is_taken(second));
    space.give_back(second);
    assert!(&rt; !space.is_taken(second) && !space.is_taken(7));
    let third = space.take().expect(&rt, "memory");
    assert!(&rt; third == 1 && space.len() == 2);
    assert!(&rt; space.is_taken(third));
    assert!(&rt; space.page(third).number() == 1 && space.page(third).len() == 0);
}

#[test]
fn all_pages_are_copied(rt: HostRuntime) {
    let mut space = Space::new(rt.alloc());
    let first = space.take().expect(&rt, "memory");
    let _second = space.take().expect(&rt, "memory");
    assert!(&rt; space.is_taken(first));
    space.give_back(first);
    let pages = space.copied(rt.alloc()).expect(&rt, "memory");
    assert!(&rt; pages.len() == 2 && pages[0].is_none());
    assert!(&rt; matches!(&pages[1], Some(page) if page.number() == 1 && page.len() == 0));
}

#[test]
fn a_space_is_made_of_its_pages(rt: HostRuntime) {
    let mut space = Space::new(rt.alloc());
    let first = space.take().expect(&rt, "memory");
    let _second = space.take().expect(&rt, "memory");
    assert!(&rt; space.is_taken(first));
    space.give_back(first);
    let pages = space.copied(rt.alloc()).expect(&rt, "memory");
    assert!(&rt; pages.len() == 2);
    let mut again = Space::holding(rt.alloc(), pages).expect(&rt, "memory");
    assert!(&rt; again.len() == 2 && !again.is_taken(0) && again.is_taken(1));
    assert!(&rt; again.page(1).number() == 1);
    let next = again.take().expect(&rt, "memory");
    assert!(&rt; next == 0 && again.len() == 2);
}
