//! Memory that goes back to the heap. What the process has is read from the system, so these tests run on Linux alone.

use page_space::Space;
use std::alloc::Global;
use std::fs;
use std::process::Abort;
use std::rt::Files;
use std::test::*;
use version_bucket::Buckets;

/// The memory that the process has, in pages of 4,096 bytes: the first number of the line.
fn pages_of_process(rt: &(impl Files + Alloc + Abort)) -> u64 {
    let line = fs::read_to_string(rt, "/proc/self/statm").expect(rt, "a line of the system");
    let number = line.as_str().split_whitespace().next();
    number
        .and_then(|word| word.parse::<u64>().ok())
        .expect(rt, "a number")
}

/// How far a process may grow whose memory goes back: 4 MiB. The least of the uses below takes ten times as much.
const MOST_GROWTH: u64 = 1_024;

/// Two buckets, which are dropped.
fn use_buckets(rt: &impl Abort, alloc: Global) {
    let mut buckets = Buckets::new(alloc);
    for _ in 0..16 {
        let _number = buckets.push(&[7; 4_096]).expect(rt, "memory");
    }
    assert!(rt; buckets.buckets() == 2);
}

#[test]
fn dropped_buckets_go_back(rt: HostRuntime) {
    use_buckets(&rt, rt.alloc());
    let before = pages_of_process(&rt);
    for _ in 0..400 {
        use_buckets(&rt, rt.alloc());
    }
    assert!(&rt; pages_of_process(&rt).saturating_sub(before) <= MOST_GROWTH);
}

/// A piece that is pushed and popped.
fn pass_piece(rt: &impl Abort, buckets: &mut Buckets) {
    let _number = buckets.push(&[7; 4_096]).expect(rt, "memory");
    assert!(rt; buckets.len() > 0);
    buckets.pop_front();
}

#[test]
fn a_bucket_goes_back_with_its_last_piece(rt: HostRuntime) {
    let mut buckets = Buckets::new(rt.alloc());
    pass_piece(&rt, &mut buckets);
    let before = pages_of_process(&rt);
    for _ in 0..1_000 {
        pass_piece(&rt, &mut buckets);
    }
    assert!(&rt; pages_of_process(&rt).saturating_sub(before) <= MOST_GROWTH);
}

/// A space of 64 pages, which is dropped.
fn use_pages(rt: &impl Abort, alloc: Global) {
    let mut space = Space::new(alloc);
    for _ in 0..64 {
        let _page = space.take().expect(rt, "memory");
    }
    assert!(rt; space.len() == 64);
}

#[test]
fn pages_of_a_dropped_space_go_back(rt: HostRuntime) {
    use_pages(&rt, rt.alloc());
    let before = pages_of_process(&rt);
    for _ in 0..200 {
        use_pages(&rt, rt.alloc());
    }
    assert!(&rt; pages_of_process(&rt).saturating_sub(before) <= MOST_GROWTH);
}

/// A page that is taken and given back.
fn pass_page(rt: &impl Abort, space: &mut Space) {
    let page = space.take().expect(rt, "memory");
    assert!(rt; space.is_taken(page));
    space.give_back(page);
}

#[test]
fn a_page_that_is_given_back_is_taken_again(rt: HostRuntime) {
    let mut space = Space::new(rt.alloc());
    pass_page(&rt, &mut space);
    let before = pages_of_process(&rt);
    for _ in 0..10_000 {
        pass_page(&rt, &mut space);
    }
    assert!(&rt; space.len() == 1);
    assert!(&rt; pages_of_process(&rt).saturating_sub(before) <= MOST_GROWTH);
}
