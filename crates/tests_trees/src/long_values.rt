//! Values that are put, read, shared and released.

ghost use Rattle.long_value.specs.Stores.{IsLongStore};

use long_value::{LongId, LongValues, other_long_values_stay};
use page_space::Space;
use std::alloc::Global;
use std::process::Abort;

/// The lengths of the values: the least and the greatest, and those about one chunk.
const SIZES: [usize; 6] = [256, 1_024, 1_025, 2_048, 3_000, 1_048_576];

fn id_of(number: usize) -> LongId {
    LongId {
        entry: number as u64 % 3 + 250,
        place: (number % 65_536) as u32 * 100,
    }
}

/// Bytes that differ from chunk to chunk.
fn bytes_of(alloc: Global, size: usize) -> Vec<u8> {
    let mut bytes = Vec::new(alloc);
    for i in 0..size {
        let _ = bytes.push((i % 251) as u8);
    }
    bytes
}

/// Puts a value, unless it is there, and says whether it did.
fn put(store: &mut LongValues, space: &mut Space, id: LongId, bytes: &[u8]) -> bool
    requires { IsLongStore space.old store.old }
    ensures { IsLongStore space.new store.new }
{
    if bytes.len() < 256 || bytes.len() > 1_048_576 {
        return false;
    }
    if store.has(space, id) {
        return false;
    }
    store.put(space, id, bytes).is_ok()
}

/// Adds a reference to a value that is there, and says whether it did.
fn share(store: &mut LongValues, space: &mut Space, id: LongId) -> bool
    requires { IsLongStore space.old store.old }
    ensures { IsLongStore space.new store.new }
{
    if !store.has(space, id) {
        return false;
    }
    if store.count(space, id) >= u32::MAX {
        return false;
    }
    store.share(space, id);
    true
}

/// Takes a reference to a value that is there, and says whether it did.
fn release(store: &mut LongValues, space: &mut Space, id: LongId) -> bool
    requires { IsLongStore space.old store.old }
    ensures { IsLongStore space.new store.new }
{
    if !store.has(space, id) {
        return false;
    }
    store.release(space, id);
    true
}

/// Whether a value is there with these bytes and this count, read whole and in part.
fn has_value(store: &LongValues, space: &Space, id: LongId, bytes: &[u8], count: u32) -> bool
    requires { IsLongStore space.now store.now }
{
    if !store.has(space, id) {
        return false;
    }
    let mut part = [9; 1_300];
    let read = store.read(space, id, part.as_mut_slice());
    let first = store.first_part(space, id);
    store.count(space, id) == count
        && store.length(space, id) as usize == bytes.len()
        && bytes.starts_with(first)
        && read <= 1_300
        && bytes.starts_with(&part[..read])
        && part[read..].iter().all(|byte| *byte == 9)
}

/// Whether a value is read whole as these bytes.
fn is_whole(alloc: Global, store: &LongValues, space: &Space, id: LongId, bytes: &[u8]) -> bool
    requires { IsLongStore space.now store.now }
{
    if !store.has(space, id) {
        return false;
    }
    let mut into = Vec::new(alloc);
    if into.resize(bytes.len(), 0).is_err() {
        return true;
    }
    store.read(space, id, into.as_mut_slice()) == bytes.len() && into.as_slice() == bytes
}

/// How many pages are taken.
fn taken(space: &Space) -> usize {
    (0..space.len())
        .filter(|page| space.is_taken((*page % 65_536) as u32))
        .count()
}

/// Puts a value of so many bytes, which is put once alone, and shares it.
fn put_and_share(
    rt: &impl Abort,
    alloc: Global,
    store: &mut LongValues,
    space: &mut Space,
    id: LongId,
    size: usize,
)
    requires { IsLongStore space.old store.old }
    ensures { IsLongStore space.new store.new }
{
    let bytes = bytes_of(alloc, size);
    assert!(rt; put(store, space, id, bytes.as_slice()));
    assert!(rt; !put(store, space, id, bytes.as_slice()));
    assert!(rt; share(store, space, id));
}

/// Takes one of the two references to a value of so many bytes, which is there before and afterwards.
fn release_one(
    rt: &impl Abort,
    alloc: Global,
    store: &mut LongValues,
    space: &mut Space,
    id: LongId,
    size: usize,
)
    requires { IsLongStore space.old store.old }
    ensures { IsLongStore space.new store.new }
{
    let bytes = bytes_of(alloc, size);
    assert!(rt; has_value(store, space, id, bytes.as_slice(), 2));
    assert!(rt; is_whole(alloc, store, space, id, bytes.as_slice()));
    assert!(rt; release(store, space, id));
    assert!(rt; has_value(store, space, id, bytes.as_slice(), 1));
}

#[test]
fn values_are_kept_until_their_last_release(rt: HostRuntime) {
    let mut space = Space::new(rt.alloc());
    let mut store = LongValues::new(&mut space).expect(&rt, "memory");
    other_long_values_stay();
    for (i, size) in SIZES.iter().enumerate() {
        put_and_share(&rt, rt.alloc(), &mut store, &mut space, id_of(i), *size);
    }
    for (i, size) in SIZES.iter().enumerate() {
        release_one(&rt, rt.alloc(), &mut store, &mut space, id_of(i), *size);
    }
    for i in 0..SIZES.len() {
        assert!(&rt; release(&mut store, &mut space, id_of(i)));
        assert!(&rt; !store.has(&space, id_of(i)));
    }
    assert!(&rt; !share(&mut store, &mut space, id_of(0)));
    assert!(&rt; taken(&space) == 1);
}

/// Run with each allocation failing in turn: a value that was refused is not there, and the others are.
#[test]
fn a_refused_value_leaves_the_others(rt: HostRuntime) {
    let mut space = Space::new(rt.alloc());
    let Ok(mut store) = LongValues::new(&mut space) else {
        return;
    };
    let first = bytes_of(rt.alloc(), 5_000);
    let second = bytes_of(rt.alloc(), 20_000);
    let is_first = put(&mut store, &mut space, id_of(1), first.as_slice());
    let is_second = put(&mut store, &mut space, id_of(2), second.as_slice());
    assert!(&rt; has_value(&store, &space, id_of(1), first.as_slice(), 1) == is_first);
    assert!(&rt; has_value(&store, &space, id_of(2), second.as_slice(), 1) == is_second);
    assert!(&rt; release(&mut store, &mut space, id_of(1)) == is_first);
    assert!(&rt; release(&mut store, &mut space, id_of(2)) == is_second);
    assert!(&rt; taken(&space) == 1);
}
