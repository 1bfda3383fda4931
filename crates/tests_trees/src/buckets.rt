//! Pieces that are pushed, read and popped, and memory that fails.
ghost use Rattle.std.specs.Prelude.{◌≤◌, length};

use std::process::Abort;
use std::test::*;
use version_bucket::Buckets;

/// Bytes of which each piece is a run of its own.
fn pattern() -> [u8; 4_600] {
    let mut bytes = [0; 4_600];
    for (i, byte) in bytes.iter_mut().enumerate() {
        *byte = (i % 251) as u8;
    }
    bytes
}

/// The piece of the number: four lengths in turn, each from another byte on.
fn piece(pattern: &[u8; 4_600], number: u64) -> &[u8]
    ensures { length result.now ≤ 4096 }
{
    let start = (number % 500) as usize;
    let len = match number % 4 {
        0 => 0,
        1 => 1,
        2 => 1_700,
        _ => 4_096,
    };
    &pattern[start..start + len]
}

/// The number of the first piece, how many pieces there are, and in how many buckets.
fn counts(buckets: &Buckets) -> (u64, u64, u64) {
    (buckets.first(), buckets.len(), buckets.buckets())
}

/// Pushes a piece, and once more where memory fails: the buckets are then as before.
fn push_one(rt: &impl Abort, buckets: &mut Buckets, piece: &[u8]) -> u64
    requires { length piece.now ≤ 4096 }
{
    let before = counts(buckets);
    match buckets.push(piece) {
        Ok(number) => number,
        Err(_) => {
            assert!(rt; counts(buckets) == before);
            buckets.push(piece).expect(rt, "memory")
        }
    }
}

fn push(rt: &impl Abort, buckets: &mut Buckets, pattern: &[u8; 4_600], count: u64) {
    for _ in 0..count {
        let number = buckets.first() + buckets.len();
        assert!(rt; push_one(rt, buckets, piece(pattern, number)) == number);
    }
}

fn pop(rt: &impl Abort, buckets: &mut Buckets, count: u64) {
    for _ in 0..count {
        assert!(rt; buckets.len() > 0);
        buckets.pop_front();
    }
}

fn read_all(rt: &impl Abort, buckets: &Buckets, pattern: &[u8; 4_600]) {
    let first = buckets.first();
    for i in 0..buckets.len() {
        assert!(rt; buckets.get(first + i) == piece(pattern, first + i));
    }
}

#[test]
fn every_piece_reads_as_it_was_pushed(rt: HostRuntime) {
    let pattern = pattern();
    let mut buckets = Buckets::new(rt.alloc());
    push(&rt, &mut buckets, &pattern, 400);
    assert!(&rt; counts(&buckets) == (0, 400, 10));
    read_all(&rt, &buckets, &pattern);
    pop(&rt, &mut buckets, 200);
    assert!(&rt; buckets.first() == 200 && buckets.len() == 200);
    read_all(&rt, &buckets, &pattern);
    pop(&rt, &mut buckets, 200);
    assert!(&rt; counts(&buckets) == (400, 0, 0));
    push(&rt, &mut buckets, &pattern, 400);
    assert!(&rt; counts(&buckets) == (400, 400, 10));
    read_all(&rt, &buckets, &pattern);
}

#[test]
fn a_bucket_is_freed_with_its_last_piece(rt: HostRuntime) {
    let mut buckets = Buckets::new(rt.alloc());
    for number in 0..16 {
        assert!(&rt; push_one(&rt, &mut buckets, &[7; 4_096]) == number);
    }
    assert!(&rt; buckets.buckets() == 2);
    pop(&rt, &mut buckets, 14);
    assert!(&rt; buckets.buckets() == 2);
    pop(&rt, &mut buckets, 1);
    assert!(&rt; counts(&buckets) == (15, 1, 1));
}

fn crosses_threads<T: Send + Sync>(_: &T) {}

#[test]
fn buckets_cross_threads(rt: HostRuntime) {
    crosses_threads(&Buckets::new(rt.alloc()));
}
