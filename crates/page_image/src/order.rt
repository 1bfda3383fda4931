//! The order of keys, eight bytes at a time.

ghost use Rattle.std.specs.Prelude.{◌≡◌, nat_lt, true};
ghost use Rattle.std.specs.Ordering.{nat_cmp};
ghost use Rattle.std.specs.declared.cmp.Ordering.TheVariants.{Less};
ghost use Rattle.std.specs.Cmp.Lexicographic.{slice_cmp};
ghost use Rattle.byteorder.specs.Endian.{big_number};

use std::cmp::Ordering;

/// The bytes that a front has.
const FRONT_BYTES: usize = 8;

/// The front of a key: its first eight bytes as a number, the first the highest, with zeros behind a shorter key.
#[inline(always)]
pub fn front(key: &[u8]) -> u64
    ensures { result ≡ big_number 8 key.now }
{
    match key {
        [a, b, c, d, rest @ ..] => match rest {
            [] => u64::from_be_bytes([*a, *b, *c, *d, 0, 0, 0, 0]),
            [e] => u64::from_be_bytes([*a, *b, *c, *d, *e, 0, 0, 0]),
            [e, f] => u64::from_be_bytes([*a, *b, *c, *d, *e, *f, 0, 0]),
            [e, f, g] => u64::from_be_bytes([*a, *b, *c, *d, *e, *f, *g, 0]),
            [e, f, g, h, ..] => u64::from_be_bytes([*a, *b, *c, *d, *e, *f, *g, *h]),
        },
        [a, b, c] => u64::from_be_bytes([*a, *b, *c, 0, 0, 0, 0, 0]),
        [a, b] => u64::from_be_bytes([*a, *b, 0, 0, 0, 0, 0, 0]),
        [a] => u64::from_be_bytes([*a, 0, 0, 0, 0, 0, 0, 0]),
        [] => 0,
    }
}

/// Whether the fronts tell that a key is lower than another one.
#[inline(always)]
pub fn is_lower(own: &[u8], own_front: u64, key: &[u8], key_front: u64) -> bool
    requires own { own_front ≡ big_number 8 own.now }
    requires key { key_front ≡ big_number 8 key.now }
    ensures fronts { result ≡ nat_lt own_front key_front }
    ensures keys { result ≡ true → slice_cmp nat_cmp own.now key.now ≡ Less }
{
    own_front < key_front
}

/// How a key compares with another one, whose front is known. The fronts tell, where they differ.
#[inline(always)]
pub fn compare(own: &[u8], key: &[u8], key_front: u64) -> Ordering
    requires { key_front ≡ big_number 8 key.now }
    ensures { result ≡ slice_cmp nat_cmp own.now key.now }
{
    let own_front = front(own);
    if own_front < key_front {
        Ordering::Less
    } else if key_front < own_front {
        Ordering::Greater
    } else if own.len().min(key.len()) < FRONT_BYTES {
        own.len().cmp(&key.len())
    } else {
        own[FRONT_BYTES..].cmp(&key[FRONT_BYTES..])
    }
}
