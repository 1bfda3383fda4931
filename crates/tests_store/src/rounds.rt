//! Three rounds, each of which writes an image and flushes bytes behind it: its pages change, come and are freed.

ghost use Rattle.std.specs.Prelude.{◌≤◌, ◌<◌, ◌+◌, ◌^◌, length, IfOk};
ghost use Rattle.store_core.specs.Store.{store_end, store_standing};

use crate::image_of;
use checkpoint::{Found, Image};
use jet_volume::MemVolume;
use std::alloc::{AllocError, Global};
use store_core::Store;

/// How many calls of a store the rounds make: two each.
pub const ALL: u64 = 6;

/// The kinds of the pages after a round, 0 for a free one. From the first round to the second the first page stays, the
/// second changes, and one more comes; then the first changes, the second is freed, the third stays, and one more comes.
fn kinds_in(round: u64) -> &'static [u8]
    ensures { length result.now ≤ 4 }
{
    match round {
        1 => &[1, 2],
        2 => &[1, 1, 1],
        _ => &[2, 0, 1, 2],
    }
}

/// The bytes that a round flushes.
fn bytes_in(round: u64) -> &'static [u8]
    ensures some { 1 ≤ length result.now }
    ensures few { length result.now ≤ 5 }
{
    match round {
        1 => &[11],
        2 => &[21, 22],
        _ => &[31, 32, 33, 34, 35],
    }
}

/// Writes the image of a round and flushes its bytes, up to the first refusal. Answers how many of the two were
/// acknowledged.
fn put_round(alloc: Global, store: &mut Store<MemVolume>, round: u64) -> Result<u64, AllocError>
    requires number { (store_standing store.old).number < 2 ^ 62 + 4 }
    requires generation { (store_end store.old).generation < 2 ^ 62 + 2 ^ 25 }
    requires position { (store_end store.old).position < 2 ^ 62 + 2 ^ 25 }
    ensures few { IfOk result (λ acknowledged. acknowledged ≤ 2) }
    ensures number { (store_standing store.new).number ≤ (store_standing store.old).number + 1 }
    ensures generation { (store_end store.new).generation ≤ (store_end store.old).generation + 1 }
    ensures position { (store_end store.new).position ≤ (store_end store.old).position + 5 }
{
    let mut image = image_of(alloc, round, kinds_in(round))?;
    if store.checkpoint(&mut image).is_err() {
        return Ok(0);
    }
    match store.flush(bytes_in(round)) {
        Ok(()) => Ok(2),
        Err(_) => Ok(1),
    }
}

/// Goes through the three rounds, up to the first refusal. Answers how many of their calls were acknowledged.
pub fn put_rounds(alloc: Global, store: &mut Store<MemVolume>) -> Result<u64, AllocError>
    requires number { (store_standing store.old).number < 2 ^ 62 }
    requires generation { (store_end store.old).generation < 2 ^ 62 + 2 ^ 24 }
    requires position { (store_end store.old).position < 2 ^ 62 + 2 ^ 24 }
{
    let first = put_round(alloc, store, 1)?;
    if first < 2 {
        return Ok(first);
    }
    let second = put_round(alloc, store, 2)?;
    if second < 2 {
        return Ok(2 + second);
    }
    let third = put_round(alloc, store, 3)?;
    Ok(4 + third)
}

/// Whether an image has the pages of a round, and no others.
fn has_pages_in(image: &Image, round: u64) -> bool {
    let kinds = kinds_in(round);
    if image.pages.len() != kinds.len() {
        return false;
    }
    for number in 0..kinds.len() {
        if kind_at(image, number) != kinds[number] {
            return false;
        }
    }
    true
}

/// The kind of a page of an image, 0 where there is none.
fn kind_at(image: &Image, number: usize) -> u8 {
    match image.pages.get(number) {
        Some(Some(page)) => page.kind(),
        _ => 0,
    }
}

/// After how many of the calls the rounds were in this state, `None` where they are in none like it.
pub fn calls_before(found: &Found, number: u64, bytes: &[u8]) -> Option<u64> {
    match found {
        Found::New => {
            if number == 0 && bytes.is_empty() {
                Some(0)
            } else {
                None
            }
        }
        Found::Old(image) => {
            if number < 1 || number > 3 || image.number != number || !has_pages_in(image, number) {
                None
            } else if bytes.is_empty() {
                Some(2 * number - 1)
            } else if bytes == bytes_in(number) {
                Some(2 * number)
            } else {
                None
            }
        }
    }
}
