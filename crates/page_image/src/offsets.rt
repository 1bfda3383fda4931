//! Where the nodes of a page begin.

ghost use Rattle.std.specs.Prelude.{◌≡◌, ℕ, ◌+◌, ◌-◌, ◌<◌, ◌≤◌, slice_index};

use crate::spelling::{HEAD_BYTES, NODE_HEAD_BYTES, PAGE_BYTES};

/// The most nodes that a page holds, 677: behind the head of the page each takes the six bytes of its own head at least.
pub const MAX_NODES: usize = (PAGE_BYTES - HEAD_BYTES) / NODE_HEAD_BYTES;

/// Puts in the offset of a new node at place `i`; those behind it move by its size.
pub fn insert_offset(offsets: &mut [u16; MAX_NODES], count: usize, i: usize, at: usize, size: usize)
    requires order { i ≤ count }
    requires room { count < MAX_NODES }
    requires at_fits { at + size ≤ PAGE_BYTES }
    requires fits { (k : ℕ) → k < count → slice_index offsets.old k + size ≤ PAGE_BYTES }
    ensures below { (k : ℕ) → k < i → slice_index offsets.new k ≡ slice_index offsets.old k }
    ensures at { slice_index offsets.new i ≡ at }
    ensures above { (k : ℕ) → i ≤ k → k < count → slice_index offsets.new (k + 1) ≡ slice_index offsets.old k + size }
{
    let mut k = count;
    while k > i {
        offsets[k] = offsets[k - 1] + size as u16;
        k -= 1;
    }
    offsets[i] = at as u16;
}

/// Takes out the offset of the node at place `i`; those behind it move by its size.
pub fn remove_offset(offsets: &mut [u16; MAX_NODES], count: usize, i: usize, size: usize)
    requires order { i < count }
    requires room { count ≤ MAX_NODES }
    requires small { size ≤ PAGE_BYTES }
    requires behind { (k : ℕ) → i < k → k < count → size ≤ slice_index offsets.old k }
    ensures below { (k : ℕ) → k < i → slice_index offsets.new k ≡ slice_index offsets.old k }
    ensures above { (k : ℕ) → i ≤ k → k + 1 < count → slice_index offsets.new k ≡ slice_index offsets.old (k + 1) - size }
{
    for k in i..count - 1 {
        offsets[k] = offsets[k + 1] - size as u16;
    }
}

/// Moves the offsets from place `from` on, behind a part that had `old` bytes and has `new` ones.
pub fn move_offsets(
    offsets: &mut [u16; MAX_NODES],
    from: usize,
    count: usize,
    old: usize,
    new: usize,
)
    requires order { from ≤ count }
    requires room { count ≤ MAX_NODES }
    requires behind { (k : ℕ) → from ≤ k → k < count → old ≤ slice_index offsets.old k }
    requires fits { (k : ℕ) → from ≤ k → k < count → slice_index offsets.old k + new ≤ PAGE_BYTES + old }
    ensures below { (k : ℕ) → k < from → slice_index offsets.new k ≡ slice_index offsets.old k }
    ensures above { (k : ℕ) → from ≤ k → k < count → slice_index offsets.new k + old ≡ slice_index offsets.old k + new }
{
    for k in from..count {
        offsets[k] = (offsets[k] as usize - old + new) as u16;
    }
}

/// Copies the offsets from place `at` on to another page, where the first node begins at 32 and not at `start`.
pub fn copy_offsets(
    offsets: &[u16; MAX_NODES],
    at: usize,
    count: usize,
    start: usize,
    to: &mut [u16; MAX_NODES],
)
    requires order { at ≤ count }
    requires room { count ≤ MAX_NODES }
    requires head { 32 ≤ start }
    requires behind { (k : ℕ) → at ≤ k → k < count → start ≤ slice_index offsets.now k }
    ensures { (k : ℕ) → k < count - at → slice_index to.new k ≡ slice_index offsets.now (at + k) - (start - 32) }
{
    for k in 0..count - at {
        to[k] = offsets[at + k] - (start - 32) as u16;
    }
}
