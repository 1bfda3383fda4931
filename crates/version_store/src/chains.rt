//! Chains through a queue of hashes: from each item to the one before it with the same hash.

ghost use Rattle.std.specs.Prelude.{◌≡◌, ℕ, ◌+◌, ◌-◌, ◌*◌, ◌^◌, ◌≤◌, ◌<◌, ◌==◌, [], ◌∷◌, ◌++◌, length, take, drop, slice_index, is_ok, IfOk, OnOk, OnErr, if◌then◌else◌};
ghost use Rattle.version_store.specs.Chained.{AreLinked, ChainOf, Chains as AreChained, hashes_of, latest};

use jet_base::OutOfMemory;
use std::alloc::Global;
use std::collections::VecDeque;
use std::marker::Model;

/// How many heads there are at first: one for each 2^58 hashes.
const FIRST_HEADS: usize = 64;

const FIRST_SHIFT: u32 = 58;

/// The hash of an item, and the number of the item before it with the same slot.
#[derive(Clone, Copy)]
struct Link {
    hash: u64,
    before: u64,
}

/// A queue of hashes, with a way from each to the one before that is equal. A way goes through the items whose hashes have the
/// same highest bits, their slot: there is a head for each slot, and at least as many heads as there were ever items at a time.
#[derive(Drop)]
pub(crate) struct Chains {
    // How many items have gone.
    first: u64,
    links: VecDeque<Link>,
    // For each slot the number of its last item: items are numbered from 1, and 0 is none.
    heads: Vec<u64>,
    // How many bits of a hash are not of its slot.
    shift: u32,
}

impl Model for Chains {
    ghost use Rattle.std.specs.Prelude.{List, ℕ};

    ghost Value = { List ℕ };

    ghost use Rattle.version_store.specs.Chained.{chained, IsChained};

    ghost view = { chained };

    ghost invariant = { IsChained };
}

// How many items there are up to the one of the number, 0 where it has gone, or is none.
fn end_of(number: u64, first: u64) -> usize
    ensures { result ≡ number - first }
{
    number.saturating_sub(first) as usize
}

// The number in the slot's head, 0 where there is no head yet.
fn head_of(heads: &[u64], slot: usize) -> u64
    ensures { result ≡ slice_index heads.now slot }
{
    match heads.get(slot) {
        Some(number) => *number,
        None => 0,
    }
}

// How many items there are up to the last one with the hash, among those up to `from`, where a chain of its slot goes on.
fn last_with(links: &VecDeque<Link>, first: u64, hash: u64, from: usize) -> usize
    requires { ChainOf hash first links.now.items from }
    ensures { result ≡ latest hash (take from (hashes_of links.now.items)) }
{
    let mut end = from;
    while end > 0 {
        let link = links[end - 1];
        if link.hash == hash {
            return end;
        }
        end = end_of(link.before, first);
    }
    0
}

// Links all items anew, by heads that name none.
fn link_all(links: &mut VecDeque<Link>, heads: &mut Vec<u64>, first: u64, shift: u32)
    requires shifts { shift < 64 }
    requires fits { first + length links.old.items < 2 ^ 64 }
    requires count { length heads.old.items * 2 ^ shift ≡ 2 ^ 64 }
    requires none { (slot : ℕ) → slice_index heads.old.items slot ≡ 0 }
    ensures same { hashes_of links.new.items ≡ hashes_of links.old.items }
    ensures linked { AreChained first shift links.new.items heads.new.items }
    ensures count { length heads.new.items ≡ length heads.old.items }
{
    let mut at = 0;
    while at < links.len() {
        let hash = links[at].hash;
        let slot = (hash >> shift) as usize;
        links[at] = Link {
            hash,
            before: heads[slot],
        };
        heads[slot] = first + at as u64 + 1;
        at += 1;
    }
}

// How many heads follow on so many, and their shift.
fn next_heads(count: usize, shift: u32) -> (usize, u32)
    requires limit { count < 2 ^ 63 }
    requires shifts { shift < 64 }
    requires begun { 0 < count → count * 2 ^ shift ≡ 2 ^ 64 }
    ensures all { result.0 * 2 ^ result.1 ≡ 2 ^ 64 }
    ensures shifts { result.1 < 64 }
    ensures some { 0 < result.0 }
{
    if count == 0 {
        (FIRST_HEADS, FIRST_SHIFT)
    } else {
        (2 * count, shift - 1)
    }
}

// Makes more heads, and links all items by them. It answers the new shift.
fn grow(
    links: &mut VecDeque<Link>,
    heads: &mut Vec<u64>,
    first: u64,
    shift: u32,
) -> Result<u32, OutOfMemory>
    requires { AreChained first shift links.old.items heads.old.items }
    ensures same { hashes_of links.new.items ≡ hashes_of links.old.items }
    ensures ok { IfOk result (λ shift. AreChained first shift links.new.items heads.new.items) }
    ensures room { OnOk result (0 < length heads.new.items) }
    ensures err { OnErr result (AreChained first shift links.new.items heads.new.items) }
{
    let (count, shift) = next_heads(heads.len(), shift);
    heads.resize(count, 0)?;
    heads.fill(0);
    link_all(links, heads, first, shift);
    Ok(shift)
}

// Sees that there are more heads than items, and answers the shift.
fn make_room(
    links: &mut VecDeque<Link>,
    heads: &mut Vec<u64>,
    first: u64,
    shift: u32,
) -> Result<u32, OutOfMemory>
    requires { AreChained first shift links.old.items heads.old.items }
    ensures same { hashes_of links.new.items ≡ hashes_of links.old.items }
    ensures ok { IfOk result (λ shift. AreChained first shift links.new.items heads.new.items) }
    ensures room { OnOk result (0 < length heads.new.items) }
    ensures err { OnErr result (AreChained first shift links.new.items heads.new.items) }
{
    if links.len() < heads.len() {
        Ok(shift)
    } else {
        grow(links, heads, first, shift)
    }
}

impl Chains {
    /// No item.
    pub(crate) fn new(alloc: Global) -> Chains
        ensures { result ≡ [] }
    {
        Chains {
            first: 0,
            links: VecDeque::new(alloc),
            heads: Vec::new(alloc),
            shift: FIRST_SHIFT,
        }
    }

    /// Whether there is no item.
    pub(crate) fn is_empty(&self) -> bool
        ensures { result ≡ (length self.now == 0) }
    {
        self.links.is_empty()
    }

    /// How many items there are up to the last one with the hash, 0 where none has it.
    pub(crate) fn newest(&self, hash: u64) -> usize
        ensures { result ≡ latest hash self.now }
    {
        let slot = (hash >> self.shift) as usize;
        let end = end_of(head_of(&self.heads, slot), self.first);
        last_with(&self.links, self.first, hash, end)
    }

    /// The same of the hash of the item at this place, among the items before it.
    pub(crate) fn before(&self, at: usize) -> usize
        requires { at < length self.now }
        ensures { result ≡ latest (slice_index self.now at) (take at self.now) }
    {
        let link = self.links[at];
        let end = end_of(link.before, self.first);
        last_with(&self.links, self.first, link.hash, end)
    }

    /// Puts an item behind the others. The numbers end before 2^64: a push past them, which no run reaches, is refused as
    /// for want of memory.
    pub(crate) fn push(&mut self, hash: u64) -> Result<(), OutOfMemory>
        ensures { self.new ≡ (if is_ok result then self.old ++ hash ∷ [] else self.old) }
    {
        self.shift = make_room(&mut self.links, &mut self.heads, self.first, self.shift)?;
        let number = self.first + self.links.len() as u64;
        if number == u64::MAX {
            return Err(OutOfMemory);
        }
        let slot = (hash >> self.shift) as usize;
        let before = self.heads[slot];
        self.links.push_back(Link { hash, before })?;
        self.heads[slot] = number + 1;
        Ok(())
    }

    /// Takes the first item away.
    pub(crate) fn pop_front(&mut self)
        requires { 0 < length self.old }
        ensures { self.new ≡ drop 1 self.old }
    {
        self.links.pop_front();
        self.first += 1;
    }

    /// Takes the last item away.
    pub(crate) fn pop_back(&mut self)
        requires { 0 < length self.old }
        ensures { self.new ≡ take (length self.old - 1) self.old }
    {
        if let Some(link) = self.links.pop_back() {
            let slot = (link.hash >> self.shift) as usize;
            self.heads[slot] = link.before;
        }
    }
}
