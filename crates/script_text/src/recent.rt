//! Lines that were read not long before, since they may come again.

ghost use Rattle.std.specs.Prelude.{◌≡◌, ◌≤◌, ◌<◌, ◌+◌, ◌⊎◌, [], ℕ, List, Contains, IfOk, IfSome, IsSome, length, replicate, set};

use std::alloc::{AllocError, Global};
use std::marker::Model;

/// How many lines are remembered.
const SLOTS: usize = 64;

/// The most bytes of a line that is remembered.
const LONGEST: usize = 32;

/// The fewest, so that both its ends are read at once.
const SHORTEST: usize = 8;

/// What a line's ends are multiplied by for its slot: 2^64 divided by the golden ratio, made odd.
const MIXER: u64 = 0x9e37_79b9_7f4a_7c15;

/// A line, and the place of its call.
#[derive(Drop)]
pub struct RecentLine {
    text: [u8; 32],
    length: usize,
    place: u32,
}

impl Model for RecentLine {
    ghost use Rattle.std.specs.Prelude.{List, ℕ, ◌≤◌, take};

    ghost Value = { List ℕ × ℕ };

    ghost view = { λ a. (take a.length a.text, a.place) };

    ghost invariant = { λ a. a.length ≤ 32 };
}

impl RecentLine {
    /// No line.
    fn none() -> RecentLine
        ensures { result ≡ ([], 0) }
    {
        RecentLine {
            text: [0; LONGEST],
            length: 0,
            place: 0,
        }
    }

    /// The line's text.
    #[inline(always)]
    fn text(&self) -> &[u8]
        ensures { result.now ≡ self.now.0 }
    {
        &self.text[..self.length]
    }

    /// Takes this line in the other's place.
    #[inline(always)]
    fn set(&mut self, line: &[u8], place: u32)
        requires { length line.now ≤ 32 }
        ensures { self.new ≡ (line.now, place) }
    {
        let (front, _) = self.text.split_at_mut(line.len());
        front.copy_from_slice(line);
        self.length = line.len();
        self.place = place;
    }
}

/// Lines that were read last, each in the slot that its ends say.
#[derive(Drop)]
pub struct RecentLines {
    lines: Vec<RecentLine>,
}

impl Model for RecentLines {
    ghost use Rattle.std.specs.Prelude.{◌≡◌, List, ℕ, length};

    ghost Value = { List (List ℕ × ℕ) };

    ghost view = { λ a. a.lines.items };

    ghost invariant = { λ a. length a.lines.items ≡ 64 };
}

impl RecentLines {
    /// None.
    pub fn new(alloc: Global) -> Result<RecentLines, AllocError>
        ensures { IfOk result (λ made. made ≡ replicate 64 ([], 0)) }
    {
        let mut lines = Vec::with_capacity(alloc, SLOTS)?;
        for _ in 0..SLOTS {
            lines.push(RecentLine::none())?;
        }
        Ok(RecentLines { lines })
    }

    /// The place of a line's call, where the line is remembered.
    #[inline(always)]
    pub fn place(&self, line: &[u8]) -> Option<u32>
        ensures found { IfSome result (λ place. Contains self.now (line.now, place)) }
        ensures some_bytes { IsSome result → 0 < length line.now }
    {
        let slot = slot_of(line)?;
        let recent = &self.lines[slot];
        if recent.text() == line {
            Some(recent.place)
        } else {
            None
        }
    }

    /// Remembers a line with the place of its call, if it may come again, in the place of another.
    #[inline(always)]
    pub fn remember(&mut self, line: &[u8], place: u32)
        ensures { (self.new ≡ self.old) ⊎ ((slot : ℕ) × (self.new ≡ set self.old slot (line.now, place))) }
    {
        if let Some(slot) = slot_of(line) {
            self.lines[slot].set(line, place);
        }
    }
}

/// The slot of a line that may come again as it is: a short one that is no `SetColumn`, which mostly sets a new value.
#[inline(always)]
fn slot_of(line: &[u8]) -> Option<usize>
    ensures slot { IfSome result (λ slot. slot < 64) }
    ensures long { IsSome result → 8 ≤ length line.now }
    ensures short { IsSome result → length line.now ≤ 32 }
{
    let length = line.len();
    if length < SHORTEST || length > LONGEST {
        return None;
    }
    let first = eight_from(line, 0);
    if (first >> 16) & 0xff == u64::from(b'S') {
        return None;
    }
    let mixed = (first ^ eight_from(line, length - SHORTEST).rotate_left(29)).wrapping_mul(MIXER);
    Some((mixed >> 58) as usize % SLOTS)
}

/// Eight bytes of a text as a number, the first one lowest.
#[inline(always)]
fn eight_from(text: &[u8], at: usize) -> u64
    requires { at + 8 ≤ length text.now }
{
    u64::from_le_bytes([
        text[at],
        text[at + 1],
        text[at + 2],
        text[at + 3],
        text[at + 4],
        text[at + 5],
        text[at + 6],
        text[at + 7],
    ])
}
