//! What a thread knows of the log. No value of these types is made: they exist in contracts and proofs.

use index_derive::Entry;
use std::collections::LinkedList;

/// What the `Turn` or a `Seat` knows and holds.
///
/// Positions count bytes of the log's stream.
pub struct Part {
    /// Whether it is the `Turn`'s.
    pub turn: bool,
    /// Whether it holds the store's right.
    pub store: bool,
    /// The sessions whose rights it holds.
    pub rights: LinkedList<u32>,
    /// The beginning of the log that was seen.
    pub log: LinkedList<Entry>,
    /// How far the bytes of the log were let go. It means something for the `Turn` alone.
    pub trimmed: u64,
    /// How far the store was given the log. It means something where the store's right is held.
    pub given: u64,
    /// A position that the store was given, as far as was heard of it.
    pub flushed: u64,
    /// How many faults of the store were seen, or heard of.
    pub faults: u64,
}

/// The view of a seat of the table: its own part, and that of a seat which was taken in.
///
/// A step changes the view of one seat. So a call that compares two seats takes one in as a guest, makes its step,
/// and lets the guest go.
pub struct View {
    pub mine: Part,
    pub guest: Part,
}
