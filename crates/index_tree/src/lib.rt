//! The entries of one index, in a B-tree of a space that other trees share.
#![tactic(auto)]

mod index;
mod parts;

pub use index::{IndexTree, entries_fit_their_space, other_index_entries_stay};
pub use parts::{MAX_BEHIND_BYTES, MAX_PART_BYTES};
