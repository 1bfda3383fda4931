//! Values of more than 255 bytes, kept apart from their rows: each in chunks in a tree, with a count of
//! the references to it.
#![tactic(auto)]

mod chunks;
mod laws;
mod values;

pub use chunks::{CHUNK_BYTES, MAX_REFERENCES, MAX_VALUE_BYTES, MIN_VALUE_BYTES};
pub use laws::{identifiers_differ, references_after_a_change, values_after_a_change};
pub use values::{LongId, LongValues, other_long_values_stay, values_are_shown};
