//! Normalized keys: byte strings that compare as the values that they stand for.
#![tactic(auto)]

mod key;
mod maker;
mod order;

pub use key::{Key, LONGEST_KEY};
pub use maker::{KeyMaker, Part};
pub use order::order_of_whole_keys;
