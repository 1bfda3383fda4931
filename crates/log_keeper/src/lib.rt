//! The log of an engine, kept on a volume: its bytes are given to a store block by block, or an image in their place.
#![tactic(auto)]

mod block;
mod examples;
mod keeper;
mod log_bytes;

pub use block::Block;
pub use examples::{blocks_of_a_log, no_room_in_the_eighth_generation};
pub use keeper::LogKeeper;
pub use log_bytes::LogBytes;
