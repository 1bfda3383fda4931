//! The live part of an image: its bytes by definition, with worked examples and laws, and the calls that write and read them.
#![tactic(auto)]

pub mod examples;
mod fields;
mod laws;
mod reading;
mod reading_changes;
mod reading_sessions;
mod writing;
mod writing_changes;
mod writing_sessions;

pub use laws::live_parts_are_read_back;
pub use reading::{LoadedPart, read};
pub use writing::write;
