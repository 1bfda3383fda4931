//! The transcript of a script: the bytes of a line for each call and its reply.
#![tactic(auto)]

mod append;
pub mod call_lines;
mod names;
mod transcript;

pub use transcript::{LINE_ROOM, Transcript};
