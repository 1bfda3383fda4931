//! A volume whose files lie in memory and nowhere else.
#![tactic(auto)]

mod contents;
mod past;
mod volume;

pub use volume::MemoryVolume;
