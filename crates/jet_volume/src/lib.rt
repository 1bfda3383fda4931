//! The four files of a database, and what a crash at each moment may leave of them.
#![tactic(auto)]

mod contents;
mod crash;
mod dice;
mod file_bytes;
mod files;
mod laws;
mod lent;
mod memory;
mod noting;
mod record;
mod volume;

pub use file_bytes::{copy_from, overwrite};
pub use files::{File, LogStart};
pub use laws::{a_front_came_in_part, moments_compose};
pub use memory::MemVolume;
pub use volume::{MAX_END, Volume};
