//! Checkpoint files and page slots: written so that every crash leaves the old checkpoint or the new one, and read
//! back with exact refusals.
#![tactic(auto)]

mod fault;
mod file;
mod gate;
mod image;
mod laws;
mod loading;
mod looking;
mod pages;
mod reading;
mod rest;
mod writing;

pub use fault::CheckFault;
pub use image::{Found, Image, MAX_LIVE_BYTES, MAX_PAGES, Standing};
pub use laws::{
    first_checkpoint_file, new_volumes, what_is_written_is_read, what_stands_is_read,
    which_file_is_looked_at, why_a_file_is_refused,
};
pub use reading::read;
pub use rest::{FORMAT_VERSION, MAX_OFFSET};
pub use writing::{VolumeFault, write};
