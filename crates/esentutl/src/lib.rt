//! The call that the program is: it opens a volume, reads a script of session calls, runs it there and prints the reply of each.
#![tactic(auto)]

mod about;
mod ends;
pub mod examples;
mod inspections;
mod process;
mod reading;
mod report;
mod runs;
mod streams;
mod top;
mod unparsed;
mod volumes;
mod words;

pub use process::{Ended, run_process};
pub use top::esentutl;
