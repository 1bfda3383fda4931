//! The bytes of log entries: the definitions, their worked examples and their laws. There is no code here.
#![tactic(auto)]

pub mod examples;
mod reading;

pub use reading::{
    cut_bytes_begin_with_no_entry, entries_have_one_spelling, fronts_of_streams_hold_the_first,
    streams_are_read_back,
};
