//! The engine with the bytes of its log entries, and with room for those that are to come.

mod counting;
mod laws;
mod logged;
mod types;
mod writing;

pub use laws::{
    ends_take_no_memory, the_number_stays_bounded, what_is_begun_keeps_the_bytes_of_its_end,
};
pub use logged::LoggedEngine;
pub use writing::has_label;
