//! The bytes of log entries from a position on, with room for those that are to come.
#![tactic(auto)]

mod kept;
mod laws;

pub use kept::EntryLog;
pub use laws::what_is_kept_goes_on_with_its_stream;
