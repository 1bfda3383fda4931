//! The live sessions of the engine.
#![tactic(auto)]

mod cleaning;
pub mod examples;
mod fault;
mod laws;
mod live;
mod sessions;

pub use fault::EnterFault;
pub use laws::{entries_change_the_sessions_alike, needed_changes_are_kept};
pub use live::{Live, Transaction};
pub use sessions::{MAX_LEVELS, MAX_SESSIONS, Sessions};
