//! The tables of a database with versions: the newest records in trees beside the changes of the past that are held, what each
//! reader sees of them, and what changes them.
#![tactic(auto)]

mod advancing;
mod changing;
mod conflicting_keys;
mod conflicts;
mod ending;
mod finding;
mod neighbors;
mod reading;
mod schema_steps;
mod store;
mod unique;

pub use store::{StoreParts, TableVersions};
pub use unique::unique_keys_are_asked_as_of_the_state;
