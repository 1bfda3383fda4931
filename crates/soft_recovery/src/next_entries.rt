//! Which log entries may come next, told by what an engine with versions holds: exactly those that the definitions have lawful in
//! each state that it holds, also entries that no call makes. What refuses an entry is what refuses the call that would make it.

mod changes;
mod entries;
mod laws;
mod puts;
mod schema;
mod sums;

pub use entries::lawful;
pub use schema::{sound_catalogs_have_own_names, steps_with_next_numbers_are_those_of_their_calls};
