//! Recovery of a database from what a volume holds of it: the engine of its standing checkpoint is made, and the entries of its log are made again, each where it may come next.
#![tactic(auto)]

mod fault;
mod found;
mod inspecting;
mod next_entries;
mod opening;
mod recovering;
mod refusals;
mod replaying;

pub use fault::ReplayFault;
pub use found::{FoundDatabase, found_database, recovered_engine};
pub use inspecting::{Inspected, inspect};
pub use next_entries::{
    lawful, sound_catalogs_have_own_names, steps_with_next_numbers_are_those_of_their_calls,
};
pub use opening::{Recovered, recover};
pub use recovering::recover_from;
pub use refusals::{EngineFault, RecoverCause, RecoverFault, files_are_refused_for_one_cause};
pub use replaying::replay;
