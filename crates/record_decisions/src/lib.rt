//! What an engine with versions answers to the calls that change records: locks, deletes, prepared copies and updates.
#![tactic(auto)]

mod changing;
mod escrow_updates;
mod laws;
mod preparing;
mod putting;
mod refusing_puts;
mod sums;
mod update_laws;
mod updating;

pub use changing::{delete, get_lock};
pub use escrow_updates::escrow_update;
pub use preparing::{prepare_copy, prepare_replace};
pub use putting::has_record;
pub use refusing_puts::{is_missing_a_value, keys_refusal, null_refusal};
pub use updating::update;
