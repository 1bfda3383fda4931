//! A volume with its log and its standing checkpoint as one store, and what every crash leaves of it.
#![tactic(auto)]

mod examples;
mod fault;
mod laws;
mod store;

pub use examples::{a_checkpoint_and_a_block, a_new_volume};
pub use fault::{OpenFault, StoreFault};
pub use laws::{opened_stores_stand, seal_flush_checkpoint_flush};
pub use store::Store;
