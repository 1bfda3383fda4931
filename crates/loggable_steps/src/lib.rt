//! Laws of the log entries of lawful steps: each can be written, and what is read back and replayed gives the state that the engine
//! holds. The functions do nothing: their contracts are the laws.
#![tactic(auto)]

mod entries;
mod replays;

pub use entries::{lawful_entries_can_be_logged, lawful_steps_can_be_logged};
pub use replays::{
    a_closed_state_is_held_by_its_tables, a_front_of_a_log_is_a_log_of_its_first_entries,
    a_log_goes_on_with_its_engine, a_log_is_read_back_and_replayed,
    an_engine_without_sessions_tells_its_state,
};
