//! Laws of equivalent database states: what is forgotten of a state changes no answer, no lawful entry, and nothing that comes
//! after it. The functions do nothing: their contracts are the laws.

mod answers;
mod entries;
mod forgetting;
mod seen;

pub use answers::{
    equivalent_states_agree_with_the_same_sessions, equivalent_states_answer_every_call_alike,
};
pub use entries::{equivalent_states_take_the_same_entries, lawful_entries_keep_states_equivalent};
pub use forgetting::{changes_that_are_not_needed_are_forgotten, dropped_changes_are_forgotten};
pub use seen::{
    equivalent_states_have_the_same_conflicts, equivalent_states_have_the_same_span,
    equivalent_states_show_every_session_the_same,
};
