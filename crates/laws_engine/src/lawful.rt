//! The step of an answer is lawful: what a call did not refuse is what the log asks of its entries. And what lawful entries
//! keep of the states that calls are answered in. The functions do nothing: their contracts are the laws.

mod changes;
mod cursors;
mod reached;
mod schema;
mod sessions;
mod typed;

pub use changes::{
    a_change_alone_is_lawful, a_locked_record_meets_no_write_conflict,
    a_session_meets_the_same_after_its_begin, the_step_of_a_delete_is_lawful,
    the_step_of_a_lock_is_lawful, the_step_of_a_replace_is_lawful, the_step_of_a_sum_is_lawful,
    the_step_of_an_update_is_lawful,
};
pub use cursors::{the_step_of_a_close_is_lawful, the_step_of_an_open_is_lawful};
pub use reached::{
    a_clean_reaches_the_same_state, lawful_entries_reach_the_next_state,
    states_without_sessions_are_reached,
};
pub use schema::{
    steps_of_columns_are_lawful, steps_of_indexes_are_lawful, steps_of_tables_are_lawful,
};
pub use sessions::{
    steps_of_sessions_are_lawful, steps_of_transactions_are_lawful, the_step_of_a_commit_is_lawful,
};
pub use typed::{entries_of_answers_are_of_their_types, lawful_answers_reach_the_next_state};
