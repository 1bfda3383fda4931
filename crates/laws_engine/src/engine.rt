//! What an engine with versions holds of a database state, and what each log entry makes of it: definitions, and the laws that
//! it goes on to hold the state. The functions do nothing: their contracts are the laws.

mod answers;
mod begin;
mod entries;
mod formed;
mod readings;

pub use answers::{
    an_answer_is_held_in_step, an_answer_is_lawful_and_stays_in_step, an_answer_makes_what_is_built,
};
pub use begin::{
    an_empty_engine_holds_the_empty_state, an_engine_of_tables_alone_holds_their_state,
};
pub use entries::{
    a_clean_leaves_the_state, a_lawful_entry_makes_the_next_state,
    a_lawful_step_makes_the_next_state, ends_always_find_room,
};
pub use formed::{sessions_in_step_are_well_formed, tables_are_well_formed};
pub use readings::{
    a_session_is_shown_the_records_of_its_view, a_session_views_its_very_record,
    conflicts_are_told, newest_records_are_told, open_changes_stand_by_rising_levels,
    sessions_are_told, tables_are_told, uses_are_told,
};
