//! A session's own state and the database: the session's own steps and the lawful entries of others keep them in agreement.
//! The functions do nothing: their contracts are the laws.

mod changes;
mod cursors;
mod others;
mod schema;
mod sessions;

pub use changes::{
    a_replace_is_prepared_in_step, an_update_keeps_a_session_in_step,
    locks_and_deletes_keep_a_session_in_step, sums_keep_a_session_in_step,
};
pub use cursors::{
    a_cursor_may_move, a_table_may_be_opened_and_closed, what_looks_at_a_record_changes_nothing,
};
pub use others::{an_answer_keeps_all_sessions_in_step, entries_of_others_keep_a_session_in_step};
pub use schema::schema_calls_keep_a_session_in_step;
pub use sessions::{a_session_begins_and_ends_in_step, transactions_keep_a_session_in_step};
