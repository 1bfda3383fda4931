//! Laws of the past changes that are kept: what each session sees and finds of a record, which changes conflict, what an
//! undo gives back, and that every lawful entry keeps all this. The functions do nothing: their contracts are the laws.

mod conflicts;
mod sessions;
mod steps;
mod undo;
mod views;

pub use conflicts::{an_unhindered_change_finds_its_record_newest, write_conflicts_are_kept};
pub use sessions::{labels_of_sessions_rise, the_span_is_that_of_the_kept_changes};
pub use steps::{
    a_clean_keeps_the_history, a_history_begins_without_sessions, lawful_entries_keep_the_history,
};
pub use undo::{a_level_is_undone_one_by_one, an_undone_change_gives_its_record_back};
pub use views::{
    a_session_finds_its_record, a_transaction_sees_the_same_as_others_go_on,
    colliding_changes_are_seen_in_their_order, views_come_of_kept_changes,
};
