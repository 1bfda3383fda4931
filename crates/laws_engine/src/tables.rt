//! What the tables of an engine hold of a database, with versions: definitions, and the laws that they show each reader what
//! it sees. The functions do nothing: their contracts are the laws.

mod conflicts;
mod examples;
mod one_by_one;
mod readers;
mod steps;
mod sums;
mod variants;
mod viewed;
mod walks;

pub use conflicts::{
    held_changes_tell_key_conflicts, held_changes_tell_the_span, held_changes_tell_write_conflicts,
};
pub use examples::{
    a_reader_that_began_before_sees_the_old_record, a_replaced_record_is_in_conflict,
    an_undone_replace_gives_the_old_record_back,
};
pub use one_by_one::changes_undone_one_by_one_are_undone_at_once;
pub use readers::{
    a_reader_finds_the_records_that_it_is_shown, a_reader_is_shown_the_records_that_it_sees,
    a_session_is_shown_its_view,
};
pub use steps::{
    a_change_is_made_and_held, a_clean_leaves_the_tables, a_schema_step_changes_the_tables,
    entries_leave_records_in_order, entries_of_a_session_leave_the_tables,
    releases_and_commits_leave_the_tables, tables_alone_hold_a_state,
    tables_in_order_have_records_that_rise, undone_changes_are_taken_back,
};
pub use sums::{
    a_reader_is_shown_records_with_unseen_sums, a_reader_is_shown_the_entries_of_its_view,
    a_reader_is_shown_the_index_of_its_view, a_reader_sees_stored_numbers_without_unseen_sums,
};
pub use variants::{
    a_change_adds_the_keys_that_it_leaves, a_clean_takes_the_keys_that_no_variant_has,
    an_undo_takes_the_keys_that_no_variant_has,
};
pub use viewed::{
    a_reader_views_its_very_record, a_viewed_record_is_the_shown_one_without_unseen_sums,
    an_unseen_sum_is_that_of_the_unseen_amounts,
};
pub use walks::a_reader_walks_the_index_of_what_it_sees;
