//! Laws of an engine with versions: what its tables show each reader, what it holds of a database state and goes on to hold,
//! and that all states that it holds are equivalent. The functions do nothing: their contracts are the laws.
#![tactic(auto)]

mod agreeing;
mod engine;
mod equivalent;
mod held;
mod lawful;
mod tables;

pub use agreeing::{
    a_cursor_may_move, a_replace_is_prepared_in_step, a_session_begins_and_ends_in_step,
    a_table_may_be_opened_and_closed, an_answer_keeps_all_sessions_in_step,
    an_update_keeps_a_session_in_step, entries_of_others_keep_a_session_in_step,
    locks_and_deletes_keep_a_session_in_step, schema_calls_keep_a_session_in_step,
    sums_keep_a_session_in_step, transactions_keep_a_session_in_step,
    what_looks_at_a_record_changes_nothing,
};
pub use engine::{
    a_clean_leaves_the_state, a_lawful_entry_makes_the_next_state,
    a_lawful_step_makes_the_next_state, a_session_is_shown_the_records_of_its_view,
    a_session_views_its_very_record, an_answer_is_held_in_step,
    an_answer_is_lawful_and_stays_in_step, an_answer_makes_what_is_built,
    an_empty_engine_holds_the_empty_state, an_engine_of_tables_alone_holds_their_state,
    conflicts_are_told, ends_always_find_room, newest_records_are_told,
    open_changes_stand_by_rising_levels, sessions_are_told, sessions_in_step_are_well_formed,
    tables_are_told, tables_are_well_formed, uses_are_told,
};
pub use equivalent::{
    changes_that_are_not_needed_are_forgotten, dropped_changes_are_forgotten,
    equivalent_states_agree_with_the_same_sessions, equivalent_states_answer_every_call_alike,
    equivalent_states_have_the_same_conflicts, equivalent_states_have_the_same_span,
    equivalent_states_show_every_session_the_same, equivalent_states_take_the_same_entries,
    lawful_entries_keep_states_equivalent,
};
pub use held::{
    indexes_never_read_sums, indexes_of_held_states_read_no_sums,
    lawful_steps_keep_states_equivalent, runs_go_the_same_from_equivalent_states,
    states_that_one_engine_holds_answer_alike, states_that_one_engine_holds_are_equivalent,
    the_past_names_no_copied_record,
};
pub use lawful::{
    a_change_alone_is_lawful, a_clean_reaches_the_same_state,
    a_locked_record_meets_no_write_conflict, a_session_meets_the_same_after_its_begin,
    entries_of_answers_are_of_their_types, lawful_answers_reach_the_next_state,
    lawful_entries_reach_the_next_state, states_without_sessions_are_reached,
    steps_of_columns_are_lawful, steps_of_indexes_are_lawful, steps_of_sessions_are_lawful,
    steps_of_tables_are_lawful, steps_of_transactions_are_lawful, the_step_of_a_close_is_lawful,
    the_step_of_a_commit_is_lawful, the_step_of_a_delete_is_lawful, the_step_of_a_lock_is_lawful,
    the_step_of_a_replace_is_lawful, the_step_of_a_sum_is_lawful, the_step_of_an_open_is_lawful,
    the_step_of_an_update_is_lawful,
};
pub use tables::{
    a_change_adds_the_keys_that_it_leaves, a_change_is_made_and_held, a_clean_leaves_the_tables,
    a_clean_takes_the_keys_that_no_variant_has, a_reader_finds_the_records_that_it_is_shown,
    a_reader_is_shown_records_with_unseen_sums, a_reader_is_shown_the_entries_of_its_view,
    a_reader_is_shown_the_index_of_its_view, a_reader_is_shown_the_records_that_it_sees,
    a_reader_sees_stored_numbers_without_unseen_sums,
    a_reader_that_began_before_sees_the_old_record, a_reader_views_its_very_record,
    a_reader_walks_the_index_of_what_it_sees, a_replaced_record_is_in_conflict,
    a_schema_step_changes_the_tables, a_session_is_shown_its_view,
    a_viewed_record_is_the_shown_one_without_unseen_sums,
    an_undo_takes_the_keys_that_no_variant_has, an_undone_replace_gives_the_old_record_back,
    an_unseen_sum_is_that_of_the_unseen_amounts, changes_undone_one_by_one_are_undone_at_once,
    entries_leave_records_in_order, entries_of_a_session_leave_the_tables,
    held_changes_tell_key_conflicts, held_changes_tell_the_span, held_changes_tell_write_conflicts,
    releases_and_commits_leave_the_tables, tables_alone_hold_a_state,
    tables_in_order_have_records_that_rise, undone_changes_are_taken_back,
};
