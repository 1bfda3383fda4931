//! Laws of a database with versions: an index derived afresh, what changes do to records, and the past changes that are kept,
//! with their sums, their keys and the records that they stand on. The functions do nothing: their contracts are the laws.
#![tactic(auto)]

mod changes;
mod history;
mod index;
mod keys;
mod records;
mod sums;

pub use changes::{changes_of_tables_change_records, changes_that_do_not_collide_commute};
pub use history::{
    a_clean_keeps_the_history, a_history_begins_without_sessions, a_level_is_undone_one_by_one,
    a_session_finds_its_record, a_transaction_sees_the_same_as_others_go_on,
    an_undone_change_gives_its_record_back, an_unhindered_change_finds_its_record_newest,
    colliding_changes_are_seen_in_their_order, labels_of_sessions_rise,
    lawful_entries_keep_the_history, the_span_is_that_of_the_kept_changes,
    views_come_of_kept_changes, write_conflicts_are_kept,
};
pub use index::{
    a_changed_record_changes_its_entries, a_key_is_taken_where_an_entry_has_it,
    a_new_record_adds_its_entries, a_record_has_an_entry_a_key,
    a_record_that_goes_takes_its_entries, an_index_is_derived_record_by_record,
    derived_entries_are_in_order, derived_keys_are_apart, derived_keys_are_short,
    double_keys_are_entries_of_one_key, entries_are_of_their_records,
    entries_in_order_are_told_by_those_that_are_there, entries_that_were_put_can_be_taken_out,
};
pub use keys::{
    a_clean_keeps_indexes_apart_from_sums, a_clean_keeps_unique_keys, a_commit_is_always_lawful,
    a_primary_index_has_one_entry, a_session_finds_its_very_record,
    a_session_walks_among_the_entries_of_variants, indexes_begin_apart_from_sums,
    keys_of_variants_after_a_change, keys_of_variants_after_a_clean,
    keys_of_variants_after_an_undo, lawful_entries_keep_indexes_apart_from_sums,
    lawful_entries_keep_tables_in_order, lawful_entries_keep_unique_keys, no_index_sees_a_sum,
    no_reader_finds_a_unique_key_twice, the_entries_that_a_session_is_shown_are_derived,
    unique_keys_begin_with_unique_tables, variants_tell_key_conflicts, what_every_variant_has,
};
pub use records::{
    a_clean_keeps_bookmarks, a_clean_keeps_escrow_numbers, a_clean_keeps_stored_records,
    bookmarks_begin_with_those_of_tables, entries_keep_the_records_before_sums,
    escrow_numbers_begin_with_those_of_tables, every_record_seen_has_its_bookmark,
    every_record_seen_holds_numbers, every_record_seen_is_stored, lawful_entries_keep_bookmarks,
    lawful_entries_keep_escrow_numbers, lawful_entries_keep_stored_records,
    numbers_of_later_entries_are_new, stored_records_begin_with_those_of_tables,
};
pub use sums::{
    a_session_finds_its_record_with_unseen_sums, a_session_sees_its_record_without_unseen_sums,
    an_amount_is_taken_away_wrapping, an_escrow_column_is_read_as_a_long,
    an_undone_sum_is_taken_away, an_unhindered_change_finds_the_stored_record_newest,
};
