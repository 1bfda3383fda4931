//! Laws: what the engine holds tells what the definitions ask of an entry. The functions do nothing.

ghost use Rattle.soft_recovery.specs.LawfulEntries.{HasFreeNewKeys, TellsEntries};
ghost use Rattle.soft_recovery.specs.ShownSums.{ShowsSums};

use laws_engine::{
    a_reader_finds_the_records_that_it_is_shown, a_reader_is_shown_records_with_unseen_sums,
    a_session_is_shown_the_records_of_its_view, a_session_views_its_very_record, sessions_are_told,
    tables_are_told,
};
use laws_versions::{
    a_commit_is_always_lawful, a_key_is_taken_where_an_entry_has_it, a_primary_index_has_one_entry,
    entries_are_of_their_records, every_record_seen_has_its_bookmark,
    every_record_seen_holds_numbers, no_reader_finds_a_unique_key_twice,
};
use table_versions::unique_keys_are_asked_as_of_the_state;

/// An entry that neither changes a record nor the schema is lawful as the live sessions tell. A transaction of one level may
/// always be committed.
pub(crate) fn entries_of_sessions_are_told()
    ensures { TellsEntries }
{
    sessions_are_told();
    tables_are_told();
    a_commit_is_always_lawful();
}

/// The unique indexes refuse no key of a record that is put under a bookmark exactly where each of its keys that is new there is
/// free: a key that the record of the view has already is no other record's.
pub(crate) fn new_keys_are_free()
    ensures { HasFreeNewKeys }
{
    unique_keys_are_asked_as_of_the_state();
    no_reader_finds_a_unique_key_twice();
    every_record_seen_has_its_bookmark();
    a_primary_index_has_one_entry();
    a_key_is_taken_where_an_entry_has_it();
    entries_are_of_their_records();
}

/// The escrow columns of the row that a session is shown hold numbers, and without the amounts that it does not see they are those
/// of its view. Where it is shown no row its view has no record.
pub(crate) fn shown_sums_are_those_of_the_view()
    ensures { ShowsSums }
{
    a_session_views_its_very_record();
    a_session_is_shown_the_records_of_its_view();
    a_reader_is_shown_records_with_unseen_sums();
    a_reader_finds_the_records_that_it_is_shown();
    every_record_seen_holds_numbers();
}
