//! What an index derived afresh from all records is, against one that is kept up record by record.

pub mod examples;
mod keys;
mod order;
mod records;
mod taken;

pub use keys::{derived_keys_are_apart, derived_keys_are_short};
pub use order::{
    derived_entries_are_in_order, double_keys_are_entries_of_one_key,
    entries_in_order_are_told_by_those_that_are_there,
};
pub use records::{
    a_changed_record_changes_its_entries, a_new_record_adds_its_entries,
    a_record_has_an_entry_a_key, a_record_that_goes_takes_its_entries,
    an_index_is_derived_record_by_record, entries_are_of_their_records,
    entries_that_were_put_can_be_taken_out,
};
pub use taken::a_key_is_taken_where_an_entry_has_it;
