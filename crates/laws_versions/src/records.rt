//! Laws of the records of a history: each stands under its key in the primary index or under the number of the entry that
//! inserted it, every change touches a record, records fit their columns, escrow columns hold numbers, and lawful entries keep
//! it so. The functions do nothing: their contracts are the laws.

mod bookmarks;
mod numbers;
mod stored;
mod sums;

pub use bookmarks::{
    a_clean_keeps_bookmarks, bookmarks_begin_with_those_of_tables,
    every_record_seen_has_its_bookmark, lawful_entries_keep_bookmarks,
    numbers_of_later_entries_are_new,
};
pub use numbers::{
    a_clean_keeps_escrow_numbers, escrow_numbers_begin_with_those_of_tables,
    every_record_seen_holds_numbers, lawful_entries_keep_escrow_numbers,
};
pub use stored::{
    a_clean_keeps_stored_records, every_record_seen_is_stored, lawful_entries_keep_stored_records,
    stored_records_begin_with_those_of_tables,
};
pub use sums::entries_keep_the_records_before_sums;
