//! Laws of keys beside versions: the entries of all variants of records against what each reader sees, key conflicts told by
//! variants, that no reader finds a key of a unique index at two records, and that lawful entries keep it so, wherefore a
//! commit is always lawful. Keys see no sum of an escrow column, and neither do these laws. The functions do nothing: their contracts are the laws.

mod conflicts;
mod entries;
mod primary;
mod sums;
mod tables;
mod unique;
mod variants;

pub use conflicts::variants_tell_key_conflicts;
pub use entries::{
    a_session_walks_among_the_entries_of_variants, the_entries_that_a_session_is_shown_are_derived,
};
pub use primary::a_primary_index_has_one_entry;
pub use sums::{
    a_clean_keeps_indexes_apart_from_sums, indexes_begin_apart_from_sums,
    lawful_entries_keep_indexes_apart_from_sums, no_index_sees_a_sum,
};
pub use tables::lawful_entries_keep_tables_in_order;
pub use unique::{
    a_clean_keeps_unique_keys, a_commit_is_always_lawful, lawful_entries_keep_unique_keys,
    no_reader_finds_a_unique_key_twice, unique_keys_begin_with_unique_tables,
};
pub use variants::{
    a_session_finds_its_very_record, keys_of_variants_after_a_change,
    keys_of_variants_after_a_clean, keys_of_variants_after_an_undo, what_every_variant_has,
};
