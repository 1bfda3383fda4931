//! Laws of rows whose values of more than 255 bytes are kept apart: which record such a row stands for, which row a put makes
//! of a record, what becomes of both as long values come and go, and how many rows and rows before of changes refer to each
//! value. The functions do nothing: their contracts are the laws.
#![tactic(auto)]

mod counting;
mod counts;
mod examples;
mod reference_examples;
mod standing;
mod storing;
mod values;

pub use counting::{counts_after_a_put, rows_in_use_stand, values_that_are_given_back};
pub use counts::{a_row_refers_once, counts_after_a_step};
pub use examples::{rows_that_are_kept, values_that_are_shared, values_that_are_taken};
pub use reference_examples::{a_shared_value, a_value_named_twice};
pub use standing::{
    rows_stand_as_values_change, rows_without_a_columns_values, rows_without_long_values,
};
pub use storing::{form_of_a_kept_row, kept_rows_stand_for_their_records};
pub use values::{referred_values_are_there, values_keep_their_counts};
