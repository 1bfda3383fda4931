//! The catalog: which tables there are, with their columns and indexes, which schema step a call asks for or why it is
//! refused, and what a step does. Records are no part of it.
#![tactic(auto)]

mod asked;
mod catalog;
mod columns;
mod decide;
mod indexes;
mod laws;
mod numbers;
mod steps;
mod table;

pub use catalog::Catalog;
pub use columns::is_type_long;
pub use decide::called_name;
pub use laws::{
    calls_ask_the_same_without_records, refusals_of_a_call, steps_are_the_same_without_records,
    steps_of_calls_have_next_numbers, steps_with_next_numbers_have_new_ids,
    tables_are_found_without_records,
};
pub use numbers::{GreatestColumns, LAST_FIXED, LAST_TAGGED, LAST_VARIABLE};
pub use table::TableDef;
