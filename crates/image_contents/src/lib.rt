//! What the trees of a table of an image hold, once they are opened: whether its long values are whole, whether those that rows name
//! are there, whether its rows are sound, and where the entries of its indexes differ from those that its records have.
#![tactic(auto)]

mod entries;
mod nodes;
mod numbers;
mod rows;
mod values;

pub use entries::{
    DifferingEntry, TableVariants, variants_of_a_table_without_a_finding_are_readable,
};
pub use nodes::{NodeRef, NodeWalk};
pub use rows::{
    ImageRow, TableRows, tables_of_a_sound_catalog_have_legal_rules,
    tables_without_broken_or_missing_values_have_readable_rows, unsound_row,
};
pub use values::{
    ValueFault, broken_value, miscounted_value, missing_or_broken_value,
    values_that_are_not_broken_are_whole, whole_values_with_references_are_a_store,
};
