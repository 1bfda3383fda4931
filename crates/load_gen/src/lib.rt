//! The generated script: a table with 40 columns and six indexes, as many records as are asked for, and a walk along each
//! index; and the summary of its run.
#![tactic(auto)]

pub mod examples;
mod records;
mod script;
mod summary;
mod table;

pub use script::{all_lines_are_built, entries_in, lines, request};
pub use summary::{WalkCounts, rows_are_counted_one_by_one};
pub use table::{LOAD_INDEXES, LoadIndex};
