//! Temporary tables: rows of one session, sorted by a key and then by arrival, in pages of their own.
#![tactic(auto)]

mod columns;
pub mod examples;
mod fault;
mod keys;
mod moves;
mod place;
mod rows;
mod table;

pub use columns::{MAX_COLUMNS, TempColumn, are_temp_columns};
pub use fault::TempFault;
pub use place::TempPlace;
pub use table::TempTable;
