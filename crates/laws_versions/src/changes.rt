//! Laws of what changes do to single records: which may be made in either order, and that tables change record by record.
//! The functions do nothing: their contracts are the laws.

pub mod examples;
mod order;
mod tables;

pub use order::changes_that_do_not_collide_commute;
pub use tables::changes_of_tables_change_records;
