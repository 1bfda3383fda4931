//! Rows whose values of more than 255 bytes are kept apart: the row that a put writes and the values that it shares, those that a
//! row takes and those that it gives up, and the whole record of a row, read in place.

mod named;
mod releasing;
mod rows;
mod sharing;
mod shown;
mod taking;
mod writing;

pub use rows::{release_removed, release_row, take_row};
pub use sharing::Sources;
pub use shown::ShownRow;
pub use writing::keep_row;
