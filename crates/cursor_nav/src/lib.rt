//! Cursors: places, seeks, ranges, counts and bookmarks over a view of a table's indexes. Nothing here takes memory.
#![tactic(auto)]

mod counts;
mod cursor;
mod keys;
mod moves;
mod parts;
mod ranges;
mod seek_by;
mod seeks;
mod sorted_entries;
mod view;

pub use cursor::{Cursor, Moved};
pub use seek_by::SeekBy;
pub use sorted_entries::SortedEntries;
pub use view::View;
