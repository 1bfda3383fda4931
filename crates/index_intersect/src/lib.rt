//! The intersection of index ranges: the bookmarks that lie in all of them.
#![tactic(auto)]

mod common_bookmarks;
pub mod examples;
mod laws;
mod range_bookmarks;
mod range_walk;
mod ranges;

pub use common_bookmarks::intersect;
pub use laws::bookmarks_in_common_rise;
pub use ranges::{IndexRange, Limit};
