//! What a database is told as: the texts of its header, of its checkpoint, of its log and of its pages.
#![tactic(auto)]

mod database;
mod entries;
pub mod examples;
mod lines;
mod pages;
mod standing;
mod walks;

pub use database::{DatabaseHeader, header};
pub use entries::{a_log_has_one_text, a_log_is_told_as_its_whole_entries, log};
pub use pages::{each_long_value_has_one_head, space, trees_of_a_consistent_image_are_sound};
pub use standing::checkpoint;
