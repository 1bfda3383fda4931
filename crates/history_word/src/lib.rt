//! One log of all threads, whose length lies in a word that they share. The log itself exists in the proofs alone.
//!
//! A `Seat` has seen a beginning of the log, and holds the right of one session, of the store, or none. The one
//! `Turn` has seen the whole log, and by it alone the log grows.
#![tactic(auto)]

mod laws;
mod seats;
mod steps;
mod table_steps;
mod views;
mod word;

pub use laws::{
    entries_between_are_of_others, has_all_entries_of_its_session, logs_of_one_word_agree,
};
pub use seats::{Seat, Turn};
pub use views::{Part, View};
pub use word::Word;
