//! The image of an engine: the pages of its trees, each copied once, and its live part; and that it loses nothing.
#![tactic(auto)]

mod examples;
mod laws;
mod live;
mod pages;
mod writing;

pub use examples::an_undone_change_takes_room;
pub use laws::{
    an_image_loses_nothing, runs_with_room_go_the_same, states_go_on_to_differ_in_undone_changes,
    states_that_differ_in_undone_changes_answer_alike, undone_changes_tell_in_the_span_alone,
};
pub use writing::image;
