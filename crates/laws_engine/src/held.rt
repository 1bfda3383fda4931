//! Laws of the states that one engine holds: what the engine has tells all of them that matters; and that steps keep equivalent
//! states so. The functions do nothing: their contracts are the laws.

mod held;
mod runs;
mod steps;
mod uncopied;

pub use held::{
    indexes_of_held_states_read_no_sums, states_that_one_engine_holds_answer_alike,
    states_that_one_engine_holds_are_equivalent,
};
pub use runs::runs_go_the_same_from_equivalent_states;
pub use steps::{indexes_never_read_sums, lawful_steps_keep_states_equivalent};
pub use uncopied::the_past_names_no_copied_record;
