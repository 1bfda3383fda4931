//! The engine: what every call is answered, and what its step does.
#![tactic(auto)]

mod applying;
mod change_steps;
mod cleaning;
mod closing;
mod deciding;
mod laws;
mod logging;
mod schema_steps;
mod session_steps;
mod step_laws;
mod types;

pub use applying::apply;
pub use cleaning::clean;
pub use closing::close;
pub use deciding::{decide, is_reading, read};
pub use engine_parts::Engine;
pub use laws::{
    a_run_begins_without_sessions, a_run_holds_its_sessions, a_run_is_held_after_its_lines,
    no_answer_is_want_of_memory, steps_of_a_run_may_be_taken,
    steps_of_calls_without_memory_lack_none,
};
pub use logging::{
    LoggedEngine, ends_take_no_memory, has_label, the_number_stays_bounded,
    what_is_begun_keeps_the_bytes_of_its_end,
};
pub use step_laws::a_clean_for_a_step_leaves_the_state;
pub use types::numbers_fit_their_types;
