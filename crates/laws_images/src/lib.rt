//! Laws of engines that are opened, and of the images that they are opened from: what an engine's newest records and held
//! changes alone say of the database state, that no lawful entry tells whether undone changes were forgotten, and the limits
//! within which lawful entries stay. The functions do nothing: their contracts are the laws.
#![tactic(auto)]

mod opened;
mod settled;
mod sound;

pub use opened::{
    a_history_is_in_turn, a_settled_engine_is_in_turn, a_showable_engine_holds_its_state,
    a_shown_state_has_a_history, a_shown_state_is_held, held_changes_come_back,
};
pub use settled::{
    a_settled_engine_holds_the_settled_state, alike_states_stay_alike, undone_changes_tell_nothing,
};
pub use sound::{
    lawful_entries_keep_states_sound, sessions_stay_within_their_limits,
    the_catalog_stays_within_its_limits,
};
