//! What files recover to, as a relation on their bytes, and what a log that was given in part recovers to. There is no code here.
#![tactic(auto)]

mod examples;
mod laws;

pub use examples::{
    a_new_volume_recovers_to_an_empty_database, four_small_files_recover, what_logs_recover_to,
};
pub use laws::{
    a_log_recovers_as_far_as_it_stands, an_image_recovers_to_its_state,
    entries_to_come_change_nothing, files_recover_to_one_state, one_checkpoint_stands_on_files,
    spelled_entries_make_what_is_built, what_files_recover_to_is_closed,
};
