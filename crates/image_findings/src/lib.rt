//! Which images are those of an engine: the first finding of an image, or none. There is no code here.
#![tactic(auto)]

pub mod examples;
mod laws;

pub use laws::{
    a_consistent_image_is_showable, an_engine_of_a_consistent_image_holds_its_state,
    each_check_of_a_consistent_image_passes, held_changes_of_a_consistent_image_are_sound,
    held_changes_of_a_consistent_image_come_back, indexes_of_a_sound_catalog_are_stored,
    indexes_of_a_sound_catalog_have_their_own_rules, indexes_that_a_catalog_tells_have_their_trees,
    keys_of_a_consistent_image_are_unique, newest_records_of_a_consistent_image_are_of_their_rows,
    newest_records_of_a_consistent_image_are_sound,
    records_before_changes_of_a_consistent_image_are_sound, records_of_a_consistent_image_rise,
    rows_before_changes_without_missing_values_are_whole, rows_of_a_consistent_image_are_sound,
    rows_of_a_consistent_image_are_stored, rows_without_a_finding_are_sound,
    rows_without_missing_values_are_whole, sessions_of_a_consistent_image_are_sound,
    sums_of_a_consistent_image_are_of_escrow_columns, tables_of_a_consistent_image_are_sound,
    tables_that_a_sound_catalog_tells_are_built, the_state_of_a_consistent_image_is_sound,
    values_without_a_finding_are_whole,
};
