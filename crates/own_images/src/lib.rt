//! Laws of the images that an engine writes: what its own store shows has no finding; and what a consistent image has is what a store
//! keeps. There is no code here.
#![tactic(auto)]

mod laws;
mod stores;

pub use laws::{
    an_engine_image_is_consistent, an_engine_image_shows_its_state,
    the_catalog_of_a_store_is_read_back, the_engine_of_an_own_image_is_settled,
    the_entries_of_a_store_are_right, the_held_changes_of_an_engine_are_in_order,
    the_held_changes_of_an_engine_are_sound, the_held_changes_of_an_engine_can_be_told,
    the_live_part_of_an_engine_can_be_written, the_live_part_of_an_engine_is_sound,
    the_long_values_of_a_store_are_whole, the_long_values_of_a_store_have_their_nodes,
    the_references_of_a_store_are_right, the_rows_of_an_engine_are_sound,
    the_sessions_of_an_engine_are_sound, the_tables_of_a_store_are_shown,
    the_trees_of_a_store_have_no_fault, the_unique_keys_of_an_engine_are_free,
    what_is_found_of_an_engine_image, what_is_found_of_an_own_image,
};
pub use stores::{
    the_tables_of_a_consistent_image_are_a_store, the_trees_of_a_consistent_image_are_of_a_store,
    what_a_store_of_a_consistent_image_shows,
};
