//! The rows of a table of an image, read in place, and what is asked of them and of their nodes.

mod before;
mod fitting;
mod indexing;
mod laws;
mod pass;
mod shown;
mod sound_nodes;
mod table;

pub use laws::{
    tables_of_a_sound_catalog_have_legal_rules,
    tables_without_broken_or_missing_values_have_readable_rows,
};
pub use pass::unsound_row;
pub use shown::ImageRow;
pub use table::TableRows;
