//! The entries of the indexes of a table of an image, against those of all variants of its records.

mod derived;
mod differing;
mod entry;
mod indexes;
mod laws;
mod stored;
mod variants;

pub use indexes::DifferingEntry;
pub use laws::variants_of_a_table_without_a_finding_are_readable;
pub use variants::TableVariants;
