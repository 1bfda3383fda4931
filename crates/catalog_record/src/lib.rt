//! The nodes of the catalog: written without memory, read, and kept in a B-tree of a space that other trees share.
#![tactic(auto)]

mod buffer;
mod fault;
mod fields;
mod reading;
mod steps;
mod tree;
mod writing;

pub use buffer::{LARGEST_DATA, NodeBuffer};
pub use fault::CatalogFault;
pub use fields::key_of;
pub use reading::decode;
pub use tree::{CatalogTree, other_catalogs_stay};
