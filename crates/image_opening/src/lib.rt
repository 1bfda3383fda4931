//! What an image shows, opened step by step: the catalog that its pages tell, the trees of its tables, and the pages that no tree has.
#![tactic(auto)]

mod catalog;
mod fault;
mod forest;
mod kept;
mod making;
mod opened;
mod reading;
mod rules;
mod told;
mod trees;
mod walks;

pub use catalog::{open_catalog, open_told, sound_catalog, what_opens_first_is_found_first};
pub use fault::OpenFault;
pub use forest::{unmarked_page, walked_trees_are_a_forest};
pub use making::TreeRoots;
pub use opened::{OpenedCatalog, OpenedIndex, OpenedTable};
pub use told::{ToldCatalog, ToldTable};
pub use trees::{open_trees, what_trees_open_next_is_found_next};
