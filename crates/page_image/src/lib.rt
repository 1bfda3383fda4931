//! Pages of 4,096 bytes: sorted lists of nodes, each a key with data in a place of fixed extent.
#![tactic(auto)]

mod laws;
mod offsets;
mod order;
mod page;
mod spelling;

pub use laws::nodes_of_a_page_are_few;
pub use offsets::MAX_NODES;
pub use page::{BadPage, Full, Page};
pub use spelling::{HEAD_BYTES, INNER, LEAF, NODE_HEAD_BYTES, PAGE_BYTES};
