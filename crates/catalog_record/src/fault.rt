//! Why nodes are none of a catalog.

use thiserror::Error;

/// Why no item was read from a node.
#[derive(Clone, Copy, Debug, PartialEq, Eq, Error)]
pub enum CatalogFault {
    /// The key and the data tell no item.
    #[error("the node is none of a catalog")]
    BadNode,
    /// There was no memory for the item.
    #[error("out of memory")]
    OutOfMemory,
}
