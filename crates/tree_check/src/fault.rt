//! Why no tree was found.

use thiserror::Error;

/// Why what stands below a root page is no tree of its own pages: the first fault that the walk meets, with the page's number.
#[derive(Clone, Copy, Debug, PartialEq, Eq, Error)]
pub enum WalkFault {
    /// The page has a mark: this walk or an earlier one met it before.
    #[error("page {0} was met before")]
    MetBefore(u32),
    /// The page is free, or not what a tree has in its place.
    #[error("the tree is broken at page {0}")]
    Broken(u32),
}
