//! Why no trees were opened.

ghost use Rattle.std.specs.Prelude.{◌≡◌};

use jet_base::OutOfMemory;
use thiserror::Error;

/// Why the pages are no trees of an engine: the first fault that the opening meets.
#[derive(Clone, Copy, Debug, PartialEq, Eq, Error)]
pub enum OpenFault {
    /// The page of this number is in two trees, or twice in one.
    #[error("page {0} is in two places")]
    Pages(u32),
    /// The tree below a root page, the first number, is none at a page, the second one.
    #[error("the tree of page {0} is broken at page {1}")]
    Tree(u32, u32),
    /// The nodes of the catalog's tree are not those of a sound catalog.
    #[error("the catalog is broken")]
    Catalog,
    /// There was no memory. It tells nothing of the pages.
    #[error("out of memory")]
    OutOfMemory,
}

impl From<OutOfMemory> for OpenFault {
    ghost use Rattle.image_opening.specs.declared.fault.OpenFault.{OpenFault};

    ghost from_gives = { λ _ fault. fault ≡ OpenFault.OutOfMemory };

    fn from(_: OutOfMemory) -> OpenFault {
        OpenFault::OutOfMemory
    }
}
