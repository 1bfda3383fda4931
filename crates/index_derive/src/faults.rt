//! Why an index has no entries of a record.

ghost use Rattle.std.specs.Prelude.{◌≡◌};
ghost use Rattle.index_derive.specs.declared.faults.DeriveFault.TheVariants as DeriveFault;

use jet_base::OutOfMemory;
use thiserror::Error;

/// Why the entries of a record could not be made.
#[derive(Clone, Copy, Debug, PartialEq, Eq, Error)]
pub enum DeriveFault {
    /// A column of a key is NULL in an index that has no NULL.
    #[error("a key has a NULL")]
    NullKeyDisallowed,
    /// A key is cut in an index that has no cut key.
    #[error("a key is cut")]
    KeyTruncated,
    /// There was no memory for the list of keys.
    #[error("out of memory")]
    OutOfMemory,
}

impl From<OutOfMemory> for DeriveFault {
    ghost from_gives = { λ _ fault. fault ≡ DeriveFault.OutOfMemory };

    fn from(_: OutOfMemory) -> DeriveFault {
        DeriveFault::OutOfMemory
    }
}
