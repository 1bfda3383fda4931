//! Why a row has no bytes, or bytes are no row.

ghost use Rattle.std.specs.Prelude.{◌≡◌};
ghost use Rattle.column_set.specs.declared.row_fault.RowFault.TheVariants.{OutOfMemory};

use std::alloc::{AllocError, AllocFailed};
use thiserror::Error;

/// Why a row was not written or read.
#[derive(Clone, Copy, Debug, PartialEq, Eq, Error)]
pub enum RowFault {
    /// The row's size is above 1,700 bytes.
    #[error("the row is too big")]
    RecordTooBig,
    /// The bytes are no row.
    #[error("the bytes are no row")]
    BadRecord,
    /// There was no memory for what the call had to make.
    #[error("out of memory")]
    OutOfMemory,
}

impl From<jet_base::OutOfMemory> for RowFault {
    ghost from_gives = { λ _ e. e ≡ OutOfMemory };

    fn from(_: jet_base::OutOfMemory) -> RowFault {
        RowFault::OutOfMemory
    }
}

impl From<AllocError> for RowFault {
    ghost from_gives = { λ _ e. e ≡ OutOfMemory };

    fn from(_: AllocError) -> RowFault {
        RowFault::OutOfMemory
    }
}

impl<T: Drop> From<AllocFailed<T>> for RowFault {
    ghost from_gives = { λ _ e. e ≡ OutOfMemory };

    fn from(_: AllocFailed<T>) -> RowFault {
        RowFault::OutOfMemory
    }
}
