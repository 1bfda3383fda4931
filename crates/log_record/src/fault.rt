//! Why bytes are no log entry.

ghost use Rattle.std.specs.Prelude.{◌≡◌};
ghost use Rattle.log_record.specs.declared.fault.EntryFault.TheVariants.{OutOfMemory};

use std::alloc::{AllocError, AllocFailed};
use thiserror::Error;

/// Why no log entry was read.
#[derive(Clone, Copy, Debug, PartialEq, Eq, Error)]
pub enum EntryFault {
    /// The bytes begin with no entry, and are no front of one.
    #[error("the bytes are no log entry")]
    BadEntry,
    /// There was no memory for the entry.
    #[error("out of memory")]
    OutOfMemory,
}

impl From<jet_base::OutOfMemory> for EntryFault {
    ghost from_gives = { λ _ e. e ≡ OutOfMemory };

    fn from(_: jet_base::OutOfMemory) -> EntryFault {
        EntryFault::OutOfMemory
    }
}

impl From<AllocError> for EntryFault {
    ghost from_gives = { λ _ e. e ≡ OutOfMemory };

    fn from(_: AllocError) -> EntryFault {
        EntryFault::OutOfMemory
    }
}

impl<T: Drop> From<AllocFailed<T>> for EntryFault {
    ghost from_gives = { λ _ e. e ≡ OutOfMemory };

    fn from(_: AllocFailed<T>) -> EntryFault {
        EntryFault::OutOfMemory
    }
}
