//! Why a row is not put.

use thiserror::Error;

/// Why a row is not put into a temporary table, which is then as it was.
#[derive(Clone, Copy, Debug, PartialEq, Eq, Error)]
pub enum TempFault {
    /// The row's size is above 1,700 bytes.
    #[error("the row is too big")]
    TooBig,
    /// The table's keys are unique, and a row has the key.
    #[error("a row has the key")]
    Double,
    /// There was no memory for the row.
    #[error("out of memory")]
    OutOfMemory,
}
