//! Why a change is not taken.

use thiserror::Error;

/// Why a change was not taken. The held changes are then as before.
#[derive(Clone, Copy, Debug, PartialEq, Eq, Error)]
pub enum VersionFault {
    /// The span would exceed its limit.
    #[error("the span of the version store would exceed its limit")]
    OverSpan,
    /// There was no memory for the change.
    #[error("out of memory")]
    OutOfMemory,
}
