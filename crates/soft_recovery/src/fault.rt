//! Why a log is not replayed.

use thiserror::Error;

/// Why the bytes of a log were not replayed.
#[derive(Clone, Copy, Debug, PartialEq, Eq, Error)]
pub enum ReplayFault {
    /// `JET_errLogFileCorrupt`: the bytes are no log of the engine's state. Somewhere stands neither an entry that may come next nor the front of one.
    #[error("the log is corrupt")]
    LogFileCorrupt,
    /// There was no memory. It tells nothing of the bytes.
    #[error("out of memory")]
    OutOfMemory,
}
