//! Why no checkpoint was read.

use thiserror::Error;

/// Why no checkpoint was read. Where several causes stand together, the first in this list is answered.
#[derive(Clone, Copy, Debug, PartialEq, Eq, Error)]
pub enum CheckFault {
    /// No gate is open though the log has bytes, or the file that is looked at is no checkpoint file.
    #[error("JET_errCheckpointCorrupt")]
    CheckpointCorrupt,
    /// The number of the checkpoint, its number of log entries, or the generation or the stream position where
    /// its log goes on is 2^62 or more.
    #[error("JET_errLogSequenceEnd")]
    LogSequenceEnd,
    /// A slot in use is not whole, holds no page, or holds a page of another number.
    #[error("JET_errReadVerifyFailure")]
    ReadVerifyFailure,
    /// A call of the volume failed, and its count of faults rose.
    #[error("the volume failed")]
    VolumeFault,
    /// There was no memory for the image.
    #[error("out of memory")]
    OutOfMemory,
}
