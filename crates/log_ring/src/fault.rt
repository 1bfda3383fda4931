//! Why a call of the ring gave no answer.

use jet_io::Failed;
use thiserror::Error;

/// A call of the volume failed, and its count of faults rose.
pub type VolumeFault = Failed;

/// Why bytes were not appended.
#[derive(Clone, Copy, Debug, PartialEq, Eq, Error)]
pub enum RingFault {
    /// The next generation is 8 or more above that of the standing checkpoint.
    #[error("the log has no room before the next checkpoint")]
    NoRoom,
    /// A call of the volume failed, and its count of faults rose.
    #[error("the volume failed")]
    VolumeFault,
}

/// Why a log was not scanned.
#[derive(Clone, Copy, Debug, PartialEq, Eq, Error)]
pub enum ScanFault {
    /// There was no memory for the bytes.
    #[error("out of memory")]
    OutOfMemory,
    /// A call of the volume failed, and its count of faults rose.
    #[error("the volume failed")]
    VolumeFault,
}
