//! Why a store gave no answer.

use checkpoint::CheckFault;
use thiserror::Error;

/// Why a call of a store did not do what it was asked.
#[derive(Clone, Copy, Debug, PartialEq, Eq, Error)]
pub enum StoreFault {
    /// An earlier call of this store met a fault of the volume, whose count of faults was this then. The volume is
    /// to be opened again.
    #[error("the store is down since fault {0} of the volume")]
    Down(u64),
    /// The next generation of the log is 8 or more above that of the standing checkpoint. A checkpoint makes room.
    #[error("the log has no room before the next checkpoint")]
    NoRoom,
    /// A call of the volume failed, and its count of faults rose. What came of the call is open: the volume is to be
    /// opened again.
    #[error("the volume failed")]
    VolumeFault,
}

/// A volume that was not opened, and why.
#[derive(Drop)]
pub struct OpenFault<V> {
    /// The volume, with the files that it was handed in with.
    pub volume: V,
    /// The refusal that came first. Want of memory is also that for the bytes of the log.
    pub cause: CheckFault,
}
