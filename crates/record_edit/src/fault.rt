//! Why a value is not set.

use jet_base::{Jet, OutOfMemory};
use thiserror::Error;

/// Why a value is not set. The buffer is then as it was.
#[derive(Clone, Copy, Debug, PartialEq, Eq, Error)]
pub enum EditFault {
    /// The call is refused with this reply.
    #[error("the value is refused")]
    Refused(Jet),
    /// There was no memory for the value. It would not have been refused.
    #[error("out of memory")]
    OutOfMemory,
}

impl From<OutOfMemory> for EditFault {
    ghost use Rattle.std.specs.Prelude.{◌≡◌};
    ghost use Rattle.record_edit.specs.declared.fault.EditFault.TheVariants as fault;

    ghost from_gives = { λ _ made. made ≡ fault.OutOfMemory };

    fn from(_: OutOfMemory) -> EditFault {
        EditFault::OutOfMemory
    }
}
