//! The blocks of the log file, in a ring of eight generations, and what every crash leaves of them.
#![tactic(auto)]

mod fault;
mod laws;
mod places;
mod ring;
mod scanning;
mod writing;

pub use fault::{RingFault, ScanFault, VolumeFault};
pub use laws::{first_block, ready_from_the_end, room, scans_once};
pub use places::{MAX_PAYLOAD, SLOT_LEN};
pub use ring::LogRing;
pub use scanning::scan;
