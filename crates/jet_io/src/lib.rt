//! The outside as the engine sees it: bytes that come in, bytes that go out, and a count of faults for each.
#![tactic(auto)]

mod counted;
mod failed;
mod faults;
mod gate;
mod memory;
mod rises;
mod schedule;
mod sink;
mod source;
mod system;
mod whole;

pub use failed::Failed;
pub use faults::FaultCount;
pub use gate::{Gate, OpenGate};
pub use memory::{MemSink, MemSource};
pub use schedule::Schedule;
pub use sink::Sink;
pub use source::Source;
pub use system::{StdSink, StdSource};
pub use whole::write_all;
