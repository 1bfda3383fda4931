//! The ordered run of a script's lines: the engine with the sessions of the script, each with its own state and the number after
//! its last call that looked at the shared state, and each line printed before the next is served. What becomes of the bytes of
//! the engine's log is another's: a run goes over any engine that makes steps and flushes, and stops behind a line whose flush failed.
#![tactic(auto)]

mod flushed;
mod laws;
mod run;
mod run_engine;
mod served;
mod session_engine;
mod sessions;

pub use flushed::{After, Flush, Flushed};
pub use run::{LineFault, run_lines};
pub use run_engine::RunEngine;
pub use session_engine::SessionEngine;
