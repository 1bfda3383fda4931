//! What the program is told of a line.

use crate::flushed::Flushed;
use session_local::Reply;

/// The number of a call's line, what the call is answered, and what came of the log's flush. A line is not to be printed where its
/// flush found no room, and the run goes on only as the flush says.
#[derive(Clone, Copy, Debug, PartialEq, Eq)]
pub struct Served {
    pub n: u64,
    pub reply: Reply,
    pub flushed: Flushed,
}

/// The number of a call's line, and what the call is answered once the log is flushed, where that is asked.
#[derive(Clone, Copy, Debug, PartialEq, Eq)]
pub struct LineAnswer {
    pub n: u64,
    pub reply: Reply,
    pub flush: bool,
}
