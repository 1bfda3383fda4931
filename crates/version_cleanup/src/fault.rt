//! Why a session does not begin.

use thiserror::Error;

/// Why a session did not begin. The sessions are then as before.
#[derive(Clone, Copy, Debug, PartialEq, Eq, Error)]
pub enum EnterFault {
    /// 64 sessions are live.
    #[error("64 sessions are live")]
    OutOfSessions,
    /// There was no memory for the session.
    #[error("out of memory")]
    OutOfMemory,
}
