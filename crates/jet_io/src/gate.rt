//! Where a run with threads tells how far it is.

use jet_base::Session;

/// Is told of the points that a run with threads passes. A test can hold a thread back there. At none of
/// them does the thread hold a latch of the engine.
pub trait Gate {
    /// A session's worker is about to serve the session's own line `place`, from 1.
    fn before(&self, session: Session, place: u32);

    /// A flushing call of the session has just taken the lock of the store.
    fn inside_flush(&self, session: Session);

    /// The session's worker has served its last line.
    fn ended(&self, session: Session);

    /// The cleaner has ended a turn, which removed so many changes.
    fn cleaned(&self, removed: u32);
}

/// A gate that is always open: it does nothing. The program uses it.
#[derive(Clone, Copy, Debug)]
pub struct OpenGate;

impl Gate for OpenGate {
    fn before(&self, _session: Session, _place: u32) {}

    fn inside_flush(&self, _session: Session) {}

    fn ended(&self, _session: Session) {}

    fn cleaned(&self, _removed: u32) {}
}
