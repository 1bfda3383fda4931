//! A log whose bytes are to be kept on a volume.

ghost use Rattle.std.specs.Prelude.{◌≡◌, ◌≤◌, ◌-◌, ◌++◌, drop, length, min, take};
ghost use Rattle.entry_log.specs.LogState.{KeptStream, bytes_from, stream_end};

use entry_log::EntryLog;

/// The bytes of a log that stand in memory: those from some position on. A position counts bytes from 0, where the log began.
pub trait LogBytes {
    /// The bytes that are there, and the position of the first of them.
    ghost stream: { Self → KeptStream };

    /// The position behind the last byte.
    fn stream_end(&self) -> u64
        ensures { result ≡ stream_end (stream self.now) };

    /// Copies the bytes from a position on, as many as the slice has room for and the log has. It tells how many; the rest of
    /// the slice stays.
    fn pending(&self, from: u64, into: &mut [u8]) -> usize
        requires kept { (stream self.now).from ≤ from }
        requires before { from ≤ stream_end (stream self.now) }
        ensures count { result ≡ min (length into.old) (stream_end (stream self.now) - from) }
        ensures bytes { into.new ≡ take result (bytes_from from (stream self.now)) ++ drop result into.old };
}

impl LogBytes for EntryLog {
    ghost stream = { λ log. log.stream };

    fn stream_end(&self) -> u64 {
        EntryLog::stream_end(self)
    }

    fn pending(&self, from: u64, into: &mut [u8]) -> usize {
        EntryLog::pending(self, from, into)
    }
}
