//! What recoveries come to, told by a few numbers.

use crate::first_run::{BOB, NAMELESS};
use engine_core::Engine;
use jet_base::{ColumnId, TableId};
use jet_volume::MemVolume;
use soft_recovery::{RecoverCause, recover};
use std::alloc::Global;

/// The limit of the version store's span, in bytes.
pub const LIMIT: u64 = 1_000_000;

/// What a recovery comes to.
#[derive(Clone, Copy, Debug, PartialEq, Eq)]
pub enum Outcome {
    /// An engine.
    Holds(Held),
    CheckpointCorrupt,
    LogSequenceEnd,
    ReadVerifyFailure,
    DatabaseCorrupted,
    LogFileCorrupt,
    VolumeFault,
    OutOfMemory,
}

/// What an engine holds of the first run.
#[derive(Clone, Copy, Debug, PartialEq, Eq)]
pub struct Held {
    /// How many log entries were made.
    pub number: u64,
    pub tables: usize,
    /// Whether the first record is there, with its name.
    pub bob: bool,
    /// Whether the second record is there, without a name.
    pub nameless: bool,
}

/// The outcome of so many entries and tables, without a record.
pub fn holds(number: u64, tables: usize) -> Outcome {
    Outcome::Holds(Held {
        number,
        tables,
        bob: false,
        nameless: false,
    })
}

/// The outcome of the whole run.
pub fn holds_all() -> Outcome {
    Outcome::Holds(Held {
        number: 10,
        tables: 1,
        bob: true,
        nameless: true,
    })
}

/// Whether the record under a bookmark is there, with a name or without one.
fn has(engine: &Engine, bookmark: &[u8], name: Option<&[u8]>) -> bool {
    match engine.tables().newest(TableId(1), bookmark) {
        Some(row) => {
            let mut bytes = [0; 4];
            match (row.read(ColumnId(128), 0, &mut bytes), name) {
                (Some((count, _)), Some(name)) => &bytes[..count] == name,
                (None, None) => true,
                _ => false,
            }
        }
        None => false,
    }
}

/// What an engine holds of the first run.
pub fn held_by(engine: &Engine) -> Held {
    Held {
        number: engine.number(),
        tables: engine.tables().tables().len(),
        bob: has(engine, BOB, Some(b"bob")),
        nameless: has(engine, NAMELESS, None),
    }
}

/// The outcome of a refusal.
pub fn refused(cause: &RecoverCause) -> Outcome {
    match cause {
        RecoverCause::CheckpointCorrupt => Outcome::CheckpointCorrupt,
        RecoverCause::LogSequenceEnd => Outcome::LogSequenceEnd,
        RecoverCause::ReadVerifyFailure => Outcome::ReadVerifyFailure,
        RecoverCause::DatabaseCorrupted(_) => Outcome::DatabaseCorrupted,
        RecoverCause::LogFileCorrupt => Outcome::LogFileCorrupt,
        RecoverCause::VolumeFault => Outcome::VolumeFault,
        RecoverCause::OutOfMemory => Outcome::OutOfMemory,
    }
}

/// Recovers a volume, without a write.
pub fn outcome_of(alloc: Global, volume: MemVolume) -> Outcome {
    match recover(alloc, LIMIT, volume, false) {
        Ok(recovered) => Outcome::Holds(held_by(&recovered.engine)),
        Err(fault) => refused(&fault.cause),
    }
}
