//! The files of a first run: a session makes a table with two columns and a primary index, and puts two records in one transaction.

use crate::files::{Node, Numbers, checkpoint, page, put, put_block};
use jet_volume::MemVolume;
use std::alloc::Global;
use std::process::Abort;
use std::test::*;

/// The entries of the run.
pub static ENTRIES: &[&[u8]] = &[
    b"\x05\0\0\0\x01\x01\0\0\0",
    b"\x0c\0\0\0\x0f\x01\0\0\0\x01\x01\0\0\0\x01T",
    b"\x11\0\0\0\x0f\x01\0\0\0\x03\x01\0\0\0\x01\0\x05\0\x02id",
    b"\x13\0\0\0\x0f\x01\0\0\0\x03\x01\0\0\0\x80\0\x0b\0\x04name",
    b"\x1e\0\0\0\x0f\x01\0\0\0\x05\x01\0\0\0\x01\0\0\0\0\0\x01\0\0\0\x01\0\x01\x01\0\0\0\x02pk",
    b"\x09\0\0\0\x03\x01\0\0\0\x01\0\0\0",
    b"\x05\0\0\0\x05\x01\0\0\0",
    b"\x26\0\0\0\x07\x01\0\0\0\x01\0\0\0\x05\0\x7f\x80\0\0\x02\0\x02\0\x01\0\x04\0\0\0\x02\0\0\0\x80\0\x03\0\0\0bob",
    b"\x1d\0\0\0\x07\x01\0\0\0\x01\0\0\0\x05\0\x7f\x7f\xff\xff\xfd\0\x01\0\x01\0\x04\0\0\0\xfd\xff\xff\xff",
    b"\x05\0\0\0\x0e\x01\0\0\0",
];

/// The bookmarks of the two records, the first one with a name.
pub static BOB: &[u8] = b"\x7f\x80\0\0\x02";

pub static NAMELESS: &[u8] = b"\x7f\x7f\xff\xff\xfd";

/// From which entry to which one each block of the log has them: a schema step and a commit flush.
pub static BLOCKS: &[(usize, usize)] = &[(0, 2), (2, 3), (3, 4), (4, 5), (5, 10)];

/// The catalog before the first table, and behind the run: its greatest number of a table, the table with its columns and its index.
static NO_TABLE: &[Node] = &[(b"\0\0\0\0\0\0\0", b"\0\0\0\0")];

pub static TABLE: &[Node] = &[
    (b"\0\0\0\0\0\0\0", b"\x01\0\0\0"),
    (
        b"\x01\0\0\0\x01\0\0",
        b"\0\0\0\0\x01\0\0\0\x01\0\x80\0\xff\0\x01T",
    ),
    (b"\x02\0\0\0\x01\0\x01", b"\x05\0\x02id"),
    (b"\x02\0\0\0\x01\0\x80", b"\x0b\0\x04name"),
    (
        b"\x03\0\0\0\x01\0\x01",
        b"\0\0\0\0\x01\0\0\0\x01\0\x01\x01\0\0\0\x02pk",
    ),
];

/// The records behind the run.
pub static RECORDS: &[Node] = &[
    (
        b"\x7f\x7f\xff\xff\xfd",
        b"\x01\0\x01\0\0\x04\0\xfd\xff\xff\xff",
    ),
    (
        b"\x7f\x80\0\0\x02",
        b"\x02\0\x01\0\0\x04\0\x02\0\0\0\x80\0\0\x03\0bob",
    ),
];

/// The live part of a database without a session.
pub static NO_SESSION: &[u8] = &[0; 8];

/// The entries from one to another, one after the other.
pub fn entries(rt: &impl Abort, alloc: Global, from: usize, to: usize) -> Vec<u8> {
    let mut bytes = Vec::new(alloc);
    for place in from..to.min(ENTRIES.len()) {
        put(rt, &mut bytes, ENTRIES[place]);
    }
    bytes
}

/// The first blocks of the log, so many.
pub fn log(rt: &impl Abort, alloc: Global, count: usize) -> Vec<u8> {
    let mut log = Vec::new(alloc);
    let mut position = 0u64;
    for place in 0..count.min(BLOCKS.len()) {
        let (from, to) = BLOCKS[place];
        let payload = entries(rt, alloc, from, to);
        put_block(rt, &mut log, position, payload.as_slice());
        position = position.saturating_add(payload.len() as u64);
    }
    log
}

/// The first checkpoint, which an empty database is opened with: its catalog is page 0, in its first slot.
pub fn first_checkpoint(rt: &impl Abort, alloc: Global) -> Vec<u8> {
    let numbers = Numbers {
        checkpoint: 1,
        entries: 0,
        offset: 0,
        position: 0,
        catalog_root: 0,
    };
    checkpoint(rt, alloc, &numbers, &[0], NO_SESSION)
}

/// The second checkpoint, behind the run and its whole log: its records are page 0, in its second slot, page 1 would have long values, and
/// its catalog is page 2.
pub fn second_checkpoint(rt: &impl Abort, alloc: Global) -> Vec<u8> {
    let numbers = Numbers {
        checkpoint: 2,
        entries: 10,
        offset: 314,
        position: 209,
        catalog_root: 2,
    };
    checkpoint(rt, alloc, &numbers, &[1, 0, 0], NO_SESSION)
}

/// The database file of both checkpoints. The second slot of page 1 has no page yet.
pub fn database(rt: &impl Abort, alloc: Global) -> Vec<u8> {
    let mut bytes = page(rt, alloc, 0, 1, NO_TABLE);
    put(rt, &mut bytes, page(rt, alloc, 0, 1, RECORDS).as_slice());
    put(rt, &mut bytes, page(rt, alloc, 1, 1, &[]).as_slice());
    put(rt, &mut bytes, &[0; 4096]);
    put(rt, &mut bytes, page(rt, alloc, 2, 1, TABLE).as_slice());
    bytes
}

/// A volume of the run that stopped before its closing checkpoint, with this log.
pub fn stopped(rt: &impl Abort, alloc: Global, log: Vec<u8>) -> MemVolume {
    let database = page(rt, alloc, 0, 1, NO_TABLE);
    let first = first_checkpoint(rt, alloc);
    MemVolume::of_files(alloc, database, first, Vec::new(alloc), log)
}
