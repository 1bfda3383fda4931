//! Blocks over volumes in memory: their bytes, the room that they have, and a log that is opened again behind them.

use crate::reopening::{Reopened, reopen};
use jet_volume::{File, LogStart, MemVolume, Volume};
use log_ring::{LogRing, MAX_PAYLOAD, RingFault, scan};
use std::alloc::Global;
use std::process::Abort;
use std::test::*;

/// Where the log of a new volume begins.
pub const START: LogStart = LogStart {
    generation: 1,
    offset: 0,
    position: 0,
};

/// A begin of session 1.
pub static ENTRY: &[u8] = &[5, 0, 0, 0, 5, 1, 0, 0, 0];

/// A log whose one block holds the entry.
pub static LOG: &[u8] = &[
    1, 1, 0, 0, 0, 0, 0, 0, 0, 0, 0, 0, 0, 0, 0, 0, 0, 9, 0, 0, 0, 5, 0, 0, 0, 5, 1, 0, 0, 0, 0,
];

/// A volume that has nothing but this log.
pub fn of_log(rt: &impl Abort, alloc: Global, log: &[u8]) -> MemVolume {
    let log = log.to_vec(alloc).expect(rt, "memory");
    MemVolume::of_files(
        alloc,
        Vec::new(alloc),
        Vec::new(alloc),
        Vec::new(alloc),
        log,
    )
}

/// Puts an open block of the entry into a log that has the bytes for it.
pub fn put_block(log: &mut [u8], at: usize, generation: u64, position: u64) {
    if at > 1 << 30 || log.len() < at + 30 {
        return;
    }
    let block = &mut log[at..at + 30];
    block.copy_from_slice(&LOG[..30]);
    block[1..9].copy_from_slice(&generation.to_le_bytes());
    block[9..17].copy_from_slice(&position.to_le_bytes());
}

/// Appends a piece that a block may hold, while the numbers of the ring are as small as those of each test.
pub fn append<V: Volume>(
    ring: &mut LogRing,
    volume: &mut V,
    bytes: &[u8],
) -> Result<(), RingFault> {
    let LogStart {
        generation,
        position,
        ..
    } = ring.end();
    if bytes.is_empty() || bytes.len() > MAX_PAYLOAD || generation > 99 || position > 1 << 40 {
        return Err(RingFault::NoRoom);
    }
    ring.append(volume, bytes)
}

#[test]
fn the_first_block_of_a_log(rt: HostRuntime) {
    let mut volume = MemVolume::new(rt.alloc(), Vec::new(rt.alloc()), None);
    let mut ring = LogRing::at(rt.alloc(), START, 1).expect(&rt, "memory");
    assert!(&rt; append(&mut ring, &mut volume, ENTRY) == Ok(()));
    assert!(&rt; volume.bytes(File::Log) == LOG);
    assert!(&rt; ring.end().offset == 30 && ring.end().position == 9);
    assert!(&rt; gives(rt.alloc(), &mut volume, ENTRY));
}

/// Whether the log gives the bytes, and ends where a ring ends that appended them.
fn gives(alloc: Global, volume: &mut MemVolume, bytes: &[u8]) -> bool {
    match scan(alloc, volume, START) {
        Ok((stream, end)) => stream.as_slice() == bytes && end.position == bytes.len() as u64,
        Err(_) => false,
    }
}

/// A log of one block that is opened, gets another one, crashes and is opened again.
fn with_another(rt: &impl Abort, alloc: Global, stop: Option<u64>, pick: u64) -> Reopened {
    let fresh = of_log(rt, alloc, LOG);
    let volume = fresh.crash(0, Vec::new(alloc), stop).expect(rt, "memory");
    reopen(alloc, volume, START, ENTRY, pick)
        .ok()
        .expect(rt, "opened")
}

#[test]
fn a_log_is_opened_again_after_each_crash(rt: HostRuntime) {
    for pick in 0..40 {
        let log = with_another(&rt, rt.alloc(), None, pick);
        assert!(&rt; log.acknowledged && log.after.len() == 18, "{pick}");
    }
}

// The calls 7 to 10 of the volume are those of the append: two writes, each with its sync.
#[test]
fn a_log_is_opened_again_after_each_stop(rt: HostRuntime) {
    for stop in 7..=11 {
        for pick in 0..40 {
            let log = with_another(&rt, rt.alloc(), Some(stop), pick);
            assert!(&rt; log.acknowledged == (stop == 11), "{stop} and {pick}");
            assert!(&rt; has_one_or_both(&log), "{stop} and {pick}");
        }
    }
}

/// Whether the log has both blocks, or the first one where the second was not acknowledged.
fn has_one_or_both(log: &Reopened) -> bool {
    log.after.len() == 18 || (log.after.len() == 9 && !log.acknowledged)
}

/// Appends 128 of the longest blocks, and answers whether each of the first eight generations got 16.
fn fill(ring: &mut LogRing, volume: &mut MemVolume, bytes: &[u8]) -> bool {
    for index in 0..128u64 {
        if append(ring, volume, bytes).is_err() || ring.end().generation != 1 + index / 16 {
            return false;
        }
    }
    true
}

// Behind 16 blocks of 65,521 bytes there is room for 22 and 218.
#[test]
fn eight_generations_have_room_for_these_blocks(rt: HostRuntime) {
    let mut volume = MemVolume::new(rt.alloc(), Vec::new(rt.alloc()), None);
    let mut ring = LogRing::at(rt.alloc(), START, 1).expect(&rt, "memory");
    let bytes = vec![in rt.alloc(); 7u8; 65_500].expect(&rt, "memory");
    assert!(&rt; fill(&mut ring, &mut volume, &bytes));
    assert!(&rt; append(&mut ring, &mut volume, &bytes[..219]) == Err(RingFault::NoRoom));
    assert!(&rt; append(&mut ring, &mut volume, &bytes[..218]) == Ok(()));
    assert!(&rt; ring.end().generation == 8 && ring.end().offset == 1_048_575);
    assert!(&rt; append(&mut ring, &mut volume, &[7]) == Err(RingFault::NoRoom));
    assert!(&rt; len_of(rt.alloc(), &mut volume) == Some(128 * 65_500 + 218));
}

/// How many bytes the log of a volume gives.
fn len_of(alloc: Global, volume: &mut MemVolume) -> Option<usize> {
    match scan(alloc, volume, START) {
        Ok((stream, _end)) => Some(stream.len()),
        Err(_) => None,
    }
}

// The checkpoint of generation 2 makes room for one generation more, whose slot is the first.
#[test]
fn a_checkpoint_makes_room(rt: HostRuntime) {
    let mut volume = MemVolume::new(rt.alloc(), Vec::new(rt.alloc()), None);
    let end = LogStart {
        generation: 8,
        offset: 1_048_336,
        position: 0,
    };
    let mut ring = LogRing::at(rt.alloc(), end, 1).expect(&rt, "memory");
    assert!(&rt; append(&mut ring, &mut volume, &[7; 219]) == Err(RingFault::NoRoom));
    assert!(&rt; volume.bytes(File::Log).is_empty());
    assert!(&rt; ring.end() == end);
    if end.generation == ring.end().generation {
        ring.set_standing(2);
    }
    assert!(&rt; append(&mut ring, &mut volume, &[7; 219]) == Ok(()));
    assert!(&rt; ring.end().generation == 9 && ring.end().offset == 240);
}
