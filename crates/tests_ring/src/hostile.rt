//! Scans over logs that were changed, are cut short, or hold blocks that are not the next ones.

use crate::blocks::{START, of_log, put_block};
use jet_volume::LogStart;
use log_ring::scan;
use std::alloc::Global;
use std::process::Abort;
use std::test::*;

/// Three blocks of generation 1, with 9, 4 and 6 bytes, and a closed gate.
static LOG: &[u8] = &[
    1, 1, 0, 0, 0, 0, 0, 0, 0, 0, 0, 0, 0, 0, 0, 0, 0, 9, 0, 0, 0, 11, 12, 13, 14, 15, 16, 17, 18,
    19, 1, 1, 0, 0, 0, 0, 0, 0, 0, 9, 0, 0, 0, 0, 0, 0, 0, 4, 0, 0, 0, 21, 22, 23, 24, 1, 1, 0, 0,
    0, 0, 0, 0, 0, 13, 0, 0, 0, 0, 0, 0, 0, 6, 0, 0, 0, 31, 32, 33, 34, 35, 36, 0,
];

/// Their payload.
static STREAM: &[u8] = &[
    11, 12, 13, 14, 15, 16, 17, 18, 19, 21, 22, 23, 24, 31, 32, 33, 34, 35, 36,
];

/// Whether a log gives these bytes from a place on.
fn gives(rt: &impl Abort, alloc: Global, log: &[u8], from: LogStart, want: &[u8]) -> bool {
    if from.generation < 1 || from.generation > 99 || from.position > 1 << 40 {
        return false;
    }
    let mut volume = of_log(rt, alloc, log);
    match scan(alloc, &mut volume, from) {
        Ok((stream, _end)) => stream.as_slice() == want,
        Err(_) => false,
    }
}

/// Where the block begins that has the byte of the log, and how many bytes the stream has before it.
fn block_of(at: usize) -> (usize, usize) {
    match at {
        0..30 => (0, 0),
        30..55 => (30, 9),
        _ => (55, 13),
    }
}

/// What the log gives with another byte at a place. A block has no checksum: its payload is given as it stands, and a
/// length that the file has the bytes for counts. Any other byte in front of the payload closes the block.
fn stream_with(rt: &impl Abort, alloc: Global, at: usize, byte: u8) -> Vec<u8> {
    let mut stream = STREAM.to_vec(alloc).expect(rt, "memory");
    let (begin, before) = block_of(at);
    let index = at.wrapping_sub(begin);
    if index >= 21 {
        if let Some(there) = stream.get_mut(before.wrapping_add(index - 21)) {
            *there = byte;
        }
        return stream;
    }
    stream.truncate(before);
    let start = begin.wrapping_add(21);
    if index == 17 {
        let payload = LOG.get(start..start.wrapping_add(byte as usize));
        stream
            .extend_from_slice(payload.unwrap_or(&[]))
            .expect(rt, "memory");
    }
    stream
}

/// Whether the log gives what it has to with each other byte at a place.
fn is_right_for_each_byte(rt: &impl Abort, alloc: Global, at: usize) -> bool {
    for byte in 0..=255u8 {
        let mut log = LOG.to_vec(alloc).expect(rt, "memory");
        let was = log.get_mut(at).expect(rt, "a byte");
        if *was == byte {
            continue;
        }
        *was = byte;
        let want = stream_with(rt, alloc, at, byte);
        assert!(rt; gives(rt, alloc, &log, START, &want), "{byte} at {at}");
    }
    true
}

// The byte behind the last block is a gate behind which nothing stands.
#[test]
fn each_byte_of_a_log_counts(rt: HostRuntime) {
    for at in 0..83 {
        assert!(&rt; is_right_for_each_byte(&rt, rt.alloc(), at));
    }
}

/// How many bytes of the stream are in a file that is cut there.
fn len_of_cut(size: usize) -> usize {
    match size {
        0..30 => 0,
        30..55 => 9,
        55..82 => 13,
        _ => 19,
    }
}

#[test]
fn a_file_that_is_cut_gives_its_whole_blocks(rt: HostRuntime) {
    for size in 0..=83usize {
        let log = LOG.get(..size).unwrap_or(&[]);
        let want = STREAM.get(..len_of_cut(size)).unwrap_or(&[]);
        assert!(&rt; gives(&rt, rt.alloc(), log, START, want), "{size}");
    }
}

/// The offset of a block in its slot, the length that it says, and whether it is open where the file has the bytes.
static LENGTHS: &[(u32, u32, bool)] = &[
    (0, 0, false),
    (0, 1, true),
    (0, 65_500, true),
    (0, 65_501, false),
    (0, 1 << 31, false),
    (0, u32::MAX, false),
    // The slot ends behind the gate after the block.
    (1_048_500, 54, true),
    (1_048_500, 55, false),
    (1_048_554, 1, false),
];

/// Whether a block that says this length at an offset is open exactly where it has to be.
fn is_right_for_length(rt: &impl Abort, alloc: Global, case: (u32, u32, bool)) -> bool {
    let (offset, len, is_open) = case;
    let from = LogStart {
        generation: 1,
        offset,
        position: 7,
    };
    let at = offset as usize % (1 << 24);
    let mut log = vec![in alloc; 0u8; at + 70_000].expect(rt, "memory");
    put_block(&mut log, at, 1, 7);
    if log.len() > at + 21 {
        log[at + 17..at + 21].copy_from_slice(&len.to_le_bytes());
    }
    let start = at + 21;
    let want = if is_open { len as usize } else { 0 };
    let payload = log
        .get(start..start + want)
        .unwrap_or(&[])
        .to_vec(alloc)
        .expect(rt, "memory");
    gives(rt, alloc, &log, from, &payload)
}

#[test]
fn a_length_out_of_range_closes_a_block(rt: HostRuntime) {
    for case in LENGTHS {
        assert!(&rt; is_right_for_length(&rt, rt.alloc(), *case), "{}", case.1);
    }
}

/// Behind a block of nine bytes, where a block stands, its generation and start, and how many bytes the log gives.
static OTHERS: &[(usize, u64, u64, usize)] = &[
    (30, 1, 9, 18),
    // An old generation of the slot, one to come, none at all, and that of the next slot.
    (30, 0, 9, 9),
    (30, 9, 9, 9),
    (30, 17, 9, 9),
    (30, 2, 9, 9),
    // Other starts.
    (30, 1, 0, 9),
    (30, 1, 8, 9),
    (30, 1, 10, 9),
    (30, 1, u64::MAX, 9),
    // A place behind which no block ends.
    (31, 1, 9, 9),
    // The next generation, others in its slot, and another start.
    (1_048_576, 2, 9, 18),
    (1_048_576, 10, 9, 9),
    (1_048_576, 1, 9, 9),
    (1_048_576, 2, 0, 9),
    (1_048_576, 2, 10, 9),
    // The generation after the next one.
    (2_097_152, 3, 9, 9),
    (2_097_152, 2, 9, 9),
];

/// Whether a log with another block gives so many bytes.
fn is_right_for_other(
    rt: &impl Abort,
    alloc: Global,
    at: usize,
    generation: u64,
    position: u64,
) -> usize {
    let mut log = vec![in alloc; 0u8; 3_000_000].expect(rt, "memory");
    put_block(&mut log, 0, 1, 0);
    put_block(&mut log, at, generation, position);
    let mut volume = of_log(rt, alloc, &log);
    let (stream, _end) = scan(alloc, &mut volume, START).expect(rt, "memory");
    stream.len()
}

#[test]
fn blocks_that_are_not_the_next_one_are_not_read(rt: HostRuntime) {
    for (at, generation, position, want) in OTHERS {
        let len = is_right_for_other(&rt, rt.alloc(), *at, *generation, *position);
        assert!(&rt; len == *want, "{generation} and {position} at {at}");
    }
}

// A block of nine bytes in each generation from 1 to 9: the last one lies in the slot of the first, before the place
// from which the log is scanned.
#[test]
fn a_scan_ends_less_than_eight_generations_on(rt: HostRuntime) {
    let mut log = vec![in rt.alloc(); 0u8; 8_000_000].expect(&rt, "memory");
    put_block(&mut log, 100, 1, 0);
    for index in 1..9usize {
        let at = (index % 8) << 20;
        put_block(&mut log, at, index as u64 + 1, 9 * index as u64);
    }
    let from = LogStart {
        generation: 1,
        offset: 100,
        position: 0,
    };
    let mut volume = of_log(&rt, rt.alloc(), &log);
    let (stream, end) = scan(rt.alloc(), &mut volume, from).expect(&rt, "memory");
    assert!(&rt; stream.len() == 72);
    assert!(&rt; end.generation == 8 && end.offset == 30 && end.position == 72);
}
