//! Appends that cross two generations and come round to the first slot, cut short at each call of the volume; what
//! crashes leave of them; and a seal that is cut short as well.

use crate::blocks::{append, put_block};
use jet_volume::{LogStart, MemVolume, Volume};
use log_ring::{LogRing, SLOT_LEN, scan};
use std::alloc::Global;
use std::process::Abort;
use std::test::*;

/// Where the log of the standing checkpoint begins, near the end of its generation.
const FROM: LogStart = LogStart {
    generation: 7,
    offset: 1_048_400,
    position: 5,
};

/// A block in the generation of the checkpoint, one for which it has no room, and one behind that.
static CROSSING: &[usize] = &[40, 300, 60];

/// Blocks behind those, which leave of their generation 338 bytes.
static FILLING: &[usize] = &[
    65_500, 65_500, 65_500, 65_500, 65_500, 65_500, 65_500, 65_500, 65_500, 65_500, 65_500, 65_500,
    65_500, 65_500, 65_500, 65_000,
];

/// Behind all of them a block for which there is room, one that comes round to the first slot, and one behind that.
static ROUND: &[usize] = &[200, 300, 60];

/// The stream positions at which the generations 9 and 10 are begun, or would be behind the block before.
const ROUND_AT: u64 = 1_048_105;

const BEHIND_AT: u64 = 1_048_465;

/// The byte of the stream at a position.
fn byte_at(position: u64) -> u8 {
    (position % 251) as u8
}

/// So many bytes of the stream from a position on.
fn piece(rt: &impl Abort, alloc: Global, position: u64, len: usize) -> Vec<u8> {
    let mut bytes = vec![in alloc; 0u8; len].expect(rt, "memory");
    for (index, byte) in bytes.iter_mut().enumerate() {
        *byte = byte_at(position.wrapping_add(index as u64));
    }
    bytes
}

/// Whether the bytes are those of the stream from the checkpoint on.
fn is_front(bytes: &[u8]) -> bool {
    for (index, byte) in bytes.iter().enumerate() {
        if *byte != byte_at(FROM.position.wrapping_add(index as u64)) {
            return false;
        }
    }
    true
}

/// A log whose stream has no byte yet. In the first two slots stand blocks: those of the generations 1 and 2, or, where
/// they are of generations to come, those of 9 and 10, where the stream will come to.
fn empty_log(rt: &impl Abort, alloc: Global, to_come: bool) -> Vec<u8> {
    let mut log = vec![in alloc; 0u8; 7_339_857].expect(rt, "memory");
    let first = if to_come { 9 } else { 1 };
    put_block(&mut log, 0, first, ROUND_AT);
    put_block(&mut log, 1 << 20, first + 1, BEHIND_AT);
    log
}

/// A volume that has nothing but this log, whose calls fail as told.
fn volume_of(
    rt: &impl Abort,
    alloc: Global,
    log: &[u8],
    failing: &[u64],
    stop: Option<u64>,
) -> MemVolume {
    let none = Vec::new(alloc);
    let log = log.to_vec(alloc).expect(rt, "memory");
    let failing = failing.to_vec(alloc).expect(rt, "memory");
    MemVolume::of_files(alloc, none, Vec::new(alloc), Vec::new(alloc), log)
        .crash(0, failing, stop)
        .expect(rt, "memory")
}

/// A ring that ends there, where it may.
fn ring_at(alloc: Global, end: LogStart) -> Option<LogRing> {
    if end.generation < FROM.generation || end.offset >= SLOT_LEN {
        return None;
    }
    LogRing::at(alloc, end, FROM.generation).ok()
}

/// Where a log ends that gives a front of the stream, and no other byte.
fn end_of(alloc: Global, volume: &mut MemVolume) -> Option<LogStart> {
    match scan(alloc, volume, FROM) {
        Ok((stream, end)) => is_front(stream.as_slice()).then_some(end),
        Err(_) => None,
    }
}

/// How far the stream was acknowledged, and how far it was given.
#[derive(Clone, Copy, Debug, PartialEq, Eq)]
struct Appended {
    acknowledged: u64,
    given: u64,
}

/// Appends pieces of the stream, up to the first that fails.
fn append_all(
    rt: &impl Abort,
    alloc: Global,
    ring: &mut LogRing,
    volume: &mut MemVolume,
    sizes: &[usize],
) -> Appended {
    for size in sizes {
        let acknowledged = ring.end().position;
        let bytes = piece(rt, alloc, acknowledged, *size);
        if append(ring, volume, &bytes).is_err() {
            let given = acknowledged.wrapping_add(*size as u64);
            return Appended {
                acknowledged,
                given,
            };
        }
    }
    let acknowledged = ring.end().position;
    Appended {
        acknowledged,
        given: acknowledged,
    }
}

/// A log that can be appended to, where it ends, and what is appended to it in how many calls of the volume.
#[derive(Drop)]
struct Run {
    log: Vec<u8>,
    end: LogStart,
    sizes: &'static [usize],
    calls: u64,
}

/// The run that begins where the stream has no byte.
fn crossing(rt: &impl Abort, alloc: Global) -> Run {
    Run {
        log: empty_log(rt, alloc, true),
        end: FROM,
        sizes: CROSSING,
        calls: 18,
    }
}

/// The run that comes round to the first slot. Its blocks are old there, or of generations to come.
fn round(rt: &impl Abort, alloc: Global, to_come: bool) -> Run {
    let mut volume = volume_of(rt, alloc, &empty_log(rt, alloc, to_come), &[], None);
    let mut ring = ring_at(alloc, FROM).expect(rt, "ring");
    append_all(rt, alloc, &mut ring, &mut volume, CROSSING);
    append_all(rt, alloc, &mut ring, &mut volume, FILLING);
    Run {
        log: volume
            .bytes(jet_volume::File::Log)
            .to_vec(alloc)
            .expect(rt, "memory"),
        end: ring.end(),
        sizes: ROUND,
        calls: 16,
    }
}

/// Appends the pieces of a run to the volume.
fn run_over(rt: &impl Abort, alloc: Global, run: &Run, volume: &mut MemVolume) -> Appended {
    let mut ring = ring_at(alloc, run.end).expect(rt, "ring");
    append_all(rt, alloc, &mut ring, volume, run.sizes)
}

/// Seals a log that ends there.
fn seal(rt: &impl Abort, alloc: Global, volume: &mut MemVolume, end: LogStart) -> Option<LogRing> {
    let mut ring = ring_at(alloc, end).expect(rt, "ring");
    if end.generation > 99 || ring.end() != end {
        return None;
    }
    match ring.seal(volume) {
        Ok(()) => Some(ring),
        Err(_) => None,
    }
}

/// Whether a log that ends there is sealed and goes on with the stream.
fn goes_on(rt: &impl Abort, alloc: Global, volume: &mut MemVolume, end: LogStart) -> bool {
    let mut ring = seal(rt, alloc, volume, end).expect(rt, "sealed");
    let appended = append_all(rt, alloc, &mut ring, volume, CROSSING);
    appended.acknowledged == end.position.wrapping_add(400)
        && end_of(alloc, volume) == Some(ring.end())
}

/// Whether a log that ends there does so still where its seal stops at a call and crashes, and then goes on.
fn is_sealed_again(
    rt: &impl Abort,
    alloc: Global,
    left: MemVolume,
    end: LogStart,
    pick: u64,
) -> bool {
    let stop = 1 + pick % 7;
    let mut volume = left
        .crash(0, Vec::new(alloc), Some(stop))
        .expect(rt, "memory");
    let _stopped = seal(rt, alloc, &mut volume, end).is_none();
    let mut again = volume
        .crash(pick / 7, Vec::new(alloc), None)
        .expect(rt, "memory");
    end_of(alloc, &mut again) == Some(end) && goes_on(rt, alloc, &mut again, end)
}

/// Whether a run that stops at a call and crashes leaves a front of the stream that has all that was acknowledged, and
/// so does a seal of what it left, which is tried in one image of five.
fn is_kept(rt: &impl Abort, alloc: Global, run: &Run, stop: u64, pick: u64) -> bool {
    let mut volume = volume_of(rt, alloc, &run.log, &[], Some(stop));
    let appended = run_over(rt, alloc, run, &mut volume);
    let mut left = volume
        .crash(pick, Vec::new(alloc), None)
        .expect(rt, "memory");
    let end = end_of(alloc, &mut left).expect(rt, "a front");
    let is_tried = pick % 5 == stop % 5;
    has_all(run, appended, end, stop) && (!is_tried || is_sealed_again(rt, alloc, left, end, pick))
}

/// Whether the stream ends behind what was acknowledged, and not behind what was given; these are the same exactly where
/// the call was not made.
fn has_all(run: &Run, appended: Appended, end: LogStart, call: u64) -> bool {
    appended.acknowledged <= end.position
        && end.position <= appended.given
        && (appended.acknowledged == appended.given) == (run.calls < call)
}

/// Whether the stops of a run from one on, up to one behind its last call, are survived in 40 images.
fn is_kept_at_stops(rt: &impl Abort, alloc: Global, run: &Run, first: u64, last: u64) -> bool {
    for stop in first..=last {
        for pick in 0..40 {
            assert!(rt; is_kept(rt, alloc, run, stop, pick), "{stop} and {pick}");
        }
    }
    true
}

// The next generation is begun behind the block of the calls 1 to 4, and made ready with the calls 5 to 10.
#[test]
fn a_stop_before_the_next_generation_leaves_what_was_acknowledged(rt: HostRuntime) {
    let run = crossing(&rt, rt.alloc());
    assert!(&rt; is_kept_at_stops(&rt, rt.alloc(), &run, 1, 10));
}

#[test]
fn a_stop_in_the_next_generation_leaves_what_was_acknowledged(rt: HostRuntime) {
    let run = crossing(&rt, rt.alloc());
    assert!(&rt; is_kept_at_stops(&rt, rt.alloc(), &run, 11, 19));
}

// The first slot is begun behind the block of the calls 1 to 4, and made ready with the calls 5 to 8.
#[test]
fn a_stop_before_the_first_slot_leaves_what_was_acknowledged(rt: HostRuntime) {
    let run = round(&rt, rt.alloc(), false);
    assert!(&rt; is_kept_at_stops(&rt, rt.alloc(), &run, 1, 8));
}

#[test]
fn a_stop_in_the_first_slot_leaves_what_was_acknowledged(rt: HostRuntime) {
    let run = round(&rt, rt.alloc(), false);
    assert!(&rt; is_kept_at_stops(&rt, rt.alloc(), &run, 9, 17));
}

// In the first slot and the one behind it blocks of the two generations to come were left, of which the second is
// barred with the calls 5 to 7.
#[test]
fn blocks_of_generations_to_come_are_not_read(rt: HostRuntime) {
    let run = round(&rt, rt.alloc(), true);
    assert!(&rt; is_kept_at_stops(&rt, rt.alloc(), &run, 5, 8));
    assert!(&rt; is_kept_at_stops(&rt, rt.alloc(), &run, 17, 17));
}

/// Whether a run whose call fails leaves a front of the stream that has all that was acknowledged, and goes on.
fn is_kept_by_a_fault(rt: &impl Abort, alloc: Global, run: &Run, call: u64) -> bool {
    let mut volume = volume_of(rt, alloc, &run.log, &[call], None);
    let appended = run_over(rt, alloc, run, &mut volume);
    let faults = volume.faults();
    let end = end_of(alloc, &mut volume).expect(rt, "a front");
    has_all(run, appended, end, call)
        && faults == u64::from(call <= run.calls)
        && goes_on(rt, alloc, &mut volume, end)
}

/// Whether each call of a run, and one behind it, may fail.
fn is_kept_by_each_fault(rt: &impl Abort, alloc: Global, run: &Run) -> bool {
    for call in 1..=run.calls.min(99) {
        assert!(rt; is_kept_by_a_fault(rt, alloc, run, call), "{call}");
    }
    true
}

#[test]
fn a_log_goes_on_behind_a_call_that_failed(rt: HostRuntime) {
    let run = crossing(&rt, rt.alloc());
    assert!(&rt; is_kept_by_each_fault(&rt, rt.alloc(), &run));
    let run = round(&rt, rt.alloc(), false);
    assert!(&rt; is_kept_by_each_fault(&rt, rt.alloc(), &run));
}
