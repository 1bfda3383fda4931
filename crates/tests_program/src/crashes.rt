//! A script of two sessions over a volume that stops at any of its calls: what each crash leaves is opened, and stopped again in
//! that opening.

use crate::volumes::call;
use jet_volume::{File, MemVolume};
use std::alloc::Global;
use std::process::Abort;
use std::test::*;

/// Session 2 puts 9 and never commits it. Session 1 puts 1 outside a transaction, and 2 and 3 in one each: the commit of 2 waits for
/// the log, that of 3 does not.
const SCRIPT: &[u8] = b"1 BeginSession
1 CreateTable T
1 AddColumn T id Long
1 AddColumn T a Text
1 AddColumn T m Text tagged multi
1 CreateIndex T pk primary +id
2 BeginSession
1 OpenTable 1 T
2 OpenTable 1 T
2 BeginTransaction
2 PrepareUpdate 1 insert
2 SetColumn 1 id 1 n:9
2 Update 1
1 PrepareUpdate 1 insert
1 SetColumn 1 id 1 n:1
1 Update 1
1 BeginTransaction
1 PrepareUpdate 1 insert
1 SetColumn 1 id 1 n:2
1 Update 1
1 CommitTransaction
1 BeginTransaction
1 PrepareUpdate 1 insert
1 SetColumn 1 id 1 n:3
1 Update 1
1 CommitTransaction lazy
";

/// Makes the schema once more, whose lines are refused as far as it is there, and reads up to four ids.
const LOOK: &[u8] = b"1 BeginSession
1 CreateTable T
1 AddColumn T id Long
1 AddColumn T a Text
1 AddColumn T m Text tagged multi
1 CreateIndex T pk primary +id
1 OpenTable 1 T
1 Move 1 First
1 RetrieveColumn 1 id 1
1 Move 1 Next
1 RetrieveColumn 1 id 1
1 Move 1 Next
1 RetrieveColumn 1 id 1
1 Move 1 Next
1 RetrieveColumn 1 id 1
";

/// How many lines of both scripts make the schema, behind the first line.
const SCHEMA: usize = 5;

/// The lines of which the first tells that 1 is there, and the second that 2 is.
const PUT: &[u8] = b" 1 Update JET_errSuccess x:7f80000001";

const COMMITTED: &[u8] = b" 1 CommitTransaction JET_errSuccess";

/// The images that are looked at of each crash: all that was written, nothing that was not synced, and others.
const PICKS: u64 = 40;

/// No run makes as many calls of its volume.
const MOST_CALLS: u64 = 1_000;

const RUN: &[&str] = &["v", "run", "ordered"];

const RECOVERY: &[&str] = &["v", "/r"];

const FILES: [File; 4] = [
    File::Database,
    File::CheckpointA,
    File::CheckpointB,
    File::Log,
];

/// A volume behind a run, and what was printed of it.
#[derive(Drop)]
struct Left {
    volume: MemVolume,
    status: u8,
    printed: Vec<u8>,
}

/// Runs the script over a new volume whose calls fail from one on.
fn run(rt: &impl Abort, alloc: Global, words: &[&str], stop: u64) -> Left {
    let mut volume = MemVolume::new(alloc, Vec::new(alloc), Some(stop));
    let (status, printed) = call(rt, alloc, words, &mut volume, SCRIPT);
    Left {
        volume,
        status,
        printed,
    }
}

/// What a crash leaves of a volume.
fn crashed(
    rt: &impl Abort,
    alloc: Global,
    volume: MemVolume,
    pick: u64,
    stop: Option<u64>,
) -> MemVolume {
    volume
        .crash(pick, Vec::new(alloc), stop)
        .expect(rt, "memory")
}

fn bytes(rt: &impl Abort, alloc: Global, volume: &MemVolume, file: File) -> Vec<u8> {
    Vec::from_slice(alloc, volume.bytes(file)).expect(rt, "memory")
}

/// A volume with the same files, whose calls fail from one on.
fn copy(rt: &impl Abort, alloc: Global, volume: &MemVolume, stop: Option<u64>) -> MemVolume {
    let copied = MemVolume::of_files(
        alloc,
        bytes(rt, alloc, volume, File::Database),
        bytes(rt, alloc, volume, File::CheckpointA),
        bytes(rt, alloc, volume, File::CheckpointB),
        bytes(rt, alloc, volume, File::Log),
    );
    crashed(rt, alloc, copied, 0, stop)
}

/// A hash of the bytes of its files, by which an image is known again.
fn digest(volume: &MemVolume) -> u64 {
    let mut digest = 0xcbf2_9ce4_8422_2325u64;
    for file in FILES {
        for byte in volume.bytes(file) {
            digest = (digest ^ u64::from(*byte)).wrapping_mul(0x0100_0000_01b3);
        }
    }
    digest
}

/// What a volume holds, as the transcript of the look.
fn look(rt: &impl Abort, alloc: Global, volume: &mut MemVolume) -> Vec<u8> {
    let (status, told) = call(rt, alloc, RUN, volume, LOOK);
    assert!(rt; status == 0, "it is refused");
    told
}

/// How many of the lines that make the schema end so, from the first one on.
fn schema_lines(printed: &[u8], end: &[u8]) -> usize {
    let mut count = 0usize;
    let mut place = 0usize;
    for line in printed.split(|byte| *byte == b'\n') {
        if place == count.saturating_add(1) && place <= SCHEMA && line.ends_with(end) {
            count = place;
        }
        place = place.saturating_add(1);
    }
    count
}

fn has_line(printed: &[u8], end: &[u8]) -> bool {
    let mut is_there = false;
    for line in printed.split(|byte| *byte == b'\n') {
        is_there |= line.ends_with(end);
    }
    is_there
}

/// How many ids are there for certain, by what was printed.
fn acknowledged(status: u8, printed: &[u8]) -> usize {
    if status == 0 {
        3
    } else if has_line(printed, COMMITTED) {
        2
    } else {
        usize::from(has_line(printed, PUT))
    }
}

/// The ids that a look has read, each a digit.
fn ids(rt: &impl Abort, alloc: Global, told: &[u8]) -> Vec<u8> {
    let mut ids = Vec::new(alloc);
    for line in told.split(|byte| *byte == b'\n') {
        if let [.., b' ', b'n', b':', id] = line {
            ids.push(*id).expect(rt, "memory");
        }
    }
    ids
}

/// Whether a look has told what was acknowledged and at most one change more, in the order of the script.
fn is_kept(status: u8, printed: &[u8], told: &[u8], ids: &[u8]) -> bool {
    let least = acknowledged(status, printed);
    let made = schema_lines(printed, b"Success");
    let found = schema_lines(told, b"Duplicate");
    b"123".as_slice().starts_with(ids)
        && least <= ids.len()
        && ids.len() <= least.saturating_add(1)
        && made <= found
        && found <= made.saturating_add(1)
        && (found == SCHEMA || ids.is_empty())
}

/// Stops the opening of a volume at each of its calls, crashes there, and looks at what is left, which tells the same.
fn stays(rt: &impl Abort, alloc: Global, volume: &MemVolume, told: &[u8]) {
    for stop in 1..MOST_CALLS {
        let mut stopped = copy(rt, alloc, volume, Some(stop));
        let (status, _) = call(rt, alloc, RECOVERY, &mut stopped, b"");
        if status == 0 {
            return;
        }
        let mut left = crashed(rt, alloc, stopped, stop, None);
        assert!(rt;
            look(rt, alloc, &mut left).as_slice() == told,
            "opening stopped at {stop}"
        );
    }
    panic!(rt; "an opening without an end");
}

/// Opens an image that a crash has left, and one that was not seen before once more for each call of its opening.
fn check(
    rt: &impl Abort,
    alloc: Global,
    status: u8,
    printed: &[u8],
    image: &MemVolume,
    seen: &mut Vec<u64>,
) {
    let told = look(rt, alloc, &mut copy(rt, alloc, image, None));
    let ids = ids(rt, alloc, &told);
    assert!(rt; is_kept(status, printed, &told, &ids), "status {status}");
    let digest = digest(image);
    if !seen.contains(&digest) {
        seen.push(digest).expect(rt, "memory");
        stays(rt, alloc, image, &told);
    }
}

/// Looks at the images that a run which stops at a call may leave. Whether the run came to its end.
fn ends(rt: &impl Abort, alloc: Global, words: &[&str], stop: u64, seen: &mut Vec<u64>) -> bool {
    let mut is_whole = false;
    for pick in 0..PICKS {
        let left = run(rt, alloc, words, stop);
        let image = crashed(rt, alloc, left.volume, pick, None);
        check(rt, alloc, left.status, &left.printed, &image, seen);
        is_whole = left.status == 0;
    }
    is_whole
}

/// Stops a run at each call of its volume, up to the one at which it comes to its end.
fn stop_at_each(rt: &impl Abort, alloc: Global, words: &[&str]) {
    let mut seen = Vec::new(alloc);
    for stop in 1..MOST_CALLS {
        if ends(rt, alloc, words, stop, &mut seen) {
            return;
        }
    }
    panic!(rt; "a run without an end");
}

#[test]
fn crashes_with_a_checkpoint_behind_each_flush(rt: HostRuntime) {
    stop_at_each(&rt, rt.alloc(), &["v", "run", "ordered", "depth", "1"]);
}

#[test]
fn crashes_with_a_checkpoint_behind_some_flushes(rt: HostRuntime) {
    stop_at_each(&rt, rt.alloc(), &["v", "run", "ordered", "depth", "60"]);
}

#[test]
fn crashes_with_no_checkpoint_between(rt: HostRuntime) {
    stop_at_each(&rt, rt.alloc(), RUN);
}
