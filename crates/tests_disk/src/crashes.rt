//! What a crash of a volume in memory leaves of writes that were not synced.

use jet_io::Failed;
use jet_volume::{File, MemVolume, Volume};
use std::alloc::Global;
use std::process::Abort;
use std::test::*;

// A write that is not synced, and what its range had before.
struct Write {
    file: File,
    at: u64,
    old: &'static [u8],
    piece: &'static [u8],
}

// The log was synced with eight bytes. It is written within them and over its end, and the database, which has
// none, behind a gap.
static WRITES: [Write; 3] = [
    Write {
        file: File::Log,
        at: 0,
        old: b"abcd",
        piece: b"ABCD",
    },
    Write {
        file: File::Log,
        at: 6,
        old: b"gh",
        piece: b"GHIJK",
    },
    Write {
        file: File::Database,
        at: 2,
        old: b"",
        piece: b"LMNO",
    },
];

// How a write came.
#[derive(Clone, Copy, Debug, PartialEq, Eq)]
enum Kind {
    NotAtAll,
    Whole,
    // A front of it, and behind that what was there.
    InPart,
    // Other bytes of it than a front. Behind the old end are zeros where none came.
    Torn,
    // Bytes that were never there and never written.
    AsOtherBytes,
}

const KINDS: [Kind; 5] = [
    Kind::NotAtAll,
    Kind::Whole,
    Kind::InPart,
    Kind::Torn,
    Kind::AsOtherBytes,
];

// The picks of an image at which nothing is certain to have come, or not to have come.
const PICKS: u64 = 400;

// How a write came that left these bytes in its range.
fn kind_of(now: &[u8], write: &Write) -> Kind {
    if now == write.old {
        Kind::NotAtAll
    } else if now == write.piece {
        Kind::Whole
    } else if has_other_bytes(now, write) {
        Kind::AsOtherBytes
    } else if is_front(now, write) {
        Kind::InPart
    } else {
        Kind::Torn
    }
}

fn has_other_bytes(now: &[u8], write: &Write) -> bool {
    now.iter().enumerate().any(|(i, byte)| {
        let old = write.old.get(i).copied().unwrap_or(0);
        *byte != old && write.piece.get(i) != Some(byte)
    })
}

fn is_front(now: &[u8], write: &Write) -> bool {
    let front = now
        .iter()
        .zip(write.piece)
        .take_while(|(byte, written)| byte == written)
        .count();
    0 < front && now.get(front..) == Some(write.old.get(front..).unwrap_or(&[]))
}

// The log as it is synced, and then the three writes.
fn write_all<V: Volume>(volume: &mut V) -> Result<(), Failed> {
    volume.write_at(File::Log, 0, b"abcdefgh")?;
    volume.sync(File::Log)?;
    volume.write_at(File::Log, 0, b"ABCD")?;
    volume.write_at(File::Log, 6, b"GHIJK")?;
    volume.write_at(File::Database, 2, b"LMNO")
}

fn left_by(rt: &impl Abort, alloc: Global, pick: u64) -> MemVolume {
    let mut volume = MemVolume::new(alloc, Vec::new(alloc), None);
    assert!(rt; write_all(&mut volume) == Ok(()));
    let left = volume.crash(pick, Vec::new(alloc), None);
    left.expect(rt, "memory")
}

// The bytes that a crash left in the range of a write.
fn range<'a>(left: &'a MemVolume, write: &Write) -> &'a [u8] {
    let bytes = left.bytes(write.file);
    let start = (write.at as usize).min(bytes.len());
    let rest = &bytes[start..];
    &rest[..write.piece.len().min(rest.len())]
}

// How many picks above 1 leave the write of that place in this way.
fn times(rt: &impl Abort, alloc: Global, write: &Write, kind: Kind) -> u64 {
    let mut times = 0u64;
    for pick in 2..2 + PICKS {
        let left = left_by(rt, alloc, pick);
        times = times.saturating_add(u64::from(kind_of(range(&left, write), write) == kind));
    }
    times
}

#[test]
fn each_write_comes_in_each_way(rt: HostRuntime) {
    for write in &WRITES {
        for kind in KINDS {
            let times = times(&rt, rt.alloc(), write, kind);
            assert!(&rt; times >= 5, "{kind:?} at {} came {times} times", write.at);
        }
    }
}

// How the two writes to the log came.
fn log_kinds(rt: &impl Abort, alloc: Global, pick: u64) -> (Kind, Kind) {
    let left = left_by(rt, alloc, pick);
    let [first, second, _] = &WRITES;
    (
        kind_of(range(&left, first), first),
        kind_of(range(&left, second), second),
    )
}

fn is_reached(rt: &impl Abort, alloc: Global, kinds: (Kind, Kind)) -> bool {
    let mut is_reached = false;
    for pick in 2..2 + PICKS {
        is_reached |= log_kinds(rt, alloc, pick) == kinds;
    }
    is_reached
}

#[test]
fn writes_come_in_any_order(rt: HostRuntime) {
    assert!(&rt; is_reached(&rt, rt.alloc(), (Kind::Whole, Kind::NotAtAll)));
    assert!(&rt; is_reached(&rt, rt.alloc(), (Kind::NotAtAll, Kind::Whole)));
}

// Whether some pick leaves a log of that size.
fn has_size(rt: &impl Abort, alloc: Global, size: usize) -> bool {
    let mut has_size = false;
    for pick in 2..2 + PICKS {
        has_size |= left_by(rt, alloc, pick).bytes(File::Log).len() == size;
    }
    has_size
}

#[test]
fn a_file_has_each_size_between(rt: HostRuntime) {
    for size in 8..=11 {
        assert!(&rt; has_size(&rt, rt.alloc(), size), "{size} bytes");
    }
}
