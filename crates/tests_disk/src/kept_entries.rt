//! What is kept of the bytes of entries.

use entry_log::EntryLog;
use index_derive::{Entry, EntryKind};
use jet_base::{Session, TableId};
use log_record::{entry_size, has_spelling};
use std::process::Abort;
use std::test::*;

/// A begin and a shut of session 1, one after the other.
static BEGIN_AND_SHUT: &[u8] = &[
    5, 0, 0, 0, 5, 1, 0, 0, 0, 9, 0, 0, 0, 4, 1, 0, 0, 0, 7, 0, 0, 0,
];

/// Appends an entry of session 1, in room that is made for it.
fn put(rt: &impl Abort, log: &mut EntryLog, kind: EntryKind) {
    let entry = Entry {
        session: Session(1),
        kind,
    };
    assert!(rt; has_spelling(&entry));
    assert!(rt; log.stream_end() < 1_000_000);
    log.reserve(entry_size(&entry)).expect(rt, "memory");
    log.append(&entry);
}

/// Appends a begin and a shut.
fn put_both(rt: &impl Abort, log: &mut EntryLog) {
    put(rt, log, EntryKind::Begin);
    put(rt, log, EntryKind::Shut(TableId(7)));
}

/// Trims the bytes before a position, up to the end.
fn trim(rt: &impl Abort, log: &mut EntryLog, to: u64) {
    assert!(rt; to <= log.stream_end());
    log.trim(to);
}

/// Whether these are the bytes from a position on, as many as 12 bytes take, and no more are written.
fn is_pending(rt: &impl Abort, log: &EntryLog, from: u64, bytes: &[u8]) -> bool {
    assert!(rt; log.trimmed() <= from && from <= log.stream_end());
    let mut into = [77; 12];
    let count = log.pending(from, &mut into);
    &into[..count] == bytes && into[count..].iter().all(|byte| *byte == 77)
}

#[test]
fn bytes_are_pending_in_pieces(rt: HostRuntime) {
    let mut log = EntryLog::new(rt.alloc());
    assert!(&rt; is_pending(&rt, &log, 0, &[]));
    put_both(&rt, &mut log);
    assert!(&rt; log.stream_end() == 22);
    assert!(&rt; is_pending(&rt, &log, 0, &BEGIN_AND_SHUT[..12]));
    assert!(&rt; is_pending(&rt, &log, 12, &BEGIN_AND_SHUT[12..]));
    assert!(&rt; is_pending(&rt, &log, 22, &[]));
}

#[test]
fn trimmed_bytes_are_not_kept(rt: HostRuntime) {
    let mut log = EntryLog::new(rt.alloc());
    put_both(&rt, &mut log);
    trim(&rt, &mut log, 9);
    trim(&rt, &mut log, 5);
    assert!(&rt; log.trimmed() == 9 && log.stream_end() == 22);
    assert!(&rt; is_pending(&rt, &log, 10, &BEGIN_AND_SHUT[10..]));
    trim(&rt, &mut log, 22);
    put_both(&rt, &mut log);
    assert!(&rt; log.trimmed() == 22 && log.stream_end() == 44);
    assert!(&rt; is_pending(&rt, &log, 32, &BEGIN_AND_SHUT[10..]));
}

#[test]
fn a_log_goes_on_behind_what_is_trimmed(rt: HostRuntime) {
    let mut log = EntryLog::new(rt.alloc());
    for turn in 0..500 {
        put_both(&rt, &mut log);
        trim(&rt, &mut log, 20 * turn);
    }
    assert!(&rt; log.trimmed() == 9_980 && log.stream_end() == 11_000);
    assert!(&rt; is_pending(&rt, &log, 10_988, &BEGIN_AND_SHUT[10..]));
}
