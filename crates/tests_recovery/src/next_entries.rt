//! Which entries may come next in a log.

use crate::entry_tables::{CHANGES, LAWFUL, RUN, SESSIONS, STEPS};
use crate::files::{put, put_block};
use crate::first_run::stopped;
use crate::outcomes::{Outcome, outcome_of};
use std::alloc::Global;
use std::process::Abort;
use std::test::*;

/// The first entries of the run, so many, one after the other.
pub fn front(rt: &impl Abort, alloc: Global, count: usize) -> Vec<u8> {
    let mut bytes = Vec::new(alloc);
    for place in 0..count.min(RUN.len()) {
        put(rt, &mut bytes, RUN[place]);
    }
    bytes
}

/// How many entries are recovered of a log of one block, or none where it is refused.
pub fn recovered(rt: &impl Abort, alloc: Global, entries: &[u8]) -> Option<u64> {
    let mut log = Vec::new(alloc);
    put_block(rt, &mut log, 0, entries);
    match outcome_of(alloc, stopped(rt, alloc, log)) {
        Outcome::Holds(held) => Some(held.number),
        Outcome::LogFileCorrupt => None,
        _ => Some(u64::MAX),
    }
}

/// How many entries are recovered of the first ones of the run and this one behind them.
fn recovered_behind(rt: &impl Abort, alloc: Global, count: usize, entry: &[u8]) -> Option<u64> {
    let mut bytes = front(rt, alloc, count);
    put(rt, &mut bytes, entry);
    recovered(rt, alloc, bytes.as_slice())
}

/// Compares entries that may not come.
fn refuses(rt: &impl Abort, alloc: Global, table: &[(usize, &[u8])]) {
    for place in 0..table.len() {
        let (count, entry) = table[place];
        let told = recovered_behind(rt, alloc, count, entry);
        assert!(rt; told.is_none(), "{place}");
    }
}

#[test]
fn each_front_of_the_run_is_recovered(rt: HostRuntime) {
    for count in 0..=RUN.len() {
        let told = recovered_behind(&rt, rt.alloc(), count, &[]);
        assert!(&rt; told == Some(count as u64), "{count}");
    }
}

#[test]
fn entries_of_sessions_that_may_not_come_are_refused(rt: HostRuntime) {
    refuses(&rt, rt.alloc(), SESSIONS);
}

#[test]
fn schema_steps_that_may_not_come_are_refused(rt: HostRuntime) {
    refuses(&rt, rt.alloc(), STEPS);
}

#[test]
fn changes_that_may_not_come_are_refused(rt: HostRuntime) {
    refuses(&rt, rt.alloc(), CHANGES);
}

#[test]
fn entries_that_may_come_are_made(rt: HostRuntime) {
    for place in 0..LAWFUL.len() {
        let (count, entry) = LAWFUL[place];
        let told = recovered_behind(&rt, rt.alloc(), count, entry);
        assert!(&rt; told == Some(count as u64 + 1), "{place}");
    }
}

/// Bytes behind which no entry can stand, whatever follows them: a tag, a length, a kind of schema step, a type, a bookmark and a flag
/// that no entry has.
static NO_ENTRIES: &[&[u8]] = &[
    b"\x05\0\0\0\0",
    b"\x05\0\0\0\x10",
    b"\x04\0\0\0\x01",
    b"\x06\0\0\0\x01",
    b"\x0c\0\0\0\x0f\x01\0\0\0\x07",
    b"\x11\0\0\0\x0f\x01\0\0\0\x03\x01\0\0\0\x01\0\0",
    b"\x11\0\0\0\x0f\x01\0\0\0\x03\x01\0\0\0\x01\0\x0e",
    b"\x10\0\0\0\x08\x01\0\0\0\x01\0\0\0\0\0",
    b"\x26\0\0\0\x07\x01\0\0\0\x01\0\0\0\x05\0\x7f\x80\0\0\x02\x02",
];

#[test]
fn bytes_that_begin_no_entry_are_refused(rt: HostRuntime) {
    for place in 0..NO_ENTRIES.len() {
        let told = recovered_behind(&rt, rt.alloc(), 1, NO_ENTRIES[place]);
        assert!(&rt; told.is_none(), "{place}");
    }
}
