//! A live part of two sessions and three held changes is written and read, and bytes that are cut or have one more are refused.

use column_set::{Bookmark, Change, Record};
use jet_base::{ColumnId, Session, TableId};
use live_part::{LoadedPart, read, write};
use std::alloc::Global;
use std::process::Abort;
use std::test::*;
use version_cleanup::{Live, Sessions, Transaction};
use version_store::{By, Status, Versions};

/// Session 1 with table 1 open, in a transaction of two levels, session 7 with table 1 open twice, a put over a row of two
/// bytes, committed at 7, and an open sum.
static STANDING: &[u8] = &[
    2, 0, 0, 0, 1, 0, 0, 0, 1, 0, 0, 0, 1, 0, 0, 0, 2, 8, 0, 0, 0, 0, 0, 0, 0, 7, 0, 0, 0, 2, 0, 0,
    0, 1, 0, 0, 0, 1, 0, 0, 0, 0, 2, 0, 0, 0, 6, 0, 0, 0, 0, 0, 0, 0, 1, 1, 7, 0, 0, 0, 0, 0, 0, 0,
    19, 0, 0, 0, 15, 0, 0, 0, 7, 1, 0, 0, 0, 1, 0, 0, 0, 1, 0, 9, 0, 0, 0, 1, 2, 0, 0, 0, 9, 0, 0,
    0, 0, 0, 0, 0, 2, 0, 0, 0, 0, 0, 0, 0, 0, 0, 22, 0, 0, 0, 18, 0, 0, 0, 9, 1, 0, 0, 0, 1, 0, 0,
    0, 1, 0, 9, 2, 0, 3, 0, 0, 0, 0,
];

/// The same with a drop behind them that was undone.
static WITH_UNDONE: &[u8] = &[
    2, 0, 0, 0, 1, 0, 0, 0, 1, 0, 0, 0, 1, 0, 0, 0, 2, 8, 0, 0, 0, 0, 0, 0, 0, 7, 0, 0, 0, 2, 0, 0,
    0, 1, 0, 0, 0, 1, 0, 0, 0, 0, 3, 0, 0, 0, 6, 0, 0, 0, 0, 0, 0, 0, 1, 1, 7, 0, 0, 0, 0, 0, 0, 0,
    19, 0, 0, 0, 15, 0, 0, 0, 7, 1, 0, 0, 0, 1, 0, 0, 0, 1, 0, 9, 0, 0, 0, 1, 2, 0, 0, 0, 9, 0, 0,
    0, 0, 0, 0, 0, 2, 0, 0, 0, 0, 0, 0, 0, 0, 0, 22, 0, 0, 0, 18, 0, 0, 0, 9, 1, 0, 0, 0, 1, 0, 0,
    0, 1, 0, 9, 2, 0, 3, 0, 0, 0, 0, 10, 0, 0, 0, 0, 0, 0, 0, 2, 2, 0, 0, 0, 0, 0, 0, 0, 0, 16, 0,
    0, 0, 12, 0, 0, 0, 8, 1, 0, 0, 0, 1, 0, 0, 0, 1, 0, 8, 1, 2, 0, 0, 0,
];

/// The two sessions.
fn sessions(rt: &impl Abort, alloc: Global) -> Sessions {
    let mut sessions = Sessions::new(alloc);
    let table = TableId(1);
    let once = [table].to_vec(alloc).expect(rt, "memory");
    let transaction = Transaction {
        levels: 2,
        begin: 8,
    };
    sessions
        .push(Live::of(Session(1), once, Some(transaction)))
        .expect(rt, "memory");
    let twice = [table, table].to_vec(alloc).expect(rt, "memory");
    sessions
        .push(Live::of(Session(7), twice, None))
        .expect(rt, "memory");
    sessions
}

/// A change of session 1.
fn by(number: u64, level: u8) -> By {
    By {
        number,
        session: Session(1),
        begin: 8,
        level,
        limit: 0,
        oldest: None,
    }
}

fn bookmark(rt: &impl Abort, alloc: Global, key: u8) -> Bookmark {
    Bookmark::from_slice(alloc, &[key]).expect(rt, "memory")
}

fn hold_put(rt: &impl Abort, alloc: Global, versions: &mut Versions) {
    let change = Change::Put {
        table: TableId(1),
        bookmark: bookmark(rt, alloc, 9),
        copied: None,
        values: Record::new(alloc),
    };
    versions
        .hold(by(6, 1), &change, Some(&[0, 0]), Status::Committed(7))
        .expect(rt, "memory");
}

fn hold_sum(rt: &impl Abort, alloc: Global, versions: &mut Versions) {
    let change = Change::Add {
        table: TableId(1),
        bookmark: bookmark(rt, alloc, 9),
        column: ColumnId(2),
        amount: 3,
    };
    versions
        .hold(by(9, 2), &change, None, Status::Uncommitted)
        .expect(rt, "memory");
}

fn hold_drop(rt: &impl Abort, alloc: Global, versions: &mut Versions) {
    let change = Change::Drop {
        table: TableId(1),
        bookmark: bookmark(rt, alloc, 8),
    };
    versions
        .hold(by(10, 2), &change, Some(&[0, 0]), Status::Undone)
        .expect(rt, "memory");
}

/// The three held changes, of which the last is undone.
fn versions(rt: &impl Abort, alloc: Global) -> Versions {
    let mut versions = Versions::new(alloc);
    hold_put(rt, alloc, &mut versions);
    hold_sum(rt, alloc, &mut versions);
    hold_drop(rt, alloc, &mut versions);
    versions
}

/// Whether these bytes are written behind one that stands there.
fn is_written(rt: &impl Abort, alloc: Global, sessions: &Sessions, versions: &Versions) -> bool {
    let mut bytes = [77].to_vec(alloc).expect(rt, "memory");
    write(sessions, versions, &mut bytes).expect(rt, "memory");
    bytes.first() == Some(&77) && bytes.get(1..) == Some(STANDING)
}

#[test]
fn a_live_part_is_written_without_its_undone_changes(rt: HostRuntime) {
    let alloc = rt.alloc();
    let sessions = sessions(&rt, alloc);
    let versions = versions(&rt, alloc);
    assert!(&rt; sessions.len() == 2 && versions.len() == 3);
    assert!(&rt; is_written(&rt, alloc, &sessions, &versions));
}

/// Reads bytes that are a live part with so many undone changes, and writes it again.
fn again(rt: &impl Abort, alloc: Global, bytes: &[u8], undone: usize) {
    match read(alloc, bytes).expect(rt, "memory") {
        Some(part) => is_read(rt, alloc, &part, undone),
        None => assert!(rt; false, "a live part"),
    }
}

fn is_read(rt: &impl Abort, alloc: Global, part: &LoadedPart, undone: usize) {
    assert!(rt; part.sessions.len() == 2 && part.versions.len() == 2);
    assert!(rt; part.undone.len() == undone);
    assert!(rt; is_written(rt, alloc, &part.sessions, &part.versions));
}

#[test]
fn a_live_part_is_read_and_written_again(rt: HostRuntime) {
    again(&rt, rt.alloc(), STANDING, 0);
    again(&rt, rt.alloc(), WITH_UNDONE, 1);
}

fn is_refused(rt: &impl Abort, alloc: Global, bytes: &[u8]) {
    assert!(rt; read(alloc, bytes).expect(rt, "memory").is_none());
}

/// Refuses each proper front of the bytes.
fn fronts_are_refused(rt: &impl Abort, alloc: Global, bytes: &[u8]) {
    for len in 0..bytes.len() {
        is_refused(rt, alloc, &bytes[..len]);
    }
}

#[test]
fn bytes_that_are_cut_or_have_one_more_are_refused(rt: HostRuntime) {
    let alloc = rt.alloc();
    fronts_are_refused(&rt, alloc, STANDING);
    fronts_are_refused(&rt, alloc, WITH_UNDONE);
    let mut longer = STANDING.to_vec(alloc).expect(&rt, "memory");
    longer.push(0).expect(&rt, "memory");
    is_refused(&rt, alloc, longer.as_slice());
}
