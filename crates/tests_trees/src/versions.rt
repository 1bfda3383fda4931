//! Held changes beside a plain list of them.

use column_set::{Bookmark, Change};
use jet_base::{ColumnId, Session, TableId};
use std::alloc::Global;
use std::process::Abort;
use std::test::*;
use version_store::{By, Reader, Undone, Variant, VersionFault, Versions};

/// A change of the plain list.
#[derive(Clone, Copy)]
struct Plain {
    session: u32,
    key: u8,
    rewrites: bool,
    before: Option<u8>,
    is_open: bool,
    /// The number of its commit, 0 where it has none.
    committed: u64,
}

fn bookmark(rt: &impl Abort, alloc: Global, key: u8) -> Bookmark {
    match Bookmark::from_slice(alloc, &[key]) {
        Ok(bookmark) => bookmark,
        Err(_) => Bookmark::from_slice(alloc, &[key]).expect(rt, "memory"),
    }
}

fn change(rt: &impl Abort, alloc: Global, key: u8, rewrites: bool) -> Change {
    let table = TableId(1);
    let bookmark = bookmark(rt, alloc, key);
    if rewrites {
        Change::Drop { table, bookmark }
    } else {
        Change::Hold { table, bookmark }
    }
}

fn by(session: u32, level: u8, limit: u64, oldest: Option<u64>) -> By {
    By {
        number: 3,
        session: Session(session),
        begin: 2,
        level,
        limit,
        oldest,
    }
}

fn push(rt: &impl Abort, versions: &mut Versions, by: By, change: &Change, before: Option<u8>) {
    let row = [before.unwrap_or(0)];
    let before = match before {
        Some(_) => Some(row.as_slice()),
        None => None,
    };
    let len = versions.len();
    match versions.push(by, change, before) {
        Ok(()) => {}
        Err(error) => {
            assert!(rt; error == VersionFault::OutOfMemory && versions.len() == len);
            assert!(rt; versions.push(by, change, before).is_ok());
        }
    }
}

/// The row that the plain list shows: 0 for the current one, 1 for none, and else the row's byte.
fn seen(plain: &[Plain], key: u8, session: u32, begin: u64) -> u8 {
    for item in plain {
        let unseen = if item.is_open {
            item.session != session
        } else {
            begin < item.committed
        };
        if item.key == key && item.rewrites && unseen {
            return item.before.unwrap_or(1);
        }
    }
    0
}

fn shown(variant: Variant<'_>) -> u8 {
    match variant {
        Variant::Current => 0,
        Variant::Absent => 1,
        Variant::Before(row) => match row.first() {
            Some(byte) => *byte,
            None => 0,
        },
    }
}

/// The plain list after the end of a level or a transaction of the session.
fn end(plain: &mut [Plain], session: u32, number: u64, undoes: bool) {
    for item in plain.iter_mut() {
        if item.is_open && item.session == session {
            item.is_open = false;
            item.committed = if undoes { 0 } else { number };
        }
    }
}

fn undo_all(versions: &mut Versions, session: u32) {
    for _ in 0..versions.len() {
        if versions.undo_level(Session(session), 1).is_none() {
            break;
        }
    }
}

/// Compares what a session that began at a number sees of a record.
fn compare_at(
    rt: &impl Abort,
    versions: &Versions,
    plain: &[Plain],
    key: u8,
    session: u32,
    begin: u64,
) {
    let reader = Reader {
        session: Session(session),
        begin: Some(begin),
    };
    let variant = versions.variant(TableId(1), &[key], reader);
    assert!(rt; shown(variant) == seen(plain, key, session, begin));
}

fn compare(rt: &impl Abort, versions: &Versions, plain: &[Plain], number: u64) {
    assert!(rt; versions.len() == plain.len());
    for key in 0..7u8 {
        for session in 1..4u32 {
            compare_at(
                rt,
                versions,
                plain,
                key,
                session,
                number / u64::from(session),
            );
        }
    }
}

/// Pushes a change to both.
fn push_both(
    rt: &impl Abort,
    alloc: Global,
    versions: &mut Versions,
    plain: &mut Vec<Plain>,
    item: Plain,
) {
    let by = by(item.session, 1, u64::MAX, None);
    let change = change(rt, alloc, item.key, item.rewrites);
    push(rt, versions, by, &change, item.before);
    plain.push(item).expect(rt, "memory");
}

/// A change that a number stands for.
fn drawn(seed: u32, session: u32) -> Plain {
    let key = ((seed >> 16) % 7) as u8;
    Plain {
        session,
        key,
        rewrites: (seed >> 20) % 4 != 0,
        before: if (seed >> 24) % 3 == 0 {
            None
        } else {
            Some(key + 2)
        },
        is_open: true,
        committed: 0,
    }
}

/// Ends a transaction, or pushes a change.
fn step(
    rt: &impl Abort,
    alloc: Global,
    versions: &mut Versions,
    plain: &mut Vec<Plain>,
    seed: u32,
    number: u64,
) {
    let session = 1 + (seed >> 8) % 3;
    let turn = (seed >> 12) % 12;
    if turn > 1 {
        push_both(rt, alloc, versions, plain, drawn(seed, session));
    } else if turn == 0 {
        versions.commit(Session(session), number);
        end(plain, session, number, false);
    } else {
        undo_all(versions, session);
        end(plain, session, number, true);
    }
}

#[test]
fn variants_are_those_of_a_plain_list(rt: HostRuntime) {
    let alloc = rt.alloc();
    let mut versions = Versions::new(alloc);
    let mut plain = Vec::new(alloc);
    let mut seed: u32 = 7;
    for number in 1..400u64 {
        seed = seed.wrapping_mul(1_103_515_245).wrapping_add(12_345);
        step(&rt, alloc, &mut versions, &mut plain, seed, number);
        compare(&rt, &versions, &plain, number);
    }
}

#[test]
fn spans_end_at_their_limit(rt: HostRuntime) {
    let alloc = rt.alloc();
    let mut versions = Versions::new(alloc);
    let change = change(&rt, alloc, 9, true);
    let by = by(1, 1, 4_096, Some(2));
    for _ in 0..64 {
        push(&rt, &mut versions, by, &change, None);
    }
    assert!(&rt; !versions.fits(by, &change, None));
    assert!(&rt; versions.push(by, &change, None) == Err(VersionFault::OverSpan));
    versions.commit(Session(1), 99);
    assert!(&rt; !versions.fits(by, &change, None));
    assert!(&rt; versions.fits(By { oldest: None, ..by }, &change, None));
}

#[test]
fn the_oldest_goes_first(rt: HostRuntime) {
    let alloc = rt.alloc();
    let mut versions = Versions::new(alloc);
    let change = change(&rt, alloc, 9, true);
    push(&rt, &mut versions, by(1, 1, 4_096, None), &change, None);
    assert!(&rt; versions.oldest_table() == Some(TableId(1)) && versions.len() > 0);
    versions.pop_oldest();
    assert!(&rt; versions.oldest_table().is_none());
}

fn stands(rt: &impl Abort, alloc: Global, versions: &Versions, key: u8) -> bool {
    let reader = Reader {
        session: Session(2),
        begin: Some(1),
    };
    versions.conflict(reader, &change(rt, alloc, key, true))
}

/// The bookmark and the row before an undone change, both of one byte.
fn undone_record(rt: &impl Abort, versions: &Versions, place: usize, key: u8, row: u8) {
    assert!(rt; place < versions.len());
    assert!(rt; versions.bookmark_at(place) == [key].as_slice());
    assert!(rt; versions.before_at(place) == Some([row].as_slice()));
}

/// Rewrites of a session: of record 4 at the first level, and of record 5 at the second.
fn two_levels(rt: &impl Abort, alloc: Global) -> Versions {
    let mut versions = Versions::new(alloc);
    let first = change(rt, alloc, 4, true);
    push(
        rt,
        &mut versions,
        by(1, 1, u64::MAX, None),
        &first,
        Some(40),
    );
    let second = change(rt, alloc, 5, true);
    push(
        rt,
        &mut versions,
        by(1, 2, u64::MAX, None),
        &second,
        Some(50),
    );
    versions
}

#[test]
fn levels_are_released_and_undone(rt: HostRuntime) {
    let mut versions = two_levels(&rt, rt.alloc());
    versions.release(Session(1), 2);
    assert!(&rt; versions.undo_level(Session(1), 2).is_none());
    let undone = Undone {
        table: TableId(1),
        place: 1,
    };
    assert!(&rt; versions.undo_level(Session(1), 1) == Some(undone));
    undone_record(&rt, &versions, 1, 5, 50);
    assert!(&rt; stands(&rt, rt.alloc(), &versions, 4));
    assert!(&rt; !stands(&rt, rt.alloc(), &versions, 5));
}

/// A sum of record 4.
fn add(rt: &impl Abort, alloc: Global) -> Change {
    Change::Add {
        table: TableId(1),
        bookmark: bookmark(rt, alloc, 4),
        column: ColumnId(2),
        amount: 5,
    }
}

/// Whether a held change stands against a change of session 2.
fn is_conflict(versions: &Versions, change: &Change) -> bool {
    let reader = Reader {
        session: Session(2),
        begin: None,
    };
    versions.conflict(reader, change)
}

#[test]
fn two_sums_are_no_conflict(rt: HostRuntime) {
    let mut versions = Versions::new(rt.alloc());
    let add = add(&rt, rt.alloc());
    push(&rt, &mut versions, by(1, 1, u64::MAX, None), &add, Some(40));
    assert!(&rt; !is_conflict(&versions, &add));
    let hold = change(&rt, rt.alloc(), 4, false);
    assert!(&rt; is_conflict(&versions, &hold));
}
