//! Entries at the limits of names, values, records, sessions, tables, levels and numbers.

use crate::files::{Numbers, checkpoint, page, put, put_block};
use crate::first_run::{ENTRIES, NO_SESSION, TABLE};
use crate::next_entries::{front, recovered};
use crate::outcomes::{Outcome, outcome_of};
use jet_volume::MemVolume;
use std::alloc::Global;
use std::process::Abort;
use std::test::*;

/// Puts the length of an entry before its other bytes.
fn put_entry(rt: &impl Abort, bytes: &mut Vec<u8>, rest: &[u8]) {
    assert!(rt; rest.len() < 100_000);
    put(rt, bytes, &(rest.len() as u32).to_le_bytes());
    put(rt, bytes, rest);
}

/// Schema steps of the first session up to their names, each with how many entries of the run stand before it: of a table, a column and
/// an index.
static NAMED: &[(usize, &[u8])] = &[
    (1, b"\x0f\x01\0\0\0\x01\x01\0\0\0"),
    (2, b"\x0f\x01\0\0\0\x03\x01\0\0\0\x01\0\x05\0"),
    (
        6,
        b"\x0f\x01\0\0\0\x05\x01\0\0\0\x01\0\0\0\0\0\x01\0\0\0\x01\0\x01\x01\0\0\0",
    ),
];

/// The same with a name of so many bytes, behind the entries before it.
fn with_name(rt: &impl Abort, alloc: Global, place: usize, length: u8) -> Vec<u8> {
    assert!(rt; place < NAMED.len());
    let (count, fields) = NAMED[place];
    let mut rest = Vec::new(alloc);
    put(rt, &mut rest, fields);
    put(rt, &mut rest, &[length]);
    for _ in 0..length {
        put(rt, &mut rest, b"n");
    }
    let mut bytes = front(rt, alloc, count);
    put_entry(rt, &mut bytes, rest.as_slice());
    bytes
}

#[test]
fn names_have_1_to_64_bytes(rt: HostRuntime) {
    for place in 0..3 {
        for length in 0..=66 {
            let bytes = with_name(&rt, rt.alloc(), place, length);
            let told = recovered(&rt, rt.alloc(), bytes.as_slice()).is_some();
            assert!(&rt;
                told == (1 <= length && length <= 64),
                "{place} and {length}"
            );
        }
    }
}

/// Puts a value of a put at the end.
fn put_value(rt: &impl Abort, rest: &mut Vec<u8>, column: u16, value: &[u8]) {
    put(rt, rest, &column.to_le_bytes());
    assert!(rt; value.len() < 100_000);
    put(rt, rest, &(value.len() as u32).to_le_bytes());
    put(rt, rest, value);
}

/// The run up to its first change and a put in its place, with a name and tags of these lengths.
fn with_values(rt: &impl Abort, alloc: Global, name: usize, tags: &[usize]) -> Vec<u8> {
    let mut rest = Vec::new(alloc);
    put(
        rt,
        &mut rest,
        b"\x07\x01\0\0\0\x01\0\0\0\x05\0\x7f\x80\0\0\x02\0",
    );
    assert!(rt; tags.len() < 100 && name <= 300);
    put(rt, &mut rest, &[3 + tags.len() as u8, 0]);
    put_value(rt, &mut rest, 1, b"\x02\0\0\0");
    put_value(rt, &mut rest, 2, b"\0\0\0\0");
    put_value(rt, &mut rest, 128, &[b'n'; 300][..name]);
    for place in 0..tags.len() {
        put_value(rt, &mut rest, 256, &[b't'; 300][..tags[place].min(300)]);
    }
    let mut bytes = front(rt, alloc, 14);
    put_entry(rt, &mut bytes, rest.as_slice());
    bytes
}

#[test]
fn a_value_has_at_most_255_bytes(rt: HostRuntime) {
    for length in 250..=260 {
        let name = with_values(&rt, rt.alloc(), length, &[1]);
        let told = recovered(&rt, rt.alloc(), name.as_slice()).is_some();
        assert!(&rt; told == (length <= 255), "a name of {length}");
        let tag = with_values(&rt, rt.alloc(), 1, &[length]);
        let told = recovered(&rt, rt.alloc(), tag.as_slice()).is_some();
        assert!(&rt; told == (length <= 255), "a tag of {length}");
    }
}

// Two bytes, five for each value, and the values: 2 + 9 + 9 + 8 + 6 * 260 + 5 and the last tag.
#[test]
fn a_record_has_at_most_1700_bytes(rt: HostRuntime) {
    for length in 100..=115 {
        let tags = [255, 255, 255, 255, 255, 255, length];
        let bytes = with_values(&rt, rt.alloc(), 3, &tags);
        let told = recovered(&rt, rt.alloc(), bytes.as_slice()).is_some();
        assert!(&rt; told == (length <= 107), "{length}");
    }
}

/// So many sessions that enter.
fn sessions(rt: &impl Abort, alloc: Global, count: u8) -> Vec<u8> {
    let mut bytes = Vec::new(alloc);
    for label in 1..=count {
        put(rt, &mut bytes, &[5, 0, 0, 0, 1, label, 0, 0, 0]);
    }
    bytes
}

/// A session that makes so many tables.
fn tables(rt: &impl Abort, alloc: Global, count: u8) -> Vec<u8> {
    let mut bytes = front(rt, alloc, 1);
    for id in 1..=count {
        put(
            rt,
            &mut bytes,
            &[12, 0, 0, 0, 15, 1, 0, 0, 0, 1, id, 0, 0, 0, 1, id],
        );
    }
    bytes
}

/// A session that begins so many levels.
fn levels(rt: &impl Abort, alloc: Global, count: u8) -> Vec<u8> {
    let mut bytes = front(rt, alloc, 1);
    put(rt, &mut bytes, &[5, 0, 0, 0, 5, 1, 0, 0, 0]);
    for _ in 1..count {
        put(rt, &mut bytes, &[5, 0, 0, 0, 6, 1, 0, 0, 0]);
    }
    bytes
}

#[test]
fn there_are_at_most_64_sessions_and_tables_and_7_levels(rt: HostRuntime) {
    let alloc = rt.alloc();
    let told = [
        recovered(&rt, alloc, sessions(&rt, alloc, 64).as_slice()),
        recovered(&rt, alloc, sessions(&rt, alloc, 65).as_slice()),
        recovered(&rt, alloc, tables(&rt, alloc, 64).as_slice()),
        recovered(&rt, alloc, tables(&rt, alloc, 65).as_slice()),
        recovered(&rt, alloc, levels(&rt, alloc, 7).as_slice()),
        recovered(&rt, alloc, levels(&rt, alloc, 8).as_slice()),
    ];
    assert!(&rt; told == [Some(64), None, Some(65), None, Some(8), None]);
}

/// Puts an entry of the first run at the end.
fn put_first(rt: &impl Abort, bytes: &mut Vec<u8>, place: usize) {
    assert!(rt; place < ENTRIES.len());
    put(rt, bytes, ENTRIES[place]);
}

/// Whether entries of the first run may come, one after the other, behind a checkpoint of so many entries with its table.
fn may_come(rt: &impl Abort, alloc: Global, number: u64, places: &[usize]) -> bool {
    let numbers = Numbers {
        checkpoint: 1,
        entries: number,
        offset: 0,
        position: 0,
        catalog_root: 2,
    };
    let mut payload = Vec::new(alloc);
    for place in 0..places.len() {
        put_first(rt, &mut payload, places[place]);
    }
    let mut log = Vec::new(alloc);
    put_block(rt, &mut log, 0, payload.as_slice());
    let first = checkpoint(rt, alloc, &numbers, &[0, 0, 0], NO_SESSION);
    let volume = MemVolume::of_files(alloc, empty_table(rt, alloc), first, Vec::new(alloc), log);
    matches!(outcome_of(alloc, volume), Outcome::Holds(_))
}

/// The pages of the table of the first run without a record, each in its first slot.
fn empty_table(rt: &impl Abort, alloc: Global) -> Vec<u8> {
    let mut bytes = page(rt, alloc, 0, 1, &[]);
    put(rt, &mut bytes, &[0; 4096]);
    put(rt, &mut bytes, page(rt, alloc, 1, 1, &[]).as_slice());
    put(rt, &mut bytes, &[0; 4096]);
    put(rt, &mut bytes, page(rt, alloc, 2, 1, TABLE).as_slice());
    bytes
}

/// Entries of the first run, and the greatest number of entries before them at which they may come: the session, its transaction, a
/// change in it and another one. What begins something has a number up to 2^34, a change one more, and what ends something any.
static LAST: &[(&[usize], u64)] = &[
    (&[0], (1 << 34) - 1),
    (&[0, 6], (1 << 34) - 2),
    (&[0, 6, 7], (1 << 34) - 2),
    (&[0, 6, 7, 8], (1 << 34) - 3),
    (&[0, 6, 7, 8, 9], (1 << 34) - 3),
];

#[test]
fn the_log_has_numbers_up_to_its_limit(rt: HostRuntime) {
    for place in 0..LAST.len() {
        let (entries, last) = LAST[place];
        assert!(&rt; may_come(&rt, rt.alloc(), last, entries), "{place}");
        assert!(&rt; !may_come(&rt, rt.alloc(), last + 1, entries), "{place}");
    }
}
