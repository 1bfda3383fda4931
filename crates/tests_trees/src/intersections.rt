//! What ranges of an index have in common, at a plain list.

use cursor_nav::SortedEntries;
use index_derive::IndexEntry;
use index_intersect::{IndexRange, Limit, intersect};
use jet_base::{IndexId, TableId};
use key_normal::Key;
use std::alloc::Global;
use std::process::Abort;
use std::test::*;

fn entry(letter: u8, record: u8) -> IndexEntry {
    IndexEntry {
        key: Key::from_slice(&[letter]),
        bookmark: Key::from_slice(&[record]),
    }
}

/// An index over letters of which a record may have several: the first two records have p and q, the third has q, and the fourth
/// has p and r.
fn letters(rt: &impl Abort, alloc: Global) -> SortedEntries {
    let entries = [
        entry(b'p', 1),
        entry(b'p', 2),
        entry(b'p', 4),
        entry(b'q', 1),
        entry(b'q', 2),
        entry(b'q', 3),
        entry(b'r', 4),
    ];
    let entries = Vec::from_array(alloc, entries).expect(rt, "memory");
    SortedEntries::new(entries).expect(rt, "the entries rise")
}

/// The range that begins with the entry of a letter and a record, up to the end of the index.
fn from(letter: u8, record: u8) -> IndexRange {
    IndexRange {
        table: TableId(1),
        index: IndexId(1),
        from: entry(letter, record),
        upper: None,
    }
}

/// The range of the entries with a letter.
fn of(letter: u8) -> IndexRange {
    let upper = Limit {
        key: Key::from_slice(&[letter]),
        inclusive: true,
    };
    IndexRange {
        upper: Some(upper),
        ..from(letter, 0)
    }
}

/// Whether these are the bookmarks that lie in all of the ranges.
fn meet_in(rt: &impl Abort, alloc: Global, ranges: &[IndexRange], records: &[u8]) -> bool {
    let common = intersect(alloc, &letters(rt, alloc), ranges).expect(rt, "memory");
    common.len() == records.len()
        && common.iter().zip(records).all(|(bookmark, record)| bookmark.as_bytes()
            == [*record].as_slice())
}

#[test]
fn records_in_all_ranges(rt: HostRuntime) {
    let alloc = rt.alloc();
    assert!(&rt; meet_in(&rt, alloc, &[of(b'p'), of(b'q')], &[1, 2]));
    assert!(&rt; meet_in(&rt, alloc, &[of(b'q'), of(b'p')], &[1, 2]));
    assert!(&rt; meet_in(&rt, alloc, &[of(b'p'), from(b'q', 2)], &[2, 4]));
    assert!(&rt; meet_in(&rt, alloc, &[of(b'p'), of(b'q'), of(b'r')], &[]));
}

#[test]
fn a_record_with_several_entries_is_given_once(rt: HostRuntime) {
    let alloc = rt.alloc();
    assert!(&rt; meet_in(&rt, alloc, &[from(b'p', 1), from(b'p', 0)], &[1, 2, 3, 4]));
}
