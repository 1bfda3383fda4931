//! Entries written by hand from the grammar, bytes that begin with none, and fronts.

use column_set::{Bookmark, Change};
use index_derive::{Entry, EntryKind};
use jet_base::{Session, TableId};
use log_record::{EntryFault, Parsed, decode, encode, has_spelling, read_front};
use std::alloc::Global;
use std::process::Abort;
use std::test::*;

/// One entry of each tag and of each kind of schema change, all of session 1.
static ENTRIES: &[&[u8]] = &[
    &[5, 0, 0, 0, 1, 1, 0, 0, 0],
    &[5, 0, 0, 0, 2, 1, 0, 0, 0],
    &[9, 0, 0, 0, 3, 1, 0, 0, 0, 7, 0, 0, 0],
    &[9, 0, 0, 0, 4, 1, 0, 0, 0, 7, 0, 0, 0],
    &[5, 0, 0, 0, 5, 1, 0, 0, 0],
    &[5, 0, 0, 0, 6, 1, 0, 0, 0],
    // The record {1: 02000000, 128: "bob"} in table 1 under 7f80000002, new, and copied from the record under 09.
    &[
        0x26, 0, 0, 0, 7, 1, 0, 0, 0, 1, 0, 0, 0, 5, 0, 0x7f, 0x80, 0, 0, 2, 0, 2, 0, 1, 0, 4, 0,
        0, 0, 2, 0, 0, 0, 0x80, 0, 3, 0, 0, 0, 0x62, 0x6f, 0x62,
    ],
    &[
        0x29, 0, 0, 0, 7, 1, 0, 0, 0, 1, 0, 0, 0, 5, 0, 0x7f, 0x80, 0, 0, 2, 1, 1, 0, 9, 2, 0, 1,
        0, 4, 0, 0, 0, 2, 0, 0, 0, 0x80, 0, 3, 0, 0, 0, 0x62, 0x6f, 0x62,
    ],
    &[12, 0, 0, 0, 8, 1, 0, 0, 0, 1, 0, 0, 0, 1, 0, 9],
    // The amount -2 in column 2.
    &[
        18, 0, 0, 0, 9, 1, 0, 0, 0, 1, 0, 0, 0, 1, 0, 9, 2, 0, 254, 255, 255, 255,
    ],
    &[12, 0, 0, 0, 10, 1, 0, 0, 0, 1, 0, 0, 0, 1, 0, 9],
    &[5, 0, 0, 0, 11, 1, 0, 0, 0],
    &[5, 0, 0, 0, 12, 1, 0, 0, 0],
    &[5, 0, 0, 0, 13, 1, 0, 0, 0],
    &[5, 0, 0, 0, 14, 99, 0, 0, 0],
    // A table "t", and one whose name is no text.
    &[12, 0, 0, 0, 15, 1, 0, 0, 0, 1, 1, 0, 0, 0, 1, 0x74],
    &[12, 0, 0, 0, 15, 1, 0, 0, 0, 1, 1, 0, 0, 0, 1, 255],
    &[10, 0, 0, 0, 15, 1, 0, 0, 0, 2, 1, 0, 0, 0],
    // A LongText column "n", tagged, of several values.
    &[
        16, 0, 0, 0, 15, 1, 0, 0, 0, 3, 1, 0, 0, 0, 0, 1, 13, 3, 1, 0x6e,
    ],
    &[12, 0, 0, 0, 15, 1, 0, 0, 0, 4, 1, 0, 0, 0, 0, 1],
    // A unique index "i" of order 2 over column 1, descending, of the records with column 128.
    &[
        32, 0, 0, 0, 15, 1, 0, 0, 0, 5, 1, 0, 0, 0, 3, 0, 0, 0, 0, 0, 2, 0, 0, 0, 2, 0, 1, 1, 0, 1,
        1, 128, 0, 0, 1, 0x69,
    ],
    &[12, 0, 0, 0, 15, 1, 0, 0, 0, 6, 1, 0, 0, 0, 3, 0],
];

/// Bytes that begin with no entry, each for one reason.
static BAD: &[&[u8]] = &[
    // Tags that none has, and sessions that none has.
    &[5, 0, 0, 0, 0, 1, 0, 0, 0],
    &[5, 0, 0, 0, 16, 1, 0, 0, 0],
    &[5, 0, 0, 0, 5, 0, 0, 0, 0],
    &[5, 0, 0, 0, 5, 100, 0, 0, 0],
    // A byte more than the fields have, and a byte less.
    &[6, 0, 0, 0, 5, 1, 0, 0, 0, 0],
    &[8, 0, 0, 0, 3, 1, 0, 0, 0, 7, 0, 0],
    // A bookmark without a byte.
    &[11, 0, 0, 0, 8, 1, 0, 0, 0, 1, 0, 0, 0, 0, 0],
    // A flag that is 2.
    &[15, 0, 0, 0, 7, 1, 0, 0, 0, 1, 0, 0, 0, 1, 0, 9, 2, 0, 0],
    // Columns that fall.
    &[
        27, 0, 0, 0, 7, 1, 0, 0, 0, 1, 0, 0, 0, 1, 0, 9, 0, 2, 0, 2, 0, 0, 0, 0, 0, 1, 0, 0, 0, 0,
        0,
    ],
    // A name of no byte, and one of 65.
    &[11, 0, 0, 0, 15, 1, 0, 0, 0, 1, 1, 0, 0, 0, 0],
    &[
        76, 0, 0, 0, 15, 1, 0, 0, 0, 1, 1, 0, 0, 0, 65, 97, 97, 97, 97, 97, 97, 97, 97, 97, 97, 97,
        97, 97, 97, 97, 97, 97, 97, 97, 97, 97, 97, 97, 97, 97, 97, 97, 97, 97, 97, 97, 97, 97, 97,
        97, 97, 97, 97, 97, 97, 97, 97, 97, 97, 97, 97, 97, 97, 97, 97, 97, 97, 97, 97, 97, 97, 97,
        97, 97, 97, 97, 97, 97, 97, 97,
    ],
    // The type 14, and the column flag 16.
    &[
        16, 0, 0, 0, 15, 1, 0, 0, 0, 3, 1, 0, 0, 0, 0, 1, 14, 3, 1, 0x6e,
    ],
    &[
        16, 0, 0, 0, 15, 1, 0, 0, 0, 3, 1, 0, 0, 0, 0, 1, 13, 16, 1, 0x6e,
    ],
    // The root 1, and the index flag 1,024.
    &[
        26, 0, 0, 0, 15, 1, 0, 0, 0, 5, 1, 0, 0, 0, 3, 0, 1, 0, 0, 0, 2, 0, 0, 0, 2, 0, 0, 0, 1,
        0x69,
    ],
    &[
        26, 0, 0, 0, 15, 1, 0, 0, 0, 5, 1, 0, 0, 0, 3, 0, 0, 0, 0, 0, 2, 0, 0, 0, 0, 4, 0, 0, 1,
        0x69,
    ],
];

/// The bytes with another byte behind them.
fn followed(rt: &impl Abort, alloc: Global, bytes: &[u8]) -> Vec<u8> {
    let mut followed = bytes.to_vec(alloc).expect(rt, "memory");
    followed.push(77).expect(rt, "memory");
    followed
}

/// Whether the entry is written as these bytes.
fn is_written(rt: &impl Abort, alloc: Global, entry: &Entry, bytes: &[u8]) -> bool {
    if !has_spelling(entry) {
        return false;
    }
    encode(alloc, entry).expect(rt, "memory").as_slice() == bytes
}

/// Whether an entry that is written as the bytes is read from them where a byte follows.
fn is_read(rt: &impl Abort, alloc: Global, bytes: &[u8]) -> bool {
    match read_front(alloc, &followed(rt, alloc, bytes)) {
        Ok((entry, count)) => count == bytes.len() && is_written(rt, alloc, &entry, bytes),
        Err(_) => false,
    }
}

#[test]
fn entries_are_read_and_written(rt: HostRuntime) {
    for bytes in ENTRIES {
        assert!(&rt; is_read(&rt, rt.alloc(), bytes));
    }
}

#[test]
fn other_bytes_begin_with_no_entry(rt: HostRuntime) {
    for bytes in BAD {
        assert!(&rt; matches!(read_front(rt.alloc(), bytes), Err(EntryFault::BadEntry)));
    }
}

/// Bytes that are less than the whole of no entry, each for one reason.
static BAD_FRONTS: &[&[u8]] = &[
    // A length that none has, tags that none of the length has, and sessions that none has.
    &[6, 0, 0, 0],
    &[5, 0, 0, 0, 16],
    &[5, 0, 0, 0, 3],
    &[9, 0, 0, 0, 5],
    &[5, 0, 0, 0, 5, 0],
    &[5, 0, 0, 0, 5, 1, 1],
    // A bookmark that is too long, and one that is too short.
    &[12, 0, 0, 0, 8, 1, 0, 0, 0, 1, 0, 0, 0, 2],
    &[12, 0, 0, 0, 8, 1, 0, 0, 0, 1, 0, 0, 0, 0],
    // Two values that are more than the bytes that are missing, a value that leaves one over, and columns that fall.
    &[20, 0, 0, 0, 7, 1, 0, 0, 0, 1, 0, 0, 0, 1, 0, 9, 0, 2, 0],
    &[
        22, 0, 0, 0, 7, 1, 0, 0, 0, 1, 0, 0, 0, 1, 0, 9, 0, 1, 0, 3, 0, 2,
    ],
    &[
        27, 0, 0, 0, 7, 1, 0, 0, 0, 1, 0, 0, 0, 1, 0, 9, 0, 2, 0, 2, 0, 0, 0, 0, 0, 1, 0,
    ],
    // A name of one byte where two are left, and a length that only a name of no byte would have.
    &[13, 0, 0, 0, 15, 1, 0, 0, 0, 1, 1, 0, 0, 0, 1],
    &[11, 0, 0, 0],
];

/// Bytes that are less than the whole of some entry, though not of one above.
static CUT_FRONTS: &[&[u8]] = &[
    // Columns up to 65,535 may follow, and as many values of one column as there are.
    &[
        27, 0, 0, 0, 7, 1, 0, 0, 0, 1, 0, 0, 0, 1, 0, 9, 0, 2, 0, 0xff, 0xff, 0, 0, 0, 0, 0xff,
    ],
    // A value of the longest length that an entry has.
    &[
        0xff, 0xff, 0xff, 0xff, 7, 1, 0, 0, 0, 1, 0, 0, 0, 1, 0, 9, 0, 1, 0, 3, 0, 0xea,
    ],
    // A name that ends inside a character, and one that is no text.
    &[14, 0, 0, 0, 15, 1, 0, 0, 0, 1, 1, 0, 0, 0, 3, 0xe2],
    &[14, 0, 0, 0, 15, 1, 0, 0, 0, 1, 1, 0, 0, 0, 3, 0xe2, 0x82],
    &[14, 0, 0, 0, 15, 1, 0, 0, 0, 1, 1, 0, 0, 0, 3, 0xe2, 0x28],
];

/// Whether the bytes are the front of an entry that is cut.
fn is_cut(alloc: Global, bytes: &[u8]) -> bool {
    matches!(decode(alloc, bytes), Ok(Parsed::Cut))
}

#[test]
fn fronts_of_entries_are_cut(rt: HostRuntime) {
    for bytes in ENTRIES {
        for size in 0..bytes.len() {
            assert!(&rt; is_cut(rt.alloc(), &bytes[..size]));
        }
    }
    for bytes in CUT_FRONTS {
        assert!(&rt; is_cut(rt.alloc(), bytes));
    }
}

/// Whether an entry that is written as the bytes is decoded from them where a byte follows.
fn is_decoded(rt: &impl Abort, alloc: Global, bytes: &[u8]) -> bool {
    match decode(alloc, &followed(rt, alloc, bytes)) {
        Ok(Parsed::Whole(entry, count)) => count == bytes.len()
            && is_written(rt, alloc, &entry, bytes),
        _ => false,
    }
}

#[test]
fn whole_entries_are_decoded(rt: HostRuntime) {
    for bytes in ENTRIES {
        assert!(&rt; is_decoded(&rt, rt.alloc(), bytes));
    }
}

/// Whether the bytes are neither an entry nor the front of one.
fn is_bad(alloc: Global, bytes: &[u8]) -> bool {
    matches!(decode(alloc, bytes), Err(EntryFault::BadEntry))
}

#[test]
fn other_bytes_are_no_front(rt: HostRuntime) {
    for bytes in BAD {
        assert!(&rt; is_bad(rt.alloc(), bytes));
    }
    for bytes in BAD_FRONTS {
        assert!(&rt; is_bad(rt.alloc(), bytes));
    }
}

/// A begin of the session.
fn begin(label: u32) -> Entry {
    Entry {
        session: Session(label),
        kind: EntryKind::Begin,
    }
}

#[test]
fn entries_of_other_sessions_have_no_spelling(rt: HostRuntime) {
    assert!(rt; !has_spelling(&begin(0)));
    assert!(rt; !has_spelling(&begin(100)));
}

#[test]
fn an_entry_of_an_empty_bookmark_has_no_spelling(rt: HostRuntime) {
    let drop = Change::Drop {
        table: TableId(1),
        bookmark: Bookmark::from_slice(rt.alloc(), &[]).expect(&rt, "memory"),
    };
    let entry = Entry {
        session: Session(1),
        kind: EntryKind::Change(drop),
    };
    assert!(&rt; !has_spelling(&entry));
}
