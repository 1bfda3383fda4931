//! Records, rules and what the records have by them: every flag alone and with those that it meets, conditions, orders
//! and NULLs.

use index_derive::{DeriveFault, IndexFlags};
use jet_base::ColType;

/// A record, the rule of an index, and what it has there.
#[derive(Clone, Copy)]
pub struct Case<'a> {
    /// The type of columns 256 and 257.
    pub kind: ColType,
    /// They may have several values.
    pub multi: bool,
    pub flags: IndexFlags,
    /// The columns of the key, descending where the flag is set.
    pub columns: &'a [(u16, bool)],
    /// Columns that have no value where the flag is set, else that have one.
    pub conditions: &'a [(u16, bool)],
    /// The values of column 256.
    pub first: &'a [&'a [u8]],
    /// The values of column 257.
    pub second: &'a [&'a [u8]],
    /// Why the record is refused, or its keys.
    pub refused: Option<DeriveFault>,
    pub keys: &'a [&'a [u8]],
}

/// A record without values in an index on both columns, which has one entry.
const CASE: Case = Case {
    kind: ColType::UnsignedByte,
    multi: true,
    flags: IndexFlags::NONE,
    columns: &[(256, false), (257, false)],
    conditions: &[],
    first: &[],
    second: &[],
    refused: None,
    keys: &[b"\0\0"],
};

/// A value whose key is cut.
const LONG: [u8; 300] = [b'a'; 300];

/// Its key, which loses bytes at 255.
const CUT: &[u8] = b"\x7f\
      aaaaaaaa\taaaaaaaa\taaaaaaaa\taaaaaaaa\taaaaaaaa\taaaaaaaa\taaaaaaaa\t\
      aaaaaaaa\taaaaaaaa\taaaaaaaa\taaaaaaaa\taaaaaaaa\taaaaaaaa\taaaaaaaa\t\
      aaaaaaaa\taaaaaaaa\taaaaaaaa\taaaaaaaa\taaaaaaaa\taaaaaaaa\taaaaaaaa\t\
      aaaaaaaa\taaaaaaaa\taaaaaaaa\taaaaaaaa\taaaaaaaa\taaaaaaaa\taaaaaaaa\t\
      aa";

/// The key of 224 bytes, which has 253.
const WHOLE: &[u8] = b"\x7f\
      aaaaaaaa\taaaaaaaa\taaaaaaaa\taaaaaaaa\taaaaaaaa\taaaaaaaa\taaaaaaaa\t\
      aaaaaaaa\taaaaaaaa\taaaaaaaa\taaaaaaaa\taaaaaaaa\taaaaaaaa\taaaaaaaa\t\
      aaaaaaaa\taaaaaaaa\taaaaaaaa\taaaaaaaa\taaaaaaaa\taaaaaaaa\taaaaaaaa\t\
      aaaaaaaa\taaaaaaaa\taaaaaaaa\taaaaaaaa\taaaaaaaa\taaaaaaaa\t\
      aaaaaaaa\x08";

pub static CASES: &[Case] = &[
    CASE,
    // one entry for each value of the first multi-valued column
    Case {
        first: &[b"a", b"b", b"c"],
        second: &[b"x", b"y"],
        keys: &[b"\x7fa\x7fx", b"\x7fb\x7fx", b"\x7fc\x7fx"],
        ..CASE
    },
    // one for each combination
    Case {
        flags: IndexFlags {
            crossproduct: true,
            ..IndexFlags::NONE
        },
        first: &[b"a", b"b", b"c"],
        second: &[b"x", b"y"],
        keys: &[
            b"\x7fa\x7fx",
            b"\x7fa\x7fy",
            b"\x7fb\x7fx",
            b"\x7fb\x7fy",
            b"\x7fc\x7fx",
            b"\x7fc\x7fy",
        ],
        ..CASE
    },
    // the first multi-valued column gives the entries, also where it has no value
    Case {
        second: &[b"x", b"y"],
        keys: &[b"\0\x7fx"],
        ..CASE
    },
    // NULL counts as one value
    Case {
        flags: IndexFlags {
            crossproduct: true,
            ..IndexFlags::NONE
        },
        second: &[b"x", b"y"],
        keys: &[b"\0\x7fx", b"\0\x7fy"],
        ..CASE
    },
    // in the second column too
    Case {
        flags: IndexFlags {
            crossproduct: true,
            ..IndexFlags::NONE
        },
        first: &[b"a", b"b", b"c"],
        keys: &[b"\x7fa\0", b"\x7fb\0", b"\x7fc\0"],
        ..CASE
    },
    // columns of one value, in the order of records
    Case {
        multi: false,
        flags: IndexFlags {
            primary: true,
            ..IndexFlags::NONE
        },
        first: &[b"a"],
        second: &[b"x"],
        keys: &[b"\x7fa\x7fx"],
        ..CASE
    },
    // no two records have an equal key, and one record has several
    Case {
        flags: IndexFlags {
            unique: true,
            ..IndexFlags::NONE
        },
        first: &[b"a", b"b", b"c"],
        second: &[b"x", b"y"],
        keys: &[b"\x7fa\x7fx", b"\x7fb\x7fx", b"\x7fc\x7fx"],
        ..CASE
    },
    // in rising order and each once
    Case {
        columns: &[(256, false)],
        first: &[b"c", b"a", b"b", b"a"],
        keys: &[b"\x7fa", b"\x7fb", b"\x7fc"],
        ..CASE
    },
    // combinations too
    Case {
        flags: IndexFlags {
            crossproduct: true,
            ..IndexFlags::NONE
        },
        first: &[b"a", b"a"],
        second: &[b"y", b"x", b"y"],
        keys: &[b"\x7fa\x7fx", b"\x7fa\x7fy"],
        ..CASE
    },
    // letters without case
    Case {
        kind: ColType::Text,
        columns: &[(256, false)],
        first: &[b"b", b"B", b"a"],
        keys: &[b"\x7fA\0\0\0\0\0\0\0\x01", b"\x7fB\0\0\0\0\0\0\0\x01"],
        ..CASE
    },
    // greater values first
    Case {
        columns: &[(256, true)],
        first: &[b"\x01", b"\x02"],
        keys: &[b"\x80\xfd", b"\x80\xfe"],
        ..CASE
    },
    // the columns in the order of the key
    Case {
        columns: &[(257, false), (256, true)],
        first: &[b"\x01", b"\x02"],
        second: &[b"\x08", b"\x09"],
        keys: &[b"\x7f\x08\x80\xfe", b"\x7f\x09\x80\xfe"],
        ..CASE
    },
    // a descending NULL
    Case {
        columns: &[(256, true)],
        keys: &[b"\xff"],
        ..CASE
    },
    // a high NULL
    Case {
        flags: IndexFlags {
            sortnullshigh: true,
            ..IndexFlags::NONE
        },
        keys: &[b"\xc0\xc0"],
        ..CASE
    },
    // a descending high NULL
    Case {
        flags: IndexFlags {
            sortnullshigh: true,
            ..IndexFlags::NONE
        },
        columns: &[(256, true)],
        keys: &[b"\x3f"],
        ..CASE
    },
    // a descending high NULL beside one that ascends
    Case {
        flags: IndexFlags {
            sortnullshigh: true,
            ..IndexFlags::NONE
        },
        columns: &[(256, true), (257, false)],
        keys: &[b"\x3f\xc0"],
        ..CASE
    },
    // all columns are NULL
    Case {
        flags: IndexFlags {
            ignorenull: true,
            ..IndexFlags::NONE
        },
        keys: &[],
        ..CASE
    },
    // one of several is not all
    Case {
        flags: IndexFlags {
            ignorenull: true,
            ..IndexFlags::NONE
        },
        second: &[b"x"],
        keys: &[b"\0\x7fx"],
        ..CASE
    },
    // in no combination
    Case {
        flags: IndexFlags {
            ignorenull: true,
            crossproduct: true,
            ..IndexFlags::NONE
        },
        second: &[b"x", b"y"],
        keys: &[b"\0\x7fx", b"\0\x7fy"],
        ..CASE
    },
    // any column is NULL
    Case {
        flags: IndexFlags {
            ignoreanynull: true,
            ..IndexFlags::NONE
        },
        first: &[b"a"],
        keys: &[],
        ..CASE
    },
    // none is
    Case {
        flags: IndexFlags {
            ignoreanynull: true,
            ..IndexFlags::NONE
        },
        first: &[b"a"],
        second: &[b"x"],
        keys: &[b"\x7fa\x7fx"],
        ..CASE
    },
    // the first column is NULL
    Case {
        flags: IndexFlags {
            ignorefirstnull: true,
            ..IndexFlags::NONE
        },
        second: &[b"x"],
        keys: &[],
        ..CASE
    },
    // the last is
    Case {
        flags: IndexFlags {
            ignorefirstnull: true,
            ..IndexFlags::NONE
        },
        first: &[b"a"],
        keys: &[b"\x7fa\0"],
        ..CASE
    },
    // a NULL is refused
    Case {
        flags: IndexFlags {
            disallownull: true,
            ..IndexFlags::NONE
        },
        first: &[b"a"],
        refused: Some(DeriveFault::NullKeyDisallowed),
        keys: &[],
        ..CASE
    },
    // none is there
    Case {
        flags: IndexFlags {
            disallownull: true,
            ..IndexFlags::NONE
        },
        first: &[b"a"],
        second: &[b"x"],
        keys: &[b"\x7fa\x7fx"],
        ..CASE
    },
    // a column without values counts as one NULL
    Case {
        flags: IndexFlags {
            disallownull: true,
            crossproduct: true,
            ..IndexFlags::NONE
        },
        first: &[b"a", b"b", b"c"],
        refused: Some(DeriveFault::NullKeyDisallowed),
        keys: &[],
        ..CASE
    },
    // what is left out is not refused: all columns are NULL
    Case {
        flags: IndexFlags {
            disallownull: true,
            ignorenull: true,
            ..IndexFlags::NONE
        },
        keys: &[],
        ..CASE
    },
    // any column is
    Case {
        flags: IndexFlags {
            disallownull: true,
            ignoreanynull: true,
            ..IndexFlags::NONE
        },
        first: &[b"a"],
        keys: &[],
        ..CASE
    },
    // the first column is
    Case {
        flags: IndexFlags {
            disallownull: true,
            ignorefirstnull: true,
            ..IndexFlags::NONE
        },
        second: &[b"x"],
        keys: &[],
        ..CASE
    },
    // what is not left out is refused: not all columns are NULL
    Case {
        flags: IndexFlags {
            disallownull: true,
            ignorenull: true,
            ..IndexFlags::NONE
        },
        first: &[b"a"],
        refused: Some(DeriveFault::NullKeyDisallowed),
        keys: &[],
        ..CASE
    },
    // not the first is
    Case {
        flags: IndexFlags {
            disallownull: true,
            ignorefirstnull: true,
            ..IndexFlags::NONE
        },
        first: &[b"a"],
        refused: Some(DeriveFault::NullKeyDisallowed),
        keys: &[],
        ..CASE
    },
    // a condition that is not met
    Case {
        conditions: &[(257, false)],
        first: &[b"a"],
        keys: &[],
        ..CASE
    },
    // one that is met
    Case {
        conditions: &[(257, false)],
        first: &[b"a"],
        second: &[b"x"],
        keys: &[b"\x7fa\x7fx"],
        ..CASE
    },
    // one that asks for NULL and is not met
    Case {
        conditions: &[(256, false), (257, true)],
        first: &[b"a"],
        second: &[b"x"],
        keys: &[],
        ..CASE
    },
    // one that asks for NULL and is met
    Case {
        conditions: &[(256, false), (257, true)],
        first: &[b"a"],
        keys: &[b"\x7fa\0"],
        ..CASE
    },
    // a record that does not meet it is not refused
    Case {
        flags: IndexFlags {
            disallownull: true,
            ..IndexFlags::NONE
        },
        conditions: &[(257, false)],
        first: &[b"a"],
        keys: &[],
        ..CASE
    },
    // nor for a key that would be cut
    Case {
        kind: ColType::LongBinary,
        flags: IndexFlags {
            disallowtruncation: true,
            ..IndexFlags::NONE
        },
        columns: &[(256, false)],
        conditions: &[(257, false)],
        first: &[&LONG],
        keys: &[],
        ..CASE
    },
    // a key is cut
    Case {
        kind: ColType::LongBinary,
        columns: &[(256, false)],
        first: &[&LONG],
        keys: &[CUT],
        ..CASE
    },
    // or refused
    Case {
        kind: ColType::LongBinary,
        flags: IndexFlags {
            disallowtruncation: true,
            ..IndexFlags::NONE
        },
        columns: &[(256, false)],
        first: &[&LONG],
        refused: Some(DeriveFault::KeyTruncated),
        keys: &[],
        ..CASE
    },
    // a key that is just short enough is neither
    Case {
        kind: ColType::LongBinary,
        flags: IndexFlags {
            disallowtruncation: true,
            ..IndexFlags::NONE
        },
        columns: &[(256, false)],
        first: &[&[b'a'; 224]],
        keys: &[WHOLE],
        ..CASE
    },
    // the first 255 bytes of a value make its key
    Case {
        kind: ColType::LongBinary,
        columns: &[(256, false)],
        first: &[&LONG, &[b'a'; 256], &[b'a'; 255]],
        keys: &[CUT],
        ..CASE
    },
    // a NULL is refused before a cut key
    Case {
        kind: ColType::LongBinary,
        flags: IndexFlags {
            disallownull: true,
            disallowtruncation: true,
            ..IndexFlags::NONE
        },
        first: &[&LONG],
        refused: Some(DeriveFault::NullKeyDisallowed),
        keys: &[],
        ..CASE
    },
    // a cut key that is left out is not refused
    Case {
        kind: ColType::LongBinary,
        flags: IndexFlags {
            ignoreanynull: true,
            disallowtruncation: true,
            ..IndexFlags::NONE
        },
        first: &[&LONG],
        keys: &[],
        ..CASE
    },
    // each start of three bytes or more of a text
    Case {
        kind: ColType::LongText,
        flags: IndexFlags {
            tuples: true,
            ..IndexFlags::NONE
        },
        columns: &[(256, false)],
        first: &[b"abcd", b"ab"],
        keys: &[b"\x7fABCD\0\0\0\0\x04", b"\x7fBCD\0\0\0\0\0\x03"],
        ..CASE
    },
    // NULL has no part, so none is refused
    Case {
        kind: ColType::LongText,
        flags: IndexFlags {
            tuples: true,
            disallownull: true,
            ..IndexFlags::NONE
        },
        columns: &[(256, false)],
        keys: &[],
        ..CASE
    },
];
