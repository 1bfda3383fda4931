//! Rows of outside vectors, and bytes that are no row.

use column_set::{
    Record, Row, RowFault, RowRef, RowValue, Values, decode, encode, encode_record, is_all_here,
    is_row, values_here_are_the_record,
};
use jet_base::{ColumnId, Octets, OutOfMemory};
use std::alloc::Global;
use std::process::Abort;
use std::test::*;

/// The row {1: 02000000, 128: "bob"}.
const BOB: [u8; 19] = [
    2, 0, 1, 0, 0, 4, 0, 2, 0, 0, 0, 128, 0, 0, 3, 0, b'b', b'o', b'b',
];

/// The row with an empty value more in column 128.
const BOB_TWICE: [u8; 24] = [
    3, 0, 1, 0, 0, 4, 0, 2, 0, 0, 0, 128, 0, 0, 3, 0, b'b', b'o', b'b', 128, 0, 0, 0, 0,
];

/// The row {256: a value of 300 bytes, which entry 7 wrote at its place 2}.
const APART: [u8; 23] = [
    1, 0, 0, 1, 1, 16, 0, 7, 0, 0, 0, 0, 0, 0, 0, 2, 0, 0, 0, 44, 1, 0, 0,
];

/// Bytes that are no row, each for one reason.
const BAD_ROWS: [&[u8]; 12] = [
    // No count, and half of one.
    &[],
    &[0],
    // A byte behind the row.
    &[0, 0, 0],
    // A value less than the count says.
    &[1, 0],
    // A head that is cut, and bytes that are cut.
    &[1, 0, 1, 0, 0, 1],
    &[1, 0, 1, 0, 0, 2, 0, 9],
    // Columns that fall.
    &[2, 0, 2, 0, 0, 0, 0, 1, 0, 0, 0, 0],
    // Form 2.
    &[1, 0, 1, 0, 2, 0, 0],
    // A value kept apart whose place has 15 bytes.
    &[
        1, 0, 0, 1, 1, 15, 0, 7, 0, 0, 0, 0, 0, 0, 0, 2, 0, 0, 0, 44, 1, 0,
    ],
    // One of 255 bytes, and one of 1,048,577.
    &[
        1, 0, 0, 1, 1, 16, 0, 7, 0, 0, 0, 0, 0, 0, 0, 2, 0, 0, 0, 255, 0, 0, 0,
    ],
    &[
        1, 0, 0, 1, 1, 16, 0, 7, 0, 0, 0, 0, 0, 0, 0, 2, 0, 0, 0, 1, 0, 16, 0,
    ],
    // A byte behind the last value.
    &[1, 0, 1, 0, 0, 0, 0, 0],
];

/// The row of `BOB`.
fn row_of_bob(alloc: Global) -> Result<Row, OutOfMemory> {
    let mut row = Row::new(alloc);
    let id = Octets::from_slice(alloc, &[2, 0, 0, 0])?;
    row.push(ColumnId(1), RowValue::Here(id))?;
    let name = Octets::from_slice(alloc, b"bob")?;
    row.push(ColumnId(128), RowValue::Here(name))?;
    Ok(row)
}

/// Whether a row is written as these bytes.
fn is_written(alloc: Global, row: &Row, bytes: &[u8]) -> bool {
    match encode(alloc, row) {
        Ok(written) => written.as_slice() == bytes,
        Err(_) => false,
    }
}

#[test]
fn a_row_is_written(rt: HostRuntime) {
    let row = row_of_bob(rt.alloc()).expect(&rt, "memory");
    assert!(&rt; is_written(rt.alloc(), &row, &BOB));
}

/// Whether bytes are read as a row of so many values, which is written as the bytes.
fn is_read(alloc: Global, bytes: &[u8], count: usize) -> bool {
    match decode(alloc, bytes) {
        Ok(row) => row.values().len() == count && is_written(alloc, &row, bytes),
        Err(_) => false,
    }
}

#[test]
fn a_row_is_read(rt: HostRuntime) {
    assert!(&rt; is_read(rt.alloc(), &BOB, 2));
    assert!(&rt; is_read(rt.alloc(), &APART, 1));
}

#[test]
fn a_row_is_read_in_place(rt: HostRuntime) {
    assert!(&rt; is_row(&BOB));
    let row = RowRef::new(&BOB);
    assert!(&rt; row.count(ColumnId(1)) == 1 && row.count(ColumnId(2)) == 0);
    assert!(&rt; row.value(ColumnId(128), 0) == Some(b"bob".as_slice()));
    assert!(&rt; row.value(ColumnId(128), 1).is_none());
    assert!(&rt; row.apart(ColumnId(128), 0).is_none());
}

#[test]
fn a_value_is_kept_apart(rt: HostRuntime) {
    assert!(&rt; is_row(&APART));
    let row = RowRef::new(&APART);
    assert!(&rt; row.count(ColumnId(256)) == 1);
    assert!(&rt; row.value(ColumnId(256), 0) == Some([].as_slice()));
    assert!(&rt; row.apart(ColumnId(256), 0) == Some((7, 2, 300)));
}

/// A row of so many values of 255 bytes.
fn wide_row(alloc: Global, count: usize) -> Result<Row, OutOfMemory> {
    let mut row = Row::new(alloc);
    for _ in 0..count {
        let value = RowValue::Here(Octets::from_slice(alloc, &[97; 255])?);
        row.push(ColumnId(200), value)?;
    }
    Ok(row)
}

/// The bytes of as many values of 255 bytes behind one another.
fn wide_bytes(rt: &impl Abort, alloc: Global, count: u8) -> Vec<u8> {
    let mut bytes = [count, 0].to_vec(alloc).expect(rt, "memory");
    for _ in 0..count {
        bytes
            .extend_from_slice(&[200, 0, 0, 255, 0])
            .expect(rt, "memory");
        bytes.extend_from_slice(&[97; 255]).expect(rt, "memory");
    }
    bytes
}

#[test]
fn a_row_of_1562_bytes_is_written(rt: HostRuntime) {
    let bytes = wide_bytes(&rt, rt.alloc(), 6);
    let row = wide_row(rt.alloc(), 6).expect(&rt, "memory");
    assert!(&rt; is_written(rt.alloc(), &row, &bytes));
}

#[test]
fn a_row_of_more_than_1700_bytes_is_not_written(rt: HostRuntime) {
    let row = wide_row(rt.alloc(), 7).expect(&rt, "memory");
    assert!(&rt; matches!(encode(rt.alloc(), &row), Err(RowFault::RecordTooBig)));
}

#[test]
fn a_row_of_more_than_1700_bytes_is_read(rt: HostRuntime) {
    let bytes = wide_bytes(&rt, rt.alloc(), 7);
    assert!(&rt; is_row(&bytes) && RowRef::new(&bytes).count(ColumnId(200)) == 7);
    match decode(rt.alloc(), &bytes) {
        Ok(row) => assert!(&rt; row.values().len() == 7),
        Err(_) => assert!(&rt; false),
    }
}

#[test]
fn bytes_that_are_no_row_are_refused(rt: HostRuntime) {
    for bytes in BAD_ROWS {
        assert!(&rt; !is_row(bytes));
        assert!(&rt; matches!(decode(rt.alloc(), bytes), Err(RowFault::BadRecord)));
    }
}

fn add(rt: &impl Abort, alloc: Global, record: &mut Record, column: ColumnId, bytes: &[u8]) {
    let value = Octets::from_slice(alloc, bytes).expect(rt, "memory");
    record.push_value(column, value).expect(rt, "memory");
}

/// Whether no value of a record is kept apart, and its row is these bytes.
fn has_row(alloc: Global, record: &Record, bytes: &[u8]) -> bool {
    if !is_all_here(record) {
        return false;
    }
    match encode_record(alloc, record) {
        Ok(written) => written.as_slice() == bytes,
        Err(_) => false,
    }
}

#[test]
fn the_row_of_a_record_is_written(rt: HostRuntime) {
    let mut record = Record::new(rt.alloc());
    add(&rt, rt.alloc(), &mut record, ColumnId(128), b"bob");
    add(&rt, rt.alloc(), &mut record, ColumnId(1), &[2, 0, 0, 0]);
    assert!(&rt; has_row(rt.alloc(), &record, &BOB));
    add(&rt, rt.alloc(), &mut record, ColumnId(128), b"");
    assert!(&rt; has_row(rt.alloc(), &record, &BOB_TWICE));
    add(&rt, rt.alloc(), &mut record, ColumnId(256), &[97; 256]);
    assert!(&rt; !is_all_here(&record));
    values_here_are_the_record();
}

#[test]
fn the_row_of_a_record_has_at_most_1700_bytes(rt: HostRuntime) {
    let mut record = Record::new(rt.alloc());
    for _ in 0..7 {
        add(&rt, rt.alloc(), &mut record, ColumnId(200), &[97; 255]);
    }
    if is_all_here(&record) {
        let written = encode_record(rt.alloc(), &record);
        assert!(&rt; matches!(written, Err(RowFault::RecordTooBig)));
    } else {
        assert!(&rt; false);
    }
}
