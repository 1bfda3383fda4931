//! Columns, bookmarks and the values of records.

use column_set::{Bookmark, Column, Columns, Record, Values, column_named, column_of_id};
use jet_base::{ColType, ColumnId, Name, Octets};
use std::alloc::Global;
use std::process::Abort;
use std::test::*;

fn column(rt: &impl Abort, alloc: Global) -> Column {
    Column {
        id: ColumnId(1),
        name: Name::new(alloc, "id").expect(rt, "memory"),
        kind: ColType::Long,
        tagged: false,
        multi: false,
        not_null: true,
        escrow: false,
        version: false,
        auto: false,
    }
}

#[test]
fn a_column_is_copied(rt: HostRuntime) {
    let column = column(&rt, rt.alloc());
    let other = column.copy().expect(&rt, "memory");
    assert!(&rt; other.name == column.name && other.not_null);
}

#[test]
fn a_column_is_found(rt: HostRuntime) {
    let mut columns = Columns::empty(rt.alloc());
    columns.push(column(&rt, rt.alloc())).expect(&rt, "memory");
    let name = Name::new(rt.alloc(), "id").expect(&rt, "memory");
    assert!(&rt; column_named(&columns, &name).is_some());
    let name = Name::new(rt.alloc(), "ID").expect(&rt, "memory");
    assert!(&rt; column_named(&columns, &name).is_none());
    assert!(&rt; column_of_id(columns.as_slice(), ColumnId(1)).is_some());
    assert!(&rt; column_of_id(columns.as_slice(), ColumnId(2)).is_none());
}

#[test]
fn bookmarks_are_made_and_copied(rt: HostRuntime) {
    let bookmark = Bookmark::from_slice(rt.alloc(), &[127, 1]).expect(&rt, "memory");
    assert!(&rt; bookmark.as_bytes() == [127, 1].as_slice());
    assert!(&rt; bookmark.copy().expect(&rt, "memory") == bookmark);
    let next = [127, 2].to_vec(rt.alloc()).expect(&rt, "memory");
    let next = Bookmark::new(next).expect(&rt, "memory");
    assert!(&rt; bookmark < next);
}

const NUMBER: ColumnId = ColumnId(1);

const TEXT: ColumnId = ColumnId(128);

const TAGS: ColumnId = ColumnId(256);

fn octets(rt: &impl Abort, alloc: Global, bytes: &[u8]) -> Octets {
    Octets::from_slice(alloc, bytes).expect(rt, "memory")
}

fn push(rt: &impl Abort, alloc: Global, record: &mut Record, column: ColumnId, bytes: &[u8]) {
    let value = octets(rt, alloc, bytes);
    record.push_value(column, value).expect(rt, "memory");
}

fn set_only(rt: &impl Abort, alloc: Global, record: &mut Record, column: ColumnId, bytes: &[u8]) {
    let value = octets(rt, alloc, bytes);
    record.set_only_value(column, value).expect(rt, "memory");
}

fn set(rt: &impl Abort, alloc: Global, record: &mut Record, at: usize, bytes: &[u8]) {
    assert!(rt; at < record.values(TAGS).len());
    let value = octets(rt, alloc, bytes);
    record.set_value(TAGS, at, value).expect(rt, "memory");
}

fn remove(rt: &impl Abort, record: &mut Record, at: usize) {
    assert!(rt; at < record.values(TAGS).len());
    record.remove_value(TAGS, at).expect(rt, "memory");
}

/// A number, a text, and two tags of which the last is empty.
fn filled(rt: &impl Abort, alloc: Global) -> Record {
    let mut record = Record::new(alloc);
    push(rt, alloc, &mut record, TAGS, b"red");
    push(rt, alloc, &mut record, TAGS, b"");
    set_only(rt, alloc, &mut record, TEXT, b"bob");
    set_only(rt, alloc, &mut record, NUMBER, &[2, 0, 0, 0]);
    record
}

#[test]
fn a_record_has_a_size(rt: HostRuntime) {
    assert!(&rt; Record::new(rt.alloc()).size() == 2);
    let record = filled(&rt, rt.alloc());
    assert!(&rt; record.size() == 2 + 9 + 8 + 8 + 5);
    assert!(&rt; record.size_without(TAGS) == 2 + 9 + 8);
}

#[test]
fn values_are_set_and_taken_out(rt: HostRuntime) {
    let mut record = filled(&rt, rt.alloc());
    set(&rt, rt.alloc(), &mut record, 1, b"green");
    remove(&rt, &mut record, 0);
    assert!(&rt; record.count(TAGS) == 1);
    assert!(&rt; record.value(TAGS, 0) == Some(b"green".as_slice()));
    assert!(&rt; record.value(TAGS, 1).is_none());
    remove(&rt, &mut record, 0);
    assert!(&rt; record.count(TAGS) == 0);
}

#[test]
fn values_are_replaced_and_cleared(rt: HostRuntime) {
    let mut record = filled(&rt, rt.alloc());
    set_only(&rt, rt.alloc(), &mut record, TEXT, b"Bob");
    let copy = record.copy().expect(&rt, "memory");
    record.clear(TEXT).expect(&rt, "memory");
    record.clear(TAGS).expect(&rt, "memory");
    assert!(&rt; copy.value(TEXT, 0) == Some(b"Bob".as_slice()));
    assert!(&rt; record.values(TEXT).is_empty());
    assert!(&rt; record.size() == 2 + 9);
}

#[test]
fn a_value_past_255_bytes_takes_16(rt: HostRuntime) {
    let bytes = [97; 1024];
    for (length, size) in [(0, 7), (255, 262), (256, 23), (1024, 23)] {
        let mut record = Record::new(rt.alloc());
        push(&rt, rt.alloc(), &mut record, TAGS, &bytes[..length]);
        assert!(&rt; record.size() == size, "{length} bytes");
    }
}

fn crosses_threads<T: Send + Sync>(_: &T) {}

#[test]
fn records_and_columns_cross_threads(rt: HostRuntime) {
    crosses_threads(&Record::new(rt.alloc()));
    crosses_threads(&Columns::empty(rt.alloc()));
}
