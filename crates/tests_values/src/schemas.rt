//! The schema of a table.

use column_set::{Column, Columns};
use index_derive::{IndexFlags, IndexRule, Schema, Segment};
use jet_base::{ColType, ColumnId, IndexId, Items, Name};
use std::alloc::Global;
use std::process::Abort;
use std::test::*;

const PRIMARY: IndexFlags = IndexFlags {
    primary: true,
    unique: true,
    ..IndexFlags::NONE
};

fn name(rt: &impl Abort, alloc: Global, text: &str) -> Name {
    Name::new(alloc, text).expect(rt, "memory")
}

fn columns(rt: &impl Abort, alloc: Global) -> Columns {
    let mut columns = Columns::empty(alloc);
    let column = Column {
        id: ColumnId(1),
        name: name(rt, alloc, "id"),
        kind: ColType::Long,
        tagged: false,
        multi: false,
        not_null: false,
        escrow: false,
        version: false,
        auto: false,
    };
    columns.push(column).expect(rt, "memory");
    columns
}

fn segments(rt: &impl Abort, alloc: Global) -> Items<Segment> {
    let mut segments = Items::empty(alloc);
    let segment = Segment {
        column: ColumnId(1),
        descending: true,
    };
    segments.push(segment).expect(rt, "memory");
    segments
}

fn indexes(rt: &impl Abort, alloc: Global) -> Items<IndexRule> {
    let mut indexes = Items::empty(alloc);
    let rule = IndexRule {
        id: IndexId(1),
        name: name(rt, alloc, "pk"),
        order: 1,
        segments: segments(rt, alloc),
        flags: PRIMARY,
        conditions: Items::empty(alloc),
        key_most: 255,
    };
    indexes.push(rule).expect(rt, "memory");
    indexes
}

fn schema(rt: &impl Abort, alloc: Global) -> Schema {
    Schema {
        columns: columns(rt, alloc),
        indexes: indexes(rt, alloc),
    }
}

#[test]
fn a_schema_is_copied(rt: HostRuntime) {
    let copy = schema(&rt, rt.alloc()).copy().expect(&rt, "memory");
    assert!(&rt; copy.columns.as_slice().len() == 1);
    match copy.indexes.as_slice() {
        [rule] => assert!(&rt; rule.name.as_bytes() == b"pk".as_slice()),
        _ => assert!(&rt; false),
    }
}

#[test]
fn columns_and_indexes_are_searched(rt: HostRuntime) {
    let schema = schema(&rt, rt.alloc());
    assert!(&rt; schema.column_of_id(ColumnId(1)).is_some());
    assert!(&rt; schema.column_of_id(ColumnId(2)).is_none());
    assert!(&rt; schema.primary_rule().is_some());
    assert!(&rt; schema.rule_with_id(IndexId(1)).is_some());
    assert!(&rt; schema.rule_with_id(IndexId(2)).is_none());
}

#[test]
fn indexes_are_searched_by_name(rt: HostRuntime) {
    let schema = schema(&rt, rt.alloc());
    assert!(&rt; schema.rule_named(&name(&rt, rt.alloc(), "pk")).is_some());
    assert!(&rt; schema.rule_named(&name(&rt, rt.alloc(), "PK")).is_none());
}
