//! What no script shows of copy buffers: sums, which no call sets, the calls of a buffer itself, and memory that fails.

use column_set::{Column, Columns, Record};
use jet_base::{ColType, ColumnId, Jet, Name};
use record_edit::{CopyBuffer, EditFault};
use std::alloc::Global;
use std::process::Abort;
use std::test::*;

const TOTAL: ColumnId = ColumnId(1);

const TAGS: ColumnId = ColumnId(256);

fn column(rt: &impl Abort, alloc: Global, id: ColumnId, kind: ColType) -> Column {
    let (multi, escrow) = (id == TAGS, id == TOTAL);
    Column {
        id,
        name: Name::new(alloc, "c").expect(rt, "memory"),
        kind,
        tagged: false,
        multi,
        not_null: false,
        escrow,
        version: false,
        auto: false,
    }
}

/// A buffer of a table with a sum and with tags.
fn buffer(rt: &impl Abort, alloc: Global) -> CopyBuffer {
    let mut columns = Columns::empty(alloc);
    columns
        .push(column(rt, alloc, TOTAL, ColType::Long))
        .expect(rt, "memory");
    columns
        .push(column(rt, alloc, TAGS, ColType::Binary))
        .expect(rt, "memory");
    CopyBuffer::new(alloc, &columns, Record::new(alloc)).expect(rt, "memory")
}

#[test]
fn a_sum_is_not_set(rt: HostRuntime) {
    let mut buffer = buffer(&rt, rt.alloc());
    assert!(&rt;
        buffer.set(TOTAL, 2, Some(&[1, 0, 0, 0]))
            == Err(EditFault::Refused(Jet::ColumnNotUpdatable))
    );
}

/// Sets one tag more. Where there was no memory there are as many as before.
fn set_tag(rt: &impl Abort, buffer: &mut CopyBuffer, before: usize) {
    if buffer.set(TAGS, 0, Some(b"tag")).is_err() {
        assert!(rt; buffer.count(TAGS) == before);
        assert!(rt; buffer.set(TAGS, 0, Some(b"tag")).is_ok());
    }
}

#[test]
fn a_value_is_set_once_there_is_memory(rt: HostRuntime) {
    let mut buffer = buffer(&rt, rt.alloc());
    for count in 0..4 {
        set_tag(&rt, &mut buffer, count);
        assert!(&rt; buffer.count(TAGS) == count + 1);
    }
}

#[test]
fn a_buffer_has_its_columns_and_its_values(rt: HostRuntime) {
    let mut buffer = buffer(&rt, rt.alloc());
    set_tag(&rt, &mut buffer, 0);
    assert!(&rt; buffer.columns().as_slice().len() == 2);
    assert!(&rt; buffer.get(TAGS, 1) == Some(b"tag".as_slice()));
    assert!(&rt; buffer.get(TAGS, 0).is_none());
    assert!(&rt; buffer.values().size() == 10);
    assert!(&rt; buffer.values().values(TAGS).len() == 1);
}
