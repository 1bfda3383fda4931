//! Schema calls, each decided and made, where no script has them or none shows what they leave.

use index_derive::{IndexFlags, NamedCondition, NamedSegment, SchemaCall};
use jet_base::{ColType, ColumnFlags, Items, Jet, Name, TableId};
use jet_catalog::{Catalog, called_name};
use std::alloc::Global;
use std::process::Abort;
use std::test::*;

const PLAIN: ColumnFlags = ColumnFlags {
    not_null: false,
    tagged: false,
    multi: false,
    escrow: false,
    version: false,
    auto: false,
};

/// Several values in a column.
const SEVERAL: ColumnFlags = ColumnFlags {
    multi: true,
    ..PLAIN
};

/// A sum.
const SUM: ColumnFlags = ColumnFlags {
    escrow: true,
    ..PLAIN
};

const PRIMARY: IndexFlags = IndexFlags {
    primary: true,
    ..IndexFlags::NONE
};

fn name(rt: &impl Abort, alloc: Global, text: &str) -> Name {
    Name::new(alloc, text).expect(rt, "memory")
}

fn create_table(rt: &impl Abort, alloc: Global, table: &str) -> SchemaCall {
    SchemaCall::CreateTable {
        table: name(rt, alloc, table),
    }
}

fn delete_table(rt: &impl Abort, alloc: Global, table: &str) -> SchemaCall {
    SchemaCall::DeleteTable {
        table: name(rt, alloc, table),
    }
}

/// A new column of table T.
fn add_column(
    rt: &impl Abort,
    alloc: Global,
    column: &str,
    kind: ColType,
    flags: ColumnFlags,
) -> SchemaCall {
    SchemaCall::AddColumn {
        table: name(rt, alloc, "T"),
        column: name(rt, alloc, column),
        kind,
        flags,
    }
}

fn delete_column(rt: &impl Abort, alloc: Global, column: &str) -> SchemaCall {
    SchemaCall::DeleteColumn {
        table: name(rt, alloc, "T"),
        column: name(rt, alloc, column),
    }
}

fn segments(rt: &impl Abort, alloc: Global, column: &str) -> Items<NamedSegment> {
    let mut segments = Items::empty(alloc);
    let segment = NamedSegment {
        column: name(rt, alloc, column),
        descending: false,
    };
    segments.push(segment).expect(rt, "memory");
    segments
}

/// A new index on one column of table T.
fn create_index(
    rt: &impl Abort,
    alloc: Global,
    index: &str,
    flags: IndexFlags,
    column: &str,
) -> SchemaCall {
    SchemaCall::CreateIndex {
        table: name(rt, alloc, "T"),
        index: name(rt, alloc, index),
        flags,
        key_most: 255,
        segments: segments(rt, alloc, column),
        conditions: Items::empty(alloc),
    }
}

fn delete_index(rt: &impl Abort, alloc: Global, index: &str) -> SchemaCall {
    SchemaCall::DeleteIndex {
        table: name(rt, alloc, "T"),
        index: name(rt, alloc, index),
    }
}

/// What the call is answered on a table with records, or without one. Where nothing refuses it, its step is made.
fn answer(rt: &impl Abort, catalog: &mut Catalog, call: SchemaCall, has_records: bool) -> Jet {
    match catalog.decide(&call, has_records).expect(rt, "memory") {
        Ok(step) => {
            catalog.make(&step).expect(rt, "memory");
            Jet::Success
        }
        Err(refusal) => refusal,
    }
}

/// The same on a table without a record, where nothing refuses the call.
fn make(rt: &impl Abort, catalog: &mut Catalog, call: SchemaCall) {
    assert!(rt; answer(rt, catalog, call, false) == Jet::Success);
}

/// A table T with a Long `id`, a Text `a`, an index on `a` and a primary one on `id`.
fn with_table(rt: &impl Abort, alloc: Global) -> Catalog {
    let mut catalog = Catalog::new(alloc);
    make(rt, &mut catalog, create_table(rt, alloc, "T"));
    make(
        rt,
        &mut catalog,
        add_column(rt, alloc, "id", ColType::Long, PLAIN),
    );
    make(
        rt,
        &mut catalog,
        add_column(rt, alloc, "a", ColType::Text, PLAIN),
    );
    make(
        rt,
        &mut catalog,
        create_index(rt, alloc, "by_a", IndexFlags::NONE, "a"),
    );
    make(
        rt,
        &mut catalog,
        create_index(rt, alloc, "pk", PRIMARY, "id"),
    );
    catalog
}

#[test]
fn a_table_is_found(rt: HostRuntime) {
    let catalog = with_table(&rt, rt.alloc());
    assert!(&rt; catalog.len() == 1 && catalog.greatest() == 1);
    assert!(&rt; catalog.tables().len() == 1);
    assert!(&rt; catalog.by_id(TableId(1)).is_some());
    assert!(&rt; catalog.lookup(b"t".as_slice()).is_none());
}

#[test]
fn a_table_is_read(rt: HostRuntime) {
    let catalog = with_table(&rt, rt.alloc());
    let found = catalog.lookup(b"T".as_slice()).expect(&rt, "the table");
    assert!(&rt; found.id() == TableId(1));
    assert!(&rt; found.name().as_bytes() == b"T".as_slice());
    assert!(&rt; found.columns().len() == 2 && found.greatest().variable == 128);
    assert!(&rt; found.primary().is_some());
}

#[test]
fn a_schema_has_the_primary_index_first(rt: HostRuntime) {
    let catalog = with_table(&rt, rt.alloc());
    let found = catalog.lookup(b"T".as_slice()).expect(&rt, "the table");
    let schema = found.schema();
    match schema.indexes.as_slice() {
        [first, _] => assert!(&rt; first.name.as_bytes() == b"pk".as_slice()),
        _ => assert!(&rt; false),
    }
}

#[test]
fn columns_are_not_deleted(rt: HostRuntime) {
    let mut catalog = with_table(&rt, rt.alloc());
    let call = delete_column(&rt, rt.alloc(), "z");
    assert!(&rt; answer(&rt, &mut catalog, call, true) == Jet::ColumnNotFound);
    let call = delete_column(&rt, rt.alloc(), "id");
    assert!(&rt; answer(&rt, &mut catalog, call, true) == Jet::ColumnInUse);
}

/// Columns of a table with records, and what each is answered.
const COLUMNS: [(ColType, ColumnFlags, Jet); 4] = [
    (ColType::Long, SEVERAL, Jet::MultiValuedColumnMustBeTagged),
    (ColType::Text, SUM, Jet::InvalidColumnType),
    (ColType::Long, SUM, Jet::TableNotEmpty),
    (ColType::LongText, SEVERAL, Jet::Success),
];

#[test]
fn kinds_of_columns_are_refused(rt: HostRuntime) {
    let mut catalog = with_table(&rt, rt.alloc());
    for (kind, flags, jet) in COLUMNS {
        let call = add_column(&rt, rt.alloc(), "z", kind, flags);
        assert!(&rt; answer(&rt, &mut catalog, call, true) == jet);
    }
}

/// Secondary indexes that are refused: the name and the column.
const INDEXES: [(&str, &str, Jet); 2] = [
    ("pk", "a", Jet::IndexDuplicate),
    ("i", "z", Jet::ColumnNotFound),
];

#[test]
fn secondary_indexes_are_refused(rt: HostRuntime) {
    let mut catalog = with_table(&rt, rt.alloc());
    for (index, column, jet) in INDEXES {
        let call = create_index(&rt, rt.alloc(), index, IndexFlags::NONE, column);
        assert!(&rt; answer(&rt, &mut catalog, call, false) == jet);
    }
}

#[test]
fn deleted_columns_keep_their_numbers(rt: HostRuntime) {
    let mut catalog = Catalog::new(rt.alloc());
    make(&rt, &mut catalog, create_table(&rt, rt.alloc(), "T"));
    for i in 0..127u8 {
        let column = format!(in rt.alloc(); "c{i}").expect(&rt, "memory");
        let call = add_column(&rt, rt.alloc(), &column, ColType::Bit, PLAIN);
        make(&rt, &mut catalog, call);
    }
    make(&rt, &mut catalog, delete_column(&rt, rt.alloc(), "c0"));
    let call = add_column(&rt, rt.alloc(), "z", ColType::Bit, PLAIN);
    assert!(&rt; answer(&rt, &mut catalog, call, true) == Jet::TooManyColumns);
}

#[test]
fn deleted_tables_keep_their_numbers(rt: HostRuntime) {
    let mut catalog = Catalog::new(rt.alloc());
    make(&rt, &mut catalog, create_table(&rt, rt.alloc(), "T"));
    make(&rt, &mut catalog, delete_table(&rt, rt.alloc(), "T"));
    make(&rt, &mut catalog, create_table(&rt, rt.alloc(), "T"));
    assert!(&rt; catalog.by_id(TableId(2)).is_some());
}

#[test]
fn deleted_indexes_leave_their_numbers(rt: HostRuntime) {
    let mut catalog = with_table(&rt, rt.alloc());
    make(&rt, &mut catalog, delete_index(&rt, rt.alloc(), "by_a"));
    let call = create_index(&rt, rt.alloc(), "again", IndexFlags::NONE, "a");
    make(&rt, &mut catalog, call);
    let again = name(&rt, rt.alloc(), "again");
    let found = catalog.lookup(b"T".as_slice()).expect(&rt, "the table");
    let index = found.index_named(&again).expect(&rt, "the index");
    assert!(&rt; index.id.0 == 1 && index.order == 3);
}

/// An index on `a` of the records without a value in `b`.
fn conditional_index(rt: &impl Abort, alloc: Global) -> SchemaCall {
    let mut conditions = Items::empty(alloc);
    let condition = NamedCondition {
        column: name(rt, alloc, "b"),
        must_be_null: true,
    };
    conditions.push(condition).expect(rt, "memory");
    SchemaCall::CreateIndex {
        table: name(rt, alloc, "T"),
        index: name(rt, alloc, "i"),
        flags: IndexFlags::NONE,
        key_most: 300,
        segments: segments(rt, alloc, "a"),
        conditions,
    }
}

#[test]
fn an_index_has_conditions(rt: HostRuntime) {
    let mut catalog = with_table(&rt, rt.alloc());
    let call = add_column(&rt, rt.alloc(), "b", ColType::Bit, PLAIN);
    make(&rt, &mut catalog, call);
    let call = conditional_index(&rt, rt.alloc());
    assert!(&rt; called_name(&call).as_bytes() == b"T".as_slice());
    assert!(&rt; answer(&rt, &mut catalog, call, true) == Jet::Success);
    let call = delete_column(&rt, rt.alloc(), "b");
    assert!(&rt; answer(&rt, &mut catalog, call, true) == Jet::ColumnInUse);
}
