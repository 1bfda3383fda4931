//! The tables under test: one table with one column, whose values may be long, and no index.

ghost use Rattle.std.specs.Prelude.{◌≡◌, length, not, IsTrue, IsSomeAnd, option_copied};
ghost use Rattle.std.specs.List.{list_all};
ghost use Rattle.column_set.specs.declared.changes.Change.TheVariants.{Drop, Put};
ghost use Rattle.column_set.specs.RecordValues.{is_kept_column};
ghost use Rattle.database_state.specs.Table.{table_with_id};
ghost use Rattle.index_derive.specs.declared.schema_calls.SchemaStep.TheVariants.{CreateTable};
ghost use Rattle.jet_base.specs.Ids.{table_id};
ghost use Rattle.jet_base.specs.declared.words.ColType.TheVariants.{LongBinary};
ghost use Rattle.stored_variants.specs.SchemaSteps.{after_step};
ghost use Rattle.tests_tables.specs.OneColumn.{IsPlain, TakesOneValue, body, name, no_table, one_value};

use crate::values::bytes_of;
use column_set::{Bookmark, Change, Column, Record};
use index_derive::SchemaStep;
use jet_base::{ColType, ColumnId, Name, Octets, Session, TableId};
use jet_catalog::TableDef;
use std::alloc::Global;
use std::process::Abort;
use table_versions::TableVersions;
use version_store::{By, Reader};

/// The table.
pub const TABLE: TableId = TableId(1);

/// Its column.
pub const COLUMN: ColumnId = ColumnId(256);

/// The column of the table.
fn column(rt: &impl Abort, alloc: Global) -> Column
    ensures { result ≡ body }
{
    Column {
        id: COLUMN,
        name: Name::from_slice(alloc, b"b").expect(rt, "memory"),
        kind: ColType::LongBinary,
        tagged: true,
        multi: false,
        not_null: false,
        escrow: false,
        version: false,
        auto: false,
    }
}

/// The tables with the table, which has no column yet.
fn with_table(rt: &impl Abort, alloc: Global) -> TableVersions
    ensures { result ≡ after_step (CreateTable (table_id 1) name) no_table }
{
    let mut tables = TableVersions::new(alloc);
    let step = SchemaStep::CreateTable {
        table: TABLE,
        name: Name::from_slice(alloc, b"T").expect(rt, "memory"),
    };
    tables.make(&step).expect(rt, "memory");
    tables
}

/// The tables with the table and its column.
pub fn new_tables(rt: &impl Abort, alloc: Global) -> TableVersions {
    let mut tables = with_table(rt, alloc);
    let step = SchemaStep::AddColumn {
        table: TABLE,
        column: column(rt, alloc),
    };
    tables.make(&step).expect(rt, "memory");
    tables
}

/// Whether no column is kept by the engine.
fn are_free(columns: &[Column]) -> bool
    ensures { result ≡ list_all (λ column. not (is_kept_column column)) columns.now }
{
    columns
        .iter()
        .all(|column| !(column.escrow || column.version || column.auto))
}

/// Whether a column is there whose values may be long.
fn is_long(column: Option<&Column>) -> bool
    ensures { IsTrue result → IsSomeAnd (option_copied column.entry) (λ c. c.kind ≡ LongBinary) }
{
    match column {
        Some(column) => match column.kind {
            ColType::LongBinary => true,
            _ => false,
        },
        None => false,
    }
}

/// Whether a table has the column, none that the engine keeps, and no index.
fn is_plain(table: &TableDef) -> bool
    ensures { IsTrue result → IsPlain table.now.columns table.now.indexes }
{
    table.indexes().is_empty() && are_free(table.columns()) && is_long(table.column_of(COLUMN))
}

/// Whether the table takes a record of one value.
fn takes_one_value(tables: &TableVersions) -> bool
    ensures { IsTrue result → IsSomeAnd (table_with_id tables.now.store.tables 1) TakesOneValue }
{
    match tables.by_id(TABLE) {
        Some(table) => is_plain(table),
        None => false,
    }
}

/// The bookmark of a key, of 8 bytes.
pub fn bookmark_of(rt: &impl Abort, alloc: Global, key: u8) -> Bookmark
    ensures { length result ≡ 8 }
{
    Bookmark::from_slice(alloc, &[0, 0, 0, 0, 0, 0, 0, key]).expect(rt, "memory")
}

/// The bookmark of the record that is copied, if one is.
fn copied_of(rt: &impl Abort, alloc: Global, copied: Option<u8>) -> Option<Bookmark> {
    match copied {
        Some(key) => Some(bookmark_of(rt, alloc, key)),
        None => None,
    }
}

/// A put of a record of one value.
fn put_of(
    rt: &impl Abort,
    alloc: Global,
    bookmark: Bookmark,
    copied: Option<Bookmark>,
    value: Octets,
) -> Change
    ensures { result ≡ Put (table_id 1) bookmark copied (one_value value) }
{
    let mut values = Record::new(alloc);
    values.set_only_value(COLUMN, value).expect(rt, "memory");
    Change::Put {
        table: TABLE,
        bookmark,
        copied,
        values,
    }
}

/// Puts a record of one value.
pub fn put_record(
    rt: &impl Abort,
    alloc: Global,
    tables: &mut TableVersions,
    by: By,
    key: u8,
    copied: Option<u8>,
    fill: u8,
) {
    let value = Octets::new(bytes_of(rt, alloc, fill)).expect(rt, "memory");
    let bookmark = bookmark_of(rt, alloc, key);
    let copied = copied_of(rt, alloc, copied);
    assert!(rt; value.as_bytes().len() <= 1_048_576);
    assert!(rt; tables.newest_put() < by.number);
    assert!(rt; takes_one_value(tables));
    let change = put_of(rt, alloc, bookmark, copied, value);
    assert!(rt; tables.put(by, &change).is_ok());
}

/// A drop of a record.
fn drop_of(bookmark: Bookmark) -> Change
    ensures { result ≡ Drop (table_id 1) bookmark }
{
    Change::Drop {
        table: TABLE,
        bookmark,
    }
}

/// Drops a record that is there.
pub fn drop_record(rt: &impl Abort, alloc: Global, tables: &mut TableVersions, by: By, key: u8) {
    let bookmark = bookmark_of(rt, alloc, key);
    assert!(rt; tables.newest(TABLE, bookmark.as_bytes()).is_some());
    let change = drop_of(bookmark);
    assert!(rt; tables.drop_record(by, &change).is_ok());
}

/// Whether another session's change keeps a session from a record.
pub fn meets_conflict(
    rt: &impl Abort,
    alloc: Global,
    tables: &TableVersions,
    session: u32,
    begin: u64,
    key: u8,
) -> bool {
    let reader = Reader {
        session: Session(session),
        begin: Some(begin),
    };
    tables.conflict(reader, &drop_of(bookmark_of(rt, alloc, key)))
}

/// Forgets the oldest change, where one may be forgotten, and says whether it did.
pub fn forget_oldest(tables: &mut TableVersions, oldest: Option<u64>) -> bool {
    if tables.next_to_forget(oldest).is_none() {
        return false;
    }
    if tables.held() == 0 {
        return false;
    }
    tables.forget();
    true
}
