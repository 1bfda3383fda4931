//! Whether an entry has a spelling.

ghost use Rattle.std.specs.Prelude.{◌≡◌, ◌+◌, ◌-◌, ◌^◌, length, min, nat_lt, sum_by, IsTrue};
ghost use Rattle.std.specs.List.{list_all};
ghost use Rattle.log_grammar.specs.EntryBytes.{amount_fits, bookmark_fits, change_bytes, change_fits, column_fits, condition_fits, copied_bytes, copied_fits, has_spelling, index_fits, kind_bytes, kind_fits, name_fits, record_bytes, record_fits, schema_fits, segment_fits};
ghost use Rattle.log_record.specs.EntrySizes.{field_fits, size_of_fields, size_of_values};

use crate::decoding_schema::KEY_MOST;
use column_set::{Bookmark, Change, Column, Field, Record};
use index_derive::{Condition, Entry, EntryKind, IndexRule, SchemaStep, Segment};
use jet_base::{LONGEST_NAME, Name, Octets};

/// The most bytes of a value: its length has four bytes.
const VALUE_MOST: usize = 0xFFFF_FFFF;

/// The most values of a record: their count has two bytes.
const COUNT_MOST: usize = 0xFFFF;

/// The most bytes that the fields of an entry have: their length has four bytes, and counts the tag and the session too.
const FIELDS_MOST: usize = 0xFFFF_FFFF - 5;

/// What a value has beside its bytes: its column and its length.
const VALUE_HEAD_BYTES: usize = 6;

/// Whether a bookmark has 1 to 255 bytes.
fn bookmark_fits(bookmark: &Bookmark) -> bool
    ensures { result ≡ bookmark_fits bookmark.now }
{
    let count = bookmark.as_bytes().len();
    count >= 1 && count <= 255
}

/// Whether the bookmark of a copied record, where there is one, has 1 to 255 bytes.
fn copied_fits(copied: &Option<Bookmark>) -> bool
    ensures { result ≡ copied_fits copied.now }
{
    match copied {
        None => true,
        Some(bookmark) => bookmark_fits(bookmark),
    }
}

/// Whether a name has 1 to 64 bytes.
pub fn name_fits(name: &Name) -> bool
    ensures { result ≡ name_fits name.now }
{
    let count = name.as_bytes().len();
    count >= 1 && count <= LONGEST_NAME
}

/// Whether the values of a column can be written.
fn values_fit(column: u16, values: &[Octets]) -> bool
    ensures { result ≡ field_fits (column, values.now) }
{
    for value in values {
        if value.as_bytes().len() > VALUE_MOST {
            return false;
        }
    }
    true
}

/// Whether the values of all fields can be written.
fn fields_fit(fields: &[Field]) -> bool
    ensures { result ≡ list_all field_fits fields.now }
{
    for field in fields {
        if !values_fit(field.column(), field.values()) {
            return false;
        }
    }
    true
}

/// How many values the fields have. Past the largest number it is that number.
fn count_of_all(fields: &[Field]) -> usize
    ensures { result ≡ min (sum_by (λ field. length field.1) fields.now) (2 ^ 64 - 1) }
{
    let mut count: usize = 0;
    for field in fields {
        count = count.saturating_add(field.values().len());
    }
    count
}

/// Whether a record can be written.
fn record_fits(values: &Record) -> bool
    ensures { result ≡ record_fits values.now }
{
    let fields = values.fields();
    count_of_all(fields) <= COUNT_MOST && fields_fit(fields)
}

/// An amount is a whole number of 32 bits.
fn amount_fits(amount: i32)
    ensures { IsTrue (amount_fits amount) }
{}

/// Whether a change of a record can be written.
fn change_fits(change: &Change) -> bool
    ensures { result ≡ change_fits change.now }
{
    match change {
        Change::Put {
            table,
            bookmark,
            copied,
            values,
        } => {
            let _table = table.0;
            bookmark_fits(bookmark) && copied_fits(copied) && record_fits(values)
        }
        Change::Drop { table, bookmark } | Change::Hold { table, bookmark } => {
            let _table = table.0;
            bookmark_fits(bookmark)
        }
        Change::Add {
            table,
            bookmark,
            column,
            amount,
        } => {
            let _table = table.0;
            let _column = column.0;
            amount_fits(*amount);
            bookmark_fits(bookmark)
        }
    }
}

/// Whether a column can be written.
pub fn column_fits(column: &Column) -> bool
    ensures { result ≡ column_fits column.now }
{
    let _number = column.id.0;
    name_fits(&column.name) && !column.version && !column.auto
}

/// The column of a segment has a number of two bytes.
fn segment_fits(segment: &Segment)
    ensures { IsTrue (segment_fits segment.now) }
{
    let _column = segment.column.0;
}

/// The columns of segments have numbers of two bytes.
fn segments_fit(segments: &[Segment])
    ensures { IsTrue (list_all segment_fits segments.now) }
{
    for segment in segments {
        segment_fits(segment);
    }
}

/// The column of a condition has a number of two bytes.
fn condition_fits(condition: &Condition)
    ensures { IsTrue (condition_fits condition.now) }
{
    let _column = condition.column.0;
}

/// The columns of conditions have numbers of two bytes.
fn conditions_fit(conditions: &[Condition])
    ensures { IsTrue (list_all condition_fits conditions.now) }
{
    for condition in conditions {
        condition_fits(condition);
    }
}

/// Whether an index can be written.
pub fn index_fits(index: &IndexRule) -> bool
    ensures { result ≡ index_fits index.now }
{
    let _number = index.id.0;
    let _order = index.order;
    let segments = index.segments.as_slice();
    let conditions = index.conditions.as_slice();
    segments_fit(segments);
    conditions_fit(conditions);
    segments.len() < 256
        && conditions.len() < 256
        && name_fits(&index.name)
        && index.key_most == KEY_MOST
}

/// Whether a schema change can be written.
fn schema_fits(step: &SchemaStep) -> bool
    ensures { result ≡ schema_fits step.now }
{
    match step {
        SchemaStep::CreateTable { table, name } => {
            let _table = table.0;
            name_fits(name)
        }
        SchemaStep::DeleteTable { table } => {
            let _table = table.0;
            true
        }
        SchemaStep::AddColumn { table, column } => {
            let _table = table.0;
            column_fits(column)
        }
        SchemaStep::DeleteColumn { table, column } => {
            let _table = table.0;
            let _column = column.0;
            true
        }
        SchemaStep::CreateIndex { table, index } => {
            let _table = table.0;
            index_fits(index)
        }
        SchemaStep::DeleteIndex { table, index } => {
            let _table = table.0;
            let _index = index.0;
            true
        }
    }
}

/// Whether each field of an entry can be written.
fn kind_fits(kind: &EntryKind) -> bool
    ensures { result ≡ kind_fits kind.now }
{
    match kind {
        EntryKind::Open(table) | EntryKind::Shut(table) => {
            let _table = table.0;
            true
        }
        EntryKind::Change(change) => change_fits(change),
        EntryKind::Schema(step) => schema_fits(step),
        _ => true,
    }
}

/// How many bytes the values of a column have. Past the largest number it is that number.
fn size_of_values(values: &[Octets]) -> usize
    ensures { result ≡ min (size_of_values values.now) (2 ^ 64 - 1) }
{
    let mut size: usize = 0;
    for value in values {
        size = size.saturating_add(VALUE_HEAD_BYTES + value.as_bytes().len());
    }
    size
}

/// How many bytes the values of the fields have. Past the largest number it is that number.
pub fn size_of_fields(fields: &[Field]) -> usize
    ensures { result ≡ min (size_of_fields fields.now) (2 ^ 64 - 1) }
{
    let mut size: usize = 0;
    for field in fields {
        size = size.saturating_add(size_of_values(field.values()));
    }
    size
}

/// How many bytes stand for the bookmark of a copied record.
pub fn size_of_copied(copied: &Option<Bookmark>) -> usize
    requires { IsTrue (copied_fits copied.now) }
    ensures { result ≡ length (copied_bytes copied.now) }
{
    match copied {
        None => 1,
        Some(bookmark) => 3 + bookmark.as_bytes().len(),
    }
}

/// How many bytes a record has. Past the largest number it is that number.
fn size_of_record(values: &Record) -> usize
    ensures { result ≡ min (length (record_bytes values.now)) (2 ^ 64 - 1) }
{
    size_of_fields(values.fields()).saturating_add(2)
}

/// Whether the length of the change can be written.
fn change_is_short(change: &Change) -> bool
    requires { IsTrue (change_fits change.now) }
    ensures { result ≡ nat_lt (length (change_bytes change.now)) (2 ^ 32 - 5) }
{
    match change {
        Change::Put {
            bookmark,
            copied,
            values,
            ..
        } => {
            let head = 6 + bookmark.as_bytes().len() + size_of_copied(copied);
            size_of_record(values) <= FIELDS_MOST - head
        }
        _ => true,
    }
}

/// Whether the length of the entry can be written.
fn kind_is_short(kind: &EntryKind) -> bool
    requires { IsTrue (kind_fits kind.now) }
    ensures { result ≡ nat_lt (length (kind_bytes kind.now)) (2 ^ 32 - 5) }
{
    match kind {
        EntryKind::Change(change) => change_is_short(change),
        _ => true,
    }
}

/// Whether an entry has a spelling, and can be written: its session is 1 to 99, and each of its fields has the bytes
/// for it. An entry that was read has one.
#[tactic(auto, unfolding(log_grammar::specs::EntryBytes::has_spelling))]
pub fn has_spelling(entry: &Entry) -> bool
    ensures { result ≡ has_spelling entry.now }
{
    let session = entry.session.0;
    session >= 1 && session <= 99 && kind_fits(&entry.kind) && kind_is_short(&entry.kind)
}
