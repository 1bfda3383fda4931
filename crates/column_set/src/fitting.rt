//! Which records a table takes.

ghost use Rattle.std.specs.Prelude.{◌≡◌, ◌||◌, nat_le, not};
ghost use Rattle.std.specs.List.{list_all};
ghost use Rattle.column_set.specs.RecordValues.{has_value, is_kept_column, record_fits, stands_in, value_fits, values_fit};

use crate::columns::{Column, column_of_id};
use crate::fields::Field;
use crate::records::Record;
use jet_base::{ColType, ColumnId, Octets};

// Whether a stored value is one of the type.
fn value_fits(kind: ColType, value: &[u8]) -> bool
    ensures { result ≡ value_fits kind value.now }
{
    match kind {
        ColType::Bit => matches!(value, [0 | 1]),
        ColType::UnsignedByte => value.len() == 1,
        ColType::Short | ColType::UnsignedShort => value.len() == 2,
        ColType::Long | ColType::UnsignedLong => value.len() == 4,
        ColType::LongLong | ColType::Currency => value.len() == 8,
        ColType::Guid => value.len() == 16,
        ColType::Binary | ColType::Text => value.len() <= 255,
        ColType::LongBinary | ColType::LongText => value.len() <= 1_048_576,
    }
}

// Whether the column takes so many values.
fn takes_count(column: &Column, count: usize) -> bool
    ensures { result ≡ (column.now.multi || nat_le count 1) }
{
    column.multi || count <= 1
}

// Whether each of the stored values is one of the type.
fn are_of_type(kind: ColType, values: &[Octets]) -> bool
    ensures { result ≡ list_all (value_fits kind) values.now }
{
    values
        .iter()
        .all(|value| value_fits(kind, value.as_bytes()))
}

// Whether the column takes the values.
fn values_fit(column: &Column, values: &[Octets]) -> bool
    ensures { result ≡ values_fit column.now values.now }
{
    takes_count(column, values.len()) && are_of_type(column.kind, values)
}

// Whether the values stand under one of the columns, which takes them.
fn stands_in(columns: &[Column], field: &Field) -> bool
    ensures { result ≡ stands_in columns.now field.now }
{
    match column_of_id(columns, ColumnId(field.column())) {
        Some(column) => values_fit(column, field.values()),
        None => false,
    }
}

// Whether all values stand under columns that take them.
fn all_stand_in(columns: &[Column], values: &Record) -> bool
    ensures { result ≡ list_all (stands_in columns.now) values.now }
{
    values
        .fields()
        .iter()
        .all(|field| stands_in(columns, field))
}

// Whether the column's one value is kept by the engine.
fn is_kept(column: &Column) -> bool
    ensures { result ≡ is_kept_column column.now }
{
    column.escrow || column.version || column.auto
}

// Whether the column is not NULL.
fn has_value(values: &Record, column: ColumnId) -> bool
    ensures { result ≡ has_value values.now column.0 }
{
    values.values(column).len() > 0
}

// Whether each column that the engine keeps has its value.
fn has_kept_values(columns: &[Column], values: &Record) -> bool
    ensures { result ≡ list_all (λ column. not (is_kept_column column) || has_value values.now column.id.0) columns.now }
{
    columns
        .iter()
        .all(|column| !is_kept(column) || has_value(values, column.id))
}

/// Whether a table of these columns may hold the record: each value stands under a column that takes it, and each column that the
/// engine keeps has one. A column that must not be NULL may be: that is asked where a record is stored.
pub fn record_fits(columns: &[Column], values: &Record) -> bool
    ensures { result ≡ record_fits columns.now values.now }
{
    all_stand_in(columns, values) && has_kept_values(columns, values)
}
