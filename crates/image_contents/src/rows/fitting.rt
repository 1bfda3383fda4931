//! Whether bytes are a row, and whether a row fits the columns of its table.

ghost use Rattle.std.specs.Prelude.{◌≡◌, ◌<◌, ◌≤◌, ◌++◌, ◌&&◌, ◌||◌, ℕ, List, [], length, None, not, nat_le, nat_lt, option_copied, IfSome, IsSomeAnd};
ghost use Rattle.std.specs.List.{list_all};
ghost use Rattle.column_set.specs.declared.rows.RowValue.{RowValue};
ghost use Rattle.column_set.specs.OtherValues.{MayStand, StandIn};
ghost use Rattle.column_set.specs.RecordValues.{is_kept_column, value_fits};
ghost use Rattle.column_set.specs.RowReading.{row_in};
ghost use Rattle.column_set.specs.Rows.{IsRowBytes, row_values_of, value_bytes};
ghost use Rattle.image_findings.specs.TableContents.{is_short_row, row_fits};
ghost use Rattle.image_contents.specs.FoundValues.{here_of, is_another, is_of_type, told_by, value_stands, values_stand};

use column_set::row_format::{COUNT_BYTES, HERE, MAX_ROW_SIZE, VALUE_HEAD_BYTES};
use column_set::{Column, RowRef, Values, column_of_id, is_row, rows_are_read_back};
use jet_base::{ColType, ColumnId};

/// Where the form of a value stands among its bytes.
const FORM_AT: usize = 2;

/// A value of a row, as it lies there: its column, and its bytes unless it is kept apart.
#[derive(Clone, Copy)]
pub(crate) struct FoundValue<'a> {
    pub column: u16,
    pub here: Option<&'a [u8]>,
}

/// Whether the bytes are those of a row of 1,700 bytes at most.
pub(crate) fn is_short_row(bytes: &[u8]) -> bool
    ensures { result ≡ is_short_row bytes.now }
{
    rows_are_read_back();
    is_row(bytes) && bytes.len() <= MAX_ROW_SIZE
}

/// Whether the values of a row fit the columns: each stands under a column that takes it, and each column that the engine keeps has
/// one.
pub(crate) fn row_fits(columns: &[Column], row: &[u8]) -> bool
    requires { IsRowBytes row.now }
    ensures { result ≡ row_fits columns.now (row_in row.now) }
{
    rows_are_read_back();
    values_stand(columns, None, &row[COUNT_BYTES..]) && has_kept_values(columns, &RowRef::new(row))
}

/// Whether each of some values of a row stands under a column that takes it, behind a value of this column.
fn values_stand(columns: &[Column], last: Option<u16>, values: &[u8]) -> bool
    ensures { (xs : List (ℕ × RowValue)) → StandIn values.now xs → result ≡ values_stand columns.now last xs }
{
    match first_value(values) {
        Some((value, rest)) => {
            if value_stands(columns, last, value) {
                values_stand(columns, Some(value.column), rest)
            } else {
                false
            }
        }
        None => true,
    }
}

/// The first of some values of a row, and the bytes behind it.
fn first_value(bytes: &[u8]) -> Option<(FoundValue<'_>, &[u8])>
    ensures shorter { IfSome result (λ found. length found.1.now < length bytes.now) }
    ensures end { bytes.now ≡ [] → result ≡ None }
    ensures value { (value : ℕ × RowValue) (rest : List ℕ) → MayStand value → bytes.now ≡ value_bytes value ++ rest → IsSomeAnd result (λ found. (found.0.column ≡ value.0) × (option_copied found.0.here ≡ here_of value.1) × (found.1.now ≡ rest)) }
{
    if bytes.len() < VALUE_HEAD_BYTES {
        return None;
    }
    let size = VALUE_HEAD_BYTES + u16::from_le_bytes([bytes[3], bytes[4]]) as usize;
    if bytes.len() < size {
        return None;
    }
    let (value, rest) = bytes.split_at(size);
    let found = FoundValue {
        column: column_of(value),
        here: bytes_here(value),
    };
    Some((found, rest))
}

/// The column of a value.
fn column_of(value: &[u8]) -> u16
    requires { VALUE_HEAD_BYTES ≤ length value.now }
    ensures { (x : ℕ × RowValue) → MayStand x → value.now ≡ value_bytes x → result ≡ x.0 }
{
    u16::from_le_bytes([value[0], value[1]])
}

/// The bytes of a value, unless it is kept apart.
fn bytes_here(value: &[u8]) -> Option<&[u8]>
    requires { VALUE_HEAD_BYTES ≤ length value.now }
    ensures { (x : ℕ × RowValue) → MayStand x → value.now ≡ value_bytes x → option_copied result ≡ here_of x.1 }
{
    if value[FORM_AT] == HERE {
        Some(&value[VALUE_HEAD_BYTES..])
    } else {
        None
    }
}

/// Whether a value stands under a column that takes it, besides one before it under this column.
fn value_stands(columns: &[Column], last: Option<u16>, value: FoundValue<'_>) -> bool
    ensures { result ≡ value_stands columns.now last (told_by value.entry) }
{
    match column_of_id(columns, ColumnId(value.column)) {
        Some(column) => {
            (column.multi || is_another(last, value.column)) && is_of_type(column.kind, value.here)
        }
        None => false,
    }
}

/// Whether a column is another than the last one.
fn is_another(last: Option<u16>, column: u16) -> bool
    ensures { result ≡ is_another last column }
{
    match last {
        Some(last) => last != column,
        None => true,
    }
}

/// Whether a value is one of the type. One that is kept apart is one of a long type.
fn is_of_type(kind: ColType, here: Option<&[u8]>) -> bool
    ensures { result ≡ is_of_type kind (option_copied here.entry) }
{
    match here {
        Some(bytes) => value_fits(kind, bytes),
        None => kind.is_long(),
    }
}

/// Whether bytes are a value of the type.
fn value_fits(kind: ColType, value: &[u8]) -> bool
    ensures { result ≡ value_fits kind value.now }
{
    match kind {
        ColType::Bit => matches!(value, [0 | 1]),
        ColType::UnsignedByte => value.len() == 1,
        ColType::Short | ColType::UnsignedShort => value.len() == 2,
        ColType::Long | ColType::UnsignedLong => value.len() == 4,
        ColType::LongLong | ColType::Currency => value.len() == 8,
        ColType::Guid => value.len() == 16,
        ColType::Binary | ColType::Text => value.len() <= 255,
        ColType::LongBinary | ColType::LongText => value.len() <= 1_048_576,
    }
}

/// Whether each column that the engine keeps has a value.
fn has_kept_values(columns: &[Column], row: &RowRef<'_>) -> bool
    ensures { result ≡ list_all (λ column. not (is_kept_column column) || nat_lt 0 (length (row_values_of row.now column.id.0))) columns.now }
{
    columns
        .iter()
        .all(|column| !is_kept(column) || has_value(row, column.id))
}

/// Whether the column's one value is kept by the engine.
fn is_kept(column: &Column) -> bool
    ensures { result ≡ is_kept_column column.now }
{
    column.escrow || column.version || column.auto
}

/// Whether the column has a value.
fn has_value(row: &RowRef<'_>, column: ColumnId) -> bool
    ensures { result ≡ nat_lt 0 (length (row_values_of row.now column.0)) }
{
    row.count(column) > 0
}
