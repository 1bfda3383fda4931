//! Rows without the values of a column.

ghost use Rattle.std.specs.Prelude.{◌≡◌, ◌+◌, ◌<◌, ◌≤◌, ◌^◌, ◌++◌, ℕ, List, [], length, None, IfSome, IsSomeAnd, IsTrue};
ghost use Rattle.std.specs.List.{flat_map};
ghost use Rattle.column_set.specs.declared.rows.RowValue.{RowValue};
ghost use Rattle.column_set.specs.RecordValues.{RecordFields, remove_by_number, with_values};
ghost use Rattle.column_set.specs.Rows.{IsRowBytes, RowFields, all_here, here_fields, is_row, largest_row, row_bytes, value_bytes};
ghost use Rattle.column_set.specs.OtherValues.{MayStand, StandIn, other_values};

use crate::row_format::{COUNT_BYTES, MAX_ROW_SIZE, VALUE_HEAD_BYTES};
use arrayvec::ArrayVec;
use jet_base::ColumnId;

/// Writes a row without the values of a column, in the place of what the buffer held. The other values are copied as
/// they stand. It takes no memory.
pub fn write_without_column(row: &[u8], column: ColumnId, buffer: &mut ArrayVec<u8, MAX_ROW_SIZE>)
    requires formed { IsRowBytes row.now }
    requires small { length row.now ≤ largest_row }
    ensures { (fields : RowFields) → IsTrue (is_row fields) → row.now ≡ row_bytes fields → buffer.new.items ≡ row_bytes (remove_by_number column.0 fields) }
{
    let values = &row[COUNT_BYTES..];
    let count = count_of_others(values, column.0) as u16;
    buffer.clear();
    append(buffer, &count.to_le_bytes());
    copy_others(values, column.0, buffer);
}

// How many of the values are not the column's.
fn count_of_others(values: &[u8], column: u16) -> usize
    requires { length values.now ≤ largest_row }
    ensures small { result ≤ largest_row }
    ensures count { (all : List (ℕ × RowValue)) → StandIn values.now all → result ≡ length (other_values column all) }
{
    let mut rest = values;
    let mut count = 0;
    while let Some((number, _, after)) = first_value(rest) {
        if number != column {
            count += 1;
        }
        rest = after;
    }
    count
}

// Writes the values that are not the column's behind what the buffer holds.
fn copy_others(values: &[u8], column: u16, buffer: &mut ArrayVec<u8, MAX_ROW_SIZE>)
    requires { length buffer.old.items + length values.now ≤ largest_row }
    ensures { (all : List (ℕ × RowValue)) → StandIn values.now all → buffer.new.items ≡ buffer.old.items ++ flat_map value_bytes (other_values column all) }
{
    let mut rest = values;
    while let Some((number, value, after)) = first_value(rest) {
        if number != column {
            append(buffer, value);
        }
        rest = after;
    }
}

// The column of the first value, the bytes of the value, and those behind it.
pub(crate) fn first_value(bytes: &[u8]) -> Option<(u16, &[u8], &[u8])>
    ensures split { IfSome result (λ found. (found.1.now ++ found.2.now ≡ bytes.now) × (0 < length found.1.now)) }
    ensures end { bytes.now ≡ [] → result ≡ None }
    ensures value { (value : ℕ × RowValue) (rest : List ℕ) → MayStand value → bytes.now ≡ value_bytes value ++ rest → IsSomeAnd result (λ found. (found.0 ≡ value.0) × (found.1.now ≡ value_bytes value) × (found.2.now ≡ rest)) }
{
    if bytes.len() < VALUE_HEAD_BYTES {
        return None;
    }
    let column = u16::from_le_bytes([bytes[0], bytes[1]]);
    let size = VALUE_HEAD_BYTES + u16::from_le_bytes([bytes[3], bytes[4]]) as usize;
    if bytes.len() < size {
        return None;
    }
    let (value, rest) = bytes.split_at(size);
    Some((column, value, rest))
}

/// Writes bytes behind what the buffer of a row holds. It takes no memory.
pub fn append(buffer: &mut ArrayVec<u8, MAX_ROW_SIZE>, bytes: &[u8])
    requires { length buffer.old.items + length bytes.now ≤ largest_row }
    ensures { buffer.new.items ≡ buffer.old.items ++ bytes.now }
{
    match buffer.try_extend_from_slice(bytes) {
        Ok(()) => {}
        Err(_) => unreachable!(),
    }
}

/// A row without the values of a column is a row, no longer than before, and stands for the record without them.
pub fn rows_without_a_column()
    ensures formed { (fields : RowFields) (column : ℕ) → IsTrue (is_row fields) → IsTrue (is_row (remove_by_number column fields)) }
    ensures shorter { (fields : RowFields) (column : ℕ) → length (row_bytes (remove_by_number column fields)) ≤ length (row_bytes fields) }
    ensures shown { (fields : RowFields) (column : ℕ) → here_fields (remove_by_number column fields) ≡ with_values (here_fields fields) column [] }
    ensures whole { (fields : RecordFields) (column : ℕ) → remove_by_number column (all_here fields) ≡ all_here (with_values fields column []) }
{}
