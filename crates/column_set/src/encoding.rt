//! Writing rows.

ghost use Rattle.std.specs.Prelude.{◌≡◌, ◌<◌, ◌≤◌, ◌↔◌, ◌++◌, ◌∷◌, length, IfOk, IsErrOf, IsTrue, MatchOption, OnOk};
ghost use Rattle.std.specs.Int.{w16, w32, w64, to_le_bytes};
ghost use Rattle.column_set.specs.Rows.{is_row, largest_row, room_in_row, row_bytes, row_size, value_bytes, value_fits_row};
ghost use Rattle.column_set.specs.RowReading.{are_in_order, size_of_values};

use crate::row_fault::RowFault;
use crate::row_format::{APART, APART_BYTES, HERE, MAX_ROW_SIZE, VALUE_HEAD_BYTES};
use crate::rows::{Row, RowValue};
use std::alloc::{AllocError, Global};

/// The bytes of a value that stand in its row.
fn room(value: &RowValue) -> usize
    requires { IsTrue (value_fits_row value.now) }
    ensures value { result ≡ room_in_row value.now }
    ensures small { result ≤ 255 }
{
    match value {
        RowValue::Here(bytes) => bytes.as_bytes().len(),
        RowValue::Apart { .. } => APART_BYTES as usize,
    }
}

/// The size of the row that has the values, where it is at most 1,700.
fn size_within(values: &[(u16, RowValue)]) -> Option<usize>
    requires { IsTrue (are_in_order 0 values.now) }
    ensures { MatchOption result (largest_row < size_of_values values.now) (λ size. (size ≡ size_of_values values.now) × (size ≤ largest_row)) }
{
    let mut size = 2;
    for (_, value) in values {
        size += VALUE_HEAD_BYTES + room(value);
        if size > MAX_ROW_SIZE {
            return None;
        }
    }
    Some(size)
}

/// Writes where a value is kept apart.
fn put_place(bytes: &mut Vec<u8>, entry: u64, place: u32, length: u32) -> Result<(), AllocError>
    ensures { OnOk result (bytes.new.items ≡ bytes.old.items ++ (to_le_bytes w64 entry ++ to_le_bytes w32 place ++ to_le_bytes w32 length)) }
{
    bytes.extend_from_slice(&entry.to_le_bytes())?;
    bytes.extend_from_slice(&place.to_le_bytes())?;
    bytes.extend_from_slice(&length.to_le_bytes())
}

/// Writes a value's column, its form and the count of the bytes that follow.
fn put_head(bytes: &mut Vec<u8>, column: u16, form: u8, count: u16) -> Result<(), AllocError>
    ensures { OnOk result (bytes.new.items ≡ bytes.old.items ++ (to_le_bytes w16 column ++ (form ∷ to_le_bytes w16 count))) }
{
    let [column_low, column_high] = column.to_le_bytes();
    let [low, high] = count.to_le_bytes();
    bytes.extend_from_slice(&[column_low, column_high, form, low, high])
}

/// Writes a value that stands in its row, with its column.
pub fn put_here(bytes: &mut Vec<u8>, column: u16, here: &[u8]) -> Result<(), AllocError>
    requires { length here.now ≤ 255 }
    ensures { OnOk result (bytes.new.items ≡ bytes.old.items ++ value_bytes (column, RowValue.Here here.now)) }
{
    put_head(bytes, column, HERE, here.len() as u16)?;
    bytes.extend_from_slice(here)
}

/// Writes a value that is kept apart, with its column: the number of its entry, its place there and its length.
pub fn put_apart(
    bytes: &mut Vec<u8>,
    column: u16,
    entry: u64,
    place: u32,
    length: u32,
) -> Result<(), AllocError>
    ensures { OnOk result (bytes.new.items ≡ bytes.old.items ++ value_bytes (column, RowValue.Apart entry place length)) }
{
    put_head(bytes, column, APART, APART_BYTES)?;
    put_place(bytes, entry, place, length)
}

/// Writes a value with its column.
fn put_value(bytes: &mut Vec<u8>, column: u16, value: &RowValue) -> Result<(), AllocError>
    requires { IsTrue (value_fits_row value.now) }
    ensures { OnOk result (bytes.new.items ≡ bytes.old.items ++ value_bytes (column, value.now)) }
{
    match value {
        RowValue::Here(here) => put_here(bytes, column, here.as_bytes()),
        RowValue::Apart {
            entry,
            place,
            length,
        } => put_apart(bytes, column, *entry, *place, *length),
    }
}

/// The bytes of a row, each number lowest byte first: a count of the values in two bytes and, for each value, its
/// column in two, its form in one, the count of what follows in two, and these bytes.
///
/// A value here, form 0, has its own bytes, at most 255. One kept apart, form 1, has 16: the number of its entry in
/// eight, its place there in four and its length in four. The call answers `RecordTooBig` above 1,700 bytes.
pub fn encode(alloc: Global, row: &Row) -> Result<Vec<u8>, RowFault>
    ensures ok { IfOk result (λ bytes. IsTrue (is_row row.now) × (bytes.items ≡ row_bytes row.now)) }
    ensures small { IfOk result (λ bytes. length bytes.items ≤ largest_row) }
    ensures too_big { IsErrOf result RowFault.RecordTooBig ↔ (largest_row < row_size row.now) }
    ensures never_bad { IsErrOf result RowFault.BadRecord → ⊥ }
{
    let values = row.values();
    let Some(size) = size_within(values) else {
        return Err(RowFault::RecordTooBig);
    };
    let mut bytes = Vec::with_capacity(alloc, size)?;
    bytes.extend_from_slice(&(values.len() as u16).to_le_bytes())?;
    for (column, value) in values {
        put_value(&mut bytes, *column, value)?;
    }
    Ok(bytes)
}
