//! Rows as the bytes of their nodes, and their sizes.

ghost use Rattle.std.specs.Prelude.{◌≡◌, ◌<◌, ◌≤◌, ◌++◌, ℕ, length, map, slice_index_or, option_copied, OnOk, Some, None, true};
ghost use Rattle.std.specs.List.{list_all};
ghost use Rattle.temp_table.specs.TempRows.{row_size, value_room};
ghost use Rattle.temp_table.specs.Held.{are_bytes, value_is_bytes};
ghost use Rattle.temp_table.specs.RowBytes.{is_short, next_value, row_bytes, value_bytes, values_in};

use crate::columns::MAX_COLUMNS;
use column_set::row_format::{COUNT_BYTES, VALUE_HEAD_BYTES};
use column_set::size_of_length;
use std::alloc::AllocError;

/// The form of a column that is NULL.
const NULL: u8 = 0;
/// The form of any other value.
const VALUE: u8 = 1;

/// The size of a row, in bytes.
pub fn row_size(values: &[Option<&[u8]>]) -> usize
    requires { length values.now ≤ MAX_COLUMNS }
    ensures value { result ≡ row_size (map option_copied values.now) }
    ensures bytes { are_bytes (map option_copied values.now) ≡ true }
{
    let mut size = COUNT_BYTES;
    for value in values {
        size += value_room(*value);
    }
    size
}

/// The room of a value or NULL in its row, in bytes.
fn value_room(value: Option<&[u8]>) -> usize
    ensures value { result ≡ value_room (option_copied value.entry) }
    ensures small { result ≤ 260 }
    ensures bytes { value_is_bytes (option_copied value.entry) ≡ true }
{
    match value {
        Some(bytes) => room_of_bytes(bytes),
        None => 0,
    }
}

/// The same of a value that is not NULL. By its type each of its numbers is below 256.
fn room_of_bytes(bytes: &[u8]) -> usize
    ensures value { result ≡ value_room (Some bytes.now) }
    ensures small { result ≤ 260 }
    ensures bytes { value_is_bytes (Some bytes.now) ≡ true }
{
    VALUE_HEAD_BYTES + size_of_length(bytes.len())
}

/// Writes a row in the place of what stands there.
pub fn write_row(bytes: &mut Vec<u8>, values: &[Option<&[u8]>]) -> Result<(), AllocError>
    requires { list_all is_short (map option_copied values.now) ≡ true }
    ensures { OnOk result (bytes.new.items ≡ row_bytes (map option_copied values.now)) }
{
    bytes.clear();
    for value in values {
        write_value(bytes, *value)?;
    }
    Ok(())
}

/// Writes a value behind the bytes that stand there.
fn write_value(bytes: &mut Vec<u8>, value: Option<&[u8]>) -> Result<(), AllocError>
    requires { is_short (option_copied value) ≡ true }
    ensures { OnOk result (bytes.new.items ≡ bytes.old.items ++ value_bytes (option_copied value.entry)) }
{
    match value {
        Some(here) => {
            bytes.extend_from_slice(&[VALUE, here.len() as u8])?;
            bytes.extend_from_slice(here)
        }
        None => {
            bytes.push(NULL)?;
            Ok(())
        }
    }
}

/// The value in a column, counted from 0, or NULL.
pub fn value_in(bytes: &[u8], column: usize) -> Option<&[u8]>
    ensures { (count : ℕ) → column < count → option_copied result ≡ slice_index_or (values_in count bytes.now) column None }
{
    let mut rest = bytes;
    for _passed in 0..column {
        let (_, behind) = next_value(rest);
        rest = behind;
    }
    let (value, _) = next_value(rest);
    value
}

/// The first value or NULL, and the bytes behind it.
fn next_value(bytes: &[u8]) -> (Option<&[u8]>, &[u8])
    ensures value { option_copied result.0 ≡ (next_value bytes.now).0 }
    ensures rest { result.1.now ≡ (next_value bytes.now).1 }
{
    match bytes {
        [NULL, rest @ ..] => (None, rest),
        [_, size, rest @ ..] => {
            let (value, behind) = rest.split_at(rest.len().min(usize::from(*size)));
            (Some(value), behind)
        }
        _ => (None, &[]),
    }
}
