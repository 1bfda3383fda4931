//! Rows in place.

ghost use Rattle.std.specs.Prelude.{◌≡◌, ◌≤◌, ℕ, List, [], length, slice_get, IsTrue};
ghost use Rattle.std.specs.List.{flat_map};
ghost use Rattle.column_set.specs.declared.rows.RowValue.{RowValue};
ghost use Rattle.column_set.specs.NumberReading.{IsBytes};
ghost use Rattle.column_set.specs.Rows.{IsRowBytes, RowFields, apart_at, here_fields, is_row, row_bytes, row_values_of, value_bytes, values_in_order};
ghost use Rattle.column_set.specs.RowReading.{are_in_order, of_column, row_in};
ghost use Rattle.column_set.specs.RowSeen.{Sees, seen};

use crate::reading::{ValueRef, value};
use crate::row_format::COUNT_BYTES;
use crate::values::Values;
use jet_base::ColumnId;
use std::marker::Model;

/// A row that is read in place, without memory.
///
/// As `Values` it stands for the record in which each value that is kept apart is empty.
#[derive(Debug, Drop)]
pub struct RowRef<'a> {
    bytes: &'a [u8],
}

impl<'a> Model for RowRef<'a> {
    ghost use Rattle.column_set.specs.Rows.{IsRowBytes, RowFields};
    ghost use Rattle.column_set.specs.RowReading.{row_in};

    ghost Value = { RowFields };

    ghost view = { λ a. row_in a.bytes.now };

    ghost invariant = { λ a. IsRowBytes a.bytes.now };
}

impl<'a> RowRef<'a> {
    /// The row that has these bytes, as `encode` writes them.
    pub fn new(bytes: &'a [u8]) -> RowRef<'a>
        requires { IsRowBytes bytes.now }
        ensures found { IsTrue (is_row result) }
        ensures spelled { bytes.now ≡ row_bytes result }
        ensures only { (row : RowFields) → IsTrue (is_row row) → bytes.now ≡ row_bytes row → result ≡ row }
    {
        RowRef { bytes }
    }

    /// The bytes of the values.
    fn values(&self) -> &'a [u8]
        ensures found { IsTrue (is_row self.now) }
        ensures spelled { result.now ≡ flat_map value_bytes (values_in_order self.now) }
    {
        &self.bytes[COUNT_BYTES..]
    }

    /// The column's value at a place.
    fn find(&self, column: ColumnId, at: usize) -> Option<ValueRef<'a>>
        ensures { Sees seen result (slice_get (row_values_of self.now column.0) at) }
    {
        value_of(self.values(), column.0, at)
    }

    /// The number of the entry that wrote the column's value at a place, counted from 0, the value's place in that
    /// entry and its length in bytes. There are none of a value that stands in the row, and of no value.
    pub fn apart(&self, column: ColumnId, at: usize) -> Option<(u64, u32, u32)>
        ensures { result ≡ apart_at self.now column.0 at }
    {
        match self.find(column, at)? {
            ValueRef::Here(_) => None,
            ValueRef::Apart {
                entry,
                place,
                length,
            } => Some((entry, place, length)),
        }
    }
}

impl<'a> Values for RowRef<'a> {
    ghost fields = { here_fields };

    fn count(&self, column: ColumnId) -> usize {
        count_of(self.values(), column.0)
    }

    fn value(&self, column: ColumnId, at: usize) -> Option<&[u8]> {
        match self.find(column, at)? {
            ValueRef::Here(bytes) => Some(bytes),
            ValueRef::Apart { .. } => Some(&[]),
        }
    }
}

/// How many of the values are the column's.
fn count_of(bytes: &[u8], column: u16) -> usize
    ensures { (values : List (ℕ × RowValue)) → IsTrue (are_in_order 0 values) → bytes.now ≡ flat_map value_bytes values → result ≡ length (of_column column values) }
{
    let mut rest = bytes;
    let mut count = 0;
    while let Some(((number, _), after)) = value(rest) {
        if number > column {
            return count;
        }
        if number == column {
            count += 1;
        }
        rest = after;
    }
    count
}

/// The column's value at a place.
fn value_of(bytes: &[u8], column: u16, at: usize) -> Option<ValueRef<'_>>
    ensures { (values : List (ℕ × RowValue)) → IsTrue (are_in_order 0 values) → bytes.now ≡ flat_map value_bytes values → Sees seen result (slice_get (of_column column values) at) }
{
    let mut rest = bytes;
    let mut passed = 0;
    while let Some(((number, found), after)) = value(rest) {
        if number > column {
            return None;
        }
        if number == column {
            if passed == at {
                return Some(found);
            }
            passed += 1;
        }
        rest = after;
    }
    None
}

/// Rows that have the same bytes are one row: what was encoded is what is decoded.
pub fn rows_have_one_spelling()
    ensures { (a b : RowFields) → IsTrue (is_row a) → IsTrue (is_row b) → row_bytes a ≡ row_bytes b → a ≡ b }
{}

/// The row that has the bytes of a row is that row.
pub fn rows_are_read_back()
    ensures { (row : RowFields) → IsTrue (is_row row) → row_in (row_bytes row) ≡ row }
{}

/// Bytes that no row has are read as the row without a value.
pub fn other_bytes_are_read_as_no_value()
    ensures { (bytes : List ℕ) → IsBytes bytes → (IsRowBytes bytes → ⊥) → row_in bytes ≡ [] }
{}
