//! Rows: how records stand in their pages.

ghost use Rattle.std.specs.Prelude.{◌≡◌, [], ◌∷◌, ◌++◌, length, IsTrue, if◌then◌else◌, is_ok, nat_le};
ghost use Rattle.std.specs.List.{list_all};
ghost use Rattle.column_set.specs.RecordValues.{RecordFields, record_size};
ghost use Rattle.column_set.specs.Rows.{RowFields, is_row_of, is_well_formed, row_bytes, row_size, value_fits_row, values_in_order};
ghost use Rattle.column_set.specs.RowReading.{are_in_order, grouped};

use jet_base::{ColumnId, Items, Octets, OutOfMemory};
use std::alloc::Global;
use std::marker::Model;

/// A value as it stands in a row.
#[derive(Debug, Drop)]
pub enum RowValue {
    /// A value of at most 255 bytes.
    Here(Octets),
    /// A longer value, which is kept apart.
    Apart {
        /// The number of the entry that wrote the value.
        entry: u64,
        /// The value's place in that entry, from 0.
        place: u32,
        /// The value's length in bytes, from 256 to 1,048,576.
        length: u32,
    },
}

/// The in-page form of a record: for each column that has a value, by rising number, its values in their order.
#[derive(Debug, Drop)]
pub struct Row {
    // One after the other, so that bytes are written and read in one go.
    values: Items<(u16, RowValue)>,
}

impl Model for Row {
    ghost use Rattle.std.specs.Prelude.{IsTrue};
    ghost use Rattle.column_set.specs.Rows.{RowFields};
    ghost use Rattle.column_set.specs.RowReading.{are_in_order, grouped};

    ghost Value = { RowFields };

    ghost view = { λ a. grouped a.values };

    ghost invariant = { λ a. IsTrue (are_in_order 0 a.values) };
}

impl Row {
    /// The row without a value. It takes no memory.
    pub fn new(alloc: Global) -> Row
        ensures { result ≡ [] }
    {
        Row {
            values: Items::empty(alloc),
        }
    }

    /// The row of these values, whose columns do not fall.
    pub(crate) fn of_values(values: Items<(u16, RowValue)>) -> Row
        requires { IsTrue (are_in_order 0 values) }
        ensures { result ≡ grouped values }
    {
        Row { values }
    }

    /// The values by rising column and in their order, each with its column.
    pub fn values(&self) -> &[(u16, RowValue)]
        ensures values { result.now ≡ values_in_order self.now }
        ensures in_order { IsTrue (are_in_order 0 result.now) }
        ensures well_formed { IsTrue (is_well_formed self.now) }
    {
        self.values.as_slice()
    }
    /// Puts a value at the end. Where there is no memory the row stays and the value is dropped.
    pub fn push(&mut self, column: ColumnId, value: RowValue) -> Result<(), OutOfMemory>
        requires behind { IsTrue (list_all (λ old. nat_le old.0 column.0) (values_in_order self.old)) }
        requires fits { IsTrue (value_fits_row value) }
        ensures { values_in_order self.new ≡ (if is_ok result then values_in_order self.old ++ (column.0, value) ∷ [] else values_in_order self.old) }
    {
        self.push_numbered(column.0, value)
    }

    /// The same under a column's number.
    fn push_numbered(&mut self, number: u16, value: RowValue) -> Result<(), OutOfMemory>
        requires behind { IsTrue (list_all (λ old. nat_le old.0 number) (values_in_order self.old)) }
        requires fits { IsTrue (value_fits_row value) }
        ensures { values_in_order self.new ≡ (if is_ok result then values_in_order self.old ++ (number, value) ∷ [] else values_in_order self.old) }
    {
        self.values.push((number, value))
    }
}

/// A row that keeps each value of more than 255 bytes of a record apart has the size of the record, and as many bytes.
pub fn size_of_a_row()
    ensures bytes { (row : RowFields) → length (row_bytes row) ≡ row_size row }
    ensures record_size { (row : RowFields) (fields : RecordFields) → IsTrue (is_row_of row fields) → row_size row ≡ record_size fields }
{}
