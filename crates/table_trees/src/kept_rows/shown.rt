//! Rows that are read with their long values.

ghost use Rattle.std.specs.Prelude.{◌≡◌, ◌<◌, ◌≤◌, [], length, min, slice_index_or, take, IfSome, IsTrue, MatchOption};
ghost use Rattle.column_set.specs.Reading.{IsFront};
ghost use Rattle.column_set.specs.RecordValues.{values_of};
ghost use Rattle.column_set.specs.Rows.{IsRowBytes};
ghost use Rattle.column_set.specs.RowReading.{row_in};
ghost use Rattle.long_rows.specs.WholeRows.{is_whole, record_in};
ghost use Rattle.long_value.specs.Stores.{read_upto};
ghost use Rattle.table_trees.specs.StoredTables.{table_long_values};

use crate::trees::TableTrees;
use column_set::{RowRef, Values, rows_are_read_back};
use jet_base::{ColumnId, TableId};
use long_value::LongId;
use std::marker::Model;

/// A row of a table that is read in place with its long values, without memory.
///
/// Contracts see it as the record that it stands for. As `Values` it gives of a long value the first 1,024 bytes, as they lie in
/// their page, and every other value whole.
#[derive(Drop)]
pub struct ShownRow<'a> {
    trees: &'a TableTrees,
    table: TableId,
    row: RowRef<'a>,
}

impl<'a> Model for ShownRow<'a> {
    ghost use Rattle.std.specs.Prelude.{IsTrue};
    ghost use Rattle.column_set.specs.RecordValues.{RecordFields};
    ghost use Rattle.column_set.specs.Rows.{is_row};
    ghost use Rattle.long_rows.specs.WholeRows.{is_whole, record_in};
    ghost use Rattle.table_trees.specs.StoredTables.{table_long_values};

    ghost Value = { RecordFields };

    ghost view = { λ a. record_in (table_long_values a.trees.now.tables a.table.0) a.row };

    ghost invariant = { λ a. IsTrue (is_row a.row) × IsTrue (is_whole (table_long_values a.trees.now.tables a.table.0) a.row) };
}

impl<'a> ShownRow<'a> {
    /// The row of a table that has these bytes. Each long value that it names is there.
    pub fn new(trees: &'a TableTrees, table: TableId, row: &'a [u8]) -> ShownRow<'a>
        requires row { IsRowBytes row.now }
        requires whole { IsTrue (is_whole (table_long_values trees.now.tables table.0) (row_in row.now)) }
        ensures { result ≡ record_in (table_long_values trees.now.tables table.0) (row_in row.now) }
    {
        rows_are_read_back();
        ShownRow {
            trees,
            table,
            row: RowRef::new(row),
        }
    }

    /// Reads the first bytes of the column's value at a place, counted from 0, as many as there is room for: how many were read,
    /// and how many the value has. What is behind them in the slice stays. There is none exactly where the place is not below
    /// the count of the column's values.
    pub fn read(&self, column: ColumnId, at: usize, into: &mut [u8]) -> Option<(usize, usize)>
        ensures count { MatchOption result (length (values_of self.now column.0) ≤ at) (λ read. (at < length (values_of self.now column.0)) × (read.1 ≡ length (slice_index_or (values_of self.now column.0) at [])) × (read.0 ≡ min (length into.old) read.1)) }
        ensures bytes { MatchOption result (into.new ≡ into.old) (λ read. into.new ≡ read_upto read.0 (slice_index_or (values_of self.now column.0) at []) into.old) }
    {
        match self.row.apart(column, at) {
            Some((entry, place, size)) => {
                let id = LongId { entry, place };
                Some((self.trees.read_long(self.table, id, into), size as usize))
            }
            None => match self.row.value(column, at) {
                Some(bytes) => Some((copy_front(bytes, into), bytes.len())),
                None => None,
            },
        }
    }
}

/// Copies the first bytes, as many as there is room for, and says how many.
fn copy_front(bytes: &[u8], into: &mut [u8]) -> usize
    ensures count { result ≡ min (length into.old) (length bytes.now) }
    ensures bytes { into.new ≡ read_upto result bytes.now into.old }
{
    let count = bytes.len().min(into.len());
    into[..count].copy_from_slice(&bytes[..count]);
    count
}

impl<'a> Values for ShownRow<'a> {
    ghost fields = { λ s. s };

    fn count(&self, column: ColumnId) -> usize {
        self.row.count(column)
    }

    fn value(&self, column: ColumnId, at: usize) -> Option<&[u8]>
        ensures found { MatchOption result (length (values_of self.now column.0) ≤ at) (λ bytes. (at < length (values_of self.now column.0)) × IsFront bytes.now (slice_index_or (values_of self.now column.0) at [])) }
        // Of a long value just the first 1,024 bytes, and any other value whole.
        ensures front { IfSome result (λ bytes. bytes.now ≡ take 1024 (slice_index_or (values_of self.now column.0) at [])) }
    {
        match self.row.apart(column, at) {
            Some((entry, place, _)) => {
                Some(self.trees.first_part(self.table, LongId { entry, place }))
            }
            None => self.row.value(column, at),
        }
    }
}
