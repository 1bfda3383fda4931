//! Reading the values of a record, wherever they stand.

ghost use Rattle.std.specs.Prelude.{◌≡◌, ◌<◌, ◌≤◌, length, slice_index_or, MatchOption, []};
ghost use Rattle.column_set.specs.RecordValues.{RecordFields, values_of};
ghost use Rattle.column_set.specs.Reading.{IsFront};

use jet_base::ColumnId;

/// The values of a record, read by column and place without memory.
///
/// A whole record gives whole values. A row that is read in place may give no more than the first bytes of a value
/// that is kept apart from it.
pub trait Values {
    /// The columns that have a value, each with its values in their order.
    ghost fields: { Self → RecordFields };

    /// How many values the column has: 0 where it is NULL.
    fn count(&self, column: ColumnId) -> usize
        ensures { result ≡ length (values_of (fields self.now) column.0) };

    /// The column's value at a place, counted from 0, or at least its first 1,024 bytes. There is none exactly where
    /// the place is not below the count.
    fn value(&self, column: ColumnId, at: usize) -> Option<&[u8]>
        ensures { MatchOption result (length (values_of (fields self.now) column.0) ≤ at) (λ bytes. (at < length (values_of (fields self.now) column.0)) × IsFront bytes.now (slice_index_or (values_of (fields self.now) column.0) at [])) };
}
