//! Values that are shown where they lie in a record.

ghost use Rattle.engine_parts.specs.Retrieving.{bytes_at};

use jet_base::ColumnId;
use session_local::RetrievedValue;
use table_trees::ShownRow;

/// A value of a record that is read in place: that of a column at a place, counted from 0.
#[derive(Drop)]
pub(crate) struct RowValue<'a> {
    pub(crate) row: &'a ShownRow<'a>,
    pub(crate) column: ColumnId,
    pub(crate) at: usize,
}

impl<'a> RetrievedValue for RowValue<'a> {
    ghost bytes = { λ value. bytes_at value.row.now value.column.0 value.at };

    fn read(&self, into: &mut [u8]) -> Option<(usize, usize)> {
        self.row.read(self.column, self.at, into)
    }
}
