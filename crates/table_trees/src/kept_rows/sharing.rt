//! The long values that a put may share.

ghost use Rattle.std.specs.Prelude.{◌≡◌, ◌<◌, List, [], ◌∷◌, IfSome};
ghost use Rattle.std.specs.Option.{option_copied, option_map};
ghost use Rattle.column_set.specs.Rows.{IsRowBytes};
ghost use Rattle.column_set.specs.RowReading.{row_in};
ghost use Rattle.long_rows.specs.KeptRows.{may_share, shared, shared_in};
ghost use Rattle.long_value.specs.Stores.{id_bytes};
ghost use Rattle.long_value.specs.Values.{value_of};
ghost use Rattle.table_trees.specs.StoredTables.{table_long_values};
ghost use Rattle.table_trees.specs.Sources.{HasRows, found_in, place_of, row_given};

use crate::trees::TableTrees;
use column_set::{RowRef, rows_are_read_back};
use jet_base::{ColumnId, TableId};
use long_value::LongId;

/// The most references that a value has: one that has as many is not shared.
const MOST_REFERENCES: u32 = 4_294_967_295;

/// What a put finds: the trees with the long values of its table, the row before it and the row of the record that was copied, if
/// there are such, and the number of its log entry.
#[derive(Clone, Copy)]
pub struct Sources<'a> {
    /// The trees of all tables.
    pub trees: &'a TableTrees,
    /// The table.
    pub table: TableId,
    /// The row before the put.
    pub before: Option<&'a [u8]>,
    /// The row of the record that was copied.
    pub copied: Option<&'a [u8]>,
    /// The number of the put's log entry.
    pub number: u64,
}

impl<'a> Sources<'a> {
    /// The value that is shared with one under the same column and sequence, counted from 0: of the row before, or else of the
    /// row that was copied. It is there, has the same bytes and fewer references than a value has at most.
    pub fn shared(&self, column: ColumnId, at: usize, value: &[u8]) -> Option<LongId>
        requires { HasRows self.now }
        ensures { option_map place_of result ≡ shared (found_in self.now) column.0 at value.now }
    {
        match self.shared_in(self.before, column, at, value) {
            Some(id) => Some(id),
            None => self.shared_in(self.copied, column, at, value),
        }
    }

    /// The same of one row.
    fn shared_in(
        &self,
        row: Option<&[u8]>,
        column: ColumnId,
        at: usize,
        value: &[u8],
    ) -> Option<LongId>
        requires { IfSome (option_copied row) IsRowBytes }
        ensures { option_map place_of result ≡ shared_in (table_long_values self.now.trees.now.tables self.now.table.0) (row_given (option_copied row.entry)) column.0 at value.now }
    {
        match row {
            Some(bytes) => self.shared_in_bytes(bytes, column, at, value),
            None => None,
        }
    }

    /// The same of a row's bytes.
    fn shared_in_bytes(
        &self,
        row: &[u8],
        column: ColumnId,
        at: usize,
        value: &[u8],
    ) -> Option<LongId>
        requires { IsRowBytes row.now }
        ensures { option_map place_of result ≡ shared_in (table_long_values self.now.trees.now.tables self.now.table.0) (row_in row.now ∷ []) column.0 at value.now }
    {
        rows_are_read_back();
        match RowRef::new(row).apart(column, at) {
            Some((entry, place, _)) => {
                let id = LongId { entry, place };
                if self.may_share(id, value) {
                    Some(id)
                } else {
                    None
                }
            }
            None => None,
        }
    }

    /// Whether a value is there with these bytes and takes one reference more.
    fn may_share(&self, id: LongId, value: &[u8]) -> bool
        ensures { result ≡ may_share value.now (value_of (id_bytes id) (table_long_values self.now.trees.now.tables self.now.table.0)) }
    {
        if !self.trees.has_long(self.table, id) {
            return false;
        }
        self.trees.long_equals(self.table, id, value)
            && self.trees.long_count(self.table, id) < MOST_REFERENCES
    }
}
