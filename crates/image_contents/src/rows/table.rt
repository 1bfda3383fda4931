//! Whether a row may stand under a bookmark of its table.

ghost use Rattle.std.specs.Prelude.{◌≡◌, ◌&&◌, IfOk, IsTrue};
ghost use Rattle.column_set.specs.RowReading.{row_in};
ghost use Rattle.image_findings.specs.RowFindings.{is_own_bookmark, is_row_under};
ghost use Rattle.image_findings.specs.TableContents.{is_short_row, row_fits};
ghost use Rattle.image_contents.specs.RowsRead.{AreReadable, values_read};
ghost use Rattle.long_rows.specs.WholeRows.{is_whole};

use crate::rows::fitting::{is_short_row, row_fits};
use crate::rows::indexing::{is_hidden_key, is_indexable};
use crate::rows::shown::ImageRow;
use btree_inplace::Tree;
use index_derive::primary_key;
use jet_base::OutOfMemory;
use jet_catalog::TableDef;
use page_space::Space;
use std::alloc::Global;

/// What the rows of a table are read with.
#[derive(Clone, Copy)]
pub struct TableRows<'a> {
    pub space: &'a Space,
    pub table: &'a TableDef,
    /// The tree of the table's long values.
    pub long_values: &'a Tree,
    /// How many log entries there are.
    pub number: u64,
}

impl<'a> TableRows<'a> {
    /// Whether the bytes are a row that may stand under a bookmark: it has 1,700 bytes at most and fits the columns, no index refuses
    /// its record, and the bookmark is its own.
    pub fn is_row_under(
        &self,
        alloc: Global,
        bookmark: &[u8],
        bytes: &[u8],
    ) -> Result<bool, OutOfMemory>
        requires readable { AreReadable self.now }
        requires whole { IsTrue (is_whole (values_read self.now) (row_in bytes.now)) }
        ensures { IfOk result (λ is. is ≡ is_row_under self.now.number (values_read self.now) self.now.table.now bookmark.now bytes.now) }
    {
        if !is_short_row(bytes) {
            return Ok(false);
        }
        if !row_fits(self.table.columns(), bytes) {
            return Ok(false);
        }
        let row = ImageRow::new(self.space, self.long_values, bytes);
        match is_indexable(alloc, self.table.schema(), &row) {
            Ok(true) => Ok(self.is_own_bookmark(&row, bookmark)),
            Ok(false) => Ok(false),
            Err(fault) => Err(fault),
        }
    }

    /// Whether the bytes are a row of 1,700 bytes at most that fits the columns. Nothing is asked of the long values that it names.
    pub fn row_fits(&self, bytes: &[u8]) -> bool
        ensures { result ≡ (is_short_row bytes.now && row_fits self.now.table.now.columns (row_in bytes.now)) }
    {
        is_short_row(bytes) && row_fits(self.table.columns(), bytes)
    }

    /// Whether a bookmark is a record's own: its key in the primary index, or else the number of an entry.
    fn is_own_bookmark(&self, row: &ImageRow<'_>, bookmark: &[u8]) -> bool
        requires { AreReadable self.now }
        ensures { result ≡ is_own_bookmark self.now.number self.now.table.now row.now bookmark.now }
    {
        match self.table.primary() {
            Some(rule) => bookmark == primary_key(rule, self.table.schema(), row).as_bytes(),
            None => is_hidden_key(self.number, bookmark),
        }
    }
}
