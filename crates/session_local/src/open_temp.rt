//! Open temporary tables.

use jet_base::CursorId;
use temp_table::TempTable;

/// A temporary table that a session opened, and its label. A cursor may have the same one.
#[derive(Debug, Drop)]
pub struct OpenTemp {
    pub label: CursorId,
    pub table: TempTable,
}
