//! The numbers in escrow columns.

ghost use Rattle.std.specs.Prelude.{◌≡◌, true};
ghost use Rattle.laws_versions.specs.EscrowNumbers.{holds_number};
ghost use Rattle.laws_versions.specs.EscrowSums.{escrow_value, seen_value};
ghost use Rattle.engine_parts.specs.Reading.{unseen_amounts};

use crate::engine::Engine;
use column_set::Values;
use jet_base::{ColumnId, Session, TableId};
use table_trees::ShownRow;

impl Engine {
    /// The number in an escrow column of a record as the session sees it, given the row that it is shown: the number there
    /// without the amounts of others that the session does not see, wrapping at 32 bits. It takes no memory.
    pub fn seen_sum(
        &self,
        session: Session,
        table: TableId,
        bookmark: &[u8],
        row: &ShownRow<'_>,
        column: ColumnId,
    ) -> i32
        requires { holds_number row.now column.0 ≡ true }
        ensures { result ≡ seen_value (escrow_value row.now column.0) (unseen_amounts self.now session.0 table.0 bookmark.now column.0) }
    {
        let reader = self.sessions.reader(session);
        let stored = stored_sum(row, column);
        self.tables
            .seen_sum(table, bookmark, column, reader, stored)
    }
}

// The number in a column of the row.
fn stored_sum(row: &ShownRow<'_>, column: ColumnId) -> i32
    requires { holds_number row.now column.0 ≡ true }
    ensures { result ≡ escrow_value row.now column.0 }
{
    let Some(bytes) = row.value(column, 0) else {
        unreachable!()
    };
    i32::from_le_bytes([bytes[0], bytes[1], bytes[2], bytes[3]])
}
