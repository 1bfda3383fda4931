//! Open cursors.

ghost use Rattle.std.specs.Prelude.{◌≡◌, Option, Some, None, MatchOption, option_map};
ghost use Rattle.database_state.specs.Table.{primary_order};
ghost use Rattle.session_local.specs.Preparing.{update_of, HasColumns};
ghost use Rattle.session_local.specs.Finishing.{opened_cursor};

use crate::prepared::Prepared;
use cursor_nav::Cursor;
use index_derive::Schema;
use jet_base::{CursorId, IndexId, TableId};
use std::marker::Model;

/// A cursor that a session opened: its label, the schema of its table, where it stands, and the update that is
/// prepared on it.
#[derive(Debug, Drop)]
pub struct OpenCursor {
    label: CursorId,
    pub(crate) schema: Schema,
    pub(crate) cursor: Cursor,
    pub(crate) prepared: Option<Prepared>,
}

impl Model for OpenCursor {
    ghost use Rattle.session_local.specs.Local.{OpenCursor};

    ghost Value = { OpenCursor };

    ghost use Rattle.session_local.specs.CursorSeen.{open_cursor, HasItsColumns};

    ghost view = { open_cursor };

    ghost invariant = { HasItsColumns };
}

impl OpenCursor {
    /// A cursor before the first entry of the primary order of a table with this schema.
    pub(crate) fn new(label: CursorId, table: TableId, schema: Schema) -> OpenCursor
        ensures { result ≡ opened_cursor label.0 (table.0, schema) }
    {
        let cursor = Cursor::new(table, primary_order(&schema));
        OpenCursor {
            label,
            schema,
            cursor,
            prepared: None,
        }
    }

    /// The cursor's label in its session.
    pub fn label(&self) -> CursorId
        ensures { result.0 ≡ self.now.label }
    {
        self.label
    }

    /// The columns and indexes of its table.
    pub fn schema(&self) -> &Schema
        ensures { result.now ≡ self.now.schema }
    {
        &self.schema
    }

    /// Where it stands.
    pub fn cursor(&self) -> &Cursor
        ensures { result.now ≡ self.now.cursor }
    {
        &self.cursor
    }

    /// The update that is prepared on it.
    pub fn prepared(&self) -> Option<&Prepared>
        ensures { MatchOption result (self.now.prepared ≡ None) (λ prepared. (self.now.prepared ≡ Some (update_of prepared.now)) × (prepared.now.buffer.columns ≡ self.now.schema.columns)) }
    {
        self.prepared.as_ref()
    }

    /// Puts this prepared update in the place of the one that there was.
    pub(crate) fn prepare(&mut self, prepared: Option<Prepared>)
        requires { HasColumns self.old.schema.columns prepared }
        ensures { self.new ≡ record self.old { prepared = option_map update_of prepared } }
    {
        self.prepared = prepared;
    }
}

// The number of the primary index, or 0 where there is none.
pub(crate) fn primary_order(schema: &Schema) -> IndexId
    ensures { result.0 ≡ primary_order schema.now }
{
    match schema.primary_rule() {
        Some(rule) => rule.id,
        None => IndexId(0),
    }
}
