//! Entries of the log.

ghost use Rattle.std.specs.Prelude.{◌≡◌};
ghost use Rattle.index_derive.specs.Steps.{step_length};

use crate::schema_calls::SchemaStep;
use column_set::Change;
use jet_base::{Session, TableId};

/// What a log entry says.
#[derive(Debug, Drop)]
pub enum EntryKind {
    /// The session begins.
    Enter,
    /// The session ends, and with it its transaction and its cursors.
    Leave,
    /// A cursor is opened on the table.
    Open(TableId),
    /// A cursor on the table is closed.
    Shut(TableId),
    /// A transaction begins.
    Begin,
    /// One more level begins in the transaction.
    Save,
    /// A record changes, at the innermost level.
    Change(Change),
    /// The innermost level ends, and its changes go to the level below.
    Release,
    /// The innermost level ends, and its changes are undone.
    Undo,
    /// The transaction ends, and its changes are undone.
    UndoAll,
    /// The transaction ends, and its changes are committed.
    Commit,
    /// The schema changes.
    Schema(SchemaStep),
}

/// An entry of the log. Entries are numbered from 1 in the order in which they are made.
#[derive(Debug, Drop)]
pub struct Entry {
    pub session: Session,
    pub kind: EntryKind,
}

/// The entries that one call makes.
#[derive(Debug, Drop)]
pub enum Step {
    /// The entry.
    One(Entry),
    /// Three entries of the entry's session: a begin, the entry, which is a change, and a commit.
    Alone(Entry),
}

impl Step {
    /// How many entries it makes: one or three.
    pub fn len(&self) -> u64
        ensures { result ≡ step_length self.now }
    {
        match self {
            Step::One(_) => 1,
            Step::Alone(_) => 3,
        }
    }
}
