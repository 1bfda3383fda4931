//! What the calls take and answer.

use crate::item::Status;
use jet_base::{ColumnId, Session, TableId};

/// Who makes a change, and how large the span of the version store may become.
#[derive(Clone, Copy, Debug, PartialEq, Eq)]
pub struct By {
    /// The number of the change's entry.
    pub number: u64,
    pub session: Session,
    /// The number of the entry that began the session's transaction.
    pub begin: u64,
    /// The innermost level of the transaction, from 1.
    pub level: u8,
    /// The most bytes that the span may have with the change.
    pub limit: u64,
    /// The least begin number of an open transaction.
    pub oldest: Option<u64>,
}

/// Who reads: a session, and the number of the entry that began its transaction. Outside one it sees what is committed.
#[derive(Clone, Copy, Debug, PartialEq, Eq)]
pub struct Reader {
    pub session: Session,
    pub begin: Option<u64>,
}

/// What a change does to its record.
#[derive(Clone, Copy, Debug, PartialEq, Eq)]
pub enum ChangeKind {
    Put,
    Drop,
    Hold,
    Add(ColumnId, i32),
}

/// Where the changes of a record stand for a reader.
#[derive(Clone, Copy, Debug)]
pub enum Variant<'a> {
    /// The reader sees the record as its table has it now.
    Current,
    /// The reader sees this row.
    Before(&'a [u8]),
    /// The reader sees no record.
    Absent,
}

/// All that is held of a change. The bytes are those that the store holds, in place.
#[derive(Clone, Copy, Debug)]
pub struct Held<'a> {
    /// The number of the entry that made it.
    pub number: u64,
    pub session: Session,
    /// The level of the session's transaction that it stands at, from 1: the one that it was made at, or a lower one to which
    /// it was released.
    pub level: u8,
    /// What it does to its record; of a sum the column and the amount too.
    pub kind: ChangeKind,
    pub table: TableId,
    /// The bookmark of its record.
    pub bookmark: &'a [u8],
    /// The row before it.
    pub before: Option<&'a [u8]>,
    pub status: Status,
}

/// A change that has just become undone: its table, and its place among the held changes, from 0. The place names it until a
/// change is popped.
#[derive(Clone, Copy, Debug, PartialEq, Eq)]
pub struct Undone {
    pub table: TableId,
    pub place: usize,
}
