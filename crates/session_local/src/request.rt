//! What a session asks for.

use crate::apart::Apart;
use cursor_nav::SeekBy;
use index_derive::{IndexFlags, NamedCondition, NamedSegment};
use jet_base::{ColType, ColumnFlags, CursorId, Given, Items, Name, Octets, Prepare, Way};
use temp_table::TempColumn;

/// A call of a session, as a line of a script writes it after the session's label.
///
/// A script's calls are kept in a list, so a call is no larger than those that come often: what few calls have besides lies
/// apart.
#[derive(Debug, Drop, PartialEq, Eq)]
pub enum Request {
    BeginSession,
    EndSession,
    BeginTransaction,
    CommitTransaction {
        /// The outermost commit does not wait for the log.
        lazy: bool,
    },
    Rollback {
        /// All levels, and not the innermost alone.
        all: bool,
    },
    CreateTable {
        table: Name,
    },
    DeleteTable {
        table: Name,
    },
    AddColumn {
        table: Name,
        column: Name,
        kind: ColType,
        flags: ColumnFlags,
    },
    DeleteColumn {
        table: Name,
        column: Name,
    },
    CreateIndex {
        table: Name,
        index: Apart<Name>,
        flags: IndexFlags,
        /// Keys are cut at so many bytes: 255 unless another limit is written.
        key_most: u16,
        segments: Apart<Items<NamedSegment>>,
        conditions: Apart<Items<NamedCondition>>,
    },
    DeleteIndex {
        table: Name,
        index: Name,
    },
    OpenTable {
        cursor: CursorId,
        table: Name,
    },
    CloseTable {
        cursor: CursorId,
    },
    SetCurrentIndex {
        cursor: CursorId,
        /// None for the primary order.
        index: Option<Name>,
    },
    Move {
        cursor: CursorId,
        way: Way,
    },
    MakeKey {
        cursor: CursorId,
        /// The key begins with this value. Otherwise: the value goes to the key so far.
        fresh: bool,
        value: Given,
    },
    Seek {
        cursor: CursorId,
        by: SeekBy,
    },
    SetIndexRange {
        cursor: CursorId,
        /// The key that was made is an upper limit. Otherwise: a lower one.
        upper: bool,
        /// Entries with the very key are within the limit.
        inclusive: bool,
    },
    RemoveIndexRange {
        cursor: CursorId,
    },
    IndexRecordCount {
        cursor: CursorId,
        /// Counting stops at so many entries, where a number is written.
        most: Option<u32>,
    },
    RetrieveKey {
        cursor: CursorId,
    },
    GetBookmark {
        cursor: CursorId,
    },
    GotoBookmark {
        cursor: CursorId,
        bookmark: Octets,
    },
    PrepareUpdate {
        cursor: CursorId,
        how: Prepare,
    },
    SetColumn {
        cursor: CursorId,
        column: Name,
        /// Which of the column's values, from 1. Then 0, and any number above the last, appends.
        sequence: u32,
        value: Given,
    },
    RetrieveColumn {
        cursor: CursorId,
        column: Name,
        /// Which of the column's values, from 1. Then 0 asks for their number.
        sequence: u32,
        /// From the copy buffer, and not from the current record.
        copy: bool,
        /// At most so many bytes of the value: 255 where no number is written.
        most: u32,
    },
    Update {
        cursor: CursorId,
    },
    Delete {
        cursor: CursorId,
    },
    GetLock {
        cursor: CursorId,
    },
    EscrowUpdate {
        cursor: CursorId,
        column: Name,
        amount: i32,
    },
    TempOpen {
        /// Temporary tables have labels of their own: a cursor may have the same one.
        temp: CursorId,
        /// No two rows have one key.
        unique: bool,
        columns: Items<TempColumn>,
    },
    TempPut {
        temp: CursorId,
        /// One for each column.
        values: Items<Given>,
    },
    TempMove {
        temp: CursorId,
        way: Way,
    },
    TempRead {
        temp: CursorId,
        /// Which of the columns, from 1.
        column: u8,
    },
    TempCount {
        temp: CursorId,
    },
    TempClose {
        temp: CursorId,
    },
    IntersectIndexes {
        /// The label of the temporary table that is filled.
        temp: CursorId,
        /// Those whose ranges are intersected. One may stand there more than once.
        cursors: Items<CursorId>,
    },
}
