//! A held change but for its row.

ghost use Rattle.std.specs.Prelude.{◌≡◌, ◌≤◌, [], option_copied, length, unwrap_or};
ghost use Rattle.version_store.specs.HeldChanges.{kind_of, is_add, is_rewrite, cost, is_after, is_record, is_unseen, is_concurrent, is_standing, is_standing_rewrite, hides, conflicts, is_kept, is_open_of, is_open_at};
ghost use Rattle.database_state.specs.State.{is_open};
ghost use Rattle.version_store.specs.Items.{held_change, row_of, released_item, committed_item, state_of};
ghost use Rattle.version_store.specs.Sums.{amount_on, unseen_with};

use crate::calls::{By, ChangeKind, Reader};
use column_set::{Bookmark, Change};
use jet_base::{ColumnId, Session, TableId};

/// The bytes that a change costs without its row.
const COST: u64 = 64;

/// Where a change stands: its transaction is open, or was committed by the entry of this number, or it was undone.
#[derive(Clone, Copy, Debug, PartialEq, Eq)]
pub enum Status {
    Uncommitted,
    Committed(u64),
    Undone,
}

/// A held change but for its row.
#[derive(Drop)]
pub(crate) struct Item {
    pub(crate) number: u64,
    pub(crate) session: Session,
    pub(crate) level: u8,
    pub(crate) kind: ChangeKind,
    pub(crate) table: TableId,
    pub(crate) bookmark: Bookmark,
    /// Whether there was a row before.
    pub(crate) had_row: bool,
    pub(crate) status: Status,
    /// What all changes before it have cost.
    pub(crate) spent: u64,
    /// The number of the session's newest open change when this one was made, counted from 1 over all changes ever held.
    pub(crate) own_before: u64,
    /// No open change of the session, up to this one, is of a higher level.
    pub(crate) highest: u8,
}

/// What the change does to its record.
pub(crate) fn what(change: &Change) -> ChangeKind
    ensures { result ≡ kind_of change.now }
{
    match change {
        Change::Put { .. } => ChangeKind::Put,
        Change::Drop { .. } => ChangeKind::Drop,
        Change::Hold { .. } => ChangeKind::Hold,
        Change::Add { column, amount, .. } => ChangeKind::Add(*column, *amount),
    }
}

// Whether it adds to an escrow column.
fn adds(kind: ChangeKind) -> bool
    ensures { result ≡ is_add kind }
{
    match kind {
        ChangeKind::Put | ChangeKind::Drop | ChangeKind::Hold => false,
        ChangeKind::Add(..) => true,
    }
}

// Whether it sets or removes the row.
fn rewrites(kind: ChangeKind) -> bool
    ensures { result ≡ is_rewrite kind }
{
    match kind {
        ChangeKind::Put | ChangeKind::Drop => true,
        ChangeKind::Hold | ChangeKind::Add(..) => false,
    }
}

// What it adds to the column, as a number of 32 bits.
fn amount_on(kind: ChangeKind, column: ColumnId) -> u32
    ensures { result ≡ amount_on column.0 kind }
{
    match kind {
        ChangeKind::Add(other, amount) if other.0 == column.0 => amount.cast_unsigned(),
        _ => 0,
    }
}

/// The bytes that a change costs.
pub(crate) fn cost_of(change: &Change, before: Option<&[u8]>) -> u64
    requires { length (unwrap_or (option_copied before) []) ≤ 4096 }
    ensures value { result ≡ cost (kind_of change.now) (option_copied before.entry) }
    ensures limit { result ≤ 4160 }
{
    let size = match before {
        Some(row) if rewrites(what(change)) => row.len().next_multiple_of(8),
        _ => 0,
    };
    COST + size as u64
}

/// Whether there is a row, and its bytes, which are none where there is none.
pub(crate) fn row_parts(before: Option<&[u8]>) -> (bool, &[u8])
    requires { length (unwrap_or (option_copied before) []) ≤ 4096 }
    ensures row { row_of result.0 result.1.now ≡ option_copied before.entry }
    ensures limit { length result.1.now ≤ 4096 }
{
    match before {
        Some(row) => (true, row),
        None => (false, &[]),
    }
}

// Whether a commit at the number came after the begin.
fn is_later(begin: Option<u64>, number: u64) -> bool
    ensures { result ≡ is_after begin number }
{
    match begin {
        Some(begin) => begin < number,
        None => false,
    }
}

impl Status {
    /// Whether the change's transaction is open.
    pub(crate) fn is_open(self) -> bool
        ensures { result ≡ is_open (state_of self) }
    {
        match self {
            Status::Uncommitted => true,
            Status::Committed(_) | Status::Undone => false,
        }
    }
}

impl Item {
    /// Whether it touches the record.
    pub(crate) fn is_record(&self, table: TableId, bookmark: &[u8]) -> bool
        ensures { result ≡ is_record table.0 bookmark.now (held_change self.now []) }
    {
        self.table.0 == table.0 && self.bookmark.as_bytes() == bookmark
    }

    // Whether it is open in another session, or was committed after the reader's begin.
    fn is_unseen(&self, reader: Reader) -> bool
        ensures { result ≡ is_unseen reader (held_change self.now []) }
    {
        match self.status {
            Status::Uncommitted => self.session.0 != reader.session.0,
            Status::Committed(number) => is_later(reader.begin, number),
            Status::Undone => false,
        }
    }

    /// Whether it is a put or a drop of the record that the reader does not see.
    pub(crate) fn hides(&self, table: TableId, bookmark: &[u8], reader: Reader) -> bool
        ensures { result ≡ hides table.0 bookmark.now reader (held_change self.now []) }
    {
        self.is_record(table, bookmark) && rewrites(self.kind) && self.is_unseen(reader)
    }

    /// What the reader does not see of a column's sums from this change on, where it does not see `after` of those behind it.
    pub(crate) fn unseen_with(
        &self,
        table: TableId,
        bookmark: &[u8],
        column: ColumnId,
        reader: Reader,
        after: u32,
    ) -> u32
        ensures { result ≡ unseen_with table.0 bookmark.now column.0 reader (held_change self.now []) after }
    {
        if !(self.is_record(table, bookmark) && self.is_unseen(reader)) {
            after
        } else if rewrites(self.kind) {
            0
        } else {
            amount_on(self.kind, column).wrapping_add(after)
        }
    }

    /// Whether it is a put or a drop that is not undone.
    pub(crate) fn is_standing(&self) -> bool
        ensures { result ≡ is_standing (held_change self.now []) }
    {
        let stands = match self.status {
            Status::Uncommitted | Status::Committed(_) => true,
            Status::Undone => false,
        };
        stands && rewrites(self.kind)
    }

    /// Whether it is a put or a drop of the record that is not undone.
    pub(crate) fn is_standing_rewrite(&self, table: TableId, bookmark: &[u8]) -> bool
        ensures { result ≡ is_standing_rewrite table.0 bookmark.now (held_change self.now []) }
    {
        self.is_standing() && self.is_record(table, bookmark)
    }

    /// Whether another session made it, and it is open or was committed after the reader's begin.
    pub(crate) fn is_concurrent(&self, reader: Reader) -> bool
        ensures { result ≡ is_concurrent reader (held_change self.now []) }
    {
        self.session.0 != reader.session.0 && self.is_unseen(reader)
    }

    /// Whether it stands against the change of this reader.
    pub(crate) fn conflicts(&self, reader: Reader, change: &Change) -> bool
        ensures { result ≡ conflicts reader change.now (held_change self.now []) }
    {
        self.is_concurrent(reader)
            && self.is_record(change.table(), change.bookmark().as_bytes())
            && !(adds(self.kind) && adds(what(change)))
    }

    /// Whether it is open, or was committed after the oldest open transaction began.
    pub(crate) fn is_kept(&self, oldest: Option<u64>) -> bool
        ensures { result ≡ is_kept oldest (held_change self.now []) }
    {
        match self.status {
            Status::Uncommitted => true,
            Status::Committed(number) => is_later(oldest, number),
            Status::Undone => false,
        }
    }

    /// Whether it is an open change of the session.
    pub(crate) fn is_open_of(&self, session: Session) -> bool
        ensures { result ≡ is_open_of session.0 (held_change self.now []) }
    {
        match self.status {
            Status::Uncommitted => self.session.0 == session.0,
            Status::Committed(_) | Status::Undone => false,
        }
    }

    /// Whether it is an open change of the session at the level.
    pub(crate) fn is_open_at(&self, session: Session, level: u8) -> bool
        ensures { result ≡ is_open_at session.0 level (held_change self.now []) }
    {
        self.is_open_of(session) && self.level == level
    }

    /// The change goes to the level below where it is an open one of the session at this level, from 2 on.
    pub(crate) fn release(&mut self, session: Session, level: u8)
        requires { 2 ≤ level }
        ensures { self.new ≡ released_item session.0 level self.old }
    {
        if self.is_open_at(session, level) {
            self.level = level - 1;
            if self.highest == level {
                self.highest = level - 1;
            }
        }
    }

    /// The change is committed at the number where it is an open one of the session.
    pub(crate) fn commit(&mut self, session: Session, number: u64)
        ensures { self.new ≡ committed_item session.0 number self.old }
    {
        if self.is_open_of(session) {
            self.status = Status::Committed(number);
        }
    }
}
