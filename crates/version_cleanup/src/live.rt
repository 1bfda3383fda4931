//! One live session.

ghost use Rattle.std.specs.Prelude.{◌≡◌, ◌+◌, ◌-◌, ◌≤◌, ◌==◌, nat_lt, [], length, map, is_some, IfSome, OnOk, OnErr, if◌then◌else◌};
ghost use Rattle.std.specs.List.{list_any, insert};
ghost use Rattle.database_state.specs.Step.{with_one};

use jet_base::{OutOfMemory, Session, TableId};
use std::alloc::Global;
use std::marker::Model;

/// The transaction of a session: its levels, from 1 to 7, and the number of the entry that began it.
#[derive(Clone, Copy, Debug, PartialEq, Eq)]
pub struct Transaction {
    pub levels: u8,
    pub begin: u64,
}

/// A live session: its label, the tables that its cursors have open, and its transaction.
#[derive(Debug, Drop)]
pub struct Live {
    label: Session,
    // By rising number, each as often as it is open.
    open_tables: Vec<TableId>,
    transaction: Option<Transaction>,
}

impl Model for Live {
    ghost use Rattle.version_cleanup.specs.LiveSessions.{LiveState};

    ghost Value = { LiveState };

    ghost use Rattle.version_cleanup.specs.LiveFields.{live, HasLevels};

    ghost view = { live };

    ghost invariant = { HasLevels };
}

impl Live {
    ghost use Rattle.version_cleanup.specs.LiveSessions.{new_session, opened, shut, began, ended, saved, lowered, levels_of};

    /// A session that has just begun. It takes no memory.
    pub(crate) fn new(alloc: Global, label: Session) -> Live
        ensures { result ≡ new_session label.0 }
    {
        Live {
            label,
            open_tables: Vec::new(alloc),
            transaction: None,
        }
    }

    /// A session that is read back, with all that it has.
    pub fn of(label: Session, open_tables: Vec<TableId>, transaction: Option<Transaction>) -> Live
        requires { IfSome transaction (λ t. (1 ≤ t.levels) × (t.levels ≤ 7)) }
        ensures { result ≡ record { label = label.0; open_tables = map (λ id. id.0) open_tables.items; transaction = transaction } }
    {
        Live {
            label,
            open_tables,
            transaction,
        }
    }

    /// Its label.
    pub fn label(&self) -> Session
        ensures { result.0 ≡ self.now.label }
    {
        self.label
    }

    /// Its transaction, which has 1 to 7 levels.
    pub fn transaction(&self) -> Option<Transaction>
        ensures value { result ≡ self.now.transaction }
        ensures levels { IfSome result (λ t. (1 ≤ t.levels) × (t.levels ≤ 7)) }
    {
        self.transaction
    }

    /// The tables that its cursors have open, by rising number, each as often as it is open.
    pub fn open_tables(&self) -> &[TableId]
        ensures { map (λ id. id.0) result.now ≡ self.now.open_tables }
    {
        self.open_tables.as_slice()
    }

    /// A transaction begins, by the entry of this number.
    pub(crate) fn begin(&mut self, number: u64)
        ensures { self.new ≡ began number self.old }
    {
        self.transaction = Some(Transaction {
            levels: 1,
            begin: number,
        });
    }

    /// One more level begins, where there is a transaction. It has at most six before.
    pub(crate) fn save(&mut self)
        requires { levels_of self.old.transaction ≤ 6 }
        ensures { self.new ≡ saved self.old }
    {
        if let Some(mut transaction) = self.transaction {
            transaction.levels += 1;
            self.transaction = Some(transaction);
        }
    }

    /// The innermost of at least two levels ends.
    pub(crate) fn release(&mut self)
        requires { 2 ≤ levels_of self.old.transaction }
        ensures { self.new ≡ lowered self.old }
    {
        if let Some(mut transaction) = self.transaction {
            transaction.levels -= 1;
            self.transaction = Some(transaction);
        }
    }

    /// The innermost level ends, and with the last one the transaction.
    pub(crate) fn end_level(&mut self)
        ensures { self.new ≡ (if nat_lt 1 (levels_of self.old.transaction) then lowered self.old else ended self.old) }
    {
        match self.transaction {
            Some(mut transaction) if transaction.levels > 1 => {
                transaction.levels -= 1;
                self.transaction = Some(transaction);
            }
            _ => self.transaction = None,
        }
    }

    /// The transaction ends.
    pub(crate) fn end_transaction(&mut self)
        ensures { self.new ≡ ended self.old }
    {
        self.transaction = None;
    }

    /// A cursor is opened on the table.
    pub(crate) fn open_table(&mut self, table: TableId) -> Result<(), OutOfMemory>
        ensures done { OnOk result (self.new ≡ opened table.0 self.old) }
        ensures kept { OnErr result (self.new ≡ self.old) }
    {
        let place = place_of(&self.open_tables, table);
        self.open_tables.insert(place, table)?;
        Ok(())
    }

    /// One of the cursors on the table is closed. Where none is open on it nothing changes.
    pub(crate) fn shut_table(&mut self, table: TableId)
        ensures { self.new ≡ shut table.0 self.old }
    {
        if let Some(place) = self.open_tables.iter().position(|id| *id == table) {
            self.open_tables.remove(place);
        }
    }

    /// Whether a cursor is open on the table.
    pub fn has_open(&self, table: TableId) -> bool
        ensures { result ≡ list_any (λ id. id == table.0) self.now.open_tables }
    {
        is_among(&self.open_tables, table)
    }
}

// The place of one table more: before the first of a greater number.
fn place_of(tables: &[TableId], table: TableId) -> usize
    ensures within { result ≤ length tables.now }
    ensures place { map (λ id. id.0) (insert tables.now result table) ≡ with_one table.0 (map (λ id. id.0) tables.now) }
{
    match tables.iter().position(|other| table.0 < other.0) {
        Some(place) => place,
        None => tables.len(),
    }
}

// Whether the table is among these.
fn is_among(tables: &[TableId], table: TableId) -> bool
    ensures { result ≡ list_any (λ id. id.0 == table.0) tables.now }
{
    tables.iter().any(|id| *id == table)
}
