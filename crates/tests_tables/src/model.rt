//! A plain model of a table under the changes of several sessions: its rows, and the changes of the past, as lists. A value has as
//! many references as rows, and rows before of changes that are not undone, name it: they are counted afresh each time.

use crate::values::is_kept_apart;
use std::alloc::Global;
use std::process::Abort;

/// A value as a row names it: which one it is, and the number of the log entry that made it. No entry makes a value that stands
/// in its row: its number is 0.
#[derive(Clone, Copy, PartialEq, Eq)]
pub struct Named {
    pub fill: u8,
    pub entry: u64,
}

/// A record that stands.
#[derive(Clone, Copy)]
struct Row {
    key: u8,
    value: Named,
}

/// Where a change stands.
#[derive(Clone, Copy, PartialEq, Eq)]
enum Status {
    Open,
    Committed(u64),
    Undone,
}

/// A put or a drop of the past, with the row before it.
#[derive(Clone, Copy)]
struct Past {
    session: u32,
    level: u8,
    key: u8,
    before: Option<Named>,
    status: Status,
}

/// An open transaction: the number of the entry that began it, and its innermost level.
#[derive(Clone, Copy)]
pub struct Transaction {
    pub session: u32,
    pub begin: u64,
    pub level: u8,
}

/// The rows, the changes that are held, the oldest first, and the open transactions.
#[derive(Drop)]
pub struct Model {
    /// The number of the newest log entry.
    pub number: u64,
    rows: Vec<Row>,
    past: Vec<Past>,
    transactions: Vec<Transaction>,
}

impl Model {
    /// No row, and no session in a transaction.
    pub fn new(alloc: Global) -> Model {
        Model {
            number: 0,
            rows: Vec::new(alloc),
            past: Vec::new(alloc),
            transactions: Vec::new(alloc),
        }
    }

    /// The open transactions.
    pub fn transactions(&self) -> &[Transaction] {
        self.transactions.as_slice()
    }

    /// The transaction of a session.
    pub fn transaction(&self, session: u32) -> Option<Transaction> {
        for transaction in &self.transactions {
            if transaction.session == session {
                return Some(*transaction);
            }
        }
        None
    }

    /// The least begin of an open transaction.
    pub fn oldest_begin(&self) -> Option<u64> {
        let mut oldest = None;
        for transaction in &self.transactions {
            oldest = Some(least(oldest, transaction.begin));
        }
        oldest
    }

    /// How many changes are held.
    pub fn held(&self) -> usize {
        self.past.len()
    }

    /// The newest value under a key.
    pub fn newest(&self, key: u8) -> Option<Named> {
        for row in &self.rows {
            if row.key == key {
                return Some(row.value);
            }
        }
        None
    }

    /// The value under a key that a session sees which began there: that before the oldest change that it does not see.
    pub fn seen(&self, key: u8, session: u32, begin: u64) -> Option<Named> {
        for past in &self.past {
            if past.key == key && is_unseen(past, session, begin) {
                return past.before;
            }
        }
        self.newest(key)
    }

    /// Whether a change that a session does not see touches the record under a key.
    pub fn has_conflict(&self, key: u8, session: u32, begin: u64) -> bool {
        for past in &self.past {
            if past.key == key && past.session != session && is_unseen(past, session, begin) {
                return true;
            }
        }
        false
    }

    /// How many references the value has that an entry made.
    pub fn count(&self, entry: u64) -> u32 {
        rows_that_name(&self.rows, entry).saturating_add(rows_before_that_name(&self.past, entry))
    }

    /// The value that a put names which is made by the newest entry: an equal one of the row before, or else of the copied record
    /// as the transaction sees it, and a new one where there is none.
    pub fn named(&self, transaction: Transaction, key: u8, copied: Option<u8>, fill: u8) -> Named {
        if !is_kept_apart(fill) {
            return Named { fill, entry: 0 };
        }
        match equal(self.newest(key), fill) {
            Some(value) => value,
            None => self.named_as_copied(transaction, copied, fill),
        }
    }

    // The same where the row before has no equal one.
    fn named_as_copied(&self, transaction: Transaction, copied: Option<u8>, fill: u8) -> Named {
        let seen = match copied {
            Some(key) => self.seen(key, transaction.session, transaction.begin),
            None => None,
        };
        match equal(seen, fill) {
            Some(value) => value,
            None => Named {
                fill,
                entry: self.number,
            },
        }
    }

    /// A session begins a transaction.
    pub fn begin(&mut self, rt: &impl Abort, session: u32) {
        let transaction = Transaction {
            session,
            begin: self.number,
            level: 1,
        };
        self.transactions.push(transaction).expect(rt, "memory");
    }

    /// The innermost level of a session's transaction is another one.
    pub fn set_level(&mut self, session: u32, level: u8) {
        for transaction in self.transactions.iter_mut() {
            if transaction.session == session {
                transaction.level = level;
            }
        }
    }

    /// A record is put, or goes.
    pub fn change(
        &mut self,
        rt: &impl Abort,
        transaction: Transaction,
        key: u8,
        value: Option<Named>,
    ) {
        let past = Past {
            session: transaction.session,
            level: transaction.level,
            key,
            before: self.newest(key),
            status: Status::Open,
        };
        self.past.push(past).expect(rt, "memory");
        self.set(rt, key, value);
    }

    // Puts another row under a key, or none.
    fn set(&mut self, rt: &impl Abort, key: u8, value: Option<Named>) {
        self.rows.retain(|row| row.key != key);
        match value {
            Some(value) => self.rows.push(Row { key, value }).expect(rt, "memory"),
            None => {}
        }
    }

    /// The changes at a level belong to the level below.
    pub fn release(&mut self, session: u32, level: u8) {
        for past in self.past.iter_mut() {
            if is_open_at(past, session, level) {
                past.level = level.saturating_sub(1);
            }
        }
        self.set_level(session, level.saturating_sub(1));
    }

    /// The transaction of a session is committed by the newest entry.
    pub fn commit(&mut self, session: u32) {
        for past in self.past.iter_mut() {
            if past.session == session && past.status == Status::Open {
                past.status = Status::Committed(self.number);
            }
        }
        self.end(session);
    }

    /// The transaction of a session ends.
    pub fn end(&mut self, session: u32) {
        self.transactions
            .retain(|transaction| transaction.session != session);
    }

    /// The changes at a level are undone, the newest first.
    pub fn undo(&mut self, rt: &impl Abort, session: u32, level: u8) {
        for _ in 0..self.past.len() {
            match newest_open_at(&self.past, session, level) {
                Some(place) => self.undo_at(rt, place),
                None => {}
            }
        }
    }

    // The change at this place is undone.
    fn undo_at(&mut self, rt: &impl Abort, place: usize) {
        if place < self.past.len() {
            let past = self.past[place];
            self.past[place].status = Status::Undone;
            self.set(rt, past.key, past.before);
        }
    }

    /// Whether the oldest change may be forgotten: it is not open, nor committed after an open transaction began.
    pub fn may_forget(&self) -> bool {
        match self.past.first() {
            Some(past) => !is_kept(past, self.oldest_begin()),
            None => false,
        }
    }

    /// The oldest change is forgotten.
    pub fn forget(&mut self) {
        if self.past.len() > 0 {
            let _forgotten = self.past.remove(0);
        }
    }
}

// The lesser of a begin so far and another one.
fn least(oldest: Option<u64>, begin: u64) -> u64 {
    match oldest {
        Some(oldest) => oldest.min(begin),
        None => begin,
    }
}

// Whether a change is open in another session, or was committed after the session's begin.
fn is_unseen(past: &Past, session: u32, begin: u64) -> bool {
    match past.status {
        Status::Open => past.session != session,
        Status::Committed(number) => begin < number,
        Status::Undone => false,
    }
}

// Whether a change is open, or was committed after the oldest begin.
fn is_kept(past: &Past, oldest: Option<u64>) -> bool {
    match past.status {
        Status::Open => true,
        Status::Committed(number) => match oldest {
            Some(begin) => begin < number,
            None => false,
        },
        Status::Undone => false,
    }
}

// Whether a change is open at a level of a session.
fn is_open_at(past: &Past, session: u32, level: u8) -> bool {
    past.session == session && past.level == level && past.status == Status::Open
}

// The place of the newest such change.
fn newest_open_at(changes: &[Past], session: u32, level: u8) -> Option<usize> {
    let mut newest = None;
    for (place, past) in changes.iter().enumerate() {
        if is_open_at(past, session, level) {
            newest = Some(place);
        }
    }
    newest
}

// The value, where it is that one and stands apart.
fn equal(value: Option<Named>, fill: u8) -> Option<Named> {
    match value {
        Some(named) => {
            if named.fill == fill && named.entry > 0 {
                Some(named)
            } else {
                None
            }
        }
        None => None,
    }
}

// How many rows name the value of an entry.
fn rows_that_name(rows: &[Row], entry: u64) -> u32 {
    let mut count: u32 = 0;
    for row in rows {
        if row.value.entry == entry {
            count = count.saturating_add(1);
        }
    }
    count
}

// How many rows before of changes that are not undone name it.
fn rows_before_that_name(changes: &[Past], entry: u64) -> u32 {
    let mut count: u32 = 0;
    for past in changes {
        if past.status != Status::Undone && names(past.before, entry) {
            count = count.saturating_add(1);
        }
    }
    count
}

// Whether a row names the value of an entry.
fn names(row: Option<Named>, entry: u64) -> bool {
    match row {
        Some(value) => value.entry == entry,
        None => false,
    }
}
