//! The live sessions.

ghost use Rattle.std.specs.Prelude.{◌≡◌, ℕ, ◌≤◌, ◌<◌, ◌↔◌, ◌==◌, nat_lt, IsTrue, false, Some, [], ◌∷◌, ◌++◌, length, slice_get, Option, option_map, IfSome, IsErrOf, OnOk, OnErr};
ghost use Rattle.std.specs.List.{position, insert, list_all};
ghost use Rattle.version_cleanup.specs.declared.fault.EnterFault.TheVariants as fault;
ghost use Rattle.version_cleanup.specs.LiveSessions.{LiveState, are_rising, insert_session, lesser, is_live, transaction_in, levels_in, with_session, entered, left, opened, shut, began, ended, saved, lowered, level_ended, has_open, has_open_in, has_other_transaction, oldest_begin};

use crate::fault::EnterFault;
use crate::live::{Live, Transaction};
use jet_base::{OutOfMemory, Session, TableId};
use std::alloc::Global;
use std::marker::Model;

/// The most sessions that are live at one time.
pub const MAX_SESSIONS: usize = 64;

/// The most levels of a transaction.
pub const MAX_LEVELS: u8 = 7;

/// The live sessions of an engine, by rising label: the tables that the cursors of each have open, and its transaction.
///
/// There are at most 64, so that each call goes over a short list. Only `enter`, `push` and `open_table` take memory.
#[derive(Debug, Drop)]
pub struct Sessions {
    alloc: Global,
    lives: Vec<Live>,
}

impl Model for Sessions {
    ghost use Rattle.std.specs.Prelude.{List};
    ghost use Rattle.version_cleanup.specs.LiveSessions.{LiveState};

    ghost Value = { List LiveState };

    ghost use Rattle.version_cleanup.specs.Shown.{shown, IsKept};

    ghost view = { shown };

    ghost invariant = { IsKept };
}

impl Sessions {
    /// No session is live. It takes no memory.
    pub fn new(alloc: Global) -> Sessions
        ensures { result ≡ [] }
    {
        Sessions {
            alloc,
            lives: Vec::new(alloc),
        }
    }

    /// How many sessions are live, at most 64. Their labels rise.
    pub fn len(&self) -> usize
        ensures count { result ≡ length self.now }
        ensures few { length self.now ≤ 64 }
        ensures rising { IsTrue (are_rising self.now) }
    {
        self.lives.len()
    }

    /// Whether no session is live.
    pub fn is_empty(&self) -> bool
        ensures { result ≡ (length self.now == 0) }
    {
        self.lives.is_empty()
    }

    /// The session at this place, from 0: they stand by rising label.
    pub fn at(&self, place: usize) -> &Live
        requires { place < length self.now }
        ensures { slice_get self.now place ≡ Some result.now }
    {
        &self.lives[place]
    }

    // The place of the session.
    fn place_of(&self, session: Session) -> Option<usize>
        ensures { result ≡ position (λ s. s.label == session.0) self.now }
    {
        self.lives.iter().position(|live| live.label() == session)
    }

    /// Whether the session is live.
    pub fn has(&self, session: Session) -> bool
        ensures { result ≡ is_live session.0 self.now }
    {
        self.place_of(session).is_some()
    }

    /// A session begins, with no table open and outside a transaction. It is not live before. It is refused exactly where 64
    /// are live, or for want of memory, and the sessions then stay.
    pub fn enter(&mut self, session: Session) -> Result<(), EnterFault>
        requires { is_live session.0 self.old ≡ false }
        ensures out_of_sessions { IsErrOf result fault.OutOfSessions ↔ (length self.old ≡ 64) }
        ensures ok { OnOk result (self.new ≡ entered session.0 self.old) }
        ensures err { OnErr result (self.new ≡ self.old) }
    {
        if self.lives.len() >= MAX_SESSIONS {
            return Err(EnterFault::OutOfSessions);
        }
        let place = place_for(&self.lives, session);
        let live = Live::new(self.alloc, session);
        match self.lives.insert(place, live) {
            Ok(()) => Ok(()),
            Err(_) => Err(EnterFault::OutOfMemory),
        }
    }

    /// Puts a session that is read back behind the others, whose labels are all below its own. It is refused exactly where 64
    /// are live, or for want of memory, and the sessions then stay.
    pub fn push(&mut self, live: Live) -> Result<(), EnterFault>
        requires { IsTrue (list_all (λ s. nat_lt s.label live.label) self.old) }
        ensures out_of_sessions { IsErrOf result fault.OutOfSessions ↔ (length self.old ≡ 64) }
        ensures ok { OnOk result (self.new ≡ self.old ++ live ∷ []) }
        ensures err { OnErr result (self.new ≡ self.old) }
    {
        if self.lives.len() >= MAX_SESSIONS {
            return Err(EnterFault::OutOfSessions);
        }
        match self.lives.push(live) {
            Ok(()) => Ok(()),
            Err(_) => Err(EnterFault::OutOfMemory),
        }
    }

    /// The session ends. Where it is not live nothing changes.
    pub fn leave(&mut self, session: Session)
        ensures { self.new ≡ left session.0 self.old }
    {
        if let Some(place) = self.place_of(session) {
            self.lives.remove(place);
        }
    }

    /// The transaction of the session, with its levels, from 1 to 7, and its begin. None outside one, and where the session is
    /// not live.
    pub fn transaction(&self, session: Session) -> Option<Transaction>
        ensures value { result ≡ transaction_in session.0 self.now }
        ensures levels { IfSome result (λ t. (1 ≤ t.levels) × (t.levels ≤ 7)) }
    {
        match self.place_of(session) {
            Some(place) => self.lives[place].transaction(),
            None => None,
        }
    }

    /// A transaction of one level begins, by the entry of this number, in place of one that stood.
    pub fn begin(&mut self, session: Session, number: u64)
        ensures { self.new ≡ with_session session.0 (began number) self.old }
    {
        if let Some(place) = self.place_of(session) {
            self.lives[place].begin(number);
        }
    }

    /// One more level begins in the session's transaction, which has at most six. Outside one nothing changes.
    pub fn save(&mut self, session: Session)
        requires { levels_in session.0 self.old ≤ 6 }
        ensures { self.new ≡ with_session session.0 saved self.old }
    {
        if let Some(place) = self.place_of(session) {
            self.lives[place].save();
        }
    }

    /// The innermost level of at least two ends, and the others stay.
    pub fn release(&mut self, session: Session)
        requires { 2 ≤ levels_in session.0 self.old }
        ensures { self.new ≡ with_session session.0 lowered self.old }
    {
        if let Some(place) = self.place_of(session) {
            self.lives[place].release();
        }
    }

    /// The innermost level ends, and with the last one the transaction.
    pub fn end_level(&mut self, session: Session)
        ensures { self.new ≡ level_ended session.0 self.old }
    {
        if let Some(place) = self.place_of(session) {
            self.lives[place].end_level();
        }
    }

    /// The session's transaction ends, with all its levels.
    pub fn end_transaction(&mut self, session: Session)
        ensures { self.new ≡ with_session session.0 ended self.old }
    {
        if let Some(place) = self.place_of(session) {
            self.lives[place].end_transaction();
        }
    }

    /// A cursor of the session is opened on the table. Where memory fails the sessions stay.
    pub fn open_table(&mut self, session: Session, table: TableId) -> Result<(), OutOfMemory>
        ensures ok { OnOk result (self.new ≡ with_session session.0 (opened table.0) self.old) }
        ensures err { OnErr result (self.new ≡ self.old) }
    {
        match self.place_of(session) {
            Some(place) => self.lives[place].open_table(table),
            None => Ok(()),
        }
    }

    /// One of the session's cursors on the table is closed. Where it has none there nothing changes.
    pub fn shut_table(&mut self, session: Session, table: TableId)
        ensures { self.new ≡ with_session session.0 (shut table.0) self.old }
    {
        if let Some(place) = self.place_of(session) {
            self.lives[place].shut_table(table);
        }
    }

    /// Whether the session has a cursor open on the table.
    pub fn has_open(&self, session: Session, table: TableId) -> bool
        ensures { result ≡ has_open_in session.0 table.0 self.now }
    {
        match self.place_of(session) {
            Some(place) => self.lives[place].has_open(table),
            None => false,
        }
    }

    /// Whether any session has a cursor open on the table.
    pub fn is_open(&self, table: TableId) -> bool
        ensures { result ≡ has_open table.0 self.now }
    {
        self.lives.iter().any(|live| live.has_open(table))
    }

    /// Whether a session other than this one is in a transaction.
    pub fn other_in_transaction(&self, session: Session) -> bool
        ensures { result ≡ has_other_transaction session.0 self.now }
    {
        self.lives.iter().any(|live| live.label() != session && live.transaction().is_some())
    }

    /// The least begin number of an open transaction.
    pub fn oldest_begin(&self) -> Option<u64>
        ensures { result ≡ oldest_begin self.now }
    {
        let mut oldest = None;
        for live in &self.lives {
            oldest = earlier(oldest, live.transaction());
        }
        oldest
    }
}

// The place of a session more: before the first of a greater label.
fn place_for(lives: &[Live], session: Session) -> usize
    ensures within { result ≤ length lives.now }
    ensures place { (live : LiveState) → live.label ≡ session.0 → insert lives.now result live ≡ insert_session live lives.now }
{
    match lives.iter().position(|live| session.0 < live.label().0) {
        Some(place) => place,
        None => lives.len(),
    }
}

// The lesser of a begin so far and a transaction's.
fn earlier(oldest: Option<u64>, transaction: Option<Transaction>) -> Option<u64>
    ensures { result ≡ lesser oldest (option_map (λ t. t.begin) transaction) }
{
    match (oldest, transaction) {
        (Some(begin), Some(transaction)) => Some(begin.min(transaction.begin)),
        (Some(begin), None) => Some(begin),
        (None, Some(transaction)) => Some(transaction.begin),
        (None, None) => None,
    }
}
