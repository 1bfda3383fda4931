//! The engine and its parts.

ghost use Rattle.std.specs.Prelude.{◌≡◌, ◌≤◌, ◌==◌, nat_le};
ghost use Rattle.database_state.specs.Lawful.{log_limit};
ghost use Rattle.version_cleanup.specs.Cleaning.{reader_in};
ghost use Rattle.version_cleanup.specs.LiveSessions.{levels_in};
ghost use Rattle.laws_engine.specs.EngineState.{empty_engine};
ghost use Rattle.engine_parts.specs.Parts.{tables_of};

use jet_base::Session;
use std::alloc::Global;
use std::marker::Model;
use table_versions::TableVersions;
use version_cleanup::Sessions;
use version_store::Reader;

/// The number of entries at which the log ends: only what ends a session, a level or a cursor is logged beyond.
pub const LOG_LIMIT: u64 = 17_179_869_184;

/// The engine of a database with versions: its live sessions, and its tables with the changes that are held.
///
/// Contracts see what it holds of a database state; `HoldsState` says when it holds a state. Its parts are public for the
/// crates that decide calls and make steps.
#[derive(Drop)]
pub struct Engine {
    pub alloc: Global,
    /// The limit of the version store's span, in bytes.
    pub limit: u64,
    /// How many log entries were made so far.
    pub number: u64,
    pub sessions: Sessions,
    pub tables: TableVersions,
}

impl Model for Engine {
    ghost use Rattle.laws_engine.specs.EngineState.{EngineState};

    ghost Value = { EngineState };

    ghost use Rattle.engine_parts.specs.Parts.{engine_state};

    ghost view = { engine_state };
}

impl Engine {
    /// The engine of an empty database. The limit is that of the version store's span, in bytes. It takes no memory.
    pub fn new(alloc: Global, limit: u64) -> Engine
        ensures { result ≡ empty_engine limit }
    {
        Engine {
            alloc,
            limit,
            number: 0,
            sessions: Sessions::new(alloc),
            tables: TableVersions::new(alloc),
        }
    }

    /// Puts another limit of the version store's span, in bytes.
    pub fn set_limit(&mut self, limit: u64)
        ensures { self.new ≡ record self.old { limit = limit } }
    {
        self.limit = limit;
    }

    /// The limit of the version store's span, in bytes.
    pub fn limit(&self) -> u64
        ensures { result ≡ self.now.limit }
    {
        self.limit
    }

    /// The number of log entries so far.
    pub fn number(&self) -> u64
        ensures { result ≡ self.now.number }
    {
        self.number
    }

    /// The live sessions.
    pub fn sessions(&self) -> &Sessions
        ensures { result.now ≡ self.now.sessions }
    {
        &self.sessions
    }

    /// The tables, and the held changes.
    pub fn tables(&self) -> &TableVersions
        ensures { result.now ≡ tables_of self.now }
    {
        &self.tables
    }

    /// How many levels stand in the session's transaction, at most 7; 0 outside one.
    pub fn levels(&self, session: Session) -> u8
        ensures levels { result ≡ levels_in session.0 self.now.sessions }
        ensures few { result ≤ 7 }
    {
        match self.sessions.transaction(session) {
            Some(transaction) => transaction.levels,
            None => 0,
        }
    }

    /// The session as a reader: outside a transaction it sees what is committed, in one what was when it began, and in both
    /// its own changes.
    pub fn reader(&self, session: Session) -> Reader
        ensures { result ≡ reader_in session.0 self.now.sessions }
    {
        self.sessions.reader(session)
    }

    /// Whether the log takes no entry more that begins or changes something.
    pub fn is_full(&self) -> bool
        ensures { result ≡ nat_le log_limit self.now.number }
    {
        self.number >= LOG_LIMIT
    }

    /// Whether the session is outside a transaction.
    pub fn is_outside(&self, session: Session) -> bool
        ensures { result ≡ (levels_in session.0 self.now.sessions == 0) }
    {
        self.levels(session) == 0
    }
}
