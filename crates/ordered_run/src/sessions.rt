//! Sessions by label.

ghost use Rattle.std.specs.Prelude.{◌≡◌, ◌≤◌, length, IfOk, if◌then◌else◌};
ghost use Rattle.std.specs.Borrow.{sem};
ghost use Rattle.ordered_run.specs.Sessions.{last_label, session_at, HasPlace, AreFresh, with_last};
ghost use Rattle.ordered_run.specs.Lending.{LendsLocal};

use jet_base::{OutOfMemory, Session};
use session_local::Local;
use std::alloc::Global;
use std::marker::Model;

/// How many places there are: for the labels 1 to 99, and for 0, which no session has.
const PLACES: u32 = 100;

/// A session in a run.
#[derive(Drop)]
pub struct RunSession {
    /// Its own state.
    pub local: Local,
    /// The number of log entries after its last call that looked at the shared state.
    pub last: u64,
}

/// The sessions of a run.
///
/// Labels are small numbers, 1 to 99 in a script, so a session is found by its label at once. Contracts see a list whose
/// item `n` is the session of label `n`.
#[derive(Drop)]
pub struct RunSessions {
    sessions: Vec<RunSession>,
}

impl Model for RunSessions {
    ghost use Rattle.std.specs.Prelude.{List};
    ghost use Rattle.ordered_run.specs.declared.sessions.RunSession.{RunSession};

    ghost Value = { List RunSession };

    ghost view = { λ s. s.sessions.items };
}

impl RunSessions {
    /// A place for each session. None made a call.
    pub fn new(alloc: Global) -> Result<RunSessions, OutOfMemory>
        ensures places { IfOk result (λ made. HasPlace made last_label) }
        ensures fresh { IfOk result AreFresh }
    {
        let mut sessions = Vec::with_capacity(alloc, PLACES as usize)?;
        for label in 0..PLACES {
            sessions.push(RunSession {
                local: Local::new(Session(label)),
                last: 0,
            })?;
        }
        Ok(RunSessions { sessions })
    }

    /// The bytes of a session's reply buffer: 1,048,576 at most, and none of a session that was not begun.
    pub fn reply(&self, session: Session) -> &[u8]
        ensures bytes { result.now ≡ (session_at self.now session.0).local.reply }
        ensures count { length (session_at self.now session.0).local.reply ≤ (if (session_at self.now session.0).local.state.begun then 1048576 else 0) }
    {
        match self.sessions.get(session.0 as usize) {
            Some(found) => found.local.reply(),
            None => &[],
        }
    }

    /// A session's own state, to be written.
    pub fn local_mut(&mut self, session: Session) -> &mut Local
        requires { HasPlace self.old session.0 }
        ensures* writes_back { sem 𝓛 (LendsLocal self.entry session.0 result) }
        ensures value { result.now ≡ (session_at self.old session.0).local }
    {
        let found = &mut self.sessions[session.0 as usize];
        &mut found.local
    }

    /// The number after a session's last call that looked at the shared state, 0 where there was none.
    pub fn last(&self, session: Session) -> u64
        ensures { result ≡ (session_at self.now session.0).last }
    {
        match self.sessions.get(session.0 as usize) {
            Some(found) => found.last,
            None => 0,
        }
    }

    /// Sets that number.
    pub fn set_last(&mut self, session: Session, last: u64)
        requires { HasPlace self.old session.0 }
        ensures { self.new ≡ with_last self.old session.0 last }
    {
        self.sessions[session.0 as usize].last = last;
    }
}
