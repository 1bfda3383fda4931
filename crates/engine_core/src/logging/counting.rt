//! What is to end.

ghost use Rattle.std.specs.Prelude.{◌≡◌, ◌<◌, ◌≤◌, ◌+◌, ◌-◌, ◌^◌, [], true};
ghost use Rattle.loggable_steps.specs.Loggable.{is_label, made_by};
ghost use Rattle.engine_core.specs.Ends.{CountsEnds, IsCountedAnew, count_of, open_after, open_count, session_bytes};

use crate::logging::writing::{PLAIN_BYTES, TABLE_BYTES, made_by};
use engine_parts::Engine;
use index_derive::{EntryKind, Step};
use jet_base::Session;
use std::marker::Model;

/// One more than the greatest label of a session.
const LABELS: usize = 100;

/// The bytes of the entries that end all that is begun, and how many cursors each session has open, by its label of 1 to 99.
#[derive(Drop)]
pub(crate) struct Ends {
    bytes: usize,
    cursors: [usize; LABELS],
}

impl Model for Ends {
    ghost use Rattle.engine_core.specs.Ends.{EndsState};

    ghost Value = { EndsState };

    ghost view = { λ a. record { bytes = a.bytes; cursors = a.cursors } };
}

impl Ends {
    /// Nothing is begun.
    pub(crate) fn none() -> Ends
        ensures { CountsEnds [] result }
    {
        Ends {
            bytes: 0,
            cursors: [0; LABELS],
        }
    }

    /// The bytes of all ends.
    pub(crate) fn bytes(&self) -> usize
        ensures { result ≡ self.now.bytes }
    {
        self.bytes
    }

    /// How many cursors a session has open.
    pub(crate) fn cursors(&self, session: Session) -> usize
        requires { is_label session.0 ≡ true }
        ensures { result ≡ count_of self.now session.0 }
    {
        self.cursors[session.0 as usize]
    }

    /// All ends have so many bytes, and a session has so many cursors open.
    pub(crate) fn put(&mut self, bytes: usize, session: Session, cursors: usize)
        requires { is_label session.0 ≡ true }
        ensures { IsCountedAnew session.0 cursors bytes self.old self.new }
    {
        self.bytes = bytes;
        self.cursors[session.0 as usize] = cursors;
    }
}

/// The bytes of the entries that end what the session of a step has begun.
pub(crate) fn own_bytes(ends: &Ends, engine: &Engine, step: &Step) -> usize
    requires label { is_label (made_by step.now).session.0 ≡ true }
    requires few { count_of ends.now (made_by step.now).session.0 < 2 ^ 40 }
    requires open { count_of ends.now (made_by step.now).session.0 ≡ open_count (made_by step.now).session.0 engine.now.sessions }
    ensures { result ≡ session_bytes (made_by step.now).session.0 engine.now.sessions }
{
    let made = made_by(step);
    session_bytes(engine, made.session, ends.cursors(made.session))
}

/// The bytes of the entries that end what a session has begun. It has so many cursors open.
fn session_bytes(engine: &Engine, session: Session, cursors: usize) -> usize
    requires few { cursors < 2 ^ 41 }
    requires open { cursors ≡ open_count session.0 engine.now.sessions }
    ensures value { result ≡ session_bytes session.0 engine.now.sessions }
    ensures small { result < 2 ^ 46 }
{
    if engine.sessions().has(session) {
        PLAIN_BYTES + TABLE_BYTES * cursors + PLAIN_BYTES * engine.levels(session) as usize
    } else {
        0
    }
}

/// How many cursors a session has open after an entry of its own.
fn open_after(kind: &EntryKind, cursors: usize) -> usize
    requires { cursors < 2 ^ 40 }
    ensures { result ≡ open_after kind.now cursors }
{
    match kind {
        EntryKind::Open(_) => cursors + 1,
        EntryKind::Shut(_) => cursors.saturating_sub(1),
        EntryKind::Leave => 0,
        _ => cursors,
    }
}

/// Counts the ends anew once a session has made a step. Before, so many bytes of them were its own.
pub(crate) fn count_anew(ends: &mut Ends, engine: &Engine, step: &Step, own: usize)
    requires label { is_label (made_by step.now).session.0 ≡ true }
    requires few { ends.old.bytes < 2 ^ 40 }
    requires few_cursors { count_of ends.old (made_by step.now).session.0 < 2 ^ 40 }
    requires open { open_after (made_by step.now).kind (count_of ends.old (made_by step.now).session.0) ≡ open_count (made_by step.now).session.0 engine.now.sessions }
    requires own { own ≤ ends.old.bytes + session_bytes (made_by step.now).session.0 engine.now.sessions }
    ensures { IsCountedAnew (made_by step.now).session.0 (open_after (made_by step.now).kind (count_of ends.old (made_by step.now).session.0)) ((ends.old.bytes + session_bytes (made_by step.now).session.0 engine.now.sessions) - own) ends.old ends.new }
{
    let made = made_by(step);
    let cursors = open_after(&made.kind, ends.cursors(made.session));
    let left = session_bytes(engine, made.session, cursors);
    ends.put(ends.bytes() + left - own, made.session, cursors);
}
