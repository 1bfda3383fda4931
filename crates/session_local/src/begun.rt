//! What a session holds from its begin to its end.

ghost use Rattle.std.specs.Prelude.{◌≡◌, ◌≤◌, ◌<◌, ◌==◌, ◌||◌, ◌++◌, [], ◌∷◌, true, Option, Some, None, IfSome, IsTrue, MatchOption, length, nat_le, find, filter, map, not, is_some, option_map, remove, vec_len, vec_capacity, if◌then◌else◌};
ghost use Rattle.session_local.specs.Answer.{Bytes, answered_by, shown_by};
ghost use Rattle.session_local.specs.declared.reply.Value.TheVariants as value;
ghost use Rattle.session_local.specs.Local.{unprepared};
ghost use Rattle.session_local.specs.Finishing.{temps_with, with_update_at};
ghost use Rattle.session_local.specs.Holding.{position_of, begun_with_cursors};
ghost use Rattle.session_local.specs.Preparing.{update_of, FitsCursor};
ghost use Rattle.session_local.specs.SessionSide.{label_of, are_distinct};
ghost use Rattle.session_local.specs.Showing.{names_within, value_answered};

use crate::buffers::{Buffers, MOST_CURSORS};
use crate::open_cursor::OpenCursor;
use crate::prepared::Prepared;
use crate::reply::{Reply, Value};
use crate::reply_buffer::ReplyBuffer;
use crate::retrieved_value::RetrievedValue;
use crate::temps::Temps;
use jet_base::CursorId;
use std::marker::Model;
use temp_table::TempTable;

/// The cursors, the temporary tables and the reply buffer of a session that was begun.
#[derive(Debug, Drop)]
pub(crate) struct Begun {
    pub(crate) cursors: Vec<OpenCursor>,
    pub(crate) temps: Temps,
    pub(crate) reply: ReplyBuffer,
}

impl Model for Begun {
    ghost use Rattle.session_local.specs.SessionSide.{HeldState};

    ghost Value = { HeldState };

    ghost use Rattle.session_local.specs.Holding.{held, IsHeld};

    ghost view = { held };

    ghost invariant = { IsHeld };
}

impl Begun {
    /// A session that has just begun.
    pub(crate) fn new(buffers: Buffers) -> Begun
        ensures { result ≡ record { cursors = []; temps = []; reply = buffers } }
    {
        let Buffers {
            cursors,
            temps,
            reply,
        } = buffers;
        Begun {
            cursors,
            temps,
            reply,
        }
    }

    /// The bytes of the reply buffer.
    pub(crate) fn reply(&self) -> &[u8]
        ensures bytes { result.now ≡ self.now.reply }
        ensures short { length self.now.reply ≤ 1048576 }
    {
        self.reply.as_bytes()
    }

    /// The cursors, in the order in which they were opened.
    pub(crate) fn cursors(&self) -> &[OpenCursor]
        ensures cursors { result.now ≡ self.now.cursors }
        ensures distinct { are_distinct (map label_of self.now.cursors) ≡ true }
    {
        self.cursors.as_slice()
    }

    /// The place of the cursor with this label.
    pub(crate) fn position(&self, label: CursorId) -> Option<usize>
        ensures { result ≡ position_of label.0 self.now.cursors }
    {
        self.cursors
            .iter()
            .position(|cursor| cursor.label().0 == label.0)
    }

    /// The cursor with this label.
    pub(crate) fn cursor(&self, label: CursorId) -> Option<&OpenCursor>
        ensures { MatchOption result (find (λ c. c.label == label.0) self.now.cursors ≡ None) (λ found. find (λ c. c.label == label.0) self.now.cursors ≡ Some found.now) }
    {
        match self.position(label) {
            Some(at) => Some(&self.cursors[at]),
            None => None,
        }
    }

    /// Whether a cursor with this label may be opened: none has it, and 16 are not open yet.
    pub(crate) fn has_room_for(&self, label: CursorId) -> bool
        ensures { result ≡ not (is_some (find (λ c. c.label == label.0) self.now.cursors) || nat_le 16 (length self.now.cursors)) }
    {
        match self.position(label) {
            Some(_) => false,
            None => self.cursors.len() < MOST_CURSORS,
        }
    }

    /// Puts a cursor behind the others. There is room for it.
    pub(crate) fn push(&mut self, cursor: OpenCursor)
        requires free { find (λ c. c.label == cursor.label) self.old.cursors ≡ None }
        requires few { length self.old.cursors < 16 }
        ensures { self.new ≡ record self.old { cursors = self.old.cursors ++ cursor ∷ [] } }
    {
        match self.cursors.push(cursor) {
            Ok(()) => {}
            Err(_) => unreachable!(),
        }
    }

    /// Lets the cursor with this label go.
    pub(crate) fn remove(&mut self, label: CursorId)
        ensures reply { self.new.reply ≡ self.old.reply }
        ensures temps { self.new.temps ≡ self.old.temps }
        ensures cursors { self.new.cursors ≡ filter (λ c. not (c.label == label.0)) self.old.cursors }
    {
        if let Some(at) = self.position(label) {
            take_out(&mut self.cursors, at);
        }
    }

    /// Opens a temporary table that was filled. Nothing changes where the label is taken and where four are open.
    pub(crate) fn open_filled(&mut self, label: CursorId, table: TempTable)
        ensures { self.new ≡ record self.old { temps = temps_with self.old.temps label table } }
    {
        self.temps.add(label, table);
    }

    /// Puts this prepared update on the cursor with this label, in the place of the one that there was. It has the
    /// columns of the cursor's table.
    pub(crate) fn prepare(&mut self, label: CursorId, prepared: Option<Prepared>)
        requires { FitsCursor (find (λ c. c.label == label.0) self.old.cursors) prepared }
        ensures reply { self.new.reply ≡ self.old.reply }
        ensures temps { self.new.temps ≡ self.old.temps }
        ensures cursors { self.new.cursors ≡ (with_update_at (begun_with_cursors self.old.cursors) label.0 (option_map update_of prepared)).cursors }
    {
        if let Some(at) = self.position(label) {
            let cursor = &mut self.cursors[at];
            cursor.prepare(prepared);
        }
    }

    /// Lets every prepared update go.
    pub(crate) fn drop_prepared(&mut self)
        ensures reply { self.new.reply ≡ self.old.reply }
        ensures temps { self.new.temps ≡ self.old.temps }
        ensures cursors { self.new.cursors ≡ map unprepared self.old.cursors }
    {
        drop_each(&mut self.cursors);
    }

    /// Writes these bytes to the front of the reply buffer: the value that shows them, as a front of one of so many.
    pub(crate) fn show(&mut self, front: &[u8], whole: u64) -> Value
        requires { length front.now ≤ 1048576 }
        ensures shown { shown_by result self.new.reply ≡ Bytes front.now whole }
        ensures named { IsTrue (names_within result (length self.new.reply)) }
        ensures value { result ≡ value.Bytes (length front.now) whole }
        ensures cursors { self.new.cursors ≡ self.old.cursors }
        ensures temps { self.new.temps ≡ self.old.temps }
    {
        self.reply.show(front, whole)
    }

    /// Reads the first bytes of a value, up to the most that was asked for, to the front of the reply buffer.
    pub(crate) fn show_value<V: RetrievedValue>(&mut self, value: &V, most: u32) -> Reply
        requires { IfSome (V.bytes value.now) (λ bytes. length bytes ≤ 1048576) }
        ensures shown { answered_by result self.new.reply ≡ value_answered most (V.bytes value.now) }
        ensures named { IsTrue (names_within result.value (length self.new.reply)) }
        ensures cursors { self.new.cursors ≡ self.old.cursors }
        ensures temps { self.new.temps ≡ self.old.temps }
    {
        self.reply.show_value(value, most)
    }
}

// Lets the prepared update of each cursor go.
fn drop_each(cursors: &mut [OpenCursor])
    ensures { cursors.new ≡ map unprepared cursors.old }
{
    for cursor in cursors.iter_mut() {
        cursor.prepare(None);
    }
}

// Takes the cursor at this place out.
fn take_out(cursors: &mut Vec<OpenCursor>, at: usize)
    requires { at < vec_len cursors.old }
    ensures items { cursors.new.items ≡ remove cursors.old.items at }
    ensures len { vec_len cursors.new ≤ vec_len cursors.old }
    ensures capacity { vec_capacity cursors.new ≡ vec_capacity cursors.old }
{
    let _ = cursors.remove(at);
}
