//! The calls that a session answers by itself.

ghost use Rattle.std.specs.Prelude.{◌≡◌, ◌==◌, ◌≤◌, true, Some, MatchOption, IfErr, IfOk, IsTrue, find, is_some, length};
ghost use Rattle.session_local.specs.Answer.{Nothing, answered_by};
ghost use Rattle.session_local.specs.BuiltCalls.{is_built_call};
ghost use Rattle.session_local.specs.Changing.{changed_by, change_at, ChangesTo, ChangesBy};
ghost use Rattle.session_local.specs.Holding.{begun_with_cursors};
ghost use Rattle.session_local.specs.LocalCalls.{cursor_of, is_answered_locally, plain, reply_if_taken, reply_not_begun, takes_memory, IsAnswer, StepsBy};
ghost use Rattle.session_local.specs.Outcome.{CallInputs, on_cursor};
ghost use Rattle.session_local.specs.RecordCalls.{retrieve_copy};
ghost use Rattle.session_local.specs.Showing.{answered_with, bytes_answered, names_within, HasRoom, NamesWithin};
ghost use Rattle.session_local.specs.WellFormed.{IsWellFormed, is_well_formed_cursor};

use crate::begun::Begun;
use crate::calls::{cursor_of, is_always_local};
use crate::local::Local;
use crate::open_cursor::OpenCursor;
use crate::reply::{Reply, Value};
use crate::reply_buffer::ReplyBuffer;
use crate::request::Request;
use crate::showing::Shown;
use jet_base::{CursorId, Jet, Name, OutOfMemory, Prepare};
use std::alloc::Global;

/// Answers a call that the session answers by itself, from its own state alone. For any other call it is None, and
/// nothing changes; nor does anything where there is no memory, which SetColumn, PrepareUpdate `insert`, TempOpen and TempPut
/// alone take.
///
/// A session that was not begun refuses every call but BeginSession. One that was refuses BeginSession, a label that is taken,
/// and that of a cursor that it does not have, unless it is one of an IntersectIndexes. It answers MakeKey, RemoveIndexRange,
/// SetColumn, RetrieveColumn from the copy buffer, PrepareUpdate `insert` and `cancel`, and the calls on temporary tables.
pub fn local_step(local: &mut Local, request: &Request) -> Result<Option<Reply>, OutOfMemory>
    requires well_formed { IsWellFormed local.old.state }
    requires built { is_built_call request.now ≡ true }
    ensures by_itself { IfOk result (λ made. is_some made ≡ is_answered_locally local.old.state request.now) }
    ensures answer { IfOk result (λ made. MatchOption made (local.new ≡ local.old) (λ reply. IsAnswer local.old.state request.now (answered_by reply local.new.reply) local.new.state)) }
    ensures session { local.new.session ≡ local.old.session }
    ensures unchanged { IfErr result (λ _. local.new ≡ local.old) }
    ensures memory { IfErr result (λ _. takes_memory request.now ≡ true) }
    ensures kept { IsWellFormed local.new.state }
    ensures named { NamesWithin result (length local.new.reply) }
{
    let Some(begun) = &mut local.begun else {
        return Ok(step_not_begun(request));
    };
    begun.local_step(request)
}

// What a session that was not begun answers.
fn step_not_begun(request: &Request) -> Option<Reply>
    ensures { result ≡ reply_not_begun request.now }
{
    match request {
        Request::BeginSession => None,
        _ => Some(without_value(Jet::InvalidSesid)),
    }
}

/// A reply without a value.
pub(crate) fn without_value(jet: Jet) -> Reply
    ensures { result ≡ plain jet }
{
    Reply {
        jet,
        value: Value::Nothing,
    }
}

impl Begun {
    fn local_step(&mut self, request: &Request) -> Result<Option<Reply>, OutOfMemory>
        requires well_formed { IsWellFormed (begun_with_cursors self.old.cursors) }
        requires built { is_built_call request.now ≡ true }
        ensures step { StepsBy self.old request.now result self.new }
        ensures named { NamesWithin result (length self.new.reply) }
        ensures memory { IfErr result (λ _. takes_memory request.now ≡ true) }
    {
        match request {
            Request::BeginSession => Ok(Some(without_value(Jet::SessionInUse))),
            Request::OpenTable { cursor, .. } => match self.position(*cursor) {
                Some(_) => Ok(Some(without_value(Jet::InvalidTableId))),
                None => Ok(None),
            },
            Request::IntersectIndexes { temp, .. } => Ok(self.refusal_if_taken(*temp)),
            _ => match cursor_of(request) {
                Some(label) => self.step_at(label, request),
                None => self.temp_step(request),
            },
        }
    }

    // The refusal of an IntersectIndexes whose label is taken.
    fn refusal_if_taken(&self, temp: CursorId) -> Option<Reply>
        ensures { result ≡ reply_if_taken self.now.temps temp }
    {
        if self.temps.has(temp) {
            Some(without_value(Jet::InvalidTableId))
        } else {
            None
        }
    }

    // A call that is made at the cursor with this label.
    fn step_at(&mut self, label: CursorId, request: &Request) -> Result<Option<Reply>, OutOfMemory>
        requires well_formed { IsWellFormed (begun_with_cursors self.old.cursors) }
        requires label { cursor_of request.now ≡ Some label.0 }
        ensures step { StepsBy self.old request.now result self.new }
        ensures named { NamesWithin result (length self.new.reply) }
        ensures memory { IfErr result (λ _. takes_memory request.now ≡ true) }
    {
        if !is_always_local(request) {
            return match self.position(label) {
                Some(_) => Ok(None),
                None => Ok(Some(without_value(Jet::InvalidTableId))),
            };
        }
        if let Request::RetrieveColumn {
            column,
            sequence,
            most,
            ..
        } = request
        {
            return Ok(Some(self.show_copy(label, column, *sequence, *most)));
        }
        let jet = self.change(label, request)?;
        Ok(Some(without_value(jet)))
    }

    // Shows a value of the prepared update of the cursor with this label.
    fn show_copy(&mut self, label: CursorId, column: &Name, sequence: u32, most: u32) -> Reply
        requires { IsWellFormed (begun_with_cursors self.old.cursors) }
        ensures shown { (asked : CallInputs) → answered_by result self.new.reply ≡ (on_cursor asked (find (λ c. c.label == label.0) self.old.cursors) (λ c. retrieve_copy asked c column.now sequence most)).answered }
        ensures cursors { self.new.cursors ≡ self.old.cursors }
        ensures temps { self.new.temps ≡ self.old.temps }
        ensures named { IsTrue (names_within result.value (length self.new.reply)) }
    {
        let Some(at) = self.position(label) else {
            return without_value(Jet::InvalidTableId);
        };
        match self.cursors[at].copied_value(column, sequence) {
            Ok(value) => show_value(&mut self.reply, value, most),
            Err(jet) => without_value(jet),
        }
    }

    // Makes a call that changes the cursor with this label. Where there is no memory nothing changes.
    fn change(&mut self, label: CursorId, request: &Request) -> Result<Jet, OutOfMemory>
        requires { IsWellFormed (begun_with_cursors self.old.cursors) }
        ensures memory { IfErr result (λ _. takes_memory request.now ≡ true) }
        ensures change { ChangesBy self.old (change_at (find (λ c. c.label == label.0) self.old.cursors) request.now) result self.new }
    {
        let Some(at) = self.position(label) else {
            return Ok(Jet::InvalidTableId);
        };
        let alloc = *self.cursors.allocator();
        let cursor = &mut self.cursors[at];
        cursor.change(alloc, request)
    }
}

impl OpenCursor {
    // Makes a call that changes the cursor. Any other call leaves it as it is.
    fn change(&mut self, alloc: Global, request: &Request) -> Result<Jet, OutOfMemory>
        requires { IsTrue (is_well_formed_cursor self.old) }
        ensures change { ChangesTo self.old (changed_by self.old request.now) result self.new }
        ensures memory { IfErr result (λ _. takes_memory request.now ≡ true) }
    {
        match request {
            Request::MakeKey { fresh, value, .. } => Ok(self.make_key(*fresh, value)),
            Request::RemoveIndexRange { .. } => Ok(self.remove_range()),
            Request::PrepareUpdate { how, .. } => self.prepare_by(alloc, *how),
            Request::SetColumn {
                column,
                sequence,
                value,
                ..
            } => self.set_column(column, *sequence, value),
            _ => Ok(Jet::Success),
        }
    }
}

/// Writes what is shown of the value to the front of the reply buffer.
pub(crate) fn show_value(buffer: &mut ReplyBuffer, value: Shown<'_>, most: u32) -> Reply
    requires { HasRoom value }
    ensures answer { answered_by result buffer.new ≡ answered_with most value.entry }
    ensures named { IsTrue (names_within result.value (length buffer.new)) }
{
    match value {
        Shown::Number(number) => Reply {
            jet: Jet::Success,
            value: Value::Number(number),
        },
        Shown::Bytes(bytes) => show_bytes(buffer, bytes, most as usize),
    }
}

// Writes the bytes to the front of the reply buffer, up to the most that was asked for.
fn show_bytes(buffer: &mut ReplyBuffer, bytes: &[u8], most: usize) -> Reply
    requires { length bytes.now ≤ 1048576 }
    ensures answer { answered_by result buffer.new ≡ bytes_answered most bytes.now }
    ensures named { IsTrue (names_within result.value (length buffer.new)) }
{
    let (front, _) = bytes.split_at(most.min(bytes.len()));
    let value = buffer.show(front, bytes.len() as u64);
    let jet = if most < bytes.len() {
        Jet::BufferTruncated
    } else {
        Jet::Success
    };
    Reply { jet, value }
}
