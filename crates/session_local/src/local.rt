//! One session's own state.

ghost use Rattle.std.specs.Prelude.{◌≡◌, ◌≤◌, true, [], IfSome, IsTrue, Option, Some, None, MatchOption, option_map, length, map, if◌then◌else◌};
ghost use Rattle.session_local.specs.Answer.{Bytes, answered_by, shown_by};
ghost use Rattle.session_local.specs.declared.reply.Value.TheVariants as value;
ghost use Rattle.session_local.specs.Local.{no_session, cursor_labelled, without_cursor, without_prepared};
ghost use Rattle.session_local.specs.Finishing.{with_filled, with_opened, with_update_at};
ghost use Rattle.session_local.specs.Holding.{begun_with_cursors};
ghost use Rattle.session_local.specs.Preparing.{update_of, FitsCursor};
ghost use Rattle.session_local.specs.SessionSide.{label_of, are_distinct};
ghost use Rattle.session_local.specs.Showing.{names_within, value_answered};

use crate::begun::Begun;
use crate::buffers::Buffers;
use crate::open_cursor::OpenCursor;
use crate::prepared::Prepared;
use crate::reply::{Reply, Value};
use crate::retrieved_value::RetrievedValue;
use index_derive::Schema;
use jet_base::{CursorId, Session, TableId};
use std::marker::Model;
use temp_table::TempTable;

/// One session's own state: whether it was begun, its cursors with their prepared updates, and its reply buffer.
///
/// Contracts see the session's label, the state of the definitions, and the bytes of the reply buffer. It has room for
/// 1,048,576 of them from BeginSession to EndSession, and has as many as the replies so far may have shown. The value of a
/// reply that shows bytes lies at their front.
#[derive(Debug, Drop)]
pub struct Local {
    session: Session,
    pub(crate) begun: Option<Begun>,
}

impl Model for Local {
    ghost use Rattle.session_local.specs.SessionSide.{SessionSide};

    ghost Value = { SessionSide };

    ghost use Rattle.session_local.specs.Holding.{side};

    ghost view = { side };
}

impl Local {
    /// The state of a session that was not begun. It takes no memory.
    pub fn new(session: Session) -> Local
        ensures { result ≡ record { session = session.0; state = no_session; reply = [] } }
    {
        Local {
            session,
            begun: None,
        }
    }

    /// The session's label.
    pub fn session(&self) -> Session
        ensures { result.0 ≡ self.now.session }
    {
        self.session
    }

    /// The reply buffer: 1,048,576 bytes at most, and none before BeginSession.
    pub fn reply(&self) -> &[u8]
        ensures bytes { result.now ≡ self.now.reply }
        ensures count { length self.now.reply ≤ (if self.now.state.begun then 1048576 else 0) }
    {
        match &self.begun {
            Some(begun) => begun.reply(),
            None => &[],
        }
    }

    /// The cursors, in the order in which they were opened: 16 at most, and no two with one label.
    pub fn cursors(&self) -> &[OpenCursor]
        ensures cursors { result.now ≡ self.now.state.cursors }
        ensures distinct { are_distinct (map label_of self.now.state.cursors) ≡ true }
    {
        match &self.begun {
            Some(begun) => begun.cursors(),
            None => &[],
        }
    }

    /// How many temporary tables are open: four at most.
    pub fn open_temps(&self) -> usize
        ensures { result ≡ length self.now.state.temps }
    {
        match &self.begun {
            Some(begun) => begun.temps.len(),
            None => 0,
        }
    }

    /// The cursor with this label.
    pub fn cursor(&self, label: CursorId) -> Option<&OpenCursor>
        ensures { MatchOption result (cursor_labelled self.now.state label.0 ≡ None) (λ found. cursor_labelled self.now.state label.0 ≡ Some found.now) }
    {
        match &self.begun {
            Some(begun) => begun.cursor(label),
            None => None,
        }
    }

    /// Writes a front of a value to the front of the reply buffer: the value that shows it, with the length of the
    /// whole.
    pub fn show(&mut self, front: &[u8], whole: u64) -> Value
        requires begun { IsTrue self.old.state.begun }
        requires room { length front.now ≤ 1048576 }
        ensures shown { shown_by result self.new.reply ≡ Bytes front.now whole }
        ensures named { IsTrue (names_within result (length self.new.reply)) }
        ensures value { result ≡ value.Bytes (length front.now) whole }
        ensures state { self.new.state ≡ self.old.state }
        ensures session { self.new.session ≡ self.old.session }
    {
        match &mut self.begun {
            Some(begun) => begun.show(front, whole),
            None => Value::Nothing,
        }
    }

    /// Reads the first bytes of a value, up to the most that was asked for, to the front of the reply buffer: success or a
    /// truncated value, with the length of the whole, or that there is no such value.
    pub fn show_value<V: RetrievedValue>(&mut self, value: &V, most: u32) -> Reply
        requires begun { IsTrue self.old.state.begun }
        requires room { IfSome (V.bytes value.now) (λ bytes. length bytes ≤ 1048576) }
        ensures shown { answered_by result self.new.reply ≡ value_answered most (V.bytes value.now) }
        ensures named { IsTrue (names_within result.value (length self.new.reply)) }
        ensures state { self.new.state ≡ self.old.state }
        ensures session { self.new.session ≡ self.old.session }
    {
        match &mut self.begun {
            Some(begun) => begun.show_value(value, most),
            None => unreachable!(),
        }
    }

    /// The session begins, with its memory.
    pub(crate) fn begin(&mut self, buffers: Buffers)
        ensures { self.new ≡ record self.old { state = begun_with_cursors []; reply = buffers } }
    {
        self.begun = Some(Begun::new(buffers));
    }

    /// The session ends, and gives its memory up.
    pub(crate) fn end(&mut self)
        ensures { self.new ≡ record self.old { state = no_session; reply = [] } }
    {
        self.begun = None;
    }

    /// Opens a cursor on the table, before the first entry of its primary order. Nothing changes where the session was
    /// not begun, where the label is taken and where 16 cursors are open.
    pub(crate) fn open(&mut self, label: CursorId, table: TableId, schema: Schema)
        ensures { self.new ≡ record self.old { state = with_opened self.old.state label.0 (Some (table.0, schema)) } }
    {
        if let Some(begun) = &mut self.begun
            && begun.has_room_for(label)
        {
            begun.push(OpenCursor::new(label, table, schema));
        }
    }

    /// Opens a temporary table that was filled. Nothing changes where the session was not begun, where the label is taken and
    /// where four are open.
    pub(crate) fn open_filled(&mut self, label: CursorId, table: TempTable)
        ensures { self.new ≡ record self.old { state = with_filled self.old.state label (Some table) } }
    {
        if let Some(begun) = &mut self.begun {
            begun.open_filled(label, table);
        }
    }

    /// Closes the cursor with this label.
    pub(crate) fn close(&mut self, label: CursorId)
        ensures { self.new ≡ record self.old { state = without_cursor self.old.state label.0 } }
    {
        if let Some(begun) = &mut self.begun {
            begun.remove(label);
        }
    }

    /// Puts this prepared update on the cursor with this label, in the place of the one that there was. It has the
    /// columns of the cursor's table.
    pub(crate) fn prepare(&mut self, label: CursorId, prepared: Option<Prepared>)
        requires { FitsCursor (cursor_labelled self.old.state label.0) prepared }
        ensures { self.new ≡ record self.old { state = with_update_at self.old.state label.0 (option_map update_of prepared) } }
    {
        if let Some(begun) = &mut self.begun {
            begun.prepare(label, prepared);
        }
    }

    /// Lets every prepared update go.
    pub(crate) fn drop_prepared(&mut self)
        ensures { self.new ≡ record self.old { state = without_prepared self.old.state } }
    {
        if let Some(begun) = &mut self.begun {
            begun.drop_prepared();
        }
    }
}
