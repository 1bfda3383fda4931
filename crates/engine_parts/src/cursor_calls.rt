//! Cursors and navigation.

ghost use Rattle.std.specs.Prelude.{◌≡◌, true, false, None, Some, length, IfOk, IfSome, IsSome, IsTrue};
ghost use Rattle.session_local.specs.declared.reply.Value.TheVariants.{Nothing};
ghost use Rattle.session_local.specs.declared.request.Request.{Request};
ghost use Rattle.session_local.specs.declared.request.Request.TheVariants as call;
ghost use Rattle.session_local.specs.LocalCalls.{is_answered_locally};
ghost use Rattle.session_local.specs.Answer.{Bytes, answered_by};
ghost use Rattle.session_local.specs.Local.{cursor_labelled};
ghost use Rattle.session_local.specs.Showing.{names_within};
ghost use Rattle.version_cleanup.specs.Cleaning.{reader_in};
ghost use Rattle.engine_parts.specs.Deciding.{Decides, HoldsSession, IsDecision, is_navigation, only_reply};
ghost use Rattle.engine_parts.specs.Parts.{tables_of};
ghost use Rattle.engine_parts.specs.Reading.{CurrentEntry, records_for};

use crate::answers::{done, one, refusal, refused};
use crate::engine::{Engine, LOG_LIMIT};
use crate::laws::a_session_reads_its_view;
use crate::view::EngineView;
use index_derive::{EntryKind, Place, Schema, Step};
use jet_base::{CursorId, Jet, Name, OutOfMemory, Session, TableId};
use key_normal::Key;
use laws_engine::{the_step_of_a_close_is_lawful, the_step_of_an_open_is_lawful};
use session_local::{Decision, Local, MOST_CURSORS, OpenCursor, Reply, Request, Value};

// A cursor is opened on a table of this schema.
fn opened(session: Session, table: TableId, schema: Schema) -> Decision
    ensures { result ≡ record { step = Some (Step.One (record { session = session; kind = EntryKind.Open table })); reply = record { jet = Jet.Success; value = Nothing }; table = Some (table, schema); copied = None; temp = None; buffers = None; flush = false } }
{
    let mut decision = done(one(session, EntryKind::Open(table)), false);
    decision.table = Some((table, schema));
    decision
}

impl Engine {
    /// OpenTable with a label that is free.
    pub fn open_cursor(
        &self,
        local: &Local,
        cursor: CursorId,
        table: &Name,
    ) -> Result<Decision, OutOfMemory>
        requires beside { HoldsSession self.now local.now }
        requires shared { is_answered_locally local.now.state (call.OpenTable cursor table.now) ≡ false }
        ensures answer { IfOk result (λ decision. Decides self.now local.now (call.OpenTable cursor table.now) local.now decision) }
        ensures decided { IfOk result (λ decision. IsDecision self.now local.now (call.OpenTable cursor table.now) local.now decision) }
    {
        the_step_of_an_open_is_lawful();
        if local.cursors().len() >= MOST_CURSORS {
            return Ok(refused(Jet::OutOfCursors));
        }
        let Some(found) = self.tables.lookup(table.as_bytes()) else {
            return Ok(refused(Jet::ObjectNotFound));
        };
        if self.number >= LOG_LIMIT {
            return Ok(refused(Jet::LogSequenceEnd));
        }
        match found.schema().copy() {
            Ok(schema) => Ok(opened(local.session(), found.id(), schema)),
            Err(fault) => Err(fault),
        }
    }

    /// CloseTable: the label is free again. It is made at any number of the log.
    pub fn close_cursor(&self, local: &Local, cursor: CursorId) -> Decision
        requires beside { HoldsSession self.now local.now }
        requires shared { is_answered_locally local.now.state (call.CloseTable cursor) ≡ false }
        ensures answer { Decides self.now local.now (call.CloseTable cursor) local.now result }
        ensures decided { IsDecision self.now local.now (call.CloseTable cursor) local.now result }
    {
        the_step_of_a_close_is_lawful();
        let Some(found) = local.cursor(cursor) else {
            unreachable!()
        };
        let table = found.cursor().table();
        done(one(local.session(), EntryKind::Shut(table)), false)
    }

    // The tables as the session of this state sees them.
    pub(crate) fn view(&self, local: &Local) -> EngineView<'_>
        ensures tables { result.tables.now ≡ tables_of self.now }
        ensures reader { result.reader ≡ reader_in local.now.session self.now.sessions }
    {
        EngineView::new(&self.tables, self.sessions.reader(local.session()))
    }

    /// A call that moves a cursor: the cursor has moved when it is decided.
    pub fn navigate(&self, local: &mut Local, cursor: CursorId, request: &Request) -> Reply
        requires beside { HoldsSession self.now local.old }
        requires navigation { is_navigation cursor.0 request.now ≡ true }
        requires shared { is_answered_locally local.old.state request.now ≡ false }
        ensures answer { Decides self.now local.old request.now local.new (only_reply result) }
        ensures decided { IsDecision self.now local.old request.now local.new (only_reply result) }
        ensures session { local.new.session ≡ local.old.session }
    {
        a_session_reads_its_view();
        let view = self.view(local);
        match local.navigate(cursor, &view, request) {
            Some(jet) => refusal(jet),
            None => refusal(Jet::InvalidTableId),
        }
    }

    /// IndexRecordCount: how many entries are not below the cursor's, within an upper limit; at most so many, where a most
    /// is given.
    pub fn index_record_count(&self, local: &Local, cursor: CursorId, most: Option<u32>) -> Reply
        requires beside { HoldsSession self.now local.now }
        requires shared { is_answered_locally local.now.state (call.IndexRecordCount cursor most) ≡ false }
        ensures answer { Decides self.now local.now (call.IndexRecordCount cursor most) local.now (only_reply result) }
        ensures decided { IsDecision self.now local.now (call.IndexRecordCount cursor most) local.now (only_reply result) }
    {
        a_session_reads_its_view();
        let Some(found) = local.cursor(cursor) else {
            unreachable!()
        };
        let view = self.view(local);
        self.tables.seen_entries_are_in_order();
        match found.cursor().count(&view, most) {
            Ok(counted) => Reply {
                jet: Jet::Success,
                value: Value::Count(counted.number),
            },
            Err(jet) => refusal(jet),
        }
    }

    /// RetrieveKey: the key of the entry at the cursor.
    pub fn retrieve_key(&self, local: &mut Local, cursor: CursorId) -> Reply
        requires beside { HoldsSession self.now local.old }
        requires shared { is_answered_locally local.old.state (call.RetrieveKey cursor) ≡ false }
        ensures answer { Decides self.now local.old (call.RetrieveKey cursor) local.new (only_reply result) }
        ensures decided { IsDecision self.now local.old (call.RetrieveKey cursor) local.new (only_reply result) }
        ensures session { local.new.session ≡ local.old.session }
    {
        a_session_reads_its_view();
        match self.current_entry(local, cursor) {
            Ok((key, _)) => show_key(local, &key),
            Err(jet) => refusal(jet),
        }
    }

    /// GetBookmark: the bookmark of the record at the cursor.
    pub fn get_bookmark(&self, local: &mut Local, cursor: CursorId) -> Reply
        requires beside { HoldsSession self.now local.old }
        requires shared { is_answered_locally local.old.state (call.GetBookmark cursor) ≡ false }
        ensures answer { Decides self.now local.old (call.GetBookmark cursor) local.new (only_reply result) }
        ensures decided { IsDecision self.now local.old (call.GetBookmark cursor) local.new (only_reply result) }
        ensures session { local.new.session ≡ local.old.session }
    {
        a_session_reads_its_view();
        match self.current_entry(local, cursor) {
            Ok((_, bookmark)) => show_key(local, &bookmark),
            Err(jet) => refusal(jet),
        }
    }

    // The key and the bookmark of the entry at the cursor, whose record the session sees.
    fn current_entry(&self, local: &Local, cursor: CursorId) -> Result<(Key, Key), Jet>
        requires { IsSome (cursor_labelled local.now.state cursor.0) }
        ensures { IfSome (cursor_labelled local.now.state cursor.0) (λ c. CurrentEntry (records_for self.now local.now.session c.cursor.table) c.cursor.place result) }
    {
        let Some(found) = local.cursor(cursor) else {
            unreachable!()
        };
        match found.cursor().place() {
            Place::On(key, bookmark) => {
                let reader = self.sessions.reader(local.session());
                let table = found.cursor().table();
                match self.tables.look_up(table, bookmark.as_bytes(), reader) {
                    Some(_) => Ok((key.copy(), bookmark.copy())),
                    None => Err(Jet::RecordDeleted),
                }
            }
            _ => Err(Jet::NoCurrentRecord),
        }
    }
}

// Success, and the whole key.
fn show_key(local: &mut Local, key: &Key) -> Reply
    requires { IsTrue local.old.state.begun }
    ensures shown { answered_by result local.new.reply ≡ record { jet = Jet.Success; shown = Bytes key.now (length key.now) } }
    ensures named { IsTrue (names_within result.value (length local.new.reply)) }
    ensures state { local.new.state ≡ local.old.state }
    ensures session { local.new.session ≡ local.old.session }
{
    let bytes = key.as_bytes();
    let value = local.show(bytes, bytes.len() as u64);
    Reply {
        jet: Jet::Success,
        value,
    }
}
