//! RetrieveColumn.

ghost use Rattle.std.specs.Prelude.{◌≡◌, ℕ, Some, None, IfOk, IsTrue, false, true, length};
ghost use Rattle.jet_base.specs.ColumnType.{is_number_type};
ghost use Rattle.column_set.specs.RecordValues.{value_fits, values_of};
ghost use Rattle.cursor_nav.specs.Places.{is_on};
ghost use Rattle.index_derive.specs.Entries.{is_escrow_column};
ghost use Rattle.session_local.specs.declared.request.Request.TheVariants as call;
ghost use Rattle.session_local.specs.Answer.{answered_by};
ghost use Rattle.session_local.specs.LocalCalls.{is_answered_locally};
ghost use Rattle.session_local.specs.Outcome.{CallInputs};
ghost use Rattle.session_local.specs.RecordCalls.{column_shown, value_shown};
ghost use Rattle.session_local.specs.Showing.{names_within};
ghost use Rattle.engine_parts.specs.Deciding.{Decides, HoldsSession, IsDecision, only_reply};
ghost use Rattle.laws_versions.specs.EscrowSums.{escrow_value};
ghost use Rattle.engine_parts.specs.Reading.{IsRowAt, fields_at, shown_for};
ghost use Rattle.engine_parts.specs.Retrieving.{AreReadable, HasRoom, IsColumnOf, IsRecordAt, answered_or, answered_with, bytes_at};

use crate::answers::refusal;
use crate::engine::Engine;
use crate::laws::a_session_reads_its_view;
use crate::row_values::RowValue;
use column_set::{Column, Values, column_named};
use index_derive::Place;
use jet_base::{CursorId, Jet, Name, Session};
use record_edit::{is_number_type, number_of};
use session_local::{Local, OpenCursor, Reply, Value};
use table_trees::ShownRow;

/// A value that is shown.
pub(crate) enum Shown<'a> {
    /// A number of the data.
    Number(i64),
    /// A value of a record, of which the first bytes are shown.
    Stored(RowValue<'a>),
}

impl Engine {
    /// RetrieveColumn of the record at the cursor.
    pub fn retrieve_column(
        &self,
        local: &mut Local,
        cursor: CursorId,
        column: &Name,
        sequence: u32,
        most: u32,
    ) -> Reply
        requires beside { HoldsSession self.now local.old }
        requires shared { is_answered_locally local.old.state (call.RetrieveColumn cursor column.now sequence false most) ≡ false }
        ensures answer { Decides self.now local.old (call.RetrieveColumn cursor column.now sequence false most) local.new (only_reply result) }
        ensures decided { IsDecision self.now local.old (call.RetrieveColumn cursor column.now sequence false most) local.new (only_reply result) }
        ensures session { local.new.session ≡ local.old.session }
    {
        a_session_reads_its_view();
        let Some(found) = local.cursor(cursor) else {
            unreachable!()
        };
        let session = local.session();
        let row = match self.current_row(session, found) {
            Ok(row) => row,
            Err(jet) => return refusal(jet),
        };
        let Some(column) = column_named(&found.schema().columns, column) else {
            return refusal(Jet::ColumnNotFound);
        };
        match self.value_seen(session, found, &row, column, sequence) {
            Ok(value) => show_value(local, value, most),
            Err(jet) => refusal(jet),
        }
    }

    // The record at the cursor that the session is shown, read in place.
    fn current_row(&self, session: Session, cursor: &OpenCursor) -> Result<ShownRow<'_>, Jet>
        ensures { IsRecordAt (shown_for self.now session.0 cursor.now.cursor.table) cursor.now.cursor.place result }
    {
        match cursor.cursor().place() {
            Place::On(_, bookmark) => {
                let reader = self.sessions.reader(session);
                let table = cursor.cursor().table();
                match self.tables.look_up(table, bookmark.as_bytes(), reader) {
                    Some(row) => Ok(row),
                    None => Err(Jet::RecordDeleted),
                }
            }
            _ => Err(Jet::NoCurrentRecord),
        }
    }

    // A value of the column as the session sees it, the first being 1; for 0 the count of its values. An escrow column has one.
    fn value_seen<'a>(
        &self,
        session: Session,
        cursor: &OpenCursor,
        row: &'a ShownRow<'_>,
        column: &Column,
        sequence: u32,
    ) -> Result<Shown<'a>, Jet>
        requires on { IsTrue (is_on cursor.now.cursor.place) }
        requires row { IsRowAt self.now session.0 cursor.now row.now }
        requires column { IsColumnOf cursor.now.schema column.now }
        requires values { AreReadable column.now.kind (values_of row.now column.now.id.0) }
        ensures answer { (asked : CallInputs) (most : ℕ) → (column_shown asked sequence most (fields_at self.now session.0 cursor.now) column.now).answered ≡ answered_or most result }
        ensures room { IfOk result HasRoom }
    {
        if column.escrow && sequence == 1 {
            Ok(Shown::Number(i64::from(self.sum_at(session, cursor, row, column))))
        } else {
            value_in(row, column, sequence)
        }
    }

    // The number in an escrow column as the session sees it.
    fn sum_at(
        &self,
        session: Session,
        cursor: &OpenCursor,
        row: &ShownRow<'_>,
        column: &Column,
    ) -> i32
        requires on { IsTrue (is_on cursor.now.cursor.place) }
        requires row { IsRowAt self.now session.0 cursor.now row.now }
        requires sum { is_escrow_column cursor.now.schema column.now.id.0 ≡ true }
        ensures { result ≡ escrow_value (fields_at self.now session.0 cursor.now) column.now.id.0 }
    {
        let table = cursor.cursor().table();
        match cursor.cursor().place() {
            Place::On(_, bookmark) => {
                self.seen_sum(session, table, bookmark.as_bytes(), row, column.id)
            }
            _ => unreachable!(),
        }
    }
}

// A value of the column in the record, the first being 1; for 0 the count of its values.
fn value_in<'a>(row: &'a ShownRow<'_>, column: &Column, sequence: u32) -> Result<Shown<'a>, Jet>
    requires { AreReadable column.now.kind (values_of row.now column.now.id.0) }
    ensures answer { (asked : CallInputs) (most : ℕ) → (column_shown asked sequence most row.now column.now).answered ≡ answered_or most result }
    ensures room { IfOk result HasRoom }
{
    if sequence == 0 {
        let count = row.count(column.id) as u32;
        return Ok(Shown::Number(i64::from(count)));
    }
    value_at(row, column, sequence as usize - 1)
}

// The column's value at a place, counted from 0: a number as one.
fn value_at<'a>(row: &'a ShownRow<'_>, column: &Column, at: usize) -> Result<Shown<'a>, Jet>
    requires { AreReadable column.now.kind (values_of row.now column.now.id.0) }
    ensures answer { (asked : CallInputs) (most : ℕ) → (value_shown asked column.now most (bytes_at row.now column.now.id.0 at)).answered ≡ answered_or most result }
    ensures room { IfOk result HasRoom }
{
    if is_number_type(column.kind) {
        match row.value(column.id, at) {
            Some(value) => Ok(number_shown(column, value)),
            None => Err(Jet::ColumnNull),
        }
    } else {
        Ok(Shown::Stored(RowValue {
            row,
            column: column.id,
            at,
        }))
    }
}

// A number of the column as it is shown.
fn number_shown(column: &Column, value: &[u8]) -> Shown<'static>
    requires number { is_number_type column.now.kind ≡ true }
    requires fits { IsTrue (value_fits column.now.kind value.now) }
    ensures answer { (asked : CallInputs) (most : ℕ) → (value_shown asked column.now most (Some value.now)).answered ≡ answered_with most result }
    ensures room { HasRoom result }
{
    Shown::Number(number_of(column.kind, value))
}

// What is answered with the value, of whose bytes so many are shown.
fn show_value(local: &mut Local, value: Shown<'_>, most: u32) -> Reply
    requires begun { IsTrue local.old.state.begun }
    requires room { HasRoom value }
    ensures shown { answered_by result local.new.reply ≡ answered_with most value.entry }
    ensures named { IsTrue (names_within result.value (length local.new.reply)) }
    ensures state { local.new.state ≡ local.old.state }
    ensures session { local.new.session ≡ local.old.session }
{
    match value {
        Shown::Number(number) => Reply {
            jet: Jet::Success,
            value: Value::Number(number),
        },
        Shown::Stored(value) => local.show_value(&value, most),
    }
}
