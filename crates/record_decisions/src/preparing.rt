//! PrepareUpdate `replace` and `insertcopy`, which copy the record at the cursor.

ghost use Rattle.std.specs.Prelude.{◌≡◌, ◌<◌, ◌++◌, ℕ, false, [], length, Some, None, IfOk, IfSome, OnOk, is_some, slice_index_or};
ghost use Rattle.jet_base.specs.declared.words.Prepare.TheVariants as prepare;
ghost use Rattle.column_set.specs.RecordValues.{values_of};
ghost use Rattle.column_set.specs.Refusals.{first_refusal};
ghost use Rattle.session_local.specs.declared.request.Request.TheVariants as call;
ghost use Rattle.session_local.specs.declared.reply.Value.TheVariants.{Nothing};
ghost use Rattle.session_local.specs.LocalCalls.{is_answered_locally};
ghost use Rattle.session_local.specs.Preparing.{for_of};
ghost use Rattle.session_local.specs.RecordCalls.{bookmark_at, hold_at, with_sums_at_zero};
ghost use Rattle.engine_parts.specs.Deciding.{Decides, HoldsSession, IsDecision};
ghost use Rattle.engine_parts.specs.Reading.{shown_for};
ghost use Rattle.record_decisions.specs.Preparing.{IsCopied, IsCopiedAs, IsPreparedAs, copy_in, copy_of, replace_in, replace_of, values_seen, values_with};

use crate::changing::{
    bookmark_at, change_refusal, change_step, current_refusal, has_own_replace, hold_at,
};
use crate::laws::{changes_are_refused_alike, records_are_formed};
use crate::sums::{record_seen, with_sums_at_zero};
use column_set::{Bookmark, Change, Column, Record, Values};
use engine_parts::{Engine, a_session_reads_its_view, refused};
use index_derive::Step;
use jet_base::{ColumnId, CursorId, Jet, Octets, OutOfMemory, Session};
use laws_engine::the_step_of_a_replace_is_lawful;
use record_edit::CopyBuffer;
use session_local::{Decision, Local, OpenCursor, Prepared, Purpose, Reply, Value};
use std::alloc::Global;
use table_trees::ShownRow;

/// A value that is read where it lies is given whole, or as this many of its first bytes at least.
const FIRST_BYTES: usize = 1024;

/// PrepareUpdate `replace`: the record at the cursor is locked against the writes of others, and copied.
pub fn prepare_replace(
    engine: &Engine,
    local: &Local,
    cursor: CursorId,
) -> Result<Decision, OutOfMemory>
    requires beside { HoldsSession engine.now local.now }
    requires shared { is_answered_locally local.now.state (call.PrepareUpdate cursor prepare.Replace) ≡ false }
    ensures answer { IfOk result (λ decision. Decides engine.now local.now (call.PrepareUpdate cursor prepare.Replace) local.now decision) }
    ensures decided { IfOk result (λ decision. IsDecision engine.now local.now (call.PrepareUpdate cursor prepare.Replace) local.now decision) }
{
    a_session_reads_its_view();
    changes_are_refused_alike();
    the_step_of_a_replace_is_lawful();
    records_are_formed(engine);
    let Some(found) = local.cursor(cursor) else {
        unreachable!()
    };
    let session = local.session();
    let change = hold_at(engine.alloc, found)?;
    match replace_refusal(engine, local, found, &change) {
        Some(refusal) => Ok(refused(refusal)),
        None => {
            let prepared = replace_at(engine, session, found)?;
            Ok(prepared_with(Some(change_step(session, change, false)), prepared))
        }
    }
}

/// PrepareUpdate `insertcopy`: the record at the cursor is copied. The log takes nothing.
pub fn prepare_copy(
    engine: &Engine,
    local: &Local,
    cursor: CursorId,
) -> Result<Decision, OutOfMemory>
    requires beside { HoldsSession engine.now local.now }
    requires shared { is_answered_locally local.now.state (call.PrepareUpdate cursor prepare.InsertCopy) ≡ false }
    ensures answer { IfOk result (λ decision. Decides engine.now local.now (call.PrepareUpdate cursor prepare.InsertCopy) local.now decision) }
    ensures decided { IfOk result (λ decision. IsDecision engine.now local.now (call.PrepareUpdate cursor prepare.InsertCopy) local.now decision) }
{
    a_session_reads_its_view();
    records_are_formed(engine);
    let Some(found) = local.cursor(cursor) else {
        unreachable!()
    };
    let session = local.session();
    match copy_refusal(engine, session, found) {
        Some(refusal) => Ok(refused(refusal)),
        None => {
            let prepared = copy_at(engine, session, found)?;
            Ok(prepared_with(None, prepared))
        }
    }
}

// Why a replace may not be prepared.
fn replace_refusal(
    engine: &Engine,
    local: &Local,
    found: &OpenCursor,
    change: &Change,
) -> Option<Jet>
    requires { change.now ≡ hold_at found.now }
    ensures { result ≡ first_refusal (replace_in engine.now local.now.session local.now.state found.now) }
{
    let session = local.session();
    if is_prepared(found) {
        Some(Jet::AlreadyPrepared)
    } else if engine.is_outside(session) {
        Some(Jet::NotInTransaction)
    } else {
        match current_refusal(engine, session, found) {
            Some(refusal) => Some(refusal),
            None => {
                if has_own_replace(local, found) {
                    Some(Jet::SessionWriteConflict)
                } else {
                    change_refusal(engine, session, change)
                }
            }
        }
    }
}

// Why a record may not be copied.
fn copy_refusal(engine: &Engine, session: Session, found: &OpenCursor) -> Option<Jet>
    ensures { result ≡ first_refusal (copy_in engine.now session.0 found.now) }
{
    if is_prepared(found) {
        Some(Jet::AlreadyPrepared)
    } else {
        current_refusal(engine, session, found)
    }
}

// Whether an update is prepared on the cursor.
fn is_prepared(found: &OpenCursor) -> bool
    ensures { result ≡ is_some found.now.prepared }
{
    found.prepared().is_some()
}

// What a replace of the record at the cursor prepares.
fn replace_at(
    engine: &Engine,
    session: Session,
    found: &OpenCursor,
) -> Result<Prepared, OutOfMemory>
    requires { IfSome (shown_for engine.now session.0 found.now.cursor.table (bookmark_at found.now)) (IsCopiedAs engine.now session.0 found.now) }
    ensures { IfOk result (IsPreparedAs found.now (replace_of engine.now session.0 found.now)) }
{
    match Bookmark::from_slice(engine.alloc, bookmark_at(found)) {
        Ok(bookmark) => match record_at(engine, session, found) {
            Ok(values) => { prepared_from(engine.alloc, found, Purpose::Replace(bookmark), values) }
            Err(fault) => Err(fault),
        },
        Err(fault) => Err(fault),
    }
}

// What an insert prepares that is copied from the record at the cursor: its sums begin at 0.
fn copy_at(engine: &Engine, session: Session, found: &OpenCursor) -> Result<Prepared, OutOfMemory>
    requires { IfSome (shown_for engine.now session.0 found.now.cursor.table (bookmark_at found.now)) (IsCopiedAs engine.now session.0 found.now) }
    ensures { IfOk result (IsPreparedAs found.now (copy_of engine.now session.0 found.now)) }
{
    match Bookmark::from_slice(engine.alloc, bookmark_at(found)) {
        Ok(bookmark) => match new_record_at(engine, session, found) {
            Ok(values) => {
                prepared_from(engine.alloc, found, Purpose::Insert(Some(bookmark)), values)
            }
            Err(fault) => Err(fault),
        },
        Err(fault) => Err(fault),
    }
}

// The update with the values.
fn prepared_from(
    alloc: Global,
    found: &OpenCursor,
    purpose: Purpose,
    values: Record,
) -> Result<Prepared, OutOfMemory>
    ensures { IfOk result (IsPreparedAs found.now (record { for = for_of purpose; values = values })) }
{
    match CopyBuffer::new(alloc, &found.schema().columns, values) {
        Ok(buffer) => Ok(Prepared { purpose, buffer }),
        Err(fault) => Err(fault),
    }
}

// The record that the session sees at the cursor, its values copied.
fn record_at(engine: &Engine, session: Session, found: &OpenCursor) -> Result<Record, OutOfMemory>
    requires { IfSome (shown_for engine.now session.0 found.now.cursor.table (bookmark_at found.now)) (IsCopiedAs engine.now session.0 found.now) }
    ensures { IfOk result (λ made. made ≡ values_seen engine.now session.0 found.now) }
{
    let table = found.cursor().table();
    let reader = engine.reader(session);
    match engine.tables().look_up(table, bookmark_at(found), reader) {
        Some(row) => record_seen(engine, session, found, &row),
        None => Ok(Record::new(engine.alloc)),
    }
}

// The same with its sums at 0.
fn new_record_at(
    engine: &Engine,
    session: Session,
    found: &OpenCursor,
) -> Result<Record, OutOfMemory>
    requires { IfSome (shown_for engine.now session.0 found.now.cursor.table (bookmark_at found.now)) (IsCopiedAs engine.now session.0 found.now) }
    ensures { IfOk result (λ made. made ≡ with_sums_at_zero found.now.schema.columns (values_seen engine.now session.0 found.now)) }
{
    match record_at(engine, session, found) {
        Ok(values) => with_sums_at_zero(engine.alloc, found.schema().columns.as_slice(), values),
        Err(fault) => Err(fault),
    }
}

/// A copy of a record that is read in place, each value whole.
pub(crate) fn record_of_row(
    alloc: Global,
    columns: &[Column],
    row: &ShownRow<'_>,
) -> Result<Record, OutOfMemory>
    requires { IsCopied columns.now row.now }
    ensures { IfOk result (λ made. made ≡ row.now) }
{
    let mut made = Record::new(alloc);
    for column in columns {
        match copy_values(alloc, column.id, row, &mut made) {
            Ok(()) => {}
            Err(fault) => return Err(fault),
        }
    }
    // Its columns rise.
    let _fields = made.fields();
    Ok(made)
}

// Puts the values of a column behind those that the record has there.
fn copy_values(
    alloc: Global,
    column: ColumnId,
    row: &ShownRow<'_>,
    made: &mut Record,
) -> Result<(), OutOfMemory>
    ensures { OnOk result ((number : ℕ) → values_of made.new number ≡ values_with made.old row.now column.0 number) }
{
    for at in 0..row.count(column) {
        match copied_value(alloc, column, at, row) {
            Ok(value) => match made.push_value(column, value) {
                Ok(()) => {}
                Err(fault) => return Err(fault),
            },
            Err(fault) => return Err(fault),
        }
    }
    Ok(())
}

// A copy of the column's value at a place, counted from 0.
fn copied_value(
    alloc: Global,
    column: ColumnId,
    at: usize,
    row: &ShownRow<'_>,
) -> Result<Octets, OutOfMemory>
    requires { at < length (values_of row.now column.0) }
    ensures { IfOk result (λ made. made ≡ slice_index_or (values_of row.now column.0) at []) }
{
    let Some(front) = row.value(column, at) else {
        unreachable!()
    };
    // Most often that is all of it.
    if front.len() < FIRST_BYTES {
        Octets::from_slice(alloc, front)
    } else {
        value_read(alloc, column, at, row)
    }
}

// The same of a value of any length, which is read into memory of its own.
fn value_read(
    alloc: Global,
    column: ColumnId,
    at: usize,
    row: &ShownRow<'_>,
) -> Result<Octets, OutOfMemory>
    requires { at < length (values_of row.now column.0) }
    ensures { IfOk result (λ made. made ≡ slice_index_or (values_of row.now column.0) at []) }
{
    let Some((_, size)) = row.read(column, at, &mut []) else {
        unreachable!()
    };
    let mut bytes = vec![in alloc; 0; size]?;
    row.read(column, at, bytes.as_mut_slice());
    Ok(Octets::new(bytes)?)
}

// The decision that the update is prepared.
fn prepared_with(step: Option<Step>, prepared: Prepared) -> Decision
    ensures { result ≡ record { step = step; reply = record { jet = Jet.Success; value = Nothing }; table = None; copied = Some prepared; temp = None; buffers = None; flush = false } }
{
    Decision {
        step,
        reply: Reply {
            jet: Jet::Success,
            value: Value::Nothing,
        },
        table: None,
        copied: Some(prepared),
        temp: None,
        buffers: None,
        flush: false,
    }
}
