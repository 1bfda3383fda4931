//! EscrowUpdate.

ghost use Rattle.std.specs.Prelude.{◌≡◌, Some, None, true, false, IfOk, IfSome};
ghost use Rattle.column_set.specs.Refusals.{first_refusal};
ghost use Rattle.index_derive.specs.Entries.{is_escrow_column};
ghost use Rattle.session_local.specs.declared.request.Request.TheVariants as call;
ghost use Rattle.session_local.specs.declared.reply.Value.TheVariants.{Number};
ghost use Rattle.session_local.specs.LocalCalls.{is_answered_locally};
ghost use Rattle.session_local.specs.RecordCalls.{bookmark_at};
ghost use Rattle.laws_versions.specs.EscrowSums.{escrow_value};
ghost use Rattle.engine_parts.specs.Deciding.{Decides, HoldsSession, IsDecision};
ghost use Rattle.engine_parts.specs.Reading.{IsRowAt, shown_for};
ghost use Rattle.record_decisions.specs.EscrowUpdates.{place_in, sum_at, sum_in};
ghost use Rattle.record_decisions.specs.Preparing.{values_seen};

use crate::changing::{bookmark_at, change_refusal, change_step, current_refusal, has_own_replace};
use crate::laws::changes_are_refused_alike;
use column_set::{Bookmark, Change, Column, column_named};
use engine_parts::{Engine, a_session_reads_its_view, refused};
use index_derive::Step;
use jet_base::{ColumnId, CursorId, Jet, Name, OutOfMemory, Session};
use laws_engine::the_step_of_a_sum_is_lawful;
use session_local::{Decision, Local, OpenCursor, Reply, Value};
use std::alloc::Global;

/// EscrowUpdate: the amount is added to the number in an escrow column of the record at the cursor, wrapping at 32 bits. The
/// answer is the number that the session saw there before.
pub fn escrow_update(
    engine: &Engine,
    local: &Local,
    cursor: CursorId,
    column: &Name,
    amount: i32,
) -> Result<Decision, OutOfMemory>
    requires beside { HoldsSession engine.now local.now }
    requires shared { is_answered_locally local.now.state (call.EscrowUpdate cursor column.now amount) ≡ false }
    ensures answer { IfOk result (λ decision. Decides engine.now local.now (call.EscrowUpdate cursor column.now amount) local.now decision) }
    ensures decided { IfOk result (λ decision. IsDecision engine.now local.now (call.EscrowUpdate cursor column.now amount) local.now decision) }
{
    a_session_reads_its_view();
    changes_are_refused_alike();
    the_step_of_a_sum_is_lawful();
    let Some(found) = local.cursor(cursor) else {
        unreachable!()
    };
    let session = local.session();
    match place_refusal(engine, session, found) {
        Some(refusal) => Ok(refused(refusal)),
        None => match column_named(&found.schema().columns, column) {
            Some(column) => {
                let change = sum_at(engine.alloc, found, column.id, amount)?;
                match sum_refusal(engine, local, found, column, &change) {
                    Some(refusal) => Ok(refused(refusal)),
                    None => {
                        let number = number_seen(engine, session, found, column.id);
                        Ok(summed(change_step(session, change, false), number))
                    }
                }
            }
            None => Ok(refused(Jet::ColumnNotFound)),
        },
    }
}

// Why nothing may be added at the cursor: the session is in no transaction, or sees no record there.
fn place_refusal(engine: &Engine, session: Session, found: &OpenCursor) -> Option<Jet>
    ensures { result ≡ first_refusal (place_in engine.now session.0 found.now) }
{
    if engine.is_outside(session) {
        Some(Jet::NotInTransaction)
    } else {
        current_refusal(engine, session, found)
    }
}

// Why the sum may not be made in the column.
fn sum_refusal(
    engine: &Engine,
    local: &Local,
    found: &OpenCursor,
    column: &Column,
    change: &Change,
) -> Option<Jet>
    ensures { result ≡ first_refusal (sum_in engine.now local.now.session local.now.state found.now column.now change.now) }
{
    if !column.escrow {
        Some(Jet::InvalidColumnType)
    } else if has_own_replace(local, found) {
        Some(Jet::SessionWriteConflict)
    } else {
        change_refusal(engine, local.session(), change)
    }
}

// The number in an escrow column of the record at the cursor as the session sees it.
fn number_seen(engine: &Engine, session: Session, found: &OpenCursor, column: ColumnId) -> i32
    requires row { IfSome (shown_for engine.now session.0 found.now.cursor.table (bookmark_at found.now)) (IsRowAt engine.now session.0 found.now) }
    requires sum { is_escrow_column found.now.schema column.0 ≡ true }
    ensures { result ≡ escrow_value (values_seen engine.now session.0 found.now) column.0 }
{
    let table = found.cursor().table();
    let bookmark = bookmark_at(found);
    let reader = engine.reader(session);
    match engine.tables().look_up(table, bookmark, reader) {
        Some(row) => engine.seen_sum(session, table, bookmark, &row, column),
        None => 0,
    }
}

// The sum in a column of the record at the cursor.
fn sum_at(
    alloc: Global,
    found: &OpenCursor,
    column: ColumnId,
    amount: i32,
) -> Result<Change, OutOfMemory>
    ensures { IfOk result (λ change. change ≡ sum_at found.now column amount) }
{
    match Bookmark::from_slice(alloc, bookmark_at(found)) {
        Ok(bookmark) => Ok(Change::Add {
            table: found.cursor().table(),
            bookmark,
            column,
            amount,
        }),
        Err(fault) => Err(fault),
    }
}

// Success with a step, and a number.
fn summed(step: Step, number: i32) -> Decision
    ensures { result ≡ record { step = Some step; reply = record { jet = Jet.Success; value = Number number }; table = None; copied = None; temp = None; buffers = None; flush = false } }
{
    Decision {
        step: Some(step),
        reply: Reply {
            jet: Jet::Success,
            value: Value::Number(i64::from(number)),
        },
        table: None,
        copied: None,
        temp: None,
        buffers: None,
        flush: false,
    }
}
