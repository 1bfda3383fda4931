//! Update: what a prepared update puts, or why it may not.

ghost use Rattle.std.specs.Prelude.{◌≡◌, ◌≤◌, false, length, None, IfOk, IfSome, IsSome, IsTrue, OnErr, nat_le, option_copied};
ghost use Rattle.column_set.specs.ChangedRecords.{changed_bookmark};
ghost use Rattle.database_state.specs.Lawful.{log_limit};
ghost use Rattle.session_local.specs.declared.request.Request.TheVariants as call;
ghost use Rattle.session_local.specs.Answer.{shown_by};
ghost use Rattle.session_local.specs.CursorCalls.{whole};
ghost use Rattle.session_local.specs.Local.{cursor_labelled};
ghost use Rattle.session_local.specs.LocalCalls.{is_answered_locally};
ghost use Rattle.session_local.specs.Preparing.{update_of};
ghost use Rattle.session_local.specs.Showing.{names_within};
ghost use Rattle.engine_parts.specs.Deciding.{Decides, HoldsSession, IsDecision};
ghost use Rattle.record_decisions.specs.Updating.{HasLegalRules, IsMade, IsMadeOf, IsSchemaOf, own_key, put_by, span_in, update_in};

use crate::changing::{change_step, lacks_room};
use crate::laws::{changes_are_refused_alike, sessions_see_their_records};
use crate::putting::put_by;
use crate::refusing_puts::record_refusal;
use crate::update_laws::{
    bookmarks_are_short, schemas_are_those_of_tables, unique_keys_are_refused_alike,
};
use column_set::Change;
use engine_parts::{Engine, refused};
use index_derive::{Step, primary_key};
use jet_base::{CursorId, Jet, OutOfMemory, Session};
use key_normal::Key;
use laws_engine::the_step_of_an_update_is_lawful;
use session_local::{Decision, Local, OpenCursor, Prepared, Reply, Value};

/// Update: the prepared record is put, and the reply shows its bookmark. Outside a transaction it is one by itself.
pub fn update(engine: &Engine, local: &mut Local, cursor: CursorId) -> Result<Decision, OutOfMemory>
    requires beside { HoldsSession engine.now local.old }
    requires shared { is_answered_locally local.old.state (call.Update cursor) ≡ false }
    ensures answer { IfOk result (λ decision. Decides engine.now local.old (call.Update cursor) local.new decision) }
    ensures decided { IfOk result (λ decision. IsDecision engine.now local.old (call.Update cursor) local.new decision) }
    ensures kept { OnErr result (local.new ≡ local.old) }
    ensures session { local.new.session ≡ local.old.session }
{
    sessions_see_their_records();
    changes_are_refused_alike();
    unique_keys_are_refused_alike();
    the_step_of_an_update_is_lawful();
    let put = match made_put(engine, local, cursor) {
        Ok(Ok(put)) => put,
        Ok(Err(refusal)) => return Ok(refused(refusal)),
        Err(fault) => return Err(fault),
    };
    let session = local.session();
    let outside = engine.is_outside(session);
    let value = show_bookmark(local, &put);
    Ok(shown_with(change_step(session, put, outside), value, outside))
}

// What is put by the update that is prepared on the cursor, or why nothing is.
fn made_put(
    engine: &Engine,
    local: &Local,
    cursor: CursorId,
) -> Result<Result<Change, Jet>, OutOfMemory>
    requires beside { HoldsSession engine.now local.now }
    requires there { IsSome (cursor_labelled local.now.state cursor.0) }
    ensures made { IfOk result (λ made. IfSome (cursor_labelled local.now.state cursor.0) (λ c. IsMadeOf engine.now local.now.session c c.prepared made)) }
    ensures short { IfOk result (λ made. IfOk made (λ put. length (changed_bookmark put) ≤ 255)) }
{
    schemas_are_those_of_tables();
    bookmarks_are_short();
    engine.tables().rules_are_legal();
    let Some(found) = local.cursor(cursor) else {
        unreachable!()
    };
    match found.prepared() {
        Some(prepared) => put_or_refusal(engine, local.session(), found, prepared),
        None => Ok(Err(Jet::UpdateNotPrepared)),
    }
}

// What is put by a prepared update, or why nothing is. The record's key in the primary index is made once.
fn put_or_refusal(
    engine: &Engine,
    session: Session,
    found: &OpenCursor,
    prepared: &Prepared,
) -> Result<Result<Change, Jet>, OutOfMemory>
    requires named { IsSchemaOf engine.now found.now.cursor.table found.now.schema }
    requires rules { HasLegalRules found.now.schema }
    ensures { IfOk result (IsMade (update_in engine.now session.0 found.now (update_of prepared.now)) (put_by engine.now session.0 found.now (update_of prepared.now))) }
{
    let schema = found.schema();
    match schema.primary_rule() {
        Some(rule) => {
            let key = primary_key(rule, schema, prepared.buffer.values());
            put_or_refusal_by(engine, session, found, prepared, Some(&key))
        }
        None => put_or_refusal_by(engine, session, found, prepared, None),
    }
}

// The same, with the key.
fn put_or_refusal_by(
    engine: &Engine,
    session: Session,
    found: &OpenCursor,
    prepared: &Prepared,
    key: Option<&Key>,
) -> Result<Result<Change, Jet>, OutOfMemory>
    requires named { IsSchemaOf engine.now found.now.cursor.table found.now.schema }
    requires rules { HasLegalRules found.now.schema }
    requires key { option_copied key ≡ own_key found.now.schema prepared.now.buffer.fields }
    ensures { IfOk result (IsMade (update_in engine.now session.0 found.now (update_of prepared.now)) (put_by engine.now session.0 found.now (update_of prepared.now))) }
{
    match record_refusal(engine, session, found, prepared, key) {
        Ok(None) => {}
        Ok(Some(refusal)) => return Ok(Err(refusal)),
        Err(fault) => return Err(fault),
    }
    if engine.is_full() {
        return Ok(Err(Jet::LogSequenceEnd));
    }
    put_with_room(engine, session, found, prepared, key)
}

// What is put where the version store has room for it. The log takes it.
fn put_with_room(
    engine: &Engine,
    session: Session,
    found: &OpenCursor,
    prepared: &Prepared,
    key: Option<&Key>,
) -> Result<Result<Change, Jet>, OutOfMemory>
    requires key { option_copied key ≡ own_key found.now.schema prepared.now.buffer.fields }
    requires space { nat_le log_limit engine.now.number ≡ false }
    ensures { IfOk result (IsMade (span_in engine.now (put_by engine.now session.0 found.now (update_of prepared.now))) (put_by engine.now session.0 found.now (update_of prepared.now))) }
{
    let put = match put_by(engine, session, found, prepared, key) {
        Ok(put) => put,
        Err(fault) => return Err(fault),
    };
    if lacks_room(engine, session, &put) {
        return Ok(Err(Jet::VersionStoreOutOfMemory));
    }
    Ok(Ok(put))
}

// The value that shows the bookmark under which the change is made, which is written to the front of the reply buffer.
fn show_bookmark(local: &mut Local, put: &Change) -> Value
    requires begun { IsTrue local.old.state.begun }
    requires short { length (changed_bookmark put.now) ≤ 255 }
    ensures shown { shown_by result local.new.reply ≡ whole (changed_bookmark put.now) }
    ensures named { IsTrue (names_within result (length local.new.reply)) }
    ensures state { local.new.state ≡ local.old.state }
    ensures session { local.new.session ≡ local.old.session }
{
    let bytes = put.bookmark().as_bytes();
    local.show(bytes, bytes.len() as u64)
}

// Success with a step and a value.
fn shown_with(step: Step, value: Value, flush: bool) -> Decision
    ensures { result ≡ record { step = Some step; reply = record { jet = Jet.Success; value = value }; table = None; copied = None; temp = None; buffers = None; flush = flush } }
{
    Decision {
        step: Some(step),
        reply: Reply {
            jet: Jet::Success,
            value,
        },
        table: None,
        copied: None,
        temp: None,
        buffers: None,
        flush,
    }
}
