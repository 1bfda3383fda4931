//! Sessions and transactions.

ghost use Rattle.std.specs.Prelude.{◌≡◌, true, false, IfOk, None, Some};
ghost use Rattle.session_local.specs.declared.reply.Value.TheVariants.{Nothing};
ghost use Rattle.session_local.specs.declared.request.Request.TheVariants as call;
ghost use Rattle.engine_parts.specs.Deciding.{Decides, IsDecision};

use crate::answers::{done, one, refused};
use crate::engine::Engine;
use index_derive::{EntryKind, Step};
use jet_base::{Jet, OutOfMemory, Session};
use laws_engine::{
    steps_of_sessions_are_lawful, steps_of_transactions_are_lawful, the_step_of_a_commit_is_lawful,
};
use session_local::{Buffers, Decision, Local};
use version_cleanup::{MAX_LEVELS, MAX_SESSIONS};

/// BeginSession. Its buffers are taken here, so that the session is begun without memory.
pub fn begin_session(engine: &Engine, local: &Local) -> Result<Decision, OutOfMemory>
    requires shared { local.now.state.begun ≡ false }
    ensures answer { IfOk result (λ decision. Decides engine.now local.now call.BeginSession local.now decision) }
    ensures decided { IfOk result (λ decision. IsDecision engine.now local.now call.BeginSession local.now decision) }
{
    steps_of_sessions_are_lawful();
    if engine.sessions().len() >= MAX_SESSIONS {
        return Ok(refused(Jet::OutOfSessions));
    }
    if engine.is_full() {
        return Ok(refused(Jet::LogSequenceEnd));
    }
    match Buffers::take(engine.alloc) {
        Ok(buffers) => Ok(begun(local.session(), buffers)),
        Err(fault) => Err(fault),
    }
}

// The session begins with its buffers.
fn begun(session: Session, buffers: Buffers) -> Decision
    ensures { result ≡ record { step = Some (Step.One (record { session = session; kind = EntryKind.Enter })); reply = record { jet = Jet.Success; value = Nothing }; table = None; copied = None; temp = None; buffers = Some buffers; flush = false } }
{
    let mut decision = done(one(session, EntryKind::Enter), false);
    decision.buffers = Some(buffers);
    decision
}

/// EndSession. It is never refused.
pub fn end_session(engine: &Engine, local: &Local) -> Decision
    requires shared { local.now.state.begun ≡ true }
    ensures answer { Decides engine.now local.now call.EndSession local.now result }
    ensures decided { IsDecision engine.now local.now call.EndSession local.now result }
{
    steps_of_sessions_are_lawful();
    done(one(local.session(), EntryKind::Leave), false)
}

/// BeginTransaction: the first level, or one more.
pub fn begin_transaction(engine: &Engine, local: &Local) -> Decision
    requires shared { local.now.state.begun ≡ true }
    ensures answer { Decides engine.now local.now call.BeginTransaction local.now result }
    ensures decided { IsDecision engine.now local.now call.BeginTransaction local.now result }
{
    steps_of_transactions_are_lawful();
    let session = local.session();
    if engine.levels(session) >= MAX_LEVELS {
        return refused(Jet::TransTooDeep);
    }
    if engine.is_full() {
        return refused(Jet::LogSequenceEnd);
    }
    if engine.is_outside(session) {
        done(one(session, EntryKind::Begin), false)
    } else {
        done(one(session, EntryKind::Save), false)
    }
}

/// CommitTransaction: the innermost level goes to the one below, or all is committed.
pub fn commit_transaction(engine: &Engine, local: &Local, lazy: bool) -> Decision
    requires shared { local.now.state.begun ≡ true }
    ensures answer { Decides engine.now local.now (call.CommitTransaction lazy) local.now result }
    ensures decided { IsDecision engine.now local.now (call.CommitTransaction lazy) local.now result }
{
    the_step_of_a_commit_is_lawful();
    let session = local.session();
    let levels = engine.levels(session);
    if levels == 0 {
        refused(Jet::NotInTransaction)
    } else if levels > 1 {
        done(one(session, EntryKind::Release), false)
    } else {
        done(one(session, EntryKind::Commit), !lazy)
    }
}

/// Rollback of the innermost level, or of all.
pub fn rollback(engine: &Engine, local: &Local, all: bool) -> Decision
    requires shared { local.now.state.begun ≡ true }
    ensures answer { Decides engine.now local.now (call.Rollback all) local.now result }
    ensures decided { IsDecision engine.now local.now (call.Rollback all) local.now result }
{
    steps_of_transactions_are_lawful();
    let session = local.session();
    if engine.is_outside(session) {
        refused(Jet::NotInTransaction)
    } else if all {
        done(one(session, EntryKind::UndoAll), false)
    } else {
        done(one(session, EntryKind::Undo), false)
    }
}
