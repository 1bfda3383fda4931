//! A step takes effect.

ghost use Rattle.std.specs.Prelude.{◌≡◌, ◌+◌, ◌^◌, ◌≤◌, true, false, Some, OnOk, OnErr};
ghost use Rattle.index_derive.specs.declared.log.EntryKind.TheVariants as entry;
ghost use Rattle.index_derive.specs.declared.log.Step.TheVariants.{Alone};
ghost use Rattle.index_derive.specs.Steps.{entries_of_step};
ghost use Rattle.laws_engine.specs.EngineState.{HasRoomForEnds};
ghost use Rattle.laws_engine.specs.EngineSteps.{cleaned_for, cleans_first, effect_on, engine_after_all, engine_after_step, step_cleans};
ghost use Rattle.database_state.specs.Step.{entry_by};
ghost use Rattle.engine_core.specs.Steps.{IsSettledFor, IsSettledForStep, MayCome, MayTake, begin_taken_back, may_lack_memory, step_may_lack_memory};

use crate::change_steps::{change, changes_are_formed};
use crate::cleaning::clean_all;
use crate::schema_steps::make;
use crate::session_steps::{
    begin, commit, enter, leave, open, release, save, shut, undo, undo_all,
};
use crate::step_laws::{
    a_clean_for_a_step_leaves_the_state, a_step_may_come_after_its_clean,
    entries_of_a_step_alone_come_in_turn, lawful_changes_can_be_made,
    lawful_entries_fit_the_sessions, lawful_schema_steps_can_be_made,
};
use crate::types::numbers_fit_their_types;
use engine_parts::Engine;
use index_derive::{EntryKind, Step};
use jet_base::{OutOfMemory, Session};
use laws_engine::ends_always_find_room;

/// Makes a step that was decided in this state, or that is lawful in a replay: a change of a record and a schema step clean
/// first, and then the entries take effect in their order, each with the next number. After want of memory all is as it was, but
/// that the clean stands.
pub fn apply(engine: &mut Engine, step: &Step) -> Result<(), OutOfMemory>
    requires lawful { MayTake engine.old step.now }
    requires room { HasRoomForEnds engine.old }
    ensures done { OnOk result (engine.new ≡ engine_after_step engine.old step.now) }
    ensures kept { OnErr result (engine.new ≡ cleaned_for (step_cleans step.now) engine.old) }
    ensures memory { OnErr result (step_may_lack_memory step.now ≡ true) }
{
    a_clean_for_a_step_leaves_the_state();
    a_step_may_come_after_its_clean();
    if cleans(step) {
        clean_all(engine);
    }
    apply_entries(engine, step)
}

// Whether a step cleans first.
fn cleans(step: &Step) -> bool
    ensures { result ≡ step_cleans step.now }
{
    match step {
        Step::One(made) => is_change(&made.kind),
        Step::Alone(made) => is_change(&made.kind),
    }
}

// Whether an entry changes a record or the schema.
fn is_change(kind: &EntryKind) -> bool
    ensures { result ≡ cleans_first kind.now }
{
    match kind {
        EntryKind::Change(_) | EntryKind::Schema(_) => true,
        _ => false,
    }
}

// The entries of a step, in their order.
fn apply_entries(engine: &mut Engine, step: &Step) -> Result<(), OutOfMemory>
    requires lawful { MayTake engine.old step.now }
    requires room { HasRoomForEnds engine.old }
    requires settled { IsSettledForStep step.now engine.old.store.held }
    ensures done { OnOk result (engine.new ≡ engine_after_all engine.old (entries_of_step (Some step.now))) }
    ensures kept { OnErr result (engine.new ≡ engine.old) }
    ensures memory { OnErr result (step_may_lack_memory step.now ≡ true) }
{
    match step {
        Step::One(made) => apply_entry(engine, made.session, &made.kind),
        Step::Alone(made) => apply_alone(engine, made.session, &made.kind),
    }
}

// An entry with a begin before it and a commit behind it. Where there is no memory the begin is taken back.
fn apply_alone(engine: &mut Engine, session: Session, kind: &EntryKind) -> Result<(), OutOfMemory>
    requires lawful { MayTake engine.old (Alone (entry_by session.0 kind.now)) }
    requires room { HasRoomForEnds engine.old }
    requires settled { IsSettledFor kind.now engine.old.store.held }
    ensures done { OnOk result (engine.new ≡ effect_on (effect_on (effect_on engine.old session.0 entry.Begin) session.0 kind.now) session.0 entry.Commit) }
    ensures kept { OnErr result (engine.new ≡ engine.old) }
    ensures memory { OnErr result (may_lack_memory kind.now ≡ true) }
{
    entries_of_a_step_alone_come_in_turn();
    ends_always_find_room();
    begin(engine, session);
    match apply_entry(engine, session, kind) {
        Ok(()) => {
            commit(engine, session);
            Ok(())
        }
        Err(fault) => {
            take_back_begin(engine, session);
            Err(fault)
        }
    }
}

// The transaction that the last entry began is as if it had not begun.
fn take_back_begin(engine: &mut Engine, session: Session)
    requires { 1 ≤ engine.old.number }
    ensures { engine.new ≡ begin_taken_back session.0 engine.old }
{
    engine.sessions.end_transaction(session);
    engine.number -= 1;
}

// Makes an entry of the session that is lawful. After want of memory all is as it was.
fn apply_entry(engine: &mut Engine, session: Session, kind: &EntryKind) -> Result<(), OutOfMemory>
    requires lawful { MayCome engine.old (entry_by session.0 kind.now) }
    requires room { HasRoomForEnds engine.old }
    requires settled { IsSettledFor kind.now engine.old.store.held }
    ensures done { OnOk result (engine.new ≡ effect_on engine.old session.0 kind.now) }
    ensures kept { OnErr result (engine.new ≡ engine.old) }
    ensures memory { OnErr result (may_lack_memory kind.now ≡ true) }
{
    ends_always_find_room();
    lawful_entries_fit_the_sessions();
    lawful_changes_can_be_made();
    lawful_schema_steps_can_be_made();
    match kind {
        EntryKind::Enter => enter(engine, session),
        EntryKind::Open(table) => open(engine, session, *table),
        EntryKind::Change(made) => {
            changes_are_formed(made);
            change(engine, session, made)
        }
        EntryKind::Schema(made) => {
            numbers_fit_their_types(made);
            make(engine, made)
        }
        _ => {
            apply_without_memory(engine, session, kind);
            Ok(())
        }
    }
}

// Makes an entry of the session that is lawful and takes no memory: one that ends something, or a level that begins.
fn apply_without_memory(engine: &mut Engine, session: Session, kind: &EntryKind)
    requires lawful { MayCome engine.old (entry_by session.0 kind.now) }
    requires number { engine.old.number ≤ 2 ^ 35 + 1 }
    requires without { may_lack_memory kind.now ≡ false }
    ensures { engine.new ≡ effect_on engine.old session.0 kind.now }
{
    lawful_entries_fit_the_sessions();
    match kind {
        EntryKind::Shut(table) => shut(engine, session, *table),
        EntryKind::Begin => begin(engine, session),
        EntryKind::Save => save(engine, session),
        EntryKind::Release => release(engine, session),
        EntryKind::Commit => commit(engine, session),
        EntryKind::Undo => undo(engine, session),
        EntryKind::UndoAll => undo_all(engine, session),
        EntryKind::Leave => leave(engine, session),
        EntryKind::Enter | EntryKind::Open(_) | EntryKind::Change(_) | EntryKind::Schema(_) => {
            unreachable!()
        }
    }
}
