//! The first entry of an engine in its log.

ghost use Rattle.std.specs.Prelude.{◌≡◌};
ghost use Rattle.jet_base.specs.Ids.{session_id};
ghost use Rattle.index_derive.specs.declared.log.EntryKind.TheVariants.{Enter};
ghost use Rattle.index_derive.specs.declared.log.Step.TheVariants.{One};
ghost use Rattle.database_state.specs.State.{DatabaseState};
ghost use Rattle.laws_engine.specs.EngineState.{empty_engine};
ghost use Rattle.laws_engine.specs.HoldsState.{HoldsState};

use engine_core::{Engine, LoggedEngine, has_label};
use index_derive::{Entry, EntryKind, Step};
use jet_base::Session;
use laws_engine::{a_lawful_step_makes_the_next_state, an_empty_engine_holds_the_empty_state};
use std::alloc::Global;
use std::process::Abort;
use std::test::*;

/// A step by which session 1 begins.
fn enter() -> Step
    ensures { result ≡ One (record { session = session_id 1; kind = Enter }) }
{
    Step::One(Entry {
        session: Session(1),
        kind: EntryKind::Enter,
    })
}

/// An empty engine with its log.
fn empty(alloc: Global) -> LoggedEngine
    ensures { result.engine ≡ empty_engine 1000000 }
{
    LoggedEngine::new(alloc, Engine::new(alloc, 1_000_000))
}

/// Session 1 begins in an empty engine.
fn entered(rt: &impl Abort, alloc: Global) -> LoggedEngine
    ensures { (state : DatabaseState) × HoldsState result.engine state }
{
    an_empty_engine_holds_the_empty_state();
    a_lawful_step_makes_the_next_state();
    let mut engine = empty(alloc);
    let step = enter();
    assert!(rt; has_label(&step));
    engine.apply(&step).expect(rt, "memory");
    engine
}

/// Whether these are the bytes of the log from a position on.
fn is_pending(rt: &impl Abort, engine: &LoggedEngine, from: u64, bytes: &[u8]) -> bool {
    assert!(rt; engine.trimmed() <= from && from <= engine.stream_end());
    let mut into = [77; 12];
    let count = engine.pending(from, &mut into);
    &into[..count] == bytes
}

#[test]
fn the_first_entry_stands_in_the_log(rt: HostRuntime) {
    let mut engine = entered(&rt, rt.alloc());
    assert!(&rt; engine.number() == 1 && engine.stream_end() == 9);
    assert!(&rt; is_pending(&rt, &engine, 0, &[5, 0, 0, 0, 1, 1, 0, 0, 0]));
    assert!(&rt; 5 <= engine.stream_end());
    engine.trim(5);
    assert!(&rt; is_pending(&rt, &engine, 5, &[1, 0, 0, 0]));
}

#[test]
fn a_closed_engine_has_no_session_and_begins_its_log_anew(rt: HostRuntime) {
    let mut engine = entered(&rt, rt.alloc());
    assert!(&rt; engine.room_for_ends() == 9);
    engine.close();
    assert!(&rt; engine.engine().sessions().is_empty());
    assert!(&rt; engine.number() == 1 && engine.stream_end() == 0 && engine.room_for_ends() == 0);
}
