//! Laws of what is to end, and of how many entries there are. The functions do nothing: their contracts are the laws.

ghost use Rattle.std.specs.Prelude.{◌≡◌, ◌+◌, ◌^◌, ◌≤◌, [], ℕ, Bool, true, max};
ghost use Rattle.jet_base.specs.declared.ids.CursorId.{CursorId};
ghost use Rattle.index_derive.specs.declared.log.Entry.{Entry};
ghost use Rattle.index_derive.specs.declared.log.Step.{Step};
ghost use Rattle.database_state.specs.State.{DatabaseState};
ghost use Rattle.database_state.specs.Lawful.{is_lawful};
ghost use Rattle.session_local.specs.declared.request.Request.TheVariants as call;
ghost use Rattle.laws_engine.specs.EngineState.{EngineState, HasRoomForEnds};
ghost use Rattle.laws_engine.specs.EngineSteps.{cleaned_for, engine_after, engine_after_step};
ghost use Rattle.laws_engine.specs.HoldsState.{HoldsState};
ghost use Rattle.engine_core.specs.Steps.{MayTake};
ghost use Rattle.loggable_steps.specs.Loggable.{made_by};
ghost use Rattle.engine_core.specs.Bounds.{IsBounded};
ghost use Rattle.engine_core.specs.EndingCalls.{TakesNoMemory};
ghost use Rattle.engine_core.specs.Ends.{Follows, begun_bytes, end_bytes, ended_bytes};

use laws_engine::{
    a_clean_leaves_the_state, a_lawful_entry_makes_the_next_state, ends_always_find_room,
};

/// Where room is kept for the bytes of all that is to end, an entry that ends something finds its own there, and those of what
/// is left stay kept; one that begins something asks for the bytes of its end more, and no other entry asks for any. So does the
/// entry of a step.
pub fn what_is_begun_keeps_the_bytes_of_its_end()
    ensures one { (engine : EngineState) (state : DatabaseState) (made : Entry) → HoldsState engine state → is_lawful state made ≡ true
        → ended_bytes made.kind + end_bytes (engine_after engine made).sessions ≤ end_bytes engine.sessions + begun_bytes made.kind }
    ensures step { (engine : EngineState) (step : Step) → MayTake engine step
        → ended_bytes (made_by step).kind + end_bytes (engine_after_step engine step).sessions ≤ end_bytes engine.sessions + begun_bytes (made_by step).kind }
{
    a_lawful_entry_makes_the_next_state();
    a_clean_leaves_the_state();
}

/// A step leaves the cursors of all other sessions open, and what these are to end.
pub(crate) fn ends_follow_their_steps()
    ensures { (engine : EngineState) (step : Step) → MayTake engine step → Follows (made_by step).session.0 (made_by step).kind engine.sessions (engine_after_step engine step).sessions }
{
    a_lawful_entry_makes_the_next_state();
    a_clean_leaves_the_state();
}

/// `CommitTransaction`, `Rollback`, `EndSession` and `CloseTable` take no memory: they are decided without any, and so is their
/// step made and logged by [`LoggedEngine::apply`](crate::LoggedEngine::apply), since room for its entry is kept from the begin
/// on.
pub fn ends_take_no_memory()
    ensures commit_transaction { (lazy : Bool) → TakesNoMemory (call.CommitTransaction lazy) }
    ensures rollback { (all : Bool) → TakesNoMemory (call.Rollback all) }
    ensures end_session { TakesNoMemory call.EndSession }
    ensures close_table { (cursor : CursorId) → TakesNoMemory (call.CloseTable cursor) }
{}

/// The number of an engine's log is at most that of its opening or 2^35 + 1, so that the entries of one run are far less than
/// 2^62. An engine without sessions is an opening, at any number; from there each step that may be taken finds room for all that
/// is to end, and leaves it.
pub fn the_number_stays_bounded()
    ensures opening { (engine : EngineState) → engine.sessions ≡ [] → IsBounded engine.number engine }
    ensures room { (opening : ℕ) (engine : EngineState) (step : Step) → IsBounded opening engine → MayTake engine step → HasRoomForEnds engine }
    ensures step { (opening : ℕ) (engine : EngineState) (step : Step) → IsBounded opening engine → MayTake engine step → IsBounded opening (engine_after_step engine step) }
    ensures clean { (opening : ℕ) (cleans : Bool) (engine : EngineState) → IsBounded opening engine → IsBounded opening (cleaned_for cleans engine) }
    ensures most { (opening : ℕ) (engine : EngineState) → IsBounded opening engine → engine.number ≤ max opening (2 ^ 35 + 1) }
{
    ends_always_find_room();
}
