//! Laws of the engine in the run of a script. The functions do nothing: their contracts are the laws.

ghost use Rattle.std.specs.Prelude.{◌≡◌, ◌≢◌, ℕ, Bool, true, false, [], None, Some};
ghost use Rattle.jet_base.specs.declared.replies.Jet.TheVariants.{OutOfMemory};
ghost use Rattle.index_derive.specs.declared.log.Step.{Step};
ghost use Rattle.session_local.specs.declared.request.Request.{Request};
ghost use Rattle.session_local.specs.declared.decision.Decision.{Decision};
ghost use Rattle.session_local.specs.Calls.{answer};
ghost use Rattle.session_local.specs.LocalCalls.{is_answered_locally};
ghost use Rattle.session_local.specs.Outcome.{CallInputs};
ghost use Rattle.session_local.specs.Run.{Line, RunState, after_served, inputs_in, outcome_of, run_from, takes_no_memory};
ghost use Rattle.session_local.specs.SessionSide.{SessionSide};
ghost use Rattle.database_state.specs.State.{DatabaseState, empty_state};
ghost use Rattle.session_local.specs.BuiltCalls.{is_built_request};
ghost use Rattle.laws_engine.specs.EngineState.{EngineState, HasRoomForEnds, empty_engine};
ghost use Rattle.laws_engine.specs.HoldsState.{HoldsState};
ghost use Rattle.laws_engine.specs.EngineSteps.{cleaned_for, engine_after_answer};
ghost use Rattle.engine_parts.specs.Deciding.{Decides, HoldsSession};
ghost use Rattle.laws_engine.specs.Answers.{IsAnswer};
ghost use Rattle.engine_core.specs.Steps.{MayTake, step_may_lack_memory};
ghost use Rattle.engine_core.specs.Runs.{HoldsRun, IsInRun, locals_of};

use laws_engine::{
    a_clean_leaves_the_state, an_answer_is_held_in_step, an_answer_is_lawful_and_stays_in_step,
    an_answer_keeps_all_sessions_in_step, an_answer_makes_what_is_built,
    an_empty_engine_holds_the_empty_state, ends_always_find_room, sessions_are_told,
    sessions_in_step_are_well_formed,
};
use session_local::local_calls_take_no_step;

/// An engine without sessions is where a run begins, from the state that it holds.
pub fn a_run_begins_without_sessions()
    ensures opened { (engine : EngineState) (state : DatabaseState) → HoldsState engine state → engine.sessions ≡ [] → HoldsRun engine.limit engine (run_from state) }
    ensures empty { (limit : ℕ) → HoldsRun limit (empty_engine limit) (run_from empty_state) }
{
    an_empty_engine_holds_the_empty_state();
}

/// A session whose own state is its part of a run stands beside the engine that holds the run.
pub fn a_run_holds_its_sessions()
    ensures { (limit : ℕ) (engine : EngineState) (run : RunState) (side : SessionSide) (last : ℕ) → HoldsRun limit engine run → IsInRun run side last → HoldsSession engine side }
{
    sessions_are_told();
    sessions_in_step_are_well_formed();
}

/// An engine that holds a run holds it after each line that is served, once it has made the line's step; a call that a session
/// answers by itself has none. What was decided of a session's call is then the answer of the run. After a clean, as a step that
/// found no memory leaves it, the engine holds the same run.
pub fn a_run_is_held_after_its_lines()
    ensures served { (limit : ℕ) (engine : EngineState) (run : RunState) (line : Line) → HoldsRun limit engine run → is_built_request line.1 ≡ true
        → HoldsRun limit (engine_after_answer engine (outcome_of limit run line).step) (after_served limit run line) }
    ensures local { (limit : ℕ) (run : RunState) (line : Line) → is_answered_locally (locals_of run line.0) line.1 ≡ true → (outcome_of limit run line).step ≡ None }
    ensures decided { (limit : ℕ) (engine : EngineState) (run : RunState) (old : SessionSide) (last : ℕ) (request : Request) (new : SessionSide) (decision : Decision)
        → HoldsRun limit engine run → IsInRun run old last → Decides engine old request new decision → IsAnswer (inputs_in limit run old.session) request new decision }
    ensures clean { (limit : ℕ) (engine : EngineState) (run : RunState) (cleans : Bool) → HoldsRun limit engine run → HoldsRun limit (cleaned_for cleans engine) run }
{
    an_answer_is_held_in_step();
    an_answer_is_lawful_and_stays_in_step();
    an_answer_makes_what_is_built();
    an_answer_keeps_all_sessions_in_step();
    a_clean_leaves_the_state();
    ends_always_find_room();
    local_calls_take_no_step();
}

/// The step of a line may be taken by the engine that holds the run, and finds room for all that is to end.
pub fn steps_of_a_run_may_be_taken()
    ensures taken { (limit : ℕ) (engine : EngineState) (run : RunState) (line : Line) (step : Step) → HoldsRun limit engine run → is_built_request line.1 ≡ true → (outcome_of limit run line).step ≡ Some step → MayTake engine step }
    ensures room { (limit : ℕ) (engine : EngineState) (run : RunState) (step : Step) → HoldsRun limit engine run → MayTake engine step → HasRoomForEnds engine }
{
    ends_always_find_room();
    an_answer_is_lawful_and_stays_in_step();
    an_answer_makes_what_is_built();
}

/// The definitions answer no built call with want of memory: that reply is of the code alone.
pub fn no_answer_is_want_of_memory()
    ensures { (asked : CallInputs) (request : Request) → is_built_request request ≡ true → (answer asked request).answered.jet ≢ OutOfMemory }
{}

/// The step of a call that takes no memory is one that lacks none.
pub fn steps_of_calls_without_memory_lack_none()
    ensures { (asked : CallInputs) (request : Request) (step : Step) → takes_no_memory request ≡ true → (answer asked request).step ≡ Some step → step_may_lack_memory step ≡ false }
{}
