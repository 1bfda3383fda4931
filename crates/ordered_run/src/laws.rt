//! Laws of sessions by label, and of calls that take no memory.

ghost use Rattle.std.specs.Prelude.{◌≡◌, List, true, false, Some};
ghost use Rattle.index_derive.specs.declared.log.Step.{Step};
ghost use Rattle.database_state.specs.State.{DatabaseState};
ghost use Rattle.session_local.specs.declared.request.Request.{Request};
ghost use Rattle.session_local.specs.Calls.{answer};
ghost use Rattle.session_local.specs.Outcome.{CallInputs, Outcome};
ghost use Rattle.session_local.specs.Run.{RunState, Line, run_from, after_outcome, last_after, takes_no_memory};
ghost use Rattle.engine_core.specs.LoggedState.{logged_step_may_lack_memory};
ghost use Rattle.ordered_run.specs.declared.sessions.RunSession.{RunSession};
ghost use Rattle.ordered_run.specs.Sessions.{session_at, AreFresh, OthersStay, in_run, AreSessionsOf};

use engine_core::ends_take_no_memory;

/// At the begin of a run no session made a call.
#[tactic(none)]
pub(crate) fn a_run_begins_with_fresh_sessions()
    ensures { (sessions : List RunSession) (state : DatabaseState) → AreFresh sessions → AreSessionsOf sessions (run_from state) }
{}

/// A line that is served leaves its session as it goes on, and the others as they are.
#[tactic(none)]
pub(crate) fn sessions_follow_a_line()
    ensures { (before after : List RunSession) (run : RunState) (line : Line) (outcome : Outcome) → AreSessionsOf before run → OthersStay line.0 before after
        → in_run (session_at after line.0) ≡ record { local = outcome.local; last = last_after run line outcome }
        → AreSessionsOf after (after_outcome run line outcome) }
{}

/// A call that takes no memory is logged without any: where it has a step, that ends something.
#[tactic(none)]
pub(crate) fn calls_without_memory_are_logged_without()
    ensures { (asked : CallInputs) (request : Request) (step : Step) → takes_no_memory request ≡ true → (answer asked request).step ≡ Some step → logged_step_may_lack_memory step ≡ false }
{
    ends_take_no_memory();
}
