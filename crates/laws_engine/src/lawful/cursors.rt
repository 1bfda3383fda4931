//! Opening and closing tables.

ghost use Rattle.jet_base.specs.declared.ids.CursorId.{CursorId};
ghost use Rattle.std.specs.Prelude.{ℕ, List};
ghost use Rattle.session_local.specs.declared.request.Request.TheVariants as call;
ghost use Rattle.session_local.specs.Agreement.{Agrees};
ghost use Rattle.session_local.specs.Calls.{answer};
ghost use Rattle.session_local.specs.Outcome.{CallInputs};
ghost use Rattle.laws_engine.specs.LawfulSteps.{HasLawfulStep};

/// The step of opening a table.
pub fn the_step_of_an_open_is_lawful()
    ensures { (asked : CallInputs) (cursor : CursorId) (table : List ℕ) → Agrees asked.state asked.session asked.local → HasLawfulStep asked.state (answer asked (call.OpenTable cursor table)) }
{}

/// The step of closing a cursor: the session has its table open.
pub fn the_step_of_a_close_is_lawful()
    ensures { (asked : CallInputs) (cursor : CursorId) → Agrees asked.state asked.session asked.local → HasLawfulStep asked.state (answer asked (call.CloseTable cursor)) }
{}
