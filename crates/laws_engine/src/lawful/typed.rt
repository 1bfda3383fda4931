//! Entries of answers are as their types have them.

ghost use Rattle.index_derive.specs.Steps.{entries_of_step};
ghost use Rattle.database_state.specs.Step.{state_after_all};
ghost use Rattle.session_local.specs.declared.request.Request.{Request};
ghost use Rattle.session_local.specs.Calls.{answer};
ghost use Rattle.session_local.specs.Outcome.{CallInputs};
ghost use Rattle.laws_engine.specs.EntryTypes.{AreOfTheirTypes, HasItsAmount, HasRisingUpdates};
ghost use Rattle.laws_engine.specs.LawfulSteps.{HasLawfulStep, IsReachedState};

/// Each entry of an answer is as its type has it: a sum adds the amount of its call, and an update puts the record that is
/// prepared, whose columns rise.
pub fn entries_of_answers_are_of_their_types()
    ensures { (asked : CallInputs) (request : Request) → HasItsAmount request → HasRisingUpdates asked.local → AreOfTheirTypes (entries_of_step (answer asked request).step) }
{}

/// So an answer whose step is lawful reaches the next state.
pub fn lawful_answers_reach_the_next_state()
    ensures { (asked : CallInputs) (request : Request) → IsReachedState asked.state → HasLawfulStep asked.state (answer asked request) → HasItsAmount request → HasRisingUpdates asked.local
        → IsReachedState (state_after_all asked.state (entries_of_step (answer asked request).step)) }
{}
