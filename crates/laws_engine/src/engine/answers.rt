//! Answers.

ghost use Rattle.std.specs.Prelude.{◌≡◌, ℕ, true};
ghost use Rattle.std.specs.List.{AllByRecursion};
ghost use Rattle.index_derive.specs.Steps.{entries_of_step};
ghost use Rattle.database_state.specs.State.{DatabaseState};
ghost use Rattle.database_state.specs.Step.{state_after_all};
ghost use Rattle.session_local.specs.declared.request.Request.{Request};
ghost use Rattle.session_local.specs.Calls.{answer};
ghost use Rattle.session_local.specs.Local.{LocalState};
ghost use Rattle.laws_engine.specs.EntryTypes.{AreOfTheirTypes};
ghost use Rattle.laws_engine.specs.LawfulSteps.{HasLawfulStep};
ghost use Rattle.laws_engine.specs.InStep.{IsInStep, StaysInStep};
ghost use Rattle.session_local.specs.BuiltCalls.{is_built_request};
ghost use Rattle.session_local.specs.BuiltTables.{AllMakeBuilt};
ghost use Rattle.laws_engine.specs.EngineState.{EngineState, HasRoomForEnds};
ghost use Rattle.laws_engine.specs.EngineSteps.{engine_after_answer};
ghost use Rattle.laws_engine.specs.HoldsState.{HoldsAllInStep, HoldsInStep, HoldsState, inputs_of, with_local};

/// The step of an answer is lawful, and the session that was answered stays in step.
pub fn an_answer_is_lawful_and_stays_in_step()
    ensures lawful { (engine : EngineState) (state : DatabaseState) → HoldsState engine state → (session : ℕ) (local : LocalState) (request : Request) → IsInStep state session local → is_built_request request ≡ true
        → HasLawfulStep state (answer (inputs_of engine state session local) request) }
    ensures in_step { (engine : EngineState) (state : DatabaseState) → HoldsState engine state → (session : ℕ) (local : LocalState) (request : Request) → IsInStep state session local → is_built_request request ≡ true
        → StaysInStep (inputs_of engine state session local) (answer (inputs_of engine state session local) request) }
{}

/// The entries of an answer make only what is built, are of the session that was answered, and are as their types have them.
pub fn an_answer_makes_what_is_built()
    ensures built { (engine : EngineState) (state : DatabaseState) (session : ℕ) (local : LocalState) (request : Request) → is_built_request request ≡ true → AllMakeBuilt (entries_of_step (answer (inputs_of engine state session local) request).step) }
    ensures own { (engine : EngineState) (state : DatabaseState) (session : ℕ) (local : LocalState) (request : Request) → is_built_request request ≡ true
        → AllByRecursion (λ made. made.session.0 ≡ session) (entries_of_step (answer (inputs_of engine state session local) request).step) }
    ensures typed { (engine : EngineState) (state : DatabaseState) (session : ℕ) (local : LocalState) (request : Request) → IsInStep state session local → is_built_request request ≡ true
        → AreOfTheirTypes (entries_of_step (answer (inputs_of engine state session local) request).step) }
{}

/// So the engine holds the state after an answer, and the session is in step with it, as are all others that were.
pub fn an_answer_is_held_in_step()
    ensures holds { (engine : EngineState) (state : DatabaseState) → HoldsState engine state → (session : ℕ) (local : LocalState) (request : Request) → IsInStep state session local → is_built_request request ≡ true
        → HoldsState (engine_after_answer engine (answer (inputs_of engine state session local) request).step) (state_after_all state (entries_of_step (answer (inputs_of engine state session local) request).step)) }
    ensures room { (engine : EngineState) (state : DatabaseState) → HoldsState engine state → (session : ℕ) (local : LocalState) (request : Request) → IsInStep state session local → is_built_request request ≡ true → HasRoomForEnds engine
        → HasRoomForEnds (engine_after_answer engine (answer (inputs_of engine state session local) request).step) }
    ensures in_step { (engine : EngineState) (session : ℕ) (local : LocalState) (request : Request) (h : HoldsInStep engine session local) → is_built_request request ≡ true
        → HoldsInStep (engine_after_answer engine (answer (inputs_of engine h.state session local) request).step) session (answer (inputs_of engine h.state session local) request).local }
    ensures all { (engine : EngineState) (locals : ℕ → LocalState) (session : ℕ) (request : Request) (h : HoldsAllInStep engine locals) → is_built_request request ≡ true
        → HoldsAllInStep (engine_after_answer engine (answer (inputs_of engine h.state session (locals session)) request).step) (with_local session (answer (inputs_of engine h.state session (locals session)) request).local locals) }
{}
