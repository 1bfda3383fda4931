//! What entries and cleans leave.

ghost use Rattle.std.specs.Prelude.{◌≡◌, ◌+◌, ◌^◌, ◌≤◌, true, [], List, Some};
ghost use Rattle.index_derive.specs.declared.log.Entry.{Entry};
ghost use Rattle.index_derive.specs.declared.log.Step.{Step};
ghost use Rattle.index_derive.specs.Steps.{entries_of_step};
ghost use Rattle.database_state.specs.State.{DatabaseState};
ghost use Rattle.database_state.specs.Step.{state_after, state_after_all};
ghost use Rattle.database_state.specs.Lawful.{is_lawful};
ghost use Rattle.laws_versions.specs.RecordNumbers.{HasItsType};
ghost use Rattle.laws_engine.specs.EntryTypes.{AreOfTheirTypes};
ghost use Rattle.laws_engine.specs.LawfulSteps.{AreLawful};
ghost use Rattle.session_local.specs.BuiltTables.{AllMakeBuilt, makes_built};
ghost use Rattle.laws_engine.specs.EngineState.{EngineState, HasRoomForEnds, cleaned};
ghost use Rattle.laws_engine.specs.EngineSteps.{engine_after, engine_after_all, engine_after_step};
ghost use Rattle.laws_engine.specs.HoldsState.{HoldsState};

/// An engine that holds a state holds the next one after a lawful entry that makes only what is built and is as its type has it.
/// So it does after entries that are lawful each in its turn.
pub fn a_lawful_entry_makes_the_next_state()
    ensures one { (engine : EngineState) (state : DatabaseState) (made : Entry) → HoldsState engine state → is_lawful state made ≡ true → makes_built made.kind ≡ true → HasItsType made.kind
        → HoldsState (engine_after engine made) (state_after state made) }
    ensures many { (engine : EngineState) (state : DatabaseState) (entries : List Entry) → HoldsState engine state → AreLawful state entries → AllMakeBuilt entries → AreOfTheirTypes entries
        → HoldsState (engine_after_all engine entries) (state_after_all state entries) }
{}

/// A clean of the oldest held changes leaves the state that the engine holds.
pub fn a_clean_leaves_the_state()
    ensures { (engine : EngineState) (state : DatabaseState) → HoldsState engine state → HoldsState (cleaned engine) state }
{}

/// So an engine holds the next state after a whole step.
pub fn a_lawful_step_makes_the_next_state()
    ensures { (engine : EngineState) (state : DatabaseState) (step : Step) → HoldsState engine state → AreLawful state (entries_of_step (Some step)) → AllMakeBuilt (entries_of_step (Some step)) → AreOfTheirTypes (entries_of_step (Some step))
        → HoldsState (engine_after_step engine step) (state_after_all state (entries_of_step (Some step))) }
{}

/// No more is to end than was begun, and so the number of the log has room for all ends: it stays below 2^36. Where no session is
/// live there is room as soon as a step can come.
pub fn ends_always_find_room()
    ensures one { (engine : EngineState) (state : DatabaseState) (made : Entry) → HoldsState engine state → is_lawful state made ≡ true → HasRoomForEnds engine → HasRoomForEnds (engine_after engine made) }
    ensures many { (engine : EngineState) (state : DatabaseState) (entries : List Entry) → HoldsState engine state → AreLawful state entries → AllMakeBuilt entries → AreOfTheirTypes entries
        → HasRoomForEnds engine → HasRoomForEnds (engine_after_all engine entries) }
    ensures step { (engine : EngineState) (state : DatabaseState) (step : Step) → HoldsState engine state → AreLawful state (entries_of_step (Some step)) → AllMakeBuilt (entries_of_step (Some step)) → AreOfTheirTypes (entries_of_step (Some step))
        → HasRoomForEnds engine → HasRoomForEnds (engine_after_step engine step) }
    ensures most { (engine : EngineState) → HasRoomForEnds engine → engine.number ≤ 2 ^ 35 + 1 }
    ensures none_live { (engine : EngineState) (state : DatabaseState) (step : Step) → HoldsState engine state → AreLawful state (entries_of_step (Some step)) → engine.sessions ≡ [] → HasRoomForEnds engine }
{}
