//! States that one engine holds.

ghost use Rattle.std.specs.Prelude.{◌≡◌, ℕ, true};
ghost use Rattle.index_derive.specs.declared.log.Entry.{Entry};
ghost use Rattle.database_state.specs.State.{DatabaseState};
ghost use Rattle.database_state.specs.Equivalence.{AreEquivalent};
ghost use Rattle.database_state.specs.Lawful.{is_lawful};
ghost use Rattle.session_local.specs.declared.request.Request.{Request};
ghost use Rattle.session_local.specs.Calls.{answer};
ghost use Rattle.session_local.specs.Local.{LocalState};
ghost use Rattle.laws_engine.specs.InStep.{IsInStep};
ghost use Rattle.laws_engine.specs.EngineState.{EngineState};
ghost use Rattle.laws_engine.specs.HoldsState.{HoldsState, inputs_of};
ghost use Rattle.laws_engine.specs.PlainIndexes.{read_no_sums};

/// Two states that one engine holds are equivalent: the newest records, the held changes with the records before them and the
/// sessions without their snapshots tell the committed tables, each snapshot and all that matters of the past.
pub fn states_that_one_engine_holds_are_equivalent()
    ensures { (engine : EngineState) (one other : DatabaseState) → HoldsState engine one → HoldsState engine other → AreEquivalent one other }
{}

/// No index of a state that an engine holds reads a sum, so that it answers and takes entries as each equivalent state does.
pub fn indexes_of_held_states_read_no_sums()
    ensures { (engine : EngineState) (state : DatabaseState) → HoldsState engine state → read_no_sums state.tables ≡ true }
{}

/// So what an engine holds tells every answer and which entries may be logged, whichever of its states is meant.
pub fn states_that_one_engine_holds_answer_alike()
    ensures answers { (engine : EngineState) (one other : DatabaseState) → HoldsState engine one → HoldsState engine other
        → (session : ℕ) (local : LocalState) → IsInStep one session local → (request : Request) → answer (inputs_of engine one session local) request ≡ answer (inputs_of engine other session local) request }
    ensures entries { (engine : EngineState) (one other : DatabaseState) → HoldsState engine one → HoldsState engine other
        → (made : Entry) → is_lawful one made ≡ is_lawful other made }
{}
