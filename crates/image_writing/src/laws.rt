//! Laws of images: an image loses nothing of an engine but undone changes, and these tell in nothing but the room that they take
//! in the version store. The functions do nothing: their contracts are the laws.

ghost use Rattle.std.specs.Prelude.{◌≡◌, ◌≤◌, ◌+◌, ◌-◌, ℕ, true, false, List};
ghost use Rattle.index_derive.specs.declared.log.Entry.{Entry};
ghost use Rattle.database_state.specs.Equivalence.{AreEquivalent};
ghost use Rattle.database_state.specs.Lawful.{is_lawful};
ghost use Rattle.database_state.specs.State.{DatabaseState};
ghost use Rattle.database_state.specs.Step.{state_after};
ghost use Rattle.database_state.specs.VersionStore.{version_span};
ghost use Rattle.image_findings.specs.Findings.{engine_in};
ghost use Rattle.image_findings.specs.Images.{ImageContents};
ghost use Rattle.laws_engine.specs.EngineState.{EngineState};
ghost use Rattle.laws_engine.specs.EngineSteps.{engine_after_answer};
ghost use Rattle.laws_engine.specs.HoldsState.{HoldsState, inputs_of, with_local};
ghost use Rattle.laws_engine.specs.InStep.{IsInStep};
ghost use Rattle.laws_engine.specs.LawfulRuns.{GoesLawfully};
ghost use Rattle.laws_engine.specs.PlainColumns.{HasPlainIndexes};
ghost use Rattle.laws_engine.specs.PlainIndexes.{read_no_sums};
ghost use Rattle.laws_images.specs.Settled.{settled};
ghost use Rattle.laws_versions.specs.History.{EachTwo, HasHistory, LabelsRise};
ghost use Rattle.session_local.specs.declared.request.Request.{Request};
ghost use Rattle.session_local.specs.Agreement.{Agrees};
ghost use Rattle.session_local.specs.BuiltCalls.{is_built_request};
ghost use Rattle.session_local.specs.Calls.{answer};
ghost use Rattle.session_local.specs.Local.{LocalState};
ghost use Rattle.session_local.specs.Run.{Line, LineOutcome, RunState, log_from, rows_from, run_after_all};
ghost use Rattle.image_writing.specs.EngineImages.{ShowsEngine};
ghost use Rattle.image_writing.specs.ReadBack.{GoesAlongside, span_of};
ghost use Rattle.image_writing.specs.LighterStates.{DiffersInUndone, have_room, is_out_of_room, undone_span};

use laws_engine::{
    an_answer_is_held_in_step, an_answer_is_lawful_and_stays_in_step,
    an_answer_keeps_all_sessions_in_step, an_answer_makes_what_is_built, conflicts_are_told,
};

/// Undone changes tell in the version store's span alone. So a state without them answers every call of every session as the state
/// does, where its limit is lower by what they take; and under the same limit wherever the state does not refuse the call for want
/// of room.
pub fn undone_changes_tell_in_the_span_alone()
    ensures span { (state : DatabaseState) → version_span state ≡ version_span (settled state) + undone_span state }
    ensures answers { (state : DatabaseState) (limit session : ℕ) (local : LocalState) (request : Request)
        → answer (record { limit = limit; state = state; session = session; local = local }) request
        ≡ answer (record { limit = limit - undone_span state; state = settled state; session = session; local = local }) request }
    ensures room { (state : DatabaseState) (limit session : ℕ) (local : LocalState) (request : Request)
        → is_out_of_room (answer (record { limit = limit; state = state; session = session; local = local }) request) ≡ false
        → answer (record { limit = limit; state = state; session = session; local = local }) request
        ≡ answer (record { limit = limit; state = settled state; session = session; local = local }) request }
{}

/// A state and the one without its undone changes differ in undone changes, and so do the states to which the same lawful entries
/// lead: whatever comes, the other one has no more of them. A session that agrees with the one agrees with the other.
pub fn states_go_on_to_differ_in_undone_changes()
    ensures settled { (state : DatabaseState) → HasHistory state → DiffersInUndone state (settled state) }
    ensures equivalent { (one other another : DatabaseState) → DiffersInUndone one other → AreEquivalent other another → DiffersInUndone one another }
    ensures span { (one other : DatabaseState) → DiffersInUndone one other → version_span other ≤ version_span one }
    ensures agrees { (one other : DatabaseState) → DiffersInUndone one other → (session : ℕ) (local : LocalState) → Agrees one session local → Agrees other session local }
    ensures takes { (one other : DatabaseState) → DiffersInUndone one other → read_no_sums one.tables ≡ true → (made : Entry) → is_lawful one made ≡ is_lawful other made }
    ensures after { (one other : DatabaseState) → DiffersInUndone one other → HasHistory other → EachTwo LabelsRise one.sessions
        → (made : Entry) → is_lawful one made ≡ true → DiffersInUndone (state_after one made) (state_after other made) }
{}

/// Such states answer every call of every session alike, where the limit of the other one is lower by what their spans differ; and
/// under the same limit wherever the one does not refuse the call for want of room in the version store.
pub fn states_that_differ_in_undone_changes_answer_alike()
    ensures limits { (one other : DatabaseState) → DiffersInUndone one other → read_no_sums one.tables ≡ true
        → (limit session : ℕ) (local : LocalState) → Agrees one session local → (request : Request)
        → answer (record { limit = limit; state = one; session = session; local = local }) request
        ≡ answer (record { limit = limit - (version_span one - version_span other); state = other; session = session; local = local }) request }
    ensures room { (one other : DatabaseState) → DiffersInUndone one other → read_no_sums one.tables ≡ true
        → (limit session : ℕ) (local : LocalState) → Agrees one session local → (request : Request)
        → is_out_of_room (answer (record { limit = limit; state = one; session = session; local = local }) request) ≡ false
        → answer (record { limit = limit; state = one; session = session; local = local }) request
        ≡ answer (record { limit = limit; state = other; session = session; local = local }) request }
{}

/// A run of lines for whose changes there is room goes the same from two states that differ in undone changes, in which all sessions
/// are where they were: its rows and its log are the same, and the states that it leads to differ in undone changes again. So the
/// first line that tells them apart is one that is refused for want of room.
pub fn runs_with_room_go_the_same()
    ensures rows { (limit : ℕ) (one other : RunState) → DiffersInUndone one.state other.state → one.sessions ≡ other.sessions → HasHistory one.state → HasHistory other.state → EachTwo LabelsRise one.state.sessions
        → HasPlainIndexes one.state → (pairs : List (Line × LineOutcome)) → GoesLawfully limit one pairs → have_room limit one pairs ≡ true → rows_from limit one pairs ≡ rows_from limit other pairs }
    ensures log { (limit : ℕ) (one other : RunState) → DiffersInUndone one.state other.state → one.sessions ≡ other.sessions → HasHistory one.state → HasHistory other.state → EachTwo LabelsRise one.state.sessions
        → HasPlainIndexes one.state → (pairs : List (Line × LineOutcome)) → GoesLawfully limit one pairs → have_room limit one pairs ≡ true → log_from limit one pairs ≡ log_from limit other pairs }
    ensures after { (limit : ℕ) (one other : RunState) → DiffersInUndone one.state other.state → one.sessions ≡ other.sessions → HasHistory one.state → HasHistory other.state → EachTwo LabelsRise one.state.sessions
        → HasPlainIndexes one.state → (pairs : List (Line × LineOutcome)) → GoesLawfully limit one pairs → have_room limit one pairs ≡ true
        → DiffersInUndone (run_after_all limit one pairs).state (run_after_all limit other pairs).state }
{}

/// So an image loses nothing. The engine that is made of an engine's image goes alongside that engine, and each call of each session
/// that both answer alike leaves them so. The other one answers every call alike where its limit is lower by what it has spared of the
/// version store's span; and under the same limit wherever the engine does not refuse the call for want of room.
pub fn an_image_loses_nothing()
    ensures begins { (engine : EngineState) (state : DatabaseState) (image : ImageContents) (locals : ℕ → LocalState) → HoldsState engine state → ((session : ℕ) → IsInStep state session (locals session))
        → ShowsEngine engine state image → (limit : ℕ) → GoesAlongside locals engine (engine_in limit image) }
    ensures limits { (locals : ℕ → LocalState) (engine other : EngineState) (h : GoesAlongside locals engine other) → other.limit ≡ engine.limit - (span_of engine - span_of other) → (session : ℕ) (request : Request)
        → answer (inputs_of engine h.state session (locals session)) request ≡ answer (inputs_of other h.shown session (locals session)) request }
    ensures room { (locals : ℕ → LocalState) (engine other : EngineState) (h : GoesAlongside locals engine other) → other.limit ≡ engine.limit → (session : ℕ) (request : Request)
        → is_out_of_room (answer (inputs_of engine h.state session (locals session)) request) ≡ false
        → answer (inputs_of engine h.state session (locals session)) request ≡ answer (inputs_of other h.shown session (locals session)) request }
    ensures after { (locals : ℕ → LocalState) (engine other : EngineState) (h : GoesAlongside locals engine other) (session : ℕ) (request : Request) → is_built_request request ≡ true
        → answer (inputs_of engine h.state session (locals session)) request ≡ answer (inputs_of other h.shown session (locals session)) request
        → GoesAlongside (with_local session (answer (inputs_of engine h.state session (locals session)) request).local locals)
        (engine_after_answer engine (answer (inputs_of engine h.state session (locals session)) request).step)
        (engine_after_answer other (answer (inputs_of engine h.state session (locals session)) request).step) }
{
    an_answer_is_held_in_step();
    an_answer_is_lawful_and_stays_in_step();
    an_answer_keeps_all_sessions_in_step();
    an_answer_makes_what_is_built();
    conflicts_are_told();
}
