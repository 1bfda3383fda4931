//! What a log gives when it is read back and replayed.

ghost use Rattle.std.specs.Prelude.{◌≡◌, ◌≤◌, ◌++◌, [], ℕ, true, List, Some};
ghost use Rattle.index_derive.specs.declared.log.Entry.{Entry};
ghost use Rattle.index_derive.specs.declared.log.Step.{Step};
ghost use Rattle.index_derive.specs.Steps.{entries_of_step};
ghost use Rattle.database_state.specs.State.{DatabaseState};
ghost use Rattle.database_state.specs.Step.{state_after_all};
ghost use Rattle.laws_engine.specs.EntryTypes.{AreOfTheirTypes};
ghost use Rattle.laws_engine.specs.LawfulSteps.{AreLawful};
ghost use Rattle.session_local.specs.BuiltTables.{AllMakeBuilt};
ghost use Rattle.laws_engine.specs.EngineState.{EngineState, cleaned, engine_of};
ghost use Rattle.laws_engine.specs.EngineSteps.{engine_after_all, engine_after_step};
ghost use Rattle.laws_engine.specs.HoldsState.{HoldsState};
ghost use Rattle.log_grammar.specs.EntryStreams.{Holds, stream_bytes};
ghost use Rattle.entry_log.specs.LogState.{KeptStream, appended, empty_stream, stream_end, trimmed_to};
ghost use Rattle.loggable_steps.specs.Loggable.{is_loggable, made_by};
ghost use Rattle.loggable_steps.specs.Replays.{HasLogged, IsCutLog, closed, opened_state, whole_stream};

/// A log begins with an engine of any state, by no entry. It goes on by each step that is lawful in a state that the engine holds
/// and whose entry can be written. Whatever leaves the states that the engine holds, as a clean does, leaves its log, and so does
/// a trim.
pub fn a_log_goes_on_with_its_engine()
    ensures first { (opening : DatabaseState) (engine : EngineState) → HoldsState engine opening → HasLogged opening [] engine empty_stream }
    ensures step { (opening : DatabaseState) (entries : List Entry) (engine : EngineState) (stream : KeptStream) → HasLogged opening entries engine stream
        → (state : DatabaseState) (step : Step) → HoldsState engine state → AreLawful state (entries_of_step (Some step)) → AllMakeBuilt (entries_of_step (Some step)) → AreOfTheirTypes (entries_of_step (Some step)) → is_loggable (made_by step) ≡ true
        → HasLogged opening (entries ++ entries_of_step (Some step)) (engine_after_step engine step) (appended (stream_bytes (entries_of_step (Some step))) stream) }
    ensures same { (opening : DatabaseState) (entries : List Entry) (engine other : EngineState) (stream : KeptStream) → HasLogged opening entries engine stream
        → ((state : DatabaseState) → HoldsState engine state → HoldsState other state) → HasLogged opening entries other stream }
    ensures trimmed { (opening : DatabaseState) (entries : List Entry) (engine : EngineState) (stream : KeptStream) (position : ℕ) → HasLogged opening entries engine stream
        → position ≤ stream_end stream → HasLogged opening entries engine (trimmed_to position stream) }
{}

/// The entries that are read back from the bytes of a whole log are those that were made, up to the last byte. So they are lawful
/// in turn from the opening state, and their replay from there gives the state that the engine holds.
pub fn a_log_is_read_back_and_replayed()
    ensures read { (opening : DatabaseState) (entries : List Entry) (engine : EngineState) (stream : KeptStream) → HasLogged opening entries engine stream → stream.from ≡ 0
        → (read : List Entry) (rest : List ℕ) → Holds stream.bytes read rest → (read ≡ entries) × (rest ≡ []) }
    ensures replay { (opening : DatabaseState) (entries : List Entry) (engine : EngineState) (stream : KeptStream) → HasLogged opening entries engine stream → stream.from ≡ 0
        → (read : List Entry) (rest : List ℕ) → Holds stream.bytes read rest → AreLawful opening read × HoldsState engine (state_after_all opening read) }
{}

/// Any front of the bytes of a whole log, as a crash leaves it, is read back in one way: as the first of the entries, up to a rest
/// that is cut from an entry or has no byte. These entries are a whole log of their own. So they are lawful in turn from the
/// opening state, and an engine of that state that takes them holds the state after them.
pub fn a_front_of_a_log_is_a_log_of_its_first_entries()
    ensures read { (opening : DatabaseState) (entries : List Entry) (engine : EngineState) (stream : KeptStream) → HasLogged opening entries engine stream → stream.from ≡ 0
        → (front behind : List ℕ) → stream.bytes ≡ front ++ behind → (read : List Entry) × (rest : List ℕ) × Holds front read rest }
    ensures first { (opening : DatabaseState) (entries : List Entry) (engine : EngineState) (stream : KeptStream) → HasLogged opening entries engine stream → stream.from ≡ 0
        → (front behind : List ℕ) → stream.bytes ≡ front ++ behind → (read : List Entry) (rest : List ℕ) → Holds front read rest → IsCutLog entries read rest }
    ensures replay { (opening : DatabaseState) (entries : List Entry) (engine : EngineState) (stream : KeptStream) → HasLogged opening entries engine stream → stream.from ≡ 0
        → (front behind : List ℕ) → stream.bytes ≡ front ++ behind → (read : List Entry) (rest : List ℕ) → Holds front read rest
        → (first : EngineState) → HoldsState first opening → HasLogged opening read (engine_after_all first read) (whole_stream read) }
{}

/// An engine without sessions tells its state: the tables are the committed ones, and nothing of its past matters. Once it is
/// cleaned it is the very engine that is made of these tables.
pub fn an_engine_without_sessions_tells_its_state()
    ensures state { (engine : EngineState) (state : DatabaseState) → HoldsState engine state → engine.sessions ≡ [] → opened_state engine ≡ closed state }
    ensures cleaned { (engine : EngineState) (state : DatabaseState) → HoldsState engine state → engine.sessions ≡ [] → cleaned engine ≡ engine_of engine.limit engine.newest_put (closed state) }
    ensures opened { (limit newest : ℕ) (state : DatabaseState) → opened_state (engine_of limit newest state) ≡ closed state }
{}

/// What is left once all sessions are given up is a state that an engine of its tables holds. So an engine that was read back and
/// replayed goes on from there.
pub fn a_closed_state_is_held_by_its_tables()
    ensures holds { (engine : EngineState) (state : DatabaseState) → HoldsState engine state → (limit newest : ℕ) → newest ≤ state.number → HoldsState (engine_of limit newest (closed state)) (closed state) }
{}
