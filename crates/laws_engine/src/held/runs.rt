//! Runs of lines from equivalent states.

ghost use Rattle.std.specs.Prelude.{◌≡◌, ℕ, List};
ghost use Rattle.database_state.specs.Equivalence.{AreEquivalent};
ghost use Rattle.session_local.specs.Run.{Line, LineOutcome, RunState, rows_from, log_from, run_after_all};
ghost use Rattle.laws_versions.specs.History.{EachTwo, LabelsRise, HasHistory};
ghost use Rattle.laws_engine.specs.LawfulRuns.{GoesLawfully};
ghost use Rattle.laws_engine.specs.PlainColumns.{HasPlainIndexes};

/// A run of lines goes the same from two equivalent states in which all sessions are where they were: its rows and its log are
/// the same, and the states that it leads to are equivalent. So no row tells what was forgotten.
pub fn runs_go_the_same_from_equivalent_states()
    ensures rows { (limit : ℕ) (one other : RunState) → AreEquivalent one.state other.state → one.sessions ≡ other.sessions → HasHistory one.state → HasHistory other.state → EachTwo LabelsRise one.state.sessions
        → HasPlainIndexes one.state → (pairs : List (Line × LineOutcome)) → GoesLawfully limit one pairs → rows_from limit one pairs ≡ rows_from limit other pairs }
    ensures log { (limit : ℕ) (one other : RunState) → AreEquivalent one.state other.state → one.sessions ≡ other.sessions → HasHistory one.state → HasHistory other.state → EachTwo LabelsRise one.state.sessions
        → HasPlainIndexes one.state → (pairs : List (Line × LineOutcome)) → GoesLawfully limit one pairs → log_from limit one pairs ≡ log_from limit other pairs }
    ensures after { (limit : ℕ) (one other : RunState) → AreEquivalent one.state other.state → one.sessions ≡ other.sessions → HasHistory one.state → HasHistory other.state → EachTwo LabelsRise one.state.sessions
        → HasPlainIndexes one.state → (pairs : List (Line × LineOutcome)) → GoesLawfully limit one pairs → AreEquivalent (run_after_all limit one pairs).state (run_after_all limit other pairs).state }
{}
