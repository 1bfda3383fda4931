//! What calls are answered in equivalent states.

ghost use Rattle.std.specs.Prelude.{◌≡◌, ℕ, true};
ghost use Rattle.database_state.specs.State.{DatabaseState};
ghost use Rattle.database_state.specs.Equivalence.{AreEquivalent};
ghost use Rattle.session_local.specs.declared.request.Request.{Request};
ghost use Rattle.session_local.specs.Local.{LocalState};
ghost use Rattle.session_local.specs.Agreement.{Agrees};
ghost use Rattle.session_local.specs.Calls.{answer};
ghost use Rattle.laws_engine.specs.PlainIndexes.{read_no_sums};

/// A session's own state that agrees with one of two equivalent states agrees with the other.
pub fn equivalent_states_agree_with_the_same_sessions()
    ensures { (one other : DatabaseState) → AreEquivalent one other → (session : ℕ) (local : LocalState) → Agrees one session local → Agrees other session local }
{}

/// Every call of every session is answered alike in two equivalent states: the reply, the session's own state afterwards and
/// the step that the log takes are the same, whatever the limit of the version store is.
pub fn equivalent_states_answer_every_call_alike()
    ensures { (one other : DatabaseState) → AreEquivalent one other → read_no_sums one.tables ≡ true
        → (limit session : ℕ) (local : LocalState) → Agrees one session local → (request : Request)
        → answer (record { limit = limit; state = one; session = session; local = local }) request
        ≡ answer (record { limit = limit; state = other; session = session; local = local }) request }
{}
