//! Entries of other sessions.

ghost use Rattle.std.specs.Prelude.{◌≡◌, ◌==◌, ℕ, true, false, List, if◌then◌else◌};
ghost use Rattle.std.specs.List.{AllByRecursion};
ghost use Rattle.index_derive.specs.declared.log.Entry.{Entry};
ghost use Rattle.index_derive.specs.Steps.{entries_of_step};
ghost use Rattle.database_state.specs.State.{DatabaseState, PastChange};
ghost use Rattle.database_state.specs.Step.{state_after, state_after_all};
ghost use Rattle.database_state.specs.Lawful.{is_lawful};
ghost use Rattle.laws_versions.specs.Records.{Records};
ghost use Rattle.laws_versions.specs.History.{HasHistory, IsHistory};
ghost use Rattle.session_local.specs.Agreement.{Agrees};
ghost use Rattle.session_local.specs.Local.{LocalState};
ghost use Rattle.session_local.specs.Outcome.{CallInputs, Outcome};
ghost use Rattle.laws_engine.specs.LawfulSteps.{AreLawful, HasLawfulStep};
ghost use Rattle.laws_engine.specs.InStep.{IsInStep, StaysInStep};

/// Whatever lawful entry another session makes, a session's own state goes on to agree with the database state. A schema step
/// comes only where no session has the table open; a transaction sees the same as before, and keeps its locks; outside one only
/// inserts are prepared. So it does after all entries of an answer that another session was given.
pub fn entries_of_others_keep_a_session_in_step()
    ensures one { (base : Records) (dropped kept : List PastChange) (state : DatabaseState) (session : ℕ) (local : LocalState) (made : Entry) → IsHistory base dropped kept state → is_lawful state made ≡ true → (session == made.session.0) ≡ false
        → Agrees state session local → Agrees (state_after state made) session local }
    ensures many { (state : DatabaseState) (session : ℕ) (local : LocalState) (entries : List Entry) → HasHistory state → AreLawful state entries → AllByRecursion (λ made. (session == made.session.0) ≡ false) entries
        → Agrees state session local → Agrees (state_after_all state entries) session local }
{}

/// An answer whose step is lawful and of its own session, and that keeps this one in step, keeps all sessions in step: this one's
/// own state is as the answer leaves it, those of the others are as they were.
pub fn an_answer_keeps_all_sessions_in_step()
    ensures { (asked : CallInputs) (outcome : Outcome) → HasHistory asked.state → HasLawfulStep asked.state outcome → AllByRecursion (λ made. made.session.0 ≡ asked.session) (entries_of_step outcome.step) → StaysInStep asked outcome
        → (locals : ℕ → LocalState) → ((session : ℕ) → IsInStep asked.state session (locals session)) → (session : ℕ)
        → IsInStep (state_after_all asked.state (entries_of_step outcome.step)) session (if session == asked.session then outcome.local else locals session) }
{}
