//! Sessions and transactions.

ghost use Rattle.std.specs.Prelude.{Bool, List};
ghost use Rattle.database_state.specs.State.{PastChange};
ghost use Rattle.laws_versions.specs.Records.{Records};
ghost use Rattle.session_local.specs.declared.request.Request.TheVariants as call;
ghost use Rattle.session_local.specs.Agreement.{Agrees};
ghost use Rattle.session_local.specs.Calls.{answer};
ghost use Rattle.session_local.specs.Outcome.{CallInputs};
ghost use Rattle.laws_engine.specs.LawfulSteps.{HasLawfulStep, IsReached};

/// The steps of a session's begin and of its end.
pub fn steps_of_sessions_are_lawful()
    ensures begin { (asked : CallInputs) → Agrees asked.state asked.session asked.local → HasLawfulStep asked.state (answer asked call.BeginSession) }
    ensures end { (asked : CallInputs) → Agrees asked.state asked.session asked.local → HasLawfulStep asked.state (answer asked call.EndSession) }
{}

/// The steps of a transaction's begin and of a rollback, of a level or of all.
pub fn steps_of_transactions_are_lawful()
    ensures begin { (asked : CallInputs) → Agrees asked.state asked.session asked.local → HasLawfulStep asked.state (answer asked call.BeginTransaction) }
    ensures rollback { (asked : CallInputs) (all : Bool) → Agrees asked.state asked.session asked.local → HasLawfulStep asked.state (answer asked (call.Rollback all)) }
{}

/// The step of a commit, of an inner level and of the outermost one, which finds no unique key twice.
pub fn the_step_of_a_commit_is_lawful()
    ensures { (base : Records) (dropped kept : List PastChange) (asked : CallInputs) (lazy : Bool) → IsReached base dropped kept asked.state → Agrees asked.state asked.session asked.local
        → HasLawfulStep asked.state (answer asked (call.CommitTransaction lazy)) }
{}
