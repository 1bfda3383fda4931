//! Sessions and transactions.

ghost use Rattle.std.specs.Prelude.{◌≡◌, ℕ, Bool, false, List};
ghost use Rattle.database_state.specs.State.{DatabaseState, PastChange};
ghost use Rattle.database_state.specs.Lawful.{is_live};
ghost use Rattle.laws_versions.specs.Records.{Records};
ghost use Rattle.laws_versions.specs.History.{IsHistory};
ghost use Rattle.session_local.specs.declared.request.Request.TheVariants as call;
ghost use Rattle.session_local.specs.Calls.{answer};
ghost use Rattle.session_local.specs.Local.{no_session};
ghost use Rattle.session_local.specs.Outcome.{CallInputs};
ghost use Rattle.laws_engine.specs.InStep.{IsInStep, StaysInStep};

/// A session that is not live is in step with nothing of its own. One that begins has no cursor, and no table open; one that ends
/// is as before its begin.
pub fn a_session_begins_and_ends_in_step()
    ensures before { (state : DatabaseState) (session : ℕ) → is_live state session ≡ false → IsInStep state session no_session }
    ensures begin { (asked : CallInputs) → IsInStep asked.state asked.session asked.local → StaysInStep asked (answer asked call.BeginSession) }
    ensures end { (asked : CallInputs) → IsInStep asked.state asked.session asked.local → StaysInStep asked (answer asked call.EndSession) }
{}

/// A begin and an inner commit leave what the session sees, and its locks; the outermost commit and every rollback end what is
/// prepared.
pub fn transactions_keep_a_session_in_step()
    ensures begin { (base : Records) (dropped kept : List PastChange) (asked : CallInputs) → IsHistory base dropped kept asked.state → IsInStep asked.state asked.session asked.local → StaysInStep asked (answer asked call.BeginTransaction) }
    ensures commit { (asked : CallInputs) (lazy : Bool) → IsInStep asked.state asked.session asked.local → StaysInStep asked (answer asked (call.CommitTransaction lazy)) }
    ensures rollback { (asked : CallInputs) (all : Bool) → IsInStep asked.state asked.session asked.local → StaysInStep asked (answer asked (call.Rollback all)) }
{}
