//! Changes of records.

ghost use Rattle.std.specs.Prelude.{ℕ, ℤ, List};
ghost use Rattle.jet_base.specs.declared.ids.CursorId.{CursorId};
ghost use Rattle.jet_base.specs.declared.words.Prepare.TheVariants as prepare;
ghost use Rattle.database_state.specs.State.{PastChange};
ghost use Rattle.laws_versions.specs.Records.{Records};
ghost use Rattle.laws_versions.specs.History.{IsHistory};
ghost use Rattle.session_local.specs.declared.request.Request.TheVariants as call;
ghost use Rattle.session_local.specs.Calls.{answer};
ghost use Rattle.session_local.specs.Outcome.{CallInputs};
ghost use Rattle.laws_engine.specs.LawfulSteps.{IsReached};
ghost use Rattle.laws_engine.specs.InStep.{IsInStep, SeesStored, StaysInStep};

/// A lock leaves the records that the session has prepared to replace, and a delete of one of them is refused.
pub fn locks_and_deletes_keep_a_session_in_step()
    ensures lock { (base : Records) (dropped kept : List PastChange) (asked : CallInputs) (cursor : CursorId) → IsHistory base dropped kept asked.state → IsInStep asked.state asked.session asked.local → StaysInStep asked (answer asked (call.GetLock cursor)) }
    ensures delete { (base : Records) (dropped kept : List PastChange) (asked : CallInputs) (cursor : CursorId) → IsHistory base dropped kept asked.state → IsInStep asked.state asked.session asked.local → StaysInStep asked (answer asked (call.Delete cursor)) }
{}

/// A sum of an escrow column leaves the records that the session has prepared to replace, with their sums: of such a record it is
/// refused. A new record that is prepared has its own sums, which begin at 0.
pub fn sums_keep_a_session_in_step()
    ensures { (base : Records) (dropped kept : List PastChange) (asked : CallInputs) (cursor : CursorId) (column : List ℕ) (amount : ℤ) → IsHistory base dropped kept asked.state → IsInStep asked.state asked.session asked.local
        → StaysInStep asked (answer asked (call.EscrowUpdate cursor column amount)) }
{}

/// An update puts a record of the sums that the one in its place has. So what is prepared on other cursors may be stored still,
/// also a replace of the same record.
pub fn an_update_keeps_a_session_in_step()
    ensures { (base : Records) (dropped kept : List PastChange) (asked : CallInputs) (cursor : CursorId) → IsReached base dropped kept asked.state → IsInStep asked.state asked.session asked.local → StaysInStep asked (answer asked (call.Update cursor)) }
{}

/// A replace that is prepared is of a record of the view, which it locks; so it may be stored as it is, where all records that
/// the session sees fit their row and their columns. Its columns rise, as those of every record that is seen.
pub fn a_replace_is_prepared_in_step()
    ensures { (base : Records) (dropped kept : List PastChange) (asked : CallInputs) (cursor : CursorId) → IsReached base dropped kept asked.state → SeesStored asked.state asked.session
        → IsInStep asked.state asked.session asked.local → StaysInStep asked (answer asked (call.PrepareUpdate cursor prepare.Replace)) }
{}
