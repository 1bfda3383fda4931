//! Changes of records. In a transaction a change is one entry. Outside one it is a begin, the change and a commit.

ghost use Rattle.std.specs.Prelude.{◌≡◌, ◌==◌, ℕ, ℤ, true, false, List, Some, nat_lt};
ghost use Rattle.jet_base.specs.declared.ids.CursorId.{CursorId};
ghost use Rattle.jet_base.specs.declared.words.Prepare.TheVariants as prepare;
ghost use Rattle.column_set.specs.declared.changes.Change.{Change};
ghost use Rattle.index_derive.specs.declared.rules.IndexRule.{IndexRule};
ghost use Rattle.index_derive.specs.declared.rules.Schema.{Schema};
ghost use Rattle.index_derive.specs.declared.log.EntryKind.TheVariants as entry;
ghost use Rattle.index_derive.specs.declared.log.Step.TheVariants.{Alone};
ghost use Rattle.index_derive.specs.Steps.{entries_of_step};
ghost use Rattle.column_set.specs.ChangedRecords.{changed_table, changed_bookmark};
ghost use Rattle.database_state.specs.State.{DatabaseState, PastChange, levels};
ghost use Rattle.database_state.specs.View.{view};
ghost use Rattle.database_state.specs.Conflicts.{has_write_conflict, has_key_conflict};
ghost use Rattle.database_state.specs.Step.{state_after};
ghost use Rattle.database_state.specs.Lawful.{is_lawful, is_live, log_limit};
ghost use Rattle.laws_versions.specs.Records.{Records};
ghost use Rattle.laws_versions.specs.History.{IsHistory};
ghost use Rattle.session_local.specs.declared.request.Request.TheVariants as call;
ghost use Rattle.session_local.specs.Agreement.{Agrees, has_lock};
ghost use Rattle.session_local.specs.Calls.{answer};
ghost use Rattle.session_local.specs.Outcome.{CallInputs};
ghost use Rattle.laws_engine.specs.LawfulSteps.{AreLawful, HasLawfulStep, IsReached, begin_of};

/// Outside a transaction a session meets the same conflicts as after a begin, which are those with the open changes of others,
/// and it sees the same. So a refusal that is asked before the begin holds behind it.
pub fn a_session_meets_the_same_after_its_begin()
    ensures conflict { (base : Records) (dropped kept : List PastChange) (state : DatabaseState) (session : ℕ) → IsHistory base dropped kept state → is_live state session ≡ true → (levels state session == 0) ≡ true
        → (change : Change) → has_write_conflict (state_after state (begin_of session)) session change ≡ has_write_conflict state session change }
    ensures key { (base : Records) (dropped kept : List PastChange) (state : DatabaseState) (session : ℕ) → IsHistory base dropped kept state → is_live state session ≡ true → (levels state session == 0) ≡ true
        → (table : ℕ) (schema : Schema) (rule : IndexRule) (key : List ℕ) → has_key_conflict (state_after state (begin_of session)) session table schema rule key ≡ has_key_conflict state session table schema rule key }
    ensures view { (base : Records) (dropped kept : List PastChange) (state : DatabaseState) (session : ℕ) → IsHistory base dropped kept state → is_live state session ≡ true → (levels state session == 0) ≡ true
        → view (state_after state (begin_of session)) session ≡ view state session }
{}

/// A change outside a transaction, where it is lawful behind its begin: so are the begin before it and the commit behind it.
pub fn a_change_alone_is_lawful()
    ensures { (base : Records) (dropped kept : List PastChange) (state : DatabaseState) (session : ℕ) (change : Change) → IsReached base dropped kept state → nat_lt state.number log_limit ≡ true → is_live state session ≡ true
        → (levels state session == 0) ≡ true → is_lawful (state_after state (begin_of session)) (record { session = record { 0 = session }; kind = entry.Change change }) ≡ true
        → AreLawful state (entries_of_step (Some (Alone (record { session = record { 0 = session }; kind = entry.Change change })))) }
{}

/// The step of a delete.
pub fn the_step_of_a_delete_is_lawful()
    ensures { (base : Records) (dropped kept : List PastChange) (asked : CallInputs) (cursor : CursorId) → IsReached base dropped kept asked.state → Agrees asked.state asked.session asked.local
        → HasLawfulStep asked.state (answer asked (call.Delete cursor)) }
{}

/// The step of a lock.
pub fn the_step_of_a_lock_is_lawful()
    ensures { (base : Records) (dropped kept : List PastChange) (asked : CallInputs) (cursor : CursorId) → IsReached base dropped kept asked.state → Agrees asked.state asked.session asked.local
        → HasLawfulStep asked.state (answer asked (call.GetLock cursor)) }
{}

/// The step of a sum of an escrow column.
pub fn the_step_of_a_sum_is_lawful()
    ensures { (base : Records) (dropped kept : List PastChange) (asked : CallInputs) (cursor : CursorId) (column : List ℕ) (amount : ℤ) → IsReached base dropped kept asked.state → Agrees asked.state asked.session asked.local
        → HasLawfulStep asked.state (answer asked (call.EscrowUpdate cursor column amount)) }
{}

/// The step of a replace that is prepared, which locks its record.
pub fn the_step_of_a_replace_is_lawful()
    ensures { (base : Records) (dropped kept : List PastChange) (asked : CallInputs) (cursor : CursorId) → IsReached base dropped kept asked.state → Agrees asked.state asked.session asked.local
        → HasLawfulStep asked.state (answer asked (call.PrepareUpdate cursor prepare.Replace)) }
{}

/// A record that a session has locked meets no write conflict of that session: who changed it before had committed when the
/// session's transaction began, and no one else changes it behind the lock.
pub fn a_locked_record_meets_no_write_conflict()
    ensures { (base : Records) (dropped kept : List PastChange) (state : DatabaseState) (session : ℕ) (change : Change) → IsHistory base dropped kept state → has_lock state session (changed_table change) (changed_bookmark change) ≡ true
        → has_write_conflict state session change ≡ false }
{}

/// The step of an update, in a transaction or alone. A replace holds the lock of its record. The bookmark of an insert is new: no
/// record stands under it, and no concurrent change touches it.
pub fn the_step_of_an_update_is_lawful()
    ensures { (base : Records) (dropped kept : List PastChange) (asked : CallInputs) (cursor : CursorId) → IsReached base dropped kept asked.state → Agrees asked.state asked.session asked.local
        → HasLawfulStep asked.state (answer asked (call.Update cursor)) }
{}
