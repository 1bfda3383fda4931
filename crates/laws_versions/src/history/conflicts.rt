//! Write conflicts, from the changes that are kept.

ghost use Rattle.std.specs.Prelude.{◌≡◌, ℕ, false, List, Some, filter};
ghost use Rattle.std.specs.List.{list_any};
ghost use Rattle.column_set.specs.declared.changes.Change.{Change};
ghost use Rattle.database_state.specs.Changes.{is_sum};
ghost use Rattle.column_set.specs.ChangedRecords.{changed_table, changed_bookmark};
ghost use Rattle.database_state.specs.State.{DatabaseState, PastChange, Transaction, transaction_of};
ghost use Rattle.database_state.specs.View.{newest, view};
ghost use Rattle.database_state.specs.Conflicts.{collide, is_concurrent, concurrent_changes, has_write_conflict};
ghost use Rattle.laws_versions.specs.Records.{Records, records_of};
ghost use Rattle.laws_versions.specs.History.{IsHistory};

/// The concurrent changes of a session, and so its write conflicts, are found among the kept changes.
pub fn write_conflicts_are_kept()
    ensures changes { (base : Records) (dropped kept : List PastChange) (state : DatabaseState) → IsHistory base dropped kept state → (session : ℕ)
        → concurrent_changes state session ≡ filter (is_concurrent session (transaction_of state session)) kept }
    ensures conflict { (base : Records) (dropped kept : List PastChange) (state : DatabaseState) → IsHistory base dropped kept state → (session : ℕ) (change : Change)
        → has_write_conflict state session change ≡ list_any (λ item. collide item.change change) (filter (is_concurrent session (transaction_of state session)) kept) }
{}

/// A change that is no sum and meets no write conflict finds its record in the newest state as its session sees it.
pub fn an_unhindered_change_finds_its_record_newest()
    ensures { (base : Records) (dropped kept : List PastChange) (state : DatabaseState) → IsHistory base dropped kept state → (session : ℕ) (t : Transaction) (change : Change) → transaction_of state session ≡ Some t
        → is_sum change ≡ false → has_write_conflict state session change ≡ false
        → records_of (newest state) (changed_table change) (changed_bookmark change) ≡ records_of (view state session) (changed_table change) (changed_bookmark change) }
{}
