//! The record that a session sees, and the stored one that it finds.

ghost use Rattle.std.specs.Prelude.{◌≡◌, ℕ, ℤ, List, [], Some, option_map, is_some, true, false, FitsSigned};
ghost use Rattle.std.specs.Int.{w32, int_wrapping_sub};
ghost use Rattle.std.specs.List.{AllByRecursion};
ghost use Rattle.jet_base.specs.declared.words.ColType.TheVariants.{Long};
ghost use Rattle.jet_base.specs.ColumnType.{number_of};
ghost use Rattle.column_set.specs.declared.changes.Change.{Change};
ghost use Rattle.column_set.specs.RecordValues.{RecordFields, values_of};
ghost use Rattle.database_state.specs.Changes.{escrow_bytes};
ghost use Rattle.column_set.specs.ChangedRecords.{changed_bookmark, changed_table};
ghost use Rattle.database_state.specs.Conflicts.{has_write_conflict};
ghost use Rattle.database_state.specs.State.{DatabaseState, PastChange, Transaction, transaction_of};
ghost use Rattle.database_state.specs.View.{newest, view};
ghost use Rattle.laws_versions.specs.Records.{Records, records_of};
ghost use Rattle.laws_versions.specs.Readers.{found_record, hides};
ghost use Rattle.laws_versions.specs.History.{IsHistory};
ghost use Rattle.laws_versions.specs.EscrowNumbers.{holds_number};
ghost use Rattle.laws_versions.specs.EscrowSums.{with_sums, amounts_to, unseen_sums, escrow_value, without_amount, seen_value};

/// The record that a session finds, which is the one before the oldest put or drop that it does not see or else the newest
/// one, is the record that it sees with the sums made that it does not see and that stand before that put or drop.
pub fn a_session_finds_its_record_with_unseen_sums()
    ensures { (base : Records) (dropped kept : List PastChange) (state : DatabaseState) → IsHistory base dropped kept state → (session table : ℕ) (bookmark : List ℕ)
        → found_record session (transaction_of state session) table bookmark (records_of (newest state) table bookmark) kept
        ≡ option_map (λ values. with_sums values (unseen_sums session (transaction_of state session) table bookmark kept)) (records_of (view state session) table bookmark) }
{}

/// So the record that it sees is the one that it finds without these sums: it is there where that one is, a column without such
/// a sum has the same values, and an escrow column holds the stored number without their amounts, wrapping at 32 bits.
pub fn a_session_sees_its_record_without_unseen_sums()
    ensures there { (base : Records) (dropped kept : List PastChange) (state : DatabaseState) → IsHistory base dropped kept state → (session table : ℕ) (bookmark : List ℕ)
        → is_some (records_of (view state session) table bookmark) ≡ is_some (found_record session (transaction_of state session) table bookmark (records_of (newest state) table bookmark) kept) }
    ensures columns { (base : Records) (dropped kept : List PastChange) (state : DatabaseState) → IsHistory base dropped kept state → (session table : ℕ) (bookmark : List ℕ) (stored seen : RecordFields)
        → found_record session (transaction_of state session) table bookmark (records_of (newest state) table bookmark) kept ≡ Some stored → records_of (view state session) table bookmark ≡ Some seen
        → (column : ℕ) → amounts_to column (unseen_sums session (transaction_of state session) table bookmark kept) ≡ [] → values_of seen column ≡ values_of stored column }
    ensures sums { (base : Records) (dropped kept : List PastChange) (state : DatabaseState) → IsHistory base dropped kept state → (session table : ℕ) (bookmark : List ℕ) (stored seen : RecordFields)
        → found_record session (transaction_of state session) table bookmark (records_of (newest state) table bookmark) kept ≡ Some stored → records_of (view state session) table bookmark ≡ Some seen
        → (column : ℕ) → escrow_value seen column ≡ seen_value (escrow_value stored column) (amounts_to column (unseen_sums session (transaction_of state session) table bookmark kept)) }
{}

/// A change that meets no write conflict finds the newest record, also where it is a sum: no put or drop of the record stands that
/// its session does not see. So of what stands it does not see only sums of others.
pub fn an_unhindered_change_finds_the_stored_record_newest()
    ensures shown { (base : Records) (dropped kept : List PastChange) (state : DatabaseState) → IsHistory base dropped kept state → (session : ℕ) (t : Transaction) (change : Change) → transaction_of state session ≡ Some t
        → has_write_conflict state session change ≡ false → AllByRecursion (λ item. hides session (transaction_of state session) (changed_table change) (changed_bookmark change) item ≡ false) kept }
    ensures newest { (base : Records) (dropped kept : List PastChange) (state : DatabaseState) → IsHistory base dropped kept state → (session : ℕ) (t : Transaction) (change : Change) → transaction_of state session ≡ Some t
        → has_write_conflict state session change ≡ false
        → found_record session (transaction_of state session) (changed_table change) (changed_bookmark change) (records_of (newest state) (changed_table change) (changed_bookmark change)) kept
        ≡ records_of (newest state) (changed_table change) (changed_bookmark change) }
{}

/// Where the column holds a number, its bytes are read as those of any Long: so the number here is the one that EscrowUpdate and
/// RetrieveColumn answer.
pub fn an_escrow_column_is_read_as_a_long()
    ensures { (values : RecordFields) (column : ℕ) → holds_number values column ≡ true → number_of Long (escrow_bytes values column) ≡ escrow_value values column }
{}

/// Of 32-bit numbers an amount is taken away by a wrapping subtraction.
pub fn an_amount_is_taken_away_wrapping()
    ensures { (stored amount : ℤ) → FitsSigned w32 amount → without_amount stored amount ≡ int_wrapping_sub w32 stored amount }
{}
