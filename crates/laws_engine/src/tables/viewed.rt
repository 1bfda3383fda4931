//! The record that a reader views, where others changed its escrow columns.

ghost use Rattle.std.specs.Prelude.{◌≡◌, ℕ, ℤ, List, [], Option, true, is_some, map, FitsSigned};
ghost use Rattle.std.specs.Int.{w32, cast_signed, int_wrapping_sub};
ghost use Rattle.std.specs.List.{AllByRecursion};
ghost use Rattle.column_set.specs.RecordValues.{RecordFields, values_of};
ghost use Rattle.database_state.specs.State.{DatabaseState, PastChange, transaction_of};
ghost use Rattle.database_state.specs.Table.{record_in, table_with_id};
ghost use Rattle.database_state.specs.View.{view};
ghost use Rattle.laws_versions.specs.Records.{Records};
ghost use Rattle.laws_versions.specs.RecordNumbers.{HasEscrowNumbers};
ghost use Rattle.version_store.specs.declared.calls.Reader.{Reader};
ghost use Rattle.version_store.specs.HeldChanges.{HeldChange};
ghost use Rattle.version_store.specs.Sums.{unseen_sum};
ghost use Rattle.laws_versions.specs.EscrowSums.{amounts_to, escrow_value, seen_value};
ghost use Rattle.laws_engine.specs.HeldRecords.{HeldRecord, seen_record};
ghost use Rattle.laws_engine.specs.HeldSums.{IsSameChange, unseen_sums};
ghost use Rattle.laws_engine.specs.Holding.{Holds, begin_of};
ghost use Rattle.laws_engine.specs.VersionedTables.{VersionedTables};
ghost use Rattle.laws_engine.specs.ViewedRecords.{viewed_record, without_sums};

/// The record that a reader views is the very one of the session's view, and the amounts that it does not see are numbers of 32
/// bits.
pub fn a_reader_views_its_very_record()
    ensures very { (base : Records) (dropped kept : List PastChange) (store : VersionedTables) (state : DatabaseState) → Holds base dropped kept store state → HasEscrowNumbers base kept state
        → (reader : Reader) → reader.begin ≡ begin_of (transaction_of state reader.session.0) → (table : ℕ) (bookmark : List ℕ)
        → viewed_record table bookmark reader (record_in store.tables table bookmark) store.held ≡ record_in (view state reader.session.0) table bookmark }
    ensures amounts { (base : Records) (dropped kept : List PastChange) (store : VersionedTables) (state : DatabaseState) → Holds base dropped kept store state → HasEscrowNumbers base kept state
        → (reader : Reader) → reader.begin ≡ begin_of (transaction_of state reader.session.0) → (table : ℕ) → is_some (table_with_id store.tables table) ≡ true → (bookmark : List ℕ) (column : ℕ)
        → AllByRecursion (FitsSigned w32) (amounts_to column (unseen_sums table bookmark reader store.held)) }
{}

/// It is the shown record where no sum is unseen. Else a column that no unseen sum names has the values of the shown record, and
/// an escrow column the stored number without the unseen amounts.
pub fn a_viewed_record_is_the_shown_one_without_unseen_sums()
    ensures plain { (table : ℕ) (bookmark : List ℕ) (reader : Reader) (newest : Option RecordFields) (held : List HeldRecord) → unseen_sums table bookmark reader held ≡ []
        → viewed_record table bookmark reader newest held ≡ seen_record table bookmark reader newest held }
    ensures columns { (shown : RecordFields) (sums : List (ℕ × ℤ)) (column : ℕ) → amounts_to column sums ≡ []
        → values_of (without_sums shown sums) column ≡ values_of shown column }
    ensures numbers { (shown : RecordFields) (sums : List (ℕ × ℤ)) (column : ℕ) → AllByRecursion (FitsSigned w32) (amounts_to column sums)
        → escrow_value (without_sums shown sums) column ≡ seen_value (escrow_value shown column) (amounts_to column sums) }
{}

/// The amounts on a column that a reader does not see can be taken away at once: the wrapping sum of them.
pub fn an_unseen_sum_is_that_of_the_unseen_amounts()
    ensures { (made : HeldChange → HeldRecord) → ((h : HeldChange) → IsSameChange h (made h)) → (held : List HeldChange) (table : ℕ) (bookmark : List ℕ) (column : ℕ) (reader : Reader) (stored : ℤ) → FitsSigned w32 stored
        → seen_value stored (amounts_to column (unseen_sums table bookmark reader (map made held))) ≡ int_wrapping_sub w32 stored (cast_signed w32 (unseen_sum table bookmark column reader held)) }
{}
