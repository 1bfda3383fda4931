//! Sums of escrow columns under a reader.

ghost use Rattle.std.specs.Prelude.{◌≡◌, ℕ, List, [], Option, Some, option_map};
ghost use Rattle.std.specs.List.{AllByRecursion};
ghost use Rattle.column_set.specs.RecordValues.{RecordFields, values_of};
ghost use Rattle.index_derive.specs.declared.rules.IndexRule.{IndexRule};
ghost use Rattle.index_derive.specs.declared.rules.Schema.{Schema};
ghost use Rattle.index_derive.specs.Entries.{derive};
ghost use Rattle.database_state.specs.State.{DatabaseState, PastChange, transaction_of};
ghost use Rattle.database_state.specs.Table.{index_entries, record_in, rows_of, table_with_id};
ghost use Rattle.database_state.specs.View.{view};
ghost use Rattle.laws_versions.specs.Records.{Records};
ghost use Rattle.laws_versions.specs.EscrowSums.{amounts_to, escrow_value, seen_value, with_sums};
ghost use Rattle.laws_versions.specs.KeySums.{SeesNoSum};
ghost use Rattle.version_store.specs.declared.calls.Reader.{Reader};
ghost use Rattle.laws_engine.specs.HeldSums.{unseen_sums};
ghost use Rattle.laws_engine.specs.VersionedTables.{VersionedTables, seen_tables};
ghost use Rattle.laws_engine.specs.Holding.{Holds, begin_of};

/// A record that a reader is shown is the one of the session's view with the held sums made that the reader does not see and
/// that stand before the oldest put or drop of it that the reader does not see.
pub fn a_reader_is_shown_records_with_unseen_sums()
    ensures { (base : Records) (dropped kept : List PastChange) (store : VersionedTables) (state : DatabaseState) → Holds base dropped kept store state
        → (reader : Reader) → reader.begin ≡ begin_of (transaction_of state reader.session.0) → (table : ℕ) (bookmark : List ℕ)
        → record_in (seen_tables reader store) table bookmark ≡ option_map (λ values. with_sums values (unseen_sums table bookmark reader store.held)) (record_in (view state reader.session.0) table bookmark) }
{}

/// So a column without such a sum is shown as the session sees it, and the number that the session sees in an escrow column is
/// the stored one without the amounts of these sums, wrapping at 32 bits.
pub fn a_reader_sees_stored_numbers_without_unseen_sums()
    ensures columns { (base : Records) (dropped kept : List PastChange) (store : VersionedTables) (state : DatabaseState) → Holds base dropped kept store state
        → (reader : Reader) → reader.begin ≡ begin_of (transaction_of state reader.session.0) → (table : ℕ) (bookmark : List ℕ) (stored seen : RecordFields)
        → record_in (seen_tables reader store) table bookmark ≡ Some stored → record_in (view state reader.session.0) table bookmark ≡ Some seen
        → (column : ℕ) → amounts_to column (unseen_sums table bookmark reader store.held) ≡ [] → values_of seen column ≡ values_of stored column }
    ensures numbers { (base : Records) (dropped kept : List PastChange) (store : VersionedTables) (state : DatabaseState) → Holds base dropped kept store state
        → (reader : Reader) → reader.begin ≡ begin_of (transaction_of state reader.session.0) → (table : ℕ) (bookmark : List ℕ) (stored seen : RecordFields)
        → record_in (seen_tables reader store) table bookmark ≡ Some stored → record_in (view state reader.session.0) table bookmark ≡ Some seen
        → (column : ℕ) → escrow_value seen column ≡ seen_value (escrow_value stored column) (amounts_to column (unseen_sums table bookmark reader store.held)) }
{}

/// An index that names no column of a kept sum, derived of the records that a reader is shown, is the one that is derived of the
/// session's view.
pub fn a_reader_is_shown_the_index_of_its_view()
    ensures { (base : Records) (dropped kept : List PastChange) (store : VersionedTables) (state : DatabaseState) → Holds base dropped kept store state
        → (reader : Reader) → reader.begin ≡ begin_of (transaction_of state reader.session.0) → (table : ℕ) (rule : IndexRule) (schema : Schema) → SeesNoSum rule table kept
        → derive rule schema (rows_of (table_with_id (seen_tables reader store) table)) ≡ derive rule schema (rows_of (table_with_id (view state reader.session.0) table)) }
{}

/// So is each index of a schema whose indexes name no such column, the records' own order among them: there the reader is shown
/// the entries of its view.
pub fn a_reader_is_shown_the_entries_of_its_view()
    ensures { (base : Records) (dropped kept : List PastChange) (store : VersionedTables) (state : DatabaseState) → Holds base dropped kept store state
        → (reader : Reader) → reader.begin ≡ begin_of (transaction_of state reader.session.0) → (table : ℕ) (schema : Schema) → AllByRecursion (λ rule. SeesNoSum rule table kept) schema.indexes → (index : ℕ)
        → index_entries schema (rows_of (table_with_id (seen_tables reader store) table)) index ≡ index_entries schema (rows_of (table_with_id (view state reader.session.0) table)) index }
{}
