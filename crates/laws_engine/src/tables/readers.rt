//! What a reader is shown.

ghost use Rattle.std.specs.Prelude.{◌≡◌, ℕ, List, is_some, true};
ghost use Rattle.database_state.specs.State.{DatabaseState, PastChange, transaction_of};
ghost use Rattle.database_state.specs.Table.{Rows, record_in, row_at, table_with_id};
ghost use Rattle.database_state.specs.View.{view};
ghost use Rattle.laws_versions.specs.Records.{Records};
ghost use Rattle.laws_versions.specs.Variants.{HasNoSums};
ghost use Rattle.version_store.specs.declared.calls.Reader.{Reader};
ghost use Rattle.laws_engine.specs.HeldRecords.{HeldRecord, seen_record};
ghost use Rattle.laws_engine.specs.VersionedTables.{VersionedTables, seen_rows, seen_tables};
ghost use Rattle.laws_engine.specs.Holding.{Holds, begin_of};

/// Of each record a reader is shown the one before the oldest put or drop that it does not see, or the newest one.
pub fn a_reader_is_shown_the_records_that_it_sees()
    ensures { (table : ℕ) (reader : Reader) (held : List HeldRecord) (rows : Rows) (bookmark : List ℕ)
        → row_at (seen_rows table reader held rows) bookmark ≡ seen_record table bookmark reader (row_at rows bookmark) held }
{}

/// A record of the tables that a reader sees is the one that it is shown.
pub fn a_reader_finds_the_records_that_it_is_shown()
    ensures { (reader : Reader) (store : VersionedTables) (table : ℕ) (bookmark : List ℕ) → is_some (table_with_id store.tables table) ≡ true
        → record_in (seen_tables reader store) table bookmark ≡ seen_record table bookmark reader (record_in store.tables table bookmark) store.held }
{}

/// Each table is shown to a session as the session's view has it, where no escrow column was changed.
pub fn a_session_is_shown_its_view()
    ensures { (base : Records) (dropped kept : List PastChange) (store : VersionedTables) (state : DatabaseState) → Holds base dropped kept store state → HasNoSums kept
        → (reader : Reader) → reader.begin ≡ begin_of (transaction_of state reader.session.0)
        → (table : ℕ) → table_with_id (seen_tables reader store) table ≡ table_with_id (view state reader.session.0) table }
{}
