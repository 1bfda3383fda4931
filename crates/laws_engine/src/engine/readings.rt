//! What the engine tells of a state that it holds.

ghost use Rattle.std.specs.Prelude.{◌≡◌, ◌==◌, ◌≤◌, ℕ, Bool, true, false, ◌||◌, List, length, map, Option, IfSome, is_some, option_map};
ghost use Rattle.std.specs.List.{AllByRecursion};
ghost use Rattle.column_set.specs.declared.changes.Change.{Change};
ghost use Rattle.database_state.specs.Table.{Table, record_in, schema_of, table_named, table_with_id};
ghost use Rattle.database_state.specs.State.{DatabaseState, levels, transaction_of};
ghost use Rattle.database_state.specs.View.{newest, view};
ghost use Rattle.database_state.specs.Conflicts.{has_key_conflict as has_key_conflict_in, has_write_conflict};
ghost use Rattle.database_state.specs.Lawful.{is_live as is_live_in};
ghost use Rattle.database_state.specs.SchemaChanges.{is_in_use};
ghost use Rattle.database_state.specs.VersionStore.{version_span};
ghost use Rattle.jet_catalog.specs.Catalog.{catalog_of, without_rows};
ghost use Rattle.laws_versions.specs.Records.{records_of};
ghost use Rattle.version_cleanup.specs.Cleaning.{reader_in};
ghost use Rattle.version_cleanup.specs.LiveSessions.{has_other_transaction, is_live, levels_in, oldest_begin, transaction_in, without_snapshot};
ghost use Rattle.laws_versions.specs.History.{EachTwo};
ghost use Rattle.laws_engine.specs.HeldRecords.{has_conflict, has_key_conflict, is_open_of, seen_record, span};
ghost use Rattle.laws_engine.specs.Holding.{begin_of};
ghost use Rattle.laws_engine.specs.VersionedTables.{seen_tables};
ghost use Rattle.laws_engine.specs.ViewedRecords.{viewed_record};
ghost use Rattle.laws_engine.specs.EngineState.{EngineState, has_table_open};
ghost use Rattle.laws_engine.specs.HoldsState.{HoldsState};

/// Which sessions are live, and their transactions.
pub fn sessions_are_told()
    ensures live { (engine : EngineState) (state : DatabaseState) → HoldsState engine state → (session : ℕ) → is_live session engine.sessions ≡ is_live_in state session }
    ensures count { (engine : EngineState) (state : DatabaseState) → HoldsState engine state → length engine.sessions ≡ length state.sessions }
    ensures transaction { (engine : EngineState) (state : DatabaseState) → HoldsState engine state → (session : ℕ) → transaction_in session engine.sessions ≡ option_map without_snapshot (transaction_of state session) }
    ensures levels { (engine : EngineState) (state : DatabaseState) → HoldsState engine state → (session : ℕ) → levels_in session engine.sessions ≡ levels state session }
    ensures begin { (engine : EngineState) (state : DatabaseState) → HoldsState engine state → (session : ℕ) → (reader_in session engine.sessions).begin ≡ begin_of (transaction_of state session) }
{}

/// Whether another session is in a transaction, or any session has the table open.
pub fn uses_are_told()
    ensures { (engine : EngineState) (state : DatabaseState) → HoldsState engine state → (session : ℕ) (table : Option Table)
        → is_in_use state session table ≡ (has_other_transaction session engine.sessions || has_table_open engine.sessions table) }
{}

/// The committed tables are those of the engine but for their records.
pub fn tables_are_told()
    ensures tables { (engine : EngineState) (state : DatabaseState) → HoldsState engine state → map without_rows engine.store.tables ≡ map without_rows state.tables }
    ensures catalog { (engine : EngineState) (state : DatabaseState) → HoldsState engine state → catalog_of state ≡ record { greatest_table = engine.greatest_table; tables = map without_rows engine.store.tables } }
    ensures numbered { (engine : EngineState) (state : DatabaseState) → HoldsState engine state → (table : ℕ) → option_map without_rows (table_with_id engine.store.tables table) ≡ option_map without_rows (table_with_id state.tables table) }
    ensures named { (engine : EngineState) (state : DatabaseState) → HoldsState engine state → (name : List ℕ) → option_map without_rows (table_named engine.store.tables name) ≡ option_map without_rows (table_named state.tables name) }
    ensures schema { (engine : EngineState) (state : DatabaseState) → HoldsState engine state → (table : ℕ) → option_map schema_of (table_with_id engine.store.tables table) ≡ option_map schema_of (table_with_id state.tables table) }
{}

/// The record that a session sees is the one that it is shown without the sums of others that it does not see.
pub fn a_session_views_its_very_record()
    ensures { (engine : EngineState) (state : DatabaseState) → HoldsState engine state → (session table : ℕ) (bookmark : List ℕ)
        → viewed_record table bookmark (reader_in session engine.sessions) (record_in engine.store.tables table bookmark) engine.store.held ≡ record_in (view state session) table bookmark }
{}

/// A session is shown a record exactly where its view has one. Only the sums of others that it does not see may differ.
pub fn a_session_is_shown_the_records_of_its_view()
    ensures { (engine : EngineState) (state : DatabaseState) → HoldsState engine state → (session table : ℕ) (bookmark : List ℕ)
        → is_some (seen_record table bookmark (reader_in session engine.sessions) (record_in engine.store.tables table bookmark) engine.store.held) ≡ is_some (record_in (view state session) table bookmark) }
{}

/// The held changes tell write conflicts, key conflicts in each index of each table, and the version store's span.
pub fn conflicts_are_told()
    ensures write { (engine : EngineState) (state : DatabaseState) → HoldsState engine state → (session : ℕ) (change : Change)
        → has_conflict (reader_in session engine.sessions) change engine.store.held ≡ has_write_conflict state session change }
    ensures key { (engine : EngineState) (state : DatabaseState) → HoldsState engine state → (session table : ℕ)
        → IfSome (table_with_id state.tables table) (λ t. AllByRecursion (λ rule. (key : List ℕ)
        → has_key_conflict (reader_in session engine.sessions) (records_of engine.store.tables) table rule (schema_of t) key engine.store.held ≡ has_key_conflict_in state session table (schema_of t) rule key) t.indexes) }
    ensures span { (engine : EngineState) (state : DatabaseState) → HoldsState engine state → span (oldest_begin engine.sessions) engine.store.held ≡ version_span state }
{}

/// The records of the engine's tables are the newest ones. Where no session is in a transaction they are the committed ones,
/// the tables are the committed tables, and each session is shown them.
pub fn newest_records_are_told()
    ensures newest { (engine : EngineState) (state : DatabaseState) → HoldsState engine state → (table : ℕ) (bookmark : List ℕ) → record_in engine.store.tables table bookmark ≡ record_in (newest state) table bookmark }
    ensures committed { (engine : EngineState) (state : DatabaseState) → HoldsState engine state → (session : ℕ) → (levels state session == 0) ≡ true → has_other_transaction session engine.sessions ≡ false → engine.store.tables ≡ state.tables }
    ensures shown { (engine : EngineState) (state : DatabaseState) → HoldsState engine state → (session : ℕ) → (levels state session == 0) ≡ true → has_other_transaction session engine.sessions ≡ false
        → seen_tables (reader_in session engine.sessions) engine.store ≡ state.tables }
{}

/// The levels of a session's open changes do not fall from the older to the newer, and each is a level of its transaction.
pub fn open_changes_stand_by_rising_levels()
    ensures rise { (engine : EngineState) (state : DatabaseState) → HoldsState engine state → (session : ℕ)
        → EachTwo (λ earlier later. is_open_of session earlier ≡ true → is_open_of session later ≡ true → earlier.level ≤ later.level) engine.store.held }
    ensures levels { (engine : EngineState) (state : DatabaseState) → HoldsState engine state → (session most : ℕ) → levels_in session engine.sessions ≤ most
        → AllByRecursion (λ held. is_open_of session held ≡ true → (1 ≤ held.level) × (held.level ≤ most)) engine.store.held }
{}
