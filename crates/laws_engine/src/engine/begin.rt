//! Where it begins.

ghost use Rattle.std.specs.Prelude.{◌≡◌, ◌+◌, ◌^◌, ◌≤◌, ℕ, true, List, [], IfSome};
ghost use Rattle.database_state.specs.Table.{row_at, schema_of, table_with_id};
ghost use Rattle.database_state.specs.State.{DatabaseState, empty_state};
ghost use Rattle.std.specs.List.{AllByRecursion};
ghost use Rattle.laws_versions.specs.KeySums.{IsPlainIndex};
ghost use Rattle.laws_versions.specs.TableOrder.{HasTablesInOrder};
ghost use Rattle.laws_versions.specs.UniqueKeys.{IsUniqueTable};
ghost use Rattle.laws_versions.specs.Bookmarks.{StandsUnder};
ghost use Rattle.laws_versions.specs.RecordNumbers.{HoldsNumbers};
ghost use Rattle.laws_versions.specs.StoredRecords.{IsStored};
ghost use Rattle.laws_engine.specs.ColumnNumbers.{have_own_numbers};
ghost use Rattle.session_local.specs.Local.{no_session};
ghost use Rattle.laws_engine.specs.InStep.{IsInStep};
ghost use Rattle.session_local.specs.BuiltTables.{are_built};
ghost use Rattle.laws_engine.specs.EngineState.{HasRoomForEnds, empty_engine, engine_of};
ghost use Rattle.laws_engine.specs.HoldsState.{HoldsAllInStep, HoldsState};

/// An empty engine holds the empty state, and all sessions that have not begun are in step with it.
pub fn an_empty_engine_holds_the_empty_state()
    ensures holds { (limit : ℕ) → HoldsState (empty_engine limit) empty_state }
    ensures in_step { (limit : ℕ) → HoldsAllInStep (empty_engine limit) (λ session. no_session) }
    ensures room { (limit : ℕ) → HasRoomForEnds (empty_engine limit) }
{}

/// An engine of tables alone holds each state without sessions and past changes whose tables these are: they are in order,
/// unique and built, their indexes name no escrow column, their columns have numbers of their own, and their records have their
/// bookmarks, fit and hold numbers in their escrow columns. No put came after the state's number. All sessions that have not begun
/// are in step with it.
pub fn an_engine_of_tables_alone_holds_their_state()
    ensures holds { (limit newest : ℕ) (state : DatabaseState) → newest ≤ state.number → state.sessions ≡ [] → state.past ≡ [] → HasTablesInOrder state → ((id : ℕ) → IfSome (table_with_id state.tables id) IsUniqueTable)
        → ((id : ℕ) → IfSome (table_with_id state.tables id) (λ table. AllByRecursion (IsPlainIndex table) table.indexes))
        → ((id : ℕ) → IfSome (table_with_id state.tables id) (λ table. (bookmark : List ℕ) → IfSome (row_at table.rows bookmark) (StandsUnder state.number (schema_of table) bookmark)))
        → ((id : ℕ) → IfSome (table_with_id state.tables id) (λ table. (bookmark : List ℕ) → IfSome (row_at table.rows bookmark) (IsStored state.number (schema_of table) bookmark)))
        → ((id : ℕ) → IfSome (table_with_id state.tables id) (λ table. (bookmark : List ℕ) → IfSome (row_at table.rows bookmark) (HoldsNumbers state.number (schema_of table) bookmark)))
        → are_built state.tables ≡ true → have_own_numbers state.tables ≡ true → HoldsState (engine_of limit newest state) state }
    ensures in_step { (state : DatabaseState) → state.sessions ≡ [] → (session : ℕ) → IsInStep state session no_session }
    ensures room { (limit newest : ℕ) (state : DatabaseState) → state.number ≤ 2 ^ 35 + 1 → HasRoomForEnds (engine_of limit newest state) }
{}
