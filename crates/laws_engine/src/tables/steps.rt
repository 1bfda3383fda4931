//! What entries make of versioned tables.

ghost use Rattle.std.specs.Prelude.{◌≡◌, ◌+◌, ℕ, true, false, List, [], ◌∷◌, ◌++◌, map, if◌then◌else◌};
ghost use Rattle.std.specs.Ordering.{nat_cmp};
ghost use Rattle.std.specs.Cmp.Lexicographic.{slice_cmp};
ghost use Rattle.std.specs.FinMap.Entries.{is_sorted};
ghost use Rattle.column_set.specs.declared.changes.Change.{Change};
ghost use Rattle.cursor_nav.specs.Places.{are_sorted};
ghost use Rattle.index_derive.specs.Entries.{own_order};
ghost use Rattle.index_derive.specs.declared.log.Entry.{Entry};
ghost use Rattle.index_derive.specs.declared.log.EntryKind.{EntryKind};
ghost use Rattle.index_derive.specs.declared.log.EntryKind.TheVariants as entry;
ghost use Rattle.index_derive.specs.declared.schema_calls.SchemaStep.{SchemaStep};
ghost use Rattle.database_state.specs.Table.{Rows};
ghost use Rattle.database_state.specs.SchemaChanges.{tables_after_step};
ghost use Rattle.database_state.specs.State.{DatabaseState, PastChange, levels};
ghost use Rattle.database_state.specs.VersionStore.{is_needed};
ghost use Rattle.database_state.specs.Step.{every_change, is_at_level, state_after};
ghost use Rattle.database_state.specs.Lawful.{is_lawful};
ghost use Rattle.laws_versions.specs.Records.{Records, after_item, records_of};
ghost use Rattle.laws_versions.specs.KeptSteps.{new_change, committed_own, is_own_open, lowered_own, undone_where, with_next_number};
ghost use Rattle.laws_versions.specs.Readers.{is_standing};
ghost use Rattle.laws_versions.specs.TableOrder.{HasTablesInOrder};
ghost use Rattle.version_store.specs.declared.calls.By.{By};
ghost use Rattle.laws_engine.specs.HeldRecords.{is_open_at, is_open_of};
ghost use Rattle.laws_engine.specs.VersionedTables.{VersionedTables, leaves_tables, with_change, with_changes_undone, with_level_released, with_schema_step, with_session_committed, without_oldest};
ghost use Rattle.laws_engine.specs.Holding.{AllRise, Holds, RecordsRise};
ghost use Rattle.laws_engine.specs.TakenBack.{CanBeTakenBack};

/// Every entry leaves the records of the committed tables and of each snapshot in the order of their bookmarks.
pub fn entries_leave_records_in_order()
    ensures { (state : DatabaseState) (made : Entry) → RecordsRise state → RecordsRise (state_after state made) }
{}

/// That bookmarks rise, as a map of records has it, is that the walk over them is in order. So the committed records rise where the
/// tables are in order, as they are after every lawful entry.
pub fn tables_in_order_have_records_that_rise()
    ensures rows { (rows : Rows) → is_sorted (slice_cmp nat_cmp) rows ≡ are_sorted (own_order rows) }
    ensures tables { (state : DatabaseState) → HasTablesInOrder state → AllRise state.tables }
{}

/// An entry that tells of a session, its open tables or its levels alone leaves the tables and the held changes.
pub fn entries_of_a_session_leave_the_tables()
    ensures { (base : Records) (dropped kept : List PastChange) (store : VersionedTables) (state : DatabaseState) (session : ℕ) (kind : EntryKind) → leaves_tables kind ≡ true → Holds base dropped kept store state
        → is_lawful state (record { session = record { 0 = session }; kind = kind }) ≡ true → Holds base dropped kept store (state_after state (record { session = record { 0 = session }; kind = kind })) }
{}

/// A lawful change: the tables with it, and it behind the other held changes, hold the state after it.
pub fn a_change_is_made_and_held()
    ensures { (base : Records) (dropped kept : List PastChange) (store : VersionedTables) (state : DatabaseState) (by : By) (change : Change) → Holds base dropped kept store state
        → by.number ≡ state.number + 1 → by.level ≡ levels state by.session.0 → is_lawful state (record { session = by.session; kind = entry.Change change }) ≡ true
        → Holds base dropped (kept ++ new_change by.session.0 change (with_next_number state) ∷ []) (with_change by change store) (state_after state (record { session = by.session; kind = entry.Change change })) }
{}

/// A level that is released and a transaction that is committed change the held changes alone.
pub fn releases_and_commits_leave_the_tables()
    ensures released { (base : Records) (dropped kept : List PastChange) (store : VersionedTables) (state : DatabaseState) (session : ℕ) → Holds base dropped kept store state
        → is_lawful state (record { session = record { 0 = session }; kind = entry.Release }) ≡ true
        → Holds base dropped (map (lowered_own session (levels state session)) kept) (with_level_released session (levels state session) store) (state_after state (record { session = record { 0 = session }; kind = entry.Release })) }
    ensures committed { (base : Records) (dropped kept : List PastChange) (store : VersionedTables) (state : DatabaseState) (session : ℕ) → Holds base dropped kept store state
        → is_lawful state (record { session = record { 0 = session }; kind = entry.Commit }) ≡ true
        → Holds base dropped (map (committed_own session (state.number + 1)) kept) (with_session_committed session (state.number + 1) store) (state_after state (record { session = record { 0 = session }; kind = entry.Commit })) }
{}

/// The oldest held change can be dropped where it is not needed: the tables hold the same state without it.
pub fn a_clean_leaves_the_tables()
    ensures { (base : Records) (dropped : List PastChange) (item : PastChange) (kept : List PastChange) (store : VersionedTables) (state : DatabaseState) → Holds base dropped (item ∷ kept) store state → is_needed state.sessions item ≡ false
        → Holds (if is_standing item then after_item base item else base) (dropped ++ item ∷ []) kept (without_oldest store) state }
{}

/// A level that is undone, all levels, and a session that leaves: the open changes of the level, or of the session, are taken
/// back, the newest first, a sum by the opposite one, whatever sums of others came after it. Then the tables hold the state
/// after the entry, record by record, where no escrow column was changed or each holds a number in every record.
pub fn undone_changes_are_taken_back()
    ensures level { (base : Records) (dropped kept : List PastChange) (store : VersionedTables) (state : DatabaseState) (session : ℕ) → Holds base dropped kept store state → CanBeTakenBack base kept state
        → is_lawful state (record { session = record { 0 = session }; kind = entry.Undo }) ≡ true
        → Holds base dropped (map (undone_where (is_own_open session (is_at_level (levels state session)))) kept) (with_changes_undone (is_open_at session (levels state session)) store) (state_after state (record { session = record { 0 = session }; kind = entry.Undo })) }
    ensures levels { (base : Records) (dropped kept : List PastChange) (store : VersionedTables) (state : DatabaseState) (session : ℕ) → Holds base dropped kept store state → CanBeTakenBack base kept state
        → is_lawful state (record { session = record { 0 = session }; kind = entry.UndoAll }) ≡ true
        → Holds base dropped (map (undone_where (is_own_open session every_change)) kept) (with_changes_undone (is_open_of session) store) (state_after state (record { session = record { 0 = session }; kind = entry.UndoAll })) }
    ensures session { (base : Records) (dropped kept : List PastChange) (store : VersionedTables) (state : DatabaseState) (session : ℕ) → Holds base dropped kept store state → CanBeTakenBack base kept state
        → is_lawful state (record { session = record { 0 = session }; kind = entry.Leave }) ≡ true
        → Holds base dropped (map (undone_where (is_own_open session every_change)) kept) (with_changes_undone (is_open_of session) store) (state_after state (record { session = record { 0 = session }; kind = entry.Leave })) }
{}

/// A schema step changes the tables. No transaction is open then, so all held changes can be dropped.
pub fn a_schema_step_changes_the_tables()
    ensures { (base : Records) (dropped kept : List PastChange) (store : VersionedTables) (state : DatabaseState) (session : ℕ) (made : SchemaStep) → Holds base dropped kept store state
        → is_lawful state (record { session = record { 0 = session }; kind = entry.Schema made }) ≡ true
        → Holds (records_of (tables_after_step state.tables made)) (dropped ++ kept) [] (with_schema_step made store) (state_after state (record { session = record { 0 = session }; kind = entry.Schema made })) }
{}

/// Tables without a held change hold each state without sessions and past whose tables they are.
pub fn tables_alone_hold_a_state()
    ensures { (state : DatabaseState) → state.sessions ≡ [] → state.past ≡ [] → AllRise state.tables → Holds (records_of state.tables) [] [] (record { tables = state.tables; held = [] }) state }
{}
