//! The states that lawful entries reach.

ghost use Rattle.std.specs.Prelude.{◌≡◌, ℕ, true, false, List, [], ◌∷◌, ◌++◌, IfSome, if◌then◌else◌};
ghost use Rattle.std.specs.List.{AllByRecursion};
ghost use Rattle.index_derive.specs.declared.log.Entry.{Entry};
ghost use Rattle.database_state.specs.Table.{row_at, schema_of, table_with_id};
ghost use Rattle.database_state.specs.State.{DatabaseState, PastChange, empty_state};
ghost use Rattle.database_state.specs.VersionStore.{is_needed};
ghost use Rattle.database_state.specs.Step.{state_after, state_after_all};
ghost use Rattle.database_state.specs.Lawful.{is_lawful};
ghost use Rattle.laws_versions.specs.Records.{Records, records_of, after_item};
ghost use Rattle.laws_versions.specs.Readers.{is_standing};
ghost use Rattle.laws_versions.specs.KeptSteps.{kept_after, dropped_after, base_after};
ghost use Rattle.laws_versions.specs.KeySums.{IsPlainIndex};
ghost use Rattle.laws_versions.specs.TableOrder.{HasTablesInOrder};
ghost use Rattle.laws_versions.specs.UniqueKeys.{IsUniqueTable};
ghost use Rattle.laws_versions.specs.Bookmarks.{StandsUnder};
ghost use Rattle.laws_versions.specs.RecordNumbers.{HasItsType, HasSingleSums, HoldsNumbers};
ghost use Rattle.laws_engine.specs.ColumnNumbers.{have_own_numbers};
ghost use Rattle.laws_engine.specs.EntryTypes.{AreOfTheirTypes};
ghost use Rattle.laws_engine.specs.LawfulSteps.{AreLawful, IsReached, IsReachedState};

/// Every lawful entry that is as its type has it reaches a state of the same kind, with the history that it leaves, sums of escrow
/// columns among the entries. So do entries that are lawful each in its turn.
pub fn lawful_entries_reach_the_next_state()
    ensures one { (base : Records) (dropped kept : List PastChange) (state : DatabaseState) (made : Entry) → IsReached base dropped kept state → is_lawful state made ≡ true → HasItsType made.kind
        → IsReached (base_after state made.kind base) (dropped_after made.kind dropped kept) (kept_after state made.session.0 made.kind kept) (state_after state made) }
    ensures many { (state : DatabaseState) (entries : List Entry) → IsReachedState state → AreLawful state entries → AreOfTheirTypes entries → IsReachedState (state_after_all state entries) }
{}

/// The oldest kept change can be dropped where it is not needed: the very state is reached still.
pub fn a_clean_reaches_the_same_state()
    ensures { (base : Records) (dropped : List PastChange) (item : PastChange) (kept : List PastChange) (state : DatabaseState) → IsReached base dropped (item ∷ kept) state → is_needed state.sessions item ≡ false
        → IsReached (if is_standing item then after_item base item else base) (dropped ++ item ∷ []) kept state }
{}

/// The empty state is one of these, and so is each state without sessions and past changes whose tables are in order and
/// unique, whose records have their bookmarks and hold numbers in their escrow columns, whose indexes name columns that are there
/// and no escrow column, and whose columns have numbers of their own, no escrow column being multi-valued.
pub fn states_without_sessions_are_reached()
    ensures empty { IsReached (records_of empty_state.tables) [] [] empty_state }
    ensures tables { (state : DatabaseState) → state.sessions ≡ [] → state.past ≡ [] → HasTablesInOrder state → ((id : ℕ) → IfSome (table_with_id state.tables id) IsUniqueTable)
        → ((id : ℕ) → IfSome (table_with_id state.tables id) (λ table. (bookmark : List ℕ) → IfSome (row_at table.rows bookmark) (StandsUnder state.number (schema_of table) bookmark)))
        → ((id : ℕ) → IfSome (table_with_id state.tables id) (λ table. (bookmark : List ℕ) → IfSome (row_at table.rows bookmark) (HoldsNumbers state.number (schema_of table) bookmark)))
        → ((id : ℕ) → IfSome (table_with_id state.tables id) (λ table. AllByRecursion (IsPlainIndex table) table.indexes)) → ((id : ℕ) → IfSome (table_with_id state.tables id) HasSingleSums)
        → have_own_numbers state.tables ≡ true → IsReached (records_of state.tables) [] [] state }
{}
