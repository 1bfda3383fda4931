//! Bookmarks of records.

ghost use Rattle.std.specs.Prelude.{◌≡◌, ◌≤◌, ◌<◌, ℕ, ◌^◌, true, false, List, [], ◌∷◌, IfSome, if◌then◌else◌};
ghost use Rattle.jet_base.specs.ColumnType.{big_endian};
ghost use Rattle.index_derive.specs.declared.log.Entry.{Entry};
ghost use Rattle.database_state.specs.Table.{row_at, schema_of, table_with_id};
ghost use Rattle.database_state.specs.State.{DatabaseState, PastChange};
ghost use Rattle.database_state.specs.View.{view};
ghost use Rattle.database_state.specs.Step.{state_after};
ghost use Rattle.database_state.specs.Lawful.{is_lawful};
ghost use Rattle.laws_versions.specs.Records.{Records, records_of, after_item};
ghost use Rattle.laws_versions.specs.Readers.{is_standing};
ghost use Rattle.laws_versions.specs.History.{IsHistory};
ghost use Rattle.laws_versions.specs.KeptSteps.{kept_after, base_after};
ghost use Rattle.laws_versions.specs.UniqueKeys.{HasUniqueKeys};
ghost use Rattle.laws_versions.specs.KeySums.{IndexesSeeNoSum};
ghost use Rattle.laws_versions.specs.Bookmarks.{HasBookmarks, StandsUnder, is_entry_number};

/// The number of an entry, in 8 bytes big-endian, is told from the numbers of all entries before it, as far as a log goes. Entries
/// are counted from 1.
pub fn numbers_of_later_entries_are_new()
    ensures own { (number : ℕ) → 1 ≤ number → number < 2 ^ 40 → is_entry_number number (big_endian 8 number) ≡ true }
    ensures later { (number later : ℕ) → number < later → later < 2 ^ 40 → is_entry_number number (big_endian 8 later) ≡ false }
{}

/// Where no change is kept, every record has its bookmark if those of the tables have theirs.
pub fn bookmarks_begin_with_those_of_tables()
    ensures { (state : DatabaseState) → ((id : ℕ) → IfSome (table_with_id state.tables id) (λ table. (bookmark : List ℕ) → IfSome (row_at table.rows bookmark) (StandsUnder state.number (schema_of table) bookmark)))
        → HasBookmarks (records_of state.tables) [] state }
{}

/// Every lawful entry keeps the bookmarks, schema steps among them, where no index sees a sum.
pub fn lawful_entries_keep_bookmarks()
    ensures { (base : Records) (dropped kept : List PastChange) (state : DatabaseState) (made : Entry) → IsHistory base dropped kept state → is_lawful state made ≡ true
        → IndexesSeeNoSum kept state → IndexesSeeNoSum (kept_after state made.session.0 made.kind kept) state → HasUniqueKeys base kept state → HasBookmarks base kept state
        → HasBookmarks (base_after state made.kind base) (kept_after state made.session.0 made.kind kept) (state_after state made) }
{}

/// So does a clean of the oldest kept change.
pub fn a_clean_keeps_bookmarks()
    ensures { (base : Records) (dropped : List PastChange) (item : PastChange) (kept : List PastChange) (state : DatabaseState) → IsHistory base dropped (item ∷ kept) state → IndexesSeeNoSum (item ∷ kept) state
        → HasBookmarks base (item ∷ kept) state → HasBookmarks (if is_standing item then after_item base item else base) kept state }
{}

/// Every record that a session sees has its bookmark.
pub fn every_record_seen_has_its_bookmark()
    ensures { (base : Records) (dropped kept : List PastChange) (state : DatabaseState) → IsHistory base dropped kept state → IndexesSeeNoSum kept state → HasBookmarks base kept state → (session id : ℕ)
        → IfSome (table_with_id state.tables id) (λ table. (bookmark : List ℕ) → IfSome (records_of (view state session) id bookmark) (StandsUnder state.number (schema_of table) bookmark)) }
{}
