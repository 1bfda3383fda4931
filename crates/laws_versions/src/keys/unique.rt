//! Keys of unique indexes.

ghost use Rattle.std.specs.Prelude.{◌≡◌, ℕ, true, List, [], ◌∷◌, IfSome, if◌then◌else◌};
ghost use Rattle.index_derive.specs.declared.rules.IndexRule.{IndexRule};
ghost use Rattle.index_derive.specs.declared.rules.Schema.{Schema};
ghost use Rattle.index_derive.specs.declared.log.Entry.{Entry};
ghost use Rattle.index_derive.specs.declared.log.EntryKind.TheVariants as entry;
ghost use Rattle.database_state.specs.Table.{table_with_id};
ghost use Rattle.database_state.specs.State.{DatabaseState, PastChange, levels, transaction_of};
ghost use Rattle.database_state.specs.View.{newest, view};
ghost use Rattle.database_state.specs.Step.{state_after};
ghost use Rattle.database_state.specs.Lawful.{is_lawful};
ghost use Rattle.laws_versions.specs.Records.{Records, records_of, after_item};
ghost use Rattle.laws_versions.specs.Readers.{is_standing};
ghost use Rattle.laws_versions.specs.History.{IsHistory};
ghost use Rattle.laws_versions.specs.KeptSteps.{kept_after, base_after};
ghost use Rattle.laws_versions.specs.TableOrder.{HasTablesInOrder};
ghost use Rattle.laws_versions.specs.KeySums.{IndexesSeeNoSum, SeesNoSum};
ghost use Rattle.laws_versions.specs.UniqueKeys.{AreUnique, HasFreeKeys, HasUniqueKeys, IsUniqueTable};

/// Where standing changes brought free keys, and those that meet in a key are in order, no session finds a key at two records,
/// and the newest state has none at two, whatever was committed or undone since.
pub fn no_reader_finds_a_unique_key_twice()
    ensures view { (base : Records) (dropped kept : List PastChange) (state : DatabaseState) → IsHistory base dropped kept state → (rule : IndexRule) (schema : Schema) (table : ℕ)
        → SeesNoSum rule table kept → HasFreeKeys rule schema table (transaction_of state) base kept → (session : ℕ) → AreUnique rule schema table (records_of (view state session)) }
    ensures newest { (base : Records) (dropped kept : List PastChange) (state : DatabaseState) → IsHistory base dropped kept state → (rule : IndexRule) (schema : Schema) (table : ℕ)
        → SeesNoSum rule table kept → HasFreeKeys rule schema table (transaction_of state) base kept → AreUnique rule schema table (records_of (newest state)) }
{}

/// Where no change is kept, the keys of all unique indexes are free if no two records of a table share one, its indexes are
/// sound, and the keys of a primary one are the bookmarks. So it is in a database without a table.
pub fn unique_keys_begin_with_unique_tables()
    ensures { (state : DatabaseState) → ((id : ℕ) → IfSome (table_with_id state.tables id) IsUniqueTable) → HasUniqueKeys (records_of state.tables) [] state }
{}

/// Every lawful entry keeps the keys of all unique indexes free, schema steps among them, where no index sees a sum.
/// With the history they are so in each state that lawful entries reach.
pub fn lawful_entries_keep_unique_keys()
    ensures { (base : Records) (dropped kept : List PastChange) (state : DatabaseState) (made : Entry) → IsHistory base dropped kept state → is_lawful state made ≡ true
        → IndexesSeeNoSum kept state → IndexesSeeNoSum (kept_after state made.session.0 made.kind kept) state → HasUniqueKeys base kept state
        → HasUniqueKeys (base_after state made.kind base) (kept_after state made.session.0 made.kind kept) (state_after state made) }
{}

/// So does a clean of the oldest kept change. The state is the same; the changes begin behind that one.
pub fn a_clean_keeps_unique_keys()
    ensures { (base : Records) (dropped : List PastChange) (item : PastChange) (kept : List PastChange) (state : DatabaseState) → IsHistory base dropped (item ∷ kept) state → IndexesSeeNoSum (item ∷ kept) state
        → HasUniqueKeys base (item ∷ kept) state → HasUniqueKeys (if is_standing item then after_item base item else base) kept state }
{}

/// In a transaction of one level a commit is always lawful: no two records of the tables that it commits share a key of a
/// unique index, whatever the other sessions changed or still change.
pub fn a_commit_is_always_lawful()
    ensures { (base : Records) (dropped kept : List PastChange) (state : DatabaseState) (session : ℕ) → IsHistory base dropped kept state → IndexesSeeNoSum kept state → HasUniqueKeys base kept state → HasTablesInOrder state
        → levels state session ≡ 1 → is_lawful state (record { session = record { 0 = session }; kind = entry.Commit }) ≡ true }
{}
