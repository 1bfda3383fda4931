//! Laws of consistent images: of the engine that is made of one, what is asked of an engine that holds a state; and of a catalog and a
//! table of which nothing is found, before the image is known to be consistent. Each function has an empty body, and its clause is the
//! law.

ghost use Rattle.std.specs.Prelude.{◌≡◌, ◌==◌, ◌≤◌, ◌<◌, ℕ, true, List, [], None, Some, map, IfSome};
ghost use Rattle.std.specs.List.{AllByRecursion};
ghost use Rattle.column_set.specs.NumberReading.{IsBytes};
ghost use Rattle.column_set.specs.RowReading.{row_in};
ghost use Rattle.database_state.specs.State.{transaction_of};
ghost use Rattle.column_set.specs.ChangedRecords.{changed_table};
ghost use Rattle.database_state.specs.Table.{Table, schema_of, table_with_id};
ghost use Rattle.laws_engine.specs.ColumnNumbers.{have_own_numbers};
ghost use Rattle.laws_images.specs.InTurn.{AreInTurn, HaveTheirCosts};
ghost use Rattle.laws_images.specs.ShowableEngines.{EachHeld, EachIn, IsShowable, IsSoundRecord, SumsKeepAll, first_records, past_in, state_of};
ghost use Rattle.laws_images.specs.SoundStates.{IsSoundState};
ghost use Rattle.laws_versions.specs.History.{EachTwo, InOrder, IsPlaced, LabelsRise, LevelsRise, NumbersRise};
ghost use Rattle.laws_versions.specs.Bookmarks.{TouchesRecord};
ghost use Rattle.laws_versions.specs.KeySums.{IsPlainIndex, SeesNoSum};
ghost use Rattle.laws_versions.specs.RecordNumbers.{AddsToEscrow, HasSingleSums};
ghost use Rattle.laws_versions.specs.Records.{records_of};
ghost use Rattle.laws_versions.specs.TableOrder.{IdsRise};
ghost use Rattle.laws_versions.specs.UniqueKeys.{HasUniqueKeys};
ghost use Rattle.session_local.specs.BuiltTables.{are_built};
ghost use Rattle.laws_engine.specs.Holding.{AllRise};
ghost use Rattle.laws_engine.specs.HoldsState.{HoldsState};
ghost use Rattle.long_rows.specs.WholeRows.{is_whole};
ghost use Rattle.page_image.specs.Page.{Node};
ghost use Rattle.page_space.specs.Frames.{Frames};
ghost use Rattle.stored_variants.specs.RecordRows.{row_in_node};
ghost use Rattle.stored_variants.specs.VersionsKept.{IsStoredRule};
ghost use Rattle.version_store.specs.HeldChanges.{HeldChange};
ghost use Rattle.image_findings.specs.CatalogFindings.{CatalogTold, catalog_told, is_sound_catalog, table_of};
ghost use Rattle.image_findings.specs.ImageBytes.{IsOfBytes};
ghost use Rattle.image_findings.specs.Findings.{IsConsistent, contents_in, engine_in, live_of, state_in, whole_of};
ghost use Rattle.image_findings.specs.Images.{ImageContents};
ghost use Rattle.image_findings.specs.NoFindings.{HasNoFinding};
ghost use Rattle.image_findings.specs.RowFindings.{row_finding};
ghost use Rattle.image_findings.specs.SoundChanges.{IsSoundChange};
ghost use Rattle.image_findings.specs.SoundRows.{HasOwnRecords, HasRowsUnder, HasSoundRows};
ghost use Rattle.image_findings.specs.OwnRules.{HasIndexTrees, IsOwnRule};
ghost use Rattle.image_findings.specs.TableContents.{TableContents, contents_below, long_values};
ghost use Rattle.image_findings.specs.ValueFindings.{broken_values, missing_values, value_finding};

/// The tables that nodes tell have only what is built, where the catalog is sound.
pub fn tables_that_a_sound_catalog_tells_are_built()
    ensures { (nodes : List Node) (told : CatalogTold) → catalog_told nodes ≡ Some told → is_sound_catalog told.greatest (map table_of told.tables) ≡ true → are_built (map table_of told.tables) ≡ true }
{}

/// Each index of a sound catalog that has a tree has the rule that its table has under its number.
pub fn indexes_of_a_sound_catalog_have_their_own_rules()
    ensures { (frames : Frames) (nodes : List Node) (told : CatalogTold) → catalog_told nodes ≡ Some told → is_sound_catalog told.greatest (map table_of told.tables) ≡ true → AllByRecursion (λ (t : TableContents). AllByRecursion (IsOwnRule t.table) t.indexes) (map (contents_below frames) told.tables) }
{}

/// Where no long value of a table is missing, each that the newest row of a node names is there.
pub fn rows_without_missing_values_are_whole()
    ensures { (held : List HeldChange) (t : TableContents) → missing_values held t ≡ [] → AllByRecursion (λ (n : Node). IfSome (row_in_node n.data) (λ bytes. is_whole (long_values t) (row_in bytes) ≡ true)) t.nodes }
{}

/// Where no long value of a table is missing, each that the row before a held change of the table names is there.
pub fn rows_before_changes_without_missing_values_are_whole()
    ensures { (held : List HeldChange) (t : TableContents) → missing_values held t ≡ [] → AllByRecursion (λ (h : HeldChange). (h.table == t.table.id) ≡ true → IfSome h.before (λ bytes. is_whole (long_values t) (row_in bytes) ≡ true)) held }
{}

/// Each index of a sound catalog is one that a store keeps: found by its number, legal, over columns of its table, and with keys of 255
/// bytes at most.
pub fn indexes_of_a_sound_catalog_are_stored()
    ensures { (frames : Frames) (nodes : List Node) (told : CatalogTold) → catalog_told nodes ≡ Some told → is_sound_catalog told.greatest (map table_of told.tables) ≡ true → AllByRecursion (λ (t : TableContents). AllByRecursion (IsStoredRule t.table) t.table.indexes) (map (contents_below frames) told.tables) }
{}

/// Each index that nodes tell has a tree, found by its number, but the primary one, whose order is that of the records.
pub fn indexes_that_a_catalog_tells_have_their_trees()
    ensures { (frames : Frames) (nodes : List Node) (told : CatalogTold) → catalog_told nodes ≡ Some told → AllByRecursion HasIndexTrees (map (contents_below frames) told.tables) }
{}

/// Where nothing is found of the long values of a table, none is broken, and none that a row names is missing.
pub fn values_without_a_finding_are_whole()
    ensures { (number : ℕ) (held : List HeldChange) (t : TableContents) → value_finding number held t ≡ None → (broken_values number t ≡ []) × (missing_values held t ≡ []) }
{}

/// Where nothing is found of the long values and of the rows of a table, its rows are sound.
pub fn rows_without_a_finding_are_sound()
    ensures { (number : ℕ) (held : List HeldChange) (t : TableContents) → value_finding number held t ≡ None → row_finding number held t ≡ None → HasSoundRows number held t }
{}

/// No check of a consistent image finds anything, each of which stands on those before it.
pub fn each_check_of_a_consistent_image_passes()
    ensures { (image : ImageContents) → IsConsistent image → HasNoFinding image }
{}

/// Its tables rise by their ids, each of which was given; they have only what is built; their columns have numbers of their own;
/// no sum has many values; and indexes are over columns that are there and are no sums.
pub fn tables_of_a_consistent_image_are_sound()
    ensures ids { (limit : ℕ) (image : ImageContents) → IsConsistent image → EachTwo IdsRise (engine_in limit image).store.tables }
    ensures given { (limit : ℕ) (image : ImageContents) → IsConsistent image → AllByRecursion (λ (table : Table). (0 < table.id) × (table.id ≤ (engine_in limit image).greatest_table)) (engine_in limit image).store.tables }
    ensures numbers { (limit : ℕ) (image : ImageContents) → IsConsistent image → have_own_numbers (engine_in limit image).store.tables ≡ true }
    ensures built { (limit : ℕ) (image : ImageContents) → IsConsistent image → are_built (engine_in limit image).store.tables ≡ true }
    ensures single { (limit : ℕ) (image : ImageContents) → IsConsistent image → (id : ℕ) → IfSome (table_with_id (engine_in limit image).store.tables id) HasSingleSums }
    ensures plain { (limit : ℕ) (image : ImageContents) → IsConsistent image → (id : ℕ) → IfSome (table_with_id (engine_in limit image).store.tables id) (λ table. AllByRecursion (IsPlainIndex table) table.indexes) }
{}

/// Its sessions rise by their labels, and the transactions began with entries that were made; its held changes rise by their
/// numbers, those that collide are in order, and the levels of open ones do not fall.
pub fn sessions_of_a_consistent_image_are_sound()
    ensures labels { (limit : ℕ) (image : ImageContents) → IsBytes image.live → IsConsistent image → EachTwo LabelsRise (state_of (engine_in limit image)).sessions }
    ensures begins { (limit : ℕ) (image : ImageContents) → IsBytes image.live → IsConsistent image → (session : ℕ) → IfSome (transaction_of (state_of (engine_in limit image)) session) (λ t. (t.begin ≤ image.number) × (1 ≤ t.levels)) }
    ensures numbers { (limit : ℕ) (image : ImageContents) → IsBytes image.live → IsConsistent image → EachTwo NumbersRise (past_in (engine_in limit image)) }
    ensures in_order { (limit : ℕ) (image : ImageContents) → IsConsistent image → EachTwo (InOrder (transaction_of (state_of (engine_in limit image)))) (past_in (engine_in limit image)) }
    ensures levels { (limit : ℕ) (image : ImageContents) → IsConsistent image → EachTwo LevelsRise (past_in (engine_in limit image)) }
{
    live_part::live_parts_are_read_back();
}

/// Its nodes are sound, and their rows: each long value that a row names is there, the record fits the columns, no index refuses it,
/// and the bookmark is its own. Each held change has a node.
pub fn rows_of_a_consistent_image_are_sound()
    ensures { (image : ImageContents) → IsConsistent image → AllByRecursion (HasSoundRows image.number (live_of image).held) (contents_in image) }
{}

/// The row of each of its nodes is one that a store keeps under its bookmark, with numbers in the escrow columns.
pub fn rows_of_a_consistent_image_are_stored()
    ensures { (image : ImageContents) → IsOfBytes image → IsConsistent image → AllByRecursion HasRowsUnder (contents_in image) }
{}

/// The newest record under a bookmark is that of the row in its node.
pub fn newest_records_of_a_consistent_image_are_of_their_rows()
    ensures { (image : ImageContents) → IsOfBytes image → IsConsistent image → AllByRecursion HasOwnRecords (contents_in image) }
{}

/// Each of its held changes is sound: its table and its node are there, it is in its place among the sessions, and the row before it is one
/// that a store keeps.
pub fn held_changes_of_a_consistent_image_are_sound()
    ensures { (image : ImageContents) → IsOfBytes image → IsConsistent image → AllByRecursion (IsSoundChange image.number (contents_in image) (whole_of image).sessions) (live_of image).held }
{
    live_part::live_parts_are_read_back();
}

/// The records of each table stand in the order of their bookmarks. No finding asks whether the keys of a page rise and what it
/// holds are bytes, since a page that was read is so.
pub fn records_of_a_consistent_image_rise()
    ensures { (limit : ℕ) (image : ImageContents) → IsOfBytes image → IsConsistent image → AllRise (engine_in limit image).store.tables }
{}

/// Its newest records are sound: they are stored, hold numbers in the escrow columns, and stand under their bookmarks.
pub fn newest_records_of_a_consistent_image_are_sound()
    ensures { (limit : ℕ) (image : ImageContents) → IsOfBytes image → IsConsistent image → EachIn IsSoundRecord image.number (engine_in limit image).store.tables (records_of (engine_in limit image).store.tables) }
{}

/// The records before its held changes are sound, and so is what is left of a sound record where a sum is taken out of it.
pub fn records_before_changes_of_a_consistent_image_are_sound()
    ensures befores { (limit : ℕ) (image : ImageContents) → IsOfBytes image → IsConsistent image → EachHeld IsSoundRecord image.number (engine_in limit image).store.tables (engine_in limit image).store.held }
    ensures keeps { (limit : ℕ) (image : ImageContents) → IsOfBytes image → IsConsistent image → SumsKeepAll IsSoundRecord image.number (engine_in limit image).store.tables (engine_in limit image).store.held }
{
    live_part::live_parts_are_read_back();
}

/// Its sums add numbers of 32 bits to escrow columns, which no index names.
pub fn sums_of_a_consistent_image_are_of_escrow_columns()
    ensures adds { (limit : ℕ) (image : ImageContents) → IsOfBytes image → IsConsistent image → AllByRecursion (λ item. IfSome (table_with_id (engine_in limit image).store.tables (changed_table item.change)) (λ table. AddsToEscrow (schema_of table) item.change)) (past_in (engine_in limit image)) }
    ensures unseen { (limit : ℕ) (image : ImageContents) → IsOfBytes image → IsConsistent image → (id : ℕ) → IfSome (table_with_id (engine_in limit image).store.tables id) (λ table. AllByRecursion (λ rule. IsPlainIndex table rule × SeesNoSum rule table.id (past_in (engine_in limit image))) table.indexes) }
{
    live_part::live_parts_are_read_back();
}

/// Its held changes can be taken back, the newest first; each costs what the record before it makes it cost, finds or leaves a
/// record, and is of its session's transaction, or was committed before that began.
pub fn held_changes_of_a_consistent_image_come_back()
    ensures turn { (limit : ℕ) (image : ImageContents) → IsOfBytes image → IsConsistent image → AreInTurn (engine_in limit image).store.held (engine_in limit image).store.tables }
    ensures costs { (limit : ℕ) (image : ImageContents) → IsOfBytes image → IsConsistent image → HaveTheirCosts (engine_in limit image).store.held (engine_in limit image).store.tables }
    ensures touched { (limit : ℕ) (image : ImageContents) → IsOfBytes image → IsConsistent image → AllByRecursion TouchesRecord (past_in (engine_in limit image)) }
    ensures placed { (limit : ℕ) (image : ImageContents) → IsOfBytes image → IsConsistent image → AllByRecursion (IsPlaced image.number (state_of (engine_in limit image)).tables (transaction_of (state_of (engine_in limit image)))) (past_in (engine_in limit image)) }
{
    live_part::live_parts_are_read_back();
}

/// No two records share a key of a unique index, before its held changes or once some reader sees them: each change brings free keys,
/// and those that meet in a key are in order. In a primary index a record's key is its bookmark.
pub fn keys_of_a_consistent_image_are_unique()
    ensures { (limit : ℕ) (image : ImageContents) → IsOfBytes image → IsConsistent image → HasUniqueKeys (first_records (engine_in limit image)) (past_in (engine_in limit image)) (state_of (engine_in limit image)) }
{
    live_part::live_parts_are_read_back();
}

/// So the engine that is made of it has all that is asked of an engine that holds the state which it shows.
pub fn a_consistent_image_is_showable()
    ensures { (limit : ℕ) (image : ImageContents) → IsOfBytes image → IsConsistent image → IsShowable (engine_in limit image) }
{
    live_part::live_parts_are_read_back();
}

/// And so it holds that state: an engine that is read from a consistent image is as good as one that lawful entries led to.
pub fn an_engine_of_a_consistent_image_holds_its_state()
    ensures { (limit : ℕ) (image : ImageContents) → IsOfBytes image → IsConsistent image → HoldsState (engine_in limit image) (state_of (engine_in limit image)) }
{
    a_consistent_image_is_showable();
    laws_images::a_showable_engine_holds_its_state();
}

/// So the state that it shows is within the limits that lawful entries keep: of its sessions, of its past, and of its catalog.
pub fn the_state_of_a_consistent_image_is_sound()
    ensures { (image : ImageContents) → IsOfBytes image → IsConsistent image → IsSoundState (state_in image) }
{
    an_engine_of_a_consistent_image_holds_its_state();
    live_part::live_parts_are_read_back();
}
