//! What the store of an engine shows as an image has no finding, part by part. Each function has an empty body, or calls laws, and its
//! clauses are the law.

ghost use Rattle.std.specs.Prelude.{◌≡◌, ℕ, List, true, [], ◌∷◌, map, None, Some};
ghost use Rattle.std.specs.List.{AllByRecursion, list_all};
ghost use Rattle.std.specs.Option.{option_or};
ghost use Rattle.table_trees.specs.StoredTables.{table_long_values};
ghost use Rattle.database_state.specs.Equivalence.{AreEquivalent};
ghost use Rattle.laws_engine.specs.HoldsState.{HoldsState};
ghost use Rattle.laws_images.specs.Settled.{AreAlike, settled, settled_engine};
ghost use Rattle.image_findings.specs.CatalogFindings.{catalog_told, is_sound_catalog, table_of};
ghost use Rattle.image_findings.specs.CountFindings.{count_finding};
ghost use Rattle.image_findings.specs.EntryFindings.{entry_finding};
ghost use Rattle.image_findings.specs.Findings.{IsConsistent, engine_in, finding, held_in, live_finding, roots_told, state_in, tables_shown, values_by_table};
ghost use Rattle.image_findings.specs.ImageBytes.{IsOfBytes};
ghost use Rattle.image_findings.specs.Images.{first_of};
ghost use Rattle.image_findings.specs.LiveFindings.{are_in_order, are_sound_sessions, is_sound_change, is_sound_live};
ghost use Rattle.image_findings.specs.RowFindings.{row_finding};
ghost use Rattle.image_findings.specs.TableContents.{TableContents, long_values};
ghost use Rattle.image_findings.specs.TreeFindings.{marks_after, no_marks, nodes_below, trees_finding, unowned_from};
ghost use Rattle.image_findings.specs.ValueFindings.{missing_values, value_finding};
ghost use Rattle.live_part.specs.LiveBytes.{entry_of, live_bytes, live_fits, standing};
ghost use Rattle.log_grammar.specs.EntryBytes.{has_spelling};
ghost use Rattle.live_part.specs.LiveReading.{whole_in};
ghost use Rattle.version_cleanup.specs.LiveSessions.{LiveState};
ghost use Rattle.own_images.specs.OwnContents.{HasOwnContents, IsOwnValue};
ghost use Rattle.own_images.specs.OwnEngines.{HasSpelledLivePart, IsOwnEngine, engine_of_store, keys_found, live_of_store};
ghost use Rattle.own_images.specs.OwnStores.{IsOwnStore, OwnStore, contents_of, image_of, own_marks, told_of};

/// The nodes of its catalog tell the catalog, with the roots of its tables' trees, and the catalog keeps the rules.
pub fn the_catalog_of_a_store_is_read_back()
    ensures told { (store : OwnStore) → IsOwnStore store → catalog_told store.trees.catalog.nodes ≡ Some (told_of store) }
    ensures tables { (store : OwnStore) → IsOwnStore store → map table_of (told_of store).tables ≡ store.catalog.tables }
    ensures sound { (store : OwnStore) → IsOwnStore store → is_sound_catalog (told_of store).greatest (map table_of (told_of store).tables) ≡ true }
{}

/// The tree of its catalog has no fault and has the catalog's nodes; nor have the trees below the roots that these nodes tell; and each
/// page that is taken is in one of the trees.
pub fn the_trees_of_a_store_have_no_fault()
    ensures catalog { (store : OwnStore) → IsOwnStore store → trees_finding store.frames (store.root ∷ []) (no_marks store.frames) ≡ None }
    ensures nodes { (store : OwnStore) → IsOwnStore store → nodes_below store.frames store.root ≡ store.trees.catalog.nodes }
    ensures tables { (store : OwnStore) → IsOwnStore store → trees_finding store.frames (roots_told (told_of store)) (own_marks store) ≡ None }
    ensures pages { (store : OwnStore) → IsOwnStore store → unowned_from 0 store.frames (marks_after store.frames (roots_told (told_of store)) (own_marks store)) ≡ None }
{
    tree_check::no_fault_is_told_of_a_tree();
}

/// Below the roots that are told stand the nodes of each table's records, those of its long values, and those of the entries of its
/// indexes. So the tables and the long values that the image shows are those of the store.
pub fn the_tables_of_a_store_are_shown()
    ensures contents { (store : OwnStore) → IsOwnStore store → AllByRecursion (HasOwnContents store.trees.tables) (contents_of store) }
    ensures tables { (store : OwnStore) → IsOwnStore store → map (λ (t : TableContents). t.table) (contents_of store) ≡ store.catalog.tables }
    ensures values { (store : OwnStore) → IsOwnStore store → (id : ℕ) → values_by_table (contents_of store) id ≡ table_long_values store.trees.tables id }
{
    tree_check::no_fault_is_told_of_a_tree();
}

/// Once the changes that are undone are left out, each of its long values is counted as often as a row refers to it, and each that a
/// row names is there, with its length.
pub fn the_references_of_a_store_are_right()
    ensures counts { (store : OwnStore) → IsOwnStore store → AllByRecursion (λ t. count_finding (standing store.held) t ≡ None) (contents_of store) }
    ensures named { (store : OwnStore) → IsOwnStore store → AllByRecursion (λ t. missing_values (standing store.held) t ≡ []) (contents_of store) }
{
    tree_check::no_fault_is_told_of_a_tree();
}

/// The nodes with the identifier of one of its long values are those of that value, the head first, and show it.
pub fn the_long_values_of_a_store_have_their_nodes()
    ensures { (store : OwnStore) → IsOwnStore store → AllByRecursion (λ t. AllByRecursion (IsOwnValue t.value_nodes) (long_values t)) (contents_of store) }
{
    tree_check::no_fault_is_told_of_a_tree();
    long_value::values_after_a_change();
}

/// Each of its long values is whole: of an entry that was made, with a length that a long value has, and with its own nodes alone. With
/// those that rows name none is found.
pub fn the_long_values_of_a_store_are_whole()
    ensures { (store : OwnStore) → IsOwnStore store → AllByRecursion (λ t. value_finding store.number (standing store.held) t ≡ None) (contents_of store) }
{
    tree_check::no_fault_is_told_of_a_tree();
    long_value::values_after_a_change();
}

/// The entries of its indexes are those of all variants of its records, each once.
pub fn the_entries_of_a_store_are_right()
    ensures { (store : OwnStore) → IsOwnStore store → AllByRecursion (λ t. entry_finding (standing store.held) t ≡ None) (contents_of store) }
{
    tree_check::no_fault_is_told_of_a_tree();
}

/// The nodes of an engine's own tables are sound: each stands where a variant of its record is one, with a bookmark of its own, a row that
/// fits the columns and that no index refuses, and room for the row before each open change. Each record that a held change which stands
/// is of has a node.
pub fn the_rows_of_an_engine_are_sound()
    ensures { (sessions : List LiveState) (store : OwnStore) → IsOwnEngine sessions store → AllByRecursion (λ t. row_finding store.number (standing store.held) t ≡ None) (contents_of store) }
{
    tree_check::no_fault_is_told_of_a_tree();
    laws_versions::views_come_of_kept_changes();
}

/// The sessions of an engine are sound: open tables do not fall and are in the catalog, each transaction began with an entry that was made,
/// and the number has room for all that is to end.
pub fn the_sessions_of_an_engine_are_sound()
    ensures { (sessions : List LiveState) (store : OwnStore) → IsOwnEngine sessions store → are_sound_sessions store.number (contents_of store) sessions ≡ true }
{}

/// Each held change that stands is sound by itself: it is of an entry that was made, in its place in its session's transaction or before it,
/// of a table of the catalog, and the row before it may stand under its bookmark.
pub fn the_held_changes_of_an_engine_are_sound()
    ensures { (sessions : List LiveState) (store : OwnStore) → IsOwnEngine sessions store → list_all (is_sound_change store.number (contents_of store) sessions) (standing store.held) ≡ true }
{
    tree_check::no_fault_is_told_of_a_tree();
}

/// The held changes that stand are in order: a put of a record that was not there comes exactly behind a drop, the last change of a record
/// left what its node has, two changes of one record that are not both sums are apart, and the levels of a session's open ones do not fall.
pub fn the_held_changes_of_an_engine_are_in_order()
    ensures { (sessions : List LiveState) (store : OwnStore) → IsOwnEngine sessions store → are_in_order (contents_of store) sessions (standing store.held) ≡ true }
{
    tree_check::no_fault_is_told_of_a_tree();
    laws_versions::views_come_of_kept_changes();
}

/// So the live part that an engine writes is sound.
pub fn the_live_part_of_an_engine_is_sound()
    ensures { (sessions : List LiveState) (store : OwnStore) → IsOwnEngine sessions store → is_sound_live store.number (contents_of store) (live_of_store sessions store) ≡ true }
{
    tree_check::no_fault_is_told_of_a_tree();
    laws_versions::views_come_of_kept_changes();
}

/// So what is found first of an image of it, whose live part has the held changes that stand, is what is found of the live part or of what
/// is read with that.
pub fn what_is_found_of_an_own_image()
    ensures values { (store : OwnStore) (live : List ℕ) → IsOwnStore store → finding (image_of store live) ≡ option_or (first_of (map (value_finding store.number (held_in (whole_in live))) (contents_of store))) (live_finding store.number (contents_of store) (whole_in live)) }
    ensures live { (store : OwnStore) (live : List ℕ) → IsOwnStore store → held_in (whole_in live) ≡ standing store.held → finding (image_of store live) ≡ live_finding store.number (contents_of store) (whole_in live) }
{
    tree_check::no_fault_is_told_of_a_tree();
    long_value::values_after_a_change();
}

/// Each held change that stands is one that an entry of the log can tell: its session has a label, its table's number fits 32 bits, its
/// bookmark has 1 to 255 bytes, and a sum is of a column whose number fits 16 bits and adds a number of 32 bits.
pub fn the_held_changes_of_an_engine_can_be_told()
    ensures { (sessions : List LiveState) (store : OwnStore) → IsOwnEngine sessions store → AllByRecursion (λ h. has_spelling (entry_of h) ≡ true) (standing store.held) }
{
    tree_check::no_fault_is_told_of_a_tree();
    laws_versions::views_come_of_kept_changes();
}

/// The live part can be written where what is in it has a spelling: counts that fit 32 bits, and changes that entries of the log can tell.
pub fn the_live_part_of_an_engine_can_be_written()
    ensures { (sessions : List LiveState) (store : OwnStore) → IsOwnEngine sessions store → HasSpelledLivePart sessions store → live_fits (live_of_store sessions store) ≡ true }
{}

/// Of an engine's own image, whose live part can be written and is written with it, what is found first is what is found of its unique keys.
pub fn what_is_found_of_an_engine_image()
    ensures { (sessions : List LiveState) (store : OwnStore) → IsOwnEngine sessions store → live_fits (live_of_store sessions store) ≡ true → finding (image_of store (live_bytes (live_of_store sessions store))) ≡ keys_found sessions store }
{
    tree_check::no_fault_is_told_of_a_tree();
    long_value::values_after_a_change();
    laws_versions::views_come_of_kept_changes();
    live_part::live_parts_are_read_back();
}

/// The tables and the held changes that an own image shows are those of the engine that wrote it, without its undone changes; and so is the
/// engine that is made of it, whose newest put may be the last entry.
pub fn the_engine_of_an_own_image_is_settled()
    ensures store { (limit : ℕ) (sessions : List LiveState) (store : OwnStore) → IsOwnStore store → tables_shown (contents_of store) (standing store.held) ≡ (settled_engine (engine_of_store limit sessions store)).store }
    ensures engine { (limit : ℕ) (sessions : List LiveState) (store : OwnStore) → IsOwnStore store → live_fits (live_of_store sessions store) ≡ true
        → engine_in limit (image_of store (live_bytes (live_of_store sessions store))) ≡ record (settled_engine (engine_of_store limit sessions store)) { newest_put = store.number } }
{
    tree_check::no_fault_is_told_of_a_tree();
    live_part::live_parts_are_read_back();
}

/// Of the unique keys of an engine's own image nothing is found: before its held changes that stand one record at most has a key, and
/// each of them that brings a key brings one that no other record has, and is apart from those that had it before.
pub fn the_unique_keys_of_an_engine_are_free()
    ensures { (sessions : List LiveState) (store : OwnStore) → IsOwnEngine sessions store → keys_found sessions store ≡ None }
{
    tree_check::no_fault_is_told_of_a_tree();
}

/// So an engine's own image is consistent, where its live part can be written; and the engine that is made of it holds the engine's state
/// without its undone changes, with whatever limit of the version store's span.
pub fn an_engine_image_is_consistent()
    ensures consistent { (sessions : List LiveState) (store : OwnStore) → IsOwnEngine sessions store → live_fits (live_of_store sessions store) ≡ true → IsConsistent (image_of store (live_bytes (live_of_store sessions store))) }
    ensures holds { (limit : ℕ) (sessions : List LiveState) (store : OwnStore) → IsOwnEngine sessions store → live_fits (live_of_store sessions store) ≡ true
        → HoldsState (engine_in limit (image_of store (live_bytes (live_of_store sessions store)))) (settled store.state) }
{
    tree_check::no_fault_is_told_of_a_tree();
    long_value::values_after_a_change();
    laws_versions::views_come_of_kept_changes();
    live_part::live_parts_are_read_back();
}

/// So a checkpoint with this image shows the engine's state without its undone changes, and covers what led there, since that state is
/// alike to the engine's own. The state that the image itself shows, where its pages and its live part are bytes, is equivalent to that
/// one, and alike to the engine's own.
pub fn an_engine_image_shows_its_state()
    ensures covers { (sessions : List LiveState) (store : OwnStore) → IsOwnEngine sessions store → live_fits (live_of_store sessions store) ≡ true
        → (IsConsistent (image_of store (live_bytes (live_of_store sessions store))) × HoldsState (engine_in 0 (image_of store (live_bytes (live_of_store sessions store)))) (settled store.state)) × AreAlike store.state (settled store.state) }
    ensures equivalent { (sessions : List LiveState) (store : OwnStore) → IsOwnEngine sessions store → live_fits (live_of_store sessions store) ≡ true → IsOfBytes (image_of store (live_bytes (live_of_store sessions store)))
        → AreEquivalent (state_in (image_of store (live_bytes (live_of_store sessions store)))) (settled store.state) }
    ensures alike { (sessions : List LiveState) (store : OwnStore) → IsOwnEngine sessions store → live_fits (live_of_store sessions store) ≡ true → IsOfBytes (image_of store (live_bytes (live_of_store sessions store)))
        → AreAlike store.state (state_in (image_of store (live_bytes (live_of_store sessions store)))) }
{
    an_engine_image_is_consistent();
    image_findings::an_engine_of_a_consistent_image_holds_its_state();
    laws_engine::states_that_one_engine_holds_are_equivalent();
    laws_images::alike_states_stay_alike();
}
