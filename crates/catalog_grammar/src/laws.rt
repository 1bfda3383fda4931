//! The laws of the catalog's nodes. Each function has an empty body, and its clause is the law.

ghost use Rattle.std.specs.Prelude.{◌≡◌, ◌+◌, ◌≤◌, ℕ, List, length, map, true};
ghost use Rattle.std.specs.List.{list_all};
ghost use Rattle.index_derive.specs.declared.rules.IndexRule.{IndexRule};
ghost use Rattle.page_image.specs.Page.{HasRisingKeys, node_size};
ghost use Rattle.log_grammar.specs.EntryBytes.{index_bytes};
ghost use Rattle.catalog_grammar.specs.CatalogBytes.{Tells, index_data, item_data, item_fits, item_key, item_node};
ghost use Rattle.catalog_grammar.specs.Catalogs.{CatalogTable, catalog_fits, catalog_items, catalog_nodes, has_tagged_longs, tables_of_items, tables_told, with_tagged_longs};
ghost use Rattle.catalog_grammar.specs.declared.items.CatalogItem.{CatalogItem};

/// A node tells one item at most.
pub fn nodes_have_one_spelling()
    ensures { (key bytes : List ℕ) (a b : CatalogItem) → Tells key bytes a → Tells key bytes b → a ≡ b }
{}

/// The nodes of a catalog have room in a tree: a key has 7 bytes and the data at most 1,607, so that a node takes at most
/// 1,620 of the 2,032 bytes that it may.
pub fn nodes_fit_a_tree()
    ensures key { (x : CatalogItem) → length (item_key x) ≡ 7 }
    ensures bytes { (x : CatalogItem) → item_fits x ≡ true → length (item_data x) ≤ 1607 }
    ensures size { (x : CatalogItem) → item_fits x ≡ true → node_size (item_node x) ≤ 1620 }
{}

/// The nodes of a catalog stand by rising key, so that a tree holds them in this order.
pub fn keys_rise()
    ensures { (greatest : ℕ) (tables : List CatalogTable) → catalog_fits greatest tables ≡ true → HasRisingKeys (catalog_nodes greatest tables) }
{}

/// What the nodes of a catalog tell are its tables, so that two catalogs with the same nodes are the same.
pub fn catalogs_are_read_back()
    ensures told { (greatest : ℕ) (tables : List CatalogTable) → catalog_fits greatest tables ≡ true → tables_told (catalog_items greatest tables) ≡ tables }
    ensures same { (greatest other : ℕ) (tables others : List CatalogTable) → catalog_fits greatest tables ≡ true → catalog_fits other others ≡ true → catalog_nodes greatest tables ≡ catalog_nodes other others → (greatest ≡ other) × (tables ≡ others) }
{}

/// The tables of the database whose catalog has these nodes are those that were written. Where a node does not say that a long
/// column is tagged, the database has it tagged nevertheless.
pub fn long_columns_are_read_as_tagged()
    ensures read { (greatest : ℕ) (tables : List CatalogTable) → catalog_fits greatest tables ≡ true → tables_of_items (catalog_items greatest tables) ≡ map with_tagged_longs tables }
    ensures own { (greatest : ℕ) (tables : List CatalogTable) → catalog_fits greatest tables ≡ true → list_all has_tagged_longs tables ≡ true → tables_of_items (catalog_items greatest tables) ≡ tables }
    ensures tagged { (items : List CatalogItem) → list_all has_tagged_longs (tables_of_items items) ≡ true }
{}

/// The log spells a new index as the catalog does, with the root 0.
pub fn new_indexes_are_spelled_as_in_the_log()
    ensures { (index : IndexRule) → index_data 0 index ≡ index_bytes index }
{}
