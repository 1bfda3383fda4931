//! What single nodes come, go and change.

ghost use Rattle.std.specs.Prelude.{◌≡◌, ℕ, true, Some, None, List, [], ◌∷◌, ◌++◌, find, length};
ghost use Rattle.column_set.specs.declared.columns.Column.{Column};
ghost use Rattle.index_derive.specs.declared.rules.IndexRule.{IndexRule};
ghost use Rattle.btree_inplace.specs.Changes.{inserted, with_data_at, without_key};
ghost use Rattle.btree_inplace.specs.Order.{has_key};
ghost use Rattle.catalog_grammar.specs.CatalogBytes.{item_data, item_key, item_node, table_data};
ghost use Rattle.catalog_grammar.specs.Catalogs.{CatalogTable, catalog_fits, catalog_nodes};
ghost use Rattle.catalog_grammar.specs.declared.items.CatalogItem.TheVariants as item;
ghost use Rattle.catalog_grammar.specs.declared.items.TableItem.{TableItem};
ghost use Rattle.catalog_grammar.specs.CatalogParts.{OtherTables, bare_table, with_columns, with_indexes, with_item, with_tables};

/// A new table, which has neither columns nor indexes, is one node more, and a table without them that goes is one node
/// less.
pub fn tables_are_nodes()
    ensures absent { (greatest : ℕ) (others : OtherTables) (table : TableItem) → catalog_fits greatest (with_tables others (bare_table table ∷ [])) ≡ true → find (has_key (item_key (item.Table table))) (catalog_nodes greatest (with_tables others [])) ≡ None }
    ensures added { (greatest : ℕ) (others : OtherTables) (table : TableItem) → catalog_fits greatest (with_tables others (bare_table table ∷ [])) ≡ true → inserted (catalog_nodes greatest (with_tables others [])) (item_node (item.Table table)) ≡ catalog_nodes greatest (with_tables others (bare_table table ∷ [])) }
    ensures there { (greatest : ℕ) (others : OtherTables) (table : TableItem) → catalog_fits greatest (with_tables others (bare_table table ∷ [])) ≡ true → find (has_key (item_key (item.Table table))) (catalog_nodes greatest (with_tables others (bare_table table ∷ []))) ≡ Some (item_node (item.Table table)) }
    ensures removed { (greatest : ℕ) (others : OtherTables) (table : TableItem) → catalog_fits greatest (with_tables others (bare_table table ∷ [])) ≡ true → without_key (catalog_nodes greatest (with_tables others (bare_table table ∷ []))) (item_key (item.Table table)) ≡ catalog_nodes greatest (with_tables others []) }
{}

/// A new column is one node more, and a column that goes is one node less.
pub fn columns_are_nodes()
    ensures absent { (greatest : ℕ) (others : OtherTables) (x : CatalogTable) (left right : List Column) (column : Column) → catalog_fits greatest (with_columns others x (left ++ column ∷ right)) ≡ true → find (has_key (item_key (item.Column x.table.id column))) (catalog_nodes greatest (with_columns others x (left ++ right))) ≡ None }
    ensures added { (greatest : ℕ) (others : OtherTables) (x : CatalogTable) (left right : List Column) (column : Column) → catalog_fits greatest (with_columns others x (left ++ column ∷ right)) ≡ true → inserted (catalog_nodes greatest (with_columns others x (left ++ right))) (item_node (item.Column x.table.id column)) ≡ catalog_nodes greatest (with_columns others x (left ++ column ∷ right)) }
    ensures there { (greatest : ℕ) (others : OtherTables) (x : CatalogTable) (left right : List Column) (column : Column) → catalog_fits greatest (with_columns others x (left ++ column ∷ right)) ≡ true → find (has_key (item_key (item.Column x.table.id column))) (catalog_nodes greatest (with_columns others x (left ++ column ∷ right))) ≡ Some (item_node (item.Column x.table.id column)) }
    ensures removed { (greatest : ℕ) (others : OtherTables) (x : CatalogTable) (left right : List Column) (column : Column) → catalog_fits greatest (with_columns others x (left ++ column ∷ right)) ≡ true → without_key (catalog_nodes greatest (with_columns others x (left ++ column ∷ right))) (item_key (item.Column x.table.id column)) ≡ catalog_nodes greatest (with_columns others x (left ++ right)) }
{}

/// A new index is one node more, and an index that goes is one node less. Each stands behind its root.
pub fn indexes_are_nodes()
    ensures absent { (greatest : ℕ) (others : OtherTables) (x : CatalogTable) (left right : List (ℕ × IndexRule)) (index : ℕ × IndexRule) → catalog_fits greatest (with_indexes others x (left ++ index ∷ right)) ≡ true → find (has_key (item_key (item.Index x.table.id index.0 index.1))) (catalog_nodes greatest (with_indexes others x (left ++ right))) ≡ None }
    ensures added { (greatest : ℕ) (others : OtherTables) (x : CatalogTable) (left right : List (ℕ × IndexRule)) (index : ℕ × IndexRule) → catalog_fits greatest (with_indexes others x (left ++ index ∷ right)) ≡ true → inserted (catalog_nodes greatest (with_indexes others x (left ++ right))) (item_node (item.Index x.table.id index.0 index.1)) ≡ catalog_nodes greatest (with_indexes others x (left ++ index ∷ right)) }
    ensures there { (greatest : ℕ) (others : OtherTables) (x : CatalogTable) (left right : List (ℕ × IndexRule)) (index : ℕ × IndexRule) → catalog_fits greatest (with_indexes others x (left ++ index ∷ right)) ≡ true → find (has_key (item_key (item.Index x.table.id index.0 index.1))) (catalog_nodes greatest (with_indexes others x (left ++ index ∷ right))) ≡ Some (item_node (item.Index x.table.id index.0 index.1)) }
    ensures removed { (greatest : ℕ) (others : OtherTables) (x : CatalogTable) (left right : List (ℕ × IndexRule)) (index : ℕ × IndexRule) → catalog_fits greatest (with_indexes others x (left ++ index ∷ right)) ≡ true → without_key (catalog_nodes greatest (with_indexes others x (left ++ index ∷ right))) (item_key (item.Index x.table.id index.0 index.1)) ≡ catalog_nodes greatest (with_indexes others x (left ++ right)) }
{}

/// Where the greatest number of a table, the greatest columns or a root of a table, or the root of an index changes, one
/// node has other data of the same length. The name of a table and the rule of an index stay.
pub fn numbers_are_data()
    ensures greatest { (greatest now : ℕ) (tables : List CatalogTable) → catalog_fits greatest tables ≡ true → with_data_at (catalog_nodes greatest tables) (item_key (item.Greatest now)) (item_data (item.Greatest now)) ≡ catalog_nodes now tables }
    ensures table { (greatest : ℕ) (others : OtherTables) (x : CatalogTable) (now : TableItem) → catalog_fits greatest (with_item others x x.table) ≡ true → now.id ≡ x.table.id → now.name ≡ x.table.name → with_data_at (catalog_nodes greatest (with_item others x x.table)) (item_key (item.Table now)) (item_data (item.Table now)) ≡ catalog_nodes greatest (with_item others x now) }
    ensures root { (greatest : ℕ) (others : OtherTables) (x : CatalogTable) (left right : List (ℕ × IndexRule)) (index : ℕ × IndexRule) (now : ℕ) → catalog_fits greatest (with_indexes others x (left ++ index ∷ right)) ≡ true → with_data_at (catalog_nodes greatest (with_indexes others x (left ++ index ∷ right))) (item_key (item.Index x.table.id now index.1)) (item_data (item.Index x.table.id now index.1)) ≡ catalog_nodes greatest (with_indexes others x (left ++ (now, index.1) ∷ right)) }
{}
