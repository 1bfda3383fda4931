//! The nodes of a catalog after each schema step: which node comes, which goes and which has other data, in the order in
//! which a tree of them takes the changes. What may want memory comes first.

ghost use Rattle.std.specs.Prelude.{◌≡◌, ◌<◌, ◌==◌, ℕ, true, false, Some, None, List, [], ◌∷◌, ◌++◌, length, map, All, IsSome, IsTrue};
ghost use Rattle.jet_base.specs.declared.ids.ColumnId.{ColumnId};
ghost use Rattle.jet_base.specs.declared.ids.IndexId.{IndexId};
ghost use Rattle.jet_base.specs.declared.ids.TableId.{TableId};
ghost use Rattle.column_set.specs.declared.columns.Column.{Column};
ghost use Rattle.column_set.specs.RecordValues.{tagged_if_long};
ghost use Rattle.index_derive.specs.declared.rules.IndexRule.{IndexRule};
ghost use Rattle.index_derive.specs.declared.schema_calls.SchemaStep.TheVariants as step;
ghost use Rattle.database_state.specs.SchemaChanges.{has_column, new_table, with_column};
ghost use Rattle.database_state.specs.Table.{Table, table_with_id};
ghost use Rattle.jet_catalog.specs.Catalog.{CatalogState, IsNumbered, catalog_after, has_new_id};
ghost use Rattle.page_image.specs.Page.{Node};
ghost use Rattle.btree_inplace.specs.Changes.{inserted, with_data_at, without_key};
ghost use Rattle.btree_inplace.specs.Order.{extent_in, get_in};
ghost use Rattle.catalog_grammar.specs.CatalogBytes.{catalog_key, item_data, item_fits, item_key, item_node};
ghost use Rattle.catalog_grammar.specs.declared.items.CatalogItem.{CatalogItem};
ghost use Rattle.catalog_grammar.specs.declared.items.CatalogItem.TheVariants as item;
ghost use Rattle.catalog_grammar.specs.CatalogSteps.{HasNodesThrough, HasSameRoots, Roots, has_index, has_nodes, item_of_column, item_of_index, item_of_table, items_of_columns, items_of_indexes, nodes_of_catalog, without_indexes, without_items, without_parts};

/// A new table is one node more, and then the greatest number has other data.
pub fn create_table_adds_a_node()
    ensures absent { (roots : Roots) (catalog : CatalogState) (table : TableId) (name : List ℕ) → HasNodesThrough roots catalog (step.CreateTable table name)
        → get_in (nodes_of_catalog roots catalog) (item_key (item_of_table roots (new_table table.0 name))) ≡ None }
    ensures same_length { (roots : Roots) (catalog : CatalogState) (table : TableId) (name : List ℕ) → HasNodesThrough roots catalog (step.CreateTable table name)
        → extent_in (inserted (nodes_of_catalog roots catalog) (item_node (item_of_table roots (new_table table.0 name)))) (item_key (item.Greatest table.0)) ≡ Some (length (item_data (item.Greatest table.0))) }
    ensures after { (roots : Roots) (catalog : CatalogState) (table : TableId) (name : List ℕ) → HasNodesThrough roots catalog (step.CreateTable table name)
        → with_data_at (inserted (nodes_of_catalog roots catalog) (item_node (item_of_table roots (new_table table.0 name)))) (item_key (item.Greatest table.0)) (item_data (item.Greatest table.0)) ≡ nodes_of_catalog roots (catalog_after catalog (step.CreateTable table name)) }
    ensures fits { (roots : Roots) (catalog : CatalogState) (table : TableId) (name : List ℕ) → has_nodes roots catalog ≡ true → IsNumbered catalog → IsTrue (has_new_id catalog (step.CreateTable table name)) → item_fits (item_of_table roots (new_table table.0 name)) ≡ true
        → has_nodes roots (catalog_after catalog (step.CreateTable table name)) ≡ true }
{}

/// A new column is one node more, in which a long one is tagged, and then its table's node has other data, with the
/// greatest columns.
pub fn add_column_adds_a_node()
    ensures absent { (roots : Roots) (catalog : CatalogState) (table : TableId) (column : Column) (t : Table) → table_with_id catalog.tables table.0 ≡ Some t → HasNodesThrough roots catalog (step.AddColumn table column)
        → get_in (nodes_of_catalog roots catalog) (item_key (item_of_column t column)) ≡ None }
    ensures same_length { (roots : Roots) (catalog : CatalogState) (table : TableId) (column : Column) (t : Table) → table_with_id catalog.tables table.0 ≡ Some t → HasNodesThrough roots catalog (step.AddColumn table column)
        → extent_in (inserted (nodes_of_catalog roots catalog) (item_node (item_of_column t (tagged_if_long column)))) (item_key (item_of_table roots (with_column column t))) ≡ Some (length (item_data (item_of_table roots (with_column column t)))) }
    ensures after { (roots : Roots) (catalog : CatalogState) (table : TableId) (column : Column) (t : Table) → table_with_id catalog.tables table.0 ≡ Some t → HasNodesThrough roots catalog (step.AddColumn table column)
        → with_data_at (inserted (nodes_of_catalog roots catalog) (item_node (item_of_column t (tagged_if_long column)))) (item_key (item_of_table roots (with_column column t))) (item_data (item_of_table roots (with_column column t))) ≡ nodes_of_catalog roots (catalog_after catalog (step.AddColumn table column)) }
    ensures fits { (roots : Roots) (catalog : CatalogState) (table : TableId) (column : Column) (t : Table) → table_with_id catalog.tables table.0 ≡ Some t → has_nodes roots catalog ≡ true → item_fits (item_of_column t column) ≡ true → has_column t column.id.0 ≡ false → 0 < column.id.0
        → has_nodes roots (catalog_after catalog (step.AddColumn table column)) ≡ true }
{}

/// A column that is deleted is one node less, which has its number in its key.
pub fn delete_column_removes_a_node()
    ensures there { (roots : Roots) (catalog : CatalogState) (table : TableId) (column : ColumnId) (t : Table) → table_with_id catalog.tables table.0 ≡ Some t → has_column t column.0 ≡ true → has_nodes roots catalog ≡ true
        → IsSome (get_in (nodes_of_catalog roots catalog) (catalog_key 2 table.0 column.0)) }
    ensures after { (roots : Roots) (catalog : CatalogState) (table : TableId) (column : ColumnId) (t : Table) → table_with_id catalog.tables table.0 ≡ Some t → has_column t column.0 ≡ true → has_nodes roots catalog ≡ true
        → without_key (nodes_of_catalog roots catalog) (catalog_key 2 table.0 column.0) ≡ nodes_of_catalog roots (catalog_after catalog (step.DeleteColumn table column)) }
    ensures fits { (roots : Roots) (catalog : CatalogState) (table : TableId) (column : ColumnId) (t : Table) → table_with_id catalog.tables table.0 ≡ Some t → has_column t column.0 ≡ true → has_nodes roots catalog ≡ true
        → has_nodes roots (catalog_after catalog (step.DeleteColumn table column)) ≡ true }
{}

/// A new index is one node more.
pub fn create_index_adds_a_node()
    ensures absent { (roots : Roots) (catalog : CatalogState) (table : TableId) (rule : IndexRule) (t : Table) → table_with_id catalog.tables table.0 ≡ Some t → HasNodesThrough roots catalog (step.CreateIndex table rule)
        → get_in (nodes_of_catalog roots catalog) (item_key (item_of_index roots t rule)) ≡ None }
    ensures after { (roots : Roots) (catalog : CatalogState) (table : TableId) (rule : IndexRule) (t : Table) → table_with_id catalog.tables table.0 ≡ Some t → HasNodesThrough roots catalog (step.CreateIndex table rule)
        → inserted (nodes_of_catalog roots catalog) (item_node (item_of_index roots t rule)) ≡ nodes_of_catalog roots (catalog_after catalog (step.CreateIndex table rule)) }
    ensures fits { (roots : Roots) (catalog : CatalogState) (table : TableId) (rule : IndexRule) (t : Table) → table_with_id catalog.tables table.0 ≡ Some t → has_nodes roots catalog ≡ true → item_fits (item_of_index roots t rule) ≡ true → has_index t rule.id.0 ≡ false → 0 < rule.id.0
        → has_nodes roots (catalog_after catalog (step.CreateIndex table rule)) ≡ true }
{}

/// An index that is deleted is one node less, which has its number in its key.
pub fn delete_index_removes_a_node()
    ensures there { (roots : Roots) (catalog : CatalogState) (table : TableId) (index : IndexId) (t : Table) → table_with_id catalog.tables table.0 ≡ Some t → has_index t index.0 ≡ true → has_nodes roots catalog ≡ true
        → IsSome (get_in (nodes_of_catalog roots catalog) (catalog_key 3 table.0 index.0)) }
    ensures after { (roots : Roots) (catalog : CatalogState) (table : TableId) (index : IndexId) (t : Table) → table_with_id catalog.tables table.0 ≡ Some t → has_index t index.0 ≡ true → has_nodes roots catalog ≡ true
        → without_key (nodes_of_catalog roots catalog) (catalog_key 3 table.0 index.0) ≡ nodes_of_catalog roots (catalog_after catalog (step.DeleteIndex table index)) }
    ensures fits { (roots : Roots) (catalog : CatalogState) (table : TableId) (index : IndexId) (t : Table) → table_with_id catalog.tables table.0 ≡ Some t → has_index t index.0 ≡ true → has_nodes roots catalog ≡ true
        → has_nodes roots (catalog_after catalog (step.DeleteIndex table index)) ≡ true }
{}

/// Of a table that is deleted the nodes of its indexes go, in their order of making, then those of its columns, and then
/// its own.
pub fn delete_table_removes_its_nodes()
    ensures indexes { (roots : Roots) (catalog : CatalogState) (t : Table) (done rest : List IndexRule) (rule : IndexRule) → table_with_id catalog.tables t.id ≡ Some t → has_nodes roots catalog ≡ true → t.indexes ≡ done ++ rule ∷ rest
        → IsSome (get_in (without_items (items_of_indexes roots t done) (nodes_of_catalog roots catalog)) (item_key (item_of_index roots t rule))) }
    ensures columns { (roots : Roots) (catalog : CatalogState) (t : Table) (done rest : List Column) (column : Column) → table_with_id catalog.tables t.id ≡ Some t → has_nodes roots catalog ≡ true → t.columns ≡ done ++ column ∷ rest
        → IsSome (get_in (without_items (items_of_columns t done) (without_indexes roots catalog t)) (item_key (item_of_column t column))) }
    ensures table { (roots : Roots) (catalog : CatalogState) (t : Table) → table_with_id catalog.tables t.id ≡ Some t → has_nodes roots catalog ≡ true
        → IsSome (get_in (without_parts roots catalog t) (item_key (item_of_table roots t))) }
    ensures after { (roots : Roots) (catalog : CatalogState) (table : TableId) (t : Table) → table_with_id catalog.tables table.0 ≡ Some t → has_nodes roots catalog ≡ true
        → without_key (without_parts roots catalog t) (item_key (item_of_table roots t)) ≡ nodes_of_catalog roots (catalog_after catalog (step.DeleteTable table)) }
    ensures fits { (roots : Roots) (catalog : CatalogState) (table : TableId) (t : Table) → table_with_id catalog.tables table.0 ≡ Some t → has_nodes roots catalog ≡ true
        → has_nodes roots (catalog_after catalog (step.DeleteTable table)) ≡ true }
{}

/// A new table is taken back: its node goes, and then the greatest number has the data that it had.
pub fn create_table_is_taken_back()
    ensures there { (roots : Roots) (catalog : CatalogState) (table : TableId) (name : List ℕ) → HasNodesThrough roots catalog (step.CreateTable table name)
        → IsSome (get_in (nodes_of_catalog roots (catalog_after catalog (step.CreateTable table name))) (catalog_key 1 table.0 0)) }
    ensures same_length { (roots : Roots) (catalog : CatalogState) (table : TableId) (name : List ℕ) → HasNodesThrough roots catalog (step.CreateTable table name)
        → extent_in (without_key (nodes_of_catalog roots (catalog_after catalog (step.CreateTable table name))) (catalog_key 1 table.0 0)) (item_key (item.Greatest catalog.greatest_table)) ≡ Some (length (item_data (item.Greatest catalog.greatest_table))) }
    ensures after { (roots : Roots) (catalog : CatalogState) (table : TableId) (name : List ℕ) → HasNodesThrough roots catalog (step.CreateTable table name)
        → with_data_at (without_key (nodes_of_catalog roots (catalog_after catalog (step.CreateTable table name))) (catalog_key 1 table.0 0)) (item_key (item.Greatest catalog.greatest_table)) (item_data (item.Greatest catalog.greatest_table)) ≡ nodes_of_catalog roots catalog }
{}

/// A new column is taken back: its node goes, and then its table's node has the data that it had.
pub fn add_column_is_taken_back()
    ensures there { (roots : Roots) (catalog : CatalogState) (table : TableId) (column : Column) (t : Table) → table_with_id catalog.tables table.0 ≡ Some t → HasNodesThrough roots catalog (step.AddColumn table column)
        → IsSome (get_in (nodes_of_catalog roots (catalog_after catalog (step.AddColumn table column))) (catalog_key 2 table.0 column.id.0)) }
    ensures same_length { (roots : Roots) (catalog : CatalogState) (table : TableId) (column : Column) (t : Table) → table_with_id catalog.tables table.0 ≡ Some t → HasNodesThrough roots catalog (step.AddColumn table column)
        → extent_in (without_key (nodes_of_catalog roots (catalog_after catalog (step.AddColumn table column))) (catalog_key 2 table.0 column.id.0)) (item_key (item_of_table roots t)) ≡ Some (length (item_data (item_of_table roots t))) }
    ensures after { (roots : Roots) (catalog : CatalogState) (table : TableId) (column : Column) (t : Table) → table_with_id catalog.tables table.0 ≡ Some t → HasNodesThrough roots catalog (step.AddColumn table column)
        → with_data_at (without_key (nodes_of_catalog roots (catalog_after catalog (step.AddColumn table column))) (catalog_key 2 table.0 column.id.0)) (item_key (item_of_table roots t)) (item_data (item_of_table roots t)) ≡ nodes_of_catalog roots catalog }
{}

/// Nodes go one after the other: a loop over the items of a table takes out one more each time.
pub fn nodes_go_one_by_one()
    ensures { (items : List CatalogItem) (x : CatalogItem) (nodes : List Node) → without_items (items ++ x ∷ []) nodes ≡ without_key (without_items items nodes) (item_key x) }
{}

/// Only the roots of the catalog's own trees count: those of a tree that was made or given back beside them do not.
pub fn other_roots_do_not_count()
    ensures nodes { (one other : Roots) (catalog : CatalogState) → All (HasSameRoots one other) catalog.tables → nodes_of_catalog one catalog ≡ nodes_of_catalog other catalog }
    ensures writable { (one other : Roots) (catalog : CatalogState) → All (HasSameRoots one other) catalog.tables → has_nodes one catalog ≡ has_nodes other catalog }
{}
