//! The nodes of a catalog that another writer may spell otherwise, written as the engine keeps them.

ghost use Rattle.std.specs.Prelude.{◌≡◌, ◌++◌, ℕ, List, true};
ghost use Rattle.std.specs.List.{flat_map};
ghost use Rattle.catalog_grammar.specs.CatalogSteps.{has_nodes, nodes_of_catalog};
ghost use Rattle.catalog_record.specs.CatalogTrees.{CatalogBecomes, IsCatalogTree, nodes_in, own_pages};
ghost use Rattle.table_trees.specs.Pages.{IsForest};
ghost use Rattle.table_trees.specs.StoredTrees.{roots_by_number};
ghost use Rattle.image_findings.specs.TableContents.{TableContents};
ghost use Rattle.image_opening.specs.KeptNodes.{HaveRoom, column_again, index_again, items_again, with_items};
ghost use Rattle.image_opening.specs.OpenedCatalogs.{IsOpened};
ghost use Rattle.image_opening.specs.OpenedTrees.{EachWith, HasContents, StayOpened, opened_pages};
ghost use Rattle.image_opening.specs.declared.opened.OpenedTable.{OpenedTable};

use crate::opened::OpenedCatalog;
use btree_inplace::other_tree_stays;
use catalog_record::{CatalogTree, NodeBuffer};
use column_set::Column;
use index_derive::IndexRule;
use jet_base::TableId;
use jet_catalog::TableDef;
use page_space::Space;

/// Writes the node of a long column.
fn write_column(space: &mut Space, tree: &mut CatalogTree, table: TableId, column: &Column)
    requires tree { IsCatalogTree space.old tree.old }
    requires room { HaveRoom (nodes_in space.old tree.old) (column_again table column.now) }
    ensures { CatalogBecomes space.old tree.old space.new tree.new (with_items (column_again table column.now) (nodes_in space.old tree.old)) }
{
    if column.kind.is_long() {
        let mut node = NodeBuffer::new();
        node.write_column(table, column);
        tree.replace(space, &node);
    }
}

/// Writes the nodes of the long columns of a table.
fn write_columns(space: &mut Space, tree: &mut CatalogTree, table: TableId, columns: &[Column])
    requires tree { IsCatalogTree space.old tree.old }
    requires room { HaveRoom (nodes_in space.old tree.old) (flat_map (column_again table) columns.now) }
    ensures { CatalogBecomes space.old tree.old space.new tree.new (with_items (flat_map (column_again table) columns.now) (nodes_in space.old tree.old)) }
{
    for column in columns {
        write_column(space, tree, table, column);
    }
}

/// Writes the node of a primary index, which has no tree, with the root 0.
fn write_index(space: &mut Space, tree: &mut CatalogTree, table: TableId, rule: &IndexRule)
    requires tree { IsCatalogTree space.old tree.old }
    requires room { HaveRoom (nodes_in space.old tree.old) (index_again table rule.now) }
    ensures { CatalogBecomes space.old tree.old space.new tree.new (with_items (index_again table rule.now) (nodes_in space.old tree.old)) }
{
    if rule.flags.primary {
        let mut node = NodeBuffer::new();
        node.write_index(table, 0, rule);
        tree.replace(space, &node);
    }
}

/// Writes the node of the primary index of a table, if it has one.
fn write_indexes(space: &mut Space, tree: &mut CatalogTree, table: TableId, rules: &[IndexRule])
    requires tree { IsCatalogTree space.old tree.old }
    requires room { HaveRoom (nodes_in space.old tree.old) (flat_map (index_again table) rules.now) }
    ensures { CatalogBecomes space.old tree.old space.new tree.new (with_items (flat_map (index_again table) rules.now) (nodes_in space.old tree.old)) }
{
    for rule in rules {
        write_index(space, tree, table, rule);
    }
}

/// Writes the nodes of the long columns and of the primary index of a table.
fn write_table(space: &mut Space, tree: &mut CatalogTree, table: &TableDef)
    requires tree { IsCatalogTree space.old tree.old }
    requires room { HaveRoom (nodes_in space.old tree.old) (items_again table.now) }
    ensures { CatalogBecomes space.old tree.old space.new tree.new (with_items (items_again table.now) (nodes_in space.old tree.old)) }
{
    let id = table.id();
    write_columns(space, tree, id, table.columns());
    write_indexes(space, tree, id, table.indexes());
}

/// Writes the nodes of the long columns and of the primary indexes of tables.
fn write_tables(space: &mut Space, tree: &mut CatalogTree, tables: &[TableDef])
    requires tree { IsCatalogTree space.old tree.old }
    requires room { HaveRoom (nodes_in space.old tree.old) (flat_map items_again tables.now) }
    ensures { CatalogBecomes space.old tree.old space.new tree.new (with_items (flat_map items_again tables.now) (nodes_in space.old tree.old)) }
{
    for table in tables {
        write_table(space, tree, table);
    }
}

impl OpenedCatalog {
    /// Writes the nodes of the catalog as the engine keeps them. Another writer may leave a long column without the flag of a tagged
    /// one, and may tell any root for a primary index, which has no tree; [`open_catalog`](crate::open_catalog) reads both. Here each
    /// long column is tagged, and each primary index has the root 0.
    ///
    /// Only the nodes of long columns and of primary indexes are written, each once and in place: a node keeps its key and its length.
    /// The call takes no memory.
    pub fn write_as_kept(&mut self, space: &mut Space)
        requires { (root : ℕ) × IsOpened space.old root self.old.tree self.old.catalog self.old.roots.items }
        // The nodes are those of the catalog and its roots, and the pages of other trees are as they were.
        ensures nodes { CatalogBecomes space.old self.old.tree space.new self.new.tree (nodes_of_catalog (roots_by_number self.old.roots.items) self.old.catalog) }
        // Each of them can be written.
        ensures writable { has_nodes (roots_by_number self.old.roots.items) self.old.catalog ≡ true }
        // The trees of all tables stay: their pages are the same, and so is what they show.
        ensures tables { (opened : List OpenedTable) (shown : List TableContents) → IsForest space.old (own_pages space.old self.old.tree ++ flat_map (opened_pages space.old) opened) → EachWith (HasContents space.old) opened shown → StayOpened space.old space.new self.new.tree opened shown }
        // The catalog and the roots are the same.
        ensures catalog { self.new.catalog ≡ self.old.catalog }
        ensures roots { self.new.roots ≡ self.old.roots }
    {
        other_tree_stays();
        write_tables(space, &mut self.tree, self.catalog.tables());
    }
}
