//! The store and its tables.

ghost use Rattle.std.specs.Prelude.{◌≡◌, ℕ, ◌≤◌, true, [], map, slice_get, IsSomeAnd, Some, option_copied, option_map};
ghost use Rattle.database_state.specs.Table.{schema_of, table_named, table_with_id};
ghost use Rattle.index_derive.specs.Schemas.{rule_with_id};
ghost use Rattle.index_derive.specs.declared.rules.IndexRule.{IndexRule};
ghost use Rattle.index_derive.specs.declared.rules.Schema.{Schema};
ghost use Rattle.index_derive.specs.Entries.{is_legal};
ghost use Rattle.jet_catalog.specs.Catalog.{without_rows};
ghost use Rattle.stored_variants.specs.VersionsKept.{IsStore};
ghost use Rattle.stored_variants.specs.VersionsView.{stored_versions};

use jet_base::TableId;
use jet_catalog::{Catalog, TableDef, tables_are_found_without_records};
use std::alloc::Global;
use std::marker::Model;
use table_trees::TableTrees;
use version_store::Versions;

/// The tables of a database: their definitions, their newest records with the entries of their indexes, and the changes of
/// the past that some reader may not see or that may be undone.
///
/// Contracts see the greatest table id ever given, each table with its newest records, and the held changes, oldest first,
/// each put or drop with the record before it while it is not undone. A node of a table stands as long as any of these is a
/// record, and an index has the keys of all of them. Reading takes no memory.
///
/// The catalog stands in a tree beside those of the tables too: a schema step changes its nodes with the definitions.
///
/// A value of more than 255 bytes is kept apart, in a tree of its table. Each has as many references as newest rows, and rows before
/// of changes that are not undone, name it, and none stands without one. Its identifier has the number of the log entry of the put
/// that made it: contracts see the number of the newest put, 0 where there was none.
#[derive(Drop)]
pub struct TableVersions {
    pub(crate) alloc: Global,
    pub(crate) catalog: Catalog,
    pub(crate) trees: TableTrees,
    pub(crate) versions: Versions,
    /// The number of the log entry of the newest put, 0 where there was none.
    pub(crate) newest_put: u64,
}

/// The parts of a store, lent.
#[derive(Clone, Copy)]
pub struct StoreParts<'a> {
    /// The tables' definitions.
    pub catalog: &'a Catalog,
    /// The nodes, index entries and long values of all tables, and the nodes of the catalog.
    pub trees: &'a TableTrees,
    /// The held changes, oldest first, each with the row before it.
    pub versions: &'a Versions,
    /// The number of the log entry of the newest put, 0 where there was none.
    pub newest_put: u64,
}

impl Model for TableVersions {
    ghost use Rattle.stored_variants.specs.StoredVersions.{StoredVersions};

    ghost Value = { StoredVersions };

    ghost use Rattle.stored_variants.specs.VersionsView.{stored_versions};
    ghost use Rattle.stored_variants.specs.VersionsKept.{IsStore};

    ghost view = { λ a. stored_versions a.newest_put a.catalog a.trees.tables a.versions };

    ghost invariant = { λ a. IsStore a.newest_put a.catalog a.trees a.versions };
}

impl TableVersions {
    /// No table. It takes no memory.
    pub fn new(alloc: Global) -> TableVersions
        ensures { result ≡ record { greatest_table = 0; newest_put = 0; store = record { tables = []; held = [] } } }
    {
        TableVersions {
            alloc,
            catalog: Catalog::new(alloc),
            trees: TableTrees::new(alloc),
            versions: Versions::new(alloc),
            newest_put: 0,
        }
    }

    /// The store of parts that fit one another, which an image was read to: the nodes stand for the records, the entries are those
    /// of all held variants, the catalog's nodes are those of the catalog, and each long value has its references. The number is
    /// that of the newest put, or a later one, of which the next put's is above.
    pub fn of(
        alloc: Global,
        catalog: Catalog,
        trees: TableTrees,
        versions: Versions,
        newest_put: u64,
    ) -> TableVersions
        requires { IsStore newest_put catalog trees versions }
        ensures { result ≡ stored_versions newest_put catalog trees.tables versions }
    {
        TableVersions {
            alloc,
            catalog,
            trees,
            versions,
            newest_put,
        }
    }

    /// The greatest number that a table was ever given, 0 where there was none.
    pub fn greatest(&self) -> u32
        ensures { result ≡ self.now.greatest_table }
    {
        self.catalog.greatest()
    }

    /// The number of the log entry of the newest put, 0 where there was none. A put is of a later entry.
    pub fn newest_put(&self) -> u64
        ensures { result ≡ self.now.newest_put }
    {
        self.newest_put
    }

    /// The catalog: the greatest number that a table was ever given, and the tables without their records.
    pub fn catalog(&self) -> &Catalog
        ensures { result.now ≡ record { greatest_table = self.now.greatest_table; tables = map without_rows self.now.store.tables } }
    {
        &self.catalog
    }

    /// The tables, in the order of their making, by which their numbers rise; each without its records.
    pub fn tables(&self) -> &[TableDef]
        ensures { result.now ≡ map without_rows self.now.store.tables }
    {
        self.catalog.tables()
    }

    /// The parts, as they stand: all that an image of the store is made of.
    pub fn parts(&self) -> StoreParts<'_>
        ensures kept { IsStore result.newest_put result.catalog.now result.trees.now result.versions.now }
        ensures shown { stored_versions result.newest_put result.catalog.now result.trees.now.tables result.versions.now ≡ self.now }
    {
        StoreParts {
            catalog: &self.catalog,
            trees: &self.trees,
            versions: &self.versions,
            newest_put: self.newest_put,
        }
    }

    /// The table of this name, without its records.
    pub fn lookup(&self, name: &[u8]) -> Option<&TableDef>
        ensures { option_copied result ≡ option_map without_rows (table_named self.now.store.tables name.now) }
    {
        tables_are_found_without_records();
        self.catalog.lookup(name)
    }

    /// The table of this number, without its records.
    pub fn by_id(&self, table: TableId) -> Option<&TableDef>
        ensures { option_copied result ≡ option_map without_rows (table_with_id self.now.store.tables table.0) }
    {
        tables_are_found_without_records();
        self.catalog.by_id(table)
    }

    /// The rules of a table's schema: each is found by its number, is legal, and has keys of 255 bytes at most.
    pub fn rules_are_legal(&self)
        ensures found { (table : ℕ) (schema : Schema) → IsSomeAnd (table_with_id self.now.store.tables table) (λ t. schema ≡ schema_of t) → (place : ℕ) (rule : IndexRule) → slice_get schema.indexes place ≡ Some rule
            → rule_with_id schema rule.id.0 ≡ Some rule }
        ensures legal { (table : ℕ) (schema : Schema) → IsSomeAnd (table_with_id self.now.store.tables table) (λ t. schema ≡ schema_of t) → (rule : IndexRule) → rule_with_id schema rule.id.0 ≡ Some rule
            → (is_legal rule schema ≡ true) × (rule.key_most ≤ 255) }
    {
        let _ = &self.catalog;
    }
}
