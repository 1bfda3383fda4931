//! A record that goes.

ghost use Rattle.std.specs.Prelude.{◌≡◌, ◌≤◌, true, IfOk, IsOk};
ghost use Rattle.std.specs.Option.{option_copied};
ghost use Rattle.index_derive.specs.Entries.{entries, is_legal, key_list};
ghost use Rattle.index_derive.specs.Derived.{next_in};
ghost use Rattle.table_trees.specs.StoredTables.{table_long_values};
ghost use Rattle.variant_trees.specs.GoneRecords.{CanRead, gone_fields};

use column_set::Record;
use index_derive::derive::{entries, next_entry};
use index_derive::{IndexRule, Schema};
use jet_base::{Items, OutOfMemory, TableId};
use key_normal::Key;
use std::alloc::Global;
use table_trees::{ShownRow, TableTrees};

/// A record that goes: one that a put failed to bring, or one of a row, which is read in place with its long values.
#[derive(Clone, Copy)]
pub enum Gone<'a> {
    /// The record itself.
    Record(&'a Record),
    /// The bytes of its row.
    Row(&'a [u8]),
}

/// The least key above `after` that the record has in the index of its table, or the least of all. It takes no memory.
pub(crate) fn next_key(
    trees: &TableTrees,
    table: TableId,
    rule: &IndexRule,
    schema: &Schema,
    gone: Gone<'_>,
    after: Option<&Key>,
) -> Option<Key>
    requires legal { is_legal rule.now schema.now ≡ true }
    requires short { rule.now.key_most ≤ 255 }
    requires row { CanRead (table_long_values trees.now.tables table.0) gone }
    requires taken { IsOk (entries rule.now schema.now (gone_fields (table_long_values trees.now.tables table.0) gone)) }
    ensures { result ≡ next_in (key_list rule.now schema.now (gone_fields (table_long_values trees.now.tables table.0) gone.entry)) (option_copied after.entry) }
{
    match gone {
        Gone::Record(record) => next_entry(rule, schema, record, after),
        Gone::Row(row) => next_entry(rule, schema, &ShownRow::new(trees, table, row), after),
    }
}

/// The keys that the record has in the index of its table, in rising order and each once.
pub(crate) fn keys_of_gone(
    alloc: Global,
    trees: &TableTrees,
    table: TableId,
    rule: &IndexRule,
    schema: &Schema,
    gone: Gone<'_>,
) -> Result<Items<Key>, OutOfMemory>
    requires legal { is_legal rule.now schema.now ≡ true }
    requires short { rule.now.key_most ≤ 255 }
    requires row { CanRead (table_long_values trees.now.tables table.0) gone }
    requires taken { IsOk (entries rule.now schema.now (gone_fields (table_long_values trees.now.tables table.0) gone)) }
    ensures { IfOk result (λ keys. keys ≡ key_list rule.now schema.now (gone_fields (table_long_values trees.now.tables table.0) gone.entry)) }
{
    match gone {
        Gone::Record(record) => match entries(alloc, rule, schema, record) {
            Ok(keys) => Ok(keys),
            Err(_) => Err(OutOfMemory),
        },
        Gone::Row(row) => match entries(alloc, rule, schema, &ShownRow::new(trees, table, row)) {
            Ok(keys) => Ok(keys),
            Err(_) => Err(OutOfMemory),
        },
    }
}
