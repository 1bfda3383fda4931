//! Whether the records of a table may stand in an index that is made.

ghost use Rattle.std.specs.Prelude.{◌≡◌, ◌≤◌, ◌++◌, ℕ, List, [], Result, true, false, IfOk, OnOk};
ghost use Rattle.column_set.specs.Refusals.{first_refusal};
ghost use Rattle.database_state.specs.Table.{record_in, schema_of};
ghost use Rattle.index_derive.specs.Derived.{IsDerived};
ghost use Rattle.index_derive.specs.Entries.{KeyRefusal, is_legal, is_unique};
ghost use Rattle.laws_engine.specs.HeldRecords.{seen_record};
ghost use Rattle.engine_parts.specs.CreatingIndexes.{IsAdded, IsBrought, asks_of_records, brought_refusals, entries_of, row_refusals, rows_shown};

use index_derive::derive::entries;
use index_derive::{DeriveFault, IndexRule, Place, has_double};
use jet_base::{Items, Jet, OutOfMemory};
use jet_catalog::TableDef;
use key_normal::Key;
use laws_engine::a_reader_finds_the_records_that_it_is_shown;
use std::alloc::Global;
use table_versions::TableVersions;
use version_store::Reader;

/// Why the records of a table that a reader sees may not stand in an index: one with a NULL, or else one with a cut key, that
/// it disallows, or else a key that two of them share, where it is unique.
///
/// It goes over the records once, and over none where the index refuses no record. For a unique index it holds the keys of all
/// of them, and sorts them.
pub(crate) fn records_refusal(
    alloc: Global,
    tables: &TableVersions,
    table: &TableDef,
    rule: &IndexRule,
    reader: Reader,
) -> Result<Option<Jet>, OutOfMemory>
    requires legal { is_legal rule.now (schema_of table.now) ≡ true }
    requires short { rule.now.key_most ≤ 255 }
    ensures { IfOk result (λ refusal. refusal ≡ first_refusal (row_refusals rule.now (schema_of table.now) (rows_shown reader tables.now.store table.now.id))) }
{
    if asks_of_records(rule) {
        let brought = brought_by_all(alloc, tables, table, rule, reader)?;
        Ok(brought.refusal())
    } else {
        Ok(None)
    }
}

// Whether the index can refuse a record.
fn asks_of_records(rule: &IndexRule) -> bool
    ensures { result ≡ asks_of_records rule.now }
{
    rule.flags.disallownull || rule.flags.disallowtruncation || is_unique(rule)
}

/// What the records gone over so far bring into an index.
#[derive(Drop)]
struct Brought {
    is_unique: bool,
    /// One of them has a NULL that the index disallows.
    has_null: bool,
    /// One of them has a cut key that it disallows.
    has_cut: bool,
    /// All keys, where the index is unique.
    keys: Vec<Key>,
}

impl Brought {
    // Nothing yet. It takes no memory.
    fn new(alloc: Global, is_unique: bool) -> Brought
        ensures unique { result.is_unique ≡ is_unique }
        ensures null { result.has_null ≡ false }
        ensures cut { result.has_cut ≡ false }
        ensures keys { result.keys.items ≡ [] }
    {
        Brought {
            is_unique,
            has_null: false,
            has_cut: false,
            keys: Vec::new(alloc),
        }
    }

    // Adds the keys of one record more, or why the index refuses it.
    fn add(&mut self, made: Result<Items<Key>, DeriveFault>) -> Result<(), OutOfMemory>
        ensures { (told : Result (List (List ℕ)) KeyRefusal) → IsDerived told made → OnOk result (IsAdded told self.old self.new) }
    {
        match made {
            Ok(keys) => {
                if self.is_unique {
                    push_keys(&mut self.keys, &keys)
                } else {
                    Ok(())
                }
            }
            Err(DeriveFault::NullKeyDisallowed) => {
                self.has_null = true;
                Ok(())
            }
            Err(DeriveFault::KeyTruncated) => {
                self.has_cut = true;
                Ok(())
            }
            Err(DeriveFault::OutOfMemory) => Err(OutOfMemory),
        }
    }

    // Why the records may not stand in the index.
    fn refusal(self) -> Option<Jet>
        ensures { result ≡ first_refusal (brought_refusals self) }
    {
        if self.has_null {
            Some(Jet::NullKeyDisallowed)
        } else if self.has_cut {
            Some(Jet::KeyTruncated)
        } else if self.is_unique && has_double(self.keys) {
            Some(Jet::KeyDuplicate)
        } else {
            None
        }
    }
}

// What all records of a table that a reader sees bring into an index.
fn brought_by_all(
    alloc: Global,
    tables: &TableVersions,
    table: &TableDef,
    rule: &IndexRule,
    reader: Reader,
) -> Result<Brought, OutOfMemory>
    requires legal { is_legal rule.now (schema_of table.now) ≡ true }
    requires short { rule.now.key_most ≤ 255 }
    ensures { IfOk result (IsBrought rule.now (schema_of table.now) (rows_shown reader tables.now.store table.now.id)) }
{
    a_reader_finds_the_records_that_it_is_shown();
    tables.seen_entries_are_in_order();
    let id = table.id();
    let mut brought = Brought::new(alloc, is_unique(rule));
    let mut found = tables.walk_records(id, &Place::Before, reader);
    while let Some(entry) = found {
        let made = entries_under(
            alloc,
            tables,
            table,
            rule,
            entry.bookmark.as_bytes(),
            reader,
        );
        brought.add(made)?;
        let last = Place::On(entry.key, entry.bookmark);
        found = tables.walk_records(id, &last, reader);
    }
    Ok(brought)
}

// Whether no two records may have an equal key.
fn is_unique(rule: &IndexRule) -> bool
    ensures { result ≡ is_unique rule.now }
{
    rule.flags.primary || rule.flags.unique
}

// The keys of the record under a bookmark, or why the index refuses it.
fn entries_under(
    alloc: Global,
    tables: &TableVersions,
    table: &TableDef,
    rule: &IndexRule,
    bookmark: &[u8],
    reader: Reader,
) -> Result<Items<Key>, DeriveFault>
    requires legal { is_legal rule.now (schema_of table.now) ≡ true }
    requires short { rule.now.key_most ≤ 255 }
    ensures { IsDerived (entries_of rule.now (schema_of table.now) (seen_record table.now.id bookmark.now reader (record_in tables.now.store.tables table.now.id bookmark.now) tables.now.store.held)) result }
{
    match tables.look_up(table.id(), bookmark, reader) {
        Some(row) => entries(alloc, rule, table.schema(), &row),
        None => Ok(Items::empty(alloc)),
    }
}

// Puts copies of the keys at the end.
fn push_keys(keys: &mut Vec<Key>, made: &Items<Key>) -> Result<(), OutOfMemory>
    ensures { OnOk result (keys.new.items ≡ keys.old.items ++ made.now) }
{
    for key in made.as_slice() {
        keys.push(key.copy())?;
    }
    Ok(())
}
