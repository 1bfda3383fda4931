//! Keys of records: conflicts over them with the changes of other sessions, and keys that another record of the view has.

ghost use Rattle.std.specs.Prelude.{◌≡◌, ℕ, Bool, List, ◌≤◌, ◌<◌, ◌&&◌, ◌||◌, false, length, map, slice_get, true, IsSomeAnd, Some, option_copied};
ghost use Rattle.std.specs.List.{list_any};
ghost use Rattle.database_state.specs.Conflicts.{yields_key};
ghost use Rattle.database_state.specs.Puts.{is_replaced};
ghost use Rattle.database_state.specs.Table.{record_in, schema_of, table_with_id};
ghost use Rattle.index_derive.specs.Schemas.{rule_with_id};
ghost use Rattle.index_derive.specs.declared.rules.IndexRule.{IndexRule};
ghost use Rattle.index_derive.specs.declared.rules.Schema.{Schema};
ghost use Rattle.index_derive.specs.Entries.{is_legal};
ghost use Rattle.version_store.specs.declared.calls.Reader.{Reader};
ghost use Rattle.version_store.specs.HeldChanges.{HeldChange};
ghost use Rattle.laws_engine.specs.HeldRecords.{has_key_conflict, is_change_at};
ghost use Rattle.table_versions.specs.KeyConflicts.{AreRowsBefore, conflicts_under, is_taken_for, yields_before_change};
ghost use Rattle.stored_variants.specs.RecordRows.{TableValues, held_record_in};
ghost use Rattle.table_trees.specs.StoredTables.{table_long_values};

use crate::neighbors::entry_behind;
use crate::store::TableVersions;
use index_derive::derive::yields;
use index_derive::{IndexRule, Place, Schema};
use jet_base::{IndexId, TableId};
use key_normal::Key;
use laws_versions::a_primary_index_has_one_entry;
use table_trees::{ShownRow, TableTrees};
use variant_trees::in_place;
use version_store::{Reader, Versions};

impl TableVersions {
    // Whether a key conflict stands against a key of an index: a change of another session that is open, or was committed after
    // the reader's begin, has the key in its record before it or after it. The schema is that of the table, and the rule is one
    // of its rules.
    //
    // It goes over the entries of the key, which all variants of records have, and for each over the changes of its record.
    pub(crate) fn key_conflict(
        &self,
        reader: Reader,
        table: TableId,
        schema: &Schema,
        rule: &IndexRule,
        key: &Key,
    ) -> bool
        requires named { IsSomeAnd (table_with_id self.now.store.tables table.0) (λ t. schema.now ≡ schema_of t) }
        requires rule { rule_with_id schema.now rule.now.id.0 ≡ Some rule.now }
        ensures { result ≡ has_key_conflict reader (record_in self.now.store.tables) table.0 rule.now schema.now key.now self.now.store.held }
    {
        a_primary_index_has_one_entry();
        self.trees.nodes_are_in_order();
        if rule.flags.primary {
            self.conflict_under(reader, table, schema, rule, key, key.as_bytes())
        } else {
            self.conflict_at_entries(reader, table, schema, rule, key)
        }
    }

    /// A key of the primary index is in conflict with changes of the record under it alone.
    pub(crate) fn keys_of_a_primary_index_conflict_by_their_record(&self)
        ensures { (reader : Reader) (table : ℕ) (schema : Schema) (rule : IndexRule) (key : List ℕ) → IsSomeAnd (table_with_id self.now.store.tables table) (λ t. schema ≡ schema_of t)
            → rule_with_id schema rule.id.0 ≡ Some rule → rule.flags.primary ≡ true
            → conflicts_under reader rule schema key (yields_key rule schema key (record_in self.now.store.tables table key)) table key self.now.store.held ≡ has_key_conflict reader (record_in self.now.store.tables) table rule schema key self.now.store.held }
    {
        a_primary_index_has_one_entry();
        self.trees.nodes_are_in_order();
    }

    /// Whether a change of a record is held.
    pub(crate) fn has_changes(&self, table: TableId, bookmark: &[u8]) -> bool
        ensures { result ≡ list_any (is_change_at table.0 bookmark.now) self.now.store.held }
    {
        self.versions.newest_change(table, bookmark).is_some()
    }

    // The same for an index that has a tree.
    fn conflict_at_entries(
        &self,
        reader: Reader,
        table: TableId,
        schema: &Schema,
        rule: &IndexRule,
        key: &Key,
    ) -> bool
        requires named { IsSomeAnd (table_with_id self.now.store.tables table.0) (λ t. schema.now ≡ schema_of t) }
        requires rule { rule_with_id schema.now rule.now.id.0 ≡ Some rule.now }
        requires secondary { rule.now.flags.primary ≡ false }
        ensures { result ≡ has_key_conflict reader (record_in self.now.store.tables) table.0 rule.now schema.now key.now self.now.store.held }
    {
        self.trees.entries_are_in_order();
        let gap = Place::Gap(key.copy(), false);
        let mut found = self.trees.entry_after(table, rule.id, &gap);
        while let Some((found_key, bookmark)) = found {
            if found_key != key.as_bytes() {
                return false;
            }
            if self.conflict_under(reader, table, schema, rule, key, bookmark) {
                return true;
            }
            found = entry_behind(&self.trees, table, rule.id, found_key, bookmark);
        }
        false
    }

    // Whether a key conflict stands with the changes of the record under a bookmark.
    fn conflict_under(
        &self,
        reader: Reader,
        table: TableId,
        schema: &Schema,
        rule: &IndexRule,
        key: &Key,
        bookmark: &[u8],
    ) -> bool
        requires legal { is_legal rule.now schema.now ≡ true }
        requires short { rule.now.key_most ≤ 255 }
        ensures { result ≡ conflicts_under reader rule.now schema.now key.now (yields_key rule.now schema.now key.now (record_in self.now.store.tables table.0 bookmark.now)) table.0 bookmark.now self.now.store.held }
    {
        // Most often no change of the record is concurrent, and its rows are not looked at.
        if has_concurrent(&self.versions, reader, table, bookmark) {
            self.conflict_with_changes(reader, table, schema, rule, key, bookmark)
        } else {
            false
        }
    }

    // The same by the rows of the record.
    fn conflict_with_changes(
        &self,
        reader: Reader,
        table: TableId,
        schema: &Schema,
        rule: &IndexRule,
        key: &Key,
        bookmark: &[u8],
    ) -> bool
        requires legal { is_legal rule.now schema.now ≡ true }
        requires short { rule.now.key_most ≤ 255 }
        ensures { result ≡ conflicts_under reader rule.now schema.now key.now (yields_key rule.now schema.now key.now (record_in self.now.store.tables table.0 bookmark.now)) table.0 bookmark.now self.now.store.held }
    {
        let newest = has_key(rule, schema, self.newest(table, bookmark), key);
        conflict_in(
            &self.trees,
            &self.versions,
            reader,
            rule,
            schema,
            key,
            newest,
            table,
            bookmark,
        )
    }

    /// Whether some record that the reader sees has the key in an index, other than the record under the bookmark of `own`, if
    /// one is given. The primary index, and the number 0 that no rule has, are the order of the bookmarks. The schema is that of
    /// the table.
    pub fn is_taken(
        &self,
        reader: Reader,
        table: TableId,
        schema: &Schema,
        index: IndexId,
        own: Option<&[u8]>,
        key: &Key,
    ) -> bool
        requires { IsSomeAnd (table_with_id self.now.store.tables table.0) (λ t. schema.now ≡ schema_of t) }
        ensures { result ≡ is_taken_for reader self.now.store table.0 index.0 (option_copied own.entry) key.now }
    {
        self.seen_entries_are_in_order();
        let gap = Place::Gap(key.copy(), false);
        let mut found = self.walk(table, schema, index, &gap, reader);
        while let Some(entry) = found {
            if entry.key != *key {
                return false;
            }
            if !is_replaced(own, entry.bookmark.as_bytes()) {
                return true;
            }
            let last = Place::On(entry.key, entry.bookmark);
            found = self.walk(table, schema, index, &last, reader);
        }
        false
    }
}

// Whether a bookmark is the one that is given.
pub(crate) fn is_replaced(own: Option<&[u8]>, bookmark: &[u8]) -> bool
    ensures { result ≡ is_replaced (option_copied own.entry) bookmark.now }
{
    match own {
        Some(own) => own == bookmark,
        None => false,
    }
}

// Whether some change of a record is concurrent; none stands against any key where none is.
fn has_concurrent(versions: &Versions, reader: Reader, table: TableId, bookmark: &[u8]) -> bool
    ensures { result ≡ false → (longs : TableValues) (rule : IndexRule) (schema : Schema) (key : List ℕ) (newest : Bool) → conflicts_under reader rule schema key newest table.0 bookmark.now (map (held_record_in longs) versions.now) ≡ false }
{
    let mut found = versions.newest_change(table, bookmark);
    while let Some(place) = found {
        if versions.is_concurrent_at(place, reader) {
            return true;
        }
        found = versions.older_change(place);
    }
    false
}

// Whether there is a row, and it has the key in the index.
pub(crate) fn has_key(
    rule: &IndexRule,
    schema: &Schema,
    row: Option<ShownRow<'_>>,
    key: &Key,
) -> bool
    requires legal { is_legal rule.now schema.now ≡ true }
    requires short { rule.now.key_most ≤ 255 }
    ensures { result ≡ yields_key rule.now schema.now key.now row.entry }
{
    match row {
        Some(row) => yields(rule, schema, &row, key),
        None => false,
    }
}

// Whether a key conflict stands with the changes of a record, given whether its newest row has the key.
fn conflict_in(
    trees: &TableTrees,
    versions: &Versions,
    reader: Reader,
    rule: &IndexRule,
    schema: &Schema,
    key: &Key,
    newest: bool,
    table: TableId,
    bookmark: &[u8],
) -> bool
    requires legal { is_legal rule.now schema.now ≡ true }
    requires short { rule.now.key_most ≤ 255 }
    requires rows { AreRowsBefore (table_long_values trees.now.tables) versions.now }
    ensures { result ≡ conflicts_under reader rule.now schema.now key.now newest table.0 bookmark.now (map (held_record_in (table_long_values trees.now.tables)) versions.now) }
{
    let mut after = newest;
    let mut found = versions.newest_change(table, bookmark);
    while let Some(place) = found {
        let before = yields_before(trees, versions, rule, schema, key, table, place, after);
        let concurrent = versions.is_concurrent_at(place, reader);
        if is_met(concurrent, before, after) {
            return true;
        }
        after = before;
        found = versions.older_change(place);
    }
    false
}

// Whether a change stands against the key: a concurrent one that has it before it or after it.
fn is_met(concurrent: bool, before: bool, after: bool) -> bool
    ensures { result ≡ (concurrent && (before || after)) }
{
    concurrent && (before || after)
}

// Whether the row before the change at a place, one of the table, has the key, given whether the one after it has.
fn yields_before(
    trees: &TableTrees,
    versions: &Versions,
    rule: &IndexRule,
    schema: &Schema,
    key: &Key,
    table: TableId,
    place: usize,
    after: bool,
) -> bool
    requires within { place < length versions.now }
    requires legal { is_legal rule.now schema.now ≡ true }
    requires short { rule.now.key_most ≤ 255 }
    requires of { (h : HeldChange) → slice_get versions.now place ≡ Some h → h.table ≡ table.0 }
    requires rows { AreRowsBefore (table_long_values trees.now.tables) versions.now }
    ensures { (h : HeldChange) → slice_get versions.now place ≡ Some h → result ≡ yields_before_change (table_long_values trees.now.tables) rule.now schema.now key.now after h }
{
    if versions.is_standing_at(place) {
        let before = in_place(trees, table, versions.before_at(place));
        has_key(rule, schema, before, key)
    } else {
        after
    }
}
