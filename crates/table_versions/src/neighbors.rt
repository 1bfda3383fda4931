//! The neighbours of a place in an index as a reader sees it.

ghost use Rattle.std.specs.Prelude.{◌≡◌, ◌≤◌, Some, length, IfSome, IsSomeAnd, option_copied, option_map, true};
ghost use Rattle.cursor_nav.specs.Places.{entry_after, entry_before, found_pair};
ghost use Rattle.database_state.specs.Conflicts.{yields_key};
ghost use Rattle.database_state.specs.Table.{record_in, rows_of, schema_of, table_with_id};
ghost use Rattle.index_derive.specs.Schemas.{rule_with_id};
ghost use Rattle.index_derive.specs.Entries.{is_legal, own_order};
ghost use Rattle.index_derive.specs.declared.entries.Place.TheVariants.{On};
ghost use Rattle.table_trees.specs.StoredNodes.{node_after, node_before};
ghost use Rattle.table_trees.specs.StoredTables.{index_entries, table_nodes};
ghost use Rattle.version_store.specs.HeldChanges.{seen_row};
ghost use Rattle.laws_engine.specs.HeldRecords.{seen_record};
ghost use Rattle.laws_engine.specs.VersionedTables.{seen_tables};
ghost use Rattle.stored_variants.specs.RecordRows.{row_in_node};
ghost use Rattle.stored_variants.specs.StoredVersions.{seen_entries};
ghost use Rattle.stored_variants.specs.VersionsKept.{only_secondary};
ghost use Rattle.table_versions.specs.Walks.{is_row_seen};

use crate::conflicting_keys::has_key;
use crate::store::TableVersions;
use index_derive::{IndexEntry, IndexRule, Place, Schema};
use jet_base::{IndexId, TableId};
use key_normal::Key;
use laws_engine::{
    a_reader_is_shown_the_records_that_it_sees, a_reader_walks_the_index_of_what_it_sees,
};
use laws_versions::entries_in_order_are_told_by_those_that_are_there;
use table_trees::{TableTrees, neighbours_are_those_of_bookmarks};
use variant_trees::own_entry;
use version_store::{Reader, Variant, Versions};

impl TableVersions {
    /// The least entry of an index beyond a place, as the reader sees the table. The primary index, and the number 0 that no
    /// rule has, are the order of the bookmarks. The schema is that of the table.
    ///
    /// It goes over the entries of all variants of records, from the place on to the first that the reader is shown.
    pub fn walk(
        &self,
        table: TableId,
        schema: &Schema,
        index: IndexId,
        place: &Place,
        reader: Reader,
    ) -> Option<IndexEntry>
        requires { IsSomeAnd (table_with_id self.now.store.tables table.0) (λ t. schema.now ≡ schema_of t) }
        ensures { found_pair result ≡ entry_after place.now (seen_entries reader self.now.store table.0 index.0) }
    {
        a_reader_is_shown_the_records_that_it_sees();
        a_reader_walks_the_index_of_what_it_sees();
        entries_in_order_are_told_by_those_that_are_there();
        self.trees.nodes_are_in_order();
        self.trees.entries_are_in_order();
        match secondary_rule(schema, index) {
            Some(rule) => shown_entry(self.next_shown(table, schema, index, rule, place, reader)),
            None => self.walk_records(table, place, reader),
        }
    }

    // The key and the bookmark of the least stored entry beyond a place that the reader is shown, where they lie in their page:
    // in an index that has a tree of its own.
    pub(crate) fn next_shown(
        &self,
        table: TableId,
        schema: &Schema,
        index: IndexId,
        rule: &IndexRule,
        place: &Place,
        reader: Reader,
    ) -> Option<(&[u8], &[u8])>
        requires named { IsSomeAnd (table_with_id self.now.store.tables table.0) (λ t. schema.now ≡ schema_of t) }
        requires rule { only_secondary (rule_with_id schema.now index.0) ≡ Some rule.now }
        ensures entry { option_map (λ found. (found.0.now, found.1.now)) result ≡ entry_after place.now (seen_entries reader self.now.store table.0 index.0) }
        ensures short { IfSome result (λ found. (length found.0.now ≤ 255) × (length found.1.now ≤ 255)) }
    {
        a_reader_is_shown_the_records_that_it_sees();
        a_reader_walks_the_index_of_what_it_sees();
        entries_in_order_are_told_by_those_that_are_there();
        self.trees.nodes_are_in_order();
        self.trees.entries_are_in_order();
        let mut found = self.trees.entry_after(table, rule.id, place);
        while let Some((key, bookmark)) = found {
            // A record that no held change touches has one variant, which has all its entries and which all see.
            if self.versions.newest_change(table, bookmark).is_none() {
                return Some((key, bookmark));
            }
            if self.shows(table, schema, rule, key, bookmark, reader) {
                return Some((key, bookmark));
            }
            found = entry_behind(&self.trees, table, rule.id, key, bookmark);
        }
        None
    }

    /// The greatest entry of an index before a place, as the reader sees the table; else as `walk`.
    pub fn walk_back(
        &self,
        table: TableId,
        schema: &Schema,
        index: IndexId,
        place: &Place,
        reader: Reader,
    ) -> Option<IndexEntry>
        requires { IsSomeAnd (table_with_id self.now.store.tables table.0) (λ t. schema.now ≡ schema_of t) }
        ensures { found_pair result ≡ entry_before place.now (seen_entries reader self.now.store table.0 index.0) }
    {
        a_reader_is_shown_the_records_that_it_sees();
        a_reader_walks_the_index_of_what_it_sees();
        entries_in_order_are_told_by_those_that_are_there();
        self.trees.nodes_are_in_order();
        self.trees.entries_are_in_order();
        match secondary_rule(schema, index) {
            Some(rule) => shown_entry(self.previous_shown(
                table, schema, index, rule, place, reader,
            )),
            None => self.walk_records_back(table, place, reader),
        }
    }

    // Those of the greatest before a place.
    pub(crate) fn previous_shown(
        &self,
        table: TableId,
        schema: &Schema,
        index: IndexId,
        rule: &IndexRule,
        place: &Place,
        reader: Reader,
    ) -> Option<(&[u8], &[u8])>
        requires named { IsSomeAnd (table_with_id self.now.store.tables table.0) (λ t. schema.now ≡ schema_of t) }
        requires rule { only_secondary (rule_with_id schema.now index.0) ≡ Some rule.now }
        ensures entry { option_map (λ found. (found.0.now, found.1.now)) result ≡ entry_before place.now (seen_entries reader self.now.store table.0 index.0) }
        ensures short { IfSome result (λ found. (length found.0.now ≤ 255) × (length found.1.now ≤ 255)) }
    {
        a_reader_is_shown_the_records_that_it_sees();
        a_reader_walks_the_index_of_what_it_sees();
        entries_in_order_are_told_by_those_that_are_there();
        self.trees.nodes_are_in_order();
        self.trees.entries_are_in_order();
        let mut found = self.trees.entry_before(table, rule.id, place);
        while let Some((key, bookmark)) = found {
            // A record that no held change touches has one variant, which has all its entries and which all see.
            if self.versions.newest_change(table, bookmark).is_none() {
                return Some((key, bookmark));
            }
            if self.shows(table, schema, rule, key, bookmark, reader) {
                return Some((key, bookmark));
            }
            found = entry_in_front(&self.trees, table, rule.id, key, bookmark);
        }
        None
    }

    /// The least record of a table beyond a place that the reader sees, in the order of the bookmarks: its bookmark, which is
    /// its own key.
    ///
    /// It goes over the nodes from the place on to the first whose record the reader sees.
    pub fn walk_records(&self, table: TableId, place: &Place, reader: Reader) -> Option<IndexEntry>
        ensures { found_pair result ≡ entry_after place.now (own_order (rows_of (table_with_id (seen_tables reader self.now.store) table.0))) }
    {
        match self.next_seen(table, place, reader) {
            Some(bookmark) => Some(own_entry(bookmark)),
            None => None,
        }
    }

    // The greatest such record before a place.
    fn walk_records_back(&self, table: TableId, place: &Place, reader: Reader) -> Option<IndexEntry>
        ensures { found_pair result ≡ entry_before place.now (own_order (rows_of (table_with_id (seen_tables reader self.now.store) table.0))) }
    {
        match self.previous_seen(table, place, reader) {
            Some(bookmark) => Some(own_entry(bookmark)),
            None => None,
        }
    }

    // The bookmark of the least record beyond a place that the reader sees, where it lies in its node.
    pub(crate) fn next_seen(&self, table: TableId, place: &Place, reader: Reader) -> Option<&[u8]>
        ensures bookmark { option_map (λ bookmark. (bookmark.now, bookmark.now)) result ≡ entry_after place.now (own_order (rows_of (table_with_id (seen_tables reader self.now.store) table.0))) }
        ensures short { IfSome result (λ bookmark. length bookmark.now ≤ 255) }
    {
        a_reader_is_shown_the_records_that_it_sees();
        entries_in_order_are_told_by_those_that_are_there();
        neighbours_are_those_of_bookmarks();
        self.trees.nodes_are_in_order();
        let mut found = self.trees.node_after(table, place);
        while let Some((bookmark, row)) = found {
            if is_shown_in_place(&self.versions, table, bookmark, row, reader) {
                return Some(bookmark);
            }
            found = node_behind(&self.trees, table, bookmark);
        }
        None
    }

    // That of the greatest before a place.
    pub(crate) fn previous_seen(
        &self,
        table: TableId,
        place: &Place,
        reader: Reader,
    ) -> Option<&[u8]>
        ensures bookmark { option_map (λ bookmark. (bookmark.now, bookmark.now)) result ≡ entry_before place.now (own_order (rows_of (table_with_id (seen_tables reader self.now.store) table.0))) }
        ensures short { IfSome result (λ bookmark. length bookmark.now ≤ 255) }
    {
        a_reader_is_shown_the_records_that_it_sees();
        entries_in_order_are_told_by_those_that_are_there();
        neighbours_are_those_of_bookmarks();
        self.trees.nodes_are_in_order();
        let mut found = self.trees.node_before(table, place);
        while let Some((bookmark, row)) = found {
            if is_shown_in_place(&self.versions, table, bookmark, row, reader) {
                return Some(bookmark);
            }
            found = node_in_front(&self.trees, table, bookmark);
        }
        None
    }

    // Whether the record that the reader sees under the bookmark of an entry has the key of it.
    fn shows(
        &self,
        table: TableId,
        schema: &Schema,
        rule: &IndexRule,
        key: &[u8],
        bookmark: &[u8],
        reader: Reader,
    ) -> bool
        requires legal { is_legal rule.now schema.now ≡ true }
        requires most { rule.now.key_most ≤ 255 }
        requires short { length key.now ≤ 255 }
        ensures { result ≡ yields_key rule.now schema.now key.now (seen_record table.0 bookmark.now reader (record_in self.now.store.tables table.0 bookmark.now) self.now.store.held) }
    {
        let row = self.look_up(table, bookmark, reader);
        has_key(rule, schema, row, &Key::from_slice(key))
    }
}

// The entry that was found, by value.
fn shown_entry(found: Option<(&[u8], &[u8])>) -> Option<IndexEntry>
    requires { IfSome found (λ found. (length found.0.now ≤ 255) × (length found.1.now ≤ 255)) }
    ensures { found_pair result ≡ option_map (λ found. (found.0.now, found.1.now)) found.entry }
{
    match found {
        Some((key, bookmark)) => Some(IndexEntry {
            key: Key::from_slice(key),
            bookmark: Key::from_slice(bookmark),
        }),
        None => None,
    }
}

// The entry of an index behind one of it.
pub(crate) fn entry_behind<'a>(
    trees: &'a TableTrees,
    table: TableId,
    index: IndexId,
    key: &[u8],
    bookmark: &[u8],
) -> Option<(&'a [u8], &'a [u8])>
    requires key { length key.now ≤ 255 }
    requires bookmark { length bookmark.now ≤ 255 }
    ensures entry { option_map (λ found. (found.0.now, found.1.now)) result ≡ entry_after (On key.now bookmark.now) (index_entries trees.now.tables table.0 index.0) }
    ensures short { IfSome result (λ found. (length found.0.now ≤ 255) × (length found.1.now ≤ 255)) }
{
    let last = Place::On(Key::from_slice(key), Key::from_slice(bookmark));
    trees.entry_after(table, index, &last)
}

// The entry of an index in front of one of it.
fn entry_in_front<'a>(
    trees: &'a TableTrees,
    table: TableId,
    index: IndexId,
    key: &[u8],
    bookmark: &[u8],
) -> Option<(&'a [u8], &'a [u8])>
    requires key { length key.now ≤ 255 }
    requires bookmark { length bookmark.now ≤ 255 }
    ensures entry { option_map (λ found. (found.0.now, found.1.now)) result ≡ entry_before (On key.now bookmark.now) (index_entries trees.now.tables table.0 index.0) }
    ensures short { IfSome result (λ found. (length found.0.now ≤ 255) × (length found.1.now ≤ 255)) }
{
    let last = Place::On(Key::from_slice(key), Key::from_slice(bookmark));
    trees.entry_before(table, index, &last)
}

// The node behind the one with a bookmark.
fn node_behind<'a>(
    trees: &'a TableTrees,
    table: TableId,
    bookmark: &[u8],
) -> Option<(&'a [u8], &'a [u8])>
    requires { length bookmark.now ≤ 255 }
    ensures node { option_map (λ found. (found.0.now, found.1.now)) result ≡ node_after (On bookmark.now bookmark.now) (table_nodes trees.now.tables table.0) }
    ensures short { IfSome result (λ found. length found.0.now ≤ 255) }
{
    let last = Place::On(Key::from_slice(bookmark), Key::from_slice(bookmark));
    trees.node_after(table, &last)
}

// The node in front of the one with a bookmark.
fn node_in_front<'a>(
    trees: &'a TableTrees,
    table: TableId,
    bookmark: &[u8],
) -> Option<(&'a [u8], &'a [u8])>
    requires { length bookmark.now ≤ 255 }
    ensures node { option_map (λ found. (found.0.now, found.1.now)) result ≡ node_before (On bookmark.now bookmark.now) (table_nodes trees.now.tables table.0) }
    ensures short { IfSome result (λ found. length found.0.now ≤ 255) }
{
    let last = Place::On(Key::from_slice(bookmark), Key::from_slice(bookmark));
    trees.node_before(table, &last)
}

// Whether the reader sees a record under the bookmark of a node with these bytes: without a look for the node.
fn is_shown_in_place(
    versions: &Versions,
    table: TableId,
    bookmark: &[u8],
    bytes: &[u8],
    reader: Reader,
) -> bool
    ensures { result ≡ is_row_seen (row_in_node bytes.now) (seen_row table.0 bookmark.now reader versions.now) }
{
    match versions.variant(table, bookmark, reader) {
        Variant::Current => !bytes.is_empty(),
        Variant::Before(_) => true,
        Variant::Absent => false,
    }
}

// The rule of an index that has a tree of its own.
pub(crate) fn secondary_rule(schema: &Schema, index: IndexId) -> Option<&IndexRule>
    ensures { option_copied result ≡ only_secondary (rule_with_id schema.now index.0) }
{
    match schema.rule_with_id(index) {
        Some(rule) => { if rule.flags.primary { None } else { Some(rule) } }
        None => None,
    }
}
