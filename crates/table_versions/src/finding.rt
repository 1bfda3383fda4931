//! The least entry of a record in an index as a reader sees it, and the bounds of what a reader walks.

ghost use Rattle.std.specs.Prelude.{◌≡◌, ◌<◌, ◌≤◌, ◌^◌, ℕ, true, length, option_map, IsSomeAnd};
ghost use Rattle.cursor_nav.specs.Places.{are_sorted, found_pair, least_entry_of};
ghost use Rattle.database_state.specs.Table.{schema_of, table_with_id};
ghost use Rattle.version_store.specs.declared.calls.Reader.{Reader};
ghost use Rattle.stored_variants.specs.StoredVersions.{seen_entries};

use crate::neighbors::secondary_rule;
use crate::store::TableVersions;
use index_derive::derive::next_entry;
use index_derive::{IndexEntry, Schema};
use jet_base::{IndexId, TableId};
use key_normal::Key;
use laws_engine::{
    a_reader_is_shown_the_records_that_it_sees, a_reader_walks_the_index_of_what_it_sees,
};
use laws_versions::{
    a_record_has_an_entry_a_key, entries_in_order_are_told_by_those_that_are_there,
};
use variant_trees::own_entry;
use version_store::Reader;

impl TableVersions {
    /// The least entry with a bookmark in an index, as the reader sees the table; else as `walk`. It is made from the record
    /// that the reader sees, and no other entry is looked at.
    pub fn least(
        &self,
        table: TableId,
        schema: &Schema,
        index: IndexId,
        bookmark: &[u8],
        reader: Reader,
    ) -> Option<IndexEntry>
        requires { IsSomeAnd (table_with_id self.now.store.tables table.0) (λ t. schema.now ≡ schema_of t) }
        ensures { found_pair result ≡ least_entry_of bookmark.now (seen_entries reader self.now.store table.0 index.0) }
    {
        a_record_has_an_entry_a_key();
        a_reader_is_shown_the_records_that_it_sees();
        self.trees.nodes_are_in_order();
        match self.look_up(table, bookmark, reader) {
            Some(row) => match secondary_rule(schema, index) {
                Some(rule) => keyed(next_entry(rule, schema, &row, None), bookmark),
                None => Some(own_entry(bookmark)),
            },
            None => None,
        }
    }

    /// The entries of each index, as a reader sees it, rise, and none stands twice. There are not as many as a count can come
    /// to.
    pub fn seen_entries_are_in_order(&self)
        ensures sorted { (reader : Reader) (table index : ℕ) → are_sorted (seen_entries reader self.now.store table index) ≡ true }
        ensures few { (reader : Reader) (table index : ℕ) → length (seen_entries reader self.now.store table index) < 2 ^ 34 }
    {
        a_reader_is_shown_the_records_that_it_sees();
        a_reader_walks_the_index_of_what_it_sees();
        entries_in_order_are_told_by_those_that_are_there();
        self.trees.nodes_are_in_order();
        self.trees.entries_are_in_order();
        self.trees.nodes_and_entries_are_few();
    }
}

// The entry of a key, where there is one, with this bookmark.
fn keyed(key: Option<Key>, bookmark: &[u8]) -> Option<IndexEntry>
    requires { length bookmark.now ≤ 255 }
    ensures { found_pair result ≡ option_map (λ k. (k, bookmark.now)) key }
{
    match key {
        Some(key) => Some(IndexEntry {
            key,
            bookmark: Key::from_slice(bookmark),
        }),
        None => None,
    }
}
