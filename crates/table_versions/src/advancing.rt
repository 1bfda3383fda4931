//! A place that goes to its neighbour in an index as a reader sees it, where the place lies.

ghost use Rattle.std.specs.Prelude.{◌≡◌, ◌≤◌, Some, length, IsSomeAnd, is_some};
ghost use Rattle.cursor_nav.specs.Places.{entry_after, entry_before, on_or};
ghost use Rattle.database_state.specs.Table.{rows_of, schema_of, table_with_id};
ghost use Rattle.index_derive.specs.Schemas.{rule_with_id};
ghost use Rattle.index_derive.specs.Entries.{own_order};
ghost use Rattle.index_derive.specs.declared.entries.Place.TheVariants.{After, Before, On};
ghost use Rattle.laws_engine.specs.VersionedTables.{seen_tables};
ghost use Rattle.stored_variants.specs.StoredVersions.{seen_entries};
ghost use Rattle.stored_variants.specs.VersionsKept.{only_secondary};

use crate::neighbors::secondary_rule;
use crate::store::TableVersions;
use index_derive::{IndexRule, Place, Schema};
use jet_base::{IndexId, TableId};
use key_normal::Key;
use laws_engine::{
    a_reader_is_shown_the_records_that_it_sees, a_reader_walks_the_index_of_what_it_sees,
};
use laws_versions::entries_in_order_are_told_by_those_that_are_there;
use version_store::Reader;

impl TableVersions {
    /// Makes the place that of the least entry beyond it, as the reader sees the table, else After; and whether there is such
    /// an entry. Else as `walk`.
    pub fn advance(
        &self,
        table: TableId,
        schema: &Schema,
        index: IndexId,
        place: &mut Place,
        reader: Reader,
    ) -> bool
        requires { IsSomeAnd (table_with_id self.now.store.tables table.0) (λ t. schema.now ≡ schema_of t) }
        ensures found { result ≡ is_some (entry_after place.old (seen_entries reader self.now.store table.0 index.0)) }
        ensures place { place.new ≡ on_or (entry_after place.old (seen_entries reader self.now.store table.0 index.0)) After }
    {
        a_reader_is_shown_the_records_that_it_sees();
        a_reader_walks_the_index_of_what_it_sees();
        entries_in_order_are_told_by_those_that_are_there();
        self.trees.nodes_are_in_order();
        self.trees.entries_are_in_order();
        match secondary_rule(schema, index) {
            Some(rule) => self.advance_in_entries(table, schema, index, rule, place, reader),
            None => self.advance_in_records(table, place, reader),
        }
    }

    // Makes the place that of the least record beyond it that the reader sees, else After.
    fn advance_in_records(&self, table: TableId, place: &mut Place, reader: Reader) -> bool
        ensures found { result ≡ is_some (entry_after place.old (own_order (rows_of (table_with_id (seen_tables reader self.now.store) table.0)))) }
        ensures place { place.new ≡ on_or (entry_after place.old (own_order (rows_of (table_with_id (seen_tables reader self.now.store) table.0)))) After }
    {
        match self.next_seen(table, place, reader) {
            Some(bookmark) => {
                stand_on(place, bookmark, bookmark);
                true
            }
            None => {
                *place = Place::After;
                false
            }
        }
    }

    // The same over the stored entries.
    fn advance_in_entries(
        &self,
        table: TableId,
        schema: &Schema,
        index: IndexId,
        rule: &IndexRule,
        place: &mut Place,
        reader: Reader,
    ) -> bool
        requires named { IsSomeAnd (table_with_id self.now.store.tables table.0) (λ t. schema.now ≡ schema_of t) }
        requires rule { only_secondary (rule_with_id schema.now index.0) ≡ Some rule.now }
        ensures found { result ≡ is_some (entry_after place.old (seen_entries reader self.now.store table.0 index.0)) }
        ensures place { place.new ≡ on_or (entry_after place.old (seen_entries reader self.now.store table.0 index.0)) After }
    {
        match self.next_shown(table, schema, index, rule, place, reader) {
            Some((key, bookmark)) => {
                stand_on(place, key, bookmark);
                true
            }
            None => {
                *place = Place::After;
                false
            }
        }
    }

    /// Makes the place that of the greatest entry before it, as the reader sees the table, else Before; and whether there is
    /// such an entry. Else as `walk`.
    pub fn retreat(
        &self,
        table: TableId,
        schema: &Schema,
        index: IndexId,
        place: &mut Place,
        reader: Reader,
    ) -> bool
        requires { IsSomeAnd (table_with_id self.now.store.tables table.0) (λ t. schema.now ≡ schema_of t) }
        ensures found { result ≡ is_some (entry_before place.old (seen_entries reader self.now.store table.0 index.0)) }
        ensures place { place.new ≡ on_or (entry_before place.old (seen_entries reader self.now.store table.0 index.0)) Before }
    {
        a_reader_is_shown_the_records_that_it_sees();
        a_reader_walks_the_index_of_what_it_sees();
        entries_in_order_are_told_by_those_that_are_there();
        self.trees.nodes_are_in_order();
        self.trees.entries_are_in_order();
        match secondary_rule(schema, index) {
            Some(rule) => self.retreat_in_entries(table, schema, index, rule, place, reader),
            None => self.retreat_in_records(table, place, reader),
        }
    }

    // Makes the place that of the greatest record before it that the reader sees, else Before.
    fn retreat_in_records(&self, table: TableId, place: &mut Place, reader: Reader) -> bool
        ensures found { result ≡ is_some (entry_before place.old (own_order (rows_of (table_with_id (seen_tables reader self.now.store) table.0)))) }
        ensures place { place.new ≡ on_or (entry_before place.old (own_order (rows_of (table_with_id (seen_tables reader self.now.store) table.0)))) Before }
    {
        match self.previous_seen(table, place, reader) {
            Some(bookmark) => {
                stand_on(place, bookmark, bookmark);
                true
            }
            None => {
                *place = Place::Before;
                false
            }
        }
    }

    // The same over the stored entries.
    fn retreat_in_entries(
        &self,
        table: TableId,
        schema: &Schema,
        index: IndexId,
        rule: &IndexRule,
        place: &mut Place,
        reader: Reader,
    ) -> bool
        requires named { IsSomeAnd (table_with_id self.now.store.tables table.0) (λ t. schema.now ≡ schema_of t) }
        requires rule { only_secondary (rule_with_id schema.now index.0) ≡ Some rule.now }
        ensures found { result ≡ is_some (entry_before place.old (seen_entries reader self.now.store table.0 index.0)) }
        ensures place { place.new ≡ on_or (entry_before place.old (seen_entries reader self.now.store table.0 index.0)) Before }
    {
        match self.previous_shown(table, schema, index, rule, place, reader) {
            Some((key, bookmark)) => {
                stand_on(place, key, bookmark);
                true
            }
            None => {
                *place = Place::Before;
                false
            }
        }
    }
}

// Makes the place that of an entry.
fn stand_on(place: &mut Place, key: &[u8], bookmark: &[u8])
    requires key { length key.now ≤ 255 }
    requires bookmark { length bookmark.now ≤ 255 }
    ensures { place.new ≡ On key.now bookmark.now }
{
    match place {
        Place::On(own, beside) => {
            own.set(key);
            beside.set(bookmark);
        }
        _ => *place = Place::On(Key::from_slice(key), Key::from_slice(bookmark)),
    }
}
