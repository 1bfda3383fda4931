//! What an update asks of a unique index.

ghost use Rattle.std.specs.Prelude.{◌≡◌, ℕ, ◌≤◌, ◌&&◌, not, false, true, List, [], ◌∷◌, IsOk, IsSomeAnd, Option, Some, option_copied};
ghost use Rattle.std.specs.List.{AllByRecursion, list_any};
ghost use Rattle.jet_base.specs.declared.replies.Jet.TheVariants as jet;
ghost use Rattle.column_set.specs.RecordValues.{RecordFields};
ghost use Rattle.column_set.specs.Refusals.{first_refusal};
ghost use Rattle.database_state.specs.Conflicts.{has_key_conflict, yields_key};
ghost use Rattle.database_state.specs.Puts.{is_taken, new_keys, replaced_record};
ghost use Rattle.database_state.specs.State.{DatabaseState, PastChange, transaction_of};
ghost use Rattle.database_state.specs.Table.{Table, schema_of, table_with_id};
ghost use Rattle.index_derive.specs.Schemas.{rule_with_id};
ghost use Rattle.database_state.specs.View.{view};
ghost use Rattle.index_derive.specs.declared.rules.IndexRule.{IndexRule};
ghost use Rattle.index_derive.specs.Entries.{entries, is_legal, key_list, primary_key};
ghost use Rattle.laws_versions.specs.Records.{Records};
ghost use Rattle.laws_versions.specs.KeySums.{HasKeyBefores, SeesNoSum};
ghost use Rattle.version_store.specs.declared.calls.Reader.{Reader};
ghost use Rattle.laws_engine.specs.HeldRecords.{is_change_at};
ghost use Rattle.laws_engine.specs.Holding.{Holds, begin_of};
ghost use Rattle.laws_engine.specs.VersionedTables.{VersionedTables};
ghost use Rattle.table_versions.specs.KeyConflicts.{has_conflict_over, is_taken_for, replaced_seen, unique_refusals};

use crate::conflicting_keys::is_replaced;
use crate::store::TableVersions;
use column_set::Values;
use index_derive::derive::{next_entry, yields};
use index_derive::{IndexRule, Schema, entries_rise, primary_key};
use jet_base::{Jet, TableId};
use key_normal::Key;
use laws_engine::{
    a_reader_finds_the_records_that_it_is_shown, a_reader_is_shown_the_entries_of_its_view,
    held_changes_tell_key_conflicts,
};
use laws_versions::a_primary_index_has_one_entry;
use table_trees::ShownRow;
use version_store::Reader;

impl TableVersions {
    /// Why a record may not be put for its keys in a unique index, which does not refuse the record itself: first a key conflict
    /// over a key that is new to the record, and then a key that another record has which the reader sees. The record comes in
    /// the place of the one under the bookmark of `own`, if one is given, and only keys that this one lacks are new. The schema is
    /// that of the table, and the rule is one of its rules. It takes no memory.
    pub fn key_refusal<R: Values>(
        &self,
        reader: Reader,
        table: TableId,
        schema: &Schema,
        rule: &IndexRule,
        own: Option<&[u8]>,
        record: &R,
    ) -> Option<Jet>
        requires named { IsSomeAnd (table_with_id self.now.store.tables table.0) (λ t. schema.now ≡ schema_of t) }
        requires rule { rule_with_id schema.now rule.now.id.0 ≡ Some rule.now }
        requires taken { IsOk (entries rule.now schema.now (R.fields «record».now)) }
        ensures { result ≡ first_refusal (unique_refusals reader self.now.store table.0 schema.now rule.now (option_copied own.entry) (R.fields «record».now)) }
    {
        self.rules_are_legal();
        if rule.flags.primary {
            self.refusal_of_own_key(reader, table, schema, rule, own, record)
        } else if self.has_conflict_over_new(reader, table, schema, rule, own, record) {
            Some(Jet::WriteConflict)
        } else if self.has_taken_key(reader, table, schema, rule, own, record) {
            Some(Jet::KeyDuplicate)
        } else {
            None
        }
    }

    // The same for the primary index, where the record has one key, which is made once.
    fn refusal_of_own_key<R: Values>(
        &self,
        reader: Reader,
        table: TableId,
        schema: &Schema,
        rule: &IndexRule,
        own: Option<&[u8]>,
        record: &R,
    ) -> Option<Jet>
        requires named { IsSomeAnd (table_with_id self.now.store.tables table.0) (λ t. schema.now ≡ schema_of t) }
        requires rule { rule_with_id schema.now rule.now.id.0 ≡ Some rule.now }
        requires short { rule.now.key_most ≤ 255 }
        requires primary { rule.now.flags.primary ≡ true }
        requires taken { IsOk (entries rule.now schema.now (R.fields «record».now)) }
        ensures { result ≡ first_refusal (unique_refusals reader self.now.store table.0 schema.now rule.now (option_copied own.entry) (R.fields «record».now)) }
    {
        let key = primary_key(rule, schema, record);
        self.primary_refusal(reader, table, schema, rule, own, &key)
    }

    /// What `key_refusal` answers for the primary index of a record that has the key, its only one there. The key is not made
    /// again. It takes no memory.
    pub fn primary_refusal(
        &self,
        reader: Reader,
        table: TableId,
        schema: &Schema,
        rule: &IndexRule,
        own: Option<&[u8]>,
        key: &Key,
    ) -> Option<Jet>
        requires named { IsSomeAnd (table_with_id self.now.store.tables table.0) (λ t. schema.now ≡ schema_of t) }
        requires rule { rule_with_id schema.now rule.now.id.0 ≡ Some rule.now }
        requires primary { rule.now.flags.primary ≡ true }
        ensures { (values : RecordFields) → IsOk (entries rule.now schema.now values) → key.now ≡ primary_key rule.now schema.now values → result ≡ first_refusal (unique_refusals reader self.now.store table.0 schema.now rule.now (option_copied own.entry) values) }
    {
        self.rules_are_legal();
        a_primary_index_has_one_entry();
        self.keys_of_a_primary_index_conflict_by_their_record();
        // Most often no change of the record under the key is held, and its newest row tells all.
        if self.has_changes(table, key.as_bytes()) {
            self.refusal_beside_changes(reader, table, schema, rule, own, key)
        } else if self.has_newest_other(table, schema, rule, own, key) {
            Some(Jet::KeyDuplicate)
        } else {
            None
        }
    }

    // The same where changes of the record under the key are held.
    fn refusal_beside_changes(
        &self,
        reader: Reader,
        table: TableId,
        schema: &Schema,
        rule: &IndexRule,
        own: Option<&[u8]>,
        key: &Key,
    ) -> Option<Jet>
        requires named { IsSomeAnd (table_with_id self.now.store.tables table.0) (λ t. schema.now ≡ schema_of t) }
        requires rule { rule_with_id schema.now rule.now.id.0 ≡ Some rule.now }
        requires primary { rule.now.flags.primary ≡ true }
        ensures { (values : RecordFields) → IsOk (entries rule.now schema.now values) → key.now ≡ primary_key rule.now schema.now values → result ≡ first_refusal (unique_refusals reader self.now.store table.0 schema.now rule.now (option_copied own.entry) values) }
    {
        self.rules_are_legal();
        a_primary_index_has_one_entry();
        if self.is_conflict_of_new(reader, table, schema, rule, own, key) {
            Some(Jet::WriteConflict)
        } else if self.has_other(reader, table, schema, rule, own, key) {
            Some(Jet::KeyDuplicate)
        } else {
            None
        }
    }

    // Whether a key conflict stands over a key of the primary index, which the record under the bookmark of `own` lacks. The
    // conflict is looked for first, since most often there is none.
    fn is_conflict_of_new(
        &self,
        reader: Reader,
        table: TableId,
        schema: &Schema,
        rule: &IndexRule,
        own: Option<&[u8]>,
        key: &Key,
    ) -> bool
        requires named { IsSomeAnd (table_with_id self.now.store.tables table.0) (λ t. schema.now ≡ schema_of t) }
        requires rule { rule_with_id schema.now rule.now.id.0 ≡ Some rule.now }
        requires legal { is_legal rule.now schema.now ≡ true }
        requires short { rule.now.key_most ≤ 255 }
        ensures { result ≡ (not (yields_key rule.now schema.now key.now (replaced_seen reader self.now.store table.0 (option_copied own.entry))) && has_conflict_over reader self.now.store table.0 rule.now schema.now key.now) }
    {
        if self.key_conflict(reader, table, schema, rule, key) {
            lacks_key(rule, schema, &self.replaced_row(reader, table, own), key)
        } else {
            false
        }
    }

    // Whether the reader sees a record under a key of the primary index, which is its bookmark, other than the one under the
    // bookmark of `own`.
    fn has_other(
        &self,
        reader: Reader,
        table: TableId,
        schema: &Schema,
        rule: &IndexRule,
        own: Option<&[u8]>,
        key: &Key,
    ) -> bool
        requires named { IsSomeAnd (table_with_id self.now.store.tables table.0) (λ t. schema.now ≡ schema_of t) }
        requires rule { rule_with_id schema.now rule.now.id.0 ≡ Some rule.now }
        requires primary { rule.now.flags.primary ≡ true }
        ensures { result ≡ is_taken_for reader self.now.store table.0 rule.now.id.0 (option_copied own.entry) key.now }
    {
        a_reader_finds_the_records_that_it_is_shown();
        let bookmark = key.as_bytes();
        match self.look_up(table, bookmark, reader) {
            Some(_) => !is_replaced(own, bookmark),
            None => false,
        }
    }

    // The same for each reader, where no change of the record under the key is held: all see the newest one.
    fn has_newest_other(
        &self,
        table: TableId,
        schema: &Schema,
        rule: &IndexRule,
        own: Option<&[u8]>,
        key: &Key,
    ) -> bool
        requires named { IsSomeAnd (table_with_id self.now.store.tables table.0) (λ t. schema.now ≡ schema_of t) }
        requires rule { rule_with_id schema.now rule.now.id.0 ≡ Some rule.now }
        requires primary { rule.now.flags.primary ≡ true }
        requires untouched { list_any (is_change_at table.0 key.now) self.now.store.held ≡ false }
        ensures { (reader : Reader) → result ≡ is_taken_for reader self.now.store table.0 rule.now.id.0 (option_copied own.entry) key.now }
    {
        a_reader_finds_the_records_that_it_is_shown();
        let bookmark = key.as_bytes();
        match self.newest(table, bookmark) {
            Some(_) => !is_replaced(own, bookmark),
            None => false,
        }
    }

    // Whether a key conflict stands over a key that is new to the record.
    fn has_conflict_over_new<R: Values>(
        &self,
        reader: Reader,
        table: TableId,
        schema: &Schema,
        rule: &IndexRule,
        own: Option<&[u8]>,
        record: &R,
    ) -> bool
        requires named { IsSomeAnd (table_with_id self.now.store.tables table.0) (λ t. schema.now ≡ schema_of t) }
        requires rule { rule_with_id schema.now rule.now.id.0 ≡ Some rule.now }
        requires legal { is_legal rule.now schema.now ≡ true }
        requires short { rule.now.key_most ≤ 255 }
        requires taken { IsOk (entries rule.now schema.now (R.fields «record».now)) }
        ensures { result ≡ list_any (has_conflict_over reader self.now.store table.0 rule.now schema.now) (new_keys rule.now schema.now (replaced_seen reader self.now.store table.0 (option_copied own.entry)) (R.fields «record».now)) }
    {
        entries_rise();
        let seen = self.replaced_row(reader, table, own);
        let mut found = next_entry(rule, schema, record, None);
        while let Some(key) = found {
            if self.is_new_conflict(reader, table, schema, rule, &seen, &key) {
                return true;
            }
            found = next_entry(rule, schema, record, Some(&key));
        }
        false
    }

    // Whether the row lacks the key, and a key conflict stands over it.
    fn is_new_conflict(
        &self,
        reader: Reader,
        table: TableId,
        schema: &Schema,
        rule: &IndexRule,
        seen: &Option<ShownRow<'_>>,
        key: &Key,
    ) -> bool
        requires named { IsSomeAnd (table_with_id self.now.store.tables table.0) (λ t. schema.now ≡ schema_of t) }
        requires rule { rule_with_id schema.now rule.now.id.0 ≡ Some rule.now }
        requires legal { is_legal rule.now schema.now ≡ true }
        requires short { rule.now.key_most ≤ 255 }
        ensures { result ≡ (not (yields_key rule.now schema.now key.now seen.now) && has_conflict_over reader self.now.store table.0 rule.now schema.now key.now) }
    {
        if lacks_key(rule, schema, seen, key) {
            self.key_conflict(reader, table, schema, rule, key)
        } else {
            false
        }
    }

    // The row that the reader sees under the bookmark, where one is given.
    fn replaced_row(
        &self,
        reader: Reader,
        table: TableId,
        own: Option<&[u8]>,
    ) -> Option<ShownRow<'_>>
        ensures { result ≡ replaced_seen reader self.now.store table.0 (option_copied own.entry) }
    {
        match own {
            Some(own) => self.look_up(table, own, reader),
            None => None,
        }
    }

    // Whether another record that the reader sees has one of the keys.
    fn has_taken_key<R: Values>(
        &self,
        reader: Reader,
        table: TableId,
        schema: &Schema,
        rule: &IndexRule,
        own: Option<&[u8]>,
        record: &R,
    ) -> bool
        requires named { IsSomeAnd (table_with_id self.now.store.tables table.0) (λ t. schema.now ≡ schema_of t) }
        requires legal { is_legal rule.now schema.now ≡ true }
        requires short { rule.now.key_most ≤ 255 }
        requires taken { IsOk (entries rule.now schema.now (R.fields «record».now)) }
        ensures { result ≡ list_any (is_taken_for reader self.now.store table.0 rule.now.id.0 (option_copied own.entry)) (key_list rule.now schema.now (R.fields «record».now)) }
    {
        entries_rise();
        let mut found = next_entry(rule, schema, record, None);
        while let Some(key) = found {
            if self.is_taken(reader, table, schema, rule.id, own, &key) {
                return true;
            }
            found = next_entry(rule, schema, record, Some(&key));
        }
        false
    }
}

// Whether there is no row, or it lacks the key in the index.
fn lacks_key(rule: &IndexRule, schema: &Schema, row: &Option<ShownRow<'_>>, key: &Key) -> bool
    requires legal { is_legal rule.now schema.now ≡ true }
    requires short { rule.now.key_most ≤ 255 }
    ensures { result ≡ not (yields_key rule.now schema.now key.now row.now) }
{
    match row {
        Some(row) => !yields(rule, schema, row, key),
        None => true,
    }
}

/// What an update asks of each unique index by the held changes is what it asks of the state: the table is one of the session's
/// view, and none of its indexes names the column of a kept sum, nor sees one in the records before them.
pub fn unique_keys_are_asked_as_of_the_state()
    ensures { (base : Records) (dropped kept : List PastChange) (store : VersionedTables) (state : DatabaseState) → Holds base dropped kept store state
        → (reader : Reader) → reader.begin ≡ begin_of (transaction_of state reader.session.0)
        → (table : ℕ) (seen : Table) → table_with_id (view state reader.session.0) table ≡ Some seen
        → AllByRecursion (λ rule. SeesNoSum rule table kept × HasKeyBefores rule (schema_of seen) table base kept) (schema_of seen).indexes
        → AllByRecursion (λ rule. (own : Option (List ℕ)) (values : RecordFields)
        → unique_refusals reader store table (schema_of seen) rule own values
        ≡ (list_any (has_key_conflict state reader.session.0 table (schema_of seen) rule) (new_keys rule (schema_of seen) (replaced_record seen.rows own) values), jet.WriteConflict)
        ∷ (list_any (is_taken (schema_of seen) seen.rows rule own) (key_list rule (schema_of seen) values), jet.KeyDuplicate) ∷ []) (schema_of seen).indexes }
{
    held_changes_tell_key_conflicts();
    a_reader_is_shown_the_entries_of_its_view();
    a_reader_finds_the_records_that_it_is_shown();
}
