//! Changes of records.

ghost use Rattle.std.specs.Prelude.{◌≡◌, ◌↔◌, ◌<◌, true, false, is_some, option_copied, IfSome, IsErrOf, IsSomeAnd, OnErr, OnOk};
ghost use Rattle.column_set.specs.Rows.{IsRowBytes};
ghost use Rattle.database_state.specs.Changes.{is_sum};
ghost use Rattle.column_set.specs.ChangedRecords.{changed_bookmark, changed_table};
ghost use Rattle.database_state.specs.Table.{record_in, table_with_id, schema_of};
ghost use Rattle.version_store.specs.HeldChanges.{kind_of};
ghost use Rattle.laws_engine.specs.VersionedTables.{with_change};
ghost use Rattle.stored_variants.specs.PutRecords.{IsStorable, copied_bookmark, put_values};
ghost use Rattle.stored_variants.specs.StoredVersions.{has_room};
ghost use Rattle.stored_variants.specs.VersionsKept.{AddsToEscrow};
ghost use Rattle.version_store.specs.declared.calls.ChangeKind.TheVariants as kind;
ghost use Rattle.version_store.specs.declared.fault.VersionFault.TheVariants as fault;

use crate::reading::shown_row;
use crate::store::TableVersions;
use arrayvec::ArrayVec;
use column_set::{Change, MAX_ROW_SIZE, Record, append, rows_are_read_back, size_of_a_row};
use long_rows::{
    counts_after_a_step, form_of_a_kept_row, kept_rows_stand_for_their_records,
    rows_stand_as_values_change, values_keep_their_counts,
};
use table_trees::{nodes_after_a_change, nodes_by_bookmark};
use variant_trees::{add_sum, put_record, row_in_node};
use version_store::{By, Reader, VersionFault};

impl TableVersions {
    /// Drops a record that is there, and holds the drop behind the other changes with the record before it. It is refused where
    /// it does not fit, as `fits` says. After a refusal and after want of memory all is as it was.
    pub fn drop_record(&mut self, by: By, change: &Change) -> Result<(), VersionFault>
        requires drop { kind_of change.now ≡ kind.Drop }
        requires there { is_some (record_in self.old.store.tables (changed_table change.now) (changed_bookmark change.now)) ≡ true }
        ensures over { IsErrOf result fault.OverSpan ↔ (has_room by change.now self.old.store ≡ false) }
        ensures ok { OnOk result (self.new ≡ record self.old { store = with_change by change.now self.old.store }) }
        ensures err { OnErr result (self.new ≡ self.old) }
    {
        size_of_a_row();
        values_keep_their_counts();
        nodes_after_a_change();
        nodes_by_bookmark();
        self.trees.nodes_are_in_order();
        let table = change.table();
        let bookmark = change.bookmark().as_bytes();
        let before = row_in_node(self.trees.get(table, bookmark));
        match self.versions.push(by, change, before) {
            Ok(()) => {
                self.trees.replace(table, bookmark, &[]);
                self.trees.nodes_are_in_order();
                Ok(())
            }
            Err(fault) => Err(fault),
        }
    }

    /// Puts a record under its bookmark, in the place of the one that is there, and holds the put behind the other changes with
    /// the record before it. It is refused where it does not fit, as `fits` says. After a refusal and after want of memory all
    /// is as it was.
    ///
    /// An index is looked up once for each key of the record, and the row is written once, in its node. A value of more than 255
    /// bytes is kept apart. The put is of a later log entry than all puts before it, so that no long value has its number.
    pub fn put(&mut self, by: By, change: &Change) -> Result<(), VersionFault>
        requires put { kind_of change.now ≡ kind.Put }
        requires later { self.old.newest_put < by.number }
        requires storable { IsSomeAnd (table_with_id self.old.store.tables (changed_table change.now)) (λ table. IsStorable table (changed_bookmark change.now) (put_values change.now)) }
        ensures over { IsErrOf result fault.OverSpan ↔ (has_room by change.now self.old.store ≡ false) }
        ensures ok { OnOk result (self.new ≡ record self.old { newest_put = by.number; store = with_change by change.now self.old.store }) }
        ensures err { OnErr result (self.new ≡ self.old) }
    {
        if !self.fits(by, change) {
            return Err(VersionFault::OverSpan);
        }
        match copied_of(change) {
            Some(copied) => self.put_copy(by, change, copied),
            None => self.put_beside(by, change, None),
        }
    }

    // The same of a change that fits, where a record was copied. The trees that have its row change: it is copied out.
    fn put_copy(&mut self, by: By, change: &Change, copied: &[u8]) -> Result<(), VersionFault>
        requires put { kind_of change.now ≡ kind.Put }
        requires later { self.old.newest_put < by.number }
        requires storable { IsSomeAnd (table_with_id self.old.store.tables (changed_table change.now)) (λ table. IsStorable table (changed_bookmark change.now) (put_values change.now)) }
        requires room { has_room by change.now self.old.store ≡ true }
        ensures over { IsErrOf result fault.OverSpan → ⊥ }
        ensures ok { OnOk result (self.new ≡ record self.old { newest_put = by.number; store = with_change by change.now self.old.store }) }
        ensures err { OnErr result (self.new ≡ self.old) }
    {
        self.trees.nodes_are_in_order();
        let reader = Reader {
            session: by.session,
            begin: Some(by.begin),
        };
        let mut row = ArrayVec::new();
        match shown_row(&self.trees, &self.versions, change.table(), copied, reader) {
            Some(bytes) => {
                append(&mut row, bytes);
                self.put_beside(by, change, Some(row.as_slice()))
            }
            None => self.put_beside(by, change, None),
        }
    }

    // The same, with the row of the record that was copied, if there is one.
    fn put_beside(
        &mut self,
        by: By,
        change: &Change,
        copied: Option<&[u8]>,
    ) -> Result<(), VersionFault>
        requires put { kind_of change.now ≡ kind.Put }
        requires later { self.old.newest_put < by.number }
        requires storable { IsSomeAnd (table_with_id self.old.store.tables (changed_table change.now)) (λ table. IsStorable table (changed_bookmark change.now) (put_values change.now)) }
        requires room { has_room by change.now self.old.store ≡ true }
        requires copied { IfSome (option_copied copied) IsRowBytes }
        ensures over { IsErrOf result fault.OverSpan → ⊥ }
        ensures ok { OnOk result (self.new ≡ record self.old { newest_put = by.number; store = with_change by change.now self.old.store }) }
        ensures err { OnErr result (self.new ≡ self.old) }
    {
        size_of_a_row();
        rows_are_read_back();
        form_of_a_kept_row();
        kept_rows_stand_for_their_records();
        rows_stand_as_values_change();
        values_keep_their_counts();
        self.trees.nodes_are_in_order();
        let _ = self.catalog.tables();
        let table = change.table();
        let bookmark = change.bookmark().as_bytes();
        match values_of(change) {
            Some(values) => match self.catalog.by_id(table) {
                Some(def) => match put_record(
                    self.alloc,
                    &mut self.trees,
                    &mut self.versions,
                    by,
                    change,
                    table,
                    def.schema(),
                    bookmark,
                    copied,
                    values,
                ) {
                    Ok(()) => {
                        self.newest_put = by.number;
                        self.trees.nodes_are_in_order();
                        Ok(())
                    }
                    Err(fault) => {
                        self.trees.nodes_are_in_order();
                        Err(fault)
                    }
                },
                None => Err(VersionFault::OutOfMemory),
            },
            None => Err(VersionFault::OutOfMemory),
        }
    }

    /// Adds an amount to the number in an escrow column of a record, and holds the sum behind the other changes. The number is one
    /// of 32 bits, and wraps. Where there is no record under the bookmark the sum is held alone. It is refused where it does not
    /// fit, as `fits` says. After a refusal and after want of memory all is as it was.
    ///
    /// The four bytes of the number are changed in the row: no index reads them.
    pub fn add(&mut self, by: By, change: &Change) -> Result<(), VersionFault>
        requires sum { is_sum change.now ≡ true }
        requires column { IsSomeAnd (table_with_id self.old.store.tables (changed_table change.now)) (λ t. AddsToEscrow (schema_of t) (kind_of change.now)) }
        ensures over { IsErrOf result fault.OverSpan ↔ (has_room by change.now self.old.store ≡ false) }
        ensures ok { OnOk result (self.new ≡ record self.old { store = with_change by change.now self.old.store }) }
        ensures err { OnErr result (self.new ≡ self.old) }
    {
        counts_after_a_step();
        match self.versions.push(by, change, None) {
            Ok(()) => {
                add_sum(&mut self.trees, change);
                Ok(())
            }
            Err(fault) => Err(fault),
        }
    }
}

// The record of a put.
fn values_of(change: &Change) -> Option<&Record>
    ensures { IfSome (option_copied result) (λ values. values ≡ put_values change.now) }
{
    match change {
        Change::Put { values, .. } => Some(values),
        Change::Drop { .. } => None,
        Change::Hold { .. } => None,
        Change::Add { .. } => None,
    }
}

// The bookmark of the record that was copied.
fn copied_of(change: &Change) -> Option<&[u8]>
    ensures { option_copied result ≡ copied_bookmark change.now }
{
    match change {
        Change::Put { copied, .. } => match copied {
            Some(bookmark) => Some(bookmark.as_bytes()),
            None => None,
        },
        Change::Drop { .. } => None,
        Change::Hold { .. } => None,
        Change::Add { .. } => None,
    }
}
