//! The entries of all variants of a table's records in an index.

ghost use Rattle.std.specs.Prelude.{◌≡◌, ◌++◌, IfOk};
ghost use Rattle.std.specs.List.{flat_map};
ghost use Rattle.btree_inplace.specs.Trees.{nodes_of};
ghost use Rattle.database_state.specs.Table.{schema_of};
ghost use Rattle.image_contents.specs.LegalRules.{IsLegalRule};
ghost use Rattle.image_contents.specs.ReadVariants.{AreReadableVariants, HasReadableBefore, IsReadableRow, contents_of};
ghost use Rattle.image_findings.specs.EntryFindings.{pairs_of, row_before, variants_of};
ghost use Rattle.image_findings.specs.TableContents.{long_values};
ghost use Rattle.index_derive.specs.Entries.{key_list};
ghost use Rattle.stored_variants.specs.RecordRows.{record_of, rows_of_nodes};
ghost use Rattle.version_store.specs.Answers.{told_change};

use crate::entries::derived::{DerivedEntry, push_keys};
use crate::nodes::NodeWalk;
use crate::rows::ImageRow;
use image_opening::OpenedTable;
use index_derive::{DeriveFault, IndexRule, derive};
use jet_base::{Items, OutOfMemory};
use jet_catalog::TableDef;
use key_normal::Key;
use page_space::Space;
use std::alloc::Global;
use version_store::{Held, Versions};

/// What tells all variants of a table's records: its trees, and the held changes, of which none is undone.
#[derive(Clone, Copy)]
pub struct TableVariants<'a> {
    pub space: &'a Space,
    pub table: &'a TableDef,
    pub opened: &'a OpenedTable,
    pub versions: &'a Versions,
}

impl<'a> TableVariants<'a> {
    /// The keys that the records have in an index, each with the bookmark of its record, in no order: of the newest records, and of
    /// those before held changes.
    pub(crate) fn derived_entries(
        &self,
        alloc: Global,
        rule: &IndexRule,
    ) -> Result<Vec<DerivedEntry<'a>>, OutOfMemory>
        requires readable { AreReadableVariants self.now }
        requires legal { IsLegalRule (schema_of self.now.table.now) rule.now }
        ensures { IfOk result (λ entries. entries.items ≡ flat_map (pairs_of rule.now (schema_of self.now.table.now)) (variants_of self.now.versions.now (contents_of self.now))) }
    {
        let mut entries = Vec::new(alloc);
        match self.push_newest(alloc, rule, &mut entries) {
            Ok(()) => {}
            Err(fault) => return Err(fault),
        }
        match self.push_before(alloc, rule, &mut entries) {
            Ok(()) => Ok(entries),
            Err(fault) => Err(fault),
        }
    }

    /// Puts the entries of the newest records at the end.
    fn push_newest(
        &self,
        alloc: Global,
        rule: &IndexRule,
        entries: &mut Vec<DerivedEntry<'a>>,
    ) -> Result<(), OutOfMemory>
        requires readable { AreReadableVariants self.now }
        requires legal { IsLegalRule (schema_of self.now.table.now) rule.now }
        ensures { IfOk result (λ _. entries.new.items ≡ entries.old.items ++ flat_map (pairs_of rule.now (schema_of self.now.table.now)) (rows_of_nodes (long_values (contents_of self.now)) (nodes_of self.now.space.now self.now.opened.now.nodes))) }
    {
        let mut walk = NodeWalk::new(self.space, &self.opened.nodes);
        while let Some(node) = walk.next() {
            if !node.bytes.is_empty() {
                match self.push_row(alloc, rule, entries, node.key, node.bytes) {
                    Ok(()) => {}
                    Err(fault) => return Err(fault),
                }
            }
        }
        Ok(())
    }

    /// Puts the entries of the records before held changes at the end.
    fn push_before(
        &self,
        alloc: Global,
        rule: &IndexRule,
        entries: &mut Vec<DerivedEntry<'a>>,
    ) -> Result<(), OutOfMemory>
        requires readable { AreReadableVariants self.now }
        requires legal { IsLegalRule (schema_of self.now.table.now) rule.now }
        ensures { IfOk result (λ _. entries.new.items ≡ entries.old.items ++ flat_map (pairs_of rule.now (schema_of self.now.table.now)) (flat_map (row_before (contents_of self.now)) self.now.versions.now)) }
    {
        let mut place = 0;
        while place < self.versions.len() {
            match self.push_change(alloc, rule, entries, self.versions.change_at(place)) {
                Ok(()) => {}
                Err(fault) => return Err(fault),
            }
            place += 1;
        }
        Ok(())
    }

    /// Puts the entries of the record before a held change at the end, where it is one of the table.
    fn push_change(
        &self,
        alloc: Global,
        rule: &IndexRule,
        entries: &mut Vec<DerivedEntry<'a>>,
        change: Held<'a>,
    ) -> Result<(), OutOfMemory>
        requires readable { AreReadableVariants self.now }
        requires legal { IsLegalRule (schema_of self.now.table.now) rule.now }
        requires row { HasReadableBefore (long_values (contents_of self.now)) self.now.table.now.id (told_change change) }
        ensures { IfOk result (λ _. entries.new.items ≡ entries.old.items ++ flat_map (pairs_of rule.now (schema_of self.now.table.now)) (row_before (contents_of self.now) (told_change change.entry))) }
    {
        if change.table != self.table.id() {
            return Ok(());
        }
        match change.before {
            Some(row) => self.push_row(alloc, rule, entries, change.bookmark, row),
            None => Ok(()),
        }
    }

    /// Puts the entries of the record of a row at the end.
    fn push_row(
        &self,
        alloc: Global,
        rule: &IndexRule,
        entries: &mut Vec<DerivedEntry<'a>>,
        bookmark: &'a [u8],
        row: &[u8],
    ) -> Result<(), OutOfMemory>
        requires readable { AreReadableVariants self.now }
        requires legal { IsLegalRule (schema_of self.now.table.now) rule.now }
        requires row { IsReadableRow (long_values (contents_of self.now)) row.now }
        ensures { IfOk result (λ _. entries.new.items ≡ entries.old.items ++ pairs_of rule.now (schema_of self.now.table.now) (bookmark.now, record_of (long_values (contents_of self.now)) row.now)) }
    {
        match self.keys_of_row(alloc, rule, row) {
            Ok(keys) => push_keys(alloc, entries, keys.as_slice(), bookmark),
            Err(fault) => Err(fault),
        }
    }

    /// The keys of the record of a row, none where the index refuses it.
    pub fn keys_of_row(
        &self,
        alloc: Global,
        rule: &IndexRule,
        row: &[u8],
    ) -> Result<Items<Key>, OutOfMemory>
        requires readable { AreReadableVariants self.now }
        requires legal { IsLegalRule (schema_of self.now.table.now) rule.now }
        requires row { IsReadableRow (long_values (contents_of self.now)) row.now }
        ensures { IfOk result (λ keys. keys ≡ key_list rule.now (schema_of self.now.table.now) (record_of (long_values (contents_of self.now)) row.now)) }
    {
        let row = ImageRow::new(self.space, &self.opened.long_values, row);
        match derive::entries(alloc, rule, self.table.schema(), &row) {
            Ok(keys) => Ok(keys),
            Err(DeriveFault::OutOfMemory) => Err(OutOfMemory),
            Err(DeriveFault::NullKeyDisallowed) => Ok(Items::empty(alloc)),
            Err(DeriveFault::KeyTruncated) => Ok(Items::empty(alloc)),
        }
    }
}
