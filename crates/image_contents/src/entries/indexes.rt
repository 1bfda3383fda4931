//! The first entry of a table's indexes that is stored and not wanted, or wanted and not stored.

ghost use Rattle.std.specs.Prelude.{◌≡◌, ◌++◌, Some, option_copied, option_map, IfOk};
ghost use Rattle.btree_inplace.specs.Trees.{IsTree, nodes_of};
ghost use Rattle.database_state.specs.Table.{schema_of};
ghost use Rattle.image_contents.specs.FoundEntries.{IsShown, finding_in, opened_finding};
ghost use Rattle.image_contents.specs.LegalRules.{IsLegalRule};
ghost use Rattle.image_contents.specs.ReadVariants.{AreReadableVariants, contents_of};
ghost use Rattle.image_findings.specs.EntryFindings.{entry_finding, index_finding};
ghost use Rattle.image_findings.specs.TableContents.{TableContents};
ghost use Rattle.index_derive.specs.Schemas.{rule_with_id};

use crate::entries::derived::derived_in_order;
use crate::entries::differing::{Difference, first_difference};
use crate::entries::stored::stored_entries;
use crate::entries::variants::TableVariants;
use image_opening::OpenedIndex;
use index_derive::IndexRule;
use jet_base::{IndexId, OutOfMemory};
use std::alloc::Global;

/// An entry of an index that is stored and that no variant of a record has, or that one has and that is not stored.
#[derive(Drop)]
pub struct DifferingEntry {
    pub index: IndexId,
    /// The key with the bookmark behind it, as a node has it.
    pub key: Vec<u8>,
    /// It is stored and not wanted, or else wanted and not stored.
    pub is_stored: bool,
}

impl DifferingEntry {
    /// The entry that was found in an index.
    fn new(
        alloc: Global,
        index: IndexId,
        found: Difference<'_>,
    ) -> Result<DifferingEntry, OutOfMemory>
        ensures { IfOk result (λ made. (made.index ≡ index) × (made.key.items ≡ found.entry.key.now ++ found.entry.bookmark.now) × (made.is_stored ≡ found.entry.is_stored)) }
    {
        let mut key = Vec::new(alloc);
        key.extend_from_slice(found.key)?;
        key.extend_from_slice(found.bookmark)?;
        Ok(DifferingEntry {
            index,
            key,
            is_stored: found.is_stored,
        })
    }
}

impl<'a> TableVariants<'a> {
    /// The first entry that is stored and that no variant of a record has, or that one has and that is not stored: in the first such
    /// index by its number, the least by key and then by bookmark. It takes time in proportion to the entries, but for sorting those
    /// of one index, and memory for those of one index at a time.
    #[tactic(none)]
    pub fn differing_entry(&self, alloc: Global) -> Result<Option<DifferingEntry>, OutOfMemory>
        requires readable { AreReadableVariants self.now }
        requires shown { (t : TableContents) × IsShown self.now t }
        ensures { IfOk result (λ found. (t : TableContents) → IsShown self.now t → option_map (finding_in t.table) found ≡ entry_finding self.now.versions.now t) }
    {
        let mut rest = self.opened.indexes.as_slice();
        while let Some((index, others)) = rest.split_first() {
            match self.differing_in(alloc, index) {
                Ok(None) => rest = others,
                Ok(Some(found)) => return Ok(Some(found)),
                Err(fault) => return Err(fault),
            }
        }
        Ok(None)
    }

    /// The first such entry of an index.
    #[tactic(none)]
    fn differing_in(
        &self,
        alloc: Global,
        index: &OpenedIndex,
    ) -> Result<Option<DifferingEntry>, OutOfMemory>
        requires readable { AreReadableVariants self.now }
        requires tree { IsTree self.now.space.now index.now.tree }
        ensures { IfOk result (λ found. option_map (finding_in self.now.table.now) found ≡ opened_finding self.now index.now) }
    {
        match self.rule_of(index.index) {
            Some(rule) => self.differing_by(alloc, rule, index),
            None => Ok(None),
        }
    }

    /// The first such entry of an index that has this rule.
    #[tactic(none)]
    fn differing_by(
        &self,
        alloc: Global,
        rule: &IndexRule,
        index: &OpenedIndex,
    ) -> Result<Option<DifferingEntry>, OutOfMemory>
        requires readable { AreReadableVariants self.now }
        requires legal { IsLegalRule (schema_of self.now.table.now) rule.now }
        requires tree { IsTree self.now.space.now index.now.tree }
        requires rule { rule_with_id (schema_of self.now.table.now) index.now.index.0 ≡ Some rule.now }
        ensures { IfOk result (λ found. option_map (finding_in self.now.table.now) found ≡ index_finding self.now.versions.now (contents_of self.now) (rule.now, nodes_of self.now.space.now index.now.tree)) }
    {
        let derived = match self.derived_entries(alloc, rule) {
            Ok(derived) => derived,
            Err(fault) => return Err(fault),
        };
        let want = match derived_in_order(alloc, derived.as_slice()) {
            Ok(want) => want,
            Err(fault) => return Err(fault),
        };
        let have = match stored_entries(alloc, self.space, &index.tree) {
            Ok(have) => have,
            Err(fault) => return Err(fault),
        };
        match first_difference(have.as_slice(), want.as_slice()) {
            Some(found) => match DifferingEntry::new(alloc, index.index, found) {
                Ok(told) => Ok(Some(told)),
                Err(fault) => Err(fault),
            },
            None => Ok(None),
        }
    }

    /// The rule of an index of the table.
    pub fn rule_of(&self, id: IndexId) -> Option<&IndexRule>
        ensures { option_copied result ≡ rule_with_id (schema_of self.now.table.now) id.0 }
    {
        self.table
            .schema()
            .indexes
            .as_slice()
            .iter()
            .find(|rule| rule.id == id)
    }
}
