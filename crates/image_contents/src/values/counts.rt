//! How often the rows of a table refer to each of its long values.

ghost use Rattle.std.specs.Prelude.{◌≡◌, ◌+◌, ℕ, List, IfOk, OnOk, bytes_eq, if◌then◌else◌};
ghost use Rattle.std.specs.Option.{option_map};
ghost use Rattle.btree_inplace.specs.Trees.{IsTree, nodes_of};
ghost use Rattle.column_set.specs.OtherValues.{StandIn};
ghost use Rattle.column_set.specs.declared.rows.RowValue.{RowValue};
ghost use Rattle.image_contents.specs.ReadReferences.{told_apart};
ghost use Rattle.image_contents.specs.ReferringRows.{counted, counted_in, referring_rows};
ghost use Rattle.image_contents.specs.ValueCounts.{count_in, is_last};
ghost use Rattle.long_rows.specs.RowReferences.{named_by, times_among};

use crate::values::references::{Reference, bytes_of, first_reference, names};
use crate::values::referring::{ReferringRow, ReferringRows};
use image_opening::OpenedTable;
use jet_base::OutOfMemory;
use page_space::Space;
use std::alloc::Global;
use std::collections::BTreeMap;
use version_store::Versions;

/// How many rows, and rows before held changes, refer to each long value of a table: to one that is not there as well. It takes memory
/// in proportion to the values that are referred to.
#[derive(Drop)]
pub(crate) struct ReferenceCounts {
    counts: BTreeMap<[u8; 12], u64>,
}

impl ReferenceCounts {
    /// Those of a table. Where more rows than a `u64` counts refer to a value, which no memory holds, the call answers `OutOfMemory`.
    pub(crate) fn of_rows(
        alloc: Global,
        space: &Space,
        table: &OpenedTable,
        versions: &Versions,
    ) -> Result<ReferenceCounts, OutOfMemory>
        requires { IsTree space.now table.now.nodes }
        ensures { IfOk result (λ counts. (id : List ℕ) → count_in counts id ≡ counted id (referring_rows table.now.table.0 (nodes_of space.now table.now.nodes) versions.now)) }
    {
        let mut counts = ReferenceCounts::new(alloc);
        let mut rows = ReferringRows::new(space, table, versions);
        while let Some(row) = rows.next() {
            counts.add_row(row)?;
        }
        Ok(counts)
    }

    /// None counted yet.
    fn new(alloc: Global) -> ReferenceCounts
        ensures { (id : List ℕ) → count_in result id ≡ 0 }
    {
        let counts = BTreeMap::new(alloc);
        ReferenceCounts { counts }
    }

    /// How many refer to the value with this identifier.
    pub(crate) fn of(&self, id: &[u8; 12]) -> u64
        ensures { result ≡ count_in self.now id.now }
    {
        match self.counts.get(id) {
            Some(count) => *count,
            None => 0,
        }
    }

    /// Counts a row, unless it is the one before a change that is undone: once for each value that it refers to, however often.
    fn add_row(&mut self, row: ReferringRow<'_>) -> Result<(), OutOfMemory>
        ensures { (xs : List (ℕ × RowValue)) → StandIn row.entry.values.now xs → OnOk result ((id : List ℕ) → count_in self.new id ≡ count_in self.old id + counted_in id (xs, row.entry.is_undone)) }
    {
        if row.is_undone {
            return Ok(());
        }
        self.add_values(row.values)
    }

    /// Counts a row with these values.
    fn add_values(&mut self, values: &[u8]) -> Result<(), OutOfMemory>
        ensures { (xs : List (ℕ × RowValue)) → StandIn values.now xs → OnOk result ((id : List ℕ) → count_in self.new id ≡ count_in self.old id + times_among id (named_by xs)) }
    {
        let mut rest = values;
        while let Some((found, behind)) = first_reference(rest) {
            self.add_last(found, behind)?;
            rest = behind;
        }
        Ok(())
    }

    /// Counts a reference, if there is one, unless the values of the row behind it, which are those of a page at most, name the same.
    fn add_last(&mut self, found: Option<Reference>, behind: &[u8]) -> Result<(), OutOfMemory>
        ensures { (xs : List (ℕ × RowValue)) → StandIn behind.now xs → OnOk result ((id : List ℕ) → count_in self.new id ≡ count_in self.old id + (if is_last id (option_map told_apart found) xs then 1 else 0)) }
    {
        match found {
            Some(reference) => {
                let id = bytes_of(reference.id);
                if names(behind, id.as_slice()) {
                    Ok(())
                } else {
                    self.add(id)
                }
            }
            None => Ok(()),
        }
    }

    /// Counts one reference more to a value.
    fn add(&mut self, id: [u8; 12]) -> Result<(), OutOfMemory>
        ensures { OnOk result ((other : List ℕ) → count_in self.new other ≡ count_in self.old other + (if bytes_eq other id then 1 else 0)) }
    {
        match self.of(&id).checked_add(1) {
            Some(more) => {
                self.counts.insert(id, more)?;
                Ok(())
            }
            None => Err(OutOfMemory),
        }
    }
}
