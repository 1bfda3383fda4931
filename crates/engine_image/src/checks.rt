//! The checks that are made of each table of an image.

ghost use Rattle.std.specs.Prelude.{◌≡◌, ◌<◌, length};
ghost use Rattle.image_findings.specs.Images.{ImageContents};
ghost use Rattle.engine_image.specs.Checks.{MayCheck, check_finding, finding_at};
ghost use Rattle.engine_image.specs.FoundFaults.{Tells};
ghost use Rattle.engine_image.specs.OpenedImages.{AreParts};

use crate::fault::{Finding, ImageFault, fault_of_entry, fault_of_key, fault_of_row};
use crate::parts::ImageParts;
use image_contents::{
    miscounted_value, missing_or_broken_value,
    tables_without_broken_or_missing_values_have_readable_rows, unsound_row,
    variants_of_a_table_without_a_finding_are_readable,
};
use image_live::duplicate_key;
use std::alloc::Global;

/// A check that is made of each table, in the order in which they are made. Each stands on those before it.
#[derive(Clone, Copy)]
pub(crate) enum TableCheck {
    /// Long values are whole, and those that rows name are there.
    Values,
    /// Rows and their nodes are sound.
    Rows,
    /// The entries of the indexes are those of all variants of the records.
    Entries,
    /// No two records share a key of a unique index.
    Keys,
    /// Each long value counts the rows that refer to it.
    Counts,
}

impl<'a> ImageParts<'a> {
    /// Makes a check of each table, in the order of the catalog.
    #[tactic(none)]
    pub(crate) fn check_tables(&self, alloc: Global, check: TableCheck) -> Result<(), ImageFault>
        requires { MayCheck check self.now }
        ensures { (image : ImageContents) → AreParts image self.now → Tells (check_finding check image) result }
    {
        for place in 0..self.trees.len() {
            match self.check_table(alloc, check, place) {
                Ok(()) => {}
                Err(fault) => return Err(fault),
            }
        }
        Ok(())
    }

    /// Makes a check of the table at a place.
    #[tactic(none)]
    fn check_table(&self, alloc: Global, check: TableCheck, place: usize) -> Result<(), ImageFault>
        requires place { place < length self.now.trees.now }
        requires may { MayCheck check self.now }
        ensures { (image : ImageContents) → AreParts image self.now → Tells (finding_at check image place) result }
    {
        match check {
            TableCheck::Values => self.check_values(place),
            TableCheck::Rows => self.check_rows(alloc, place),
            TableCheck::Entries => self.check_entries(alloc, place),
            TableCheck::Keys => self.check_keys(alloc, place),
            TableCheck::Counts => self.check_counts(alloc, place),
        }
    }

    /// Whether the long values of a table are whole, and those that rows name are there.
    #[tactic(none)]
    fn check_values(&self, place: usize) -> Result<(), ImageFault>
        requires place { place < length self.now.trees.now }
        requires may { MayCheck TableCheck.Values self.now }
        ensures { (image : ImageContents) → AreParts image self.now → Tells (finding_at TableCheck.Values image place) result }
    {
        let table = self.table(place);
        match missing_or_broken_value(table.space, table.opened, self.number, table.versions) {
            Ok(None) => Ok(()),
            Ok(Some(value)) => Err(ImageFault::NotSound(Finding::Long(value))),
            Err(_) => Err(ImageFault::OutOfMemory),
        }
    }

    /// Whether the rows of a table are sound, and their nodes.
    #[tactic(none)]
    fn check_rows(&self, alloc: Global, place: usize) -> Result<(), ImageFault>
        requires place { place < length self.now.trees.now }
        requires may { MayCheck TableCheck.Rows self.now }
        ensures { (image : ImageContents) → AreParts image self.now → Tells (finding_at TableCheck.Rows image place) result }
    {
        tables_without_broken_or_missing_values_have_readable_rows();
        let table = self.table(place);
        match unsound_row(
            alloc,
            table.space,
            table.table,
            table.opened,
            table.versions,
            self.number,
        ) {
            Ok(None) => Ok(()),
            Ok(Some(bookmark)) => Err(fault_of_row(alloc, table.table, bookmark)),
            Err(_) => Err(ImageFault::OutOfMemory),
        }
    }

    /// Whether the entries of a table's indexes are those of all variants of its records.
    #[tactic(none)]
    fn check_entries(&self, alloc: Global, place: usize) -> Result<(), ImageFault>
        requires place { place < length self.now.trees.now }
        requires may { MayCheck TableCheck.Entries self.now }
        ensures { (image : ImageContents) → AreParts image self.now → Tells (finding_at TableCheck.Entries image place) result }
    {
        variants_of_a_table_without_a_finding_are_readable();
        let table = self.table(place);
        match table.differing_entry(alloc) {
            Ok(None) => Ok(()),
            Ok(Some(entry)) => Err(fault_of_entry(alloc, &table, entry)),
            Err(_) => Err(ImageFault::OutOfMemory),
        }
    }

    /// Whether no two records of a table share a key of a unique index.
    #[tactic(none)]
    fn check_keys(&self, alloc: Global, place: usize) -> Result<(), ImageFault>
        requires place { place < length self.now.trees.now }
        requires may { MayCheck TableCheck.Keys self.now }
        ensures { (image : ImageContents) → AreParts image self.now → Tells (finding_at TableCheck.Keys image place) result }
    {
        variants_of_a_table_without_a_finding_are_readable();
        let table = self.table(place);
        match duplicate_key(alloc, &self.live.part.sessions, &table) {
            Ok(None) => Ok(()),
            Ok(Some(duplicate)) => Err(fault_of_key(alloc, &table, duplicate)),
            Err(_) => Err(ImageFault::OutOfMemory),
        }
    }

    /// Whether each long value of a table counts the rows that refer to it.
    #[tactic(none)]
    fn check_counts(&self, alloc: Global, place: usize) -> Result<(), ImageFault>
        requires place { place < length self.now.trees.now }
        requires may { MayCheck TableCheck.Counts self.now }
        ensures { (image : ImageContents) → AreParts image self.now → Tells (finding_at TableCheck.Counts image place) result }
    {
        let table = self.table(place);
        match miscounted_value(alloc, table.space, table.opened, table.versions) {
            Ok(None) => Ok(()),
            Ok(Some(value)) => Err(ImageFault::NotSound(Finding::Long(value))),
            Err(_) => Err(ImageFault::OutOfMemory),
        }
    }
}
