//! The check of the live part of an image, and all checks in their order.

ghost use Rattle.std.specs.Prelude.{◌≡◌};
ghost use Rattle.image_findings.specs.Images.{ImageContents};
ghost use Rattle.live_part.specs.LiveReading.{whole_in};
ghost use Rattle.engine_image.specs.Checks.{MayCheck, MayCheckRecords, checks_finding, live_part_finding, records_found};
ghost use Rattle.engine_image.specs.FoundFaults.{Tells};
ghost use Rattle.engine_image.specs.OpenedImages.{AreParts};

use crate::checks::TableCheck;
use crate::fault::{Finding, ImageFault};
use crate::parts::ImageParts;
use image_contents::{
    tables_of_a_sound_catalog_have_legal_rules,
    tables_without_broken_or_missing_values_have_readable_rows,
};
use image_findings::rows_before_changes_without_missing_values_are_whole;
use image_live::ImageTables;
use std::alloc::Global;

impl<'a> ImageParts<'a> {
    /// Whether the live part has its form, and is sound beside the tables.
    #[tactic(none)]
    fn check_live(&self, alloc: Global) -> Result<(), ImageFault>
        requires { MayCheck TableCheck.Rows self.now }
        ensures { (image : ImageContents) → AreParts image self.now → Tells (live_part_finding image (whole_in image.live)) result }
    {
        tables_of_a_sound_catalog_have_legal_rules();
        tables_without_broken_or_missing_values_have_readable_rows();
        rows_before_changes_without_missing_values_are_whole();
        if !self.live.is_formed {
            return Err(ImageFault::NotSound(Finding::Live));
        }
        let tables = ImageTables {
            space: self.space,
            catalog: self.catalog,
            trees: self.trees,
            number: self.number,
        };
        match tables.is_sound_live(alloc, &self.live.part) {
            Ok(true) => Ok(()),
            Ok(false) => Err(ImageFault::NotSound(Finding::Live)),
            Err(_) => Err(ImageFault::OutOfMemory),
        }
    }

    /// Makes the checks of the records, once the long values are there and the live part is sound.
    #[tactic(none)]
    fn check_records(&self, alloc: Global) -> Result<(), ImageFault>
        requires { MayCheckRecords self.now }
        ensures { (image : ImageContents) → AreParts image self.now → Tells (records_found image) result }
    {
        match self.check_tables(alloc, TableCheck::Rows) {
            Ok(()) => {}
            Err(fault) => return Err(fault),
        }
        match self.check_tables(alloc, TableCheck::Entries) {
            Ok(()) => {}
            Err(fault) => return Err(fault),
        }
        match self.check_tables(alloc, TableCheck::Keys) {
            Ok(()) => self.check_tables(alloc, TableCheck::Counts),
            Err(fault) => Err(fault),
        }
    }

    /// Makes all checks, one after another, and stops where one finds something.
    #[tactic(none)]
    pub(crate) fn check(&self, alloc: Global) -> Result<(), ImageFault>
        requires { (image : ImageContents) × AreParts image self.now }
        ensures { (image : ImageContents) → AreParts image self.now → Tells (checks_finding image) result }
    {
        match self.check_tables(alloc, TableCheck::Values) {
            Ok(()) => {}
            Err(fault) => return Err(fault),
        }
        match self.check_live(alloc) {
            Ok(()) => self.check_records(alloc),
            Err(fault) => Err(fault),
        }
    }
}
