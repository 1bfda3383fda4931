//! The parts of an opened image, and those of one of its tables.

ghost use Rattle.std.specs.Prelude.{◌≡◌, ◌<◌, length};
ghost use Rattle.image_findings.specs.Images.{ImageContents};
ghost use Rattle.engine_image.specs.OpenedImages.{AreParts, ShownAt};

use crate::contents::ReadLive;
use image_contents::{TableVariants, tables_of_a_sound_catalog_have_legal_rules};
use image_findings::indexes_of_a_sound_catalog_have_their_own_rules;
use image_opening::OpenedTable;
use jet_catalog::Catalog;
use page_space::Space;

/// What the checks of an image read.
#[derive(Clone, Copy)]
pub(crate) struct ImageParts<'a> {
    pub(crate) space: &'a Space,
    pub(crate) catalog: &'a Catalog,
    /// The trees of each table of the catalog, in its order.
    pub(crate) trees: &'a [OpenedTable],
    pub(crate) live: &'a ReadLive,
    /// How many log entries there are.
    pub(crate) number: u64,
}

impl<'a> ImageParts<'a> {
    /// The table at a place of the catalog, with its trees.
    pub(crate) fn table(&self, place: usize) -> TableVariants<'a>
        requires place { place < length self.now.trees.now }
        requires parts { (image : ImageContents) × AreParts image self.now }
        ensures { (image : ImageContents) → AreParts image self.now → ShownAt image place result }
    {
        tables_of_a_sound_catalog_have_legal_rules();
        indexes_of_a_sound_catalog_have_their_own_rules();
        TableVariants {
            space: self.space,
            table: &self.catalog.tables()[place],
            opened: &self.trees[place],
            versions: self.live.versions(),
        }
    }
}
