//! An image that is opened.

ghost use Rattle.std.specs.Prelude.{◌≡◌, ◌≤◌, length, IfErr, IfOk};
ghost use Rattle.checkpoint.specs.declared.image.TheConstants.{MAX_PAGES};
ghost use Rattle.image_findings.specs.Findings.{finding};
ghost use Rattle.image_findings.specs.Images.{ImageContents};
ghost use Rattle.engine_image.specs.FoundFaults.{Refuses, Tells};
ghost use Rattle.engine_image.specs.OpenedImages.{AreParts, IsOpenedImage, contents_of};

use crate::contents::{ReadLive, read_live};
use crate::fault::ImageFault;
use crate::forest::{OpenedForest, open_forest};
use crate::parts::ImageParts;
use checkpoint::Image;
use image_opening::what_trees_open_next_is_found_next;
use page_space::Space;
use std::alloc::Global;

/// An image of which the catalog and all trees are opened, and nothing is found yet: each page that is taken is in one of the trees.
/// What the trees hold, and whether the live part is sound, is asked by [`OpenedImage::check`].
#[derive(Drop)]
pub struct OpenedImage {
    pub(crate) number: u64,
    pub(crate) space: Space,
    pub(crate) forest: OpenedForest,
    pub(crate) live: ReadLive,
}

impl OpenedImage {
    /// Opens an image: its live part is read, its pages move into a space, and the catalog and the trees of all tables are walked, each
    /// page once. No page is copied.
    ///
    /// The call answers what is found first where that is something of the trees or of the catalog.
    pub fn open(alloc: Global, image: Image) -> Result<OpenedImage, ImageFault>
        requires { length image.pages.items ≤ MAX_PAGES }
        ensures opened { IfOk result (IsOpenedImage (contents_of image)) }
        ensures fault { IfErr result (Refuses (finding (contents_of image))) }
    {
        let live = match read_live(alloc, image.live.as_slice()) {
            Ok(live) => live,
            Err(_) => return Err(ImageFault::OutOfMemory),
        };
        let space = match Space::holding(alloc, image.pages) {
            Ok(space) => space,
            Err(_) => return Err(ImageFault::OutOfMemory),
        };
        match open_forest(alloc, &space, image.catalog_root) {
            Ok(forest) => Ok(OpenedImage {
                number: image.number,
                space,
                forest,
                live,
            }),
            Err(fault) => Err(fault),
        }
    }

    /// What the checks read.
    #[tactic(none)]
    fn parts(&self) -> ImageParts<'_>
        ensures { (image : ImageContents) → IsOpenedImage image self.now → AreParts image result }
    {
        ImageParts {
            space: &self.space,
            catalog: &self.forest.catalog.catalog,
            trees: self.forest.trees.as_slice(),
            live: &self.live,
            number: self.number,
        }
    }

    /// Checks what the trees and the live part hold: nothing is found of the image, or it is told what is found first. The time it
    /// takes is near linear in the image.
    #[tactic(none)]
    pub fn check(&self, alloc: Global) -> Result<(), ImageFault>
        requires { (image : ImageContents) × IsOpenedImage image self.now }
        ensures { (image : ImageContents) → IsOpenedImage image self.now → Tells (finding image) result }
    {
        what_trees_open_next_is_found_next();
        self.parts().check(alloc)
    }
}

/// Whether an image is consistent, without an engine: it is opened and all its checks are made, or it is told what is found first.
#[tactic(none)]
pub fn examine(alloc: Global, image: Image) -> Result<(), ImageFault>
    requires { length image.pages.items ≤ MAX_PAGES }
    ensures { Tells (finding (contents_of image)) result }
{
    match OpenedImage::open(alloc, image) {
        Ok(opened) => opened.check(alloc),
        Err(fault) => Err(fault),
    }
}
