//! The engine that is made of a consistent image.

ghost use Rattle.std.specs.Prelude.{◌≡◌, ◌≤◌, length, IfErr, IfOk, OnOk};
ghost use Rattle.checkpoint.specs.declared.image.TheConstants.{MAX_PAGES};
ghost use Rattle.image_findings.specs.Findings.{IsConsistent, engine_in, finding};
ghost use Rattle.image_findings.specs.ImageBytes.{IsOfBytes};
ghost use Rattle.image_findings.specs.Images.{ImageContents};
ghost use Rattle.laws_engine.specs.HoldsState.{HoldsState};
ghost use Rattle.laws_images.specs.ShowableEngines.{state_of};
ghost use Rattle.engine_image.specs.FoundFaults.{Refuses};
ghost use Rattle.engine_image.specs.MadeEngines.{CanBeMade, HasItsParts, IsMadeForest, IsOpenedOfBytes, MakesEngine, MayBeMade};
ghost use Rattle.engine_image.specs.OpenedImages.{contents_of};

use crate::bytes::{items_are_bytes, pages_are_bytes};
use crate::fault::ImageFault;
use crate::forest::OpenedForest;
use crate::opening::OpenedImage;
use crate::tables::made_tables;
use btree_inplace::nodes_of_a_tree_rise;
use checkpoint::Image;
use engine_parts::Engine;
use image_contents::{
    values_that_are_not_broken_are_whole, whole_values_with_references_are_a_store,
};
use image_findings::{
    an_engine_of_a_consistent_image_holds_its_state, each_check_of_a_consistent_image_passes,
};
use jet_base::OutOfMemory;
use jet_catalog::Catalog;
use live_part::LoadedPart;
use own_images::{
    the_tables_of_a_consistent_image_are_a_store, the_trees_of_a_consistent_image_are_of_a_store,
    what_a_store_of_a_consistent_image_shows,
};
use page_space::Space;
use std::alloc::Global;
use table_trees::TableTrees;
use table_versions::TableVersions;

/// The catalog of a database and the trees of its tables, in the space that they share.
#[derive(Drop)]
pub(crate) struct MadeForest {
    catalog: Catalog,
    trees: TableTrees,
}

/// The trees of a sound image: the tables have the trees that were opened for them, and the nodes of the catalog are written as the
/// engine keeps them.
#[tactic(none)]
fn made_forest(alloc: Global, space: Space, forest: OpenedForest) -> Result<MadeForest, OutOfMemory>
    requires { (image : ImageContents) × MayBeMade image space forest }
    ensures { IfOk result (λ made. (image : ImageContents) → MayBeMade image space forest → IsMadeForest image made) }
{
    values_that_are_not_broken_are_whole();
    whole_values_with_references_are_a_store();
    let mut space = space;
    let mut opened = forest.catalog;
    match made_tables(alloc, opened.catalog.tables(), forest.trees) {
        Ok(tables) => {
            opened.write_as_kept(&mut space);
            let trees = TableTrees::of(space, Some(opened.tree), tables);
            Ok(MadeForest {
                catalog: opened.catalog,
                trees,
            })
        }
        Err(fault) => Err(fault),
    }
}

/// The engine of the parts of a consistent image. The next put is of an entry behind those of the image.
#[tactic(none)]
fn engine_of(alloc: Global, limit: u64, number: u64, made: MadeForest, live: LoadedPart) -> Engine
    requires { (image : ImageContents) × HasItsParts image number made live }
    ensures { (image : ImageContents) → HasItsParts image number made live → result ≡ engine_in limit image }
{
    the_tables_of_a_consistent_image_are_a_store();
    what_a_store_of_a_consistent_image_shows();
    let tables = TableVersions::of(alloc, made.catalog, made.trees, live.versions, number);
    Engine {
        alloc,
        limit,
        number,
        sessions: live.sessions,
        tables,
    }
}

impl OpenedImage {
    /// The engine of an image that is opened and of which nothing is found. Only want of memory refuses it.
    #[tactic(none)]
    fn engine(self, alloc: Global, limit: u64) -> Result<Engine, ImageFault>
        requires { (image : ImageContents) × CanBeMade image self }
        ensures { (image : ImageContents) → CanBeMade image self → MakesEngine limit image result }
    {
        each_check_of_a_consistent_image_passes();
        the_trees_of_a_consistent_image_are_of_a_store();
        nodes_of_a_tree_rise();
        match made_forest(alloc, self.space, self.forest) {
            Ok(made) => Ok(engine_of(alloc, limit, self.number, made, self.live.part)),
            Err(_) => Err(ImageFault::OutOfMemory),
        }
    }

    /// The engine of an image that is opened, or what is found first of it.
    #[tactic(none)]
    fn checked_engine(self, alloc: Global, limit: u64) -> Result<Engine, ImageFault>
        requires { (image : ImageContents) × IsOpenedOfBytes image self }
        ensures { (image : ImageContents) → IsOpenedOfBytes image self → MakesEngine limit image result }
    {
        match self.check(alloc) {
            Ok(()) => self.engine(alloc, limit),
            Err(fault) => Err(fault),
        }
    }
}

/// An engine of an image, or what is found first of it. The limit is that of the version store's span, in bytes.
///
/// The engine has the image's number, its tables, its sessions, and the changes that it holds, but for those that are undone. It holds
/// the state that the image shows, as one does that lawful entries led to. The pages of the image move, and none is copied; those of
/// the catalog that another writer spelled otherwise are written as the engine keeps them. The time it takes is near linear in the image.
///
/// An image that is not consistent is refused, and so is any for which there is no memory. It is dropped then.
#[tactic(none)]
pub fn from_image(alloc: Global, limit: u64, image: Image) -> Result<Engine, ImageFault>
    requires { length image.pages.items ≤ MAX_PAGES }
    ensures engine { IfOk result (λ engine. engine ≡ engine_in limit (contents_of image)) }
    ensures holds { IfOk result (λ engine. HoldsState engine (state_of engine)) }
    ensures consistent { OnOk result (IsConsistent (contents_of image)) }
    ensures bytes { OnOk result (IsOfBytes (contents_of image)) }
    ensures fault { IfErr result (Refuses (finding (contents_of image))) }
{
    an_engine_of_a_consistent_image_holds_its_state();
    items_are_bytes(image.live.as_slice());
    pages_are_bytes(image.pages.as_slice());
    match OpenedImage::open(alloc, image) {
        Ok(opened) => opened.checked_engine(alloc, limit),
        Err(fault) => Err(fault),
    }
}
