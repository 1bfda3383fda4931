//! An engine written to an image.

ghost use Rattle.std.specs.Prelude.{◌≡◌, length, IfOk};
ghost use Rattle.database_state.specs.State.{DatabaseState};
ghost use Rattle.laws_engine.specs.EngineState.{HasRoomForEnds};
ghost use Rattle.laws_engine.specs.HoldsState.{HoldsState};
ghost use Rattle.laws_images.specs.SoundStates.{IsSoundState};
ghost use Rattle.checkpoint.specs.Shape.{IsInShape};
ghost use Rattle.image_writing.specs.EngineImages.{ShowsEngine, contents_of};

use crate::live::written_live;
use crate::pages::tree_pages;
use checkpoint::Image;
use engine_parts::Engine;
use jet_base::OutOfMemory;
use own_images::{
    an_engine_image_is_consistent, the_engine_of_an_own_image_is_settled,
    the_live_part_of_an_engine_can_be_written,
};
use std::alloc::Global;

/// The slot of a page that stands in none yet.
const NO_SLOT: u8 = 2;

/// The image of an engine, as it stands: its number, the pages of its trees, each copied once, without a checksum made or a node
/// looked at, and its live part, which has no change that is undone. No page stands in a slot yet.
///
/// It takes as much memory as the pages and the live part. An image of more bytes than a checkpoint may have is refused as for want
/// of memory.
pub fn image(alloc: Global, engine: &Engine) -> Result<Image, OutOfMemory>
    ensures shape { IfOk result IsInShape }
    ensures number { IfOk result (λ image. image.number ≡ engine.now.number) }
    // A state within its limits that the engine holds, and that has room for all that is to end, is shown by a consistent image.
    ensures shows { IfOk result (λ image. (state : DatabaseState) → HoldsState engine.now state → IsSoundState state → HasRoomForEnds engine.now → ShowsEngine engine.now state (contents_of image)) }
{
    the_live_part_of_an_engine_can_be_written();
    an_engine_image_is_consistent();
    the_engine_of_an_own_image_is_settled();
    let parts = engine.tables.parts();
    parts.trees.nodes_are_in_order();
    parts.trees.long_values_are_whole();
    parts.trees.entries_are_in_order();
    let own = tree_pages(alloc, parts.trees)?;
    let live = written_live(alloc, &engine.sessions, parts.versions)?;
    let slots = vec![in alloc; NO_SLOT; own.pages.len()]?;
    Ok(Image {
        number: engine.number,
        pages: own.pages,
        slots,
        catalog_root: own.root,
        live,
    })
}
