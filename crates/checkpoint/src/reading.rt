//! The checkpoint that stands on a volume is read.

ghost use Rattle.std.specs.Prelude.{◌≡◌, ◌<◌, ◌≤◌, ◌^◌, ℕ, true, Some, None, length, IfOk, MatchResult};
ghost use Rattle.std.specs.List.{list_all};
ghost use Rattle.checkpoint.specs.declared.image.TheConstants.{MAX_LIVE_BYTES, MAX_PAGES};
ghost use Rattle.checkpoint.specs.declared.rest.TheConstants.{MAX_OFFSET};
ghost use Rattle.checkpoint.specs.Contents.{is_slot};
ghost use Rattle.checkpoint.specs.Opening.{looked_at};
ghost use Rattle.checkpoint.specs.Shape.{HasOwnNumber, IsStanding, contents_with};
ghost use Rattle.checkpoint.specs.Found.{CountsCheckFault, Explains, Finds, FindsImage, IsAnswer, IsImageOf, IsNothing, IsWithinBounds, contents_read};
ghost use Rattle.checkpoint.specs.Parts.{IsLookedAt, LooksOnly};

use crate::fault::CheckFault;
use crate::file::{FileContents, read_file};
use crate::image::{Found, Image, Standing};
use crate::loading::{copy_pages, read_pages};
use crate::looking::look;
use crate::rest::FORMAT_VERSION;
use jet_base::OutOfMemory;
use jet_volume::{File, LogStart, Volume};
use page_image::Page;
use std::alloc::Global;

/// What stands on a new volume.
fn nothing(alloc: Global) -> Standing
    ensures { IsNothing result }
{
    Standing {
        number: 0,
        format: FORMAT_VERSION,
        start: LogStart {
            generation: 1,
            offset: 0,
            position: 0,
        },
        pages: Vec::new(alloc),
        slots: Vec::new(alloc),
    }
}

/// Reads a volume where no gate is open: it is new where its log has no byte.
fn read_new<V: Volume>(alloc: Global, volume: &mut V) -> Result<(Found, Standing), CheckFault>
    ensures answer { V.tells_contents → looked_at (V.seen volume.old) ≡ None → MatchResult result (λ r. Finds (V.seen volume.old) r.0 r.1) (Explains (V.seen volume.old)) }
    ensures form { IfOk result (λ r. IsAnswer r.0 r.1) }
    ensures bounds { IfOk result (λ r. (r.1.number < 2 ^ 62) × (1 ≤ r.1.start.generation) × (r.1.start.generation < 2 ^ 62) × (r.1.start.offset ≤ MAX_OFFSET) × (r.1.start.position < 2 ^ 62)) }
    ensures seen { V.seen volume.new ≡ V.seen volume.old }
    ensures quiet { LooksOnly V.moment V.left_at volume.old volume.new }
    ensures faults { CountsCheckFault result (V.faults volume.old) (V.faults volume.new) }
    ensures identity { V.identity volume.new ≡ V.identity volume.old }
{
    match volume.size(File::Log) {
        Ok(size) => {
            if size == 0 {
                Ok((Found::New, nothing(alloc)))
            } else {
                Err(CheckFault::CheckpointCorrupt)
            }
        }
        Err(_) => Err(CheckFault::VolumeFault),
    }
}

/// The image that a file tells, with its pages, and the standing checkpoint with copies of them.
fn image_of(
    alloc: Global,
    told: FileContents,
    pages: Vec<Option<Page>>,
) -> Result<(Image, Standing), OutOfMemory>
    requires bounds { IsWithinBounds told.head.number told.head.entries told.head.start }
    requires count { length pages.items ≡ length told.slots.items }
    requires few { length told.slots.items ≤ MAX_PAGES }
    requires live { length told.live.items ≤ MAX_LIVE_BYTES }
    requires own { (p : ℕ) → HasOwnNumber pages.items p }
    ensures form { IfOk result (λ r. IsImageOf r.0 r.1) }
    ensures contents { IfOk result (λ r. contents_read r.0 r.1 ≡ contents_with told.head told.slots.items told.live.items) }
    ensures slots { IfOk result (λ r. r.0.slots.items ≡ told.slots.items) }
    ensures pages { IfOk result (λ r. r.0.pages.items ≡ pages.items) }
{
    let copies = copy_pages(alloc, &pages)?;
    let slots = told.slots.to_vec(alloc)?;
    let image = Image {
        number: told.head.entries,
        pages,
        slots,
        catalog_root: told.head.catalog_root,
        live: told.live,
    };
    let standing = Standing {
        number: told.head.number,
        format: FORMAT_VERSION,
        start: told.head.start,
        pages: copies,
        slots: told.slots,
    };
    Ok((image, standing))
}

/// Reads the pages of what a file tells.
fn read_image<V: Volume>(
    alloc: Global,
    volume: &mut V,
    told: FileContents,
) -> Result<(Found, Standing), CheckFault>
    requires bounds { IsWithinBounds told.head.number told.head.entries told.head.start }
    requires slots { list_all is_slot told.slots.items ≡ true }
    requires few { length told.slots.items ≤ MAX_PAGES }
    requires live { length told.live.items ≤ MAX_LIVE_BYTES }
    ensures answer { V.tells_contents → IsLookedAt told (V.seen volume.old) → MatchResult result (λ r. Finds (V.seen volume.old) r.0 r.1) (Explains (V.seen volume.old)) }
    ensures form { IfOk result (λ r. IsAnswer r.0 r.1) }
    ensures bounds { IfOk result (λ r. (r.1.number < 2 ^ 62) × (1 ≤ r.1.start.generation) × (r.1.start.generation < 2 ^ 62) × (r.1.start.offset ≤ MAX_OFFSET) × (r.1.start.position < 2 ^ 62)) }
    ensures seen { V.seen volume.new ≡ V.seen volume.old }
    ensures quiet { LooksOnly V.moment V.left_at volume.old volume.new }
    ensures faults { CountsCheckFault result (V.faults volume.old) (V.faults volume.new) }
    ensures identity { V.identity volume.new ≡ V.identity volume.old }
{
    match read_pages(alloc, volume, &told.slots) {
        Ok(pages) => match image_of(alloc, told, pages) {
            Ok((image, standing)) => Ok((Found::Old(image), standing)),
            Err(_) => Err(CheckFault::OutOfMemory),
        },
        Err(fault) => Err(fault),
    }
}

/// Reads the checkpoint in the file that is looked at.
fn read_old<V: Volume>(
    alloc: Global,
    volume: &mut V,
    file: File,
) -> Result<(Found, Standing), CheckFault>
    ensures answer { V.tells_contents → looked_at (V.seen volume.old) ≡ Some file → MatchResult result (λ r. Finds (V.seen volume.old) r.0 r.1) (Explains (V.seen volume.old)) }
    ensures form { IfOk result (λ r. IsAnswer r.0 r.1) }
    ensures bounds { IfOk result (λ r. (r.1.number < 2 ^ 62) × (1 ≤ r.1.start.generation) × (r.1.start.generation < 2 ^ 62) × (r.1.start.offset ≤ MAX_OFFSET) × (r.1.start.position < 2 ^ 62)) }
    ensures seen { V.seen volume.new ≡ V.seen volume.old }
    ensures quiet { LooksOnly V.moment V.left_at volume.old volume.new }
    ensures faults { CountsCheckFault result (V.faults volume.old) (V.faults volume.new) }
    ensures identity { V.identity volume.new ≡ V.identity volume.old }
{
    match read_file(alloc, volume, file) {
        Ok(told) => read_image(alloc, volume, told),
        Err(fault) => Err(fault),
    }
}

/// Reads the checkpoint that stands on a volume. It writes nothing, and any bytes are safe to read.
///
/// A volume is new where no gate is open and the log has no byte. Else the refusals come in this order: no gate is
/// open, or the file that is looked at is no checkpoint file; one of its numbers is 2^62 or more; a slot in use is bad.
/// What the pages and the live part mean is not looked at.
pub fn read<V: Volume>(alloc: Global, volume: &mut V) -> Result<(Found, Standing), CheckFault>
    ensures answer { V.tells_contents → MatchResult result (λ r. Finds (V.seen volume.old) r.0 r.1) (Explains (V.seen volume.old)) }
    ensures form { IfOk result (λ r. IsAnswer r.0 r.1) }
    ensures bounds { IfOk result (λ r. (r.1.number < 2 ^ 62) × (1 ≤ r.1.start.generation) × (r.1.start.generation < 2 ^ 62) × (r.1.start.offset ≤ MAX_OFFSET) × (r.1.start.position < 2 ^ 62)) }
    ensures stands { V.tells_contents → IfOk result (λ r. IsStanding r.1 (V.seen volume.old)) }
    ensures seen { V.seen volume.new ≡ V.seen volume.old }
    ensures quiet { LooksOnly V.moment V.left_at volume.old volume.new }
    ensures faults { CountsCheckFault result (V.faults volume.old) (V.faults volume.new) }
    ensures identity { V.identity volume.new ≡ V.identity volume.old }
{
    match look(volume) {
        Ok(Some(file)) => read_old(alloc, volume, file),
        Ok(None) => read_new(alloc, volume),
        Err(_) => Err(CheckFault::VolumeFault),
    }
}
