//! A checkpoint is written: its pages, and then its file.

ghost use Rattle.std.specs.Prelude.{◌≡◌, ◌≢◌, ◌⊎◌, ℕ, ◌+◌, ◌<◌, ◌≤◌, ◌^◌, List, Some, None, length, slice_index_or, OnErr, OnOk};
ghost use Rattle.jet_io.specs.Faults.{CountsFault};
ghost use Rattle.jet_volume.specs.Crash.{CrashLeaves};
ghost use Rattle.checkpoint.specs.declared.image.TheConstants.{MAX_LIVE_BYTES, MAX_PAGES};
ghost use Rattle.checkpoint.specs.declared.rest.TheConstants.{MAX_OFFSET};
ghost use Rattle.checkpoint.specs.Opening.{HasCheckpoint};
ghost use Rattle.checkpoint.specs.Shape.{HasOwnNumber, IsInShape, IsStanding, contents_of, contents_with};
ghost use Rattle.checkpoint.specs.Steps.{EachFollows, IsDirty, KeepsOrBrings, KeepsOrTakesSlot, SparesClean, TakesSlot};

use crate::image::{Image, Standing};
use crate::pages::write_pages;
use crate::rest::{FORMAT_VERSION, Head, write_file};
use jet_io::Failed;
use jet_volume::{LogStart, Volume};
use page_image::Page;
use std::mem;

/// The volume failed, and its count of faults rose in the call.
pub type VolumeFault = Failed;

/// Writes the pages and then the file of the next checkpoint. It leaves in `slots` the slot of each page.
fn write_parts<V: Volume>(
    volume: &mut V,
    head: Head,
    pages: &[Option<Page>],
    slots: &mut [u8],
    live: &[u8],
    standing: &Standing,
) -> Result<(), Failed>
    requires few { length pages.now ≤ MAX_PAGES }
    requires slots { length slots.old ≡ length pages.now }
    requires own { (p : ℕ) → HasOwnNumber pages.now p }
    requires fits { length live.now ≤ MAX_LIVE_BYTES }
    requires next { head.number ≡ standing.now.number + 1 }
    requires generation { 1 ≤ head.start.generation }
    requires offset { head.start.offset ≤ MAX_OFFSET }
    ensures written { OnOk result (V.tells_contents → CrashLeaves V.moment V.left_at volume.old (IsStanding standing.now)
        → CrashLeaves V.moment V.left_at volume.new (λ files. HasCheckpoint files (contents_with head slots.new live.now) pages.now)) }
    ensures each_moment { V.tells_contents → CrashLeaves V.moment V.left_at volume.old (IsStanding standing.now)
        → EachFollows V.moment V.left_at (KeepsOrBrings (λ s. contents_with head s live.now) pages.now) volume.old volume.new }
    ensures slots { OnOk result ((p : ℕ) → p < length pages.now
        → TakesSlot (slice_index_or standing.now.pages.items p None) (slice_index_or standing.now.slots.items p 2) (slice_index_or pages.now p None) (slice_index_or slots.new p 2)) }
    ensures left_slots { (p : ℕ) → p < length pages.now
        → KeepsOrTakesSlot (slice_index_or standing.now.pages.items p None) (slice_index_or standing.now.slots.items p 2) (slice_index_or pages.now p None) (slice_index_or slots.old p 2) (slice_index_or slots.new p 2) }
    ensures clean { V.tells_contents → EachFollows V.moment V.left_at
        (SparesClean (λ p. IsDirty (slice_index_or standing.now.pages.items p None) (slice_index_or standing.now.slots.items p 2) (slice_index_or pages.now p None))) volume.old volume.new }
    ensures log { V.tells_contents → (V.seen volume.new).log ≡ (V.seen volume.old).log }
    ensures faults { CountsFault result (V.faults volume.old) (V.faults volume.new) }
    ensures identity { V.identity volume.new ≡ V.identity volume.old }
{
    write_pages(volume, pages, slots, standing)?;
    write_file(volume, head, slots, live)
}

/// Writes an image as the next checkpoint, whose log goes on at `start`. It takes no memory.
///
/// Pages whose bytes are those of the standing checkpoint keep their slots and are not written. On success the
/// image has the pages and slots of the checkpoint that stood before, and `standing` is the new one. After a fault
/// `standing` is unchanged, and the image is in shape: it has its pages, and each of its slots is the one from before
/// or the one where the page goes.
pub fn write<V: Volume>(
    volume: &mut V,
    image: &mut Image,
    start: LogStart,
    standing: &mut Standing,
) -> Result<(), VolumeFault>
    requires shape { IsInShape image.old }
    requires generation { 1 ≤ start.generation }
    requires offset { start.offset ≤ MAX_OFFSET }
    requires number { standing.old.number < 2 ^ 63 }
    ensures written { OnOk result (V.tells_contents → CrashLeaves V.moment V.left_at volume.old (IsStanding standing.old)
        → CrashLeaves V.moment V.left_at volume.new (λ files. HasCheckpoint files (contents_of (standing.old.number + 1) start standing.new.slots.items image.old) image.old.pages.items)) }
    ensures each_moment { V.tells_contents → CrashLeaves V.moment V.left_at volume.old (IsStanding standing.old)
        → EachFollows V.moment V.left_at (KeepsOrBrings (λ slots. contents_of (standing.old.number + 1) start slots image.old) image.old.pages.items) volume.old volume.new }
    ensures slots { OnOk result ((p : ℕ) → p < length image.old.pages.items
        → TakesSlot (slice_index_or standing.old.pages.items p None) (slice_index_or standing.old.slots.items p 2) (slice_index_or image.old.pages.items p None) (slice_index_or standing.new.slots.items p 2)) }
    // What is not dirty is not written.
    ensures clean { V.tells_contents → EachFollows V.moment V.left_at
        (SparesClean (λ p. IsDirty (slice_index_or standing.old.pages.items p None) (slice_index_or standing.old.slots.items p 2) (slice_index_or image.old.pages.items p None))) volume.old volume.new }
    ensures count { OnOk result (length standing.new.slots.items ≡ length image.old.pages.items) }
    ensures number { OnOk result (standing.new.number ≡ standing.old.number + 1) }
    ensures format { OnOk result (standing.new.format ≡ FORMAT_VERSION) }
    ensures start { OnOk result (standing.new.start ≡ start) }
    ensures pages { OnOk result (standing.new.pages.items ≡ image.old.pages.items) }
    ensures old_pages { OnOk result (image.new.pages.items ≡ standing.old.pages.items) }
    ensures old_slots { OnOk result (image.new.slots.items ≡ standing.old.slots.items) }
    ensures log { V.tells_contents → (V.seen volume.new).log ≡ (V.seen volume.old).log }
    ensures kept { (image.new.number ≡ image.old.number) × (image.new.catalog_root ≡ image.old.catalog_root) × (image.new.live.items ≡ image.old.live.items) }
    ensures same_pages { OnErr result (image.new.pages.items ≡ image.old.pages.items) }
    ensures same_shape { OnErr result (IsInShape image.new) }
    ensures left_slots { OnErr result ((p : ℕ) → p < length image.old.pages.items
        → KeepsOrTakesSlot (slice_index_or standing.old.pages.items p None) (slice_index_or standing.old.slots.items p 2) (slice_index_or image.old.pages.items p None) (slice_index_or image.old.slots.items p 2) (slice_index_or image.new.slots.items p 2)) }
    ensures unchanged { OnErr result (standing.new ≡ standing.old) }
    ensures faults { CountsFault result (V.faults volume.old) (V.faults volume.new) }
    ensures identity { V.identity volume.new ≡ V.identity volume.old }
{
    let head = Head {
        number: standing.number + 1,
        entries: image.number,
        start,
        catalog_root: image.catalog_root,
    };
    match write_parts(
        volume,
        head,
        &image.pages,
        &mut image.slots,
        &image.live,
        standing,
    ) {
        Ok(()) => {
            take_over(image, head.number, start, standing);
            Ok(())
        }
        Err(Failed) => Err(Failed),
    }
}

/// The image that was written is the one that stands, and has what stood before.
fn take_over(image: &mut Image, number: u64, start: LogStart, standing: &mut Standing)
    ensures image { image.new ≡ record image.old { pages = standing.old.pages; slots = standing.old.slots } }
    ensures standing { standing.new ≡ record { number = number; format = FORMAT_VERSION; start = start; pages = image.old.pages; slots = image.old.slots } }
{
    mem::swap(&mut image.pages, &mut standing.pages);
    mem::swap(&mut image.slots, &mut standing.slots);
    standing.number = number;
    standing.format = FORMAT_VERSION;
    standing.start = start;
}
