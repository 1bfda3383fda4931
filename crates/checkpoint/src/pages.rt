//! The first part of writing a checkpoint: dirty pages go into slots that are not in use.

ghost use Rattle.std.specs.Prelude.{◌≡◌, ◌≢◌, ◌⊎◌, ℕ, ◌<◌, ◌≤◌, Some, None, length, slice_index_or, MatchOption, IfOk, OnOk, IsTrue, ◌↔◌};
ghost use Rattle.jet_io.specs.Faults.{CountsFault};
ghost use Rattle.jet_volume.specs.Image.{SameBut};
ghost use Rattle.jet_volume.specs.Crash.{CrashLeaves};
ghost use Rattle.page_image.specs.Page.{IsPage, page_bytes};
ghost use Rattle.checkpoint.specs.declared.image.TheConstants.{MAX_PAGES};
ghost use Rattle.checkpoint.specs.Opening.{SlotSays, slot_start};
ghost use Rattle.checkpoint.specs.Shape.{HasOwnNumber};
ghost use Rattle.checkpoint.specs.Steps.{EachFollows, HasSameBytes, IsDirty, KeepsOrTakesSlot, SparesAllBut, SparesClean, SparesSlots, TakesSlot, other_slot};

use crate::image::Standing;
use jet_io::Failed;
use jet_volume::{File, Volume};
use page_image::{PAGE_BYTES, Page};

/// The mark of a free page among the slots.
pub const FREE: u8 = 2;

/// Where a slot of a page begins in the database file.
pub fn slot_start(page: usize, slot: u8) -> u64
    requires page { page < MAX_PAGES }
    requires slot { slot < 2 }
    ensures { result ≡ slot_start page slot }
{
    PAGE_BYTES as u64 * (2 * page as u64 + slot as u64)
}

/// The slot of a page in the standing checkpoint, 2 where it has no page of that number.
fn used_slot(standing: &Standing, number: usize) -> u8
    ensures { result ≡ slice_index_or standing.now.slots.items number 2 }
{
    if number < standing.slots.len() {
        standing.slots[number]
    } else {
        FREE
    }
}

/// Whether the standing checkpoint has a page of that number with the same bytes.
fn has_same_bytes(standing: &Standing, number: usize, page: &Page) -> bool
    ensures { IsTrue result ↔ HasSameBytes (slice_index_or standing.now.pages.items number None) page.now }
{
    if number >= standing.pages.len() {
        return false;
    }
    match &standing.pages[number] {
        None => false,
        Some(old) => old.has_same_bytes(page),
    }
}

/// The slot of a page other than the one in use, the first where none is.
fn unused_slot(slot: u8) -> u8
    ensures value { result ≡ other_slot slot }
    ensures within { result < 2 }
{
    if slot == 0 { 1 } else { 0 }
}

/// The bytes of a page, as they are stored.
fn bytes_of(page: &Page) -> [u8; PAGE_BYTES]
    ensures value { result ≡ page_bytes page.now }
    ensures whole { length result ≡ PAGE_BYTES }
    ensures is_page { IsPage page.now }
{
    let _nodes = page.len();
    page.bytes()
}

/// Writes a page into the slot that is not in use, where it is dirty. Answers the slot that it is in.
fn write_page<V: Volume>(
    volume: &mut V,
    number: usize,
    page: &Option<Page>,
    standing: &Standing,
) -> Result<u8, Failed>
    requires few { number < MAX_PAGES }
    requires own { MatchOption page.now (Unit {0}) (λ p. p.number ≡ number) }
    ensures slot { IfOk result (λ next. TakesSlot (slice_index_or standing.now.pages.items number None) (slice_index_or standing.now.slots.items number 2) page.now next) }
    ensures held { V.tells_contents → SlotSays (V.seen volume.old).database number (slice_index_or standing.now.slots.items number 2) (slice_index_or standing.now.pages.items number None)
        → IfOk result (λ next. SlotSays (V.seen volume.new).database number next page.now) }
    ensures spares { V.tells_contents → SparesAllBut number (other_slot (slice_index_or standing.now.slots.items number 2)) (V.seen volume.old) (V.seen volume.new) }
    ensures each { EachFollows V.moment V.left_at (SparesAllBut number (other_slot (slice_index_or standing.now.slots.items number 2))) volume.old volume.new }
    ensures clean { EachFollows V.moment V.left_at (SparesClean (λ p. (p ≡ number) × IsDirty (slice_index_or standing.now.pages.items number None) (slice_index_or standing.now.slots.items number 2) page.now)) volume.old volume.new }
    ensures faults { CountsFault result (V.faults volume.old) (V.faults volume.new) }
    ensures identity { V.identity volume.new ≡ V.identity volume.old }
{
    let Some(page) = page else {
        return Ok(FREE);
    };
    let _nodes = page.len();
    let used = used_slot(standing, number);
    if used < FREE && has_same_bytes(standing, number, page) {
        return Ok(used);
    }
    let slot = unused_slot(used);
    let bytes = bytes_of(page);
    match volume.write_at(File::Database, slot_start(number, slot), &bytes) {
        Ok(()) => Ok(slot),
        Err(Failed) => Err(Failed),
    }
}

/// Writes each dirty page into the slot that is not in use, and leaves in `slots` the slot of each page.
fn write_dirty<V: Volume>(
    volume: &mut V,
    pages: &[Option<Page>],
    slots: &mut [u8],
    standing: &Standing,
) -> Result<(), Failed>
    requires few { length pages.now ≤ MAX_PAGES }
    requires slots { length slots.old ≡ length pages.now }
    requires own { (p : ℕ) → HasOwnNumber pages.now p }
    ensures slots { OnOk result ((p : ℕ) → p < length pages.now → TakesSlot (slice_index_or standing.now.pages.items p None) (slice_index_or standing.now.slots.items p 2) (slice_index_or pages.now p None) (slice_index_or slots.new p 2)) }
    ensures left_slots { (p : ℕ) → p < length pages.now → KeepsOrTakesSlot (slice_index_or standing.now.pages.items p None) (slice_index_or standing.now.slots.items p 2) (slice_index_or pages.now p None) (slice_index_or slots.old p 2) (slice_index_or slots.new p 2) }
    ensures held { V.tells_contents → ((p : ℕ) → SlotSays (V.seen volume.old).database p (slice_index_or standing.now.slots.items p 2) (slice_index_or standing.now.pages.items p None))
        → OnOk result ((p : ℕ) → p < length pages.now → SlotSays (V.seen volume.new).database p (slice_index_or slots.new p 2) (slice_index_or pages.now p None)) }
    ensures spares { V.tells_contents → SparesSlots standing.now.slots.items (V.seen volume.old) (V.seen volume.new) }
    ensures each { EachFollows V.moment V.left_at (SparesSlots standing.now.slots.items) volume.old volume.new }
    ensures clean { EachFollows V.moment V.left_at (SparesClean (λ p. IsDirty (slice_index_or standing.now.pages.items p None) (slice_index_or standing.now.slots.items p 2) (slice_index_or pages.now p None))) volume.old volume.new }
    ensures faults { CountsFault result (V.faults volume.old) (V.faults volume.new) }
    ensures identity { V.identity volume.new ≡ V.identity volume.old }
{
    for number in 0..pages.len() {
        match write_page(volume, number, &pages[number], standing) {
            Ok(slot) => slots[number] = slot,
            Err(Failed) => return Err(Failed),
        }
    }
    Ok(())
}

/// Writes the dirty pages, and syncs the database file.
pub fn write_pages<V: Volume>(
    volume: &mut V,
    pages: &[Option<Page>],
    slots: &mut [u8],
    standing: &Standing,
) -> Result<(), Failed>
    requires few { length pages.now ≤ MAX_PAGES }
    requires slots { length slots.old ≡ length pages.now }
    requires own { (p : ℕ) → HasOwnNumber pages.now p }
    ensures slots { OnOk result ((p : ℕ) → p < length pages.now → TakesSlot (slice_index_or standing.now.pages.items p None) (slice_index_or standing.now.slots.items p 2) (slice_index_or pages.now p None) (slice_index_or slots.new p 2)) }
    ensures left_slots { (p : ℕ) → p < length pages.now → KeepsOrTakesSlot (slice_index_or standing.now.pages.items p None) (slice_index_or standing.now.slots.items p 2) (slice_index_or pages.now p None) (slice_index_or slots.old p 2) (slice_index_or slots.new p 2) }
    ensures held { V.tells_contents → ((p : ℕ) → SlotSays (V.seen volume.old).database p (slice_index_or standing.now.slots.items p 2) (slice_index_or standing.now.pages.items p None))
        → OnOk result ((p : ℕ) → p < length pages.now → SlotSays (V.seen volume.new).database p (slice_index_or slots.new p 2) (slice_index_or pages.now p None)) }
    ensures spares { V.tells_contents → SparesSlots standing.now.slots.items (V.seen volume.old) (V.seen volume.new) }
    ensures durable { OnOk result (CrashLeaves V.moment V.left_at volume.new (λ image. image.database ≡ (V.seen volume.new).database)) }
    ensures each { EachFollows V.moment V.left_at (SparesSlots standing.now.slots.items) volume.old volume.new }
    ensures clean { EachFollows V.moment V.left_at (SparesClean (λ p. IsDirty (slice_index_or standing.now.pages.items p None) (slice_index_or standing.now.slots.items p 2) (slice_index_or pages.now p None))) volume.old volume.new }
    ensures faults { CountsFault result (V.faults volume.old) (V.faults volume.new) }
    ensures identity { V.identity volume.new ≡ V.identity volume.old }
{
    match write_dirty(volume, pages, slots, standing) {
        Ok(()) => volume.sync(File::Database),
        Err(Failed) => Err(Failed),
    }
}
