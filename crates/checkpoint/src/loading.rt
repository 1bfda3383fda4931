//! The pages of a checkpoint are read from their slots.

ghost use Rattle.std.specs.Prelude.{◌≡◌, ◌<◌, ◌≤◌, ℕ, List, ◌∷◌, [], ◌++◌, Some, None, Option, Err, length, IfOk, IfSome, MatchOption, MatchResult, OnOk, OnErr, slice_index_or, true};
ghost use Rattle.std.specs.List.{list_all};
ghost use Rattle.jet_io.specs.Faults.{CountsFault};
ghost use Rattle.page_image.specs.Page.{IsPage, PageContents, page_bytes};
ghost use Rattle.checkpoint.specs.declared.image.TheConstants.{MAX_PAGES};
ghost use Rattle.checkpoint.specs.Contents.{is_slot};
ghost use Rattle.checkpoint.specs.Opening.{HasBadSlot, HoldsPage};
ghost use Rattle.checkpoint.specs.Shape.{HasOwnNumber};
ghost use Rattle.checkpoint.specs.Found.{CountsCheckFault, HoldsOnly};
ghost use Rattle.checkpoint.specs.Parts.{BearsNumber, ExplainsSlots, IsBadSlot, LooksOnly, SaysOnly};

use crate::fault::CheckFault;
use crate::pages::{FREE, slot_start};
use jet_base::OutOfMemory;
use jet_io::Failed;
use jet_volume::{File, Volume};
use page_image::{PAGE_BYTES, Page};
use std::alloc::Global;

/// The page that the bytes spell, where it bears this number.
fn page_in(bytes: [u8; PAGE_BYTES], number: usize) -> Option<Page>
    ensures found { IfSome result (λ page. IsPage page × (bytes ≡ page_bytes page) × (page.number ≡ number)) }
    ensures only { (page : PageContents) → IsPage page → bytes ≡ page_bytes page → page.number ≡ number → result ≡ Some page }
{
    match Page::check(bytes) {
        Ok(page) => {
            if page.number() as usize == number {
                Some(page)
            } else {
                None
            }
        }
        Err(_) => None,
    }
}

/// Reads the page in a slot, `None` where the slot is not whole, or holds no page of this number.
fn read_page<V: Volume>(volume: &mut V, number: usize, slot: u8) -> Result<Option<Page>, Failed>
    requires few { number < MAX_PAGES }
    requires slot { slot < 2 }
    ensures holds { IfOk result (λ found. V.tells_contents → IfSome found (HoldsPage (V.seen volume.old).database number slot)) }
    ensures only { IfOk result (λ found. V.tells_contents → (page : PageContents) → HoldsPage (V.seen volume.old).database number slot page → found ≡ Some page) }
    ensures own { IfOk result (BearsNumber number) }
    ensures seen { V.seen volume.new ≡ V.seen volume.old }
    ensures quiet { LooksOnly V.moment V.left_at volume.old volume.new }
    ensures faults { CountsFault result (V.faults volume.old) (V.faults volume.new) }
    ensures identity { V.identity volume.new ≡ V.identity volume.old }
{
    let mut bytes = [0; PAGE_BYTES];
    match volume.read(File::Database, slot_start(number, slot), &mut bytes) {
        Ok(count) => {
            if count == PAGE_BYTES {
                Ok(page_in(bytes, number))
            } else {
                Ok(None)
            }
        }
        Err(fault) => Err(fault),
    }
}

/// Reads what a slot says of its page: `None` where the page is free.
fn read_slot<V: Volume>(volume: &mut V, number: usize, slot: u8) -> Result<Option<Page>, CheckFault>
    requires few { number < MAX_PAGES }
    requires slot { slot ≤ 2 }
    ensures says { V.tells_contents → MatchResult result (SaysOnly (V.seen volume.old).database number slot) (ExplainsSlots (IsBadSlot (V.seen volume.old).database number slot)) }
    ensures own { IfOk result (BearsNumber number) }
    ensures seen { V.seen volume.new ≡ V.seen volume.old }
    ensures quiet { LooksOnly V.moment V.left_at volume.old volume.new }
    ensures faults { CountsCheckFault result (V.faults volume.old) (V.faults volume.new) }
    ensures identity { V.identity volume.new ≡ V.identity volume.old }
{
    if slot == FREE {
        return Ok(None);
    }
    match read_page(volume, number, slot) {
        Ok(Some(page)) => Ok(Some(page)),
        Ok(None) => Err(CheckFault::ReadVerifyFailure),
        Err(_) => Err(CheckFault::VolumeFault),
    }
}

/// Reads what a slot says of its page, and puts it behind the pages before.
fn load_slot<V: Volume>(
    volume: &mut V,
    number: usize,
    slot: u8,
    pages: &mut Vec<Option<Page>>,
) -> Result<(), CheckFault>
    requires few { number < MAX_PAGES }
    requires slot { slot ≤ 2 }
    ensures page { OnOk result ((page : Option PageContents) × (pages.new.items ≡ pages.old.items ++ page ∷ []) × BearsNumber number page
        × (V.tells_contents → SaysOnly (V.seen volume.old).database number slot page)) }
    ensures refused { V.tells_contents → MatchResult result (λ _. Unit {0}) (ExplainsSlots (IsBadSlot (V.seen volume.old).database number slot)) }
    ensures seen { V.seen volume.new ≡ V.seen volume.old }
    ensures quiet { LooksOnly V.moment V.left_at volume.old volume.new }
    ensures faults { CountsCheckFault result (V.faults volume.old) (V.faults volume.new) }
    ensures identity { V.identity volume.new ≡ V.identity volume.old }
{
    match read_slot(volume, number, slot) {
        Ok(page) => match pages.push(page) {
            Ok(()) => Ok(()),
            Err(_) => Err(CheckFault::OutOfMemory),
        },
        Err(fault) => Err(fault),
    }
}

/// Reads the pages in these slots, up to the first that is bad.
fn load_pages<V: Volume>(
    volume: &mut V,
    slots: &[u8],
    pages: &mut Vec<Option<Page>>,
) -> Result<(), CheckFault>
    requires few { length slots.now ≤ MAX_PAGES }
    requires slots { list_all is_slot slots.now ≡ true }
    requires none { pages.old.items ≡ [] }
    ensures pages { OnOk result (V.tells_contents → HoldsOnly (V.seen volume.old).database slots.now pages.new.items) }
    ensures count { OnOk result (length pages.new.items ≡ length slots.now) }
    ensures own { OnOk result ((p : ℕ) → HasOwnNumber pages.new.items p) }
    ensures refused { V.tells_contents → MatchResult result (λ _. Unit {0}) (ExplainsSlots (HasBadSlot (V.seen volume.old).database slots.now)) }
    ensures seen { V.seen volume.new ≡ V.seen volume.old }
    ensures quiet { LooksOnly V.moment V.left_at volume.old volume.new }
    ensures faults { CountsCheckFault result (V.faults volume.old) (V.faults volume.new) }
    ensures identity { V.identity volume.new ≡ V.identity volume.old }
{
    for number in 0..slots.len() {
        match load_slot(volume, number, slots[number], pages) {
            Ok(()) => {}
            Err(fault) => return Err(fault),
        }
    }
    Ok(())
}

/// Reads the pages in these slots.
pub fn read_pages<V: Volume>(
    alloc: Global,
    volume: &mut V,
    slots: &[u8],
) -> Result<Vec<Option<Page>>, CheckFault>
    requires few { length slots.now ≤ MAX_PAGES }
    requires slots { list_all is_slot slots.now ≡ true }
    ensures pages { V.tells_contents → MatchResult result (λ pages. HoldsOnly (V.seen volume.old).database slots.now pages.items) (ExplainsSlots (HasBadSlot (V.seen volume.old).database slots.now)) }
    ensures count { IfOk result (λ pages. length pages.items ≡ length slots.now) }
    ensures own { IfOk result (λ pages. (p : ℕ) → HasOwnNumber pages.items p) }
    ensures seen { V.seen volume.new ≡ V.seen volume.old }
    ensures quiet { LooksOnly V.moment V.left_at volume.old volume.new }
    ensures faults { CountsCheckFault result (V.faults volume.old) (V.faults volume.new) }
    ensures identity { V.identity volume.new ≡ V.identity volume.old }
{
    match Vec::with_capacity(alloc, slots.len()) {
        Ok(mut pages) => match load_pages(volume, slots, &mut pages) {
            Ok(()) => Ok(pages),
            Err(fault) => Err(fault),
        },
        Err(_) => Err(CheckFault::OutOfMemory),
    }
}

/// A copy of a page.
fn copy_of(page: &Page) -> Option<Page>
    ensures { result ≡ Some page.now }
{
    let _nodes = page.len();
    Page::check(page.bytes()).ok()
}

/// A copy of what stands at a place of the list of pages.
fn copy_at(pages: &[Option<Page>], number: usize) -> Option<Page>
    requires { number < length pages.now }
    ensures { result ≡ slice_index_or pages.now number None }
{
    match &pages[number] {
        Some(page) => copy_of(page),
        None => None,
    }
}

/// A copy of pages.
pub fn copy_pages(alloc: Global, pages: &[Option<Page>]) -> Result<Vec<Option<Page>>, OutOfMemory>
    ensures { IfOk result (λ copy. copy.items ≡ pages.now) }
{
    let mut copy = Vec::with_capacity(alloc, pages.len())?;
    for number in 0..pages.len() {
        copy.push(copy_at(pages, number))?;
    }
    Ok(copy)
}
