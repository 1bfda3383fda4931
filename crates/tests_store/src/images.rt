//! Images of pages without a node.

ghost use Rattle.std.specs.Prelude.{◌≡◌, ◌≤◌, ℕ, length, IfOk, MatchOption};
ghost use Rattle.checkpoint.specs.Shape.{HasOwnNumber, IsInShape};

use checkpoint::Image;
use page_image::Page;
use std::alloc::{AllocError, Global};

/// A page of this kind without a node, `None` for every kind but 1 and 2.
fn page_of(number: u32, kind: u8) -> Option<Page>
    ensures { MatchOption result (Unit {0}) (λ page. page.number ≡ number) }
{
    if kind == 1 || kind == 2 {
        Some(Page::empty(number, kind))
    } else {
        None
    }
}

/// Pages of these kinds, in the order of their numbers: 1 or 2, and every other kind for a free page.
pub fn pages_of(alloc: Global, kinds: &[u8]) -> Result<Vec<Option<Page>>, AllocError>
    requires { length kinds.now ≤ 16777216 }
    ensures count { IfOk result (λ pages. length pages.items ≡ length kinds.now) }
    ensures own { IfOk result (λ pages. (p : ℕ) → HasOwnNumber pages.items p) }
{
    let mut pages = Vec::new(alloc);
    for number in 0..kinds.len() {
        pages.push(page_of(number as u32, kinds[number]))?;
    }
    Ok(pages)
}

/// An image of so many log entries with pages of these kinds, and a live part of two bytes.
pub fn image_of(alloc: Global, number: u64, kinds: &[u8]) -> Result<Image, AllocError>
    requires { length kinds.now ≤ 16777216 }
    ensures { IfOk result (λ image. IsInShape image) }
{
    let pages = pages_of(alloc, kinds)?;
    let slots = vec![in alloc; 2; pages.len()]?;
    let live = vec![in alloc; 9, 8]?;
    Ok(Image {
        number,
        pages,
        slots,
        catalog_root: 0,
        live,
    })
}
