//! The space of pages: frames in memory, each taken or free.
#![tactic(auto)]

ghost use Rattle.std.specs.Prelude.{◌≡◌, ℕ, ◌<◌, ◌≤◌, ◌↔◌, Some, None, [], length, slice_set, IfOk, IfSome, IsSome, IsTrue, OnErr, All};
ghost use Rattle.std.specs.Borrow.{sem};
ghost use Rattle.std.specs.Vec.{vec_capacity};
ghost use Rattle.page_space.specs.Free.{HasFree};
ghost use Rattle.page_space.specs.Frames.{IsTaken, Takes, page_at};
ghost use Rattle.page_space.specs.Lending.{LendsPage};

use jet_base::OutOfMemory;
use page_image::{LEAF, Page};
use std::alloc::Global;
use std::marker::Model;

/// The most pages of a space: 64 GiB of them.
pub const MAX_PAGES: usize = 16_777_216;

/// Pages by their numbers, which begin at 0. A page keeps its bytes while it is taken.
#[derive(Drop)]
pub struct Space {
    alloc: Global,
    // Each in a block of its own, which stays where it is as the space grows.
    pages: Vec<Box<Page>>,
    taken: Vec<bool>,
    // The numbers of the free pages, with room for all, so that giving back takes no memory.
    free: Vec<u32>,
}

impl Model for Space {
    ghost use Rattle.page_space.specs.Frames.{Frames};

    ghost Value = { Frames };

    ghost use Rattle.page_space.specs.Held.{IsKept, frames};

    ghost view = { frames };

    ghost invariant = { IsKept };
}

impl Space {
    /// A space with no page.
    pub fn new(alloc: Global) -> Space
        ensures { result ≡ [] }
    {
        Space {
            alloc,
            pages: Vec::new(alloc),
            taken: Vec::new(alloc),
            free: Vec::new(alloc),
        }
    }

    /// A space with these pages, by their numbers: `None` for a free one. Each page moves into a block of its own, and none is
    /// copied or read. Free pages are taken again, the lowest first, before there is one more page. It is refused for want of
    /// memory alone, and the pages are dropped then.
    pub fn holding(alloc: Global, pages: Vec<Option<Page>>) -> Result<Space, OutOfMemory>
        requires { length pages.items ≤ MAX_PAGES }
        ensures { IfOk result (λ space. space ≡ pages.items) }
    {
        let mut blocks = Vec::with_capacity(alloc, pages.len())?;
        let mut taken = Vec::with_capacity(alloc, pages.len())?;
        for page in pages {
            taken.push(page.is_some())?;
            let block = block_of(alloc, page)?;
            blocks.push(block)?;
        }
        let free = free_pages(alloc, &taken)?;
        Ok(Space {
            alloc,
            pages: blocks,
            taken,
            free,
        })
    }

    /// A copy of all pages, by their numbers: `None` for a free one. Each is copied once, with no checksum.
    pub fn copied(&self, alloc: Global) -> Result<Vec<Option<Page>>, OutOfMemory>
        ensures { IfOk result (λ pages. pages.items ≡ self.now) }
    {
        let mut pages = Vec::with_capacity(alloc, self.len())?;
        for page in 0..self.len() {
            pages.push(self.copy_at(page as u32))?;
        }
        Ok(pages)
    }

    /// A copy of a page, `None` where it is free.
    fn copy_at(&self, page: u32) -> Option<Page>
        ensures { result ≡ page_at self.now page }
    {
        if self.is_taken(page) {
            Some(self.page(page).copy())
        } else {
            None
        }
    }

    /// How many pages there are, taken and free.
    pub fn len(&self) -> usize
        ensures value { result ≡ length self.now }
        ensures limit { result ≤ MAX_PAGES }
    {
        self.pages.len()
    }

    /// Whether a page is taken.
    pub fn is_taken(&self, page: u32) -> bool
        ensures { IsTrue result ↔ IsTaken self.now page }
    {
        let page = page as usize;
        page < self.taken.len() && self.taken[page]
    }

    /// A page that is taken.
    pub fn page(&self, page: u32) -> &Page
        requires { IsTaken self.now page }
        ensures { page_at self.now page ≡ Some result.now }
    {
        &self.pages[page as usize]
    }

    /// A page that is taken, to be written.
    pub fn page_mut(&mut self, page: u32) -> &mut Page
        requires { IsTaken self.old page }
        ensures* writes_back { sem 𝓛 (LendsPage self.entry page result) }
        ensures value { page_at self.old page ≡ Some result.now }
    {
        &mut self.pages[page as usize]
    }

    /// Takes a free page, or one more page where none is free: a leaf with no node. It is refused
    /// for want of memory alone, also past [`MAX_PAGES`].
    pub fn take(&mut self) -> Result<u32, OutOfMemory>
        ensures ok { IfOk result (λ page. Takes self.old page self.new) }
        ensures err { OnErr result (self.new ≡ self.old) }
        ensures none_free { OnErr result (All IsSome self.old) }
    {
        match self.free.pop() {
            Some(page) => {
                *self.pages[page as usize] = Page::empty(page, LEAF);
                self.taken[page as usize] = true;
                Ok(page)
            }
            None => self.grow(),
        }
    }

    /// Takes one more page, where none is free.
    fn grow(&mut self) -> Result<u32, OutOfMemory>
        requires { All IsSome self.old }
        ensures ok { IfOk result (λ page. Takes self.old page self.new) }
        ensures err { OnErr result (self.new ≡ self.old) }
    {
        let count = self.pages.len();
        if count >= MAX_PAGES {
            return Err(OutOfMemory);
        }
        let page = count as u32;
        self.free.reserve(count + 1)?;
        self.taken.reserve(1)?;
        let block = Box::new(self.alloc, Page::empty(page, LEAF))?;
        self.pages.push(block)?;
        self.taken.push(true)?;
        Ok(page)
    }

    /// Makes a page free, which takes no memory.
    pub fn give_back(&mut self, page: u32)
        requires { IsTaken self.old page }
        ensures { self.new ≡ slice_set self.old page None }
    {
        self.taken[page as usize] = false;
        let _ = self.free.push(page);
    }
}

/// A page in a block of its own, any one where it is free.
fn block_of(alloc: Global, page: Option<Page>) -> Result<Box<Page>, OutOfMemory>
    ensures { IfOk result (λ block. IfSome page (λ page. block.value ≡ page)) }
{
    let page = match page {
        Some(page) => page,
        None => Page::empty(0, LEAF),
    };
    Ok(Box::new(alloc, page)?)
}

/// The numbers of the pages that are not taken, the lowest last, with room for all pages.
fn free_pages(alloc: Global, taken: &[bool]) -> Result<Vec<u32>, OutOfMemory>
    requires { length taken.now ≤ MAX_PAGES }
    ensures { IfOk result (λ free. HasFree taken.now free.items × (length taken.now ≤ vec_capacity free)) }
{
    let mut free = Vec::with_capacity(alloc, taken.len())?;
    for above in 0..taken.len() {
        let page = taken.len() - 1 - above;
        if !taken[page] {
            free.push(page as u32)?;
        }
    }
    Ok(free)
}
