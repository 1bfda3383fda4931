//! An image of the engine, and the checkpoint that stands on a volume.

use jet_volume::LogStart;
use page_image::Page;

/// The most pages that an image has: 2^24.
pub const MAX_PAGES: u32 = 1 << 24;

/// The most bytes of a live part: 2^32 - 1, the greatest length that stands before it in four bytes.
pub const MAX_LIVE_BYTES: u32 = 0xffff_ffff;

/// What a checkpoint holds: the pages of all trees, and what lives outside them.
#[derive(Drop)]
pub struct Image {
    /// The number of log entries that it holds.
    pub number: u64,
    /// The pages by their numbers, `None` for a free one. They are at most [`MAX_PAGES`].
    pub pages: Vec<Option<Page>>,
    /// For each page the slot that it is in, 0 or 1, or 2 for a free page.
    pub slots: Vec<u8>,
    /// The page number of the catalog's root.
    pub catalog_root: u32,
    /// The bytes of the live part, at most [`MAX_LIVE_BYTES`].
    pub live: Vec<u8>,
}

/// The checkpoint that stands on a volume. On a new volume its number is 0, and it has no page.
#[derive(Drop)]
pub struct Standing {
    /// The checkpoint's own number, from 1.
    pub number: u64,
    /// The version of the format of its file: [`FORMAT_VERSION`](crate::FORMAT_VERSION).
    pub format: u32,
    /// Where the log goes on.
    pub start: LogStart,
    /// A copy of its pages, `None` for a free one.
    pub pages: Vec<Option<Page>>,
    /// For each page the slot that it is in, 0 or 1, or 2 for a free page.
    pub slots: Vec<u8>,
}

/// What a volume was found to hold.
#[derive(Drop)]
pub enum Found {
    /// No checkpoint and no log.
    New,
    /// The image of the standing checkpoint.
    Old(Image),
}
