//! The writes and syncs of a volume in memory, kept so that each can be undone.

use crate::files::File;
use std::alloc::AllocError;

/// What a call did to its file.
#[derive(Drop)]
pub enum Change {
    /// It wrote `len` bytes at `at` over those in `covered`, in a file of `size` bytes.
    Wrote {
        at: usize,
        len: usize,
        covered: Vec<u8>,
        size: usize,
    },
    /// It was to write `len` bytes at `at`, and failed.
    Missed {
        at: usize,
        len: usize,
    },
    /// It synced the file.
    Synced,
}

/// A call of a volume that may change what a crash leaves.
#[derive(Drop)]
pub struct Call {
    pub file: File,
    pub change: Change,
}
