//! One bucket of raw memory. The four functions of `Bucket` are all that hold its pointer: each says
//! in a comment why it is sound, and is proved by hand.
ghost use Rattle.std.specs.Prelude.{◌≡◌, ℕ, ◌+◌, ◌≤◌, List, [], ◌++◌, length, take, drop, IfOk};
ghost use Rattle.version_bucket.specs.Memory.{bucket_owns, bucket_lends};

use std::alloc::{AllocError, Allocator, Global};
use std::marker::{Model, Send, Sync};
use std::slice;

/// The bytes of a bucket.
pub(crate) const BUCKET_SIZE: usize = 65_536;

/// Bytes may lie anywhere.
const BUCKET_ALIGN: usize = 1;

/// A block of the heap, of which the first bytes are written. It is no `Drop`: who holds one has to
/// give it back by `free`.
pub(crate) struct Bucket {
    start: *mut u8,
    ghost bytes: { List ℕ },
    ghost fits: { length bytes ≤ 65536 },
}

impl Model for Bucket {
    ghost also_owns = { λ b. bucket_owns b.start b.bytes };

    ghost also_shares = { λ b _ κ. bucket_lends b.start b.bytes κ };
}

// It owns its memory alone, and the heap frees a block on any thread.
unsafe impl Send for Bucket {}

// A `&` to it only reads.
unsafe impl Sync for Bucket {}

impl Bucket {
    /// A bucket with no byte written.
    // Sound: the heap gives a block of that size or none. Nothing of it can be read, since no byte
    // of it counts as written.
    pub(crate) fn take(alloc: &Global) -> Result<Bucket, AllocError>
        ensures { IfOk result (λ b. b.bytes ≡ []) }
    {
        match alloc.allocate(BUCKET_SIZE, BUCKET_ALIGN) {
            Ok(start) => Ok(Bucket { start }),
            Err(error) => Err(error),
        }
    }

    /// Writes the piece behind the bytes that are written, which end at `at`.
    // Sound: each byte goes into room that this bucket alone owns, as the piece ends within it. The
    // piece is borrowed, so it lies elsewhere.
    pub(crate) fn write(&mut self, at: usize, piece: &[u8])
        requires { (at ≡ length self.old.bytes) × (at + length piece.now ≤ 65536) }
        ensures { self.new.bytes ≡ self.old.bytes ++ piece.now }
    {
        let len = piece.len();
        let source = piece.as_ptr();
        unsafe {
            let target = self.start.add(at);
            let mut i = 0;
            while i < len {
                target.add(i).write(*source.add(i));
                i += 1;
            }
        }
    }

    /// The `len` bytes from `at` on, which are written.
    // Sound: while the slice lives the bucket is borrowed, so it is neither written nor freed.
    pub(crate) fn read(&self, at: usize, len: usize) -> &[u8]
        requires { at + len ≤ length self.now.bytes }
        ensures { result.now ≡ take len (drop at self.now.bytes) }
    {
        unsafe { slice::from_raw_parts(self.start.add(at), len) }
    }

    /// Gives the block back to the heap.
    // Sound: the bucket is used up, and nothing borrows from it. The size and the alignment are
    // those of `take`, and every `Global` is a handle of the one heap.
    pub(crate) fn free(self, alloc: &Global) {
        let Bucket { start } = self;
        unsafe { alloc.deallocate(start, BUCKET_SIZE, BUCKET_ALIGN) }
    }
}
