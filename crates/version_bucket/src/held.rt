//! A bucket with the pieces that lie in it.
ghost use Rattle.std.specs.Prelude.{◌≡◌, ◌+◌, ◌*◌, ◌/◌, ◌^◌, ◌<◌, ◌≤◌, [], ◌++◌, length, IfOk};
ghost use Rattle.version_bucket.specs.Layout.{HasPiece, cost, piece_at, stored};

use crate::bucket::Bucket;
use jet_base::OutOfMemory;
use std::alloc::Global;

/// The length of a piece stands before it in as many bytes.
const HEADER_SIZE: usize = 8;

/// What fills a piece up to a multiple of eight bytes.
const ZEROS: [u8; 8] = [0; 8];

/// A bucket, and how many of its pieces are kept.
pub(crate) struct Held {
    memory: Bucket,
    alloc: Global,
    pub(crate) kept: usize,
}

/// The bytes that a piece of `len` bytes takes in its bucket.
pub(crate) fn cost_of(len: usize) -> usize
    requires { len ≤ 4096 }
    ensures { result ≡ 8 + (len + 7) / 8 * 8 }
{
    HEADER_SIZE + len.next_multiple_of(8)
}

impl Held {
    /// A bucket that holds the piece alone.
    pub(crate) fn with_piece(alloc: Global, piece: &[u8]) -> Result<Held, OutOfMemory>
        requires { length piece.now ≤ 4096 }
        ensures { IfOk result (λ h. (h.memory.bytes ≡ stored piece.now) × (h.kept ≡ 1)) }
    {
        let memory = Bucket::take(&alloc)?;
        let mut held = Held {
            memory,
            alloc,
            kept: 0,
        };
        held.append(0, piece);
        Ok(held)
    }

    /// Puts the piece behind the `end` bytes that are written.
    pub(crate) fn append(&mut self, end: usize, piece: &[u8])
        requires end { end ≡ length self.old.memory.bytes }
        requires fits { end + cost piece.now ≤ 65536 }
        requires limit { length piece.now ≤ 4096 }
        requires count { self.old.kept + 1 < 2 ^ 64 }
        ensures bytes { self.new.memory.bytes ≡ self.old.memory.bytes ++ stored piece.now }
        ensures kept { self.new.kept ≡ self.old.kept + 1 }
    {
        let len = piece.len();
        let padding = len.next_multiple_of(8) - len;
        self.memory.write(end, &(len as u64).to_le_bytes());
        self.memory.write(end + HEADER_SIZE, piece);
        self.memory
            .write(end + HEADER_SIZE + len, &ZEROS[..padding]);
        self.kept += 1;
    }

    /// The piece at the offset.
    pub(crate) fn piece(&self, offset: usize) -> &[u8]
        requires { HasPiece self.now.memory.bytes offset }
        ensures { result.now ≡ piece_at self.now.memory.bytes offset }
    {
        let header = self.memory.read(offset, HEADER_SIZE);
        let len = match header.first_chunk::<8>() {
            Some(bytes) => u64::from_le_bytes(*bytes),
            None => 0,
        };
        self.memory.read(offset + HEADER_SIZE, len as usize)
    }
}

impl Drop for Held {
    fn drop(self) {
        let Held {
            memory,
            alloc,
            kept: _,
        } = self;
        memory.free(&alloc);
    }
}
