//! Memory for a block of a log.

ghost use Rattle.std.specs.Prelude.{◌≡◌, length};

use jet_base::OutOfMemory;
use log_ring::MAX_PAYLOAD;
use std::alloc::Global;

/// Memory for the bytes of a block, of which a store takes at most 65,500.
#[derive(Drop)]
pub struct Block {
    pub(crate) bytes: Vec<u8>,
    ghost full: { length bytes.items ≡ 65500 },
}

impl Block {
    /// Takes the memory of a block.
    pub fn new(alloc: Global) -> Result<Block, OutOfMemory> {
        let bytes = vec![in alloc; 0; MAX_PAYLOAD]?;
        Ok(Block { bytes })
    }
}
