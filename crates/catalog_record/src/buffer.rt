//! Room for one node of the catalog.

ghost use Rattle.std.specs.Prelude.{◌≡◌, ◌≤◌, [], length, replicate};

use arrayvec::ArrayVec;
use std::marker::Model;

/// The bytes of a key.
pub(crate) const KEY_BYTES: usize = 7;

/// The most bytes of the data of a node: those of an index with 255 columns, 255 conditions and a name of 64 bytes.
pub const LARGEST_DATA: usize = 1607;

/// The data of a node, as it is written.
pub(crate) type NodeData = ArrayVec<u8, LARGEST_DATA>;

/// A key and the data of a node. It takes no memory, and each write puts another node in the place of what was there.
///
/// Contracts see it as these two byte strings.
#[derive(Drop)]
pub struct NodeBuffer {
    pub(crate) key: [u8; KEY_BYTES],
    pub(crate) data: NodeData,
}

impl Model for NodeBuffer {
    ghost use Rattle.catalog_record.specs.Buffers.{NodeText};

    ghost Value = { NodeText };

    ghost view = { λ a. record { key = a.key; bytes = a.data.items } };
}

impl NodeBuffer {
    /// A key of zeros, and no data.
    pub fn new() -> NodeBuffer
        ensures { result ≡ record { key = replicate 7 0; bytes = [] } }
    {
        NodeBuffer {
            key: [0; KEY_BYTES],
            data: ArrayVec::new(),
        }
    }

    /// The key.
    pub fn key(&self) -> &[u8]
        ensures value { result.now ≡ self.now.key }
        ensures len { length result.now ≡ 7 }
    {
        &self.key
    }

    /// The data.
    pub fn data(&self) -> &[u8]
        ensures value { result.now ≡ self.now.bytes }
        ensures short { length result.now ≤ 1607 }
    {
        self.data.as_slice()
    }
}
