//! The values of these tests, each told by one number.

use std::alloc::Global;
use std::process::Abort;

/// The longest value of all, in bytes.
pub const LONGEST: usize = 2_100;

/// How many bytes a value has: the first stands in its row, the shortest that is kept apart has one chunk, and the others have
/// a full chunk, a chunk and one byte, and three chunks.
pub fn size_of(fill: u8) -> usize {
    match fill {
        0 => 255,
        1 => 256,
        2 => 1_024,
        3 => 1_025,
        _ => LONGEST,
    }
}

/// Whether a value is kept apart from its row.
pub fn is_kept_apart(fill: u8) -> bool {
    size_of(fill) > 255
}

/// A byte of a value: they differ from chunk to chunk, and from value to value.
fn byte_at(place: usize, fill: u8) -> u8 {
    ((place % 251) as u8).wrapping_add(fill)
}

/// The bytes of a value.
pub fn bytes_of(rt: &impl Abort, alloc: Global, fill: u8) -> Vec<u8> {
    let mut bytes = Vec::new(alloc);
    for place in 0..size_of(fill) {
        bytes.push(byte_at(place, fill)).expect(rt, "memory");
    }
    bytes
}

/// Whether the first bytes of a value are these.
pub fn begins_with(fill: u8, bytes: &[u8]) -> bool {
    for (place, byte) in bytes.iter().enumerate() {
        if *byte != byte_at(place, fill) {
            return false;
        }
    }
    bytes.len() <= size_of(fill)
}
