//! What is wrong with a long value.

ghost use Rattle.std.specs.Prelude.{◌≡◌, take};
ghost use Rattle.byteorder.specs.Endian.{big_number};
ghost use Rattle.image_findings.specs.ValueFindings.{entry_in, place_in};

use byteorder::{BigEndian, ByteOrder};

/// The bytes of the number of an entry in an identifier.
const ENTRY_BYTES: usize = 8;

/// The bytes of a place behind it.
const PLACE_BYTES: usize = 4;

/// A long value that is not as its table's rows refer to it.
#[derive(Clone, Copy, Debug, PartialEq, Eq)]
pub struct ValueFault {
    /// The number of the entry that made the value.
    pub entry: u64,
    /// Its place in that entry.
    pub place: u32,
    /// The references that it counts: 0 where it is not there, or not whole.
    pub have: u64,
    /// How many rows, and rows before held changes, refer to it.
    pub wanted: u64,
}

impl ValueFault {
    /// The fault of the value with this identifier. Where bytes are missing they are read as 0.
    pub(crate) fn new(id: &[u8], have: u64, wanted: u64) -> ValueFault
        ensures entry { result.entry ≡ entry_in id.now }
        ensures place { result.place ≡ place_in id.now }
        ensures have { result.have ≡ have }
        ensures wanted { result.wanted ≡ wanted }
    {
        ValueFault {
            entry: entry_of(id),
            place: place_of(id),
            have,
            wanted,
        }
    }
}

/// The number of an entry at the front of an identifier.
fn entry_of(id: &[u8]) -> u64
    ensures { result ≡ entry_in id.now }
{
    let mut bytes = [0; ENTRY_BYTES];
    let size = id.len().min(ENTRY_BYTES);
    bytes[..size].copy_from_slice(&id[..size]);
    BigEndian::read_u64(&bytes)
}

/// The place behind the number of an entry in an identifier.
fn place_of(id: &[u8]) -> u32
    ensures { result ≡ place_in id.now }
{
    first_u32(&id[id.len().min(ENTRY_BYTES)..])
}

/// The number in the first four bytes, the highest first.
fn first_u32(bytes: &[u8]) -> u32
    ensures { result ≡ big_number 4 (take 4 bytes.now) }
{
    let mut front = [0; PLACE_BYTES];
    let size = bytes.len().min(PLACE_BYTES);
    front[..size].copy_from_slice(&bytes[..size]);
    BigEndian::read_u32(&front)
}
