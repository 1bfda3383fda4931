//! Written values, and what a column stores of them.

ghost use Rattle.std.specs.Prelude.{◌≡◌, IsTrue, take, replicate, min, [], ◌∷◌};
ghost use Rattle.jet_base.specs.Given.{given_fits, given_front, as_stored};

use crate::kinds::width_fits;
use crate::numbers::{number_fits, stored_number};
use arrayvec::ArrayVec;
use jet_base::{ColType, Given};

/// The most bytes of a value that a key sees.
pub const FRONT_BYTES: usize = 255;

/// Whether the written value has the form that the type asks for: a number in its range, or bytes of its width. A type
/// without a width takes any bytes, and no value fits every type.
pub fn fits(kind: ColType, given: &Given) -> bool
    ensures { result ≡ given_fits kind given.now }
{
    match given {
        Given::Null => true,
        Given::Number(number) => number_fits(kind, *number),
        Given::Bytes(bytes) => width_fits(kind, bytes.as_bytes().len()),
        Given::Fill(count, _) => width_fits(kind, *count as usize),
    }
}

/// The first 255 bytes that a column of the type stores of a value that fits; none for no value.
///
/// Of `Fill(300, 1)` in a `Text` they are 255 bytes 01.
pub fn stored_front(kind: ColType, given: &Given) -> ArrayVec<u8, FRONT_BYTES>
    requires { IsTrue (given_fits kind given.now) }
    ensures { result.items ≡ given_front 255 kind given.now }
{
    match given {
        Given::Null => ArrayVec::new(),
        Given::Number(number) => front_of_bytes(
            ColType::Binary,
            stored_number(kind, *number).as_slice(),
        ),
        Given::Bytes(bytes) => front_of_bytes(kind, bytes.as_bytes()),
        Given::Fill(count, byte) => front_of_fill(kind, *count, *byte),
    }
}

/// The first 255 of the bytes, as a column of the type stores them.
fn front_of_bytes(kind: ColType, bytes: &[u8]) -> ArrayVec<u8, FRONT_BYTES>
    ensures { result.items ≡ as_stored kind (take 255 bytes.now) }
{
    let (front, _) = bytes.split_at(FRONT_BYTES.min(bytes.len()));
    let mut stored = ArrayVec::new();
    for byte in front {
        stored.push(stored_byte(kind, *byte));
    }
    stored
}

/// The first 255 of so many equal bytes, as a column of the type stores them.
fn front_of_fill(kind: ColType, count: u32, byte: u8) -> ArrayVec<u8, FRONT_BYTES>
    ensures { result.items ≡ as_stored kind (replicate (min 255 count) byte) }
{
    let mut stored = ArrayVec::new();
    for _ in 0..count.min(FRONT_BYTES as u32) {
        stored.push(stored_byte(kind, byte));
    }
    stored
}

/// A byte as a column of the type stores it: in a `Bit` any byte but 00 is 01.
fn stored_byte(kind: ColType, byte: u8) -> u8
    ensures { as_stored kind (byte ∷ []) ≡ result ∷ [] }
{
    if kind == ColType::Bit && byte != 0 {
        1
    } else {
        byte
    }
}
