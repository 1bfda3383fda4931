//! Numbers as columns store them.

ghost use Rattle.std.specs.Prelude.{◌≡◌, ◌≤◌, ◌*◌, ◌^◌, ◌<◌, IsTrue, length};
ghost use Rattle.jet_base.specs.declared.words.Given.TheVariants.{Number};
ghost use Rattle.jet_base.specs.ColumnType.{is_number_type, largest_value, number_of, little_endian, from_little_endian};
ghost use Rattle.jet_base.specs.Given.{number_fits, given_bytes};

use crate::kinds::largest_value;
use arrayvec::ArrayVec;
use jet_base::ColType;

/// Whether the type holds the number. A `Bit` holds 0 and 1, and a type that holds no numbers none.
pub fn number_fits(kind: ColType, number: i64) -> bool
    ensures { result ≡ number_fits kind number }
{
    match kind {
        ColType::Bit => 0 <= number && number <= 1,
        ColType::UnsignedByte => 0 <= number && number <= 255,
        ColType::Short => -32_768 <= number && number <= 32_767,
        ColType::UnsignedShort => 0 <= number && number <= 65_535,
        ColType::Long => -2_147_483_648 <= number && number <= 2_147_483_647,
        ColType::UnsignedLong => 0 <= number && number <= 4_294_967_295,
        ColType::LongLong | ColType::Currency => true,
        ColType::Guid | ColType::Binary | ColType::Text | ColType::LongBinary | ColType::LongText =>
            false,
    }
}

/// The stored bytes of a number that the type holds: the lowest first, in two's complement where it is negative.
#[tactic(auto, using(crate::proofs::Widths::lowest_of_fitting, crate::proofs::Widths::number_width))]
pub fn stored_number(kind: ColType, number: i64) -> ArrayVec<u8, 8>
    requires { IsTrue (number_fits kind number) }
    ensures { result.items ≡ given_bytes kind (Number number) }
{
    lowest_bytes(largest_value(kind), number.cast_unsigned())
}

/// The lowest `width` bytes of the number, the lowest first.
fn lowest_bytes(width: usize, number: u64) -> ArrayVec<u8, 8>
    requires { width ≤ 8 }
    ensures { result.items ≡ little_endian width number }
{
    let mut bytes = ArrayVec::new();
    let mut rest = number;
    for _ in 0..width {
        bytes.push((rest % 256) as u8);
        rest /= 256;
    }
    bytes
}

/// The number that a stored value of a number type is.
#[tactic(auto, using(crate::proofs::Widths::number_width))]
pub fn number_of(kind: ColType, bytes: &[u8]) -> i64
    requires kind { IsTrue (is_number_type kind) }
    requires width { length bytes.now ≡ largest_value kind }
    ensures { result ≡ number_of kind bytes.now }
{
    let number = from_lowest(bytes);
    match kind {
        ColType::Short => i64::from((number as u16).cast_signed()),
        ColType::Long => i64::from((number as u32).cast_signed()),
        _ => number.cast_signed(),
    }
}

/// The number that the bytes write, the lowest first.
fn from_lowest(bytes: &[u8]) -> u64
    requires { length bytes.now ≤ 8 }
    ensures value { result ≡ from_little_endian bytes.now }
    ensures below { result < 256 ^ length bytes.now }
{
    match bytes {
        [] => 0,
        [first, rest @ ..] => u64::from(*first) + 256 * from_lowest(rest),
    }
}
