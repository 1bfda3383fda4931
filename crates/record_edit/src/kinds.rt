//! How many bytes the values of a type have.

ghost use Rattle.std.specs.Prelude.{◌≡◌};
ghost use Rattle.jet_base.specs.ColumnType.{fixed_width, largest_value, is_number_type};
ghost use Rattle.jet_base.specs.Given.{width_fits};

use jet_base::ColType;

/// The bytes of each value of a fixed type; None for the four types whose values have any length up to a limit.
pub fn fixed_width(kind: ColType) -> Option<usize>
    ensures { result ≡ fixed_width kind }
{
    match kind {
        ColType::Bit | ColType::UnsignedByte => Some(1),
        ColType::Short | ColType::UnsignedShort => Some(2),
        ColType::Long | ColType::UnsignedLong => Some(4),
        ColType::LongLong | ColType::Currency => Some(8),
        ColType::Guid => Some(16),
        ColType::Binary | ColType::Text | ColType::LongBinary | ColType::LongText => None,
    }
}

/// The most bytes that a value of the type has.
pub fn largest_value(kind: ColType) -> usize
    ensures { result ≡ largest_value kind }
{
    match kind {
        ColType::Bit | ColType::UnsignedByte => 1,
        ColType::Short | ColType::UnsignedShort => 2,
        ColType::Long | ColType::UnsignedLong => 4,
        ColType::LongLong | ColType::Currency => 8,
        ColType::Guid => 16,
        ColType::Binary | ColType::Text => 255,
        ColType::LongBinary | ColType::LongText => 1_048_576,
    }
}

/// Whether the type's values are numbers: those of the fixed types but `Guid`.
pub fn is_number_type(kind: ColType) -> bool
    ensures { result ≡ is_number_type kind }
{
    match kind {
        ColType::Bit
        | ColType::UnsignedByte
        | ColType::Short
        | ColType::UnsignedShort
        | ColType::Long
        | ColType::UnsignedLong
        | ColType::LongLong
        | ColType::Currency => true,
        ColType::Guid | ColType::Binary | ColType::Text | ColType::LongBinary | ColType::LongText =>
            false,
    }
}

/// Whether a written value of so many bytes has the form that the type asks for: a fixed type asks for exactly its
/// width, any other type for none.
pub fn width_fits(kind: ColType, width: usize) -> bool
    ensures { result ≡ width_fits kind width }
{
    match fixed_width(kind) {
        Some(fixed) => width == fixed,
        None => true,
    }
}
