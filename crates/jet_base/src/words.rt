//! The words of a call: types, directions, ways to prepare, flags and written values.

ghost use Rattle.std.specs.Prelude.{◌≡◌};
ghost use Rattle.jet_base.specs.TypeKinds.{is_long_type, is_variable_type};

use crate::text::Octets;

/// The type of a column.
///
/// The first nine hold numbers or bytes of one width. `Binary` and `Text` hold up to 255 bytes, `LongBinary` and
/// `LongText` up to 1,048,576. Files number the types from 1 in this order.
#[derive(Clone, Copy, Debug, PartialEq, Eq)]
pub enum ColType {
    /// One byte, 00 or 01.
    Bit,
    /// One byte.
    UnsignedByte,
    /// Two bytes, two's complement.
    Short,
    /// Two bytes.
    UnsignedShort,
    /// Four bytes, two's complement.
    Long,
    /// Four bytes.
    UnsignedLong,
    /// Eight bytes, two's complement.
    LongLong,
    /// Eight bytes, two's complement.
    Currency,
    /// Sixteen bytes.
    Guid,
    /// Up to 255 bytes.
    Binary,
    /// Up to 255 bytes, of which keys do not tell `a` from `A`.
    Text,
    /// Up to 1,048,576 bytes.
    LongBinary,
    /// Up to 1,048,576 bytes, of which keys do not tell `a` from `A`.
    LongText,
}

impl ColType {
    /// Whether values of the type may be longer than 255 bytes, so that its columns are always tagged ones.
    pub fn is_long(self) -> bool
        ensures { result ≡ is_long_type self }
    {
        matches!(self, ColType::LongBinary | ColType::LongText)
    }

    /// Whether columns of the type are variable ones, unless they are tagged.
    pub fn is_variable(self) -> bool
        ensures { result ≡ is_variable_type self }
    {
        matches!(self, ColType::Binary | ColType::Text)
    }
}

/// A move of a cursor.
#[derive(Clone, Copy, Debug, PartialEq, Eq)]
pub enum Way {
    First,
    Last,
    Next,
    Previous,
}

/// What a copy buffer is prepared for.
#[derive(Clone, Copy, Debug, PartialEq, Eq)]
pub enum Prepare {
    /// A new record without values.
    Insert,
    /// A new record with the values of the current one.
    InsertCopy,
    /// Another version of the current record.
    Replace,
    /// Nothing: the prepared update is given up.
    Cancel,
}

/// What a new column is asked to be.
#[derive(Clone, Copy, Debug, PartialEq, Eq)]
pub struct ColumnFlags {
    /// Each record has a value.
    pub not_null: bool,
    /// Any type is kept among the tagged columns.
    pub tagged: bool,
    /// A record may have several values, numbered from 1.
    pub multi: bool,
    /// A sum that sessions add to at the same time.
    pub escrow: bool,
    /// A count of the record's replaces.
    pub version: bool,
    /// A number that is drawn for each new record.
    pub auto: bool,
}

/// A value as a call writes it. Its column's type decides whether it fits.
#[derive(Debug, Drop, PartialEq, Eq)]
pub enum Given {
    /// No value.
    Null,
    /// A number, stored little-endian in the type's width.
    Number(i64),
    /// The stored bytes.
    Bytes(Octets),
    /// So many bytes, from 0 to 2,097,152, of the one byte.
    Fill(u32, u8),
}
