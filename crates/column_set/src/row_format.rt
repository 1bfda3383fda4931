//! The numbers of a row's form.

/// The most bytes that a row has.
pub const MAX_ROW_SIZE: usize = 1700;

/// The bytes before the first value: the count of the values.
pub const COUNT_BYTES: usize = 2;

/// The bytes of a value before its own: its column, its form and the count of the bytes that follow.
pub const VALUE_HEAD_BYTES: usize = 5;

/// The form of a value that stands in its row.
pub const HERE: u8 = 0;

/// The form of a value that is kept apart.
pub const APART: u8 = 1;

/// The bytes that a value kept apart has in its row, behind its head.
pub const APART_BYTES: u16 = 16;

/// The longest value that stands in its row, in bytes.
pub const LONGEST_HERE: usize = 255;
