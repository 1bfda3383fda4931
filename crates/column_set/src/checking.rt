//! Checking rows without memory.

ghost use Rattle.std.specs.Prelude.{◌≡◌, ◌↔◌, IsTrue};
ghost use Rattle.column_set.specs.Rows.{IsRowBytes};
ghost use Rattle.column_set.specs.RowReading.{is_read, read_values, takes_all, values_at};

use crate::reading::{next, u16_at};

/// Whether the bytes are so many values, whose columns do not fall.
fn are_values(bytes: &[u8], count: u16) -> bool
    ensures { result ≡ takes_all (values_at 0 count bytes.now) }
{
    let mut rest = bytes;
    let mut least = 0;
    for _ in 0..count {
        let Some(((column, _), after)) = next(rest, least) else {
            return false;
        };
        rest = after;
        least = column;
    }
    rest.is_empty()
}

/// Whether the bytes are a count of values and so many values.
#[tactic(auto, unfolding(crate::specs::RowReading::read_values))]
fn are_counted_values(bytes: &[u8]) -> bool
    ensures { result ≡ is_read (read_values bytes.now) }
{
    match u16_at(bytes) {
        Some((count, rest)) => are_values(rest, count),
        None => false,
    }
}

/// Whether the bytes are a row: where `decode` does not answer `BadRecord`. A row may be longer than `encode` writes
/// one. The call takes no memory.
pub fn is_row(bytes: &[u8]) -> bool
    ensures { IsTrue result ↔ IsRowBytes bytes.now }
{
    are_counted_values(bytes)
}
