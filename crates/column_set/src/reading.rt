//! Reading the values of a row in place.

ghost use Rattle.std.specs.Prelude.{◌<◌, ◌≤◌, length, MatchOption};
ghost use Rattle.std.specs.Int.{w16, w32, w64};
ghost use Rattle.column_set.specs.NumberReading.{number_at};
ghost use Rattle.column_set.specs.RowReading.{apart_at, body_at, here_at, next_at, value_at};
ghost use Rattle.column_set.specs.RowSeen.{Sees, seen};

use crate::row_format::{APART, APART_BYTES, HERE, LONGEST_HERE};

/// The least bytes of a value that is kept apart.
const LEAST_APART: u32 = 256;

/// The most bytes of a value.
const MOST_APART: u32 = 1_048_576;

/// A value of a row in place.
#[derive(Clone, Copy, Debug)]
pub enum ValueRef<'a> {
    /// The value's bytes.
    Here(&'a [u8]),
    /// Where the value is kept: the number of its entry, its place there and its length.
    Apart { entry: u64, place: u32, length: u32 },
}

/// A value with its column, and the bytes behind it.
pub type NextValue<'a> = ((u16, ValueRef<'a>), &'a [u8]);

/// The number in the first two bytes, and the bytes behind them.
pub fn u16_at(bytes: &[u8]) -> Option<(u16, &[u8])>
    ensures { Sees (λ x. (x.0, x.1.now)) result (number_at w16 bytes.now) }
{
    if bytes.len() < 2 {
        return None;
    }
    let (front, rest) = bytes.split_at(2);
    Some((u16::from_le_bytes([front[0], front[1]]), rest))
}

/// The number in the first four bytes, and the bytes behind them.
pub fn u32_at(bytes: &[u8]) -> Option<(u32, &[u8])>
    ensures short { MatchOption result (length bytes.now < 4) (λ x. 4 ≤ length bytes.now) }
    ensures read { Sees (λ x. (x.0, x.1.now)) result (number_at w32 bytes.now) }
{
    if bytes.len() < 4 {
        return None;
    }
    let (front, rest) = bytes.split_at(4);
    let number = u32::from_le_bytes([front[0], front[1], front[2], front[3]]);
    Some((number, rest))
}

fn u64_at(bytes: &[u8]) -> Option<(u64, &[u8])>
    ensures { Sees (λ x. (x.0, x.1.now)) result (number_at w64 bytes.now) }
{
    if bytes.len() < 8 {
        return None;
    }
    let (front, rest) = bytes.split_at(8);
    let number = u64::from_le_bytes([
        front[0], front[1], front[2], front[3], front[4], front[5], front[6], front[7],
    ]);
    Some((number, rest))
}

/// A value of so many bytes, at most 255.
#[tactic(auto, unfolding(crate::specs::RowReading::here_at))]
fn here(bytes: &[u8], count: usize) -> Option<(ValueRef<'_>, &[u8])>
    ensures { Sees (λ x. (seen x.0, x.1.now)) result (here_at count bytes.now) }
{
    if count > LONGEST_HERE || bytes.len() < count {
        return None;
    }
    let (value, rest) = bytes.split_at(count);
    Some((ValueRef::Here(value), rest))
}

/// A value that is kept apart.
#[tactic(auto, unfolding(crate::specs::RowReading::apart_at))]
fn apart(bytes: &[u8]) -> Option<(ValueRef<'_>, &[u8])>
    ensures { Sees (λ x. (seen x.0, x.1.now)) result (apart_at bytes.now) }
{
    let (entry, rest) = u64_at(bytes)?;
    let (place, rest) = u32_at(rest)?;
    let (length, rest) = u32_at(rest)?;
    if length < LEAST_APART || length > MOST_APART {
        return None;
    }
    Some((
        ValueRef::Apart {
            entry,
            place,
            length,
        },
        rest,
    ))
}

/// A value of the form and of so many bytes in the row.
#[tactic(auto, unfolding(crate::specs::RowReading::body_at))]
fn body(bytes: &[u8], form: u8, count: u16) -> Option<(ValueRef<'_>, &[u8])>
    ensures { Sees (λ x. (seen x.0, x.1.now)) result (body_at form count bytes.now) }
{
    match form {
        HERE => here(bytes, count as usize),
        APART if count == APART_BYTES => apart(bytes),
        _ => None,
    }
}

/// The first value, and the bytes behind it.
#[tactic(auto, unfolding(crate::specs::RowReading::value_at))]
pub fn value(bytes: &[u8]) -> Option<NextValue<'_>>
    ensures { Sees (λ x. ((x.0.0, seen x.0.1), x.1.now)) result (value_at bytes.now) }
{
    let (column, rest) = u16_at(bytes)?;
    let (form, rest) = rest.split_first()?;
    let (count, rest) = u16_at(rest)?;
    let (value, rest) = body(rest, *form, count)?;
    Some(((column, value), rest))
}

/// The first value where its column is not below `least`, and the bytes behind it.
#[tactic(auto, unfolding(crate::specs::RowReading::next_at))]
pub fn next(bytes: &[u8], least: u16) -> Option<NextValue<'_>>
    ensures { Sees (λ x. ((x.0.0, seen x.0.1), x.1.now)) result (next_at least bytes.now) }
{
    let ((column, value), rest) = value(bytes)?;
    if column < least {
        return None;
    }
    Some(((column, value), rest))
}
