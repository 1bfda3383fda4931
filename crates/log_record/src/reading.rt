//! Reading the fields of entries.

ghost use Rattle.std.specs.Prelude.{◌≡◌, ◌<◌, ◌^◌, Some, None, MatchOption, true, false};
ghost use Rattle.std.specs.Int.{w16, w32};
ghost use Rattle.column_set.specs.NumberReading.{number_at};
ghost use Rattle.log_grammar.specs.EntryReading.{bookmark_at, byte_at, bytes_at, copied_after, copied_at, flag_at, flagged_at, name_at};
ghost use Rattle.log_record.specs.EntrySeen.{Gives};

use crate::fault::EntryFault;
use column_set::{Bookmark, u16_at, u32_at};
use jet_base::{LONGEST_NAME, Name};
use std::alloc::Global;

/// The first byte, and the bytes behind it. `BadEntry` where there is none.
pub fn u8_at(bytes: &[u8]) -> Result<(u8, &[u8]), EntryFault>
    ensures { Gives (λ x. (x.0, x.1.now)) result (byte_at bytes.now) }
{
    match bytes {
        [first, rest @ ..] => Ok((*first, rest)),
        [] => Err(EntryFault::BadEntry),
    }
}

/// The number in the first two bytes, and the bytes behind them.
pub fn read_u16(bytes: &[u8]) -> Result<(u16, &[u8]), EntryFault>
    ensures { Gives (λ x. (x.0, x.1.now)) result (number_at w16 bytes.now) }
{
    match u16_at(bytes) {
        Some(found) => Ok(found),
        None => Err(EntryFault::BadEntry),
    }
}

/// The number in the first four bytes, and the bytes behind them.
pub fn read_u32(bytes: &[u8]) -> Result<(u32, &[u8]), EntryFault>
    ensures { Gives (λ x. (x.0, x.1.now)) result (number_at w32 bytes.now) }
{
    match u32_at(bytes) {
        Some(found) => Ok(found),
        None => Err(EntryFault::BadEntry),
    }
}

/// So many bytes, and those behind them. `BadEntry` where there are fewer.
pub fn bytes_of(bytes: &[u8], count: usize) -> Result<(&[u8], &[u8]), EntryFault>
    ensures { Gives (λ x. (x.0.now, x.1.now)) result (bytes_at count bytes.now) }
{
    if bytes.len() < count {
        return Err(EntryFault::BadEntry);
    }
    Ok(bytes.split_at(count))
}

/// A bookmark behind its length.
#[tactic(auto, unfolding(log_grammar::specs::EntryReading::bookmark_at))]
pub fn bookmark_of(alloc: Global, bytes: &[u8]) -> Result<(Bookmark, &[u8]), EntryFault>
    ensures { Gives (λ x. (x.0, x.1.now)) result (bookmark_at bytes.now) }
{
    let (count, rest) = read_u16(bytes)?;
    if count < 1 || count > 255 {
        return Err(EntryFault::BadEntry);
    }
    let (own, rest) = bytes_of(rest, count as usize)?;
    Ok((Bookmark::from_slice(alloc, own)?, rest))
}

/// A name behind its length.
#[tactic(auto, unfolding(log_grammar::specs::EntryReading::name_at))]
pub fn read_name(alloc: Global, bytes: &[u8]) -> Result<(Name, &[u8]), EntryFault>
    ensures { Gives (λ x. (x.0, x.1.now)) result (name_at bytes.now) }
{
    let (count, rest) = u8_at(bytes)?;
    if count < 1 || count as usize > LONGEST_NAME {
        return Err(EntryFault::BadEntry);
    }
    let (own, rest) = bytes_of(rest, count as usize)?;
    Ok((Name::from_slice(alloc, own)?, rest))
}

/// A flag: a byte of 0 or 1, and the bytes behind it. `BadEntry` for any other byte, or none.
#[tactic(auto, unfolding(log_grammar::specs::EntryReading::flag_at))]
pub fn flag_of(bytes: &[u8]) -> Result<(bool, &[u8]), EntryFault>
    ensures { Gives (λ x. (x.0, x.1.now)) result (flag_at bytes.now) }
{
    let (byte, rest) = u8_at(bytes)?;
    match byte {
        0 => Ok((false, rest)),
        1 => Ok((true, rest)),
        _ => Err(EntryFault::BadEntry),
    }
}

/// A column's number and a flag.
#[tactic(auto, unfolding(log_grammar::specs::EntryReading::flagged_at))]
pub fn flagged_of(bytes: &[u8]) -> Result<((u16, bool), &[u8]), EntryFault>
    ensures { Gives (λ x. (x.0, x.1.now)) result (flagged_at bytes.now) }
{
    let (column, rest) = read_u16(bytes)?;
    let (flag, rest) = flag_of(rest)?;
    Ok(((column, flag), rest))
}

/// The bookmark of a copied record, or that there is none.
#[tactic(auto, unfolding(log_grammar::specs::EntryReading::copied_at))]
pub fn copied_of(alloc: Global, bytes: &[u8]) -> Result<(Option<Bookmark>, &[u8]), EntryFault>
    ensures { Gives (λ x. (x.0, x.1.now)) result (copied_at bytes.now) }
{
    let (is_copied, rest) = flag_of(bytes)?;
    if !is_copied {
        return Ok((None, rest));
    }
    let (bookmark, rest) = bookmark_of(alloc, rest)?;
    Ok((Some(bookmark), rest))
}
