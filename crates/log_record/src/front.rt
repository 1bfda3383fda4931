//! Reading the entry that bytes begin with.

ghost use Rattle.std.specs.Prelude.{◌≡◌, List, ℕ, length, IfOk, MatchResult};
ghost use Rattle.index_derive.specs.declared.log.Entry.{Entry};
ghost use Rattle.log_grammar.specs.EntryBytes.{BeginsWith, entry_bytes};
ghost use Rattle.log_grammar.specs.EntryReading.{front_at};
ghost use Rattle.log_record.specs.EntrySeen.{Gives};

use crate::decoding::entry_of;
use crate::encoding::LENGTH_BYTES;
use crate::fault::EntryFault;
use crate::reading::{bytes_of, read_u32};
use index_derive::Entry;
use std::alloc::Global;

/// The entry in front, and how many bytes it has.
#[tactic(auto, unfolding(log_grammar::specs::EntryReading::front_at))]
fn front_of(alloc: Global, bytes: &[u8]) -> Result<(Entry, usize), EntryFault>
    ensures { Gives (λ x. x) result (front_at bytes.now) }
{
    let (count, rest) = read_u32(bytes)?;
    let (own, _) = bytes_of(rest, count as usize)?;
    let entry = entry_of(alloc, own)?;
    Ok((entry, LENGTH_BYTES + count as usize))
}

/// The entry that the bytes begin with, and how many bytes it has. Any bytes may follow it.
///
/// The call answers `BadEntry` where they begin with the whole spelling of no entry.
pub fn read_front(alloc: Global, bytes: &[u8]) -> Result<(Entry, usize), EntryFault>
    // The bytes begin with the spelling of the entry, which has so many bytes.
    ensures found { IfOk result (λ x. BeginsWith bytes.now x.0 × (x.1 ≡ length (entry_bytes x.0))) }
    // It is the only entry, and bytes that begin with one are not refused.
    ensures only { (entry : Entry) → BeginsWith bytes.now entry → MatchResult result (λ x. x ≡ (entry, length (entry_bytes entry))) (λ fault. fault ≡ EntryFault.OutOfMemory) }
{
    front_of(alloc, bytes)
}
