//! What a log gives: the payload bytes of the open blocks from a place on.

ghost use Rattle.std.specs.Prelude.{◌≡◌, ◌⊎◌, ⊤, ◌<◌, ◌≤◌, ℕ, ◌+◌, ◌^◌, true, false, None, Some, List, [], ◌++◌, length, take, drop, IfOk, OnOk, MatchOption};
ghost use Rattle.std.specs.Bool.{OnTrue, OnFalse};
ghost use Rattle.jet_io.specs.Faults.{CountsFault};
ghost use Rattle.log_ring.specs.Blocks.{address, behind, begins_block, length_field, open_payload, Scans, ReadsBlock, ReadsWithin, FindsNext, MovesOn, EndsNear};
ghost use Rattle.log_ring.specs.Writes.{LooksOnly};
ghost use Rattle.log_ring.specs.Ring.{CountsScanFault};

use crate::fault::ScanFault;
use crate::places::{
    HEADER_LEN, MAX_PAYLOAD, SLOT_LEN, SLOTS, address_of, behind_of, next_generation_of, u32_at,
    u64_at,
};
use jet_io::Failed;
use jet_volume::{File, LogStart, Volume};
use std::alloc::{AllocError, Global};

/// How many payload bytes the block of a place has, by its first 21 bytes.
#[tactic(auto, unfolding(crate::specs::Blocks::is_of, crate::specs::Blocks::length_field))]
fn payload_len(place: LogStart, header: &[u8]) -> Option<usize>
    requires { length header.now ≡ 21 }
    ensures { MatchOption result (begins_block place header.now ≡ false) (λ len. (begins_block place header.now ≡ true) × (len ≡ length_field header.now)) }
{
    let is_of = u64_at(header, 1) == place.generation && u64_at(header, 9) == place.position;
    let len = u32_at(header, 17);
    let has_len = 1 <= len && len <= MAX_PAYLOAD as u32;
    let fits = u64::from(place.offset) + 22 + u64::from(len) <= u64::from(SLOT_LEN);
    if header[0] == 1 && is_of && has_len && fits {
        Some(len as usize)
    } else {
        None
    }
}

/// Reads the first 21 bytes of the block of a place, and answers how many payload bytes it has.
fn read_header<V: Volume>(volume: &mut V, place: LogStart) -> Result<Option<usize>, Failed>
    requires { 1 ≤ place.generation }
    ensures header { V.tells_contents → IfOk result (λ found. MatchOption found
        ((length (V.seen volume.old).log < address place + 21) ⊎ (begins_block place (take 21 (drop (address place) (V.seen volume.old).log)) ≡ false))
        (λ len. (begins_block place (take 21 (drop (address place) (V.seen volume.old).log)) ≡ true) × (len ≡ length_field (take 21 (drop (address place) (V.seen volume.old).log))))) }
    ensures within { IfOk result (λ found. MatchOption found ⊤ (λ len. (1 ≤ len) × (len ≤ 65500) × (place.offset + 22 + len ≤ 1048576))) }
    ensures seen { V.seen volume.new ≡ V.seen volume.old }
    ensures any_moment { LooksOnly V.moment V.left_at volume.old volume.new }
    ensures faults { CountsFault result (V.faults volume.old) (V.faults volume.new) }
    ensures identity { V.identity volume.new ≡ V.identity volume.old }
{
    let mut header = [0; HEADER_LEN];
    match volume.read(File::Log, address_of(place), &mut header) {
        Ok(count) => {
            if count == HEADER_LEN {
                Ok(payload_len(place, &header))
            } else {
                Ok(None)
            }
        }
        Err(fault) => Err(fault),
    }
}

/// Makes room for so many bytes behind those that are there.
fn make_room(into: &mut Vec<u8>, len: usize) -> Result<(), AllocError>
    requires { length into.old.items + len < 2 ^ 63 }
    ensures front { take (length into.old.items) into.new.items ≡ into.old.items }
    ensures len { OnOk result (length into.new.items ≡ length into.old.items + len) }
{
    into.resize(into.len() + len, 0)
}

/// Reads so many bytes behind those read before, or none where the file does not have them all.
fn read_payload<V: Volume>(
    volume: &mut V,
    at: u64,
    len: usize,
    into: &mut Vec<u8>,
) -> Result<bool, ScanFault>
    requires some { 1 ≤ len }
    requires room { length into.old.items + len < 2 ^ 63 }
    ensures whole { V.tells_contents → IfOk result (λ whole. OnTrue whole ((at + len ≤ length (V.seen volume.old).log) × (into.new.items ≡ into.old.items ++ take len (drop at (V.seen volume.old).log)))) }
    ensures short { V.tells_contents → IfOk result (λ whole. OnFalse whole (length (V.seen volume.old).log < at + len)) }
    ensures len { IfOk result (λ whole. OnTrue whole (length into.new.items ≡ length into.old.items + len)) }
    ensures none { IfOk result (λ whole. OnFalse whole (into.new.items ≡ into.old.items)) }
    ensures seen { V.seen volume.new ≡ V.seen volume.old }
    ensures any_moment { LooksOnly V.moment V.left_at volume.old volume.new }
    ensures faults { CountsScanFault result (V.faults volume.old) (V.faults volume.new) }
    ensures identity { V.identity volume.new ≡ V.identity volume.old }
{
    let start = into.len();
    match make_room(into, len) {
        Ok(()) => match volume.read(File::Log, at, &mut into[start..]) {
            Ok(count) => {
                if count == len {
                    Ok(true)
                } else {
                    into.truncate(start);
                    Ok(false)
                }
            }
            Err(_) => Err(ScanFault::VolumeFault),
        },
        Err(_) => Err(ScanFault::OutOfMemory),
    }
}

/// Reads the payload of the block at a place behind the bytes read before, where it is open, and answers how
/// many bytes it has.
fn read_block<V: Volume>(
    volume: &mut V,
    place: LogStart,
    into: &mut Vec<u8>,
) -> Result<Option<usize>, ScanFault>
    requires generation { 1 ≤ place.generation }
    requires room { length into.old.items < 2 ^ 62 }
    ensures block { V.tells_contents → IfOk result (λ found. ReadsBlock (V.seen volume.old).log place found into.old.items into.new.items) }
    ensures within { IfOk result (λ found. ReadsWithin place found into.old.items into.new.items) }
    ensures seen { V.seen volume.new ≡ V.seen volume.old }
    ensures any_moment { LooksOnly V.moment V.left_at volume.old volume.new }
    ensures faults { CountsScanFault result (V.faults volume.old) (V.faults volume.new) }
    ensures identity { V.identity volume.new ≡ V.identity volume.old }
{
    match read_header(volume, place) {
        Ok(Some(len)) => match read_payload(volume, address_of(place) + 21, len, into) {
            Ok(true) => Ok(Some(len)),
            Ok(false) => Ok(None),
            Err(fault) => Err(fault),
        },
        Ok(None) => Ok(None),
        Err(_) => Err(ScanFault::VolumeFault),
    }
}

/// Reads the block that stands next, at the place or at the beginning of the next generation, and answers
/// the place behind it.
fn read_next<V: Volume>(
    volume: &mut V,
    first: u64,
    place: LogStart,
    into: &mut Vec<u8>,
) -> Result<Option<LogStart>, ScanFault>
    requires generation { 1 ≤ place.generation }
    requires near { place.generation < first + 8 }
    requires last { first < 2 ^ 62 }
    requires position { place.position < 2 ^ 63 }
    requires room { length into.old.items < 2 ^ 62 }
    ensures found { V.tells_contents → IfOk result (λ next. FindsNext first (V.seen volume.old).log place next into.old.items into.new.items) }
    ensures within { IfOk result (λ next. MovesOn first place next into.old.items into.new.items) }
    ensures seen { V.seen volume.new ≡ V.seen volume.old }
    ensures any_moment { LooksOnly V.moment V.left_at volume.old volume.new }
    ensures faults { CountsScanFault result (V.faults volume.old) (V.faults volume.new) }
    ensures identity { V.identity volume.new ≡ V.identity volume.old }
{
    match read_block(volume, place, into) {
        Ok(Some(len)) => Ok(Some(behind_of(place, len))),
        Ok(None) => {
            if place.generation + 1 < first + SLOTS {
                read_first(volume, next_generation_of(place), into)
            } else {
                Ok(None)
            }
        }
        Err(fault) => Err(fault),
    }
}

/// Reads the block at the beginning of a generation, and answers the place behind it.
fn read_first<V: Volume>(
    volume: &mut V,
    place: LogStart,
    into: &mut Vec<u8>,
) -> Result<Option<LogStart>, ScanFault>
    requires generation { 1 ≤ place.generation }
    requires position { place.position < 2 ^ 63 }
    requires room { length into.old.items < 2 ^ 62 }
    ensures found { V.tells_contents → IfOk result (λ next. MatchOption next (open_payload (V.seen volume.old).log place ≡ None)
        (λ behind_it. (payload : List ℕ) × (open_payload (V.seen volume.old).log place ≡ Some payload) × (behind_it ≡ behind place (length payload)) × (into.new.items ≡ into.old.items ++ payload))) }
    ensures within { IfOk result (λ next. MatchOption next (into.new.items ≡ into.old.items)
        (λ behind_it. (len : ℕ) × ReadsWithin place (Some len) into.old.items into.new.items × (behind_it ≡ behind place len))) }
    ensures seen { V.seen volume.new ≡ V.seen volume.old }
    ensures any_moment { LooksOnly V.moment V.left_at volume.old volume.new }
    ensures faults { CountsScanFault result (V.faults volume.old) (V.faults volume.new) }
    ensures identity { V.identity volume.new ≡ V.identity volume.old }
{
    match read_block(volume, place, into) {
        Ok(Some(len)) => Ok(Some(behind_of(place, len))),
        Ok(None) => Ok(None),
        Err(fault) => Err(fault),
    }
}

/// The payload bytes of the open blocks from a place on, and the place behind them, where the next block
/// goes. It writes nothing. Any bytes in the log are safe to scan.
pub fn scan<V: Volume>(
    alloc: Global,
    volume: &mut V,
    from: LogStart,
) -> Result<(Vec<u8>, LogStart), ScanFault>
    requires first { 1 ≤ from.generation }
    requires generation { from.generation < 2 ^ 62 }
    requires position { from.position < 2 ^ 62 }
    ensures found { V.tells_contents → IfOk result (λ r. Scans (V.seen volume.old).log from r.0.items r.1) }
    ensures near { IfOk result (λ r. EndsNear from r.0.items r.1) }
    ensures seen { V.seen volume.new ≡ V.seen volume.old }
    ensures any_moment { LooksOnly V.moment V.left_at volume.old volume.new }
    ensures faults { CountsScanFault result (V.faults volume.old) (V.faults volume.new) }
    ensures identity { V.identity volume.new ≡ V.identity volume.old }
{
    let mut bytes = Vec::new(alloc);
    let mut place = from;
    'walk: loop {
        match read_next(volume, from.generation, place, &mut bytes) {
            Ok(Some(next)) => place = next,
            Ok(None) => return Ok((bytes, place)),
            Err(fault) => return Err(fault),
        }
    }
}
