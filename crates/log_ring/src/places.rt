//! Places in the ring: generations, offsets and stream positions.

ghost use Rattle.std.specs.Prelude.{◌≡◌, ◌<◌, ◌≤◌, ◌+◌, ◌^◌, length, take, drop};
ghost use Rattle.std.specs.Int.{w32, w64, from_le_bytes};
ghost use Rattle.log_ring.specs.Blocks.{slot_start, address, behind, next_generation};
ghost use Rattle.log_ring.specs.Gates.{place_for};

use jet_volume::LogStart;

/// The length of a generation's slot in bytes: 2^20.
pub const SLOT_LEN: u32 = 1 << 20;

/// The most payload bytes that a block has.
pub const MAX_PAYLOAD: usize = 65_500;

/// The bytes of a block before its payload: gate, generation, start and length.
pub const HEADER_LEN: usize = 21;

/// The bytes of the longest block, with the gate behind it.
pub const BLOCK_LEN: usize = HEADER_LEN + MAX_PAYLOAD + 1;

/// How many generations lie beside each other in the file.
pub const SLOTS: u64 = 8;

/// Where the slot of a generation begins in the file.
pub fn slot_start_of(generation: u64) -> u64
    requires { 1 ≤ generation }
    ensures place { result ≡ slot_start generation }
    ensures within { result ≤ 7340032 }
{
    u64::from(SLOT_LEN) * ((generation - 1) % SLOTS)
}

/// Where a place is in the file.
pub fn address_of(place: LogStart) -> u64
    requires { 1 ≤ place.generation }
    ensures place { result ≡ address place }
    ensures within { result < 2 ^ 33 }
{
    slot_start_of(place.generation) + u64::from(place.offset)
}

/// The beginning of the generation after that of a place.
pub fn next_generation_of(place: LogStart) -> LogStart
    requires { place.generation < 2 ^ 63 }
    ensures { result ≡ next_generation place }
{
    LogStart {
        generation: place.generation + 1,
        offset: 0,
        position: place.position,
    }
}

/// The place behind a block.
pub fn behind_of(place: LogStart, len: usize) -> LogStart
    requires fits { place.offset + 22 + len ≤ 1048576 }
    requires position { place.position < 2 ^ 63 }
    ensures { result ≡ behind place len }
{
    LogStart {
        generation: place.generation,
        offset: place.offset + 21 + len as u32,
        position: place.position + len as u64,
    }
}

/// The number in eight bytes, the lowest first.
pub fn u64_at(bytes: &[u8], at: usize) -> u64
    requires { at + 8 ≤ length bytes.now }
    ensures { result ≡ from_le_bytes w64 (take 8 (drop at bytes.now)) }
{
    let front = &bytes[at..at + 8];
    u64::from_le_bytes([
        front[0], front[1], front[2], front[3], front[4], front[5], front[6], front[7],
    ])
}

/// The number in four bytes, the lowest first.
pub fn u32_at(bytes: &[u8], at: usize) -> u32
    requires { at + 4 ≤ length bytes.now }
    ensures { result ≡ from_le_bytes w32 (take 4 (drop at bytes.now)) }
{
    let front = &bytes[at..at + 4];
    u32::from_le_bytes([front[0], front[1], front[2], front[3]])
}

/// Where a block of so many payload bytes goes, or `None` where the ring has no room for it.
pub fn choose_place(standing: u64, end: LogStart, len: usize) -> Option<LogStart>
    requires payload { len ≤ 65500 }
    requires generation { end.generation < 2 ^ 63 }
    requires standing { standing < 2 ^ 63 }
    ensures { result ≡ place_for standing end len }
{
    if u64::from(end.offset) + 22 + len as u64 <= u64::from(SLOT_LEN) {
        return Some(end);
    }
    if end.generation + 1 < standing + SLOTS {
        Some(next_generation_of(end))
    } else {
        None
    }
}
