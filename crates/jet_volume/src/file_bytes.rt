//! The bytes of a file in memory, and what a read and a write of the file do with them.

ghost use Rattle.std.specs.Prelude.{◌≡◌, ◌≤◌, ◌+◌, ◌-◌, ◌^◌, ◌++◌, min, length, take, drop, replicate, vec_capacity};
ghost use Rattle.jet_volume.specs.Crash.{written};

/// Copies to the front of `into` what stands from an offset on, and answers how many bytes. Those behind stay.
pub fn copy_from(bytes: &[u8], at: u64, into: &mut [u8]) -> usize
    ensures count { result ≡ min (length into.old) (length bytes.now - at) }
    ensures bytes { take result into.new ≡ take result (drop at bytes.now) }
    ensures rest { drop result into.new ≡ drop result into.old }
{
    let start = (at as usize).min(bytes.len());
    let count = into.len().min(bytes.len() - start);
    into[..count].copy_from_slice(&bytes[start..start + count]);
    count
}

/// Writes a piece at an offset. A gap behind the old end gets zeros. The room has to be reserved, so that this takes
/// no memory.
pub fn overwrite(bytes: &mut Vec<u8>, at: usize, piece: &[u8])
    requires short { at + length piece.now ≤ 2 ^ 40 }
    requires room { at + length piece.now ≤ vec_capacity bytes.old }
    ensures { bytes.new.items ≡ written at piece.now bytes.old.items }
{
    let end = at + piece.len();
    grow(bytes, end);
    put(bytes, at, piece);
}

/// Writes a piece over bytes that are there.
fn put(bytes: &mut [u8], at: usize, piece: &[u8])
    requires { at + length piece.now ≤ length bytes.old }
    ensures { bytes.new ≡ take at bytes.old ++ piece.now ++ drop (at + length piece.now) bytes.old }
{
    bytes[at..at + piece.len()].copy_from_slice(piece);
}

/// Adds zeros up to an end.
fn grow(bytes: &mut Vec<u8>, end: usize)
    requires { end ≤ vec_capacity bytes.old }
    ensures { bytes.new.items ≡ bytes.old.items ++ replicate (end - length bytes.old.items) 0 }
{
    if bytes.len() < end {
        // The room is there, so this takes no memory.
        let _reserved = bytes.resize(end, 0);
    }
}
