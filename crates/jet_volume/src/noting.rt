//! A write or a sync of a volume in memory is noted before it is done.

ghost use Rattle.std.specs.Prelude.{◌≡◌, ◌⊎◌, ◌∷◌, ◌≤◌, ◌<◌, ◌+◌, ◌-◌, ◌^◌, reverse, length, take, drop, vec_capacity, IfOk, OnOk, OnErr};
ghost use Rattle.jet_volume.specs.Crash.{written};
ghost use Rattle.jet_volume.specs.Covers.{Covers};
ghost use Rattle.jet_volume.specs.declared.record.Call.{Call};

use crate::file_bytes::overwrite;
use crate::files::File;
use crate::record::{Call, Change};
use jet_io::FaultCount;
use std::alloc::AllocError;

/// Notes a call behind those before it.
pub fn note(calls: &mut Vec<Call>, call: Call) -> Result<(), AllocError>
    ensures ok { OnOk result (reverse calls.new.items ≡ call ∷ reverse calls.old.items) }
    ensures err { OnErr result (calls.new.items ≡ calls.old.items) }
{
    calls.push(call)?;
    Ok(())
}

/// Notes a write that failed. Without room for the note the write leaves no trace, which is counted.
pub fn note_missed(calls: &mut Vec<Call>, short: &mut FaultCount, file: File, at: usize, len: usize)
    ensures { ((reverse calls.new.items ≡ record { file = file; change = Change.Missed at len } ∷ reverse calls.old.items) × (short.new ≡ short.old))
        ⊎ ((calls.new.items ≡ calls.old.items) × (short.new ≡ short.old + 1)) }
{
    let change = Change::Missed { at, len };
    match note(calls, Call { file, change }) {
        Ok(()) => {}
        Err(_) => short.rise(),
    }
}

/// Notes a write, and then writes. Without memory it does neither.
pub fn write_noted(
    calls: &mut Vec<Call>,
    file: File,
    bytes: &mut Vec<u8>,
    at: usize,
    piece: &[u8],
) -> Result<(), AllocError>
    requires { at + length piece.now ≤ 2 ^ 40 }
    ensures written { OnOk result (bytes.new.items ≡ written at piece.now bytes.old.items) }
    ensures noted { OnOk result ((change : _) × (reverse calls.new.items ≡ record { file = file; change = change } ∷ reverse calls.old.items)
        × Covers at (length piece.now) bytes.old.items change) }
    ensures same { OnErr result (bytes.new.items ≡ bytes.old.items) }
    ensures none { OnErr result (calls.new.items ≡ calls.old.items) }
{
    let change = make_ready(bytes, at, piece.len())?;
    note(calls, Call { file, change })?;
    overwrite(bytes, at, piece);
    Ok(())
}

/// Reserves the room of a write, and copies what it is to cover.
fn make_ready(bytes: &mut Vec<u8>, at: usize, len: usize) -> Result<Change, AllocError>
    requires { at + len ≤ 2 ^ 40 }
    ensures same { bytes.new.items ≡ bytes.old.items }
    ensures room { OnOk result (at + len ≤ vec_capacity bytes.new) }
    ensures covers { IfOk result (Covers at len bytes.old.items) }
{
    let size = bytes.len();
    let start = at.min(size);
    let covered = bytes[start..(at + len).min(size)].to_vec(*bytes.allocator())?;
    bytes.reserve((at + len).saturating_sub(size))?;
    Ok(Change::Wrote {
        at,
        len,
        covered,
        size,
    })
}
