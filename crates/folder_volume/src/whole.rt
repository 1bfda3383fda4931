//! Whole reads and writes of an open file.

ghost use Rattle.std.specs.Prelude.{◌≡◌, ◌<◌, ◌≤◌, ◌+◌, ◌-◌, ◌^◌, min, length, take, drop, IfOk, OnOk};
ghost use Rattle.jet_io.specs.Faults.{CountsFault};
ghost use Rattle.jet_volume.specs.Crash.{written, Torn};
ghost use Rattle.folder_volume.specs.Folder.{SameFiles, SameOtherFiles};

use crate::folder::Folder;
use std::io;
use std::io::ErrorKind;

/// Reads from an offset on until the slice is full or the file ends, which it does before 2^64.
pub fn read_whole<D: Folder>(
    folder: &mut D,
    handle: &mut D::Handle,
    at: u64,
    into: &mut [u8],
) -> io::Result<usize>
    ensures within { IfOk result (λ n. n ≤ length into.old) }
    ensures count { D.tells → IfOk result (λ n. n ≡ min (length into.old) (length (D.bytes_at folder.old (D.path_of handle.old)) - at)) }
    ensures bytes { D.tells → IfOk result (λ n. take n into.new ≡ take n (drop at (D.bytes_at folder.old (D.path_of handle.old)))) }
    ensures path { D.tells → D.path_of handle.new ≡ D.path_of handle.old }
    ensures files { D.tells → SameFiles D.bytes_at D.is_synced D.is_listed folder.old folder.new }
    ensures failures { CountsFault result (D.failures folder.old) (D.failures folder.new) }
{
    let mut got = 0;
    while got < into.len() {
        let Some(from) = at.checked_add(got as u64) else {
            return Ok(got);
        };
        let count = folder.read_at(handle, from, &mut into[got..])?;
        if count == 0 {
            return Ok(got);
        }
        got += count;
    }
    Ok(got)
}

/// Writes a whole piece at an offset, in one write. A short one is an error.
pub fn write_whole<D: Folder>(
    folder: &mut D,
    handle: &mut D::Handle,
    at: u64,
    piece: &[u8],
) -> io::Result<()>
    requires some { 0 < length piece.now }
    requires end { at + length piece.now ≤ 2 ^ 40 }
    ensures written { D.tells → OnOk result (D.bytes_at folder.new (D.path_of handle.old) ≡ written at piece.now (D.bytes_at folder.old (D.path_of handle.old))) }
    ensures torn { D.tells → Torn at (length piece.now) (D.bytes_at folder.old (D.path_of handle.old)) (D.bytes_at folder.new (D.path_of handle.old)) }
    ensures path { D.tells → D.path_of handle.new ≡ D.path_of handle.old }
    ensures others { D.tells → SameOtherFiles D.bytes_at D.is_synced D.is_listed (D.path_of handle.old) folder.old folder.new }
    ensures failures { CountsFault result (D.failures folder.old) (D.failures folder.new) }
{
    let count = folder.write_at(handle, at, piece)?;
    if count < piece.len() {
        return Err(ErrorKind::WriteZero.into());
    }
    Ok(())
}
