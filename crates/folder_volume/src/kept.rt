//! The calls of a volume over its folder and the files that it keeps open.

ghost use Rattle.std.specs.Prelude.{◌≡◌, ◌+◌, ◌-◌, ◌<◌, ◌≤◌, ◌^◌, length, min, take, drop, IfOk, OnOk};
ghost use Rattle.std.specs.String.{string_bytes};
ghost use Rattle.jet_volume.specs.Crash.{written, Torn};
ghost use Rattle.folder_volume.specs.Names.{file_path};
ghost use Rattle.folder_volume.specs.Failures.{FailsWithFolder};
ghost use Rattle.folder_volume.specs.Folder.{SameFiles, SameOtherFiles};
ghost use Rattle.folder_volume.specs.Handles.{IsNotOpen, KeepsOpen};
ghost use Rattle.folder_volume.specs.Opened.{HoldsItsFiles};

use crate::folder::Folder;
use crate::handles::Handles;
use crate::opening::opened;
use crate::whole::{read_whole, write_whole};
use jet_volume::File;
use std::io;

/// The size of a file.
pub fn size_of<D: Folder>(
    folder: &mut D,
    name: &String,
    handles: &mut Handles<D::Handle>,
    file: File,
) -> io::Result<u64>
    ensures size { D.tells → HoldsItsFiles D.path_of D.is_listed folder.old (string_bytes name.now) handles.old
        → IfOk result (λ n. n ≡ length (D.bytes_at folder.old (file_path (string_bytes name.now) file))) }
    ensures kept { D.tells → HoldsItsFiles D.path_of D.is_listed folder.old (string_bytes name.now) handles.old
        → HoldsItsFiles D.path_of D.is_listed folder.new (string_bytes name.now) handles.new }
    ensures files { D.tells → SameFiles D.bytes_at D.is_synced D.is_listed folder.old folder.new }
    ensures open { KeepsOpen file result handles.old handles.new }
    ensures failures { FailsWithFolder (IsNotOpen file handles.old) result (D.failures folder.old) (D.failures folder.new) }
{
    match opened(folder, name, handles, file) {
        Ok(mut handle) => {
            let size = folder.size(&mut handle);
            handles.put(file, handle);
            size
        }
        Err(error) => Err(error),
    }
}

/// Reads from an offset on.
pub fn read_from<D: Folder>(
    folder: &mut D,
    name: &String,
    handles: &mut Handles<D::Handle>,
    file: File,
    at: u64,
    into: &mut [u8],
) -> io::Result<usize>
    ensures within { IfOk result (λ n. n ≤ length into.old) }
    ensures count { D.tells → HoldsItsFiles D.path_of D.is_listed folder.old (string_bytes name.now) handles.old
        → IfOk result (λ n. n ≡ min (length into.old) (length (D.bytes_at folder.old (file_path (string_bytes name.now) file)) - at)) }
    ensures bytes { D.tells → HoldsItsFiles D.path_of D.is_listed folder.old (string_bytes name.now) handles.old
        → IfOk result (λ n. take n into.new ≡ take n (drop at (D.bytes_at folder.old (file_path (string_bytes name.now) file)))) }
    ensures kept { D.tells → HoldsItsFiles D.path_of D.is_listed folder.old (string_bytes name.now) handles.old
        → HoldsItsFiles D.path_of D.is_listed folder.new (string_bytes name.now) handles.new }
    ensures files { D.tells → SameFiles D.bytes_at D.is_synced D.is_listed folder.old folder.new }
    ensures open { KeepsOpen file result handles.old handles.new }
    ensures failures { FailsWithFolder (IsNotOpen file handles.old) result (D.failures folder.old) (D.failures folder.new) }
{
    match opened(folder, name, handles, file) {
        Ok(mut handle) => {
            let count = read_whole(folder, &mut handle, at, into);
            handles.put(file, handle);
            count
        }
        Err(error) => Err(error),
    }
}

/// Writes a piece at an offset.
pub fn write_to<D: Folder>(
    folder: &mut D,
    name: &String,
    handles: &mut Handles<D::Handle>,
    file: File,
    at: u64,
    piece: &[u8],
) -> io::Result<()>
    requires some { 0 < length piece.now }
    requires end { at + length piece.now ≤ 2 ^ 40 }
    ensures written { D.tells → HoldsItsFiles D.path_of D.is_listed folder.old (string_bytes name.now) handles.old
        → OnOk result (D.bytes_at folder.new (file_path (string_bytes name.now) file) ≡ written at piece.now (D.bytes_at folder.old (file_path (string_bytes name.now) file))) }
    ensures torn { D.tells → HoldsItsFiles D.path_of D.is_listed folder.old (string_bytes name.now) handles.old
        → Torn at (length piece.now) (D.bytes_at folder.old (file_path (string_bytes name.now) file)) (D.bytes_at folder.new (file_path (string_bytes name.now) file)) }
    ensures others { D.tells → HoldsItsFiles D.path_of D.is_listed folder.old (string_bytes name.now) handles.old
        → SameOtherFiles D.bytes_at D.is_synced D.is_listed (file_path (string_bytes name.now) file) folder.old folder.new }
    ensures kept { D.tells → HoldsItsFiles D.path_of D.is_listed folder.old (string_bytes name.now) handles.old
        → HoldsItsFiles D.path_of D.is_listed folder.new (string_bytes name.now) handles.new }
    ensures open { KeepsOpen file result handles.old handles.new }
    ensures failures { FailsWithFolder (IsNotOpen file handles.old) result (D.failures folder.old) (D.failures folder.new) }
{
    match opened(folder, name, handles, file) {
        Ok(mut handle) => {
            let outcome = write_whole(folder, &mut handle, at, piece);
            handles.put(file, handle);
            outcome
        }
        Err(error) => Err(error),
    }
}

/// Syncs a file.
pub fn sync_of<D: Folder>(
    folder: &mut D,
    name: &String,
    handles: &mut Handles<D::Handle>,
    file: File,
) -> io::Result<()>
    ensures synced { D.tells → HoldsItsFiles D.path_of D.is_listed folder.old (string_bytes name.now) handles.old
        → OnOk result (D.is_synced folder.new (file_path (string_bytes name.now) file)) }
    ensures listed { D.tells → HoldsItsFiles D.path_of D.is_listed folder.old (string_bytes name.now) handles.old
        → OnOk result (D.is_listed folder.new (file_path (string_bytes name.now) file)) }
    ensures kept { D.tells → HoldsItsFiles D.path_of D.is_listed folder.old (string_bytes name.now) handles.old
        → HoldsItsFiles D.path_of D.is_listed folder.new (string_bytes name.now) handles.new }
    ensures files { D.tells → SameFiles D.bytes_at D.is_synced D.is_listed folder.old folder.new }
    ensures open { KeepsOpen file result handles.old handles.new }
    ensures failures { FailsWithFolder (IsNotOpen file handles.old) result (D.failures folder.old) (D.failures folder.new) }
{
    match opened(folder, name, handles, file) {
        Ok(mut handle) => {
            let outcome = folder.sync(&mut handle);
            handles.put(file, handle);
            outcome
        }
        Err(error) => Err(error),
    }
}
