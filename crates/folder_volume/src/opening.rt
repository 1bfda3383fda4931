//! How the files of a volume come into its table.

ghost use Rattle.std.specs.Prelude.{◌≡◌, Some, None, Ok, IfOk, OnOk, OnErr, IfSome};
ghost use Rattle.std.specs.String.{string_bytes};
ghost use Rattle.folder_volume.specs.Names.{file_path};
ghost use Rattle.folder_volume.specs.Failures.{FailsWithFolder};
ghost use Rattle.folder_volume.specs.Folder.{SameFiles};
ghost use Rattle.folder_volume.specs.Handles.{handle_of, with_handle, IsNotOpen};
ghost use Rattle.folder_volume.specs.Opened.{IsOpenAt, HoldsItsFiles};

use crate::folder::Folder;
use crate::handles::Handles;
use crate::names::path_to;
use jet_volume::File;
use std::io;

/// Takes a file out of the table. At its first use it is opened or made, and its folder is synced: the file may
/// be new, also where a process that died has made it.
pub fn opened<D: Folder>(
    folder: &mut D,
    name: &String,
    handles: &mut Handles<D::Handle>,
    file: File,
) -> io::Result<D::Handle>
    ensures kept { IfSome (handle_of file handles.old) (λ handle. result ≡ Ok handle) }
    ensures known { D.tells → HoldsItsFiles D.path_of D.is_listed folder.old (string_bytes name.now) handles.old
        → IfOk result (IsOpenAt D.path_of D.is_listed folder.new (file_path (string_bytes name.now) file)) }
    ensures rest { handles.new ≡ with_handle file None handles.old }
    ensures not_open { OnErr result (IsNotOpen file handles.old) }
    ensures files { D.tells → SameFiles D.bytes_at D.is_synced D.is_listed folder.old folder.new }
    ensures failures { FailsWithFolder (IsNotOpen file handles.old) result (D.failures folder.old) (D.failures folder.new) }
{
    match handles.take(file) {
        Some(handle) => Ok(handle),
        None => open(folder, name, file),
    }
}

fn open<D: Folder>(folder: &mut D, name: &String, file: File) -> io::Result<D::Handle>
    ensures known { D.tells → IfOk result (IsOpenAt D.path_of D.is_listed folder.new (file_path (string_bytes name.now) file)) }
    ensures files { D.tells → SameFiles D.bytes_at D.is_synced D.is_listed folder.old folder.new }
    ensures failures { OnOk result (D.failures folder.new ≡ D.failures folder.old) }
{
    let path = path_to(name, file)?;
    let handle = folder.open_or_make(path.as_str())?;
    folder.sync_folder_of(path.as_str())?;
    Ok(handle)
}
