//! Volumes over a folder in memory.

use crate::uses::{FILES, has_own_path, is_used, sync_one};
use folder_volume::{FolderVolume, MemFile, MemFolder};
use jet_io::Failed;
use jet_volume::{File, Volume};
use std::alloc::Global;
use std::process::Abort;
use std::test::*;

// How many calls of the folder `is_used` makes on a new file: two to open it, and one each to write, sync and ask
// the size. The read goes on once, and finds the end of the file.
const CALLS: u64 = 7;

// A folder whose reads and writes move so many bytes, and of which one call fails.
fn folder(rt: &impl Abort, alloc: Global, read: usize, written: usize, call: u64) -> MemFolder {
    let failing = [call].to_vec(alloc).expect(rt, "memory");
    MemFolder::new(alloc, read, written, failing)
}

fn volume(rt: &impl Abort, alloc: Global, folder: MemFolder) -> FolderVolume<MemFolder> {
    let name = String::from_str(alloc, "folder/volume").expect(rt, "memory");
    FolderVolume::in_folder(folder, name)
}

// Whether the folder has these bytes at a path, synced once since they were written, and the name too.
fn is_kept(folder: &MemFolder, path: &str, bytes: &[u8]) -> bool {
    match folder.file(path) {
        Some(file) => {
            file.bytes.as_slice() == bytes && file.is_synced && file.is_listed && file.syncs == 1
        }
        None => false,
    }
}

// Whether a file is made, written, synced and read back, where the folder moves few bytes in a read.
fn is_made(rt: &impl Abort, alloc: Global, file: File, path: &str, most: usize) -> bool {
    let mut volume = volume(rt, alloc, folder(rt, alloc, most, 8, 0));
    is_used(&mut volume, file)
        && is_kept(volume.folder(), path, b"\0\0piece")
        && volume.folder().syncs() == 1
}

#[test]
fn each_file_of_a_folder_is_made_written_synced_and_read(rt: HostRuntime) {
    for (file, path) in FILES {
        for most in [1, 4, 8] {
            assert!(&rt;
                is_made(&rt, rt.alloc(), file, path, most),
                "{path} by {most}"
            );
        }
    }
}

// Whether a call of the folder that fails is a fault, and the file is used as ever behind it.
fn fails_once(rt: &impl Abort, alloc: Global, call: u64) -> bool {
    let mut volume = volume(rt, alloc, folder(rt, alloc, 8, 8, call));
    let is_used_first = is_used(&mut volume, File::Log);
    if call > CALLS {
        return is_used_first && volume.faults() == 0;
    }
    !is_used_first && volume.faults() == 1 && is_used(&mut volume, File::Log)
}

#[test]
fn each_call_of_a_folder_that_fails_is_a_fault(rt: HostRuntime) {
    for call in 1..=CALLS + 1 {
        assert!(&rt; fails_once(&rt, rt.alloc(), call), "call {call}");
    }
}

#[test]
fn a_short_write_of_a_folder_is_a_fault(rt: HostRuntime) {
    let mut volume = volume(&rt, rt.alloc(), folder(&rt, rt.alloc(), 8, 3, 0));
    assert!(&rt; volume.write_at(File::Log, 2, b"piece") == Err(Failed));
    assert!(&rt; volume.faults() == 1);
    assert!(&rt; volume.write_at(File::Log, 0, b"sho") == Ok(()));
    assert!(&rt; volume.sync(File::Log) == Ok(()));
    assert!(&rt; is_kept(volume.folder(), "folder/volume.log", b"shoie"));
}

// A file whose bytes are its own path, synced but not its name.
fn own_path(rt: &impl Abort, alloc: Global, path: &str) -> MemFile {
    MemFile {
        path: String::from_str(alloc, path).expect(rt, "memory"),
        bytes: path.as_bytes().to_vec(alloc).expect(rt, "memory"),
        is_synced: true,
        is_listed: false,
        syncs: 0,
    }
}

// A volume with the four files.
fn four_files(rt: &impl Abort, alloc: Global) -> FolderVolume<MemFolder> {
    let mut folder = folder(rt, alloc, 8, 8, 0);
    for (_, path) in FILES {
        folder.add(own_path(rt, alloc, path)).expect(rt, "memory");
    }
    volume(rt, alloc, folder)
}

#[test]
fn an_existing_file_of_a_folder_keeps_its_bytes(rt: HostRuntime) {
    let mut volume = four_files(&rt, rt.alloc());
    for (file, path) in FILES {
        assert!(&rt; has_own_path(&mut volume, file, path), "{path}");
    }
    for (file, path) in FILES {
        assert!(&rt; has_own_path(&mut volume, file, path), "{path}");
    }
    assert!(&rt; volume.folder().syncs() == 4);
}

// Which of the four files were synced since they were written.
fn synced(folder: &MemFolder) -> [bool; 4] {
    FILES.map(|(_, path)| match folder.file(path) {
        Some(file) => file.is_synced,
        None => false,
    })
}

#[test]
fn a_sync_in_a_folder_is_of_its_file_alone(rt: HostRuntime) {
    for (file, _) in FILES {
        let mut volume = four_files(&rt, rt.alloc());
        assert!(&rt; sync_one(&mut volume, file) == Ok(()));
        assert!(&rt; synced(volume.folder()) == FILES.map(|(other, _)| other == file));
    }
}
