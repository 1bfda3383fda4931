//! Volumes over the files of a system, for which one in memory stands in.

use crate::memory_files::{Disk, MemorySystem};
use crate::uses::{FILES, has_own_path, is_used};
use folder_volume::FileVolume;
use jet_io::Failed;
use jet_volume::{File, Volume};
use std::alloc::Global;
use std::cell::RefCell;
use std::process::Abort;
use std::rc::Rc;
use std::test::*;

// How many calls of the system `use_file` makes on a new file: three to open it, and then two for each read and
// write. The read goes on once, and finds the end of the file.
const CALLS: u64 = 11;

fn folder(rt: &impl Abort, alloc: Global, path: &str) -> Disk {
    Disk::with_folder(alloc, path).expect(rt, "memory")
}

fn volume(
    rt: &impl Abort,
    alloc: Global,
    disk: &Rc<RefCell<Disk>>,
    name: &str,
) -> FileVolume<MemorySystem> {
    let name = String::from_str(alloc, name).expect(rt, "memory");
    let disk = disk.clone().expect(rt, "memory");
    FileVolume::new(MemorySystem { disk }, name)
}

fn shared(rt: &impl Abort, alloc: Global, disk: Disk) -> Rc<RefCell<Disk>> {
    match Rc::new(alloc, RefCell::new(disk)) {
        Ok(disk) => disk,
        Err(_) => panic!(rt; "memory"),
    }
}

// Whether the disk has these bytes at a path, so that a crash leaves them.
fn is_kept(disk: &RefCell<Disk>, path: &str, bytes: &[u8]) -> bool {
    match disk.try_borrow() {
        Ok(disk) => match disk.at(path) {
            Some(stored) => {
                stored.bytes.as_slice() == bytes && stored.is_synced && stored.is_listed
            }
            None => false,
        },
        Err(_) => false,
    }
}

fn count(disk: &RefCell<Disk>) -> usize {
    match disk.try_borrow() {
        Ok(disk) => disk.count(),
        Err(_) => 0,
    }
}

// Whether a file is made, written, synced and read back, where the system moves few bytes in a read.
fn is_made(rt: &impl Abort, alloc: Global, file: File, path: &str, most: usize) -> bool {
    let mut disk = folder(rt, alloc, "folder");
    disk.most_read = most;
    let disk = shared(rt, alloc, disk);
    let mut volume = volume(rt, alloc, &disk, "folder/volume");
    is_used(&mut volume, file) && is_kept(&disk, path, b"\0\0piece") && count(&disk) == 2
}

#[test]
fn each_file_is_made_written_synced_and_read(rt: HostRuntime) {
    for (file, path) in FILES {
        assert!(&rt; is_made(&rt, rt.alloc(), file, path, 8), "{path}");
        assert!(&rt; is_made(&rt, rt.alloc(), file, path, 4), "{path}");
        assert!(&rt; is_made(&rt, rt.alloc(), file, path, 1), "{path}");
    }
}

// A disk with the four files, of which each has its own path as its bytes.
fn four_files(rt: &impl Abort, alloc: Global) -> Rc<RefCell<Disk>> {
    let mut disk = folder(rt, alloc, "folder");
    for (_, path) in FILES {
        disk.add_file(path, path.as_bytes()).expect(rt, "memory");
    }
    shared(rt, alloc, disk)
}

#[test]
fn an_existing_file_keeps_its_bytes(rt: HostRuntime) {
    let disk = four_files(&rt, rt.alloc());
    let mut volume = volume(&rt, rt.alloc(), &disk, "folder/volume");
    for (file, path) in FILES {
        assert!(&rt; has_own_path(&mut volume, file, path), "{path}");
    }
    for (file, path) in FILES {
        assert!(&rt; has_own_path(&mut volume, file, path), "{path}");
        assert!(&rt; is_kept(&disk, path, path.as_bytes()), "{path}");
    }
    assert!(&rt; count(&disk) == 5);
}

// Whether a call of the system that fails is a fault, and the file is used as ever behind it.
fn fails_once(rt: &impl Abort, alloc: Global, call: u64) -> bool {
    let mut disk = folder(rt, alloc, "folder");
    disk.failing = call;
    let disk = shared(rt, alloc, disk);
    let mut volume = volume(rt, alloc, &disk, "folder/volume");
    let is_used_first = is_used(&mut volume, File::Log);
    if call > CALLS {
        return is_used_first && volume.faults() == 0;
    }
    !is_used_first
        && volume.faults() == 1
        && is_used(&mut volume, File::Log)
        && is_kept(&disk, "folder/volume.log", b"\0\0piece")
}

#[test]
fn each_call_of_the_system_that_fails_is_a_fault(rt: HostRuntime) {
    for call in 1..=CALLS + 1 {
        assert!(&rt; fails_once(&rt, rt.alloc(), call), "call {call}");
    }
}

#[test]
fn a_short_write_is_a_fault(rt: HostRuntime) {
    let mut disk = folder(&rt, rt.alloc(), "folder");
    disk.most_written = 3;
    let disk = shared(&rt, rt.alloc(), disk);
    let mut volume = volume(&rt, rt.alloc(), &disk, "folder/volume");
    assert!(&rt; volume.write_at(File::Log, 2, b"piece") == Err(Failed));
    assert!(&rt; volume.faults() == 1);
    assert!(&rt; volume.write_at(File::Log, 0, b"sho") == Ok(()));
    assert!(&rt; volume.sync(File::Log) == Ok(()));
    assert!(&rt; is_kept(&disk, "folder/volume.log", b"shoie"));
}

// The folders that the files of a volume lie in, by its name.
const FOLDERS: [(&str, &str, &str); 4] = [
    ("volume", ".", "volume.log"),
    ("/volume", "/", "/volume.log"),
    ("folder/volume", "folder", "folder/volume.log"),
    ("/a/b/volume", "/a/b", "/a/b/volume.log"),
];

// Whether the folder is synced once, when a file in it is made.
fn syncs_folder(rt: &impl Abort, alloc: Global, name: &str, lies_in: &str, path: &str) -> bool {
    let disk = shared(rt, alloc, folder(rt, alloc, lies_in));
    let mut volume = volume(rt, alloc, &disk, name);
    let is_listed = is_used(&mut volume, File::Log) && is_kept(&disk, path, b"\0\0piece");
    is_listed
        && disk.try_borrow().is_ok_and(|disk| disk.at(lies_in).is_some_and(|file| file.syncs == 1))
}

#[test]
fn the_folder_of_a_file_is_synced(rt: HostRuntime) {
    for (name, lies_in, path) in FOLDERS {
        assert!(&rt;
            syncs_folder(&rt, rt.alloc(), name, lies_in, path),
            "{path}"
        );
    }
}
