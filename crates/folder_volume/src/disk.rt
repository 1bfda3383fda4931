//! A volume over a folder of files.

ghost use Rattle.std.specs.Prelude.{◌≡◌, ◌+◌, ◌-◌, ◌<◌, ◌≤◌, ◌^◌, ℕ, Ok, length, min, take, drop, IfOk, IsErr, OnOk, OnErr, MatchResult};
ghost use Rattle.jet_io.specs.Faults.{CountsFault};
ghost use Rattle.jet_volume.specs.Image.{Image, no_bytes};
ghost use Rattle.jet_volume.specs.Crash.{written, Torn};
ghost use Rattle.folder_volume.specs.Failures.{FailsWithFolder};
ghost use Rattle.folder_volume.specs.Folder.{SameFiles, SameOtherFiles};

use crate::folder::Folder;
use crate::handles::Handles;
use crate::kept::{read_from, size_of, sync_of, write_to};
use crate::system::SystemFolder;
use jet_io::{Failed, FaultCount};
use jet_volume::{File, Volume};
use std::io;
use std::rt::Files;

/// Four files in a folder, which are opened or made at their first use and then kept open. A file that cannot
/// be opened, a full disk and a short write are faults. As a volume it tells nothing of what the files hold:
/// its own clauses say it of a folder that does.
#[derive(Drop)]
pub struct FolderVolume<D: Folder + Drop> {
    folder: D,
    name: String,
    handles: Handles<D::Handle>,
    faults: FaultCount,
}

/// A volume over real files.
pub type FileVolume<R> = FolderVolume<SystemFolder<R>>;

impl<R: Files + Clone + Drop> FolderVolume<SystemFolder<R>> {
    ghost use Rattle.folder_volume.specs.Disk.{disk_faults};

    /// The files `name.edb`, `name0.chk`, `name1.chk` and `name.log`. None is touched yet.
    pub fn new(rt: R, name: String) -> FolderVolume<SystemFolder<R>>
        ensures { disk_faults result ≡ 0 }
    {
        FolderVolume::in_folder(SystemFolder::new(rt), name)
    }
}

impl<D: Folder + Drop> FolderVolume<D> {
    ghost use Rattle.std.specs.String.{string_bytes};
    ghost use Rattle.folder_volume.specs.Disk.{disk_faults, folder_of, name_of, KeepsItsFiles};

    /// The files of this name in a folder. None is touched yet.
    pub fn in_folder(folder: D, name: String) -> FolderVolume<D>
        ensures folder { folder_of result ≡ folder }
        ensures name { name_of result ≡ string_bytes name }
        ensures kept { KeepsItsFiles D.path_of D.is_listed result }
        ensures faults { disk_faults result ≡ 0 }
    {
        FolderVolume {
            folder,
            name,
            handles: Handles::new(),
            faults: FaultCount::new(),
        }
    }

    /// The folder that the files lie in.
    pub fn folder(&self) -> &D
        ensures { result.now ≡ folder_of self.now }
    {
        &self.folder
    }
}

impl<D: Folder + Drop> Volume for FolderVolume<D> {
    ghost use Rattle.folder_volume.specs.Handles.{IsNotOpen, KeepsOpen};
    ghost use Rattle.folder_volume.specs.Disk.{disk_faults, folder_of, handles_of, name_of, path_in, KeepsItsFiles};

    ghost tells_contents = { ⊥ };

    ghost seen = { λ _. no_bytes };

    ghost moment = { λ _. 0 };

    ghost left_at = { λ _ _ _. ⊥ };

    ghost faults = { λ v. v.faults };

    ghost identity = { λ _. 0 };

    ghost seen_may_stay = { λ _ tells. absurd tells };

    fn size(&mut self, file: File) -> Result<u64, Failed>
        ensures faults { CountsFault result (disk_faults self.old) (disk_faults self.new) }

        // It is a fault only where the folder failed in this call, or at the first use of the file for want of memory.
        ensures failures { FailsWithFolder (IsNotOpen file (handles_of self.old)) result (D.failures (folder_of self.old)) (D.failures (folder_of self.new)) }
        ensures open { KeepsOpen file result (handles_of self.old) (handles_of self.new) }

        // Over a folder that tells what its files hold.
        ensures size { D.tells → KeepsItsFiles D.path_of D.is_listed self.old
            → IfOk result (λ n. n ≡ length (D.bytes_at (folder_of self.old) (path_in self.old file))) }
        ensures kept { D.tells → KeepsItsFiles D.path_of D.is_listed self.old → KeepsItsFiles D.path_of D.is_listed self.new }
        ensures files { D.tells → SameFiles D.bytes_at D.is_synced D.is_listed (folder_of self.old) (folder_of self.new) }
        ensures name { name_of self.new ≡ name_of self.old }
    {
        let outcome = size_of(&mut self.folder, &self.name, &mut self.handles, file);
        counted(outcome, &mut self.faults)
    }

    fn read(&mut self, file: File, at: u64, into: &mut [u8]) -> Result<usize, Failed>
        ensures within { IfOk result (λ n. n ≤ length into.old) }
        ensures faults { CountsFault result (disk_faults self.old) (disk_faults self.new) }

        // It is a fault only where the folder failed in this call, or at the first use of the file for want of memory.
        ensures failures { FailsWithFolder (IsNotOpen file (handles_of self.old)) result (D.failures (folder_of self.old)) (D.failures (folder_of self.new)) }
        ensures open { KeepsOpen file result (handles_of self.old) (handles_of self.new) }

        // Over a folder that tells what its files hold.
        ensures count { D.tells → KeepsItsFiles D.path_of D.is_listed self.old
            → IfOk result (λ n. n ≡ min (length into.old) (length (D.bytes_at (folder_of self.old) (path_in self.old file)) - at)) }
        ensures bytes { D.tells → KeepsItsFiles D.path_of D.is_listed self.old
            → IfOk result (λ n. take n into.new ≡ take n (drop at (D.bytes_at (folder_of self.old) (path_in self.old file)))) }
        ensures kept { D.tells → KeepsItsFiles D.path_of D.is_listed self.old → KeepsItsFiles D.path_of D.is_listed self.new }
        ensures files { D.tells → SameFiles D.bytes_at D.is_synced D.is_listed (folder_of self.old) (folder_of self.new) }
        ensures name { name_of self.new ≡ name_of self.old }
    {
        let outcome = read_from(
            &mut self.folder,
            &self.name,
            &mut self.handles,
            file,
            at,
            into,
        );
        counted(outcome, &mut self.faults)
    }

    fn write_at(&mut self, file: File, at: u64, piece: &[u8]) -> Result<(), Failed>
        requires some { 0 < length piece.now }
        requires end { at + length piece.now ≤ 2 ^ 40 }
        ensures faults { CountsFault result (disk_faults self.old) (disk_faults self.new) }

        // It is a fault only where the folder failed in this call, or at the first use of the file for want of memory.
        ensures failures { FailsWithFolder (IsNotOpen file (handles_of self.old)) result (D.failures (folder_of self.old)) (D.failures (folder_of self.new)) }
        ensures open { KeepsOpen file result (handles_of self.old) (handles_of self.new) }

        // Over a folder that tells what its files hold. A write that fails may have come in part.
        ensures written { D.tells → KeepsItsFiles D.path_of D.is_listed self.old
            → OnOk result (D.bytes_at (folder_of self.new) (path_in self.old file) ≡ written at piece.now (D.bytes_at (folder_of self.old) (path_in self.old file))) }
        ensures torn { D.tells → KeepsItsFiles D.path_of D.is_listed self.old
            → Torn at (length piece.now) (D.bytes_at (folder_of self.old) (path_in self.old file)) (D.bytes_at (folder_of self.new) (path_in self.old file)) }
        ensures others { D.tells → KeepsItsFiles D.path_of D.is_listed self.old
            → SameOtherFiles D.bytes_at D.is_synced D.is_listed (path_in self.old file) (folder_of self.old) (folder_of self.new) }
        ensures kept { D.tells → KeepsItsFiles D.path_of D.is_listed self.old → KeepsItsFiles D.path_of D.is_listed self.new }
        ensures name { name_of self.new ≡ name_of self.old }
    {
        let outcome = write_to(
            &mut self.folder,
            &self.name,
            &mut self.handles,
            file,
            at,
            piece,
        );
        counted(outcome, &mut self.faults)
    }

    fn sync(&mut self, file: File) -> Result<(), Failed>
        ensures faults { CountsFault result (disk_faults self.old) (disk_faults self.new) }

        // It is a fault only where the folder failed in this call, or at the first use of the file for want of memory.
        ensures failures { FailsWithFolder (IsNotOpen file (handles_of self.old)) result (D.failures (folder_of self.old)) (D.failures (folder_of self.new)) }
        ensures open { KeepsOpen file result (handles_of self.old) (handles_of self.new) }

        // Over a folder that tells what its files hold.
        ensures synced { D.tells → KeepsItsFiles D.path_of D.is_listed self.old
            → OnOk result (D.is_synced (folder_of self.new) (path_in self.old file)) }
        ensures listed { D.tells → KeepsItsFiles D.path_of D.is_listed self.old
            → OnOk result (D.is_listed (folder_of self.new) (path_in self.old file)) }
        ensures kept { D.tells → KeepsItsFiles D.path_of D.is_listed self.old → KeepsItsFiles D.path_of D.is_listed self.new }
        ensures files { D.tells → SameFiles D.bytes_at D.is_synced D.is_listed (folder_of self.old) (folder_of self.new) }
        ensures name { name_of self.new ≡ name_of self.old }
    {
        let outcome = sync_of(&mut self.folder, &self.name, &mut self.handles, file);
        counted(outcome, &mut self.faults)
    }

    fn faults(&self) -> u64 {
        self.faults.shown()
    }
}

/// An error of the folder is a fault.
fn counted<T: Drop>(outcome: io::Result<T>, faults: &mut FaultCount) -> Result<T, Failed>
    ensures value { IfOk result (λ value. outcome ≡ Ok value) }
    ensures failed { OnErr result (IsErr outcome) }
    ensures faults { MatchResult result (λ _. faults.new ≡ faults.old) (λ _. faults.new ≡ faults.old + 1) }
{
    match outcome {
        Ok(value) => Ok(value),
        Err(_) => {
            faults.rise();
            Err(Failed)
        }
    }
}
