//! The files of a folder in memory, each as it was after each of its changes.

ghost use Rattle.std.specs.Prelude.{◌≡◌, ◌+◌, ◌^◌, ◌≤◌, ◌∷◌, reverse, length, Some, None, IfOk, IfSome, IfNone, OnOk, OnErr};
ghost use Rattle.folder_volume.specs.Files.{new_file, after_write, after_sync, after_listing, found, with_change, with_opened, missing, FailsForOrMemory};

use jet_volume::overwrite;
use std::alloc::{AllocError, Global};
use std::io;
use std::io::ErrorKind;
use std::marker::Model;

/// A file of a folder in memory, at a moment.
#[derive(Drop)]
pub struct MemFile {
    pub path: String,
    /// What a read gives.
    pub bytes: Vec<u8>,
    /// It was synced, and not written since.
    pub is_synced: bool,
    /// Its folder was synced since it was made.
    pub is_listed: bool,
    /// How often it was synced, or 2^64 - 1 where that is more.
    pub syncs: u64,
}

impl Model for MemFile {
    ghost use Rattle.std.specs.String.{string_bytes};
    ghost use Rattle.folder_volume.specs.Files.{FileState};

    ghost Value = { FileState };

    ghost view = { λ f. record { path = string_bytes f.path; bytes = f.bytes.items; is_synced = f.is_synced; is_listed = f.is_listed; syncs = f.syncs } };
}

impl MemFile {
    /// A file that was just made.
    pub fn new(alloc: Global, path: &str) -> Result<MemFile, AllocError>
        ensures { IfOk result (λ file. file ≡ new_file path.now) }
    {
        Ok(MemFile {
            path: String::from_str(alloc, path)?,
            bytes: Vec::new(alloc),
            is_synced: false,
            is_listed: false,
            syncs: 0,
        })
    }

    /// Writes a piece at an offset. A gap behind the old end reads as zeros.
    fn write(&mut self, at: usize, piece: &[u8]) -> Result<(), AllocError>
        requires { at + length piece.now ≤ 2 ^ 40 }
        ensures ok { OnOk result (self.new ≡ after_write at piece.now self.old) }
        ensures err { OnErr result (self.new ≡ self.old) }
    {
        let size = self.bytes.len();
        self.bytes.reserve((at + piece.len()).saturating_sub(size))?;
        overwrite(&mut self.bytes, at, piece);
        self.is_synced = false;
        Ok(())
    }
}

/// Keeps a file as it now is.
pub fn keep(files: &mut Vec<MemFile>, file: MemFile) -> Result<(), AllocError>
    ensures ok { OnOk result (reverse files.new.items ≡ file ∷ reverse files.old.items) }
    ensures err { OnErr result (files.new.items ≡ files.old.items) }
{
    files.push(file)?;
    Ok(())
}

/// The newest of the files at a path.
pub fn find<'a>(files: &'a [MemFile], path: &str) -> Option<&'a MemFile>
    ensures some { IfSome result (λ file. found (reverse files.now) path.now ≡ Some file.now) }
    ensures none { IfNone result (found (reverse files.now) path.now ≡ None) }
{
    let [earlier @ .., file] = files else {
        return None;
    };
    if file.path.as_str() == path {
        return Some(file);
    }
    find(earlier, path)
}

/// Makes a file at a path where there is none.
pub fn open(alloc: Global, files: &mut Vec<MemFile>, path: &str) -> io::Result<()>
    ensures ok { OnOk result (reverse files.new.items ≡ with_opened path.now (reverse files.old.items)) }
    ensures err { OnErr result (files.new.items ≡ files.old.items) }
    ensures told { FailsForOrMemory None result }
{
    match find(files, path) {
        Some(_) => Ok(()),
        None => {
            let file = MemFile::new(alloc, path)?;
            keep(files, file)?;
            Ok(())
        }
    }
}

/// Writes a piece to the newest of the files at a path.
pub fn write(
    alloc: Global,
    files: &mut Vec<MemFile>,
    path: &str,
    at: usize,
    piece: &[u8],
) -> io::Result<()>
    requires { at + length piece.now ≤ 2 ^ 40 }
    ensures ok { OnOk result (reverse files.new.items ≡ with_change (after_write at piece.now) path.now (reverse files.old.items)) }
    ensures err { OnErr result (files.new.items ≡ files.old.items) }
    ensures told { FailsForOrMemory (missing (found (reverse files.old.items) path.now)) result }
{
    let mut file = copy_of(alloc, files, path)?;
    file.write(at, piece)?;
    keep(files, file)?;
    Ok(())
}

/// Syncs the newest of the files at a path.
pub fn sync(alloc: Global, files: &mut Vec<MemFile>, path: &str) -> io::Result<()>
    ensures ok { OnOk result (reverse files.new.items ≡ with_change after_sync path.now (reverse files.old.items)) }
    ensures err { OnErr result (files.new.items ≡ files.old.items) }
    ensures told { FailsForOrMemory (missing (found (reverse files.old.items) path.now)) result }
{
    let mut file = copy_of(alloc, files, path)?;
    file.is_synced = true;
    file.syncs = file.syncs.saturating_add(1);
    keep(files, file)?;
    Ok(())
}

/// Notes that the folder was synced since the newest of the files at a path was made.
pub fn list(alloc: Global, files: &mut Vec<MemFile>, path: &str) -> io::Result<()>
    ensures ok { OnOk result (reverse files.new.items ≡ with_change after_listing path.now (reverse files.old.items)) }
    ensures err { OnErr result (files.new.items ≡ files.old.items) }
    ensures told { FailsForOrMemory (missing (found (reverse files.old.items) path.now)) result }
{
    let mut file = copy_of(alloc, files, path)?;
    file.is_listed = true;
    keep(files, file)?;
    Ok(())
}

/// A copy of the newest of the files at a path, which is then changed.
fn copy_of(alloc: Global, files: &[MemFile], path: &str) -> io::Result<MemFile>
    ensures ok { IfOk result (λ file. found (reverse files.now) path.now ≡ Some file) }
    ensures told { FailsForOrMemory (missing (found (reverse files.now) path.now)) result }
{
    match find(files, path) {
        Some(file) => Ok(copied(alloc, file)?),
        None => Err(ErrorKind::NotFound.into()),
    }
}

fn copied(alloc: Global, file: &MemFile) -> Result<MemFile, AllocError>
    ensures { IfOk result (λ copy. copy ≡ file.now) }
{
    Ok(MemFile {
        path: file.path.clone()?,
        bytes: file.bytes.as_slice().to_vec(alloc)?,
        is_synced: file.is_synced,
        is_listed: file.is_listed,
        syncs: file.syncs,
    })
}
