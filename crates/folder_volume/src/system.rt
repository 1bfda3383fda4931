//! The folder of the system, over std's files.

ghost use Rattle.std.specs.Prelude.{◌≡◌, ◌≤◌, [], ⊤, Some, length, IfOk, IfSome, OnOk};
ghost use Rattle.std.specs.Io.KnownBytes.{ReadConsumes, WriteAppends};
ghost use Rattle.folder_volume.specs.System.{read_write_or_make};

use crate::folder::Folder;
use jet_io::FaultCount;
use std::fs::{OpenFile, OpenOptions};
use std::io::{Read, Seek, SeekFrom, Write};
use std::path::Path;
use std::rt::Files;
use std::{fs, io};

/// The files of the system. It tells nothing of what they hold.
#[derive(Drop)]
pub struct SystemFolder<R: Files + Drop> {
    rt: R,
    failures: FaultCount,
}

impl<R: Files + Drop> SystemFolder<R> {
    pub fn new(rt: R) -> SystemFolder<R> {
        SystemFolder {
            rt,
            failures: FaultCount::new(),
        }
    }
}

impl<R: Files + Drop> Folder for SystemFolder<R> {
    type Handle = R::File;

    ghost tells = { ⊥ };

    ghost path_of = { λ _. [] };

    ghost bytes_at = { λ _ _. [] };

    ghost is_synced = { λ _ _. ⊤ };

    ghost is_listed = { λ _ _. ⊤ };

    ghost failures = { λ f. f.failures };

    fn open_or_make(&mut self, path: &str) -> io::Result<R::File> {
        self.failures.note(how_to_open().open(&self.rt, path))
    }

    fn sync_folder_of(&mut self, path: &str) -> io::Result<()> {
        self.failures.note(sync_folder(&self.rt, folder_of(path)))
    }

    fn size(&mut self, handle: &mut R::File) -> io::Result<u64> {
        self.failures.note(size_of(handle))
    }

    fn read_at(&mut self, handle: &mut R::File, at: u64, into: &mut [u8]) -> io::Result<usize> {
        self.failures.note(read_from(handle, at, into))
    }

    fn write_at(&mut self, handle: &mut R::File, at: u64, piece: &[u8]) -> io::Result<usize> {
        let count = self.failures.note(write_to(handle, at, piece))?;
        self.failures.note_short(count, piece.len());
        Ok(count)
    }

    fn sync(&mut self, handle: &mut R::File) -> io::Result<()> {
        self.failures.note(handle.sync_all())
    }
}

/// Syncs a folder.
fn sync_folder(rt: &impl Files, path: Path<'_>) -> io::Result<()> {
    fs::open(rt, path)?.sync_all()
}

/// The size of a file in bytes.
fn size_of(file: &impl OpenFile) -> io::Result<u64> {
    Ok(file.metadata()?.len())
}

/// Reads once, at an offset.
fn read_from<F: Read + Seek>(file: &mut F, at: u64, into: &mut [u8]) -> io::Result<usize>
    ensures within { IfOk result (λ n. n ≤ length into.old) }

    // Where the file tells its place and its bytes: the read is of those from the offset on.
    ensures asked { OnOk result ((there : F) × IfSome (F.stream_position file.old) (λ _. F.stream_position there ≡ Some at)
        × ReadConsumes (F.remaining there) (F.remaining file.new) result into.new) }
{
    file.seek(SeekFrom::Start(at))?;
    file.read(into)
}

/// Writes once, at an offset.
fn write_to<F: Write + Seek>(file: &mut F, at: u64, piece: &[u8]) -> io::Result<usize>
    ensures within { IfOk result (λ n. n ≤ length piece.now) }

    // Where the file tells its place and its bytes: the write is at the offset.
    ensures asked { OnOk result ((there : F) × IfSome (F.stream_position file.old) (λ _. F.stream_position there ≡ Some at)
        × WriteAppends (F.contents there) (F.contents file.new) result piece.now) }
{
    file.seek(SeekFrom::Start(at))?;
    file.write(piece)
}

/// A file is opened to be read and written. It is made where it is not there, and never cut.
fn how_to_open() -> OpenOptions
    ensures { result ≡ read_write_or_make }
{
    let mut how = OpenOptions::new();
    how.read(true).write(true).create(true);
    how
}

/// The folder that a file lies in.
fn folder_of(path: &str) -> Path<'_> {
    match Path::new(path).parent() {
        Some(parent) if !parent.as_str().is_empty() => parent,
        Some(_) => Path::new("."),
        None => Path::new("/"),
    }
}
