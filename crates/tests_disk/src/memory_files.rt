//! A system of files in memory, with which a volume over real files is tested. It moves few bytes at a time, fails at
//! a call, and keeps what was synced.

ghost use Rattle.std.specs.Prelude.{◌≤◌, length, IfOk};

use std::alloc::{AllocError, Allocator, Global};
use std::cell::{RefCell, RefMut};
use std::fs::{Metadata, OpenFile, OpenOptions};
use std::io;
use std::io::{ErrorKind, Read, Seek, SeekFrom, Write};
use std::rc::Rc;
use std::rt::Files;

/// A file, or a folder, which has no bytes.
#[derive(Drop)]
pub struct Stored {
    path: String,
    is_folder: bool,
    pub bytes: Vec<u8>,
    /// It was synced, and nothing was written since.
    pub is_synced: bool,
    /// Its folder was synced since it was made.
    pub is_listed: bool,
    pub syncs: u64,
}

/// What the files have, and which call fails.
#[derive(Drop)]
pub struct Disk {
    alloc: Global,
    files: Vec<Stored>,
    calls: u64,
    /// The number of the call that fails, from 1. None is numbered 0.
    pub failing: u64,
    /// The most bytes that a read moves.
    pub most_read: usize,
    /// The most bytes that a write moves.
    pub most_written: usize,
}

impl Disk {
    /// A disk with a folder alone. Its calls move as many bytes as they are asked to, and none fails.
    pub fn with_folder(alloc: Global, path: &str) -> Result<Disk, AllocError> {
        let mut disk = Disk {
            alloc,
            files: Vec::new(alloc),
            calls: 0,
            failing: 0,
            most_read: usize::MAX,
            most_written: usize::MAX,
        };
        disk.add(path, true, &[])?;
        Ok(disk)
    }

    /// Adds a file with these bytes, as one that was synced.
    pub fn add_file(&mut self, path: &str, bytes: &[u8]) -> Result<(), AllocError> {
        self.add(path, false, bytes)
    }

    fn add(&mut self, path: &str, is_folder: bool, bytes: &[u8]) -> Result<(), AllocError> {
        let stored = Stored {
            path: String::from_str(self.alloc, path)?,
            is_folder,
            bytes: bytes.to_vec(self.alloc)?,
            is_synced: true,
            is_listed: true,
            syncs: 0,
        };
        self.files.push(stored)?;
        Ok(())
    }

    /// How many files and folders there are.
    pub fn count(&self) -> usize {
        self.files.len()
    }

    /// The file at a path.
    pub fn at(&self, path: &str) -> Option<&Stored> {
        self.files.iter().find(|file| file.path.as_str() == path)
    }

    fn begin_call(&mut self) -> io::Result<()> {
        self.calls = self.calls.saturating_add(1);
        if self.calls == self.failing {
            return Err(ErrorKind::Other.into());
        }
        Ok(())
    }

    fn open(&mut self, how: &OpenOptions, path: &str) -> io::Result<usize> {
        self.begin_call()?;
        how.check()?;
        match self
            .files
            .iter()
            .position(|file| file.path.as_str() == path)
        {
            Some(index) => {
                self.open_stored(how, index)?;
                Ok(index)
            }
            None => self.make(how, path),
        }
    }

    fn open_stored(&mut self, how: &OpenOptions, index: usize) -> io::Result<()> {
        let stored = self.file(index)?;
        if how.asks_create_new() {
            return Err(ErrorKind::AlreadyExists.into());
        }
        if stored.is_folder && how.asks_write() {
            return Err(ErrorKind::IsADirectory.into());
        }
        if how.asks_truncate() {
            stored.bytes.clear();
        }
        Ok(())
    }

    fn make(&mut self, how: &OpenOptions, path: &str) -> io::Result<usize> {
        if !how.asks_create() && !how.asks_create_new() {
            return Err(ErrorKind::NotFound.into());
        }
        let index = self.files.len();
        self.add(path, false, &[])?;
        let stored = self.file(index)?;
        stored.is_synced = false;
        stored.is_listed = false;
        Ok(index)
    }

    fn file(&mut self, index: usize) -> io::Result<&mut Stored> {
        match self.files.get_mut(index) {
            Some(stored) => Ok(stored),
            None => Err(ErrorKind::NotFound.into()),
        }
    }

    fn size(&mut self, index: usize) -> io::Result<u64> {
        self.begin_call()?;
        Ok(self.file(index)?.bytes.len() as u64)
    }

    fn read(&mut self, index: usize, at: u64, into: &mut [u8]) -> io::Result<usize>
        ensures { IfOk result (λ n. n ≤ length into.old) }
    {
        self.begin_call()?;
        let most = self.most_read.min(into.len());
        Ok(self.file(index)?.read(at as usize, &mut into[..most]))
    }

    fn write(&mut self, index: usize, at: u64, piece: &[u8]) -> io::Result<usize>
        ensures { IfOk result (λ n. n ≤ length piece.now) }
    {
        self.begin_call()?;
        let count = self.most_written.min(piece.len());
        self.file(index)?.write(at as usize, &piece[..count])?;
        Ok(count)
    }

    fn sync(&mut self, index: usize) -> io::Result<()> {
        self.begin_call()?;
        let stored = self.file(index)?;
        stored.is_synced = true;
        stored.syncs = stored.syncs.saturating_add(1);
        if stored.is_folder {
            for file in self.files.iter_mut() {
                file.is_listed = true;
            }
        }
        Ok(())
    }
}

impl Stored {
    fn read(&self, at: usize, into: &mut [u8]) -> usize
        ensures { result ≤ length into.old }
    {
        let start = at.min(self.bytes.len());
        let count = into.len().min(self.bytes.len() - start);
        into[..count].copy_from_slice(&self.bytes[start..start + count]);
        count
    }

    fn write(&mut self, at: usize, piece: &[u8]) -> Result<(), AllocError> {
        let Some(end) = at.checked_add(piece.len()) else {
            return Err(AllocError);
        };
        if self.bytes.len() < end {
            self.bytes.resize(end, 0)?;
        }
        self.bytes[at..end].copy_from_slice(piece);
        self.is_synced = false;
        Ok(())
    }
}

/// A disk that is shared by the files that are open.
#[derive(Clone, Drop)]
pub struct MemorySystem {
    pub disk: Rc<RefCell<Disk>>,
}

/// The disk, where no other call is using it.
fn lent(disk: &RefCell<Disk>) -> io::Result<RefMut<'_, Disk>> {
    match disk.try_borrow_mut() {
        Ok(disk) => Ok(disk),
        Err(_) => Err(ErrorKind::ResourceBusy.into()),
    }
}

/// A file of the disk that is open.
#[derive(Drop)]
pub struct MemoryFile {
    disk: Rc<RefCell<Disk>>,
    index: usize,
    position: u64,
    is_read: bool,
    is_written: bool,
    is_appended: bool,
}

impl Read for MemoryFile {
    fn read(&mut self, buf: &mut [u8]) -> io::Result<usize> {
        if !self.is_read {
            return Err(ErrorKind::PermissionDenied.into());
        }
        let count = lent(&self.disk)?.read(self.index, self.position, buf)?;
        self.position = self.position.saturating_add(count as u64);
        Ok(count)
    }
}

impl Write for MemoryFile {
    fn write(&mut self, buf: &[u8]) -> io::Result<usize> {
        if !self.is_written {
            return Err(ErrorKind::PermissionDenied.into());
        }
        if self.is_appended {
            self.position = lent(&self.disk)?.size(self.index)?;
        }
        let count = lent(&self.disk)?.write(self.index, self.position, buf)?;
        self.position = self.position.saturating_add(count as u64);
        Ok(count)
    }

    fn flush(&mut self) -> io::Result<()> {
        Ok(())
    }
}

impl Seek for MemoryFile {
    fn seek(&mut self, to: SeekFrom) -> io::Result<u64> {
        let mut disk = lent(&self.disk)?;
        disk.begin_call()?;
        match to {
            SeekFrom::Start(at) => {
                self.position = at;
                Ok(at)
            }
            _ => Err(ErrorKind::Unsupported.into()),
        }
    }
}

impl OpenFile for MemoryFile {
    fn metadata(&self) -> io::Result<Metadata> {
        Ok(Metadata::of_file(lent(&self.disk)?.size(self.index)?))
    }

    fn set_len(&self, _size: u64) -> io::Result<()> {
        Err(ErrorKind::Unsupported.into())
    }

    fn sync_all(&self) -> io::Result<()> {
        lent(&self.disk)?.sync(self.index)
    }

    fn sync_data(&self) -> io::Result<()> {
        Err(ErrorKind::Unsupported.into())
    }
}

impl Files for MemorySystem {
    type File = MemoryFile;

    type Dir = MemoryFile;

    fn open_file(&self, how: &OpenOptions, path: &str) -> io::Result<MemoryFile> {
        let index = lent(&self.disk)?.open(how, path)?;
        Ok(MemoryFile {
            disk: self.disk.clone()?,
            index,
            position: 0,
            is_read: how.asks_read(),
            is_written: how.asks_write() || how.asks_append(),
            is_appended: how.asks_append(),
        })
    }

    fn open_dir(&self, _path: &str) -> io::Result<MemoryFile> {
        Err(ErrorKind::Unsupported.into())
    }

    fn metadata(&self, _path: &str) -> io::Result<Metadata> {
        Err(ErrorKind::Unsupported.into())
    }

    fn symlink_metadata(&self, _path: &str) -> io::Result<Metadata> {
        Err(ErrorKind::Unsupported.into())
    }

    fn copy(&self, _from: &str, _to: &str) -> io::Result<u64> {
        Err(ErrorKind::Unsupported.into())
    }

    fn rename(&self, _from: &str, _to: &str) -> io::Result<()> {
        Err(ErrorKind::Unsupported.into())
    }

    fn remove_file(&self, _path: &str) -> io::Result<()> {
        Err(ErrorKind::Unsupported.into())
    }

    fn create_dir(&self, _path: &str) -> io::Result<()> {
        Err(ErrorKind::Unsupported.into())
    }

    fn remove_dir(&self, _path: &str) -> io::Result<()> {
        Err(ErrorKind::Unsupported.into())
    }

    fn remove_dir_all<B: Allocator>(&self, _alloc: B, _path: &str) -> io::Result<()> {
        Err(ErrorKind::Unsupported.into())
    }
}
