//! A folder in memory, which moves few bytes at a time and fails as it is told.

ghost use Rattle.std.specs.Prelude.{◌≡◌, ◌<◌, ◌+◌, ◌-◌, ◌^◌, ◌≤◌, [], ⊤, None, min, max, length, take, drop, IfOk, IfSome, IfNone, OnOk, OnErr, MatchResult};
ghost use Rattle.std.specs.IoError.{error_kind};
ghost use Rattle.jet_io.specs.Faults.{CountsFault};
ghost use Rattle.jet_io.specs.Schedule.{IsOneCallLater};
ghost use Rattle.jet_volume.specs.Crash.{written, Torn};
ghost use Rattle.folder_volume.specs.Failures.{CountsShortWrite};
ghost use Rattle.folder_volume.specs.Folder.{SameFiles, SameOtherFiles};
ghost use Rattle.folder_volume.specs.Files.{after_write, after_sync, with_opened, FailsFor, FailsForOrMemory};
ghost use Rattle.folder_volume.specs.MemoryFolder.{state_of, schedule_of, failures_of, file_at, with_files, with_file, with_changed, with_listed, scheduled, refused, mem_bytes_at, mem_is_synced, mem_is_listed, path_of_handle};

use crate::memory_files::MemFile;
use crate::{Folder, memory_files};
use jet_base::OutOfMemory;
use jet_io::{FaultCount, Schedule};
use jet_volume::{a_front_came_in_part, copy_from};
use std::alloc::Global;
use std::io;
use std::io::ErrorKind;

/// A file of a folder in memory that is open.
#[derive(Drop)]
pub struct MemHandle {
    path: String,
}

/// A folder in memory. It tells what its files hold. It keeps each file as it was after each of its changes, and
/// the newest counts.
#[derive(Drop)]
pub struct MemFolder {
    alloc: Global,
    files: Vec<MemFile>,
    schedule: Schedule,
    failures: FaultCount,
    most_read: usize,
    most_written: usize,
    syncs: u64,
}

impl MemFolder {
    /// A folder without a file. A read moves `most_read` bytes at most, but one where that is 0, and a write
    /// `most_written`. The calls of the listed numbers fail, counted from 1.
    pub fn new(alloc: Global, most_read: usize, most_written: usize, failing: Vec<u64>) -> MemFolder
        ensures state { state_of result ≡ record { files = []; most_read = most_read; most_written = most_written; syncs = 0 } }
        ensures failing { (schedule_of result).failing.items ≡ failing.items }
        ensures stop { (schedule_of result).stop ≡ None }
        ensures called { (schedule_of result).called ≡ 0 }
        ensures failures { failures_of result ≡ 0 }
    {
        MemFolder {
            alloc,
            files: Vec::new(alloc),
            schedule: Schedule::new(failing, None),
            failures: FaultCount::new(),
            most_read,
            most_written,
            syncs: 0,
        }
    }

    /// Adds a file, or makes it another one. This is no call of the folder.
    pub fn add(&mut self, file: MemFile) -> Result<(), OutOfMemory>
        ensures added { OnOk result (state_of self.new ≡ with_file file (state_of self.old)) }
        ensures same { OnErr result (state_of self.new ≡ state_of self.old) }
        ensures schedule { schedule_of self.new ≡ schedule_of self.old }
        ensures failures { failures_of self.new ≡ failures_of self.old }
    {
        memory_files::keep(&mut self.files, file)?;
        Ok(())
    }

    /// The file at a path, where there is one. This is no call of the folder.
    pub fn file(&self, path: &str) -> Option<&MemFile>
        ensures some { IfSome result (λ file. file_at (state_of self.now) path.now ≡ Some file.now) }
        ensures none { IfNone result (file_at (state_of self.now) path.now ≡ None) }
    {
        memory_files::find(&self.files, path)
    }

    /// How often the folder was synced, or 2^64 - 1 where that is more.
    pub fn syncs(&self) -> u64
        ensures { result ≡ (state_of self.now).syncs }
    {
        self.syncs
    }

    fn begin_call(&mut self) -> io::Result<()>
        ensures told { FailsFor (scheduled self.old) result }
        ensures later { IsOneCallLater (schedule_of self.old) (schedule_of self.new) }
        ensures failures { CountsFault result (failures_of self.old) (failures_of self.new) }
        ensures same { state_of self.new ≡ state_of self.old }
    {
        if self.schedule.next_fails() {
            self.failures.rise();
            return Err(ErrorKind::Other.into());
        }
        Ok(())
    }
}

impl Folder for MemFolder {
    type Handle = MemHandle;

    ghost tells = { ⊤ };

    ghost path_of = { path_of_handle };

    ghost bytes_at = { mem_bytes_at };

    ghost is_synced = { mem_is_synced };

    ghost is_listed = { mem_is_listed };

    ghost failures = { failures_of };

    fn open_or_make(&mut self, path: &str) -> io::Result<MemHandle>
        ensures path { IfOk result (λ handle. path_of_handle handle ≡ path.now) }
        ensures files { SameFiles mem_bytes_at mem_is_synced mem_is_listed self.old self.new }

        // All of it, exactly.
        ensures made { OnOk result (state_of self.new ≡ with_files (with_opened path.now (state_of self.old).files) (state_of self.old)) }
        ensures same { OnErr result (state_of self.new ≡ state_of self.old) }
        ensures told { FailsForOrMemory (scheduled self.old) result }
        ensures later { IsOneCallLater (schedule_of self.old) (schedule_of self.new) }
        ensures failures { CountsFault result (failures_of self.old) (failures_of self.new) }
    {
        self.begin_call()?;
        let own_path = self.failures.note(String::from_str(self.alloc, path))?;
        self.failures
            .note(memory_files::open(self.alloc, &mut self.files, path))?;
        Ok(MemHandle { path: own_path })
    }

    fn sync_folder_of(&mut self, path: &str) -> io::Result<()>
        ensures listed { OnOk result (mem_is_listed self.new path.now) }
        ensures files { SameFiles mem_bytes_at mem_is_synced mem_is_listed self.old self.new }

        // All of it, exactly.
        ensures synced { OnOk result (state_of self.new ≡ with_listed path.now (state_of self.old)) }
        ensures same { OnErr result (state_of self.new ≡ state_of self.old) }
        ensures told { FailsForOrMemory (refused self.old path.now) result }
        ensures later { IsOneCallLater (schedule_of self.old) (schedule_of self.new) }
        ensures failures { CountsFault result (failures_of self.old) (failures_of self.new) }
    {
        self.begin_call()?;
        self.failures
            .note(memory_files::list(self.alloc, &mut self.files, path))?;
        self.syncs = self.syncs.saturating_add(1);
        Ok(())
    }

    fn size(&mut self, handle: &mut MemHandle) -> io::Result<u64>
        ensures size { IfOk result (λ n. n ≡ length (mem_bytes_at self.old (path_of_handle handle.old))) }
        ensures path { path_of_handle handle.new ≡ path_of_handle handle.old }
        ensures files { SameFiles mem_bytes_at mem_is_synced mem_is_listed self.old self.new }

        // All of it, exactly.
        ensures same { state_of self.new ≡ state_of self.old }
        ensures told { FailsFor (refused self.old (path_of_handle handle.old)) result }
        ensures later { IsOneCallLater (schedule_of self.old) (schedule_of self.new) }
        ensures failures { CountsFault result (failures_of self.old) (failures_of self.new) }
    {
        self.begin_call()?;
        match memory_files::find(&self.files, handle.path.as_str()) {
            Some(file) => Ok(file.bytes.len() as u64),
            None => {
                self.failures.rise();
                Err(ErrorKind::NotFound.into())
            }
        }
    }

    fn read_at(&mut self, handle: &mut MemHandle, at: u64, into: &mut [u8]) -> io::Result<usize>
        ensures within { IfOk result (λ n. n ≤ length into.old) }
        ensures bytes { IfOk result (λ n. take n into.new ≡ take n (drop at (mem_bytes_at self.old (path_of_handle handle.old)))) }
        ensures fits { IfOk result (λ n. at + n < 2 ^ 64) }
        ensures ends { IfOk result (λ n. n ≡ 0 → 0 < length into.old → length (mem_bytes_at self.old (path_of_handle handle.old)) ≤ at) }
        ensures path { path_of_handle handle.new ≡ path_of_handle handle.old }
        ensures files { SameFiles mem_bytes_at mem_is_synced mem_is_listed self.old self.new }

        // All of it, exactly.
        ensures count { IfOk result (λ n. n ≡ min (min (max (state_of self.old).most_read 1) (length into.old)) (length (mem_bytes_at self.old (path_of_handle handle.old)) - at)) }
        ensures rest { IfOk result (λ n. drop n into.new ≡ drop n into.old) }
        ensures unread { OnErr result (into.new ≡ into.old) }
        ensures same { state_of self.new ≡ state_of self.old }
        ensures told { FailsFor (refused self.old (path_of_handle handle.old)) result }
        ensures later { IsOneCallLater (schedule_of self.old) (schedule_of self.new) }
        ensures failures { CountsFault result (failures_of self.old) (failures_of self.new) }
    {
        self.begin_call()?;
        let most = self.most_read.max(1).min(into.len());
        match memory_files::find(&self.files, handle.path.as_str()) {
            Some(file) => Ok(copy_from(&file.bytes, at, &mut into[..most])),
            None => {
                self.failures.rise();
                Err(ErrorKind::NotFound.into())
            }
        }
    }

    fn write_at(&mut self, handle: &mut MemHandle, at: u64, piece: &[u8]) -> io::Result<usize>
        requires some { 0 < length piece.now }
        requires end { at + length piece.now ≤ 2 ^ 40 }
        ensures within { IfOk result (λ n. n ≤ length piece.now) }
        ensures written { IfOk result (λ n. 0 < n → mem_bytes_at self.new (path_of_handle handle.old) ≡ written at (take n piece.now) (mem_bytes_at self.old (path_of_handle handle.old))) }
        ensures torn { Torn at (length piece.now) (mem_bytes_at self.old (path_of_handle handle.old)) (mem_bytes_at self.new (path_of_handle handle.old)) }
        ensures path { path_of_handle handle.new ≡ path_of_handle handle.old }
        ensures others { SameOtherFiles mem_bytes_at mem_is_synced mem_is_listed (path_of_handle handle.old) self.old self.new }

        // All of it, exactly.
        ensures count { IfOk result (λ n. n ≡ min (state_of self.old).most_written (length piece.now)) }
        ensures front { IfOk result (λ n. state_of self.new ≡ with_changed (after_write at (take n piece.now)) (path_of_handle handle.old) (state_of self.old)) }
        ensures same { OnErr result (state_of self.new ≡ state_of self.old) }
        ensures told { FailsForOrMemory (refused self.old (path_of_handle handle.old)) result }
        ensures later { IsOneCallLater (schedule_of self.old) (schedule_of self.new) }
        ensures failures { CountsShortWrite (length piece.now) result (failures_of self.old) (failures_of self.new) }
    {
        a_front_came_in_part();
        self.begin_call()?;
        let count = self.most_written.min(piece.len());
        let front = &piece[..count];
        self.failures.note(memory_files::write(
            self.alloc,
            &mut self.files,
            handle.path.as_str(),
            at as usize,
            front,
        ))?;
        self.failures.note_short(count, piece.len());
        Ok(count)
    }

    fn sync(&mut self, handle: &mut MemHandle) -> io::Result<()>
        ensures synced { OnOk result (mem_is_synced self.new (path_of_handle handle.old)) }
        ensures path { path_of_handle handle.new ≡ path_of_handle handle.old }
        ensures files { SameFiles mem_bytes_at mem_is_synced mem_is_listed self.old self.new }

        // All of it, exactly.
        ensures counted { OnOk result (state_of self.new ≡ with_changed after_sync (path_of_handle handle.old) (state_of self.old)) }
        ensures same { OnErr result (state_of self.new ≡ state_of self.old) }
        ensures told { FailsForOrMemory (refused self.old (path_of_handle handle.old)) result }
        ensures later { IsOneCallLater (schedule_of self.old) (schedule_of self.new) }
        ensures failures { CountsFault result (failures_of self.old) (failures_of self.new) }
    {
        self.begin_call()?;
        self.failures.note(memory_files::sync(self.alloc, &mut self.files, handle.path.as_str()))
    }
}
