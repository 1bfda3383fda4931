//! A volume in memory, which fails and stops as it is told.

ghost use Rattle.std.specs.Prelude.{◌≡◌, ◌<◌, ◌≤◌, ℕ, ◌+◌, ◌-◌, ◌^◌, min, [], ◌∷◌, None, length, take, drop, IsTrue, IfOk, OnOk, OnErr, MatchResult, alloc_error};
ghost use Rattle.jet_io.specs.Faults.{CountsFault};
ghost use Rattle.jet_io.specs.Schedule.{fails_next};
ghost use Rattle.jet_volume.specs.Image.{Image, no_bytes, file_bytes, with_file};
ghost use Rattle.jet_volume.specs.Crash.{written, TornFile, IsSettled, CrashLeaves, CrashFollows, Elapses};

use crate::contents::Contents;
use crate::crash::crashed;
use crate::file_bytes::copy_from;
use crate::files::File;
use crate::noting::{note, note_missed, write_noted};
use crate::record::{Call, Change};
use crate::volume::Volume;
use jet_base::OutOfMemory;
use jet_io::{Failed, FaultCount, Schedule};
use std::alloc::{AllocError, Global};

/// Four files in memory. It keeps each write and each sync, by which it tells what a crash at any moment
/// may have left.
#[derive(Drop)]
pub struct MemVolume {
    contents: Contents,
    calls: Vec<Call>,
    schedule: Schedule,
    faults: FaultCount,
    short: FaultCount,
}

impl MemVolume {
    ghost use Rattle.jet_volume.specs.Record.{settled_bytes, changes_of};
    ghost use Rattle.jet_volume.specs.Memory.{mem_seen, mem_calls, mem_moment, mem_left_at, mem_faults, mem_short, mem_schedule};

    /// Four empty files. The calls of the listed numbers fail, counted from 1, and each call from `stop` on.
    pub fn new(alloc: Global, failing: Vec<u64>, stop: Option<u64>) -> MemVolume
        ensures files { mem_seen result ≡ no_bytes }
        ensures settled { IsSettled mem_moment mem_left_at mem_seen result }
        ensures calls { mem_calls result ≡ [] }
        ensures failing { (mem_schedule result).failing.items ≡ failing.items }
        ensures stop { (mem_schedule result).stop ≡ stop }
        ensures called { (mem_schedule result).called ≡ 0 }
        ensures faults { mem_faults result ≡ 0 }
        ensures short { mem_short result ≡ 0 }
    {
        MemVolume {
            contents: Contents::new(alloc),
            calls: Vec::new(alloc),
            schedule: Schedule::new(failing, stop),
            faults: FaultCount::new(),
            short: FaultCount::new(),
        }
    }

    /// A settled volume with these files, and no call that fails.
    pub fn of_files(
        alloc: Global,
        database: Vec<u8>,
        checkpoint_a: Vec<u8>,
        checkpoint_b: Vec<u8>,
        log: Vec<u8>,
    ) -> MemVolume
        ensures files { mem_seen result ≡ record { database = database.items; checkpoint_a = checkpoint_a.items; checkpoint_b = checkpoint_b.items; log = log.items } }
        ensures settled { IsSettled mem_moment mem_left_at mem_seen result }
        ensures calls { mem_calls result ≡ [] }
        ensures failing { (mem_schedule result).failing.items ≡ [] }
        ensures stop { (mem_schedule result).stop ≡ None }
        ensures called { (mem_schedule result).called ≡ 0 }
        ensures faults { mem_faults result ≡ 0 }
        ensures short { mem_short result ≡ 0 }
    {
        MemVolume {
            contents: Contents::of_files(database, checkpoint_a, checkpoint_b, log),
            calls: Vec::new(alloc),
            schedule: Schedule::new(Vec::new(alloc), None),
            faults: FaultCount::new(),
            short: FaultCount::new(),
        }
    }

    /// One of the images that a crash now may leave, as a settled volume whose calls are counted anew. The
    /// pick says which: at 0 all came that was written. The others are picks for tests: at 1 nothing came that was not
    /// synced, and behind it writes came whole, in part, as other bytes or not at all.
    pub fn crash(
        self,
        pick: u64,
        failing: Vec<u64>,
        stop: Option<u64>,
    ) -> Result<MemVolume, OutOfMemory>
        ensures image { IfOk result (λ volume. mem_left_at self (mem_moment self) (mem_seen volume)) }
        ensures whole { pick ≡ 0 → IfOk result (λ volume. mem_seen volume ≡ mem_seen self) }
        ensures lost { pick ≡ 1 → IfOk result (λ volume. (file : File) → file_bytes file (mem_seen volume) ≡ settled_bytes (file_bytes file (mem_seen self)) (changes_of file (mem_calls self))) }
        ensures settled { IfOk result (IsSettled mem_moment mem_left_at mem_seen) }
        ensures calls { IfOk result (λ volume. mem_calls volume ≡ []) }
        ensures failing { IfOk result (λ volume. (mem_schedule volume).failing.items ≡ failing.items) }
        ensures stop { IfOk result (λ volume. (mem_schedule volume).stop ≡ stop) }
        ensures called { IfOk result (λ volume. (mem_schedule volume).called ≡ 0) }
        ensures faults { IfOk result (λ volume. mem_faults volume ≡ 0) }
        ensures short { IfOk result (λ volume. mem_short volume ≡ 0) }
    {
        let alloc = *self.calls.allocator();
        let contents = crashed(alloc, &self.contents, &self.calls, pick)?;
        Ok(MemVolume {
            contents,
            calls: Vec::new(alloc),
            schedule: Schedule::new(failing, stop),
            faults: FaultCount::new(),
            short: FaultCount::new(),
        })
    }

    /// The bytes of a file. This is no call of the volume.
    pub fn bytes(&self, file: File) -> &[u8]
        ensures { result.now ≡ file_bytes file (mem_seen self.now) }
    {
        self.contents.get(file)
    }

    /// How many calls failed for want of memory, or 2^64 - 1 where that is more. They are among its faults.
    pub fn short(&self) -> u64
        ensures { result ≡ min (mem_short self.now) (2 ^ 64 - 1) }
    {
        self.short.shown()
    }
}

impl Volume for MemVolume {
    ghost use Rattle.std.specs.Prelude.{⊤};
    ghost use Rattle.jet_volume.specs.Memory.{mem_seen, mem_calls, mem_moment, mem_left_at, mem_faults, mem_short, mem_schedule, FailsAsTold, KeepsWrite};
    ghost use Rattle.jet_volume.specs.RecordLaws.{seen_stays};

    ghost tells_contents = { ⊤ };

    ghost seen = { mem_seen };

    ghost moment = { mem_moment };

    ghost left_at = { mem_left_at };

    ghost faults = { mem_faults };

    ghost identity = { λ _. 0 };

    ghost seen_may_stay = { λ volume tells. seen_stays (mem_seen volume) (mem_calls volume) };

    fn size(&mut self, file: File) -> Result<u64, Failed>
        ensures size { IfOk result (λ n. n ≡ length (file_bytes file (mem_seen self.old))) }
        ensures seen { mem_seen self.new ≡ mem_seen self.old }
        ensures calls { mem_calls self.new ≡ mem_calls self.old }
        ensures crash { CrashLeaves mem_moment mem_left_at self.new (mem_left_at self.old (mem_moment self.old)) }
        ensures time { Elapses mem_moment mem_left_at self.old self.new }
        ensures faults { CountsFault result (mem_faults self.old) (mem_faults self.new) }
        ensures told { FailsAsTold result self.old self.new }
        ensures short { IsTrue (fails_next (mem_schedule self.old)) → mem_short self.new ≡ mem_short self.old }
    {
        if self.schedule.next_fails() {
            self.faults.rise();
            return Err(Failed);
        }
        Ok(self.contents.get(file).len() as u64)
    }

    fn read(&mut self, file: File, at: u64, into: &mut [u8]) -> Result<usize, Failed>
        ensures within { IfOk result (λ n. n ≤ length into.old) }
        ensures count { IfOk result (λ n. n ≡ min (length into.old) (length (file_bytes file (mem_seen self.old)) - at)) }
        ensures bytes { IfOk result (λ n. take n into.new ≡ take n (drop at (file_bytes file (mem_seen self.old)))) }
        ensures seen { mem_seen self.new ≡ mem_seen self.old }
        ensures calls { mem_calls self.new ≡ mem_calls self.old }
        ensures crash { CrashLeaves mem_moment mem_left_at self.new (mem_left_at self.old (mem_moment self.old)) }
        ensures time { Elapses mem_moment mem_left_at self.old self.new }
        ensures faults { CountsFault result (mem_faults self.old) (mem_faults self.new) }
        ensures told { FailsAsTold result self.old self.new }
        ensures short { IsTrue (fails_next (mem_schedule self.old)) → mem_short self.new ≡ mem_short self.old }
    {
        if self.schedule.next_fails() {
            self.faults.rise();
            return Err(Failed);
        }
        Ok(copy_from(self.contents.get(file), at, into))
    }

    fn write_at(&mut self, file: File, at: u64, piece: &[u8]) -> Result<(), Failed>
        requires some { 0 < length piece.now }
        requires end { at + length piece.now ≤ 2 ^ 40 }
        ensures written { OnOk result (mem_seen self.new ≡ with_file file (written at piece.now (file_bytes file (mem_seen self.old))) (mem_seen self.old)) }
        ensures torn { TornFile file at (length piece.now) (mem_seen self.old) (mem_seen self.new) }
        ensures crash { CrashFollows mem_moment mem_left_at (TornFile file at (length piece.now)) self.old self.new }
        ensures time { Elapses mem_moment mem_left_at self.old self.new }
        ensures faults { CountsFault result (mem_faults self.old) (mem_faults self.new) }
        ensures told { FailsAsTold result self.old self.new }
        ensures kept { KeepsWrite result file at (length piece.now) self.old self.new }
    {
        let at = at as usize;
        if self.schedule.next_fails() {
            self.faults.rise();
            note_missed(&mut self.calls, &mut self.short, file, at, piece.len());
            return Err(Failed);
        }
        let mut bytes = self.contents.take(file);
        let outcome = write_noted(&mut self.calls, file, &mut bytes, at, piece);
        self.contents.put(file, bytes);
        counted(outcome, &mut self.faults, &mut self.short)
    }

    fn sync(&mut self, file: File) -> Result<(), Failed>
        ensures durable { OnOk result (CrashLeaves mem_moment mem_left_at self.new (λ image. file_bytes file image ≡ file_bytes file (mem_seen self.old))) }
        ensures seen { mem_seen self.new ≡ mem_seen self.old }
        ensures crash { CrashLeaves mem_moment mem_left_at self.new (mem_left_at self.old (mem_moment self.old)) }
        ensures time { Elapses mem_moment mem_left_at self.old self.new }
        ensures faults { CountsFault result (mem_faults self.old) (mem_faults self.new) }
        ensures told { FailsAsTold result self.old self.new }
        ensures short { IsTrue (fails_next (mem_schedule self.old)) → mem_short self.new ≡ mem_short self.old }
        ensures noted { OnOk result (mem_calls self.new ≡ record { file = file; change = Change.Synced } ∷ mem_calls self.old) }
        ensures none { OnErr result (mem_calls self.new ≡ mem_calls self.old) }
    {
        if self.schedule.next_fails() {
            self.faults.rise();
            return Err(Failed);
        }
        let change = Change::Synced;
        let outcome = note(&mut self.calls, Call { file, change });
        counted(outcome, &mut self.faults, &mut self.short)
    }

    fn faults(&self) -> u64 {
        self.faults.shown()
    }
}

/// A refused growth is a fault, which is counted apart as well.
fn counted(
    outcome: Result<(), AllocError>,
    faults: &mut FaultCount,
    short: &mut FaultCount,
) -> Result<(), Failed>
    ensures ok { OnOk result (outcome ≡ Ok tt) }
    ensures err { OnErr result (outcome ≡ Err alloc_error) }
    ensures faults { MatchResult result (λ _. faults.new ≡ faults.old) (λ _. faults.new ≡ faults.old + 1) }
    ensures short { MatchResult result (λ _. short.new ≡ short.old) (λ _. short.new ≡ short.old + 1) }
{
    match outcome {
        Ok(()) => Ok(()),
        Err(_) => {
            faults.rise();
            short.rise();
            Err(Failed)
        }
    }
}
