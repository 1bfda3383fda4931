//! A volume in memory.

ghost use Rattle.std.specs.Prelude.{◌≡◌, ◌<◌, ◌≤◌, ℕ, ◌+◌, ◌-◌, ◌^◌, [], ◌∷◌, Ok, min, length, take, drop, IsOk, IfOk, OnOk, OnErr};
ghost use Rattle.jet_io.specs.Faults.{CountsFault};
ghost use Rattle.jet_volume.specs.Image.{Image, no_bytes, file_bytes, with_file};
ghost use Rattle.jet_volume.specs.Crash.{written, TornFile, IsSettled, CrashLeaves, CrashFollows, Elapses};

use crate::contents::Contents;
use crate::past::Past;
use jet_io::{Failed, FaultCount};
use jet_volume::{File, Volume, copy_from};
use std::alloc::Global;

/// Four files that lie in memory, and are gone with it. It takes memory for their bytes alone: a write that makes
/// a file longer takes it as a `Vec` grows, and want of it is the one fault.
///
/// Of a crash it tells what a medium tells that keeps each write at once, so that what stands on a volume means the same
/// over this one. The moments that this takes are in clauses only.
#[derive(Drop)]
pub struct MemoryVolume {
    contents: Contents,
    past: Past,
    faults: FaultCount,
}

impl MemoryVolume {
    ghost use Rattle.memory_volume.specs.Memory.{memory_seen, memory_past, memory_moment, memory_left_at, memory_faults};

    /// Four empty files. They take no memory yet.
    pub fn new(alloc: Global) -> MemoryVolume
        ensures files { memory_seen result ≡ no_bytes }
        ensures past { memory_past result ≡ [] }
        ensures settled { IsSettled memory_moment memory_left_at memory_seen result }
        ensures faults { memory_faults result ≡ 0 }
    {
        MemoryVolume {
            contents: Contents::new(alloc),
            past: Past::new(),
            faults: FaultCount::new(),
        }
    }
}

impl Volume for MemoryVolume {
    ghost use Rattle.std.specs.Prelude.{⊤};
    ghost use Rattle.memory_volume.specs.Memory.{memory_seen, memory_past, memory_moment, memory_left_at, memory_faults};
    ghost use Rattle.memory_volume.specs.MemoryLaws.{now_held};

    ghost tells_contents = { ⊤ };

    ghost seen = { memory_seen };

    ghost moment = { memory_moment };

    ghost left_at = { memory_left_at };

    ghost faults = { memory_faults };

    ghost identity = { λ _. 0 };

    ghost seen_may_stay = { λ volume tells. now_held (memory_seen volume) (memory_past volume) };

    fn size(&mut self, file: File) -> Result<u64, Failed>
        ensures size { result ≡ Ok (length (file_bytes file (memory_seen self.old))) }
        ensures same { self.new ≡ self.old }
        ensures seen { memory_seen self.new ≡ memory_seen self.old }
        ensures crash { CrashLeaves memory_moment memory_left_at self.new (memory_left_at self.old (memory_moment self.old)) }
        ensures time { Elapses memory_moment memory_left_at self.old self.new }
        ensures faults { CountsFault result (memory_faults self.old) (memory_faults self.new) }
    {
        Ok(self.contents.bytes(file).len() as u64)
    }

    fn read(&mut self, file: File, at: u64, into: &mut [u8]) -> Result<usize, Failed>
        ensures count { result ≡ Ok (min (length into.old) (length (file_bytes file (memory_seen self.old)) - at)) }
        ensures within { IfOk result (λ n. n ≤ length into.old) }
        ensures bytes { IfOk result (λ n. take n into.new ≡ take n (drop at (file_bytes file (memory_seen self.old)))) }
        ensures rest { IfOk result (λ n. drop n into.new ≡ drop n into.old) }
        ensures same { self.new ≡ self.old }
        ensures seen { memory_seen self.new ≡ memory_seen self.old }
        ensures crash { CrashLeaves memory_moment memory_left_at self.new (memory_left_at self.old (memory_moment self.old)) }
        ensures time { Elapses memory_moment memory_left_at self.old self.new }
        ensures faults { CountsFault result (memory_faults self.old) (memory_faults self.new) }
    {
        Ok(copy_from(self.contents.bytes(file), at, into))
    }

    fn write_at(&mut self, file: File, at: u64, piece: &[u8]) -> Result<(), Failed>
        requires some { 0 < length piece.now }
        requires end { at + length piece.now ≤ 2 ^ 40 }
        ensures written { OnOk result (memory_seen self.new ≡ with_file file (written at piece.now (file_bytes file (memory_seen self.old))) (memory_seen self.old)) }
        ensures none { OnErr result (memory_seen self.new ≡ memory_seen self.old) }
        ensures past { memory_past self.new ≡ memory_seen self.old ∷ memory_past self.old }
        ensures torn { TornFile file at (length piece.now) (memory_seen self.old) (memory_seen self.new) }
        ensures crash { CrashFollows memory_moment memory_left_at (TornFile file at (length piece.now)) self.old self.new }
        ensures time { Elapses memory_moment memory_left_at self.old self.new }
        ensures faults { CountsFault result (memory_faults self.old) (memory_faults self.new) }
        ensures counted { OnErr result (memory_faults self.new ≡ memory_faults self.old + 1) }

        // Only a write that makes its file longer may want memory.
        ensures sure { at + length piece.now ≤ length (file_bytes file (memory_seen self.old)) → IsOk result }
    {
        self.past = self.past.then(&self.contents);
        match self.contents.write(file, at as usize, piece) {
            Ok(()) => Ok(()),
            Err(_) => {
                self.faults.rise();
                Err(Failed)
            }
        }
    }

    fn sync(&mut self, _file: File) -> Result<(), Failed>
        ensures synced { result ≡ Ok tt }
        ensures durable { OnOk result (CrashLeaves memory_moment memory_left_at self.new (λ image. file_bytes _file image ≡ file_bytes _file (memory_seen self.old))) }
        ensures same { self.new ≡ self.old }
        ensures seen { memory_seen self.new ≡ memory_seen self.old }
        ensures crash { CrashLeaves memory_moment memory_left_at self.new (memory_left_at self.old (memory_moment self.old)) }
        ensures time { Elapses memory_moment memory_left_at self.old self.new }
        ensures faults { CountsFault result (memory_faults self.old) (memory_faults self.new) }
    {
        Ok(())
    }

    fn faults(&self) -> u64 {
        self.faults.shown()
    }
}
