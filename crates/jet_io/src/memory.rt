//! A source and a sink in memory, which fail as they are told.

ghost use Rattle.std.specs.Prelude.{◌≡◌, ◌<◌, ◌≤◌, ◌+◌, ◌-◌, ◌++◌, ◌↔◌, [], Some, length, take, drop, min, vec_capacity, IsTrue, IsErr, IfOk, OnErr, IfSome};
ghost use Rattle.std.specs.Io.KnownBytes.{prepend_known, append_known};
ghost use Rattle.jet_io.specs.Faults.{CountsFault};
ghost use Rattle.jet_io.specs.Schedule.{fails_next, IsOneCallLater};

use crate::failed::Failed;
use crate::faults::FaultCount;
use crate::schedule::Schedule;
use crate::sink::Sink;
use crate::source::Source;
use jet_base::OutOfMemory;
use std::alloc::Global;

/// Bytes in memory that are read from the first to the last.
#[derive(Drop)]
pub struct MemSource {
    bytes: Vec<u8>,
    next: usize,
    schedule: Schedule,
    faults: FaultCount,
    ghost within: { next ≤ length bytes.items },
}

impl MemSource {
    ghost use Rattle.jet_io.specs.Memory.{bytes_left, source_schedule, source_faults};

    /// A source of these bytes whose calls of these numbers fail, counted from 1.
    pub fn new(bytes: Vec<u8>, failing: Vec<u64>) -> MemSource
        ensures left { bytes_left result ≡ bytes.items }
        ensures failing { (source_schedule result).failing.items ≡ failing.items }
        ensures stop { (source_schedule result).stop ≡ None }
        ensures called { (source_schedule result).called ≡ 0 }
        ensures faults { source_faults result ≡ 0 }
    {
        MemSource {
            bytes,
            next: 0,
            schedule: Schedule::new(failing, None),
            faults: FaultCount::new(),
        }
    }
}

impl Source for MemSource {
    ghost use Rattle.jet_io.specs.Memory.{bytes_left, source_schedule, source_faults};

    ghost left = { λ s. Some (bytes_left s) };

    ghost faults = { λ s. source_faults s };

    fn read(&mut self, into: &mut [u8]) -> Result<usize, Failed>
        requires { 0 < length into.old }
        ensures within { IfOk result (λ n. n ≤ length into.old) }
        ensures bytes { IfOk result (λ n. Some (bytes_left self.old) ≡ prepend_known (take n into.new) (Some (bytes_left self.new))) }
        ensures ends { IfOk result (λ n. IfSome (Some (bytes_left self.old)) (λ bytes. (n ≡ 0) ↔ (bytes ≡ []))) }
        ensures kept { OnErr result (Some (bytes_left self.new) ≡ Some (bytes_left self.old)) }
        ensures faults { CountsFault result (source_faults self.old) (source_faults self.new) }

        // All of it, exactly: how many bytes come, and which calls fail.
        ensures count { IfOk result (λ n. n ≡ min (length into.old) (length (bytes_left self.old))) }
        ensures fails { IsErr result ↔ IsTrue (fails_next (source_schedule self.old)) }
        ensures later { IsOneCallLater (source_schedule self.old) (source_schedule self.new) }
        ensures counted { OnErr result (source_faults self.new ≡ source_faults self.old + 1) }
    {
        if self.schedule.next_fails() {
            self.faults.rise();
            return Err(Failed);
        }
        let count = into.len().min(self.bytes.len() - self.next);
        into[..count].copy_from_slice(&self.bytes[self.next..self.next + count]);
        self.next += count;
        Ok(count)
    }
}

/// A sink in memory with a room that it takes at once.
#[derive(Drop)]
pub struct MemSink {
    taken: Vec<u8>,
    room: usize,
    schedule: Schedule,
    faults: FaultCount,
    ghost within: { length taken.items ≤ room },
    ghost reserved: { room ≤ vec_capacity taken },
}

impl MemSink {
    ghost use Rattle.jet_io.specs.Memory.{bytes_taken, room_of, sink_schedule, sink_faults};

    /// A sink that takes `room` bytes in all. Its calls of these numbers fail, counted from 1, and so
    /// does each call once the room is full.
    pub fn new(alloc: Global, room: usize, failing: Vec<u64>) -> Result<MemSink, OutOfMemory>
        ensures taken { IfOk result (λ sink. bytes_taken sink ≡ []) }
        ensures room { IfOk result (λ sink. room_of sink ≡ room) }
        ensures failing { IfOk result (λ sink. (sink_schedule sink).failing.items ≡ failing.items) }
        ensures stop { IfOk result (λ sink. (sink_schedule sink).stop ≡ None) }
        ensures called { IfOk result (λ sink. (sink_schedule sink).called ≡ 0) }
        ensures faults { IfOk result (λ sink. sink_faults sink ≡ 0) }
    {
        let taken = Vec::with_capacity(alloc, room).map_err(|_| OutOfMemory)?;
        Ok(MemSink {
            taken,
            room,
            schedule: Schedule::new(failing, None),
            faults: FaultCount::new(),
        })
    }

    /// What it has taken so far, in order.
    pub fn taken(&self) -> &[u8]
        ensures { result.now ≡ bytes_taken self.now }
    {
        &self.taken
    }
}

impl Sink for MemSink {
    ghost use Rattle.jet_io.specs.Memory.{bytes_taken, room_of, sink_schedule, sink_faults, refuses_next};

    ghost taken = { λ s. Some (bytes_taken s) };

    ghost faults = { λ s. sink_faults s };

    fn write(&mut self, piece: &[u8]) -> Result<usize, Failed>
        ensures within { IfOk result (λ n. n ≤ length piece.now) }
        ensures some { 0 < length piece.now → IfOk result (λ n. 0 < n) }
        ensures bytes { IfOk result (λ n. Some (bytes_taken self.new) ≡ append_known (Some (bytes_taken self.old)) (take n piece.now)) }
        ensures kept { OnErr result (Some (bytes_taken self.new) ≡ Some (bytes_taken self.old)) }
        ensures faults { CountsFault result (sink_faults self.old) (sink_faults self.new) }

        // All of it, exactly: how many bytes it takes, and which calls fail.
        ensures count { IfOk result (λ n. n ≡ min (length piece.now) (room_of self.old - length (bytes_taken self.old))) }
        ensures fails { IsErr result ↔ IsTrue (refuses_next self.old) }
        ensures later { IsOneCallLater (sink_schedule self.old) (sink_schedule self.new) }
        ensures room { room_of self.new ≡ room_of self.old }
        ensures counted { OnErr result (sink_faults self.new ≡ sink_faults self.old + 1) }
    {
        if self.schedule.next_fails() || self.taken.len() == self.room {
            self.faults.rise();
            return Err(Failed);
        }
        let count = piece.len().min(self.room - self.taken.len());
        // The room was reserved, so this takes no memory.
        let _reserved = self.taken.extend_from_slice(&piece[..count]);
        Ok(count)
    }
}
