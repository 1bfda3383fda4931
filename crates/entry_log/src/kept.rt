//! The bytes of entries that are kept.

ghost use Rattle.std.specs.Prelude.{◌≡◌, ◌≤◌, ◌<◌, ◌+◌, ◌-◌, ◌^◌, ◌++◌, drop, length, min, take, vec_capacity, vec_len, IsTrue, OnErr, OnOk};
ghost use Rattle.log_grammar.specs.EntryBytes.{entry_bytes, has_spelling};
ghost use Rattle.entry_log.specs.LogState.{appended, bytes_from, empty_stream, stream_end, trimmed_to};

use index_derive::Entry;
use jet_base::OutOfMemory;
use log_record::append_entry;
use std::alloc::Global;
use std::marker::Model;

/// The bytes of the entries of a log, one entry after the other, from a position on. A position counts bytes from 0, the
/// beginning of the first entry.
#[derive(Drop)]
pub struct EntryLog {
    /// The bytes that are kept, behind some that are not.
    buffer: Vec<u8>,
    /// How many bytes of the buffer are not kept.
    gone: usize,
    /// The position of the first byte that is kept.
    from: u64,
}

impl Model for EntryLog {
    ghost use Rattle.std.specs.Prelude.{◌≤◌, ◌<◌, ◌+◌, ◌-◌, ◌^◌, drop, vec_capacity, vec_len};
    ghost use Rattle.entry_log.specs.LogState.{LogState};

    ghost Value = { LogState };

    ghost view = { λ a. record { stream = record { from = a.from; bytes = drop a.gone a.buffer.items }; room = vec_capacity a.buffer - vec_len a.buffer } };

    ghost invariant = { λ a. (a.gone ≤ vec_len a.buffer) × (a.from + (vec_len a.buffer - a.gone) < 2 ^ 64) };
}

impl EntryLog {
    /// The log of no entry, at position 0. It takes no memory.
    pub fn new(alloc: Global) -> EntryLog
        ensures { result.stream ≡ empty_stream }
    {
        EntryLog {
            buffer: Vec::new(alloc),
            gone: 0,
            from: 0,
        }
    }

    /// The position of the first byte that is kept.
    pub fn trimmed(&self) -> u64
        ensures { result ≡ self.now.stream.from }
    {
        self.from
    }

    /// The position behind the last entry.
    pub fn stream_end(&self) -> u64
        ensures value { result ≡ stream_end self.now.stream }
        ensures small { stream_end self.now.stream < 2 ^ 64 }
    {
        self.from + (self.buffer.len() - self.gone) as u64
    }

    /// Copies the bytes from a position on, as many as the slice has room for and the log has. It tells how many; the rest of
    /// the slice stays.
    pub fn pending(&self, from: u64, into: &mut [u8]) -> usize
        requires kept { self.now.stream.from ≤ from }
        requires before { from ≤ stream_end self.now.stream }
        ensures count { result ≡ min (length into.old) (stream_end self.now.stream - from) }
        ensures bytes { into.new ≡ take result (bytes_from from self.now.stream) ++ drop result into.old }
    {
        let start = self.gone + (from - self.from) as usize;
        let count = into.len().min(self.buffer.len() - start);
        into[..count].copy_from_slice(&self.buffer[start..start + count]);
        count
    }

    /// The bytes before a position are not kept any more. Where they are not kept already nothing changes.
    ///
    /// Over many calls it takes a time that grows with the bytes that go, whatever is kept behind them.
    pub fn trim(&mut self, to: u64)
        requires { to ≤ stream_end self.old.stream }
        ensures stream { self.new.stream ≡ trimmed_to to self.old.stream }
        ensures room { self.old.room ≤ self.new.room }
    {
        if to > self.from {
            self.gone += (to - self.from) as usize;
            self.from = to;
            if self.gone >= self.buffer.len() - self.gone {
                cut_front(&mut self.buffer, self.gone);
                self.gone = 0;
            }
        }
    }

    /// Makes room for so many bytes more. All bytes stay, whatever the result. It takes no memory where the room is there.
    pub fn reserve(&mut self, count: usize) -> Result<(), OutOfMemory>
        ensures kept { self.new.stream ≡ self.old.stream }
        ensures grows { self.old.room ≤ self.new.room }
        ensures room { OnOk result (count ≤ self.new.room) }
        ensures memory { OnErr result (self.old.room < count) }
    {
        self.buffer.reserve(count)?;
        Ok(())
    }

    /// Writes the bytes of an entry behind the others, in the room that is there. It takes no memory.
    pub fn append(&mut self, entry: &Entry)
        requires spelled { IsTrue (has_spelling entry.now) }
        requires room { length (entry_bytes entry.now) ≤ self.old.room }
        requires position { stream_end self.old.stream + length (entry_bytes entry.now) < 2 ^ 64 }
        ensures stream { self.new.stream ≡ appended (entry_bytes entry.now) self.old.stream }
        ensures room { self.old.room ≤ self.new.room + length (entry_bytes entry.now) }
    {
        append_entry(&mut self.buffer, entry);
    }
}

/// Takes so many bytes out in front. The room of all bytes stays.
fn cut_front(buffer: &mut Vec<u8>, count: usize)
    requires { count ≤ vec_len buffer.old }
    ensures items { buffer.new.items ≡ drop count buffer.old.items }
    ensures len { vec_len buffer.new ≡ vec_len buffer.old - count }
    ensures room { vec_capacity buffer.new ≡ vec_capacity buffer.old }
{
    let left = buffer.len() - count;
    buffer.copy_within(count.., 0);
    buffer.truncate(left);
}
