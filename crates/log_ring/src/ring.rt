//! The ring: its end in memory, and how blocks are appended to the log.

ghost use Rattle.std.specs.Prelude.{◌≡◌, ◌<◌, ◌≤◌, ◌↔◌, ℕ, ◌+◌, ◌^◌, None, Some, List, [], ◌∷◌, ◌++◌, length, take, vec_len, IfOk, OnOk, OnErr};
ghost use Rattle.jet_io.specs.Faults.{CountsFault};
ghost use Rattle.jet_volume.specs.Crash.{Torn, written};
ghost use Rattle.log_ring.specs.Blocks.{address, behind, behind_gate};
ghost use Rattle.log_ring.specs.Gates.{begun, staged, appended};
ghost use Rattle.log_ring.specs.Appends.{BeginningLeaves, StoringLeaves, AppendingLeaves};
ghost use Rattle.log_ring.specs.Writes.{LogIs, LogGoes};

use crate::fault::{RingFault, VolumeFault};
use crate::places::{BLOCK_LEN, address_of, behind_of, choose_place};
use crate::writing::{make_ready, open_gate, write_behind};
use jet_base::OutOfMemory;
use jet_io::Failed;
use jet_volume::{LogStart, Volume};
use std::alloc::Global;

/// Puts a piece into a buffer.
fn put(buffer: &mut [u8], at: usize, piece: &[u8])
    requires { at + length piece.now ≤ length buffer.old }
    ensures { take (at + length piece.now) buffer.new ≡ take at buffer.old ++ piece.now }
{
    buffer[at..at + piece.len()].copy_from_slice(piece);
}

/// Lays out a block whose gate is closed, and the closed gate behind it.
fn lay_block(buffer: &mut [u8], place: LogStart, payload: &[u8])
    requires payload { length payload.now ≤ 65500 }
    requires room { 22 + length payload.now ≤ length buffer.old }
    ensures { take (22 + length payload.now) buffer.new ≡ 0 ∷ behind_gate place payload.now }
{
    put(buffer, 0, &[0]);
    put(buffer, 1, &place.generation.to_le_bytes());
    put(buffer, 9, &place.position.to_le_bytes());
    put(buffer, 17, &(payload.len() as u32).to_le_bytes());
    put(buffer, 21, payload);
    put(buffer, 21 + payload.len(), &[0]);
}

/// Makes a place ready for a block. Behind another block it is ready.
fn begin_at<V: Volume>(volume: &mut V, place: LogStart) -> Result<(), Failed>
    requires generation { 1 ≤ place.generation }
    requires last { place.generation < 2 ^ 63 + 1 }
    ensures ok { V.tells_contents → (log : List ℕ) → LogIs V.seen V.moment V.left_at volume.old log
        → OnOk result (LogIs V.seen V.moment V.left_at volume.new (begun place log)) }
    ensures any_moment { V.tells_contents → (log : List ℕ) → LogIs V.seen V.moment V.left_at volume.old log
        → LogGoes V.moment V.left_at (λ from to. BeginningLeaves place log to) volume.old volume.new }
    ensures faults { CountsFault result (V.faults volume.old) (V.faults volume.new) }
    ensures identity { V.identity volume.new ≡ V.identity volume.old }
{
    if place.offset == 0 {
        make_ready(volume, place.generation + 1, address_of(place), true)
    } else {
        Ok(())
    }
}

/// Writes a block behind its closed gate, and then opens the gate.
fn store<V: Volume>(
    volume: &mut V,
    buffer: &mut [u8],
    place: LogStart,
    payload: &[u8],
) -> Result<(), Failed>
    requires generation { 1 ≤ place.generation }
    requires payload { length payload.now ≤ 65500 }
    requires room { 22 + length payload.now ≤ length buffer.old }
    ensures ok { V.tells_contents → (log : List ℕ) → LogIs V.seen V.moment V.left_at volume.old log
        → OnOk result (LogIs V.seen V.moment V.left_at volume.new (written (address place) (1 ∷ []) (staged place payload.now log))) }
    ensures any_moment { V.tells_contents → (log : List ℕ) → LogIs V.seen V.moment V.left_at volume.old log
        → LogGoes V.moment V.left_at (λ from to. StoringLeaves place payload.now log to) volume.old volume.new }
    ensures faults { CountsFault result (V.faults volume.old) (V.faults volume.new) }
    ensures identity { V.identity volume.new ≡ V.identity volume.old }
{
    lay_block(buffer, place, payload);
    let gate = address_of(place);
    match write_behind(volume, gate, &buffer[..22 + payload.len()]) {
        Ok(()) => open_gate(volume, gate),
        Err(fault) => Err(fault),
    }
}

/// Makes a place ready, and writes a block there.
fn append_at<V: Volume>(
    volume: &mut V,
    buffer: &mut Vec<u8>,
    place: LogStart,
    payload: &[u8],
) -> Result<(), Failed>
    requires generation { 1 ≤ place.generation }
    requires last { place.generation < 2 ^ 63 + 1 }
    requires payload { length payload.now ≤ 65500 }
    requires room { length buffer.old.items ≡ 65522 }
    ensures ok { V.tells_contents → (log : List ℕ) → LogIs V.seen V.moment V.left_at volume.old log
        → OnOk result (LogIs V.seen V.moment V.left_at volume.new (appended place payload.now log)) }
    ensures any_moment { V.tells_contents → (log : List ℕ) → LogIs V.seen V.moment V.left_at volume.old log
        → LogGoes V.moment V.left_at (λ from to. AppendingLeaves place payload.now log to) volume.old volume.new }
    ensures room { length buffer.new.items ≡ 65522 }
    ensures faults { CountsFault result (V.faults volume.old) (V.faults volume.new) }
    ensures identity { V.identity volume.new ≡ V.identity volume.old }
{
    match begin_at(volume, place) {
        Ok(()) => store(volume, buffer, place, payload),
        Err(fault) => Err(fault),
    }
}

/// The end of the log in memory, with the generation of the standing checkpoint and a buffer of one block.
///
/// A log that a crash left is scanned, and then sealed, before it is appended to.
#[derive(Drop)]
pub struct LogRing {
    end: LogStart,
    standing: u64,
    buffer: Vec<u8>,
    ghost room: { length buffer.items ≡ 65522 },
    ghost first: { 1 ≤ standing },
    ghost order: { standing ≤ end.generation },
    ghost inside: { end.offset < 1048576 },
}

impl LogRing {
    ghost use Rattle.std.specs.Prelude.{◌⊎◌};
    ghost use Rattle.jet_volume.specs.declared.files.LogStart.{LogStart};
    ghost use Rattle.log_ring.specs.Blocks.{Scans};
    ghost use Rattle.log_ring.specs.Gates.{place_for, sealed};
    ghost use Rattle.log_ring.specs.Appends.{GivesBeforeOrAfter};
    ghost use Rattle.log_ring.specs.Ring.{ring_end, ring_standing, IsRingOf, CountsRingFault};

    /// A ring with that end, while the checkpoint of that generation stands. It takes the buffer of a block, so
    /// that no later call takes memory.
    pub fn at(alloc: Global, end: LogStart, standing: u64) -> Result<LogRing, OutOfMemory>
        requires first { 1 ≤ standing }
        requires order { standing ≤ end.generation }
        requires inside { end.offset < 1048576 }
        ensures end { IfOk result (λ ring. ring_end ring ≡ end) }
        ensures standing { IfOk result (λ ring. ring_standing ring ≡ standing) }
    {
        let mut buffer = Vec::new(alloc);
        buffer.resize(BLOCK_LEN, 0)?;
        Ok(LogRing {
            end,
            standing,
            buffer,
        })
    }

    /// Where the log ends.
    pub fn end(&self) -> LogStart
        ensures { result ≡ ring_end self.now }
    {
        self.end
    }

    /// From now on the checkpoint of that generation stands.
    pub fn set_standing(&mut self, generation: u64)
        requires first { 1 ≤ generation }
        requires order { generation ≤ (ring_end self.old).generation }
        ensures standing { ring_standing self.new ≡ generation }
        ensures end { ring_end self.new ≡ ring_end self.old }
    {
        self.standing = generation;
    }

    /// Appends 1 to 65,500 bytes as one block. At `Ok` every crash leaves them. A crash at any moment of the
    /// call leaves the stream from before, with all of them or with none. After a fault of the volume the
    /// volume is opened again.
    pub fn append<V: Volume>(&mut self, volume: &mut V, bytes: &[u8]) -> Result<(), RingFault>
        requires some { 1 ≤ length bytes.now }
        requires most { length bytes.now ≤ 65500 }
        requires generation { (ring_end self.old).generation < 2 ^ 63 }
        requires position { (ring_end self.old).position < 2 ^ 63 }

        ensures appended { V.tells_contents → (from : LogStart) (stream : List ℕ) → 1 ≤ from.generation
            → IsRingOf V.seen V.moment V.left_at volume.old self.old from stream
            → OnOk result (IsRingOf V.seen V.moment V.left_at volume.new self.new from (stream ++ bytes.now)) }
        ensures any_moment { V.tells_contents → (from : LogStart) (stream : List ℕ) → 1 ≤ from.generation
            → IsRingOf V.seen V.moment V.left_at volume.old self.old from stream
            → LogGoes V.moment V.left_at (λ before log. GivesBeforeOrAfter from stream bytes.now log) volume.old volume.new }
        // The bytes of the file.
        ensures bytes { V.tells_contents → (log : List ℕ) → LogIs V.seen V.moment V.left_at volume.old log
            → (place : LogStart) → place_for (ring_standing self.old) (ring_end self.old) (length bytes.now) ≡ Some place
            → OnOk result (LogIs V.seen V.moment V.left_at volume.new (appended place bytes.now log)) }
        ensures end { (place : LogStart) → place_for (ring_standing self.old) (ring_end self.old) (length bytes.now) ≡ Some place
            → OnOk result (ring_end self.new ≡ behind place (length bytes.now)) }

        ensures no_room { (result ≡ Err RingFault.NoRoom) ↔ (place_for (ring_standing self.old) (ring_end self.old) (length bytes.now) ≡ None) }
        ensures unwritten { result ≡ Err RingFault.NoRoom → volume.new ≡ volume.old }
        ensures faults { CountsRingFault result (V.faults volume.old) (V.faults volume.new) }
        ensures identity { V.identity volume.new ≡ V.identity volume.old }
        ensures kept { OnErr result (ring_end self.new ≡ ring_end self.old) }
        ensures standing { ring_standing self.new ≡ ring_standing self.old }
    {
        let Some(place) = choose_place(self.standing, self.end, bytes.len()) else {
            return Err(RingFault::NoRoom);
        };
        match append_at(volume, &mut self.buffer, place, bytes) {
            Ok(()) => {
                self.end = behind_of(place, bytes.len());
                Ok(())
            }
            Err(_) => Err(RingFault::VolumeFault),
        }
    }

    /// Makes the log that a crash left ready for `append`, where a scan of it came to the ring's end. It bars
    /// the generation after the end's, and closes the gate at the end. A crash at any moment of the call leaves
    /// the same stream.
    pub fn seal<V: Volume>(&mut self, volume: &mut V) -> Result<(), VolumeFault>
        requires { (ring_end self.old).generation < 2 ^ 63 }
        ensures sealed { V.tells_contents → (log : List ℕ) → LogIs V.seen V.moment V.left_at volume.old log
            → OnOk result (LogIs V.seen V.moment V.left_at volume.new (sealed (ring_end self.old) log)) }
        ensures ready { V.tells_contents → (log : List ℕ) (from : LogStart) (stream : List ℕ) → 1 ≤ from.generation → ring_standing self.old ≡ from.generation
            → LogIs V.seen V.moment V.left_at volume.old log → Scans log from stream (ring_end self.old)
            → OnOk result (IsRingOf V.seen V.moment V.left_at volume.new self.new from stream) }
        ensures any_moment { V.tells_contents → (log : List ℕ) (from : LogStart) (stream : List ℕ) → 1 ≤ from.generation
            → LogIs V.seen V.moment V.left_at volume.old log → Scans log from stream (ring_end self.old)
            → LogGoes V.moment V.left_at (λ before log. Scans log from stream (ring_end self.old)) volume.old volume.new }
        ensures faults { CountsFault result (V.faults volume.old) (V.faults volume.new) }
        ensures identity { V.identity volume.new ≡ V.identity volume.old }
        ensures same { self.new ≡ self.old }
    {
        let end = self.end;
        make_ready(volume, end.generation + 1, address_of(end), end.offset > 0)
    }
}
