//! A store: a volume, the end of its log, and its standing checkpoint.

ghost use Rattle.std.specs.Prelude.{◌≡◌, ◌<◌, ◌≤◌, ◌↔◌, ℕ, ◌+◌, ◌-◌, ◌^◌, min, true, Option, None, Some, List, [], ◌++◌, length, IfOk, IfErr, OnOk, OnErr};
ghost use Rattle.jet_volume.specs.declared.files.LogStart.{LogStart};
ghost use Rattle.jet_volume.specs.Crash.{CrashLeaves, IsSettled, LeavesOnly};
ghost use Rattle.log_ring.specs.declared.places.TheConstants.{SLOT_LEN};
ghost use Rattle.log_ring.specs.Blocks.{behind, Scans, EndsNear};
ghost use Rattle.log_ring.specs.Gates.{place_for};
ghost use Rattle.log_ring.specs.Writes.{LogIs, LooksOnly};
ghost use Rattle.log_ring.specs.Ring.{ring_end, ring_standing};
ghost use Rattle.checkpoint.specs.declared.rest.TheConstants.{FORMAT_VERSION};
ghost use Rattle.checkpoint.specs.Shape.{IsInShape};
ghost use Rattle.checkpoint.specs.Found.{Finds, IsAnswer, Explains, IsFromOutside};
ghost use Rattle.store_core.specs.Stands.{Checkpoint, IsShaped, ShowsIn, Stands, StandsBeforeOrAfter, StandsOldOrNew};

use crate::fault::{OpenFault, StoreFault};
use checkpoint::{CheckFault, Found, Image, Standing, read, what_stands_is_read, write};
use jet_volume::Volume;
use log_ring::{LogRing, RingFault, ScanFault, ready_from_the_end, scan, scans_once};
use std::alloc::Global;

/// A volume with its log and its standing checkpoint.
///
/// A volume is opened, and then sealed where it was not new; from then on bytes are flushed behind the standing
/// checkpoint, and checkpoints written. After a fault of the volume the store is down: the volume is taken out and
/// opened again.
#[derive(Drop)]
pub struct Store<V> {
    volume: V,
    ring: LogRing,
    standing: Standing,
    down: Option<u64>,
    ghost follows: { ring_standing ring ≡ standing.start.generation },
    ghost position: { standing.start.position ≤ (ring_end ring).position },
    ghost shaped: { IsShaped standing },
}

/// The count of faults that a volume shows when a call of a store has met one: the store is down since then.
fn down_since<V: Volume>(volume: &V) -> Option<u64>
    ensures { result ≡ Some (min (V.faults volume.now) (2 ^ 64 - 1)) }
{
    Some(volume.faults())
}

impl<V: Volume> Store<V> {
    ghost use Rattle.store_core.specs.Store.{store_volume, store_end, store_standing, store_down, checkpoint_of, IsCopyOf, IsOpened, IsWritable, CountsStoreFault, CountsOpenFault, IsNotNoRoom, checkpoint_found, may_be_opened};

    /// Opens a volume: reads the checkpoint that stands on it, and the bytes of the log behind it. It writes nothing.
    ///
    /// The refusals come in the order of [`CheckFault`], and each hands the volume back. What the bytes of the pages,
    /// of the live part and of the log mean is not looked at.
    pub fn open(alloc: Global, mut volume: V) -> Result<(Found, Vec<u8>, Store<V>), OpenFault<V>>
        ensures found { IfOk result (λ r. V.tells_contents → Finds (V.seen volume) r.0 (store_standing r.2)) }
        ensures form { IfOk result (λ r. IsAnswer r.0 (store_standing r.2)) }
        ensures stands { IfOk result (λ r. V.tells_contents → Stands (checkpoint_found r.0 (store_standing r.2)) r.1.items (V.seen volume)) }
        ensures opened { IfOk result (λ r. V.tells_contents → IsSettled V.moment V.left_at V.seen volume
            → IsOpened V.seen V.moment V.left_at r.2 (checkpoint_found r.0 (store_standing r.2)) r.1.items) }
        // What stands on the files is found, and not refused but for want of memory or a fault.
        ensures finds { V.tells_contents → (checkpoint : Option Checkpoint) (stream : List ℕ) → Stands checkpoint stream (V.seen volume)
            → IfOk result (λ r. (checkpoint_found r.0 (store_standing r.2) ≡ checkpoint) × (r.1.items ≡ stream)) }
        ensures sure { V.tells_contents → (checkpoint : Option Checkpoint) (stream : List ℕ) → Stands checkpoint stream (V.seen volume) → may_be_opened checkpoint ≡ true
            → IfErr result (λ e. IsFromOutside e.cause) }
        // A new volume needs no seal.
        ensures new { IfOk result (λ r. V.tells_contents → IsSettled V.moment V.left_at V.seen volume
            → checkpoint_found r.0 (store_standing r.2) ≡ None → IsWritable V.seen V.moment V.left_at r.2 None r.1.items) }
        ensures number { IfOk result (λ r. (store_standing r.2).number < 2 ^ 62) }
        ensures generation { IfOk result (λ r. (store_end r.2).generation < 2 ^ 62 + 2 ^ 24) }
        ensures position { IfOk result (λ r. (store_end r.2).position < 2 ^ 62 + 2 ^ 24) }
        ensures up { IfOk result (λ r. store_down r.2 ≡ None) }
        ensures seen { IfOk result (λ r. V.seen (store_volume r.2) ≡ V.seen volume) }
        ensures any_moment { IfOk result (λ r. LooksOnly V.moment V.left_at volume (store_volume r.2)) }
        ensures faults { IfOk result (λ r. V.faults (store_volume r.2) ≡ V.faults volume) }
        ensures identity { IfOk result (λ r. V.identity (store_volume r.2) ≡ V.identity volume) }
        ensures refused { IfErr result (λ e. V.tells_contents → Explains (V.seen volume) e.cause) }
        ensures seen_back { IfErr result (λ e. V.seen e.volume ≡ V.seen volume) }
        ensures any_moment_back { IfErr result (λ e. LooksOnly V.moment V.left_at volume e.volume) }
        ensures faults_back { IfErr result (λ e. CountsOpenFault e.cause (V.faults volume) (V.faults e.volume)) }
        ensures identity_back { IfErr result (λ e. V.identity e.volume ≡ V.identity volume) }
    {
        // A volume has one standing checkpoint, and its log one stream.
        what_stands_is_read();
        scans_once();
        match read(alloc, &mut volume) {
            Ok((found, standing)) => match Store::with_standing(alloc, volume, standing) {
                Ok((bytes, store)) => Ok((found, bytes, store)),
                Err(fault) => Err(fault),
            },
            Err(cause) => Err(OpenFault { volume, cause }),
        }
    }

    /// The store of a volume on which that checkpoint stands, and the bytes of its log behind it. It writes nothing,
    /// and takes the buffer of a block, so that no later call takes memory.
    fn with_standing(
        alloc: Global,
        mut volume: V,
        standing: Standing,
    ) -> Result<(Vec<u8>, Store<V>), OpenFault<V>>
        requires first { 1 ≤ standing.start.generation }
        requires generation { standing.start.generation < 2 ^ 62 }
        requires offset { standing.start.offset < SLOT_LEN }
        requires position { standing.start.position < 2 ^ 62 }
        requires shaped { IsShaped standing }
        ensures scans { IfOk result (λ r. V.tells_contents → Scans (V.seen volume).log standing.start r.0.items (store_end r.1)) }
        ensures opened { IfOk result (λ r. V.tells_contents → (checkpoint : Option Checkpoint) → IsCopyOf checkpoint standing
            → CrashLeaves V.moment V.left_at volume (ShowsIn standing.slots.items checkpoint)
            → CrashLeaves V.moment V.left_at volume (λ image. image.log ≡ (V.seen volume).log)
            → IsOpened V.seen V.moment V.left_at r.1 checkpoint r.0.items) }
        ensures new { IfOk result (λ r. V.tells_contents → IsCopyOf None standing → CrashLeaves V.moment V.left_at volume (ShowsIn standing.slots.items None)
            → IsWritable V.seen V.moment V.left_at r.1 None r.0.items) }
        ensures near { IfOk result (λ r. EndsNear standing.start r.0.items (store_end r.1)) }
        ensures standing { IfOk result (λ r. store_standing r.1 ≡ standing) }
        ensures up { IfOk result (λ r. store_down r.1 ≡ None) }
        ensures seen { IfOk result (λ r. V.seen (store_volume r.1) ≡ V.seen volume) }
        ensures any_moment { IfOk result (λ r. LooksOnly V.moment V.left_at volume (store_volume r.1)) }
        ensures faults { IfOk result (λ r. V.faults (store_volume r.1) ≡ V.faults volume) }
        ensures identity { IfOk result (λ r. V.identity (store_volume r.1) ≡ V.identity volume) }
        ensures seen_back { IfErr result (λ e. V.seen e.volume ≡ V.seen volume) }
        ensures any_moment_back { IfErr result (λ e. LooksOnly V.moment V.left_at volume e.volume) }
        ensures cause { IfErr result (λ e. IsFromOutside e.cause) }
        ensures faults_back { IfErr result (λ e. CountsOpenFault e.cause (V.faults volume) (V.faults e.volume)) }
        ensures identity_back { IfErr result (λ e. V.identity e.volume ≡ V.identity volume) }
    {
        match scan(alloc, &mut volume, standing.start) {
            Ok((bytes, end)) => match LogRing::at(alloc, end, standing.start.generation) {
                Ok(ring) => {
                    let store = Store {
                        volume,
                        ring,
                        standing,
                        down: None,
                    };
                    Ok((bytes, store))
                }
                Err(_) => Err(OpenFault {
                    volume,
                    cause: CheckFault::OutOfMemory,
                }),
            },
            Err(ScanFault::OutOfMemory) => Err(OpenFault {
                volume,
                cause: CheckFault::OutOfMemory,
            }),
            Err(ScanFault::VolumeFault) => Err(OpenFault {
                volume,
                cause: CheckFault::VolumeFault,
            }),
        }
    }

    /// Makes the log that a crash left ready for `flush`. A new volume has no log yet, and is ready. A crash at any
    /// moment of the call leaves the same checkpoint and the same stream.
    pub fn seal(&mut self) -> Result<(), StoreFault>
        requires { (store_end self.old).generation < 2 ^ 63 }
        ensures sealed { V.tells_contents → (checkpoint : Option Checkpoint) (stream : List ℕ)
            → IsOpened V.seen V.moment V.left_at self.old checkpoint stream
            → OnOk result (IsWritable V.seen V.moment V.left_at self.new checkpoint stream) }
        ensures any_moment { V.tells_contents → (checkpoint : Option Checkpoint) (stream : List ℕ)
            → IsOpened V.seen V.moment V.left_at self.old checkpoint stream
            → LeavesOnly V.moment V.left_at (store_volume self.old) (store_volume self.new) (Stands checkpoint stream) }
        // A new volume has no log to make ready.
        ensures new { (store_standing self.old).number ≡ 0 → self.new ≡ self.old }
        ensures end { store_end self.new ≡ store_end self.old }
        ensures standing { store_standing self.new ≡ store_standing self.old }
        ensures room { IsNotNoRoom result }
        ensures faults { CountsStoreFault V.faults result self.old self.new }
        ensures identity { V.identity (store_volume self.new) ≡ V.identity (store_volume self.old) }
    {
        if let Some(count) = self.down {
            return Err(StoreFault::Down(count));
        }
        if self.standing.number == 0 {
            return Ok(());
        }
        match self.ring.seal(&mut self.volume) {
            Ok(()) => Ok(()),
            Err(_) => {
                self.down = down_since(&self.volume);
                Err(StoreFault::VolumeFault)
            }
        }
    }

    /// Appends 1 to 65,500 bytes to the log behind the standing checkpoint, where one stands. At `Ok` every crash
    /// leaves them. A crash at any moment of the call leaves the stream from before, with all of them or with none. It
    /// takes no memory. Where it finds no room, a checkpoint makes some.
    pub fn flush(&mut self, bytes: &[u8]) -> Result<(), StoreFault>
        requires some { 1 ≤ length bytes.now }
        requires most { length bytes.now ≤ 65500 }
        requires standing { 1 ≤ (store_standing self.old).number }
        requires generation { (store_end self.old).generation < 2 ^ 63 }
        requires position { (store_end self.old).position < 2 ^ 63 }

        ensures flushed { V.tells_contents → (checkpoint : Option Checkpoint) (stream : List ℕ)
            → IsWritable V.seen V.moment V.left_at self.old checkpoint stream
            → OnOk result (IsWritable V.seen V.moment V.left_at self.new checkpoint (stream ++ bytes.now)) }
        ensures any_moment { V.tells_contents → (checkpoint : Option Checkpoint) (stream : List ℕ)
            → IsWritable V.seen V.moment V.left_at self.old checkpoint stream
            → LeavesOnly V.moment V.left_at (store_volume self.old) (store_volume self.new) (StandsBeforeOrAfter checkpoint stream bytes.now) }
        ensures end { (place : LogStart) → place_for (store_standing self.old).start.generation (store_end self.old) (length bytes.now) ≡ Some place
            → OnOk result (store_end self.new ≡ behind place (length bytes.now)) }
        ensures position { OnOk result ((store_end self.new).position ≡ (store_end self.old).position + length bytes.now) }
        ensures generation { (store_end self.new).generation ≤ (store_end self.old).generation + 1 }

        ensures no_room { (result ≡ Err StoreFault.NoRoom)
            ↔ ((store_down self.old ≡ None) × (place_for (store_standing self.old).start.generation (store_end self.old) (length bytes.now) ≡ None)) }
        ensures unwritten { result ≡ Err StoreFault.NoRoom → store_volume self.new ≡ store_volume self.old }
        ensures still { V.tells_contents → (checkpoint : Option Checkpoint) (stream : List ℕ)
            → IsWritable V.seen V.moment V.left_at self.old checkpoint stream
            → result ≡ Err StoreFault.NoRoom → IsWritable V.seen V.moment V.left_at self.new checkpoint stream }
        ensures kept { OnErr result (store_end self.new ≡ store_end self.old) }
        ensures standing { store_standing self.new ≡ store_standing self.old }
        ensures faults { CountsStoreFault V.faults result self.old self.new }
        ensures identity { V.identity (store_volume self.new) ≡ V.identity (store_volume self.old) }
    {
        if let Some(count) = self.down {
            return Err(StoreFault::Down(count));
        }
        match self.ring.append(&mut self.volume, bytes) {
            Ok(()) => Ok(()),
            Err(RingFault::NoRoom) => Err(StoreFault::NoRoom),
            Err(RingFault::VolumeFault) => {
                self.down = down_since(&self.volume);
                Err(StoreFault::VolumeFault)
            }
        }
    }

    /// Writes an image as the next checkpoint, behind which the log goes on at its end. At `Ok` every crash leaves it,
    /// and no byte of the log behind it. A crash at any moment of the call leaves the old checkpoint with its stream,
    /// or the new one with none. It takes no memory; on success the image has the pages and slots of the checkpoint
    /// that stood before, and after a refusal its own pages. It is in shape either way.
    pub fn checkpoint(&mut self, image: &mut Image) -> Result<(), StoreFault>
        requires shape { IsInShape image.old }
        requires number { (store_standing self.old).number < 2 ^ 63 }

        ensures written { V.tells_contents → (checkpoint : Option Checkpoint) (stream : List ℕ)
            → IsWritable V.seen V.moment V.left_at self.old checkpoint stream
            → OnOk result (IsWritable V.seen V.moment V.left_at self.new (Some (checkpoint_of ((store_standing self.old).number + 1) (store_end self.old) image.old)) []) }
        ensures any_moment { V.tells_contents → (checkpoint : Option Checkpoint) (stream : List ℕ)
            → IsWritable V.seen V.moment V.left_at self.old checkpoint stream
            → LeavesOnly V.moment V.left_at (store_volume self.old) (store_volume self.new)
            (StandsOldOrNew checkpoint stream (checkpoint_of ((store_standing self.old).number + 1) (store_end self.old) image.old)) }
        ensures number { OnOk result ((store_standing self.new).number ≡ (store_standing self.old).number + 1) }
        ensures format { OnOk result ((store_standing self.new).format ≡ FORMAT_VERSION) }
        ensures start { OnOk result ((store_standing self.new).start ≡ store_end self.old) }
        ensures pages { OnOk result ((store_standing self.new).pages.items ≡ image.old.pages.items) }
        ensures old_pages { OnOk result (image.new.pages.items ≡ (store_standing self.old).pages.items) }
        ensures old_slots { OnOk result (image.new.slots.items ≡ (store_standing self.old).slots.items) }
        ensures rest { (image.new.number ≡ image.old.number) × (image.new.catalog_root ≡ image.old.catalog_root) × (image.new.live.items ≡ image.old.live.items) }

        ensures end { store_end self.new ≡ store_end self.old }
        ensures unchanged { OnErr result (store_standing self.new ≡ store_standing self.old) }
        ensures same_pages { OnErr result (image.new.pages.items ≡ image.old.pages.items) }
        ensures shape { IsInShape image.new }
        ensures untouched { (count : ℕ) → result ≡ Err (StoreFault.Down count) → image.new ≡ image.old }
        ensures room { IsNotNoRoom result }
        ensures faults { CountsStoreFault V.faults result self.old self.new }
        ensures identity { V.identity (store_volume self.new) ≡ V.identity (store_volume self.old) }
    {
        if let Some(count) = self.down {
            return Err(StoreFault::Down(count));
        }
        let start = self.ring.end();
        // Behind the new checkpoint the log gives no bytes.
        ready_from_the_end();
        match write(&mut self.volume, image, start, &mut self.standing) {
            Ok(()) => {
                self.ring.set_standing(start.generation);
                Ok(())
            }
            Err(_) => {
                self.down = down_since(&self.volume);
                Err(StoreFault::VolumeFault)
            }
        }
    }

    /// The volume's count of faults, or 2^64 - 1 where that is more.
    pub fn faults(&self) -> u64
        ensures { result ≡ min (V.faults (store_volume self.now)) (2 ^ 64 - 1) }
    {
        self.volume.faults()
    }

    /// How many bytes of the log's stream stand behind the standing checkpoint.
    pub fn behind(&self) -> u64
        ensures { result + (store_standing self.now).start.position ≡ (store_end self.now).position }
    {
        self.ring.end().position - self.standing.start.position
    }

    /// The standing checkpoint.
    pub fn standing(&self) -> &Standing
        ensures { result.now ≡ store_standing self.now }
    {
        &self.standing
    }

    /// The volume.
    pub fn into_volume(self) -> V
        ensures { result ≡ store_volume self }
    {
        self.volume
    }
}
