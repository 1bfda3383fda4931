//! The store of a volume, and how far it was given the bytes of a log.

ghost use Rattle.std.specs.Prelude.{◌≡◌, ◌≤◌, ◌<◌, ◌+◌, ◌-◌, ◌^◌, ◌↔◌, ℕ, List, [], Option, None, Some, length, min, OnErr, OnOk, Err};
ghost use Rattle.jet_volume.specs.declared.files.LogStart.{LogStart};
ghost use Rattle.jet_volume.specs.Crash.{LeavesOnly};
ghost use Rattle.log_ring.specs.Blocks.{behind};
ghost use Rattle.log_ring.specs.Gates.{place_for};
ghost use Rattle.checkpoint.specs.Shape.{IsInShape};
ghost use Rattle.store_core.specs.Stands.{Checkpoint, Stands, StandsOldOrNew};
ghost use Rattle.store_core.specs.Store.{store_down, store_end, store_standing, checkpoint_of, IsOpened, IsWritable, CountsStoreFault, IsNotNoRoom};
ghost use Rattle.entry_log.specs.LogState.{IsKeptOf, stream_end};

use crate::block::Block;
use crate::log_bytes::LogBytes;
use checkpoint::Image;
use jet_volume::Volume;
use store_core::{Store, StoreFault, opened_stores_stand};

/// A store, and the position of a log up to which it was given the bytes, in blocks or by an image in their place.
///
/// Positions are the log's own: they count from where it began, while those of the store's ring count from where the volume
/// was made. After a fault the store is down, and what a crash leaves then is what the call of the fault says.
#[derive(Drop)]
pub struct LogKeeper<V> {
    store: Store<V>,
    given: u64,
    /// The bytes that are given next.
    block: Block,
}

impl<V: Volume> LogKeeper<V> {
    ghost use Rattle.log_keeper.specs.Keeping.{keeper_store, keeper_volume, keeper_given, KeepsLog, StandsUpTo, TakesBytes, HasNext, given_to, CountsGivenFault};

    /// A store that was given the bytes of a log up to a position.
    pub fn new(store: Store<V>, given: u64, block: Block) -> LogKeeper<V>
        ensures store { keeper_store result ≡ store }
        ensures given { keeper_given result ≡ given }
    {
        LogKeeper {
            store,
            given,
            block,
        }
    }

    /// The position up to which the bytes of the log were given.
    pub fn given(&self) -> u64
        ensures { result ≡ keeper_given self.now }
    {
        self.given
    }

    /// The store.
    pub fn store(&self) -> &Store<V>
        ensures { result.now ≡ keeper_store self.now }
    {
        &self.store
    }

    /// Makes the log that a crash left ready, as `Store::seal` does.
    pub fn seal(&mut self) -> Result<(), StoreFault>
        requires { (store_end (keeper_store self.old)).generation < 2 ^ 63 }
        ensures sealed { V.tells_contents → (checkpoint : Option Checkpoint) (stream : List ℕ)
            → IsOpened V.seen V.moment V.left_at (keeper_store self.old) checkpoint stream
            → OnOk result (IsWritable V.seen V.moment V.left_at (keeper_store self.new) checkpoint stream) }
        ensures any_moment { V.tells_contents → (checkpoint : Option Checkpoint) (stream : List ℕ)
            → IsOpened V.seen V.moment V.left_at (keeper_store self.old) checkpoint stream
            → LeavesOnly V.moment V.left_at (keeper_volume self.old) (keeper_volume self.new) (Stands checkpoint stream) }
        ensures new { (store_standing (keeper_store self.old)).number ≡ 0 → keeper_store self.new ≡ keeper_store self.old }
        ensures given { keeper_given self.new ≡ keeper_given self.old }
        ensures end { store_end (keeper_store self.new) ≡ store_end (keeper_store self.old) }
        ensures standing { store_standing (keeper_store self.new) ≡ store_standing (keeper_store self.old) }
        ensures room { IsNotNoRoom result }
        ensures faults { CountsStoreFault V.faults result (keeper_store self.old) (keeper_store self.new) }
        ensures identity { V.identity (keeper_volume self.new) ≡ V.identity (keeper_volume self.old) }
    {
        self.store.seal()
    }

    /// Copies the next bytes of a log into the block, at most 65,500, and tells how many.
    pub fn take_block<L: LogBytes>(&mut self, log: &L) -> usize
        requires kept { (L.stream log.now).from ≤ keeper_given self.old }
        requires within { keeper_given self.old ≤ stream_end (L.stream log.now) }
        ensures count { result ≡ min 65500 (stream_end (L.stream log.now) - keeper_given self.old) }
        ensures next { (whole : List ℕ) → IsKeptOf whole (L.stream log.now) → HasNext result whole self.new }
        ensures store { keeper_store self.new ≡ keeper_store self.old }
        ensures given { keeper_given self.new ≡ keeper_given self.old }
    {
        log.pending(self.given, &mut self.block.bytes)
    }

    /// Gives so many of the bytes that were copied, as `Store::flush` does. At `Ok` every crash leaves them. A crash at any
    /// moment of the call leaves all of them or none.
    pub fn give_block(&mut self, count: usize) -> Result<(), StoreFault>
        requires some { 1 ≤ count }
        requires most { count ≤ 65500 }
        requires given { keeper_given self.old + count < 2 ^ 64 }
        requires takes { TakesBytes count (keeper_store self.old) }
        ensures keeps { V.tells_contents → (checkpoint : Option Checkpoint) (base : ℕ) (whole : List ℕ)
            → KeepsLog V.seen V.moment V.left_at self.old checkpoint base whole → HasNext count whole self.old
            → OnOk result (KeepsLog V.seen V.moment V.left_at self.new checkpoint base whole) }
        ensures any_moment { V.tells_contents → (checkpoint : Option Checkpoint) (base : ℕ) (whole : List ℕ)
            → KeepsLog V.seen V.moment V.left_at self.old checkpoint base whole → HasNext count whole self.old
            → LeavesOnly V.moment V.left_at (keeper_volume self.old) (keeper_volume self.new) (StandsUpTo checkpoint base (keeper_given self.old) (keeper_given self.old + count) whole) }
        ensures still { V.tells_contents → (checkpoint : Option Checkpoint) (base : ℕ) (whole : List ℕ)
            → KeepsLog V.seen V.moment V.left_at self.old checkpoint base whole
            → result ≡ Err StoreFault.NoRoom → KeepsLog V.seen V.moment V.left_at self.new checkpoint base whole }
        ensures given { OnOk result (keeper_given self.new ≡ keeper_given self.old + count) }
        ensures kept { OnErr result (keeper_given self.new ≡ keeper_given self.old) }
        ensures end { (place : LogStart) → place_for (store_standing (keeper_store self.old)).start.generation (store_end (keeper_store self.old)) count ≡ Some place
            → OnOk result (store_end (keeper_store self.new) ≡ behind place count) }
        ensures same_end { OnErr result (store_end (keeper_store self.new) ≡ store_end (keeper_store self.old)) }
        ensures position { OnOk result ((store_end (keeper_store self.new)).position ≡ (store_end (keeper_store self.old)).position + count) }
        ensures generation { (store_end (keeper_store self.new)).generation ≤ (store_end (keeper_store self.old)).generation + 1 }
        ensures no_room { (result ≡ Err StoreFault.NoRoom)
            ↔ ((store_down (keeper_store self.old) ≡ None) × (place_for (store_standing (keeper_store self.old)).start.generation (store_end (keeper_store self.old)) count ≡ None)) }
        ensures standing { store_standing (keeper_store self.new) ≡ store_standing (keeper_store self.old) }
        ensures faults { CountsStoreFault V.faults result (keeper_store self.old) (keeper_store self.new) }
        ensures identity { V.identity (keeper_volume self.new) ≡ V.identity (keeper_volume self.old) }
    {
        match self.store.flush(&self.block.bytes[..count]) {
            Ok(()) => {
                self.given += count as u64;
                Ok(())
            }
            Err(fault) => Err(fault),
        }
    }

    /// Gives all bytes of a log that were not given yet, in order, in blocks of 65,500 bytes and a last one. At `Ok` every crash
    /// leaves them. A crash at any moment of the call leaves what was given before and some first ones of them. Where a block
    /// finds no room those before it were given, and an image can be put in the place of the rest.
    pub fn give_all<L: LogBytes>(&mut self, log: &L) -> Result<(), StoreFault>
        requires kept { (L.stream log.now).from ≤ keeper_given self.old }
        requires within { keeper_given self.old ≤ stream_end (L.stream log.now) }
        requires takes { TakesBytes (stream_end (L.stream log.now) - keeper_given self.old) (keeper_store self.old) }
        ensures keeps { V.tells_contents → (checkpoint : Option Checkpoint) (base : ℕ) (whole : List ℕ)
            → KeepsLog V.seen V.moment V.left_at self.old checkpoint base whole → IsKeptOf whole (L.stream log.now)
            → OnOk result (KeepsLog V.seen V.moment V.left_at self.new checkpoint base whole) }
        ensures any_moment { V.tells_contents → (checkpoint : Option Checkpoint) (base : ℕ) (whole : List ℕ)
            → KeepsLog V.seen V.moment V.left_at self.old checkpoint base whole → IsKeptOf whole (L.stream log.now)
            → LeavesOnly V.moment V.left_at (keeper_volume self.old) (keeper_volume self.new) (StandsUpTo checkpoint base (keeper_given self.old) (length whole) whole) }
        ensures still { V.tells_contents → (checkpoint : Option Checkpoint) (base : ℕ) (whole : List ℕ)
            → KeepsLog V.seen V.moment V.left_at self.old checkpoint base whole → IsKeptOf whole (L.stream log.now)
            → result ≡ Err StoreFault.NoRoom → KeepsLog V.seen V.moment V.left_at self.new checkpoint base whole }
        ensures all { OnOk result (keeper_given self.new ≡ stream_end (L.stream log.now)) }
        ensures some { OnErr result (keeper_given self.new < stream_end (L.stream log.now)) }
        ensures rises { keeper_given self.old ≤ keeper_given self.new }
        ensures end { V.faults (keeper_volume self.new) ≡ V.faults (keeper_volume self.old) → store_down (keeper_store self.old) ≡ None
            → store_end (keeper_store self.new) ≡ (given_to (keeper_store self.old) (stream_end (L.stream log.now) - keeper_given self.old)).end }
        ensures left { V.faults (keeper_volume self.new) ≡ V.faults (keeper_volume self.old) → store_down (keeper_store self.old) ≡ None
            → keeper_given self.new + (given_to (keeper_store self.old) (stream_end (L.stream log.now) - keeper_given self.old)).left ≡ stream_end (L.stream log.now) }
        ensures no_room { (result ≡ Err StoreFault.NoRoom)
            ↔ ((store_down (keeper_store self.old) ≡ None) × (V.faults (keeper_volume self.new) ≡ V.faults (keeper_volume self.old))
            × (1 ≤ (given_to (keeper_store self.old) (stream_end (L.stream log.now) - keeper_given self.old)).left)) }
        ensures position { (store_end (keeper_store self.new)).position + keeper_given self.old ≡ (store_end (keeper_store self.old)).position + keeper_given self.new }
        ensures generation { (store_end (keeper_store self.new)).generation + keeper_given self.old ≤ (store_end (keeper_store self.old)).generation + keeper_given self.new }
        ensures standing { store_standing (keeper_store self.new) ≡ store_standing (keeper_store self.old) }
        ensures faults { CountsGivenFault V.faults (stream_end (L.stream log.now) - keeper_given self.old) result (keeper_store self.old) (keeper_store self.new) }
        ensures identity { V.identity (keeper_volume self.new) ≡ V.identity (keeper_volume self.old) }
    {
        opened_stores_stand::<V>();
        while self.given < log.stream_end() {
            let count = self.take_block(log);
            match self.give_block(count) {
                Ok(()) => {}
                Err(fault) => return Err(fault),
            }
        }
        Ok(())
    }

    /// Writes an image as the next checkpoint, as `Store::checkpoint` does, in the place of the bytes of the log up to a
    /// position. At `Ok` every crash leaves it, and no byte behind it. A crash at any moment of the call leaves what stood, or
    /// the image with no byte behind it.
    pub fn put_image(&mut self, image: &mut Image, to: u64) -> Result<(), StoreFault>
        requires shape { IsInShape image.old }
        requires number { (store_standing (keeper_store self.old)).number < 2 ^ 63 }
        ensures written { V.tells_contents → (checkpoint : Option Checkpoint) (stream : List ℕ)
            → IsWritable V.seen V.moment V.left_at (keeper_store self.old) checkpoint stream
            → OnOk result (IsWritable V.seen V.moment V.left_at (keeper_store self.new) (Some (checkpoint_of ((store_standing (keeper_store self.old)).number + 1) (store_end (keeper_store self.old)) image.old)) []) }
        ensures any_moment { V.tells_contents → (checkpoint : Option Checkpoint) (stream : List ℕ)
            → IsWritable V.seen V.moment V.left_at (keeper_store self.old) checkpoint stream
            → LeavesOnly V.moment V.left_at (keeper_volume self.old) (keeper_volume self.new)
            (StandsOldOrNew checkpoint stream (checkpoint_of ((store_standing (keeper_store self.old)).number + 1) (store_end (keeper_store self.old)) image.old)) }
        ensures given { OnOk result (keeper_given self.new ≡ to) }
        ensures kept { OnErr result (keeper_given self.new ≡ keeper_given self.old) }
        ensures number { OnOk result ((store_standing (keeper_store self.new)).number ≡ (store_standing (keeper_store self.old)).number + 1) }
        ensures start { OnOk result ((store_standing (keeper_store self.new)).start ≡ store_end (keeper_store self.old)) }
        ensures pages { OnOk result ((store_standing (keeper_store self.new)).pages.items ≡ image.old.pages.items) }
        ensures old_pages { OnOk result (image.new.pages.items ≡ (store_standing (keeper_store self.old)).pages.items) }
        ensures old_slots { OnOk result (image.new.slots.items ≡ (store_standing (keeper_store self.old)).slots.items) }
        ensures rest { (image.new.number ≡ image.old.number) × (image.new.catalog_root ≡ image.old.catalog_root) × (image.new.live.items ≡ image.old.live.items) }
        ensures end { store_end (keeper_store self.new) ≡ store_end (keeper_store self.old) }
        ensures unchanged { OnErr result (store_standing (keeper_store self.new) ≡ store_standing (keeper_store self.old)) }
        ensures same_pages { OnErr result (image.new.pages.items ≡ image.old.pages.items) }
        ensures shape { IsInShape image.new }
        ensures room { IsNotNoRoom result }
        ensures faults { CountsStoreFault V.faults result (keeper_store self.old) (keeper_store self.new) }
        ensures identity { V.identity (keeper_volume self.new) ≡ V.identity (keeper_volume self.old) }
    {
        match self.store.checkpoint(image) {
            Ok(()) => {
                self.given = to;
                Ok(())
            }
            Err(fault) => Err(fault),
        }
    }

    /// The volume.
    pub fn into_volume(self) -> V
        ensures { result ≡ keeper_volume self }
    {
        self.store.into_volume()
    }
}
