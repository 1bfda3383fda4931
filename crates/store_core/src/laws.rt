//! That the calls of a store fit together.

ghost use Rattle.std.specs.Prelude.{◌≡◌, ◌<◌, ◌≤◌, ℕ, ◌+◌, ◌^◌, List, Option, Some, length, OnOk};
ghost use Rattle.jet_volume.specs.Crash.{CrashLeaves, LeavesOnly};
ghost use Rattle.checkpoint.specs.Shape.{IsInShape};
ghost use Rattle.store_core.specs.declared.store.Store.{Store};
ghost use Rattle.store_core.specs.Stands.{Checkpoint, Stands};
ghost use Rattle.store_core.specs.Store.{store_volume, store_end, store_standing, IsOpened, IsWritable};
ghost use Rattle.store_core.specs.Runs.{StandsOnTheWay, IsNext};

use crate::fault::StoreFault;
use crate::store::Store;
use checkpoint::Image;
use jet_volume::Volume;

/// What a crash of an opened store leaves stands for its checkpoint and its stream, and a store that can be written is
/// an opened one. It does nothing: its clauses are the laws.
pub fn opened_stores_stand<V: Volume>()
    ensures stands { (store : Store V) (checkpoint : Option Checkpoint) (stream : List ℕ) → IsOpened V.seen V.moment V.left_at store checkpoint stream
        → CrashLeaves V.moment V.left_at (store_volume store) (Stands checkpoint stream) }
    ensures opened { (store : Store V) (checkpoint : Option Checkpoint) (stream : List ℕ) → IsWritable V.seen V.moment V.left_at store checkpoint stream
        → IsOpened V.seen V.moment V.left_at store checkpoint stream }
{}

/// Seals a store that was opened, flushes bytes, writes an image and flushes more bytes. It stops at the first
/// refusal. What each call asks is told by those before it, and a crash at any moment leaves one of four states.
pub fn seal_flush_checkpoint_flush<V: Volume>(
    store: &mut Store<V>,
    first: &[u8],
    image: &mut Image,
    second: &[u8],
) -> Result<(), StoreFault>
    requires first_some { 1 ≤ length first.now }
    requires first_most { length first.now ≤ 65500 }
    requires second_some { 1 ≤ length second.now }
    requires second_most { length second.now ≤ 65500 }
    requires shape { IsInShape image.old }
    requires standing { 1 ≤ (store_standing store.old).number }
    requires number { (store_standing store.old).number < 2 ^ 62 }
    requires generation { (store_end store.old).generation < 2 ^ 62 + 2 ^ 24 }
    requires position { (store_end store.old).position < 2 ^ 62 + 2 ^ 24 }
    ensures done { V.tells_contents → (checkpoint : Option Checkpoint) (stream : List ℕ)
        → IsOpened V.seen V.moment V.left_at store.old checkpoint stream
        → OnOk result ((next : Checkpoint) × IsNext image.old (store_standing store.old).number ((store_end store.old).position + length first.now) next
        × IsWritable V.seen V.moment V.left_at store.new (Some next) second.now) }
    ensures any_moment { V.tells_contents → (checkpoint : Option Checkpoint) (stream : List ℕ)
        → IsOpened V.seen V.moment V.left_at store.old checkpoint stream
        → (next : Checkpoint) × IsNext image.old (store_standing store.old).number ((store_end store.old).position + length first.now) next
        × LeavesOnly V.moment V.left_at (store_volume store.old) (store_volume store.new) (StandsOnTheWay checkpoint stream first.now next second.now) }
    ensures identity { V.identity (store_volume store.new) ≡ V.identity (store_volume store.old) }
{
    match store.seal() {
        Ok(()) => match store.flush(first) {
            Ok(()) => match store.checkpoint(image) {
                Ok(()) => store.flush(second),
                Err(fault) => Err(fault),
            },
            Err(fault) => Err(fault),
        },
        Err(fault) => Err(fault),
    }
}
