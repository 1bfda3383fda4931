//! A volume that is opened, flushed to, written, crashed and opened again.

ghost use Rattle.std.specs.Prelude.{◌≡◌, ◌⊎◌, ◌≤◌, ◌+◌, ◌++◌, [], true, length, IfOk};
ghost use Rattle.jet_volume.specs.Crash.{IsSettled};
ghost use Rattle.jet_volume.specs.Memory.{mem_seen, mem_moment, mem_left_at};
ghost use Rattle.checkpoint.specs.Shape.{IsInShape};

use checkpoint::Image;
use jet_volume::MemVolume;
use std::alloc::Global;
use store_core::{Store, opened_stores_stand, seal_flush_checkpoint_flush};

/// The number of the standing checkpoint and the bytes of the log behind it, before a run and after a crash of it,
/// and whether the whole run was acknowledged.
#[derive(Drop)]
pub struct Reopened {
    pub number: u64,
    pub before: Vec<u8>,
    pub acknowledged: bool,
    pub number_after: u64,
    pub after: Vec<u8>,
}

/// Opens a volume with a checkpoint, seals it, flushes bytes, writes an image and flushes more bytes, up to the first
/// refusal. It crashes, and opens what the crash left. A whole run is there, and else what came before some moment of
/// it.
pub fn reopen(
    alloc: Global,
    volume: MemVolume,
    first: &[u8],
    image: &mut Image,
    second: &[u8],
    pick: u64,
) -> Result<Reopened, ()>
    requires first_some { 1 ≤ length first.now }
    requires first_most { length first.now ≤ 65500 }
    requires second_some { 1 ≤ length second.now }
    requires second_most { length second.now ≤ 65500 }
    requires shape { IsInShape image.old }
    ensures kept { IsSettled mem_moment mem_left_at mem_seen volume
        → IfOk result (λ r. ((r.number_after ≡ r.number) × ((r.after.items ≡ r.before.items) ⊎ (r.after.items ≡ r.before.items ++ first.now)))
        ⊎ ((r.number_after ≡ r.number + 1) × ((r.after.items ≡ []) ⊎ (r.after.items ≡ second.now)))) }
    ensures acknowledged { IsSettled mem_moment mem_left_at mem_seen volume
        → IfOk result (λ r. r.acknowledged ≡ true → (r.number_after ≡ r.number + 1) × (r.after.items ≡ second.now)) }
{
    opened_stores_stand::<MemVolume>();
    match Store::open(alloc, volume) {
        Ok((_found, before, mut store)) => {
            let number = store.standing().number;
            if number == 0 {
                return Err(());
            }
            let acknowledged = seal_flush_checkpoint_flush(
                &mut store, first, image, second,
            ).is_ok();
            match store.into_volume().crash(pick, Vec::new(alloc), None) {
                Ok(left) => match Store::open(alloc, left) {
                    Ok((_found_after, after, store_after)) => {
                        let number_after = store_after.standing().number;
                        Ok(Reopened {
                            number,
                            before,
                            acknowledged,
                            number_after,
                            after,
                        })
                    }
                    Err(_) => Err(()),
                },
                Err(_) => Err(()),
            }
        }
        Err(_) => Err(()),
    }
}
