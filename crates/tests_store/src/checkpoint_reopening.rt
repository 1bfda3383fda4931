//! A checkpoint that is written over what a volume holds, and what is read after a crash.

ghost use Rattle.std.specs.Prelude.{◌≡◌, ◌⊎◌, ◌<◌, ◌≤◌, ◌^◌, true, IfOk};
ghost use Rattle.jet_volume.specs.Crash.{CrashLeaves, IsSettled};
ghost use Rattle.jet_volume.specs.Memory.{mem_seen, mem_moment, mem_left_at};
ghost use Rattle.checkpoint.specs.Shape.{IsInShape, IsStanding};
ghost use Rattle.tests_store.specs.Reopening.{IsNextRead, IsReadOf};

use checkpoint::{CheckFault, Found, Image, Standing, read, what_stands_is_read, write};
use jet_volume::{LogStart, MemVolume};
use std::alloc::Global;

/// What was read after a crash, and whether the write before it was acknowledged.
#[derive(Drop)]
pub struct Reopened {
    pub volume: MemVolume,
    pub found: Found,
    pub standing: Standing,
    pub acknowledged: bool,
}

/// Reads a volume, writes an image as its next checkpoint, crashes, and reads what the crash left: the new checkpoint
/// where it was acknowledged, and else the new one or what stood before. What is read can be written over again.
pub fn reopen(
    alloc: Global,
    mut volume: MemVolume,
    image: &mut Image,
    start: LogStart,
    pick: u64,
) -> Result<Reopened, CheckFault>
    requires shape { IsInShape image.old }
    requires generation { 1 ≤ start.generation }
    requires offset { start.offset ≤ 1048575 }
    ensures kept { IsSettled mem_moment mem_left_at mem_seen volume
        → IfOk result (λ r. IsReadOf (mem_seen volume) r.found r.standing ⊎ IsNextRead (mem_seen volume) start image.old r.found r.standing) }
    ensures acknowledged { IsSettled mem_moment mem_left_at mem_seen volume
        → IfOk result (λ r. r.acknowledged ≡ true → IsNextRead (mem_seen volume) start image.old r.found r.standing) }
    ensures stands { IfOk result (λ r. CrashLeaves mem_moment mem_left_at r.volume (IsStanding r.standing)) }
    ensures settled { IfOk result (λ r. IsSettled mem_moment mem_left_at mem_seen r.volume) }
    ensures number { IfOk result (λ r. r.standing.number < 2 ^ 62) }
{
    what_stands_is_read();
    match read(alloc, &mut volume) {
        Ok((_found, mut standing)) => {
            let acknowledged = write(&mut volume, image, start, &mut standing).is_ok();
            match volume.crash(pick, Vec::new(alloc), None) {
                Ok(mut left) => match read(alloc, &mut left) {
                    Ok((found, standing)) => Ok(Reopened {
                        volume: left,
                        found,
                        standing,
                        acknowledged,
                    }),
                    Err(fault) => Err(fault),
                },
                Err(_) => Err(CheckFault::OutOfMemory),
            }
        }
        Err(fault) => Err(fault),
    }
}
