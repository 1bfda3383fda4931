//! A log that is opened, appended to, crashed and opened again.

ghost use Rattle.std.specs.Prelude.{◌≡◌, ◌⊎◌, ◌<◌, ◌≤◌, ◌^◌, ◌++◌, true, length, IfOk};
ghost use Rattle.jet_volume.specs.Crash.{IsSettled};
ghost use Rattle.jet_volume.specs.Memory.{mem_seen, mem_moment, mem_left_at};
ghost use Rattle.log_ring.specs.Blocks.{Scans};
ghost use Rattle.log_ring.specs.Ring.{ring_end, IsRingOf};

use jet_volume::{LogStart, MemVolume};
use log_ring::{LogRing, scan, scans_once};
use std::alloc::Global;

/// Scans and seals a log that a crash left.
pub fn open(alloc: Global, volume: &mut MemVolume, from: LogStart) -> Result<(LogRing, Vec<u8>), ()>
    requires first { 1 ≤ from.generation }
    requires generation { from.generation < 2 ^ 62 }
    requires position { from.position < 2 ^ 62 }
    requires inside { from.offset < 1048576 }
    ensures stream { IfOk result (λ r. Scans (mem_seen volume.old).log from r.1.items (ring_end r.0)) }
    ensures near { IfOk result (λ r. ((ring_end r.0).generation < 2 ^ 63) × ((ring_end r.0).position < 2 ^ 63)) }
    ensures ready { IsSettled mem_moment mem_left_at mem_seen volume.old → IfOk result (λ r. IsRingOf mem_seen mem_moment mem_left_at volume.new r.0 from r.1.items) }
{
    match scan(alloc, volume, from) {
        Ok((stream, end)) => match LogRing::at(alloc, end, from.generation) {
            Ok(mut ring) => match ring.seal(volume) {
                Ok(()) => Ok((ring, stream)),
                Err(_) => Err(()),
            },
            Err(_) => Err(()),
        },
        Err(_) => Err(()),
    }
}

/// What a log gave before an append and after a crash, whether the append was acknowledged, and the log that goes on.
#[derive(Drop)]
pub struct Reopened {
    pub before: Vec<u8>,
    pub acknowledged: bool,
    pub after: Vec<u8>,
    pub volume: MemVolume,
    pub ring: LogRing,
}

/// Opens a log, appends to it, crashes, and opens it again: all that was acknowledged is there, and what was
/// not is there whole or not at all. It can be appended to again.
pub fn reopen(
    alloc: Global,
    mut volume: MemVolume,
    from: LogStart,
    bytes: &[u8],
    pick: u64,
) -> Result<Reopened, ()>
    requires first { 1 ≤ from.generation }
    requires generation { from.generation < 2 ^ 62 }
    requires position { from.position < 2 ^ 62 }
    requires inside { from.offset < 1048576 }
    requires some { 1 ≤ length bytes.now }
    requires most { length bytes.now ≤ 65500 }
    ensures kept { IsSettled mem_moment mem_left_at mem_seen volume
        → IfOk result (λ r. (r.after.items ≡ r.before.items) ⊎ (r.after.items ≡ r.before.items ++ bytes.now)) }
    ensures acknowledged { IsSettled mem_moment mem_left_at mem_seen volume
        → IfOk result (λ r. r.acknowledged ≡ true → r.after.items ≡ r.before.items ++ bytes.now) }
    ensures ready { IfOk result (λ r. IsRingOf mem_seen mem_moment mem_left_at r.volume r.ring from r.after.items) }
{
    scans_once();
    match open(alloc, &mut volume, from) {
        Ok((mut ring, before)) => {
            let acknowledged = ring.append(&mut volume, bytes).is_ok();
            match volume.crash(pick, Vec::new(alloc), None) {
                Ok(mut left) => match open(alloc, &mut left, from) {
                    Ok((again, after)) => Ok(Reopened {
                        before,
                        acknowledged,
                        after,
                        volume: left,
                        ring: again,
                    }),
                    Err(()) => Err(()),
                },
                Err(_) => Err(()),
            }
        }
        Err(()) => Err(()),
    }
}
