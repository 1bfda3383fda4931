//! A volume that is lent to a store: when the store is gone, its clauses speak of the volume of the lender.

ghost use Rattle.std.specs.Prelude.{◌≡◌, Some, [], OnOk};
ghost use Rattle.jet_volume.specs.Crash.{CrashLeaves, IsSettled};
ghost use Rattle.jet_volume.specs.Memory.{mem_seen, mem_moment, mem_left_at};
ghost use Rattle.checkpoint.specs.Shape.{IsInShape};
ghost use Rattle.store_core.specs.Stands.{Checkpoint, Stands};

use crate::images::image_of;
use checkpoint::Image;
use jet_volume::{File, MemVolume, Volume};
use std::alloc::Global;
use std::test::Fail;
use store_core::{Store, StoreFault, opened_stores_stand};

/// Opens a volume, seals it and writes an image, and gives the volume back, also at a refusal. At `Ok` every crash of
/// it leaves the pages of the image.
fn write_to<V: Volume>(alloc: Global, volume: V, image: &mut Image) -> (V, Result<(), StoreFault>)
    requires { IsInShape image.old }
    ensures written { V.tells_contents → IsSettled V.moment V.left_at V.seen volume
        → OnOk result.1 ((next : Checkpoint) × (next.pages ≡ image.old.pages.items) × CrashLeaves V.moment V.left_at result.0 (Stands (Some next) [])) }
    ensures identity { V.identity result.0 ≡ V.identity volume }
{
    opened_stores_stand::<V>();
    match Store::open(alloc, volume) {
        Ok((_found, _bytes, mut store)) => match store.seal() {
            Ok(()) => {
                let result = store.checkpoint(image);
                (store.into_volume(), result)
            }
            Err(fault) => (store.into_volume(), Err(fault)),
        },
        Err(refusal) => (refusal.volume, Err(StoreFault::VolumeFault)),
    }
}

/// The same of a volume that is lent: the lender has it back.
fn write_to_lent(alloc: Global, volume: &mut MemVolume, image: &mut Image) -> Result<(), StoreFault>
    requires { IsInShape image.old }
    ensures { IsSettled mem_moment mem_left_at mem_seen volume.old
        → OnOk result ((next : Checkpoint) × (next.pages ≡ image.old.pages.items) × CrashLeaves mem_moment mem_left_at volume.new (Stands (Some next) [])) }
{
    let (_back, result) = write_to(alloc, volume, image);
    result
}

// The fixed part, two slots, a length and two bytes behind an open gate.
#[test]
fn the_lender_has_what_was_written(rt: HostRuntime) -> Result<(), Fail> {
    let alloc = rt.alloc();
    let mut volume = MemVolume::new(alloc, Vec::new(alloc), None);
    let mut image = image_of(alloc, 5, &[1, 0])?;
    write_to_lent(alloc, &mut volume, &mut image)?;
    let file = volume.bytes(File::CheckpointA);
    assert!(rt; file.len() == 62 && file.first() == Some(&1));
    Ok(())
}
