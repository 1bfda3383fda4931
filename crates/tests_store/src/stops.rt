//! A run of three rounds that is cut short at each call of its volume, and the volumes that a crash then leaves.

use crate::rounds::{ALL, calls_before, put_rounds};
use jet_base::OutOfMemory;
use jet_volume::MemVolume;
use std::alloc::Global;
use std::test::Fail;
use store_core::Store;

/// How many calls of the volume a whole run makes.
const CALLS: u64 = 63;

/// No opening makes more calls of the volume.
const OPENING_CALLS: u64 = 16;

/// The call of the volume at which a run is cut short: it alone fails, or it and all that follow.
#[derive(Clone, Copy)]
enum Cut {
    Fails(u64),
    Stops(u64),
}

/// A new volume that is cut short there.
fn volume_cut(alloc: Global, cut: Cut) -> Result<MemVolume, OutOfMemory> {
    match cut {
        Cut::Fails(call) => Ok(MemVolume::new(alloc, [call].to_vec(alloc)?, None)),
        Cut::Stops(call) => Ok(MemVolume::new(alloc, Vec::new(alloc), Some(call))),
    }
}

/// A volume after a run, and how many calls of its store were acknowledged.
#[derive(Drop)]
struct Run {
    volume: MemVolume,
    acknowledged: u64,
}

/// Opens a volume, seals it and goes through the rounds, up to the first refusal.
fn run_on(alloc: Global, volume: MemVolume) -> Result<Run, OutOfMemory> {
    match Store::open(alloc, volume) {
        Ok((_found, _bytes, mut store)) => {
            let acknowledged = if store.seal().is_ok() {
                put_rounds(alloc, &mut store)?
            } else {
                0
            };
            let volume = store.into_volume();
            Ok(Run {
                volume,
                acknowledged,
            })
        }
        Err(fault) => Ok(Run {
            volume: fault.volume,
            acknowledged: 0,
        }),
    }
}

/// One of the images that a crash may leave after a run that was cut short, as a volume that stops at a call of its own.
fn left_by(alloc: Global, cut: Cut, pick: u64, stop: Option<u64>) -> Result<Run, OutOfMemory> {
    let run = run_on(alloc, volume_cut(alloc, cut)?)?;
    let volume = run.volume.crash(pick, Vec::new(alloc), stop)?;
    Ok(Run {
        volume,
        acknowledged: run.acknowledged,
    })
}

/// After how many calls of the rounds a volume stands, `None` where it is not opened.
fn state_on(alloc: Global, volume: MemVolume) -> Option<u64> {
    match Store::open(alloc, volume) {
        Ok((found, bytes, store)) => calls_before(&found, store.standing().number, &bytes),
        Err(_) => None,
    }
}

/// A volume that was opened and sealed, as far as that went.
fn reopened(alloc: Global, volume: MemVolume) -> MemVolume {
    match Store::open(alloc, volume) {
        Ok((_found, _bytes, mut store)) => {
            let _sealed = store.seal();
            store.into_volume()
        }
        Err(fault) => fault.volume,
    }
}

/// How many calls were acknowledged in a run that was cut short, `None` where one of 40 images is neither in the state
/// after them nor in that after the call that was under way.
fn acknowledged_at(alloc: Global, cut: Cut) -> Result<Option<u64>, OutOfMemory> {
    let mut acknowledged = 0;
    for pick in 0..40 {
        let left = left_by(alloc, cut, pick, None)?;
        acknowledged = left.acknowledged;
        let state = state_on(alloc, left.volume);
        if state != Some(acknowledged) && (acknowledged >= ALL || state != Some(acknowledged + 1)) {
            return Ok(None);
        }
    }
    Ok(Some(acknowledged))
}

/// Whether an image of a crash after a run that stopped stays in its state when its opening stops at each of its calls
/// in turn and a crash follows.
fn stays(alloc: Global, call: u64, pick: u64) -> Result<bool, OutOfMemory> {
    let cut = Cut::Stops(call);
    let state = state_on(alloc, left_by(alloc, cut, pick, None)?.volume);
    for stop in 1..=OPENING_CALLS {
        let left = left_by(alloc, cut, pick, Some(stop))?;
        let again = reopened(alloc, left.volume).crash(stop + 1, Vec::new(alloc), None)?;
        if state_on(alloc, again) != state {
            return Ok(false);
        }
    }
    Ok(state.is_some())
}

#[test]
fn a_run_that_stops_leaves_the_state_before_or_after(rt: HostRuntime) -> Result<(), Fail> {
    let alloc = rt.alloc();
    for call in 1..=CALLS + 1 {
        let acknowledged = acknowledged_at(alloc, Cut::Stops(call))?.ok_or("another state")?;
        assert!(rt; (acknowledged == ALL) == (call > CALLS));
    }
    Ok(())
}

#[test]
fn a_run_with_a_fault_leaves_the_state_before_or_after(rt: HostRuntime) -> Result<(), Fail> {
    let alloc = rt.alloc();
    for call in 1..=CALLS + 1 {
        let acknowledged = acknowledged_at(alloc, Cut::Fails(call))?.ok_or("another state")?;
        assert!(rt; (acknowledged == ALL) == (call > CALLS));
    }
    Ok(())
}

#[test]
fn a_stop_in_the_opening_that_follows_changes_nothing(rt: HostRuntime) -> Result<(), Fail> {
    let alloc = rt.alloc();
    for call in 1..=CALLS + 1 {
        for pick in 0..4 {
            assert!(rt; stays(alloc, call, pick)?);
        }
    }
    Ok(())
}
