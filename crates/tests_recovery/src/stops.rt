//! Recoveries that stop, and the files that a crash leaves of them.

use crate::files::put;
use crate::first_run::{log, stopped};
use crate::outcomes::{LIMIT, Outcome, held_by, holds_all, outcome_of, refused};
use jet_volume::{MemVolume, Volume};
use soft_recovery::recover;
use std::alloc::Global;
use std::process::Abort;
use std::test::*;

/// The picks of crash images that are tried: all that was written, nothing that was not synced, and others.
const PICKS: u64 = 6;

/// A volume behind a recovery that was to make its log ready, and what it came to.
#[derive(Drop)]
struct Left {
    volume: MemVolume,
    outcome: Outcome,
}

/// Recovers a volume and makes its log ready.
fn sealed(alloc: Global, volume: MemVolume) -> Left {
    match recover(alloc, LIMIT, volume, true) {
        Ok(recovered) => {
            let outcome = Outcome::Holds(held_by(&recovered.engine));
            Left {
                volume: recovered.store.into_volume(),
                outcome,
            }
        }
        Err(fault) => Left {
            outcome: refused(&fault.cause),
            volume: fault.volume,
        },
    }
}

/// The first run's volume before its closing checkpoint, whose log ends in a block that was torn behind an open gate. Its calls fail
/// from one on.
fn torn(rt: &impl Abort, alloc: Global, stop: Option<u64>) -> MemVolume {
    let mut log = log(rt, alloc, 5);
    let _gate = log.pop();
    put(
        rt,
        &mut log,
        b"\x01\x01\0\0\0\0\0\0\0\xd1\0\0\0\0\0\0\0\x09\0\0\0\x05\0",
    );
    stopped(rt, alloc, log)
        .crash(0, Vec::new(alloc), stop)
        .expect(rt, "memory")
}

/// What a crash leaves, whose calls fail from one on.
fn crashed(rt: &impl Abort, alloc: Global, left: Left, pick: u64, stop: Option<u64>) -> MemVolume {
    left.volume
        .crash(pick, Vec::new(alloc), stop)
        .expect(rt, "memory")
}

/// Stops a recovery at a call, and looks at what each crash leaves. Whether it came to its end before.
fn goes_behind(rt: &impl Abort, alloc: Global, stop: u64) -> bool {
    for pick in 0..PICKS {
        let left = sealed(alloc, torn(rt, alloc, Some(stop)));
        if left.outcome == holds_all() {
            return true;
        }
        assert!(rt; left.outcome == Outcome::VolumeFault, "{stop}");
        let volume = crashed(rt, alloc, left, pick, None);
        assert!(rt;
            outcome_of(alloc, volume) == holds_all(),
            "{stop} and {pick}"
        );
    }
    false
}

/// The first call from which on a stop does not hold up the recovery of that volume.
fn first_behind(rt: &impl Abort, alloc: Global) -> u64 {
    for stop in 1..100 {
        if goes_behind(rt, alloc, stop) {
            return stop;
        }
    }
    100
}

#[test]
fn a_recovery_that_stops_at_any_call_leaves_the_same(rt: HostRuntime) {
    let calls = first_behind(&rt, rt.alloc());
    assert!(&rt; calls > 10 && calls < 100);
}

/// Stops a recovery at a call, crashes, stops the next one at another call, and crashes again.
fn twice_stopped(rt: &impl Abort, alloc: Global, first: u64, second: u64) -> Outcome {
    let left = sealed(alloc, torn(rt, alloc, Some(first)));
    let volume = crashed(rt, alloc, left, first, Some(second));
    let left = sealed(alloc, volume);
    outcome_of(alloc, crashed(rt, alloc, left, second, None))
}

#[test]
fn a_recovery_that_stops_twice_leaves_the_same(rt: HostRuntime) {
    for first in 8..32 {
        for second in 8..32 {
            let told = twice_stopped(&rt, rt.alloc(), first, second);
            assert!(&rt; told == holds_all(), "{first} and {second}");
        }
    }
}

/// The outcome where one call of the volume fails, and how many of its calls failed.
fn with_fault(rt: &impl Abort, alloc: Global, call: u64) -> (Outcome, u64) {
    let failing = vec![in alloc; call].expect(rt, "memory");
    let volume = torn(rt, alloc, None)
        .crash(0, failing, None)
        .expect(rt, "memory");
    let left = sealed(alloc, volume);
    (left.outcome, left.volume.faults())
}

#[test]
fn each_call_of_a_recovery_fails_as_told(rt: HostRuntime) {
    let calls = first_behind(&rt, rt.alloc());
    for call in 1..calls {
        let told = with_fault(&rt, rt.alloc(), call);
        assert!(&rt; told == (Outcome::VolumeFault, 1), "{call}");
    }
    assert!(&rt; with_fault(&rt, rt.alloc(), calls) == (holds_all(), 0));
}
