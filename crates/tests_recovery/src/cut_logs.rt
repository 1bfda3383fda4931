//! Logs that are cut.

use crate::files::put_block;
use crate::first_run::{entries, log, stopped};
use crate::outcomes::{Outcome, holds, holds_all, outcome_of};
use std::alloc::Global;
use std::process::Abort;
use std::test::*;

/// The outcome where so many bytes are left of the log.
fn after_cut(rt: &impl Abort, alloc: Global, size: usize) -> Outcome {
    let mut log = log(rt, alloc, 5);
    log.truncate(size);
    outcome_of(alloc, stopped(rt, alloc, log))
}

// The blocks end at 46, 88, 132, 187 and 314, with 2, 3, 4, 5 and 10 entries so far.
fn wanted_after_cut(size: usize) -> Outcome {
    if size >= 314 {
        holds_all()
    } else if size >= 187 {
        holds(5, 1)
    } else {
        holds(4, 1)
    }
}

#[test]
fn a_log_that_is_cut_in_a_block_ends_before_it(rt: HostRuntime) {
    for size in 132..=315 {
        let told = after_cut(&rt, rt.alloc(), size);
        assert!(&rt; told == wanted_after_cut(size), "{size}");
    }
}

/// The outcome where the last block has so many bytes of its entries.
fn after_front(rt: &impl Abort, alloc: Global, size: usize) -> Outcome {
    let mut payload = entries(rt, alloc, 5, 10);
    payload.truncate(size);
    let mut log = log(rt, alloc, 4);
    put_block(rt, &mut log, 103, payload.as_slice());
    outcome_of(alloc, stopped(rt, alloc, log))
}

// The last five entries have 13, 9, 42, 33 and 9 bytes, and the last one commits the records.
fn wanted_after_front(size: usize) -> Outcome {
    match size {
        0..=12 => holds(5, 1),
        13..=21 => holds(6, 1),
        22..=63 => holds(7, 1),
        64..=96 => holds(8, 1),
        97..=105 => holds(9, 1),
        _ => holds_all(),
    }
}

#[test]
fn an_entry_that_is_cut_at_the_end_is_dropped(rt: HostRuntime) {
    for size in 1..=106 {
        let told = after_front(&rt, rt.alloc(), size);
        assert!(&rt; told == wanted_after_front(size), "{size}");
    }
}

/// The outcome where the fourth block has so many bytes of its entry, and the last one goes on behind them.
fn after_gap(rt: &impl Abort, alloc: Global, size: usize) -> Outcome {
    let mut payload = entries(rt, alloc, 4, 5);
    payload.truncate(size);
    let mut log = log(rt, alloc, 3);
    put_block(rt, &mut log, 69, payload.as_slice());
    let rest = entries(rt, alloc, 5, 10);
    let position = 69u64.saturating_add(payload.len() as u64);
    put_block(rt, &mut log, position, rest.as_slice());
    outcome_of(alloc, stopped(rt, alloc, log))
}

// An entry whose front is followed by other entries is none.
#[test]
fn an_entry_that_is_cut_before_the_end_is_refused(rt: HostRuntime) {
    for size in 1..34 {
        let told = after_gap(&rt, rt.alloc(), size);
        assert!(&rt; told == Outcome::LogFileCorrupt, "{size}");
    }
}
