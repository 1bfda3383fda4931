//! Gates of each value.

use crate::first_run::{database, first_checkpoint, log, second_checkpoint, stopped};
use crate::outcomes::{Outcome, holds, holds_all, outcome_of};
use jet_volume::MemVolume;
use std::alloc::Global;
use std::process::Abort;
use std::test::*;

/// Puts a gate at a place of a file.
fn set(bytes: &mut [u8], at: usize, gate: u8) {
    if at < bytes.len() {
        bytes[at] = gate;
    }
}

/// The outcome of these gates of the two checkpoint files, before a log without its last block.
fn with_checkpoints(rt: &impl Abort, alloc: Global, first: u8, second: u8) -> Outcome {
    let mut checkpoint_a = first_checkpoint(rt, alloc);
    set(&mut checkpoint_a, 0, first);
    let mut checkpoint_b = second_checkpoint(rt, alloc);
    set(&mut checkpoint_b, 0, second);
    let database = database(rt, alloc);
    let log = log(rt, alloc, 4);
    outcome_of(
        alloc,
        MemVolume::of_files(alloc, database, checkpoint_a, checkpoint_b, log),
    )
}

// The first checkpoint has the log behind it, and the second one stands behind the whole run.
fn wanted_of(first: u8, second: u8) -> Outcome {
    match (first, second) {
        (_, 1) => holds_all(),
        (1, _) => holds(5, 1),
        _ => Outcome::CheckpointCorrupt,
    }
}

#[test]
fn an_open_gate_of_a_checkpoint_is_1(rt: HostRuntime) {
    for gate in 0..=255 {
        for other in 0..3 {
            let told = with_checkpoints(&rt, rt.alloc(), gate, other);
            assert!(&rt; told == wanted_of(gate, other), "{gate} and {other}");
            let told = with_checkpoints(&rt, rt.alloc(), other, gate);
            assert!(&rt; told == wanted_of(other, gate), "{other} and {gate}");
        }
    }
}

/// The outcome where one gate of the log has this value.
fn with_block(rt: &impl Abort, alloc: Global, at: usize, gate: u8) -> Outcome {
    let mut log = log(rt, alloc, 5);
    set(&mut log, at, gate);
    outcome_of(alloc, stopped(rt, alloc, log))
}

/// Where the gate of each block stands, and the outcome where it is closed. Behind the last one stands no block.
static GATES: &[(usize, u64, usize)] = &[
    (0, 0, 0),
    (46, 2, 1),
    (88, 3, 1),
    (132, 4, 1),
    (187, 5, 1),
];

#[test]
fn an_open_gate_of_a_block_is_1(rt: HostRuntime) {
    for place in 0..GATES.len() {
        let (at, number, tables) = GATES[place];
        for gate in 0..=255 {
            let wanted = if gate == 1 {
                holds_all()
            } else {
                holds(number, tables)
            };
            let told = with_block(&rt, rt.alloc(), at, gate);
            assert!(&rt; told == wanted, "{gate} at {at}");
        }
    }
}

#[test]
fn no_gate_opens_a_block_that_is_not_there(rt: HostRuntime) {
    for gate in 0..=255 {
        let told = with_block(&rt, rt.alloc(), 314, gate);
        assert!(&rt; told == holds_all(), "{gate}");
    }
}
