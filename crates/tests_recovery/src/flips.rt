//! Slots of which one byte is changed.

use crate::first_run::{database, first_checkpoint, second_checkpoint};
use crate::outcomes::{Outcome, holds_all, outcome_of};
use jet_volume::MemVolume;
use std::alloc::Global;
use std::process::Abort;
use std::test::*;

/// The outcome of a closed volume of which one byte of this database file is changed.
fn with_flip(rt: &impl Abort, alloc: Global, database: &[u8], at: usize) -> Outcome {
    let mut database = database.to_vec(alloc).expect(rt, "memory");
    if at < database.len() {
        database[at] ^= 1 << (at % 8);
    }
    let first = first_checkpoint(rt, alloc);
    let second = second_checkpoint(rt, alloc);
    outcome_of(
        alloc,
        MemVolume::of_files(alloc, database, first, second, Vec::new(alloc)),
    )
}

// The second checkpoint uses the second slot of the first page.
#[test]
fn each_changed_byte_of_a_slot_in_use_is_found(rt: HostRuntime) {
    let database = database(&rt, rt.alloc());
    for at in 4096..8192 {
        let told = with_flip(&rt, rt.alloc(), database.as_slice(), at);
        assert!(&rt; told == Outcome::ReadVerifyFailure, "{at}");
    }
}

#[test]
fn bytes_of_other_slots_are_not_looked_at(rt: HostRuntime) {
    let database = database(&rt, rt.alloc());
    for at in 0..64 {
        let told = with_flip(&rt, rt.alloc(), database.as_slice(), 64 * at);
        assert!(&rt; told == holds_all(), "{at}");
        let told = with_flip(&rt, rt.alloc(), database.as_slice(), 12_288 + 64 * at);
        assert!(&rt; told == holds_all(), "{at}");
    }
}
