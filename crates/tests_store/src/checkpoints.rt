//! Checkpoints of one page: the bytes of their files, the slots of dirty and clean pages, and each call failing.

ghost use Rattle.std.specs.Prelude.{◌≡◌, ◌<◌, IfOk};
ghost use Rattle.checkpoint.specs.Shape.{IsInShape};

use crate::checkpoint_reopening::{Reopened, reopen};
use crate::images::{image_of, pages_of};
use checkpoint::{CheckFault, Found, Image, Standing, write};
use jet_volume::{File, LogStart, MemVolume, Volume};
use std::alloc::{AllocError, Global};
use std::test::Fail;

/// The log goes on in generation 1 at offset 40 and stream position 18.
const START: LogStart = LogStart {
    generation: 1,
    offset: 40,
    position: 18,
};

/// What stands on a new volume.
fn nothing(alloc: Global) -> Standing
    ensures { result.number ≡ 0 }
{
    Standing {
        number: 0,
        format: 1,
        start: START,
        pages: Vec::new(alloc),
        slots: Vec::new(alloc),
    }
}

/// An image of five log entries with one page, of this kind.
fn one_page(alloc: Global, kind: u8) -> Result<Image, AllocError>
    ensures { IfOk result (λ image. IsInShape image) }
{
    image_of(alloc, 5, &[kind])
}

#[test]
fn a_first_checkpoint_has_these_bytes(rt: HostRuntime) -> Result<(), Fail> {
    let alloc = rt.alloc();
    let mut volume = MemVolume::new(alloc, Vec::new(alloc), None);
    let mut standing = nothing(alloc);
    let mut image = one_page(alloc, 1)?;
    let written = write(&mut volume, &mut image, START, &mut standing).is_ok();
    assert!(rt; written);
    let bytes: [u8; 61] = [
        1, 0x4a, 0x45, 0x54, 0x43, 0x4b, 1, 0, 0, 0, 1, 0, 0, 0, 0, 0, 0, 0, 5, 0, 0, 0, 0, 0, 0,
        0, 1, 0, 0, 0, 0, 0, 0, 0, 40, 0, 0, 0, 18, 0, 0, 0, 0, 0, 0, 0, 0, 0, 0, 0, 1, 0, 0, 0, 0,
        2, 0, 0, 0, 9, 8,
    ];
    assert_eq!(rt; volume.bytes(File::CheckpointA), bytes.as_slice());
    assert_eq!(rt; volume.bytes(File::Database).len(), 4096);
    Ok(())
}

#[test]
fn each_call_of_a_checkpoint_fails_as_told(rt: HostRuntime) -> Result<(), Fail> {
    let alloc = rt.alloc();
    for call in 1..=14u64 {
        let mut volume = MemVolume::new(alloc, [call].to_vec(alloc)?, None);
        let mut standing = nothing(alloc);
        let mut image = one_page(alloc, 1)?;
        let failed = write(&mut volume, &mut image, START, &mut standing).is_err();
        let told = (failed, standing.number, volume.faults());
        let fails = call <= 13;
        assert_eq!(rt;
            told,
            (fails, u64::from(!fails), u64::from(fails)),
            "call {call}"
        );
    }
    Ok(())
}

#[test]
fn a_dirty_page_takes_the_other_slot(rt: HostRuntime) -> Result<(), Fail> {
    let alloc = rt.alloc();
    let mut volume = MemVolume::new(alloc, Vec::new(alloc), None);
    let mut standing = nothing(alloc);
    for (kind, slot, size) in [(1, 0, 4096), (2, 1, 8192), (2, 1, 8192), (1, 0, 8192)] {
        let number = standing.number;
        let mut image = one_page(alloc, kind)?;
        if number > 9 || write(&mut volume, &mut image, START, &mut standing).is_err() {
            break;
        }
        assert_eq!(rt; standing.slots.as_slice(), [slot].as_slice());
        assert_eq!(rt; volume.bytes(File::Database).len(), size);
    }
    assert_eq!(rt; standing.number, 4);
    Ok(())
}

/// A volume with two checkpoints, of a page of kind 1 and then of kind 2.
fn with_two(alloc: Global) -> Result<MemVolume, Fail> {
    let volume = MemVolume::new(alloc, Vec::new(alloc), None);
    let first = reopen(alloc, volume, &mut one_page(alloc, 1)?, START, 0)?;
    let second = reopen(alloc, first.volume, &mut one_page(alloc, 2)?, START, 0)?;
    Ok(second.volume)
}

/// The kind of the first page that was read.
fn kind_in(found: &Found) -> Option<u8> {
    match found {
        Found::Old(image) => match image.pages.first() {
            Some(Some(page)) => Some(page.kind()),
            _ => None,
        },
        Found::New => None,
    }
}

// The calls 1 to 8 are those of reading, and 9 to 21 those of writing the third checkpoint.
#[test]
fn a_stop_leaves_the_old_checkpoint_or_the_new_one(rt: HostRuntime) -> Result<(), Fail> {
    let alloc = rt.alloc();
    for stop in 9..=22u64 {
        for pick in 0..6 {
            let volume = with_two(alloc)?.crash(0, Vec::new(alloc), Some(stop))?;
            let left = reopen(alloc, volume, &mut one_page(alloc, 1)?, START, pick)?;
            assert_eq!(rt; left.acknowledged, stop == 22, "stop {stop}");
            assert!(rt; is_one_of_two(&left));
        }
    }
    Ok(())
}

#[test]
fn a_fault_leaves_the_old_checkpoint_or_the_new_one(rt: HostRuntime) -> Result<(), Fail> {
    let alloc = rt.alloc();
    for call in 9..=22u64 {
        for pick in 0..6 {
            let volume = with_two(alloc)?.crash(0, [call].to_vec(alloc)?, None)?;
            let left = reopen(alloc, volume, &mut one_page(alloc, 1)?, START, pick)?;
            assert_eq!(rt; left.acknowledged, call == 22, "call {call}");
            assert!(rt; is_one_of_two(&left));
        }
    }
    Ok(())
}

/// The second checkpoint is there with a page of kind 2, or the third with one of kind 1.
fn is_one_of_two(left: &Reopened) -> bool {
    match (left.standing.number, kind_in(&left.found)) {
        (2, Some(kind)) => kind == 2 && !left.acknowledged,
        (3, Some(kind)) => kind == 1,
        _ => false,
    }
}

#[test]
fn each_call_of_reading_fails_as_told(rt: HostRuntime) -> Result<(), Fail> {
    let alloc = rt.alloc();
    for call in 1..=8u64 {
        let volume = with_two(alloc)?.crash(0, [call].to_vec(alloc)?, None)?;
        let fault = reopen(alloc, volume, &mut one_page(alloc, 1)?, START, 0).err();
        assert_eq!(rt; fault, Some(CheckFault::VolumeFault), "call {call}");
    }
    Ok(())
}

/// The pages of 64 MiB.
const MANY: usize = 16_384;

/// Whether an image of many pages, of which the first alone is dirty, is written on a volume that stops at this call.
/// Then the database file ends behind that page.
fn is_written_by(alloc: Global, stop: u64) -> Result<bool, AllocError> {
    let mut kinds = vec![in alloc; 1; MANY]?;
    let mut standing = nothing(alloc);
    standing.pages = pages_of(alloc, &kinds)?;
    standing.slots = vec![in alloc; 0; MANY]?;
    kinds[0] = 2;
    let mut image = image_of(alloc, 5, &kinds)?;
    let mut volume = MemVolume::new(alloc, Vec::new(alloc), Some(stop));
    let written = write(&mut volume, &mut image, START, &mut standing).is_ok();
    Ok(written && volume.bytes(File::Database).len() == 8192)
}

// As many calls as for one page: that page and a sync, and eleven for one checkpoint file.
#[test]
fn of_many_pages_the_dirty_one_alone_is_written(rt: HostRuntime) -> Result<(), Fail> {
    let alloc = rt.alloc();
    assert!(rt; !is_written_by(alloc, 13)?);
    assert!(rt; is_written_by(alloc, 14)?);
    Ok(())
}
