//! Stores over volumes in memory.

ghost use Rattle.std.specs.Prelude.{◌<◌, ◌^◌, IfOk};
ghost use Rattle.checkpoint.specs.Shape.{IsInShape};
ghost use Rattle.store_core.specs.Store.{store_end, store_standing};

use crate::reopening::reopen;
use checkpoint::{CheckFault, Found, Image};
use jet_volume::MemVolume;
use page_image::Page;
use std::alloc::{AllocError, Global};
use std::test::Fail;
use store_core::{Store, StoreFault};

/// An image of one page without a node.
fn one_page(alloc: Global) -> Result<Image, AllocError>
    ensures { IfOk result (λ image. IsInShape image) }
{
    let page = Page::empty(0, 1);
    let pages = vec![in alloc; Some(page)]?;
    let slots = vec![in alloc; 2]?;
    let live = vec![in alloc; 9, 8]?;
    Ok(Image {
        number: 5,
        pages,
        slots,
        catalog_root: 0,
        live,
    })
}

/// Opens a volume, and seals it.
fn opened(
    alloc: Global,
    volume: MemVolume,
) -> Result<(Found, Vec<u8>, Store<MemVolume>), StoreFault>
    ensures number { IfOk result (λ r. (store_standing r.2).number < 2 ^ 62) }
    ensures generation { IfOk result (λ r. (store_end r.2).generation < 2 ^ 63) }
    ensures position { IfOk result (λ r. (store_end r.2).position < 2 ^ 63) }
{
    match Store::open(alloc, volume) {
        Ok((found, bytes, mut store)) => match store.seal() {
            Ok(()) => Ok((found, bytes, store)),
            Err(fault) => Err(fault),
        },
        Err(_) => Err(StoreFault::VolumeFault),
    }
}

/// A volume with a checkpoint and three bytes behind it, whose calls fail from one on.
fn first_volume(alloc: Global, stop: Option<u64>) -> Result<MemVolume, Fail> {
    let volume = MemVolume::new(alloc, Vec::new(alloc), None);
    let (_found, _bytes, mut store) = opened(alloc, volume)?;
    let mut image = one_page(alloc)?;
    store.checkpoint(&mut image)?;
    store.flush(&[1, 2, 3])?;
    Ok(store.into_volume().crash(0, Vec::new(alloc), stop)?)
}

#[test]
fn what_was_written_is_opened(rt: HostRuntime) -> Result<(), Fail> {
    let alloc = rt.alloc();
    let volume = first_volume(alloc, None)?;
    let (found, bytes, store) = opened(alloc, volume)?;
    assert!(rt; matches!(found, Found::Old(_)));
    assert_eq!(rt; bytes.as_slice(), [1, 2, 3].as_slice());
    let told = (store.standing().number, store.behind(), store.faults());
    assert_eq!(rt; told, (1, 3, 0));
    Ok(())
}

#[test]
fn a_store_is_opened_again_after_each_crash(rt: HostRuntime) -> Result<(), Fail> {
    let alloc = rt.alloc();
    for pick in 0..6 {
        let volume = first_volume(alloc, None)?;
        let mut image = one_page(alloc)?;
        let run = reopen(alloc, volume, &[4, 5], &mut image, &[6], pick)
            .ok()
            .ok_or("not opened")?;
        assert!(rt; run.acknowledged);
        let told = (run.number, run.number_after, run.after.len());
        assert_eq!(rt; told, (1, 2, 1));
    }
    Ok(())
}

// The run makes its calls of the volume up to one at which the volume stops. Each of four states is left by some.
#[test]
fn a_store_that_stops_is_opened_again(rt: HostRuntime) -> Result<(), Fail> {
    let alloc = rt.alloc();
    let mut seen = [false; 4];
    for stop in 1..64 {
        let volume = first_volume(alloc, Some(stop))?;
        let mut image = one_page(alloc)?;
        if let Ok(run) = reopen(alloc, volume, &[4, 5], &mut image, &[6], stop) {
            let index = match (run.number_after, run.after.len()) {
                (1, 3) => 0,
                (1, _) => 1,
                (_, 0) => 2,
                _ => 3,
            };
            seen[index] = true;
        }
    }
    assert_eq!(rt; seen, [true; 4]);
    Ok(())
}

#[test]
fn a_volume_that_fails_is_handed_back(rt: HostRuntime) -> Result<(), Fail> {
    let alloc = rt.alloc();
    let failing = vec![in alloc; 1]?;
    let volume = MemVolume::new(alloc, failing, None);
    let fault = Store::open(alloc, volume).err().ok_or("opened")?;
    assert_eq!(rt; fault.cause, CheckFault::VolumeFault);
    let (_found, bytes, _store) = opened(alloc, fault.volume)?;
    assert!(rt; bytes.is_empty());
    Ok(())
}

// Behind the five calls of an opening the sixth fails.
#[test]
fn a_store_is_down_after_a_fault(rt: HostRuntime) -> Result<(), Fail> {
    let alloc = rt.alloc();
    let failing = vec![in alloc; 6]?;
    let volume = MemVolume::new(alloc, failing, None);
    let (_found, _bytes, mut store) = opened(alloc, volume)?;
    let mut image = one_page(alloc)?;
    let fault = store.checkpoint(&mut image);
    assert_eq!(rt; fault, Err(StoreFault::VolumeFault));
    assert_eq!(rt; store.seal(), Err(StoreFault::Down(1)));
    Ok(())
}
