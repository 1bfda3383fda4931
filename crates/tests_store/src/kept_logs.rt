//! Logs of plain bytes that are kept on volumes in memory: opened again after a crash, without room, and cut short.

ghost use Rattle.std.specs.Prelude.{◌≡◌, ◌<◌, ◌^◌, length, IfOk};
ghost use Rattle.store_core.specs.Store.{store_standing};
ghost use Rattle.log_keeper.specs.Keeping.{TakesBytes, keeper_given, keeper_store};

use crate::image_of;
use entry_log::EntryLog;
use jet_volume::MemVolume;
use log_keeper::{Block, LogBytes, LogKeeper};
use std::alloc::{AllocError, Global};
use std::test::Fail;
use store_core::{Store, StoreFault};

/// A log whose bytes all stand in memory.
#[derive(Drop)]
struct PlainLog {
    bytes: Vec<u8>,
}

impl LogBytes for PlainLog {
    ghost stream = { λ log. record { from = 0; bytes = log.bytes.items } };

    fn stream_end(&self) -> u64 {
        self.bytes.len() as u64
    }

    fn pending(&self, from: u64, into: &mut [u8]) -> usize {
        let start = from as usize;
        let count = into.len().min(self.bytes.len() - start);
        into[..count].copy_from_slice(&self.bytes[start..start + count]);
        count
    }
}

/// A log of so many bytes, of which the first one is 9 and all others are 7.
fn log_of(alloc: Global, count: usize) -> Result<PlainLog, AllocError>
    ensures { IfOk result (λ log. length log.bytes.items ≡ count) }
{
    let mut bytes = vec![in alloc; 7; count]?;
    if count > 0 {
        bytes[0] = 9;
    }
    Ok(PlainLog { bytes })
}

/// A volume with a checkpoint and no byte behind it, whose calls fail from one on.
fn first_volume(alloc: Global, stop: Option<u64>) -> Result<MemVolume, Fail> {
    let mut image = image_of(alloc, 5, &[1])?;
    let volume = MemVolume::new(alloc, Vec::new(alloc), None);
    let (_found, _bytes, mut store) = Store::open(alloc, volume).ok().ok_or("not opened")?;
    store.checkpoint(&mut image)?;
    Ok(store.into_volume().crash(0, Vec::new(alloc), stop)?)
}

/// A keeper on a volume with a checkpoint, for a log that begins.
fn keeper_on(
    alloc: Global,
    volume: MemVolume,
    block: Block,
) -> Result<LogKeeper<MemVolume>, StoreFault>
    ensures given { IfOk result (λ keeper. keeper_given keeper ≡ 0) }
    ensures number { IfOk result (λ keeper. (store_standing (keeper_store keeper)).number < 2 ^ 62) }
    ensures takes { IfOk result (λ keeper. TakesBytes (2 ^ 24) (keeper_store keeper)) }
{
    match Store::open(alloc, volume) {
        Ok((_found, _bytes, store)) => {
            if store.standing().number == 0 {
                return Err(StoreFault::VolumeFault);
            }
            let mut keeper = LogKeeper::new(store, 0, block);
            match keeper.seal() {
                Ok(()) => Ok(keeper),
                Err(fault) => Err(fault),
            }
        }
        Err(_) => Err(StoreFault::VolumeFault),
    }
}

/// The bytes behind the checkpoint of a volume, `None` where it is not opened.
fn bytes_on(alloc: Global, volume: MemVolume) -> Option<Vec<u8>> {
    match Store::open(alloc, volume) {
        Ok((_found, bytes, _store)) => Some(bytes),
        Err(_) => None,
    }
}

// The crash loses all that was not synced.
#[test]
fn bytes_in_two_blocks_are_read_back(rt: HostRuntime) -> Result<(), Fail> {
    let alloc = rt.alloc();
    let log = log_of(alloc, 70_000)?;
    let mut keeper = keeper_on(alloc, first_volume(alloc, None)?, Block::new(alloc)?)?;
    keeper.give_all(&EntryLog::new(alloc))?;
    assert!(rt; keeper.given() == 0);
    keeper.give_all(&log)?;
    assert!(rt; keeper.given() == 70_000);
    let left = keeper.into_volume().crash(1, Vec::new(alloc), None)?;
    let bytes = bytes_on(alloc, left).ok_or("not opened")?;
    assert!(rt; bytes.as_slice() == log.bytes.as_slice());
    Ok(())
}

#[test]
fn an_image_takes_the_place_of_what_finds_no_room(rt: HostRuntime) -> Result<(), Fail> {
    let alloc = rt.alloc();
    let log = log_of(alloc, 8_384_219)?;
    let mut image = image_of(alloc, 6, &[2])?;
    let mut keeper = keeper_on(alloc, first_volume(alloc, None)?, Block::new(alloc)?)?;
    assert!(rt; matches!(keeper.give_all(&log), Err(StoreFault::NoRoom)));
    assert!(rt; keeper.given() == 8_384_000);
    keeper.put_image(&mut image, 8_384_219)?;
    assert!(rt; keeper.given() == 8_384_219 && keeper.store().behind() == 0);
    let left = keeper.into_volume().crash(1, Vec::new(alloc), None)?;
    let bytes = bytes_on(alloc, left).ok_or("not opened")?;
    assert!(rt; bytes.is_empty());
    Ok(())
}

/// How many bytes were given on a volume that stops at a call, and how many a crash then left. `None` where nothing was
/// opened.
fn cut_short(alloc: Global, log: &PlainLog, stop: u64, pick: u64) -> Result<(u64, usize), Fail>
    requires { length log.now.bytes.items ≡ 70000 }
{
    let volume = first_volume(alloc, Some(stop))?;
    let mut keeper = keeper_on(alloc, volume, Block::new(alloc)?)?;
    let _result = keeper.give_all(log);
    let given = keeper.given();
    let left = keeper.into_volume().crash(pick, Vec::new(alloc), None)?;
    let bytes = bytes_on(alloc, left).ok_or("not opened")?;
    Ok((given, bytes.len()))
}

/// Whether a crash left what was given, or one block more.
fn is_left(given: u64, left: usize) -> bool {
    match given {
        0 => left == 0 || left == 65_500,
        65_500 => left == 65_500 || left == 70_000,
        _ => given == 70_000 && left == 70_000,
    }
}

// An opening makes at most 16 calls.
#[test]
fn what_was_given_is_left_where_a_volume_stops(rt: HostRuntime) -> Result<(), Fail> {
    let alloc = rt.alloc();
    let log = log_of(alloc, 70_000)?;
    for stop in 17..30u64 {
        let (given, left) = cut_short(alloc, &log, stop, stop)?;
        assert!(rt; is_left(given, left), "stop {stop}");
    }
    Ok(())
}
