//! Volumes in memory and over real files: each call of a run fails or is the last, and what a crash leaves then.

use crate::uses::{FILES, is_used};
use folder_volume::FileVolume;
use jet_base::OutOfMemory;
use jet_io::Failed;
use jet_volume::{File, MemVolume, Volume};
use memory_volume::MemoryVolume;
use std::alloc::Global;
use std::fs;
use std::os::unix::fs::symlink;
use std::process::Abort;
use std::test::*;

fn assert_send<T: Send>(_object: &T) {}

// Two writes, a sync, a write that is not synced, two looks and a sync: seven calls over two files.
fn run<V: Volume>(volume: &mut V) -> Result<(), Failed> {
    volume.write_at(File::Log, 0, b"first")?;
    volume.write_at(File::Database, 2, b"page")?;
    volume.sync(File::Log)?;
    volume.write_at(File::Log, 3, b"second")?;
    let mut bytes = [0; 4];
    volume.size(File::Log)?;
    volume.read(File::Log, 2, &mut bytes)?;
    volume.sync(File::Database)
}

#[test]
fn each_call_of_a_run_fails_as_told(rt: HostRuntime) {
    for call in 1..=8u64 {
        let failing = [call].to_vec(rt.alloc()).expect(&rt, "memory");
        let mut volume = MemVolume::new(rt.alloc(), failing, None);
        assert!(&rt; run(&mut volume).is_err() == (call <= 7), "call {call}");
        assert!(&rt; volume.faults() == u64::from(call <= 7), "call {call}");
    }
}

// What the log has where a run stops at a call.
fn log_at(stop: u64) -> &'static [u8] {
    match stop {
        1 => b"",
        2..=4 => b"first",
        _ => b"firsecond",
    }
}

#[test]
fn each_stop_of_a_run_ends_it(rt: HostRuntime) {
    for stop in 1..=8u64 {
        let mut volume = MemVolume::new(rt.alloc(), Vec::new(rt.alloc()), Some(stop));
        assert!(&rt; run(&mut volume).is_err() == (stop <= 7), "stop {stop}");
        assert!(&rt; volume.size(File::Log).is_err(), "stop {stop}");
        assert!(&rt; volume.bytes(File::Log) == log_at(stop), "stop {stop}");
    }
}

// A log that is written behind a gap, a read that is cut at its end, one behind it, and the size of a file that
// was never written.
fn look<V: Volume>(volume: &mut V, bytes: &mut [u8]) -> Result<[u64; 4], Failed> {
    volume.write_at(File::Log, 5, b"tail")?;
    volume.sync(File::Log)?;
    let count = volume.read(File::Log, 1, bytes)?;
    let mut none = [0; 2];
    let past = volume.read(File::Log, 1 << 40, &mut none)?;
    let size = volume.size(File::Log)?;
    let never = volume.size(File::CheckpointA)?;
    Ok([count as u64, past as u64, size, never])
}

// A volume whose log has these bytes, and whose other files are empty.
fn with_log(rt: &impl Abort, alloc: Global, log: &[u8]) -> MemVolume {
    let log = log.to_vec(alloc).expect(rt, "memory");
    MemVolume::of_files(
        alloc,
        Vec::new(alloc),
        Vec::new(alloc),
        Vec::new(alloc),
        log,
    )
}

#[test]
fn a_volume_in_memory_reads_what_was_written(rt: HostRuntime) {
    let mut volume = with_log(&rt, rt.alloc(), b"log");
    let mut bytes = [9; 10];
    assert!(&rt; look(&mut volume, &mut bytes) == Ok([8, 0, 9, 0]));
    assert!(&rt; bytes.as_slice() == b"og\0\0tail\x09\x09".as_slice());
    assert!(&rt; volume.short() == 0 && volume.faults() == 0);
    assert_send(&volume);
}

#[test]
fn each_file_of_a_plain_volume_in_memory_is_written_synced_and_read(rt: HostRuntime) {
    let mut volume = MemoryVolume::new(rt.alloc());
    for (file, path) in FILES {
        assert!(&rt; is_used(&mut volume, file), "{path}");
    }
    assert!(&rt; volume.faults() == 0);
    assert_send(&volume);
}

#[test]
fn a_volume_over_real_files_reads_what_was_written(rt: HostRuntime) {
    let name = String::from_str(rt.alloc(), "volume_test").expect(&rt, "memory");
    let mut volume = FileVolume::new(&rt, name);
    let mut bytes = [9; 8];
    assert!(&rt; look(&mut volume, &mut bytes) == Ok([8, 0, 9, 0]));
    assert!(&rt; bytes.as_slice() == b"\0\0\0\0tail".as_slice());
    assert!(&rt; has_same(&rt));
    fs::remove_file(&rt, "volume_test.log").expect(&rt, "the log");
    fs::remove_file(&rt, "volume_test0.chk").expect(&rt, "the checkpoint");
}

// Whether the volume holds the same when it is opened again.
fn has_same(rt: &HostRuntime) -> bool {
    let Ok(name) = String::from_str(rt.alloc(), "volume_test") else {
        return false;
    };
    let mut volume = FileVolume::new(rt, name);
    let mut bytes = [8; 9];
    volume.read(File::Log, 0, &mut bytes) == Ok(9)
        && bytes.as_slice() == b"\0\0\0\0\0tail".as_slice()
}

#[test]
fn a_folder_that_is_not_there_is_a_fault(rt: HostRuntime) {
    let name = String::from_str(rt.alloc(), "no_such_folder/volume").expect(&rt, "memory");
    let mut volume = FileVolume::new(&rt, name);
    assert!(&rt; volume.size(File::Database).is_err());
    assert!(&rt; volume.write_at(File::Log, 0, b"x").is_err());
    assert!(&rt; volume.faults() == 2);
    assert_send(&volume);
}

// A device that is always full cannot be synced, which the system says where it is asked to.
#[test]
fn what_cannot_be_written_or_synced_is_a_fault(rt: HostRuntime) {
    let name = String::from_str(rt.alloc(), "full_device").expect(&rt, "memory");
    symlink(&rt, "/dev/full", "full_device.log").expect(&rt, "a link");
    let mut volume = FileVolume::new(&rt, name);
    assert!(&rt; volume.size(File::Log) == Ok(0));
    assert!(&rt; volume.faults() == 0);
    assert!(&rt; volume.sync(File::Log) == Err(Failed));
    assert!(&rt; volume.write_at(File::Log, 0, b"x") == Err(Failed));
    assert!(&rt; volume.faults() == 2);
    fs::remove_file(&rt, "full_device.log").expect(&rt, "the link");
}

// The log was synced with four bytes, and then written over from the second on, up to eight.
fn torn_log(alloc: Global, pick: u64) -> Result<MemVolume, OutOfMemory> {
    let mut volume = MemVolume::new(alloc, Vec::new(alloc), None);
    let _synced = volume
        .write_at(File::Log, 0, b"abcd")
        .and_then(|()| volume.sync(File::Log));
    let _written = volume.write_at(File::Log, 1, b"BCDEFGH");
    volume.crash(pick, Vec::new(alloc), None)
}

// Nothing of the write, all of it, a front of it that made the file longer, other bytes, and a front within the file.
fn kinds(log: &[u8]) -> [bool; 5] {
    let whole = b"aBCDEFGH".as_slice();
    [
        log == b"abcd".as_slice(),
        log == whole,
        log == b"aBCDEF".as_slice(),
        log.get(1)
            .is_some_and(|byte| *byte != b'b' && *byte != b'B'),
        log == b"aBcd".as_slice(),
    ]
}

#[test]
fn a_crash_leaves_each_kind_of_image_and_no_other(rt: HostRuntime) {
    let mut seen = [false; 5];
    for pick in 0..300 {
        let left = torn_log(rt.alloc(), pick).expect(&rt, "memory");
        let log = left.bytes(File::Log);
        assert!(&rt; is_allowed(log), "pick {pick}");
        mark(&mut seen, kinds(log));
    }
    assert!(&rt; seen == [true; 5]);
}

// From four to eight bytes, of which the first was written and synced.
fn is_allowed(log: &[u8]) -> bool {
    log.len() >= 4 && log.len() <= 8 && log.first() == Some(&b'a')
}

fn mark(seen: &mut [bool; 5], now: [bool; 5]) {
    for i in 0..5 {
        seen[i] |= now[i];
    }
}

// The same where the write over it fails: it is the third call.
fn missed_log(alloc: Global) -> Result<MemVolume, OutOfMemory> {
    let failing = [3].to_vec(alloc)?;
    let mut volume = MemVolume::new(alloc, failing, None);
    let _synced = volume
        .write_at(File::Log, 0, b"abcd")
        .and_then(|()| volume.sync(File::Log));
    let _missed = volume.write_at(File::Log, 1, b"BCDEFGH");
    Ok(volume)
}

// Whether a crash leaves the log as it was synced.
fn has_stayed(rt: &impl Abort, alloc: Global, pick: u64) -> bool {
    let volume = missed_log(alloc).expect(rt, "memory");
    assert!(rt; volume.bytes(File::Log) == b"abcd".as_slice());
    assert!(rt; volume.faults() == 1 && volume.short() == 0);
    let left = volume
        .crash(pick, Vec::new(alloc), None)
        .expect(rt, "memory");
    let log = left.bytes(File::Log);
    assert!(rt; is_allowed(log), "pick {pick}");
    log == b"abcd".as_slice()
}

#[test]
fn a_write_that_failed_may_have_come_in_part(rt: HostRuntime) {
    let mut stays = false;
    let mut changes = false;
    for pick in 0..50u64 {
        let is_same = has_stayed(&rt, rt.alloc(), pick);
        stays |= is_same;
        changes |= !is_same;
    }
    assert!(&rt; stays && changes);
}

// Publishes a byte in the log: behind the closed gate, which is the first byte of the file and opens as 1.
fn publish<V: Volume>(volume: &mut V, byte: u8) -> Result<(), Failed> {
    volume.write_at(File::Log, 1, &[byte])?;
    volume.sync(File::Log)?;
    volume.write_at(File::Log, 0, &[1])?;
    volume.sync(File::Log)
}

// The gate of the log is closed, and the fifth call of the volume would be behind the last of `publish`.
fn publish_until(rt: &impl Abort, alloc: Global, stop: u64, pick: u64) -> (bool, MemVolume) {
    let fresh = with_log(rt, alloc, &[0]);
    let mut volume = fresh
        .crash(0, Vec::new(alloc), Some(stop))
        .expect(rt, "memory");
    let is_ok = publish(&mut &mut volume, 77).is_ok();
    let left = volume.crash(pick, Vec::new(alloc), None);
    (is_ok, left.expect(rt, "memory"))
}

// Whether a byte was published, if the log is open to it, and the log is open where all calls were done.
fn is_published_or_not(rt: &impl Abort, alloc: Global, stop: u64, pick: u64) -> bool {
    let (is_ok, left) = publish_until(rt, alloc, stop, pick);
    let log = left.bytes(File::Log);
    let is_open = log.first() == Some(&1);
    is_ok == (stop == 5) && (!is_open || log.get(1) == Some(&77)) && (is_open || !is_ok)
}

#[test]
fn a_byte_is_published_or_not_at_each_stop(rt: HostRuntime) {
    for stop in 1..=5 {
        for pick in 0..20 {
            assert!(&rt;
                is_published_or_not(&rt, rt.alloc(), stop, pick),
                "{stop} and {pick}"
            );
        }
    }
}
