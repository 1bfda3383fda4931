//! Whole calls that look at a volume in memory, as a run has left it, as a crash has, and with another byte in it.

use crate::volumes::call;
use jet_volume::{File, MemVolume};
use std::alloc::Global;
use std::process::Abort;
use std::test::*;

/// Ten entries: a table of two columns with a primary index, and two records.
const ORDINARY: &[u8] =
    b"1 BeginSession\n1 CreateTable T\n1 AddColumn T id Long\n1 AddColumn T name Text\n1 CreateIndex T pk primary +id\n1 OpenTable 1 T\n1 BeginTransaction\n1 PrepareUpdate 1 insert\n1 SetColumn 1 id 1 n:2\n1 SetColumn 1 name 1 t:bob\n1 Update 1\n1 PrepareUpdate 1 insert\n1 SetColumn 1 id 1 n:-3\n1 Update 1\n1 CommitTransaction\n";

/// Three entries, of which the first is flushed with the second.
const SCRIPT: &[u8] = b"1 BeginSession\n1 CreateTable T\n1 CreateTable U\n";

/// The log of these.
const LOG: &[u8] = b"1 Enter 1\n2 Schema 1\n3 Schema 1\n";

/// What a call with this mode prints of a volume, where it ends with this status.
fn told(rt: &impl Abort, alloc: Global, volume: &mut MemVolume, mode: &str, status: u8) -> Vec<u8> {
    let (got, told) = call(rt, alloc, &["v", mode], volume, b"");
    assert!(rt; got == status, "{mode}: status {got}");
    told
}

#[test]
fn a_volume_that_a_run_has_closed(rt: HostRuntime) {
    let alloc = rt.alloc();
    let mut volume = MemVolume::new(alloc, Vec::new(alloc), None);
    let (status, _printed) = call(&rt, alloc, &["v", "run", "ordered"], &mut volume, ORDINARY);
    assert!(&rt; status == 0);
    let checkpoint = told(&rt, alloc, &mut volume, "/mk", 0);
    assert!(&rt;
        checkpoint.as_slice().starts_with(
            b"checkpoint 2\ngeneration 1\noffset 314\nposition 209\npages "
        )
    );
    let header = told(&rt, alloc, &mut volume, "/mh", 0);
    assert!(&rt; header.as_slice() == b"state clean\nformat 1\nnumber 10\ntables 1\n".as_slice());
    assert!(&rt; told(&rt, alloc, &mut volume, "/ml", 0).is_empty());
    let integrity = told(&rt, alloc, &mut volume, "/g", 0);
    assert!(&rt; integrity.as_slice() == b"integrity clean number 10 tables 1\n".as_slice());
    let space = told(&rt, alloc, &mut volume, "/ms", 0);
    assert!(&rt; space.as_slice().starts_with(b"space pages "));
    assert!(&rt;
        space
            .as_slice()
            .ends_with(b"\ntree T records 2 pages 1\ntree T long 0 pages 1\n")
    );
    // Nothing was written: the checkpoint is still the one of the run.
    let again = told(&rt, alloc, &mut volume, "/mk", 0);
    assert!(&rt; again.as_slice() == checkpoint.as_slice());
}

#[test]
fn a_volume_that_a_crash_has_left(rt: HostRuntime) {
    let alloc = rt.alloc();
    let mut has_entries = false;
    for stop in 1..=50u64 {
        let mut volume = MemVolume::new(alloc, Vec::new(alloc), Some(stop));
        let (_status, _printed) = call(&rt, alloc, &["v", "run", "ordered"], &mut volume, SCRIPT);
        let mut left = volume.crash(0, Vec::new(alloc), None).expect(&rt, "memory");
        let log = told(&rt, alloc, &mut left, "/ml", 0);
        assert!(&rt; LOG.starts_with(log.as_slice()), "stop {stop}");
        let header = told(&rt, alloc, &mut left, "/mh", 0);
        assert!(&rt;
            header.as_slice().starts_with(b"state dirty\n") == !log.is_empty(),
            "stop {stop}"
        );
        let integrity = told(&rt, alloc, &mut left, "/g", 0);
        assert!(&rt;
            integrity.as_slice().starts_with(b"integrity clean number "),
            "stop {stop}"
        );
        if !log.is_empty() {
            has_entries = true;
        }
    }
    assert!(&rt; has_entries);
}

/// The bytes of a file of a volume.
fn file(rt: &impl Abort, alloc: Global, volume: &MemVolume, file: File) -> Vec<u8> {
    Vec::from_slice(alloc, volume.bytes(file)).expect(rt, "memory")
}

/// The same files, of which the second checkpoint file has another byte at its end: that of the count of the held changes.
fn with_other_end(rt: &impl Abort, alloc: Global, volume: &MemVolume) -> MemVolume {
    let mut second = file(rt, alloc, volume, File::CheckpointB);
    if let Some(last) = second.last_mut() {
        *last = 1;
    }
    MemVolume::of_files(
        alloc,
        file(rt, alloc, volume, File::Database),
        file(rt, alloc, volume, File::CheckpointA),
        second,
        file(rt, alloc, volume, File::Log),
    )
}

#[test]
fn an_image_of_which_something_is_found(rt: HostRuntime) {
    let alloc = rt.alloc();
    let mut volume = MemVolume::new(alloc, Vec::new(alloc), None);
    let (status, _printed) = call(&rt, alloc, &["v", "run", "ordered"], &mut volume, ORDINARY);
    assert!(&rt; status == 0);
    let mut other = with_other_end(&rt, alloc, &volume);
    let found = told(&rt, alloc, &mut other, "/g", 8);
    assert!(&rt; found.as_slice() == b"integrity live\n".as_slice());
    for mode in ["/mh", "/mk", "/ml", "/ms", "/r"] {
        let refused = told(&rt, alloc, &mut other, mode, 3);
        assert!(&rt; refused.as_slice() == b"esentutl: JET_errDatabaseCorrupted\n".as_slice());
    }
}

#[test]
fn a_volume_that_fails_in_its_first_call(rt: HostRuntime) {
    let alloc = rt.alloc();
    for mode in ["/g", "/mh", "/mk", "/ml", "/ms"] {
        let mut volume = MemVolume::new(alloc, Vec::new(alloc), Some(1));
        let failed = told(&rt, alloc, &mut volume, mode, 4);
        assert!(&rt; failed.as_slice() == b"esentutl: volume\n".as_slice());
    }
}
