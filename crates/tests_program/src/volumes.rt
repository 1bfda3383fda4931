//! Whole calls over a volume in memory, which fails, or is opened again.

use esentutl::esentutl;
use jet_io::{MemSink, MemSource};
use jet_volume::{File, MemVolume};
use std::alloc::Global;
use std::process::Abort;
use std::test::*;

/// Two lines that are answered once they are on the volume.
const SCRIPT: &[u8] = b"1 BeginSession\n1 CreateTable T\n1 CreateTable U\n";

/// What the script prints.
const BOTH: &[u8] =
    b"0 1 BeginSession JET_errSuccess\n1 1 CreateTable JET_errSuccess\n2 1 CreateTable JET_errSuccess\n";

/// The end of a checkpoint without a session: the length of its live part, and its counts of sessions and of changes.
const NO_SESSION: &[u8] = b"\x08\0\0\0\0\0\0\0\0\0\0\0";

const RUN: &[&str] = &["v", "run", "ordered"];

const RECOVERY: &[&str] = &["v", "/r"];

/// The status of a call with these words over a volume, and what it prints.
pub fn call(
    rt: &impl Abort,
    alloc: Global,
    words: &[&str],
    volume: &mut MemVolume,
    script: &[u8],
) -> (u8, Vec<u8>) {
    let mut named = Vec::new(alloc);
    for word in words {
        let word = String::from_str(alloc, word).expect(rt, "memory");
        named.push(word).expect(rt, "memory");
    }
    let script = Vec::from_slice(alloc, script).expect(rt, "memory");
    let mut from = MemSource::new(script, Vec::new(alloc));
    let mut out = MemSink::new(alloc, 4_096, Vec::new(alloc)).expect(rt, "memory");
    let status = esentutl(alloc, &named, volume, &mut from, &mut out);
    (
        status,
        Vec::from_slice(alloc, out.taken()).expect(rt, "memory"),
    )
}

#[test]
fn a_volume_that_fails_in_its_first_call(rt: HostRuntime) {
    let alloc = rt.alloc();
    let mut volume = MemVolume::new(alloc, Vec::new(alloc), Some(1));
    let (status, printed) = call(&rt, alloc, RUN, &mut volume, SCRIPT);
    assert!(&rt; status == 4);
    assert!(&rt; printed.as_slice() == b"esentutl: volume\n".as_slice());
}

#[test]
fn a_database_is_there_for_the_next_run(rt: HostRuntime) {
    let alloc = rt.alloc();
    let mut volume = MemVolume::new(alloc, Vec::new(alloc), None);
    let (status, printed) = call(&rt, alloc, RUN, &mut volume, SCRIPT);
    assert!(&rt; status == 0 && printed.as_slice() == BOTH);
    let (status, printed) = call(
        &rt,
        alloc,
        RUN,
        &mut volume,
        b"1 BeginSession\n1 CreateTable T\n",
    );
    assert!(&rt; status == 0);
    assert!(&rt;
        printed.as_slice()
            == b"3 1 BeginSession JET_errSuccess\n4 1 CreateTable JET_errTableDuplicate\n".as_slice()
    );
    let (status, told) = call(&rt, alloc, RECOVERY, &mut volume, b"");
    assert!(&rt; status == 0);
    assert!(&rt; told.as_slice() == b"recovered number 4 tables 2\n".as_slice());
}

// The script ends no session. Its second checkpoint is the closing one.
#[test]
fn a_closing_keeps_no_session(rt: HostRuntime) {
    let alloc = rt.alloc();
    let mut volume = MemVolume::new(alloc, Vec::new(alloc), None);
    let (status, _) = call(&rt, alloc, RUN, &mut volume, SCRIPT);
    assert!(&rt; status == 0);
    assert!(&rt; volume.bytes(File::CheckpointB).ends_with(NO_SESSION));
}
