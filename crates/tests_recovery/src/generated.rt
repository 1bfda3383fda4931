//! The generated script, and the summary of its run.

use jet_base::{Jet, Session};
use load_gen::{WalkCounts, lines, request};
use session_local::Request;
use std::alloc::Global;
use std::process::Abort;
use std::test::*;

/// A line of the script for so many records, by its place.
fn line(rt: &impl Abort, alloc: Global, records: u32, place: u64) -> Option<(Session, Request)> {
    request(alloc, records, place).expect(rt, "memory")
}

/// Whether a walk ends before this place: another one begins there, or the script ends.
fn ends_walk(rt: &impl Abort, alloc: Global, records: u32, place: u64) -> bool {
    matches!(
        line(rt, alloc, records, place),
        None | Some((_, Request::SetCurrentIndex { .. }))
    )
}

/// The reply of a line in a run in which each walk finds an entry in all its moves but the last.
fn reply(rt: &impl Abort, alloc: Global, records: u32, place: u64) -> Jet {
    if ends_walk(rt, alloc, records, place.saturating_add(1)) {
        Jet::NoCurrentRecord
    } else {
        Jet::Success
    }
}

/// Counts a call with its reply.
fn count(rt: &impl Abort, walks: &mut WalkCounts, call: &Request, reply: Jet) {
    assert!(rt; walks.calls() < u64::MAX);
    walks.count(call, reply).expect(rt, "memory");
}

/// Counts the line at a place.
fn count_line(rt: &impl Abort, alloc: Global, walks: &mut WalkCounts, records: u32, place: u64) {
    let reply = reply(rt, alloc, records, place);
    let (session, call) = line(rt, alloc, records, place).expect(rt, "a line");
    assert!(rt; session == Session(1));
    count(rt, walks, &call, reply);
}

/// Counts all lines.
fn count_all(rt: &impl Abort, alloc: Global, walks: &mut WalkCounts, records: u32) {
    for place in 0..lines(records) {
        count_line(rt, alloc, walks, records, place);
    }
}

/// The summary of the run for so many records.
fn summary(rt: &impl Abort, alloc: Global, records: u32) -> Vec<u8> {
    let mut walks = WalkCounts::new(alloc);
    count_all(rt, alloc, &mut walks, records);
    walks.text(alloc, records).expect(rt, "memory")
}

static SUMMARY: &[u8] =
    b"load records 20\nload pk 20\nload ix_name 20\nload ix_mail 41\nload ix_grp 18\nload ix_note 60\nload ix_cond 18\n";

#[test]
fn the_walks_of_a_script_of_20_records_are_counted(rt: HostRuntime) {
    let text = summary(&rt, rt.alloc(), 20);
    assert!(&rt; text.as_slice() == SUMMARY);
}

/// Whether the script has a line in its last place, and none behind it.
fn has_last_line(rt: &impl Abort, alloc: Global, records: u32) -> bool {
    let count = lines(records);
    line(rt, alloc, records, count.saturating_sub(1)).is_some()
        && line(rt, alloc, records, count).is_none()
}

#[test]
fn the_script_of_20_records_ends(rt: HostRuntime) {
    assert!(&rt; has_last_line(&rt, rt.alloc(), 20));
}
