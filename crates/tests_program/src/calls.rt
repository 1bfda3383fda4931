//! Whole calls over a source, a sink and a volume in memory, which are long, or fail.

use esentutl::esentutl;
use jet_io::{MemSink, MemSource};
use memory_volume::MemoryVolume;
use std::alloc::Global;
use std::process::Abort;
use std::test::*;

const SCRIPT: &[u8] = b"1 BeginSession\n1 CreateTable T\n1 AddColumn T id Long\n";

/// The words `- run ordered`.
fn run_words(rt: &impl Abort, alloc: Global) -> Vec<String> {
    let mut words = Vec::new(alloc);
    for word in ["-", "run", "ordered"] {
        let word = String::from_str(alloc, word).expect(rt, "memory");
        words.push(word).expect(rt, "memory");
    }
    words
}

/// A source of these bytes that fails in the listed calls.
fn source(rt: &impl Abort, alloc: Global, script: &[u8], failing: &[u64]) -> MemSource {
    let script = Vec::from_slice(alloc, script).expect(rt, "memory");
    let failing = Vec::from_slice(alloc, failing).expect(rt, "memory");
    MemSource::new(script, failing)
}

/// A sink with so much room that fails in the listed calls.
fn sink(rt: &impl Abort, alloc: Global, room: usize, failing: &[u64]) -> MemSink {
    let failing = Vec::from_slice(alloc, failing).expect(rt, "memory");
    MemSink::new(alloc, room, failing).expect(rt, "memory")
}

/// Whether a run from a source to a sink ends so.
fn ends_as(
    rt: &impl Abort,
    alloc: Global,
    mut from: MemSource,
    mut out: MemSink,
    status: u8,
    output: &[u8],
) -> bool {
    let words = run_words(rt, alloc);
    let mut volume = MemoryVolume::new(alloc);
    let ended = esentutl(alloc, &words, &mut volume, &mut from, &mut out);
    ended == status && out.taken() == output
}

#[test]
fn a_script_that_is_too_long(rt: HostRuntime) {
    let script = vec![in rt.alloc(); b'#'; 16_777_217].expect(&rt, "memory");
    let from = source(&rt, rt.alloc(), &script, &[]);
    let out = sink(&rt, rt.alloc(), 1_000, &[]);
    assert!(&rt;
        ends_as(
            &rt,
            rt.alloc(),
            from,
            out,
            2,
            b"esentutl: script too long\n"
        )
    );
    let from = source(&rt, rt.alloc(), &script[1..], &[]);
    let out = sink(&rt, rt.alloc(), 1_000, &[]);
    assert!(&rt; ends_as(&rt, rt.alloc(), from, out, 0, b""));
}

/// Whether a run with these words ends as one with wrong words.
fn are_refused(rt: &impl Abort, alloc: Global, words: &[String]) -> bool {
    let mut from = source(rt, alloc, SCRIPT, &[]);
    let mut out = sink(rt, alloc, 1_000, &[]);
    let mut volume = MemoryVolume::new(alloc);
    let ended = esentutl(alloc, words, &mut volume, &mut from, &mut out);
    ended == 1 && out.taken() == b"esentutl: words\n".as_slice()
}

#[test]
fn words_of_other_forms(rt: HostRuntime) {
    let mut words = run_words(&rt, rt.alloc());
    let more = String::from_str(rt.alloc(), "more").expect(&rt, "memory");
    words.push(more).expect(&rt, "memory");
    for count in [0, 1, 2, 4] {
        assert!(&rt; count <= words.len());
        assert!(&rt;
            are_refused(&rt, rt.alloc(), &words[..count]),
            "{count} words"
        );
    }
}

#[test]
fn a_source_that_fails(rt: HostRuntime) {
    for call in [1, 2] {
        let from = source(&rt, rt.alloc(), SCRIPT, &[call]);
        let out = sink(&rt, rt.alloc(), 1_000, &[]);
        assert!(&rt; ends_as(&rt, rt.alloc(), from, out, 5, b"esentutl: source\n"));
    }
}

#[test]
fn a_sink_that_fails_at_its_third_line_has_taken_two(rt: HostRuntime) {
    let two = b"0 1 BeginSession JET_errSuccess\n1 1 CreateTable JET_errSuccess\n";
    let from = source(&rt, rt.alloc(), SCRIPT, &[]);
    let out = sink(&rt, rt.alloc(), 1_000, &[3]);
    assert!(&rt; ends_as(&rt, rt.alloc(), from, out, 6, two));
}

#[test]
fn a_sink_that_fails_leaves_the_status_of_a_line(rt: HostRuntime) {
    let from = source(&rt, rt.alloc(), b"1 Fly\n", &[]);
    let out = sink(&rt, rt.alloc(), 1_000, &[1]);
    assert!(&rt; ends_as(&rt, rt.alloc(), from, out, 2, b""));
}

#[test]
fn a_sink_without_room(rt: HostRuntime) {
    let from = source(&rt, rt.alloc(), SCRIPT, &[]);
    let out = sink(&rt, rt.alloc(), 0, &[]);
    assert!(&rt; ends_as(&rt, rt.alloc(), from, out, 6, b""));
}
