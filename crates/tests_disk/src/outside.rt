//! A source, a sink, a count of faults, a schedule and a gate, each call once.

use jet_base::Session;
use jet_io::{
    Failed, FaultCount, Gate, MemSink, MemSource, OpenGate, Schedule, Sink, Source, StdSink,
    StdSource, write_all,
};
use std::io;
use std::test::*;

fn assert_send<T: Send>(_object: &T) {}

fn assert_sync<T: Sync>(_object: &T) {}

#[test]
fn a_source_gives_its_bytes_and_fails_as_told(rt: HostRuntime) {
    let failing = [2].to_vec(rt.alloc()).expect(&rt, "memory");
    let bytes = b"ten bytes.".to_vec(rt.alloc()).expect(&rt, "memory");
    let mut source = MemSource::new(bytes, failing);
    assert_send(&source);
    let mut into = [0; 6];
    assert!(&rt; source.read(&mut into) == Ok(6));
    assert!(&rt; &into[..] == b"ten by".as_slice());
    assert!(&rt; source.read(&mut into) == Err(Failed));
    assert!(&rt; source.read(&mut into) == Ok(4));
    assert!(&rt; &into[..4] == b"tes.".as_slice());
    assert!(&rt; source.read(&mut into) == Ok(0));
}

#[test]
fn a_sink_is_full_or_fails_as_told(rt: HostRuntime) {
    let failing = [2].to_vec(rt.alloc()).expect(&rt, "memory");
    let mut sink = MemSink::new(rt.alloc(), 5, failing).expect(&rt, "memory");
    assert!(&rt; write_all(&mut sink, b"abc") == Ok(()));
    assert!(&rt; write_all(&mut sink, b"de") == Err(Failed));
    assert!(&rt; write_all(&mut sink, b"def") == Err(Failed));
    assert!(&rt; sink.taken() == b"abcde".as_slice());
    assert_send(&sink);
}

#[derive(Drop)]
struct Broken;

impl io::Read for Broken {
    fn read(&mut self, _buf: &mut [u8]) -> io::Result<usize> {
        Err(io::ErrorKind::BrokenPipe.into())
    }
}

impl io::Write for Broken {
    fn write(&mut self, _buf: &[u8]) -> io::Result<usize> {
        Ok(0)
    }

    fn flush(&mut self) -> io::Result<()> {
        Ok(())
    }
}

#[test]
fn the_system_gives_bytes(rt: HostRuntime) {
    let mut source = StdSource::new(b"from a slice".as_slice());
    let mut into = [0; 20];
    assert!(rt; source.read(&mut into) == Ok(12));
    assert!(rt; &into[..12] == b"from a slice".as_slice());
    assert!(rt; source.read(&mut into) == Ok(0));
}

#[test]
fn the_system_takes_bytes(rt: HostRuntime) {
    let mut sink = StdSink::new(io::Cursor::new(Vec::new(rt.alloc())));
    assert!(&rt; write_all(&mut sink, b"to a vector") == Ok(()));
}

#[test]
fn the_system_fails(rt: HostRuntime) {
    let mut broken = StdSource::new(Broken);
    assert!(rt; broken.read(&mut [0; 4]) == Err(Failed));
    let mut stuck = StdSink::new(Broken);
    assert!(rt; stuck.write(b"a") == Err(Failed));
    assert!(rt; stuck.write(b"") == Ok(0));
}

#[test]
fn a_count_is_shown(rt: HostRuntime) {
    let mut count = FaultCount::new();
    assert!(rt; count.shown() == 0);
    count.rise();
    count.rise();
    assert!(rt; count.shown() == 2);
    assert!(rt; count.note(Ok::<u8, Failed>(7)) == Ok(7));
    assert!(rt; count.shown() == 2);
    assert!(rt; count.note(Err::<u8, Failed>(Failed)) == Err(Failed));
    assert!(rt; count.shown() == 3);
    count.note_short(4, 4);
    assert!(rt; count.shown() == 3);
    count.note_short(3, 4);
    assert!(rt; count.shown() == 4);
}

// Which calls of a schedule fail: calls 1 and 3, and all from 5 on.
const FAILS: [bool; 6] = [true, false, true, false, true, true];

#[test]
fn a_schedule_has_calls_and_a_stop(rt: HostRuntime) {
    let failing = [3, 1].to_vec(rt.alloc()).expect(&rt, "memory");
    let mut schedule = Schedule::new(failing, Some(5));
    for fails in FAILS {
        assert!(&rt; schedule.next_fails() == fails);
    }
}

#[test]
fn an_open_gate_lets_all_pass() {
    let gate = OpenGate;
    gate.before(Session(1), 1);
    gate.inside_flush(Session(1));
    gate.ended(Session(1));
    gate.cleaned(0);
    assert_sync(&gate);
}
