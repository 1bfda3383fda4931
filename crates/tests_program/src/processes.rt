//! Whole processes over words, a reader and a writer of the test's own.

use esentutl::run_process;
use std::env::{Env, FillError};
use std::io::Cursor;
use std::process::ExitCode;
use std::test::*;
use std::{env, io};

/// The words of a process, its name the first.
#[derive(Clone, Copy)]
struct Words<'a>(&'a [&'a [u8]]);

impl Env for Words<'_> {
    fn arg(&self, i: usize, buf: &mut [u8]) -> Result<usize, FillError> {
        match self.0.get(i) {
            Some(word) if word.len() <= buf.len() => {
                buf[..word.len()].copy_from_slice(word);
                Ok(word.len())
            }
            Some(_) => Err(FillError::TooLong),
            None => Err(FillError::NotPresent),
        }
    }

    fn var(&self, _name: &str, _buf: &mut [u8]) -> Result<usize, FillError> {
        Err(FillError::NotPresent)
    }

    fn var_at(&self, _i: usize, _buf: &mut [u8]) -> Result<usize, FillError> {
        Err(FillError::NotPresent)
    }
}

/// A stream whose every call fails.
#[derive(Drop)]
struct Broken;

impl io::Read for Broken {
    fn read(&mut self, _buf: &mut [u8]) -> io::Result<usize> {
        Err(io::ErrorKind::BrokenPipe.into())
    }
}

impl io::Write for Broken {
    fn write(&mut self, _buf: &[u8]) -> io::Result<usize> {
        Err(io::ErrorKind::BrokenPipe.into())
    }

    fn flush(&mut self) -> io::Result<()> {
        Ok(())
    }
}

const RUN: &[&[u8]] = &[b"esentutl", b"-", b"run", b"ordered"];

/// Words and a script, and the status and the output of the process.
static ENDS: &[(&[&[u8]], &[u8], u8, &[u8])] = &[
    (
        RUN,
        b"1 BeginSession\n",
        0,
        b"0 1 BeginSession JET_errSuccess\n",
    ),
    (RUN, b"", 0, b""),
    (&[b"esentutl"], b"1 BeginSession\n", 1, b"esentutl: words\n"),
    (
        &[b"esentutl", b"-", b"run", b"ordered", b"\xff"],
        b"1 BeginSession\n",
        1,
        b"esentutl: words\n",
    ),
    (&[b"esentutl", b"\xc3("], b"", 1, b"esentutl: words\n"),
    (
        RUN,
        b"1 BeginSession\n1 Fly\n",
        2,
        b"esentutl: script line 2\n",
    ),
];

/// Whether a process ends so.
fn ends_as(rt: &HostRuntime, words: &[&[u8]], script: &[u8], status: u8, output: &[u8]) -> bool {
    let alloc = rt.alloc();
    let mut out = Cursor::new(Vec::new(alloc));
    let arguments = env::args(&(Words(words), alloc));
    let ended = run_process(rt, alloc, arguments, script, &mut out).status;
    ended == ExitCode::from(status) && out.get_ref().as_slice() == output
}

#[test]
fn each_status_is_what_the_process_ends_with(rt: HostRuntime) {
    for (words, script, status, output) in ENDS {
        assert!(&rt;
            ends_as(&rt, words, script, *status, output),
            "status {status}"
        );
    }
}

#[test]
fn a_process_ends_with_the_status_of_a_long_script(rt: HostRuntime) {
    let comment = vec![in rt.alloc(); b'#'; 16_777_217].expect(&rt, "memory");
    assert!(&rt; ends_as(&rt, RUN, &comment, 2, b"esentutl: script too long\n"));
}

#[test]
fn a_process_ends_with_the_status_of_a_broken_source(rt: HostRuntime) {
    let mut out = Cursor::new(Vec::new(rt.alloc()));
    let arguments = env::args(&(Words(RUN), rt.alloc()));
    let ended = run_process(&rt, rt.alloc(), arguments, Broken, &mut out).status;
    assert!(&rt; ended == ExitCode::from(5));
    assert!(&rt; out.get_ref().as_slice() == b"esentutl: source\n".as_slice());
}

#[test]
fn a_process_ends_with_the_status_of_a_broken_sink(rt: HostRuntime) {
    let script = b"1 BeginSession\n".as_slice();
    let arguments = env::args(&(Words(RUN), rt.alloc()));
    let ended = run_process(&rt, rt.alloc(), arguments, script, Broken).status;
    assert!(&rt; ended == ExitCode::from(6));
}

// Nothing is read or written.
#[test]
fn no_memory_for_the_words(rt: HostRuntime) {
    let mut script = b"1 Fly".as_slice();
    let mut out = Cursor::new(Vec::new(rt.alloc()));
    let arguments = Err(io::ErrorKind::OutOfMemory.into());
    let ended = run_process(&rt, rt.alloc(), arguments, &mut script, &mut out).status;
    assert!(&rt; ended == ExitCode::from(7));
    assert!(&rt; script == b"1 Fly".as_slice());
    assert!(&rt; out.get_ref().is_empty());
}
