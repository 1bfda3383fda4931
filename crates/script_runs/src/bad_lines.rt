//! A table of lines that are outside the grammar of scripts, each below a line that is in it.
//!
//! The file `bad-lines` has three lines an entry: what is wrong, a line of the grammar, and the line that is none, which
//! mostly differs from it in one byte. The script of entry `k` is the good lines of the first `k` entries and then the bad one,
//! which so is its line `k + 1`. Last comes the script of all the good lines, of which every one runs.

use esentutl::esentutl;
use jet_io::{MemSink, MemSource};
use memory_volume::MemoryVolume;
use script_words::Parts;
use std::alloc::{AllocError, Global};
use std::{fs, io};

/// How many bytes a run may print.
const ROOM: usize = 65_536;

/// Prints what the program tells of each entry of the table, and the status of the good lines.
pub fn tell_all(rt: &HostRuntime, words: &[String]) -> io::Result<()> {
    let alloc = rt.alloc();
    let table = fs::read(rt, "bad-lines")?;
    let mut entries = Parts::of(&table, b'\n');
    let mut good = Vec::new(alloc);
    // No table has more entries than bytes.
    for _ in 0..table.len() {
        let Some((wrong, right, bad)) = next_entry(&mut entries) else {
            break;
        };
        put_line(&mut good, right)?;
        let mut script = Vec::from_slice(alloc, &good)?;
        put_line(&mut script, bad)?;
        let (status, told) = run(alloc, words, script)?;
        let wrong = String::from_utf8_lossy(alloc, wrong)?;
        print!(rt; "{}: status {status}, {}", wrong.as_str(), told.as_str())?;
    }
    let (status, _replies) = run(alloc, words, good)?;
    println!(rt; "the lines of the grammar: status {status}")?;
    Ok(())
}

/// What is wrong in the next entry of the table, its good line and its bad one.
fn next_entry<'a>(entries: &mut Parts<'a>) -> Option<(&'a [u8], &'a [u8], &'a [u8])> {
    let wrong = entries.next()?;
    let right = entries.next()?;
    let bad = entries.next()?;
    Some((wrong, right, bad))
}

/// Puts a line and its end behind a script.
fn put_line(script: &mut Vec<u8>, line: &[u8]) -> Result<(), AllocError> {
    script.extend_from_slice(line)?;
    script.push(b'\n')?;
    Ok(())
}

/// The status of a script, and what it prints.
fn run(alloc: Global, words: &[String], script: Vec<u8>) -> io::Result<(u8, String)> {
    let mut source = MemSource::new(script, Vec::new(alloc));
    let Ok(mut out) = MemSink::new(alloc, ROOM, Vec::new(alloc)) else {
        return Err(io::Error::from(io::ErrorKind::OutOfMemory));
    };
    let mut volume = MemoryVolume::new(alloc);
    let status = esentutl(alloc, words, &mut volume, &mut source, &mut out);
    Ok((status, String::from_utf8_lossy(alloc, out.taken())?))
}
