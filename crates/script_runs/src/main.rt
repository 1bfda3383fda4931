//! Runs every script of the folder that it lies in through the program's call, from memory to memory, and tells of each
//! whether status and output are those beside it: NAME.script, NAME.out, NAME.status where the status is not 0, and
//! NAME.words, one a line, where the words are not `- run ordered`. Then it runs the table of bad lines.
#![tactic(auto)]

mod bad_lines;

use esentutl::esentutl;
use jet_io::{MemSink, MemSource};
use memory_volume::MemoryVolume;
use std::alloc::Global;
use std::process::ExitCode;
use std::{fs, io};

/// How many bytes more than wanted a run may print before its sink is full.
const SPARE: usize = 4096;

/// The words of a run where none stand beside a script, one a line.
const ORDERED_RUN: &str = "-\nrun\nordered\n";

/// What a script came to.
#[derive(Clone, Copy, PartialEq, Eq)]
enum Outcome {
    AsWanted,
    OtherStatus(u8, u8),
    // the first byte that differs, counted from 1
    OtherOutput(usize),
}

fn main(rt: HostRuntime) -> io::Result<ExitCode> {
    let mut all_well = true;
    for name in script_names(&rt)?.iter() {
        let outcome = run(&rt, name.as_str())?;
        match outcome {
            Outcome::AsWanted => println!(rt; "{}: as wanted", name.as_str())?,
            Outcome::OtherStatus(got, wanted) => {
                println!(rt; "{}: status {got}, wanted {wanted}", name.as_str())?;
            }
            Outcome::OtherOutput(at) => {
                println!(rt; "{}: the output differs at byte {at}", name.as_str())?;
            }
        }
        all_well = all_well && outcome == Outcome::AsWanted;
    }
    bad_lines::tell_all(&rt, &words_of(rt.alloc(), ORDERED_RUN)?)?;
    Ok(ExitCode::from(if all_well { 0 } else { 1 }))
}

/// The names of the scripts, in the order of the alphabet.
fn script_names(rt: &HostRuntime) -> io::Result<Vec<String>> {
    let mut names = Vec::new(rt.alloc());
    for entry in fs::read_dir(rt, ".")? {
        let entry = entry?;
        if let Some(name) = entry.file_name().strip_suffix(".script") {
            names.push(String::from_str(rt.alloc(), name)?)?;
        }
    }
    names.sort()?;
    Ok(names)
}

fn run(rt: &HostRuntime, name: &str) -> io::Result<Outcome> {
    let alloc = rt.alloc();
    let script = fs::read(rt, format!(in alloc; "{name}.script")?)?;
    let wanted = fs::read(rt, format!(in alloc; "{name}.out")?)?;
    let status = wanted_status(rt, name)?;
    let words = run_words(rt, name)?;
    let mut source = MemSource::new(script, Vec::new(alloc));
    let room = wanted.len().saturating_add(SPARE);
    let Ok(mut out) = MemSink::new(alloc, room, Vec::new(alloc)) else {
        return Err(io::Error::from(io::ErrorKind::OutOfMemory));
    };
    let mut volume = MemoryVolume::new(alloc);
    let got = esentutl(alloc, &words, &mut volume, &mut source, &mut out);
    Ok(if got != status {
        Outcome::OtherStatus(got, status)
    } else {
        compare(out.taken(), &wanted)
    })
}

/// The status that stands beside a script, or 0.
fn wanted_status(rt: &HostRuntime, name: &str) -> io::Result<u8> {
    let path = format!(in rt.alloc(); "{name}.status")?;
    if !fs::exists(rt, path.as_str())? {
        return Ok(0);
    }
    let text = fs::read_to_string(rt, path.as_str())?;
    match text.as_str().trim().parse::<u8>() {
        Ok(status) => Ok(status),
        Err(_) => Err(io::Error::from(io::ErrorKind::InvalidData)),
    }
}

/// The words that stand beside a script, or `- run ordered`.
fn run_words(rt: &HostRuntime, name: &str) -> io::Result<Vec<String>> {
    let path = format!(in rt.alloc(); "{name}.words")?;
    if !fs::exists(rt, path.as_str())? {
        return words_of(rt.alloc(), ORDERED_RUN);
    }
    let text = fs::read_to_string(rt, path.as_str())?;
    words_of(rt.alloc(), text.as_str())
}

/// The words of a text, one a line.
fn words_of(alloc: Global, text: &str) -> io::Result<Vec<String>> {
    let mut words = Vec::new(alloc);
    for word in text.lines() {
        words.push(String::from_str(alloc, word)?)?;
    }
    Ok(words)
}

fn compare(got: &[u8], wanted: &[u8]) -> Outcome {
    if got == wanted {
        return Outcome::AsWanted;
    }
    let mut at = 0usize;
    for (a, b) in got.iter().zip(wanted.iter()) {
        if a != b {
            break;
        }
        at = at.saturating_add(1);
    }
    Outcome::OtherOutput(at.saturating_add(1))
}
