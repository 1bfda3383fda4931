//! The program as a process: its words, its volume, its standard streams and its exit status.

ghost use Rattle.std.specs.Prelude.{◌≡◌, ◌-◌, ◌^◌, ℕ, min, MatchResult, Ok, Err};
ghost use Rattle.std.specs.Process.{exit_status};
ghost use Rattle.std.specs.IoError.{error_kind};
ghost use Rattle.jet_io.specs.System.{reader_of, writer_of, std_source_failures, std_sink_failures};
ghost use Rattle.esentutl.specs.Words.{words_of};
ghost use Rattle.esentutl.specs.Streams.{still_told};
ghost use Rattle.esentutl.specs.Process.{arguments_of, is_over_memory, words_fault, AreWordsOf, EndsOver, ProcessEnds, WordsEnd};
ghost use Rattle.esentutl.specs.Volumes.{volume_side};

use crate::streams::{Input, Output};
use crate::top::esentutl;
use folder_volume::FileVolume;
use jet_io::{Sink, Source, StdSink, StdSource};
use jet_volume::Volume;
use memory_volume::MemoryVolume;
use recovered_states::{files_recover_to_one_state, one_checkpoint_stands_on_files};
use soft_recovery::files_are_refused_for_one_cause;
use std::alloc::{AllocError, Global};
use std::env::Args;
use std::io;
use std::io::{ErrorKind, Read, Write};
use std::process::ExitCode;
use std::rt::Files;
use thiserror::Error;

/// Why a process has no words.
#[derive(Clone, Copy, Debug, PartialEq, Eq, Error)]
pub enum WordsFault {
    /// A word is not UTF-8.
    #[error("a word is not UTF-8")]
    NotText,
    /// There was no memory for the words.
    #[error("out of memory")]
    Memory,
}

/// What a process ends with, and its streams as it leaves them.
#[derive(Drop)]
pub struct Ended<I: Read + Drop, O: Write + Drop> {
    pub status: ExitCode,
    pub input: StdSource<I>,
    pub output: StdSink<O>,
    /// How often a call of its volume has failed, or 2^64 - 1 where that is more.
    pub volume_faults: u64,
}

/// Runs the program over the arguments of a process, of which the first is the program's name, over the volume that they name, and over
/// its standard streams.
///
/// A `main` has nothing to do but to call it and to return the status: that of [`esentutl`](crate::esentutl), 0 to 7. The first word names
/// the four files of a volume, and `-` one in memory, that is gone at the end. An argument that is not UTF-8 is of no form. Without
/// memory for the words nothing is read and nothing is written.
pub fn run_process<R: Files + Clone + Drop, I: Read + Drop, O: Write + Drop>(
    rt: R,
    alloc: Global,
    arguments: io::Result<Args>,
    input: I,
    output: O,
) -> Ended<I, O>
    // What is said of bytes holds of the streams that tell them, as those over memory. What is said of faults is said of the
    // reader's, the writer's and the volume's own failures.
    ensures { (faults : ℕ) × (result.volume_faults ≡ min faults (2 ^ 64 - 1)) × ProcessEnds (arguments_of arguments) (record {
      left_before = I.remaining input;
      left_after = still_told (I.remaining input) (I.remaining (reader_of result.input));
      source_before = 0;
      source_after = std_source_failures result.input;
      taken_before = O.contents output;
      taken_after = still_told (O.contents output) (O.contents (writer_of result.output));
      sink_before = 0;
      sink_after = std_sink_failures result.output;
      volume_before = 0;
      volume_after = faults;
    }) (exit_status result.status) }
{
    let mut script = Input::new(input);
    let mut out = Output::new(output);
    let (status, volume_faults) = end_process(rt, alloc, arguments, &mut script, &mut out);
    Ended {
        status,
        input: script.into_source(),
        output: out.into_sink(),
        volume_faults,
    }
}

// What a process with these arguments ends with, and how often a call of its volume has failed.
fn end_process<R: Files + Clone + Drop, S: Source, K: Sink>(
    rt: R,
    alloc: Global,
    arguments: io::Result<Args>,
    script: &mut S,
    out: &mut K,
) -> (ExitCode, u64)
    ensures { (faults : ℕ) × (result.1 ≡ min faults (2 ^ 64 - 1)) × ProcessEnds (arguments_of arguments) (record {
      left_before = S.left script.old;
      left_after = S.left script.new;
      source_before = S.faults script.old;
      source_after = S.faults script.new;
      taken_before = K.taken out.old;
      taken_after = K.taken out.new;
      sink_before = K.faults out.old;
      sink_after = K.faults out.new;
      volume_before = 0;
      volume_after = faults;
    }) (exit_status result.0) }
{
    match read_words(alloc, arguments) {
        Ok(words) => end_words(rt, alloc, &words, script, out),
        Err(WordsFault::NotText) => end_over(MemoryVolume::new(alloc), alloc, &[], script, out),
        Err(WordsFault::Memory) => (ExitCode::from(7), 0),
    }
}

// What a process with these words ends with.
fn end_words<R: Files + Clone + Drop, S: Source, K: Sink>(
    rt: R,
    alloc: Global,
    words: &[String],
    script: &mut S,
    out: &mut K,
) -> (ExitCode, u64)
    ensures { (faults : ℕ) × (result.1 ≡ min faults (2 ^ 64 - 1)) × WordsEnd (words_of words.now) (record {
      left_before = S.left script.old;
      left_after = S.left script.new;
      source_before = S.faults script.old;
      source_after = S.faults script.new;
      taken_before = K.taken out.old;
      taken_after = K.taken out.new;
      sink_before = K.faults out.old;
      sink_after = K.faults out.new;
      volume_before = 0;
      volume_after = faults;
    }) (exit_status result.0) }
{
    files_recover_to_one_state();
    files_are_refused_for_one_cause();
    one_checkpoint_stands_on_files();
    if is_in_memory(words) {
        return end_over(MemoryVolume::new(alloc), alloc, words, script, out);
    }
    match words.first() {
        Some(name) => match name.clone() {
            Ok(name) => end_over(FileVolume::new(rt, name), alloc, words, script, out),
            Err(AllocError) => (ExitCode::from(7), 0),
        },
        None => end_over(MemoryVolume::new(alloc), alloc, words, script, out),
    }
}

// Whether the first of the words names a volume in memory.
fn is_in_memory(words: &[String]) -> bool
    ensures { result ≡ is_over_memory (Ok (words_of words.now)) }
{
    match words {
        [name, ..] => name.as_str() == "-",
        [] => false,
    }
}

// What the words end with over their volume.
fn end_over<V: Volume + Drop, S: Source, K: Sink>(
    mut volume: V,
    alloc: Global,
    words: &[String],
    script: &mut S,
    out: &mut K,
) -> (ExitCode, u64)
    ensures { (after : V) × (result.1 ≡ min (V.faults after) (2 ^ 64 - 1)) × EndsOver (words_of words.now) (record {
      left_before = S.left script.old;
      left_after = S.left script.new;
      source_before = S.faults script.old;
      source_after = S.faults script.new;
      taken_before = K.taken out.old;
      taken_after = K.taken out.new;
      sink_before = K.faults out.old;
      sink_after = K.faults out.new;
      volume_before = V.faults volume;
      volume_after = V.faults after;
    }) (volume_side V.tells_contents V.seen V.moment V.left_at volume after) (exit_status result.0) }
{
    let status = esentutl(alloc, words, &mut volume, script, out);
    (ExitCode::from(status), volume.faults())
}

// The words behind the program's name.
fn read_words(alloc: Global, arguments: io::Result<Args>) -> Result<Vec<String>, WordsFault>
    ensures { MatchResult result (λ words. AreWordsOf (arguments_of arguments) (Ok (words_of words.items))) (λ fault. AreWordsOf (arguments_of arguments) (Err fault)) }
{
    match arguments {
        Ok(mut words) => {
            let _name = words.next();
            match words.collect(alloc) {
                Ok(words) => Ok(words),
                Err(_) => Err(WordsFault::Memory),
            }
        }
        Err(error) => Err(fault_of(&error)),
    }
}

// Why the words could not be had.
fn fault_of(error: &io::Error) -> WordsFault
    ensures { result ≡ words_fault (error_kind error.now) }
{
    match error.kind() {
        ErrorKind::OutOfMemory => WordsFault::Memory,
        _ => WordsFault::NotText,
    }
}
