//! Std's readers and writers, each with how often a call of it has failed. Nothing else can make that count rise.

ghost use Rattle.std.specs.Prelude.{◌≡◌, ◌<◌, ◌≤◌, length, IfOk};
ghost use Rattle.std.specs.Io.KnownBytes.{ReadConsumes, WriteAppends};
ghost use Rattle.jet_io.specs.Faults.{CountsFault};

use crate::faults::FaultCount;
use std::io;
use std::io::{ErrorKind, Read, Write};

/// A reader, and how often it has answered an error.
#[derive(Drop)]
pub struct CountedReader<R: Read + Drop> {
    reader: R,
    failures: FaultCount,
}

impl<R: Read + Drop> CountedReader<R> {
    /// It was not called yet.
    pub fn new(reader: R) -> CountedReader<R>
        ensures reader { result.reader ≡ reader }
        ensures failures { result.failures ≡ 0 }
    {
        CountedReader {
            reader,
            failures: FaultCount::new(),
        }
    }

    /// What one call of the reader answers.
    pub fn read(&mut self, into: &mut [u8]) -> io::Result<usize>
        ensures within { IfOk result (λ n. n ≤ length into.old) }
        ensures bytes { ReadConsumes (R.remaining self.old.reader) (R.remaining self.new.reader) result into.new }
        ensures failures { CountsFault result self.old.failures self.new.failures }
    {
        self.failures.note(self.reader.read(into))
    }
}

/// A writer, and how often it has answered an error, or taken nothing of a piece that is not empty.
#[derive(Drop)]
pub struct CountedWriter<W: Write + Drop> {
    writer: W,
    failures: FaultCount,
}

impl<W: Write + Drop> CountedWriter<W> {
    /// It was not called yet.
    pub fn new(writer: W) -> CountedWriter<W>
        ensures writer { result.writer ≡ writer }
        ensures failures { result.failures ≡ 0 }
    {
        CountedWriter {
            writer,
            failures: FaultCount::new(),
        }
    }

    /// What one call of the writer answers, or `WriteZero` where it took nothing of a piece that is not empty.
    pub fn write(&mut self, piece: &[u8]) -> io::Result<usize>
        ensures within { IfOk result (λ n. n ≤ length piece.now) }
        ensures some { 0 < length piece.now → IfOk result (λ n. 0 < n) }
        ensures bytes { WriteAppends (W.contents self.old.writer) (W.contents self.new.writer) result piece.now }
        ensures failures { CountsFault result self.old.failures self.new.failures }
    {
        let outcome = match self.writer.write(piece) {
            Ok(0) if !piece.is_empty() => Err(ErrorKind::WriteZero.into()),
            outcome => outcome,
        };
        self.failures.note(outcome)
    }
}
