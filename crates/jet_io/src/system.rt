//! The source and the sink of a running program, over std's reader and writer.

ghost use Rattle.std.specs.Prelude.{◌≡◌, ◌<◌, ◌≤◌, None, length, IfOk};
ghost use Rattle.std.specs.Io.KnownBytes.{ReadConsumes, WriteAppends};
ghost use Rattle.jet_io.specs.Faults.{CountsFault};

use crate::counted::{CountedReader, CountedWriter};
use crate::failed::Failed;
use crate::faults::FaultCount;
use crate::sink::Sink;
use crate::source::Source;
use std::io::{Read, Write};

/// A reader whose errors are faults. It tells no bytes, since no clause knows what the system gives.
#[derive(Drop)]
pub struct StdSource<R: Read + Drop> {
    reader: CountedReader<R>,
    faults: FaultCount,
}

impl<R: Read + Drop> StdSource<R> {
    ghost use Rattle.jet_io.specs.System.{std_source_faults, std_source_failures, reader_of};

    /// No fault yet.
    pub fn new(reader: R) -> StdSource<R>
        ensures faults { std_source_faults result ≡ 0 }
        ensures failures { std_source_failures result ≡ 0 }
        ensures reader { reader_of result ≡ reader }
    {
        StdSource {
            reader: CountedReader::new(reader),
            faults: FaultCount::new(),
        }
    }
}

impl<R: Read + Drop> Source for StdSource<R> {
    ghost use Rattle.jet_io.specs.System.{std_source_faults, std_source_failures, reader_of};

    ghost left = { λ _. None };

    ghost faults = { λ s. s.faults };

    fn read(&mut self, into: &mut [u8]) -> Result<usize, Failed>
        requires { 0 < length into.old }
        ensures within { IfOk result (λ n. n ≤ length into.old) }
        ensures faults { CountsFault result (std_source_faults self.old) (std_source_faults self.new) }

        // It is a fault exactly where the reader answered an error in this call.
        ensures failures { CountsFault result (std_source_failures self.old) (std_source_failures self.new) }

        // Where the reader tells its bytes, as one over memory, these are read.
        ensures reader { ReadConsumes (R.remaining (reader_of self.old)) (R.remaining (reader_of self.new)) result into.new }
    {
        match self.reader.read(into) {
            Ok(count) => Ok(count),
            Err(_) => {
                self.faults.rise();
                Err(Failed)
            }
        }
    }
}

/// A writer whose errors are faults, and so is a write that took nothing. It tells no bytes.
#[derive(Drop)]
pub struct StdSink<W: Write + Drop> {
    writer: CountedWriter<W>,
    faults: FaultCount,
}

impl<W: Write + Drop> StdSink<W> {
    ghost use Rattle.jet_io.specs.System.{std_sink_faults, std_sink_failures, writer_of};

    /// No fault yet.
    pub fn new(writer: W) -> StdSink<W>
        ensures faults { std_sink_faults result ≡ 0 }
        ensures failures { std_sink_failures result ≡ 0 }
        ensures writer { writer_of result ≡ writer }
    {
        StdSink {
            writer: CountedWriter::new(writer),
            faults: FaultCount::new(),
        }
    }
}

impl<W: Write + Drop> Sink for StdSink<W> {
    ghost use Rattle.jet_io.specs.System.{std_sink_faults, std_sink_failures, writer_of};

    ghost taken = { λ _. None };

    ghost faults = { λ s. s.faults };

    fn write(&mut self, piece: &[u8]) -> Result<usize, Failed>
        ensures within { IfOk result (λ n. n ≤ length piece.now) }
        ensures some { 0 < length piece.now → IfOk result (λ n. 0 < n) }
        ensures faults { CountsFault result (std_sink_faults self.old) (std_sink_faults self.new) }

        // It is a fault exactly where the writer answered an error in this call, or took nothing of a piece that is not empty.
        ensures failures { CountsFault result (std_sink_failures self.old) (std_sink_failures self.new) }

        // Where the writer tells its bytes, as one over memory, these are written.
        ensures writer { WriteAppends (W.contents (writer_of self.old)) (W.contents (writer_of self.new)) result piece.now }
    {
        match self.writer.write(piece) {
            Ok(taken) => Ok(taken),
            Err(_) => {
                self.faults.rise();
                Err(Failed)
            }
        }
    }
}
