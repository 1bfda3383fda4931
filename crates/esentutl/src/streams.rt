//! The standard streams of a process, as a source and a sink that tell their bytes.

ghost use Rattle.std.specs.Prelude.{◌≡◌, ◌<◌, ◌≤◌, ◌↔◌, [], true, length, take, IfOk, OnErr, IfSome};
ghost use Rattle.std.specs.Io.KnownBytes.{append_known, prepend_known};
ghost use Rattle.jet_io.specs.Faults.{CountsFault};
ghost use Rattle.jet_io.specs.System.{reader_of, writer_of, std_source_failures, std_sink_failures};
ghost use Rattle.esentutl.specs.Streams.{still_told, tells_on};

use jet_io::{Failed, Sink, Source, StdSink, StdSource};
use std::io::{Read, Write};
use std::snapshot::Snapshot;

/// A source over a reader. It tells the bytes that are left where the reader told them at first, as one over memory does. Its faults
/// are the errors that the reader answered.
#[derive(Drop)]
pub struct Input<R: Read + Drop> {
    source: StdSource<R>,
    first: Snapshot<R>,
    ghost tells: { tells_on (R.remaining first.value) (R.remaining (reader_of source)) ≡ true },
}

impl<R: Read + Drop> Input<R> {
    /// No fault yet.
    pub fn new(reader: R) -> Input<R>
        ensures first { result.first.value ≡ reader }
        ensures reader { reader_of result.source ≡ reader }
        ensures failures { std_source_failures result.source ≡ 0 }
    {
        let first = Snapshot::of(&reader);
        Input {
            source: StdSource::new(reader),
            first,
        }
    }

    /// The source over the reader, as the reads left it.
    pub fn into_source(self) -> StdSource<R>
        ensures { result ≡ self.source }
    {
        self.source
    }
}

impl<R: Read + Drop> Source for Input<R> {
    ghost left = { λ s. still_told (R.remaining s.first.value) (R.remaining (reader_of s.source)) };

    ghost faults = { λ s. std_source_failures s.source };

    fn read(&mut self, into: &mut [u8]) -> Result<usize, Failed> {
        self.source.read(into)
    }
}

/// A sink over a writer. It tells the bytes that it has taken where the writer told those that it held at first. Its faults are the
/// errors that the writer answered, and its writes that took nothing of a piece that is not empty.
#[derive(Drop)]
pub struct Output<W: Write + Drop> {
    sink: StdSink<W>,
    first: Snapshot<W>,
    ghost tells: { tells_on (W.contents first.value) (W.contents (writer_of sink)) ≡ true },
}

impl<W: Write + Drop> Output<W> {
    /// No fault yet.
    pub fn new(writer: W) -> Output<W>
        ensures first { result.first.value ≡ writer }
        ensures writer { writer_of result.sink ≡ writer }
        ensures failures { std_sink_failures result.sink ≡ 0 }
    {
        let first = Snapshot::of(&writer);
        Output {
            sink: StdSink::new(writer),
            first,
        }
    }

    /// The sink over the writer, as the writes left it.
    pub fn into_sink(self) -> StdSink<W>
        ensures { result ≡ self.sink }
    {
        self.sink
    }
}

impl<W: Write + Drop> Sink for Output<W> {
    ghost taken = { λ s. still_told (W.contents s.first.value) (W.contents (writer_of s.sink)) };

    ghost faults = { λ s. std_sink_failures s.sink };

    fn write(&mut self, piece: &[u8]) -> Result<usize, Failed> {
        self.sink.write(piece)
    }
}
