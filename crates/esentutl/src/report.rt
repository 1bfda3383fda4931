//! The lines that are printed beside a transcript.

ghost use Rattle.std.specs.Prelude.{◌≡◌, ◌≤◌, length, codes};
ghost use Rattle.esentutl.specs.Words.{last_line, bad_line, recovered_line};
ghost use Rattle.esentutl.specs.About.{Tells};
ghost use Rattle.esentutl.specs.TopCall.{Says};

use arrayvec::ArrayString;
use itoa::Buffer;
use jet_io::{Failed, Sink, write_all};

/// A line of at most 96 bytes. It takes no memory.
type ReportLine = ArrayString<96>;

/// A text behind the program's name.
pub fn make_last_line(text: &str) -> ReportLine
    requires { length text.now ≤ 24 }
    ensures { result.bytes ≡ last_line text.now }
{
    let mut line = ArrayString::new();
    line.push_str("esentutl: ");
    line.push_str(text);
    line.push_str("\n");
    line
}

/// The line that names the first line of a script that is outside the grammar, counted from 1.
pub fn make_bad_line(number: u64) -> ReportLine
    ensures { result.bytes ≡ bad_line number }
{
    let mut buffer = Buffer::new();
    let mut line = ArrayString::new();
    line.push_str("esentutl: ");
    line.push_str("script line ");
    line.push_str(buffer.format(number));
    line.push_str("\n");
    line
}

/// The line that tells what a volume recovers to: its number of log entries, and how many tables it has.
pub fn make_recovered_line(number: u64, tables: usize) -> ReportLine
    ensures { result.bytes ≡ recovered_line number tables }
{
    let mut buffer = Buffer::new();
    let mut line = ArrayString::new();
    line.push_str("recovered number ");
    line.push_str(buffer.format(number));
    line.push_str(" tables ");
    line.push_str(buffer.format(tables));
    line.push_str("\n");
    line
}

/// Prints a text that was asked for, and answers the exit status.
pub fn tell_text<K: Sink>(text: &str, out: &mut K) -> u8
    ensures { Tells (K.taken out.old) (K.taken out.new) (K.faults out.old) (K.faults out.new) text.now result }
{
    tell_bytes(text.as_bytes(), out)
}

/// Prints the bytes of a text that was asked for, and answers the exit status.
pub fn tell_bytes<K: Sink>(text: &[u8], out: &mut K) -> u8
    ensures { Tells (K.taken out.old) (K.taken out.new) (K.faults out.old) (K.faults out.new) text.now result }
{
    match write_all(out, text) {
        Ok(()) => 0,
        Err(Failed) => 6,
    }
}

/// Prints bytes as the last line. A fault of the sink is not told: the status has its own cause.
pub fn say_bytes<K: Sink>(out: &mut K, line: &[u8])
    ensures { Says (K.taken out.old) (K.taken out.new) (K.faults out.old) (K.faults out.new) line.now }
{
    let _told = write_all(out, line);
}

/// Prints a line as the last one. A fault of the sink is not told: the status has its own cause.
pub fn say_only<K: Sink>(out: &mut K, line: &ReportLine)
    ensures { Says (K.taken out.old) (K.taken out.new) (K.faults out.old) (K.faults out.new) line.now.bytes }
{
    say_bytes(out, line.as_str().as_bytes());
}
