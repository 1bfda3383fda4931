//! How a call ends: its status, and the last line that tells why it is not 0.

ghost use Rattle.std.specs.Prelude.{◌≡◌, ◌<◌, ◌≤◌, ◌⊎◌, ℕ, List, codes, length, take};
ghost use Rattle.std.specs.Io.KnownBytes.{append_known};
ghost use Rattle.engine_image.specs.FoundFaults.{finding_told};
ghost use Rattle.tool_integrity.specs.IntegrityLines.{finding_line};
ghost use Rattle.esentutl.specs.About.{Tells};
ghost use Rattle.esentutl.specs.InspectionEnds.{SaysOrLacks, SaysWhy};
ghost use Rattle.esentutl.specs.Inspections.{line_of_finding, status_of_finding};
ghost use Rattle.esentutl.specs.Reading.{line_of_fault, status_of_fault};
ghost use Rattle.esentutl.specs.RunEnds.{SaysClosing, SaysStop, status_of_closing, status_of_stop};
ghost use Rattle.esentutl.specs.TopCall.{Says, line_of_cause, status_of_cause};
ghost use Rattle.esentutl.specs.Words.{last_line, recovered_line};

use crate::reading::ReadScriptFault;
use crate::report::{
    make_bad_line, make_last_line, make_recovered_line, say_bytes, say_only, tell_text,
};
use crate::words::Inspection;
use engine_core::Engine;
use engine_image::Finding;
use jet_base::OutOfMemory;
use jet_io::Sink;
use ordered_run::{After, LineFault};
use soft_recovery::RecoverCause;
use std::alloc::Global;
use tool_integrity::finding_line;

/// Tells why a script is not run, by its line and its status. Want of memory has no line.
pub fn tell<K: Sink>(fault: ReadScriptFault, out: &mut K) -> u8
    ensures status { result ≡ status_of_fault fault }
    ensures line { Says (K.taken out.old) (K.taken out.new) (K.faults out.old) (K.faults out.new) (line_of_fault fault) }
{
    match fault {
        ReadScriptFault::Source => {
            say_only(out, &make_last_line("source"));
            5
        }
        ReadScriptFault::TooLong => {
            say_only(out, &make_last_line("script too long"));
            2
        }
        ReadScriptFault::BadLine(line) => {
            say_only(out, &make_bad_line(line));
            2
        }
        ReadScriptFault::Memory => 7,
    }
}

/// Tells why a volume is not opened, by its line and its status. Want of memory has no line.
pub fn tell_cause<K: Sink>(why: &RecoverCause, out: &mut K) -> u8
    ensures status { result ≡ status_of_cause why.now }
    ensures line { Says (K.taken out.old) (K.taken out.new) (K.faults out.old) (K.faults out.new) (line_of_cause why.now) }
{
    match why {
        RecoverCause::CheckpointCorrupt => refuse("JET_errCheckpointCorrupt", out),
        RecoverCause::LogSequenceEnd => refuse("JET_errLogSequenceEnd", out),
        RecoverCause::ReadVerifyFailure => refuse("JET_errReadVerifyFailure", out),
        RecoverCause::DatabaseCorrupted(_) => refuse("JET_errDatabaseCorrupted", out),
        RecoverCause::LogFileCorrupt => refuse("JET_errLogFileCorrupt", out),
        RecoverCause::VolumeFault => tell_volume_fault(out),
        RecoverCause::OutOfMemory => 7,
    }
}

/// Tells why a volume is not looked at, by its line and its status: what is found first of its image is the answer where its integrity was
/// asked for. Want of memory has no line, and may come in the place of that finding.
pub fn tell_uninspected<K: Sink>(
    alloc: Global,
    asked: Inspection,
    why: &RecoverCause,
    out: &mut K,
) -> u8
    ensures { SaysWhy (K.taken out.old) (K.taken out.new) (K.faults out.old) (K.faults out.new) asked why.now result }
{
    match why {
        RecoverCause::DatabaseCorrupted(found) => tell_corruption(alloc, asked, found, out),
        RecoverCause::CheckpointCorrupt
        | RecoverCause::LogSequenceEnd
        | RecoverCause::ReadVerifyFailure
        | RecoverCause::LogFileCorrupt
        | RecoverCause::VolumeFault
        | RecoverCause::OutOfMemory => tell_cause(why, out),
    }
}

/// Tells that something is found of an image, and what, where that is asked for.
fn tell_corruption<K: Sink>(alloc: Global, asked: Inspection, found: &Finding, out: &mut K) -> u8
    ensures { SaysOrLacks (K.taken out.old) (K.taken out.new) (K.faults out.old) (K.faults out.new) (line_of_finding asked found.now) (status_of_finding asked) result }
{
    match asked {
        Inspection::Integrity => tell_finding(alloc, found, out),
        Inspection::Header | Inspection::Checkpoint | Inspection::Log | Inspection::Space => refuse(
            "JET_errDatabaseCorrupted",
            out,
        ),
    }
}

/// Tells what is found first of an image.
fn tell_finding<K: Sink>(alloc: Global, found: &Finding, out: &mut K) -> u8
    ensures { SaysOrLacks (K.taken out.old) (K.taken out.new) (K.faults out.old) (K.faults out.new) (finding_line (finding_told found.now)) 8 result }
{
    match finding_line(alloc, found) {
        Ok(line) => {
            say_bytes(out, line.as_slice());
            8
        }
        Err(OutOfMemory) => 7,
    }
}

/// Tells for what a volume is refused.
fn refuse<K: Sink>(name: &str, out: &mut K) -> u8
    requires { length name.now ≤ 24 }
    ensures status { result ≡ 3 }
    ensures line { Says (K.taken out.old) (K.taken out.new) (K.faults out.old) (K.faults out.new) (last_line name.now) }
{
    say_only(out, &make_last_line(name));
    3
}

/// Tells that the volume met a fault.
fn tell_volume_fault<K: Sink>(out: &mut K) -> u8
    ensures status { result ≡ 4 }
    ensures line { Says (K.taken out.old) (K.taken out.new) (K.faults out.old) (K.faults out.new) (last_line (codes "volume")) }
{
    say_only(out, &make_last_line("volume"));
    4
}

/// Tells why a run stopped, by its status, and by its line where the volume failed and the sink did not.
pub fn tell_stop<K: Sink>(fault: LineFault, out: &mut K) -> u8
    ensures status { result ≡ status_of_stop fault }
    ensures line { SaysStop (K.taken out.old) (K.taken out.new) (K.faults out.old) (K.faults out.new) fault }
{
    match fault {
        LineFault::Memory => 7,
        LineFault::Sink => 6,
        LineFault::Volume => tell_volume_fault(out),
        LineFault::VolumeAndSink => 4,
        LineFault::Image => 7,
    }
}

/// Tells what came of the closing image.
pub fn tell_closing<K: Sink>(closing: After, out: &mut K) -> u8
    ensures status { result ≡ status_of_closing closing }
    ensures line { SaysClosing (K.taken out.old) (K.taken out.new) (K.faults out.old) (K.faults out.new) closing }
{
    match closing {
        After::Goes => 0,
        After::Fault => tell_volume_fault(out),
        After::Memory => 7,
    }
}

/// Tells what a volume was recovered to.
pub fn tell_recovered<K: Sink>(engine: &Engine, out: &mut K) -> u8
    ensures { Tells (K.taken out.old) (K.taken out.new) (K.faults out.old) (K.faults out.new) (recovered_line engine.now.number (length engine.now.store.tables)) result }
{
    let line = make_recovered_line(engine.number(), engine.tables().tables().len());
    tell_text(line.as_str(), out)
}
