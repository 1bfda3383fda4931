//! The ordered run of a script's lines.

ghost use Rattle.std.specs.Prelude.{◌≡◌, ℕ, List, [], ◌∷◌, ◌++◌, take, drop, OnOk, IfErr, MatchResult, Option};
ghost use Rattle.database_state.specs.State.{DatabaseState};
ghost use Rattle.session_local.specs.Run.{Line};
ghost use Rattle.script_text.specs.Parsed.{calls_of};
ghost use Rattle.ordered_run.specs.Outcomes.{BeginsRun};
ghost use Rattle.ordered_run.specs.Serving.{run_engine, span_limit};
ghost use Rattle.ordered_run.specs.RunSoFar.{line_result, CountsSink, SoFar, StandsBy, RunsOn, StopsIn};

use crate::flushed::After;
use crate::run_engine::RunEngine;
use crate::session_engine::SessionEngine;
use jet_base::{OutOfMemory, Session};
use jet_io::{Failed, Sink, write_all};
use script_text::{CallPiece, ScriptCalls};
use script_transcript::Transcript;
use session_local::Request;
use std::alloc::Global;
use thiserror::Error;

/// Why a run stopped before its last line had run, or behind a line. The first cause that a line meets decides.
#[derive(Clone, Copy, Debug, PartialEq, Eq, Error)]
pub enum LineFault {
    /// There was no memory for a transcript line, which was not served.
    #[error("out of memory")]
    Memory,
    /// The sink failed.
    #[error("the sink failed")]
    Sink,
    /// The volume met a fault, in the flush of a line or in an image behind it. The line is printed.
    #[error("the volume failed")]
    Volume,
    /// The volume met a fault, and then the sink failed in that line.
    #[error("the volume failed, and then the sink")]
    VolumeAndSink,
    /// There was no memory for an image. The line is printed where its bytes were kept, and is not where the image stood in the place
    /// of its flush.
    #[error("out of memory for a checkpoint")]
    Image,
}

/// Why a run stops behind a line, if it does.
fn line_result_of(after: After, printed: Result<(), Failed>) -> Result<(), LineFault>
    ensures { result ≡ line_result after printed }
{
    match after {
        After::Goes => match printed {
            Ok(()) => Ok(()),
            Err(_) => Err(LineFault::Sink),
        },
        After::Fault => match printed {
            Ok(()) => Err(LineFault::Volume),
            Err(_) => Err(LineFault::VolumeAndSink),
        },
        After::Memory => match printed {
            Ok(()) => Err(LineFault::Image),
            Err(_) => Err(LineFault::Sink),
        },
    }
}

/// Runs one line and prints it, but where it is not answered. The text is empty before, and after success.
///
/// The room for the longest line is made before the line is served, so that no line is served and not printed.
fn run_line<E: RunEngine, K: Sink>(
    engine: &mut SessionEngine<E>,
    transcript: &mut Transcript,
    session: Session,
    request: &Request,
    out: &mut K,
) -> Result<(), LineFault>
    requires goes { E.ready engine.old.engine }
    requires so_far { (opening : DatabaseState) × (limit : ℕ) × (start : E) × (gone rest : List Line) × (first : Option (List ℕ)) × SoFar E.held E.made E.flushed opening limit start engine.old gone ((session.0, request.now) ∷ rest) first (K.taken out.old) }
    requires empty { transcript.old.text ≡ [] }
    ensures empty { OnOk result (transcript.new.text ≡ []) }
    ensures goes { OnOk result (E.ready engine.new.engine) }
    ensures runs { MatchResult result (λ _. RunsOn E.held E.made E.flushed engine.old engine.new ((session.0, request.now) ∷ []) (K.taken out.old) (K.taken out.new))
        (λ fault. StopsIn E.held E.made E.flushed fault engine.old engine.new ((session.0, request.now) ∷ []) (K.taken out.old) (K.taken out.new)) }
    ensures sink { MatchResult result (λ _. K.faults out.new ≡ K.faults out.old) (λ fault. CountsSink fault (K.faults out.old) (K.faults out.new)) }
{
    match transcript.make_room() {
        Ok(()) => {}
        Err(OutOfMemory) => return Err(LineFault::Memory),
    }
    let served = engine.serve(session, request);
    if served.flushed.flush.found_no_room() {
        return Err(LineFault::Image);
    }
    transcript.line(
        served.n,
        session,
        request,
        &served.reply,
        engine.reply(session),
    );
    let printed = write_all(out, transcript.text());
    transcript.clear();
    line_result_of(served.flushed.after, printed)
}

/// Runs the lines of a piece in their order, in a run that has come to the first of them.
fn run_piece<E: RunEngine, K: Sink>(
    engine: &mut SessionEngine<E>,
    transcript: &mut Transcript,
    lines: &CallPiece,
    out: &mut K,
) -> Result<(), LineFault>
    requires goes { E.ready engine.old.engine }
    requires so_far { (opening : DatabaseState) × (limit : ℕ) × (start : E) × (gone rest : List Line) × (first : Option (List ℕ)) × SoFar E.held E.made E.flushed opening limit start engine.old gone (calls_of lines.now ++ rest) first (K.taken out.old) }
    requires empty { transcript.old.text ≡ [] }
    ensures empty { OnOk result (transcript.new.text ≡ []) }
    ensures goes { OnOk result (E.ready engine.new.engine) }
    ensures runs { MatchResult result (λ _. RunsOn E.held E.made E.flushed engine.old engine.new (calls_of lines.now) (K.taken out.old) (K.taken out.new))
        (λ fault. StopsIn E.held E.made E.flushed fault engine.old engine.new (calls_of lines.now) (K.taken out.old) (K.taken out.new)) }
    ensures sink { MatchResult result (λ _. K.faults out.new ≡ K.faults out.old) (λ fault. CountsSink fault (K.faults out.old) (K.faults out.new)) }
{
    for index in 0..lines.len() {
        let line = lines.call(index);
        match run_line(engine, transcript, line.0, &line.1, out) {
            Ok(()) => {}
            Err(fault) => return Err(fault),
        }
    }
    Ok(())
}

/// Runs the lines in their order, from the state that the engine was opened with, and prints each before the next runs. It stops
/// behind a line whose flush, or the image behind it, met a fault or found no memory.
///
/// Each piece of the calls is freed when its lines have run.
pub fn run_lines<E: RunEngine, K: Sink>(
    alloc: Global,
    engine: &mut SessionEngine<E>,
    calls: ScriptCalls,
    out: &mut K,
) -> Result<(), LineFault>
    requires goes { E.ready (run_engine engine.old) }
    requires ready { (opening : DatabaseState) × BeginsRun E.held opening engine.old (calls_of calls) }
    ensures done { OnOk result ((opening : DatabaseState) → BeginsRun E.held opening engine.old (calls_of calls)
        → SoFar E.held E.made E.flushed opening (span_limit E.held engine.old) (run_engine engine.old) engine.new (calls_of calls) [] (K.taken out.old) (K.taken out.new)) }
    ensures goes { OnOk result (E.ready (run_engine engine.new)) }
    // Behind some first lines, no other of which was served: the fault says what the last of them came to, and what the sink took.
    ensures stops { IfErr result (λ fault. (opening : DatabaseState) → BeginsRun E.held opening engine.old (calls_of calls)
        → (count : ℕ) × StandsBy E.held E.made E.flushed fault opening (span_limit E.held engine.old) (run_engine engine.old) engine.new
        (take count (calls_of calls)) (drop count (calls_of calls)) (K.taken out.old) (K.taken out.new)) }
    ensures sink { MatchResult result (λ _. K.faults out.new ≡ K.faults out.old) (λ fault. CountsSink fault (K.faults out.old) (K.faults out.new)) }
{
    let mut transcript = Transcript::new(alloc);
    for piece in calls.into_pieces() {
        match run_piece(engine, &mut transcript, &piece, out) {
            Ok(()) => {}
            Err(fault) => return Err(fault),
        }
    }
    Ok(())
}
