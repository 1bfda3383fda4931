//! The run of a script's calls over a volume that was opened.

ghost use Rattle.std.specs.Prelude.{◌≡◌, [], true};
ghost use Rattle.laws_engine.specs.HoldsState.{HoldsState};
ghost use Rattle.script_text.specs.Built.{are_built};
ghost use Rattle.script_text.specs.Parsed.{calls_of};
ghost use Rattle.ordered_run.specs.Outcomes.{BeginsRun};
ghost use Rattle.ordered_run.specs.Serving.{run_engine};
ghost use Rattle.kept_engine.specs.Keeping.{kept_logged, kept_volume, IsReady};
ghost use Rattle.kept_engine.specs.Opening.{opening_of};
ghost use Rattle.esentutl.specs.RunEnds.{IsClosed, RunEndsBy, SaysClosing, status_of_closing};
ghost use Rattle.esentutl.specs.TopCall.{Ending, status_of};
ghost use Rattle.ordered_run.specs.declared.flushed.After.{After};

use crate::ends::{tell_closing, tell_stop};
use jet_io::Sink;
use jet_volume::Volume;
use kept_engine::{KeptEngine, a_run_is_kept_line_by_line, a_run_of_lines_is_kept};
use ordered_run::{SessionEngine, run_lines};
use script_text::ScriptCalls;
use std::alloc::Global;

/// Runs the calls of a script over an engine that was opened, and closes it. It answers the exit status, and hands the volume back.
pub fn run_script<V: Volume, K: Sink>(
    alloc: Global,
    kept: KeptEngine<V>,
    calls: ScriptCalls,
    out: &mut K,
) -> (u8, V)
    requires ready { IsReady kept }
    requires holds { HoldsState (kept_logged kept).engine (opening_of kept) }
    requires sessions { (kept_logged kept).engine.sessions ≡ [] }
    requires built { are_built (calls_of calls) ≡ true }
    ensures ends { (ending : Ending) × (result.0 ≡ status_of ending)
        × RunEndsBy V.tells_contents V.seen V.moment V.left_at V.faults V.identity (kept_logged kept).engine.limit (calls_of calls) kept result.1 (K.taken out.old) (K.taken out.new) (K.faults out.old) (K.faults out.new) ending }
    ensures identity { V.identity result.1 ≡ V.identity (kept_volume kept) }
{
    match SessionEngine::over(alloc, kept) {
        Ok(engine) => run_over(alloc, engine, calls, out),
        Err(kept) => (7, kept.into_volume()),
    }
}

/// The same over an engine with its sessions, which is ready for the calls.
fn run_over<V: Volume, K: Sink>(
    alloc: Global,
    mut engine: SessionEngine<KeptEngine<V>>,
    calls: ScriptCalls,
    out: &mut K,
) -> (u8, V)
    requires ready { IsReady (run_engine engine) }
    requires begins { BeginsRun (λ kept. (kept_logged kept).engine) (opening_of (run_engine engine)) engine (calls_of calls) }
    ensures ends { (ending : Ending) × (result.0 ≡ status_of ending)
        × RunEndsBy V.tells_contents V.seen V.moment V.left_at V.faults V.identity (kept_logged (run_engine engine)).engine.limit (calls_of calls) (run_engine engine) result.1 (K.taken out.old) (K.taken out.new) (K.faults out.old) (K.faults out.new) ending }
    ensures identity { V.identity result.1 ≡ V.identity (kept_volume (run_engine engine)) }
{
    a_run_is_kept_line_by_line::<V>();
    a_run_of_lines_is_kept::<V>();
    match run_lines(alloc, &mut engine, calls, out) {
        Ok(()) => close(engine.into_engine(), out),
        Err(fault) => (tell_stop(fault, out), engine.into_engine().into_volume()),
    }
}

/// Closes an engine behind its last line.
fn close<V: Volume, K: Sink>(mut kept: KeptEngine<V>, out: &mut K) -> (u8, V)
    requires { IsReady kept }
    ensures { (closing : After) × (result.0 ≡ status_of_closing closing) × SaysClosing (K.taken out.old) (K.taken out.new) (K.faults out.old) (K.faults out.new) closing
        × IsClosed V.tells_contents V.seen V.moment V.left_at V.faults V.identity kept result.1 closing }
{
    let closing = kept.finish();
    (tell_closing(closing, out), kept.into_volume())
}
