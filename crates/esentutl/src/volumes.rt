//! What is done with a volume: a script is run over it, or it is recovered.

ghost use Rattle.std.specs.Prelude.{◌≡◌, ◌≤◌, ℕ, [], List, Option};
ghost use Rattle.std.specs.Io.KnownBytes.{prepend_known};
ghost use Rattle.database_state.specs.State.{DatabaseState};
ghost use Rattle.esentutl.specs.declared.words.Form.TheVariants as form;
ghost use Rattle.esentutl.specs.declared.words.RunOptions.{RunOptions};
ghost use Rattle.esentutl.specs.TopCall.{Ending, EndsBy, status_of, form_of_ending};
ghost use Rattle.esentutl.specs.Volumes.{volume_side};

use crate::ends::{tell, tell_cause, tell_recovered};
use crate::reading::read_script;
use crate::runs::run_script;
use crate::words::{DEFAULT_DEPTH, DEFAULT_SPAN_LIMIT, RunOptions};
use jet_io::{Sink, Source};
use jet_volume::Volume;
use kept_engine::{KeptEngine, a_run_is_kept_line_by_line};
use std::alloc::Global;

/// Opens a volume, reads a script and runs its lines over it. It answers the exit status, and hands the volume back.
pub fn run_over_volume<V: Volume, S: Source, K: Sink>(
    alloc: Global,
    options: RunOptions,
    volume: V,
    script: &mut S,
    out: &mut K,
) -> (u8, V)
    requires { 1 ≤ options.depth }
    ensures ends { (text : List ℕ) × (opening : DatabaseState) × (ending : Ending) × (result.0 ≡ status_of ending)
        × (form.OrderedRun options ≡ form_of_ending options ending)
        × (S.left script.old ≡ prepend_known text (S.left script.new))
        × EndsBy options (record {
          left_before = S.left script.old;
          left_after = S.left script.new;
          source_before = S.faults script.old;
          source_after = S.faults script.new;
          taken_before = K.taken out.old;
          taken_after = K.taken out.new;
          sink_before = K.faults out.old;
          sink_after = K.faults out.new;
          volume_before = V.faults volume;
          volume_after = V.faults result.1;
        }) (volume_side V.tells_contents V.seen V.moment V.left_at volume result.1) opening text ending }
    ensures identity { V.identity result.1 ≡ V.identity volume }
{
    a_run_is_kept_line_by_line::<V>();
    match KeptEngine::open(alloc, options.span_limit, volume, options.depth) {
        Ok(kept) => match read_script(alloc, script) {
            Ok(calls) => run_script(alloc, kept, calls, out),
            Err(fault) => (tell(fault, out), kept.into_volume()),
        },
        Err(fault) => (tell_cause(&fault.cause, out), fault.volume),
    }
}

/// Opens a volume, and tells what it was recovered to. It answers the exit status, and hands the volume back.
pub fn recover_volume<V: Volume, K: Sink>(alloc: Global, volume: V, out: &mut K) -> (u8, V)
    // No script is read.
    ensures ends { (options : RunOptions) (left : Option (List ℕ)) (source : ℕ) → (opening : DatabaseState) × (ending : Ending) × (result.0 ≡ status_of ending)
        × (form.Recovery ≡ form_of_ending options ending)
        × EndsBy options (record {
          left_before = left;
          left_after = left;
          source_before = source;
          source_after = source;
          taken_before = K.taken out.old;
          taken_after = K.taken out.new;
          sink_before = K.faults out.old;
          sink_after = K.faults out.new;
          volume_before = V.faults volume;
          volume_after = V.faults result.1;
        }) (volume_side V.tells_contents V.seen V.moment V.left_at volume result.1) opening [] ending }
    ensures identity { V.identity result.1 ≡ V.identity volume }
{
    match KeptEngine::open(alloc, DEFAULT_SPAN_LIMIT, volume, DEFAULT_DEPTH) {
        Ok(kept) => (
            tell_recovered(kept.engine().engine(), out),
            kept.into_volume(),
        ),
        Err(fault) => (tell_cause(&fault.cause, out), fault.volume),
    }
}
