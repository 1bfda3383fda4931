//! The call that the program is.

ghost use Rattle.std.specs.Prelude.{◌≡◌, ◌≢◌, ◌<◌, ◌≤◌, ◌⊎◌, ℕ, true, List, length, IfSome, IsOk, IsErr};
ghost use Rattle.std.specs.Io.KnownBytes.{append_known, prepend_known};
ghost use Rattle.database_state.specs.State.{DatabaseState};
ghost use Rattle.script_text.specs.Grammar.{script_lines};
ghost use Rattle.soft_recovery.specs.declared.refusals.RecoverCause.{RecoverCause};
ghost use Rattle.engine_image.specs.declared.fault.Finding.{Finding};
ghost use Rattle.soft_recovery.specs.Opening.{IsUntouched};
ghost use Rattle.soft_recovery.specs.Refusals.{Refuses};
ghost use Rattle.soft_recovery.specs.declared.refusals.RecoverCause.TheVariants as cause;
ghost use Rattle.esentutl.specs.declared.words.Inspection.{Inspection};
ghost use Rattle.esentutl.specs.declared.words.Inspection.TheVariants as inspection;
ghost use Rattle.esentutl.specs.declared.words.Form.TheVariants as form;
ghost use Rattle.esentutl.specs.declared.words.RunOptions.{RunOptions};
ghost use Rattle.esentutl.specs.declared.words.Topic.{Topic};
ghost use Rattle.esentutl.specs.Words.{form_of, has_volume, words_of};
ghost use Rattle.esentutl.specs.About.{text_about};
ghost use Rattle.esentutl.specs.Inspections.{is_inspection, status_of_refusal};
ghost use Rattle.esentutl.specs.TopCall.{Ending, EndsBy, status_of, form_of_ending, script_limit};
ghost use Rattle.esentutl.specs.Volumes.{volume_side};

use crate::about::tell_about;
use crate::inspections::inspect_volume;
use crate::report::{make_last_line, say_only};
use crate::volumes::{recover_volume, run_over_volume};
use crate::words::{Form, form_of_words};
use jet_io::{Sink, Source};
use jet_volume::Volume;
use soft_recovery::files_are_refused_for_one_cause;
use std::alloc::Global;

/// Does what the words ask for, and answers the exit status. The first word is the name of the volume, which the caller has opened.
///
/// `VOLUME run ordered` opens the volume, which writes a checkpoint, reads the script, runs its lines in their order over the database
/// there, prints the reply of each before the next runs, and writes a checkpoint at the end. A line that commits, but lazily, is answered
/// once its log is flushed. Behind it `versions N` sets the limit of the version store's span, and then `depth N` the number of bytes of
/// the log behind which a checkpoint follows a flush. `VOLUME /r` opens the volume alone, and prints what it recovered. `VOLUME /mh`,
/// `/mk`, `/ml`, `/ms` and `/g` only look at the volume, and print its header, its checkpoint, its log, its pages, or whether it is
/// consistent. `--help` and `--version` print a text, and read nothing.
///
/// A status other than 0, 6 and 7 is told by a last line; with 8 that is what was found. After 4 the volume is to be opened again, by another call.
pub fn esentutl<V: Volume, S: Source, K: Sink>(
    alloc: Global,
    words: &[String],
    volume: &mut V,
    script: &mut S,
    out: &mut K,
) -> u8
    // What the status says of the script, the source, the sink and the volume, over the text that the source gave, the state that the volume
    // was opened with and, in a run, the options that the words name.
    ensures ends { (text : List ℕ) × (options : RunOptions) × (opening : DatabaseState) × (ending : Ending) × (result ≡ status_of ending)
        × (form_of (words_of words.now) ≡ form_of_ending options ending)
        × (S.left script.old ≡ prepend_known text (S.left script.new))
        × EndsBy options (record {
          left_before = S.left script.old;
          left_after = S.left script.new;
          source_before = S.faults script.old;
          source_after = S.faults script.new;
          taken_before = K.taken out.old;
          taken_after = K.taken out.new;
          sink_before = K.faults out.old;
          sink_after = K.faults out.new;
          volume_before = V.faults volume.old;
          volume_after = V.faults volume.new;
        }) (volume_side V.tells_contents V.seen V.moment V.left_at volume.old volume.new) opening text ending }
    // A script of the grammar that is not too long runs to its end, where nothing outside fails, the volume is not refused, and there is
    // memory.
    ensures completes { (options : RunOptions) → form_of (words_of words.now) ≡ form.OrderedRun options → S.faults script.new ≡ S.faults script.old → K.faults out.new ≡ K.faults out.old
        → V.faults volume.new ≡ V.faults volume.old
        → IfSome (S.left script.old) (λ bytes. length bytes ≤ script_limit → IsOk (script_lines bytes) → (result ≡ 0) ⊎ ((result ≡ 3) ⊎ (result ≡ 7))) }
    // A script that is outside the grammar or too long is refused, where neither the source nor the volume fails, the volume is not refused,
    // and there is memory.
    ensures refuses { (options : RunOptions) → form_of (words_of words.now) ≡ form.OrderedRun options → S.faults script.new ≡ S.faults script.old
        → V.faults volume.new ≡ V.faults volume.old
        → IfSome (S.left script.old) (λ bytes. (script_limit < length bytes) ⊎ IsErr (script_lines bytes) → (result ≡ 2) ⊎ ((result ≡ 3) ⊎ (result ≡ 7))) }
    // A volume is refused just where its files are.
    ensures accepts { V.tells_contents → ((why : RecoverCause) → Refuses (V.seen volume.old) why → ⊥) → result ≢ 3 }
    ensures refuses_volume { V.tells_contents → has_volume (form_of (words_of words.now)) ≡ true → (why : RecoverCause) → Refuses (V.seen volume.old) why → V.faults volume.new ≡ V.faults volume.old
        → (result ≡ status_of_refusal (form_of (words_of words.now)) why) ⊎ (result ≡ 7) }
    // Something is found of an image just where that is asked for, and where it is there.
    ensures finds { result ≡ 8 → (form_of (words_of words.now) ≡ form.Inspection inspection.Integrity) × ((found : Finding) × (V.tells_contents → Refuses (V.seen volume.old) (cause.DatabaseCorrupted found))) }
    // What is asked of a volume is told, where nothing fails, it is not refused, and there is memory. Nothing is written to it in any case.
    ensures inspects { (asked : Inspection) → form_of (words_of words.now) ≡ form.Inspection asked → K.faults out.new ≡ K.faults out.old → V.faults volume.new ≡ V.faults volume.old
        → (result ≡ 0) ⊎ ((result ≡ 3) ⊎ ((result ≡ 7) ⊎ (result ≡ 8))) }
    ensures only_looks { is_inspection (form_of (words_of words.now)) ≡ true → IsUntouched V.seen V.moment V.left_at volume.old volume.new }
    // A volume is recovered, where nothing fails, it is not refused, and there is memory.
    ensures recovers { form_of (words_of words.now) ≡ form.Recovery → K.faults out.new ≡ K.faults out.old → V.faults volume.new ≡ V.faults volume.old
        → (result ≡ 0) ⊎ ((result ≡ 3) ⊎ (result ≡ 7)) }
    // A text that was asked for is written whole, where the sink does not fail, and is all that is done.
    ensures tells { (topic : Topic) → form_of (words_of words.now) ≡ form.About topic → K.faults out.new ≡ K.faults out.old
        → (result ≡ 0) × (K.taken out.new ≡ append_known (K.taken out.old) (text_about topic))
        × (S.left script.new ≡ S.left script.old) × (S.faults script.new ≡ S.faults script.old) × (volume.new ≡ volume.old) }
{
    files_are_refused_for_one_cause();
    run_words(alloc, words, volume, script, out)
}

/// The same, but for what follows from how the call ends.
fn run_words<V: Volume, S: Source, K: Sink>(
    alloc: Global,
    words: &[String],
    volume: &mut V,
    script: &mut S,
    out: &mut K,
) -> u8
    ensures { (text : List ℕ) × (options : RunOptions) × (opening : DatabaseState) × (ending : Ending) × (result ≡ status_of ending)
        × (form_of (words_of words.now) ≡ form_of_ending options ending)
        × (S.left script.old ≡ prepend_known text (S.left script.new))
        × EndsBy options (record {
          left_before = S.left script.old;
          left_after = S.left script.new;
          source_before = S.faults script.old;
          source_after = S.faults script.new;
          taken_before = K.taken out.old;
          taken_after = K.taken out.new;
          sink_before = K.faults out.old;
          sink_after = K.faults out.new;
          volume_before = V.faults volume.old;
          volume_after = V.faults volume.new;
        }) (volume_side V.tells_contents V.seen V.moment V.left_at volume.old volume.new) opening text ending }
{
    match form_of_words(words) {
        Form::OrderedRun(options) => run_over_volume(alloc, options, volume, script, out).0,
        Form::Recovery => recover_volume(alloc, volume, out).0,
        Form::Inspection(asked) => inspect_volume(alloc, asked, volume, out).0,
        Form::About(topic) => tell_about(topic, out),
        Form::Unknown => {
            say_only(out, &make_last_line("words"));
            1
        }
    }
}
