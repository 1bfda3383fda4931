//! The laws by which a crash leaves what an engine keeps. The functions do nothing: their contracts are the laws.

ghost use Rattle.std.specs.Prelude.{◌≡◌, List, length};
ghost use Rattle.index_derive.specs.declared.log.Entry.{Entry};
ghost use Rattle.database_state.specs.State.{DatabaseState};
ghost use Rattle.jet_volume.specs.Crash.{CrashLeaves};
ghost use Rattle.log_grammar.specs.EntryStreams.{stream_bytes};
ghost use Rattle.recovered_states.specs.Recovers.{RecoversUpTo};
ghost use Rattle.kept_engine.specs.declared.kept.KeptEngine.{KeptEngine};
ghost use Rattle.kept_engine.specs.KeptLaws.{KeptLaws};
ghost use Rattle.kept_engine.specs.Keeping.{kept_end, kept_given, kept_volume, Keeps};

use jet_volume::Volume;
use laws_images::{alike_states_stay_alike, lawful_entries_keep_states_sound};
use loggable_steps::a_log_goes_on_with_its_engine;
use recovered_states::{
    a_log_recovers_as_far_as_it_stands, an_image_recovers_to_its_state,
    entries_to_come_change_nothing, what_files_recover_to_is_closed,
};
use store_core::opened_stores_stand;

/// A crash now leaves what recovers to the state after some first entries that were made, at least those whose bytes were given. Where
/// all bytes of the log were given, these are all.
pub fn what_is_kept_stands<V: Volume>()
    ensures now { (opening : DatabaseState) (entries : List Entry) (kept : KeptEngine V) → Keeps V.seen V.moment V.left_at opening entries kept
        → CrashLeaves V.moment V.left_at (kept_volume kept) (RecoversUpTo opening entries (kept_given kept)) }
    ensures all { (opening : DatabaseState) (entries : List Entry) (kept : KeptEngine V) → Keeps V.seen V.moment V.left_at opening entries kept
        → kept_given kept ≡ kept_end kept → kept_given kept ≡ length (stream_bytes entries) }
{
    what_is_kept_survives::<V>();
}

/// What stands of a log on a store recovers to the state after its entries, and an image to the state that it shows: the laws of the
/// crates below, together.
pub(crate) fn what_is_kept_survives<V: Volume>()
    ensures { KeptLaws V.seen V.moment V.left_at }
{
    opened_stores_stand::<V>();
    a_log_recovers_as_far_as_it_stands();
    entries_to_come_change_nothing();
    what_files_recover_to_is_closed();
    an_image_recovers_to_its_state();
    alike_states_stay_alike();
    lawful_entries_keep_states_sound();
    a_log_goes_on_with_its_engine();
}
