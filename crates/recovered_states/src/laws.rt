//! Laws of what files recover to. The functions do nothing: their contracts are the laws.

ghost use Rattle.std.specs.Prelude.{◌≡◌, ◌≤◌, ◌++◌, ℕ, true, [], List, Option, Some, length};
ghost use Rattle.index_derive.specs.declared.log.Entry.{Entry};
ghost use Rattle.database_state.specs.State.{DatabaseState};
ghost use Rattle.database_state.specs.Step.{state_after_all};
ghost use Rattle.jet_volume.specs.Image.{Image as Files};
ghost use Rattle.laws_engine.specs.EntryTypes.{AreOfTheirTypes};
ghost use Rattle.laws_images.specs.Settled.{AreAlike};
ghost use Rattle.log_grammar.specs.EntryStreams.{stream_bytes, stream_fits};
ghost use Rattle.log_keeper.specs.Keeping.{StandsUpTo, between};
ghost use Rattle.loggable_steps.specs.Replays.{closed};
ghost use Rattle.session_local.specs.BuiltTables.{AllMakeBuilt};
ghost use Rattle.store_core.specs.Stands.{Checkpoint, Stands};
ghost use Rattle.recovered_states.specs.Recovers.{Covers, IsHeld, MayCome, Recovers, RecoversUpTo, ShowsState};

use laws_engine::{
    an_empty_engine_holds_the_empty_state, states_that_one_engine_holds_are_equivalent,
};
use laws_images::alike_states_stay_alike;
use log_ring::scans_once;
use loggable_steps::a_closed_state_is_held_by_its_tables;
use page_image::nodes_of_a_page_are_few;

/// An entry with a spelling makes only what is built, and is as its type has it.
pub fn spelled_entries_make_what_is_built()
    ensures built { (entries : List Entry) → stream_fits entries ≡ true → AllMakeBuilt entries }
    ensures typed { (entries : List Entry) → stream_fits entries ≡ true → AreOfTheirTypes entries }
{}

/// One checkpoint stands on files, or none, and one stream of log bytes behind it.
pub fn one_checkpoint_stands_on_files()
    ensures { (files : Files) (one other : Option Checkpoint) (stream bytes : List ℕ) → Stands one stream files → Stands other bytes files → (other ≡ one) × (bytes ≡ stream) }
{
    nodes_of_a_page_are_few();
    scans_once();
}

/// Files recover to one state: they have one checkpoint and one stream, this is read in one way, and all states that the checkpoint
/// shows are the same once their sessions are given up.
pub fn files_recover_to_one_state()
    ensures { (files : Files) (one other : DatabaseState) → Recovers files one → Recovers files other → one ≡ other }
{
    nodes_of_a_page_are_few();
    scans_once();
    alike_states_stay_alike();
    an_empty_engine_holds_the_empty_state();
    states_that_one_engine_holds_are_equivalent();
}

/// What files recover to has no session, and some engine holds it. Before the first byte of a log that begins with it is given, the files
/// recover to the state after none of its entries.
pub fn what_files_recover_to_is_closed()
    ensures closed { (files : Files) (state : DatabaseState) → Recovers files state → closed state ≡ state }
    ensures held { (files : Files) (state : DatabaseState) → Recovers files state → IsHeld state }
    ensures opening { (files : Files) (opening : DatabaseState) (entries : List Entry) → Recovers files opening → RecoversUpTo opening entries 0 files }
{
    alike_states_stay_alike();
    an_empty_engine_holds_the_empty_state();
    a_closed_state_is_held_by_its_tables();
}

/// Files on which a checkpoint stands, which covers some first entries of a log, with the bytes of the log from there up to a position,
/// recover to the state after the entries up to that position at least.
pub fn a_log_recovers_as_far_as_it_stands()
    ensures at { (opening : DatabaseState) (entries : List Entry) → IsHeld opening → MayCome opening entries → (checkpoint : Option Checkpoint) (base at : ℕ) (files : Files) → Covers opening entries checkpoint base
        → base ≤ at → at ≤ length (stream_bytes entries) → Stands checkpoint (between base at (stream_bytes entries)) files → RecoversUpTo opening entries at files }
    ensures since { (opening : DatabaseState) (entries : List Entry) → IsHeld opening → MayCome opening entries → (checkpoint : Option Checkpoint) (base low high : ℕ) (files : Files) → Covers opening entries checkpoint base
        → base ≤ low → high ≤ length (stream_bytes entries) → StandsUpTo checkpoint base low high (stream_bytes entries) files → RecoversUpTo opening entries low files }
{
    alike_states_stay_alike();
    an_empty_engine_holds_the_empty_state();
}

/// An image of now, which shows the state after all entries or one that is alike, covers them all; and files on which it stands, with no
/// byte behind it, recover to the state after all entries.
pub fn an_image_recovers_to_its_state()
    ensures covers { (opening : DatabaseState) (entries : List Entry) (checkpoint : Checkpoint) (shown : DatabaseState) → ShowsState (Some checkpoint) shown → AreAlike (state_after_all opening entries) shown
        → Covers opening entries (Some checkpoint) (length (stream_bytes entries)) }
    ensures recovers { (opening : DatabaseState) (entries : List Entry) (checkpoint : Checkpoint) (shown : DatabaseState) (at : ℕ) (files : Files) → ShowsState (Some checkpoint) shown
        → closed (state_after_all opening entries) ≡ closed shown → Stands (Some checkpoint) [] files → RecoversUpTo opening entries at files }
{}

/// What reaches a position reaches each one before it; and entries that come later change nothing of what was reached or covered.
pub fn entries_to_come_change_nothing()
    ensures lower { (opening : DatabaseState) (entries : List Entry) (low at : ℕ) (files : Files) → low ≤ at → RecoversUpTo opening entries at files → RecoversUpTo opening entries low files }
    ensures more { (opening : DatabaseState) (entries more : List Entry) (at : ℕ) (files : Files) → at ≤ length (stream_bytes entries) → RecoversUpTo opening entries at files → RecoversUpTo opening (entries ++ more) at files }
    ensures covers { (opening : DatabaseState) (entries more : List Entry) (checkpoint : Option Checkpoint) (base : ℕ) → Covers opening entries checkpoint base → Covers opening (entries ++ more) checkpoint base }
{}
