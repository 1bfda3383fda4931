//! An engine with the store that keeps its log.

ghost use Rattle.std.specs.Prelude.{◌≡◌, ◌≢◌, ◌≤◌, ◌<◌, ◌+◌, ◌-◌, ◌^◌, ◌++◌, ℕ, true, false, List, Option, None, Some, OnErr, OnOk};
ghost use Rattle.index_derive.specs.declared.log.Entry.{Entry};
ghost use Rattle.index_derive.specs.Steps.{entries_of_step};
ghost use Rattle.database_state.specs.State.{DatabaseState};
ghost use Rattle.jet_volume.specs.Crash.{LeavesOnly};
ghost use Rattle.log_grammar.specs.EntryStreams.{stream_bytes};
ghost use Rattle.entry_log.specs.LogState.{appended, empty_stream};
ghost use Rattle.laws_engine.specs.EngineState.{HasRoomForEnds, engine_of};
ghost use Rattle.laws_engine.specs.EngineSteps.{engine_after_step, step_cleans};
ghost use Rattle.laws_engine.specs.HoldsState.{HoldsState};
ghost use Rattle.laws_images.specs.SoundStates.{IsSoundState};
ghost use Rattle.engine_core.specs.Steps.{MayTake};
ghost use Rattle.loggable_steps.specs.Loggable.{is_label, made_by};
ghost use Rattle.loggable_steps.specs.Replays.{closed};
ghost use Rattle.engine_core.specs.LoggedState.{MayBeCleaned, logged_step_may_lack_memory};
ghost use Rattle.store_core.specs.Stands.{Checkpoint};
ghost use Rattle.store_core.specs.Store.{store_down, IsOpened, IsWritable};
ghost use Rattle.recovered_states.specs.Recovers.{RecoversFrom, RecoversUpTo};
ghost use Rattle.kept_engine.specs.Spans.{is_due, with_checkpoint, with_due};

use crate::laws::what_is_kept_survives;
use engine_core::LoggedEngine;
use image_writing::image;
use index_derive::Step;
use jet_base::OutOfMemory;
use jet_volume::Volume;
use laws_engine::{a_clean_leaves_the_state, ends_always_find_room};
use laws_images::{alike_states_stay_alike, lawful_entries_keep_states_sound};
use log_keeper::{Block, LogKeeper};
use loggable_steps::a_log_goes_on_with_its_engine;
use ordered_run::{After, Flush, Flushed};
use recovered_states::entries_to_come_change_nothing;
use store_core::{Store, StoreFault};

/// An engine, and the store that keeps its log.
///
/// It is opened on a volume, and then makes steps and flushes, up to the first [`After`] that is not `Goes`; from then on nothing is
/// kept any more. It is closed in the end.
#[derive(Drop)]
pub struct KeptEngine<V> {
    engine: LoggedEngine,
    keeper: LogKeeper<V>,
    /// Where as many bytes of the log as this stand behind a checkpoint after a flush, another one follows.
    depth: u64,
    ghost deep: { 1 ≤ depth },
}

impl<V: Volume> KeptEngine<V> {
    ghost use Rattle.kept_engine.specs.Keeping.{kept_logged, kept_keeper, kept_store, kept_volume, kept_given, kept_end, kept_depth, kept_span, HoldsSound, IsFresh, IsReady, Keeps, PutsImage, KeepsOn, Begins, Ends};
    ghost use Rattle.kept_engine.specs.Told.{FlushesTo, TellsImage, TellsFlush};

    /// An engine whose log begins, over a store that was given no byte of it.
    ///
    /// The depth is in bytes: a checkpoint follows each flush after which so many bytes of the log or more stand behind the last
    /// one.
    pub(crate) fn new(
        engine: LoggedEngine,
        store: Store<V>,
        block: Block,
        depth: u64,
    ) -> KeptEngine<V>
        requires deep { 1 ≤ depth }
        ensures logged { kept_logged result ≡ engine }
        ensures store { kept_store result ≡ store }
        ensures given { kept_given result ≡ 0 }
        ensures depth { kept_depth result ≡ depth }
    {
        KeptEngine {
            engine,
            keeper: LogKeeper::new(store, 0, block),
            depth,
        }
    }

    /// The engine.
    pub fn engine(&self) -> &LoggedEngine
        ensures { result.now ≡ kept_logged self.now }
    {
        &self.engine
    }

    /// The volume.
    pub fn into_volume(self) -> V
        ensures { result ≡ kept_volume self }
    {
        self.keeper.into_volume()
    }

    /// Makes the log of an opened volume ready, and writes the opening's image: what a crash left behind the checkpoint before is
    /// gone then, a cut entry with it. A crash at any moment leaves what recovers to the opening state.
    pub(crate) fn begin(&mut self) -> After
        requires { IsFresh self.old }
        ensures begins { V.tells_contents → (opening : DatabaseState) → HoldsState (kept_logged self.old).engine opening → IsSoundState opening
            → (checkpoint : Option Checkpoint) (stream : List ℕ) → RecoversFrom checkpoint stream opening
            → IsOpened V.seen V.moment V.left_at (kept_store self.old) checkpoint stream
            → Begins V.seen V.moment V.left_at opening self.old self.new result }
        ensures ready { result ≡ After.Goes → IsReady self.new }
        ensures engine { kept_logged self.new ≡ kept_logged self.old }
        ensures told { TellsImage V.faults V.identity 0 self.old self.new result }
    {
        what_is_kept_survives::<V>();
        match self.keeper.seal() {
            Ok(()) => self.write_image(0),
            Err(_) => After::Fault,
        }
    }

    /// Makes a step, as [`LoggedEngine::apply`] does. Nothing is written to the volume: the bytes of its entries are kept by the next
    /// flush.
    pub fn apply(&mut self, step: &Step) -> Result<(), OutOfMemory>
        requires ready { IsReady self.old }
        requires lawful { MayTake (kept_logged self.old).engine step.now }
        requires label { is_label (made_by step.now).session.0 ≡ true }
        ensures keeps { (opening : DatabaseState) (entries : List Entry) → Keeps V.seen V.moment V.left_at opening entries self.old
            → OnOk result (Keeps V.seen V.moment V.left_at opening (entries ++ entries_of_step (Some step.now)) self.new) }
        ensures still { (opening : DatabaseState) (entries : List Entry) → Keeps V.seen V.moment V.left_at opening entries self.old
            → OnErr result (Keeps V.seen V.moment V.left_at opening entries self.new) }
        ensures ready { IsReady self.new }
        ensures engine { OnOk result ((kept_logged self.new).engine ≡ engine_after_step (kept_logged self.old).engine step.now) }
        ensures stream { OnOk result ((kept_logged self.new).stream ≡ appended (stream_bytes (entries_of_step (Some step.now))) (kept_logged self.old).stream) }
        ensures cleaned { OnErr result (MayBeCleaned (kept_logged self.old).engine (kept_logged self.new).engine) }
        ensures same { OnErr result (step_cleans step.now ≡ false → (kept_logged self.new).engine ≡ (kept_logged self.old).engine) }
        ensures kept { OnErr result ((kept_logged self.new).stream ≡ (kept_logged self.old).stream) }
        ensures memory { OnErr result (logged_step_may_lack_memory step.now ≡ true) }
        ensures keeper { kept_keeper self.new ≡ kept_keeper self.old }
        ensures depth { kept_depth self.new ≡ kept_depth self.old }
    {
        a_log_goes_on_with_its_engine();
        entries_to_come_change_nothing();
        lawful_entries_keep_states_sound();
        a_clean_leaves_the_state();
        ends_always_find_room();
        match self.engine.apply(step) {
            Ok(()) => Ok(()),
            Err(fault) => Err(fault),
        }
    }

    /// Flushes all bytes of the log that were not flushed yet, those of lazy commits among them, and gives them up in memory. At
    /// `Kept` every crash leaves them. Where the volume has no room for them an image takes their place, and where the log behind the
    /// last checkpoint has grown to the depth an image follows.
    pub fn keep(&mut self) -> Flushed
        requires { IsReady self.old }
        ensures keeps { V.tells_contents → (opening : DatabaseState) (entries : List Entry) → Keeps V.seen V.moment V.left_at opening entries self.old
            → KeepsOn V.seen V.moment V.left_at opening entries self.old self.new result }
        ensures ready { result.after ≡ After.Goes → IsReady self.new }
        ensures told { TellsFlush V.faults V.identity self.old self.new result }
    {
        what_is_kept_survives::<V>();
        // its bound: the store's positions stay in their range
        let _end = self.engine.stream_end();
        match self.keeper.give_all(self.engine.log()) {
            Ok(()) => self.follow_flush(),
            Err(StoreFault::NoRoom) => self.replace_flush(),
            Err(StoreFault::VolumeFault) => flush_failed(),
            Err(StoreFault::Down(_)) => flush_failed(),
        }
    }

    /// All bytes were given. The log in memory gives them up, and an image follows where the log on the volume has grown deep.
    fn follow_flush(&mut self) -> Flushed
        requires ready { IsReady self.old }
        requires all { kept_given self.old ≡ kept_end self.old }
        ensures keeps { V.tells_contents → (opening : DatabaseState) (entries : List Entry) → Keeps V.seen V.moment V.left_at opening entries self.old
            → KeepsOn V.seen V.moment V.left_at opening entries self.old self.new result }
        ensures ready { result.after ≡ After.Goes → IsReady self.new }
        ensures told { FlushesTo V.faults V.identity (is_due (kept_depth self.old) (kept_span self.old) 0) (with_due (kept_depth self.old) (kept_span self.old) 0) self.old self.new result }
    {
        what_is_kept_survives::<V>();
        self.engine.trim(self.keeper.given());
        let after = if self.keeper.store().behind() >= self.depth {
            self.put_image()
        } else {
            After::Goes
        };
        Flushed {
            flush: Flush::Kept,
            after,
        }
    }

    /// The volume has no room for the bytes that were not given: an image takes their place, and the log in memory gives them up.
    fn replace_flush(&mut self) -> Flushed
        requires ready { IsReady self.old }
        requires some { kept_given self.old < kept_end self.old }
        ensures keeps { V.tells_contents → (opening : DatabaseState) (entries : List Entry) → Keeps V.seen V.moment V.left_at opening entries self.old
            → KeepsOn V.seen V.moment V.left_at opening entries self.old self.new result }
        ensures ready { result.after ≡ After.Goes → IsReady self.new }
        ensures told { FlushesTo V.faults V.identity true (with_checkpoint (kept_span self.old)) self.old self.new result }
    {
        what_is_kept_survives::<V>();
        match self.put_image() {
            After::Goes => {
                self.engine.trim(self.keeper.given());
                Flushed {
                    flush: Flush::Kept,
                    after: After::Goes,
                }
            }
            After::Fault => flush_failed(),
            After::Memory => Flushed {
                flush: Flush::NoRoom,
                after: After::Memory,
            },
        }
    }

    /// Writes an image of the engine as the next checkpoint, in the place of all bytes of its log so far.
    fn put_image(&mut self) -> After
        requires ready { IsReady self.old }
        requires number { (kept_span self.old).number < 2 ^ 62 + kept_end self.old }
        ensures any_moment { V.tells_contents → (opening : DatabaseState) (entries : List Entry) → Keeps V.seen V.moment V.left_at opening entries self.old
            → LeavesOnly V.moment V.left_at (kept_volume self.old) (kept_volume self.new) (RecoversUpTo opening entries (kept_given self.old)) }
        ensures keeps { result ≡ After.Goes → V.tells_contents → (opening : DatabaseState) (entries : List Entry) → Keeps V.seen V.moment V.left_at opening entries self.old
            → Keeps V.seen V.moment V.left_at opening entries self.new }
        ensures ready { result ≡ After.Goes → IsReady self.new }
        ensures engine { kept_logged self.new ≡ kept_logged self.old }
        ensures told { TellsImage V.faults V.identity (kept_end self.old) self.old self.new result }
    {
        what_is_kept_survives::<V>();
        let to = self.engine.stream_end();
        self.write_image(to)
    }

    /// Writes an image of the engine as the next checkpoint, in the place of the bytes of its log up to a position.
    fn write_image(&mut self, to: u64) -> After
        requires holds { HoldsSound self.old }
        requires room { HasRoomForEnds (kept_logged self.old).engine }
        requires up { store_down (kept_store self.old) ≡ None }
        requires number { (kept_span self.old).number < 2 ^ 63 }
        ensures puts { result ≢ After.Memory → V.tells_contents → (state : DatabaseState) → HoldsState (kept_logged self.old).engine state → IsSoundState state → (checkpoint : Option Checkpoint) (stream : List ℕ)
            → IsWritable V.seen V.moment V.left_at (kept_store self.old) checkpoint stream
            → PutsImage V.seen V.moment V.left_at state self.old self.new checkpoint stream result }
        ensures memory { result ≡ After.Memory → self.new ≡ self.old }
        ensures engine { kept_logged self.new ≡ kept_logged self.old }
        ensures told { TellsImage V.faults V.identity to self.old self.new result }
    {
        alike_states_stay_alike();
        let engine = self.engine.engine();
        match image(engine.alloc, engine) {
            Ok(mut image) => match self.keeper.put_image(&mut image, to) {
                Ok(()) => After::Goes,
                Err(_) => After::Fault,
            },
            Err(OutOfMemory) => After::Memory,
        }
    }

    /// Gives up all sessions, as [`LoggedEngine::close`] does, and writes the closing image. Behind `Goes` every crash leaves what
    /// recovers to the state after all entries. It is of no use after the call but for its volume.
    pub fn finish(&mut self) -> After
        requires { IsReady self.old }
        ensures ends { V.tells_contents → (opening : DatabaseState) (entries : List Entry) → Keeps V.seen V.moment V.left_at opening entries self.old
            → Ends V.seen V.moment V.left_at opening entries self.old self.new result }
        ensures engine { (state : DatabaseState) → HoldsState (kept_logged self.old).engine state
            → (kept_logged self.new).engine ≡ engine_of (kept_logged self.old).engine.limit (kept_logged self.old).engine.newest_put (closed state) }
        ensures stream { (kept_logged self.new).stream ≡ empty_stream }
        ensures told { TellsImage V.faults V.identity 0 self.old self.new result }
    {
        what_is_kept_survives::<V>();
        // The bytes of the log bound the numbers of the store.
        let _ = self.engine.stream_end();
        self.engine.close();
        self.write_image(0)
    }
}

/// A flush that met a fault.
fn flush_failed() -> Flushed
    ensures flush { result.flush ≡ Flush.Failed }
    ensures after { result.after ≡ After.Fault }
{
    Flushed {
        flush: Flush::Failed,
        after: After::Fault,
    }
}
