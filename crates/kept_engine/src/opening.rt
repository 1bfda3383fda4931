//! An engine is opened on a volume.

ghost use Rattle.std.specs.Prelude.{◌≡◌, ◌≤◌, ◌⊎◌, ℕ, true, List, [], Option, IfErr, IfOk};
ghost use Rattle.database_state.specs.State.{DatabaseState};
ghost use Rattle.jet_volume.specs.Crash.{IsSettled, LeavesOnly};
ghost use Rattle.laws_engine.specs.EngineState.{HasRoomForEnds};
ghost use Rattle.laws_engine.specs.HoldsState.{HoldsState};
ghost use Rattle.laws_images.specs.SoundStates.{IsSoundState};
ghost use Rattle.store_core.specs.Stands.{Checkpoint, Stands};
ghost use Rattle.store_core.specs.Store.{may_be_opened, store_volume};
ghost use Rattle.recovered_states.specs.Recovers.{Recovers, RecoversFrom, RecoversUpTo};
ghost use Rattle.soft_recovery.specs.Opening.{HasOpeningBounds, IsUntouched};
ghost use Rattle.soft_recovery.specs.Refusals.{IsFromOutside, Refuses};
ghost use Rattle.soft_recovery.specs.declared.refusals.RecoverCause.{RecoverCause};

use crate::kept::KeptEngine;
use crate::laws::what_is_kept_survives;
use engine_core::LoggedEngine;
use jet_base::OutOfMemory;
use jet_volume::Volume;
use log_keeper::Block;
use ordered_run::After;
use recovered_states::files_recover_to_one_state;
use soft_recovery::{RecoverCause, Recovered, recover};
use std::alloc::Global;

/// A volume on which no engine was opened, and why.
#[derive(Drop)]
pub struct OpenFault<V> {
    /// The volume. After a refusal its files are those that it was handed in with; after a fault of it or want of memory they recover to
    /// what they recovered to.
    pub volume: V,
    /// The refusal that came first. A checkpoint that is not written comes of a fault of the volume, or of want of memory.
    pub cause: RecoverCause,
}

impl<V: Volume> KeptEngine<V> {
    ghost use Rattle.kept_engine.specs.Keeping.{kept_logged, kept_span, IsReady, Keeps};
    ghost use Rattle.kept_engine.specs.Spans.{span_of, with_checkpoint};
    ghost use Rattle.kept_engine.specs.Opening.{opened_volume, CountsOpeningFault, HoldsWhatStands, IsAtOpening, IsOpenedOn, IsOpeningRefusedFor};

    /// Opens a volume: recovers what it holds, as [`recover`] does, and writes the opening's image as the next checkpoint, with no byte of
    /// a log behind it. The engine holds what the volume recovers to, has no session, and is ready for steps.
    ///
    /// The limit is that of the version store's span, in bytes. The depth is in bytes, too: a checkpoint follows each flush after which so
    /// many bytes of the log or more stand behind the last one. A new volume gets its first checkpoint.
    ///
    /// The refusals come in the order of [`RecoverCause`], each before the first write. A fault of the volume and want of memory may come in
    /// the place of each answer, also once the log was made ready for the image. What a crash leaves at any moment recovers to what the
    /// volume recovered to.
    #[tactic(none)]
    pub fn open(
        alloc: Global,
        limit: u64,
        volume: V,
        depth: u64,
    ) -> Result<KeptEngine<V>, OpenFault<V>>
        requires deep { 1 ≤ depth }
        ensures opened { IfOk result (IsOpenedOn V.tells_contents V.seen V.moment V.left_at volume) }
        ensures begun { IfOk result (IsAtOpening limit depth) }
        ensures ready { IfOk result IsReady }
        // Each refusal comes where its check is the first to fail, and only there.
        ensures refused { IfErr result (λ fault. V.tells_contents → Refuses (V.seen volume) fault.cause ⊎ IsFromOutside fault.cause) }
        ensures exact { V.tells_contents → (cause : RecoverCause) → Refuses (V.seen volume) cause → IsOpeningRefusedFor cause result }
        ensures sure { V.tells_contents → (checkpoint : Option Checkpoint) (stream : List ℕ) (state : DatabaseState) → Stands checkpoint stream (V.seen volume) → may_be_opened checkpoint ≡ true
            → RecoversFrom checkpoint stream state → IfErr result (λ fault. IsFromOutside fault.cause) }
        // A volume that is refused is as it was, also where a fault or want of memory comes in the place of the refusal.
        ensures back { IfErr result (λ fault. (IsFromOutside fault.cause → ⊥) → IsUntouched V.seen V.moment V.left_at volume fault.volume) }
        ensures still { V.tells_contents → (cause : RecoverCause) → Refuses (V.seen volume) cause → IsUntouched V.seen V.moment V.left_at volume (opened_volume result) }
        ensures recovers { V.tells_contents → IsSettled V.moment V.left_at V.seen volume → (state : DatabaseState) → Recovers (V.seen volume) state
            → LeavesOnly V.moment V.left_at volume (opened_volume result) (λ files. Recovers files state) }
        ensures faults { CountsOpeningFault V.faults volume result }
        ensures identity { V.identity (opened_volume result) ≡ V.identity volume }
    {
        what_is_kept_survives::<V>();
        files_recover_to_one_state();
        match Block::new(alloc) {
            // The store is sealed once, where the engine begins.
            Ok(block) => match recover(alloc, limit, volume, false) {
                Ok(recovered) => KeptEngine::begun(alloc, recovered, block, depth),
                Err(fault) => Err(OpenFault {
                    volume: fault.volume,
                    cause: fault.cause,
                }),
            },
            Err(OutOfMemory) => Err(OpenFault {
                volume,
                cause: RecoverCause::OutOfMemory,
            }),
        }
    }

    /// Begins with the engine that was recovered, over the store that was opened for it.
    #[tactic(none)]
    fn begun(
        alloc: Global,
        recovered: Recovered<V>,
        block: Block,
        depth: u64,
    ) -> Result<KeptEngine<V>, OpenFault<V>>
        requires deep { 1 ≤ depth }
        requires holds { (state : DatabaseState) × HoldsState recovered.engine state × IsSoundState state }
        requires sessions { recovered.engine.sessions ≡ [] }
        requires room { HasRoomForEnds recovered.engine }
        requires bounds { HasOpeningBounds recovered.store }
        ensures begun { IfOk result (IsAtOpening recovered.engine.limit depth) }
        ensures ready { IfOk result IsReady }
        ensures engine { IfOk result (λ kept. (kept_logged kept).engine ≡ recovered.engine) }
        ensures span { IfOk result (λ kept. kept_span kept ≡ with_checkpoint (span_of recovered.store)) }
        ensures keeps { IfOk result (λ kept. V.tells_contents → (opening : DatabaseState) → HoldsWhatStands V.seen V.moment V.left_at recovered opening
            → Keeps V.seen V.moment V.left_at opening [] kept) }
        ensures any_moment { V.tells_contents → (opening : DatabaseState) → HoldsWhatStands V.seen V.moment V.left_at recovered opening
            → LeavesOnly V.moment V.left_at (store_volume recovered.store) (opened_volume result) (RecoversUpTo opening [] 0) }
        ensures outside { IfErr result (λ fault. IsFromOutside fault.cause) }
        ensures faults { CountsOpeningFault V.faults (store_volume recovered.store) result }
        ensures identity { V.identity (opened_volume result) ≡ V.identity (store_volume recovered.store) }
    {
        let engine = LoggedEngine::new(alloc, recovered.engine);
        let mut kept = KeptEngine::new(engine, recovered.store, block, depth);
        match kept.begin() {
            After::Goes => Ok(kept),
            After::Fault => Err(OpenFault {
                volume: kept.into_volume(),
                cause: RecoverCause::VolumeFault,
            }),
            After::Memory => Err(OpenFault {
                volume: kept.into_volume(),
                cause: RecoverCause::OutOfMemory,
            }),
        }
    }
}
