//! A volume is opened and recovered.

ghost use Rattle.std.specs.Prelude.{◌≡◌, ◌≢◌, ◌⊎◌, ℕ, [], Bool, false, true, List, Option, IfErr, IfOk};
ghost use Rattle.database_state.specs.State.{DatabaseState};
ghost use Rattle.jet_volume.specs.Crash.{IsSettled, LeavesOnly};
ghost use Rattle.laws_engine.specs.EngineState.{HasRoomForEnds};
ghost use Rattle.recovered_states.specs.Recovers.{Recovers, RecoversFrom};
ghost use Rattle.soft_recovery.specs.Opening.{CountsRecoverFault, HasOpeningBounds, IsRecovered, IsRefusedFor, IsUntouched, volume_of};
ghost use Rattle.soft_recovery.specs.Refusals.{IsFromOutside, Refuses};
ghost use Rattle.soft_recovery.specs.declared.refusals.RecoverCause.{RecoverCause};
ghost use Rattle.store_core.specs.Stands.{Checkpoint, Stands};
ghost use Rattle.store_core.specs.Store.{IsOpened, IsWritable, may_be_opened, store_standing, store_volume};

use crate::inspecting::inspect;
use crate::refusals::{RecoverCause, RecoverFault, files_are_refused_for_one_cause};
use engine_core::Engine;
use jet_volume::Volume;
use std::alloc::Global;
use store_core::{Store, opened_stores_stand};

/// What a volume recovers to, and the volume with it.
#[derive(Drop)]
pub struct Recovered<V> {
    /// An engine without a session, which holds what the volume recovers to.
    pub engine: Engine,
    /// The store over the volume: it stands where the engine does, up to the end of the log.
    pub store: Store<V>,
}

/// Opens a volume and recovers what it holds: its standing checkpoint with the whole entries of the log behind it, all transactions undone
/// and all sessions given up. The limit is that of the version store's span, in bytes.
///
/// Where `write` is false nothing is written. Where it is true the store is sealed once nothing is left to refuse, so that its log can be
/// appended to. An entry that was cut at the end of the log is dropped, but its bytes still stand there: a checkpoint has to be written
/// before the next bytes are flushed.
///
/// The refusals come in the order of [`RecoverCause`], and each hands the volume back. A fault of the volume and want of memory may come in
/// the place of each answer. Memory is taken for the pages of the database twice, and for the log, which has less than 8 MiB.
#[tactic(none)]
pub fn recover<V: Volume>(
    alloc: Global,
    limit: u64,
    volume: V,
    write: bool,
) -> Result<Recovered<V>, RecoverFault<V>>
    ensures recovered { IfOk result (IsRecovered V.tells_contents V.seen V.moment V.left_at write volume) }
    ensures limit { IfOk result (λ recovered. recovered.engine.limit ≡ limit) }
    ensures sessions { IfOk result (λ recovered. recovered.engine.sessions ≡ []) }
    ensures room { IfOk result (λ recovered. HasRoomForEnds recovered.engine) }
    ensures bounds { IfOk result (λ recovered. HasOpeningBounds recovered.store) }
    // Each refusal comes where its check is the first to fail, and only there.
    ensures refused { IfErr result (λ fault. V.tells_contents → Refuses (V.seen volume) fault.cause ⊎ IsFromOutside fault.cause) }
    ensures exact { V.tells_contents → (cause : RecoverCause) → Refuses (V.seen volume) cause → IsRefusedFor cause result }
    ensures sure { V.tells_contents → (checkpoint : Option Checkpoint) (stream : List ℕ) (state : DatabaseState) → Stands checkpoint stream (V.seen volume) → may_be_opened checkpoint ≡ true
        → RecoversFrom checkpoint stream state → IfErr result (λ fault. IsFromOutside fault.cause) }
    // What a crash leaves.
    ensures looks { write ≡ false → IsUntouched V.seen V.moment V.left_at volume (volume_of result) }
    ensures back { IfErr result (λ fault. fault.cause ≢ RecoverCause.VolumeFault → IsUntouched V.seen V.moment V.left_at volume fault.volume) }
    // A volume that is refused is as it was, also where a fault or want of memory comes in the refusal's place.
    ensures still { V.tells_contents → (cause : RecoverCause) → Refuses (V.seen volume) cause → IsUntouched V.seen V.moment V.left_at volume (volume_of result) }
    ensures any_moment { V.tells_contents → IsSettled V.moment V.left_at V.seen volume → (checkpoint : Option Checkpoint) (stream : List ℕ) → Stands checkpoint stream (V.seen volume)
        → LeavesOnly V.moment V.left_at volume (volume_of result) (Stands checkpoint stream) }
    ensures recovers { V.tells_contents → IsSettled V.moment V.left_at V.seen volume → (state : DatabaseState) → Recovers (V.seen volume) state
        → LeavesOnly V.moment V.left_at volume (volume_of result) (λ files. Recovers files state) }
    ensures faults { CountsRecoverFault V.faults volume result }
    ensures identity { V.identity (volume_of result) ≡ V.identity volume }
{
    files_are_refused_for_one_cause();
    opened_stores_stand::<V>();
    match opened(alloc, limit, volume) {
        Ok(recovered) => {
            if write {
                sealed(recovered)
            } else {
                Ok(recovered)
            }
        }
        Err(fault) => Err(fault),
    }
}

/// Opens a volume and recovers what it holds. It writes nothing.
#[tactic(none)]
fn opened<V: Volume>(alloc: Global, limit: u64, volume: V) -> Result<Recovered<V>, RecoverFault<V>>
    ensures recovered { IfOk result (IsRecovered V.tells_contents V.seen V.moment V.left_at false volume) }
    ensures limit { IfOk result (λ recovered. recovered.engine.limit ≡ limit) }
    ensures sessions { IfOk result (λ recovered. recovered.engine.sessions ≡ []) }
    ensures room { IfOk result (λ recovered. HasRoomForEnds recovered.engine) }
    ensures bounds { IfOk result (λ recovered. HasOpeningBounds recovered.store) }
    ensures refused { IfErr result (λ fault. V.tells_contents → Refuses (V.seen volume) fault.cause ⊎ IsFromOutside fault.cause) }
    ensures looks { IsUntouched V.seen V.moment V.left_at volume (volume_of result) }
    ensures faults { CountsRecoverFault V.faults volume result }
    ensures identity { V.identity (volume_of result) ≡ V.identity volume }
{
    match inspect(alloc, limit, volume) {
        Ok(inspected) => Ok(Recovered {
            engine: inspected.database.engine,
            store: inspected.store,
        }),
        Err(fault) => Err(fault),
    }
}

/// Seals the store of a volume that was opened. It is the first write.
#[tactic(none)]
fn sealed<V: Volume>(mut recovered: Recovered<V>) -> Result<Recovered<V>, RecoverFault<V>>
    requires { HasOpeningBounds recovered.store }
    ensures engine { IfOk result (λ new. new.engine ≡ recovered.engine) }
    ensures bounds { IfOk result (λ new. HasOpeningBounds new.store) }
    ensures standing { IfOk result (λ new. store_standing new.store ≡ store_standing recovered.store) }
    ensures sealed { IfOk result (λ new. V.tells_contents → (checkpoint : Option Checkpoint) (stream : List ℕ) → IsOpened V.seen V.moment V.left_at recovered.store checkpoint stream
        → IsWritable V.seen V.moment V.left_at new.store checkpoint stream) }
    ensures any_moment { V.tells_contents → (checkpoint : Option Checkpoint) (stream : List ℕ) → IsOpened V.seen V.moment V.left_at recovered.store checkpoint stream
        → LeavesOnly V.moment V.left_at (store_volume recovered.store) (volume_of result) (Stands checkpoint stream) }
    ensures cause { IfErr result (λ fault. fault.cause ≡ RecoverCause.VolumeFault) }
    ensures faults { CountsRecoverFault V.faults (store_volume recovered.store) result }
    ensures identity { V.identity (volume_of result) ≡ V.identity (store_volume recovered.store) }
{
    match recovered.store.seal() {
        Ok(()) => Ok(recovered),
        Err(_) => Err(RecoverFault {
            volume: recovered.store.into_volume(),
            cause: RecoverCause::VolumeFault,
        }),
    }
}
