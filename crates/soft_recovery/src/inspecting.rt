//! A volume is looked at.

ghost use Rattle.std.specs.Prelude.{◌≡◌, ◌⊎◌, [], IfErr, IfOk};
ghost use Rattle.laws_engine.specs.EngineState.{HasRoomForEnds};
ghost use Rattle.soft_recovery.specs.Inspecting.{CountsInspectFault, IsInspected, IsNotInspectedFor, inspected_volume};
ghost use Rattle.soft_recovery.specs.Opening.{HasOpeningBounds, IsUntouched};
ghost use Rattle.soft_recovery.specs.Refusals.{IsFromOutside, Refuses};
ghost use Rattle.soft_recovery.specs.declared.refusals.RecoverCause.{RecoverCause};

use crate::found::{FoundDatabase, found_database};
use crate::refusals::{RecoverCause, RecoverFault, files_are_refused_for_one_cause};
use jet_volume::Volume;
use std::alloc::Global;
use store_core::Store;

/// A volume that was looked at: all that can be told of it.
#[derive(Drop)]
pub struct Inspected<V> {
    /// What it recovers to, and what its checkpoint tells.
    pub database: FoundDatabase,
    /// The bytes of the log behind that checkpoint, less than 8 MiB.
    pub log: Vec<u8>,
    /// The store over the volume, which has the standing checkpoint.
    pub store: Store<V>,
}

/// Looks at a volume: its standing checkpoint is read, and the log behind it, and what they recover to is made. It writes nothing. The
/// limit is that of the version store's span, in bytes.
///
/// The refusals come in the order of [`RecoverCause`], and each hands the volume back. A fault of the volume and want of memory may come in
/// the place of each answer.
#[tactic(none)]
pub fn inspect<V: Volume>(
    alloc: Global,
    limit: u64,
    volume: V,
) -> Result<Inspected<V>, RecoverFault<V>>
    ensures inspected { IfOk result (IsInspected V.tells_contents V.seen V.moment V.left_at volume) }
    ensures limit { IfOk result (λ inspected. inspected.database.engine.limit ≡ limit) }
    ensures sessions { IfOk result (λ inspected. inspected.database.engine.sessions ≡ []) }
    ensures room { IfOk result (λ inspected. HasRoomForEnds inspected.database.engine) }
    ensures bounds { IfOk result (λ inspected. HasOpeningBounds inspected.store) }
    // Each refusal comes where its check is the first to fail, and only there.
    ensures refused { IfErr result (λ fault. V.tells_contents → Refuses (V.seen volume) fault.cause ⊎ IsFromOutside fault.cause) }
    ensures exact { V.tells_contents → (cause : RecoverCause) → Refuses (V.seen volume) cause → IsNotInspectedFor cause result }
    ensures looks { IsUntouched V.seen V.moment V.left_at volume (inspected_volume result) }
    ensures faults { CountsInspectFault V.faults volume result }
    ensures identity { V.identity (inspected_volume result) ≡ V.identity volume }
{
    files_are_refused_for_one_cause();
    match Store::open(alloc, volume) {
        Ok((found, log, store)) => match found_database(alloc, limit, found, log.as_slice()) {
            Ok(database) => Ok(Inspected {
                database,
                log,
                store,
            }),
            Err(fault) => Err(RecoverFault {
                volume: store.into_volume(),
                cause: RecoverCause::from(fault),
            }),
        },
        Err(fault) => Err(RecoverFault {
            volume: fault.volume,
            cause: RecoverCause::from(fault.cause),
        }),
    }
}
