//! What a checkpoint and the bytes of the log behind it recover to.

ghost use Rattle.std.specs.Prelude.{◌≡◌, [], Option, IsErrOf, OnOk};
ghost use Rattle.database_state.specs.State.{DatabaseState};
ghost use Rattle.laws_engine.specs.EngineState.{HasRoomForEnds};
ghost use Rattle.recovered_states.specs.Recovers.{RecoversFrom};
ghost use Rattle.soft_recovery.specs.Recovering.{HoldsRecovered, HoldsShown};
ghost use Rattle.soft_recovery.specs.Replaying.{MayReplay};
ghost use Rattle.soft_recovery.specs.declared.fault.ReplayFault.TheVariants.{LogFileCorrupt};
ghost use Rattle.store_core.specs.Stands.{Checkpoint};

use crate::fault::ReplayFault;
use crate::replaying::replay;
use engine_core::{Engine, close};
use laws_engine::ends_always_find_room;
use loggable_steps::{
    a_closed_state_is_held_by_its_tables, an_engine_without_sessions_tells_its_state,
};
use recovered_states::spelled_entries_make_what_is_built;

/// Makes the entries of a log again over an engine that shows a checkpoint, as [`replay`] does, and gives up all sessions, without an
/// entry of the log: what a crash left of them is undone.
///
/// The call answers `LogFileCorrupt` where nothing is recovered from the checkpoint and these bytes. The engine is of no use after a
/// fault.
pub fn recover_from(engine: &mut Engine, bytes: &[u8]) -> Result<(), ReplayFault>
    requires { MayReplay engine.old }
    ensures recovered { OnOk result ((checkpoint : Option Checkpoint) → HoldsShown checkpoint engine.old → HoldsRecovered checkpoint bytes.now engine.new) }
    ensures limit { OnOk result (engine.new.limit ≡ engine.old.limit) }
    ensures sessions { OnOk result (engine.new.sessions ≡ []) }
    ensures room { OnOk result (HasRoomForEnds engine.old → HasRoomForEnds engine.new) }
    ensures refused { IsErrOf result LogFileCorrupt → (checkpoint : Option Checkpoint) → HoldsShown checkpoint engine.old → (state : DatabaseState) → RecoversFrom checkpoint bytes.now state → ⊥ }
{
    a_closed_state_is_held_by_its_tables();
    an_engine_without_sessions_tells_its_state();
    spelled_entries_make_what_is_built();
    ends_always_find_room();
    match replay(engine, bytes) {
        Ok(()) => {
            close(engine);
            Ok(())
        }
        Err(fault) => Err(fault),
    }
}
