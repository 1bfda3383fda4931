//! What was found on a volume, and the engine that it recovers to.

ghost use Rattle.std.specs.Prelude.{◌≡◌, ◌≤◌, [], None, Some, length, IfErr, IfOk};
ghost use Rattle.checkpoint.specs.declared.image.Standing.{Standing};
ghost use Rattle.checkpoint.specs.declared.image.TheConstants.{MAX_PAGES};
ghost use Rattle.laws_engine.specs.EngineState.{HasRoomForEnds};
ghost use Rattle.soft_recovery.specs.Inspecting.{HasNumbersOf, IsFoundDatabase};
ghost use Rattle.soft_recovery.specs.Recovering.{HasFewPages, HoldsRecovered, HoldsShown};
ghost use Rattle.soft_recovery.specs.Refusals.{RefusesEngine, RefusesImage};
ghost use Rattle.soft_recovery.specs.Replaying.{MayReplay};
ghost use Rattle.store_core.specs.Store.{checkpoint_found, checkpoint_of};

use crate::fault::ReplayFault;
use crate::recovering::recover_from;
use crate::refusals::EngineFault;
use checkpoint::{Found, Image};
use engine_core::Engine;
use engine_image::{ImageFault, from_image};
use image_findings::{
    each_check_of_a_consistent_image_passes, the_state_of_a_consistent_image_is_sound,
};
use laws_engine::an_empty_engine_holds_the_empty_state;
use laws_images::lawful_entries_keep_states_sound;
use std::alloc::Global;

/// What was found on a volume, once it is recovered.
#[derive(Drop)]
pub struct FoundDatabase {
    /// An engine without a session, which holds what is recovered.
    pub engine: Engine,
    /// How many log entries led to the checkpoint, 0 where there is none.
    pub number: u64,
    /// Whether the checkpoint has a session. A crash leaves one that has, and so does an image behind which its run went on.
    pub has_session: bool,
}

/// Makes the engine of what was found on a volume, replays the log behind it, and gives up all sessions, without an entry of the log: what
/// a crash left of them is undone. The limit is that of the version store's span, in bytes.
///
/// It is what a volume recovers to, apart from the volume: [`Store::open`](store_core::Store::open) finds both. No memory is taken for the
/// log but for one entry at a time.
#[tactic(none)]
pub fn found_database(
    alloc: Global,
    limit: u64,
    found: Found,
    log: &[u8],
) -> Result<FoundDatabase, EngineFault>
    requires { HasFewPages found }
    ensures found { IfOk result (λ database. (standing : Standing) → IsFoundDatabase (checkpoint_found found standing) log.now database) }
    ensures limit { IfOk result (λ database. database.engine.limit ≡ limit) }
    ensures sessions { IfOk result (λ database. database.engine.sessions ≡ []) }
    ensures room { IfOk result (λ database. HasRoomForEnds database.engine) }
    ensures refused { IfErr result (λ fault. (standing : Standing) → RefusesEngine (checkpoint_found found standing) log.now fault) }
{
    match shown_engine(alloc, limit, found) {
        Ok(mut engine) => {
            let number = engine.number();
            let has_session = !engine.sessions().is_empty();
            match recover_from(&mut engine, log) {
                Ok(()) => Ok(FoundDatabase {
                    engine,
                    number,
                    has_session,
                }),
                Err(ReplayFault::LogFileCorrupt) => Err(EngineFault::LogFileCorrupt),
                Err(ReplayFault::OutOfMemory) => Err(EngineFault::OutOfMemory),
            }
        }
        Err(ImageFault::NotSound(finding)) => Err(EngineFault::DatabaseCorrupted(finding)),
        Err(ImageFault::OutOfMemory) => Err(EngineFault::OutOfMemory),
    }
}

/// The engine of [`found_database`] alone.
#[tactic(none)]
pub fn recovered_engine(
    alloc: Global,
    limit: u64,
    found: Found,
    log: &[u8],
) -> Result<Engine, EngineFault>
    requires { HasFewPages found }
    ensures recovered { IfOk result (λ engine. (standing : Standing) → HoldsRecovered (checkpoint_found found standing) log.now engine) }
    ensures limit { IfOk result (λ engine. engine.limit ≡ limit) }
    ensures sessions { IfOk result (λ engine. engine.sessions ≡ []) }
    ensures room { IfOk result HasRoomForEnds }
    ensures refused { IfErr result (λ fault. (standing : Standing) → RefusesEngine (checkpoint_found found standing) log.now fault) }
{
    match found_database(alloc, limit, found, log) {
        Ok(database) => Ok(database.engine),
        Err(fault) => Err(fault),
    }
}

/// The engine of what was found, before its log is replayed.
#[tactic(none)]
fn shown_engine(alloc: Global, limit: u64, found: Found) -> Result<Engine, ImageFault>
    requires { HasFewPages found }
    ensures may { IfOk result MayReplay }
    ensures shown { IfOk result (λ engine. (standing : Standing) → HoldsShown (checkpoint_found found standing) engine) }
    ensures numbers { IfOk result (λ engine. (standing : Standing) → HasNumbersOf (checkpoint_found found standing) engine) }
    ensures room { IfOk result HasRoomForEnds }
    ensures limit { IfOk result (λ engine. engine.limit ≡ limit) }
    ensures refused { IfErr result (λ fault. (standing : Standing) → RefusesImage (checkpoint_found found standing) fault) }
{
    match found {
        Found::New => Ok(empty_engine(alloc, limit)),
        Found::Old(image) => image_engine(alloc, limit, image),
    }
}

/// The engine of a new volume: that of an empty database.
#[tactic(none)]
fn empty_engine(alloc: Global, limit: u64) -> Engine
    ensures may { MayReplay result }
    ensures shown { HoldsShown None result }
    ensures numbers { HasNumbersOf None result }
    ensures room { HasRoomForEnds result }
    ensures limit { result.limit ≡ limit }
{
    an_empty_engine_holds_the_empty_state();
    lawful_entries_keep_states_sound();
    Engine::new(alloc, limit)
}

/// The engine of an image.
#[tactic(none)]
fn image_engine(alloc: Global, limit: u64, image: Image) -> Result<Engine, ImageFault>
    requires { length image.pages.items ≤ MAX_PAGES }
    ensures may { IfOk result MayReplay }
    ensures shown { IfOk result (λ engine. (standing : Standing) → HoldsShown (Some (checkpoint_of standing.number standing.start image)) engine) }
    ensures numbers { IfOk result (λ engine. (standing : Standing) → HasNumbersOf (Some (checkpoint_of standing.number standing.start image)) engine) }
    ensures room { IfOk result HasRoomForEnds }
    ensures limit { IfOk result (λ engine. engine.limit ≡ limit) }
    ensures refused { IfErr result (λ fault. (standing : Standing) → RefusesImage (Some (checkpoint_of standing.number standing.start image)) fault) }
{
    each_check_of_a_consistent_image_passes();
    the_state_of_a_consistent_image_is_sound();
    match from_image(alloc, limit, image) {
        Ok(engine) => Ok(engine),
        Err(fault) => Err(fault),
    }
}
