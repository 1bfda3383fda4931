//! The entries of a log are read and made again.

ghost use Rattle.std.specs.Prelude.{◌≡◌, true, IfOk, IsErrOf, OnOk};
ghost use Rattle.database_state.specs.Lawful.{is_lawful};
ghost use Rattle.database_state.specs.State.{DatabaseState};
ghost use Rattle.soft_recovery.specs.LawfulEntries.{IsTold};
ghost use Rattle.index_derive.specs.declared.log.Step.TheVariants.{One};
ghost use Rattle.laws_engine.specs.HoldsState.{HoldsState};
ghost use Rattle.log_grammar.specs.EntryBytes.{has_spelling};
ghost use Rattle.loggable_steps.specs.Loggable.{made_by};
ghost use Rattle.soft_recovery.specs.declared.fault.ReplayFault.TheVariants.{LogFileCorrupt};
ghost use Rattle.soft_recovery.specs.Replaying.{IsNoLog, IsReplayed, MayReplay, TakesStep, TellsFront};

use crate::fault::ReplayFault;
use crate::next_entries::{lawful, sound_catalogs_have_own_names};
use engine_core::{Engine, apply};
use index_derive::Step;
use jet_base::OutOfMemory;
use laws_engine::{a_lawful_step_makes_the_next_state, ends_always_find_room};
use laws_images::lawful_entries_keep_states_sound;
use log_record::{EntryFault, Parsed, decode};
use recovered_states::spelled_entries_make_what_is_built;

/// Makes the entries of a log again, one after the other, up to its end or to a last one that is cut there, which is dropped: a
/// crash leaves a log so. It goes once over the bytes, and takes no memory but for one entry and what the engine makes of it.
///
/// The call answers `LogFileCorrupt` where the bytes are no such entries: at the first place at which they are neither an entry
/// nor the front of one that ends them, or at which the entry may not come next. The engine is of no use after a fault.
pub fn replay(engine: &mut Engine, bytes: &[u8]) -> Result<(), ReplayFault>
    requires { MayReplay engine.old }
    ensures replayed { OnOk result ((state : DatabaseState) → HoldsState engine.old state → IsReplayed engine.new bytes.now state) }
    ensures limit { OnOk result (engine.new.limit ≡ engine.old.limit) }
    ensures refused { IsErrOf result LogFileCorrupt → (state : DatabaseState) → HoldsState engine.old state → IsNoLog bytes.now state }
{
    lawful_entries_keep_states_sound();
    let mut at = 0;
    while at < bytes.len() {
        match take_entry(engine, &bytes[at..]) {
            Ok(Some(size)) => at += size,
            Ok(None) => return Ok(()),
            Err(ReplayFault::LogFileCorrupt) => return Err(ReplayFault::LogFileCorrupt),
            Err(ReplayFault::OutOfMemory) => return Err(ReplayFault::OutOfMemory),
        }
    }
    Ok(())
}

/// Makes the entry that the bytes begin with, and tells how many bytes it has; none where they are cut from an entry.
fn take_entry(engine: &mut Engine, bytes: &[u8]) -> Result<Option<usize>, ReplayFault>
    requires { MayReplay engine.old }
    ensures { TellsFront engine.old engine.new bytes.now result }
{
    match decode(engine.alloc, bytes) {
        Ok(Parsed::Whole(entry, size)) => take_step(engine, &Step::One(entry), size),
        Ok(Parsed::Cut) => Ok(None),
        Err(EntryFault::BadEntry) => Err(ReplayFault::LogFileCorrupt),
        Err(EntryFault::OutOfMemory) => Err(ReplayFault::OutOfMemory),
    }
}

/// Makes the step of one entry, whose size is handed back, if it may come next.
#[tactic(none)]
fn take_step(engine: &mut Engine, step: &Step, size: usize) -> Result<Option<usize>, ReplayFault>
    requires may { MayReplay engine.old }
    requires spelled { has_spelling (made_by step.now) ≡ true }
    requires single { step.now ≡ One (made_by step.now) }
    ensures { TakesStep engine.old engine.new (made_by step.now) size result }
{
    spelled_entries_make_what_is_built();
    lawful_entries_keep_states_sound();
    a_lawful_step_makes_the_next_state();
    ends_always_find_room();
    match is_lawful(engine, step) {
        Ok(true) => match apply(engine, step) {
            Ok(()) => Ok(Some(size)),
            Err(OutOfMemory) => Err(ReplayFault::OutOfMemory),
        },
        Ok(false) => Err(ReplayFault::LogFileCorrupt),
        Err(OutOfMemory) => Err(ReplayFault::OutOfMemory),
    }
}

/// Whether the entry of the step may come next.
fn is_lawful(engine: &Engine, step: &Step) -> Result<bool, OutOfMemory>
    requires may { MayReplay engine.now }
    requires spelled { has_spelling (made_by step.now) ≡ true }
    ensures { IfOk result (IsTold engine.now (λ state. is_lawful state (made_by step.now))) }
{
    spelled_entries_make_what_is_built();
    sound_catalogs_have_own_names();
    match step {
        Step::One(made) | Step::Alone(made) => lawful(engine, made),
    }
}
