//! What a script's lines are served by: an engine, and what becomes of the bytes of its log.

ghost use Rattle.std.specs.Prelude.{◌≡◌, List, [], true, Some, OnErr, OnOk};
ghost use Rattle.index_derive.specs.declared.log.Entry.{Entry};
ghost use Rattle.index_derive.specs.Steps.{entries_of_step};
ghost use Rattle.laws_engine.specs.EngineState.{EngineState, HasRoomForEnds};
ghost use Rattle.laws_engine.specs.EngineSteps.{engine_after_step};
ghost use Rattle.engine_core.specs.LoggedState.{MayBeCleaned, logged_step_may_lack_memory};
ghost use Rattle.engine_core.specs.Steps.{MayTake};
ghost use Rattle.loggable_steps.specs.Loggable.{is_label, made_by};
ghost use Rattle.ordered_run.specs.declared.flushed.Flushed.{Flushed};
ghost use Rattle.ordered_run.specs.Flushing.{IsFlushOutcome};

use crate::flushed::{After, Flushed};
use engine_core::Engine;
use index_derive::Step;
use jet_base::OutOfMemory;

/// An engine that makes steps, and flushes its log.
pub trait RunEngine {
    /// What it holds.
    ghost held: { Self → EngineState };

    /// It can make steps, and flush.
    ghost ready: { Self → Type 0 };

    /// It has made these entries, and flushed nothing.
    ghost made: { List Entry → Self → Self → Type 0 };

    /// Its log was flushed, which came to this.
    ghost flushed: { Self → Self → Flushed → Type 0 };

    /// The engine.
    fn engine(&self) -> &Engine
        ensures { result.now ≡ held self.now };

    /// Makes a step that was decided in this state, of a session with a label, 1 to 99. After want of memory the engine is as it
    /// was, but that a clean may stand. What ends something takes no memory.
    fn apply(&mut self, step: &Step) -> Result<(), OutOfMemory>
        requires ready { ready self.old }
        requires lawful { MayTake (held self.old) step.now }
        requires room { HasRoomForEnds (held self.old) }
        requires label { is_label (made_by step.now).session.0 ≡ true }
        ensures engine { OnOk result (held self.new ≡ engine_after_step (held self.old) step.now) }
        ensures made { OnOk result (made (entries_of_step (Some step.now)) self.old self.new) }
        ensures cleaned { OnErr result (MayBeCleaned (held self.old) (held self.new)) }
        ensures none { OnErr result (made [] self.old self.new) }
        ensures memory { OnErr result (logged_step_may_lack_memory step.now ≡ true) }
        ensures ready { ready self.new };

    /// Flushes the log: the bytes of all steps so far that were not flushed yet. It goes on only where all of them are kept, and tells
    /// of a fault of the volume, or of want of memory for an image, where they are not.
    fn flush(&mut self) -> Flushed
        requires { ready self.old }
        ensures engine { held self.new ≡ held self.old }
        ensures flushed { flushed self.old self.new result }
        ensures ready { result.after ≡ After.Goes → ready self.new }
        ensures told { IsFlushOutcome result };

    /// Where nothing is done, no entry is made.
    ghost rests: { (engine : Self) → made [] engine engine };
}
