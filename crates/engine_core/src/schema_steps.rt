//! Schema steps.

ghost use Rattle.std.specs.Prelude.{◌≡◌, ◌+◌, ◌^◌, ◌≤◌, ℕ, [], OnOk, OnErr};
ghost use Rattle.index_derive.specs.declared.log.EntryKind.TheVariants as entry;
ghost use Rattle.engine_parts.specs.Parts.{tables_of};
ghost use Rattle.laws_engine.specs.EngineSteps.{effect_on};
ghost use Rattle.stored_variants.specs.SchemaSteps.{CanMake};

use engine_parts::Engine;
use index_derive::SchemaStep;
use jet_base::OutOfMemory;

/// The schema changes, while no change is held. Where memory fails all is as it was.
pub(crate) fn make(engine: &mut Engine, made: &SchemaStep) -> Result<(), OutOfMemory>
    requires number { engine.old.number ≤ 2 ^ 35 + 1 }
    requires settled { engine.old.store.held ≡ [] }
    requires can { CanMake made.now (tables_of engine.old) }
    ensures done { OnOk result ((session : ℕ) → engine.new ≡ effect_on engine.old session (entry.Schema made.now)) }
    ensures kept { OnErr result (engine.new ≡ engine.old) }
{
    match engine.tables.make(made) {
        Ok(()) => {
            engine.number += 1;
            Ok(())
        }
        Err(fault) => Err(fault),
    }
}
