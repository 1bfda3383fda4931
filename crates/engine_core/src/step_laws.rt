//! Laws: what a lawful entry in a state that the engine holds asks of the engine's parts. The functions do nothing.

ghost use Rattle.std.specs.Prelude.{◌≡◌, ◌<◌, ◌≤◌, ℕ, true, false, length};
ghost use Rattle.column_set.specs.declared.changes.Change.{Change};
ghost use Rattle.index_derive.specs.declared.log.EntryKind.TheVariants as entry;
ghost use Rattle.index_derive.specs.declared.log.EntryKind.{EntryKind};
ghost use Rattle.index_derive.specs.declared.log.Step.{Step};
ghost use Rattle.index_derive.specs.declared.log.Step.TheVariants.{Alone};
ghost use Rattle.index_derive.specs.declared.schema_calls.SchemaStep.{SchemaStep};
ghost use Rattle.database_state.specs.State.{DatabaseState};
ghost use Rattle.session_local.specs.Local.{LocalState};
ghost use Rattle.version_cleanup.specs.LiveSessions.{is_live, levels_in};
ghost use Rattle.engine_parts.specs.Parts.{tables_of};
ghost use Rattle.laws_engine.specs.EngineState.{EngineState, HasRoomForEnds};
ghost use Rattle.laws_engine.specs.EngineSteps.{cleaned_for, effect_on, step_cleans};
ghost use Rattle.laws_engine.specs.HoldsState.{HoldsAllInStep, HoldsState};
ghost use Rattle.engine_core.specs.Changing.{CanChange, IsFormed};
ghost use Rattle.engine_core.specs.Cleans.{CanGo, without_oldest_held};
ghost use Rattle.database_state.specs.Step.{entry_by};
ghost use Rattle.engine_core.specs.Steps.{IsSettledForStep, MayCome, MayTake, begin_taken_back};
ghost use Rattle.loggable_steps.specs.Loggable.{schema_fits_types};
ghost use Rattle.stored_variants.specs.SchemaSteps.{CanMake};

use laws_engine::{
    a_clean_leaves_the_state, a_lawful_entry_makes_the_next_state, ends_always_find_room,
    newest_records_are_told, sessions_are_told, tables_are_told,
};
use laws_versions::a_primary_index_has_one_entry;
use version_cleanup::needed_changes_are_kept;

/// The oldest held changes, none of which a reader needs, go without a change of the state.
pub(crate) fn changes_that_are_not_needed_may_go()
    ensures { (count : ℕ) (engine : EngineState) (state : DatabaseState) → CanGo count engine → HoldsState engine state → HoldsState (without_oldest_held count engine) state }
{
    needed_changes_are_kept();
}

/// What lawful entries of sessions say of the engine's sessions.
pub(crate) fn lawful_entries_fit_the_sessions()
    ensures new_label { (engine : EngineState) (session : ℕ) → MayCome engine (entry_by session entry.Enter) → is_live session engine.sessions ≡ false }
    ensures few { (engine : EngineState) (session : ℕ) → MayCome engine (entry_by session entry.Enter) → length engine.sessions < 64 }
    ensures levels { (engine : EngineState) (session : ℕ) → MayCome engine (entry_by session entry.Save) → levels_in session engine.sessions ≤ 6 }
    ensures inner { (engine : EngineState) (session : ℕ) → MayCome engine (entry_by session entry.Release) → 2 ≤ levels_in session engine.sessions }
{
    sessions_are_told();
}

/// The tables with versions can make each lawful change.
pub(crate) fn lawful_changes_can_be_made()
    ensures { (engine : EngineState) (session : ℕ) (made : Change) → MayCome engine (entry_by session (entry.Change made)) → IsFormed made → CanChange engine.store made }
{
    tables_are_told();
    newest_records_are_told();
}

/// The tables with versions can make each lawful schema step whose numbers have the bits of their types.
pub(crate) fn lawful_schema_steps_can_be_made()
    ensures { (engine : EngineState) (session : ℕ) (made : SchemaStep) → MayCome engine (entry_by session (entry.Schema made)) → schema_fits_types made ≡ true → CanMake made (tables_of engine) }
{
    a_primary_index_has_one_entry();
}

/// Of a step with a begin and a commit each entry may come in its turn, and there is room for it. The begin can be taken back.
pub(crate) fn entries_of_a_step_alone_come_in_turn()
    ensures first { (engine : EngineState) (session : ℕ) (kind : EntryKind) → MayTake engine (Alone (entry_by session kind)) → MayCome engine (entry_by session entry.Begin) }
    ensures next { (engine : EngineState) (session : ℕ) (kind : EntryKind) → MayTake engine (Alone (entry_by session kind)) → MayCome (effect_on engine session entry.Begin) (entry_by session kind) }
    ensures room { (engine : EngineState) (session : ℕ) (kind : EntryKind) → MayTake engine (Alone (entry_by session kind)) → HasRoomForEnds engine → HasRoomForEnds (effect_on engine session entry.Begin) }
    ensures last { (engine : EngineState) (session : ℕ) (kind : EntryKind) → MayTake engine (Alone (entry_by session kind)) → HasRoomForEnds engine → HasRoomForEnds (effect_on (effect_on engine session entry.Begin) session kind) }
    ensures back { (engine : EngineState) (session : ℕ) (kind : EntryKind) → MayTake engine (Alone (entry_by session kind)) → begin_taken_back session (effect_on engine session entry.Begin) ≡ engine }
{
    a_lawful_entry_makes_the_next_state();
    ends_always_find_room();
}

/// What a step leaves that finds no memory, which is the clean before it alone: the engine holds the very state that it held,
/// with which the same sessions are in step, and has room for all ends.
pub fn a_clean_for_a_step_leaves_the_state()
    ensures holds { (engine : EngineState) (state : DatabaseState) (step : Step) → HoldsState engine state → HoldsState (cleaned_for (step_cleans step) engine) state }
    ensures in_step { (engine : EngineState) (locals : ℕ → LocalState) (step : Step) → HoldsAllInStep engine locals → HoldsAllInStep (cleaned_for (step_cleans step) engine) locals }
    ensures room { (engine : EngineState) (step : Step) → HasRoomForEnds engine → HasRoomForEnds (cleaned_for (step_cleans step) engine) }
{
    a_clean_leaves_the_state();
}

/// A step may be made after its clean too. A schema step then finds no held change: none is open, and no transaction needs one.
pub(crate) fn a_step_may_come_after_its_clean()
    ensures lawful { (engine : EngineState) (step : Step) → MayTake engine step → MayTake (cleaned_for (step_cleans step) engine) step }
    ensures settled { (engine : EngineState) (step : Step) → MayTake engine step → IsSettledForStep step (cleaned_for (step_cleans step) engine).store.held }
{
    a_clean_for_a_step_leaves_the_state();
}
