//! Entries that can be written.

ghost use Rattle.std.specs.Prelude.{◌≡◌, ℕ, true, List, Some};
ghost use Rattle.index_derive.specs.declared.log.Entry.{Entry};
ghost use Rattle.index_derive.specs.declared.log.Step.{Step};
ghost use Rattle.index_derive.specs.Steps.{entries_of_step};
ghost use Rattle.database_state.specs.State.{DatabaseState, PastChange};
ghost use Rattle.database_state.specs.Lawful.{is_lawful};
ghost use Rattle.laws_versions.specs.Records.{Records};
ghost use Rattle.laws_versions.specs.RecordNumbers.{HasItsType};
ghost use Rattle.laws_engine.specs.LawfulSteps.{AreLawful, IsReached, IsReachedState};
ghost use Rattle.laws_engine.specs.EntryTypes.{AreOfTheirTypes};
ghost use Rattle.session_local.specs.BuiltTables.{AllMakeBuilt, makes_built};
ghost use Rattle.log_grammar.specs.EntryStreams.{stream_fits};
ghost use Rattle.loggable_steps.specs.Loggable.{fits_types, is_label, is_loggable, made_by};

/// A lawful entry of a session with a label of 1 to 99 can be written, by less than 134,217,728 bytes, where it makes only what is
/// built and its numbers have the bits of their types.
pub fn lawful_entries_can_be_logged()
    ensures { (base : Records) (dropped kept : List PastChange) (state : DatabaseState) (made : Entry) → IsReached base dropped kept state → is_lawful state made ≡ true → makes_built made.kind ≡ true → HasItsType made.kind
        → is_label made.session.0 ≡ true → fits_types made.kind ≡ true → is_loggable made ≡ true }
{}

/// So can each entry of a lawful step of such a session.
pub fn lawful_steps_can_be_logged()
    ensures made { (state : DatabaseState) (step : Step) → IsReachedState state → AreLawful state (entries_of_step (Some step)) → AllMakeBuilt (entries_of_step (Some step)) → AreOfTheirTypes (entries_of_step (Some step))
        → is_label (made_by step).session.0 ≡ true → fits_types (made_by step).kind ≡ true → is_loggable (made_by step) ≡ true }
    ensures all { (step : Step) → is_loggable (made_by step) ≡ true → stream_fits (entries_of_step (Some step)) ≡ true }
{}
