//! The records before sums.

ghost use Rattle.std.specs.Prelude.{List, [], ◌∷◌, if◌then◌else◌};
ghost use Rattle.index_derive.specs.declared.log.Entry.{Entry};
ghost use Rattle.database_state.specs.State.{DatabaseState, PastChange};
ghost use Rattle.database_state.specs.Step.{state_after};
ghost use Rattle.laws_versions.specs.Records.{Records, records_of, after_item};
ghost use Rattle.laws_versions.specs.Readers.{is_standing};
ghost use Rattle.laws_versions.specs.History.{IsHistory};
ghost use Rattle.laws_versions.specs.KeptSteps.{kept_after, base_after};
ghost use Rattle.laws_versions.specs.RecordNumbers.{HasEscrowNumbers};
ghost use Rattle.laws_versions.specs.SumBefores.{HaveSumBefores};

/// The record before each sum that stands is, but for its sums, the one that the standing changes before it leave: so it is where
/// no change is kept, and after every entry, since what is undone before a sum that stays are sums of others.
pub fn entries_keep_the_records_before_sums()
    ensures begin { (state : DatabaseState) → HaveSumBefores (records_of state.tables) [] state }
    ensures kept { (base : Records) (dropped kept : List PastChange) (state : DatabaseState) (made : Entry) → IsHistory base dropped kept state → HasEscrowNumbers base kept state → HaveSumBefores base kept state
        → HaveSumBefores (base_after state made.kind base) (kept_after state made.session.0 made.kind kept) (state_after state made) }
    ensures cleaned { (base : Records) (item : PastChange) (kept : List PastChange) (state : DatabaseState) → HaveSumBefores base (item ∷ kept) state → HaveSumBefores (if is_standing item then after_item base item else base) kept state }
{}
