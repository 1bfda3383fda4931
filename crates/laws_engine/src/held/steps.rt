//! What lawful entries keep of states that are told apart by nothing.

ghost use Rattle.std.specs.Prelude.{◌≡◌, true, List};
ghost use Rattle.index_derive.specs.declared.log.Entry.{Entry};
ghost use Rattle.database_state.specs.State.{DatabaseState, empty_state};
ghost use Rattle.database_state.specs.Step.{state_after, state_after_all};
ghost use Rattle.database_state.specs.Lawful.{is_lawful};
ghost use Rattle.database_state.specs.Equivalence.{AreEquivalent};
ghost use Rattle.laws_versions.specs.History.{EachTwo, LabelsRise, HasHistory};
ghost use Rattle.laws_engine.specs.LawfulSteps.{AreLawful};
ghost use Rattle.laws_engine.specs.PlainIndexes.{read_no_sums};
ghost use Rattle.laws_engine.specs.PlainColumns.{HasPlainIndexes};

/// No index ever reads a sum: in the empty state each names columns that are there and are no sums, and every lawful entry
/// keeps it so, also where tables have sums.
pub fn indexes_never_read_sums()
    ensures empty { HasPlainIndexes empty_state }
    ensures kept { (state : DatabaseState) (made : Entry) → HasPlainIndexes state → is_lawful state made ≡ true → HasPlainIndexes (state_after state made) }
    ensures read { (state : DatabaseState) → HasPlainIndexes state → read_no_sums state.tables ≡ true }
{}

/// Entries that are lawful each in its turn are so from each equivalent state, and lead to equivalent states.
pub fn lawful_steps_keep_states_equivalent()
    ensures lawful { (one other : DatabaseState) → AreEquivalent one other → HasHistory one → HasHistory other → EachTwo LabelsRise one.sessions → HasPlainIndexes one
        → (entries : List Entry) → AreLawful one entries → AreLawful other entries }
    ensures equivalent { (one other : DatabaseState) → AreEquivalent one other → HasHistory one → HasHistory other → EachTwo LabelsRise one.sessions → HasPlainIndexes one
        → (entries : List Entry) → AreLawful one entries → AreEquivalent (state_after_all one entries) (state_after_all other entries) }
{}
