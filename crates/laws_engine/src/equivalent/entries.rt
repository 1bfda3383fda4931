//! Which entries may come in equivalent states, and what they lead to.

ghost use Rattle.std.specs.Prelude.{◌≡◌, true};
ghost use Rattle.index_derive.specs.declared.log.Entry.{Entry};
ghost use Rattle.database_state.specs.State.{DatabaseState};
ghost use Rattle.database_state.specs.Step.{state_after};
ghost use Rattle.database_state.specs.Lawful.{is_lawful};
ghost use Rattle.database_state.specs.Equivalence.{AreEquivalent};
ghost use Rattle.laws_versions.specs.History.{EachTwo, LabelsRise, HasHistory};
ghost use Rattle.laws_engine.specs.PlainIndexes.{read_no_sums};

/// The same entries may be logged in two equivalent states.
pub fn equivalent_states_take_the_same_entries()
    ensures { (one other : DatabaseState) → AreEquivalent one other → read_no_sums one.tables ≡ true → (made : Entry) → is_lawful one made ≡ is_lawful other made }
{}

/// A lawful entry leads from two equivalent states that lawful entries reach to two equivalent ones.
pub fn lawful_entries_keep_states_equivalent()
    ensures { (one other : DatabaseState) → AreEquivalent one other → HasHistory one → HasHistory other → EachTwo LabelsRise one.sessions
        → (made : Entry) → is_lawful one made ≡ true → AreEquivalent (state_after one made) (state_after other made) }
{}
