//! States and engines without their undone changes: no lawful entry tells whether these were forgotten, so that an image needs
//! none. The functions do nothing: their contracts are the laws.

ghost use Rattle.std.specs.Prelude.{◌≡◌, List, true, []};
ghost use Rattle.database_state.specs.Equivalence.{AreEquivalent};
ghost use Rattle.database_state.specs.Lawful.{is_lawful};
ghost use Rattle.database_state.specs.State.{DatabaseState};
ghost use Rattle.database_state.specs.Step.{state_after, state_after_all};
ghost use Rattle.index_derive.specs.declared.log.Entry.{Entry};
ghost use Rattle.laws_engine.specs.PlainIndexes.{read_no_sums};
ghost use Rattle.laws_engine.specs.EngineState.{EngineState};
ghost use Rattle.laws_engine.specs.HoldsState.{HoldsState};
ghost use Rattle.laws_images.specs.Settled.{AreAlike, settled, settled_engine};
ghost use Rattle.laws_engine.specs.LawfulSteps.{AreLawful};
ghost use Rattle.laws_versions.specs.History.{EachTwo, HasHistory, LabelsRise};

/// Where undone changes are forgotten, the same entries may come, with the same effect but for undone changes; so a log that is
/// replayed gives the same tables.
pub fn undone_changes_tell_nothing()
    ensures lawful { (state : DatabaseState) (made : Entry) → is_lawful (settled state) made ≡ is_lawful state made }
    ensures after { (state : DatabaseState) (made : Entry) → settled (state_after (settled state) made) ≡ settled (state_after state made) }
    ensures all { (state : DatabaseState) (entries : List Entry) → AreLawful state entries → AreLawful (settled state) entries }
    ensures history { (state : DatabaseState) → HasHistory state → HasHistory (settled state) }
    ensures last { (state : DatabaseState) (entries : List Entry) → settled (state_after_all (settled state) entries) ≡ settled (state_after_all state entries) }
{}

/// An engine without its undone changes holds the state without them.
pub fn a_settled_engine_holds_the_settled_state()
    ensures { (engine : EngineState) (state : DatabaseState) → HoldsState engine state → HoldsState (settled_engine engine) (settled state) }
{}

/// Equivalent states are alike, as is a state without its undone changes; alike states take the same entries, which leave them alike.
pub fn alike_states_stay_alike()
    ensures equivalent { (one other : DatabaseState) → AreEquivalent one other → AreAlike one other }
    ensures settled { (state : DatabaseState) → AreAlike state (settled state) }
    ensures closes { (one other : DatabaseState) → AreAlike one other → record one { sessions = []; past = [] } ≡ record other { sessions = []; past = [] } }
    ensures takes { (one other : DatabaseState) → AreAlike one other → read_no_sums one.tables ≡ true → (made : Entry) → is_lawful one made ≡ is_lawful other made }
    ensures stays { (one other : DatabaseState) → AreAlike one other → HasHistory one → HasHistory other → EachTwo LabelsRise one.sessions
        → (made : Entry) → is_lawful one made ≡ true → AreAlike (state_after one made) (state_after other made) }
{}
