//! What may be forgotten of a state.

ghost use Rattle.std.specs.Prelude.{◌≡◌, List, []};
ghost use Rattle.database_state.specs.State.{DatabaseState, PastChange};
ghost use Rattle.database_state.specs.VersionStore.{from_oldest_needed};
ghost use Rattle.database_state.specs.Equivalence.{AreEquivalent};
ghost use Rattle.laws_versions.specs.Records.{Records};
ghost use Rattle.laws_versions.specs.History.{EachTwo, LabelsRise, IsHistory};

/// A state without the past changes before the oldest needed one is equivalent to it.
pub fn changes_that_are_not_needed_are_forgotten()
    ensures { (state : DatabaseState) → AreEquivalent state (record state { past = from_oldest_needed state.sessions state.past }) }
{}

/// The needed changes are among the kept ones: a state with its kept changes alone is equivalent to it, and has a history.
pub fn dropped_changes_are_forgotten()
    ensures needed { (base : Records) (dropped kept : List PastChange) (state : DatabaseState) → IsHistory base dropped kept state → EachTwo LabelsRise state.sessions
        → from_oldest_needed state.sessions state.past ≡ from_oldest_needed state.sessions kept }
    ensures equivalent { (base : Records) (dropped kept : List PastChange) (state : DatabaseState) → IsHistory base dropped kept state → EachTwo LabelsRise state.sessions
        → AreEquivalent state (record state { past = kept }) }
    ensures history { (base : Records) (dropped kept : List PastChange) (state : DatabaseState) → IsHistory base dropped kept state
        → IsHistory base [] kept (record state { past = kept }) }
{}
