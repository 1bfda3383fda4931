//! Live sessions, and what their transactions still need.

ghost use Rattle.std.specs.Prelude.{◌≡◌, true, List, sum_by};
ghost use Rattle.index_derive.specs.declared.log.Entry.{Entry};
ghost use Rattle.database_state.specs.State.{DatabaseState, PastChange};
ghost use Rattle.database_state.specs.VersionStore.{from_oldest_needed, cost_of, version_span};
ghost use Rattle.database_state.specs.Step.{state_after};
ghost use Rattle.database_state.specs.Lawful.{is_lawful};
ghost use Rattle.laws_versions.specs.Records.{Records};
ghost use Rattle.laws_versions.specs.History.{EachTwo, LabelsRise, IsHistory};

/// The labels of the live sessions rise, and every lawful entry keeps them so.
pub fn labels_of_sessions_rise()
    ensures { (state : DatabaseState) (made : Entry) → EachTwo LabelsRise state.sessions → is_lawful state made ≡ true → EachTwo LabelsRise (state_after state made).sessions }
{}

/// The span of the version store is that of the kept changes: a dropped one is not needed.
pub fn the_span_is_that_of_the_kept_changes()
    ensures { (base : Records) (dropped kept : List PastChange) (state : DatabaseState) → IsHistory base dropped kept state → EachTwo LabelsRise state.sessions
        → version_span state ≡ sum_by (λ item. cost_of item.change item.before) (from_oldest_needed state.sessions kept) }
{}
