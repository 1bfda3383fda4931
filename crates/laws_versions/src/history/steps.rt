//! What entries and cleans leave of the history.

ghost use Rattle.std.specs.Prelude.{◌≡◌, true, false, List, [], ◌∷◌, ◌++◌, if◌then◌else◌};
ghost use Rattle.index_derive.specs.declared.log.Entry.{Entry};
ghost use Rattle.database_state.specs.State.{DatabaseState, PastChange};
ghost use Rattle.database_state.specs.VersionStore.{is_needed};
ghost use Rattle.database_state.specs.Step.{state_after};
ghost use Rattle.database_state.specs.Lawful.{is_lawful};
ghost use Rattle.laws_versions.specs.Records.{Records, records_of, after_item};
ghost use Rattle.laws_versions.specs.Readers.{is_standing};
ghost use Rattle.laws_versions.specs.History.{IsHistory, HasHistory};
ghost use Rattle.laws_versions.specs.KeptSteps.{kept_after, dropped_after, base_after};

/// A state without sessions and without past changes has a history from its own records on; so has the empty one.
pub fn a_history_begins_without_sessions()
    ensures { (state : DatabaseState) → state.sessions ≡ [] → state.past ≡ [] → IsHistory (records_of state.tables) [] [] state }
{}

/// Every lawful entry keeps the history: the kept changes become those that the entry leaves of them. So each state that
/// lawful entries reach has one.
pub fn lawful_entries_keep_the_history()
    ensures kept { (base : Records) (dropped kept : List PastChange) (state : DatabaseState) (made : Entry) → IsHistory base dropped kept state → is_lawful state made ≡ true
        → IsHistory (base_after state made.kind base) (dropped_after made.kind dropped kept) (kept_after state made.session.0 made.kind kept) (state_after state made) }
    ensures some { (state : DatabaseState) (made : Entry) → HasHistory state → is_lawful state made ≡ true → HasHistory (state_after state made) }
{}

/// The oldest kept change can be dropped where it is not needed. The state is the same; the history begins behind the change.
pub fn a_clean_keeps_the_history()
    ensures { (base : Records) (dropped : List PastChange) (item : PastChange) (kept : List PastChange) (state : DatabaseState) → IsHistory base dropped (item ∷ kept) state → is_needed state.sessions item ≡ false
        → IsHistory (if is_standing item then after_item base item else base) (dropped ++ item ∷ []) kept state }
{}
