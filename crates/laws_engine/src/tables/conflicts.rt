//! What the held changes tell of conflicts and of the version store's span.

ghost use Rattle.std.specs.Prelude.{◌≡◌, ℕ, List};
ghost use Rattle.column_set.specs.declared.changes.Change.{Change};
ghost use Rattle.index_derive.specs.declared.rules.IndexRule.{IndexRule};
ghost use Rattle.index_derive.specs.declared.rules.Schema.{Schema};
ghost use Rattle.database_state.specs.Conflicts.{has_key_conflict as has_key_conflict_in, has_write_conflict};
ghost use Rattle.database_state.specs.State.{DatabaseState, LiveSession, PastChange, transaction_of};
ghost use Rattle.database_state.specs.VersionStore.{is_needed, version_span};
ghost use Rattle.laws_versions.specs.Records.{Records, records_of};
ghost use Rattle.laws_versions.specs.History.{EachTwo, LabelsRise};
ghost use Rattle.laws_versions.specs.KeySums.{HasKeyBefores, SeesNoSum};
ghost use Rattle.version_store.specs.declared.calls.Reader.{Reader};
ghost use Rattle.version_store.specs.HeldChanges.{is_kept_status};
ghost use Rattle.laws_engine.specs.HeldRecords.{HeldRecord, has_conflict, has_key_conflict, span};
ghost use Rattle.laws_engine.specs.VersionedTables.{VersionedTables};
ghost use Rattle.laws_engine.specs.Holding.{Holds, Matches, begin_of, oldest_begin};

/// A change meets a held one exactly where the state has a write conflict.
pub fn held_changes_tell_write_conflicts()
    ensures { (base : Records) (dropped kept : List PastChange) (store : VersionedTables) (state : DatabaseState) → Holds base dropped kept store state
        → (reader : Reader) → reader.begin ≡ begin_of (transaction_of state reader.session.0)
        → (change : Change) → has_conflict reader change store.held ≡ has_write_conflict state reader.session.0 change }
{}

/// A key conflict is told by the records before and after the held changes, where the index sees no sum among them.
pub fn held_changes_tell_key_conflicts()
    ensures { (base : Records) (dropped kept : List PastChange) (store : VersionedTables) (state : DatabaseState) → Holds base dropped kept store state
        → (reader : Reader) → reader.begin ≡ begin_of (transaction_of state reader.session.0) → (table : ℕ) (schema : Schema) (rule : IndexRule)
        → SeesNoSum rule table kept → HasKeyBefores rule schema table base kept → (key : List ℕ)
        → has_key_conflict reader (records_of store.tables) table rule schema key store.held ≡ has_key_conflict_in state reader.session.0 table schema rule key }
{}

/// Given where the oldest transaction began, a held change must be kept where the past change is needed, and the span of the
/// held changes is that of the state.
pub fn held_changes_tell_the_span()
    ensures needed { (sessions : List LiveSession) (item : PastChange) (held : HeldRecord) → Matches item held → is_kept_status (oldest_begin sessions) held.status ≡ is_needed sessions item }
    ensures span { (base : Records) (dropped kept : List PastChange) (store : VersionedTables) (state : DatabaseState) → Holds base dropped kept store state → EachTwo LabelsRise state.sessions
        → span (oldest_begin state.sessions) store.held ≡ version_span state }
{}
