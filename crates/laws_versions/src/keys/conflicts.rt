//! Key conflicts, told by the variants of records.

ghost use Rattle.std.specs.Prelude.{◌≡◌, ℕ, List};
ghost use Rattle.index_derive.specs.declared.rules.IndexRule.{IndexRule};
ghost use Rattle.index_derive.specs.declared.rules.Schema.{Schema};
ghost use Rattle.database_state.specs.State.{DatabaseState, PastChange, transaction_of};
ghost use Rattle.database_state.specs.View.{newest};
ghost use Rattle.database_state.specs.Conflicts.{is_concurrent, has_key_conflict};
ghost use Rattle.laws_versions.specs.Records.{Records, records_of};
ghost use Rattle.laws_versions.specs.History.{IsHistory};
ghost use Rattle.laws_versions.specs.KeySums.{HasKeyBefores, SeesNoSum};
ghost use Rattle.laws_versions.specs.Variants.{is_key_held};

/// A key conflict is there where a concurrent change has the key in the variant before it or in the next one, sums among the
/// changes, where the index sees none of them: no record after a change need be kept, and none before a lock or a sum.
pub fn variants_tell_key_conflicts()
    ensures { (base : Records) (dropped kept : List PastChange) (state : DatabaseState) → IsHistory base dropped kept state → (session table : ℕ) (schema : Schema) (rule : IndexRule)
        → SeesNoSum rule table kept → HasKeyBefores rule schema table base kept → (key : List ℕ) → has_key_conflict state session table schema rule key ≡ is_key_held (is_concurrent session (transaction_of state session)) (records_of (newest state)) table rule schema key kept }
{}
