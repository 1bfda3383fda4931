//! What a session is shown of the entries of all variants.

ghost use Rattle.std.specs.Prelude.{◌≡◌, ℕ, true, List};
ghost use Rattle.cursor_nav.specs.Places.{Pair, are_sorted};
ghost use Rattle.index_derive.specs.declared.rules.IndexRule.{IndexRule};
ghost use Rattle.index_derive.specs.declared.rules.Schema.{Schema};
ghost use Rattle.index_derive.specs.Entries.{derive, own_order};
ghost use Rattle.database_state.specs.Table.{rows_of, table_with_id};
ghost use Rattle.database_state.specs.Conflicts.{yields_key};
ghost use Rattle.database_state.specs.State.{DatabaseState, PastChange};
ghost use Rattle.database_state.specs.View.{newest, view};
ghost use Rattle.laws_versions.specs.KeptEntries.{has_entry};
ghost use Rattle.laws_versions.specs.Records.{Records, records_of};
ghost use Rattle.laws_versions.specs.History.{IsHistory};
ghost use Rattle.laws_versions.specs.KeySums.{SeesNoSum};
ghost use Rattle.laws_versions.specs.Variants.{HoldsVariants, shown_entries};

/// Of the entries of all variants a session is shown exactly those of the records that it sees, whatever sums it does not see:
/// the index names no column of theirs.
pub fn a_session_walks_among_the_entries_of_variants()
    ensures { (base : Records) (dropped kept : List PastChange) (state : DatabaseState) → IsHistory base dropped kept state → (session table : ℕ) (rule : IndexRule) (schema : Schema) → SeesNoSum rule table kept → (entries : List Pair)
        → HoldsVariants (records_of (newest state)) kept rule schema table entries → (key bookmark : List ℕ)
        → has_entry key bookmark (shown_entries (records_of (view state session)) rule schema table entries) ≡ yields_key rule schema key (records_of (view state session) table bookmark) }
{}

/// In order, they are the index that is derived afresh of the records that the session sees.
pub fn the_entries_that_a_session_is_shown_are_derived()
    ensures { (base : Records) (dropped kept : List PastChange) (state : DatabaseState) → IsHistory base dropped kept state → (session table : ℕ) (rule : IndexRule) (schema : Schema) → SeesNoSum rule table kept → (entries : List Pair)
        → HoldsVariants (records_of (newest state)) kept rule schema table entries → are_sorted entries ≡ true → are_sorted (own_order (rows_of (table_with_id (view state session) table))) ≡ true
        → shown_entries (records_of (view state session)) rule schema table entries ≡ derive rule schema (rows_of (table_with_id (view state session) table)) }
{}
