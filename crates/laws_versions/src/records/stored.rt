//! Records that fit their row and their columns.

ghost use Rattle.std.specs.Prelude.{◌≡◌, ℕ, true, false, List, [], ◌∷◌, IfSome, if◌then◌else◌};
ghost use Rattle.index_derive.specs.declared.log.Entry.{Entry};
ghost use Rattle.database_state.specs.Table.{row_at, schema_of, table_with_id};
ghost use Rattle.database_state.specs.State.{DatabaseState, PastChange};
ghost use Rattle.database_state.specs.View.{view};
ghost use Rattle.database_state.specs.Step.{state_after};
ghost use Rattle.database_state.specs.Lawful.{is_lawful};
ghost use Rattle.laws_versions.specs.Records.{Records, records_of, after_item};
ghost use Rattle.laws_versions.specs.Readers.{is_standing};
ghost use Rattle.laws_versions.specs.History.{IsHistory};
ghost use Rattle.laws_versions.specs.KeptSteps.{kept_after, base_after};
ghost use Rattle.laws_versions.specs.Variants.{HasNoSums};
ghost use Rattle.laws_versions.specs.EachRecord.{EachRecordHas};
ghost use Rattle.laws_versions.specs.RecordNumbers.{HasEscrowNumbers, HasItsType};
ghost use Rattle.laws_versions.specs.StoredRecords.{IsStored, leaves_records_short};

/// Where no change is kept, every record fits if those of the tables do.
pub fn stored_records_begin_with_those_of_tables()
    ensures { (state : DatabaseState) → ((id : ℕ) → IfSome (table_with_id state.tables id) (λ table. (bookmark : List ℕ) → IfSome (row_at table.rows bookmark) (IsStored state.number (schema_of table) bookmark)))
        → EachRecordHas IsStored (records_of state.tables) [] state }
{}

/// Every lawful entry keeps all records fitting their row and their columns, but for one that makes a version or an auto column:
/// where no escrow column is changed, and with sums, where each escrow column holds a number, whose four bytes a sum replaces.
pub fn lawful_entries_keep_stored_records()
    ensures without_sums { (base : Records) (dropped kept : List PastChange) (state : DatabaseState) (made : Entry) → IsHistory base dropped kept state → is_lawful state made ≡ true → HasNoSums kept → HasNoSums (kept_after state made.session.0 made.kind kept)
        → leaves_records_short made.kind ≡ false → EachRecordHas IsStored base kept state → EachRecordHas IsStored (base_after state made.kind base) (kept_after state made.session.0 made.kind kept) (state_after state made) }
    ensures with_sums { (base : Records) (dropped kept : List PastChange) (state : DatabaseState) (made : Entry) → IsHistory base dropped kept state → is_lawful state made ≡ true → HasEscrowNumbers base kept state → HasItsType made.kind
        → leaves_records_short made.kind ≡ false → EachRecordHas IsStored base kept state → EachRecordHas IsStored (base_after state made.kind base) (kept_after state made.session.0 made.kind kept) (state_after state made) }
{}

/// So does a clean of the oldest kept change.
pub fn a_clean_keeps_stored_records()
    ensures without_sums { (base : Records) (dropped : List PastChange) (item : PastChange) (kept : List PastChange) (state : DatabaseState) → IsHistory base dropped (item ∷ kept) state → HasNoSums (item ∷ kept)
        → EachRecordHas IsStored base (item ∷ kept) state → EachRecordHas IsStored (if is_standing item then after_item base item else base) kept state }
    ensures with_sums { (base : Records) (dropped : List PastChange) (item : PastChange) (kept : List PastChange) (state : DatabaseState) → IsHistory base dropped (item ∷ kept) state → HasEscrowNumbers base (item ∷ kept) state
        → EachRecordHas IsStored base (item ∷ kept) state → EachRecordHas IsStored (if is_standing item then after_item base item else base) kept state }
{}

/// Every record that a session sees fits.
pub fn every_record_seen_is_stored()
    ensures without_sums { (base : Records) (dropped kept : List PastChange) (state : DatabaseState) → IsHistory base dropped kept state → HasNoSums kept → EachRecordHas IsStored base kept state → (session id : ℕ)
        → IfSome (table_with_id state.tables id) (λ table. (bookmark : List ℕ) → IfSome (records_of (view state session) id bookmark) (IsStored state.number (schema_of table) bookmark)) }
    ensures with_sums { (base : Records) (dropped kept : List PastChange) (state : DatabaseState) → IsHistory base dropped kept state → HasEscrowNumbers base kept state → EachRecordHas IsStored base kept state → (session id : ℕ)
        → IfSome (table_with_id state.tables id) (λ table. (bookmark : List ℕ) → IfSome (records_of (view state session) id bookmark) (IsStored state.number (schema_of table) bookmark)) }
{}
