//! Numbers in escrow columns.

ghost use Rattle.std.specs.Prelude.{◌≡◌, ℕ, true, List, [], ◌∷◌, IfSome, if◌then◌else◌};
ghost use Rattle.index_derive.specs.declared.log.Entry.{Entry};
ghost use Rattle.database_state.specs.Table.{row_at, schema_of, table_with_id};
ghost use Rattle.database_state.specs.State.{DatabaseState, PastChange};
ghost use Rattle.database_state.specs.View.{view};
ghost use Rattle.database_state.specs.Step.{state_after};
ghost use Rattle.database_state.specs.Lawful.{is_lawful};
ghost use Rattle.laws_versions.specs.Records.{Records, records_of, after_item};
ghost use Rattle.laws_versions.specs.Readers.{is_standing};
ghost use Rattle.laws_versions.specs.History.{IsHistory};
ghost use Rattle.laws_versions.specs.KeptSteps.{kept_after, base_after};
ghost use Rattle.laws_versions.specs.RecordNumbers.{HasEscrowNumbers, HasItsType, HasSingleSums, HoldsNumbers};

/// Where no change is kept, every record holds numbers in its escrow columns if those of the tables do, and no escrow column is
/// multi-valued. So it is in a database without a table.
pub fn escrow_numbers_begin_with_those_of_tables()
    ensures { (state : DatabaseState) → ((id : ℕ) → IfSome (table_with_id state.tables id) HasSingleSums)
        → ((id : ℕ) → IfSome (table_with_id state.tables id) (λ table. (bookmark : List ℕ) → IfSome (row_at table.rows bookmark) (HoldsNumbers state.number (schema_of table) bookmark)))
        → HasEscrowNumbers (records_of state.tables) [] state }
{}

/// Every lawful entry whose change is as its type has it keeps a number in each escrow column of every record: a new record has
/// the bytes of the one in whose place it comes, or zeros, and a sum has four bytes again.
pub fn lawful_entries_keep_escrow_numbers()
    ensures { (base : Records) (dropped kept : List PastChange) (state : DatabaseState) (made : Entry) → IsHistory base dropped kept state → is_lawful state made ≡ true → HasItsType made.kind → HasEscrowNumbers base kept state
        → HasEscrowNumbers (base_after state made.kind base) (kept_after state made.session.0 made.kind kept) (state_after state made) }
{}

/// So does a clean of the oldest kept change.
pub fn a_clean_keeps_escrow_numbers()
    ensures { (base : Records) (dropped : List PastChange) (item : PastChange) (kept : List PastChange) (state : DatabaseState) → IsHistory base dropped (item ∷ kept) state → HasEscrowNumbers base (item ∷ kept) state
        → HasEscrowNumbers (if is_standing item then after_item base item else base) kept state }
{}

/// Every record that a session sees holds numbers in its escrow columns.
pub fn every_record_seen_holds_numbers()
    ensures { (base : Records) (dropped kept : List PastChange) (state : DatabaseState) → IsHistory base dropped kept state → HasEscrowNumbers base kept state → (session id : ℕ)
        → IfSome (table_with_id state.tables id) (λ table. (bookmark : List ℕ) → IfSome (records_of (view state session) id bookmark) (HoldsNumbers state.number (schema_of table) bookmark)) }
{}
