//! Sums of escrow columns, which no index sees.

ghost use Rattle.std.specs.Prelude.{◌≡◌, ℕ, true, List, [], ◌∷◌, IfSome, if◌then◌else◌};
ghost use Rattle.std.specs.List.{AllByRecursion};
ghost use Rattle.index_derive.specs.declared.log.Entry.{Entry};
ghost use Rattle.database_state.specs.Table.{schema_of, table_with_id};
ghost use Rattle.database_state.specs.State.{DatabaseState, PastChange};
ghost use Rattle.database_state.specs.Step.{state_after};
ghost use Rattle.database_state.specs.Lawful.{is_lawful};
ghost use Rattle.laws_versions.specs.Records.{Records, records_of, after_item};
ghost use Rattle.laws_versions.specs.Readers.{is_standing};
ghost use Rattle.laws_versions.specs.History.{IsHistory};
ghost use Rattle.laws_versions.specs.KeptSteps.{kept_after, base_after};
ghost use Rattle.laws_versions.specs.KeySums.{HasEscrowSums, HasKeyBefores, IndexesSeeNoSum, IsPlainIndex};

/// Where no change is kept, the indexes are apart from sums if each names columns that are there and no escrow column. So it is
/// in a database without a table.
pub fn indexes_begin_apart_from_sums()
    ensures { (state : DatabaseState) → ((id : ℕ) → IfSome (table_with_id state.tables id) (λ table. AllByRecursion (IsPlainIndex table) table.indexes)) → HasEscrowSums (records_of state.tables) [] state }
{}

/// Every lawful entry keeps all indexes apart from sums, those that it makes among them. With the history they are so in each
/// state that lawful entries reach.
pub fn lawful_entries_keep_indexes_apart_from_sums()
    ensures { (base : Records) (dropped kept : List PastChange) (state : DatabaseState) (made : Entry) → IsHistory base dropped kept state → is_lawful state made ≡ true → HasEscrowSums base kept state
        → HasEscrowSums (base_after state made.kind base) (kept_after state made.session.0 made.kind kept) (state_after state made) }
{}

/// So does a clean of the oldest kept change.
pub fn a_clean_keeps_indexes_apart_from_sums()
    ensures { (base : Records) (item : PastChange) (kept : List PastChange) (state : DatabaseState) → HasEscrowSums base (item ∷ kept) state → HasEscrowSums (if is_standing item then after_item base item else base) kept state }
{}

/// Then no index sees a sum, neither a kept one nor one that a lawful entry makes, and the record before a sum has the keys of
/// the one that the changes before it leave.
pub fn no_index_sees_a_sum()
    ensures kept { (base : Records) (kept : List PastChange) (state : DatabaseState) → HasEscrowSums base kept state → IndexesSeeNoSum kept state }
    ensures next { (base : Records) (dropped kept : List PastChange) (state : DatabaseState) (made : Entry) → IsHistory base dropped kept state → is_lawful state made ≡ true → HasEscrowSums base kept state
        → IndexesSeeNoSum (kept_after state made.session.0 made.kind kept) state }
    ensures befores { (base : Records) (kept : List PastChange) (state : DatabaseState) → HasEscrowSums base kept state → (id : ℕ)
        → IfSome (table_with_id state.tables id) (λ table. AllByRecursion (λ rule. HasKeyBefores rule (schema_of table) table.id base kept) table.indexes) }
{}
