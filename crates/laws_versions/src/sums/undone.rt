//! What the undo of a sum takes away.

ghost use Rattle.std.specs.Prelude.{◌≡◌, ℕ, ℤ, neg_ℤ, true, false, List, ◌∷◌, ◌++◌, option_map, FitsSigned};
ghost use Rattle.std.specs.List.{AllByRecursion};
ghost use Rattle.std.specs.Int.{w32, int_wrapping_neg};
ghost use Rattle.column_set.specs.RecordValues.{RecordFields};
ghost use Rattle.database_state.specs.Changes.{is_sum, with_sum};
ghost use Rattle.column_set.specs.ChangedRecords.{changed_table, changed_bookmark};
ghost use Rattle.database_state.specs.Conflicts.{collide};
ghost use Rattle.database_state.specs.State.{PastChange};
ghost use Rattle.laws_versions.specs.Records.{Records, records_after_items};
ghost use Rattle.laws_versions.specs.Readers.{is_standing};
ghost use Rattle.laws_versions.specs.EscrowNumbers.{ColumnsRise, holds_number};
ghost use Rattle.laws_versions.specs.EscrowSums.{sums_by, with_sums, escrow_value, without_amount};

/// The newest record with a sum is the one without it and the sum made last, whatever sums of others came after it. So an undo
/// takes its amount from the stored number, wrapping at 32 bits, which is as well a sum of the opposite amount. Of a record whose
/// columns rise, and whose column holds a number, the sum and the opposite one leave the very record. The opposite amount may be
/// taken wrapping at 32 bits: that of -2^31 is -2^31 itself then, and its sum is the same.
pub fn an_undone_sum_is_taken_away()
    ensures last { (base : Records) (front : List PastChange) (item : PastChange) (rest : List PastChange) → is_standing item ≡ true → is_sum item.change ≡ true
        → AllByRecursion (λ later. is_standing later ≡ true → collide item.change later.change ≡ false) rest
        → records_after_items is_standing base (front ++ item ∷ rest) (changed_table item.change) (changed_bookmark item.change)
        ≡ option_map (λ values. with_sums values (sums_by item.change)) (records_after_items is_standing base (front ++ rest) (changed_table item.change) (changed_bookmark item.change)) }
    ensures number { (values : RecordFields) (column : ℕ) (amount : ℤ) → escrow_value values column ≡ without_amount (escrow_value (with_sum values column amount) column) amount }
    ensures opposite { (values : RecordFields) (column : ℕ) (amount : ℤ) → FitsSigned w32 amount → escrow_value (with_sum (with_sum values column amount) column (neg_ℤ amount)) column ≡ escrow_value values column }
    ensures very_record { (values : RecordFields) (column : ℕ) (amount : ℤ) → FitsSigned w32 amount → ColumnsRise values → holds_number values column ≡ true → with_sum (with_sum values column amount) column (neg_ℤ amount) ≡ values }
    ensures wrapped { (values : RecordFields) (column : ℕ) (amount : ℤ) → FitsSigned w32 amount → with_sum values column (int_wrapping_neg w32 amount) ≡ with_sum values column (neg_ℤ amount) }
{}
