//! The row that a put makes of a record.

ghost use Rattle.std.specs.Prelude.{◌≡◌, ◌<◌, ◌^◌, ◌==◌, ℕ, map, false, None, Some, IsTrue};
ghost use Rattle.std.specs.List.{AllByRecursion};
ghost use Rattle.column_set.specs.RecordValues.{RecordFields, record_size};
ghost use Rattle.column_set.specs.Rows.{is_row, is_row_of, row_size};
ghost use Rattle.long_value.specs.Values.{value_of};
ghost use Rattle.long_rows.specs.RowReferences.{identifier, identifiers};
ghost use Rattle.long_rows.specs.ReferenceCounts.{with_all_taken};
ghost use Rattle.long_rows.specs.WholeRows.{StandsFor};
ghost use Rattle.long_rows.specs.KeptRows.{Found, MayKeep, MayTake, given_values, kept_row};

/// The row that a put makes is the in-page form of the record, of the record's size.
pub fn form_of_a_kept_row()
    ensures form { (found : Found) (fields : RecordFields) → IsTrue (is_row_of (kept_row found fields) fields) }
    ensures size { (found : Found) (fields : RecordFields) → row_size (kept_row found fields) ≡ record_size fields }
    ensures row { (found : Found) (fields : RecordFields) → MayKeep found fields → IsTrue (is_row (kept_row found fields)) }
{}

/// The values that a put takes are those that its row names, each once. Each may be taken, and once they are the row stands for
/// the record. None of them is of another entry than the put's, where no value was.
pub fn kept_rows_stand_for_their_records()
    ensures names { (found : Found) (fields : RecordFields) → map (λ one. one.0) (given_values (kept_row found fields) fields) ≡ identifiers (Some (kept_row found fields)) }
    ensures take { (found : Found) (fields : RecordFields) → MayKeep found fields → AllByRecursion (MayTake found.values) (given_values (kept_row found fields) fields) }
    ensures stand { (found : Found) (fields : RecordFields) → MayKeep found fields → StandsFor (with_all_taken (given_values (kept_row found fields) fields) found.values) (kept_row found fields) fields }
    ensures none_other { (found : Found) (fields : RecordFields) (number place : ℕ) → MayKeep found fields → (number == found.number) ≡ false → number < 2 ^ 64 → place < 2 ^ 32 → value_of (identifier number place) found.values ≡ None
        → value_of (identifier number place) (with_all_taken (given_values (kept_row found fields) fields) found.values) ≡ None }
{}
