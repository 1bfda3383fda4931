//! What a row stands for as long values come and go.

ghost use Rattle.std.specs.Prelude.{◌≡◌, ◌<◌, ℕ, List, [], Some, None, true, IsTrue};
ghost use Rattle.column_set.specs.RecordValues.{RecordFields, remove_by_number, with_values};
ghost use Rattle.column_set.specs.Rows.{RowFields, all_here, here_fields, is_all_here};
ghost use Rattle.long_value.specs.Values.{LongValue, Values, put_value, value_of, with_reference, without_reference};
ghost use Rattle.long_rows.specs.RowReferences.{identifiers, references};
ghost use Rattle.long_rows.specs.ReferenceCounts.{NamesNoOther, with_all_taken};
ghost use Rattle.long_rows.specs.WholeRows.{StandsFor, is_whole, record_in};
ghost use Rattle.long_rows.specs.KeptRows.{Found, kept_row};

/// A row that keeps each of its values stands for the same record whatever long values there are: it can be read whole, and names
/// none. A put makes such a row of a record that has no value of more than 255 bytes.
pub fn rows_without_long_values()
    ensures shown { (values : Values) (fields : RecordFields) → record_in values (all_here fields) ≡ fields }
    ensures here { (values : Values) (row : RowFields) → row ≡ all_here (here_fields row) → record_in values row ≡ here_fields row }
    ensures whole { (values : Values) (fields : RecordFields) → is_whole values (all_here fields) ≡ true }
    ensures names { (fields : RecordFields) → identifiers (Some (all_here fields)) ≡ [] }
    ensures kept { (found : Found) (fields : RecordFields) → IsTrue (is_all_here fields) → kept_row found fields ≡ all_here fields }
{}

/// A row stands for its record still once a value is put that was not there, one has a reference more, or one less of several, and
/// where one that the row does not name has a reference less. So it does once another row has taken its values.
pub fn rows_stand_as_values_change()
    ensures put { (values : Values) (id : List ℕ) (value : LongValue) (row : RowFields) (fields : RecordFields) → value_of id values ≡ None → StandsFor values row fields → StandsFor (put_value id value values) row fields }
    ensures shared { (values : Values) (id : List ℕ) (row : RowFields) (fields : RecordFields) → StandsFor values row fields → StandsFor (with_reference id values) row fields }
    ensures released { (values : Values) (id : List ℕ) (value : LongValue) (row : RowFields) (fields : RecordFields) → value_of id values ≡ Some value → 1 < value.count → StandsFor values row fields → StandsFor (without_reference id values) row fields }
    ensures beside { (values : Values) (id : List ℕ) (row : RowFields) (fields : RecordFields) → references id (Some row) ≡ 0 → StandsFor values row fields → StandsFor (without_reference id values) row fields }
    ensures taken { (values : Values) (given : List (List ℕ × List ℕ)) (row : RowFields) (fields : RecordFields) → StandsFor values row fields → StandsFor (with_all_taken given values) row fields }
{}

/// A row without the values of a column names no value that the row does not, and stands for the record without them.
pub fn rows_without_a_columns_values()
    ensures names { (row : RowFields) (column : ℕ) → NamesNoOther (Some (remove_by_number column row)) (Some row) }
    ensures shown { (values : Values) (row : RowFields) (column : ℕ) → record_in values (remove_by_number column row) ≡ with_values (record_in values row) column [] }
    ensures stand { (values : Values) (row : RowFields) (fields : RecordFields) (column : ℕ) → StandsFor values row fields → StandsFor values (remove_by_number column row) (with_values fields column []) }
{}
