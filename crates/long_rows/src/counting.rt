//! Rows in use, and the counts of their values.

ghost use Rattle.std.specs.Prelude.{◌≡◌, ◌<◌, ℕ, false, List, ◌∷◌, ◌++◌, map, Option, Some};
ghost use Rattle.column_set.specs.RecordValues.{RecordFields, lookup_by_key};
ghost use Rattle.column_set.specs.Rows.{RowFields};
ghost use Rattle.long_value.specs.Values.{AreLong, Values, without_reference};
ghost use Rattle.long_rows.specs.RowReferences.{identifiers, references, removed_identifiers};
ghost use Rattle.long_rows.specs.ReferenceCounts.{AreRows, HasCounts, NamesNoOther, NewestRows, RowBefore, as_undone, count_of, identifiers_before, with_all_released, with_change, with_row, with_all_taken, with_taken};
ghost use Rattle.long_rows.specs.WholeRows.{StandsFor};
ghost use Rattle.long_rows.specs.KeptRows.{Found, given_values, kept_row};
ghost use Rattle.long_rows.specs.RowsInUse.{IsInUse};

/// Where each value has as many references as rows in use name it, each value that a row in use names is there. So each row in
/// use that stands for a record still does once an undo or a clean has given up the references that it takes away, or a row that
/// is rewritten those that it no longer names.
pub fn rows_in_use_stand()
    ensures there { (values : Values) (rows : NewestRows) (held : List RowBefore) (row : RowFields) (id : List ℕ) → HasCounts values rows held → IsInUse rows held row → 0 < references id (Some row) → 0 < count_of id values }
    ensures undone { (values : Values) (rows : NewestRows) (earlier later : List RowBefore) (change : RowBefore) (row : RowFields) (fields : RecordFields) → AreRows rows → change.is_undone ≡ false → HasCounts values rows (earlier ++ change ∷ later)
        → IsInUse (with_row change.bookmark change.row rows) (earlier ++ as_undone change ∷ later) row → StandsFor values row fields → StandsFor (with_all_released (identifiers (lookup_by_key change.bookmark rows)) values) row fields }
    ensures cleaned { (values : Values) (rows : NewestRows) (oldest : RowBefore) (held : List RowBefore) (row : RowFields) (fields : RecordFields) → HasCounts values rows (oldest ∷ held)
        → IsInUse rows held row → StandsFor values row fields → StandsFor (with_all_released (identifiers_before oldest) values) row fields }
    ensures rewritten { (values : Values) (bookmark : List ℕ) (is : Option RowFields) (rows : NewestRows) (held : List RowBefore) (row : RowFields) (fields : RecordFields) → AreRows rows → NamesNoOther is (lookup_by_key bookmark rows) → HasCounts values rows held
        → IsInUse (with_row bookmark is rows) held row → StandsFor values row fields → StandsFor (with_all_released (removed_identifiers (lookup_by_key bookmark rows) is) values) row fields }
{}

/// Each value has as many references as rows in use name it, once a put has taken the values of the row that it makes.
pub fn counts_after_a_put()
    ensures { (found : Found) (fields : RecordFields) (bookmark : List ℕ) (rows : NewestRows) (held : List RowBefore) → AreRows rows → HasCounts found.values rows held
        → HasCounts (with_all_taken (given_values (kept_row found fields) fields) found.values) (with_row bookmark (Some (kept_row found fields)) rows) (with_change bookmark rows held) }
{}

/// The values are what they were once a reference that was taken is given up again, be it to a new value or to one that was there.
/// So they are once a row gives up all that it took.
pub fn values_that_are_given_back()
    ensures one { (values : Values) (id bytes : List ℕ) → AreLong values → without_reference id (with_taken values (id, bytes)) ≡ values }
    ensures all { (values : Values) (given : List (List ℕ × List ℕ)) (row : Option RowFields) → AreLong values → map (λ one. one.0) given ≡ identifiers row → with_all_released (identifiers row) (with_all_taken given values) ≡ values }
{}
