//! What becomes of the long values themselves, so that each keeps as many references as it has.

ghost use Rattle.std.specs.Prelude.{◌≡◌, ℕ, false, List, [], ◌∷◌, ◌++◌, map, Option, nat_lt, is_some};
ghost use Rattle.column_set.specs.RecordValues.{lookup_by_key};
ghost use Rattle.column_set.specs.Rows.{RowFields};
ghost use Rattle.long_value.specs.Values.{AreLong, Values, value_of};
ghost use Rattle.long_rows.specs.RowReferences.{identifiers, removed_identifiers};
ghost use Rattle.long_rows.specs.ReferenceCounts.{AreRows, HasCounts, NamesNoOther, NewestRows, RowBefore, as_undone, identifiers_before, reference_count, with_all_released, with_all_taken, with_change, with_row};

/// Where no row is there, no value is. A put takes the values that its row names: it shares those that are there and puts the
/// others. A drop takes none. An undo gives up those of the row that it takes away, and a clean those of the row before that
/// it drops. A row that is rewritten to one that names no other value gives up those that it no longer names, while the rows
/// before it stay. So each value keeps as many references as rows, and rows before of changes that are not undone, refer to it.
pub fn values_keep_their_counts()
    ensures none { HasCounts [] [] [] }
    ensures changed { (values : Values) (bookmark : List ℕ) (is : Option RowFields) (given : List (List ℕ × List ℕ)) (rows : NewestRows) (held : List RowBefore) → AreRows rows → map (λ one. one.0) given ≡ identifiers is
        → HasCounts values rows held → HasCounts (with_all_taken given values) (with_row bookmark is rows) (with_change bookmark rows held) }
    ensures undone { (values : Values) (rows : NewestRows) (earlier later : List RowBefore) (change : RowBefore) → AreRows rows → change.is_undone ≡ false
        → HasCounts values rows (earlier ++ change ∷ later) → HasCounts (with_all_released (identifiers (lookup_by_key change.bookmark rows)) values) (with_row change.bookmark change.row rows) (earlier ++ as_undone change ∷ later) }
    ensures cleaned { (values : Values) (rows : NewestRows) (oldest : RowBefore) (held : List RowBefore)
        → HasCounts values rows (oldest ∷ held) → HasCounts (with_all_released (identifiers_before oldest) values) rows held }
    ensures rewritten { (values : Values) (bookmark : List ℕ) (is : Option RowFields) (rows : NewestRows) (held : List RowBefore) → AreRows rows → NamesNoOther is (lookup_by_key bookmark rows)
        → HasCounts values rows held → HasCounts (with_all_released (removed_identifiers (lookup_by_key bookmark rows) is) values) (with_row bookmark is rows) held }
{}

/// A value is there exactly where a row, or the row before of a change that is not undone, refers to it: none stands at 0.
pub fn referred_values_are_there()
    ensures { (values : Values) (rows : NewestRows) (held : List RowBefore) (id : List ℕ) → AreLong values → HasCounts values rows held → is_some (value_of id values) ≡ nat_lt 0 (reference_count id rows held) }
{}
