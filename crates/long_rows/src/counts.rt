//! How many rows refer to a value, step by step.

ghost use Rattle.std.specs.Prelude.{◌≡◌, ◌≤◌, ◌+◌, ℕ, false, List, [], ◌∷◌, ◌++◌, Option, None};
ghost use Rattle.column_set.specs.RecordValues.{lookup_by_key};
ghost use Rattle.column_set.specs.Rows.{RowFields};
ghost use Rattle.long_rows.specs.RowReferences.{references};
ghost use Rattle.long_rows.specs.ReferenceCounts.{AreRows, NewestRows, RowBefore, as_undone, reference_count, references_before, with_change, with_row};

/// A row is at most one reference to a value, however often it names the value.
pub fn a_row_refers_once()
    ensures { (id : List ℕ) (row : Option RowFields) → references id row ≤ 1 }
{}

/// A put or a drop leaves the row before it among the held changes, so that each count rises by the references of the new
/// row. An undo of a change puts the row before it back, with its references, so that each count falls by those of the row
/// that it takes away, and none rises. A clean of the oldest change takes away the references of the row before it, none
/// where the change was undone. A lock or a sum holds no row before it, and a row with the same references changes no count.
pub fn counts_after_a_step()
    ensures changed { (id bookmark : List ℕ) (is : Option RowFields) (rows : NewestRows) (held : List RowBefore) → AreRows rows
        → reference_count id (with_row bookmark is rows) (with_change bookmark rows held) ≡ reference_count id rows held + references id is }
    ensures undone { (id : List ℕ) (rows : NewestRows) (earlier later : List RowBefore) (change : RowBefore) → AreRows rows → change.is_undone ≡ false
        → reference_count id (with_row change.bookmark change.row rows) (earlier ++ as_undone change ∷ later) + references id (lookup_by_key change.bookmark rows) ≡ reference_count id rows (earlier ++ change ∷ later) }
    ensures cleaned { (id : List ℕ) (rows : NewestRows) (oldest : RowBefore) (held : List RowBefore) → reference_count id rows held + references_before id oldest ≡ reference_count id rows (oldest ∷ held) }
    ensures held { (id bookmark : List ℕ) (rows : NewestRows) (held : List RowBefore) → reference_count id rows (held ++ record { bookmark = bookmark; row = None; is_undone = false } ∷ []) ≡ reference_count id rows held }
    ensures rewritten { (id bookmark : List ℕ) (is : Option RowFields) (rows : NewestRows) (held : List RowBefore) → AreRows rows → references id is ≡ references id (lookup_by_key bookmark rows)
        → reference_count id (with_row bookmark is rows) held ≡ reference_count id rows held }
{}
