//! Worked examples.

ghost use Rattle.std.specs.Prelude.{◌≡◌, [], ◌∷◌, true, false};
ghost use Rattle.column_set.specs.declared.rows.RowValue.TheVariants.{Here, Apart};
ghost use Rattle.column_set.specs.Rows.{row_size};
ghost use Rattle.long_rows.specs.RowReferences.{identifier};
ghost use Rattle.long_rows.specs.ReferenceCounts.{with_all_taken};
ghost use Rattle.long_rows.specs.WholeRows.{is_whole, record_in};
ghost use Rattle.long_rows.specs.KeptRows.{given_values, kept_row};
ghost use Rattle.long_rows.specs.Samples.{first_before, first_record, first_row, first_values, full_before, longest_here, nothing_before, one_of, other_apart, shortest_apart};

/// A value of 255 bytes stands in its row and takes 260 bytes of it, and one of 256 is kept apart and takes 21. The row stands for
/// the record once the value is there, and cannot be read whole before.
pub fn rows_that_are_kept()
    ensures here { kept_row nothing_before ((256, longest_here ∷ []) ∷ []) ≡ (256, Here longest_here ∷ []) ∷ [] }
    ensures here_size { row_size ((256, Here longest_here ∷ []) ∷ []) ≡ 262 }
    ensures apart { kept_row nothing_before first_record ≡ first_row }
    ensures apart_size { row_size ((256, Apart 5 0 256 ∷ []) ∷ []) ≡ 23 }
    ensures shown { record_in first_values first_row ≡ first_record }
    ensures whole { is_whole first_values first_row ≡ true }
    ensures missing { is_whole [] first_row ≡ false }
    ensures other_length { is_whole first_values ((256, Apart 5 0 257 ∷ []) ∷ []) ≡ false }
{}

/// An equal value under the same column and sequence of the row before is shared. Another value is not, nor is an equal one under
/// another column or sequence, or one that has as many references as it may: these get the entry's number, and places from 0 on.
pub fn values_that_are_shared()
    ensures equal { kept_row first_before first_record ≡ first_row }
    ensures other { kept_row first_before ((256, other_apart ∷ []) ∷ []) ≡ (256, Apart 9 0 256 ∷ []) ∷ [] }
    ensures column { kept_row first_before ((257, shortest_apart ∷ []) ∷ []) ≡ (257, Apart 9 0 256 ∷ []) ∷ [] }
    ensures sequence { kept_row first_before ((256, other_apart ∷ shortest_apart ∷ []) ∷ []) ≡ (256, Apart 9 0 256 ∷ Apart 9 1 256 ∷ []) ∷ [] }
    ensures beside { kept_row first_before ((256, shortest_apart ∷ other_apart ∷ []) ∷ (257, other_apart ∷ []) ∷ []) ≡ (256, Apart 5 0 256 ∷ Apart 9 0 256 ∷ []) ∷ (257, Apart 9 1 256 ∷ []) ∷ [] }
    ensures full { kept_row full_before first_record ≡ (1, Here (7 ∷ []) ∷ []) ∷ (256, Apart 9 0 256 ∷ []) ∷ [] }
{}

/// The row that entry 5 makes takes a new value. The row that entry 9 makes of an equal record takes one reference more to it, and
/// one that names it twice takes one reference too.
pub fn values_that_are_taken()
    ensures new { with_all_taken (given_values first_row first_record) [] ≡ first_values }
    ensures shared { with_all_taken (given_values first_row first_record) first_values ≡ (identifier 5 0, one_of 2 shortest_apart) ∷ [] }
    ensures twice { given_values ((256, Apart 5 0 256 ∷ []) ∷ (257, Apart 5 0 256 ∷ []) ∷ []) ((256, shortest_apart ∷ []) ∷ (257, shortest_apart ∷ []) ∷ []) ≡ (identifier 5 0, shortest_apart) ∷ [] }
{}
