//! Rows, their bytes and their sizes.

ghost use Rattle.std.specs.Prelude.{◌≡◌, [], ◌∷◌, true, false, codes, nat_le, replicate, Some, None};
ghost use Rattle.column_set.specs.declared.rows.RowValue.TheVariants.{Here, Apart};
ghost use Rattle.column_set.specs.Rows.{apart_at, here_fields, is_row, is_row_of, largest_row, row_bytes, row_size};

/// A count of two values, and each with its column, its form and its length.
pub fn bytes_of_a_number_and_a_text()
    ensures bytes { row_bytes ((1, Here (2 ∷ 0 ∷ 0 ∷ 0 ∷ []) ∷ []) ∷ (128, Here (codes "bob") ∷ []) ∷ []) ≡ 2 ∷ 0 ∷ 1 ∷ 0 ∷ 0 ∷ 4 ∷ 0 ∷ 2 ∷ 0 ∷ 0 ∷ 0 ∷ 128 ∷ 0 ∷ 0 ∷ 3 ∷ 0 ∷ codes "bob" }
    ensures size { row_size ((1, Here (2 ∷ 0 ∷ 0 ∷ 0 ∷ []) ∷ []) ∷ (128, Here (codes "bob") ∷ []) ∷ []) ≡ 19 }
{}

/// A value that is kept apart has 16 bytes in its row, and none that can be read there.
pub fn bytes_of_a_value_kept_apart()
    ensures bytes { row_bytes ((256, Apart 7 2 300 ∷ []) ∷ []) ≡ 1 ∷ 0 ∷ 0 ∷ 1 ∷ 1 ∷ 16 ∷ 0 ∷ 7 ∷ 0 ∷ 0 ∷ 0 ∷ 0 ∷ 0 ∷ 0 ∷ 0 ∷ 2 ∷ 0 ∷ 0 ∷ 0 ∷ 44 ∷ 1 ∷ 0 ∷ 0 ∷ [] }
    ensures size { row_size ((256, Apart 7 2 300 ∷ []) ∷ []) ≡ 23 }
    ensures here { here_fields ((256, Here (codes "a") ∷ Apart 7 2 300 ∷ []) ∷ []) ≡ (256, codes "a" ∷ [] ∷ []) ∷ [] }
    ensures place { apart_at ((256, Here (codes "a") ∷ Apart 7 2 300 ∷ []) ∷ []) 256 1 ≡ Some (7, 2, 300) }
    ensures no_place { apart_at ((256, Here (codes "a") ∷ Apart 7 2 300 ∷ []) ∷ []) 256 0 ≡ None }
{}

/// A value of 255 bytes stands in the row, and one of 256 apart; a column has a value, and columns rise.
pub fn what_a_row_is()
    ensures empty { is_row [] ≡ true }
    ensures here { is_row ((256, Here (replicate 255 97) ∷ []) ∷ []) ≡ true }
    ensures long_here { is_row ((256, Here (replicate 256 97) ∷ []) ∷ []) ≡ false }
    ensures apart { is_row ((256, Apart 7 2 256 ∷ []) ∷ []) ≡ true }
    ensures short_apart { is_row ((256, Apart 7 2 255 ∷ []) ∷ []) ≡ false }
    ensures longest_apart { is_row ((256, Apart 7 2 1048576 ∷ []) ∷ []) ≡ true }
    ensures too_long_apart { is_row ((256, Apart 7 2 1048577 ∷ []) ∷ []) ≡ false }
    ensures no_value { is_row ((1, []) ∷ []) ≡ false }
    ensures falling { is_row ((2, Here [] ∷ []) ∷ (1, Here [] ∷ []) ∷ []) ≡ false }
    ensures twice { is_row ((1, Here [] ∷ []) ∷ (1, Here [] ∷ []) ∷ []) ≡ false }
{}

/// A row of 1,700 bytes is the longest that is written to a page. One byte more, and it is still a row.
pub fn the_longest_row()
    ensures longest { let text = Here (replicate 255 97) in row_size ((200, text ∷ text ∷ text ∷ text ∷ text ∷ text ∷ Here (replicate 133 97) ∷ []) ∷ []) ≡ largest_row }
    ensures too_long { let text = Here (replicate 255 97) in nat_le (row_size ((200, text ∷ text ∷ text ∷ text ∷ text ∷ text ∷ Here (replicate 134 97) ∷ []) ∷ [])) largest_row ≡ false }
    ensures row { let text = Here (replicate 255 97) in is_row ((200, text ∷ text ∷ text ∷ text ∷ text ∷ text ∷ Here (replicate 134 97) ∷ []) ∷ []) ≡ true }
{}

/// Values of up to 255 bytes of a record stand in its row, and longer ones apart with their length.
pub fn the_row_of_a_record()
    ensures here { is_row_of ((128, Here (codes "bob") ∷ []) ∷ []) ((128, codes "bob" ∷ []) ∷ []) ≡ true }
    ensures apart { is_row_of ((256, Apart 7 2 300 ∷ []) ∷ []) ((256, replicate 300 97 ∷ []) ∷ []) ≡ true }
    ensures other_length { is_row_of ((256, Apart 7 2 301 ∷ []) ∷ []) ((256, replicate 300 97 ∷ []) ∷ []) ≡ false }
    ensures other_column { is_row_of ((129, Here (codes "bob") ∷ []) ∷ []) ((128, codes "bob" ∷ []) ∷ []) ≡ false }
    ensures one_less { is_row_of [] ((128, codes "bob" ∷ []) ∷ []) ≡ false }
{}
