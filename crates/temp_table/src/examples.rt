//! Worked examples of temporary tables, as theorems: each function's clauses say what the definitions give, and its body is
//! empty.

ghost use Rattle.std.specs.Prelude.{◌≡◌, ◌∷◌, [], Some, None, true, false, length};
ghost use Rattle.jet_base.specs.declared.words.ColType.TheVariants.{Long, LongText, Text};
ghost use Rattle.jet_base.specs.declared.words.Way.TheVariants.{First, Last, Next, Previous};
ghost use Rattle.temp_table.specs.declared.fault.TempFault.TheVariants.{TooBig, Double};
ghost use Rattle.temp_table.specs.declared.place.TempPlace.TheVariants.{Before, After, On};
ghost use Rattle.temp_table.specs.TempColumns.{are_temp_columns};
ghost use Rattle.temp_table.specs.TempRows.{is_on, moved, moved_place, opened, put_refusal, put_row, row_size};
ghost use Rattle.temp_table.specs.Examples.{falling, large_row, letter, number, ordered, plain, read_after, rising, texts};

/// Rows come by falling number, and those of one number in the order in which they were put.
pub fn rows_in_order()
    ensures first { read_after ordered (First ∷ []) 1 ≡ letter 98 }
    ensures second { read_after ordered (First ∷ Next ∷ []) 1 ≡ letter 99 }
    ensures third { read_after ordered (First ∷ Next ∷ Next ∷ []) 1 ≡ letter 97 }
    ensures count { length ordered.rows ≡ 3 }
{}

/// Where keys are unique, a text is refused that differs from another in the case of its letters alone; nothing is current
/// before a move.
pub fn unique_keys()
    ensures put { put_refusal texts (letter 97 ∷ []) ≡ None }
    ensures double { put_refusal (put_row texts (letter 97 ∷ [])) (letter 65 ∷ []) ≡ Some Double }
    ensures other { put_refusal (put_row texts (letter 97 ∷ [])) (letter 98 ∷ []) ≡ None }
    ensures null { put_refusal (put_row texts (None ∷ [])) (None ∷ []) ≡ Some Double }
    ensures place { is_on (put_row texts (letter 97 ∷ [])).place ≡ false }
{}

/// NULL comes before all values, an empty one next; in a falling column they come last.
pub fn nulls()
    ensures rising { (put_row (put_row (put_row texts (letter 97 ∷ [])) (None ∷ [])) (Some [] ∷ [])).rows ≡ (None ∷ []) ∷ (Some [] ∷ []) ∷ (letter 97 ∷ []) ∷ [] }
    ensures falling { (put_row (put_row (opened (falling Text ∷ []) false) (None ∷ [])) (letter 97 ∷ [])).rows ≡ (letter 97 ∷ []) ∷ (None ∷ []) ∷ [] }
{}

/// A row of 1,700 bytes is put, and one of 1,701 is not, whatever its key.
pub fn largest_row()
    ensures size { row_size (large_row 133) ≡ 1700 }
    ensures put { put_refusal (opened (rising Text ∷ []) false) (large_row 133) ≡ None }
    ensures too_big { put_refusal texts (large_row 134) ≡ Some TooBig }
{}

/// Where there is no row to go to, the place is before or after all rows. From there a move comes back.
pub fn moves()
    ensures first_of_none { moved_place 0 After First ≡ Before }
    ensures last_of_none { moved_place 0 Before Last ≡ After }
    ensures last { moved_place 3 Before Last ≡ On 2 }
    ensures behind_the_last { moved_place 3 (On 2) Next ≡ After }
    ensures stays_after { moved_place 3 After Next ≡ After }
    ensures back { moved_place 3 After Previous ≡ On 2 }
    ensures before_the_first { moved_place 3 (On 0) Previous ≡ Before }
    ensures stays_before { moved_place 3 Before Previous ≡ Before }
{}

/// A put leaves the place on its row, wherever the new row stands.
pub fn place_stays()
    ensures in_front { (put_row (moved ordered First) (number 3 ∷ letter 100 ∷ [])).place ≡ On 1 }
    ensures behind { (put_row (moved ordered First) (number 2 ∷ letter 100 ∷ [])).place ≡ On 0 }
    ensures at_the_end { (put_row (moved (moved ordered Last) Next) (number 0 ∷ letter 100 ∷ [])).place ≡ After }
{}

/// Key columns stand first, and no column is of a long type.
pub fn columns()
    ensures legal { are_temp_columns (falling Long ∷ rising Text ∷ plain Long ∷ []) ≡ true }
    ensures no_key { are_temp_columns (plain Long ∷ []) ≡ false }
    ensures behind { are_temp_columns (rising Long ∷ plain Long ∷ rising Long ∷ []) ≡ false }
    ensures long { are_temp_columns (rising Long ∷ plain LongText ∷ []) ≡ false }
{}
