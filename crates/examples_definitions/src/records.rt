//! Records and their sizes.

ghost use Rattle.std.specs.Prelude.{◌≡◌, ℕ, List, [], ◌∷◌, true, false, codes, replicate, ◌++◌};
ghost use Rattle.jet_base.specs.Ids.{column_id};
ghost use Rattle.jet_base.specs.declared.words.ColType.TheVariants as kind;
ghost use Rattle.column_set.specs.Record.{is_record};
ghost use Rattle.column_set.specs.RecordValues.{record_size, values_of, with_values, lookup_by_key, put_by_key, remove_by_key, bytes_lt, bytes_le, record_fits, is_missing_a_value, value_fits};
ghost use Rattle.examples_definitions.specs.Samples.{sum_column, multi_column, note_column};

/// A count of 2 bytes, 5 and 4 bytes for a number, 5 and 3 for a text.
pub fn size_of_a_number_and_a_text()
    ensures { record_size ((1, (2 ∷ 0 ∷ 0 ∷ 0 ∷ []) ∷ []) ∷ (128, codes "bob" ∷ []) ∷ []) ≡ 19 }
{}

/// The row of the record without a value is its count alone.
pub fn size_of_nothing()
    ensures { record_size [] ≡ 2 }
{}

/// A value of 255 bytes stands in its row, and one of 256 is kept apart.
pub fn size_of_long_values()
    ensures in_the_row { record_size ((256, replicate 255 97 ∷ []) ∷ []) ≡ 262 }
    ensures apart { record_size ((256, replicate 256 97 ∷ []) ∷ []) ≡ 23 }
    ensures each_value { record_size ((256, [] ∷ replicate 1000 97 ∷ codes "a" ∷ []) ∷ []) ≡ 34 }
{}

/// A Long and six texts of 255 bytes.
pub fn size_of_six_texts()
    ensures { let text = replicate 255 97 ∷ [] in record_size ((1, (0 ∷ 0 ∷ 0 ∷ 0 ∷ []) ∷ []) ∷ (128, text) ∷ (129, text) ∷ (130, text) ∷ (131, text) ∷ (132, text) ∷ (133, text) ∷ []) ≡ 1571 }
{}

/// A column's values are replaced together, and with none the column is NULL.
pub fn values_of_a_column()
    ensures added { with_values ((1, codes "a" ∷ []) ∷ []) 256 (codes "b" ∷ codes "c" ∷ []) ≡ (1, codes "a" ∷ []) ∷ (256, codes "b" ∷ codes "c" ∷ []) ∷ [] }
    ensures in_order { with_values ((256, codes "a" ∷ []) ∷ []) 1 (codes "b" ∷ []) ≡ (1, codes "b" ∷ []) ∷ (256, codes "a" ∷ []) ∷ [] }
    ensures replaced { with_values ((1, codes "a" ∷ []) ∷ (256, codes "b" ∷ []) ∷ []) 1 (codes "x" ∷ []) ≡ (1, codes "x" ∷ []) ∷ (256, codes "b" ∷ []) ∷ [] }
    ensures removed { with_values ((1, codes "a" ∷ []) ∷ (256, codes "b" ∷ []) ∷ []) 1 [] ≡ (256, codes "b" ∷ []) ∷ [] }
    ensures read { values_of ((1, codes "a" ∷ []) ∷ (256, codes "b" ∷ codes "c" ∷ []) ∷ []) 256 ≡ codes "b" ∷ codes "c" ∷ [] }
    ensures none { values_of ((1, codes "a" ∷ []) ∷ []) 2 ≡ [] }
{}

/// Byte strings are compared byte by byte, and one comes before those that it begins.
pub fn order_of_byte_strings()
    ensures first_byte { bytes_lt (codes "ab") (codes "b") ≡ true }
    ensures prefix { bytes_lt (codes "ab") (codes "abc") ≡ true }
    ensures itself { bytes_lt (codes "ab") (codes "ab") ≡ false }
    ensures itself_or_below { bytes_le (codes "ab") (codes "ab") ≡ true }
{}

/// Records of a table by their bookmarks.
pub fn association_lists()
    ensures put { put_by_key (codes "b") (codes "2") ((codes "a", codes "1") ∷ (codes "c", codes "3") ∷ []) ≡ (codes "a", codes "1") ∷ (codes "b", codes "2") ∷ (codes "c", codes "3") ∷ [] }
    ensures replaced { put_by_key (codes "a") (codes "2") ((codes "a", codes "1") ∷ (codes "c", codes "3") ∷ []) ≡ (codes "a", codes "2") ∷ (codes "c", codes "3") ∷ [] }
    ensures found { lookup_by_key (codes "c") ((codes "a", codes "1") ∷ (codes "c", codes "3") ∷ []) ≡ Some (codes "3") }
    ensures absent { lookup_by_key (codes "b") ((codes "a", codes "1") ∷ (codes "c", codes "3") ∷ []) ≡ None }
    ensures removed { remove_by_key (codes "a") ((codes "a", codes "1") ∷ (codes "c", codes "3") ∷ []) ≡ (codes "c", codes "3") ∷ [] }
{}

/// A table takes a record where each value fits its column and each sum has its value.
pub fn records_that_a_table_takes()
    ensures fits { record_fits (sum_column ∷ multi_column 256 ∷ []) ((1, (0 ∷ 0 ∷ 0 ∷ 0 ∷ []) ∷ []) ∷ (256, codes "a" ∷ codes "b" ∷ []) ∷ []) ≡ true }
    ensures without_the_sum { record_fits (sum_column ∷ multi_column 256 ∷ []) ((256, codes "a" ∷ []) ∷ []) ≡ false }
    ensures unknown_column { record_fits (multi_column 256 ∷ []) ((1, (0 ∷ 0 ∷ 0 ∷ 0 ∷ []) ∷ []) ∷ []) ≡ false }
    ensures wrong_width { record_fits (sum_column ∷ []) ((1, (0 ∷ 0 ∷ 0 ∷ []) ∷ []) ∷ []) ≡ false }
    ensures two_values { record_fits (note_column ∷ []) ((128, codes "a" ∷ codes "b" ∷ []) ∷ []) ≡ false }
    ensures long_text { record_fits (note_column ∷ []) ((128, replicate 256 97 ∷ []) ∷ []) ≡ false }
{}

/// A column that must not be NULL may be so in a record that fits, and is then missing a value.
pub fn missing_values()
    ensures fits { record_fits (note_column ∷ []) [] ≡ true }
    ensures missing { is_missing_a_value (note_column ∷ []) [] ≡ true }
    ensures set { is_missing_a_value (note_column ∷ []) ((128, [] ∷ []) ∷ []) ≡ false }
    ensures others_may { is_missing_a_value (multi_column 256 ∷ []) [] ≡ false }
{}

/// A Bit is stored as 00 or 01, and a text may be empty.
pub fn values_that_fit_a_type()
    ensures bit { value_fits kind.Bit (1 ∷ []) ≡ true }
    ensures other_bit { value_fits kind.Bit (2 ∷ []) ≡ false }
    ensures empty_text { value_fits kind.Text [] ≡ true }
    ensures empty_byte { value_fits kind.UnsignedByte [] ≡ false }
    ensures guid { value_fits kind.Guid (replicate 16 7) ≡ true }
{}
