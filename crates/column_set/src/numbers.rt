//! Numbers that are changed in their rows.

ghost use Rattle.std.specs.Prelude.{◌≡◌, ◌+◌, ◌≤◌, ◌%◌, ◌^◌, ◌++◌, ◌∷◌, ℕ, List, [], drop, length, take, Some, IfSome, IsTrue};
ghost use Rattle.std.specs.Int.{w32, from_le_bytes, to_le_bytes};
ghost use Rattle.std.specs.List.{flat_map};
ghost use Rattle.column_set.specs.declared.rows.RowValue.{RowValue};
ghost use Rattle.column_set.specs.declared.rows.RowValue.TheVariants.{Here};
ghost use Rattle.column_set.specs.RecordValues.{RecordFields, put_by_number, values_of};
ghost use Rattle.column_set.specs.Rows.{IsRowBytes, RowFields, all_here, here_fields, is_row, row_bytes, row_values_of, value_bytes};
ghost use Rattle.column_set.specs.OtherValues.{StandsBefore};

use crate::row_format::COUNT_BYTES;
use crate::without_column::first_value;
use jet_base::ColumnId;

/// The bytes of a number.
const NUMBER_BYTES: usize = 4;

/// Adds to the number in a column, in its row: to the column's one value of four bytes, lowest first, wrapping at 32 bits. The
/// row keeps its length, and its other bytes stay. It takes no memory.
pub fn add_to_number(row: &mut [u8], column: ColumnId, addend: u32)
    requires { IsRowBytes row.old }
    ensures length { length row.new ≡ length row.old }
    ensures sum { (fields : RowFields) (number : List ℕ) → IsTrue (is_row fields) → row.old ≡ row_bytes fields → row_values_of fields column.0 ≡ Here number ∷ [] → length number ≡ 4
        → row.new ≡ row_bytes (put_by_number column.0 (Here (to_le_bytes w32 ((from_le_bytes w32 number + addend) % 2 ^ 32)) ∷ []) fields) }
{
    match bytes_behind(&row[COUNT_BYTES..], column.0) {
        Some(behind) => {
            let end = row.len() - behind;
            if end >= NUMBER_BYTES {
                let start = end - NUMBER_BYTES;
                let sum = number_at(row, start).wrapping_add(addend);
                put_at(row, start, sum);
            }
        }
        None => {}
    }
}

// How many bytes stand behind the first value of a column.
fn bytes_behind(values: &[u8], column: u16) -> Option<usize>
    ensures within { IfSome result (λ count. count ≤ length values.now) }
    ensures count { (value : ℕ × RowValue) (behind : List (ℕ × RowValue)) → value.0 ≡ column → StandsBefore column values.now value behind → result ≡ Some (length (flat_map value_bytes behind)) }
{
    let mut rest = values;
    while let Some((number, _, after)) = first_value(rest) {
        if number == column {
            return Some(after.len());
        }
        rest = after;
    }
    None
}

// The number whose four bytes begin at a place.
fn number_at(row: &[u8], start: usize) -> u32
    requires { start + 4 ≤ length row.now }
    ensures { result ≡ from_le_bytes w32 (drop start row.now) }
{
    let bytes = &row[start..];
    u32::from_le_bytes([bytes[0], bytes[1], bytes[2], bytes[3]])
}

// Puts a number in the place of the four bytes that begin at a place.
fn put_at(row: &mut [u8], start: usize, number: u32)
    requires { start + 4 ≤ length row.old }
    ensures { row.new ≡ take start row.old ++ (to_le_bytes w32 number ++ drop (start + 4) row.old) }
{
    row[start..start + NUMBER_BYTES].copy_from_slice(&number.to_le_bytes());
}

/// A row in which a value of a column is replaced by another as long is a row, of the same length, and stands for the record with
/// that value.
pub fn rows_with_another_value()
    ensures formed { (fields : RowFields) (column : ℕ) (old new : List ℕ) → IsTrue (is_row fields) → row_values_of fields column ≡ Here old ∷ [] → length new ≡ length old → IsTrue (is_row (put_by_number column (Here new ∷ []) fields)) }
    ensures length { (fields : RowFields) (column : ℕ) (old new : List ℕ) → IsTrue (is_row fields) → row_values_of fields column ≡ Here old ∷ [] → length new ≡ length old → length (row_bytes (put_by_number column (Here new ∷ []) fields)) ≡ length (row_bytes fields) }
    ensures found { (fields : RecordFields) (column : ℕ) (old : List ℕ) → values_of fields column ≡ old ∷ [] → row_values_of (all_here fields) column ≡ Here old ∷ [] }
    ensures whole { (fields : RecordFields) (column : ℕ) (new : List ℕ) → put_by_number column (Here new ∷ []) (all_here fields) ≡ all_here (put_by_number column (new ∷ []) fields) }
{}
