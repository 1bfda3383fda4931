//! Rows of written values that are put in a temporary table.

ghost use Rattle.std.specs.Prelude.{◌≡◌, ◌≤◌, ◌+◌, ◌++◌, true, false, Some, None, OnOk, length, map, option_copied};
ghost use Rattle.jet_base.specs.Given.{given_bytes, given_is_null, given_length};
ghost use Rattle.temp_table.specs.TempColumns.{are_short};
ghost use Rattle.session_local.specs.ChangingTemps.{bytes_of_row, PutsTo};
ghost use Rattle.session_local.specs.TempCalls.{stored_row, value_refusal, values_refusal};

use arrayvec::ArrayVec;
use jet_base::{ColType, Given, Jet, OutOfMemory};
use record_edit::{fits, largest_value, stored_front};
use temp_table::{MAX_COLUMNS, TempColumn, TempFault, TempTable};

/// The stored values of a row: bytes, or None for NULL.
type RowValues<'a> = ArrayVec<Option<&'a [u8]>, MAX_COLUMNS>;

/// Puts a row of written values in a table, by way of their stored bytes. Where there is no memory the table stays.
pub(crate) fn put_values(
    table: &mut TempTable,
    bytes: &mut Vec<u8>,
    values: &[Given],
) -> Result<Jet, OutOfMemory>
    ensures { PutsTo table.old values.now result table.new }
{
    if values.len() != table.columns().len() {
        return Ok(Jet::InvalidParameter);
    }
    match values_refusal(table.columns(), values) {
        Some(refusal) => return Ok(refusal),
        None => {}
    }
    bytes.clear();
    write_stored(bytes, table.columns(), values)?;
    let mut row = RowValues::new();
    cut(&mut row, table.columns(), values, bytes.as_slice());
    match table.put(row.as_slice()) {
        Ok(()) => Ok(Jet::Success),
        Err(TempFault::TooBig) => Ok(Jet::RecordTooBig),
        Err(TempFault::Double) => Ok(Jet::KeyDuplicate),
        Err(TempFault::OutOfMemory) => Err(OutOfMemory),
    }
}

// The first refusal of a value.
fn values_refusal(columns: &[TempColumn], values: &[Given]) -> Option<Jet>
    ensures { result ≡ values_refusal columns.now values.now }
{
    match columns {
        [column, other_columns @ ..] => match values {
            [value, other_values @ ..] => match value_refusal(column.kind, value) {
                Some(refusal) => Some(refusal),
                None => values_refusal(other_columns, other_values),
            },
            [] => None,
        },
        [] => None,
    }
}

// Why a value is not stored in a column of the type.
fn value_refusal(kind: ColType, value: &Given) -> Option<Jet>
    ensures { result ≡ value_refusal kind value.now }
{
    if !fits(kind, value) {
        return Some(Jet::InvalidBufferSize);
    }
    if largest_value(kind) < written_length(value) {
        return Some(Jet::ColumnTooBig);
    }
    None
}

// How many bytes are written.
fn written_length(value: &Given) -> usize
    ensures { result ≡ given_length value.now }
{
    match value {
        Given::Null | Given::Number(_) => 0,
        Given::Bytes(bytes) => bytes.as_bytes().len(),
        Given::Fill(count, _) => *count as usize,
    }
}

// How many bytes a column of the type stores of it.
fn stored_length(kind: ColType, value: &Given) -> usize
    ensures { result ≡ length (given_bytes kind value.now) }
{
    match value {
        Given::Number(_) => largest_value(kind),
        Given::Null | Given::Bytes(_) | Given::Fill(_, _) => written_length(value),
    }
}

// Writes the stored bytes of each value behind those that stand there.
fn write_stored(
    bytes: &mut Vec<u8>,
    columns: &[TempColumn],
    values: &[Given],
) -> Result<(), OutOfMemory>
    requires short { are_short columns.now ≡ true }
    requires fit { values_refusal columns.now values.now ≡ None }
    ensures { OnOk result (bytes.new.items ≡ bytes.old.items ++ bytes_of_row (stored_row columns.now values.now)) }
{
    match columns {
        [column, other_columns @ ..] => match values {
            [value, other_values @ ..] => {
                bytes.extend_from_slice(stored_front(column.kind, value).as_slice())?;
                write_stored(bytes, other_columns, other_values)
            }
            [] => Ok(()),
        },
        [] => Ok(()),
    }
}

// Cuts the bytes into the values that they were stored of, and puts these behind those of the row.
fn cut<'a>(row: &mut RowValues<'a>, columns: &[TempColumn], values: &[Given], bytes: &'a [u8])
    requires room { length row.old.items + length columns.now ≤ MAX_COLUMNS }
    requires bytes { bytes.now ≡ bytes_of_row (stored_row columns.now values.now) }
    ensures { map option_copied row.new.items ≡ map option_copied row.old.items ++ stored_row columns.now values.now }
{
    match columns {
        [column, other_columns @ ..] => match values {
            [value, other_values @ ..] => {
                let (stored, behind) = bytes.split_at(stored_length(column.kind, value));
                row.push(if_some(value, stored));
                cut(row, other_columns, other_values, behind);
            }
            [] => {}
        },
        [] => {}
    }
}

// The stored bytes of a value, or NULL.
fn if_some<'a>(value: &Given, stored: &'a [u8]) -> Option<&'a [u8]>
    ensures { option_copied result ≡ (elim (given_is_null value.now) [ true ↦ None | false ↦ Some stored.now ]) }
{
    match value {
        Given::Null => None,
        _ => Some(stored),
    }
}
