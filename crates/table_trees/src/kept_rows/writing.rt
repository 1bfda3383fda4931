//! The row that a put makes of a record.

ghost use Rattle.std.specs.Prelude.{◌≡◌, ◌<◌, ◌≤◌, ◌↔◌, ◌+◌, ◌^◌, ◌++◌, length, map, sum_by, IfOk, IsErrOf, IsTrue, OnOk};
ghost use Rattle.std.specs.List.{flat_map, list_all};
ghost use Rattle.column_set.specs.declared.rows.RowValue.TheVariants.{Apart};
ghost use Rattle.column_set.specs.RecordValues.{record_size};
ghost use Rattle.column_set.specs.Rows.{largest_row, row_bytes, value_bytes, values_in_order};
ghost use Rattle.long_rows.specs.KeptRows.{are_values, kept_fields, kept_row, kept_value, kept_values, next_place, place_after};
ghost use Rattle.table_trees.specs.Sources.{HasRows, found_in};

use crate::kept_rows::sharing::Sources;
use column_set::row_format::{LONGEST_HERE, MAX_ROW_SIZE};
use column_set::{Field, Record, RowFault, count_of_values, put_apart, put_here, size_of_a_row};
use jet_base::{ColumnId, Octets};
use long_rows::form_of_a_kept_row;
use long_value::LongId;
use std::alloc::{AllocError, Global};

/// The identifier under which a value of more than 255 bytes is kept, and the place of the next new one.
fn identifier_for(
    sources: &Sources<'_>,
    column: u16,
    at: usize,
    place: u32,
    value: &[u8],
) -> (LongId, u32)
    requires rows { HasRows sources.now }
    requires long { 255 < length value.now }
    requires few { place + 1 < 2 ^ 32 }
    ensures kept { kept_value (found_in sources.now) column at place value.now ≡ Apart result.0.entry result.0.place (length value.now) }
    ensures next { result.1 ≡ next_place (found_in sources.now) column at place value.now }
    ensures few { result.1 ≤ place + 1 }
{
    match sources.shared(ColumnId(column), at, value) {
        Some(id) => (id, place),
        None => (
            LongId {
                entry: sources.number,
                place,
            },
            place + 1,
        ),
    }
}

/// Writes one value, and says which place the next new one gets.
fn put_kept(
    bytes: &mut Vec<u8>,
    sources: &Sources<'_>,
    column: u16,
    at: usize,
    place: u32,
    value: &[u8],
) -> Result<u32, AllocError>
    requires rows { HasRows sources.now }
    requires short { length value.now ≤ 1048576 }
    requires few { place + 1 < 2 ^ 32 }
    ensures row { OnOk result (bytes.new.items ≡ bytes.old.items ++ value_bytes (column, kept_value (found_in sources.now) column at place value.now)) }
    ensures next { IfOk result (λ next. (next ≡ next_place (found_in sources.now) column at place value.now) × (next ≤ place + 1)) }
{
    if value.len() <= LONGEST_HERE {
        match put_here(bytes, column, value) {
            Ok(()) => Ok(place),
            Err(fault) => Err(fault),
        }
    } else {
        let (id, next) = identifier_for(sources, column, at, place, value);
        match put_apart(bytes, column, id.entry, id.place, value.len() as u32) {
            Ok(()) => Ok(next),
            Err(fault) => Err(fault),
        }
    }
}

/// Writes the values of a column from a sequence on, and says which place the next new one gets.
fn put_values(
    bytes: &mut Vec<u8>,
    sources: &Sources<'_>,
    column: u16,
    at: usize,
    place: u32,
    values: &[Octets],
) -> Result<u32, AllocError>
    requires rows { HasRows sources.now }
    requires short { IsTrue (are_values values.now) }
    requires few { place + length values.now < 2 ^ 32 }
    requires sequence { at + length values.now < 2 ^ 32 }
    ensures row { OnOk result (bytes.new.items ≡ bytes.old.items ++ flat_map value_bytes (map (λ value. (column, value)) (kept_values (found_in sources.now) column at place values.now))) }
    ensures next { IfOk result (λ next. (next ≡ place_after (found_in sources.now) column at place values.now) × (next ≤ place + length values.now)) }
{
    match values.split_first() {
        Some((value, others)) => {
            match put_kept(bytes, sources, column, at, place, value.as_bytes()) {
                Ok(next) => put_values(bytes, sources, column, at + 1, next, others),
                Err(fault) => Err(fault),
            }
        }
        None => Ok(place),
    }
}

/// Writes the values of all columns, the first new one under this place.
fn put_fields(
    bytes: &mut Vec<u8>,
    sources: &Sources<'_>,
    place: u32,
    fields: &[Field],
) -> Result<(), AllocError>
    requires rows { HasRows sources.now }
    requires short { IsTrue (list_all (λ field. are_values field.1) fields.now) }
    requires few { place + sum_by (λ field. length field.1) fields.now < 2 ^ 32 }
    ensures { OnOk result (bytes.new.items ≡ bytes.old.items ++ flat_map value_bytes (values_in_order (kept_fields (found_in sources.now) place fields.now))) }
{
    match fields.split_first() {
        Some((field, later)) => {
            match put_values(bytes, sources, field.column(), 0, place, field.values()) {
                Ok(next) => put_fields(bytes, sources, next, later),
                Err(fault) => Err(fault),
            }
        }
        None => Ok(()),
    }
}

/// The bytes of the row that a put makes of a record. A value of at most 255 bytes stands in the row. A longer one, of at most
/// 1,048,576, is named: as the one that the put shares, or as a new one under the number of the put's log entry, in which the new
/// values have the places from 0 on. No long value is changed or copied: `take_row` takes those that the row names.
///
/// The call answers `RecordTooBig` above 1,700 bytes.
pub fn keep_row(alloc: Global, sources: &Sources<'_>, values: &Record) -> Result<Vec<u8>, RowFault>
    requires rows { HasRows sources.now }
    requires short { IsTrue (list_all (λ field. are_values field.1) values.now) }
    ensures ok { IfOk result (λ bytes. bytes.items ≡ row_bytes (kept_row (found_in sources.now) values.now)) }
    ensures small { IfOk result (λ bytes. length bytes.items ≤ largest_row) }
    ensures too_big { IsErrOf result RowFault.RecordTooBig ↔ (largest_row < record_size values.now) }
    ensures never_bad { IsErrOf result RowFault.BadRecord → ⊥ }
{
    form_of_a_kept_row();
    size_of_a_row();
    let size = values.size();
    if size > MAX_ROW_SIZE {
        return Err(RowFault::RecordTooBig);
    }
    let fields = values.fields();
    let count = count_of_values(fields);
    let mut bytes = Vec::with_capacity(alloc, size)?;
    bytes.extend_from_slice(&(count as u16).to_le_bytes())?;
    put_fields(&mut bytes, sources, 0, fields)?;
    Ok(bytes)
}
