//! Writing the rows of records that keep every value in their row.

ghost use Rattle.std.specs.Prelude.{◌≡◌, ◌<◌, ◌≤◌, ◌↔◌, ◌^◌, ◌++◌, ℕ, length, map, nat_lt, IfOk, IsErrOf, IsTrue, OnOk};
ghost use Rattle.std.specs.List.{flat_map, list_all};
ghost use Rattle.column_set.specs.declared.rows.RowValue.TheVariants.{Here};
ghost use Rattle.column_set.specs.Record.{is_record};
ghost use Rattle.column_set.specs.RecordValues.{RecordFields, record_size};
ghost use Rattle.column_set.specs.Rows.{all_here, are_short, here_fields, is_all_here, is_row, is_row_of, largest_row, row_bytes, row_size, value_bytes};

use crate::encoding::put_here;
use crate::fields::count_of_values;
use crate::records::Record;
use crate::row_fault::RowFault;
use crate::row_format::{LONGEST_HERE, MAX_ROW_SIZE};
use jet_base::Octets;
use std::alloc::{AllocError, Global};

/// Whether each value of the record may stand in its row.
pub fn is_all_here(record: &Record) -> bool
    ensures { result ≡ is_all_here «record».now }
{
    for field in record.fields() {
        if !are_short(field.values()) {
            return false;
        }
    }
    true
}

/// Whether each of the values may stand in a row.
fn are_short(values: &[Octets]) -> bool
    ensures { result ≡ are_short values.now }
{
    for value in values {
        if value.as_bytes().len() > LONGEST_HERE {
            return false;
        }
    }
    true
}

/// Writes the values of a column.
fn put_values(bytes: &mut Vec<u8>, column: u16, values: &[Octets]) -> Result<(), AllocError>
    requires { IsTrue (are_short values.now) }
    ensures { OnOk result (bytes.new.items ≡ bytes.old.items ++ flat_map value_bytes (map (λ value. (column, Here value)) values.now)) }
{
    for value in values {
        put_here(bytes, column, value.as_bytes())?;
    }
    Ok(())
}

/// The bytes of the row that keeps each value of the record, as `encode` gives them. No value is copied on the way.
///
/// The call answers `RecordTooBig` above 1,700 bytes. A record with a value of more than 255 bytes has no such row.
pub fn encode_record(alloc: Global, record: &Record) -> Result<Vec<u8>, RowFault>
    requires { IsTrue (is_all_here «record».now) }
    ensures ok { IfOk result (λ bytes. IsTrue (is_row (all_here «record».now)) × (bytes.items ≡ row_bytes (all_here «record».now))) }
    ensures small { IfOk result (λ bytes. length bytes.items ≤ largest_row) }
    ensures too_big { IsErrOf result RowFault.RecordTooBig ↔ (largest_row < record_size «record».now) }
    ensures never_bad { IsErrOf result RowFault.BadRecord → ⊥ }
{
    let size = record.size();
    if size > MAX_ROW_SIZE {
        return Err(RowFault::RecordTooBig);
    }
    let fields = record.fields();
    let count = count_of_values(fields);
    let mut bytes = Vec::with_capacity(alloc, size)?;
    bytes.extend_from_slice(&(count as u16).to_le_bytes())?;
    for field in fields {
        put_values(&mut bytes, field.column(), field.values())?;
    }
    Ok(bytes)
}

/// The row that keeps each value of a record is the record's in-page form, of the record's size, and shows all of it.
pub fn values_here_are_the_record()
    ensures shown { (fields : RecordFields) → here_fields (all_here fields) ≡ fields }
    ensures form { (fields : RecordFields) → IsTrue (is_all_here fields) → IsTrue (is_row_of (all_here fields) fields) }
    ensures size { (fields : RecordFields) → IsTrue (is_all_here fields) → row_size (all_here fields) ≡ record_size fields }
    // A column's number has two bytes.
    ensures row { (fields : RecordFields) → IsTrue (is_record fields) → IsTrue (is_all_here fields) → IsTrue (list_all (λ field. nat_lt field.0 (2 ^ 16)) fields) → record_size fields ≤ largest_row → IsTrue (is_row (all_here fields)) }
{}
