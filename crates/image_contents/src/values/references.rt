//! The long values that a row names, as they lie in its bytes.

ghost use Rattle.std.specs.Prelude.{◌≡◌, ◌<◌, ◌++◌, ℕ, List, [], length, None, IfSome, IsSomeAnd, option_map, bytes_eq};
ghost use Rattle.std.specs.List.{list_any};
ghost use Rattle.column_set.specs.OtherValues.{MayStand, StandIn};
ghost use Rattle.column_set.specs.RowReading.{row_in};
ghost use Rattle.column_set.specs.Rows.{place_apart, value_bytes, values_in_order};
ghost use Rattle.column_set.specs.declared.rows.RowValue.{RowValue};
ghost use Rattle.image_contents.specs.ReadReferences.{is_to, told_apart};
ghost use Rattle.long_rows.specs.RowReferences.{named_by};
ghost use Rattle.long_value.specs.Stores.{id_bytes};

use byteorder::{BigEndian, ByteOrder};
use column_set::row_format::{APART, APART_BYTES, COUNT_BYTES, VALUE_HEAD_BYTES};
use column_set::{is_row, other_bytes_are_read_as_no_value, rows_are_read_back};
use long_value::LongId;

/// Where the form of a value stands among its bytes.
const FORM_AT: usize = 2;

/// The bytes of a value that is kept apart, those of its head among them.
const APART_VALUE_BYTES: usize = VALUE_HEAD_BYTES + APART_BYTES as usize;

/// What a row tells of a value that it keeps apart.
#[derive(Clone, Copy)]
pub(crate) struct Reference {
    pub id: LongId,
    /// The length of the value, in bytes.
    pub length: u32,
}

/// The bytes of the values of a row: none of bytes that are no row's.
pub(crate) fn values_of(row: &[u8]) -> &[u8]
    ensures { StandIn result.now (values_in_order (row_in row.now)) }
{
    rows_are_read_back();
    other_bytes_are_read_as_no_value();
    if is_row(row) {
        &row[COUNT_BYTES..]
    } else {
        &[]
    }
}

/// What the first of some values of a row names, if it is kept apart, and the bytes behind it.
pub(crate) fn first_reference(bytes: &[u8]) -> Option<(Option<Reference>, &[u8])>
    ensures shorter { IfSome result (λ found. length found.1.now < length bytes.now) }
    ensures end { bytes.now ≡ [] → result ≡ None }
    ensures value { (value : ℕ × RowValue) (rest : List ℕ) → MayStand value → bytes.now ≡ value_bytes value ++ rest → IsSomeAnd result (λ found. (option_map told_apart found.0 ≡ place_apart value.1) × (found.1.now ≡ rest)) }
{
    if bytes.len() < VALUE_HEAD_BYTES {
        return None;
    }
    let size = VALUE_HEAD_BYTES + u16::from_le_bytes([bytes[3], bytes[4]]) as usize;
    if bytes.len() < size {
        return None;
    }
    let (value, rest) = bytes.split_at(size);
    Some((named(value), rest))
}

/// What a value names, if it is kept apart.
fn named(value: &[u8]) -> Option<Reference>
    ensures { (x : ℕ × RowValue) → MayStand x → value.now ≡ value_bytes x → option_map told_apart result ≡ place_apart x.1 }
{
    if value.len() != APART_VALUE_BYTES || value[FORM_AT] != APART {
        return None;
    }
    let entry = u64::from_le_bytes([
        value[5], value[6], value[7], value[8], value[9], value[10], value[11], value[12],
    ]);
    let place = u32::from_le_bytes([value[13], value[14], value[15], value[16]]);
    let length = u32::from_le_bytes([value[17], value[18], value[19], value[20]]);
    Some(Reference {
        id: LongId { entry, place },
        length,
    })
}

/// The bytes of an identifier, the highest first.
pub(crate) fn bytes_of(id: LongId) -> [u8; 12]
    ensures { result ≡ id_bytes id }
{
    let mut bytes = [0; 12];
    BigEndian::write_u64(&mut bytes, id.entry);
    BigEndian::write_u32(&mut bytes[8..], id.place);
    bytes
}

/// Whether a reference, or none, is to the value with this identifier.
fn is_to(found: Option<Reference>, id: &[u8]) -> bool
    ensures { result ≡ is_to id.now (option_map told_apart found) }
{
    match found {
        Some(reference) => id == bytes_of(reference.id).as_slice(),
        None => false,
    }
}

/// Whether some values of a row name the long value with this identifier.
pub(crate) fn names(values: &[u8], id: &[u8]) -> bool
    ensures { (xs : List (ℕ × RowValue)) → StandIn values.now xs → result ≡ list_any (bytes_eq id.now) (named_by xs) }
{
    let mut rest = values;
    while let Some((found, behind)) = first_reference(rest) {
        if is_to(found, id) {
            return true;
        }
        rest = behind;
    }
    false
}
