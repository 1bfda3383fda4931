//! Reading rows.

ghost use Rattle.std.specs.Prelude.{◌≡◌, IfErr, IfOk, IsErrOf, IsTrue, MatchResult};
ghost use Rattle.column_set.specs.Rows.{IsRowBytes, RowFields, is_row, row_bytes};
ghost use Rattle.column_set.specs.RowReading.{read_row, read_values, values_at};
ghost use Rattle.column_set.specs.RowSeen.{Gives, seen};

use crate::reading::{ValueRef, next, u16_at};
use crate::row_fault::RowFault;
use crate::row_format::VALUE_HEAD_BYTES;
use crate::rows::{Row, RowValue};
use jet_base::{Items, Octets};
use std::alloc::Global;

/// A copy of a value in place.
fn copied(alloc: Global, value: ValueRef<'_>) -> Result<RowValue, RowFault>
    ensures ok { IfOk result (λ made. made ≡ seen value.entry) }
    ensures err { IfErr result (λ fault. fault ≡ RowFault.OutOfMemory) }
{
    match value {
        ValueRef::Here(bytes) => Ok(RowValue::Here(Octets::from_slice(alloc, bytes)?)),
        ValueRef::Apart {
            entry,
            place,
            length,
        } => Ok(RowValue::Apart {
            entry,
            place,
            length,
        }),
    }
}

/// So many values, whose columns do not fall, and the bytes behind them.
fn values_of(
    alloc: Global,
    bytes: &[u8],
    count: u16,
) -> Result<(Vec<(u16, RowValue)>, &[u8]), RowFault>
    ensures { Gives (λ x. (x.0.items, x.1.now)) result (values_at 0 count bytes.now) }
{
    let most = bytes.len() / VALUE_HEAD_BYTES;
    let mut values = Vec::with_capacity(alloc, most.min(count as usize))?;
    let mut rest = bytes;
    let mut least = 0;
    for _ in 0..count {
        let Some(((column, value), after)) = next(rest, least) else {
            return Err(RowFault::BadRecord);
        };
        values.push((column, copied(alloc, value)?))?;
        rest = after;
        least = column;
    }
    Ok((values, rest))
}

/// The values of a row.
#[tactic(auto, unfolding(crate::specs::RowReading::read_values))]
fn read(alloc: Global, bytes: &[u8]) -> Result<Vec<(u16, RowValue)>, RowFault>
    ensures { Gives (λ values. values.items) result (read_values bytes.now) }
{
    let Some((count, rest)) = u16_at(bytes) else {
        return Err(RowFault::BadRecord);
    };
    let (values, rest) = values_of(alloc, rest, count)?;
    if !rest.is_empty() {
        return Err(RowFault::BadRecord);
    }
    Ok(values)
}

/// The row that has the bytes.
#[tactic(auto, unfolding(crate::specs::RowReading::read_row))]
fn row_of(alloc: Global, bytes: &[u8]) -> Result<Row, RowFault>
    ensures { Gives (λ row. row) result (read_row bytes.now) }
{
    let values = read(alloc, bytes)?;
    Ok(Row::of_values(Items::new(values)))
}

/// The row that has these bytes, in the form that `encode` writes.
///
/// The call answers `BadRecord` where no row has them: bytes are missing or stand behind the last value, a column
/// falls, a form is neither 0 nor 1, or a length is not one of the form. A row may be longer than `encode` writes one.
pub fn decode(alloc: Global, bytes: &[u8]) -> Result<Row, RowFault>
    // The row has the bytes.
    ensures found { IfOk result (λ row. IsTrue (is_row row) × (bytes.now ≡ row_bytes row)) }
    // It is the only one, and the bytes of a row are not refused.
    ensures only { (row : RowFields) → IsTrue (is_row row) → bytes.now ≡ row_bytes row → MatchResult result (λ found. found ≡ row) (λ fault. fault ≡ RowFault.OutOfMemory) }
    ensures bad { IsErrOf result RowFault.BadRecord → IsRowBytes bytes.now → ⊥ }
    ensures never_big { IsErrOf result RowFault.RecordTooBig → ⊥ }
{
    row_of(alloc, bytes)
}
