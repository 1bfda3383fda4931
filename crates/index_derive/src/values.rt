//! The values of one entry: a value or NULL for each column of the key.

ghost use Rattle.std.specs.Prelude.{◌≡◌, ◌≤◌, ◌<◌, ◌++◌, ◌∷◌, [], length, map, take, option_copied, slice_index_or};
ghost use Rattle.column_set.specs.RecordValues.{values_of};
ghost use Rattle.index_derive.specs.Walks.{value_at, combination_of, text_at, values_in, row_length};

use crate::legality::MOST_KEY_COLUMNS;
use crate::plan::KeyPart;
use crate::rules::IndexFlags;
use arrayvec::ArrayVec;
use column_set::Values;
use jet_base::ColumnId;

/// The most bytes of a value that an index sees.
const SEEN_BYTES: usize = 255;
/// The most bytes of a text of which an index of parts has parts.
const SEEN_TEXT: usize = 1024;
/// The most bytes of a part of a text.
const LONGEST_PART: usize = 10;

/// A value or NULL for each column of a key, read in place.
pub(crate) type KeyValues<'a> = ArrayVec<Option<&'a [u8]>, MOST_KEY_COLUMNS>;

/// The values at a place of a row.
pub(crate) fn values_in<'a, R: Values>(
    flags: IndexFlags,
    parts: &[KeyPart],
    record: &'a R,
    row: usize,
    at: usize,
) -> KeyValues<'a>
    requires few { length parts.now ≤ 12 }
    requires stands { at < row_length flags parts.now (R.fields «record».now) row }
    ensures { map option_copied result.items ≡ values_in flags parts.now (R.fields «record».now) row at }
{
    if !flags.tuples {
        return combination(parts, record, row, at);
    }
    let mut values = ArrayVec::new();
    if let [part, ..] = parts {
        let text = text_at(record, part.column, row);
        values.push(Some(front(&text[at..], LONGEST_PART)));
    }
    values
}

/// The values of one combination: the first multi-valued column's at one place, and the next one's at the other.
fn combination<'a, R: Values>(
    parts: &[KeyPart],
    record: &'a R,
    first_place: usize,
    second_place: usize,
) -> KeyValues<'a>
    requires { length parts.now ≤ 12 }
    ensures { map option_copied result.items ≡ combination_of parts.now (R.fields «record».now) first_place second_place }
{
    let mut values = ArrayVec::new();
    let mut place = first_place;
    let mut next = second_place;
    for part in parts {
        if part.multi {
            values.push(value_at(record, part.column, place));
            place = next;
            next = 0;
        } else {
            values.push(value_at(record, part.column, 0));
        }
    }
    values
}

/// What an index sees of a value of the column, or NULL where there is none.
#[tactic(auto, using(crate::proofs::Fronts::seen_value, crate::proofs::Fronts::no_value))]
pub(crate) fn value_at<'a, R: Values>(
    record: &'a R,
    column: ColumnId,
    place: usize,
) -> Option<&'a [u8]>
    ensures { option_copied result ≡ value_at (R.fields «record».now) column.0 place }
{
    match record.value(column, place) {
        Some(bytes) => Some(front(bytes, SEEN_BYTES)),
        None => None,
    }
}

/// What an index of parts sees of a value of the column.
#[tactic(auto, using(crate::proofs::Fronts::seen_text, crate::proofs::Fronts::no_text))]
pub(crate) fn text_at<'a, R: Values>(record: &'a R, column: ColumnId, place: usize) -> &'a [u8]
    ensures { result.now ≡ text_at (R.fields «record».now) column.0 place }
{
    match record.value(column, place) {
        Some(bytes) => front(bytes, SEEN_TEXT),
        None => &[],
    }
}

/// The first bytes, at most so many.
fn front(bytes: &[u8], most: usize) -> &[u8]
    ensures { result.now ≡ take most bytes.now }
{
    if bytes.len() <= most {
        bytes
    } else {
        &bytes[..most]
    }
}
