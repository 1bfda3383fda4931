//! The long values that the bytes of a row name.

ghost use Rattle.std.specs.Prelude.{◌≡◌, ◌<◌, ◌++◌, ℕ, List, [], length, None, IfSome, IsSomeAnd};
ghost use Rattle.std.specs.List.{list_any};
ghost use Rattle.std.specs.Option.{option_map};
ghost use Rattle.std.specs.Str.{bytes_eq};
ghost use Rattle.column_set.specs.declared.rows.RowValue.{RowValue};
ghost use Rattle.column_set.specs.Rows.{value_bytes};
ghost use Rattle.long_value.specs.Stores.{id_bytes};
ghost use Rattle.long_rows.specs.RowReferences.{named_by};
ghost use Rattle.column_set.specs.OtherValues.{MayStand, StandIn};
ghost use Rattle.table_trees.specs.NamedValues.{is_name, name_of};

use column_set::row_format::{APART, APART_BYTES, VALUE_HEAD_BYTES};
use long_value::{LongId, identifiers_differ};

/// Where the form of a value stands among its bytes.
const FORM_AT: usize = 2;

/// The bytes of a value that is kept apart, those of its head among them.
const APART_VALUE_BYTES: usize = VALUE_HEAD_BYTES + APART_BYTES as usize;

/// What the first value of a row's bytes names, if it is kept apart, and the bytes behind it.
pub fn first_named(bytes: &[u8]) -> Option<(Option<LongId>, &[u8])>
    ensures shorter { IfSome result (λ found. length found.1.now < length bytes.now) }
    ensures end { bytes.now ≡ [] → result ≡ None }
    ensures value { (value : ℕ × RowValue) (rest : List ℕ) → MayStand value → bytes.now ≡ value_bytes value ++ rest → IsSomeAnd result (λ found. (option_map id_bytes found.0 ≡ name_of value.1) × (found.1.now ≡ rest)) }
{
    if bytes.len() < VALUE_HEAD_BYTES {
        return None;
    }
    let size = VALUE_HEAD_BYTES + u16::from_le_bytes([bytes[3], bytes[4]]) as usize;
    if bytes.len() < size {
        return None;
    }
    let (value, rest) = bytes.split_at(size);
    Some((named(value), rest))
}

/// What a value names, if it is kept apart.
fn named(value: &[u8]) -> Option<LongId>
    ensures { (x : ℕ × RowValue) → MayStand x → value.now ≡ value_bytes x → option_map id_bytes result ≡ name_of x.1 }
{
    if value.len() != APART_VALUE_BYTES || value[FORM_AT] != APART {
        return None;
    }
    let entry = u64::from_le_bytes([
        value[5], value[6], value[7], value[8], value[9], value[10], value[11], value[12],
    ]);
    let place = u32::from_le_bytes([value[13], value[14], value[15], value[16]]);
    Some(LongId { entry, place })
}

/// Whether a value that names this one, or none, names the other.
fn is_same(named: Option<LongId>, id: LongId) -> bool
    ensures { result ≡ is_name (id_bytes id) (option_map id_bytes named) }
{
    identifiers_differ();
    match named {
        Some(other) => other.entry == id.entry && other.place == id.place,
        None => false,
    }
}

/// Whether some values of a row name a long value.
pub fn names(values: &[u8], id: LongId) -> bool
    ensures { (xs : List (ℕ × RowValue)) → StandIn values.now xs → result ≡ list_any (bytes_eq (id_bytes id)) (named_by xs) }
{
    match first_named(values) {
        Some((named, rest)) => {
            if is_same(named, id) {
                true
            } else {
                names(rest, id)
            }
        }
        None => false,
    }
}
