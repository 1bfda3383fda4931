//! Whether bytes may be a front of the fields of a schema change.

ghost use Rattle.std.specs.Prelude.{◌≡◌, ◌<◌, ◌^◌, ℕ, Bool, List, length};
ghost use Rattle.std.specs.Int.{w16, w32};
ghost use Rattle.log_record.specs.EntryCuts.{byte_cut, bytes_cut, column_cut, conditions_cut, end_cut, index_cut, index_flags_cut, name_cut, number_cut, pairs_cut, schema_cut, segments_cut, step_cut, within};
ghost use Rattle.log_record.specs.Passing.{Passes};

use crate::changes::{may_be_lone_number, may_end};
use crate::fields::{skip, skip_byte, skip_small, skip_u16, skip_u32};

/// The bytes of a name, of which there are so many, and nothing behind them.
fn may_be_named(size: u8, bytes: &[u8], missing: usize) -> bool
    ensures { result ≡ bytes_cut size end_cut bytes.now missing }
{
    let Some((rest, left)) = skip(bytes, missing, size as usize) else {
        return false;
    };
    may_end(rest, left)
}

/// A name and nothing behind it.
fn may_be_name(bytes: &[u8], missing: usize) -> bool
    ensures { result ≡ name_cut bytes.now missing }
{
    match bytes {
        [] => missing >= 2 && missing <= 65,
        [size, rest @ ..] => 1 <= *size && *size <= 64 && may_be_named(*size, rest, missing),
    }
}

/// The flags of a column and its name.
fn may_be_flags_and_name(bytes: &[u8], missing: usize) -> bool
    ensures { result ≡ byte_cut (within 0 15) name_cut bytes.now missing }
{
    let Some((rest, left)) = skip_byte(bytes, missing, 0, 15) else {
        return false;
    };
    may_be_name(rest, left)
}

/// The type of a column, its flags and its name.
fn may_be_column(bytes: &[u8], missing: usize) -> bool
    ensures { result ≡ column_cut bytes.now missing }
{
    let Some((rest, left)) = skip_byte(bytes, missing, 1, 13) else {
        return false;
    };
    may_be_flags_and_name(rest, left)
}

/// Passes over a column and a flag.
fn skip_pair(bytes: &[u8], missing: usize) -> Option<(&[u8], usize)>
    ensures { Passes (λ x. (x.0.now, x.1)) result (λ rest. number_cut w16 (byte_cut (within 0 1) rest) bytes.now missing) }
{
    let Some((rest, left)) = skip_u16(bytes, missing) else {
        return None;
    };
    skip_byte(rest, left, 0, 1)
}

/// Passes over so many columns with flags.
fn skip_pairs(bytes: &[u8], missing: usize, count: u8) -> Option<(&[u8], usize)>
    ensures { Passes (λ x. (x.0.now, x.1)) result (λ rest. pairs_cut count rest bytes.now missing) }
{
    let mut rest = bytes;
    let mut left = missing;
    for index in 0..count {
        let Some((behind, lacking)) = skip_pair(rest, left) else {
            return None;
        };
        rest = behind;
        left = lacking;
    }
    Some((rest, left))
}

/// So many conditions and a name.
fn conditions_and_name(bytes: &[u8], missing: usize, count: u8) -> bool
    ensures { result ≡ pairs_cut count name_cut bytes.now missing }
{
    let Some((rest, left)) = skip_pairs(bytes, missing, count) else {
        return false;
    };
    may_be_name(rest, left)
}

/// A count, so many conditions and a name.
fn may_be_conditions(bytes: &[u8], missing: usize) -> bool
    ensures { result ≡ conditions_cut bytes.now missing }
{
    match bytes {
        [] => missing >= 3 && missing <= 831,
        [count, rest @ ..] => conditions_and_name(rest, missing, *count),
    }
}

/// So many segments, and the conditions and the name.
fn segments_and_conditions(bytes: &[u8], missing: usize, count: u8) -> bool
    ensures { result ≡ pairs_cut count conditions_cut bytes.now missing }
{
    let Some((rest, left)) = skip_pairs(bytes, missing, count) else {
        return false;
    };
    may_be_conditions(rest, left)
}

/// A count, so many segments, and the conditions and the name.
fn may_be_segments(bytes: &[u8], missing: usize) -> bool
    ensures { result ≡ segments_cut bytes.now missing }
{
    match bytes {
        [] => missing >= 4 && missing <= 1597,
        [count, rest @ ..] => segments_and_conditions(rest, missing, *count),
    }
}

/// The high byte of the flags of an index and what follows.
fn may_be_high_flags(bytes: &[u8], missing: usize) -> bool
    ensures { result ≡ byte_cut (within 0 3) segments_cut bytes.now missing }
{
    let Some((rest, left)) = skip_byte(bytes, missing, 0, 3) else {
        return false;
    };
    may_be_segments(rest, left)
}

/// The flags of an index and what follows.
fn may_be_index_flags(bytes: &[u8], missing: usize) -> bool
    ensures { result ≡ index_flags_cut segments_cut bytes.now missing }
{
    let Some((rest, left)) = skip_byte(bytes, missing, 0, 255) else {
        return false;
    };
    may_be_high_flags(rest, left)
}

/// The order of making of an index and what follows.
fn may_be_order(bytes: &[u8], missing: usize) -> bool
    ensures { result ≡ number_cut w32 (index_flags_cut segments_cut) bytes.now missing }
{
    let Some((rest, left)) = skip_u32(bytes, missing) else {
        return false;
    };
    may_be_index_flags(rest, left)
}

/// The root of an index and what follows.
fn may_be_index(bytes: &[u8], missing: usize) -> bool
    ensures { result ≡ index_cut bytes.now missing }
{
    let Some((rest, left)) = skip_small(bytes, missing, 0, 0) else {
        return false;
    };
    may_be_order(rest, left)
}

/// The number of an index and what is told of it.
fn may_be_index_with_id(bytes: &[u8], missing: usize) -> bool
    ensures { result ≡ number_cut w16 index_cut bytes.now missing }
{
    let Some((rest, left)) = skip_u16(bytes, missing) else {
        return false;
    };
    may_be_index(rest, left)
}

/// A table and an index.
fn may_be_new_index(bytes: &[u8], missing: usize) -> bool
    ensures { result ≡ number_cut w32 (number_cut w16 index_cut) bytes.now missing }
{
    let Some((rest, left)) = skip_u32(bytes, missing) else {
        return false;
    };
    may_be_index_with_id(rest, left)
}

/// The number of a column and what is told of it.
fn may_be_column_with_id(bytes: &[u8], missing: usize) -> bool
    ensures { result ≡ number_cut w16 column_cut bytes.now missing }
{
    let Some((rest, left)) = skip_u16(bytes, missing) else {
        return false;
    };
    may_be_column(rest, left)
}

/// A table and a column.
fn may_be_new_column(bytes: &[u8], missing: usize) -> bool
    ensures { result ≡ number_cut w32 (number_cut w16 column_cut) bytes.now missing }
{
    let Some((rest, left)) = skip_u32(bytes, missing) else {
        return false;
    };
    may_be_column_with_id(rest, left)
}

/// A number of two bytes and nothing behind it.
fn may_be_last_id(bytes: &[u8], missing: usize) -> bool
    ensures { result ≡ number_cut w16 end_cut bytes.now missing }
{
    let Some((rest, left)) = skip_u16(bytes, missing) else {
        return false;
    };
    may_end(rest, left)
}

/// A table, and the number of a column or an index.
fn may_be_id_of_table(bytes: &[u8], missing: usize) -> bool
    ensures { result ≡ number_cut w32 (number_cut w16 end_cut) bytes.now missing }
{
    let Some((rest, left)) = skip_u32(bytes, missing) else {
        return false;
    };
    may_be_last_id(rest, left)
}

/// A table and its name.
fn may_be_new_table(bytes: &[u8], missing: usize) -> bool
    ensures { result ≡ number_cut w32 name_cut bytes.now missing }
{
    let Some((rest, left)) = skip_u32(bytes, missing) else {
        return false;
    };
    may_be_name(rest, left)
}

/// What the kind of a schema change has, the table first.
fn may_be_step(kind: u8, bytes: &[u8], missing: usize) -> bool
    ensures { result ≡ step_cut kind bytes.now missing }
{
    match kind {
        1 => may_be_new_table(bytes, missing),
        2 => may_be_lone_number(bytes, missing),
        3 => may_be_new_column(bytes, missing),
        4 => may_be_id_of_table(bytes, missing),
        5 => may_be_new_index(bytes, missing),
        6 => may_be_id_of_table(bytes, missing),
        _ => false,
    }
}

/// Whether a schema change may have the bytes.
pub fn may_be_schema(bytes: &[u8], missing: usize) -> bool
    ensures { result ≡ schema_cut bytes.now missing }
{
    match bytes {
        [] => missing == 5 || (missing >= 7 && missing <= 1614),
        [kind, rest @ ..] => may_be_step(*kind, rest, missing),
    }
}
