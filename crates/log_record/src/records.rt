//! Whether bytes may be a front of a record.

ghost use Rattle.std.specs.Prelude.{◌≡◌, ◌<◌, ◌^◌, ◌+◌, ◌&&◌, ℕ, Bool, List, length, suc, nat_le, ◌*◌};
ghost use Rattle.std.specs.Int.{w16, w32};
ghost use Rattle.log_record.specs.EntryCuts.{bookmark_cut, copied_after_cut, copied_bookmark_none, copied_cut, number_cut, part16, put_cut, put_none, record_cut, record_low, record_none, size_part, values_cut};
ghost use Rattle.log_record.specs.Passing.{Decided};

use crate::changes::{may_be_size, may_end};
use crate::fields::{skip, skip_bookmark, skip_u32};
use column_set::{u16_at, u32_at};

/// Whether a front of a column that is not below `least` may be completed, with a value and so many values behind it.
fn may_be_column(bytes: &[u8], missing: usize, least: u16, others: u16) -> bool
    requires { length bytes.now < 2 }
    ensures { result ≡ part16 (λ left. nat_le (6 + 6 * others) left) (λ low left. nat_le least (low + 65280) && nat_le (5 + 6 * others) left) bytes.now missing }
{
    let behind = 6 * others as usize;
    match bytes {
        [] => 6 + behind <= missing,
        [low, ..] => least as usize <= *low as usize + 0xff00 && 5 + behind <= missing,
    }
}

/// The column of a value, what stands behind it and how many bytes are missing there, or whether the values may follow.
fn next_value(
    bytes: &[u8],
    missing: usize,
    least: u16,
    others: u16,
) -> Result<(u16, &[u8], usize), bool>
    ensures { Decided (λ x. values_cut others x.0 x.1.now x.2) result (values_cut (suc others) least bytes.now missing) }
{
    let Some((column, rest)) = u16_at(bytes) else {
        return Err(may_be_column(bytes, missing, least, others));
    };
    if column < least {
        return Err(false);
    }
    let Some((size, rest)) = u32_at(rest) else {
        return Err(may_be_size(rest, missing, others));
    };
    let Some((rest, left)) = skip(rest, missing, size as usize) else {
        return Err(false);
    };
    Ok((column, rest, left))
}

/// Whether so many values and nothing more may have the bytes.
fn may_be_values(bytes: &[u8], missing: usize, count: u16) -> bool
    ensures { result ≡ values_cut count 0 bytes.now missing }
{
    let mut rest = bytes;
    let mut left = missing;
    let mut least = 0;
    for index in 0..count {
        match next_value(rest, left, least, count - 1 - index) {
            Ok((column, behind, lacking)) => {
                rest = behind;
                left = lacking;
                least = column;
            }
            Err(decided) => return decided,
        }
    }
    may_end(rest, left)
}

/// Whether a front of a count of values may be completed, with the values behind it.
fn may_be_count(bytes: &[u8], missing: usize) -> bool
    requires { length bytes.now < 2 }
    ensures { result ≡ part16 record_none record_low bytes.now missing }
{
    match bytes {
        [] => missing == 2 || missing >= 8,
        [low, ..] => {
            if missing == 1 {
                *low == 0
            } else if *low == 0 {
                1 + 6 * 256 <= missing
            } else {
                1 + 6 * *low as usize <= missing
            }
        }
    }
}

/// Whether a record and nothing more may have the bytes.
fn may_be_record(bytes: &[u8], missing: usize) -> bool
    ensures { result ≡ record_cut bytes.now missing }
{
    match u16_at(bytes) {
        Some((count, rest)) => may_be_values(rest, missing, count),
        None => may_be_count(bytes, missing),
    }
}

/// A bookmark of which a byte is there, and a record.
fn bookmark_and_record(bytes: &[u8], missing: usize) -> bool
    requires { 0 < length bytes.now }
    ensures { (none : ℕ → Bool) → result ≡ bookmark_cut none record_cut bytes.now missing }
{
    let Some((rest, left)) = skip_bookmark(bytes, missing) else {
        return false;
    };
    may_be_record(rest, left)
}

/// The bookmark of a copied record, and a record.
fn may_be_copied_bookmark(bytes: &[u8], missing: usize) -> bool
    ensures { result ≡ bookmark_cut copied_bookmark_none record_cut bytes.now missing }
{
    match bytes {
        [] => missing >= 5,
        [_, ..] => bookmark_and_record(bytes, missing),
    }
}

/// What follows the flag of a copied record.
fn may_follow_flag(flag: u8, bytes: &[u8], missing: usize) -> bool
    ensures { result ≡ copied_after_cut flag bytes.now missing }
{
    match flag {
        0 => may_be_record(bytes, missing),
        1 => may_be_copied_bookmark(bytes, missing),
        _ => false,
    }
}

/// The flag of a copied record and what follows it.
fn may_be_copied(bytes: &[u8], missing: usize) -> bool
    ensures { result ≡ copied_cut bytes.now missing }
{
    match bytes {
        [] => missing == 3 || missing >= 6,
        [flag, rest @ ..] => may_follow_flag(*flag, rest, missing),
    }
}

/// A bookmark of which a byte is there, and a record that may be copied.
fn bookmark_and_copied(bytes: &[u8], missing: usize) -> bool
    requires { 0 < length bytes.now }
    ensures { (none : ℕ → Bool) → result ≡ bookmark_cut none copied_cut bytes.now missing }
{
    let Some((rest, left)) = skip_bookmark(bytes, missing) else {
        return false;
    };
    may_be_copied(rest, left)
}

/// A bookmark and the record that is put under it.
fn may_be_put_bookmark(bytes: &[u8], missing: usize) -> bool
    ensures { result ≡ bookmark_cut put_none copied_cut bytes.now missing }
{
    match bytes {
        [] => missing >= 6,
        [_, ..] => bookmark_and_copied(bytes, missing),
    }
}

/// Whether a table, a bookmark and a record may have the bytes.
pub fn may_be_put(bytes: &[u8], missing: usize) -> bool
    ensures { result ≡ put_cut bytes.now missing }
{
    let Some((rest, left)) = skip_u32(bytes, missing) else {
        return false;
    };
    may_be_put_bookmark(rest, left)
}
