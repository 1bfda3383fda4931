//! Whether bytes may be a front of the fields of a change.

ghost use Rattle.std.specs.Prelude.{◌≡◌, ◌<◌, ◌^◌, ℕ, Bool, List, length};
ghost use Rattle.std.specs.Int.{w16, w32};
ghost use Rattle.log_record.specs.EntryCuts.{add_cut, add_none, bookmark_cut, copied_after_cut, copied_bookmark_none, copied_cut, drop_cut, drop_none, end_cut, number_cut, put_cut, put_none, record_cut, record_low, size_part, values_cut};

use crate::fields::{skip, skip_bookmark, skip_u16, skip_u32};

/// Whether nothing is there and nothing is missing.
pub fn may_end(bytes: &[u8], missing: usize) -> bool
    ensures { result ≡ end_cut bytes.now missing }
{
    bytes.is_empty() && missing == 0
}

/// Whether a number of four bytes and nothing more may have the bytes.
pub fn may_be_lone_number(bytes: &[u8], missing: usize) -> bool
    ensures { result ≡ number_cut w32 end_cut bytes.now missing }
{
    let Some((rest, left)) = skip_u32(bytes, missing) else {
        return false;
    };
    may_end(rest, left)
}

/// A bookmark of which a byte is there, and nothing behind it.
fn bookmark_alone(bytes: &[u8], missing: usize) -> bool
    requires { 0 < length bytes.now }
    ensures { (none : ℕ → Bool) → result ≡ bookmark_cut none end_cut bytes.now missing }
{
    let Some((rest, left)) = skip_bookmark(bytes, missing) else {
        return false;
    };
    may_end(rest, left)
}

/// A bookmark and nothing behind it.
fn may_be_last_bookmark(bytes: &[u8], missing: usize) -> bool
    ensures { result ≡ bookmark_cut drop_none end_cut bytes.now missing }
{
    match bytes {
        [] => missing >= 3 && missing <= 257,
        [_, ..] => bookmark_alone(bytes, missing),
    }
}

/// Whether a table and a bookmark may have the bytes.
pub fn may_be_drop(bytes: &[u8], missing: usize) -> bool
    ensures { result ≡ drop_cut bytes.now missing }
{
    let Some((rest, left)) = skip_u32(bytes, missing) else {
        return false;
    };
    may_be_last_bookmark(rest, left)
}

/// A column and an amount.
fn may_be_column_and_amount(bytes: &[u8], missing: usize) -> bool
    ensures { result ≡ number_cut w16 (number_cut w32 end_cut) bytes.now missing }
{
    let Some((rest, left)) = skip_u16(bytes, missing) else {
        return false;
    };
    may_be_lone_number(rest, left)
}

/// A bookmark of which a byte is there, a column and an amount.
fn bookmark_and_amount(bytes: &[u8], missing: usize) -> bool
    requires { 0 < length bytes.now }
    ensures { (none : ℕ → Bool) → result ≡ bookmark_cut none (number_cut w16 (number_cut w32 end_cut)) bytes.now missing }
{
    let Some((rest, left)) = skip_bookmark(bytes, missing) else {
        return false;
    };
    may_be_column_and_amount(rest, left)
}

/// A bookmark, a column and an amount.
fn may_be_amount_of_bookmark(bytes: &[u8], missing: usize) -> bool
    ensures { result ≡ bookmark_cut add_none (number_cut w16 (number_cut w32 end_cut)) bytes.now missing }
{
    match bytes {
        [] => missing >= 9 && missing <= 263,
        [_, ..] => bookmark_and_amount(bytes, missing),
    }
}

/// Whether a table, a bookmark, a column and an amount may have the bytes.
pub fn may_be_add(bytes: &[u8], missing: usize) -> bool
    ensures { result ≡ add_cut bytes.now missing }
{
    let Some((rest, left)) = skip_u32(bytes, missing) else {
        return false;
    };
    may_be_amount_of_bookmark(rest, left)
}

/// Whether the front of the length of a value may be completed, with so many values behind it.
pub fn may_be_size(bytes: &[u8], missing: usize, others: u16) -> bool
    requires { length bytes.now < 4 }
    ensures { result ≡ size_part others bytes.now missing }
{
    let lacking = 4 - bytes.len();
    if missing < lacking {
        return false;
    }
    let left = missing - lacking;
    let (least, scale) = match bytes {
        [] => (0, 1),
        [low] => (*low as usize, 256),
        [low, second] => (*low as usize + 256 * *second as usize, 65_536),
        [low, second, third, ..] => (
            *low as usize + 256 * *second as usize + 65_536 * *third as usize,
            16_777_216,
        ),
    };
    if others == 0 {
        left % scale == least
    } else {
        least + 6 * others as usize <= left
    }
}
