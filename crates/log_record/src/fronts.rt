//! Whether bytes are cut from an entry.

ghost use Rattle.std.specs.Prelude.{◌≡◌, ◌<◌, ◌≤◌, ◌^◌, ◌↔◌, ℕ, Bool, List, length, IsTrue};
ghost use Rattle.std.specs.Int.{w16, w32};
ghost use Rattle.log_grammar.specs.EntryBytes.{IsCut};
ghost use Rattle.log_record.specs.EntryCuts.{end_cut, front_cut, kind_cut, rest_cut, small_cut};

use crate::changes::{may_be_add, may_be_drop, may_be_lone_number, may_end};
use crate::fields::skip_small;
use crate::records::may_be_put;
use crate::schemas::may_be_schema;
use column_set::u32_at;

/// Whether the fields of the tag may have the bytes.
fn may_be_fields(bytes: &[u8], missing: usize, tag: u8) -> bool
    ensures { result ≡ kind_cut tag bytes.now missing }
{
    match tag {
        3 => may_be_lone_number(bytes, missing),
        4 => may_be_lone_number(bytes, missing),
        7 => may_be_put(bytes, missing),
        8 => may_be_drop(bytes, missing),
        9 => may_be_add(bytes, missing),
        10 => may_be_drop(bytes, missing),
        15 => may_be_schema(bytes, missing),
        _ => 1 <= tag && tag <= 14 && may_end(bytes, missing),
    }
}

/// Whether a session and the fields of the tag may have the bytes.
fn may_follow_tag(bytes: &[u8], missing: usize, tag: u8) -> bool
    ensures { result ≡ small_cut 1 99 (kind_cut tag) bytes.now missing }
{
    let Some((rest, left)) = skip_small(bytes, missing, 1, 99) else {
        return false;
    };
    may_be_fields(rest, left, tag)
}

/// Whether what stands behind the length of an entry may have the bytes.
fn may_be_rest(bytes: &[u8], missing: usize) -> bool
    ensures { result ≡ rest_cut bytes.now missing }
{
    match bytes {
        [] => missing == 5 || missing == 9 || missing == 10 || missing >= 12,
        [tag, rest @ ..] => may_follow_tag(rest, missing, *tag),
    }
}

/// Whether the bytes are a front of an entry, by the length that they tell.
fn is_front(bytes: &[u8]) -> bool
    ensures { result ≡ front_cut bytes.now }
{
    let Some((count, rest)) = u32_at(bytes) else {
        return true;
    };
    let count = count as usize;
    rest.len() < count && may_be_rest(rest, count - rest.len())
}

/// Whether the bytes are less than the whole of some entry, as no byte at all is.
///
/// It takes no memory and looks at no bytes but those that are there: of the others it knows how many the length says
/// are missing.
pub fn is_cut(bytes: &[u8]) -> bool
    ensures { IsTrue result ↔ IsCut bytes.now }
{
    is_front(bytes)
}
