//! One entry: which flags leave it out, and its key.

ghost use Rattle.std.specs.Prelude.{◌≡◌, ◌≤◌, length, map, option_copied, is_none};
ghost use Rattle.std.specs.List.{list_any, list_all};
ghost use Rattle.key_normal.specs.KeyBytes.{key_bytes, cut_key, is_cut};
ghost use Rattle.index_derive.specs.Entries.{is_ignored, is_first_null};
ghost use Rattle.index_derive.specs.Walks.{key_column};

use crate::plan::KeyPart;
use crate::rules::{IndexFlags, IndexRule};
use key_normal::{Key, KeyMaker, Part};

/// Whether a flag leaves out an entry of these values.
pub(crate) fn is_ignored(flags: IndexFlags, values: &[Option<&[u8]>]) -> bool
    ensures { result ≡ is_ignored flags (map option_copied values.now) }
{
    flags.ignorenull && is_all_null(values)
        || flags.ignoreanynull && has_null(values)
        || flags.ignorefirstnull && is_first_null(values)
}

/// Whether a column is NULL.
pub(crate) fn has_null(values: &[Option<&[u8]>]) -> bool
    ensures { result ≡ list_any is_none (map option_copied values.now) }
{
    for value in values {
        if value.is_none() {
            return true;
        }
    }
    false
}

/// Whether all columns are NULL.
fn is_all_null(values: &[Option<&[u8]>]) -> bool
    ensures { result ≡ list_all is_none (map option_copied values.now) }
{
    for value in values {
        if value.is_some() {
            return false;
        }
    }
    true
}

/// Whether the first column is NULL.
fn is_first_null(values: &[Option<&[u8]>]) -> bool
    ensures { result ≡ is_first_null (map option_copied values.now) }
{
    match values {
        [value, ..] => value.is_none(),
        [] => false,
    }
}

/// The key of the values, and whether it is cut.
pub(crate) fn key_of(rule: &IndexRule, parts: &[KeyPart], values: &[Option<&[u8]>]) -> (Key, bool)
    requires { rule.now.key_most ≤ 255 }
    ensures key { result.0 ≡ cut_key rule.now.key_most (key_bytes (map key_column parts.now) rule.now.flags.sortnullshigh (map option_copied values.now)) }
    ensures cut { result.1 ≡ is_cut rule.now.key_most (key_bytes (map key_column parts.now) rule.now.flags.sortnullshigh (map option_copied values.now)) }
{
    let mut maker = KeyMaker::new(usize::from(rule.key_most));
    for (part, value) in parts.iter().zip(values) {
        maker.add(Part {
            kind: part.kind,
            value: *value,
            descending: part.descending,
            nulls_high: rule.flags.sortnullshigh,
        });
    }
    maker.done()
}
