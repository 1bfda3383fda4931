//! A walk over the values that a record brings into an index, one entry after the other and without memory.

ghost use Rattle.std.specs.Prelude.{◌≡◌, ◌≤◌, ◌∷◌, [], length, MatchOption};
ghost use Rattle.index_derive.specs.Walks.{row_count, row_length, multi_count, behind_first_multi, candidates_left};

use crate::entry::{has_null, is_ignored, key_of};
use crate::plan::KeyPart;
use crate::rules::{IndexFlags, IndexRule};
use crate::values::{text_at, values_in};
use column_set::Values;
use key_normal::Key;

/// Where a walk stands: at a place of a row. A row is what one value of the first multi-valued column brings, or the
/// parts of one text.
#[derive(Clone, Copy, Debug)]
pub struct Walk {
    pub row: usize,
    pub at: usize,
}

/// A key that the record has, where it is not refused.
#[derive(Debug, Drop)]
pub struct Candidate {
    pub key: Key,
    /// The key lost bytes at its limit.
    pub cut: bool,
    /// A column of it is NULL.
    pub has_null: bool,
}

impl Walk {
    /// Before the first entry.
    pub(crate) fn new() -> Walk
        ensures { result ≡ record { row = 0; at = 0 } }
    {
        Walk { row: 0, at: 0 }
    }

    /// The next entry that no flag leaves out.
    pub(crate) fn next<R: Values>(
        &mut self,
        rule: &IndexRule,
        parts: &[KeyPart],
        record: &R,
    ) -> Option<Candidate>
        requires few { length parts.now ≤ 12 }
        requires short { rule.now.key_most ≤ 255 }
        ensures { MatchOption result (candidates_left rule.now parts.now (R.fields «record».now) self.old ≡ []) (λ candidate. candidates_left rule.now parts.now (R.fields «record».now) self.old ≡ candidate ∷ candidates_left rule.now parts.now (R.fields «record».now) self.new) }
    {
        let rows = row_count(rule.flags, parts, record);
        while self.row < rows {
            if self.at < row_length(rule.flags, parts, record, self.row) {
                let values = values_in(rule.flags, parts, record, self.row, self.at);
                self.at += 1;
                if !is_ignored(rule.flags, values.as_slice()) {
                    let (key, cut) = key_of(rule, parts, values.as_slice());
                    return Some(Candidate {
                        key,
                        cut,
                        has_null: has_null(values.as_slice()),
                    });
                }
            } else {
                self.row += 1;
                self.at = 0;
            }
        }
        None
    }
}

/// How many rows there are.
fn row_count<R: Values>(flags: IndexFlags, parts: &[KeyPart], record: &R) -> usize
    ensures { result ≡ row_count flags parts.now (R.fields «record».now) }
{
    match parts {
        [part, ..] if flags.tuples => record.count(part.column),
        [] if flags.tuples => 0,
        _ => multi_count(parts, record),
    }
}

/// How many combinations or parts stand in the row.
fn row_length<R: Values>(flags: IndexFlags, parts: &[KeyPart], record: &R, row: usize) -> usize
    ensures { result ≡ row_length flags parts.now (R.fields «record».now) row }
{
    match parts {
        [part, ..] if flags.tuples => text_at(record, part.column, row).len().saturating_sub(2),
        [] if flags.tuples => 0,
        _ if flags.crossproduct => multi_count(behind_first_multi(parts), record),
        _ => 1,
    }
}

/// How many values the first multi-valued column brings. NULL counts as one.
fn multi_count<R: Values>(parts: &[KeyPart], record: &R) -> usize
    ensures { result ≡ multi_count parts.now (R.fields «record».now) }
{
    for part in parts {
        if part.multi {
            return record.count(part.column).max(1);
        }
    }
    1
}

/// The columns behind the first multi-valued one.
fn behind_first_multi(parts: &[KeyPart]) -> &[KeyPart]
    ensures { result.now ≡ behind_first_multi parts.now }
{
    for (i, part) in parts.iter().enumerate() {
        if part.multi {
            return &parts[i + 1..];
        }
    }
    &[]
}
