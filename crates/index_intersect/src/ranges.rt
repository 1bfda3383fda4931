//! Ranges of an index.

ghost use Rattle.std.specs.Prelude.{◌≡◌, IsTrue, option_map};
ghost use Rattle.cursor_nav.specs.Places.{is_on, is_within_upper, upper_limit};
ghost use Rattle.index_intersect.specs.CursorRanges.{cursor_range, limit_at};
ghost use Rattle.index_intersect.specs.Intersection.{upper_range};

use cursor_nav::Cursor;
use index_derive::{IndexEntry, Place};
use jet_base::{IndexId, TableId};
use key_normal::Key;

/// A range of an index of a table: the entries that are not below one, up to a limit or to the end of the index.
#[derive(Debug, Drop)]
pub struct IndexRange {
    pub table: TableId,
    /// 0 for the hidden order of a table without a primary index.
    pub index: IndexId,
    /// Where the range begins, whether an entry stands there or not.
    pub from: IndexEntry,
    pub upper: Option<Limit>,
}

/// The upper limit of a range.
#[derive(Debug, Drop)]
pub struct Limit {
    pub key: Key,
    /// Entries with the limit's key lie within.
    pub inclusive: bool,
}

impl IndexRange {
    /// The range of a cursor that is on an entry: from there to the upper limit of its moves, or to the end of its index. A lower
    /// limit has no part in it.
    pub fn of_cursor(cursor: &Cursor) -> IndexRange
        requires { IsTrue (is_on cursor.now.place) }
        ensures { result ≡ cursor_range cursor.now }
    {
        let Place::On(key, bookmark) = cursor.place() else {
            unreachable!()
        };
        IndexRange {
            table: cursor.table(),
            index: cursor.index(),
            from: IndexEntry {
                key: key.copy(),
                bookmark: bookmark.copy(),
            },
            upper: upper_limit(cursor),
        }
    }

    /// Whether the limit lets entries with the key lie within.
    pub(crate) fn is_within(&self, key: &Key) -> bool
        ensures { result ≡ is_within_upper (upper_range self.now.upper) key.now }
    {
        match &self.upper {
            Some(limit) if limit.inclusive => key.cmp(&limit.key).is_le(),
            Some(limit) => key.cmp(&limit.key).is_lt(),
            None => true,
        }
    }
}

/// The upper limit of a cursor's moves.
fn upper_limit(cursor: &Cursor) -> Option<Limit>
    ensures { result ≡ option_map limit_at (upper_limit cursor.now.range) }
{
    match cursor.upper_limit() {
        Some((key, inclusive)) => Some(Limit { key, inclusive }),
        None => None,
    }
}
