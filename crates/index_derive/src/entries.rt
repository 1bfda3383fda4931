//! Entries of an index, and places among them.

use key_normal::Key;

/// An entry of an index: a key of a record, and the bookmark under which that record stands.
#[derive(Debug, Drop, PartialEq, Eq)]
pub struct IndexEntry {
    pub key: Key,
    pub bookmark: Key,
}

/// Where a cursor stands among the entries of its index, which are ordered by key and then by bookmark.
#[derive(Debug, Drop, PartialEq, Eq)]
pub enum Place {
    /// Before all entries.
    Before,
    /// After all entries.
    After,
    /// On the entry with this key and this bookmark, whether it still stands there or not.
    On(Key, Key),
    /// Just above all entries with the key where the flag is true, else just below them.
    Gap(Key, bool),
}
