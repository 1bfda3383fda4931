//! A plain sorted list as a view.

ghost use Rattle.std.specs.Prelude.{◌≡◌, true, map, IfSome, is_some, option_copied};
ghost use Rattle.cursor_nav.specs.Places.{are_sorted, pair_lt, pair_of, found_pair, is_beyond, is_short_of};
ghost use Rattle.cursor_nav.specs.Steps.{is_below_first, first_beyond, last_before, first_of};

use crate::view::View;
use index_derive::{IndexEntry, Place};
use jet_base::{IndexId, TableId};

/// One index of one table, as a sorted list. It is the same whatever table and index are asked, and a bookmark has a
/// record where it stands in the list.
///
/// Each call goes over the whole list.
#[derive(Debug, Drop)]
pub struct SortedEntries {
    entries: Vec<IndexEntry>,
    ghost in_order: { are_sorted (map pair_of entries.items) ≡ true },
}

impl SortedEntries {
    /// The view of these entries; None where they are not in order, or one stands twice.
    pub fn new(entries: Vec<IndexEntry>) -> Option<SortedEntries>
        ensures sorted { is_some result ≡ are_sorted (map pair_of entries.items) }
        ensures value { IfSome result (λ view. view.entries ≡ entries) }
    {
        if is_sorted(&entries) {
            Some(SortedEntries { entries })
        } else {
            None
        }
    }
}

impl View for SortedEntries {
    ghost entries = { λ view table index. map pair_of view.entries.items };

    ghost has_record = { λ view table bookmark. is_some (first_of bookmark view.entries.items) };

    fn after(&self, _: TableId, _: IndexId, place: &Place) -> Option<IndexEntry> {
        copied(first_beyond(self.entries.as_slice(), place))
    }

    fn before(&self, _: TableId, _: IndexId, place: &Place) -> Option<IndexEntry> {
        copied(last_before(self.entries.as_slice(), place))
    }

    fn least(&self, _: TableId, _: IndexId, bookmark: &[u8]) -> Option<IndexEntry> {
        copied(first_of(self.entries.as_slice(), bookmark))
    }

    fn has(&self, _: TableId, bookmark: &[u8]) -> bool {
        first_of(self.entries.as_slice(), bookmark).is_some()
    }

    ghost sorted = { λ view table index. view.in_order };
}

/// The first entry beyond the place.
fn first_beyond<'a>(entries: &'a [IndexEntry], place: &Place) -> Option<&'a IndexEntry>
    ensures { option_copied result ≡ first_beyond place.now entries.now }
{
    entries.iter().find(|entry| is_beyond(place, entry))
}

/// The last entry before the place.
fn last_before<'a>(entries: &'a [IndexEntry], place: &Place) -> Option<&'a IndexEntry>
    ensures { option_copied result ≡ last_before place.now entries.now }
{
    entries.iter().rev().find(|entry| is_short_of(place, entry))
}

/// The first entry with the bookmark.
fn first_of<'a>(entries: &'a [IndexEntry], bookmark: &[u8]) -> Option<&'a IndexEntry>
    ensures { option_copied result ≡ first_of bookmark.now entries.now }
{
    entries
        .iter()
        .find(|entry| entry.bookmark.as_bytes() == bookmark)
}

/// Whether the entries are in order and none stands twice.
#[tactic(auto, using(crate::proofs::Listing::sorted_step))]
fn is_sorted(entries: &[IndexEntry]) -> bool
    ensures { result ≡ are_sorted (map pair_of entries.now) }
{
    let mut rest = entries;
    while let Some((first, after)) = rest.split_first() {
        if !lies_below_first(first, after) {
            return false;
        }
        rest = after;
    }
    true
}

/// Whether the one entry lies below the first of the others, where there is one.
fn lies_below_first(one: &IndexEntry, others: &[IndexEntry]) -> bool
    ensures { result ≡ is_below_first (pair_of one.now) (map pair_of others.now) }
{
    match others.first() {
        Some(other) => lies_below(one, other),
        None => true,
    }
}

/// Whether the one entry lies below the other.
fn lies_below(one: &IndexEntry, other: &IndexEntry) -> bool
    ensures { result ≡ pair_lt (pair_of one.now) (pair_of other.now) }
{
    one.key.cmp(&other.key).is_lt()
        || (one.key == other.key && one.bookmark.cmp(&other.bookmark).is_lt())
}

/// Whether the entry lies beyond the place.
fn is_beyond(place: &Place, entry: &IndexEntry) -> bool
    ensures { result ≡ is_beyond place.now (pair_of entry.now) }
{
    match place {
        Place::Before => true,
        Place::After => false,
        Place::On(key, bookmark) => {
            key.cmp(&entry.key).is_lt()
                || (*key == entry.key && bookmark.cmp(&entry.bookmark).is_lt())
        }
        Place::Gap(key, true) => key.cmp(&entry.key).is_lt(),
        Place::Gap(key, false) => key.cmp(&entry.key).is_le(),
    }
}

/// Whether the entry lies before the place.
fn is_short_of(place: &Place, entry: &IndexEntry) -> bool
    ensures { result ≡ is_short_of place.now (pair_of entry.now) }
{
    match place {
        Place::Before => false,
        Place::After => true,
        Place::On(key, bookmark) => {
            entry.key.cmp(key).is_lt()
                || (entry.key == *key && entry.bookmark.cmp(bookmark).is_lt())
        }
        Place::Gap(key, true) => entry.key.cmp(key).is_le(),
        Place::Gap(key, false) => entry.key.cmp(key).is_lt(),
    }
}

/// Another entry that is equal.
fn copied(found: Option<&IndexEntry>) -> Option<IndexEntry>
    ensures { found_pair result ≡ found_pair (option_copied found.entry) }
{
    match found {
        Some(entry) => Some(IndexEntry {
            key: entry.key.copy(),
            bookmark: entry.bookmark.copy(),
        }),
        None => None,
    }
}
