//! What a cursor sees of the tables.

ghost use Rattle.std.specs.Prelude.{◌≡◌, ℕ, Bool, true, List, is_some};
ghost use Rattle.index_derive.specs.declared.entries.Place.TheVariants.{Before, After};
ghost use Rattle.cursor_nav.specs.Places.{Pair, are_sorted, entry_after, entry_before, least_entry_of, found_pair, on_or};

use index_derive::{IndexEntry, Place};
use jet_base::{IndexId, TableId};

/// The entries of each index of the tables, ordered by key and then by bookmark, and which bookmarks have a record.
///
/// The index 0 is the hidden order of a table without a primary index. A table or an index that is not there has no
/// entry. No call takes memory.
pub trait View {
    // the entries of an index of a table
    ghost entries: { Self → ℕ → ℕ → List Pair };

    // whether the bookmark has a record in the table
    ghost has_record: { Self → ℕ → List ℕ → Bool };

    /// The least entry beyond the place.
    fn after(&self, table: TableId, index: IndexId, place: &Place) -> Option<IndexEntry>
        ensures { found_pair result ≡ entry_after place.now (entries self.now table.0 index.0) };

    /// The greatest entry before the place.
    fn before(&self, table: TableId, index: IndexId, place: &Place) -> Option<IndexEntry>
        ensures { found_pair result ≡ entry_before place.now (entries self.now table.0 index.0) };

    /// Makes the place that of the least entry beyond it, else After; and whether there is such an entry. The entry is
    /// written where the place lies.
    fn advance(&self, table: TableId, index: IndexId, place: &mut Place) -> bool
        ensures found { result ≡ is_some (entry_after place.old (entries self.now table.0 index.0)) }
        ensures place { place.new ≡ on_or (entry_after place.old (entries self.now table.0 index.0)) After }
    {
        stand(self.after(table, index, place), place, Place::After)
    }

    /// Makes the place that of the greatest entry before it, else Before; and whether there is such an entry.
    fn retreat(&self, table: TableId, index: IndexId, place: &mut Place) -> bool
        ensures found { result ≡ is_some (entry_before place.old (entries self.now table.0 index.0)) }
        ensures place { place.new ≡ on_or (entry_before place.old (entries self.now table.0 index.0)) Before }
    {
        stand(self.before(table, index, place), place, Place::Before)
    }

    /// The least entry with the bookmark.
    fn least(&self, table: TableId, index: IndexId, bookmark: &[u8]) -> Option<IndexEntry>
        ensures { found_pair result ≡ least_entry_of bookmark.now (entries self.now table.0 index.0) };

    /// Whether the bookmark has a record.
    fn has(&self, table: TableId, bookmark: &[u8]) -> bool
        ensures { result ≡ has_record self.now table.0 bookmark.now };

    // entries are in order, and none stands twice
    ghost sorted: { (view : Self) (table index : ℕ) → are_sorted (entries view table index) ≡ true };
}

/// Makes the place that of the entry that was found, or else the other; and whether one was found.
fn stand(found: Option<IndexEntry>, place: &mut Place, otherwise: Place) -> bool
    ensures found { result ≡ is_some (found_pair found) }
    ensures place { place.new ≡ on_or (found_pair found) otherwise }
{
    match found {
        Some(entry) => {
            *place = Place::On(entry.key, entry.bookmark);
            true
        }
        None => {
            *place = otherwise;
            false
        }
    }
}
