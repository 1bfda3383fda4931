//! What the held changes tell of conflicts and of the version store's span.

ghost use Rattle.std.specs.Prelude.{◌≡◌, length};
ghost use Rattle.column_set.specs.Rows.{largest_row};
ghost use Rattle.laws_engine.specs.HeldRecords.{has_conflict};
ghost use Rattle.stored_variants.specs.StoredVersions.{has_room, next_to_forget};

use crate::reading::newest_row;
use crate::store::TableVersions;
use column_set::{Change, MAX_ROW_SIZE, size_of_a_row};
use version_store::{By, Reader};

// As many bytes as a row has at most.
static LONGEST_ROW: [u8; MAX_ROW_SIZE] = [0; MAX_ROW_SIZE];

impl TableVersions {
    /// How many changes are held.
    pub fn held(&self) -> usize
        ensures { result ≡ length self.now.store.held }
    {
        self.versions.len()
    }

    /// Whether a write conflict stands against the change: a change of another session that is open, or was committed after the
    /// reader's begin, touches the same record, unless both are sums.
    pub fn conflict(&self, reader: Reader, change: &Change) -> bool
        ensures { result ≡ has_conflict reader change.now self.now.store.held }
    {
        self.versions.conflict(reader, change)
    }

    /// Whether the span of the version store stays within its limit with this change, which holds the newest record of its own
    /// where it is a put or a drop.
    pub fn fits(&self, by: By, change: &Change) -> bool
        ensures { result ≡ has_room by change.now self.now.store }
    {
        size_of_a_row();
        self.trees.nodes_are_in_order();
        // Where the longest row fits every row does, and none is looked for.
        if self.versions.fits(by, change, Some(longest_row())) {
            true
        } else {
            self.fits_with_its_row(by, change)
        }
    }

    // The same by the row of the newest record.
    fn fits_with_its_row(&self, by: By, change: &Change) -> bool
        ensures { result ≡ has_room by change.now self.now.store }
    {
        size_of_a_row();
        self.trees.nodes_are_in_order();
        let before = newest_row(&self.trees, change.table(), change.bookmark().as_bytes());
        self.versions.fits(by, change, before)
    }

    /// The number of the oldest held change, where it can be forgotten: it is neither open nor committed after the oldest open
    /// transaction began.
    pub fn next_to_forget(&self, oldest: Option<u64>) -> Option<u64>
        ensures { result ≡ next_to_forget oldest self.now.store.held }
    {
        if self.versions.is_empty() {
            None
        } else if self.versions.is_kept_at(0, oldest) {
            None
        } else {
            Some(self.versions.number_at(0))
        }
    }
}

// A row as long as one can be.
fn longest_row() -> &'static [u8]
    ensures { length result.now ≡ largest_row }
{
    &LONGEST_ROW
}
