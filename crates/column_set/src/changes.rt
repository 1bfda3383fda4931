//! The changes that sessions make to records.

ghost use Rattle.std.specs.Prelude.{◌≡◌, IfOk, Some, refl, bytes_eq};
ghost use Rattle.std.specs.Ordering.{nat_cmp};
ghost use Rattle.std.specs.Cmp.{partial_equiv_from_equiv};
ghost use Rattle.std.specs.Cmp.Lexicographic.{slice_cmp, nat_list_eq_equiv, nat_list_cmp_total, texts_ties, texts_po};
ghost use Rattle.column_set.specs.ChangedRecords.{changed_bookmark, changed_table};

use crate::records::Record;
use jet_base::{ColumnId, OutOfMemory, SmallBytes, TableId};
use std::alloc::{AllocError, Global};
use std::cmp::Ordering;
use std::marker::Model;

/// What a record of a table is found by: its key in the primary index, or else the number of the entry that inserted
/// it, in 8 bytes big-endian. A stored record's has 1 to 255 bytes.
#[derive(Debug, Drop)]
pub struct Bookmark {
    bytes: SmallBytes,
}

impl Model for Bookmark {
    ghost use Rattle.std.specs.Prelude.{List, ℕ};

    ghost Value = { List ℕ };

    ghost view = { λ a. a.bytes };
}

impl Bookmark {
    /// The bookmark of these bytes, which it takes over.
    pub fn new(bytes: Vec<u8>) -> Result<Bookmark, OutOfMemory>
        ensures { IfOk result (λ made. made ≡ bytes.items) }
    {
        Ok(Bookmark {
            bytes: SmallBytes::new(bytes)?,
        })
    }

    /// The bookmark of these bytes, copied.
    pub fn from_slice(alloc: Global, bytes: &[u8]) -> Result<Bookmark, OutOfMemory>
        ensures { IfOk result (λ made. made ≡ bytes.now) }
    {
        Ok(Bookmark {
            bytes: SmallBytes::from_slice(alloc, bytes)?,
        })
    }

    /// The bytes.
    pub fn as_bytes(&self) -> &[u8]
        ensures { result.now ≡ self.now }
    {
        self.bytes.as_slice()
    }

    /// Another value of the same bookmark.
    pub fn copy(&self) -> Result<Bookmark, OutOfMemory>
        ensures { IfOk result (λ made. made ≡ self.now) }
    {
        Ok(self.clone()?)
    }
}

impl Clone for Bookmark {
    ghost is_clone = { λ a b. b ≡ a };

    fn clone(&self) -> Result<Bookmark, AllocError> {
        Ok(Bookmark {
            bytes: self.bytes.clone()?,
        })
    }
}

impl PartialEq for Bookmark {
    ghost eq = { bytes_eq };

    ghost laws = { partial_equiv_from_equiv nat_list_eq_equiv };

    fn eq(&self, other: &Bookmark) -> bool {
        self.bytes.is(&other.bytes)
    }
}

impl Eq for Bookmark {
    ghost laws = { nat_list_eq_equiv };
}

impl PartialOrd for Bookmark {
    ghost partial_cmp = { λ a b. Some (slice_cmp nat_cmp a b) };

    ghost laws = { texts_po };

    fn partial_cmp(&self, other: &Bookmark) -> Option<Ordering> {
        Some(self.cmp(other))
    }
}

impl Ord for Bookmark {
    ghost cmp = { slice_cmp nat_cmp };

    ghost total = { nat_list_cmp_total };

    ghost matches_partial_cmp = { λ a b. refl };

    ghost matches_eq = { texts_ties };

    fn cmp(&self, other: &Bookmark) -> Ordering {
        self.as_bytes().cmp(other.as_bytes())
    }
}

/// A change of one record.
#[derive(Debug, Drop)]
pub enum Change {
    /// The record under the bookmark has these values now. It is new, or takes the place of the one there.
    Put {
        table: TableId,
        bookmark: Bookmark,
        /// The record that it was copied from, where it was and the session still sees that one.
        copied: Option<Bookmark>,
        values: Record,
    },
    /// The record is gone.
    Drop {
        table: TableId,
        bookmark: Bookmark,
    },
    /// The record is locked against the writes of others, and stays as it is.
    Hold {
        table: TableId,
        bookmark: Bookmark,
    },
    /// The amount is added to the record's sum in an escrow column, wrapping at 32 bits.
    Add {
        table: TableId,
        bookmark: Bookmark,
        column: ColumnId,
        amount: i32,
    },
}

impl Change {
    /// The table of the record that it changes.
    pub fn table(&self) -> TableId
        ensures { result.0 ≡ changed_table self.now }
    {
        match self {
            Change::Put { table, .. }
            | Change::Drop { table, .. }
            | Change::Hold { table, .. }
            | Change::Add { table, .. } => *table,
        }
    }

    /// What the record that it changes is found by.
    pub fn bookmark(&self) -> &Bookmark
        ensures { result.now ≡ changed_bookmark self.now }
    {
        match self {
            Change::Put { bookmark, .. }
            | Change::Drop { bookmark, .. }
            | Change::Hold { bookmark, .. }
            | Change::Add { bookmark, .. } => bookmark,
        }
    }
}
