//! Prepared updates.

use column_set::Bookmark;
use record_edit::CopyBuffer;

/// What a prepared update will do.
#[derive(Debug, Drop)]
pub enum Purpose {
    /// Insert a record, perhaps copied from the one that stood under the bookmark.
    Insert(Option<Bookmark>),
    /// Replace the record under the bookmark.
    Replace(Bookmark),
}

/// An update that is prepared on a cursor.
#[derive(Debug, Drop)]
pub struct Prepared {
    pub purpose: Purpose,
    /// The values so far, with the columns of the cursor's table.
    pub buffer: CopyBuffer,
}
