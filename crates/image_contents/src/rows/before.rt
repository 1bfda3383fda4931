//! The rows before the held changes of a record.

ghost use Rattle.std.specs.Prelude.{◌≡◌, ◌&&◌, ◌||◌, [], is_some, length, nat_lt, option_copied, unwrap_or};
ghost use Rattle.database_state.specs.State.{is_open};
ghost use Rattle.image_contents.specs.RowsBefore.{TellsRows};
ghost use Rattle.version_store.specs.Items.{state_of};

use jet_base::TableId;
use version_store::{Held, Status, Versions};

/// What the held changes of a record tell of the rows before them.
#[derive(Clone, Copy)]
pub(crate) struct RowsBefore {
    /// One of them has a row before it.
    pub has_row: bool,
    /// The row before one that is open has no room.
    pub lacks_room: bool,
}

impl RowsBefore {
    /// The same with one change more.
    fn with(self, change: Held<'_>, extent: usize) -> RowsBefore
        ensures row { result.has_row ≡ (self.has_row || is_some (option_copied change.entry.before)) }
        ensures room { result.lacks_room ≡ (self.lacks_room || (is_open (state_of change.entry.status) && nat_lt extent (length (unwrap_or (option_copied change.entry.before) [])))) }
    {
        RowsBefore {
            has_row: self.has_row || is_row(change.before),
            lacks_room: self.lacks_room || outgrows(change, extent),
        }
    }
}

/// What the held changes of a record that stand tell of the rows before them, and of the room of so many bytes for these.
pub(crate) fn rows_before(
    versions: &Versions,
    table: TableId,
    bookmark: &[u8],
    extent: usize,
) -> RowsBefore
    ensures { TellsRows table.0 bookmark.now extent versions.now result }
{
    let mut told = RowsBefore {
        has_row: false,
        lacks_room: false,
    };
    let mut at = versions.newest_rewrite(table, bookmark);
    while let Some(place) = at {
        told = told.with(versions.change_at(place), extent);
        at = versions.older_rewrite(place);
    }
    told
}

/// Whether there is a row.
fn is_row(row: Option<&[u8]>) -> bool
    ensures { result ≡ is_some (option_copied row.entry) }
{
    match row {
        Some(_) => true,
        None => false,
    }
}

/// Whether a change is open, and the row before it has more than so many bytes.
fn outgrows(change: Held<'_>, extent: usize) -> bool
    ensures { result ≡ (is_open (state_of change.entry.status) && nat_lt extent (length (unwrap_or (option_copied change.entry.before) []))) }
{
    let size = match change.before {
        Some(row) => row.len(),
        None => 0,
    };
    matches!(change.status, Status::Uncommitted) && extent < size
}
