//! MakeKey and RemoveIndexRange.

ghost use Rattle.std.specs.Prelude.{◌≡◌, IsTrue};
ghost use Rattle.session_local.specs.Changing.{cursor_after, key_made_at, range_removed_at};
ghost use Rattle.session_local.specs.WellFormed.{is_well_formed_schema};

use crate::navigating::jet_of;
use crate::open_cursor::OpenCursor;
use jet_base::{Given, Jet};

impl OpenCursor {
    /// Makes the next segment of a key in the current index, or with `fresh` the first.
    pub(crate) fn make_key(&mut self, fresh: bool, value: &Given) -> Jet
        requires { IsTrue (is_well_formed_schema self.old.schema) }
        ensures jet { result ≡ (key_made_at self.old fresh value.now).jet }
        ensures cursor { self.new ≡ cursor_after self.old (key_made_at self.old fresh value.now) }
    {
        jet_of(self.cursor.make_key(&self.schema, fresh, value))
    }

    /// Ends the range, where there is one.
    pub(crate) fn remove_range(&mut self) -> Jet
        ensures jet { result ≡ (range_removed_at self.old).jet }
        ensures cursor { self.new ≡ cursor_after self.old (range_removed_at self.old) }
    {
        self.cursor.drop_range();
        Jet::Success
    }
}
