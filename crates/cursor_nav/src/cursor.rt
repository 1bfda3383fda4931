//! A cursor.

ghost use Rattle.std.specs.Prelude.{◌≡◌, IsTrue, Option, Some, None};
ghost use Rattle.index_derive.specs.declared.entries.Place.TheVariants.{On};
ghost use Rattle.cursor_nav.specs.Navigation.{CursorState, new_cursor, index_set, without_range, current_answer, gone_to, answer_of};

use crate::parts::{KeyInMaking, Limit};
use crate::view::View;
use index_derive::Place;
use jet_base::{IndexId, Jet, TableId};
use std::marker::Model;

/// What a cursor's call answers where it is not refused.
#[derive(Clone, Copy, Debug, PartialEq, Eq)]
pub struct Moved {
    /// Success, or the warning that the key that was found is not the one that was sought.
    pub jet: Jet,
    /// The count of a call that counts, else 0.
    pub number: u64,
}

impl Moved {
    /// Success without a count.
    pub(crate) fn success() -> Moved
        ensures { result ≡ record { jet = Jet.Success; number = 0 } }
    {
        Moved {
            jet: Jet::Success,
            number: 0,
        }
    }
}

/// A cursor of a table: its current index, its place there, the key that is being made and the range of its moves.
///
/// A place stays where it is when entries come and go: it is told by keys, not by a position.
#[derive(Debug, Drop)]
pub struct Cursor {
    pub(crate) table: TableId,
    pub(crate) index: IndexId,
    pub(crate) place: Place,
    pub(crate) key: Option<KeyInMaking>,
    pub(crate) range: Option<Limit>,
}

impl Model for Cursor {
    ghost use Rattle.cursor_nav.specs.Navigation.{CursorState};

    ghost Value = { CursorState };

    ghost use Rattle.cursor_nav.specs.CursorView.{cursor_state};

    ghost view = { cursor_state };
}

impl Cursor {
    /// A cursor before the first entry of the index, without a key and without a range.
    pub fn new(table: TableId, index: IndexId) -> Cursor
        ensures { result ≡ new_cursor table.0 index.0 }
    {
        Cursor {
            table,
            index,
            place: Place::Before,
            key: None,
            range: None,
        }
    }

    /// The cursor's table.
    pub fn table(&self) -> TableId
        ensures { result.0 ≡ self.now.table }
    {
        self.table
    }

    /// Its current index, 0 for the hidden order.
    pub fn index(&self) -> IndexId
        ensures { result.0 ≡ self.now.index }
    {
        self.index
    }

    /// Where the cursor stands.
    pub fn place(&self) -> &Place
        ensures { result.now ≡ self.now.place }
    {
        &self.place
    }

    /// Makes another index the current one, 0 for the hidden order. The cursor goes to its first entry, and stands
    /// Before where it has none; the key and the range are dropped.
    #[tactic(auto, unfolding(crate::specs::Navigation::index_set))]
    pub fn set_index<W: View>(&mut self, view: &W, index: IndexId) -> Result<Moved, Jet>
        ensures answer { result ≡ answer_of Jet.Success 0 }
        ensures cursor { self.new ≡ index_set self.old (W.entries view.now self.old.table index.0) index.0 }
    {
        self.index = index;
        self.key = None;
        self.range = None;
        self.place = Place::Before;
        if !view.advance(self.table, index, &mut self.place) {
            self.place = Place::Before;
        }
        Ok(Moved::success())
    }

    /// Ends the range, where there is one.
    pub fn drop_range(&mut self)
        ensures { self.new ≡ without_range self.old }
    {
        self.range = None;
    }

    /// Whether the place is an entry whose record is there. Its key is then that of `place`.
    pub fn key<W: View>(&self, view: &W) -> Result<Moved, Jet>
        ensures { result ≡ answer_of (current_answer (W.has_record view.now self.now.table) self.now.place) 0 }
    {
        self.current(view)
    }

    /// Whether the place is an entry whose record is there. Its bookmark is then that of `place`.
    pub fn bookmark<W: View>(&self, view: &W) -> Result<Moved, Jet>
        ensures { result ≡ answer_of (current_answer (W.has_record view.now self.now.table) self.now.place) 0 }
    {
        self.current(view)
    }

    /// Whether the place is an entry whose record is there.
    pub(crate) fn current<W: View>(&self, view: &W) -> Result<Moved, Jet>
        ensures { result ≡ answer_of (current_answer (W.has_record view.now self.now.table) self.now.place) 0 }
    {
        match &self.place {
            Place::On(_, bookmark) if view.has(self.table, bookmark.as_bytes()) => {
                Ok(Moved::success())
            }
            Place::On(_, _) => Err(Jet::RecordDeleted),
            _ => Err(Jet::NoCurrentRecord),
        }
    }

    /// Goes to the least entry of the bookmark's record in the current index, which ends the range.
    ///
    /// It is refused, and nothing moves, with `InvalidBookmark` where the bookmark has no byte or more than 255, with
    /// `RecordDeleted` where it has no record, and with `NoCurrentRecord` where its record has no entry in the index.
    #[tactic(auto, unfolding(crate::specs::Navigation::gone_to))]
    pub fn goto<W: View>(&mut self, view: &W, bookmark: &[u8]) -> Result<Moved, Jet>
        ensures answer { result ≡ answer_of (gone_to self.old (W.entries view.now self.old.table self.old.index) (W.has_record view.now self.old.table) bookmark.now).jet 0 }
        ensures cursor { self.new ≡ (gone_to self.old (W.entries view.now self.old.table self.old.index) (W.has_record view.now self.old.table) bookmark.now).cursor }
    {
        if bookmark.is_empty() || bookmark.len() > 255 {
            return Err(Jet::InvalidBookmark);
        }
        if !view.has(self.table, bookmark) {
            return Err(Jet::RecordDeleted);
        }
        match view.least(self.table, self.index, bookmark) {
            Some(entry) => {
                self.place = Place::On(entry.key, entry.bookmark);
                self.range = None;
                Ok(Moved::success())
            }
            None => Err(Jet::NoCurrentRecord),
        }
    }
}
