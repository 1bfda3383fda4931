//! A walk over a range.

ghost use Rattle.std.specs.Prelude.{◌≡◌, ◌∷◌, [], IsTrue, if◌then◌else◌};
ghost use Rattle.cursor_nav.specs.Places.{is_on, is_within_upper, place_bookmark, place_key};
ghost use Rattle.index_intersect.specs.Intersection.{bookmarks_in, upper_range};
ghost use Rattle.index_intersect.specs.Walks.{bookmarks_ahead};

use crate::ranges::IndexRange;
use cursor_nav::View;
use index_derive::Place;
use key_normal::Key;

/// A walk over a range, entry by entry from the least on.
#[derive(Debug, Drop)]
pub(crate) struct RangeWalk<'a> {
    range: &'a IndexRange,
    place: Place,
}

impl<'a> RangeWalk<'a> {
    /// The walk that has the whole range before it.
    pub(crate) fn new<W: View>(view: &W, range: &'a IndexRange) -> RangeWalk<'a>
        ensures { bookmarks_ahead (W.entries view.now) result ≡ bookmarks_in (W.entries view.now) range.now }
    {
        let mut place = Place::On(range.from.key.copy(), range.from.bookmark.copy());
        view.retreat(range.table, range.index, &mut place);
        RangeWalk { range, place }
    }

    /// Goes to the next entry of the range, where there is one.
    pub(crate) fn advance<W: View>(&mut self, view: &W) -> bool
        ensures ahead { bookmarks_ahead (W.entries view.now) self.old ≡ (if result then place_bookmark self.new.place ∷ bookmarks_ahead (W.entries view.now) self.new else []) }
        ensures on { IsTrue result → IsTrue (is_on self.new.place) }
    {
        view.advance(self.range.table, self.range.index, &mut self.place) && self.is_within()
    }

    /// Whether its entry is within the limit of the range.
    fn is_within(&self) -> bool
        requires { IsTrue (is_on self.now.place) }
        ensures { result ≡ is_within_upper (upper_range self.now.range.now.upper) (place_key self.now.place) }
    {
        match &self.place {
            Place::On(key, _) => self.range.is_within(key),
            _ => unreachable!(),
        }
    }

    /// The bookmark of its entry.
    pub(crate) fn bookmark(&self) -> &Key
        requires { IsTrue (is_on self.now.place) }
        ensures { result.now ≡ place_bookmark self.now.place }
    {
        match &self.place {
            Place::On(_, bookmark) => bookmark,
            _ => unreachable!(),
        }
    }
}
