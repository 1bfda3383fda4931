//! Ranges.

ghost use Rattle.std.specs.Prelude.{◌≡◌, IsTrue, not, find, filter, None};
ghost use Rattle.std.specs.List.{last_or};
ghost use Rattle.cursor_nav.specs.Places.{found_pair, pair_lt, is_on, place_pair, upper_limit};
ghost use Rattle.cursor_nav.specs.Navigation.{ranged, answer_of};
ghost use Rattle.cursor_nav.specs.CursorView.{key_range};
ghost use Rattle.cursor_nav.specs.Steps.{reaches_from, nearest_entry};

use crate::cursor::{Cursor, Moved};
use crate::parts::Limit;
use crate::view::View;
use index_derive::{IndexEntry, Place};
use jet_base::Jet;
use key_normal::Key;

impl Cursor {
    /// Makes the made key an upper or a lower limit of the moves, in place of any range before. It drops the key.
    ///
    /// Without a key it is refused with `KeyNotMade`, and nothing changes. It is refused with `NoCurrentRecord`, and no
    /// range stands, where the place is not an entry, or no entry lies from there to the limit.
    #[tactic(auto, unfolding(crate::specs::Navigation::ranged))]
    pub fn set_range<W: View>(
        &mut self,
        view: &W,
        upper: bool,
        inclusive: bool,
    ) -> Result<Moved, Jet>
        ensures answer { result ≡ answer_of (ranged self.old (W.entries view.now self.old.table self.old.index) upper inclusive).jet 0 }
        ensures cursor { self.new ≡ (ranged self.old (W.entries view.now self.old.table self.old.index) upper inclusive).cursor }
    {
        let Some(made) = self.key.take() else {
            return Err(Jet::KeyNotMade);
        };
        let limit = Limit {
            upper,
            inclusive,
            key: made.bytes,
        };
        if !self.reaches(view, &limit) {
            self.range = None;
            return Err(Jet::NoCurrentRecord);
        }
        self.range = Some(limit);
        Ok(Moved::success())
    }

    /// The key of the upper limit of its range, and whether entries with the key lie within; nothing where it has no range, or a
    /// lower limit.
    pub fn upper_limit(&self) -> Option<(Key, bool)>
        ensures { result ≡ upper_limit self.now.range }
    {
        match &self.range {
            Some(limit) if limit.upper => Some((limit.key.copy(), limit.inclusive)),
            _ => None,
        }
    }

    /// Whether the place is an entry, and some entry lies from there to the limit.
    fn reaches<W: View>(&self, view: &W, limit: &Limit) -> bool
        ensures { result ≡ reaches_from self.now.place (key_range limit.now) (W.entries view.now self.now.table self.now.index) }
    {
        if !self.is_on() {
            return false;
        }
        match self.nearest(view, limit.upper) {
            Some(entry) => limit.is_within(&entry.key),
            None => false,
        }
    }

    /// Whether the place is an entry.
    fn is_on(&self) -> bool
        ensures { result ≡ is_on self.now.place }
    {
        matches!(&self.place, Place::On(_, _))
    }

    /// The entry nearest to the place's on the way to an upper, or else to a lower limit.
    fn nearest<W: View>(&self, view: &W, upper: bool) -> Option<IndexEntry>
        requires { IsTrue (is_on self.now.place) }
        ensures { found_pair result ≡ nearest_entry upper (place_pair self.now.place) (W.entries view.now self.now.table self.now.index) }
    {
        if upper {
            self.not_below(view)
        } else {
            self.not_above(view)
        }
    }

    /// The least entry that is not below the place's.
    pub(crate) fn not_below<W: View>(&self, view: &W) -> Option<IndexEntry>
        requires { IsTrue (is_on self.now.place) }
        ensures { found_pair result ≡ find (λ entry. not (pair_lt entry (place_pair self.now.place))) (W.entries view.now self.now.table self.now.index) }
    {
        match view.before(self.table, self.index, &self.place) {
            Some(entry) => {
                view.after(
                    self.table,
                    self.index,
                    &Place::On(entry.key, entry.bookmark),
                )
            }
            None => view.after(self.table, self.index, &Place::Before),
        }
    }

    /// The greatest entry that is not above the place's.
    fn not_above<W: View>(&self, view: &W) -> Option<IndexEntry>
        requires { IsTrue (is_on self.now.place) }
        ensures { found_pair result ≡ last_or None (filter (λ entry. not (pair_lt (place_pair self.now.place) entry)) (W.entries view.now self.now.table self.now.index)) }
    {
        match view.after(self.table, self.index, &self.place) {
            Some(entry) => {
                view.before(
                    self.table,
                    self.index,
                    &Place::On(entry.key, entry.bookmark),
                )
            }
            None => view.before(self.table, self.index, &Place::After),
        }
    }
}
