//! Counts.

ghost use Rattle.std.specs.Prelude.{◌≡◌, ◌<◌, ◌^◌, IsTrue, length, min, unwrap_or};
ghost use Rattle.cursor_nav.specs.Places.{is_on, place_pair, is_within_upper, entries_from};
ghost use Rattle.cursor_nav.specs.Navigation.{count_from, at_most, current_answer, answer_of};

use crate::cursor::{Cursor, Moved};
use crate::view::View;
use index_derive::Place;
use jet_base::Jet;
use key_normal::Key;

impl Cursor {
    /// Counts the entries that are not below the place's, within an upper limit; at most so many, where a most is
    /// given. It goes from entry to entry.
    ///
    /// It is refused with `NoCurrentRecord` where the place is not an entry, and with `RecordDeleted` where its record
    /// is not there.
    #[tactic(auto, unfolding(crate::specs::Navigation::count_from))]
    pub fn count<W: View>(&self, view: &W, most: Option<u32>) -> Result<Moved, Jet>
        requires few { at_most most (length (W.entries view.now self.now.table self.now.index)) < 2 ^ 64 }
        ensures { result ≡ answer_of (current_answer (W.has_record view.now self.now.table) self.now.place) (count_from self.now (W.entries view.now self.now.table self.now.index) (place_pair self.now.place) most) }
    {
        self.current(view)?;
        Ok(Moved {
            jet: Jet::Success,
            number: self.count_to(view, bound_of(most)),
        })
    }

    /// How many entries are not below the place's, within an upper limit, at most so many.
    fn count_to<W: View>(&self, view: &W, most: u64) -> u64
        requires { IsTrue (is_on self.now.place) }
        ensures { result ≡ min most (length (entries_from (place_pair self.now.place) self.now.range (W.entries view.now self.now.table self.now.index))) }
    {
        let mut next = self.not_below(view);
        for number in 0..most {
            let Some(entry) = next else {
                return number;
            };
            if !self.counts(&entry.key) {
                return number;
            }
            next = view.after(
                self.table,
                self.index,
                &Place::On(entry.key, entry.bookmark),
            );
        }
        most
    }

    /// Whether a count goes over entries with the key: they lie within an upper limit.
    fn counts(&self, key: &Key) -> bool
        ensures { result ≡ is_within_upper self.now.range key.now }
    {
        match &self.range {
            Some(limit) => !limit.upper || limit.is_within(key),
            None => true,
        }
    }
}

/// The most that a count may come to.
fn bound_of(most: Option<u32>) -> u64
    ensures { result ≡ unwrap_or most u64.MAX }
{
    match most {
        Some(most) => u64::from(most),
        None => u64::MAX,
    }
}
