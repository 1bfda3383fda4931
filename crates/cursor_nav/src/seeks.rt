//! Seeks.

ghost use Rattle.std.specs.Prelude.{◌≡◌, is_some};
ghost use Rattle.index_derive.specs.declared.entries.Place.TheVariants.{After, Before, Gap};
ghost use Rattle.cursor_nav.specs.declared.seek_by.SeekBy.TheVariants as by;
ghost use Rattle.cursor_nav.specs.Places.{entry_after, entry_before, on_or};
ghost use Rattle.cursor_nav.specs.Navigation.{sought, sought_by, answer_of};
ghost use Rattle.cursor_nav.specs.Steps.{landed, landed_near, stands_at};

use crate::cursor::{Cursor, Moved};
use crate::seek_by::SeekBy;
use crate::view::View;
use index_derive::Place;
use jet_base::Jet;
use key_normal::Key;

impl Cursor {
    /// Seeks the made key among the keys of the current index. It drops the key and ends the range.
    ///
    /// Without a key it is refused with `KeyNotMade`, and nothing changes. Where no entry fits it is refused with
    /// `RecordNotFound`, and the cursor stands just below the key's entries, or just above them for Gt and Le. Le and
    /// Ge warn with `SeekNotEqual` of a key that is not the one that was made.
    #[tactic(auto, unfolding(crate::specs::Navigation::sought))]
    pub fn seek<W: View>(&mut self, view: &W, by: SeekBy) -> Result<Moved, Jet>
        ensures answer { result ≡ answer_of (sought self.old (W.entries view.now self.old.table self.old.index) by).jet 0 }
        ensures cursor { self.new ≡ (sought self.old (W.entries view.now self.old.table self.old.index) by).cursor }
    {
        let Some(made) = self.key.take() else {
            return Err(Jet::KeyNotMade);
        };
        self.range = None;
        self.seek_key(view, by, &made.bytes)
    }

    /// Seeks the key.
    fn seek_key<W: View>(&mut self, view: &W, by: SeekBy, key: &Key) -> Result<Moved, Jet>
        ensures answer { result ≡ answer_of (sought_by self.old (W.entries view.now self.old.table self.old.index) key.now by).jet 0 }
        ensures cursor { self.new ≡ (sought_by self.old (W.entries view.now self.old.table self.old.index) key.now by).cursor }
    {
        match by {
            SeekBy::Eq => self.seek_equal(view, key),
            SeekBy::Ge => {
                let found = self.seek_up(view, key, false);
                self.land_near(found, key, false)
            }
            SeekBy::Gt => {
                let found = self.seek_up(view, key, true);
                self.land(found, key, true)
            }
            SeekBy::Le => {
                let found = self.seek_down(view, key, true);
                self.land_near(found, key, true)
            }
            SeekBy::Lt => {
                let found = self.seek_down(view, key, false);
                self.land(found, key, false)
            }
        }
    }

    /// Seeks the first entry with the key.
    fn seek_equal<W: View>(&mut self, view: &W, key: &Key) -> Result<Moved, Jet>
        ensures answer { result ≡ answer_of (sought_by self.old (W.entries view.now self.old.table self.old.index) key.now by.Eq).jet 0 }
        ensures cursor { self.new ≡ (sought_by self.old (W.entries view.now self.old.table self.old.index) key.now by.Eq).cursor }
    {
        self.seek_up(view, key, false);
        let equal = self.has_key(key);
        self.land(equal, key, false)
    }

    /// To the first entry beyond the gap above or below the key's entries.
    fn seek_up<W: View>(&mut self, view: &W, key: &Key, above: bool) -> bool
        ensures found { result ≡ is_some (entry_after (Gap key.now above) (W.entries view.now self.old.table self.old.index)) }
        ensures cursor { self.new ≡ record self.old { place = on_or (entry_after (Gap key.now above) (W.entries view.now self.old.table self.old.index)) After } }
    {
        self.place = Place::Gap(key.copy(), above);
        view.advance(self.table, self.index, &mut self.place)
    }

    /// To the last entry before the gap.
    fn seek_down<W: View>(&mut self, view: &W, key: &Key, above: bool) -> bool
        ensures found { result ≡ is_some (entry_before (Gap key.now above) (W.entries view.now self.old.table self.old.index)) }
        ensures cursor { self.new ≡ record self.old { place = on_or (entry_before (Gap key.now above) (W.entries view.now self.old.table self.old.index)) Before } }
    {
        self.place = Place::Gap(key.copy(), above);
        view.retreat(self.table, self.index, &mut self.place)
    }

    /// Whether the place is an entry with the key.
    fn has_key(&self, key: &Key) -> bool
        ensures { result ≡ stands_at key.now self.now.place }
    {
        match &self.place {
            Place::On(found, _) => *found == *key,
            _ => false,
        }
    }

    /// What a seek answers that came to an entry, or else stands in the gap.
    fn land(&mut self, found: bool, key: &Key, above: bool) -> Result<Moved, Jet>
        ensures answer { result ≡ answer_of (landed self.old found key.now above).jet 0 }
        ensures cursor { self.new ≡ (landed self.old found key.now above).cursor }
    {
        if found {
            Ok(Moved::success())
        } else {
            self.place = Place::Gap(key.copy(), above);
            Err(Jet::RecordNotFound)
        }
    }

    /// The same, with a warning where the entry's key is another.
    fn land_near(&mut self, found: bool, key: &Key, above: bool) -> Result<Moved, Jet>
        ensures answer { result ≡ answer_of (landed_near self.old found key.now above).jet 0 }
        ensures cursor { self.new ≡ (landed_near self.old found key.now above).cursor }
    {
        if found && !self.has_key(key) {
            return Ok(Moved {
                jet: Jet::SeekNotEqual,
                number: 0,
            });
        }
        self.land(found, key, above)
    }
}
