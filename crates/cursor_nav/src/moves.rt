//! Moves.

ghost use Rattle.std.specs.Prelude.{◌≡◌, IsTrue};
ghost use Rattle.jet_base.specs.declared.words.Way.TheVariants as way;
ghost use Rattle.cursor_nav.specs.Places.{is_on};
ghost use Rattle.cursor_nav.specs.Navigation.{moved, answer_of};
ghost use Rattle.cursor_nav.specs.Steps.{arrived, arrived_within};

use crate::cursor::{Cursor, Moved};
use crate::view::View;
use index_derive::Place;
use jet_base::{Jet, Way};

impl Cursor {
    /// Moves. First and Last end the range.
    ///
    /// It is refused with `NoCurrentRecord` where there is no entry, or none within the limit of the range that
    /// concerns the move. The cursor then stands After for Next and Last, Before for Previous and First, and at a limit
    /// just beyond it, where the range ends.
    #[tactic(auto, unfolding(crate::specs::Navigation::moved))]
    pub fn move_to<W: View>(&mut self, view: &W, way: Way) -> Result<Moved, Jet>
        ensures answer { result ≡ answer_of (moved self.old (W.entries view.now self.old.table self.old.index) way).jet 0 }
        ensures cursor { self.new ≡ (moved self.old (W.entries view.now self.old.table self.old.index) way).cursor }
    {
        match way {
            Way::First => self.move_first(view),
            Way::Last => self.move_last(view),
            Way::Next => self.move_next(view),
            Way::Previous => self.move_previous(view),
        }
    }

    // Each way has a function of its own: a call pays for the places and entries of its own way alone.

    /// To the first entry. It ends the range.
    #[tactic(auto, unfolding(crate::specs::Navigation::moved))]
    fn move_first<W: View>(&mut self, view: &W) -> Result<Moved, Jet>
        ensures answer { result ≡ answer_of (moved self.old (W.entries view.now self.old.table self.old.index) way.First).jet 0 }
        ensures cursor { self.new ≡ (moved self.old (W.entries view.now self.old.table self.old.index) way.First).cursor }
    {
        self.range = None;
        self.place = Place::Before;
        let found = view.advance(self.table, self.index, &mut self.place);
        self.arrive(found, Place::Before)
    }

    /// To the last entry. It ends the range.
    #[tactic(auto, unfolding(crate::specs::Navigation::moved))]
    fn move_last<W: View>(&mut self, view: &W) -> Result<Moved, Jet>
        ensures answer { result ≡ answer_of (moved self.old (W.entries view.now self.old.table self.old.index) way.Last).jet 0 }
        ensures cursor { self.new ≡ (moved self.old (W.entries view.now self.old.table self.old.index) way.Last).cursor }
    {
        self.range = None;
        self.place = Place::After;
        let found = view.retreat(self.table, self.index, &mut self.place);
        self.arrive(found, Place::After)
    }

    /// To the next entry, within an upper limit.
    #[tactic(auto, unfolding(crate::specs::Navigation::moved))]
    fn move_next<W: View>(&mut self, view: &W) -> Result<Moved, Jet>
        ensures answer { result ≡ answer_of (moved self.old (W.entries view.now self.old.table self.old.index) way.Next).jet 0 }
        ensures cursor { self.new ≡ (moved self.old (W.entries view.now self.old.table self.old.index) way.Next).cursor }
    {
        let found = view.advance(self.table, self.index, &mut self.place);
        self.arrive_within(found, true)
    }

    /// To the previous entry, within a lower limit.
    #[tactic(auto, unfolding(crate::specs::Navigation::moved))]
    fn move_previous<W: View>(&mut self, view: &W) -> Result<Moved, Jet>
        ensures answer { result ≡ answer_of (moved self.old (W.entries view.now self.old.table self.old.index) way.Previous).jet 0 }
        ensures cursor { self.new ≡ (moved self.old (W.entries view.now self.old.table self.old.index) way.Previous).cursor }
    {
        let found = view.retreat(self.table, self.index, &mut self.place);
        self.arrive_within(found, false)
    }

    /// What a move answers that came to an entry, or else stands at this place.
    fn arrive(&mut self, found: bool, otherwise: Place) -> Result<Moved, Jet>
        ensures answer { result ≡ answer_of (arrived self.old found otherwise).jet 0 }
        ensures cursor { self.new ≡ (arrived self.old found otherwise).cursor }
    {
        if found {
            Ok(Moved::success())
        } else {
            self.place = otherwise;
            Err(Jet::NoCurrentRecord)
        }
    }

    /// The same for a move that came to the place, and that a range with an upper, or else with a lower limit concerns.
    fn arrive_within(&mut self, found: bool, upper: bool) -> Result<Moved, Jet>
        requires { IsTrue found → IsTrue (is_on self.old.place) }
        ensures answer { result ≡ answer_of (arrived_within self.old found upper self.old.range).jet 0 }
        ensures cursor { self.new ≡ (arrived_within self.old found upper self.old.range).cursor }
    {
        match &self.range {
            Some(limit) if limit.upper == upper => {
                if found && limit.has(&self.place) {
                    return Ok(Moved::success());
                }
                self.place = limit.place();
                self.range = None;
                Err(Jet::NoCurrentRecord)
            }
            _ if found => Ok(Moved::success()),
            _ => Err(Jet::NoCurrentRecord),
        }
    }
}
