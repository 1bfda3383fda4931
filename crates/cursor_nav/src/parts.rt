//! The key and the range that a cursor may have.

ghost use Rattle.std.specs.Prelude.{◌≡◌, IsTrue};
ghost use Rattle.cursor_nav.specs.Places.{is_on, is_within, place_at_limit, place_key};
ghost use Rattle.cursor_nav.specs.CursorView.{key_range};

use index_derive::Place;
use key_normal::Key;

/// A key that is being made: its segments so far.
#[derive(Debug, Drop)]
pub struct KeyInMaking {
    /// How many segments stand.
    pub segments: usize,
    /// Their bytes, cut to the most that the index's keys have.
    pub bytes: Key,
}

/// A limit on moves.
#[derive(Debug, Drop)]
pub struct Limit {
    /// It concerns Next and counts; otherwise it concerns Previous.
    pub upper: bool,
    /// Entries with the limit's key lie within.
    pub inclusive: bool,
    pub key: Key,
}

impl Limit {
    /// Whether entries with the key lie within.
    pub fn is_within(&self, key: &Key) -> bool
        ensures { result ≡ is_within (key_range self.now) key.now }
    {
        let order = if self.upper {
            key.cmp(&self.key)
        } else {
            self.key.cmp(key)
        };
        if self.inclusive {
            order.is_le()
        } else {
            order.is_lt()
        }
    }

    /// Whether the entry at a place lies within.
    pub fn has(&self, place: &Place) -> bool
        requires { IsTrue (is_on place.now) }
        ensures { result ≡ is_within (key_range self.now) (place_key place.now) }
    {
        match place {
            Place::On(key, _) => self.is_within(key),
            _ => unreachable!(),
        }
    }

    /// Where a move stands that came to the limit.
    pub fn place(&self) -> Place
        ensures { result ≡ place_at_limit (key_range self.now) }
    {
        Place::Gap(self.key.copy(), self.upper == self.inclusive)
    }
}
