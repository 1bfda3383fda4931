//! The store's side.

ghost use Rattle.std.specs.Prelude.{◌≡◌, ◌≤◌, true};

use crate::log::{Log, MOST};
use crate::member::Member;
use crate::naming::Naming;
use history_word::{Seat, Word};
use std::marker::{Model, PhantomData};

/// The store's seat, with how far it was given the log and how many faults it saw.
#[derive(Drop)]
pub struct StoreSeat<J: Naming> {
    seat: Seat,
    given: u64,
    faults: u64,
    of: PhantomData<J>,
}

impl<J: Naming> Model for StoreSeat<J> {
    ghost use Rattle.std.specs.Prelude.{◌≡◌, true};
    ghost use Rattle.history_word.specs.declared.views.Part.{Part};

    ghost Value = { Part };

    ghost view = { λ s. s.seat.part };

    ghost invariant = { λ s. (s.seat.word ≡ J.word) × (s.seat.part.store ≡ true) × (s.seat.part.given ≡ s.given) × (s.seat.part.faults ≡ s.faults) };
}

impl<J: Naming> StoreSeat<J> {
    /// Nothing was given, and no fault seen.
    pub fn new(seat: Seat) -> StoreSeat<J>
        requires { (seat.word ≡ J.word) × (seat.part.store ≡ true) × (seat.part.given ≡ 0) × (seat.part.faults ≡ 0) }
    {
        StoreSeat {
            seat,
            given: 0,
            faults: 0,
            of: PhantomData,
        }
    }

    /// The store is given so many bytes more, which the log may then let go, and tells how many entries it saw.
    pub fn store(&mut self, word: &Word, log: &mut Log<J>, bytes: u32, fault: bool) -> u64
        requires { word.now ≡ J.word }
        ensures { log.new ≡ log.old }
    {
        let seen = word.look(&mut log.turn, &mut self.seat);
        if self.given >= MOST || self.faults >= MOST {
            return seen;
        }
        let to = self.given + u64::from(bytes);
        let faults = self.faults + u64::from(fault);
        word.give(&mut self.seat, to, faults);
        self.given = to;
        self.faults = faults;
        word.trim(&mut log.turn, &mut self.seat, to);
        seen
    }

    /// The session hears what the store knows.
    pub fn tell(&mut self, word: &Word, member: &mut Member<J>)
        requires { word.now ≡ J.word }
        ensures store { self.new ≡ self.old }
        ensures member { (member.new.session ≡ member.old.session) × (member.new.made ≡ member.old.made) }
        ensures heard { (self.old.given ≤ member.new.flushed) × (self.old.faults ≤ member.new.faults) }
    {
        let note = word.copy_seat(&mut self.seat);
        word.take_in(&mut member.seat, note);
    }

    /// The store hears what the session knows, which is nothing new of the store.
    pub fn hear(&mut self, word: &Word, member: &mut Member<J>)
        requires { word.now ≡ J.word }
        ensures member { member.new ≡ member.old }
        ensures store { (member.old.faults ≤ self.old.faults) × (self.new.given ≡ self.old.given) × (self.new.flushed ≤ self.old.given) }
    {
        let note = word.copy_seat(&mut member.seat);
        word.take_in(&mut self.seat, note);
    }
}
