//! A session that appends.

ghost use Rattle.std.specs.Prelude.{◌≡◌, [], ◌∷◌, true};
ghost use Rattle.history_word.specs.Parts.{has_right, without_right};

use crate::naming::Naming;
use history_word::{Seat, Turn, Word};
use jet_base::Session;
use std::marker::{Model, PhantomData};

/// A session with its seat, and how many entries it made: as many as its seat has seen of it.
#[derive(Drop)]
pub struct Member<J: Naming> {
    pub(crate) seat: Seat,
    pub(crate) session: Session,
    pub(crate) made: u64,
    of: PhantomData<J>,
}

impl<J: Naming> Model for Member<J> {
    ghost use Rattle.std.specs.Prelude.{◌≡◌, [], ◌∷◌, false};
    ghost use Rattle.tests_threads.specs.Members.{Known, entries_by};

    ghost Value = { Known };

    ghost view = { λ m. record { session = m.session.0; log = m.seat.part.log; made = m.made; flushed = m.seat.part.flushed; faults = m.seat.part.faults } };

    ghost invariant = { λ m. (m.seat.word ≡ J.word) × (m.seat.part.rights ≡ m.session.0 ∷ []) × (entries_by m.session.0 m.seat.part.log ≡ m.made) };
}

impl<J: Naming> Member<J> {
    /// A session that has made no entry. Its right comes from the `Turn`.
    pub fn new(word: &Word, turn: &mut Turn, session: Session) -> Member<J>
        requires word { (word.now ≡ J.word) × (turn.old.word ≡ J.word) }
        requires right { has_right session.0 turn.old.part.rights ≡ true }
        requires empty { turn.old.part.log ≡ [] }
        ensures turn { (turn.new.word ≡ turn.old.word) × (turn.new.part ≡ without_right session.0 turn.old.part) }
        ensures session { (result.session ≡ session.0) × (result.made ≡ 0) }
    {
        Member {
            seat: word.seat(turn, session),
            session,
            made: 0,
            of: PhantomData,
        }
    }

    /// How many entries it made.
    pub fn made(&self) -> u64
        ensures { result ≡ self.now.made }
    {
        self.made
    }
}
