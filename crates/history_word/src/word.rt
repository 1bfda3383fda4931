//! The word.
ghost use Rattle.std.specs.Prelude.{◌≡◌, ℕ, ◌<◌, ◌≤◌, ◌^◌, ◌⊎◌, true, ◌++◌, length, map, IfOk};
ghost use mathlib.Core.List.{IsPrefix};
ghost use Rattle.index_derive.specs.Steps.{entries_of_step};
ghost use Rattle.history_word.specs.Parts.{are_own, first_part, given_to, has_right, informed, note_of, own_entries, store_part, trimmed_to, with_log, with_one_right, without_right, without_store};

use crate::seats::{Seat, Turn};
use crate::steps::{LogRule, OneSession};
use crate::views::View;
use atomic_table::Table;
use index_derive::Step;
use jet_base::{OutOfMemory, Session};
use std::alloc::Global;
use std::marker::{Brand, Model};

/// The length of the one log, which threads share. Contracts see which word it is.
#[derive(Drop)]
pub struct Word {
    pub(crate) table: Table<(), View, Vec<Session>, LogRule, Global>,
}

impl Model for Word {
    ghost use Rattle.std.specs.Prelude.{◌≡◌};
    ghost use Rattle.atomic_table.specs.Seated.{TableId};

    ghost Value = { TableId };

    ghost view = { λ w. w.table.shared.table_id };

    ghost invariant = { λ w. w.table.shared.table_id.words ≡ 1 };
}

impl Word {
    /// A word with an empty log. The `Turn` holds the right of each session, and the `Seat` the store's.
    ///
    /// It alone takes memory.
    pub fn make(alloc: Global, sessions: &[Session]) -> Result<(Word, Turn, Seat), OutOfMemory>
        ensures turn { IfOk result (λ r. (r.1.word ≡ r.0) × (r.1.part ≡ without_store (first_part (map (λ s. s.0) sessions.now)))) }
        ensures seat { IfOk result (λ r. (r.2.word ≡ r.0) × (r.2.part ≡ store_part (first_part (map (λ s. s.0) sessions.now)))) }
    {
        let mut rights = Vec::new(alloc);
        rights.extend_from_slice(sessions)?;
        let (table, mut turn) = Table::of_words(alloc, &[0], &rights)?;
        let word = Word { table };
        let store = word.give_store(&mut turn);
        Ok((word, Turn { seat: turn }, Seat { seat: store }))
    }

    /// A seat with the session's right, which the `Turn` gives up. It has seen the whole log.
    pub fn seat(&self, turn: &mut Turn, session: Session) -> Seat
        requires word { turn.old.word ≡ self.now }
        requires right { has_right session.0 turn.old.part.rights ≡ true }
        ensures turn { (turn.new.word ≡ turn.old.word) × (turn.new.part ≡ without_right session.0 turn.old.part) }
        ensures seat { (result.word ≡ turn.old.word) × (result.part ≡ with_one_right session.0 turn.old.part) }
    {
        self.seat_of::<Brand>(turn, session)
    }

    fn seat_of<J: OneSession>(&self, turn: &mut Turn, session: Session) -> Seat
        requires told { J.session ≡ session.0 }
        requires word { turn.old.word ≡ self.now }
        requires right { has_right session.0 turn.old.part.rights ≡ true }
        ensures turn { (turn.new.word ≡ turn.old.word) × (turn.new.part ≡ without_right session.0 turn.old.part) }
        ensures seat { (result.word ≡ turn.old.word) × (result.part ≡ with_one_right session.0 turn.old.part) }
    {
        Seat {
            seat: self.give_right::<J>(&mut turn.seat),
        }
    }

    /// The log grows by the entries of the step, which are the seat's own. It answers the length before.
    ///
    /// It changes the word by one atomic addition of one or three.
    pub fn append(&self, turn: &mut Turn, seat: &mut Seat, step: &Step) -> u64
        requires words { (turn.old.word ≡ self.now) × (seat.old.word ≡ self.now) }
        requires right { are_own seat.old.part.rights (entries_of_step (Some step.now)) ≡ true }
        requires room { length turn.old.part.log < 2 ^ 62 }
        ensures number { result ≡ length turn.old.part.log }
        ensures turn { (turn.new.word ≡ turn.old.word) × (turn.new.part ≡ with_log turn.old.part (turn.old.part.log ++ entries_of_step (Some step.now))) }
        ensures seat { (seat.new.word ≡ seat.old.word) × (seat.new.part ≡ with_log seat.old.part (turn.old.part.log ++ entries_of_step (Some step.now))) }
        ensures earlier { IsPrefix seat.old.part.log turn.old.part.log }
        ensures own { own_entries seat.old.part.rights seat.new.part.log ≡ own_entries seat.old.part.rights seat.old.part.log ++ entries_of_step (Some step.now) }
    {
        let whole = self.take_out(&mut seat.seat);
        self.bring_in(&mut turn.seat, whole);
        let number = self.grow::<Brand>(&mut turn.seat, step);
        seat.seat = self.let_go(&mut turn.seat);
        number
    }

    /// The length of the log, all of which the seat has seen afterwards.
    pub fn look(&self, turn: &mut Turn, seat: &mut Seat) -> u64
        requires words { (turn.old.word ≡ self.now) × (seat.old.word ≡ self.now) }
        ensures number { result ≡ length turn.old.part.log }
        ensures turn { turn.new ≡ turn.old }
        ensures seat { (seat.new.word ≡ seat.old.word) × (seat.new.part ≡ with_log seat.old.part turn.old.part.log) }
        ensures earlier { IsPrefix seat.old.part.log turn.old.part.log }
        ensures own { own_entries seat.old.part.rights seat.new.part.log ≡ own_entries seat.old.part.rights seat.old.part.log }
        ensures store { seat.old.part.store ≡ true → turn.old.part.trimmed ≤ seat.old.part.given }
    {
        let whole = self.take_out(&mut seat.seat);
        self.bring_in(&mut turn.seat, whole);
        let number = self.see(&mut turn.seat);
        seat.seat = self.let_go(&mut turn.seat);
        number
    }

    /// A note of what the seat knows: a seat that has seen as much, with no right.
    pub fn copy_seat(&self, seat: &mut Seat) -> Seat
        requires word { seat.old.word ≡ self.now }
        ensures seat { seat.new ≡ seat.old }
        ensures copy { (result.word ≡ seat.old.word) × (result.part ≡ note_of seat.old.part) }
    {
        Seat {
            seat: self.note(&mut seat.seat),
        }
    }

    /// The seat knows what the note knows. A right that the note holds is lost.
    pub fn take_in(&self, seat: &mut Seat, note: Seat)
        requires words { (seat.old.word ≡ self.now) × (note.word ≡ self.now) }
        ensures seat { (seat.new.word ≡ seat.old.word) × (seat.new.part ≡ informed seat.old.part note.part) }
        ensures earlier { IsPrefix seat.old.part.log seat.new.part.log }
        ensures note { IsPrefix note.part.log seat.new.part.log }
        ensures own { own_entries seat.old.part.rights seat.new.part.log ≡ own_entries seat.old.part.rights seat.old.part.log }
        ensures store { seat.old.part.store ≡ true → (note.part.faults ≤ seat.old.part.faults) × (seat.new.part.faults ≡ seat.old.part.faults) × (seat.new.part.flushed ≤ seat.old.part.given) }
    {
        self.bring_in(&mut seat.seat, note.seat);
        self.learn(&mut seat.seat);
    }

    /// One of two seats has seen a beginning of what the other has seen. Both stay as they are.
    pub fn agree(&self, one: &mut Seat, other: &mut Seat)
        requires words { (one.old.word ≡ self.now) × (other.old.word ≡ self.now) }
        ensures same { (one.new ≡ one.old) × (other.new ≡ other.old) }
        ensures agree { IsPrefix one.old.part.log other.old.part.log ⊎ IsPrefix other.old.part.log one.old.part.log }
    {
        let mut both = self.copy_seat(one);
        let note = self.copy_seat(other);
        self.take_in(&mut both, note);
    }

    /// The store was given the log up to a position, and saw this many faults.
    pub fn give(&self, seat: &mut Seat, to: u64, faults: u64)
        requires word { seat.old.word ≡ self.now }
        requires store { seat.old.part.store ≡ true }
        requires later { (seat.old.part.given ≤ to) × (seat.old.part.faults ≤ faults) }
        ensures { (seat.new.word ≡ seat.old.word) × (seat.new.part ≡ given_to to faults seat.old.part) }
    {
        self.raise::<Brand>(&mut seat.seat, to, faults);
    }

    /// The `Turn` lets the bytes of the log go up to a position that the store was given. The store's seat has seen
    /// the whole log afterwards.
    pub fn trim(&self, turn: &mut Turn, seat: &mut Seat, to: u64)
        requires words { (turn.old.word ≡ self.now) × (seat.old.word ≡ self.now) }
        requires store { seat.old.part.store ≡ true }
        requires between { (turn.old.part.trimmed ≤ to) × (to ≤ seat.old.part.given) }
        ensures turn { (turn.new.word ≡ turn.old.word) × (turn.new.part ≡ trimmed_to to turn.old.part) }
        ensures seat { (seat.new.word ≡ seat.old.word) × (seat.new.part ≡ with_log seat.old.part turn.old.part.log) }
        ensures earlier { IsPrefix seat.old.part.log turn.old.part.log }
        ensures own { own_entries seat.old.part.rights seat.new.part.log ≡ own_entries seat.old.part.rights seat.old.part.log }
    {
        let whole = self.take_out(&mut seat.seat);
        self.bring_in(&mut turn.seat, whole);
        self.cut::<Brand>(&mut turn.seat, to);
        seat.seat = self.let_go(&mut turn.seat);
    }
}
