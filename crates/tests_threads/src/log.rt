//! What lies under the lock.

ghost use Rattle.std.specs.Prelude.{◌≡◌, ◌+◌, ◌<◌, ◌^◌, [], ◌∷◌, length, true, IfSome, Some};
ghost use Rattle.index_derive.specs.Steps.{entries_of_step, step_length};
ghost use Rattle.history_word.specs.Parts.{are_own};
ghost use Rattle.tests_threads.specs.Members.{entries_by};

use crate::member::Member;
use crate::naming::Naming;
use history_word::{Turn, Word};
use index_derive::{Entry, EntryKind, Step};
use jet_base::OutOfMemory;
use std::marker::{Model, PhantomData};

/// No run has as many entries.
pub const MOST: u64 = 1 << 62;

/// The permission to append, beside a plain list of the sessions that made the entries.
#[derive(Drop)]
pub struct Log<J: Naming> {
    pub(crate) turn: Turn,
    pub(crate) list: Vec<u32>,
    of: PhantomData<J>,
}

impl<J: Naming> Model for Log<J> {
    ghost use Rattle.std.specs.Prelude.{◌≡◌, List};
    ghost use Rattle.index_derive.specs.declared.log.Entry.{Entry};

    ghost Value = { List Entry };

    ghost view = { λ l. l.turn.part.log };

    ghost invariant = { λ l. l.turn.word ≡ J.word };
}

impl<J: Naming> Log<J> {
    /// No entry, and an empty list.
    pub fn new(turn: Turn, list: Vec<u32>) -> Log<J>
        requires { turn.word ≡ J.word }
        ensures { result ≡ turn.part.log }
    {
        Log {
            turn,
            list,
            of: PhantomData,
        }
    }

    /// Appends one entry of the session, or three, and tells whether the numbers that the word answers are the
    /// length of the list.
    pub fn append(
        &mut self,
        word: &Word,
        member: &mut Member<J>,
        alone: bool,
    ) -> Result<bool, OutOfMemory>
        requires { word.now ≡ J.word }
        ensures { member.new.session ≡ member.old.session }
    {
        let length = self.list.len() as u64;
        let seen = word.look(&mut self.turn, &mut member.seat);
        if seen >= MOST || member.made >= MOST {
            return Ok(false);
        }
        self.list.reserve(3)?;
        let (number, count) = self.make(word, member, alone);
        for _ in 0..count {
            self.list.push(member.session.0)?;
        }
        Ok(seen == length && number == length)
    }

    // Makes a step of the session, and answers the number and the count of its entries.
    fn make(&mut self, word: &Word, member: &mut Member<J>, alone: bool) -> (u64, u64)
        requires word { word.now ≡ J.word }
        requires room { (length self.old < 2 ^ 62) × (member.old.made < 2 ^ 62) }
        ensures number { result.0 ≡ length self.old }
        ensures session { member.new.session ≡ member.old.session }
    {
        let entry = Entry {
            session: member.session,
            kind: EntryKind::Begin,
        };
        let step = if alone {
            Step::Alone(entry)
        } else {
            Step::One(entry)
        };
        let number = self.put(word, member, &step);
        (number, step.len())
    }

    fn put(&mut self, word: &Word, member: &mut Member<J>, step: &Step) -> u64
        requires word { word.now ≡ J.word }
        requires right { are_own (member.old.session ∷ []) (entries_of_step (Some step.now)) ≡ true }
        requires room { (length self.old < 2 ^ 62) × (member.old.made < 2 ^ 62) }
        ensures number { result ≡ length self.old }
        ensures made { (member.new.session ≡ member.old.session) × (member.new.made ≡ member.old.made + step_length step.now) }
        ensures seen { member.new.log ≡ self.new }
    {
        let number = word.append(&mut self.turn, &mut member.seat, step);
        member.made += step.len();
        number
    }

    /// The session sees the whole log, which has as many entries of it as it made.
    pub fn show(&mut self, word: &Word, member: &mut Member<J>) -> u64
        requires { word.now ≡ J.word }
        ensures log { (self.new ≡ self.old) × (result ≡ length self.old) }
        ensures member { (member.new.session ≡ member.old.session) × (member.new.made ≡ member.old.made) × (member.new.log ≡ self.old) }
        ensures made { entries_by member.new.session self.new ≡ member.new.made }
    {
        word.look(&mut self.turn, &mut member.seat)
    }

    /// How many entries of the session the list has.
    pub fn count(&self, session: u32) -> usize {
        self.list.iter().filter(|made| **made == session).count()
    }
}
