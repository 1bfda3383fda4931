//! Runs of several sessions.

ghost use Rattle.std.specs.Prelude.{◌≡◌, ◌≢◌, [], ◌∷◌, true};

use crate::log::Log;
use crate::member::Member;
use crate::naming::Naming;
use crate::store::StoreSeat;
use history_word::{Seat, Turn, Word};
use jet_base::{OutOfMemory, Session};
use std::alloc::Global;
use std::marker::Brand;
use std::sync::{Mutex, Wait};
use std::thread::{Threads, join};

/// How a run ended.
#[derive(Clone, Copy, Debug, PartialEq, Eq)]
pub struct Ended {
    /// Whether every number that the word answered was the length of the list.
    pub agrees: bool,
    /// How many entries the list has.
    pub entries: usize,
    /// How many each of the two sessions made, which are as many as its seat has seen of its own.
    pub made: (u64, u64),
    /// How many each has in the list.
    pub listed: (usize, usize),
}

fn two_members<J: Naming>(
    word: &Word,
    turn: &mut Turn,
    first: Session,
    second: Session,
) -> (Member<J>, Member<J>)
    requires word { (word.now ≡ J.word) × (turn.old.word ≡ J.word) }
    requires rights { turn.old.part.rights ≡ first.0 ∷ second.0 ∷ [] }
    requires apart { first.0 ≢ second.0 }
    requires empty { turn.old.part.log ≡ [] }
    ensures turn { turn.new.word ≡ J.word }
    ensures sessions { (result.0.session ≡ first.0) × (result.1.session ≡ second.0) }
{
    let one = Member::new(word, turn, first);
    let two = Member::new(word, turn, second);
    (one, two)
}

/// Two sessions and the store take turns in a fixed shuffled order.
pub fn take_turns<J: Naming>(
    alloc: Global,
    word: Word,
    turn: Turn,
    store: Seat,
    first: Session,
    second: Session,
) -> Result<Ended, OutOfMemory>
    requires word { (word ≡ J.word) × (turn.word ≡ J.word) × (store.word ≡ J.word) }
    requires rights { turn.part.rights ≡ first.0 ∷ second.0 ∷ [] }
    requires apart { first.0 ≢ second.0 }
    requires empty { turn.part.log ≡ [] }
    requires store { (store.part.store ≡ true) × (store.part.given ≡ 0) × (store.part.faults ≡ 0) }
{
    let mut turn = turn;
    let (mut one, mut two) = two_members::<J>(&word, &mut turn, first, second);
    let mut log = Log::<J>::new(turn, Vec::new(alloc));
    let mut store = StoreSeat::<J>::new(store);
    let mut agrees = true;
    let mut at: u32 = 1;
    for _ in 0..400u32 {
        at = (at % 65_537 * 75 + 74) % 65_537;
        agrees &= take_turn(&word, &mut log, &mut store, &mut one, &mut two, at)?;
    }
    store.hear(&word, &mut one);
    store.hear(&word, &mut two);
    Ok(finish(&word, &mut log, one, two, agrees))
}

// One of the turns, by what the number leaves.
fn take_turn<J: Naming>(
    word: &Word,
    log: &mut Log<J>,
    store: &mut StoreSeat<J>,
    one: &mut Member<J>,
    two: &mut Member<J>,
    at: u32,
) -> Result<bool, OutOfMemory>
    requires { word.now ≡ J.word }
{
    match at % 7 {
        0 | 1 => log.append(word, one, at % 2 == 0),
        2 | 3 => log.append(word, two, at % 2 == 0),
        4 => {
            let seen = store.store(word, log, at % 100, at % 50 == 0);
            Ok(seen == log.list.len() as u64)
        }
        5 => {
            store.tell(word, one);
            Ok(true)
        }
        _ => {
            store.tell(word, two);
            Ok(log.show(word, two) == log.list.len() as u64)
        }
    }
}

fn finish<J: Naming>(
    word: &Word,
    log: &mut Log<J>,
    mut one: Member<J>,
    mut two: Member<J>,
    agrees: bool,
) -> Ended
    requires { word.now ≡ J.word }
{
    word.agree(&mut one.seat, &mut two.seat);
    let seen = (log.show(word, &mut one), log.show(word, &mut two));
    let entries = log.list.len();
    Ended {
        agrees: agrees && seen.0 == entries as u64 && seen.1 == entries as u64,
        entries,
        made: (one.made(), two.made()),
        listed: (log.count(one.session.0), log.count(two.session.0)),
    }
}

fn work<J: Naming, R: Wait>(
    rt: &R,
    word: &Word,
    latch: &Mutex<Log<J>>,
    mut member: Member<J>,
    steps: u32,
) -> Member<J>
    requires { word.now ≡ J.word }
{
    for i in 0..steps {
        let _ = latch.lock(rt).append(word, &mut member, i % 3 == 0);
    }
    member
}

/// Two threads, one a session, append under a lock.
pub fn append_in_threads<J: Naming + Send + Sync, R: Threads + Wait + Sync>(
    rt: &R,
    alloc: Global,
    word: Word,
    turn: Turn,
    first: Session,
    second: Session,
) -> Ended
    requires word { (word ≡ J.word) × (turn.word ≡ J.word) }
    requires rights { turn.part.rights ≡ first.0 ∷ second.0 ∷ [] }
    requires apart { first.0 ≢ second.0 }
    requires empty { turn.part.log ≡ [] }
{
    let mut turn = turn;
    let (one, two) = two_members::<J>(&word, &mut turn, first, second);
    let latch = Mutex::new(Log::<J>::new(turn, Vec::new(alloc)));
    let (one, two) = join(
        rt,
        || work(rt, &word, &latch, one, 300),
        || work(rt, &word, &latch, two, 200),
    );
    let mut log = latch.into_inner();
    finish(&word, &mut log, one, two, true)
}

/// `take_turns` over a new word.
pub fn two_in_turns(alloc: Global, first: Session, second: Session) -> Result<Ended, OutOfMemory>
    requires { first.0 ≢ second.0 }
{
    let (word, turn, store) = Word::make(alloc, &[first, second])?;
    take_turns::<Brand>(alloc, word, turn, store, first, second)
}

/// `append_in_threads` over a new word.
pub fn two_in_threads<R: Threads + Wait + Sync>(
    rt: &R,
    alloc: Global,
    first: Session,
    second: Session,
) -> Result<Ended, OutOfMemory>
    requires { first.0 ≢ second.0 }
{
    let (word, turn, _store) = Word::make(alloc, &[first, second])?;
    Ok(append_in_threads::<Brand, R>(rt, alloc, word, turn, first, second))
}
