//! Steps that are drawn: what three sessions do with a few records, in an order that nobody chose.

use crate::comparing::{KEYS, pages_of};
use crate::model::Transaction;
use crate::sessions::{Act, Both};
use std::process::Abort;
use std::test::*;

/// How many steps are drawn.
const STEPS: u32 = 150;

/// What a session in a transaction does, by a number.
fn drawn(seed: u32) -> Act {
    let key = ((seed >> 16) % 3) as u8;
    let other = ((seed >> 18) % 3) as u8;
    let fill = ((seed >> 20) % 5) as u8;
    match (seed >> 23) % 12 {
        0 => Act::Commit,
        1 => Act::Rollback,
        2 => Act::Save,
        3 => Act::Release,
        4 => Act::Clean,
        5 | 6 => Act::Delete(key),
        7 | 8 | 9 => Act::Put(key, Some(other), fill),
        _ => Act::Put(key, None, fill),
    }
}

/// Whether a session in a transaction may do so.
fn may(rt: &impl Abort, both: &Both, transaction: Transaction, act: Act) -> bool {
    match act {
        Act::Save => transaction.level < 7,
        Act::Release => transaction.level >= 2,
        Act::Commit => transaction.level == 1,
        Act::Delete(key) => {
            both.model.newest(key).is_some() && !both.has_conflict(rt, transaction, key)
        }
        Act::Put(key, _, _) => !both.has_conflict(rt, transaction, key),
        Act::Begin => false,
        Act::Rollback | Act::Clean => true,
    }
}

/// A session begins a transaction, or does something in its own.
fn step(rt: &impl Abort, both: &mut Both, seed: u32) {
    let session = 1 + (seed >> 8) % 3;
    match both.model.transaction(session) {
        Some(transaction) => {
            let act = drawn(seed);
            if may(rt, both, transaction, act) {
                both.step(rt, session, act);
            }
        }
        None => both.step(rt, session, Act::Begin),
    }
}

/// All levels of a session are rolled back.
fn roll_back(rt: &impl Abort, both: &mut Both, session: u32) {
    for _ in 0..7 {
        if both.model.transaction(session).is_some() {
            both.step(rt, session, Act::Rollback);
        }
    }
}

/// A record goes, where there is one.
fn delete(rt: &impl Abort, both: &mut Both, key: u8) {
    if both.model.newest(key).is_some() {
        both.step(rt, 1, Act::Delete(key));
    }
}

/// Every transaction is rolled back, all records go, and everything is cleaned.
fn end(rt: &impl Abort, both: &mut Both) {
    for session in 1..4u32 {
        roll_back(rt, both, session);
    }
    both.step(rt, 1, Act::Begin);
    for key in 0..KEYS {
        delete(rt, both, key);
    }
    both.step(rt, 1, Act::Commit);
    both.step(rt, 1, Act::Clean);
}

#[test]
fn drawn_steps_are_those_of_the_model(rt: HostRuntime) {
    let mut both = Both::new(&rt, rt.alloc());
    let (_, standing) = pages_of(&both.tables);
    let mut seed: u32 = 7;
    for _ in 0..STEPS {
        seed = seed.wrapping_mul(1_103_515_245).wrapping_add(12_345);
        step(&rt, &mut both, seed);
    }
    end(&rt, &mut both);
    assert!(&rt; both.tables.held() == 0);
    // All pages are free but those that stood before the first record.
    let (pages, taken) = pages_of(&both.tables);
    assert!(&rt; taken == standing && pages > taken);
}
