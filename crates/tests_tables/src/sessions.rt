//! Three sessions over one record with a long value, step by step.

use crate::comparing::{compare, pages_of};
use crate::model::{Model, Transaction};
use crate::tables::{drop_record, forget_oldest, meets_conflict, new_tables, put_record};
use jet_base::Session;
use std::alloc::Global;
use std::process::Abort;
use std::test::*;
use table_versions::TableVersions;
use version_store::By;

/// What a session does.
#[derive(Clone, Copy)]
pub enum Act {
    Begin,
    /// One more level begins.
    Save,
    /// Puts a value under a key, as a copy of the record under another one or not.
    Put(u8, Option<u8>, u8),
    Delete(u8),
    /// The innermost level of several is kept.
    Release,
    Commit,
    /// The innermost level is rolled back.
    Rollback,
    /// Everything that no session needs is forgotten.
    Clean,
}

/// The tables under test, and their model.
#[derive(Drop)]
pub struct Both {
    alloc: Global,
    pub tables: TableVersions,
    pub model: Model,
}

impl Both {
    /// A table without a record.
    pub fn new(rt: &impl Abort, alloc: Global) -> Both {
        Both {
            alloc,
            tables: new_tables(rt, alloc),
            model: Model::new(alloc),
        }
    }

    /// A session does one thing, which is one log entry, but for a clean. Both are then compared.
    pub fn step(&mut self, rt: &impl Abort, session: u32, act: Act) {
        match act {
            Act::Clean => self.clean(),
            Act::Begin => {
                self.count_entry();
                self.model.begin(rt, session);
            }
            _ => {
                self.count_entry();
                let transaction = self.model.transaction(session).expect(rt, "a transaction");
                self.step_within(rt, transaction, act);
            }
        }
        compare(rt, self.alloc, &self.tables, &self.model);
    }

    // One log entry more.
    fn count_entry(&mut self) {
        self.model.number = self.model.number.saturating_add(1);
    }

    // A step of a session in a transaction.
    fn step_within(&mut self, rt: &impl Abort, transaction: Transaction, act: Act) {
        match act {
            Act::Save => self.save(rt, transaction),
            Act::Put(key, copied, fill) => self.put(rt, transaction, key, copied, fill),
            Act::Delete(key) => self.delete(rt, transaction, key),
            Act::Release => self.release(rt, transaction),
            Act::Commit => self.commit(transaction),
            Act::Rollback => self.rollback(rt, transaction),
            Act::Begin | Act::Clean => assert!(rt; false),
        }
    }

    fn save(&mut self, rt: &impl Abort, transaction: Transaction) {
        assert!(rt; transaction.level < 7);
        self.model
            .set_level(transaction.session, transaction.level + 1);
    }

    // Who makes a change.
    fn by(&self, transaction: Transaction) -> By {
        By {
            number: self.model.number,
            session: Session(transaction.session),
            begin: transaction.begin,
            level: transaction.level,
            limit: u64::MAX,
            oldest: self.model.oldest_begin(),
        }
    }

    fn put(
        &mut self,
        rt: &impl Abort,
        transaction: Transaction,
        key: u8,
        copied: Option<u8>,
        fill: u8,
    ) {
        let by = self.by(transaction);
        let named = self.model.named(transaction, key, copied, fill);
        put_record(rt, self.alloc, &mut self.tables, by, key, copied, fill);
        self.model.change(rt, transaction, key, Some(named));
    }

    fn delete(&mut self, rt: &impl Abort, transaction: Transaction, key: u8) {
        let by = self.by(transaction);
        drop_record(rt, self.alloc, &mut self.tables, by, key);
        self.model.change(rt, transaction, key, None);
    }

    fn release(&mut self, rt: &impl Abort, transaction: Transaction) {
        assert!(rt; transaction.level >= 2);
        self.tables
            .release(Session(transaction.session), transaction.level);
        self.model.release(transaction.session, transaction.level);
    }

    fn commit(&mut self, transaction: Transaction) {
        self.tables
            .commit(Session(transaction.session), self.model.number);
        self.model.commit(transaction.session);
    }

    fn rollback(&mut self, rt: &impl Abort, transaction: Transaction) {
        self.tables
            .undo_level(Session(transaction.session), transaction.level);
        self.model.undo(rt, transaction.session, transaction.level);
        if transaction.level > 1 {
            self.model
                .set_level(transaction.session, transaction.level - 1);
        } else {
            self.model.end(transaction.session);
        }
    }

    fn clean(&mut self) {
        let oldest = self.model.oldest_begin();
        for _ in 0..self.tables.held() {
            if !forget_oldest(&mut self.tables, oldest) {
                break;
            }
        }
        for _ in 0..self.model.held() {
            if self.model.may_forget() {
                self.model.forget();
            }
        }
    }

    /// Whether a change of another session keeps a session in a transaction from a record. Both say the same.
    pub fn has_conflict(&self, rt: &impl Abort, transaction: Transaction, key: u8) -> bool {
        let (session, begin) = (transaction.session, transaction.begin);
        let conflict = self.model.has_conflict(key, session, begin);
        assert!(rt; meets_conflict(rt, self.alloc, &self.tables, session, begin, key) == conflict);
        conflict
    }
}

/// How many references the value has that an entry made, as the model counts them.
fn compare_count(rt: &impl Abort, both: &Both, entry: u64, count: u32) {
    assert!(rt; both.model.count(entry) == count);
}

/// A session does one thing after the other.
fn take(rt: &impl Abort, both: &mut Both, session: u32, acts: &[Act]) {
    for act in acts {
        both.step(rt, session, *act);
    }
}

/// Session 2 puts the record, and session 1 begins to read it.
static BEFORE: &[Act] = &[Act::Begin, Act::Put(0, None, 4), Act::Commit, Act::Clean];

/// A record, and a reader of it: its value is that of entry 2.
fn record_and_reader(rt: &impl Abort, alloc: Global) -> Both {
    let mut both = Both::new(rt, alloc);
    take(rt, &mut both, 2, BEFORE);
    take(rt, &mut both, 1, &[Act::Begin]);
    compare_count(rt, &both, 2, 1);
    both
}

/// Session 1 reads to its end, and what was before goes.
static AFTER: &[Act] = &[Act::Commit, Act::Clean];

/// An equal value is put, and committed, in the entry 6.
static EQUAL: &[Act] = &[Act::Begin, Act::Put(0, None, 4), Act::Commit, Act::Clean];

#[test]
fn an_equal_value_is_shared(rt: HostRuntime) {
    let mut both = record_and_reader(&rt, rt.alloc());
    take(&rt, &mut both, 2, EQUAL);
    compare_count(&rt, &both, 2, 2);
    take(&rt, &mut both, 1, AFTER);
    compare_count(&rt, &both, 2, 1);
}

/// Another value is put in the entry 6, and again the first, which is then a new one, in the entry 7.
static ANOTHER: &[Act] = &[
    Act::Begin,
    Act::Put(0, None, 3),
    Act::Put(0, None, 4),
    Act::Commit,
    Act::Clean,
];

#[test]
fn another_value_takes_the_place_of_the_first(rt: HostRuntime) {
    let mut both = record_and_reader(&rt, rt.alloc());
    take(&rt, &mut both, 2, ANOTHER);
    compare_count(&rt, &both, 2, 1);
    compare_count(&rt, &both, 6, 1);
    compare_count(&rt, &both, 7, 1);
    take(&rt, &mut both, 1, AFTER);
    compare_count(&rt, &both, 2, 0);
    compare_count(&rt, &both, 7, 1);
}

/// Two copies in the entries 6 and 7, of which the second has another value; then the record itself goes.
static COPIES: &[Act] = &[
    Act::Begin,
    Act::Put(1, Some(0), 4),
    Act::Put(2, Some(0), 2),
    Act::Delete(0),
    Act::Commit,
    Act::Clean,
];

#[test]
fn a_copy_shares_the_value_of_its_record(rt: HostRuntime) {
    let mut both = record_and_reader(&rt, rt.alloc());
    take(&rt, &mut both, 2, COPIES);
    compare_count(&rt, &both, 2, 2);
    compare_count(&rt, &both, 7, 1);
    take(&rt, &mut both, 1, AFTER);
    compare_count(&rt, &both, 2, 1);
}

/// At the second level the record gets another value, an equal copy is put, and both go; all of it is rolled back.
static UNDONE: &[Act] = &[
    Act::Begin,
    Act::Put(0, None, 4),
    Act::Save,
    Act::Put(0, None, 1),
    Act::Put(1, Some(0), 1),
    Act::Delete(0),
    Act::Delete(1),
    Act::Rollback,
    Act::Put(0, None, 0),
    Act::Save,
    Act::Put(0, None, 4),
    Act::Release,
    Act::Rollback,
];

#[test]
fn a_rollback_gives_references_back(rt: HostRuntime) {
    let mut both = record_and_reader(&rt, rt.alloc());
    take(&rt, &mut both, 3, UNDONE);
    compare_count(&rt, &both, 2, 1);
    take(&rt, &mut both, 1, AFTER);
    compare_count(&rt, &both, 2, 1);
}

/// What is left goes.
static GONE: &[Act] = &[
    Act::Begin,
    Act::Delete(1),
    Act::Delete(2),
    Act::Commit,
    Act::Clean,
];

#[test]
fn the_last_reference_takes_the_value_with_it(rt: HostRuntime) {
    let empty = Both::new(&rt, rt.alloc());
    let (_, standing) = pages_of(&empty.tables);
    let mut both = record_and_reader(&rt, rt.alloc());
    take(&rt, &mut both, 2, COPIES);
    take(&rt, &mut both, 3, GONE);
    compare_count(&rt, &both, 2, 2);
    take(&rt, &mut both, 1, AFTER);
    compare_count(&rt, &both, 2, 0);
    compare_count(&rt, &both, 7, 0);
    // All pages are free but those that stand in tables without a record.
    let (_, taken) = pages_of(&both.tables);
    assert!(&rt; both.tables.held() == 0 && taken == standing);
}
