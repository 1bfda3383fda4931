//! Changes of records.

ghost use Rattle.std.specs.Prelude.{◌≡◌, ◌+◌, ◌^◌, ◌≤◌, ◌<◌, OnOk, OnErr};
ghost use Rattle.index_derive.specs.declared.log.EntryKind.TheVariants as entry;
ghost use Rattle.laws_engine.specs.EngineSteps.{begin_or_none, effect_on, maker};
ghost use Rattle.engine_core.specs.Changing.{CanChange, IsFormed, changed};

use column_set::Change;
use engine_parts::Engine;
use jet_base::{OutOfMemory, Session};
use table_versions::TableVersions;
use version_cleanup::Transaction;
use version_store::{By, VersionFault};

/// A record changes, or is locked. Where memory fails all is as it was.
pub(crate) fn change(
    engine: &mut Engine,
    session: Session,
    made: &Change,
) -> Result<(), OutOfMemory>
    requires number { engine.old.number ≤ 2 ^ 35 + 1 }
    requires newest { engine.old.newest_put ≤ engine.old.number }
    requires can { CanChange engine.old.store made.now }
    ensures done { OnOk result (engine.new ≡ effect_on engine.old session.0 (entry.Change made.now)) }
    ensures kept { OnErr result (engine.new ≡ engine.old) }
{
    let by = next_maker(engine, session);
    match make_change(&mut engine.tables, by, made) {
        Ok(()) => {
            engine.number += 1;
            Ok(())
        }
        Err(fault) => Err(fault),
    }
}

// Who makes a change, by the next entry. Its span is not asked again: the limit is the greatest there is.
fn next_maker(engine: &Engine, session: Session) -> By
    requires number { engine.now.number ≤ 2 ^ 35 + 1 }
    ensures { result ≡ maker engine.now session.0 }
{
    By {
        number: engine.number + 1,
        session,
        begin: begin_of(engine.sessions.transaction(session)),
        level: engine.levels(session),
        limit: u64::MAX,
        oldest: engine.sessions.oldest_begin(),
    }
}

// Where a transaction began, 0 outside one.
fn begin_of(transaction: Option<Transaction>) -> u64
    ensures { result ≡ begin_or_none transaction }
{
    match transaction {
        Some(transaction) => transaction.begin,
        None => 0,
    }
}

// The change itself, later than the newest put. What all held changes cost ends before 2^64, which no run reaches: a change past
// it is refused as for want of memory.
fn make_change(tables: &mut TableVersions, by: By, made: &Change) -> Result<(), OutOfMemory>
    requires later { tables.old.newest_put < by.number }
    requires can { CanChange tables.old.store made.now }
    ensures ok { OnOk result (tables.new ≡ changed by made.now tables.old) }
    ensures err { OnErr result (tables.new ≡ tables.old) }
{
    match try_change(tables, by, made) {
        Ok(()) => Ok(()),
        Err(_) => Err(OutOfMemory),
    }
}

// The same, with the tables' own refusal.
fn try_change(tables: &mut TableVersions, by: By, made: &Change) -> Result<(), VersionFault>
    requires later { tables.old.newest_put < by.number }
    requires can { CanChange tables.old.store made.now }
    ensures ok { OnOk result (tables.new ≡ changed by made.now tables.old) }
    ensures err { OnErr result (tables.new ≡ tables.old) }
{
    match made {
        Change::Put { .. } => tables.put(by, made),
        Change::Drop { .. } => tables.drop_record(by, made),
        Change::Hold { .. } => tables.hold(by, made),
        Change::Add { .. } => tables.add(by, made),
    }
}

/// The record of a put has its columns in order, each with a value.
pub(crate) fn changes_are_formed(made: &Change)
    ensures { IsFormed made.now }
{
    match made {
        Change::Put { values, .. } => {
            let _ = values.fields();
        }
        Change::Drop { .. } => {}
        Change::Hold { .. } => {}
        Change::Add { .. } => {}
    }
}
