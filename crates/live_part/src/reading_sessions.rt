//! Reading the sessions of a live part.

ghost use Rattle.std.specs.Prelude.{◌≡◌, ◌≤◌, nat_lt, [], ◌∷◌, ◌++◌, map, IfOk, IfSome, IsTrue, OnOk};
ghost use Rattle.std.specs.Int.{w32};
ghost use Rattle.std.specs.List.{list_all};
ghost use Rattle.column_set.specs.NumberReading.{number_at};
ghost use Rattle.log_grammar.specs.EntryReading.{many_at, tested};
ghost use Rattle.log_record.specs.EntrySeen.{Gives};
ghost use Rattle.live_part.specs.LiveBytes.{label_of};
ghost use Rattle.live_part.specs.LiveReading.{rising_at, session_at, sessions_at, tables_at, transaction_at};

use crate::fields::read_u64;
use jet_base::{OutOfMemory, Session, TableId};
use log_record::{EntryFault, read_u32, u8_at};
use std::alloc::Global;
use version_cleanup::{Live, MAX_LEVELS, MAX_SESSIONS, Sessions, Transaction};

/// The greatest label of a session.
const GREATEST_LABEL: u32 = 99;

/// So many tables.
fn so_many_tables(
    alloc: Global,
    bytes: &[u8],
    count: u32,
) -> Result<(Vec<TableId>, &[u8]), EntryFault>
    ensures { Gives (λ x. (map (λ id. id.0) x.0.items, x.1.now)) result (many_at (number_at w32) count bytes.now) }
{
    let mut tables = Vec::new(alloc);
    let mut rest = bytes;
    for _ in 0..count {
        let (table, after) = read_u32(rest)?;
        tables.push(TableId(table))?;
        rest = after;
    }
    Ok((tables, rest))
}

/// Tables behind their count.
#[tactic(auto, unfolding(crate::specs::LiveReading::tables_at))]
fn tables_of(alloc: Global, bytes: &[u8]) -> Result<(Vec<TableId>, &[u8]), EntryFault>
    ensures { Gives (λ x. (map (λ id. id.0) x.0.items, x.1.now)) result (tables_at bytes.now) }
{
    let (count, rest) = read_u32(bytes)?;
    let (tables, rest) = so_many_tables(alloc, rest, count)?;
    Ok((tables, rest))
}

/// The transaction of a session, or that there is none.
#[tactic(auto, unfolding(crate::specs::LiveReading::transaction_at))]
fn transaction_of(bytes: &[u8]) -> Result<(Option<Transaction>, &[u8]), EntryFault>
    ensures read { Gives (λ x. (x.0, x.1.now)) result (transaction_at bytes.now) }
    ensures levels { IfOk result (λ x. IfSome x.0 (λ t. (1 ≤ t.levels) × (t.levels ≤ 7))) }
{
    let (levels, rest) = u8_at(bytes)?;
    if levels > MAX_LEVELS {
        return Err(EntryFault::BadEntry);
    }
    if levels == 0 {
        return Ok((None, rest));
    }
    let (begin, rest) = read_u64(rest)?;
    Ok((Some(Transaction { levels, begin }), rest))
}

/// A session.
#[tactic(auto, unfolding(crate::specs::LiveReading::session_at))]
fn session_of(alloc: Global, bytes: &[u8]) -> Result<(Live, &[u8]), EntryFault>
    ensures { Gives (λ x. (x.0, x.1.now)) result (session_at bytes.now) }
{
    let (label, rest) = read_u32(bytes)?;
    if label > GREATEST_LABEL {
        return Err(EntryFault::BadEntry);
    }
    let (tables, rest) = tables_of(alloc, rest)?;
    let (transaction, rest) = transaction_of(rest)?;
    Ok((Live::of(Session(label), tables, transaction), rest))
}

/// A session whose label is above `last`.
fn next_session(alloc: Global, bytes: &[u8], last: u32) -> Result<(Live, &[u8]), EntryFault>
    ensures { Gives (λ x. (x.0, x.1.now)) result (tested (λ s. nat_lt last (label_of s)) session_at bytes.now) }
{
    let (session, rest) = session_of(alloc, bytes)?;
    if session.label().0 <= last {
        return Err(EntryFault::BadEntry);
    }
    Ok((session, rest))
}

/// Puts a session behind the others. Where there are 64 it is refused as for want of memory.
fn push_session(sessions: &mut Sessions, session: Live) -> Result<(), OutOfMemory>
    requires { IsTrue (list_all (λ s. nat_lt s.label session.label) sessions.old) }
    ensures { OnOk result (sessions.new ≡ sessions.old ++ session ∷ []) }
{
    match sessions.push(session) {
        Ok(()) => Ok(()),
        Err(_) => Err(OutOfMemory),
    }
}

/// So many sessions by rising label, at most 64.
fn so_many_sessions(
    alloc: Global,
    bytes: &[u8],
    count: u32,
) -> Result<(Sessions, &[u8]), EntryFault>
    ensures { Gives (λ x. (x.0, x.1.now)) result (rising_at label_of session_at 0 count bytes.now) }
{
    let mut sessions = Sessions::new(alloc);
    let mut rest = bytes;
    let mut last = 0;
    for _ in 0..count {
        let (session, after) = next_session(alloc, rest, last)?;
        last = session.label().0;
        push_session(&mut sessions, session)?;
        rest = after;
    }
    Ok((sessions, rest))
}

/// The sessions behind their count.
#[tactic(auto, unfolding(crate::specs::LiveReading::sessions_at))]
pub(crate) fn sessions_of(alloc: Global, bytes: &[u8]) -> Result<(Sessions, &[u8]), EntryFault>
    ensures { Gives (λ x. (x.0, x.1.now)) result (sessions_at bytes.now) }
{
    let (count, rest) = read_u32(bytes)?;
    if count as usize > MAX_SESSIONS {
        return Err(EntryFault::BadEntry);
    }
    let (sessions, rest) = so_many_sessions(alloc, rest, count)?;
    Ok((sessions, rest))
}
