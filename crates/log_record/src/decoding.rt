//! Reading entries.

ghost use Rattle.std.specs.Prelude.{◌≡◌, ◌<◌, ◌≤◌, ◌^◌, Some, None, IfOk};
ghost use Rattle.std.specs.Int.{w16, w32};
ghost use Rattle.jet_base.specs.Ids.{table_id};
ghost use Rattle.column_set.specs.Rows.{record_values_in_order};
ghost use Rattle.column_set.specs.declared.changes.Change.TheVariants as change;
ghost use Rattle.column_set.specs.NumberReading.{number_at};
ghost use Rattle.index_derive.specs.declared.log.EntryKind.TheVariants as kind;
ghost use Rattle.log_grammar.specs.EntryReading.{add_at, changed, grouped, kind_at, next_at, put_at, record_at, rest_at, schema_at, table_at, value_at, values_at};
ghost use Rattle.log_record.specs.EntrySeen.{Gives};

use crate::decoding_schema::schema_of;
use crate::fault::EntryFault;
use crate::reading::{bookmark_of, bytes_of, copied_of, read_u16, read_u32, u8_at};
use column_set::{Bookmark, Change, Record};
use index_derive::{Entry, EntryKind};
use jet_base::{ColumnId, Octets, Session, TableId};
use std::alloc::Global;

/// A value with its column.
#[tactic(auto, unfolding(log_grammar::specs::EntryReading::value_at))]
fn value_of(bytes: &[u8]) -> Result<((u16, &[u8]), &[u8]), EntryFault>
    ensures { Gives (λ x. ((x.0.0, x.0.1.now), x.1.now)) result (value_at bytes.now) }
{
    let (column, rest) = read_u16(bytes)?;
    let (count, rest) = read_u32(rest)?;
    let (value, rest) = bytes_of(rest, count as usize)?;
    Ok(((column, value), rest))
}

/// A value with its column where that is not below `least`.
#[tactic(auto, unfolding(log_grammar::specs::EntryReading::next_at))]
fn next_of(bytes: &[u8], least: u16) -> Result<((u16, &[u8]), &[u8]), EntryFault>
    ensures { Gives (λ x. ((x.0.0, x.0.1.now), x.1.now)) result (next_at least bytes.now) }
{
    let ((column, value), rest) = value_of(bytes)?;
    if column < least {
        return Err(EntryFault::BadEntry);
    }
    Ok(((column, value), rest))
}

/// The record that has so many values.
fn values_of(alloc: Global, bytes: &[u8], count: u16) -> Result<(Record, &[u8]), EntryFault>
    ensures values { Gives (λ x. (record_values_in_order x.0, x.1.now)) result (values_at 0 count bytes.now) }
    ensures formed { IfOk result (λ x. grouped (record_values_in_order x.0) ≡ x.0) }
{
    let mut values = Record::new(alloc);
    let mut rest = bytes;
    let mut least = 0;
    for _ in 0..count {
        let ((column, value), after) = next_of(rest, least)?;
        let value = Octets::from_slice(alloc, value)?;
        let _fields = values.fields();
        values.push_value(ColumnId(column), value)?;
        rest = after;
        least = column;
    }
    let _fields = values.fields();
    Ok((values, rest))
}

/// The values of a record behind their count.
#[tactic(auto, unfolding(log_grammar::specs::EntryReading::record_at))]
fn record_of(alloc: Global, bytes: &[u8]) -> Result<(Record, &[u8]), EntryFault>
    ensures { Gives (λ x. (x.0, x.1.now)) result (record_at bytes.now) }
{
    let (count, rest) = read_u16(bytes)?;
    values_of(alloc, rest, count)
}

/// A table and a bookmark.
#[tactic(auto, unfolding(log_grammar::specs::EntryReading::table_at))]
fn table_of(alloc: Global, bytes: &[u8]) -> Result<((u32, Bookmark), &[u8]), EntryFault>
    ensures { Gives (λ x. (x.0, x.1.now)) result (table_at bytes.now) }
{
    let (table, rest) = read_u32(bytes)?;
    let (bookmark, rest) = bookmark_of(alloc, rest)?;
    Ok(((table, bookmark), rest))
}

/// A table that is opened.
fn open_of(bytes: &[u8]) -> Result<(EntryKind, &[u8]), EntryFault>
    ensures { Gives (λ x. (x.0, x.1.now)) result (changed (λ table. kind.Open (table_id table)) (number_at w32) bytes.now) }
{
    let (table, rest) = read_u32(bytes)?;
    Ok((EntryKind::Open(TableId(table)), rest))
}

/// A table that is shut.
fn shut_of(bytes: &[u8]) -> Result<(EntryKind, &[u8]), EntryFault>
    ensures { Gives (λ x. (x.0, x.1.now)) result (changed (λ table. kind.Shut (table_id table)) (number_at w32) bytes.now) }
{
    let (table, rest) = read_u32(bytes)?;
    Ok((EntryKind::Shut(TableId(table)), rest))
}

/// A record that is put.
#[tactic(auto, unfolding(log_grammar::specs::EntryReading::put_at))]
fn put_of(alloc: Global, bytes: &[u8]) -> Result<(EntryKind, &[u8]), EntryFault>
    ensures { Gives (λ x. (x.0, x.1.now)) result (changed (λ change. kind.Change change) put_at bytes.now) }
{
    let ((table, bookmark), rest) = table_of(alloc, bytes)?;
    let (copied, rest) = copied_of(alloc, rest)?;
    let (values, rest) = record_of(alloc, rest)?;
    let change = Change::Put {
        table: TableId(table),
        bookmark,
        copied,
        values,
    };
    Ok((EntryKind::Change(change), rest))
}

/// A record that is dropped.
fn drop_of(alloc: Global, bytes: &[u8]) -> Result<(EntryKind, &[u8]), EntryFault>
    ensures { Gives (λ x. (x.0, x.1.now)) result (changed (λ x. kind.Change (change.Drop (table_id x.0) x.1)) table_at bytes.now) }
{
    let ((table, bookmark), rest) = table_of(alloc, bytes)?;
    let table = TableId(table);
    Ok((EntryKind::Change(Change::Drop { table, bookmark }), rest))
}

/// An amount that is added.
#[tactic(auto, unfolding(log_grammar::specs::EntryReading::add_at))]
fn add_of(alloc: Global, bytes: &[u8]) -> Result<(EntryKind, &[u8]), EntryFault>
    ensures { Gives (λ x. (x.0, x.1.now)) result (changed (λ change. kind.Change change) add_at bytes.now) }
{
    let ((table, bookmark), rest) = table_of(alloc, bytes)?;
    let (column, rest) = read_u16(rest)?;
    let (amount, rest) = read_u32(rest)?;
    let change = Change::Add {
        table: TableId(table),
        bookmark,
        column: ColumnId(column),
        amount: amount.cast_signed(),
    };
    Ok((EntryKind::Change(change), rest))
}

/// A record that is held.
fn hold_of(alloc: Global, bytes: &[u8]) -> Result<(EntryKind, &[u8]), EntryFault>
    ensures { Gives (λ x. (x.0, x.1.now)) result (changed (λ x. kind.Change (change.Hold (table_id x.0) x.1)) table_at bytes.now) }
{
    let ((table, bookmark), rest) = table_of(alloc, bytes)?;
    let table = TableId(table);
    Ok((EntryKind::Change(Change::Hold { table, bookmark }), rest))
}

/// A step that changes the schema.
fn step_of(alloc: Global, bytes: &[u8]) -> Result<(EntryKind, &[u8]), EntryFault>
    ensures { Gives (λ x. (x.0, x.1.now)) result (changed (λ step. kind.Schema step) schema_at bytes.now) }
{
    let (step, rest) = schema_of(alloc, bytes)?;
    Ok((EntryKind::Schema(step), rest))
}

/// The fields of an entry with the tag.
#[tactic(auto, unfolding(log_grammar::specs::EntryReading::kind_at))]
fn kind_of(alloc: Global, tag: u8, bytes: &[u8]) -> Result<(EntryKind, &[u8]), EntryFault>
    ensures { Gives (λ x. (x.0, x.1.now)) result (kind_at tag bytes.now) }
{
    match tag {
        1 => Ok((EntryKind::Enter, bytes)),
        2 => Ok((EntryKind::Leave, bytes)),
        3 => open_of(bytes),
        4 => shut_of(bytes),
        5 => Ok((EntryKind::Begin, bytes)),
        6 => Ok((EntryKind::Save, bytes)),
        7 => put_of(alloc, bytes),
        8 => drop_of(alloc, bytes),
        9 => add_of(alloc, bytes),
        10 => hold_of(alloc, bytes),
        11 => Ok((EntryKind::Release, bytes)),
        12 => Ok((EntryKind::Undo, bytes)),
        13 => Ok((EntryKind::UndoAll, bytes)),
        14 => Ok((EntryKind::Commit, bytes)),
        15 => step_of(alloc, bytes),
        _ => Err(EntryFault::BadEntry),
    }
}

/// The entry whose tag, session and fields the bytes are, all of them, with no length before them. `BadEntry` where they are
/// those of none.
#[tactic(auto, unfolding(log_grammar::specs::EntryReading::rest_at))]
pub fn entry_of(alloc: Global, bytes: &[u8]) -> Result<Entry, EntryFault>
    ensures { Gives (λ entry. entry) result (rest_at bytes.now) }
{
    let (tag, rest) = u8_at(bytes)?;
    let (session, rest) = read_u32(rest)?;
    if session < 1 || session > 99 {
        return Err(EntryFault::BadEntry);
    }
    let (kind, rest) = kind_of(alloc, tag, rest)?;
    if !rest.is_empty() {
        return Err(EntryFault::BadEntry);
    }
    let session = Session(session);
    Ok(Entry { session, kind })
}
