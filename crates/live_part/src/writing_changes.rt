//! Writing the held changes of a live part.

ghost use Rattle.std.specs.Prelude.{◌≡◌, ◌+◌, ◌<◌, ◌≤◌, ◌^◌, [], ◌∷◌, ◌++◌, length, option_copied, unwrap_or, vec_len, IfOk, IsTrue, OnOk, OnErr};
ghost use Rattle.std.specs.Vec.{vec_capacity};
ghost use Rattle.std.specs.Int.{w16, w32, w64, to_le_bytes};
ghost use Rattle.std.specs.List.{AllByRecursion, flat_map};
ghost use Rattle.log_grammar.specs.EntryBytes.{entry_bytes, has_spelling};
ghost use Rattle.version_store.specs.Answers.{told_change};
ghost use Rattle.version_store.specs.Items.{state_of};
ghost use Rattle.live_part.specs.LiveBytes.{bare_change, entry_of, held_bytes, row_bytes, sized_entry_bytes, standing, status_bytes};
ghost use Rattle.live_part.specs.Written.{Extends, IsTold};

use crate::fields::{COMMITTED, OPEN, UNDONE};
use crate::writing_sessions::GREATEST_COUNT;
use column_set::{Bookmark, Change, Record};
use index_derive::{Entry, EntryKind};
use jet_base::{OutOfMemory, TableId};
use log_record::{append_byte, append_bytes, append_entry, entry_size, has_spelling};
use std::alloc::Global;
use version_store::{ChangeKind, Held, Status, Versions};

/// The bytes of a held change but for its entry and the row before it: its number, its level, its state with the number of its
/// commit, and the count of the entry's bytes.
const HEAD_BYTES: usize = 22;

/// The most bytes that stand before a row: that it is there, and its length.
const ROW_HEAD_BYTES: usize = 3;

/// The most bytes of a row that is written: its length has two bytes.
const LONGEST_ROW: usize = 0xFFFF;

/// 1 for a change that is not undone, else 0.
fn standing_count(held: Held<'_>) -> usize
    ensures { result ≡ length (standing (told_change held.entry ∷ [])) }
{
    match held.status {
        Status::Undone => 0,
        Status::Uncommitted | Status::Committed(_) => 1,
    }
}

/// How many changes are not undone.
fn count_standing(versions: &Versions) -> usize
    ensures { result ≡ length (standing versions.now) }
{
    let mut count = 0;
    for place in 0..versions.len() {
        count += standing_count(versions.change_at(place));
    }
    count
}

/// The change without the record of a put.
fn bare_change(alloc: Global, kind: ChangeKind, table: TableId, bookmark: Bookmark) -> Change
    ensures { result ≡ bare_change kind table.0 bookmark }
{
    match kind {
        ChangeKind::Put => Change::Put {
            table,
            bookmark,
            copied: None,
            values: Record::new(alloc),
        },
        ChangeKind::Drop => Change::Drop { table, bookmark },
        ChangeKind::Hold => Change::Hold { table, bookmark },
        ChangeKind::Add(column, amount) => Change::Add {
            table,
            bookmark,
            column,
            amount,
        },
    }
}

/// The change as an entry of the log, without the record of a put.
fn bare_entry(alloc: Global, held: Held<'_>) -> Result<Entry, OutOfMemory>
    ensures { IfOk result (λ e. e ≡ entry_of (told_change held.entry)) }
{
    let bookmark = Bookmark::from_slice(alloc, held.bookmark)?;
    let change = bare_change(alloc, held.kind, held.table, bookmark);
    Ok(Entry {
        session: held.session,
        kind: EntryKind::Change(change),
    })
}

/// The change as an entry that has a spelling. One that no log entry can tell is refused as for want of memory.
fn spelled_entry(alloc: Global, held: Held<'_>) -> Result<Entry, OutOfMemory>
    ensures entry { IfOk result (λ e. e ≡ entry_of (told_change held.entry)) }
    ensures spelled { IfOk result (λ e. IsTrue (has_spelling e)) }
    ensures short { IfOk result (λ e. length (entry_bytes e) < 2 ^ 32) }
{
    let entry = bare_entry(alloc, held)?;
    if !has_spelling(&entry) {
        return Err(OutOfMemory);
    }
    Ok(entry)
}

/// Writes a state and the number of a commit.
fn put_state(bytes: &mut Vec<u8>, state: u8, commit: u64)
    requires { vec_len bytes.old + 9 ≤ vec_capacity bytes.old }
    ensures items { bytes.new.items ≡ bytes.old.items ++ state ∷ to_le_bytes w64 commit }
    ensures len { vec_len bytes.new ≡ vec_len bytes.old + 9 }
    ensures room { vec_capacity bytes.old ≤ vec_capacity bytes.new }
{
    append_byte(bytes, state);
    append_bytes(bytes, &commit.to_le_bytes());
}

/// Writes where a change stands.
fn put_status(bytes: &mut Vec<u8>, status: Status)
    requires { vec_len bytes.old + 9 ≤ vec_capacity bytes.old }
    ensures items { bytes.new.items ≡ bytes.old.items ++ status_bytes (state_of status) }
    ensures len { vec_len bytes.new ≡ vec_len bytes.old + 9 }
    ensures room { vec_capacity bytes.old ≤ vec_capacity bytes.new }
{
    match status {
        Status::Uncommitted => put_state(bytes, OPEN, 0),
        Status::Committed(number) => put_state(bytes, COMMITTED, number),
        Status::Undone => put_state(bytes, UNDONE, 0),
    }
}

/// Writes what stands before the entry of a change.
fn put_head(bytes: &mut Vec<u8>, number: u64, level: u8, status: Status)
    requires { vec_len bytes.old + 18 ≤ vec_capacity bytes.old }
    ensures items { bytes.new.items ≡ bytes.old.items ++ (to_le_bytes w64 number ++ ((level ∷ []) ++ status_bytes (state_of status))) }
    ensures len { vec_len bytes.new ≡ vec_len bytes.old + 18 }
    ensures room { vec_capacity bytes.old ≤ vec_capacity bytes.new }
{
    append_bytes(bytes, &number.to_le_bytes());
    append_byte(bytes, level);
    put_status(bytes, status);
}

/// Writes an entry behind the count of its bytes.
fn put_sized_entry(bytes: &mut Vec<u8>, entry: &Entry)
    requires spelled { IsTrue (has_spelling entry.now) }
    requires short { length (entry_bytes entry.now) < 2 ^ 32 }
    requires room { vec_len bytes.old + (4 + length (entry_bytes entry.now)) ≤ vec_capacity bytes.old }
    ensures items { bytes.new.items ≡ bytes.old.items ++ sized_entry_bytes entry.now }
    ensures len { vec_len bytes.new ≡ vec_len bytes.old + (4 + length (entry_bytes entry.now)) }
    ensures room { vec_capacity bytes.old ≤ vec_capacity bytes.new }
{
    let size = entry_size(entry);
    append_bytes(bytes, &(size as u32).to_le_bytes());
    append_entry(bytes, entry);
}

/// How many bytes a row has, none where there is none.
fn row_len(row: Option<&[u8]>) -> usize
    ensures { result ≡ length (unwrap_or (option_copied row.entry) []) }
{
    match row {
        None => 0,
        Some(row) => row.len(),
    }
}

/// Writes a row that is there.
fn put_own_row(bytes: &mut Vec<u8>, row: &[u8])
    requires short { length row.now < 2 ^ 16 }
    requires room { vec_len bytes.old + (3 + length row.now) ≤ vec_capacity bytes.old }
    ensures { bytes.new.items ≡ bytes.old.items ++ 1 ∷ (to_le_bytes w16 (length row.now) ++ row.now) }
{
    append_byte(bytes, 1);
    append_bytes(bytes, &(row.len() as u16).to_le_bytes());
    append_bytes(bytes, row);
}

/// Writes a row, or that there is none.
fn put_row(bytes: &mut Vec<u8>, row: Option<&[u8]>)
    requires short { length (unwrap_or (option_copied row) []) < 2 ^ 16 }
    requires room { vec_len bytes.old + (3 + length (unwrap_or (option_copied row) [])) ≤ vec_capacity bytes.old }
    ensures { bytes.new.items ≡ bytes.old.items ++ row_bytes (option_copied row.entry) }
{
    match row {
        None => append_byte(bytes, 0),
        Some(own) => put_own_row(bytes, own),
    }
}

/// Writes a change behind the bytes of a buffer.
fn append_change(held: Held<'_>, into: &mut Vec<u8>) -> Result<(), OutOfMemory>
    ensures ok { OnOk result (into.new.items ≡ into.old.items ++ held_bytes (told_change held.entry)) }
    ensures told { OnOk result (IsTold (told_change held.entry)) }
    ensures err { OnErr result (into.new.items ≡ into.old.items) }
{
    let alloc = *into.allocator();
    let entry = spelled_entry(alloc, held)?;
    let row = row_len(held.before);
    if row > LONGEST_ROW {
        return Err(OutOfMemory);
    }
    into.reserve(HEAD_BYTES + entry_size(&entry) + ROW_HEAD_BYTES + row)?;
    put_head(into, held.number, held.level, held.status);
    put_sized_entry(into, &entry);
    put_row(into, held.before);
    Ok(())
}

/// Writes a change behind the bytes of a buffer, where it is not undone.
fn append_standing(held: Held<'_>, into: &mut Vec<u8>) -> Result<(), OutOfMemory>
    ensures ok { OnOk result (into.new.items ≡ into.old.items ++ flat_map held_bytes (standing (told_change held.entry ∷ []))) }
    ensures told { OnOk result (AllByRecursion IsTold (standing (told_change held.entry ∷ []))) }
    ensures err { OnErr result (into.new.items ≡ into.old.items) }
{
    match held.status {
        Status::Undone => Ok(()),
        Status::Uncommitted | Status::Committed(_) => append_change(held, into),
    }
}

/// Writes the changes that are not undone behind the bytes of a buffer, their count before them. Where memory fails, part of
/// them may stand there.
pub(crate) fn append_changes(versions: &Versions, into: &mut Vec<u8>) -> Result<(), OutOfMemory>
    ensures ok { OnOk result (into.new.items ≡ into.old.items ++ (to_le_bytes w32 (length (standing versions.now)) ++ flat_map held_bytes (standing versions.now))) }
    ensures few { OnOk result (length (standing versions.now) < 2 ^ 32) }
    ensures told { OnOk result (AllByRecursion IsTold (standing versions.now)) }
    ensures err { OnErr result (Extends into.old.items into.new.items) }
{
    let count = count_standing(versions);
    if count > GREATEST_COUNT {
        return Err(OutOfMemory);
    }
    into.extend_from_slice(&(count as u32).to_le_bytes())?;
    for place in 0..versions.len() {
        append_standing(versions.change_at(place), into)?;
    }
    Ok(())
}
