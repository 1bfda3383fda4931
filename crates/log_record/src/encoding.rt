//! Writing entries.

ghost use Rattle.std.specs.Prelude.{◌≡◌, ◌<◌, ◌≤◌, ◌^◌, ◌+◌, ◌++◌, length, map, vec_len, IfOk, IsTrue};
ghost use Rattle.std.specs.Vec.{vec_capacity};
ghost use Rattle.std.specs.Int.{w16, w32, cast_unsigned, to_le_bytes};
ghost use Rattle.std.specs.List.{flat_map};
ghost use Rattle.log_grammar.specs.EntryBytes.{are_short, change_bytes, change_fits, change_tag, entry_bytes, entry_rest, entry_tag, has_spelling, kind_bytes, kind_fits, record_bytes, record_fits, value_bytes};
ghost use Rattle.log_record.specs.EntrySizes.{size_of_change, size_of_fields, size_of_kind, size_of_values};

use crate::append::{append, append_byte};
use crate::encoding_schema::put_schema;
use crate::measuring::entry_size;
use crate::put::{put_bookmark, put_copied, put_number, put_table, put_value};
use column_set::{Change, Record, count_of_values};
use index_derive::{Entry, EntryKind};
use jet_base::{Octets, OutOfMemory};
use std::alloc::Global;

/// The bytes that the length of an entry has.
pub const LENGTH_BYTES: usize = 4;

/// Writes the values of a column.
fn put_values(bytes: &mut Vec<u8>, column: u16, values: &[Octets])
    requires short { IsTrue (are_short values.now) }
    requires room { vec_len bytes.old + size_of_values values.now ≤ vec_capacity bytes.old }
    ensures items { bytes.new.items ≡ bytes.old.items ++ flat_map value_bytes (map (λ value. (column, value)) values.now) }
    ensures len { vec_len bytes.new ≡ vec_len bytes.old + size_of_values values.now }
    ensures room { vec_capacity bytes.old ≤ vec_capacity bytes.new }
{
    for value in values {
        put_value(bytes, column, value);
    }
}

/// Writes the values of a record, their count before them.
fn put_record(bytes: &mut Vec<u8>, values: &Record)
    requires fits { IsTrue (record_fits values.now) }
    requires room { vec_len bytes.old + (2 + size_of_fields values.now) ≤ vec_capacity bytes.old }
    ensures items { bytes.new.items ≡ bytes.old.items ++ record_bytes values.now }
    ensures len { vec_len bytes.new ≡ vec_len bytes.old + (2 + size_of_fields values.now) }
    ensures room { vec_capacity bytes.old ≤ vec_capacity bytes.new }
{
    let fields = values.fields();
    let count = count_of_values(fields);
    put_number(bytes, count as u16);
    for field in fields {
        put_values(bytes, field.column(), field.values());
    }
}

/// The tag of a change.
fn change_tag(change: &Change) -> u8
    ensures { result ≡ change_tag change.now }
{
    match change {
        Change::Put { .. } => 7,
        Change::Drop { .. } => 8,
        Change::Add { .. } => 9,
        Change::Hold { .. } => 10,
    }
}

/// The tag of an entry.
fn entry_tag(kind: &EntryKind) -> u8
    ensures { result ≡ entry_tag kind.now }
{
    match kind {
        EntryKind::Enter => 1,
        EntryKind::Leave => 2,
        EntryKind::Open(_) => 3,
        EntryKind::Shut(_) => 4,
        EntryKind::Begin => 5,
        EntryKind::Save => 6,
        EntryKind::Change(change) => change_tag(change),
        EntryKind::Release => 11,
        EntryKind::Undo => 12,
        EntryKind::UndoAll => 13,
        EntryKind::Commit => 14,
        EntryKind::Schema(_) => 15,
    }
}

/// Writes a column's number and an amount.
fn put_amount(bytes: &mut Vec<u8>, column: u16, amount: i32)
    requires { vec_len bytes.old + 6 ≤ vec_capacity bytes.old }
    ensures items { bytes.new.items ≡ bytes.old.items ++ (to_le_bytes w16 column ++ to_le_bytes w32 (cast_unsigned w32 amount)) }
    ensures len { vec_len bytes.new ≡ vec_len bytes.old + 6 }
    ensures room { vec_capacity bytes.old ≤ vec_capacity bytes.new }
{
    let amount = amount.cast_unsigned();
    put_number(bytes, column);
    append(bytes, &amount.to_le_bytes());
}

/// Writes the fields of a change.
#[tactic(auto)]
fn put_change(bytes: &mut Vec<u8>, change: &Change)
    requires fits { IsTrue (change_fits change.now) }
    requires room { vec_len bytes.old + size_of_change change.now ≤ vec_capacity bytes.old }
    ensures items { bytes.new.items ≡ bytes.old.items ++ change_bytes change.now }
    ensures len { vec_len bytes.new ≡ vec_len bytes.old + size_of_change change.now }
    ensures room { vec_capacity bytes.old ≤ vec_capacity bytes.new }
{
    match change {
        Change::Put {
            table,
            bookmark,
            copied,
            values,
        } => {
            put_table(bytes, table.0);
            put_bookmark(bytes, bookmark);
            put_copied(bytes, copied);
            put_record(bytes, values);
        }
        Change::Drop { table, bookmark } | Change::Hold { table, bookmark } => {
            put_table(bytes, table.0);
            put_bookmark(bytes, bookmark);
        }
        Change::Add {
            table,
            bookmark,
            column,
            amount,
        } => {
            put_table(bytes, table.0);
            put_bookmark(bytes, bookmark);
            put_amount(bytes, column.0, *amount);
        }
    }
}

/// Writes the fields of an entry.
fn put_kind(bytes: &mut Vec<u8>, kind: &EntryKind)
    requires fits { IsTrue (kind_fits kind.now) }
    requires room { vec_len bytes.old + size_of_kind kind.now ≤ vec_capacity bytes.old }
    ensures items { bytes.new.items ≡ bytes.old.items ++ kind_bytes kind.now }
    ensures len { vec_len bytes.new ≡ vec_len bytes.old + size_of_kind kind.now }
    ensures room { vec_capacity bytes.old ≤ vec_capacity bytes.new }
{
    match kind {
        EntryKind::Open(table) | EntryKind::Shut(table) => put_table(bytes, table.0),
        EntryKind::Change(change) => put_change(bytes, change),
        EntryKind::Schema(step) => put_schema(bytes, step),
        _ => {}
    }
}

/// Writes what stands behind the length of an entry: its tag, its session and its fields.
fn put_rest(bytes: &mut Vec<u8>, entry: &Entry)
    requires fits { IsTrue (kind_fits entry.now.kind) }
    requires room { vec_len bytes.old + (5 + size_of_kind entry.now.kind) ≤ vec_capacity bytes.old }
    ensures items { bytes.new.items ≡ bytes.old.items ++ entry_rest entry.now }
    ensures len { vec_len bytes.new ≡ vec_len bytes.old + (5 + size_of_kind entry.now.kind) }
    ensures room { vec_capacity bytes.old ≤ vec_capacity bytes.new }
{
    append_byte(bytes, entry_tag(&entry.kind));
    append(bytes, &entry.session.0.to_le_bytes());
    put_kind(bytes, &entry.kind);
}

/// Writes the bytes of an entry behind those of a buffer that has room for them. It takes no memory.
#[tactic(auto, unfolding(log_grammar::specs::EntryBytes::entry_bytes, log_grammar::specs::EntryBytes::has_spelling))]
pub fn append_entry(bytes: &mut Vec<u8>, entry: &Entry)
    requires spelled { IsTrue (has_spelling entry.now) }
    requires room { vec_len bytes.old + length (entry_bytes entry.now) ≤ vec_capacity bytes.old }
    ensures items { bytes.new.items ≡ bytes.old.items ++ entry_bytes entry.now }
    ensures len { vec_len bytes.new ≡ vec_len bytes.old + length (entry_bytes entry.now) }
    ensures room { vec_capacity bytes.old ≤ vec_capacity bytes.new }
{
    let rest = entry_size(entry) - LENGTH_BYTES;
    append(bytes, &(rest as u32).to_le_bytes());
    put_rest(bytes, entry);
}

/// The bytes of an entry, each number lowest byte first: the length of the rest in four bytes, the tag in one, the
/// session in four, and the fields.
pub fn encode(alloc: Global, entry: &Entry) -> Result<Vec<u8>, OutOfMemory>
    requires { IsTrue (has_spelling entry.now) }
    ensures { IfOk result (λ bytes. bytes.items ≡ entry_bytes entry.now) }
{
    let mut bytes = Vec::with_capacity(alloc, entry_size(entry))?;
    append_entry(&mut bytes, entry);
    Ok(bytes)
}
