//! Writing the sessions of a live part.

ghost use Rattle.std.specs.Prelude.{◌≡◌, ◌+◌, ◌*◌, ◌≤◌, ◌++◌, length, map, vec_len, OnOk, OnErr};
ghost use Rattle.std.specs.Vec.{vec_capacity};
ghost use Rattle.std.specs.Int.{w32, to_le_bytes};
ghost use Rattle.std.specs.List.{AllByRecursion, flat_map};
ghost use Rattle.live_part.specs.LiveBytes.{session_bytes, transaction_bytes};
ghost use Rattle.live_part.specs.Written.{Extends, HasFewTables};

use jet_base::{OutOfMemory, TableId};
use log_record::{append_byte, append_bytes};
use version_cleanup::{Live, Sessions, Transaction};

/// The greatest count that is written: it has four bytes.
pub(crate) const GREATEST_COUNT: usize = 0xFFFF_FFFF;

/// The most bytes of a session but for its open tables: its label, their count, the count of its levels and its begin.
const SESSION_BYTES: usize = 17;

/// Writes the numbers of tables.
fn put_tables(bytes: &mut Vec<u8>, tables: &[TableId])
    requires { vec_len bytes.old + 4 * length tables.now ≤ vec_capacity bytes.old }
    ensures items { bytes.new.items ≡ bytes.old.items ++ flat_map (to_le_bytes w32) (map (λ id. id.0) tables.now) }
    ensures len { vec_len bytes.new ≡ vec_len bytes.old + 4 * length tables.now }
    ensures room { vec_capacity bytes.old ≤ vec_capacity bytes.new }
{
    for table in tables {
        append_bytes(bytes, &table.0.to_le_bytes());
    }
}

/// Writes a transaction, or that there is none.
fn put_transaction(bytes: &mut Vec<u8>, transaction: Option<Transaction>)
    requires { vec_len bytes.old + 9 ≤ vec_capacity bytes.old }
    ensures { bytes.new.items ≡ bytes.old.items ++ transaction_bytes transaction }
{
    match transaction {
        None => append_byte(bytes, 0),
        Some(transaction) => {
            append_byte(bytes, transaction.levels);
            append_bytes(bytes, &transaction.begin.to_le_bytes());
        }
    }
}

/// Writes a session behind the bytes of a buffer.
fn append_session(session: &Live, into: &mut Vec<u8>) -> Result<(), OutOfMemory>
    ensures ok { OnOk result (into.new.items ≡ into.old.items ++ session_bytes session.now) }
    ensures few { OnOk result (HasFewTables session.now) }
    ensures err { OnErr result (into.new.items ≡ into.old.items) }
{
    let tables = session.open_tables();
    if tables.len() > GREATEST_COUNT {
        return Err(OutOfMemory);
    }
    into.reserve(SESSION_BYTES + 4 * tables.len())?;
    append_bytes(into, &session.label().0.to_le_bytes());
    append_bytes(into, &(tables.len() as u32).to_le_bytes());
    put_tables(into, tables);
    put_transaction(into, session.transaction());
    Ok(())
}

/// Writes the sessions behind the bytes of a buffer, their count before them. Where memory fails, part of them may stand there.
pub(crate) fn append_sessions(sessions: &Sessions, into: &mut Vec<u8>) -> Result<(), OutOfMemory>
    ensures ok { OnOk result (into.new.items ≡ into.old.items ++ (to_le_bytes w32 (length sessions.now) ++ flat_map session_bytes sessions.now)) }
    ensures few { OnOk result (AllByRecursion HasFewTables sessions.now) }
    ensures err { OnErr result (Extends into.old.items into.new.items) }
{
    into.extend_from_slice(&(sessions.len() as u32).to_le_bytes())?;
    for place in 0..sessions.len() {
        append_session(sessions.at(place), into)?;
    }
    Ok(())
}
