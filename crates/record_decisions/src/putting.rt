//! What a prepared update puts.

ghost use Rattle.std.specs.Prelude.{◌≡◌, false, IfOk, is_some, nat_le, option_copied, unwrap_or};
ghost use Rattle.jet_base.specs.ColumnType.{big_endian};
ghost use Rattle.database_state.specs.Lawful.{log_limit};
ghost use Rattle.session_local.specs.Preparing.{for_of, update_of};
ghost use Rattle.engine_parts.specs.Reading.{shown_for};
ghost use Rattle.record_decisions.specs.Updating.{bookmark_by, copied_by, number_of_change, own_key, put_by};

use column_set::{Bookmark, Change};
use engine_parts::Engine;
use index_derive::Schema;
use jet_base::{OutOfMemory, Session, TableId};
use key_normal::Key;
use session_local::{OpenCursor, Prepared, Purpose};
use std::alloc::Global;

/// The put of a prepared update, whose values are copied.
pub(crate) fn put_by(
    engine: &Engine,
    session: Session,
    found: &OpenCursor,
    prepared: &Prepared,
    key: Option<&Key>,
) -> Result<Change, OutOfMemory>
    requires key { option_copied key ≡ own_key found.now.schema prepared.now.buffer.fields }
    requires space { nat_le log_limit engine.now.number ≡ false }
    ensures { IfOk result (λ made. made ≡ put_by engine.now session.0 found.now (update_of prepared.now)) }
{
    let table = found.cursor().table();
    let bookmark = match bookmark_by(engine, session, found.schema(), prepared, key) {
        Ok(bookmark) => bookmark,
        Err(fault) => return Err(fault),
    };
    let copied = match copied_by(engine, session, table, &prepared.purpose) {
        Ok(copied) => copied,
        Err(fault) => return Err(fault),
    };
    match prepared.buffer.values().copy() {
        Ok(values) => Ok(Change::Put {
            table,
            bookmark,
            copied,
            values,
        }),
        Err(fault) => Err(fault),
    }
}

// The bookmark under which a prepared update puts.
fn bookmark_by(
    engine: &Engine,
    session: Session,
    schema: &Schema,
    prepared: &Prepared,
    key: Option<&Key>,
) -> Result<Bookmark, OutOfMemory>
    requires key { option_copied key ≡ own_key schema.now prepared.now.buffer.fields }
    requires space { nat_le log_limit engine.now.number ≡ false }
    ensures { IfOk result (λ bookmark. bookmark ≡ bookmark_by engine.now session.0 schema.now (for_of prepared.now.purpose) prepared.now.buffer.fields) }
{
    match &prepared.purpose {
        Purpose::Insert(_) => {
            let number = number_of_change(engine, session);
            new_bookmark(engine.alloc, number, key)
        }
        Purpose::Replace(bookmark) => bookmark.copy(),
    }
}

// The bookmark of a new record, which the entry of this number inserts: its key in the primary index, if there is one.
fn new_bookmark(alloc: Global, number: u64, key: Option<&Key>) -> Result<Bookmark, OutOfMemory>
    ensures { IfOk result (λ bookmark. bookmark ≡ unwrap_or (option_copied key.entry) (big_endian 8 number)) }
{
    match key {
        Some(key) => Bookmark::from_slice(alloc, key.as_bytes()),
        None => Bookmark::from_slice(alloc, &number.to_be_bytes()),
    }
}

// The number of the entry that a change will be: outside a transaction its begin comes before it.
fn number_of_change(engine: &Engine, session: Session) -> u64
    requires { nat_le log_limit engine.now.number ≡ false }
    ensures { result ≡ number_of_change engine.now session.0 }
{
    if engine.is_outside(session) {
        engine.number() + 2
    } else {
        engine.number() + 1
    }
}

// The bookmark of the record that an insert was copied from, where the session still sees it.
fn copied_by(
    engine: &Engine,
    session: Session,
    table: TableId,
    purpose: &Purpose,
) -> Result<Option<Bookmark>, OutOfMemory>
    ensures { IfOk result (λ copied. copied ≡ copied_by engine.now session.0 table.0 (for_of purpose.now)) }
{
    match purpose {
        Purpose::Insert(Some(bookmark)) => {
            if has_record(engine, session, table, bookmark.as_bytes()) {
                match bookmark.copy() {
                    Ok(copied) => Ok(Some(copied)),
                    Err(fault) => Err(fault),
                }
            } else {
                Ok(None)
            }
        }
        Purpose::Insert(None) | Purpose::Replace(_) => Ok(None),
    }
}

/// Whether the session sees a record under the bookmark. It takes no memory.
pub fn has_record(engine: &Engine, session: Session, table: TableId, bookmark: &[u8]) -> bool
    ensures { result ≡ is_some (shown_for engine.now session.0 table.0 bookmark.now) }
{
    let reader = engine.reader(session);
    engine.tables().look_up(table, bookmark, reader).is_some()
}
