//! Puts of records.

ghost use Rattle.std.specs.Prelude.{◌≡◌, ◌+◌, ◌||◌, true, None, IfOk, bytes_eq, is_some, nat_le, option_copied};
ghost use Rattle.jet_base.specs.ColumnType.{big_endian};
ghost use Rattle.column_set.specs.RecordValues.{RecordFields};
ghost use Rattle.column_set.specs.Refusals.{first_refusal};
ghost use Rattle.database_state.specs.Lawful.{has_free_keys, is_bookmark_of, is_copied_in, log_limit};
ghost use Rattle.database_state.specs.Puts.{null_refusals};
ghost use Rattle.database_state.specs.Table.{row_at};
ghost use Rattle.index_derive.specs.Schemas.{primary_rule};
ghost use Rattle.index_derive.specs.declared.rules.Schema.{Schema};
ghost use Rattle.record_decisions.specs.Updating.{HasLegalRules, IsSchemaOf, own_key};
ghost use Rattle.soft_recovery.specs.LawfulEntries.{HoldsSome, IsTold, is_lawful_put_in, is_placed_in, is_storable_in, rows_in};

use crate::next_entries::changes::sees_record;
use crate::next_entries::laws::new_keys_are_free;
use crate::next_entries::sums::keeps_escrow;
use column_set::{Bookmark, MAX_ROW_SIZE, Record, record_fits};
use engine_parts::Engine;
use index_derive::{Schema, primary_key};
use jet_base::{OutOfMemory, Session, TableId};
use key_normal::Key;
use record_decisions::{is_missing_a_value, keys_refusal, null_refusal};

/// Whether a table of the schema takes the put of a record under a bookmark. It takes memory only where an index disallows
/// something.
pub(crate) fn lawful_put(
    engine: &Engine,
    session: Session,
    table: TableId,
    schema: &Schema,
    bookmark: &[u8],
    copied: &Option<Bookmark>,
    values: &Record,
) -> Result<bool, OutOfMemory>
    requires held { HoldsSome engine.now }
    requires space { nat_le engine.now.number log_limit ≡ true }
    requires named { IsSchemaOf engine.now table.0 schema.now }
    ensures { IfOk result (IsTold engine.now (λ state. is_lawful_put_in state session.0 table.0 schema.now bookmark.now copied.now values.now)) }
{
    engine.tables().rules_are_legal();
    if !is_storable(schema, values) {
        return Ok(false);
    }
    match null_refusal(engine.alloc, schema, values) {
        Ok(None) => Ok(has_its_place(engine, session, table, schema, bookmark, copied, values)),
        Ok(Some(_)) => Ok(false),
        Err(fault) => Err(fault),
    }
}

// Whether the record fits the columns, lacks no value that must be there, and has room in a row.
fn is_storable(schema: &Schema, values: &Record) -> bool
    ensures { result ≡ is_storable_in schema.now values.now }
{
    record_fits(schema.columns.as_slice(), values)
        && !is_missing_a_value(schema, values)
        && values.size() <= MAX_ROW_SIZE
}

// Whether the record may stand under the bookmark. Its key in the primary index is made once.
fn has_its_place(
    engine: &Engine,
    session: Session,
    table: TableId,
    schema: &Schema,
    bookmark: &[u8],
    copied: &Option<Bookmark>,
    values: &Record,
) -> bool
    requires held { HoldsSome engine.now }
    requires space { nat_le engine.now.number log_limit ≡ true }
    requires named { IsSchemaOf engine.now table.0 schema.now }
    requires rules { HasLegalRules schema.now }
    requires taken { first_refusal (null_refusals schema.now values.now) ≡ None }
    ensures { IsTold engine.now (λ state. is_placed_in state session.0 table.0 schema.now bookmark.now copied.now values.now) result }
{
    match schema.primary_rule() {
        Some(rule) => {
            let key = primary_key(rule, schema, values);
            has_its_place_by(
                engine,
                session,
                table,
                schema,
                bookmark,
                copied,
                values,
                Some(&key),
            )
        }
        None => has_its_place_by(
            engine, session, table, schema, bookmark, copied, values, None,
        ),
    }
}

// The same, with the key.
fn has_its_place_by(
    engine: &Engine,
    session: Session,
    table: TableId,
    schema: &Schema,
    bookmark: &[u8],
    copied: &Option<Bookmark>,
    values: &Record,
    key: Option<&Key>,
) -> bool
    requires held { HoldsSome engine.now }
    requires space { nat_le engine.now.number log_limit ≡ true }
    requires named { IsSchemaOf engine.now table.0 schema.now }
    requires rules { HasLegalRules schema.now }
    requires taken { first_refusal (null_refusals schema.now values.now) ≡ None }
    requires key { option_copied key ≡ own_key schema.now values.now }
    ensures { IsTold engine.now (λ state. is_placed_in state session.0 table.0 schema.now bookmark.now copied.now values.now) result }
{
    if !has_free_keys(engine, session, table, schema, bookmark, values, key) {
        return false;
    }
    if !is_bookmark_of(engine, session, table, bookmark, key) {
        return false;
    }
    if !keeps_escrow(engine, session, table, schema, bookmark, values) {
        return false;
    }
    is_copied_in(engine, session, table, copied)
}

// Whether each key of a unique index that is new to the record is free. The keys that the record under the bookmark has in the
// session's view are asked too, which no other record can have.
fn has_free_keys(
    engine: &Engine,
    session: Session,
    table: TableId,
    schema: &Schema,
    bookmark: &[u8],
    values: &Record,
    key: Option<&Key>,
) -> bool
    requires named { IsSchemaOf engine.now table.0 schema.now }
    requires rules { HasLegalRules schema.now }
    requires taken { first_refusal (null_refusals schema.now values.now) ≡ None }
    requires key { option_copied key ≡ own_key schema.now values.now }
    ensures { IsTold engine.now (λ state. has_free_keys state session.0 table.0 schema.now (rows_in state session.0 table.0) bookmark.now values.now) result }
{
    new_keys_are_free();
    keys_refusal(engine, session, table, schema, Some(bookmark), values, key).is_none()
}

// Whether the bookmark is the record's key in the primary index, or, where there is none, that of a record of the session's view
// or the number of the entry.
fn is_bookmark_of(
    engine: &Engine,
    session: Session,
    table: TableId,
    bookmark: &[u8],
    key: Option<&Key>,
) -> bool
    requires space { nat_le engine.now.number log_limit ≡ true }
    ensures { (schema : Schema) (values : RecordFields) → option_copied key.entry ≡ own_key schema values → IsTold engine.now (λ state. is_bookmark_of (state.number + 1) schema (rows_in state session.0 table.0) (primary_rule schema) bookmark.now values) result }
{
    match key {
        Some(key) => is_key(bookmark, key),
        None => is_hidden_key(engine, session, table, bookmark),
    }
}

// Whether the bookmark has the bytes of the key.
fn is_key(bookmark: &[u8], key: &Key) -> bool
    ensures { result ≡ bytes_eq bookmark.now key.now }
{
    bookmark == key.as_bytes()
}

// Whether the bookmark is that of a record of the session's view, or the number of the entry.
fn is_hidden_key(engine: &Engine, session: Session, table: TableId, bookmark: &[u8]) -> bool
    requires space { nat_le engine.now.number log_limit ≡ true }
    ensures { IsTold engine.now (λ state. is_some (row_at (rows_in state session.0 table.0) bookmark.now) || bytes_eq bookmark.now (big_endian 8 (state.number + 1))) result }
{
    if sees_record(engine, session, table, bookmark) {
        return true;
    }
    is_next_number(engine, bookmark)
}

// Whether the bookmark is the number of the next entry, in 8 bytes big-endian.
fn is_next_number(engine: &Engine, bookmark: &[u8]) -> bool
    requires space { nat_le engine.now.number log_limit ≡ true }
    ensures { result ≡ bytes_eq bookmark.now (big_endian 8 (engine.now.number + 1)) }
{
    let next = engine.number() + 1;
    bookmark == next.to_be_bytes().as_slice()
}

// Whether the session's view has the record that the put was copied from, if it was.
fn is_copied_in(
    engine: &Engine,
    session: Session,
    table: TableId,
    copied: &Option<Bookmark>,
) -> bool
    ensures { IsTold engine.now (λ state. is_copied_in (rows_in state session.0 table.0) copied.now) result }
{
    match copied {
        Some(bookmark) => sees_record(engine, session, table, bookmark.as_bytes()),
        None => true,
    }
}
