//! Changes of records.

ghost use Rattle.std.specs.Prelude.{◌≡◌, ◌&&◌, ◌||◌, true, IfOk, is_some, nat_le, option_copied, option_map};
ghost use Rattle.column_set.specs.ChangedRecords.{changed_table};
ghost use Rattle.database_state.specs.Lawful.{is_lawful_at, is_lawful_change, log_limit};
ghost use Rattle.database_state.specs.Table.{row_at, table_with_id};
ghost use Rattle.index_derive.specs.Entries.{is_escrow_column};
ghost use Rattle.laws_versions.specs.History.{without_rows};
ghost use Rattle.version_cleanup.specs.Cleaning.{reader_in};
ghost use Rattle.laws_engine.specs.HeldRecords.{has_conflict};
ghost use Rattle.record_decisions.specs.Changing.{is_outside_in};
ghost use Rattle.record_decisions.specs.Updating.{IsSchemaOf};
ghost use Rattle.soft_recovery.specs.LawfulEntries.{HoldsSome, IsTold, rows_in};

use crate::next_entries::puts::lawful_put;
use column_set::Change;
use engine_parts::Engine;
use index_derive::Schema;
use jet_base::{ColumnId, OutOfMemory, Session, TableId};
use jet_catalog::TableDef;
use laws_engine::{
    a_session_is_shown_the_records_of_its_view, conflicts_are_told, sessions_are_told,
    tables_are_told,
};
use record_decisions::has_record;

/// Whether the change of a record may come next: it stands in a transaction, meets no write conflict, and its table takes it.
pub(crate) fn lawful_change(
    engine: &Engine,
    session: Session,
    change: &Change,
) -> Result<bool, OutOfMemory>
    requires held { HoldsSome engine.now }
    requires space { nat_le engine.now.number log_limit ≡ true }
    ensures { IfOk result (IsTold engine.now (λ state. is_lawful_change state session.0 change.now)) }
{
    sessions_are_told();
    conflicts_are_told();
    tables_are_told();
    if is_hindered(engine, session, change) {
        return Ok(false);
    }
    match changed_table(engine, change) {
        Some(table) => lawful_in(engine, session, table.schema(), change),
        None => Ok(false),
    }
}

// The table of the change.
fn changed_table<'a>(engine: &'a Engine, change: &Change) -> Option<&'a TableDef>
    ensures { option_copied result ≡ option_map without_rows (table_with_id engine.now.store.tables (changed_table change.now)) }
{
    engine.tables().by_id(change.table())
}

// Whether the session is outside a transaction, or meets a write conflict.
fn is_hindered(engine: &Engine, session: Session, change: &Change) -> bool
    ensures { result ≡ (is_outside_in engine.now session.0 || has_conflict (reader_in session.0 engine.now.sessions) change.now engine.now.store.held) }
{
    engine.is_outside(session) || engine.tables().conflict(engine.reader(session), change)
}

// Whether the change's table, which has the schema, takes it.
fn lawful_in(
    engine: &Engine,
    session: Session,
    schema: &Schema,
    change: &Change,
) -> Result<bool, OutOfMemory>
    requires held { HoldsSome engine.now }
    requires space { nat_le engine.now.number log_limit ≡ true }
    requires named { IsSchemaOf engine.now (changed_table change.now) schema.now }
    ensures { IfOk result (IsTold engine.now (λ state. is_lawful_at state session.0 (table_with_id state.tables (changed_table change.now)) change.now)) }
{
    match change {
        Change::Put {
            table,
            bookmark,
            copied,
            values,
        } => lawful_put(
            engine,
            session,
            *table,
            schema,
            bookmark.as_bytes(),
            copied,
            values,
        ),
        Change::Drop { table, bookmark } => {
            Ok(sees_record(engine, session, *table, bookmark.as_bytes()))
        }
        Change::Hold { table, bookmark } => {
            Ok(sees_record(engine, session, *table, bookmark.as_bytes()))
        }
        Change::Add {
            table,
            bookmark,
            column,
            amount: _,
        } => Ok(takes_sum(
            engine,
            session,
            *table,
            schema,
            bookmark.as_bytes(),
            *column,
        )),
    }
}

/// Whether the session's view has a record under the bookmark.
pub(crate) fn sees_record(
    engine: &Engine,
    session: Session,
    table: TableId,
    bookmark: &[u8],
) -> bool
    ensures { IsTold engine.now (λ state. is_some (row_at (rows_in state session.0 table.0) bookmark.now)) result }
{
    a_session_is_shown_the_records_of_its_view();
    has_record(engine, session, table, bookmark)
}

// Whether the session's view has a record under the bookmark, to whose column sums may be added.
fn takes_sum(
    engine: &Engine,
    session: Session,
    table: TableId,
    schema: &Schema,
    bookmark: &[u8],
    column: ColumnId,
) -> bool
    ensures { IsTold engine.now (λ state. is_some (row_at (rows_in state session.0 table.0) bookmark.now) && is_escrow_column schema.now column.0) result }
{
    if is_escrow_column(schema, column) {
        sees_record(engine, session, table, bookmark)
    } else {
        false
    }
}

// Whether sums may be added to the column.
fn is_escrow_column(schema: &Schema, column: ColumnId) -> bool
    ensures { result ≡ is_escrow_column schema.now column.0 }
{
    match schema.column_of_id(column) {
        Some(found) => found.escrow,
        None => false,
    }
}
