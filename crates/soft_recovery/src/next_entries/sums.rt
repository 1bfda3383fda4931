//! Sums in records that are put.

ghost use Rattle.std.specs.Prelude.{◌≡◌, true, None, bytes_eq};
ghost use Rattle.std.specs.Int.{w32, cast_unsigned, to_le_bytes};
ghost use Rattle.database_state.specs.Changes.{escrow_bytes};
ghost use Rattle.database_state.specs.Lawful.{keeps_escrow};
ghost use Rattle.database_state.specs.Table.{row_at};
ghost use Rattle.laws_versions.specs.EscrowNumbers.{holds_number};
ghost use Rattle.engine_parts.specs.Reading.{shown_for};
ghost use Rattle.record_decisions.specs.Updating.{IsSchemaOf};
ghost use Rattle.soft_recovery.specs.LawfulEntries.{HoldsSome, IsTold, rows_in};
ghost use Rattle.soft_recovery.specs.ShownSums.{HoldsSums, keeps_column, keeps_shown};

use crate::next_entries::laws::shown_sums_are_those_of_the_view;
use column_set::{Column, Record, Values};
use engine_parts::Engine;
use index_derive::Schema;
use jet_base::{ColumnId, Session, TableId};
use table_trees::ShownRow;

// The bytes of the number in an escrow column that has no value.
const ZERO: [u8; 4] = [0; 4];

/// Whether the escrow columns of a record that is put have the numbers that the session sees there under the bookmark, or 0 where
/// it sees no record.
pub(crate) fn keeps_escrow(
    engine: &Engine,
    session: Session,
    table: TableId,
    schema: &Schema,
    bookmark: &[u8],
    values: &Record,
) -> bool
    requires held { HoldsSome engine.now }
    requires named { IsSchemaOf engine.now table.0 schema.now }
    ensures { IsTold engine.now (λ state. keeps_escrow schema.now.columns (row_at (rows_in state session.0 table.0) bookmark.now) values.now) result }
{
    shown_sums_are_those_of_the_view();
    match shown_row(engine, session, table, bookmark) {
        Some(row) => keeps_shown(engine, session, table, schema, bookmark, &row, values),
        None => has_sums_at_zero(schema, values),
    }
}

// The row of the record under the bookmark that the session is shown.
fn shown_row<'a>(
    engine: &'a Engine,
    session: Session,
    table: TableId,
    bookmark: &[u8],
) -> Option<ShownRow<'a>>
    ensures { result ≡ shown_for engine.now session.0 table.0 bookmark.now }
{
    let reader = engine.reader(session);
    engine.tables().look_up(table, bookmark, reader)
}

// Whether the escrow columns have the numbers that the session sees in the record, whose row it is shown.
fn keeps_shown(
    engine: &Engine,
    session: Session,
    table: TableId,
    schema: &Schema,
    bookmark: &[u8],
    row: &ShownRow<'_>,
    values: &Record,
) -> bool
    requires sums { HoldsSums schema.now.columns row.now }
    ensures { result ≡ keeps_shown engine.now session.0 table.0 bookmark.now row.now schema.now.columns values.now }
{
    for column in schema.columns.as_slice() {
        if !keeps_column(engine, session, table, bookmark, row, column, values) {
            return false;
        }
    }
    true
}

// The same of one column, where it is an escrow column.
fn keeps_column(
    engine: &Engine,
    session: Session,
    table: TableId,
    bookmark: &[u8],
    row: &ShownRow<'_>,
    column: &Column,
    values: &Record,
) -> bool
    requires sum { column.now.escrow ≡ true → holds_number row.now column.now.id.0 ≡ true }
    ensures { result ≡ keeps_column engine.now session.0 table.0 bookmark.now row.now values.now column.now }
{
    if !column.escrow {
        return true;
    }
    let seen = engine.seen_sum(session, table, bookmark, row, column.id);
    has_sum(values, column.id, seen)
}

// Whether the escrow columns are at 0.
fn has_sums_at_zero(schema: &Schema, values: &Record) -> bool
    ensures { result ≡ keeps_escrow schema.now.columns None values.now }
{
    schema
        .columns
        .as_slice()
        .iter()
        .all(|column| !column.escrow || has_sum(values, column.id, 0))
}

// Whether the column has the bytes of the number, which is 0 where it has no value.
fn has_sum(values: &Record, column: ColumnId, number: i32) -> bool
    ensures { result ≡ bytes_eq (escrow_bytes values.now column.0) (to_le_bytes w32 (cast_unsigned w32 number)) }
{
    let sum = number.to_le_bytes();
    match values.value(column, 0) {
        Some(bytes) => bytes == sum.as_slice(),
        None => ZERO.as_slice() == sum.as_slice(),
    }
}
