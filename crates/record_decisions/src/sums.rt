//! Sums in records that are copied: as the session sees them, or at 0.

ghost use Rattle.std.specs.Prelude.{◌≡◌, ◌∷◌, [], ℕ, true, IfOk, OnOk};
ghost use Rattle.column_set.specs.RecordValues.{values_of, with_values};
ghost use Rattle.index_derive.specs.Entries.{is_escrow_column};
ghost use Rattle.session_local.specs.RecordCalls.{with_sums_at_zero};
ghost use Rattle.engine_parts.specs.Reading.{IsRowAt};
ghost use Rattle.record_decisions.specs.Preparing.{IsCopiedAs, values_seen};

use crate::changing::bookmark_at;
use crate::preparing::record_of_row;
use column_set::{Column, Record};
use engine_parts::Engine;
use jet_base::{ColumnId, Octets, OutOfMemory, Session};
use session_local::OpenCursor;
use std::alloc::Global;
use table_trees::ShownRow;

/// The record that the session sees at the cursor, given the one that it is shown: a copy of it, without the sums of others
/// that the session does not see.
pub(crate) fn record_seen(
    engine: &Engine,
    session: Session,
    found: &OpenCursor,
    row: &ShownRow<'_>,
) -> Result<Record, OutOfMemory>
    requires { IsCopiedAs engine.now session.0 found.now row.now }
    ensures { IfOk result (λ made. made ≡ values_seen engine.now session.0 found.now) }
{
    let columns = found.schema().columns.as_slice();
    let mut made = record_of_row(engine.alloc, columns, row)?;
    for column in columns {
        if column.escrow {
            put_sum(engine, session, found, row, column.id, &mut made)?;
        }
    }
    // Its columns rise.
    let _fields = made.fields();
    Ok(made)
}

// Puts the number in an escrow column as the session sees it.
fn put_sum(
    engine: &Engine,
    session: Session,
    found: &OpenCursor,
    row: &ShownRow<'_>,
    column: ColumnId,
    made: &mut Record,
) -> Result<(), OutOfMemory>
    requires row { IsRowAt engine.now session.0 found.now row.now }
    requires sum { is_escrow_column found.now.schema column.0 ≡ true }
    ensures { OnOk result (made.new ≡ with_values made.old column.0 (values_of (values_seen engine.now session.0 found.now) column.0)) }
{
    let table = found.cursor().table();
    let number = engine.seen_sum(session, table, bookmark_at(found), row, column);
    match Octets::from_slice(engine.alloc, &number.to_le_bytes()) {
        Ok(value) => made.set_only_value(column, value),
        Err(fault) => Err(fault),
    }
}

/// The record with its sums at 0.
pub(crate) fn with_sums_at_zero(
    alloc: Global,
    columns: &[Column],
    values: Record,
) -> Result<Record, OutOfMemory>
    ensures { IfOk result (λ made. made ≡ with_sums_at_zero columns.now values) }
{
    let mut made = values;
    for column in columns {
        if column.escrow {
            let zero = Octets::from_slice(alloc, &[0; 4])?;
            made.set_only_value(column.id, zero)?;
        }
    }
    Ok(made)
}
