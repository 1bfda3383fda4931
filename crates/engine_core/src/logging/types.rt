//! What the types of the program say of a step.

ghost use Rattle.std.specs.Prelude.{◌≡◌, ◌^◌, true, nat_lt};
ghost use Rattle.engine_core.specs.Steps.{MayTake};
ghost use Rattle.loggable_steps.specs.Loggable.{change_fits_types, fits_types, is_label, is_loggable, made_by};

use crate::types::numbers_fit_their_types;
use column_set::Change;
use engine_parts::Engine;
use index_derive::{EntryKind, Step};
use jet_base::{ColumnId, TableId};
use loggable_steps::lawful_steps_can_be_logged;

/// A step that may be taken, by a session with a label, can be written.
pub(crate) fn the_step_can_be_logged(engine: &Engine, step: &Step)
    requires lawful { MayTake engine.now step.now }
    requires label { is_label (made_by step.now).session.0 ≡ true }
    ensures { is_loggable (made_by step.now) ≡ true }
{
    lawful_steps_can_be_logged();
    match step {
        Step::One(made) => numbers_fit(&made.kind),
        Step::Alone(made) => numbers_fit(&made.kind),
    }
}

fn numbers_fit(kind: &EntryKind)
    ensures { fits_types kind.now ≡ true }
{
    match kind {
        EntryKind::Open(table) | EntryKind::Shut(table) => table_fits(*table),
        EntryKind::Change(change) => change_fits(change),
        EntryKind::Schema(made) => numbers_fit_their_types(made),
        _ => {}
    }
}

fn change_fits(change: &Change)
    ensures { change_fits_types change.now ≡ true }
{
    match change {
        Change::Put { table, values, .. } => {
            table_fits(*table);
            let _ = values.fields();
        }
        Change::Drop { table, .. } | Change::Hold { table, .. } => table_fits(*table),
        Change::Add { table, column, .. } => {
            table_fits(*table);
            column_fits(*column);
        }
    }
}

fn table_fits(table: TableId)
    ensures { nat_lt table.0 (2 ^ 32) ≡ true }
{
    let _ = table.0;
}

fn column_fits(column: ColumnId)
    ensures { nat_lt column.0 (2 ^ 16) ≡ true }
{
    let _ = column.0;
}
