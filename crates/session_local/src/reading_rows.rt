//! Values of the current row of a temporary table.

ghost use Rattle.std.specs.Prelude.{◌≡◌, Some, IfOk, IsTrue};
ghost use Rattle.column_set.specs.RecordValues.{value_fits};
ghost use Rattle.session_local.specs.ChangingTemps.{read_by};
ghost use Rattle.session_local.specs.Showing.{answered_with, HasRoom};
ghost use Rattle.session_local.specs.TempCalls.{row_read, value_read};

use crate::showing::Shown;
use jet_base::{ColType, Jet};
use record_edit::{is_number_type, number_of};
use temp_table::TempTable;

/// The value of the current row in a column, which is counted from 1.
pub(crate) fn value_at(table: &TempTable, column: u8) -> Result<Shown<'_>, Jet>
    ensures answer { read_by result ≡ row_read table.now column }
    ensures room { IfOk result HasRoom }
{
    if !table.is_on() {
        return Err(Jet::NoCurrentRecord);
    }
    if column == 0 {
        return Err(Jet::ColumnNotFound);
    }
    let at = usize::from(column) - 1;
    match table.columns().get(at) {
        Some(found) => match table.read(at) {
            Some(value) => Ok(shown(found.kind, value)),
            None => Err(Jet::ColumnNull),
        },
        None => Err(Jet::ColumnNotFound),
    }
}

// A value of the type as it is shown: a number as one.
fn shown(kind: ColType, value: &[u8]) -> Shown<'_>
    requires { IsTrue (value_fits kind value.now) }
    ensures answer { answered_with 255 result ≡ value_read kind (Some value.now) }
    ensures room { HasRoom result }
{
    if is_number_type(kind) {
        Shown::Number(number_of(kind, value))
    } else {
        Shown::Bytes(value)
    }
}
