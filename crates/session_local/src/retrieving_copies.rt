//! RetrieveColumn from the copy buffer.

ghost use Rattle.std.specs.Prelude.{◌≡◌, ℕ, Some, IsTrue, IfOk};
ghost use Rattle.column_set.specs.RecordValues.{value_fits};
ghost use Rattle.session_local.specs.Outcome.{CallInputs};
ghost use Rattle.session_local.specs.RecordCalls.{retrieve_copy, value_shown};
ghost use Rattle.session_local.specs.Showing.{answered_or, answered_with, HasRoom};
ghost use Rattle.session_local.specs.WellFormed.{is_well_formed_cursor};

use crate::open_cursor::OpenCursor;
use crate::showing::Shown;
use column_set::{Column, column_named};
use jet_base::{Jet, Name};
use record_edit::{is_number_type, number_of};

impl OpenCursor {
    /// The value of a column in the prepared update; for the sequence 0 the count of its values.
    pub(crate) fn copied_value(&self, name: &Name, sequence: u32) -> Result<Shown<'_>, Jet>
        requires { IsTrue (is_well_formed_cursor self.now) }
        ensures answer { (asked : CallInputs) (most : ℕ) → (retrieve_copy asked self.now name.now sequence most).answered ≡ answered_or most result }
        ensures room { IfOk result HasRoom }
    {
        let Some(prepared) = &self.prepared else {
            return Err(Jet::UpdateNotPrepared);
        };
        let Some(column) = column_named(&self.schema.columns, name) else {
            return Err(Jet::ColumnNotFound);
        };
        if sequence == 0 {
            let count = prepared.buffer.count(column.id) as u32;
            return Ok(Shown::Number(i64::from(count)));
        }
        match prepared.buffer.get(column.id, sequence) {
            Some(value) => Ok(shown_value(column, value)),
            None => Err(Jet::ColumnNull),
        }
    }
}

// A value of the column as it is shown: a number as one.
fn shown_value<'a>(column: &Column, value: &'a [u8]) -> Shown<'a>
    requires { IsTrue (value_fits column.now.kind value.now) }
    ensures answer { (asked : CallInputs) (most : ℕ) → (value_shown asked column.now most (Some value.now)).answered ≡ answered_with most result }
    ensures room { HasRoom result }
{
    if is_number_type(column.kind) {
        Shown::Number(number_of(column.kind, value))
    } else {
        Shown::Bytes(value)
    }
}
