//! SetColumn.

ghost use Rattle.std.specs.Prelude.{◌≡◌, Some};
ghost use Rattle.session_local.specs.Changing.{value_set_at, ChangesTo};
ghost use Rattle.session_local.specs.Local.{OpenCursor};
ghost use Rattle.session_local.specs.Preparing.{update_of};

use crate::open_cursor::OpenCursor;
use crate::prepared::Prepared;
use jet_base::{Given, Jet, Name, OutOfMemory};
use record_edit::EditFault;

impl OpenCursor {
    /// Sets a value of a column in the prepared update. Where there is no memory nothing changes.
    pub(crate) fn set_column(
        &mut self,
        name: &Name,
        sequence: u32,
        value: &Given,
    ) -> Result<Jet, OutOfMemory>
        ensures { ChangesTo self.old (value_set_at self.old name.now sequence value.now) result self.new }
    {
        let Some(prepared) = &mut self.prepared else {
            return Ok(Jet::UpdateNotPrepared);
        };
        prepared.set_named(name, sequence, value)
    }
}

impl Prepared {
    // Sets a value of a column of the table.
    fn set_named(&mut self, name: &Name, sequence: u32, value: &Given) -> Result<Jet, OutOfMemory>
        ensures set { (c : OpenCursor) → c.schema.columns ≡ self.old.buffer.columns → ChangesTo (record c { prepared = Some (update_of self.old) }) (value_set_at (record c { prepared = Some (update_of self.old) }) name.now sequence value.now) result (record c { prepared = Some (update_of self.new) }) }
        ensures columns { self.new.buffer.columns ≡ self.old.buffer.columns }
    {
        match self.buffer.set_named(name, sequence, value) {
            Ok(()) => Ok(Jet::Success),
            Err(EditFault::Refused(refusal)) => Ok(refusal),
            Err(EditFault::OutOfMemory) => Err(OutOfMemory),
        }
    }
}
