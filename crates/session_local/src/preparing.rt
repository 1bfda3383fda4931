//! PrepareUpdate `insert` and `cancel`.

ghost use Rattle.std.specs.Prelude.{◌≡◌, [], IfErr, IfOk};
ghost use Rattle.jet_base.specs.declared.words.Prepare.TheVariants as prepare;
ghost use Rattle.session_local.specs.RecordCalls.{with_sums_at_zero};
ghost use Rattle.session_local.specs.Changing.{cursor_after, insert_prepared_at, update_cancelled_at, update_prepared_at, ChangesTo};

use crate::open_cursor::OpenCursor;
use crate::prepared::{Prepared, Purpose};
use column_set::{Column, Record};
use jet_base::{Jet, Octets, OutOfMemory, Prepare};
use record_edit::CopyBuffer;
use std::alloc::Global;

impl OpenCursor {
    /// Prepares an insert or lets the prepared update go. The other ways to prepare one leave all as it is.
    pub(crate) fn prepare_by(&mut self, alloc: Global, how: Prepare) -> Result<Jet, OutOfMemory>
        ensures change { ChangesTo self.old (update_prepared_at self.old how) result self.new }
        ensures memory { IfErr result (λ _. how ≡ prepare.Insert) }
    {
        match how {
            Prepare::Insert => self.prepare_insert(alloc),
            Prepare::Cancel => Ok(self.cancel_update()),
            Prepare::InsertCopy | Prepare::Replace => Ok(Jet::Success),
        }
    }

    // Prepares the insert of a record that has its sums alone. Where there is no memory nothing changes.
    fn prepare_insert(&mut self, alloc: Global) -> Result<Jet, OutOfMemory>
        ensures { ChangesTo self.old (insert_prepared_at self.old) result self.new }
    {
        if self.prepared.is_some() {
            return Ok(Jet::AlreadyPrepared);
        }
        let values = with_sums_at_zero(alloc, self.schema.columns.as_slice())?;
        let buffer = CopyBuffer::new(alloc, &self.schema.columns, values)?;
        self.prepared = Some(Prepared {
            purpose: Purpose::Insert(None),
            buffer,
        });
        Ok(Jet::Success)
    }

    // Lets the prepared update go.
    fn cancel_update(&mut self) -> Jet
        ensures jet { result ≡ (update_cancelled_at self.old).jet }
        ensures cursor { self.new ≡ cursor_after self.old (update_cancelled_at self.old) }
    {
        if self.prepared.is_none() {
            return Jet::UpdateNotPrepared;
        }
        self.prepared = None;
        Jet::Success
    }
}

// The record that has its sums alone, which begin at 0.
fn with_sums_at_zero(alloc: Global, columns: &[Column]) -> Result<Record, OutOfMemory>
    ensures { IfOk result (λ made. made ≡ with_sums_at_zero columns.now []) }
{
    let mut values = Record::with_room(alloc, columns.len());
    for column in columns {
        if column.escrow {
            let zero = Octets::from_slice(alloc, &[0; 4])?;
            values.set_only_value(column.id, zero)?;
        }
    }
    Ok(values)
}
