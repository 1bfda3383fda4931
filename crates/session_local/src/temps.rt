//! The temporary tables of a session.

ghost use Rattle.std.specs.Prelude.{◌≡◌, ◌==◌, ◌<◌, ◌++◌, [], ◌∷◌, true, None, IfOk, IsTrue, List, ℕ, is_some, length};
ghost use Rattle.std.specs.List.{position};
ghost use Rattle.temp_table.specs.TempColumns.{are_temp_columns};
ghost use Rattle.session_local.specs.Answer.{Nothing, answered_by};
ghost use Rattle.session_local.specs.ChangingTemps.{ChangesTemps, read_by};
ghost use Rattle.session_local.specs.Finishing.{temps_with};
ghost use Rattle.session_local.specs.Local.{temp_labelled};
ghost use Rattle.session_local.specs.Showing.{names_within, HasRoom};
ghost use Rattle.session_local.specs.TempCalls.{temp_close, temp_count, temp_move, temp_open, temp_put, temp_read};

use crate::open_temp::OpenTemp;
use crate::putting_rows::put_values;
use crate::reading_rows::value_at;
use crate::reply::{Reply, Value};
use crate::showing::Shown;
use jet_base::{CursorId, Given, Jet, OutOfMemory, Way};
use std::alloc::Global;
use std::marker::Model;
use temp_table::{TempColumn, TempTable};

/// How many temporary tables a session may have open.
pub const MOST_TEMPS: usize = 4;

/// The temporary tables of a session, in the order in which they were opened. They hold no memory of the database's, and no
/// call of another session sees them.
///
/// Contracts see the tables.
#[derive(Debug, Drop)]
pub(crate) struct Temps {
    tables: Vec<OpenTemp>,
    // The bytes of the last row that was put: room for those of the next one.
    bytes: Vec<u8>,
}

impl Model for Temps {
    ghost use Rattle.std.specs.Prelude.{List};
    ghost use Rattle.session_local.specs.declared.open_temp.OpenTemp.{OpenTemp};

    ghost Value = { List OpenTemp };

    ghost use Rattle.session_local.specs.Holding.{HaveTheirRoom};

    ghost view = { λ a. a.tables.items };

    ghost invariant = { HaveTheirRoom };
}

impl Temps {
    /// No table, and the room for four.
    pub(crate) fn take(alloc: Global) -> Result<Temps, OutOfMemory>
        ensures { IfOk result (λ taken. taken ≡ []) }
    {
        let tables = Vec::with_capacity(alloc, MOST_TEMPS)?;
        Ok(Temps {
            tables,
            bytes: Vec::new(alloc),
        })
    }

    // The place of the table with this label.
    fn position(&self, label: CursorId) -> Option<usize>
        ensures { result ≡ position (λ temp. temp.label.0 == label.0) self.now }
    {
        self.tables.iter().position(|temp| temp.label.0 == label.0)
    }

    /// Whether a table has this label.
    pub(crate) fn has(&self, label: CursorId) -> bool
        ensures { result ≡ is_some (temp_labelled self.now label) }
    {
        self.position(label).is_some()
    }

    /// How many tables there are.
    pub(crate) fn len(&self) -> usize
        ensures { result ≡ length self.now }
    {
        self.tables.len()
    }

    /// TempOpen. Where there is no memory nothing changes.
    pub(crate) fn open(
        &mut self,
        label: CursorId,
        unique: bool,
        columns: &[TempColumn],
    ) -> Result<Jet, OutOfMemory>
        requires { are_temp_columns columns.now ≡ true }
        ensures { ChangesTemps self.old (temp_open self.old label unique columns.now) result self.new }
    {
        match self.position(label) {
            Some(_) => Ok(Jet::InvalidTableId),
            None => self.open_new(label, unique, columns),
        }
    }

    // Opens a table whose label is free.
    fn open_new(
        &mut self,
        label: CursorId,
        unique: bool,
        columns: &[TempColumn],
    ) -> Result<Jet, OutOfMemory>
        requires legal { are_temp_columns columns.now ≡ true }
        requires free { position (λ temp. temp.label.0 == label.0) self.old ≡ None }
        ensures { ChangesTemps self.old (temp_open self.old label unique columns.now) result self.new }
    {
        if self.tables.len() >= MOST_TEMPS {
            return Ok(Jet::OutOfCursors);
        }
        let alloc = *self.tables.allocator();
        let columns = Vec::from_slice(alloc, columns)?;
        let table = TempTable::open(alloc, columns, unique)?;
        self.push(OpenTemp { label, table });
        Ok(Jet::Success)
    }

    /// Opens a table that was filled. Nothing changes where the label is taken and where four are open.
    pub(crate) fn add(&mut self, label: CursorId, table: TempTable)
        ensures { self.new ≡ temps_with self.old label table }
    {
        match self.position(label) {
            Some(_) => {}
            None => self.add_new(label, table),
        }
    }

    // Opens a table whose label is free.
    fn add_new(&mut self, label: CursorId, table: TempTable)
        requires { position (λ temp. temp.label.0 == label.0) self.old ≡ None }
        ensures { self.new ≡ temps_with self.old label table }
    {
        if self.tables.len() >= MOST_TEMPS {
            return;
        }
        self.push(OpenTemp { label, table });
    }

    // Puts a table behind the others. There is room for it.
    fn push(&mut self, temp: OpenTemp)
        requires { length self.old < 4 }
        ensures { self.new ≡ self.old ++ temp ∷ [] }
    {
        match self.tables.push(temp) {
            Ok(()) => {}
            Err(_) => unreachable!(),
        }
    }

    /// TempPut. Where there is no memory nothing changes.
    pub(crate) fn put(&mut self, label: CursorId, values: &[Given]) -> Result<Jet, OutOfMemory>
        ensures { ChangesTemps self.old (temp_put self.old label values.now) result self.new }
    {
        let Some(at) = self.position(label) else {
            return Ok(Jet::InvalidTableId);
        };
        let temp = &mut self.tables[at];
        put_values(&mut temp.table, &mut self.bytes, values)
    }

    /// TempMove.
    pub(crate) fn move_to(&mut self, label: CursorId, way: Way) -> Jet
        ensures { temp_move self.old label way ≡ record { answered = record { jet = result; shown = Nothing }; temps = self.new } }
    {
        let Some(at) = self.position(label) else {
            return Jet::InvalidTableId;
        };
        let temp = &mut self.tables[at];
        if temp.table.move_to(way) {
            Jet::Success
        } else {
            Jet::NoCurrentRecord
        }
    }

    /// TempRead: a value of the current row, whose columns are counted from 1.
    pub(crate) fn read(&self, label: CursorId, column: u8) -> Result<Shown<'_>, Jet>
        ensures answer { temp_read self.now label column ≡ record { answered = read_by result; temps = self.now } }
        ensures room { IfOk result HasRoom }
    {
        match self.position(label) {
            Some(at) => value_at(&self.tables[at].table, column),
            None => Err(Jet::InvalidTableId),
        }
    }

    /// TempCount.
    pub(crate) fn count(&self, label: CursorId) -> Reply
        ensures answer { (buffer : List ℕ) → temp_count self.now label ≡ record { answered = answered_by result buffer; temps = self.now } }
        ensures named { (most : ℕ) → IsTrue (names_within result.value most) }
    {
        match self.position(label) {
            Some(at) => Reply {
                jet: Jet::Success,
                value: Value::Count(self.tables[at].table.count()),
            },
            None => Reply {
                jet: Jet::InvalidTableId,
                value: Value::Nothing,
            },
        }
    }

    /// TempClose. The table gives its memory up.
    pub(crate) fn close(&mut self, label: CursorId) -> Jet
        ensures { temp_close self.old label ≡ record { answered = record { jet = result; shown = Nothing }; temps = self.new } }
    {
        let Some(at) = self.position(label) else {
            return Jet::InvalidTableId;
        };
        let _ = self.tables.remove(at);
        Jet::Success
    }
}
