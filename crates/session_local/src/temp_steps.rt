//! The calls on temporary tables.

ghost use Rattle.std.specs.Prelude.{◌≡◌, true, IfErr, IsTrue, length};
ghost use Rattle.session_local.specs.Answer.{answered_by};
ghost use Rattle.session_local.specs.BuiltCalls.{is_built_call};
ghost use Rattle.session_local.specs.ChangingTemps.{TempStepsBy};
ghost use Rattle.session_local.specs.LocalCalls.{takes_memory};
ghost use Rattle.session_local.specs.Showing.{names_within, NamesWithin};
ghost use Rattle.session_local.specs.TempCalls.{temp_read};

use crate::answering::{show_value, without_value};
use crate::begun::Begun;
use crate::reply::Reply;
use crate::request::Request;
use jet_base::{CursorId, OutOfMemory};

impl Begun {
    /// Makes a call on temporary tables. Any other call is None, and leaves all as it is.
    pub(crate) fn temp_step(&mut self, request: &Request) -> Result<Option<Reply>, OutOfMemory>
        requires { is_built_call request.now ≡ true }
        ensures step { TempStepsBy self.old request.now result self.new }
        ensures named { NamesWithin result (length self.new.reply) }
        ensures memory { IfErr result (λ _. takes_memory request.now ≡ true) }
    {
        match request {
            Request::TempOpen {
                temp,
                unique,
                columns,
            } => {
                let jet = self.temps.open(*temp, *unique, columns.as_slice())?;
                Ok(Some(without_value(jet)))
            }
            Request::TempPut { temp, values } => {
                let jet = self.temps.put(*temp, values.as_slice())?;
                Ok(Some(without_value(jet)))
            }
            Request::TempMove { temp, way } => {
                Ok(Some(without_value(self.temps.move_to(*temp, *way))))
            }
            Request::TempRead { temp, column } => Ok(Some(self.show_read(*temp, *column))),
            Request::TempCount { temp } => Ok(Some(self.temps.count(*temp))),
            Request::TempClose { temp } => Ok(Some(without_value(self.temps.close(*temp)))),
            _ => Ok(None),
        }
    }

    // Shows a value of the current row of the temporary table with this label.
    fn show_read(&mut self, label: CursorId, column: u8) -> Reply
        ensures shown { temp_read self.old.temps label column ≡ record { answered = answered_by result self.new.reply; temps = self.new.temps } }
        ensures cursors { self.new.cursors ≡ self.old.cursors }
        ensures named { IsTrue (names_within result.value (length self.new.reply)) }
    {
        match self.temps.read(label, column) {
            Ok(value) => show_value(&mut self.reply, value, 255),
            Err(jet) => without_value(jet),
        }
    }
}
