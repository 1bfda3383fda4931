//! Records: the values that a row of a table has.

ghost use Rattle.std.specs.Prelude.{◌≡◌, ◌+◌, ◌-◌, ◌^◌, ◌<◌, ◌≤◌, List, ℕ, [], ◌∷◌, ◌++◌, length, min, remove, slice_get, slice_index_or, slice_set, IfOk, IsTrue, MatchOption, if◌then◌else◌, is_ok, option_copied};
ghost use Rattle.column_set.specs.Reading.{IsFront};
ghost use Rattle.column_set.specs.Record.{is_record};
ghost use Rattle.column_set.specs.RecordValues.{values_of, with_values, record_size, size_of_values};

use crate::field_list::{COUNT_SIZE, FieldList};
use crate::fields::Field;
use crate::values::Values;
use jet_base::{ColumnId, Octets, OutOfMemory};
use std::alloc::Global;
use std::marker::Model;
use std::sync::Arc;

// How many columns a record of a table that is not known makes room for.
const FEW_COLUMNS: usize = 4;

/// A record: for each column that has a value, by rising number, its values in their order.
///
/// A column without a value, which is NULL, does not stand in it. Copies share their values until one of them changes.
#[derive(Debug, Drop)]
pub struct Record {
    alloc: Global,
    // How many columns its first value makes room for.
    room: usize,
    // None where no column ever had a value.
    shared: Option<Arc<FieldList>>,
}

impl Model for Record {
    ghost use Rattle.std.specs.Prelude.{List, ℕ};

    ghost Value = { List (ℕ × List (List ℕ)) };

    ghost use Rattle.column_set.specs.Shared.{record_fields};

    ghost view = { record_fields };
}

impl Record {
    /// The record without a value. It takes no memory.
    pub fn new(alloc: Global) -> Record
        ensures { result ≡ [] }
    {
        Record::with_room(alloc, FEW_COLUMNS)
    }

    /// The record without a value, whose first value takes the room for this many columns at once. It takes no memory.
    pub fn with_room(alloc: Global, columns: usize) -> Record
        ensures { result ≡ [] }
    {
        Record {
            alloc,
            room: columns,
            shared: None,
        }
    }

    /// Another record of the same values, which the two share.
    pub fn copy(&self) -> Result<Record, OutOfMemory>
        ensures { IfOk result (λ made. made ≡ self.now) }
    {
        match &self.shared {
            Some(shared) => match shared.clone() {
                Ok(shared) => Ok(Record {
                    alloc: self.alloc,
                    room: self.room,
                    shared: Some(shared),
                }),
                Err(_) => Err(OutOfMemory),
            },
            None => Ok(Record::new(self.alloc)),
        }
    }

    /// The values of the column, none where it is NULL. The record with them is the record itself.
    pub fn values(&self, column: ColumnId) -> &[Octets]
        ensures values { result.now ≡ values_of self.now column.0 }
        ensures same { with_values self.now column.0 (values_of self.now column.0) ≡ self.now }
    {
        match &self.shared {
            Some(shared) => shared.values(column),
            None => &[],
        }
    }

    /// The columns that have a value, by rising number, each with its values in their order.
    pub fn fields(&self) -> &[Field]
        ensures fields { result.now ≡ self.now }
        ensures formed { IsTrue (is_record self.now) }
    {
        match &self.shared {
            Some(shared) => shared.fields(),
            None => &[],
        }
    }

    /// The in-page size of the record, in bytes: its row is refused where that is more than 1,700. Past the largest
    /// number it is that number.
    pub fn size(&self) -> usize
        ensures { result ≡ min (record_size self.now) (2 ^ 64 - 1) }
    {
        match &self.shared {
            Some(shared) => shared.size(),
            None => COUNT_SIZE,
        }
    }

    /// The size that the record has without the values of the column. With other values there it has their room on
    /// top.
    pub fn size_without(&self, column: ColumnId) -> usize
        ensures size { result ≡ min (record_size (with_values self.now column.0 [])) (2 ^ 64 - 1) }
        ensures room { (values : List (List ℕ)) → record_size (with_values self.now column.0 values) ≡ record_size (with_values self.now column.0 []) + size_of_values values }
    {
        match &self.shared {
            Some(shared) => shared.size_without(column),
            None => COUNT_SIZE,
        }
    }

    /// Puts the value in the place of another of the column. Places are counted from 0. Where there is no memory all stays.
    pub fn set_value(
        &mut self,
        column: ColumnId,
        at: usize,
        value: Octets,
    ) -> Result<(), OutOfMemory>
        requires { at < length (values_of self.old column.0) }
        ensures { self.new ≡ (if is_ok result then with_values self.old column.0 (slice_set (values_of self.old column.0) at value) else self.old) }
    {
        match &mut self.shared {
            Some(shared) => match Arc::make_mut(shared) {
                Ok(fields) => {
                    fields.set_value(column, at, value);
                    Ok(())
                }
                Err(_) => Err(OutOfMemory),
            },
            None => unreachable!(),
        }
    }

    /// Puts the value in the place of all values of the column. Where there is no memory all stays.
    #[inline(always)]
    pub fn set_only_value(&mut self, column: ColumnId, value: Octets) -> Result<(), OutOfMemory>
        ensures { self.new ≡ (if is_ok result then with_values self.old column.0 (value ∷ []) else self.old) }
    {
        match &mut self.shared {
            Some(shared) => match Arc::make_mut(shared) {
                Ok(fields) => fields.set_only_value(column, value),
                Err(_) => Err(OutOfMemory),
            },
            None => self.begin(column, value),
        }
    }

    /// Puts one more value behind those of the column. Where there is no memory all stays.
    pub fn push_value(&mut self, column: ColumnId, value: Octets) -> Result<(), OutOfMemory>
        ensures { self.new ≡ (if is_ok result then with_values self.old column.0 (values_of self.old column.0 ++ value ∷ []) else self.old) }
    {
        match &mut self.shared {
            Some(shared) => match Arc::make_mut(shared) {
                Ok(fields) => fields.push_value(column, value),
                Err(_) => Err(OutOfMemory),
            },
            None => self.begin(column, value),
        }
    }

    /// Takes a value of the column out, and the later ones close up. Places are counted from 0. Where there is no memory all
    /// stays.
    pub fn remove_value(&mut self, column: ColumnId, at: usize) -> Result<(), OutOfMemory>
        requires { at < length (values_of self.old column.0) }
        ensures { self.new ≡ (if is_ok result then with_values self.old column.0 (remove (values_of self.old column.0) at) else self.old) }
    {
        match &mut self.shared {
            Some(shared) => match Arc::make_mut(shared) {
                Ok(fields) => {
                    fields.remove_value(column, at);
                    Ok(())
                }
                Err(_) => Err(OutOfMemory),
            },
            None => unreachable!(),
        }
    }

    /// Takes all values of the column out, so that it is NULL. Where there is no memory all stays.
    pub fn clear(&mut self, column: ColumnId) -> Result<(), OutOfMemory>
        ensures { self.new ≡ (if is_ok result then with_values self.old column.0 [] else self.old) }
    {
        match &mut self.shared {
            Some(shared) => match Arc::make_mut(shared) {
                Ok(fields) => {
                    fields.clear(column);
                    Ok(())
                }
                Err(_) => Err(OutOfMemory),
            },
            None => Ok(()),
        }
    }

    // Puts the first value of all.
    #[inline(never)]
    fn begin(&mut self, column: ColumnId, value: Octets) -> Result<(), OutOfMemory>
        requires { self.old ≡ [] }
        ensures { self.new ≡ (if is_ok result then with_values self.old column.0 (value ∷ []) else self.old) }
    {
        let mut fields = FieldList::with_room(self.alloc, self.room)?;
        match fields.set_only_value(column, value) {
            Ok(()) => match Arc::new(self.alloc, fields) {
                Ok(shared) => {
                    self.shared = Some(shared);
                    Ok(())
                }
                Err(_) => Err(OutOfMemory),
            },
            Err(fault) => Err(fault),
        }
    }
}

impl Values for Record {
    ghost fields = { λ values. values };

    fn count(&self, column: ColumnId) -> usize {
        self.values(column).len()
    }

    /// The whole value at a place, counted from 0.
    fn value(&self, column: ColumnId, at: usize) -> Option<&[u8]>
        ensures front { MatchOption result (length (values_of self.now column.0) ≤ at) (λ bytes. (at < length (values_of self.now column.0)) × IsFront bytes.now (slice_index_or (values_of self.now column.0) at [])) }
        ensures whole { option_copied result ≡ slice_get (values_of self.now column.0) at }
    {
        Some(self.values(column).get(at)?.as_bytes())
    }
}
