//! The values that a record has in one column.

ghost use Rattle.std.specs.Prelude.{◌≡◌, ◌+◌, ◌-◌, ◌^◌, ◌<◌, [], ◌∷◌, ◌++◌, length, min, remove, slice_set, sum_by, IfOk, if◌then◌else◌, is_ok};
ghost use Rattle.column_set.specs.RecordValues.{size_of_length, size_of_values};

use crate::row_format::{APART_BYTES, LONGEST_HERE, VALUE_HEAD_BYTES};
use jet_base::{ColumnId, Octets, OutOfMemory};
use std::alloc::{AllocError, Global};
use std::marker::Model;
use std::slice;

/// The room of a value of so many bytes in its row.
pub fn size_of_length(length: usize) -> usize
    ensures { result ≡ size_of_length length }
{
    if length > LONGEST_HERE {
        APART_BYTES as usize
    } else {
        length
    }
}

/// The room of the values in their row, in bytes. Past the largest number it is that number.
pub fn size_of_values(values: &[Octets]) -> usize
    ensures { result ≡ min (size_of_values values.now) (2 ^ 64 - 1) }
{
    let mut total: usize = 0;
    for value in values {
        total = total.saturating_add(VALUE_HEAD_BYTES + size_of_length(value.as_bytes().len()));
    }
    total
}

/// The room of one value in its row, in bytes, with its header.
pub(crate) fn size_of_value(value: &Octets) -> usize
    ensures { result ≡ size_of_values (value.now ∷ []) }
{
    VALUE_HEAD_BYTES + size_of_length(value.as_bytes().len())
}

// The values of a column: one, as most columns have, or any number of them.
#[derive(Debug, Drop)]
enum Held {
    One(Octets),
    Many(Vec<Octets>),
}

/// A column with its values, in their order. One value takes no memory beside its own.
#[derive(Debug, Drop)]
pub struct Field {
    alloc: Global,
    column: u16,
    values: Held,
}

impl Model for Field {
    ghost use Rattle.std.specs.Prelude.{List, ℕ};
    ghost use Rattle.column_set.specs.HeldValues.{held_values};

    ghost Value = { ℕ × List (List ℕ) };

    ghost view = { λ a. (a.column, held_values a.values) };
}

impl Field {
    /// The column with one value.
    pub fn new(alloc: Global, column: ColumnId, value: Octets) -> Field
        ensures { result ≡ (column.0, value ∷ []) }
    {
        Field {
            alloc,
            column: column.0,
            values: Held::One(value),
        }
    }

    /// The column's number.
    pub fn column(&self) -> u16
        ensures { result ≡ self.now.0 }
    {
        self.column
    }

    /// The values.
    pub fn values(&self) -> &[Octets]
        ensures { result.now ≡ self.now.1 }
    {
        match &self.values {
            Held::One(value) => slice::from_ref(value),
            Held::Many(values) => values.as_slice(),
        }
    }

    /// Puts one more value at the end. Where there is no memory all stays.
    pub fn push(&mut self, value: Octets) -> Result<(), OutOfMemory>
        ensures { self.new ≡ (self.old.0, if is_ok result then self.old.1 ++ value ∷ [] else self.old.1) }
    {
        match &mut self.values {
            Held::One(first) => {
                let values = two_values(self.alloc, first, value)?;
                self.values = Held::Many(values);
                Ok(())
            }
            Held::Many(values) => {
                values.push(value)?;
                Ok(())
            }
        }
    }

    /// Puts the value in the place of another.
    pub fn set(&mut self, at: usize, value: Octets)
        requires { at < length self.old.1 }
        ensures { self.new ≡ (self.old.0, slice_set self.old.1 at value) }
    {
        match &mut self.values {
            Held::One(_) => self.values = Held::One(value),
            Held::Many(values) => values[at] = value,
        }
    }

    /// Puts the value in the place of all.
    pub fn set_only(&mut self, value: Octets)
        ensures { self.new ≡ (self.old.0, value ∷ []) }
    {
        self.values = Held::One(value);
    }

    /// Takes a value out, and not the last one. The later ones close up.
    pub fn remove(&mut self, at: usize)
        requires place { at < length self.old.1 }
        requires several { 1 < length self.old.1 }
        ensures { self.new ≡ (self.old.0, remove self.old.1 at) }
    {
        match &mut self.values {
            Held::One(_) => unreachable!(),
            Held::Many(values) => {
                values.remove(at);
            }
        }
    }
}

/// How many values the fields have.
pub fn count_of_values(fields: &[Field]) -> usize
    requires { sum_by (λ field. length field.1) fields.now < 2 ^ 16 }
    ensures { result ≡ sum_by (λ field. length field.1) fields.now }
{
    let mut count = 0;
    for field in fields {
        count += field.values().len();
    }
    count
}

// A copy of the first value, and the second one.
fn two_values(alloc: Global, first: &Octets, second: Octets) -> Result<Vec<Octets>, OutOfMemory>
    ensures { IfOk result (λ made. made.items ≡ first.now ∷ second ∷ []) }
{
    let mut values = Vec::with_capacity(alloc, 2)?;
    values.push(first.copy()?)?;
    values.push(second)?;
    Ok(values)
}

impl Clone for Field {
    ghost is_clone = { λ a b. b ≡ a };

    fn clone(&self) -> Result<Field, AllocError> {
        let values = match &self.values {
            Held::One(value) => Held::One(value.clone()?),
            Held::Many(values) => Held::Many(values.clone()?),
        };
        Ok(Field {
            alloc: self.alloc,
            column: self.column,
            values,
        })
    }
}
