//! The copy buffer.

ghost use Rattle.std.specs.Prelude.{◌≡◌, ◌<◌, ◌++◌, ◌-◌, ◌^◌, ℕ, List, [], ◌∷◌, MatchResult, IfOk, IsTrue, None, Some, length, min, is_ok, slice_set, if◌then◌else◌};
ghost use Rattle.std.specs.Option.{option_copied};
ghost use Rattle.column_set.specs.RecordValues.{column_of_id, record_size, values_of, with_values};
ghost use Rattle.jet_base.specs.Given.{given_bytes, given_fits};
ghost use Rattle.record_edit.specs.Buffer.{Buffer, value_at};
ghost use Rattle.record_edit.specs.Effects.{values_by, IsEffectOn, IsEffectOf};
ghost use Rattle.record_edit.specs.Faults.{IsFaultOf};
ghost use Rattle.record_edit.specs.NewValues.{given_of, given_of_bytes};
ghost use Rattle.record_edit.specs.SetColumn.{buffer_after, fields_after, named_after, named_refusal, refusal_in_column, set_refusal};

use crate::effect::Effect;
use crate::fault::EditFault;
use crate::largest_value;
use crate::new_value::NewValue;
use column_set::{Column, Columns, MAX_ROW_SIZE, Record, column_named, column_of_id};
use jet_base::{ColType, ColumnId, Given, Jet, Name, Octets, OutOfMemory};
use std::alloc::Global;
use std::marker::Model;

/// A record that a session prepares, with the columns of its table.
#[derive(Debug, Drop)]
pub struct CopyBuffer {
    alloc: Global,
    columns: Columns,
    values: Record,
}

impl Model for CopyBuffer {
    ghost use Rattle.record_edit.specs.Buffer.{Buffer};

    ghost Value = { Buffer };

    ghost view = { λ a. record { columns = a.columns; fields = a.values } };
}

impl CopyBuffer {
    /// The buffer of a record of a table with these columns, which it shares.
    pub fn new(alloc: Global, columns: &Columns, values: Record) -> Result<CopyBuffer, OutOfMemory>
        ensures { IfOk result (λ made. made ≡ record { columns = columns.now; fields = values }) }
    {
        Ok(CopyBuffer {
            alloc,
            columns: columns.copy()?,
            values,
        })
    }

    /// The columns of the table.
    pub fn columns(&self) -> &Columns
        ensures { result.now ≡ self.now.columns }
    {
        &self.columns
    }

    /// The record as far as it is set.
    pub fn values(&self) -> &Record
        ensures { result.now ≡ self.now.fields }
    {
        &self.values
    }

    /// How many values the column has: 0 where it is NULL.
    pub fn count(&self, column: ColumnId) -> usize
        ensures { result ≡ length (values_of self.now.fields column.0) }
    {
        self.values.values(column).len()
    }

    /// The column's value of this sequence, counted from 1.
    pub fn get(&self, column: ColumnId, sequence: u32) -> Option<&[u8]>
        ensures { option_copied result ≡ value_at self.now.fields column.0 sequence }
    {
        if sequence == 0 {
            return None;
        }
        match self.values.values(column).get(sequence as usize - 1) {
            Some(value) => Some(value.as_bytes()),
            None => None,
        }
    }

    /// Sets a value of the column to stored bytes, or takes it away where there are none.
    ///
    /// In a multi-valued column a value goes to its place, which is counted from 1, or else behind the last; NULL at a
    /// place takes that value out and the later ones close up, and elsewhere does nothing. Any other column has the
    /// one value, or none, and takes the sequences 0 and 1. Any byte of a `Bit` but 00 is stored as 01.
    pub fn set(
        &mut self,
        column: ColumnId,
        sequence: u32,
        value: Option<&[u8]>,
    ) -> Result<(), EditFault>
        ensures refusals { let given = given_of_bytes (option_copied value.entry) in MatchResult result (λ _. set_refusal self.old column.0 sequence given ≡ None) (IsFaultOf (set_refusal self.old column.0 sequence given)) }
        ensures after { self.new ≡ (if is_ok result then buffer_after self.old column.0 sequence (given_of_bytes (option_copied value.entry)) else self.old) }
    {
        let Some(found) = column_of_id(self.columns.as_slice(), column) else {
            return Err(EditFault::Refused(Jet::ColumnNotFound));
        };
        let value = NewValue::from_bytes(value);
        put_in(self.alloc, found, sequence, value, &mut self.values)
    }

    /// The same in the column of this name, with a value as it is written. A repeated byte is spelled out only where it
    /// is not refused.
    pub fn set_named(&mut self, name: &Name, sequence: u32, value: &Given) -> Result<(), EditFault>
        ensures refusals { MatchResult result (λ _. named_refusal self.old name.now sequence value.now ≡ None) (IsFaultOf (named_refusal self.old name.now sequence value.now)) }
        ensures after { self.new ≡ (if is_ok result then named_after self.old name.now sequence value.now else self.old) }
    {
        let Some(found) = column_named(&self.columns, name) else {
            return Err(EditFault::Refused(Jet::ColumnNotFound));
        };
        let value = NewValue::from_given(value);
        put_in(self.alloc, found, sequence, value, &mut self.values)
    }
}

// Sets a value of the column. Where that is refused, or there is no memory, all stays.
fn put_in(
    alloc: Global,
    column: &Column,
    sequence: u32,
    value: NewValue,
    values: &mut Record,
) -> Result<(), EditFault>
    ensures refusals { MatchResult result (λ _. refusal_in_column column.now sequence (given_of value.entry) values.old ≡ None) (IsFaultOf (refusal_in_column column.now sequence (given_of value.entry) values.old)) }
    ensures after { values.new ≡ (if is_ok result then fields_after column.now sequence (given_of value.entry) values.old else values.old) }
{
    let effect = match checked(column, sequence, value, values) {
        Ok(effect) => effect,
        Err(refusal) => return Err(EditFault::Refused(refusal)),
    };
    apply(alloc, effect, column.id, column.kind, value, values)?;
    Ok(())
}

// What the value does to the column, or why it is refused.
fn checked(column: &Column, sequence: u32, value: NewValue, values: &Record) -> Result<Effect, Jet>
    ensures refusals { MatchResult result (λ _. refusal_in_column column.now sequence (given_of value.entry) values.now ≡ None) (λ refusal. refusal_in_column column.now sequence (given_of value.entry) values.now ≡ Some refusal) }
    ensures effect { IfOk result (IsEffectOf column.now sequence (given_of value.entry) values.now) }
{
    let there = values.values(column.id);
    let count = there.len();
    let effect = Effect::of(column.multi, sequence, value.is_null(), count);
    if column.escrow {
        return Err(Jet::ColumnNotUpdatable);
    }
    if !column.multi && 1 < sequence {
        return Err(Jet::BadItagSequence);
    }
    if !value.fits(column.kind) {
        return Err(Jet::InvalidBufferSize);
    }
    if largest_value(column.kind) < value.length() {
        return Err(Jet::ColumnTooBig);
    }
    if value.is_null() && column.not_null && effect.leaves_none(count) {
        return Err(Jet::NullInvalid);
    }
    let added = value.stored_length(column.kind);
    if MAX_ROW_SIZE < size_after(effect, added, column.id, there, values) {
        return Err(Jet::RecordTooBig);
    }
    Ok(effect)
}

// The size of the record after the effect of a value of so many bytes on the values that the column has. Past the largest
// number it is that number.
fn size_after(
    effect: Effect,
    added: usize,
    column: ColumnId,
    there: &[Octets],
    values: &Record,
) -> usize
    requires there { there.now ≡ values_of values.now column.0 }
    requires effect { IsEffectOn (length (values_of values.now column.0)) effect }
    ensures { (value : List ℕ) → length value ≡ added → result ≡ min (record_size (with_values values.now column.0 (values_by effect value (values_of values.now column.0)))) (2 ^ 64 - 1) }
{
    let others = values.size_without(column);
    others.saturating_add(effect.size_after(added, there))
}

// The effect on the record, for which the value is spelled out. Where there is no memory all stays.
fn apply(
    alloc: Global,
    effect: Effect,
    column: ColumnId,
    kind: ColType,
    value: NewValue,
    values: &mut Record,
) -> Result<(), OutOfMemory>
    requires fits { IsEffectOn (length (values_of values.old column.0)) effect }
    requires given { IsTrue (given_fits kind (given_of value)) }
    requires same { with_values values.old column.0 (values_of values.old column.0) ≡ values.old }
    ensures { values.new ≡ (if is_ok result then with_values values.old column.0 (values_by effect (given_bytes kind (given_of value.entry)) (values_of values.old column.0)) else values.old) }
{
    match effect {
        Effect::Nothing => {}
        Effect::Clear => values.clear(column)?,
        Effect::Remove(place) => values.remove_value(column, place)?,
        Effect::Set(place) => replace(alloc, column, place, kind, value, values)?,
        Effect::Only => values.set_only_value(column, value.stored(alloc, kind)?)?,
        Effect::Push => push(alloc, column, kind, value, values)?,
    }
    Ok(())
}

// Puts the value in the place of one of several. Apart, since few columns have several.
#[inline(never)]
fn replace(
    alloc: Global,
    column: ColumnId,
    place: usize,
    kind: ColType,
    value: NewValue,
    values: &mut Record,
) -> Result<(), OutOfMemory>
    requires place { place < length (values_of values.old column.0) }
    requires given { IsTrue (given_fits kind (given_of value)) }
    ensures { values.new ≡ (if is_ok result then with_values values.old column.0 (slice_set (values_of values.old column.0) place (given_bytes kind (given_of value.entry))) else values.old) }
{
    values.set_value(column, place, value.stored(alloc, kind)?)
}

// Puts one more value behind those of the column. Apart, since few columns have several.
#[inline(never)]
fn push(
    alloc: Global,
    column: ColumnId,
    kind: ColType,
    value: NewValue,
    values: &mut Record,
) -> Result<(), OutOfMemory>
    requires { IsTrue (given_fits kind (given_of value)) }
    ensures { values.new ≡ (if is_ok result then with_values values.old column.0 (values_of values.old column.0 ++ given_bytes kind (given_of value.entry) ∷ []) else values.old) }
{
    values.push_value(column, value.stored(alloc, kind)?)
}
