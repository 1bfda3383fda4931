//! The columns of a record, each with its values.

ghost use Rattle.std.specs.Prelude.{◌≡◌, ◌+◌, ◌-◌, ◌^◌, ◌<◌, ◌≤◌, ℕ, List, [], ◌∷◌, ◌++◌, length, min, remove, slice_set, IfOk, IfErr, IsTrue, if◌then◌else◌, is_ok};
ghost use Rattle.column_set.specs.Record.{is_record};
ghost use Rattle.column_set.specs.RecordPlaces.{IsPlaceOf, IsGapFor};
ghost use Rattle.column_set.specs.RecordValues.{values_of, with_values, record_size, size_of_values};

use crate::fields::{Field, size_of_value, size_of_values};
use jet_base::{ColumnId, Octets, OutOfMemory};
use std::alloc::{AllocError, Global};
use std::marker::Model;

// What a row takes for the count of its values.
pub(crate) const COUNT_SIZE: usize = 2;

/// For each column that has a value, by rising number, its values in their order.
#[derive(Debug, Drop)]
pub(crate) struct FieldList {
    fields: Vec<Field>,
    // The in-page size, or the largest number where that is more.
    size: usize,
}

impl Model for FieldList {
    ghost use Rattle.std.specs.Prelude.{List, ℕ};
    ghost use Rattle.column_set.specs.Record.{IsMeasured};

    ghost Value = { List (ℕ × List (List ℕ)) };

    ghost view = { λ a. a.fields.items };

    ghost invariant = { λ a. IsMeasured a.fields.items a.size };
}

impl FieldList {
    /// The list without a column, with room for this many.
    pub(crate) fn with_room(alloc: Global, columns: usize) -> Result<FieldList, OutOfMemory>
        ensures { IfOk result (λ made. made ≡ []) }
    {
        Ok(FieldList {
            fields: Vec::with_capacity(alloc, columns)?,
            size: COUNT_SIZE,
        })
    }

    /// The values of the column, none where it is NULL. The record with them is the record itself.
    pub(crate) fn values(&self, column: ColumnId) -> &[Octets]
        ensures values { result.now ≡ values_of self.now column.0 }
        ensures same { with_values self.now column.0 (values_of self.now column.0) ≡ self.now }
    {
        match self.search(column) {
            Ok(place) => self.fields[place].values(),
            Err(_) => &[],
        }
    }

    /// The columns that have a value, by rising number, each with its values in their order.
    pub(crate) fn fields(&self) -> &[Field]
        ensures fields { result.now ≡ self.now }
        ensures formed { IsTrue (is_record self.now) }
    {
        self.fields.as_slice()
    }

    /// The in-page size of the record, in bytes: its row is refused where that is more than 1,700. Past the largest
    /// number it is that number.
    pub(crate) fn size(&self) -> usize
        ensures { result ≡ min (record_size self.now) (2 ^ 64 - 1) }
    {
        self.size
    }

    /// The size that the record has without the values of the column. With other values there it has their room on
    /// top.
    pub(crate) fn size_without(&self, column: ColumnId) -> usize
        ensures size { result ≡ min (record_size (with_values self.now column.0 [])) (2 ^ 64 - 1) }
        ensures room { (values : List (List ℕ)) → record_size (with_values self.now column.0 values) ≡ record_size (with_values self.now column.0 []) + size_of_values values }
    {
        match self.search(column) {
            Ok(place) => self.size_but(column, place),
            Err(_) => self.size,
        }
    }

    // The same where the column's field is at the place.
    fn size_but(&self, column: ColumnId, place: usize) -> usize
        requires { IsPlaceOf self.now column.0 place }
        ensures { result ≡ min (record_size (with_values self.now column.0 [])) (2 ^ 64 - 1) }
    {
        if self.size < usize::MAX {
            self.size - size_of_values(self.fields[place].values())
        } else {
            self.size_anew_but(column)
        }
    }

    // The same, added up anew: the size that is kept is no sum.
    fn size_anew_but(&self, column: ColumnId) -> usize
        ensures { result ≡ min (record_size (with_values self.now column.0 [])) (2 ^ 64 - 1) }
    {
        let mut total = COUNT_SIZE;
        for field in self.fields.iter() {
            if field.column() != column.0 {
                total = total.saturating_add(size_of_values(field.values()));
            }
        }
        total
    }

    /// Puts the value in the place of another of the column. Places are counted from 0.
    pub(crate) fn set_value(&mut self, column: ColumnId, at: usize, value: Octets)
        requires { at < length (values_of self.old column.0) }
        ensures { self.new ≡ with_values self.old column.0 (slice_set (values_of self.old column.0) at value) }
    {
        if let Ok(place) = self.search(column) {
            let others = self.size_but(column, place);
            let field = &mut self.fields[place];
            field.set(at, value);
            let room = size_of_values(field.values());
            self.size = others.saturating_add(room);
        }
    }

    /// Puts the value in the place of all values of the column. Where there is no memory all stays.
    #[inline(always)]
    pub(crate) fn set_only_value(
        &mut self,
        column: ColumnId,
        value: Octets,
    ) -> Result<(), OutOfMemory>
        ensures { self.new ≡ (if is_ok result then with_values self.old column.0 (value ∷ []) else self.old) }
    {
        match self.search(column) {
            Ok(place) => {
                let others = self.size_but(column, place);
                let room = size_of_value(&value);
                self.fields[place].set_only(value);
                self.size = others.saturating_add(room);
                Ok(())
            }
            Err(place) => self.insert(place, column, value),
        }
    }

    /// Puts one more value behind those of the column. Where there is no memory all stays.
    pub(crate) fn push_value(&mut self, column: ColumnId, value: Octets) -> Result<(), OutOfMemory>
        ensures { self.new ≡ (if is_ok result then with_values self.old column.0 (values_of self.old column.0 ++ value ∷ []) else self.old) }
    {
        match self.search(column) {
            Ok(place) => self.push_at(place, column, value),
            Err(place) => self.insert(place, column, value),
        }
    }

    /// Takes a value of the column out, and the later ones close up. Places are counted from 0.
    pub(crate) fn remove_value(&mut self, column: ColumnId, at: usize)
        requires { at < length (values_of self.old column.0) }
        ensures { self.new ≡ with_values self.old column.0 (remove (values_of self.old column.0) at) }
    {
        if let Ok(place) = self.search(column) {
            if self.fields[place].values().len() > 1 {
                self.remove_at(place, column, at);
            } else {
                self.take_out(place, column);
            }
        }
    }

    /// Takes all values of the column out, so that it is NULL.
    pub(crate) fn clear(&mut self, column: ColumnId)
        ensures { self.new ≡ with_values self.old column.0 [] }
    {
        if let Ok(place) = self.search(column) {
            self.take_out(place, column);
        }
    }

    // Puts one more value behind those of the column, whose field is at the place. Where there is no memory all stays.
    fn push_at(&mut self, place: usize, column: ColumnId, value: Octets) -> Result<(), OutOfMemory>
        requires { IsPlaceOf self.old column.0 place }
        ensures { self.new ≡ (if is_ok result then with_values self.old column.0 (values_of self.old column.0 ++ value ∷ []) else self.old) }
    {
        let room = size_of_value(&value);
        match self.fields[place].push(value) {
            Ok(()) => {
                self.size = self.size.saturating_add(room);
                Ok(())
            }
            Err(fault) => Err(fault),
        }
    }

    // Takes one of several values of the column out, whose field is at the place.
    fn remove_at(&mut self, place: usize, column: ColumnId, at: usize)
        requires place { IsPlaceOf self.old column.0 place }
        requires at { at < length (values_of self.old column.0) }
        requires several { 1 < length (values_of self.old column.0) }
        ensures { self.new ≡ with_values self.old column.0 (remove (values_of self.old column.0) at) }
    {
        let others = self.size_but(column, place);
        let field = &mut self.fields[place];
        field.remove(at);
        let room = size_of_values(field.values());
        self.size = others.saturating_add(room);
    }

    // Takes the column out, whose field is at the place.
    fn take_out(&mut self, place: usize, column: ColumnId)
        requires { IsPlaceOf self.old column.0 place }
        ensures { self.new ≡ with_values self.old column.0 [] }
    {
        let others = self.size_but(column, place);
        self.fields.remove(place);
        self.size = others;
    }

    // Puts a column with one value into its gap.
    fn insert(&mut self, place: usize, column: ColumnId, value: Octets) -> Result<(), OutOfMemory>
        requires { IsGapFor self.old column.0 place }
        ensures { self.new ≡ (if is_ok result then with_values self.old column.0 (value ∷ []) else self.old) }
    {
        let room = size_of_value(&value);
        let field = Field::new(*self.fields.allocator(), column, value);
        self.fields.insert(place, field)?;
        self.size = self.size.saturating_add(room);
        Ok(())
    }

    // Where the column's field is, or where it would go.
    fn search(&self, column: ColumnId) -> Result<usize, usize>
        ensures found { IfOk result (IsPlaceOf self.now column.0) }
        ensures absent { IfErr result (IsGapFor self.now column.0) }
    {
        if self.is_above_all(column) {
            return Err(self.fields.len());
        }
        self.fields
            .binary_search_by_key(&column.0, |field| field.column())
    }

    // Whether the columns of all fields are smaller. Most values come by rising column.
    fn is_above_all(&self, column: ColumnId) -> bool
        ensures { IsTrue result → IsGapFor self.now column.0 (length self.now) }
    {
        match self.fields.last() {
            Some(last) => last.column() < column.0,
            None => true,
        }
    }
}

impl Clone for FieldList {
    ghost is_clone = { λ a b. b ≡ a };

    fn clone(&self) -> Result<FieldList, AllocError> {
        Ok(FieldList {
            fields: self.fields.clone()?,
            size: self.size,
        })
    }
}
