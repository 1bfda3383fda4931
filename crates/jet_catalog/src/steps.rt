//! What a schema step does to the catalog.

ghost use Rattle.std.specs.Prelude.{◌≡◌, ◌==◌, ◌<◌, ◌≤◌, [], ◌∷◌, ◌++◌, not, filter, length, IfOk, IsTrue, OnOk, OnErr};
ghost use Rattle.std.specs.List.{insert};
ghost use Rattle.column_set.specs.RecordValues.{tagged_if_long};
ghost use Rattle.database_state.specs.Table.{with_table};
ghost use Rattle.database_state.specs.SchemaChanges.{new_table, columns_with, with_column, without_column, with_index, without_index};
ghost use Rattle.jet_catalog.specs.Catalog.{catalog_after, has_new_id};

use crate::catalog::Catalog;
use crate::table::{TableDef, schema_indexes};
use column_set::{Column, Columns};
use index_derive::{IndexRule, SchemaStep};
use jet_base::{ColumnId, IndexId, Name, OutOfMemory, TableId};

impl TableDef {
    // Puts a copy of the column, tagged where it is long, in its place by number, and takes note of its number.
    fn add_column(&mut self, column: &Column) -> Result<(), OutOfMemory>
        ensures made { OnOk result (self.new ≡ with_column (tagged_if_long column.now) self.old) }
        ensures id { self.new.id ≡ self.old.id }
        ensures kept { OnErr result (self.new ≡ self.old) }
    {
        let made = column.tagged_if_long()?;
        let mut columns = self.columns().to_vec(*self.indexes.allocator())?;
        let place = place_of(columns.as_slice(), &made);
        columns.insert(place, made)?;
        self.schema.columns = Columns::new(columns)?;
        self.greatest.give(column.id);
        Ok(())
    }

    // Takes out the column of this number.
    fn delete_column(&mut self, id: ColumnId) -> Result<(), OutOfMemory>
        ensures made { OnOk result (self.new ≡ without_column id.0 self.old) }
        ensures id { self.new.id ≡ self.old.id }
        ensures kept { OnErr result (self.new ≡ self.old) }
    {
        let mut columns = self.columns().to_vec(*self.indexes.allocator())?;
        columns.retain(|column| column.id != id);
        let shared = Columns::new(columns)?;
        self.schema.columns = shared;
        Ok(())
    }

    // Puts a copy of the index behind the others.
    fn add_index(&mut self, index: &IndexRule) -> Result<(), OutOfMemory>
        ensures made { OnOk result (self.new ≡ with_index index.now self.old) }
        ensures id { self.new.id ≡ self.old.id }
        ensures kept { OnErr result (self.new ≡ self.old) }
    {
        let mut indexes = self.copied_indexes()?;
        indexes.push(index.copy()?)?;
        self.set_indexes(indexes)
    }

    // Takes out the index of this number.
    fn delete_index(&mut self, id: IndexId) -> Result<(), OutOfMemory>
        ensures made { OnOk result (self.new ≡ without_index id.0 self.old) }
        ensures id { self.new.id ≡ self.old.id }
        ensures kept { OnErr result (self.new ≡ self.old) }
    {
        let mut indexes = self.copied_indexes()?;
        indexes.retain(|index| index.id != id);
        self.set_indexes(indexes)
    }

    // Copies of its indexes, in the order of their making.
    fn copied_indexes(&self) -> Result<Vec<IndexRule>, OutOfMemory>
        ensures { IfOk result (λ made. made.items ≡ self.now.indexes) }
    {
        Ok(self.indexes().to_vec(*self.indexes.allocator())?)
    }

    // Puts these in place of its indexes, in the schema too.
    fn set_indexes(&mut self, indexes: Vec<IndexRule>) -> Result<(), OutOfMemory>
        ensures made { OnOk result (self.new ≡ record self.old { indexes = indexes.items }) }
        ensures kept { OnErr result (self.new ≡ self.old) }
    {
        self.schema.indexes = schema_indexes(&indexes)?;
        self.indexes = indexes;
        Ok(())
    }
}

// The place of a new column: before those that all have greater numbers.
fn place_of(columns: &[Column], new: &Column) -> usize
    ensures within { result ≤ length columns.now }
    ensures place { insert columns.now result new.now ≡ columns_with new.now columns.now }
{
    match columns.iter().rposition(|column| column.id.0 <= new.id.0) {
        Some(last) => last + 1,
        None => 0,
    }
}

impl Catalog {
    /// Makes the step. A step of a table that is not there changes nothing.
    pub fn make(&mut self, step: &SchemaStep) -> Result<(), OutOfMemory>
        requires new_id { IsTrue (has_new_id self.old step.now) }
        ensures made { OnOk result (self.new ≡ catalog_after self.old step.now) }
        ensures kept { OnErr result (self.new ≡ self.old) }
    {
        match step {
            SchemaStep::CreateTable { table, name } => self.create_table(*table, name),
            SchemaStep::DeleteTable { table } => {
                self.delete_table(*table);
                Ok(())
            }
            SchemaStep::AddColumn { table, column } => self.add_column(*table, column),
            SchemaStep::DeleteColumn { table, column } => self.delete_column(*table, *column),
            SchemaStep::CreateIndex { table, index } => self.add_index(*table, index),
            SchemaStep::DeleteIndex { table, index } => self.delete_index(*table, *index),
        }
    }

    fn create_table(&mut self, id: TableId, name: &Name) -> Result<(), OutOfMemory>
        requires { self.old.greatest_table < id.0 }
        ensures made { OnOk result (self.new ≡ record { greatest_table = id.0; tables = self.old.tables ++ new_table id.0 name.now ∷ [] }) }
        ensures kept { OnErr result (self.new ≡ self.old) }
    {
        let alloc = *self.tables.allocator();
        let table = TableDef::new(alloc, id, name.copy()?);
        self.tables.push(table)?;
        self.greatest = id.0;
        Ok(())
    }

    /// Takes out the table of this number, if there is one. It takes no memory.
    pub fn delete_table(&mut self, id: TableId)
        ensures { self.new ≡ record self.old { tables = filter (λ t. not (t.id == id.0)) self.old.tables } }
    {
        self.tables.retain(|table| table.id() != id);
    }

    fn add_column(&mut self, table: TableId, column: &Column) -> Result<(), OutOfMemory>
        ensures made { OnOk result (self.new ≡ record self.old { tables = with_table table.0 (with_column (tagged_if_long column.now)) self.old.tables }) }
        ensures kept { OnErr result (self.new ≡ self.old) }
    {
        if let Some(index) = self.position(table) {
            self.tables[index].add_column(column)?;
        }
        Ok(())
    }

    fn delete_column(&mut self, table: TableId, column: ColumnId) -> Result<(), OutOfMemory>
        ensures made { OnOk result (self.new ≡ record self.old { tables = with_table table.0 (without_column column.0) self.old.tables }) }
        ensures kept { OnErr result (self.new ≡ self.old) }
    {
        if let Some(index) = self.position(table) {
            self.tables[index].delete_column(column)?;
        }
        Ok(())
    }

    fn add_index(&mut self, table: TableId, made: &IndexRule) -> Result<(), OutOfMemory>
        ensures made { OnOk result (self.new ≡ record self.old { tables = with_table table.0 (with_index made.now) self.old.tables }) }
        ensures kept { OnErr result (self.new ≡ self.old) }
    {
        if let Some(index) = self.position(table) {
            self.tables[index].add_index(made)?;
        }
        Ok(())
    }

    fn delete_index(&mut self, table: TableId, made: IndexId) -> Result<(), OutOfMemory>
        ensures made { OnOk result (self.new ≡ record self.old { tables = with_table table.0 (without_index made.0) self.old.tables }) }
        ensures kept { OnErr result (self.new ≡ self.old) }
    {
        if let Some(index) = self.position(table) {
            self.tables[index].delete_index(made)?;
        }
        Ok(())
    }
}
