//! Schema steps, once no change is held.

ghost use Rattle.std.specs.Prelude.{◌≡◌, [], OnErr, OnOk, IsSomeAnd, false, ◌<◌, true, is_some, IfSome};
ghost use Rattle.stored_variants.specs.SchemaSteps.{CanMake, after_step, IsColumnFor, IsIndexFor, TakesColumn};
ghost use Rattle.database_state.specs.SchemaChanges.{has_column};
ghost use Rattle.log_grammar.specs.EntryBytes.{name_fits};
ghost use Rattle.database_state.specs.Table.{table_with_id};
ghost use Rattle.index_derive.specs.Entries.{column_is_used};
ghost use Rattle.stored_variants.specs.VersionsKept.{secondary_rule};
ghost use Rattle.index_derive.specs.declared.schema_calls.SchemaStep.TheVariants as step;

use crate::store::TableVersions;
use column_set::Column;
use index_derive::{IndexRule, SchemaStep};
use jet_base::{ColumnId, IndexId, Name, OutOfMemory, TableId};
use variant_trees::{add_column, create_index, create_table, drop_column, drop_index, drop_table};

impl TableVersions {
    /// A schema step, once no change is held. After want of memory all is as it was.
    pub fn make(&mut self, made: &SchemaStep) -> Result<(), OutOfMemory>
        requires settled { self.old.store.held ≡ [] }
        requires can { CanMake made.now self.old }
        ensures ok { OnOk result (self.new ≡ after_step made.now self.old) }
        ensures err { OnErr result (self.new ≡ self.old) }
    {
        match made {
            SchemaStep::CreateTable { table, name } => self.make_table(made, *table, name),
            SchemaStep::DeleteTable { table } => {
                self.delete_table(made, *table);
                Ok(())
            }
            SchemaStep::AddColumn { table, column } => self.add_column(made, *table, column),
            SchemaStep::DeleteColumn { table, column } => {
                self.delete_column(made, *table, *column)
            }
            SchemaStep::CreateIndex { table, index } => self.make_index(made, *table, index),
            SchemaStep::DeleteIndex { table, index } => self.delete_index(made, *table, *index),
        }
    }

    // An index of a table comes, with the entries of its records. After want of memory all is as it was.
    //
    // It goes over all records of the table, and derives the keys of each where its row lies.
    fn make_index(
        &mut self,
        made: &SchemaStep,
        table: TableId,
        rule: &IndexRule,
    ) -> Result<(), OutOfMemory>
        requires settled { self.old.store.held ≡ [] }
        requires step { made.now ≡ step.CreateIndex table rule.now }
        requires fits { IsSomeAnd (table_with_id self.old.store.tables table.0) (IsIndexFor rule.now) }
        ensures ok { OnOk result (self.new ≡ after_step made.now self.old) }
        ensures err { OnErr result (self.new ≡ self.old) }
    {
        create_index(
            self.alloc,
            &mut self.catalog,
            &mut self.trees,
            made,
            table,
            rule,
        )
    }

    /// A column that no index uses goes, with its values in all records. After want of memory all is as it was.
    pub fn delete_column(
        &mut self,
        made: &SchemaStep,
        table: TableId,
        column: ColumnId,
    ) -> Result<(), OutOfMemory>
        requires settled { self.old.store.held ≡ [] }
        requires step { made.now ≡ step.DeleteColumn table column }
        requires unused { IsSomeAnd (table_with_id self.old.store.tables table.0) (λ t. column_is_used column t.indexes ≡ false) }
        requires there { IsSomeAnd (table_with_id self.old.store.tables table.0) (λ t. has_column t column.0 ≡ true) }
        ensures ok { OnOk result (self.new ≡ after_step made.now self.old) }
        ensures err { OnErr result (self.new ≡ self.old) }
    {
        drop_column(&mut self.catalog, &mut self.trees, made, table, column)
    }

    // A table comes, with a number above all that were given. After want of memory all is as it was.
    fn make_table(
        &mut self,
        made: &SchemaStep,
        table: TableId,
        name: &Name,
    ) -> Result<(), OutOfMemory>
        requires settled { self.old.store.held ≡ [] }
        requires step { made.now ≡ step.CreateTable table name.now }
        requires new_id { self.old.greatest_table < table.0 }
        requires named { name_fits name.now ≡ true }
        ensures ok { OnOk result (self.new ≡ after_step made.now self.old) }
        ensures err { OnErr result (self.new ≡ self.old) }
    {
        create_table(&mut self.catalog, &mut self.trees, made, table, name)
    }

    /// A table goes, with its records. It takes no memory.
    pub fn delete_table(&mut self, made: &SchemaStep, table: TableId)
        requires settled { self.old.store.held ≡ [] }
        requires step { made.now ≡ step.DeleteTable table }
        requires there { is_some (table_with_id self.old.store.tables table.0) ≡ true }
        ensures { self.new ≡ after_step made.now self.old }
    {
        drop_table(&mut self.catalog, &mut self.trees, made, table);
    }

    /// A column comes, one of which every record has a value only where there is no record. After want of memory all is as it
    /// was.
    pub fn add_column(
        &mut self,
        made: &SchemaStep,
        table: TableId,
        column: &Column,
    ) -> Result<(), OutOfMemory>
        requires settled { self.old.store.held ≡ [] }
        requires step { made.now ≡ step.AddColumn table column.now }
        requires taken { IfSome (table_with_id self.old.store.tables table.0) (TakesColumn column.now) }
        requires fits { IsSomeAnd (table_with_id self.old.store.tables table.0) (IsColumnFor column.now) }
        ensures ok { OnOk result (self.new ≡ after_step made.now self.old) }
        ensures err { OnErr result (self.new ≡ self.old) }
    {
        add_column(&mut self.catalog, &mut self.trees, made, table, column)
    }

    /// An index goes, any but the primary one. After want of memory all is as it was.
    pub fn delete_index(
        &mut self,
        made: &SchemaStep,
        table: TableId,
        index: IndexId,
    ) -> Result<(), OutOfMemory>
        requires settled { self.old.store.held ≡ [] }
        requires step { made.now ≡ step.DeleteIndex table index }
        requires there { IsSomeAnd (table_with_id self.old.store.tables table.0) (λ t. is_some (secondary_rule t index.0) ≡ true) }
        ensures ok { OnOk result (self.new ≡ after_step made.now self.old) }
        ensures err { OnErr result (self.new ≡ self.old) }
    {
        drop_index(&mut self.catalog, &mut self.trees, made, table, index)
    }
}
