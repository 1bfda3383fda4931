//! One table of the catalog.

ghost use Rattle.std.specs.Prelude.{◌≡◌, ◌==◌, ◌++◌, ◌&&◌, [], not, find, filter, IfOk, bytes_eq, option_copied, if◌then◌else◌};
ghost use Rattle.std.specs.List.{list_any};
ghost use Rattle.column_set.specs.RecordValues.{column_named, column_of_id};
ghost use Rattle.database_state.specs.Table.{schema_of, primary_first};
ghost use Rattle.index_derive.specs.Schemas.{primary_rule};
ghost use Rattle.database_state.specs.SchemaChanges.{new_table, has_column};
ghost use Rattle.database_state.specs.SchemaSteps.{column_id_named, index_id_named};

use crate::numbers::GreatestColumns;
use column_set::{Column, Columns};
use index_derive::{IndexRule, Schema};
use jet_base::{ColumnId, IndexId, Items, Name, OutOfMemory, TableId};
use std::alloc::Global;
use std::marker::Model;

/// A table, with its columns by rising number and its indexes in the order of their making. Contracts see it as a table
/// without a record.
///
/// Its schema, in which the primary index comes first, is kept beside the order of making, so that it can be lent.
#[derive(Debug, Drop)]
pub struct TableDef {
    pub(crate) id: TableId,
    pub(crate) name: Name,
    pub(crate) schema: Schema,
    pub(crate) indexes: Vec<IndexRule>,
    pub(crate) greatest: GreatestColumns,
}

impl Model for TableDef {
    ghost use Rattle.std.specs.Prelude.{◌≡◌, []};
    ghost use Rattle.database_state.specs.Table.{Table, primary_first};

    ghost Value = { Table };

    ghost view = { λ a. record { id = a.id.0; name = a.name; columns = a.schema.columns; indexes = a.indexes.items; greatest = a.greatest; rows = [] } };

    ghost invariant = { λ a. a.schema.indexes ≡ primary_first a.indexes.items };
}

impl TableDef {
    /// A table without a column or an index, which takes its name over.
    pub fn new(alloc: Global, id: TableId, name: Name) -> TableDef
        ensures { result ≡ new_table id.0 name }
    {
        TableDef {
            id,
            name,
            schema: Schema {
                columns: Columns::empty(alloc),
                indexes: Items::empty(alloc),
            },
            indexes: Vec::new(alloc),
            greatest: GreatestColumns::none(),
        }
    }

    /// A table with these columns, by rising number, these indexes, in the order of their making, and the greatest column
    /// numbers that it ever gave.
    pub fn of(
        id: TableId,
        name: Name,
        columns: Vec<Column>,
        indexes: Vec<IndexRule>,
        greatest: GreatestColumns,
    ) -> Result<TableDef, OutOfMemory>
        ensures { IfOk result (λ made. made ≡ record { id = id.0; name = name; columns = columns.items; indexes = indexes.items; greatest = greatest; rows = [] }) }
    {
        Ok(TableDef {
            id,
            name,
            schema: Schema {
                columns: Columns::new(columns)?,
                indexes: schema_indexes(&indexes)?,
            },
            indexes,
            greatest,
        })
    }

    /// Its number.
    pub fn id(&self) -> TableId
        ensures { result.0 ≡ self.now.id }
    {
        self.id
    }

    /// Its name.
    pub fn name(&self) -> &Name
        ensures { result.now ≡ self.now.name }
    {
        &self.name
    }

    /// Its columns, by rising number.
    pub fn columns(&self) -> &[Column]
        ensures { result.now ≡ self.now.columns }
    {
        self.schema.columns.as_slice()
    }

    /// Its indexes, in the order of their making.
    pub fn indexes(&self) -> &[IndexRule]
        ensures { result.now ≡ self.now.indexes }
    {
        self.indexes.as_slice()
    }

    /// The greatest column numbers that it ever gave.
    pub fn greatest(&self) -> &GreatestColumns
        ensures { result.now ≡ self.now.greatest }
    {
        &self.greatest
    }

    /// The index that keeps the records' order, unless they are kept by hidden keys.
    pub fn primary(&self) -> Option<&IndexRule>
        ensures { option_copied result ≡ primary_rule (schema_of self.now) }
    {
        self.indexes().iter().find(|rule| rule.flags.primary)
    }

    /// The column of this name.
    pub fn column_named(&self, name: &Name) -> Option<&Column>
        ensures { option_copied result ≡ column_named self.now.columns name.now }
    {
        column_set::column_named(&self.schema.columns, name)
    }

    /// The index of this name.
    pub fn index_named(&self, name: &Name) -> Option<&IndexRule>
        ensures { option_copied result ≡ find (λ r. bytes_eq r.name name.now) self.now.indexes }
    {
        self.indexes().iter().find(|rule| rule.name == *name)
    }

    /// The column of this number.
    pub fn column_of(&self, id: ColumnId) -> Option<&Column>
        ensures { option_copied result ≡ column_of_id self.now.columns id.0 }
    {
        self.columns().iter().find(|column| column.id == id)
    }

    // The number of the column of this name, or 0, which stands for none.
    pub(crate) fn column_id_named(&self, name: &Name) -> ColumnId
        ensures { result.0 ≡ column_id_named self.now.columns name.now }
    {
        match self.column_named(name) {
            Some(column) => column.id,
            None => ColumnId(0),
        }
    }

    // The number of the index of this name, or 0, which stands for none.
    pub(crate) fn index_id_named(&self, name: &Name) -> IndexId
        ensures { result.0 ≡ index_id_named self.now.indexes name.now }
    {
        match self.index_named(name) {
            Some(rule) => rule.id,
            None => IndexId(0),
        }
    }

    /// Whether it has a column of this number.
    pub fn has_column(&self, id: ColumnId) -> bool
        ensures { result ≡ has_column self.now id.0 }
    {
        self.columns().iter().any(|column| column.id == id)
    }

    // Whether it has a column of this name.
    pub(crate) fn has_column_named(&self, name: &Name) -> bool
        ensures { result ≡ list_any (λ c. bytes_eq c.name name.now) self.now.columns }
    {
        self.columns().iter().any(|column| column.name == *name)
    }

    // Whether it has an index of this name.
    pub(crate) fn has_index_named(&self, name: &Name) -> bool
        ensures { result ≡ list_any (λ made. bytes_eq made.name name.now) self.now.indexes }
    {
        self.indexes().iter().any(|made| made.name == *name)
    }

    /// Whether it has an index of this number.
    pub fn has_index(&self, id: IndexId) -> bool
        ensures { result ≡ list_any (λ made. made.id.0 == id.0) self.now.indexes }
    {
        self.indexes().iter().any(|made| made.id == id)
    }

    // Whether the index of this number is the primary one.
    pub(crate) fn is_primary(&self, id: IndexId) -> bool
        ensures { result ≡ list_any (λ made. (made.id.0 == id.0) && made.flags.primary) self.now.indexes }
    {
        self.indexes()
            .iter()
            .any(|made| made.id == id && made.flags.primary)
    }

    // Whether it has a primary index.
    pub(crate) fn has_primary(&self) -> bool
        ensures { result ≡ list_any (λ made. made.flags.primary) self.now.indexes }
    {
        self.indexes().iter().any(|made| made.flags.primary)
    }

    /// Its columns and indexes, the primary index first.
    pub fn schema(&self) -> &Schema
        ensures { result.now ≡ schema_of self.now }
    {
        &self.schema
    }
}

// Copies of the indexes, the primary one first.
pub(crate) fn schema_indexes(rules: &Vec<IndexRule>) -> Result<Items<IndexRule>, OutOfMemory>
    ensures { IfOk result (λ made. made ≡ primary_first rules.now.items) }
{
    let mut copies = Vec::new(*rules.allocator());
    copy_indexes(&mut copies, rules.as_slice(), true)?;
    copy_indexes(&mut copies, rules.as_slice(), false)?;
    Ok(Items::new(copies))
}

// Puts copies of the primary index, or of all others, at the end.
fn copy_indexes(
    copies: &mut Vec<IndexRule>,
    rules: &[IndexRule],
    primary: bool,
) -> Result<(), OutOfMemory>
    ensures { IfOk result (λ _. copies.new.items ≡ copies.old.items ++ filter (λ r. if primary then r.flags.primary else not r.flags.primary) rules.now) }
{
    for rule in rules {
        if rule.flags.primary == primary {
            copies.push(rule.copy()?)?;
        }
    }
    Ok(())
}
