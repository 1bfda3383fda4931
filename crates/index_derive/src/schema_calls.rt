//! Calls that change the schema, by name as a session makes them and by number as the log keeps them.

ghost use Rattle.std.specs.Prelude.{◌≡◌, ◌↔◌, IsTrue};

use crate::rules::{IndexFlags, IndexRule};
use column_set::Column;
use jet_base::{ColType, ColumnFlags, ColumnId, IndexId, Items, Name, TableId};

/// A key column of an index that is asked for.
#[derive(Debug, Drop, PartialEq, Eq)]
pub struct NamedSegment {
    pub column: Name,
    /// Greater values come first.
    pub descending: bool,
}

/// A condition of an index that is asked for.
#[derive(Debug, Drop, PartialEq, Eq)]
pub struct NamedCondition {
    pub column: Name,
    /// The column has no value. Otherwise: it has one.
    pub must_be_null: bool,
}

/// A schema call, as a session makes it.
#[derive(Debug, Drop, PartialEq, Eq)]
pub enum SchemaCall {
    CreateTable {
        table: Name,
    },
    DeleteTable {
        table: Name,
    },
    AddColumn {
        table: Name,
        column: Name,
        kind: ColType,
        flags: ColumnFlags,
    },
    DeleteColumn {
        table: Name,
        column: Name,
    },
    CreateIndex {
        table: Name,
        index: Name,
        flags: IndexFlags,
        key_most: u16,
        segments: Items<NamedSegment>,
        conditions: Items<NamedCondition>,
    },
    DeleteIndex {
        table: Name,
        index: Name,
    },
}

/// A schema change, as the log keeps it. Files number the kinds from 1 in this order.
#[derive(Debug, Drop, PartialEq, Eq)]
pub enum SchemaStep {
    CreateTable { table: TableId, name: Name },
    DeleteTable { table: TableId },
    AddColumn { table: TableId, column: Column },
    DeleteColumn { table: TableId, column: ColumnId },
    CreateIndex { table: TableId, index: IndexRule },
    DeleteIndex { table: TableId, index: IndexId },
}

impl SchemaStep {
    /// Whether the two are the same change: of one kind, with equal numbers, names, columns and rules.
    pub fn is(&self, other: &SchemaStep) -> bool
        ensures { IsTrue result ↔ (self.now ≡ other.now) }
    {
        self == other
    }
}
