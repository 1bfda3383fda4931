//! What an index holds, and the schema of a table.

ghost use Rattle.std.specs.Prelude.{◌≡◌, IfOk, option_copied};
ghost use Rattle.column_set.specs.RecordValues.{column_of_id};
ghost use Rattle.index_derive.specs.Schemas.{primary_rule, rule_named, rule_with_id};

use column_set::{Column, Columns, column_of_id};
use jet_base::{ColumnId, IndexId, Items, Name, OutOfMemory};
use std::alloc::AllocError;

/// A column of an index's key.
#[derive(Clone, Copy, Debug, PartialEq, Eq)]
pub struct Segment {
    pub column: ColumnId,
    /// Greater values come first.
    pub descending: bool,
}

/// A condition that a record meets to stand in the index.
#[derive(Clone, Copy, Debug, PartialEq, Eq)]
pub struct Condition {
    pub column: ColumnId,
    /// The column has no value. Otherwise: it has one.
    pub must_be_null: bool,
}

/// The flags of an index, in the order in which files number them from 0.
#[derive(Clone, Copy, Debug, PartialEq, Eq)]
pub struct IndexFlags {
    /// Records are kept in the order of this index, and its keys are their bookmarks.
    pub primary: bool,
    /// No two records have an equal key.
    pub unique: bool,
    /// A record with a NULL in its key is refused.
    pub disallownull: bool,
    /// An entry of which all columns are NULL is left out.
    pub ignorenull: bool,
    /// An entry of which any column is NULL is left out.
    pub ignoreanynull: bool,
    /// An entry of which the first column is NULL is left out.
    pub ignorefirstnull: bool,
    /// NULL comes after all values.
    pub sortnullshigh: bool,
    /// There is an entry for each combination of the values of columns with several.
    pub crossproduct: bool,
    /// A record with a key that would be cut is refused.
    pub disallowtruncation: bool,
    /// There is an entry for each part of a text.
    pub tuples: bool,
}

impl IndexFlags {
    /// No flag.
    pub const NONE: IndexFlags = IndexFlags {
        primary: false,
        unique: false,
        disallownull: false,
        ignorenull: false,
        ignoreanynull: false,
        ignorefirstnull: false,
        sortnullshigh: false,
        crossproduct: false,
        disallowtruncation: false,
        tuples: false,
    };
}

/// The rule of an index: which entries a record has in it.
#[derive(Debug, Drop, PartialEq, Eq)]
pub struct IndexRule {
    /// Its number, from 1.
    pub id: IndexId,
    /// Its name, which no other index of the table has.
    pub name: Name,
    /// Its order of making: one above the greatest that stood in the table when it was made, 1 for the first.
    pub order: u32,
    /// The columns of its key, in their order: 1 to 12.
    pub segments: Items<Segment>,
    pub flags: IndexFlags,
    /// A record stands in it where it meets all of them: 0 to 12.
    pub conditions: Items<Condition>,
    /// Keys are cut at so many bytes: 255, or 256 to 500.
    pub key_most: u16,
}

impl IndexRule {
    /// Another value that is equal.
    pub fn copy(&self) -> Result<IndexRule, OutOfMemory>
        ensures { IfOk result (λ made. made ≡ self.now) }
    {
        Ok(self.clone()?)
    }
}

impl Clone for IndexRule {
    ghost is_clone = { λ a b. b ≡ a };

    fn clone(&self) -> Result<IndexRule, AllocError> {
        Ok(IndexRule {
            id: self.id,
            name: self.name.clone()?,
            order: self.order,
            segments: self.segments.clone()?,
            flags: self.flags,
            conditions: self.conditions.clone()?,
            key_most: self.key_most,
        })
    }
}

/// The columns and indexes of a table.
#[derive(Debug, Drop)]
pub struct Schema {
    /// By rising number.
    pub columns: Columns,
    /// The primary index first, then by rising order of making.
    pub indexes: Items<IndexRule>,
}

impl Schema {
    /// Another value that is equal.
    pub fn copy(&self) -> Result<Schema, OutOfMemory>
        ensures { IfOk result (λ made. made ≡ self.now) }
    {
        Ok(Schema {
            columns: self.columns.copy()?,
            indexes: self.indexes.copy()?,
        })
    }

    /// The column of this number.
    pub fn column_of_id(&self, id: ColumnId) -> Option<&Column>
        ensures { option_copied result ≡ column_of_id self.now.columns id.0 }
    {
        column_of_id(self.columns.as_slice(), id)
    }

    /// The primary index; None where records are kept by hidden keys.
    pub fn primary_rule(&self) -> Option<&IndexRule>
        ensures { option_copied result ≡ primary_rule self.now }
    {
        self.indexes
            .as_slice()
            .iter()
            .find(|rule| rule.flags.primary)
    }

    /// The index of this number.
    pub fn rule_with_id(&self, id: IndexId) -> Option<&IndexRule>
        ensures { option_copied result ≡ rule_with_id self.now id.0 }
    {
        self.indexes.as_slice().iter().find(|rule| rule.id == id)
    }

    /// The index of this name. Names are compared byte for byte.
    pub fn rule_named(&self, name: &Name) -> Option<&IndexRule>
        ensures { option_copied result ≡ rule_named self.now name.now }
    {
        self.indexes
            .as_slice()
            .iter()
            .find(|rule| rule.name == *name)
    }
}
