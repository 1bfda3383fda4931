//! The columns of a table.

ghost use Rattle.std.specs.Prelude.{◌≡◌, ◌==◌, [], ◌∷◌, ◌++◌, IfOk, is_ok, if◌then◌else◌, option_copied};
ghost use Rattle.std.specs.List.{list_any};
ghost use Rattle.column_set.specs.RecordValues.{column_named, column_of_id, tagged_if_long};

use crate::indexed::IndexedColumns;
use jet_base::{ColType, ColumnId, Name, OutOfMemory};
use std::alloc::{AllocError, Global};
use std::marker::Model;
use std::sync::Arc;

/// A column of a table.
#[derive(Debug, Drop, PartialEq, Eq)]
pub struct Column {
    /// Its number: 1 to 127 for a fixed column, 128 to 255 for a variable one, 256 to 511 for a tagged one.
    pub id: ColumnId,
    /// Its name, which no other column of the table has.
    pub name: Name,
    /// Its type.
    pub kind: ColType,
    /// It is a tagged column, whatever its type. In a table each LongBinary and LongText is one, also where that was not asked.
    pub tagged: bool,
    /// A record may have several values, numbered from 1.
    pub multi: bool,
    /// A record is stored only with a value.
    pub not_null: bool,
    /// A Long that is a sum, to which sessions add at the same time. It starts at 0.
    pub escrow: bool,
    /// A Long that counts the replaces of its record.
    pub version: bool,
    /// A Long that is drawn from the table's rising numbers for each new record.
    pub auto: bool,
}

impl Column {
    /// Another value that is equal.
    pub fn copy(&self) -> Result<Column, OutOfMemory>
        ensures { IfOk result (λ made. made ≡ self.now) }
    {
        Ok(self.clone()?)
    }

    /// A copy as a table has it: tagged where the type is long, also where that was not asked.
    pub fn tagged_if_long(&self) -> Result<Column, OutOfMemory>
        ensures { IfOk result (λ made. made ≡ tagged_if_long self.now) }
    {
        let mut made = self.copy()?;
        made.tagged = self.tagged || self.kind.is_long();
        Ok(made)
    }
}

impl Clone for Column {
    ghost is_clone = { λ a b. b ≡ a };

    fn clone(&self) -> Result<Column, AllocError> {
        Ok(Column {
            id: self.id,
            name: self.name.clone()?,
            kind: self.kind,
            tagged: self.tagged,
            multi: self.multi,
            not_null: self.not_null,
            escrow: self.escrow,
            version: self.version,
            auto: self.auto,
        })
    }
}

/// The columns of a table, in the order in which they were added. Copies share them until one of them changes.
#[derive(Debug, Drop)]
pub struct Columns {
    alloc: Global,
    // None where there never was a column.
    shared: Option<Arc<IndexedColumns>>,
}

impl Model for Columns {
    ghost use Rattle.std.specs.Prelude.{List};
    ghost use Rattle.column_set.specs.declared.columns.Column.{Column};

    ghost Value = { List Column };

    ghost use Rattle.column_set.specs.Shared.{column_list};

    ghost view = { column_list };
}

impl Columns {
    /// No column. It takes no memory.
    pub fn empty(alloc: Global) -> Columns
        ensures { result ≡ [] }
    {
        Columns {
            alloc,
            shared: None,
        }
    }

    /// These columns, which it takes over.
    pub fn new(columns: Vec<Column>) -> Result<Columns, OutOfMemory>
        ensures { IfOk result (λ made. made ≡ columns.items) }
    {
        let alloc = *columns.allocator();
        let shared = Arc::new(alloc, IndexedColumns::new(columns)?)?;
        Ok(Columns {
            alloc,
            shared: Some(shared),
        })
    }

    /// The columns.
    pub fn as_slice(&self) -> &[Column]
        ensures { result.now ≡ self.now }
    {
        match &self.shared {
            Some(columns) => columns.as_slice(),
            None => &[],
        }
    }

    /// Puts one more column at the end. Where there is no memory the columns stay and the new one is dropped.
    pub fn push(&mut self, column: Column) -> Result<(), OutOfMemory>
        ensures { self.new ≡ (if is_ok result then self.old ++ column ∷ [] else self.old) }
    {
        let mut columns = self.as_slice().to_vec(self.alloc)?;
        columns.push(column)?;
        self.shared = Some(Arc::new(self.alloc, IndexedColumns::new(columns)?)?);
        Ok(())
    }

    /// The same columns, which the two share.
    pub fn copy(&self) -> Result<Columns, OutOfMemory>
        ensures { IfOk result (λ made. made ≡ self.now) }
    {
        match &self.shared {
            Some(shared) => match shared.clone() {
                Ok(shared) => Ok(Columns {
                    alloc: self.alloc,
                    shared: Some(shared),
                }),
                Err(_) => Err(OutOfMemory),
            },
            None => Ok(Columns::empty(self.alloc)),
        }
    }
}

/// The column of this name. Names are compared byte for byte.
pub fn column_named<'a>(columns: &'a Columns, name: &Name) -> Option<&'a Column>
    ensures { option_copied result ≡ column_named columns.now name.now }
{
    match &columns.shared {
        Some(columns) => columns.named(name),
        None => None,
    }
}

/// The column of this number.
pub fn column_of_id(columns: &[Column], id: ColumnId) -> Option<&Column>
    ensures { option_copied result ≡ column_of_id columns.now id.0 }
{
    columns.iter().find(|column| column.id == id)
}

/// Whether one of the columns has this number.
pub fn has_number(columns: &[Column], id: ColumnId) -> bool
    ensures { result ≡ list_any (λ column. column.id.0 == id.0) columns.now }
{
    columns.iter().any(|column| column.id == id)
}
