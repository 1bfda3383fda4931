//! The table of the generated script, and the calls that make it.

ghost use Rattle.std.specs.Prelude.{◌≡◌, ◌<◌, IfOk, Some, option_map, slice_get};
ghost use Rattle.load_gen.specs.Table.{add_column, add_columns, add_numbered_columns, create_index, cursor, index_column, index_conditions, index_flags, index_name, last_digit, numbered_name, opening_calls, table_name, load_indexes};

use index_derive::{IndexFlags, NamedCondition, NamedSegment};
use jet_base::{ColType, ColumnFlags, CursorId, Items, Name, OutOfMemory};
use session_local::{Apart, Request};
use std::alloc::Global;

/// The one cursor of the script.
pub(crate) const CURSOR: CursorId = CursorId(1);

/// The calls before the records.
pub(crate) const OPENING_CALLS: u64 = 49;

/// The numbered columns: `a7` to `a40`.
pub(crate) const NUMBERED_COLUMNS: u64 = 34;

/// A column that is nothing special.
const PLAIN_COLUMN: ColumnFlags = ColumnFlags {
    not_null: false,
    tagged: false,
    multi: false,
    escrow: false,
    version: false,
    auto: false,
};

/// An index of the generated table, in the order in which they are made and walked.
#[derive(Clone, Copy, Debug, PartialEq, Eq)]
pub enum LoadIndex {
    /// `pk`: the primary index, on `id`.
    Primary,
    /// `ix_name`: unique, on `name`.
    Name,
    /// `ix_mail`, on `mail`.
    Mail,
    /// `ix_grp`, on `grp` where it has a value.
    Group,
    /// `ix_note`: the parts of `note`.
    Note,
    /// `ix_cond`, on `a7` where `grp` has a value.
    Conditional,
}

/// The indexes in their order.
pub const LOAD_INDEXES: [LoadIndex; 6] = [
    LoadIndex::Primary,
    LoadIndex::Name,
    LoadIndex::Mail,
    LoadIndex::Group,
    LoadIndex::Note,
    LoadIndex::Conditional,
];

impl LoadIndex {
    /// Its name.
    pub fn name(self) -> &'static [u8]
        ensures { result.now ≡ index_name self }
    {
        match self {
            LoadIndex::Primary => b"pk",
            LoadIndex::Name => b"ix_name",
            LoadIndex::Mail => b"ix_mail",
            LoadIndex::Group => b"ix_grp",
            LoadIndex::Note => b"ix_note",
            LoadIndex::Conditional => b"ix_cond",
        }
    }

    // the one column of its key
    fn column(self) -> &'static [u8]
        ensures { result.now ≡ index_column self }
    {
        match self {
            LoadIndex::Primary => b"id",
            LoadIndex::Name => b"name",
            LoadIndex::Mail => b"mail",
            LoadIndex::Group => b"grp",
            LoadIndex::Note => b"note",
            LoadIndex::Conditional => b"a7",
        }
    }

    fn flags(self) -> IndexFlags
        ensures { result ≡ index_flags self }
    {
        match self {
            LoadIndex::Primary => IndexFlags {
                primary: true,
                ..IndexFlags::NONE
            },
            LoadIndex::Name => IndexFlags {
                unique: true,
                ..IndexFlags::NONE
            },
            LoadIndex::Group => IndexFlags {
                ignoreanynull: true,
                ..IndexFlags::NONE
            },
            LoadIndex::Note => IndexFlags {
                tuples: true,
                ..IndexFlags::NONE
            },
            LoadIndex::Mail | LoadIndex::Conditional => IndexFlags::NONE,
        }
    }

    fn conditions(self, alloc: Global) -> Result<Items<NamedCondition>, OutOfMemory>
        ensures { IfOk result (λ made. made ≡ index_conditions self) }
    {
        let mut conditions = Items::empty(alloc);
        if let LoadIndex::Conditional = self {
            let column = Name::from_slice(alloc, b"grp")?;
            conditions.push(NamedCondition {
                column,
                must_be_null: false,
            })?;
        }
        Ok(conditions)
    }
}

/// The name of the table.
fn table_name(alloc: Global) -> Result<Name, OutOfMemory>
    ensures { IfOk result (λ made. made ≡ table_name) }
{
    Name::from_slice(alloc, b"load")
}

/// The last decimal digit of a number.
pub(crate) fn last_digit(number: u32) -> u8
    ensures { result ≡ last_digit number }
{
    b'0' + (number % 10) as u8
}

/// The name of a numbered column, below 100.
pub(crate) fn numbered_name(alloc: Global, number: u32) -> Result<Name, OutOfMemory>
    ensures { IfOk result (λ made. made ≡ numbered_name number) }
{
    let ones = last_digit(number);
    if number < 10 {
        Name::from_slice(alloc, &[b'a', ones])
    } else {
        Name::from_slice(alloc, &[b'a', last_digit(number / 10), ones])
    }
}

/// Call `place` of those before the records, from 0.
#[tactic(auto, using(crate::proofs::Opening::opening))]
pub(crate) fn opening_call(alloc: Global, place: u64) -> Result<Option<Request>, OutOfMemory>
    ensures { IfOk result (λ made. made ≡ slice_get opening_calls place) }
{
    if place == 0 {
        Ok(Some(Request::BeginSession))
    } else if place == 1 {
        let table = table_name(alloc)?;
        Ok(Some(Request::CreateTable { table }))
    } else if place < 42 {
        add_column_at(alloc, place - 2)
    } else if place < 48 {
        create_index_at(alloc, place - 42)
    } else if place == 48 {
        let table = table_name(alloc)?;
        Ok(Some(Request::OpenTable {
            cursor: CURSOR,
            table,
        }))
    } else {
        Ok(None)
    }
}

/// The call that makes a column.
fn add_column(
    alloc: Global,
    column: Name,
    kind: ColType,
    flags: ColumnFlags,
) -> Result<Option<Request>, OutOfMemory>
    ensures { IfOk result (λ made. made ≡ Some (add_column column kind flags)) }
{
    let table = table_name(alloc)?;
    Ok(Some(Request::AddColumn {
        table,
        column,
        kind,
        flags,
    }))
}

/// The call that makes a column of this name.
fn add_named_column(
    alloc: Global,
    column: &[u8],
    kind: ColType,
    flags: ColumnFlags,
) -> Result<Option<Request>, OutOfMemory>
    ensures { IfOk result (λ made. made ≡ Some (add_column column.now kind flags)) }
{
    let column = Name::from_slice(alloc, column)?;
    add_column(alloc, column, kind, flags)
}

/// The call that makes the column at this place, from 0.
#[tactic(auto, using(crate::proofs::Opening::columns))]
fn add_column_at(alloc: Global, place: u64) -> Result<Option<Request>, OutOfMemory>
    ensures { IfOk result (λ made. made ≡ slice_get add_columns place) }
{
    if place == 0 {
        add_named_column(alloc, b"id", ColType::Long, PLAIN_COLUMN)
    } else if place == 1 {
        add_named_column(alloc, b"name", ColType::Text, PLAIN_COLUMN)
    } else if place == 2 {
        let flags = ColumnFlags {
            tagged: true,
            multi: true,
            ..PLAIN_COLUMN
        };
        add_named_column(alloc, b"mail", ColType::Text, flags)
    } else if place == 3 {
        add_named_column(alloc, b"grp", ColType::Long, PLAIN_COLUMN)
    } else if place == 4 {
        add_named_column(alloc, b"note", ColType::LongText, PLAIN_COLUMN)
    } else if place == 5 {
        let flags = ColumnFlags {
            escrow: true,
            ..PLAIN_COLUMN
        };
        add_named_column(alloc, b"hits", ColType::Long, flags)
    } else {
        add_numbered_column_at(alloc, place - 6)
    }
}

/// The call that makes the numbered column at this place, from 0.
#[tactic(auto, using(crate::proofs::Opening::columns))]
fn add_numbered_column_at(alloc: Global, place: u64) -> Result<Option<Request>, OutOfMemory>
    ensures { IfOk result (λ made. made ≡ slice_get add_numbered_columns place) }
{
    if NUMBERED_COLUMNS <= place {
        return Ok(None);
    }
    let column = numbered_name(alloc, 7 + place as u32)?;
    add_column(alloc, column, ColType::Long, PLAIN_COLUMN)
}

/// The call that makes the index at this place, from 0.
#[tactic(auto, using(crate::proofs::Opening::indexes))]
fn create_index_at(alloc: Global, place: u64) -> Result<Option<Request>, OutOfMemory>
    ensures { IfOk result (λ made. made ≡ option_map create_index (slice_get load_indexes place)) }
{
    match LOAD_INDEXES.get(place as usize) {
        Some(index) => create_index(alloc, *index),
        None => Ok(None),
    }
}

/// The call that makes an index.
fn create_index(alloc: Global, made: LoadIndex) -> Result<Option<Request>, OutOfMemory>
    ensures { IfOk result (λ call. call ≡ Some (create_index made)) }
{
    let mut segments = Items::empty(alloc);
    let column = Name::from_slice(alloc, made.column())?;
    segments.push(NamedSegment {
        column,
        descending: false,
    })?;
    let segments = Apart::new(alloc, segments)?;
    let conditions = Apart::new(alloc, made.conditions(alloc)?)?;
    let index = Apart::new(alloc, Name::from_slice(alloc, made.name())?)?;
    let table = table_name(alloc)?;
    Ok(Some(Request::CreateIndex {
        table,
        index,
        flags: made.flags(),
        key_most: 255,
        segments,
        conditions,
    }))
}
