//! Reading schema changes.

ghost use Rattle.std.specs.Prelude.{◌≡◌, ◌<◌, ◌^◌, Some, None};
ghost use Rattle.std.specs.Int.{w16, w32};
ghost use Rattle.log_grammar.specs.EntryReading.{bit, column_at, condition_at, conditions_at, flags_of, index_at, index_head_at, many_at, schema_at, segment_at, segments_at, step_at, type_at, type_of};
ghost use Rattle.log_record.specs.EntrySeen.{Gives};

use crate::fault::EntryFault;
use crate::reading::{flagged_of, read_name, read_u16, read_u32, u8_at};
use column_set::Column;
use index_derive::{Condition, IndexFlags, IndexRule, SchemaStep, Segment};
use jet_base::{ColType, ColumnId, IndexId, Items, TableId};
use std::alloc::Global;

/// The length of the keys of an index that says nothing of it.
pub const KEY_MOST: u16 = 255;

/// The type that a number stands for.
fn type_of(number: u8) -> Option<ColType>
    ensures { result ≡ type_of number }
{
    Some(match number {
        1 => ColType::Bit,
        2 => ColType::UnsignedByte,
        3 => ColType::Short,
        4 => ColType::UnsignedShort,
        5 => ColType::Long,
        6 => ColType::UnsignedLong,
        7 => ColType::LongLong,
        8 => ColType::Currency,
        9 => ColType::Guid,
        10 => ColType::Binary,
        11 => ColType::Text,
        12 => ColType::LongBinary,
        13 => ColType::LongText,
        _ => return None,
    })
}

/// A type.
#[tactic(auto, unfolding(log_grammar::specs::EntryReading::type_at))]
fn type_in(bytes: &[u8]) -> Result<(ColType, &[u8]), EntryFault>
    ensures { Gives (λ x. (x.0, x.1.now)) result (type_at bytes.now) }
{
    let (number, rest) = u8_at(bytes)?;
    let Some(kind) = type_of(number) else {
        return Err(EntryFault::BadEntry);
    };
    Ok((kind, rest))
}

/// Whether a bit is set.
fn bit(flags: u16, weight: u16) -> bool
    requires { 0 < weight }
    ensures { result ≡ bit weight flags }
{
    flags / weight % 2 == 1
}

/// What is told of a column beside its number.
#[tactic(auto, unfolding(log_grammar::specs::EntryReading::column_at))]
pub fn read_column(alloc: Global, id: u16, bytes: &[u8]) -> Result<(Column, &[u8]), EntryFault>
    ensures { Gives (λ x. (x.0, x.1.now)) result (column_at id bytes.now) }
{
    let (kind, rest) = type_in(bytes)?;
    let (flags, rest) = u8_at(rest)?;
    if flags >= 16 {
        return Err(EntryFault::BadEntry);
    }
    let (name, rest) = read_name(alloc, rest)?;
    let flags = flags as u16;
    let column = Column {
        id: ColumnId(id),
        name,
        kind,
        tagged: bit(flags, 1),
        multi: bit(flags, 2),
        not_null: bit(flags, 4),
        escrow: bit(flags, 8),
        version: false,
        auto: false,
    };
    Ok((column, rest))
}

/// A segment of an index.
#[tactic(auto, unfolding(log_grammar::specs::EntryReading::segment_at))]
fn segment_of(bytes: &[u8]) -> Result<(Segment, &[u8]), EntryFault>
    ensures { Gives (λ x. (x.0, x.1.now)) result (segment_at bytes.now) }
{
    let ((column, descending), rest) = flagged_of(bytes)?;
    let column = ColumnId(column);
    Ok((Segment { column, descending }, rest))
}

/// A condition of an index.
#[tactic(auto, unfolding(log_grammar::specs::EntryReading::condition_at))]
fn condition_of(bytes: &[u8]) -> Result<(Condition, &[u8]), EntryFault>
    ensures { Gives (λ x. (x.0, x.1.now)) result (condition_at bytes.now) }
{
    let ((column, must_be_null), rest) = flagged_of(bytes)?;
    let column = ColumnId(column);
    Ok((
        Condition {
            column,
            must_be_null,
        },
        rest,
    ))
}

/// So many segments.
fn so_many_segments(
    alloc: Global,
    bytes: &[u8],
    count: u8,
) -> Result<(Vec<Segment>, &[u8]), EntryFault>
    ensures { Gives (λ x. (x.0.items, x.1.now)) result (many_at segment_at count bytes.now) }
{
    let mut segments = Vec::new(alloc);
    let mut rest = bytes;
    for _ in 0..count {
        let (segment, after) = segment_of(rest)?;
        segments.push(segment)?;
        rest = after;
    }
    Ok((segments, rest))
}

/// So many conditions.
fn so_many_conditions(
    alloc: Global,
    bytes: &[u8],
    count: u8,
) -> Result<(Vec<Condition>, &[u8]), EntryFault>
    ensures { Gives (λ x. (x.0.items, x.1.now)) result (many_at condition_at count bytes.now) }
{
    let mut conditions = Vec::new(alloc);
    let mut rest = bytes;
    for _ in 0..count {
        let (condition, after) = condition_of(rest)?;
        conditions.push(condition)?;
        rest = after;
    }
    Ok((conditions, rest))
}

/// The segments of an index behind their count.
#[tactic(auto, unfolding(log_grammar::specs::EntryReading::segments_at))]
pub fn read_segments(alloc: Global, bytes: &[u8]) -> Result<(Items<Segment>, &[u8]), EntryFault>
    ensures { Gives (λ x. (x.0, x.1.now)) result (segments_at bytes.now) }
{
    let (count, rest) = u8_at(bytes)?;
    let (segments, rest) = so_many_segments(alloc, rest, count)?;
    Ok((Items::new(segments), rest))
}

/// The conditions of an index behind their count.
#[tactic(auto, unfolding(log_grammar::specs::EntryReading::conditions_at))]
pub fn read_conditions(alloc: Global, bytes: &[u8]) -> Result<(Items<Condition>, &[u8]), EntryFault>
    ensures { Gives (λ x. (x.0, x.1.now)) result (conditions_at bytes.now) }
{
    let (count, rest) = u8_at(bytes)?;
    let (conditions, rest) = so_many_conditions(alloc, rest, count)?;
    Ok((Items::new(conditions), rest))
}

/// The flags that a number has as bits.
pub fn index_flags_of(flags: u16) -> IndexFlags
    ensures { result ≡ flags_of flags }
{
    IndexFlags {
        primary: bit(flags, 1),
        unique: bit(flags, 2),
        disallownull: bit(flags, 4),
        ignorenull: bit(flags, 8),
        ignoreanynull: bit(flags, 16),
        ignorefirstnull: bit(flags, 32),
        sortnullshigh: bit(flags, 64),
        crossproduct: bit(flags, 128),
        disallowtruncation: bit(flags, 256),
        tuples: bit(flags, 512),
    }
}

/// The root of an index, which a new one does not have yet, its order of making and its flags.
#[tactic(auto, unfolding(log_grammar::specs::EntryReading::index_head_at))]
fn index_head_of(bytes: &[u8]) -> Result<((u32, IndexFlags), &[u8]), EntryFault>
    ensures { Gives (λ x. (x.0, x.1.now)) result (index_head_at bytes.now) }
{
    let (root, rest) = read_u32(bytes)?;
    if root != 0 {
        return Err(EntryFault::BadEntry);
    }
    let (order, rest) = read_u32(rest)?;
    let (flags, rest) = read_u16(rest)?;
    if flags >= 1024 {
        return Err(EntryFault::BadEntry);
    }
    Ok(((order, index_flags_of(flags)), rest))
}

/// What is told of an index beside its number.
#[tactic(auto, unfolding(log_grammar::specs::EntryReading::index_at))]
fn index_of(alloc: Global, id: u16, bytes: &[u8]) -> Result<(IndexRule, &[u8]), EntryFault>
    ensures { Gives (λ x. (x.0, x.1.now)) result (index_at id bytes.now) }
{
    let ((order, flags), rest) = index_head_of(bytes)?;
    let (segments, rest) = read_segments(alloc, rest)?;
    let (conditions, rest) = read_conditions(alloc, rest)?;
    let (name, rest) = read_name(alloc, rest)?;
    let index = IndexRule {
        id: IndexId(id),
        name,
        order,
        segments,
        flags,
        conditions,
        key_most: KEY_MOST,
    };
    Ok((index, rest))
}

/// A table that is made.
#[tactic(auto, unfolding(log_grammar::specs::EntryReading::step_at))]
fn table_step(
    alloc: Global,
    table: TableId,
    bytes: &[u8],
) -> Result<(SchemaStep, &[u8]), EntryFault>
    ensures { Gives (λ x. (x.0, x.1.now)) result (step_at 1 table.0 bytes.now) }
{
    let (name, rest) = read_name(alloc, bytes)?;
    Ok((SchemaStep::CreateTable { table, name }, rest))
}

/// A column that is added.
#[tactic(auto, unfolding(log_grammar::specs::EntryReading::step_at))]
fn column_step(
    alloc: Global,
    table: TableId,
    bytes: &[u8],
) -> Result<(SchemaStep, &[u8]), EntryFault>
    ensures { Gives (λ x. (x.0, x.1.now)) result (step_at 3 table.0 bytes.now) }
{
    let (id, rest) = read_u16(bytes)?;
    let (column, rest) = read_column(alloc, id, rest)?;
    Ok((SchemaStep::AddColumn { table, column }, rest))
}

/// An index that is made.
#[tactic(auto, unfolding(log_grammar::specs::EntryReading::step_at))]
fn index_step(
    alloc: Global,
    table: TableId,
    bytes: &[u8],
) -> Result<(SchemaStep, &[u8]), EntryFault>
    ensures { Gives (λ x. (x.0, x.1.now)) result (step_at 5 table.0 bytes.now) }
{
    let (id, rest) = read_u16(bytes)?;
    let (index, rest) = index_of(alloc, id, rest)?;
    Ok((SchemaStep::CreateIndex { table, index }, rest))
}

/// What a kind of schema change has behind its table.
#[tactic(auto, unfolding(log_grammar::specs::EntryReading::step_at))]
fn step_of(
    alloc: Global,
    number: u8,
    table: u32,
    bytes: &[u8],
) -> Result<(SchemaStep, &[u8]), EntryFault>
    ensures { Gives (λ x. (x.0, x.1.now)) result (step_at number table bytes.now) }
{
    let table = TableId(table);
    match number {
        1 => table_step(alloc, table, bytes),
        2 => Ok((SchemaStep::DeleteTable { table }, bytes)),
        3 => column_step(alloc, table, bytes),
        4 => {
            let (id, rest) = read_u16(bytes)?;
            let column = ColumnId(id);
            Ok((SchemaStep::DeleteColumn { table, column }, rest))
        }
        5 => index_step(alloc, table, bytes),
        6 => {
            let (id, rest) = read_u16(bytes)?;
            let index = IndexId(id);
            Ok((SchemaStep::DeleteIndex { table, index }, rest))
        }
        _ => Err(EntryFault::BadEntry),
    }
}

/// A schema change: its kind, its table and what its kind has.
#[tactic(auto, unfolding(log_grammar::specs::EntryReading::schema_at))]
pub fn schema_of(alloc: Global, bytes: &[u8]) -> Result<(SchemaStep, &[u8]), EntryFault>
    ensures { Gives (λ x. (x.0, x.1.now)) result (schema_at bytes.now) }
{
    let (number, rest) = u8_at(bytes)?;
    let (table, rest) = read_u32(rest)?;
    step_of(alloc, number, table, rest)
}
