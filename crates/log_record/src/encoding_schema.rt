//! Writing schema changes.

ghost use Rattle.std.specs.Prelude.{◌≡◌, ◌<◌, ◌≤◌, ◌^◌, ◌+◌, ◌*◌, ◌∷◌, [], ◌++◌, length, vec_len, IsTrue};
ghost use Rattle.std.specs.Vec.{vec_capacity};
ghost use Rattle.std.specs.Int.{w16, w32, to_le_bytes};
ghost use Rattle.std.specs.List.{flat_map};
ghost use Rattle.log_grammar.specs.EntryBytes.{bool_byte, column_bytes, column_flags, condition_bytes, index_bytes, index_flags, number_of_bits, schema_bytes, schema_fits, schema_kind, segment_bytes, type_number};
ghost use Rattle.log_record.specs.EntrySizes.{size_of_column, size_of_index, size_of_schema};

use crate::append::{append, append_byte};
use crate::put::{put_flagged, put_name, put_number, put_table};
use column_set::Column;
use index_derive::{Condition, IndexFlags, IndexRule, SchemaStep, Segment};
use jet_base::ColType;

/// The number of a type in files.
pub fn type_number(kind: ColType) -> u8
    ensures { result ≡ type_number kind }
{
    match kind {
        ColType::Bit => 1,
        ColType::UnsignedByte => 2,
        ColType::Short => 3,
        ColType::UnsignedShort => 4,
        ColType::Long => 5,
        ColType::UnsignedLong => 6,
        ColType::LongLong => 7,
        ColType::Currency => 8,
        ColType::Guid => 9,
        ColType::Binary => 10,
        ColType::Text => 11,
        ColType::LongBinary => 12,
        ColType::LongText => 13,
    }
}

/// A flag in front of others.
fn with_bit(flag: bool, others: u16) -> u16
    requires { others < 2 ^ 15 }
    ensures { result ≡ bool_byte flag + 2 * others }
{
    flag as u16 + 2 * others
}

/// The flags of a column as bits.
pub fn column_flags(column: &Column) -> u8
    ensures { result ≡ column_flags column.now }
{
    column.tagged as u8
        + 2 * (column.multi as u8 + 2 * (column.not_null as u8 + 2 * column.escrow as u8))
}

/// The upper five flags of an index as bits.
fn upper_index_flags(flags: &IndexFlags) -> u16
    ensures value { result ≡ number_of_bits (flags.now.ignorefirstnull ∷ flags.now.sortnullshigh ∷ flags.now.crossproduct ∷ flags.now.disallowtruncation ∷ flags.now.tuples ∷ []) }
    ensures small { result < 32 }
{
    let upper = with_bit(flags.disallowtruncation, with_bit(flags.tuples, 0));
    let upper = with_bit(flags.sortnullshigh, with_bit(flags.crossproduct, upper));
    with_bit(flags.ignorefirstnull, upper)
}

/// The flags of an index as bits.
pub fn index_flags(flags: &IndexFlags) -> u16
    ensures { result ≡ index_flags flags.now }
{
    let upper = with_bit(flags.ignoreanynull, upper_index_flags(flags));
    let upper = with_bit(flags.disallownull, with_bit(flags.ignorenull, upper));
    with_bit(flags.primary, with_bit(flags.unique, upper))
}

/// Writes what is told of a column beside its number.
fn put_column(bytes: &mut Vec<u8>, column: &Column)
    requires short { length column.now.name < 256 }
    requires room { vec_len bytes.old + size_of_column column.now ≤ vec_capacity bytes.old }
    ensures items { bytes.new.items ≡ bytes.old.items ++ column_bytes column.now }
    ensures len { vec_len bytes.new ≡ vec_len bytes.old + size_of_column column.now }
    ensures room { vec_capacity bytes.old ≤ vec_capacity bytes.new }
{
    append_byte(bytes, type_number(column.kind));
    append_byte(bytes, column_flags(column));
    put_name(bytes, &column.name);
}

/// Writes the segments of an index, their count before them.
fn put_segments(bytes: &mut Vec<u8>, segments: &[Segment])
    requires few { length segments.now < 256 }
    requires room { vec_len bytes.old + (1 + 3 * length segments.now) ≤ vec_capacity bytes.old }
    ensures items { bytes.new.items ≡ bytes.old.items ++ (length segments.now ∷ flat_map segment_bytes segments.now) }
    ensures len { vec_len bytes.new ≡ vec_len bytes.old + (1 + 3 * length segments.now) }
    ensures room { vec_capacity bytes.old ≤ vec_capacity bytes.new }
{
    append_byte(bytes, segments.len() as u8);
    for segment in segments {
        put_flagged(bytes, segment.column.0, segment.descending);
    }
}

/// Writes the conditions of an index, their count before them.
fn put_conditions(bytes: &mut Vec<u8>, conditions: &[Condition])
    requires few { length conditions.now < 256 }
    requires room { vec_len bytes.old + (1 + 3 * length conditions.now) ≤ vec_capacity bytes.old }
    ensures items { bytes.new.items ≡ bytes.old.items ++ (length conditions.now ∷ flat_map condition_bytes conditions.now) }
    ensures len { vec_len bytes.new ≡ vec_len bytes.old + (1 + 3 * length conditions.now) }
    ensures room { vec_capacity bytes.old ≤ vec_capacity bytes.new }
{
    append_byte(bytes, conditions.len() as u8);
    for condition in conditions {
        put_flagged(bytes, condition.column.0, condition.must_be_null);
    }
}

/// Writes the root of a new index, which has none yet, its order of making and its flags.
fn put_index_head(bytes: &mut Vec<u8>, order: u32, flags: &IndexFlags)
    requires { vec_len bytes.old + 10 ≤ vec_capacity bytes.old }
    ensures items { bytes.new.items ≡ bytes.old.items ++ (to_le_bytes w32 0 ++ (to_le_bytes w32 order ++ to_le_bytes w16 (index_flags flags.now))) }
    ensures len { vec_len bytes.new ≡ vec_len bytes.old + 10 }
    ensures room { vec_capacity bytes.old ≤ vec_capacity bytes.new }
{
    let flags = index_flags(flags);
    append(bytes, &[0, 0, 0, 0]);
    append(bytes, &order.to_le_bytes());
    put_number(bytes, flags);
}

/// Writes what is told of an index beside its number.
#[tactic(auto, unfolding(log_grammar::specs::EntryBytes::index_bytes))]
fn put_index(bytes: &mut Vec<u8>, index: &IndexRule)
    requires segments { length index.now.segments < 256 }
    requires conditions { length index.now.conditions < 256 }
    requires name { length index.now.name < 256 }
    requires room { vec_len bytes.old + size_of_index index.now ≤ vec_capacity bytes.old }
    ensures items { bytes.new.items ≡ bytes.old.items ++ index_bytes index.now }
    ensures len { vec_len bytes.new ≡ vec_len bytes.old + size_of_index index.now }
    ensures room { vec_capacity bytes.old ≤ vec_capacity bytes.new }
{
    put_index_head(bytes, index.order, &index.flags);
    put_segments(bytes, index.segments.as_slice());
    put_conditions(bytes, index.conditions.as_slice());
    put_name(bytes, &index.name);
}

/// Writes a schema change: its kind, its table and what its kind has.
#[tactic(auto)]
pub fn put_schema(bytes: &mut Vec<u8>, step: &SchemaStep)
    requires fits { IsTrue (schema_fits step.now) }
    requires room { vec_len bytes.old + (1 + size_of_schema step.now) ≤ vec_capacity bytes.old }
    ensures items { bytes.new.items ≡ bytes.old.items ++ (schema_kind step.now ∷ schema_bytes step.now) }
    ensures len { vec_len bytes.new ≡ vec_len bytes.old + (1 + size_of_schema step.now) }
    ensures room { vec_capacity bytes.old ≤ vec_capacity bytes.new }
{
    match step {
        SchemaStep::CreateTable { table, name } => {
            append_byte(bytes, 1);
            put_table(bytes, table.0);
            put_name(bytes, name);
        }
        SchemaStep::DeleteTable { table } => {
            append_byte(bytes, 2);
            put_table(bytes, table.0);
        }
        SchemaStep::AddColumn { table, column } => {
            append_byte(bytes, 3);
            put_table(bytes, table.0);
            put_number(bytes, column.id.0);
            put_column(bytes, column);
        }
        SchemaStep::DeleteColumn { table, column } => {
            append_byte(bytes, 4);
            put_table(bytes, table.0);
            put_number(bytes, column.0);
        }
        SchemaStep::CreateIndex { table, index } => {
            append_byte(bytes, 5);
            put_table(bytes, table.0);
            put_number(bytes, index.id.0);
            put_index(bytes, index);
        }
        SchemaStep::DeleteIndex { table, index } => {
            append_byte(bytes, 6);
            put_table(bytes, table.0);
            put_number(bytes, index.0);
        }
    }
}
