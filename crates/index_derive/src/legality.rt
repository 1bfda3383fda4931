//! Which rules are legal.

ghost use Rattle.std.specs.Prelude.{◌≡◌, ◌==◌, ◌++◌, map, count_by};
ghost use Rattle.std.specs.List.{list_any};
ghost use Rattle.index_derive.specs.Entries.{is_legal, is_multi_column, is_escrow_column, type_of_column, is_text_type, has_double_number, has_ignore_flag, is_legal_primary, is_tuples_key, is_legal_tuples, key_columns, condition_columns};
ghost use Rattle.index_derive.specs.Columns.{columns_of};

use crate::rules::{Condition, IndexFlags, IndexRule, Schema, Segment};
use jet_base::{ColType, ColumnId};

/// The most columns of a key, and the most conditions of an index.
pub const MOST_KEY_COLUMNS: usize = 12;
/// The most bytes of a key where its index asks for no more.
pub const USUAL_KEY_MOST: u16 = 255;
/// The most bytes that an index may ask for.
pub const GREATEST_KEY_MOST: u16 = 500;
/// The most columns with several values where there is an entry for each combination.
const MOST_CROSSED: usize = 2;

/// Whether an index may have the rule in a table of the schema.
///
/// It has 1 to 12 key columns, each once, and up to 12 conditions, none of them on a sum. A primary index has every
/// record once. An index of parts of texts has one ascending column of a text type. Where there is an entry for each
/// combination, two columns at most have several values.
#[tactic(auto, unfolding(crate::specs::Entries::is_legal))]
pub fn legal(rule: &IndexRule, schema: &Schema) -> bool
    ensures { result ≡ is_legal rule.now schema.now }
{
    let segments = rule.segments.as_slice();
    !segments.is_empty()
        && segments.len() <= MOST_KEY_COLUMNS
        && !has_double_column(segments)
        && rule.conditions.as_slice().len() <= MOST_KEY_COLUMNS
        && !has_sum(rule, schema)
        && USUAL_KEY_MOST <= rule.key_most
        && rule.key_most <= GREATEST_KEY_MOST
        && (!rule.flags.primary || is_legal_primary(rule, schema))
        && (!rule.flags.crossproduct || crossed_columns(segments, schema) <= MOST_CROSSED)
        && (!rule.flags.tuples || is_legal_tuples(rule, schema))
}

/// Whether the column is multi-valued.
pub(crate) fn is_multi(schema: &Schema, id: ColumnId) -> bool
    ensures { result ≡ is_multi_column schema.now id.0 }
{
    match schema.column_of_id(id) {
        Some(column) => column.multi,
        None => false,
    }
}

/// The column's type.
pub(crate) fn kind_of(schema: &Schema, id: ColumnId) -> ColType
    ensures { result ≡ type_of_column schema.now id.0 }
{
    match schema.column_of_id(id) {
        Some(column) => column.kind,
        None => ColType::Binary,
    }
}

/// Whether the column is a sum.
fn is_sum(schema: &Schema, id: ColumnId) -> bool
    ensures { result ≡ is_escrow_column schema.now id.0 }
{
    match schema.column_of_id(id) {
        Some(column) => column.escrow,
        None => false,
    }
}

/// Whether a key or a condition asks of a sum.
#[tactic(auto, using(crate::proofs::Lists::list_any_append))]
fn has_sum(rule: &IndexRule, schema: &Schema) -> bool
    ensures { result ≡ list_any (is_escrow_column schema.now) (key_columns rule.now ++ condition_columns rule.now) }
{
    has_sum_in_key(rule.segments.as_slice(), schema)
        || has_sum_in_conditions(rule.conditions.as_slice(), schema)
}

/// Whether a column of the key is a sum.
fn has_sum_in_key(segments: &[Segment], schema: &Schema) -> bool
    ensures { result ≡ list_any (is_escrow_column schema.now) (columns_of segments.now) }
{
    segments
        .iter()
        .any(|segment| is_sum(schema, segment.column))
}

/// Whether a condition asks of a sum.
fn has_sum_in_conditions(conditions: &[Condition], schema: &Schema) -> bool
    ensures { result ≡ list_any (is_escrow_column schema.now) (map (λ condition. condition.column.0) conditions.now) }
{
    conditions
        .iter()
        .any(|condition| is_sum(schema, condition.column))
}

/// Whether a column stands twice in the key.
fn has_double_column(segments: &[Segment]) -> bool
    ensures { result ≡ has_double_number (columns_of segments.now) }
{
    for (i, segment) in segments.iter().enumerate() {
        if has_column(&segments[i + 1..], segment.column) {
            return true;
        }
    }
    false
}

/// Whether the column stands among them.
fn has_column(segments: &[Segment], column: ColumnId) -> bool
    ensures { result ≡ list_any (λ id. id == column.0) (columns_of segments.now) }
{
    segments.iter().any(|segment| segment.column == column)
}

/// How many columns of the key are multi-valued.
fn crossed_columns(segments: &[Segment], schema: &Schema) -> usize
    ensures { result ≡ count_by (is_multi_column schema.now) (columns_of segments.now) }
{
    segments
        .iter()
        .filter(|segment| is_multi(schema, segment.column))
        .count()
}

/// Whether a column of the key is multi-valued.
fn has_multi(segments: &[Segment], schema: &Schema) -> bool
    ensures { result ≡ list_any (is_multi_column schema.now) (columns_of segments.now) }
{
    segments
        .iter()
        .any(|segment| is_multi(schema, segment.column))
}

/// Whether the rule is one of a primary index.
fn is_legal_primary(rule: &IndexRule, schema: &Schema) -> bool
    ensures { result ≡ is_legal_primary rule.now schema.now }
{
    !has_multi(rule.segments.as_slice(), schema)
        && rule.conditions.as_slice().is_empty()
        && !has_ignore_flag(rule.flags)
        && !rule.flags.tuples
        && !rule.flags.crossproduct
        && rule.key_most == USUAL_KEY_MOST
}

/// Whether entries with NULLs are left out.
fn has_ignore_flag(flags: IndexFlags) -> bool
    ensures { result ≡ has_ignore_flag flags }
{
    flags.ignorenull || flags.ignoreanynull || flags.ignorefirstnull
}

/// Whether the rule is one of an index of parts of texts.
fn is_legal_tuples(rule: &IndexRule, schema: &Schema) -> bool
    ensures { result ≡ is_legal_tuples rule.now schema.now }
{
    is_tuples_key(rule.segments.as_slice(), schema)
        && !rule.flags.primary
        && !rule.flags.unique
        && !rule.flags.crossproduct
}

/// Whether the key is one ascending column of a text type.
fn is_tuples_key(segments: &[Segment], schema: &Schema) -> bool
    ensures { result ≡ is_tuples_key schema.now segments.now }
{
    match segments {
        [segment] => !segment.descending && is_text(kind_of(schema, segment.column)),
        _ => false,
    }
}

/// Whether the type is one of texts.
fn is_text(kind: ColType) -> bool
    ensures { result ≡ is_text_type kind }
{
    matches!(kind, ColType::Text | ColType::LongText)
}
