//! The rules that a catalog keeps.

ghost use Rattle.std.specs.Prelude.{◌≡◌, ◌==◌, ◌&&◌, true, nat_le, length, map, filter, bytes_eq, IfOk};
ghost use Rattle.std.specs.List.{list_all, list_any};
ghost use Rattle.database_state.specs.Lawful.{is_name};
ghost use Rattle.database_state.specs.SchemaChanges.{has_column, rule_columns};
ghost use Rattle.laws_engine.specs.ColumnNumbers.{are_in_range, has_own_numbers, is_given_number};
ghost use Rattle.laws_images.specs.SoundStates.{is_number_of_kind, is_sound_column, is_sound_index};
ghost use Rattle.session_local.specs.SessionSide.{are_distinct};
ghost use Rattle.session_local.specs.WellFormed.{number_of_column};
ghost use Rattle.image_findings.specs.CatalogFindings.{are_given, differ, has_sound_columns, has_sound_indexes, have_own_names, is_sound_catalog, is_sound_table};

use crate::told::{MOST_TABLES, columns_rise};
use column_set::{Column, has_number};
use index_derive::{Condition, IndexRule, Segment, has_double, legal};
use jet_base::{ColType, Name, OutOfMemory};
use jet_catalog::{
    GreatestColumns, LAST_FIXED, LAST_TAGGED, LAST_VARIABLE, TableDef, is_type_long,
};
use key_normal::Key;
use log_record::name_fits;
use std::alloc::Global;

/// The most indexes of a table, the primary one included.
pub const MOST_INDEXES: usize = 64;

/// Whether the greatest numbers are of their kinds.
fn are_in_range(greatest: &GreatestColumns) -> bool
    ensures { result ≡ are_in_range greatest.now }
{
    greatest.fixed <= LAST_FIXED
        && LAST_FIXED <= greatest.variable
        && greatest.variable <= LAST_VARIABLE
        && LAST_VARIABLE <= greatest.tagged
        && greatest.tagged <= LAST_TAGGED
}

/// Whether a column's number is one that was given.
fn is_given(greatest: &GreatestColumns, column: &Column) -> bool
    ensures { result ≡ is_given_number greatest.now column.now }
{
    let id = column.id.0;
    if id <= LAST_FIXED {
        id <= greatest.fixed
    } else if id <= LAST_VARIABLE {
        id <= greatest.variable
    } else {
        id <= greatest.tagged
    }
}

/// Whether no two columns have one number: each is compared with each.
fn are_apart(columns: &[Column]) -> bool
    ensures { result ≡ are_distinct (map number_of_column columns.now) }
{
    let mut rest = columns;
    while let [first, others @ ..] = rest {
        if has_number(others, first.id) {
            return false;
        }
        rest = others;
    }
    true
}

/// Whether no two columns have one number. Numbers that rise, as a catalog tells them, are told apart in one pass.
fn numbers_differ(columns: &[Column]) -> bool
    ensures { result ≡ are_distinct (map number_of_column columns.now) }
{
    columns_rise(columns) || are_apart(columns)
}

/// Whether a number is one of a column's kind.
fn is_number_of_kind(kind: ColType, tagged: bool, id: u16) -> bool
    ensures { result ≡ is_number_of_kind kind tagged id }
{
    if tagged || kind.is_long() {
        LAST_VARIABLE + 1 <= id && id <= LAST_TAGGED
    } else if kind.is_variable() {
        LAST_FIXED + 1 <= id && id <= LAST_VARIABLE
    } else {
        1 <= id && id <= LAST_FIXED
    }
}

/// Whether a column is one that a table may have.
fn is_sound_column(column: &Column) -> bool
    ensures { result ≡ is_sound_column column.now }
{
    name_fits(&column.name)
        && is_number_of_kind(column.kind, column.tagged, column.id.0)
        && (column.tagged || !column.kind.is_long())
        && (!column.multi || column.tagged)
        && (!column.escrow || (is_type_long(column.kind) && !column.tagged && !column.multi))
}

/// Whether a table has each column of a key.
fn has_key_columns(table: &TableDef, segments: &[Segment]) -> bool
    ensures { result ≡ list_all (has_column table.now) (map (λ segment. segment.column.0) segments.now) }
{
    for segment in segments {
        if !table.has_column(segment.column) {
            return false;
        }
    }
    true
}

/// Whether a table has each column of conditions.
fn has_condition_columns(table: &TableDef, conditions: &[Condition]) -> bool
    ensures { result ≡ list_all (has_column table.now) (map (λ condition. condition.column.0) conditions.now) }
{
    for condition in conditions {
        if !table.has_column(condition.column) {
            return false;
        }
    }
    true
}

/// Whether a table has each column of the key and of the conditions of an index.
fn has_columns_of(table: &TableDef, rule: &IndexRule) -> bool
    ensures { result ≡ list_all (has_column table.now) (rule_columns rule.now) }
{
    has_key_columns(table, rule.segments.as_slice())
        && has_condition_columns(table, rule.conditions.as_slice())
}

/// Whether an index is one that a table may have. Only a legal one, which has few columns, is looked at further.
fn is_sound_index(table: &TableDef, rule: &IndexRule) -> bool
    ensures { result ≡ is_sound_index table.now rule.now }
{
    name_fits(&rule.name)
        && 1 <= rule.id.0
        && legal(rule, table.schema())
        && has_columns_of(table, rule)
}

/// The bytes of a name, to be sorted.
fn name_key(name: &Name) -> Key
    requires { is_name name.now ≡ true }
    ensures { result ≡ name.now }
{
    Key::from_slice(name.as_bytes())
}

/// Whether no two columns, each of which is sound, have one name.
fn column_names_differ(alloc: Global, columns: &[Column]) -> Result<bool, OutOfMemory>
    requires { list_all is_sound_column columns.now ≡ true }
    ensures { IfOk result (λ own. own ≡ differ (λ c d. bytes_eq c.name d.name) columns.now) }
{
    let mut names = Vec::new(alloc);
    for column in columns {
        names.push(name_key(&column.name))?;
    }
    Ok(!has_double(names))
}

/// Whether one of the indexes has this name.
fn has_named_index(rules: &[IndexRule], name: &Name) -> bool
    ensures { result ≡ list_any (λ rule. bytes_eq name.now rule.name) rules.now }
{
    rules.iter().any(|rule| *name == rule.name)
}

/// Whether one of the indexes has this order of making.
fn has_order(rules: &[IndexRule], order: u32) -> bool
    ensures { result ≡ list_any (λ rule. order == rule.order) rules.now }
{
    rules.iter().any(|rule| order == rule.order)
}

/// Whether one of the tables has this name.
fn has_named_table(tables: &[TableDef], name: &Name) -> bool
    ensures { result ≡ list_any (λ table. bytes_eq name.now table.name) tables.now }
{
    tables.iter().any(|table| name == table.name())
}

/// Whether no two indexes have one name.
fn index_names_differ(rules: &[IndexRule]) -> bool
    ensures { result ≡ differ (λ r s. bytes_eq r.name s.name) rules.now }
{
    let mut rest = rules;
    while let [first, others @ ..] = rest {
        if has_named_index(others, &first.name) {
            return false;
        }
        rest = others;
    }
    true
}

/// Whether no two indexes have one order of making.
fn orders_differ(rules: &[IndexRule]) -> bool
    ensures { result ≡ differ (λ r s. r.order == s.order) rules.now }
{
    let mut rest = rules;
    while let [first, others @ ..] = rest {
        if has_order(others, first.order) {
            return false;
        }
        rest = others;
    }
    true
}

/// Whether no two tables have one name.
fn table_names_differ(tables: &[TableDef]) -> bool
    ensures { result ≡ differ (λ t u. bytes_eq t.name u.name) tables.now }
{
    let mut rest = tables;
    while let [first, others @ ..] = rest {
        if has_named_table(others, first.name()) {
            return false;
        }
        rest = others;
    }
    true
}

/// How many indexes are primary.
fn primary_count(rules: &[IndexRule]) -> usize
    ensures { result ≡ length (filter (λ r. r.flags.primary) rules.now) }
{
    rules.iter().filter(|rule| rule.flags.primary).count()
}

/// Whether each column of a table has a number that was given.
fn are_all_given(table: &TableDef) -> bool
    ensures { result ≡ list_all (is_given_number table.now.greatest) table.now.columns }
{
    table
        .columns()
        .iter()
        .all(|column| is_given(table.greatest(), column))
}

/// Whether each column of a table has a number that was given, and the greatest numbers are of their kinds.
fn has_given_numbers(table: &TableDef) -> bool
    ensures { result ≡ (are_in_range table.now.greatest && list_all (is_given_number table.now.greatest) table.now.columns) }
{
    are_in_range(table.greatest()) && are_all_given(table)
}

/// Whether no two columns of a table have one number.
fn has_differing_numbers(table: &TableDef) -> bool
    ensures { result ≡ are_distinct (map number_of_column table.now.columns) }
{
    numbers_differ(table.columns())
}

/// Whether each column of a table has a number of its own that was given.
fn has_own_numbers(table: &TableDef) -> bool
    ensures { result ≡ has_own_numbers table.now }
{
    has_given_numbers(table) && has_differing_numbers(table)
}

/// Whether each column of a table is one that a table may have.
fn are_sound_columns(table: &TableDef) -> bool
    ensures { result ≡ list_all is_sound_column table.now.columns }
{
    table.columns().iter().all(is_sound_column)
}

/// Whether each column of a table is one that a table may have, with a number of its own that was given.
fn has_given_columns(table: &TableDef) -> bool
    ensures { result ≡ (has_own_numbers table.now && list_all is_sound_column table.now.columns) }
{
    has_own_numbers(table) && are_sound_columns(table)
}

/// Whether the columns of a table are those that one may have.
fn has_sound_columns(alloc: Global, table: &TableDef) -> Result<bool, OutOfMemory>
    ensures { IfOk result (λ sound. sound ≡ (has_own_numbers table.now && has_sound_columns table.now)) }
{
    if !has_given_columns(table) {
        return Ok(false);
    }
    column_names_differ(alloc, table.columns())
}

/// Whether a table has few indexes.
fn has_few_indexes(table: &TableDef) -> bool
    ensures { result ≡ nat_le (length table.now.indexes) 64 }
{
    table.indexes().len() <= MOST_INDEXES
}

/// Whether each index of a table is one that a table may have.
fn are_sound_indexes(table: &TableDef) -> bool
    ensures { result ≡ list_all (is_sound_index table.now) table.now.indexes }
{
    table
        .indexes()
        .iter()
        .all(|rule| is_sound_index(table, rule))
}

/// Whether no two indexes have one name or one order of making.
fn indexes_differ(rules: &[IndexRule]) -> bool
    ensures { result ≡ (differ (λ r s. bytes_eq r.name s.name) rules.now && differ (λ r s. r.order == s.order) rules.now) }
{
    index_names_differ(rules) && orders_differ(rules)
}

/// Whether the indexes of a table differ, each is one that a table may have, and one of them at most is primary.
fn has_differing_indexes(table: &TableDef) -> bool
    ensures { result ≡ (list_all (is_sound_index table.now) table.now.indexes && ((differ (λ r s. bytes_eq r.name s.name) table.now.indexes && differ (λ r s. r.order == s.order) table.now.indexes) && nat_le (length (filter (λ r. r.flags.primary) table.now.indexes)) 1)) }
{
    are_sound_indexes(table)
        && indexes_differ(table.indexes())
        && primary_count(table.indexes()) <= 1
}

/// Whether the indexes of a table are those that one may have.
fn has_sound_indexes(table: &TableDef) -> bool
    ensures { result ≡ has_sound_indexes table.now }
{
    has_few_indexes(table) && has_differing_indexes(table)
}

/// Whether a table is one that a catalog may have.
fn is_sound_table(alloc: Global, table: &TableDef) -> Result<bool, OutOfMemory>
    ensures { IfOk result (λ sound. sound ≡ is_sound_table table.now) }
{
    if !has_sound_indexes(table) {
        return Ok(false);
    }
    has_sound_columns(alloc, table)
}

/// Whether each table is one that a catalog may have.
fn are_sound_tables(alloc: Global, tables: &[TableDef]) -> Result<bool, OutOfMemory>
    ensures { IfOk result (λ sound. sound ≡ list_all is_sound_table tables.now) }
{
    for table in tables {
        if !is_sound_table(alloc, table)? {
            return Ok(false);
        }
    }
    Ok(true)
}

/// Whether there are few tables, each with a name of its own.
fn have_own_names(tables: &[TableDef]) -> bool
    ensures { result ≡ have_own_names tables.now }
{
    tables.len() <= MOST_TABLES && table_names_differ(tables)
}

/// Whether no table has a number above the greatest that was ever given.
fn are_given(greatest: u32, tables: &[TableDef]) -> bool
    ensures { result ≡ are_given greatest tables.now }
{
    tables.iter().all(|table| table.id().0 <= greatest)
}

/// Whether these tables and the greatest number that a table was ever given are those of a sound catalog.
///
/// It has 64 tables at most, with names of their own, and no number above the greatest. A table has columns with names and given numbers
/// of their own, and 64 indexes at most, one of them primary at most, with names and orders of making of their own. Tables and indexes
/// are compared each with each once they are few; names of columns are sorted.
pub fn is_sound_catalog(
    alloc: Global,
    greatest: u32,
    tables: &[TableDef],
) -> Result<bool, OutOfMemory>
    ensures { IfOk result (λ sound. sound ≡ is_sound_catalog greatest tables.now) }
{
    if !(have_own_names(tables) && are_given(greatest, tables)) {
        return Ok(false);
    }
    are_sound_tables(alloc, tables)
}
