//! The tables that the nodes of a catalog tell.

ghost use Rattle.std.specs.Prelude.{◌≡◌, ◌++◌, ℕ, true, filter, length, map, not, nat_le, nat_lt, IfOk, IfSome, OnOk};
ghost use Rattle.std.specs.List.{flat_map, list_all};
ghost use Rattle.column_set.specs.RecordValues.{tagged_if_long};
ghost use Rattle.catalog_grammar.specs.CatalogBytes.{item_fits, item_node};
ghost use Rattle.catalog_grammar.specs.Catalogs.{catalog_items, column_told, has_rising_parts, index_told, rise_above, table_told, tables_of_items};
ghost use Rattle.page_image.specs.Page.{HasRisingKeys};
ghost use Rattle.image_findings.specs.CatalogFindings.{catalog_told, greatest_told};
ghost use Rattle.image_opening.specs.ReadNodes.{are_whole, is_table, left_after, told_of};

use crate::rules::MOST_INDEXES;
use catalog_grammar::{CatalogItem, TableItem};
use column_set::Column;
use index_derive::IndexRule;
use jet_base::{OutOfMemory, TableId};
use jet_catalog::GreatestColumns;
use std::alloc::Global;
use std::marker::Model;

/// The most tables of a catalog.
pub const MOST_TABLES: usize = 64;

/// A table as the nodes of the catalog tell it: its columns and its indexes, each behind the root of its tree, by rising number.
#[derive(Debug, Drop)]
pub struct ToldTable {
    pub table: TableItem,
    pub columns: Vec<Column>,
    pub indexes: Vec<(u32, IndexRule)>,
}

impl Model for ToldTable {
    ghost use Rattle.catalog_grammar.specs.Catalogs.{CatalogTable};

    ghost Value = { CatalogTable };

    ghost view = { λ a. record { table = a.table; columns = a.columns.items; indexes = a.indexes.items } };
}

/// A copy of what is told of a table beside its columns and indexes.
fn copied(table: &TableItem) -> Result<TableItem, OutOfMemory>
    ensures { IfOk result (λ made. made ≡ table.now) }
{
    Ok(TableItem {
        id: table.id,
        name: table.name.copy()?,
        greatest: GreatestColumns {
            fixed: table.greatest.fixed,
            variable: table.greatest.variable,
            tagged: table.greatest.tagged,
        },
        records: table.records,
        long_values: table.long_values,
    })
}

/// Puts a column behind the others, if the item tells one of this table: a long one is tagged.
fn put_column(
    columns: &mut Vec<Column>,
    item: &CatalogItem,
    table: TableId,
) -> Result<(), OutOfMemory>
    ensures { OnOk result (columns.new.items ≡ columns.old.items ++ map tagged_if_long (column_told table.0 item.now)) }
{
    match item {
        CatalogItem::Column(of, column) => {
            if of.0 == table.0 {
                columns.push(column.tagged_if_long()?)?;
            }
            Ok(())
        }
        _ => Ok(()),
    }
}

/// Puts an index behind the others, if the item tells one of this table.
fn put_index(
    indexes: &mut Vec<(u32, IndexRule)>,
    item: &CatalogItem,
    table: TableId,
) -> Result<(), OutOfMemory>
    ensures { OnOk result (indexes.new.items ≡ indexes.old.items ++ index_told table.0 item.now) }
{
    match item {
        CatalogItem::Index(of, root, index) => {
            if of.0 == table.0 {
                indexes.push((*root, index.copy()?))?;
            }
            Ok(())
        }
        _ => Ok(()),
    }
}

/// The columns of a table, of which a long one is tagged.
fn columns_told(
    alloc: Global,
    items: &[CatalogItem],
    table: TableId,
) -> Result<Vec<Column>, OutOfMemory>
    ensures { IfOk result (λ made. made.items ≡ map tagged_if_long (flat_map (column_told table.0) items.now)) }
{
    let mut columns = Vec::new(alloc);
    for item in items {
        put_column(&mut columns, item, table)?;
    }
    Ok(columns)
}

/// The indexes of a table, each behind its root.
fn indexes_told(
    alloc: Global,
    items: &[CatalogItem],
    table: TableId,
) -> Result<Vec<(u32, IndexRule)>, OutOfMemory>
    ensures { IfOk result (λ made. made.items ≡ flat_map (index_told table.0) items.now) }
{
    let mut indexes = Vec::new(alloc);
    for item in items {
        put_index(&mut indexes, item, table)?;
    }
    Ok(indexes)
}

/// How many tables the items tell.
fn table_count(items: &[CatalogItem]) -> usize
    ensures { result ≡ length (filter is_table items.now) }
{
    items
        .iter()
        .filter(|item| matches!(item, CatalogItem::Table(_)))
        .count()
}

/// Whether the items tell more tables than a catalog may have.
pub fn has_many_tables(items: &[CatalogItem]) -> bool
    ensures { result ≡ nat_lt 64 (length (filter is_table items.now)) }
{
    table_count(items) > MOST_TABLES
}

/// A table, with what the items tell of it.
fn told_table(
    alloc: Global,
    table: &TableItem,
    items: &[CatalogItem],
) -> Result<ToldTable, OutOfMemory>
    ensures { IfOk result (λ made. made ≡ told_of items.now table.now) }
{
    Ok(ToldTable {
        table: copied(table)?,
        columns: columns_told(alloc, items, table.id)?,
        indexes: indexes_told(alloc, items, table.id)?,
    })
}

/// Puts a table behind the others, if the item tells one.
fn put_table(
    alloc: Global,
    tables: &mut Vec<ToldTable>,
    item: &CatalogItem,
    items: &[CatalogItem],
) -> Result<(), OutOfMemory>
    ensures { OnOk result (tables.new.items ≡ tables.old.items ++ map (told_of items.now) (table_told item.now)) }
{
    match item {
        CatalogItem::Table(table) => {
            tables.push(told_table(alloc, table, items)?)?;
            Ok(())
        }
        _ => Ok(()),
    }
}

/// The tables that the items tell. The items are gone over once for each table.
fn tables_told(alloc: Global, items: &[CatalogItem]) -> Result<Vec<ToldTable>, OutOfMemory>
    ensures { IfOk result (λ made. made.items ≡ tables_of_items items.now) }
{
    let mut tables = Vec::new(alloc);
    for item in items {
        put_table(alloc, &mut tables, item, items)?;
    }
    Ok(tables)
}

/// The greatest number that a table was ever given, which the first item is to tell.
fn greatest_told(items: &[CatalogItem]) -> Option<u32>
    ensures { result ≡ greatest_told items.now }
{
    match items.first() {
        Some(CatalogItem::Greatest(greatest)) => Some(*greatest),
        _ => None,
    }
}

/// Whether the numbers of columns rise from 1.
pub fn columns_rise(columns: &[Column]) -> bool
    ensures { result ≡ rise_above 0 (map (λ column. column.id.0) columns.now) }
{
    let mut low = 0;
    for column in columns {
        if column.id.0 <= low {
            return false;
        }
        low = column.id.0;
    }
    true
}

/// Whether the numbers of indexes rise from 1.
fn indexes_rise(indexes: &[(u32, IndexRule)]) -> bool
    ensures { result ≡ rise_above 0 (map (λ index. index.1.id.0) indexes.now) }
{
    let mut low = 0;
    for (_, index) in indexes {
        if index.id.0 <= low {
            return false;
        }
        low = index.id.0;
    }
    true
}

/// Whether the numbers of the columns, and those of the indexes, rise in each table.
fn parts_rise(tables: &[ToldTable]) -> bool
    ensures { result ≡ list_all has_rising_parts tables.now }
{
    tables.iter().all(|told| {
        columns_rise(told.columns.as_slice()) && indexes_rise(told.indexes.as_slice())
    })
}

/// Whether the numbers of tables rise from 1.
fn numbers_rise(tables: &[ToldTable]) -> bool
    ensures { result ≡ rise_above 0 (map (λ x. x.table.id.0) tables.now) }
{
    let mut low = 0;
    for told in tables {
        if told.table.id.0 <= low {
            return false;
        }
        low = told.table.id.0;
    }
    true
}

/// What is left of a count once the columns and the indexes of tables are taken from it.
fn left_after(count: usize, tables: &[ToldTable]) -> usize
    ensures { result ≡ left_after count tables.now }
{
    let mut left = count;
    for told in tables {
        left = left
            .saturating_sub(told.columns.len())
            .saturating_sub(told.indexes.len());
    }
    left
}

/// Whether a catalog of these tables has at least so many items.
fn tells_all(tables: &[ToldTable], count: usize) -> bool
    ensures { (greatest : ℕ) → result ≡ nat_le count (length (catalog_items greatest tables.now)) }
{
    let left = count.saturating_sub(1).saturating_sub(tables.len());
    left_after(left, tables) == 0
}

/// Whether these tables stand in order, and a catalog of them has at least so many items.
fn are_whole(tables: &[ToldTable], count: usize) -> bool
    ensures { (greatest : ℕ) → result ≡ are_whole greatest count tables.now }
{
    numbers_rise(tables) && parts_rise(tables) && tells_all(tables, count)
}

/// A catalog as its nodes tell it: the greatest number that a table was ever given, and the tables.
#[derive(Debug, Drop)]
pub struct ToldCatalog {
    pub greatest: u32,
    pub tables: Vec<ToldTable>,
}

impl Model for ToldCatalog {
    ghost use Rattle.image_findings.specs.CatalogFindings.{CatalogTold};

    ghost Value = { CatalogTold };

    ghost view = { λ a. record { greatest = a.greatest; tables = a.tables.items } };
}

/// The catalog that items tell, if their nodes are those of one. The items are gone over once for each table.
///
/// The nodes of a catalog rise, and tell nothing twice: so they are those of what they tell where that is as much as there is.
pub fn told_catalog(
    alloc: Global,
    items: &[CatalogItem],
) -> Result<Option<ToldCatalog>, OutOfMemory>
    requires rising { HasRisingKeys (map item_node items.now) }
    requires fit { list_all item_fits items.now ≡ true }
    ensures told { IfOk result (λ made. made ≡ catalog_told (map item_node items.now)) }
    ensures rising { IfOk result (λ made. IfSome made (λ told. rise_above 0 (map (λ x. x.table.id.0) told.tables) ≡ true)) }
{
    let greatest = match greatest_told(items) {
        Some(greatest) => greatest,
        None => return Ok(None),
    };
    let tables = tables_told(alloc, items)?;
    if !are_whole(tables.as_slice(), items.len()) {
        return Ok(None);
    }
    Ok(Some(ToldCatalog { greatest, tables }))
}

/// Whether no table has more indexes than one may have.
fn have_few_indexes(tables: &[ToldTable]) -> bool
    ensures { result ≡ list_all (λ x. nat_le (length x.indexes) 64) tables.now }
{
    tables.iter().all(|told| told.indexes.len() <= MOST_INDEXES)
}

/// Whether a table has more indexes than one may have.
pub fn has_many_indexes(told: &ToldCatalog) -> bool
    ensures { result ≡ not (list_all (λ x. nat_le (length x.indexes) 64) told.now.tables) }
{
    !have_few_indexes(told.tables.as_slice())
}
