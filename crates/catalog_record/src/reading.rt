//! Reading the nodes of a catalog.

ghost use Rattle.std.specs.Prelude.{◌≡◌, IfOk, MatchResult};
ghost use Rattle.log_record.specs.EntrySeen.{Gives};
ghost use Rattle.catalog_grammar.specs.CatalogBytes.{Tells};
ghost use Rattle.catalog_grammar.specs.CatalogReading.{greatest_at, index_flags_at, item_at, item_of, rooted_index_at, table_at};
ghost use Rattle.catalog_grammar.specs.declared.items.CatalogItem.{CatalogItem};

use crate::buffer::KEY_BYTES;
use crate::fault::CatalogFault;
use catalog_grammar::{CatalogItem, TableItem};
use index_derive::{IndexFlags, IndexRule};
use jet_base::{IndexId, TableId};
use jet_catalog::GreatestColumns;
use log_record::{
    EntryFault, KEY_MOST, index_flags_of, read_column, read_conditions, read_name, read_segments,
    read_u16, read_u32,
};
use std::alloc::Global;

/// The greatest columns of a table.
#[tactic(auto, unfolding(catalog_grammar::specs::CatalogReading::greatest_at))]
fn greatest_of(bytes: &[u8]) -> Result<(GreatestColumns, &[u8]), EntryFault>
    ensures { Gives (λ x. (x.0, x.1.now)) result (greatest_at bytes.now) }
{
    let (fixed, rest) = read_u16(bytes)?;
    let (variable, rest) = read_u16(rest)?;
    let (tagged, rest) = read_u16(rest)?;
    let greatest = GreatestColumns {
        fixed,
        variable,
        tagged,
    };
    Ok((greatest, rest))
}

/// What is told of a table beside its number.
#[tactic(auto, unfolding(catalog_grammar::specs::CatalogReading::table_at))]
fn table_of(alloc: Global, id: u32, bytes: &[u8]) -> Result<(TableItem, &[u8]), EntryFault>
    ensures { Gives (λ x. (x.0, x.1.now)) result (table_at id bytes.now) }
{
    let (records, rest) = read_u32(bytes)?;
    let (long_values, rest) = read_u32(rest)?;
    let (greatest, rest) = greatest_of(rest)?;
    let (name, rest) = read_name(alloc, rest)?;
    let table = TableItem {
        id: TableId(id),
        name,
        greatest,
        records,
        long_values,
    };
    Ok((table, rest))
}

/// The flags of an index.
#[tactic(auto, unfolding(catalog_grammar::specs::CatalogReading::index_flags_at))]
fn flags_of(bytes: &[u8]) -> Result<(IndexFlags, &[u8]), EntryFault>
    ensures { Gives (λ x. (x.0, x.1.now)) result (index_flags_at bytes.now) }
{
    let (flags, rest) = read_u16(bytes)?;
    if flags >= 1024 {
        return Err(EntryFault::BadEntry);
    }
    Ok((index_flags_of(flags), rest))
}

/// What is told of an index beside its number: its root and the index.
#[tactic(auto, unfolding(catalog_grammar::specs::CatalogReading::rooted_index_at))]
fn index_of(alloc: Global, id: u16, bytes: &[u8]) -> Result<((u32, IndexRule), &[u8]), EntryFault>
    ensures { Gives (λ x. (x.0, x.1.now)) result (rooted_index_at id bytes.now) }
{
    let (root, rest) = read_u32(bytes)?;
    let (order, rest) = read_u32(rest)?;
    let (flags, rest) = flags_of(rest)?;
    let (segments, rest) = read_segments(alloc, rest)?;
    let (conditions, rest) = read_conditions(alloc, rest)?;
    let (name, rest) = read_name(alloc, rest)?;
    let index = IndexRule {
        id: IndexId(id),
        name,
        order,
        segments,
        flags,
        conditions,
        key_most: KEY_MOST,
    };
    Ok(((root, index), rest))
}

/// The item of a kind, a table, and a column or an index, where the bytes tell it and nothing more.
#[tactic(auto, unfolding(catalog_grammar::specs::CatalogReading::item_of))]
fn item_of(
    alloc: Global,
    kind: u8,
    table: u32,
    id: u16,
    bytes: &[u8],
) -> Result<CatalogItem, EntryFault>
    ensures { Gives (λ x. x) result (item_of kind table id bytes.now) }
{
    let (item, rest) = match kind {
        0 if table == 0 && id == 0 => {
            let (greatest, rest) = read_u32(bytes)?;
            (CatalogItem::Greatest(greatest), rest)
        }
        1 if id == 0 => {
            let (table, rest) = table_of(alloc, table, bytes)?;
            (CatalogItem::Table(table), rest)
        }
        2 => {
            let (column, rest) = read_column(alloc, id, bytes)?;
            (CatalogItem::Column(TableId(table), column), rest)
        }
        3 => {
            let ((root, index), rest) = index_of(alloc, id, bytes)?;
            (CatalogItem::Index(TableId(table), root, index), rest)
        }
        _ => return Err(EntryFault::BadEntry),
    };
    if !rest.is_empty() {
        return Err(EntryFault::BadEntry);
    }
    Ok(item)
}

/// The item that a node tells.
#[tactic(auto, unfolding(catalog_grammar::specs::CatalogReading::item_at, catalog_grammar::specs::CatalogReading::key_at))]
fn item_in(alloc: Global, key: &[u8], data: &[u8]) -> Result<CatalogItem, EntryFault>
    ensures { Gives (λ x. x) result (item_at key.now «data».now) }
{
    if key.len() != KEY_BYTES {
        return Err(EntryFault::BadEntry);
    }
    let table = u32::from_be_bytes([key[1], key[2], key[3], key[4]]);
    let id = u16::from_be_bytes([key[5], key[6]]);
    item_of(alloc, key[0], table, id, data)
}

/// The item that a node of a catalog tells, from its key and its data, which may be any bytes.
///
/// The call answers `BadNode` where they tell none.
pub fn decode(alloc: Global, key: &[u8], data: &[u8]) -> Result<CatalogItem, CatalogFault>
    // The node tells the item.
    ensures told { IfOk result (λ x. Tells key.now «data».now x) }
    // It is the only item, and a node that tells one is not refused.
    ensures only { (x : CatalogItem) → Tells key.now «data».now x → MatchResult result (λ y. y ≡ x) (λ fault. fault ≡ CatalogFault.OutOfMemory) }
{
    match item_in(alloc, key, data) {
        Ok(item) => Ok(item),
        Err(EntryFault::BadEntry) => Err(CatalogFault::BadNode),
        Err(EntryFault::OutOfMemory) => Err(CatalogFault::OutOfMemory),
    }
}
