//! Long values that rows name and that are not there with the length that the rows tell, and those that are not whole.

ghost use Rattle.std.specs.Prelude.{◌≡◌, ◌&&◌, ℕ, List, Some, None, not, option_copied, bytes_eq, IfOk};
ghost use Rattle.std.specs.List.{list_any};
ghost use Rattle.std.specs.Option.{option_map};
ghost use Rattle.btree_inplace.specs.Trees.{IsTree, nodes_of};
ghost use Rattle.column_set.specs.OtherValues.{StandIn};
ghost use Rattle.column_set.specs.declared.rows.RowValue.{RowValue};
ghost use Rattle.image_contents.specs.HeadlessValues.{has_head, headless_in, tells_length, headless_of, least_of, lesser, with_lesser, with_headless};
ghost use Rattle.image_contents.specs.ReadReferences.{told_apart};
ghost use Rattle.image_contents.specs.ReferringRows.{counted, referring_rows};
ghost use Rattle.image_contents.specs.ValueFaults.{finding_of};
ghost use Rattle.image_findings.specs.TableContents.{TableContents};
ghost use Rattle.image_findings.specs.ValueFindings.{value_finding};
ghost use Rattle.image_opening.specs.OpenedTrees.{HasContents};
ghost use Rattle.long_rows.specs.RowReferences.{named_by};
ghost use Rattle.long_value.specs.Stores.{id_bytes};
ghost use Rattle.long_value.specs.Values.{chunk_key};

use crate::values::fault::ValueFault;
use crate::values::references::{Reference, bytes_of, first_reference, names};
use crate::values::referring::{ReferringRow, ReferringRows};
use crate::values::whole::broken_value;
use btree_inplace::Tree;
use byteorder::{BigEndian, ByteOrder, LittleEndian};
use image_opening::OpenedTable;
use jet_base::OutOfMemory;
use long_value::LongId;
use page_space::Space;
use version_store::Versions;

/// The bytes of a head: a count and a length.
const HEAD_BYTES: usize = 8;

/// The key of the head of a value.
fn head_key(id: LongId) -> [u8; 16]
    ensures { result ≡ chunk_key (id_bytes id) 0 }
{
    let mut key = [0; 16];
    BigEndian::write_u64(&mut key, id.entry);
    BigEndian::write_u32(&mut key[8..], id.place);
    BigEndian::write_u32(&mut key[12..], 0);
    key
}

/// Whether bytes are those of a head that tells the length.
fn tells_length(head: &[u8], length: u32) -> bool
    ensures { result ≡ tells_length length (Some head.now) }
{
    head.len() == HEAD_BYTES && LittleEndian::read_u32(&head[4..]) == length
}

/// Whether a tree has the head of a value, and it tells the length.
fn has_head(space: &Space, tree: &Tree, id: LongId, length: u32) -> bool
    requires { IsTree space.now tree.now }
    ensures { result ≡ has_head (nodes_of space.now tree.now) (id_bytes id) length }
{
    let key = head_key(id);
    match tree.get(space, key.as_slice()) {
        Some(head) => tells_length(head, length),
        None => false,
    }
}

/// The lesser of an identifier, if there is one, and another.
fn with_lesser(least: Option<[u8; 12]>, id: [u8; 12]) -> [u8; 12]
    ensures { Some result ≡ with_lesser least id }
{
    match least {
        Some(other) => {
            let new = id.as_slice();
            let old = other.as_slice();
            if new.cmp(old).is_lt() { id } else { other }
        }
        None => id,
    }
}

/// The least of an identifier and that of a reference without a head.
fn with_headless(
    space: &Space,
    tree: &Tree,
    least: Option<[u8; 12]>,
    found: Option<Reference>,
) -> Option<[u8; 12]>
    requires { IsTree space.now tree.now }
    ensures { result ≡ with_headless (nodes_of space.now tree.now) least (option_map told_apart found) }
{
    match found {
        Some(reference) => {
            if has_head(space, tree, reference.id, reference.length) {
                least
            } else {
                Some(with_lesser(least, bytes_of(reference.id)))
            }
        }
        None => least,
    }
}

/// The least of an identifier and those without a head that some values of a row name.
fn least_in(space: &Space, tree: &Tree, least: Option<[u8; 12]>, values: &[u8]) -> Option<[u8; 12]>
    requires { IsTree space.now tree.now }
    ensures { (xs : List (ℕ × RowValue)) → StandIn values.now xs → result ≡ least_of least (headless_in (nodes_of space.now tree.now) xs) }
{
    let mut found = least;
    let mut rest = values;
    while let Some((reference, behind)) = first_reference(rest) {
        found = with_headless(space, tree, found, reference);
        rest = behind;
    }
    found
}

/// The least identifier without a head that the rows of a table name.
fn headless_value(space: &Space, table: &OpenedTable, versions: &Versions) -> Option<[u8; 12]>
    requires nodes { IsTree space.now table.now.nodes }
    requires values { IsTree space.now table.now.long_values }
    ensures { result ≡ least_of None (headless_of (nodes_of space.now table.now.long_values) (referring_rows table.now.table.0 (nodes_of space.now table.now.nodes) versions.now)) }
{
    let mut rows = ReferringRows::new(space, table, versions);
    let mut least = None;
    while let Some(row) = rows.next() {
        least = least_in(space, &table.long_values, least, row.values);
    }
    least
}

/// How many rows refer to the value with this identifier. Where they are more than a `u64` counts, which no memory holds, the call
/// answers `OutOfMemory`.
fn references_to(
    space: &Space,
    table: &OpenedTable,
    versions: &Versions,
    id: &[u8],
) -> Result<u64, OutOfMemory>
    requires { IsTree space.now table.now.nodes }
    ensures { IfOk result (λ count. count ≡ counted id.now (referring_rows table.now.table.0 (nodes_of space.now table.now.nodes) versions.now)) }
{
    let mut rows = ReferringRows::new(space, table, versions);
    let mut count: u64 = 0;
    while let Some(row) = rows.next() {
        if refers(row, id) {
            match count.checked_add(1) {
                Some(more) => count = more,
                None => return Err(OutOfMemory),
            }
        }
    }
    Ok(count)
}

/// Whether a row is a counted reference to the value with this identifier.
fn refers(row: ReferringRow<'_>, id: &[u8]) -> bool
    ensures { (values : List (ℕ × RowValue)) → StandIn row.entry.values.now values → result ≡ (not row.entry.is_undone && list_any (bytes_eq id.now) (named_by values)) }
{
    !row.is_undone && names(row.values, id)
}

/// The bytes of an identifier, if there is one.
fn slice_of(id: &Option<[u8; 12]>) -> Option<&[u8]>
    ensures { option_copied result ≡ id.now }
{
    match id {
        Some(id) => Some(id.as_slice()),
        None => None,
    }
}

/// The lesser of two identifiers, of which either may be missing.
fn lesser<'a>(first: Option<&'a [u8]>, second: Option<&'a [u8]>) -> Option<&'a [u8]>
    ensures { option_copied result ≡ lesser (option_copied first.entry) (option_copied second.entry) }
{
    match (first, second) {
        (Some(one), Some(other)) => {
            if other.cmp(one).is_lt() {
                second
            } else {
                first
            }
        }
        (None, _) => second,
        (_, None) => first,
    }
}

/// The fault of the least long value of a table, in an image of so many entries, that is not whole, or that a row, or a row before a held
/// change, names and that is not there with the length that it tells. It takes no memory; the call answers `OutOfMemory` where more rows
/// than a `u64` counts refer to that value.
#[tactic(none)]
pub fn missing_or_broken_value(
    space: &Space,
    table: &OpenedTable,
    number: u64,
    versions: &Versions,
) -> Result<Option<ValueFault>, OutOfMemory>
    requires { (t : TableContents) × HasContents space.now table.now t }
    ensures { (t : TableContents) → HasContents space.now table.now t → IfOk result (λ fault. option_map finding_of fault ≡ value_finding number versions.now t) }
{
    let broken = broken_value(space, table, number);
    let headless = headless_value(space, table, versions);
    match lesser(broken, slice_of(&headless)) {
        Some(id) => match references_to(space, table, versions, id) {
            Ok(wanted) => Ok(Some(ValueFault::new(id, 0, wanted))),
            Err(fault) => Err(fault),
        },
        None => Ok(None),
    }
}
