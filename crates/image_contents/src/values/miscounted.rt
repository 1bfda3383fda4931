//! Long values that count other references than there are.

ghost use Rattle.std.specs.Prelude.{◌≡◌, ◌==◌, ◌||◌, not, IfOk, take};
ghost use Rattle.std.specs.Option.{option_map};
ghost use Rattle.byteorder.specs.Endian.{little_number};
ghost use Rattle.image_contents.specs.NodesLeft.{node_in};
ghost use Rattle.image_contents.specs.ValueCounts.{count_in, head_finding, head_id};
ghost use Rattle.image_contents.specs.ValueFaults.{finding_of};
ghost use Rattle.image_findings.specs.CountFindings.{count_finding};
ghost use Rattle.image_findings.specs.TableContents.{TableContents};
ghost use Rattle.image_opening.specs.OpenedTrees.{HasContents};

use crate::nodes::{NodeRef, NodeWalk};
use crate::values::counts::ReferenceCounts;
use crate::values::fault::ValueFault;
use crate::values::whole::{ID_BYTES, id_of, is_chunk_key};
use btree_inplace::nodes_of_a_tree_rise;
use byteorder::{ByteOrder, LittleEndian};
use image_opening::OpenedTable;
use jet_base::OutOfMemory;
use page_space::Space;
use std::alloc::Global;
use version_store::Versions;

/// The bytes of the count at the front of a head.
const COUNT_BYTES: usize = 4;

/// The identifier of a node that is the head of a value: its chunk is 0.
fn head_id(node: NodeRef<'_>) -> Option<[u8; 12]>
    ensures { result ≡ head_id (node_in node.entry) }
{
    let front = id_of(node.key);
    if front.len() != ID_BYTES {
        return None;
    }
    if !is_chunk_key(node.key, front, 0) {
        return None;
    }
    let mut id = [0; ID_BYTES];
    id.copy_from_slice(front);
    Some(id)
}

/// The count at the front of a head, the lowest byte first. Where bytes are missing they are read as 0.
fn head_count(bytes: &[u8]) -> u64
    ensures { result ≡ little_number 4 (take 4 bytes.now) }
{
    let mut front = [0; COUNT_BYTES];
    let size = bytes.len().min(COUNT_BYTES);
    front[..size].copy_from_slice(&bytes[..size]);
    LittleEndian::read_u32(&front) as u64
}

/// Whether a value counts no reference, or more or fewer than the rows that refer to it.
fn is_miscounted(have: u64, wanted: u64) -> bool
    ensures { result ≡ ((have == 0) || not (have == wanted)) }
{
    have == 0 || have != wanted
}

/// The fault of a node that is the head of a value which counts no reference, or more or fewer than there are.
fn head_fault(counts: &ReferenceCounts, node: NodeRef<'_>) -> Option<ValueFault>
    ensures { option_map finding_of result ≡ head_finding (count_in counts.now) (node_in node.entry) }
{
    match head_id(node) {
        Some(id) => {
            let have = head_count(node.bytes);
            let wanted = counts.of(&id);
            if is_miscounted(have, wanted) {
                Some(ValueFault::new(id.as_slice(), have, wanted))
            } else {
                None
            }
        }
        None => None,
    }
}

/// The fault of the least long value of a table that counts no reference, or more or fewer than its rows, and the rows before held
/// changes that are not undone, have to it. It passes over the rows and the values once, and takes memory in proportion to the values
/// that are referred to; where there is none, the call answers `OutOfMemory`.
#[tactic(none)]
pub fn miscounted_value(
    alloc: Global,
    space: &Space,
    table: &OpenedTable,
    versions: &Versions,
) -> Result<Option<ValueFault>, OutOfMemory>
    requires { (t : TableContents) × HasContents space.now table.now t }
    ensures { (t : TableContents) → HasContents space.now table.now t → IfOk result (λ fault. option_map finding_of fault ≡ count_finding versions.now t) }
{
    nodes_of_a_tree_rise();
    let counts = match ReferenceCounts::of_rows(alloc, space, table, versions) {
        Ok(counts) => counts,
        Err(fault) => return Err(fault),
    };
    let mut walk = NodeWalk::new(space, &table.long_values);
    while let Some(node) = walk.next() {
        match head_fault(&counts, node) {
            Some(fault) => return Ok(Some(fault)),
            None => {}
        }
    }
    Ok(None)
}
