//! The entries that are stored in the tree of an index.

ghost use Rattle.std.specs.Prelude.{◌≡◌, ◌==◌, ◌&&◌, length, map, IfOk};
ghost use Rattle.btree_inplace.specs.Trees.{IsTree, nodes_of};
ghost use Rattle.image_contents.specs.NodesLeft.{node_in, node_of};
ghost use Rattle.image_findings.specs.EntryFindings.{stored_entries, stored_entry};

use crate::entries::entry::{EntryRef, in_order};
use crate::nodes::{NodeRef, NodeWalk};
use btree_inplace::Tree;
use byteorder::{ByteOrder, LittleEndian};
use jet_base::OutOfMemory;
use page_space::Space;
use std::alloc::Global;

/// How many bytes a node of an index has: the length of the entry's key, the lowest byte first.
const SIZE_BYTES: usize = 2;

/// Whether a node has the extent and as many bytes as an entry's.
fn has_entry_sizes(extent: usize, bytes: &[u8]) -> bool
    ensures { result ≡ ((extent == 2) && (length bytes.now == 2)) }
{
    extent == SIZE_BYTES && bytes.len() == SIZE_BYTES
}

/// The entry of a node that has two bytes: they tell how long the front of its key is.
fn split_entry<'a>(key: &'a [u8], told: &[u8]) -> EntryRef<'a>
    requires { length told.now ≡ 2 }
    ensures { result ≡ stored_entry (node_of key.now 2 told.now) }
{
    let size = LittleEndian::read_u16(told) as usize;
    if size < key.len() {
        let (key, bookmark) = key.split_at(size);
        EntryRef { key, bookmark }
    } else {
        EntryRef { key, bookmark: &[] }
    }
}

/// The entry of a node: its key has the bookmark behind it. A node of another form has one without a bookmark, as no record has.
fn stored_entry<'a>(node: NodeRef<'a>) -> EntryRef<'a>
    ensures { result ≡ stored_entry (node_in node.entry) }
{
    if has_entry_sizes(node.extent, node.bytes) {
        split_entry(node.key, node.bytes)
    } else {
        EntryRef {
            key: node.key,
            bookmark: &[],
        }
    }
}

/// The entries of a tree, in the order of its nodes.
fn tree_entries<'a>(
    alloc: Global,
    space: &'a Space,
    tree: &'a Tree,
) -> Result<Vec<EntryRef<'a>>, OutOfMemory>
    requires { IsTree space.now tree.now }
    ensures { IfOk result (λ entries. entries.items ≡ map stored_entry (nodes_of space.now tree.now)) }
{
    let mut entries = Vec::new(alloc);
    let mut walk = NodeWalk::new(space, tree);
    while let Some(node) = walk.next() {
        match entries.push(stored_entry(node)) {
            Ok(()) => {}
            Err(_) => return Err(OutOfMemory),
        }
    }
    Ok(entries)
}

/// The entries of a tree in their order, each once: the order of its nodes may be another.
pub(crate) fn stored_entries<'a>(
    alloc: Global,
    space: &'a Space,
    tree: &'a Tree,
) -> Result<Vec<EntryRef<'a>>, OutOfMemory>
    requires { IsTree space.now tree.now }
    ensures { IfOk result (λ entries. entries.items ≡ stored_entries (nodes_of space.now tree.now)) }
{
    match tree_entries(alloc, space, tree) {
        Ok(entries) => Ok(in_order(entries)),
        Err(fault) => Err(fault),
    }
}
