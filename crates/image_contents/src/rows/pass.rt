//! The least bookmark of a table whose node is not sound, or is not there.

ghost use Rattle.std.specs.Prelude.{◌≡◌, IfOk};
ghost use Rattle.std.specs.Option.{option_map};
ghost use Rattle.btree_inplace.specs.Trees.{IsTree, nodes_of};
ghost use Rattle.image_contents.specs.LeastBookmarks.{lesser, missing};
ghost use Rattle.image_contents.specs.RowsRead.{AreReadable, HasReadableRows, HaveWholeRows, unsound_read, values_read};
ghost use Rattle.image_findings.specs.Images.{least_key};
ghost use Rattle.image_findings.specs.RowFindings.{unsound_bookmarks};
ghost use Rattle.image_findings.specs.TableContents.{TableContents};
ghost use Rattle.image_opening.specs.OpenedTrees.{HasContents};

use crate::nodes::NodeWalk;
use crate::rows::table::TableRows;
use btree_inplace::{Tree, nodes_of_a_tree_rise};
use image_opening::OpenedTable;
use jet_base::{OutOfMemory, TableId};
use jet_catalog::TableDef;
use page_space::Space;
use std::alloc::Global;
use version_store::Versions;

impl<'a> TableRows<'a> {
    /// The key of the first of a tree's nodes that is not sound.
    #[tactic(none)]
    fn unsound_node(
        &self,
        alloc: Global,
        versions: &Versions,
        nodes: &'a Tree,
    ) -> Result<Option<&'a [u8]>, OutOfMemory>
        requires readable { AreReadable self.now }
        requires tree { IsTree self.now.space.now nodes.now }
        requires whole { HaveWholeRows (values_read self.now) (nodes_of self.now.space.now nodes.now) }
        ensures { IfOk result (λ found. option_map (λ key. key.now) found ≡ unsound_read self.now versions.now (nodes_of self.now.space.now nodes.now)) }
    {
        let mut walk = NodeWalk::new(self.space, nodes);
        while let Some(node) = walk.next() {
            match self.is_sound_node(alloc, versions, node) {
                Ok(true) => {}
                Ok(false) => return Ok(Some(node.key)),
                Err(fault) => return Err(fault),
            }
        }
        Ok(None)
    }
}

/// The lesser of a bookmark and another one, if there is one.
#[tactic(none)]
fn lesser<'a>(bookmark: &'a [u8], other: Option<&'a [u8]>) -> &'a [u8]
    ensures { result.now ≡ lesser bookmark.now (option_map (λ key. key.now) other.entry) }
{
    match other {
        Some(other) => {
            if bookmark.cmp(other).is_lt() {
                bookmark
            } else {
                other
            }
        }
        None => bookmark,
    }
}

/// The least bookmark of a table's held changes that has no node.
#[tactic(none)]
fn missing<'a>(
    space: &Space,
    nodes: &Tree,
    table: TableId,
    versions: &'a Versions,
) -> Option<&'a [u8]>
    requires { IsTree space.now nodes.now }
    ensures { option_map (λ key. key.now) result ≡ least_key (missing table.0 (nodes_of space.now nodes.now) versions.now) }
{
    let mut least = None;
    let mut place = versions.len();
    while place > 0 {
        place -= 1;
        let change = versions.change_at(place);
        if change.table.0 == table.0 && nodes.get(space, change.bookmark).is_none() {
            least = Some(lesser(change.bookmark, least));
        }
    }
    least
}

/// The least bookmark of a table whose node is not sound beside the held changes, or that a held change has and no node, in an image
/// of so many entries. None where the rows of the table are sound.
///
/// Each node is met once, and each held change twice: for the node of its record, and among the changes of that. A row is read in
/// place. Memory is taken for the keys of an index that refuses some records alone; `OutOfMemory` where there is none for these.
#[tactic(none)]
pub fn unsound_row<'a>(
    alloc: Global,
    space: &'a Space,
    table: &'a TableDef,
    opened: &'a OpenedTable,
    versions: &'a Versions,
    number: u64,
) -> Result<Option<&'a [u8]>, OutOfMemory>
    requires { (t : TableContents) × HasContents space.now opened.now t × (table.now ≡ t.table) × HasReadableRows t }
    ensures { IfOk result (λ found. (t : TableContents) → HasContents space.now opened.now t → table.now ≡ t.table → option_map (λ key. key.now) found ≡ least_key (unsound_bookmarks number versions.now t)) }
{
    nodes_of_a_tree_rise();
    let rows = TableRows {
        space,
        table,
        long_values: &opened.long_values,
        number,
    };
    let missing = missing(space, &opened.nodes, table.id(), versions);
    match rows.unsound_node(alloc, versions, &opened.nodes) {
        Ok(Some(key)) => Ok(Some(lesser(key, missing))),
        Ok(None) => Ok(missing),
        Err(fault) => Err(fault),
    }
}
