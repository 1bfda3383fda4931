//! The items that the nodes of a catalog's tree tell.

ghost use Rattle.std.specs.Prelude.{◌≡◌, ◌<◌, ◌++◌, [], ◌∷◌, length, IfErr, OnOk};
ghost use Rattle.btree_inplace.specs.Shape.{IsSubtree, entries};
ghost use Rattle.page_image.specs.Page.{node_at};
ghost use Rattle.image_opening.specs.ReadNodes.{ReadsNodes, TellsNoItem};

use byteorder::{ByteOrder, LittleEndian};
use catalog_grammar::CatalogItem;
use catalog_record::{CatalogFault, decode};
use page_image::Page;
use page_space::Space;
use std::alloc::Global;

/// Puts an item behind the others.
fn push_item(items: &mut Vec<CatalogItem>, item: CatalogItem) -> Result<(), CatalogFault>
    ensures ok { OnOk result (items.new.items ≡ items.old.items ++ item ∷ []) }
    ensures err { IfErr result (λ why. why ≡ CatalogFault.OutOfMemory) }
{
    match items.push(item) {
        Ok(()) => Ok(()),
        Err(_) => Err(CatalogFault::OutOfMemory),
    }
}

/// Reads the item of a node of a page. The node is to have no room for more than its data.
fn read_node(
    alloc: Global,
    leaf: &Page,
    i: usize,
    items: &mut Vec<CatalogItem>,
) -> Result<(), CatalogFault>
    requires { i < length leaf.now.nodes }
    ensures ok { OnOk result (ReadsNodes (node_at leaf.now.nodes i ∷ []) items.old.items items.new.items) }
    ensures err { IfErr result (TellsNoItem (node_at leaf.now.nodes i ∷ [])) }
{
    let data = leaf.data(i);
    if leaf.extent(i) != data.len() {
        return Err(CatalogFault::BadNode);
    }
    match decode(alloc, leaf.key(i), data) {
        Ok(item) => push_item(items, item),
        Err(fault) => Err(fault),
    }
}

/// Reads the items of the nodes of a page.
fn read_leaf(alloc: Global, leaf: &Page, items: &mut Vec<CatalogItem>) -> Result<(), CatalogFault>
    ensures ok { OnOk result (ReadsNodes leaf.now.nodes items.old.items items.new.items) }
    ensures err { IfErr result (TellsNoItem leaf.now.nodes) }
{
    for i in 0..leaf.len() {
        match read_node(alloc, leaf, i, items) {
            Ok(()) => {}
            Err(fault) => return Err(fault),
        }
    }
    Ok(())
}

/// Reads the items of the nodes below a page, behind those that were read before. The call answers `BadNode` where one of them tells
/// none, or has room for more than its data. It goes down as many pages as the tree is deep.
pub fn read_below(
    alloc: Global,
    space: &Space,
    page: u32,
    depth: u32,
    items: &mut Vec<CatalogItem>,
) -> Result<(), CatalogFault>
    requires { IsSubtree depth space.now page }
    ensures ok { OnOk result (ReadsNodes (entries depth space.now page) items.old.items items.new.items) }
    ensures err { IfErr result (TellsNoItem (entries depth space.now page)) }
{
    let found = space.page(page);
    if depth == 0 {
        return read_leaf(alloc, found, items);
    }
    for i in 0..found.len() {
        let below = LittleEndian::read_u32(found.data(i));
        match read_below(alloc, space, below, depth - 1, items) {
            Ok(()) => {}
            Err(fault) => return Err(fault),
        }
    }
    Ok(())
}
