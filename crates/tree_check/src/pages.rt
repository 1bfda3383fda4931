//! Pages by themselves: whether they are those of a tree.

ghost use Rattle.std.specs.Prelude.{◌≡◌, ◌<◌, ◌+◌, Some, drop, length};
ghost use Rattle.std.specs.List.{list_all};
ghost use Rattle.std.specs.Option.{option_map};
ghost use Rattle.page_image.specs.Page.{IsPage, node_at};
ghost use Rattle.page_space.specs.Frames.{page_at};
ghost use Rattle.tree_check.specs.Walks.{are_inner, ends_of, is_below_next, is_inner_page, is_tree_node, is_tree_page, lies_between, names_child};

use btree_inplace::MAX_KEY_BYTES;
use btree_node::MAX_NODE_BYTES;
use page_image::{INNER, NODE_HEAD_BYTES, Page};
use page_space::Space;

/// Whether a node has the size of one of a tree.
fn is_tree_node(page: &Page, i: usize) -> bool
    requires { i < length page.now.nodes }
    ensures { result ≡ is_tree_node (node_at page.now.nodes i) }
{
    let key = page.key(i).len();
    let extent = page.extent(i);
    key <= MAX_KEY_BYTES
        && extent <= MAX_NODE_BYTES
        && NODE_HEAD_BYTES + key + extent <= MAX_NODE_BYTES
}

/// Whether each node of a page does.
fn has_tree_nodes(page: &Page) -> bool
    ensures { result ≡ list_all is_tree_node page.now.nodes }
{
    for i in 0..page.len() {
        if !is_tree_node(page, i) {
            return false;
        }
    }
    true
}

/// Whether a page is taken, bears its number, and has this kind and nodes of a tree.
pub fn is_tree_page(space: &Space, page: u32, kind: u8) -> bool
    ensures { result ≡ is_tree_page kind page (page_at space.now page) }
{
    if !space.is_taken(page) {
        return false;
    }
    let found = space.page(page);
    found.number() == page && found.kind() == kind && has_tree_nodes(found)
}

/// Whether a node names a child.
fn names_child(page: &Page, i: usize) -> bool
    requires { i < length page.now.nodes }
    ensures { result ≡ names_child (node_at page.now.nodes i) }
{
    page.data(i).len() == 4 && page.extent(i) == 4
}

/// Whether each node of a page does.
fn has_children(page: &Page) -> bool
    ensures { result ≡ list_all names_child page.now.nodes }
{
    for i in 0..page.len() {
        if !names_child(page, i) {
            return false;
        }
    }
    true
}

/// Whether the nodes of a page are those of an inner page.
fn has_inner_nodes(page: &Page) -> bool
    ensures { result ≡ are_inner page.now.nodes }
{
    page.len() > 0 && page.key(0).len() == 0 && has_children(page)
}

/// Whether a page is an inner page of a tree.
pub fn is_inner_page(space: &Space, page: u32) -> bool
    ensures { result ≡ is_inner_page space.now page }
{
    is_tree_page(space, page, INNER) && has_inner_nodes(space.page(page))
}

/// The first and the last key of a leaf, if it has a node.
pub fn ends_of_leaf(page: &Page) -> Option<(&[u8], &[u8])>
    ensures ends { option_map (λ ends. (ends.0.now, ends.1.now)) result ≡ ends_of page.now.nodes }
    ensures page { IsPage page.now }
{
    let count = page.len();
    if count > 0 {
        Some((page.key(0), page.key(count - 1)))
    } else {
        None
    }
}

/// Whether a key is below that of a node, if there is the node.
fn is_below_next(page: &Page, i: usize, count: usize, key: &[u8]) -> bool
    requires { count ≡ length page.now.nodes }
    ensures { result ≡ is_below_next key.now (drop i page.now.nodes) }
{
    i >= count || key.cmp(page.key(i)).is_lt()
}

/// Whether nodes with this first and this last key lie from the key of a child of an inner page on and below the next one.
pub fn lies_between(page: &Page, i: usize, ends: (&[u8], &[u8])) -> bool
    requires { i < length page.now.nodes }
    ensures { result ≡ lies_between (node_at page.now.nodes i) (drop (i + 1) page.now.nodes) (ends.entry.0.now, ends.entry.1.now) }
{
    let (first, last) = ends;
    let count = page.len();
    !first.cmp(page.key(i)).is_lt() && is_below_next(page, i + 1, count, last)
}
