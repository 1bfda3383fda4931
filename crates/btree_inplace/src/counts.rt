//! How many pages and how many nodes a tree has.

ghost use Rattle.std.specs.Prelude.{◌≡◌, ◌*◌, ◌≤◌, length};
ghost use Rattle.page_image.specs.declared.offsets.TheConstants.{MAX_NODES};
ghost use Rattle.btree_inplace.specs.Shape.{IsSubtree, entries, pages};
ghost use Rattle.btree_inplace.specs.Trees.{IsTree, nodes_of, pages_of};

use crate::{Tree, nodes_fit_their_space, pages_fit_their_space};
use byteorder::{ByteOrder, LittleEndian};
use page_space::Space;

impl Tree {
    /// How many pages the tree has. Each inner page is read once, no leaf is, and no memory is taken.
    pub fn page_count(&self, space: &Space) -> usize
        requires { IsTree space.now self.now }
        ensures { result ≡ length (pages_of space.now self.now) }
    {
        pages_fit_their_space();
        let _ = space.len();
        pages_below(space, self.root, self.depth)
    }

    /// How many nodes the tree has. Each of its pages is read once, and no memory is taken.
    pub fn node_count(&self, space: &Space) -> usize
        requires { IsTree space.now self.now }
        ensures { result ≡ length (nodes_of space.now self.now) }
    {
        nodes_fit_their_space();
        let _ = space.len();
        nodes_below(space, self.root, self.depth)
    }
}

/// How many pages there are from a page down.
fn pages_below(space: &Space, page: u32, depth: u32) -> usize
    requires tree { IsSubtree depth space.now page }
    requires few { length (pages depth space.now page) ≤ 16777216 }
    ensures { result ≡ length (pages depth space.now page) }
{
    if depth == 0 {
        return 1;
    }
    let inner = space.page(page);
    let mut count = 1;
    for i in 0..inner.len() {
        let below = LittleEndian::read_u32(inner.data(i));
        count += pages_below(space, below, depth - 1);
    }
    count
}

/// How many nodes the leaves have from a page down.
fn nodes_below(space: &Space, page: u32, depth: u32) -> usize
    requires tree { IsSubtree depth space.now page }
    requires few { length (entries depth space.now page) ≤ MAX_NODES * 16777216 }
    ensures { result ≡ length (entries depth space.now page) }
{
    let inner = space.page(page);
    if depth == 0 {
        return inner.len();
    }
    let mut count = 0;
    for i in 0..inner.len() {
        let below = LittleEndian::read_u32(inner.data(i));
        count += nodes_below(space, below, depth - 1);
    }
    count
}
