//! A whole tree that goes back to the space.

ghost use Rattle.std.specs.Prelude.{◌≤◌, ℕ, [], length};
ghost use Rattle.btree_inplace.specs.Alterations.{Swaps, copies};
ghost use Rattle.btree_inplace.specs.Shape.{IsSubtree, pages};
ghost use Rattle.btree_inplace.specs.Trees.{Exchanges, IsTree, pages_of};

use crate::Tree;
use byteorder::{ByteOrder, LittleEndian};
use page_space::Space;

impl Tree {
    /// Gives all pages of the tree back to the space: each page is read once, and no memory is taken.
    pub fn give_back(self, space: &mut Space)
        requires tree { IsTree space.old self }
        ensures pages { Exchanges space.old space.new (pages_of space.old self) [] }
    {
        give_back_below(space, self.root, self.depth);
    }
}

/// Gives a page back, and before it all pages below it.
fn give_back_below(space: &mut Space, page: u32, depth: u32)
    requires tree { IsSubtree depth space.old page }
    requires once { (p : ℕ) → copies p (pages depth space.old page) ≤ 1 }
    ensures { Swaps space.old space.new (pages depth space.old page) [] }
{
    if depth > 0 {
        let children = space.page(page).len();
        for i in 0..children {
            let below = LittleEndian::read_u32(space.page(page).data(i));
            give_back_below(space, below, depth - 1);
        }
    }
    space.give_back(page);
}
