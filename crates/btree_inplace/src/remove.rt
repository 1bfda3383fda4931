//! Removes: a page that empties is unlinked and goes back to the space.

ghost use Rattle.std.specs.Prelude.{◌≡◌, ◌≢◌, ◌+◌, ◌<◌, ℕ, suc, true, false, length, find, All, AllPairs, IsSome, nat_eq};
ghost use Rattle.page_image.specs.Page.{IsPage, PageContents};
ghost use Rattle.btree_inplace.specs.Alterations.{Altered, Emptied, unlinked};
ghost use Rattle.btree_inplace.specs.Changes.{without_key};
ghost use Rattle.btree_inplace.specs.Order.{has_key};
ghost use Rattle.btree_inplace.specs.Shape.{IsInner, IsSubtree, entries, pages};
ghost use Rattle.btree_inplace.specs.Trees.{Exchanges, IsTree, nodes_of, pages_of};

use crate::Tree;
use crate::insert::clear_first_key;
use btree_node::child;
use byteorder::{ByteOrder, LittleEndian};
use page_image::{LEAF, Page};
use page_space::Space;

impl Tree {
    /// Takes out the node with a key that is there. It takes no memory, and gives back each page that
    /// empties: no page of a tree but its root, where the tree has no node, is empty.
    pub fn remove(&mut self, space: &mut Space, key: &[u8])
        requires tree { IsTree space.old self.old }
        requires there { IsSome (find (has_key key.now) (nodes_of space.old self.old)) }
        ensures tree { IsTree space.new self.new }
        ensures nodes { nodes_of space.new self.new ≡ without_key (nodes_of space.old self.old) key.now }
        ensures pages { Exchanges space.old space.new (pages_of space.old self.old) (pages_of space.new self.new) }
        ensures root { self.new.root ≡ self.old.root }
    {
        if remove_below(space, self.root, self.depth, key) {
            *space.page_mut(self.root) = Page::empty(self.root, LEAF);
            self.depth = 0;
        }
    }
}

/// Takes the node with a key out below a page, and says whether no node is left there. The pages
/// below it that empty are given back.
fn remove_below(space: &mut Space, page: u32, depth: u32, key: &[u8]) -> bool
    requires tree { IsSubtree depth space.old page }
    requires once { AllPairs (λ p q. p ≢ q) (pages depth space.old page) }
    requires there { IsSome (find (has_key key.now) (entries depth space.old page)) }
    ensures kept { result ≡ false → Altered (λ nodes. without_key nodes key.now) key.now depth space.old space.new page }
    ensures emptied { result ≡ true → Emptied key.now depth space.old space.new page }
{
    if depth == 0 {
        return remove_at(space.page_mut(page), key);
    }
    let inner = space.page(page);
    let i = child(inner, key);
    let below = LittleEndian::read_u32(inner.data(i));
    if !remove_below(space, below, depth - 1, key) {
        return false;
    }
    space.give_back(below);
    unlink(space.page_mut(page), i)
}

/// Takes the node with a key out of a leaf, and says whether none is left.
fn remove_at(leaf: &mut Page, key: &[u8]) -> bool
    requires { IsSome (find (has_key key.now) leaf.old.nodes) }
    ensures value { leaf.new ≡ record leaf.old { nodes = without_key leaf.old.nodes key.now } }
    ensures page { IsPage leaf.new }
    ensures none { result ≡ nat_eq (length leaf.new.nodes) 0 }
{
    let _ = leaf.len();
    match leaf.find(key) {
        Ok(i) => leaf.remove(i),
        Err(_) => {}
    }
    leaf.len() == 0
}

/// Takes a child out of an inner page, whose first key stays empty, and says whether none is left.
fn unlink(page: &mut Page, i: usize) -> bool
    requires place { i < length page.old.nodes }
    requires inner { IsInner page.old.nodes }
    ensures last { result ≡ true → length page.old.nodes ≡ 1 }
    ensures kept { result ≡ false → (1 < length page.old.nodes) × (page.new ≡ record page.old { nodes = unlinked page.old.nodes i }) × IsPage page.new }
{
    page.remove(i);
    if page.len() == 0 {
        return true;
    }
    if i == 0 {
        clear_first_key(page);
    }
    false
}
