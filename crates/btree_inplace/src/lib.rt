//! B-trees that change in place, over a space that several trees share.
#![tactic(auto)]

ghost use Rattle.std.specs.Prelude.{◌≡◌, ◌*◌, ◌<◌, ◌≤◌, ◌↔◌, ◌⊎◌, Some, None, [], ◌∷◌, zero, suc, length, find, reverse, ℕ, List, Contains, IsSomeAnd, IfOk, OnErr, MatchOption};
ghost use Rattle.std.specs.Option.{option_copied, option_map};
ghost use Rattle.page_image.specs.Page.{HasRisingKeys, Node, node_at};
ghost use Rattle.btree_inplace.specs.Order.{at_or_after_in, at_or_before_in, extent_in, first_in, get_in, has_key, is_from, is_upto, last_in};
ghost use Rattle.btree_inplace.specs.Changes.{Changed, IsLocal, StayBut, with_data_at};
ghost use Rattle.btree_inplace.specs.Shape.{IsSubtree, entries, page_in};
ghost use Rattle.btree_inplace.specs.Neighbors.{IsNeighbor, found_left, found_right};
ghost use Rattle.page_space.specs.Frames.{Frames, IsTaken, Takes, page_at};
ghost use Rattle.btree_inplace.specs.declared.Tree.{Tree};
ghost use Rattle.btree_inplace.specs.Trees.{AreApart, Exchanges, IsTree, nodes_of, pages_of};

mod counts;
mod discard;
mod insert;
mod neighbors;
mod places;
mod remove;

use crate::places::LastPlaces;
use btree_node::child;
use byteorder::{ByteOrder, LittleEndian};
use jet_base::OutOfMemory;
use page_image::{MAX_NODES, nodes_of_a_page_are_few};
use page_space::Space;

/// The most inner pages of a tree that stand one below the other. Where so many do, and the root has no room, an insert and a
/// wider extent are answered as without memory.
pub const MAX_DEPTH: u32 = 64;

/// The most bytes of the key of a node.
pub const MAX_KEY_BYTES: usize = 755;

/// A sorted list of nodes in the pages of a space, found by its root page.
#[derive(Drop)]
pub struct Tree {
    root: u32,
    // How many inner pages stand above each leaf.
    depth: u32,
    // Where the last search ended: a guess.
    last: LastPlaces,
}

impl Tree {
    /// A tree with no node. Its one page is taken from the space.
    pub fn new(space: &mut Space) -> Result<Tree, OutOfMemory>
        ensures tree { IfOk result (λ tree. IsTree space.new tree × (nodes_of space.new tree ≡ []) × (pages_of space.new tree ≡ tree.root ∷ [])) }
        ensures taken { IfOk result (λ tree. Takes space.old tree.root space.new) }
        ensures pages { IfOk result (λ tree. Exchanges space.old space.new [] (pages_of space.new tree)) }
        ensures err { OnErr result (space.new ≡ space.old) }
    {
        let root = space.take()?;
        Ok(Tree {
            root,
            depth: 0,
            last: LastPlaces::new(),
        })
    }

    /// The tree with a root page, and with so many inner pages above each leaf, at most [`MAX_DEPTH`]: as `new` and later changes
    /// left it, or as a check of the pages found it. It reads no page.
    pub fn at(root: u32, depth: u32) -> Tree
        ensures root { result.root ≡ root }
        ensures depth { result.depth ≡ depth }
    {
        Tree {
            root,
            depth,
            last: LastPlaces::new(),
        }
    }

    /// The number of the root page. It stays the same while the tree stands, however many nodes it has:
    /// so whoever keeps the number finds the tree again.
    pub fn root(&self) -> u32
        ensures { result ≡ self.now.root }
    {
        self.root
    }

    /// The data of the node with a key, if there is one: a part of its page.
    pub fn get<'a>(&self, space: &'a Space, key: &[u8]) -> Option<&'a [u8]>
        requires { IsTree space.now self.now }
        ensures { option_copied result ≡ get_in (nodes_of space.now self.now) key.now }
    {
        match self.found_again(space, key) {
            Some((leaf, i)) => Some(leaf.data(i)),
            None => self.search(space, key),
        }
    }

    /// `get` by a search from the root.
    fn search<'a>(&self, space: &'a Space, key: &[u8]) -> Option<&'a [u8]>
        requires { IsTree space.now self.now }
        ensures { option_copied result ≡ get_in (nodes_of space.now self.now) key.now }
    {
        let leaf = space.page(self.leaf(space, key));
        match leaf.find(key) {
            Ok(i) => {
                self.last.note_in_leaf(i, key);
                Some(leaf.data(i))
            }
            Err(_) => None,
        }
    }

    /// How many bytes the page keeps for the data under a key, if it is there.
    pub fn extent(&self, space: &Space, key: &[u8]) -> Option<usize>
        requires { IsTree space.now self.now }
        ensures { result ≡ extent_in (nodes_of space.now self.now) key.now }
    {
        let leaf = space.page(self.leaf(space, key));
        match leaf.find(key) {
            Ok(i) => Some(leaf.extent(i)),
            Err(_) => None,
        }
    }

    /// Puts other data under a key that is there, within its extent. It takes no memory.
    pub fn replace(&mut self, space: &mut Space, key: &[u8], data: &[u8])
        requires tree { IsTree space.old self.old }
        requires fits { IsSomeAnd (find (has_key key.now) (nodes_of space.old self.old)) (λ n. length «data».now ≤ n.extent) }
        ensures tree { IsTree space.new self.new }
        ensures nodes { nodes_of space.new self.new ≡ with_data_at (nodes_of space.old self.old) key.now «data».now }
        ensures pages { pages_of space.new self.new ≡ pages_of space.old self.old }
        ensures same { self.new ≡ self.old }
        ensures others { (p : ℕ) → ¬ Contains (pages_of space.old self.old) p → page_at space.new p ≡ page_at space.old p }
    {
        let page = self.leaf(space, key);
        let leaf = space.page_mut(page);
        match leaf.find(key) {
            Ok(i) => leaf.replace(i, data),
            Err(_) => {}
        }
    }

    /// The leaf that a key belongs to. The places of the way there are noted.
    fn leaf(&self, space: &Space, key: &[u8]) -> u32
        requires { IsTree space.now self.now }
        ensures leaf { IsSubtree zero space.now result }
        ensures found { find (has_key key.now) (entries zero space.now result) ≡ find (has_key key.now) (nodes_of space.now self.now) }
        ensures own { Contains (pages_of space.now self.now) result }
        ensures lifts { (change : List Node → List Node) (new : Frames) → IsLocal change key.now → StayBut space.now new result → Changed change key.now zero space.now new result → Changed change key.now self.now.depth space.now new self.now.root }
    {
        let mut page = self.root;
        for level in 0..self.depth {
            let inner = space.page(page);
            let i = child(inner, key);
            self.last.note(self.depth - 1 - level, i);
            page = LittleEndian::read_u32(inner.data(i));
        }
        page
    }
}

/// A change of a tree leaves each other tree of the space, which has no page of it: so several trees
/// share a space, each with pages of its own.
pub fn other_tree_stays()
    ensures { (old new : Frames) (before after : List ℕ) (tree : Tree) → Exchanges old new before after → IsTree old tree → AreApart (pages_of old tree) before → IsTree new tree × (nodes_of new tree ≡ nodes_of old tree) × (pages_of new tree ≡ pages_of old tree) × AreApart (pages_of new tree) after }
{}

/// The pages that are taken after a change of a tree: those that were taken and not its own, and
/// those that are its own.
pub fn taken_pages()
    ensures only { (old new : Frames) (before after : List ℕ) → Exchanges old new before after → (p : ℕ) → IsTaken new p → Contains after p ⊎ (IsTaken old p × (¬ Contains before p)) }
    ensures all { (old new : Frames) (before : List ℕ) (tree : Tree) → IsTree new tree → Exchanges old new before (pages_of new tree) → (p : ℕ) → Contains (pages_of new tree) p ⊎ (IsTaken old p × (¬ Contains before p)) → IsTaken new p }
{}

/// No page of a tree that has a node is empty.
pub fn no_page_is_empty()
    ensures { (frames : Frames) (tree : Tree) → IsTree frames tree → 0 < length (nodes_of frames tree) → (p : ℕ) → Contains (pages_of frames tree) p → 0 < length (page_in frames p).nodes }
{}

/// The keys of the nodes below a page of a tree rise strictly from the left, and so do those of a tree's nodes.
pub fn nodes_of_a_tree_rise()
    ensures subtree { (depth : ℕ) (frames : Frames) (page : ℕ) → IsSubtree depth frames page → HasRisingKeys (entries depth frames page) }
    ensures tree { (frames : Frames) (tree : Tree) → IsTree frames tree → HasRisingKeys (nodes_of frames tree) }
{}

/// A tree has at most as many pages as its space.
pub fn pages_fit_their_space()
    ensures { (frames : Frames) (tree : Tree) → IsTree frames tree → length (pages_of frames tree) ≤ length frames }
{}

/// A tree has at most [`MAX_NODES`] for each page of its space.
pub fn nodes_fit_their_space()
    ensures { (frames : Frames) (tree : Tree) → IsTree frames tree → length (nodes_of frames tree) ≤ MAX_NODES * length frames }
{
    nodes_of_a_page_are_few();
}
