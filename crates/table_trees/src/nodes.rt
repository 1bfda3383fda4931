//! The nodes of one table, each a row under its bookmark: a tree in the space that all trees share.

ghost use Rattle.std.specs.Prelude.{◌≡◌, ◌≤◌, ◌<◌, List, ℕ, [], length, IfOk, IsSome, IsSomeAnd, OnErr, OnOk};
ghost use Rattle.std.specs.Option.{option_copied, option_map};
ghost use Rattle.btree_inplace.specs.Changes.{inserted, inserted_if_absent, with_data_at, with_extent_at, without_key};
ghost use Rattle.btree_inplace.specs.Order.{extent_in, get_in};
ghost use Rattle.btree_inplace.specs.Trees.{IsTree, pages_of};
ghost use Rattle.btree_inplace.specs.declared.Tree.{Tree};
ghost use Rattle.page_space.specs.Frames.{Frames};
ghost use Rattle.table_trees.specs.Pages.{AreOwn, Rearranges};
ghost use Rattle.table_trees.specs.StoredNodes.{node_after, node_before};
ghost use Rattle.table_trees.specs.NodeTrees.{IsNodeTree, NodesBecome, node_pages, node_root, nodes_in};

use btree_inplace::{Tree, taken_pages};
use index_derive::Place;
use jet_base::OutOfMemory;
use page_space::Space;

/// The nodes of a table.
#[derive(Drop)]
pub struct NodeTree {
    tree: Tree,
}

impl NodeTree {
    /// No node.
    pub fn new(space: &mut Space) -> Result<NodeTree, OutOfMemory>
        ensures empty { IfOk result (λ made. IsNodeTree space.new made × (nodes_in space.new made ≡ []) × Rearranges space.old space.new [] (node_pages space.new made)) }
        ensures err { OnErr result (space.new ≡ space.old) }
    {
        tree_pages_are_own();
        match Tree::new(space) {
            Ok(tree) => Ok(NodeTree { tree }),
            Err(fault) => Err(fault),
        }
    }

    /// The nodes of a tree.
    pub fn of(tree: Tree) -> NodeTree
        ensures { result.tree ≡ tree }
    {
        NodeTree { tree }
    }

    /// The number of the root page, which stays the same while the tree stands.
    pub fn root(&self) -> u32
        ensures { result ≡ node_root self.now }
    {
        self.tree.root()
    }

    /// The row under a bookmark, if there is a node: a part of its page.
    pub fn get<'a>(&self, space: &'a Space, bookmark: &[u8]) -> Option<&'a [u8]>
        requires { IsNodeTree space.now self.now }
        ensures { option_copied result ≡ get_in (nodes_in space.now self.now) bookmark.now }
    {
        self.tree.get(space, bookmark)
    }

    /// How many bytes are kept for the row under a bookmark.
    pub fn extent(&self, space: &Space, bookmark: &[u8]) -> Option<usize>
        requires { IsNodeTree space.now self.now }
        ensures { result ≡ extent_in (nodes_in space.now self.now) bookmark.now }
    {
        self.tree.extent(space, bookmark)
    }

    /// Puts a node under a bookmark that has none.
    pub fn insert(
        &mut self,
        space: &mut Space,
        bookmark: &[u8],
        row: &[u8],
        extent: usize,
    ) -> Result<(), OutOfMemory>
        requires tree { IsNodeTree space.old self.old }
        requires absent { get_in (nodes_in space.old self.old) bookmark.now ≡ None }
        requires some { 0 < length bookmark.now }
        requires short { length bookmark.now ≤ 255 }
        requires fits { length row.now ≤ extent }
        requires small { extent ≤ 1700 }
        ensures ok { OnOk result (NodesBecome space.old self.old space.new self.new (inserted (nodes_in space.old self.old) (record { key = bookmark.now; extent = extent; «data» = row.now }))) }
        ensures err { OnErr result (NodesBecome space.old self.old space.new self.new (nodes_in space.old self.old)) }
    {
        tree_pages_are_own();
        self.tree.insert(space, bookmark, row, extent)
    }

    /// Puts a node under a bookmark that has none. Where it has one, all stays, and it answers how many bytes are kept for its
    /// row.
    pub fn insert_if_absent(
        &mut self,
        space: &mut Space,
        bookmark: &[u8],
        row: &[u8],
        extent: usize,
    ) -> Result<Option<usize>, OutOfMemory>
        requires tree { IsNodeTree space.old self.old }
        requires some { 0 < length bookmark.now }
        requires short { length bookmark.now ≤ 255 }
        requires fits { length row.now ≤ extent }
        requires small { extent ≤ 1700 }
        ensures there { IfOk result (λ there. there ≡ extent_in (nodes_in space.old self.old) bookmark.now) }
        ensures ok { OnOk result (NodesBecome space.old self.old space.new self.new (inserted_if_absent (nodes_in space.old self.old) (record { key = bookmark.now; extent = extent; «data» = row.now }))) }
        ensures err { OnErr result (NodesBecome space.old self.old space.new self.new (nodes_in space.old self.old)) }
        ensures absent { OnErr result (extent_in (nodes_in space.old self.old) bookmark.now ≡ None) }
    {
        tree_pages_are_own();
        self.tree.insert_if_absent(space, bookmark, row, extent)
    }

    /// Keeps another number of bytes for a row, at least as many as it has.
    pub fn widen(
        &mut self,
        space: &mut Space,
        bookmark: &[u8],
        extent: usize,
    ) -> Result<(), OutOfMemory>
        requires tree { IsNodeTree space.old self.old }
        requires fits { IsSomeAnd (get_in (nodes_in space.old self.old) bookmark.now) (λ row. length row ≤ extent) }
        requires small { extent ≤ 1700 }
        ensures ok { OnOk result (NodesBecome space.old self.old space.new self.new (with_extent_at (nodes_in space.old self.old) bookmark.now extent)) }
        ensures err { OnErr result (NodesBecome space.old self.old space.new self.new (nodes_in space.old self.old)) }
    {
        tree_pages_are_own();
        self.tree.widen(space, bookmark, extent)
    }

    /// Puts another row into a node that is there. It takes no memory.
    pub fn replace(&mut self, space: &mut Space, bookmark: &[u8], row: &[u8])
        requires tree { IsNodeTree space.old self.old }
        requires fits { IsSomeAnd (extent_in (nodes_in space.old self.old) bookmark.now) (λ extent. length row.now ≤ extent) }
        ensures { NodesBecome space.old self.old space.new self.new (with_data_at (nodes_in space.old self.old) bookmark.now row.now) }
    {
        tree_pages_are_own();
        self.tree.replace(space, bookmark, row);
    }

    /// Takes a node out that is there. It takes no memory.
    pub fn remove(&mut self, space: &mut Space, bookmark: &[u8])
        requires tree { IsNodeTree space.old self.old }
        requires there { IsSome (get_in (nodes_in space.old self.old) bookmark.now) }
        ensures { NodesBecome space.old self.old space.new self.new (without_key (nodes_in space.old self.old) bookmark.now) }
    {
        tree_pages_are_own();
        self.tree.remove(space, bookmark);
    }

    /// Gives the pages of the nodes to the space. It takes no memory.
    pub fn give_back(self, space: &mut Space)
        requires { IsNodeTree space.old self }
        ensures { Rearranges space.old space.new (node_pages space.old self) [] }
    {
        tree_pages_are_own();
        self.tree.give_back(space);
    }

    /// The least node beyond a place.
    pub fn after<'a>(&self, space: &'a Space, place: &Place) -> Option<(&'a [u8], &'a [u8])>
        requires { IsNodeTree space.now self.now }
        ensures { option_map (λ found. (found.0.now, found.1.now)) result ≡ node_after place.now (nodes_in space.now self.now) }
    {
        match place {
            Place::Before => self.tree.first(space),
            Place::After => None,
            Place::On(key, bookmark) => {
                if bookmark.cmp(key).is_lt() {
                    self.tree.at_or_after(space, key.as_bytes())
                } else {
                    self.tree.after(space, key.as_bytes())
                }
            }
            Place::Gap(key, above) => {
                if *above {
                    self.tree.after(space, key.as_bytes())
                } else {
                    self.tree.at_or_after(space, key.as_bytes())
                }
            }
        }
    }

    /// The greatest node before a place.
    pub fn before<'a>(&self, space: &'a Space, place: &Place) -> Option<(&'a [u8], &'a [u8])>
        requires { IsNodeTree space.now self.now }
        ensures { option_map (λ found. (found.0.now, found.1.now)) result ≡ node_before place.now (nodes_in space.now self.now) }
    {
        match place {
            Place::Before => None,
            Place::After => self.tree.last(space),
            Place::On(key, bookmark) => {
                if bookmark.cmp(key).is_gt() {
                    self.tree.at_or_before(space, key.as_bytes())
                } else {
                    self.tree.before(space, key.as_bytes())
                }
            }
            Place::Gap(key, above) => {
                if *above {
                    self.tree.at_or_before(space, key.as_bytes())
                } else {
                    self.tree.before(space, key.as_bytes())
                }
            }
        }
    }
}

/// Each page of a tree is taken, and is among its pages once.
pub fn tree_pages_are_own()
    ensures { (frames : Frames) (tree : Tree) → IsTree frames tree → AreOwn frames (pages_of frames tree) }
{
    taken_pages();
}
