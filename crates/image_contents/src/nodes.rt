//! The nodes of a tree, one after another.

ghost use Rattle.std.specs.Prelude.{◌≡◌, [], ◌∷◌, MatchOption};
ghost use Rattle.btree_inplace.specs.Trees.{IsTree, nodes_of};
ghost use Rattle.image_contents.specs.NodesLeft.{node_in};

use btree_inplace::{Tree, nodes_of_a_tree_rise};
use page_space::Space;
use std::marker::Model;

/// A node, as it lies in its page.
#[derive(Clone, Copy)]
pub struct NodeRef<'a> {
    pub key: &'a [u8],
    /// How many bytes its page keeps for its data.
    pub extent: usize,
    pub bytes: &'a [u8],
}

/// The nodes of a tree that are still to come, by rising key. It takes no memory.
#[derive(Drop)]
pub struct NodeWalk<'a> {
    space: &'a Space,
    tree: &'a Tree,
    next: Option<(&'a [u8], &'a [u8])>,
}

impl<'a> Model for NodeWalk<'a> {
    ghost use Rattle.std.specs.Prelude.{List};
    ghost use Rattle.std.specs.Option.{option_map};
    ghost use Rattle.page_image.specs.Page.{Node};
    ghost use Rattle.btree_inplace.specs.Trees.{IsTree, nodes_of};
    ghost use Rattle.image_contents.specs.NodesLeft.{IsPlace, nodes_from};

    ghost Value = { List Node };

    ghost view = { λ a. nodes_from (nodes_of a.space.now a.tree.now) (option_map (λ found. (found.0.now, found.1.now)) a.next) };

    ghost invariant = { λ a. IsTree a.space.now a.tree.now × IsPlace (nodes_of a.space.now a.tree.now) (option_map (λ found. (found.0.now, found.1.now)) a.next) };
}

impl<'a> NodeWalk<'a> {
    /// All nodes of a tree.
    pub fn new(space: &'a Space, tree: &'a Tree) -> NodeWalk<'a>
        requires { IsTree space.now tree.now }
        ensures { result ≡ nodes_of space.now tree.now }
    {
        nodes_of_a_tree_rise();
        let next = tree.first(space);
        NodeWalk { space, tree, next }
    }

    /// The next node, none behind the last one.
    pub fn next(&mut self) -> Option<NodeRef<'a>>
        ensures { MatchOption result ((self.old ≡ []) × (self.new ≡ [])) (λ n. self.old ≡ node_in n ∷ self.new) }
    {
        nodes_of_a_tree_rise();
        match self.next {
            None => None,
            Some((key, bytes)) => {
                let extent = self.tree.extent(self.space, key).unwrap_or(0);
                self.next = self.tree.after(self.space, key);
                Some(NodeRef { key, extent, bytes })
            }
        }
    }
}
