//! The tree of a catalog.

ghost use Rattle.std.specs.Prelude.{◌≡◌, ℕ, List, Some, None, [], length, IfOk, IsSome, OnErr, OnOk};
ghost use Rattle.std.specs.Option.{option_copied, option_map};
ghost use Rattle.page_space.specs.Frames.{Frames};
ghost use Rattle.btree_inplace.specs.Changes.{inserted, with_data_at, without_key};
ghost use Rattle.btree_inplace.specs.Order.{after_in, extent_in, first_in, get_in};
ghost use Rattle.btree_inplace.specs.Trees.{AreApart, Exchanges};
ghost use Rattle.catalog_grammar.specs.CatalogBytes.{catalog_node};
ghost use Rattle.catalog_grammar.specs.Catalogs.{catalog_nodes};
ghost use Rattle.catalog_record.specs.CatalogTrees.{CatalogBecomes, IsCatalogTree, nodes_in, own_pages, root_of};
ghost use Rattle.catalog_record.specs.declared.tree.CatalogTree.{CatalogTree};

use crate::NodeBuffer;
use btree_inplace::{Tree, other_tree_stays};
use jet_base::OutOfMemory;
use page_space::Space;

/// The nodes of a catalog. Every call is lent the space that has the tree's pages, and leaves all pages of other trees as
/// they are. A call that takes memory answers a `Result`; the others take none.
#[derive(Drop)]
pub struct CatalogTree {
    tree: Tree,
}

impl CatalogTree {
    /// The catalog of an empty database. After a refusal no page is taken.
    pub fn new(space: &mut Space) -> Result<CatalogTree, OutOfMemory>
        ensures ok { IfOk result (λ made. IsCatalogTree space.new made × (nodes_in space.new made ≡ catalog_nodes 0 []) × Exchanges space.old space.new [] (own_pages space.new made)) }
        ensures err { OnErr result (Exchanges space.old space.new [] []) }
    {
        let mut catalog = CatalogTree {
            tree: Tree::new(space)?,
        };
        let mut node = NodeBuffer::new();
        node.write_greatest(0);
        match catalog.add(space, &node) {
            Ok(()) => Ok(catalog),
            Err(fault) => {
                catalog.give_back(space);
                Err(fault)
            }
        }
    }

    /// The catalog of a tree whose nodes are the catalog's, as one that was read back.
    pub fn of(tree: Tree) -> CatalogTree
        ensures { result.tree ≡ tree }
    {
        CatalogTree { tree }
    }

    /// The number of the root page of the catalog, which stays the same while the catalog stands.
    pub fn root(&self) -> u32
        ensures { result ≡ root_of self.now }
    {
        self.tree.root()
    }

    /// Puts a node in its place, under a key that is not there. After a refusal the nodes are the same.
    pub fn add(&mut self, space: &mut Space, node: &NodeBuffer) -> Result<(), OutOfMemory>
        requires tree { IsCatalogTree space.old self.old }
        requires absent { get_in (nodes_in space.old self.old) node.now.key ≡ None }
        ensures ok { OnOk result (CatalogBecomes space.old self.old space.new self.new (inserted (nodes_in space.old self.old) (catalog_node node.now.key node.now.bytes))) }
        ensures err { OnErr result (CatalogBecomes space.old self.old space.new self.new (nodes_in space.old self.old)) }
    {
        let data = node.data();
        self.tree.insert(space, node.key(), data, data.len())
    }

    /// Puts other data of the same length under a key that is there. The tree keeps its pages. It takes no memory.
    pub fn replace(&mut self, space: &mut Space, node: &NodeBuffer)
        requires tree { IsCatalogTree space.old self.old }
        requires same_length { extent_in (nodes_in space.old self.old) node.now.key ≡ Some (length node.now.bytes) }
        ensures becomes { CatalogBecomes space.old self.old space.new self.new (with_data_at (nodes_in space.old self.old) node.now.key node.now.bytes) }
        ensures pages { own_pages space.new self.new ≡ own_pages space.old self.old }
    {
        self.tree.replace(space, node.key(), node.data());
    }

    /// Takes out the node with a key that is there. It takes no memory.
    pub fn remove(&mut self, space: &mut Space, key: &[u8])
        requires tree { IsCatalogTree space.old self.old }
        requires there { IsSome (get_in (nodes_in space.old self.old) key.now) }
        ensures { CatalogBecomes space.old self.old space.new self.new (without_key (nodes_in space.old self.old) key.now) }
    {
        self.tree.remove(space, key);
    }

    /// Gives all pages of the catalog to the space. It takes no memory.
    pub fn give_back(self, space: &mut Space)
        requires { IsCatalogTree space.old self }
        ensures { Exchanges space.old space.new (own_pages space.old self) [] }
    {
        self.tree.give_back(space);
    }

    /// The data of the node with a key, if there is one: a part of its page.
    pub fn get<'a>(&self, space: &'a Space, key: &[u8]) -> Option<&'a [u8]>
        requires { IsCatalogTree space.now self.now }
        ensures { option_copied result ≡ get_in (nodes_in space.now self.now) key.now }
    {
        self.tree.get(space, key)
    }

    /// How many bytes its page keeps for the data of the node with a key, if there is one.
    pub fn extent(&self, space: &Space, key: &[u8]) -> Option<usize>
        requires { IsCatalogTree space.now self.now }
        ensures { result ≡ extent_in (nodes_in space.now self.now) key.now }
    {
        self.tree.extent(space, key)
    }

    /// The first node: its key and its data.
    pub fn first<'a>(&self, space: &'a Space) -> Option<(&'a [u8], &'a [u8])>
        requires { IsCatalogTree space.now self.now }
        ensures { option_map (λ found. (found.0.now, found.1.now)) result ≡ first_in (nodes_in space.now self.now) }
    {
        self.tree.first(space)
    }

    /// The first node whose key is above a key.
    pub fn after<'a>(&self, space: &'a Space, key: &[u8]) -> Option<(&'a [u8], &'a [u8])>
        requires { IsCatalogTree space.now self.now }
        ensures { option_map (λ found. (found.0.now, found.1.now)) result ≡ after_in (nodes_in space.now self.now) key.now }
    {
        self.tree.after(space, key)
    }
}

/// A change of one tree of a space leaves the nodes of a catalog that has no page of it.
pub fn other_catalogs_stay()
    ensures { (old new : Frames) (before after : List ℕ) (catalog : CatalogTree) → Exchanges old new before after → IsCatalogTree old catalog → AreApart (own_pages old catalog) before → IsCatalogTree new catalog × (nodes_in new catalog ≡ nodes_in old catalog) × (own_pages new catalog ≡ own_pages old catalog) × AreApart (own_pages new catalog) after }
{
    other_tree_stays();
}
