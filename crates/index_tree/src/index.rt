//! An index: its entries, in rising order.

ghost use Rattle.std.specs.Prelude.{◌≡◌, ◌+◌, ◌*◌, ◌≤◌, ◌++◌, ℕ, false, true, not, List, [], length, find, filter, IfOk, OnErr, OnOk};
ghost use Rattle.std.specs.List.{last_or};
ghost use Rattle.std.specs.Option.{option_map};
ghost use Rattle.page_space.specs.Frames.{Frames};
ghost use Rattle.btree_inplace.specs.Trees.{AreApart, Exchanges};
ghost use Rattle.index_derive.specs.Entries.{insert_entry};
ghost use Rattle.index_derive.specs.declared.entries.Place.TheVariants.{On};
ghost use Rattle.cursor_nav.specs.Places.{entry_after, entry_before, pair_lt};
ghost use Rattle.laws_versions.specs.KeptEntries.{has_entry, has_key, without_entry};
ghost use Rattle.index_tree.specs.declared.parts.TheConstants.{MAX_BEHIND_BYTES, MAX_PART_BYTES};
ghost use Rattle.index_tree.specs.Entries.{CutsAt, IsApartFromAll, insert_entry_if_absent, is_at_or_after};
ghost use Rattle.index_tree.specs.IndexTrees.{IsIndexTree, entries_of, own_pages, root_of};
ghost use Rattle.index_tree.specs.declared.index.IndexTree.{IndexTree};

use crate::parts::{NodeKey, gap_bookmark, join, joined, parts};
use btree_inplace::{Tree, nodes_fit_their_space, other_tree_stays};
use byteorder::{ByteOrder, LittleEndian};
use index_derive::Place;
use jet_base::OutOfMemory;
use page_image::MAX_NODES;
use page_space::Space;
use std::cmp::Ordering;

/// The entries of an index, each a key with a bookmark. The key of no entry begins the key of another.
/// Every call is lent the space that has the index's pages, and leaves all pages of other trees as they
/// are. None but `new`, `insert` and `insert_if_absent` takes memory.
#[derive(Drop)]
pub struct IndexTree {
    tree: Tree,
}

impl IndexTree {
    /// No entry.
    pub fn new(space: &mut Space) -> Result<IndexTree, OutOfMemory>
        ensures empty { IfOk result (λ made. IsIndexTree space.new made × (entries_of space.new made ≡ [])) }
        ensures pages { IfOk result (λ made. Exchanges space.old space.new [] (own_pages space.new made)) }
        ensures err { OnErr result (space.new ≡ space.old) }
    {
        match Tree::new(space) {
            Ok(tree) => Ok(IndexTree { tree }),
            Err(fault) => Err(fault),
        }
    }

    /// The index of a tree whose nodes are its entries, as one that was read back.
    pub fn of(tree: Tree) -> IndexTree
        ensures { result.tree ≡ tree }
    {
        IndexTree { tree }
    }

    /// The number of the root page of the index, which stays the same while the index stands.
    pub fn root(&self) -> u32
        ensures { result ≡ root_of self.now }
    {
        self.tree.root()
    }

    /// Puts an entry that is not there in its place. After a refusal the entries are the same.
    pub fn insert(
        &mut self,
        space: &mut Space,
        key: &[u8],
        bookmark: &[u8],
    ) -> Result<(), OutOfMemory>
        requires index { IsIndexTree space.old self.old }
        requires absent { has_entry key.now bookmark.now (entries_of space.old self.old) ≡ false }
        requires apart { IsApartFromAll key.now (entries_of space.old self.old) }
        requires key { length key.now ≤ MAX_PART_BYTES }
        requires bookmark { length bookmark.now ≤ MAX_PART_BYTES }
        ensures index { IsIndexTree space.new self.new }
        ensures ok { OnOk result (entries_of space.new self.new ≡ insert_entry (key.now, bookmark.now) (entries_of space.old self.old)) }
        ensures err { OnErr result (entries_of space.new self.new ≡ entries_of space.old self.old) }
        ensures pages { Exchanges space.old space.new (own_pages space.old self.old) (own_pages space.new self.new) }
        ensures root { root_of self.new ≡ root_of self.old }
    {
        let mut size = [0; 2];
        LittleEndian::write_u16(&mut size, key.len() as u16);
        let node_key = joined(key, bookmark);
        self.tree
            .insert(space, node_key.as_slice(), size.as_slice(), 2)
    }

    /// Puts an entry in its place where it is not there, and says whether it was put. After a refusal, which only an entry
    /// that is not there meets, the entries are the same.
    pub fn insert_if_absent(
        &mut self,
        space: &mut Space,
        key: &[u8],
        bookmark: &[u8],
    ) -> Result<bool, OutOfMemory>
        requires index { IsIndexTree space.old self.old }
        requires apart { IsApartFromAll key.now (entries_of space.old self.old) }
        requires key { length key.now ≤ MAX_PART_BYTES }
        requires bookmark { length bookmark.now ≤ MAX_PART_BYTES }
        ensures index { IsIndexTree space.new self.new }
        ensures put { IfOk result (λ is_new. is_new ≡ not (has_entry key.now bookmark.now (entries_of space.old self.old))) }
        ensures ok { OnOk result (entries_of space.new self.new ≡ insert_entry_if_absent (key.now, bookmark.now) (entries_of space.old self.old)) }
        ensures err { OnErr result (entries_of space.new self.new ≡ entries_of space.old self.old) }
        ensures absent { OnErr result (has_entry key.now bookmark.now (entries_of space.old self.old) ≡ false) }
        ensures pages { Exchanges space.old space.new (own_pages space.old self.old) (own_pages space.new self.new) }
        ensures root { root_of self.new ≡ root_of self.old }
    {
        let mut size = [0; 2];
        LittleEndian::write_u16(&mut size, key.len() as u16);
        let node_key = joined(key, bookmark);
        match self
            .tree
            .insert_if_absent(space, node_key.as_slice(), size.as_slice(), 2)
        {
            Ok(None) => Ok(true),
            Ok(Some(_)) => Ok(false),
            Err(fault) => Err(fault),
        }
    }

    /// Takes out an entry that is there.
    pub fn remove(&mut self, space: &mut Space, key: &[u8], bookmark: &[u8])
        requires index { IsIndexTree space.old self.old }
        requires there { has_entry key.now bookmark.now (entries_of space.old self.old) ≡ true }
        ensures index { IsIndexTree space.new self.new }
        ensures entries { entries_of space.new self.new ≡ without_entry key.now bookmark.now (entries_of space.old self.old) }
        ensures pages { Exchanges space.old space.new (own_pages space.old self.old) (own_pages space.new self.new) }
        ensures root { root_of self.new ≡ root_of self.old }
    {
        let node_key = joined(key, bookmark);
        self.tree.remove(space, node_key.as_slice());
    }

    /// Gives all pages of the index to the space. It takes no memory.
    pub fn give_back(self, space: &mut Space)
        requires { IsIndexTree space.old self }
        ensures { Exchanges space.old space.new (own_pages space.old self) [] }
    {
        self.tree.give_back(space);
    }

    /// Whether an entry is there.
    pub fn has(&self, space: &Space, key: &[u8], bookmark: &[u8]) -> bool
        requires index { IsIndexTree space.now self.now }
        requires key { length key.now ≤ MAX_PART_BYTES }
        requires bookmark { length bookmark.now ≤ MAX_PART_BYTES }
        ensures { result ≡ has_entry key.now bookmark.now (entries_of space.now self.now) }
    {
        let node_key = joined(key, bookmark);
        match self.tree.get(space, node_key.as_slice()) {
            Some(size) => usize::from(LittleEndian::read_u16(size)) == key.len(),
            None => false,
        }
    }

    /// Whether an entry with a key is there.
    pub fn has_key(&self, space: &Space, key: &[u8]) -> bool
        requires index { IsIndexTree space.now self.now }
        ensures { result ≡ has_key key.now (entries_of space.now self.now) }
    {
        match parts(self.tree.at_or_after(space, key)) {
            Some((found, _)) => found == key,
            None => false,
        }
    }

    /// The least entry beyond a place: its key and its bookmark, as they lie in their page.
    pub fn after<'a>(&self, space: &'a Space, place: &Place) -> Option<(&'a [u8], &'a [u8])>
        requires { IsIndexTree space.now self.now }
        ensures { option_map (λ found. (found.0.now, found.1.now)) result ≡ entry_after place.now (entries_of space.now self.now) }
    {
        match place {
            Place::Before => parts(self.tree.first(space)),
            Place::After => None,
            Place::On(key, bookmark) => self.behind(space, key.as_bytes(), bookmark.as_bytes()),
            Place::Gap(key, above) => self.from(space, key.as_bytes(), gap_bookmark(*above), &[]),
        }
    }

    /// The greatest entry before a place: its key and its bookmark, as they lie in their page.
    pub fn before<'a>(&self, space: &'a Space, place: &Place) -> Option<(&'a [u8], &'a [u8])>
        requires { IsIndexTree space.now self.now }
        ensures { option_map (λ found. (found.0.now, found.1.now)) result ≡ entry_before place.now (entries_of space.now self.now) }
    {
        match place {
            Place::Before => None,
            Place::After => parts(self.tree.last(space)),
            Place::On(key, bookmark) => self.in_front(space, key.as_bytes(), bookmark.as_bytes()),
            Place::Gap(key, above) => self.below(space, key.as_bytes(), gap_bookmark(*above)),
        }
    }

    /// The least entry above a key with a bookmark. Where these are an entry, it is that of the node behind its own, which one
    /// way down the tree finds: the key of no other entry begins it, so that the nodes have the order of the entries.
    fn behind<'a>(
        &self,
        space: &'a Space,
        key: &[u8],
        bookmark: &[u8],
    ) -> Option<(&'a [u8], &'a [u8])>
        requires index { IsIndexTree space.now self.now }
        requires key { length key.now ≤ MAX_PART_BYTES }
        requires bookmark { length bookmark.now ≤ MAX_PART_BYTES }
        ensures { option_map (λ found. (found.0.now, found.1.now)) result ≡ entry_after (On key.now bookmark.now) (entries_of space.now self.now) }
    {
        let mut node_key = NodeKey::new();
        join(&mut node_key, key, bookmark, &[]);
        let (size, next) = self.tree.get_and_after(space, node_key.as_slice());
        match size {
            Some(size) if usize::from(LittleEndian::read_u16(size)) == key.len() => parts(next),
            _ => self.from(space, key, bookmark, &[0]),
        }
    }

    /// The greatest entry below a key with a bookmark, as `behind` finds the least above them.
    fn in_front<'a>(
        &self,
        space: &'a Space,
        key: &[u8],
        bookmark: &[u8],
    ) -> Option<(&'a [u8], &'a [u8])>
        requires index { IsIndexTree space.now self.now }
        requires key { length key.now ≤ MAX_PART_BYTES }
        requires bookmark { length bookmark.now ≤ MAX_PART_BYTES }
        ensures { option_map (λ found. (found.0.now, found.1.now)) result ≡ entry_before (On key.now bookmark.now) (entries_of space.now self.now) }
    {
        let mut node_key = NodeKey::new();
        join(&mut node_key, key, bookmark, &[]);
        let (size, previous) = self.tree.get_and_before(space, node_key.as_slice());
        match size {
            Some(size) if usize::from(LittleEndian::read_u16(size)) == key.len() => parts(previous),
            _ => self.below(space, key, bookmark),
        }
    }

    /// The least entry that is not below a key with a bookmark that has these bytes behind it, [`MAX_BEHIND_BYTES`] together. Where no
    /// entry has the key or begins it, it is that of the first node at the key or after it.
    fn from<'a>(
        &self,
        space: &'a Space,
        key: &[u8],
        bookmark: &[u8],
        behind: &[u8],
    ) -> Option<(&'a [u8], &'a [u8])>
        requires index { IsIndexTree space.now self.now }
        requires key { length key.now ≤ MAX_PART_BYTES }
        requires bookmark { length bookmark.now + length behind.now ≤ MAX_BEHIND_BYTES }
        ensures { option_map (λ found. (found.0.now, found.1.now)) result ≡ find (λ entry. not (pair_lt entry (key.now, bookmark.now ++ behind.now))) (entries_of space.now self.now) }
    {
        let found = parts(self.tree.at_or_after(space, key));
        match found {
            Some((own, _)) => match own.cmp(key) {
                Ordering::Less => self.at_node_or_after(space, own, gap_bookmark(true), &[]),
                Ordering::Equal => {
                    let size = bookmark.len() + behind.len();
                    if size == 0 {
                        return found;
                    }
                    self.at_node_or_after(space, key, bookmark, behind)
                }
                Ordering::Greater => found,
            },
            None => None,
        }
    }

    /// The entry of the first node whose key is not below these bytes, one behind the other.
    fn at_node_or_after<'a>(
        &self,
        space: &'a Space,
        key: &[u8],
        bookmark: &[u8],
        behind: &[u8],
    ) -> Option<(&'a [u8], &'a [u8])>
        requires index { IsIndexTree space.now self.now }
        requires key { length key.now ≤ MAX_PART_BYTES }
        requires bookmark { length bookmark.now + length behind.now ≤ MAX_BEHIND_BYTES }
        ensures { option_map (λ found. (found.0.now, found.1.now)) result ≡ find (is_at_or_after (key.now ++ bookmark.now ++ behind.now)) (entries_of space.now self.now) }
    {
        let mut node_key = NodeKey::new();
        join(&mut node_key, key, bookmark, behind);
        parts(self.tree.at_or_after(space, node_key.as_slice()))
    }

    /// The greatest entry below a key with a bookmark, which may have [`MAX_BEHIND_BYTES`].
    fn below<'a>(
        &self,
        space: &'a Space,
        key: &[u8],
        bookmark: &[u8],
    ) -> Option<(&'a [u8], &'a [u8])>
        requires index { IsIndexTree space.now self.now }
        requires key { length key.now ≤ MAX_PART_BYTES }
        requires bookmark { length bookmark.now ≤ MAX_BEHIND_BYTES }
        ensures { option_map (λ found. (found.0.now, found.1.now)) result ≡ last_or None (filter (λ entry. pair_lt entry (key.now, bookmark.now)) (entries_of space.now self.now)) }
    {
        let mut node_key = NodeKey::new();
        self.cut(space, key, bookmark, &mut node_key);
        parts(self.tree.before(space, node_key.as_slice()))
    }

    /// Makes it a node's key that parts the nodes as a key with a bookmark parts the entries. The key need not be apart from the
    /// entries' keys: the nodes of one that begins it may lie on both sides of it, though all their entries are below.
    fn cut(&self, space: &Space, key: &[u8], bookmark: &[u8], node_key: &mut NodeKey)
        requires index { IsIndexTree space.now self.now }
        requires key { length key.now ≤ MAX_PART_BYTES }
        requires bookmark { length bookmark.now ≤ MAX_BEHIND_BYTES }
        ensures { CutsAt node_key.new.items (key.now, bookmark.now) (entries_of space.now self.now) }
    {
        match parts(self.tree.at_or_after(space, key)) {
            Some((found, _)) => match found.cmp(key) {
                Ordering::Less => join(node_key, found, gap_bookmark(true), &[]),
                Ordering::Equal => join(node_key, key, bookmark, &[]),
                Ordering::Greater => join(node_key, key, &[], &[]),
            },
            None => join(node_key, key, &[], &[]),
        }
    }
}

/// A change of one tree of a space leaves the entries of an index that has no page of it.
pub fn other_index_entries_stay()
    ensures { (old new : Frames) (before after : List ℕ) (index : IndexTree) → Exchanges old new before after → IsIndexTree old index → AreApart (own_pages old index) before → IsIndexTree new index × (entries_of new index ≡ entries_of old index) × (own_pages new index ≡ own_pages old index) × AreApart (own_pages new index) after }
{
    other_tree_stays();
}

/// An index has at most [`MAX_NODES`] entries for each page of its space.
pub fn entries_fit_their_space()
    ensures { (frames : Frames) (index : IndexTree) → IsIndexTree frames index → length (entries_of frames index) ≤ MAX_NODES * length frames }
{
    nodes_fit_their_space();
}
