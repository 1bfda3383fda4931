//! Inserts and wider extents: a page without room is cut in two on the way down.

ghost use Rattle.std.specs.Prelude.{◌≡◌, ◌≢◌, ◌+◌, ◌-◌, ◌<◌, ◌≤◌, ℕ, None, [], ◌∷◌, zero, suc, false, length, take, drop, find, slice_set, All, AllPairs, IfOk, IsSome, IsSomeAnd, OnErr, OnOk};
ghost use Rattle.byteorder.specs.Endian.{little_number};
ghost use Rattle.page_image.specs.Page.{IsInsertPlace, IsPage, node_at, node_size, page_size};
ghost use Rattle.btree_node.specs.Cut.{IsChildPlace};
ghost use Rattle.btree_inplace.specs.Alterations.{AlteredTree, Entered, HasRoom, IsParted, IsRootAbove, Needs, Reaches, cleared, room_at, separator};
ghost use Rattle.btree_inplace.specs.Changes.{inserted, inserted_if_absent, with_extent_at};
ghost use Rattle.btree_inplace.specs.Order.{extent_in, has_key};
ghost use Rattle.btree_inplace.specs.Shape.{IsSubtree, IsTreeNode, child_of, entries, page_in, pages};
ghost use Rattle.btree_inplace.specs.Trees.{Exchanges, IsTree, nodes_of, pages_of};

use crate::{MAX_DEPTH, MAX_KEY_BYTES, Tree};
use btree_node::{HALF_BYTES, MAX_NODE_BYTES, child, half, split_at};
use byteorder::{ByteOrder, LittleEndian};
use jet_base::OutOfMemory;
use page_image::{INNER, NODE_HEAD_BYTES, PAGE_BYTES, Page};
use page_space::Space;

/// The bytes of a child's number.
const CHILD_BYTES: usize = 4;

/// The most that a node of an inner page takes: its head, a key of [`MAX_KEY_BYTES`] and a child's number.
const INNER_NODE_BYTES: usize = NODE_HEAD_BYTES + MAX_KEY_BYTES + CHILD_BYTES;

/// Where a page is cut in two: before which node, and whether a key that stands between the parts
/// belongs to the second one.
#[derive(Clone, Copy)]
struct Cut {
    at: usize,
    by_key: bool,
}

impl Tree {
    /// Puts a node in its place: a key of at most [`MAX_KEY_BYTES`] that is not there, its data, and how many
    /// bytes its page keeps for the data. After a refusal the list is the same. A tree that would need
    /// more than [`MAX_DEPTH`] inner pages one below the other is answered as one without memory. The pages
    /// of other trees stay as they are, and so they do at `widen` and `remove`.
    pub fn insert(
        &mut self,
        space: &mut Space,
        key: &[u8],
        data: &[u8],
        extent: usize,
    ) -> Result<(), OutOfMemory>
        requires tree { IsTree space.old self.old }
        requires absent { find (has_key key.now) (nodes_of space.old self.old) ≡ None }
        requires short { length key.now ≤ MAX_KEY_BYTES }
        requires fits { length «data».now ≤ extent }
        requires small { NODE_HEAD_BYTES + length key.now + extent ≤ MAX_NODE_BYTES }
        ensures tree { IsTree space.new self.new }
        ensures ok { OnOk result (nodes_of space.new self.new ≡ inserted (nodes_of space.old self.old) (record { key = key.now; extent = extent; «data» = «data».now })) }
        ensures err { OnErr result (nodes_of space.new self.new ≡ nodes_of space.old self.old) }
        ensures pages { Exchanges space.old space.new (pages_of space.old self.old) (pages_of space.new self.new) }
        ensures root { self.new.root ≡ self.old.root }
    {
        let page = self.leaf_with_room(space, key, NODE_HEAD_BYTES + key.len() + extent)?;
        let leaf = space.page_mut(page);
        match leaf.find(key) {
            Ok(_) => {}
            Err(i) => {
                let _ = leaf.insert(i, key, data, extent);
            }
        }
        Ok(())
    }

    /// Puts a node in its place where its key is not there, as `insert` does. Where the key is there, all stays as it is and
    /// no memory is taken: then it answers how many bytes are kept for the data that is there, as `extent` does. A tree that is
    /// too deep is answered as `insert` does.
    pub fn insert_if_absent(
        &mut self,
        space: &mut Space,
        key: &[u8],
        data: &[u8],
        extent: usize,
    ) -> Result<Option<usize>, OutOfMemory>
        requires tree { IsTree space.old self.old }
        requires short { length key.now ≤ MAX_KEY_BYTES }
        requires fits { length «data».now ≤ extent }
        requires small { NODE_HEAD_BYTES + length key.now + extent ≤ MAX_NODE_BYTES }
        ensures tree { IsTree space.new self.new }
        ensures there { IfOk result (λ there. there ≡ extent_in (nodes_of space.old self.old) key.now) }
        ensures ok { OnOk result (nodes_of space.new self.new ≡ inserted_if_absent (nodes_of space.old self.old) (record { key = key.now; extent = extent; «data» = «data».now })) }
        ensures err { OnErr result (nodes_of space.new self.new ≡ nodes_of space.old self.old) }
        ensures absent { OnErr result (extent_in (nodes_of space.old self.old) key.now ≡ None) }
        ensures pages { Exchanges space.old space.new (pages_of space.old self.old) (pages_of space.new self.new) }
        ensures root { self.new.root ≡ self.old.root }
    {
        let page = self.leaf(space, key);
        let leaf = space.page(page);
        match leaf.find(key) {
            Ok(i) => Ok(Some(leaf.extent(i))),
            Err(i) => {
                if leaf.used() + NODE_HEAD_BYTES + key.len() + extent <= PAGE_BYTES {
                    let _ = space.page_mut(page).insert(i, key, data, extent);
                    return Ok(None);
                }
                match self.insert(space, key, data, extent) {
                    Ok(()) => Ok(None),
                    Err(fault) => Err(fault),
                }
            }
        }
    }

    /// Keeps another number of bytes for the data under a key that is there, at least as many as the
    /// data has. After a refusal the list is the same. A tree that is too deep is answered as `insert` does.
    pub fn widen(&mut self, space: &mut Space, key: &[u8], extent: usize) -> Result<(), OutOfMemory>
        requires tree { IsTree space.old self.old }
        requires fits { IsSomeAnd (find (has_key key.now) (nodes_of space.old self.old)) (λ n. length n.data ≤ extent) }
        requires small { NODE_HEAD_BYTES + length key.now + extent ≤ MAX_NODE_BYTES }
        ensures tree { IsTree space.new self.new }
        ensures ok { OnOk result (nodes_of space.new self.new ≡ with_extent_at (nodes_of space.old self.old) key.now extent) }
        ensures err { OnErr result (nodes_of space.new self.new ≡ nodes_of space.old self.old) }
        ensures pages { Exchanges space.old space.new (pages_of space.old self.old) (pages_of space.new self.new) }
        ensures root { self.new.root ≡ self.old.root }
    {
        let more = self.missing(space, key, extent);
        let page = self.leaf_with_room(space, key, more)?;
        let leaf = space.page_mut(page);
        match leaf.find(key) {
            Ok(i) => {
                let _ = leaf.set_extent(i, extent);
            }
            Err(_) => {}
        }
        Ok(())
    }

    /// How many bytes the extent under a key lacks.
    fn missing(&self, space: &Space, key: &[u8], extent: usize) -> usize
        requires tree { IsTree space.now self.now }
        requires there { IsSome (find (has_key key.now) (nodes_of space.now self.now)) }
        requires small { NODE_HEAD_BYTES + length key.now + extent ≤ MAX_NODE_BYTES }
        ensures needs { Needs key.now result (nodes_of space.now self.now) }
        ensures value { IsSomeAnd (find (has_key key.now) (nodes_of space.now self.now)) (λ n. result ≡ extent - n.extent) }
        ensures short { length key.now ≤ MAX_KEY_BYTES }
    {
        let leaf = space.page(self.leaf(space, key));
        match leaf.find(key) {
            Ok(i) => extent.saturating_sub(leaf.extent(i)),
            Err(_) => 0,
        }
    }

    /// The leaf that a key belongs to, once it has room: each page of the path that has none is cut
    /// in two before it is entered, so that its parent takes one node more.
    fn leaf_with_room(
        &mut self,
        space: &mut Space,
        key: &[u8],
        need: usize,
    ) -> Result<u32, OutOfMemory>
        requires tree { IsTree space.old self.old }
        requires needs { Needs key.now need (nodes_of space.old self.old) }
        requires short { length key.now ≤ MAX_KEY_BYTES }
        ensures ok { IfOk result (λ leaf. Reaches key.now need space.old self.old space.new self.new leaf) }
        ensures err { OnErr result (AlteredTree (λ nodes. nodes) space.old self.old space.new self.new) }
        ensures root { self.new.root ≡ self.old.root }
    {
        self.raise(space, need)?;
        let mut page = self.root;
        for level in 0..self.depth {
            page = enter(space, page, self.depth - 1 - level, key, need)?;
        }
        Ok(page)
    }

    /// Makes a root without room an inner page, and moves its nodes to a page of their own, its one
    /// child: so the root page stays where it is. A tree of [`MAX_DEPTH`] inner pages one below the other is refused.
    fn raise(&mut self, space: &mut Space, need: usize) -> Result<(), OutOfMemory>
        requires tree { IsTree space.old self.old }
        requires small { need ≤ MAX_NODE_BYTES }
        ensures same { AlteredTree (λ nodes. nodes) space.old self.old space.new self.new }
        ensures root { self.new.root ≡ self.old.root }
        ensures room { OnOk result (page_size (page_in space.new self.new.root).nodes + room_at self.new.depth need ≤ PAGE_BYTES) }
    {
        if space.page(self.root).used() + room_at(self.depth, need) <= PAGE_BYTES {
            return Ok(());
        }
        if self.depth == MAX_DEPTH {
            return Err(OutOfMemory);
        }
        let number = space.take()?;
        let root = space.page_mut(self.root);
        let mut below = Page::empty(number, root.kind());
        root.move_tail(0, &mut below);
        *root = root_above(self.root, number);
        *space.page_mut(number) = below;
        self.depth += 1;
        Ok(())
    }
}

/// An inner page with one child.
fn root_above(number: u32, below: u32) -> Page
    ensures value { IsRootAbove result number below }
    ensures page { IsPage result }
{
    let mut page = Page::empty(number, INNER);
    let _ = page.insert(0, &[], &child_bytes(below), CHILD_BYTES);
    page
}

/// The number of a child as an inner page has it.
fn child_bytes(page: u32) -> [u8; 4]
    ensures value { little_number 4 result ≡ page }
    ensures len { length result ≡ 4 }
{
    let mut bytes = [0; CHILD_BYTES];
    LittleEndian::write_u32(&mut bytes, page);
    bytes
}

/// The room that a change of `need` bytes in a leaf needs on a page with `depth` inner pages below.
fn room_at(depth: u32, need: usize) -> usize
    ensures { result ≡ room_at depth need }
{
    if depth == 0 { need } else { INNER_NODE_BYTES }
}

/// Goes to the child that a key belongs to, `depth` being the inner pages below this one. A child
/// without room is cut in two first.
fn enter(
    space: &mut Space,
    page: u32,
    depth: u32,
    key: &[u8],
    need: usize,
) -> Result<u32, OutOfMemory>
    requires tree { IsSubtree (suc depth) space.old page }
    requires once { AllPairs (λ p q. p ≢ q) (pages (suc depth) space.old page) }
    requires room { page_size (page_in space.old page).nodes + INNER_NODE_BYTES ≤ PAGE_BYTES }
    requires short { length key.now ≤ MAX_KEY_BYTES }
    requires needs { Needs key.now need (entries (suc depth) space.old page) }
    ensures ok { IfOk result (λ child. Entered key.now depth space.old space.new page child) }
    ensures room { IfOk result (λ child. page_size (page_in space.new child).nodes + room_at depth need ≤ PAGE_BYTES) }
    ensures err { OnErr result (space.new ≡ space.old) }
{
    let inner = space.page(page);
    let i = child(inner, key);
    let below = LittleEndian::read_u32(inner.data(i));
    let full = space.page(below);
    if full.used() + room_at(depth, need) <= PAGE_BYTES {
        return Ok(below);
    }
    let cut = if depth == 0 {
        leaf_cut(full, key, need)
    } else {
        inner_cut(full)
    };
    split(space, page, depth, i, key, cut)
}

/// Cuts the child at place `i` in two: its nodes from the cut on go to a page right of it. Gives the
/// part that the key belongs to.
fn split(
    space: &mut Space,
    page: u32,
    depth: u32,
    i: usize,
    key: &[u8],
    cut: Cut,
) -> Result<u32, OutOfMemory>
    requires tree { IsSubtree (suc depth) space.old page }
    requires once { AllPairs (λ p q. p ≢ q) (pages (suc depth) space.old page) }
    requires room { page_size (page_in space.old page).nodes + INNER_NODE_BYTES ≤ PAGE_BYTES }
    requires place { IsChildPlace (page_in space.old page).nodes key.now i }
    requires short { length key.now ≤ MAX_KEY_BYTES }
    requires parted { let nodes = (page_in space.old (child_of (node_at (page_in space.old page).nodes i))).nodes in IsParted nodes cut.at (separator nodes key.now cut.at cut.by_key) }
    requires inner { 0 < depth → cut.by_key ≡ false }
    ensures ok { IfOk result (λ child. Entered key.now depth space.old space.new page child) }
    ensures room { IfOk result (λ child. (need : ℕ) → (let nodes = (page_in space.old (child_of (node_at (page_in space.old page).nodes i))).nodes in HasRoom nodes key.now need cut.at (separator nodes key.now cut.at cut.by_key)) → page_size (page_in space.new child).nodes + need ≤ PAGE_BYTES) }
    ensures err { OnErr result (space.new ≡ space.old) }
{
    let inner = space.page(page);
    let _ = inner.len();
    let below = LittleEndian::read_u32(inner.data(i));
    let number = space.take()?;
    let left = space.page_mut(below);
    let mut right = Page::empty(number, left.kind());
    left.move_tail(cut.at, &mut right);
    let separator = if cut.by_key { key } else { right.key(0) };
    let is_left = key.cmp(separator).is_lt();
    let _ = space
        .page_mut(page)
        .insert(i + 1, separator, &child_bytes(number), CHILD_BYTES);
    if depth > 0 {
        clear_first_key(&mut right);
    }
    *space.page_mut(number) = right;
    Ok(if is_left { below } else { number })
}

/// Where to cut a leaf for a change of `need` bytes at a key, so that the part that the key belongs to
/// has room.
fn leaf_cut(page: &Page, key: &[u8], need: usize) -> Cut
    requires small { All IsTreeNode page.now.nodes }
    requires full { PAGE_BYTES < page_size page.now.nodes + need }
    requires needs { Needs key.now need page.now.nodes }
    ensures parted { IsParted page.now.nodes result.at (separator page.now.nodes key.now result.at result.by_key) }
    ensures room { HasRoom page.now.nodes key.now need result.at (separator page.now.nodes key.now result.at result.by_key) }
{
    let _ = page.len();
    match page.find(key) {
        Err(i) => new_node_cut(page, key, i, need),
        Ok(i) => {
            let at = half(page);
            Cut {
                at: if i <= at { at } else { at + 1 },
                by_key: false,
            }
        }
    }
}

/// Where to cut a leaf for a node with a new key, which stands at place `i`.
fn new_node_cut(page: &Page, key: &[u8], i: usize, need: usize) -> Cut
    requires place { IsInsertPlace page.now.nodes key.now i }
    requires all_small { All (λ n. node_size n ≤ MAX_NODE_BYTES) page.now.nodes }
    requires full { PAGE_BYTES < page_size page.now.nodes + need }
    requires small { need ≤ MAX_NODE_BYTES }
    ensures parted { IsParted page.now.nodes result.at (separator page.now.nodes key.now result.at result.by_key) }
    ensures room { HasRoom page.now.nodes key.now need result.at (separator page.now.nodes key.now result.at result.by_key) }
{
    let _ = page.len();
    let cut = split_at(page, i, need);
    if cut > i {
        return Cut {
            at: cut - 1,
            by_key: false,
        };
    }
    Cut {
        at: cut,
        by_key: i == cut,
    }
}

/// Where to cut an inner page, so that both parts have room.
fn inner_cut(page: &Page) -> Cut
    requires small { All (λ n. node_size n ≤ INNER_NODE_BYTES) page.now.nodes }
    requires full { HALF_BYTES < page_size page.now.nodes }
    ensures parted { IsParted page.now.nodes result.at (node_at page.now.nodes result.at).key }
    ensures left { page_size (take result.at page.now.nodes) + INNER_NODE_BYTES ≤ PAGE_BYTES }
    ensures right { page_size (drop result.at page.now.nodes) + INNER_NODE_BYTES ≤ PAGE_BYTES }
    ensures by_key { result.by_key ≡ false }
{
    Cut {
        at: half(page),
        by_key: false,
    }
}

/// Makes the first key of an inner page empty, so that each key has a child there.
pub fn clear_first_key(page: &mut Page)
    requires some { 0 < length page.old.nodes }
    requires child { length (node_at page.old.nodes 0).data ≡ 4 }
    requires extent { (node_at page.old.nodes 0).extent ≡ 4 }
    ensures value { page.new ≡ record page.old { nodes = cleared page.old.nodes } }
    ensures page { IsPage page.new }
{
    let _ = page.len();
    let mut bytes = [0; CHILD_BYTES];
    bytes.copy_from_slice(page.data(0));
    page.remove(0);
    let _ = page.insert(0, &[], &bytes, CHILD_BYTES);
}
