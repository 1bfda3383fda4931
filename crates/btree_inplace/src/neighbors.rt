//! The first and the last node of a tree, and the nodes beside a key.

ghost use Rattle.std.specs.Prelude.{◌≡◌, ◌<◌, zero, suc, find, reverse, Bool};
ghost use Rattle.std.specs.Option.{option_copied, option_map, option_or};
ghost use Rattle.page_image.specs.Page.{Node};
ghost use Rattle.btree_inplace.specs.Order.{PassesAbove, PassesBelow, after_in, at_or_after_in, at_or_before_in, before_in, first_in, get_in, has_key, is_above, is_from, is_under, is_upto, key_and_data, last_in};
ghost use Rattle.btree_inplace.specs.Shape.{IsSubtree, entries, page_in};
ghost use Rattle.btree_inplace.specs.Neighbors.{IsFirstPlace, IsLastPlace, IsNeighbor, first_of, found_left, found_right, last_of};

use crate::Tree;
use crate::places::LastPlaces;
use btree_node::child;
use byteorder::{ByteOrder, LittleEndian};
use page_image::Page;
use page_space::Space;

impl Tree {
    ghost use Rattle.btree_inplace.specs.Trees.{IsTree, nodes_of};

    /// The first node whose key is not below a key, if there is one: its key and data.
    pub fn at_or_after<'a>(&self, space: &'a Space, key: &[u8]) -> Option<(&'a [u8], &'a [u8])>
        requires { IsTree space.now self.now }
        ensures { option_map (λ found. (found.0.now, found.1.now)) result ≡ at_or_after_in (nodes_of space.now self.now) key.now }
    {
        let (page, next) = self.right_path(space, key);
        let leaf = space.page(page);
        node_or_next(space, leaf, place_from(leaf, key), next, &self.last)
    }

    /// The first node whose key is above a key, if there is one: its key and data.
    pub fn after<'a>(&self, space: &'a Space, key: &[u8]) -> Option<(&'a [u8], &'a [u8])>
        requires { IsTree space.now self.now }
        ensures { option_map (λ found. (found.0.now, found.1.now)) result ≡ after_in (nodes_of space.now self.now) key.now }
    {
        match self.found_with_next(space, key) {
            Some((_, next)) => Some(next),
            None => self.search_after(space, key),
        }
    }

    /// `after` by a search from the root.
    fn search_after<'a>(&self, space: &'a Space, key: &[u8]) -> Option<(&'a [u8], &'a [u8])>
        requires { IsTree space.now self.now }
        ensures { option_map (λ found. (found.0.now, found.1.now)) result ≡ after_in (nodes_of space.now self.now) key.now }
    {
        let (page, next) = self.right_path(space, key);
        let leaf = space.page(page);
        node_or_next(space, leaf, place_above(leaf, key), next, &self.last)
    }

    /// The last node whose key is not above a key, if there is one: its key and data.
    pub fn at_or_before<'a>(&self, space: &'a Space, key: &[u8]) -> Option<(&'a [u8], &'a [u8])>
        requires { IsTree space.now self.now }
        ensures { option_map (λ found. (found.0.now, found.1.now)) result ≡ at_or_before_in (nodes_of space.now self.now) key.now }
    {
        let (page, next) = self.left_path(space, key);
        let leaf = space.page(page);
        node_or_previous(space, leaf, place_upto(leaf, key), next, &self.last)
    }

    /// The last node whose key is below a key, if there is one: its key and data.
    pub fn before<'a>(&self, space: &'a Space, key: &[u8]) -> Option<(&'a [u8], &'a [u8])>
        requires { IsTree space.now self.now }
        ensures { option_map (λ found. (found.0.now, found.1.now)) result ≡ before_in (nodes_of space.now self.now) key.now }
    {
        match self.found_with_previous(space, key) {
            Some((_, previous)) => Some(previous),
            None => self.search_before(space, key),
        }
    }

    /// `before` by a search from the root.
    fn search_before<'a>(&self, space: &'a Space, key: &[u8]) -> Option<(&'a [u8], &'a [u8])>
        requires { IsTree space.now self.now }
        ensures { option_map (λ found. (found.0.now, found.1.now)) result ≡ before_in (nodes_of space.now self.now) key.now }
    {
        let (page, next) = self.left_path(space, key);
        let leaf = space.page(page);
        node_or_previous(space, leaf, place_under(leaf, key), next, &self.last)
    }

    /// The data of the node with a key, if there is one, and the first node whose key is above that key, as `get` and
    /// `after` answer them. It goes down the tree once.
    pub fn get_and_after<'a>(
        &self,
        space: &'a Space,
        key: &[u8],
    ) -> (Option<&'a [u8]>, Option<(&'a [u8], &'a [u8])>)
        requires { IsTree space.now self.now }
        ensures data { option_copied result.0 ≡ get_in (nodes_of space.now self.now) key.now }
        ensures after { option_map (λ found. (found.0.now, found.1.now)) result.1 ≡ after_in (nodes_of space.now self.now) key.now }
    {
        match self.found_with_next(space, key) {
            Some((data, next)) => (Some(data), Some(next)),
            None => self.search_with_after(space, key),
        }
    }

    /// The same by a search from the root.
    fn search_with_after<'a>(
        &self,
        space: &'a Space,
        key: &[u8],
    ) -> (Option<&'a [u8]>, Option<(&'a [u8], &'a [u8])>)
        requires { IsTree space.now self.now }
        ensures data { option_copied result.0 ≡ get_in (nodes_of space.now self.now) key.now }
        ensures after { option_map (λ found. (found.0.now, found.1.now)) result.1 ≡ after_in (nodes_of space.now self.now) key.now }
    {
        let (page, next) = self.right_path(space, key);
        let leaf = space.page(page);
        let _ = leaf.len();
        match leaf.find(key) {
            Ok(i) => (
                Some(leaf.data(i)),
                node_or_next(space, leaf, i + 1, next, &self.last),
            ),
            Err(i) => (None, node_or_next(space, leaf, i, next, &self.last)),
        }
    }

    /// The data of the node with a key, if there is one, and the last node whose key is below that key, as `get` and
    /// `before` answer them. It goes down the tree once.
    pub fn get_and_before<'a>(
        &self,
        space: &'a Space,
        key: &[u8],
    ) -> (Option<&'a [u8]>, Option<(&'a [u8], &'a [u8])>)
        requires { IsTree space.now self.now }
        ensures data { option_copied result.0 ≡ get_in (nodes_of space.now self.now) key.now }
        ensures before { option_map (λ found. (found.0.now, found.1.now)) result.1 ≡ before_in (nodes_of space.now self.now) key.now }
    {
        match self.found_with_previous(space, key) {
            Some((data, previous)) => (Some(data), Some(previous)),
            None => self.search_with_before(space, key),
        }
    }

    /// The same by a search from the root.
    fn search_with_before<'a>(
        &self,
        space: &'a Space,
        key: &[u8],
    ) -> (Option<&'a [u8]>, Option<(&'a [u8], &'a [u8])>)
        requires { IsTree space.now self.now }
        ensures data { option_copied result.0 ≡ get_in (nodes_of space.now self.now) key.now }
        ensures before { option_map (λ found. (found.0.now, found.1.now)) result.1 ≡ before_in (nodes_of space.now self.now) key.now }
    {
        let (page, next) = self.left_path(space, key);
        let leaf = space.page(page);
        let _ = leaf.len();
        match leaf.find(key) {
            Ok(i) => (
                Some(leaf.data(i)),
                node_or_previous(space, leaf, i.checked_sub(1), next, &self.last),
            ),
            Err(i) => (
                None,
                node_or_previous(space, leaf, i.checked_sub(1), next, &self.last),
            ),
        }
    }

    /// The first node, if there is one: its key and data, parts of its page.
    pub fn first<'a>(&self, space: &'a Space) -> Option<(&'a [u8], &'a [u8])>
        requires { IsTree space.now self.now }
        ensures { option_map (λ found. (found.0.now, found.1.now)) result ≡ first_in (nodes_of space.now self.now) }
    {
        first_below(space, self.root, self.depth)
    }

    /// The last node, if there is one.
    pub fn last<'a>(&self, space: &'a Space) -> Option<(&'a [u8], &'a [u8])>
        requires { IsTree space.now self.now }
        ensures { option_map (λ found. (found.0.now, found.1.now)) result ≡ last_in (nodes_of space.now self.now) }
    {
        last_below(space, self.root, self.depth)
    }

    /// The leaf that a key belongs to, and the nearest subtree right of the path to it.
    fn right_path(&self, space: &Space, key: &[u8]) -> (u32, Option<(u32, u32)>)
        requires { IsTree space.now self.now }
        ensures leaf { IsSubtree zero space.now result.0 }
        ensures next { IsNeighbor space.now result.1 }
        ensures found { (test : Node → Bool) → PassesAbove test key.now → find test (nodes_of space.now self.now) ≡ option_or (find test (page_in space.now result.0).nodes) (first_of space.now result.1) }
        ensures same { find (has_key key.now) (page_in space.now result.0).nodes ≡ find (has_key key.now) (nodes_of space.now self.now) }
    {
        let mut page = self.root;
        let mut next = None;
        for level in 0..self.depth {
            (page, next) = step_right(space, page, self.depth - 1 - level, key, next, &self.last);
        }
        (page, next)
    }

    /// The leaf that a key belongs to, and the nearest subtree left of the path to it.
    fn left_path(&self, space: &Space, key: &[u8]) -> (u32, Option<(u32, u32)>)
        requires { IsTree space.now self.now }
        ensures leaf { IsSubtree zero space.now result.0 }
        ensures next { IsNeighbor space.now result.1 }
        ensures found { (test : Node → Bool) → PassesBelow test key.now → find test (reverse (nodes_of space.now self.now)) ≡ option_or (find test (reverse (page_in space.now result.0).nodes)) (last_of space.now result.1) }
        ensures same { find (has_key key.now) (page_in space.now result.0).nodes ≡ find (has_key key.now) (nodes_of space.now self.now) }
    {
        let mut page = self.root;
        let mut next = None;
        for level in 0..self.depth {
            (page, next) = step_left(space, page, self.depth - 1 - level, key, next, &self.last);
        }
        (page, next)
    }
}

/// The node at a place of a leaf, or else the first one of the subtree beside it.
fn node_or_next<'a>(
    space: &'a Space,
    leaf: &'a Page,
    i: usize,
    next: Option<(u32, u32)>,
    last: &LastPlaces,
) -> Option<(&'a [u8], &'a [u8])>
    requires { IsNeighbor space.now next }
    ensures { (test : Node → Bool) → IsFirstPlace test leaf.now.nodes i → option_map (λ found. (found.0.now, found.1.now)) result ≡ option_map key_and_data (option_or (find test leaf.now.nodes) (first_of space.now next)) }
{
    if i < leaf.len() {
        let key = leaf.key(i);
        last.note_in_leaf(i, key);
        return Some((key, leaf.data(i)));
    }
    match next {
        Some((page, depth)) => first_below(space, page, depth),
        None => None,
    }
}

/// The node at a place of a leaf, if one is given, or else the last one of the subtree beside it.
fn node_or_previous<'a>(
    space: &'a Space,
    leaf: &'a Page,
    place: Option<usize>,
    next: Option<(u32, u32)>,
    last: &LastPlaces,
) -> Option<(&'a [u8], &'a [u8])>
    requires next { IsNeighbor space.now next }
    requires place { (test : Node → Bool) × IsLastPlace test leaf.now.nodes place }
    ensures { (test : Node → Bool) → IsLastPlace test leaf.now.nodes place → option_map (λ found. (found.0.now, found.1.now)) result ≡ option_map key_and_data (option_or (find test (reverse leaf.now.nodes)) (last_of space.now next)) }
{
    if let Some(i) = place {
        let key = leaf.key(i);
        last.note_in_leaf(i, key);
        return Some((key, leaf.data(i)));
    }
    match next {
        Some((page, depth)) => last_below(space, page, depth),
        None => None,
    }
}

/// The first node below a page that has `depth` inner pages above each leaf.
pub fn first_below(space: &Space, mut page: u32, depth: u32) -> Option<(&[u8], &[u8])>
    requires { IsSubtree depth space.now page }
    ensures { option_map (λ found. (found.0.now, found.1.now)) result ≡ first_in (entries depth space.now page) }
{
    for _ in 0..depth {
        page = LittleEndian::read_u32(space.page(page).data(0));
    }
    let leaf = space.page(page);
    if leaf.len() == 0 {
        return None;
    }
    Some((leaf.key(0), leaf.data(0)))
}

/// The last node below a page that has `depth` inner pages above each leaf.
pub fn last_below(space: &Space, mut page: u32, depth: u32) -> Option<(&[u8], &[u8])>
    requires { IsSubtree depth space.now page }
    ensures { option_map (λ found. (found.0.now, found.1.now)) result ≡ last_in (entries depth space.now page) }
{
    for _ in 0..depth {
        let inner = space.page(page);
        page = LittleEndian::read_u32(inner.data(inner.len() - 1));
    }
    let leaf = space.page(page);
    if leaf.len() == 0 {
        return None;
    }
    let i = leaf.len() - 1;
    Some((leaf.key(i), leaf.data(i)))
}

/// Goes to the child that a key belongs to, `depth` being the inner pages below this one, and to
/// the nearest subtree right of the path: that child's neighbor, or else the one known before.
fn step_right(
    space: &Space,
    page: u32,
    depth: u32,
    key: &[u8],
    next: Option<(u32, u32)>,
    last: &LastPlaces,
) -> (u32, Option<(u32, u32)>)
    requires tree { IsSubtree (suc depth) space.now page }
    requires next { IsNeighbor space.now next }
    ensures tree { IsSubtree depth space.now result.0 }
    ensures next { IsNeighbor space.now result.1 }
    ensures found { (test : Node → Bool) → PassesAbove test key.now → found_right space.now depth result.0 result.1 test ≡ found_right space.now (suc depth) page next test }
    ensures same { find (has_key key.now) (entries depth space.now result.0) ≡ find (has_key key.now) (entries (suc depth) space.now page) }
{
    let inner = space.page(page);
    let count = inner.len();
    let i = child(inner, key);
    last.note(depth, i);
    let below = LittleEndian::read_u32(inner.data(i));
    if i + 1 < count {
        return (
            below,
            Some((LittleEndian::read_u32(inner.data(i + 1)), depth)),
        );
    }
    (below, next)
}

/// The place of the first node of a page whose key is not below a key, or else its count of nodes.
fn place_from(page: &Page, key: &[u8]) -> usize
    ensures { IsFirstPlace (is_from key.now) page.now.nodes result }
{
    let _ = page.len();
    match page.find(key) {
        Ok(i) => i,
        Err(i) => i,
    }
}

/// The place of the first node of a page whose key is above a key, or else its count of nodes.
fn place_above(page: &Page, key: &[u8]) -> usize
    ensures { IsFirstPlace (is_above key.now) page.now.nodes result }
{
    let _ = page.len();
    match page.find(key) {
        Ok(i) => i + 1,
        Err(i) => i,
    }
}

/// Goes to the child that a key belongs to, `depth` being the inner pages below this one, and to
/// the nearest subtree left of the path: the child before that one, or else the one known before.
fn step_left(
    space: &Space,
    page: u32,
    depth: u32,
    key: &[u8],
    next: Option<(u32, u32)>,
    last: &LastPlaces,
) -> (u32, Option<(u32, u32)>)
    requires tree { IsSubtree (suc depth) space.now page }
    requires next { IsNeighbor space.now next }
    ensures tree { IsSubtree depth space.now result.0 }
    ensures next { IsNeighbor space.now result.1 }
    ensures found { (test : Node → Bool) → PassesBelow test key.now → found_left space.now depth result.0 result.1 test ≡ found_left space.now (suc depth) page next test }
    ensures same { find (has_key key.now) (entries depth space.now result.0) ≡ find (has_key key.now) (entries (suc depth) space.now page) }
{
    let inner = space.page(page);
    let i = child(inner, key);
    last.note(depth, i);
    let below = LittleEndian::read_u32(inner.data(i));
    if i > 0 {
        return (
            below,
            Some((LittleEndian::read_u32(inner.data(i - 1)), depth)),
        );
    }
    (below, next)
}

/// The place of the last node of a page whose key is not above a key, if there is one.
fn place_upto(page: &Page, key: &[u8]) -> Option<usize>
    ensures { IsLastPlace (is_upto key.now) page.now.nodes result }
{
    let _ = page.len();
    match page.find(key) {
        Ok(i) => Some(i),
        Err(0) => None,
        Err(i) => Some(i - 1),
    }
}

/// The place of the last node of a page whose key is below a key, if there is one.
fn place_under(page: &Page, key: &[u8]) -> Option<usize>
    ensures { IsLastPlace (is_under key.now) page.now.nodes result }
{
    let _ = page.len();
    match page.find(key) {
        Ok(0) => None,
        Ok(i) => Some(i - 1),
        Err(0) => None,
        Err(i) => Some(i - 1),
    }
}
