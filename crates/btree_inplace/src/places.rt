//! Where the last search of a tree ended. Another one for the same node, or for the one beside it, goes there again by the
//! places alone, with no search of a page: so a cursor that moves in order stays on its leaf.

ghost use Rattle.std.specs.Prelude.{◌≡◌, ◌<◌, ◌+◌, Some, IfSome};
ghost use Rattle.btree_inplace.specs.Neighbors.{HasNodeAt};
ghost use Rattle.btree_inplace.specs.Order.{after_in, before_in, get_in};

use crate::Tree;
use byteorder::{ByteOrder, LittleEndian};
use page_image::Page;
use page_space::Space;
use std::cell::Cell;

/// How many inner pages above a leaf have their places kept.
const LEVELS: usize = 8;

/// The places that the last search took on the pages of its way. They are a guess: any change may make them wrong, and no
/// clause speaks of them.
#[derive(Drop)]
pub(crate) struct LastPlaces {
    // That of each inner page, by how many inner pages stand below it.
    inner: [Cell<usize>; 8],
    leaf: Cell<usize>,
    // The last byte of the key there, which tells most keys apart without a look at a page.
    mark: Cell<u8>,
}

impl LastPlaces {
    /// The first place of each page.
    pub(crate) fn new() -> LastPlaces {
        let inner = [
            Cell::new(0),
            Cell::new(0),
            Cell::new(0),
            Cell::new(0),
            Cell::new(0),
            Cell::new(0),
            Cell::new(0),
            Cell::new(0),
        ];
        LastPlaces {
            inner,
            leaf: Cell::new(0),
            mark: Cell::new(0),
        }
    }

    /// Notes the place of an inner page with so many inner pages below it.
    pub(crate) fn note(&self, depth: u32, place: usize) {
        let depth = depth as usize;
        if depth < LEVELS {
            self.inner[depth].set(place);
        }
    }

    /// Notes the place of a leaf, and the key there.
    pub(crate) fn note_in_leaf(&self, place: usize, key: &[u8]) {
        self.leaf.set(place);
        self.mark.set(last_byte(key));
    }

    /// The place of an inner page with so many inner pages below it, the first one where none is kept.
    fn place(&self, depth: u32) -> usize {
        let depth = depth as usize;
        if depth < LEVELS {
            self.inner[depth].get()
        } else {
            0
        }
    }
}

/// The last byte of a key, 0 where it has none.
fn last_byte(key: &[u8]) -> u8 {
    match key.last() {
        Some(byte) => *byte,
        None => 0,
    }
}

impl Tree {
    ghost use Rattle.btree_inplace.specs.Trees.{IsTree, nodes_of};

    /// The leaf of the node with a key and its place there, if the last places lead to it. Whatever they are, they lead to a
    /// leaf of this tree, and no other node of the tree has the key: so one look at the key there tells.
    pub(crate) fn found_again<'a>(&self, space: &'a Space, key: &[u8]) -> Option<(&'a Page, usize)>
        requires { IsTree space.now self.now }
        ensures { IfSome result (λ at. HasNodeAt (nodes_of space.now self.now) key.now at.0.now.nodes at.1) }
    {
        if self.last.mark.get() != last_byte(key) {
            return None;
        }
        let mut page = self.root;
        for level in 0..self.depth {
            let inner = space.page(page);
            let place = self.last.place(self.depth - 1 - level);
            page = LittleEndian::read_u32(inner.data(place.min(inner.len() - 1)));
        }
        let leaf = space.page(page);
        let i = self.last.leaf.get();
        if i < leaf.len() && leaf.key(i) == key {
            Some((leaf, i))
        } else {
            None
        }
    }

    /// The data of the node with a key, and the node behind it, if the last places lead there and both are on one leaf.
    pub(crate) fn found_with_next<'a>(
        &self,
        space: &'a Space,
        key: &[u8],
    ) -> Option<(&'a [u8], (&'a [u8], &'a [u8]))>
        requires { IsTree space.now self.now }
        ensures data { IfSome result (λ found. get_in (nodes_of space.now self.now) key.now ≡ Some found.0.now) }
        ensures next { IfSome result (λ found. after_in (nodes_of space.now self.now) key.now ≡ Some (found.1.0.now, found.1.1.now)) }
    {
        match self.found_again(space, key) {
            Some((leaf, i)) => {
                if i < leaf.len() - 1 {
                    let next = leaf.key(i + 1);
                    self.last.note_in_leaf(i + 1, next);
                    Some((leaf.data(i), (next, leaf.data(i + 1))))
                } else {
                    None
                }
            }
            None => None,
        }
    }

    /// The same with the node before it.
    pub(crate) fn found_with_previous<'a>(
        &self,
        space: &'a Space,
        key: &[u8],
    ) -> Option<(&'a [u8], (&'a [u8], &'a [u8]))>
        requires { IsTree space.now self.now }
        ensures data { IfSome result (λ found. get_in (nodes_of space.now self.now) key.now ≡ Some found.0.now) }
        ensures previous { IfSome result (λ found. before_in (nodes_of space.now self.now) key.now ≡ Some (found.1.0.now, found.1.1.now)) }
    {
        match self.found_again(space, key) {
            Some((leaf, i)) => {
                if i > 0 {
                    let previous = leaf.key(i - 1);
                    self.last.note_in_leaf(i - 1, previous);
                    Some((leaf.data(i), (previous, leaf.data(i - 1))))
                } else {
                    None
                }
            }
            None => None,
        }
    }
}
