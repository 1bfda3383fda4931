//! The tree below a root page, and how many long values it has.

ghost use Rattle.std.specs.Prelude.{◌≡◌, ◌+◌, ◌*◌, ◌<◌, ◌≤◌, ◌^◌, None, count_by, drop, length, if◌then◌else◌};
ghost use Rattle.btree_inplace.specs.Shape.{IsSubtree, entries};
ghost use Rattle.long_value.specs.Shown.{is_head};
ghost use Rattle.page_image.specs.Page.{node_at};
ghost use Rattle.page_image.specs.declared.offsets.TheConstants.{MAX_NODES};
ghost use Rattle.tree_check.specs.Walks.{tree_fault};
ghost use Rattle.tool_dump.specs.Walked.{IsWalked};

use btree_inplace::{Tree, nodes_fit_their_space};
use byteorder::{ByteOrder, LittleEndian};
use image_opening::walked_trees_are_a_forest;
use page_image::Page;
use page_space::Space;
use tree_check::walk_tree;

/// Where the number of a chunk begins in the key of a node of long values.
const CHUNK_AT: usize = 12;

/// The number of the chunk that is the head of a long value, as it stands in a key.
const HEAD_CHUNK: [u8; 4] = [0; 4];

/// A tree, and how many inner pages stand above each of its leaves.
#[derive(Drop)]
pub(crate) struct Walked {
    pub(crate) tree: Tree,
    pub(crate) depth: u32,
}

/// Walks the tree below a root page, which is to have no fault, and marks its pages.
#[tactic(none)]
pub(crate) fn walk(space: &Space, root: u32, marks: &mut [bool]) -> Walked
    requires { tree_fault space.now marks.old root ≡ None }
    ensures { IsWalked space.now root result.tree result.depth marks.old marks.new }
{
    walked_trees_are_a_forest();
    nodes_fit_their_space();
    let _few = space.len();
    match walk_tree(space, root, marks) {
        Ok(depth) => Walked {
            tree: Tree::at(root, depth),
            depth,
        },
        Err(_) => Walked {
            tree: Tree::at(root, 0),
            depth: 0,
        },
    }
}

/// The number of the chunk at the end of a key of long values.
fn chunk_of(key: &[u8]) -> &[u8]
    ensures { result.now ≡ drop 12 key.now }
{
    if key.len() < CHUNK_AT {
        &[]
    } else {
        &key[CHUNK_AT..]
    }
}

/// Whether a node of a page is the head of a long value.
fn is_head(page: &Page, i: usize) -> bool
    requires { i < length page.now.nodes }
    ensures { result ≡ is_head (node_at page.now.nodes i) }
{
    chunk_of(page.key(i)).cmp(HEAD_CHUNK.as_slice()).is_eq()
}

/// One more, if a node of a page is the head of a long value.
fn with_head(page: &Page, i: usize, count: usize) -> usize
    requires within { i < length page.now.nodes }
    requires room { count + 1 < 2 ^ 64 }
    ensures count { result ≡ count + (if is_head (node_at page.now.nodes i) then 1 else 0) }
    ensures few { result ≤ count + 1 }
{
    if is_head(page, i) { count + 1 } else { count }
}

/// How many heads of long values a page has.
fn heads_of(page: &Page) -> usize
    ensures { result ≡ count_by is_head page.now.nodes }
{
    let mut count = 0;
    for i in 0..page.len() {
        count = with_head(page, i, count);
    }
    count
}

/// How many heads of long values the leaves have from a page down.
pub(crate) fn heads_below(space: &Space, page: u32, depth: u32) -> usize
    requires tree { IsSubtree depth space.now page }
    requires few { length (entries depth space.now page) ≤ MAX_NODES * 16777216 }
    ensures { result ≡ count_by is_head (entries depth space.now page) }
{
    let found = space.page(page);
    if depth == 0 {
        return heads_of(found);
    }
    let mut count = 0;
    for i in 0..found.len() {
        let below = LittleEndian::read_u32(found.data(i));
        count += heads_below(space, below, depth - 1);
    }
    count
}
