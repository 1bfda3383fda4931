//! The steps of a B-tree on one page: which child a key belongs to, and where a full page is cut in two.
#![tactic(auto)]

ghost use Rattle.std.specs.Prelude.{◌≡◌, ℕ, ◌+◌, ◌-◌, ◌<◌, ◌≤◌, [], length, take, drop, slice_index, All};
ghost use Rattle.page_image.specs.Page.{IsPage, node_at, node_size, page_size};
ghost use Rattle.btree_node.specs.Cut.{IsChildPlace, IsCut, PartsNodes, sizes_with};
ghost use Rattle.btree_node.specs.Parts.{larger_part};

use page_image::{HEAD_BYTES, NODE_HEAD_BYTES, PAGE_BYTES, Page};

/// The most bytes that a node of a tree takes, with its head: 2,032, half of what a page has for its nodes. So a page
/// without room for a node can be cut in two where either part has room for what belongs to it.
pub const MAX_NODE_BYTES: usize = (PAGE_BYTES - HEAD_BYTES) / 2;

/// The bytes of a page in use when it is half full, 2,064: those before its nodes, with half of those that its nodes may
/// take.
pub const HALF_BYTES: usize = HEAD_BYTES + MAX_NODE_BYTES;

/// The place of the child that a key belongs to, on an inner page. The first key of such a page is
/// empty, so that each key has a child.
pub fn child(page: &Page, key: &[u8]) -> usize
    requires some { 0 < length page.now.nodes }
    requires first { (node_at page.now.nodes 0).key ≡ [] }
    ensures { IsChildPlace page.now.nodes key.now result }
{
    let _ = page.len();
    match page.find(key) {
        Ok(i) => i,
        Err(i) => i - 1,
    }
}

/// Where to cut a page that has no room for a new node at place `i`, counted in the nodes with the
/// new one among them: those before the cut stay, and the others go to another page. `need` is what
/// the new node takes: 6 bytes, its key and its extent. Both parts have nodes that are there already.
/// A node behind all others, as rising keys bring it, takes only the last of them along, so that such
/// pages stay full; else the larger part is as small as can be.
pub fn split_at(page: &Page, i: usize, need: usize) -> usize
    requires place { i ≤ length page.now.nodes }
    requires full { PAGE_BYTES < page_size page.now.nodes + need }
    requires small { need ≤ MAX_NODE_BYTES }
    requires all_small { All (λ n. node_size n ≤ MAX_NODE_BYTES) page.now.nodes }
    ensures cut { IsCut page.now.nodes i need result }
    ensures nodes { PartsNodes page.now.nodes i result }
    ensures before { i < result → page_size (take (result - 1) page.now.nodes) + need ≤ PAGE_BYTES }
    ensures behind { result ≤ i → page_size (drop result page.now.nodes) + need ≤ PAGE_BYTES }
    ensures behind_all { i ≡ length page.now.nodes → result + 1 ≡ i }
    ensures even { i < length page.now.nodes → (k : ℕ) → PartsNodes page.now.nodes i k → larger_part (sizes_with page.now.nodes i need) result ≤ larger_part (sizes_with page.now.nodes i need) k }
{
    let count = page.len();
    if i == count {
        return count - 1;
    }
    let cut = even_cut(page, i, need);
    if i == 0 {
        // Not the new node alone.
        return cut.max(2);
    }
    cut
}

/// The cut whose larger part is smallest, where a part may be the new node alone.
fn even_cut(page: &Page, i: usize, need: usize) -> usize
    requires place { i < length page.now.nodes }
    requires full { PAGE_BYTES < page_size page.now.nodes + need }
    requires small { need ≤ MAX_NODE_BYTES }
    requires all_small { All (λ n. node_size n ≤ MAX_NODE_BYTES) page.now.nodes }
    ensures cut { IsCut page.now.nodes i need result }
    ensures even { (k : ℕ) → larger_part (sizes_with page.now.nodes i need) result ≤ larger_part (sizes_with page.now.nodes i need) k }
{
    let count = page.len();
    let whole = page.used() - HEAD_BYTES + need;
    let mut before = 0;
    let mut m = 0;
    while m < count {
        let size = size_with(page, i, need, m);
        if 2 * before + size > whole {
            break;
        }
        before += size;
        m += 1;
    }
    m
}

/// How many nodes of a page stand in its first half. A page that is more than half full is cut there
/// where no node is to be put in, so that either part has room for as much as it has.
pub fn half(page: &Page) -> usize
    requires small { All (λ n. node_size n ≤ MAX_NODE_BYTES) page.now.nodes }
    requires full { HALF_BYTES < page_size page.now.nodes }
    ensures some { 0 < result }
    ensures within { result < length page.now.nodes }
    ensures half { page_size (take result page.now.nodes) ≤ HALF_BYTES }
    ensures more { HALF_BYTES < page_size (take (result + 1) page.now.nodes) }
    ensures page { IsPage page.now }
{
    let mut used = HEAD_BYTES;
    let mut m = 0;
    while m < page.len() {
        let size = NODE_HEAD_BYTES + page.key(m).len() + page.extent(m);
        if used + size > HALF_BYTES {
            break;
        }
        used += size;
        m += 1;
    }
    m
}

/// What the node at place `m` takes, among the nodes with the new one at place `i`.
fn size_with(page: &Page, i: usize, need: usize, m: usize) -> usize
    requires place { i ≤ length page.now.nodes }
    requires within { m ≤ length page.now.nodes }
    ensures { result ≡ slice_index (sizes_with page.now.nodes i need) m }
{
    let _ = page.len();
    if m == i {
        return need;
    }
    let at = if m < i { m } else { m - 1 };
    NODE_HEAD_BYTES + page.key(at).len() + page.extent(at)
}
