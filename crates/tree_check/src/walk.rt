//! The walk of a tree.

ghost use Rattle.std.specs.Prelude.{◌≡◌, ◌≤◌, ◌+◌, ℕ, Bool, List, None, Some, IfErr, IfOk, OnOk};
ghost use Rattle.std.specs.Option.{option_map};
ghost use Rattle.page_space.specs.Frames.{Frames};
ghost use Rattle.btree_inplace.specs.Shape.{IsSubtree, entries, pages};
ghost use Rattle.tree_check.specs.Marks.{ArePages, copies, times_marked, with_marks};
ghost use Rattle.tree_check.specs.Walks.{depth_within, ends_of, fault_below, joined_ends, page_fault, tree_depth, tree_fault};

use crate::fault::WalkFault;
use crate::marks::{is_marked, mark};
use crate::pages::{ends_of_leaf, is_inner_page, is_tree_page, lies_between};
use btree_inplace::MAX_DEPTH;
use byteorder::{ByteOrder, LittleEndian};
use page_image::LEAF;
use page_space::Space;

/// The fault of a page where the walk meets it, if it has one.
fn page_fault(space: &Space, page: u32, is_fit: bool, marks: &[bool]) -> Option<WalkFault>
    ensures { result ≡ page_fault is_fit space.now marks.now page }
{
    if space.is_taken(page) && is_marked(marks, page) {
        Some(WalkFault::MetBefore(page))
    } else if is_fit {
        None
    } else {
        Some(WalkFault::Broken(page))
    }
}

/// The first and the last key of what stands in two parts, one behind the other.
fn joined<'a>(
    first: Option<(&'a [u8], &'a [u8])>,
    next: (&'a [u8], &'a [u8]),
) -> Option<(&'a [u8], &'a [u8])>
    ensures { option_map (λ ends. (ends.0.now, ends.1.now)) result ≡ joined_ends (option_map (λ ends. (ends.0.now, ends.1.now)) first.entry) (Some (next.entry.0.now, next.entry.1.now)) }
{
    match first {
        Some((low, _)) => Some((low, next.1)),
        None => Some(next),
    }
}

/// Walks a leaf, and answers its first and its last key.
fn walk_leaf<'a>(
    space: &'a Space,
    page: u32,
    marks: &mut [bool],
) -> Result<Option<(&'a [u8], &'a [u8])>, WalkFault>
    ensures ok { IfOk result (λ ends. (fault_below 0 space.now marks.old page ≡ None) × (marks.new ≡ with_marks (pages 0 space.now page) marks.old) × (option_map (λ ends. (ends.0.now, ends.1.now)) ends ≡ ends_of (entries 0 space.now page))) }
    ensures page { IfOk result (λ ends. ArePages 0 space.now page) }
    ensures err { IfErr result (λ fault. fault_below 0 space.now marks.old page ≡ Some fault) }
{
    let is_fit = is_tree_page(space, page, LEAF);
    match page_fault(space, page, is_fit, marks) {
        Some(fault) => Err(fault),
        None => {
            mark(marks, page);
            Ok(ends_of_leaf(space.page(page)))
        }
    }
}

/// Walks what stands below a page, marks its pages, and answers its first and its last key.
fn walk_below<'a>(
    space: &'a Space,
    page: u32,
    depth: u32,
    marks: &mut [bool],
) -> Result<Option<(&'a [u8], &'a [u8])>, WalkFault>
    ensures ok { IfOk result (λ ends. (fault_below depth space.now marks.old page ≡ None) × (marks.new ≡ with_marks (pages depth space.now page) marks.old) × (option_map (λ ends. (ends.0.now, ends.1.now)) ends ≡ ends_of (entries depth space.now page))) }
    ensures page { IfOk result (λ ends. ArePages depth space.now page) }
    ensures err { IfErr result (λ fault. fault_below depth space.now marks.old page ≡ Some fault) }
{
    if depth == 0 {
        return walk_leaf(space, page, marks);
    }
    let is_fit = is_inner_page(space, page);
    if let Some(fault) = page_fault(space, page, is_fit, marks) {
        return Err(fault);
    }
    mark(marks, page);
    let inner = space.page(page);
    let mut ends = None;
    for i in 0..inner.len() {
        let below = LittleEndian::read_u32(inner.data(i));
        match walk_below(space, below, depth - 1, marks) {
            Ok(Some(found)) => {
                if !lies_between(inner, i, found) {
                    return Err(WalkFault::Broken(page));
                }
                ends = joined(ends, found);
            }
            Ok(None) => return Err(WalkFault::Broken(below)),
            Err(fault) => return Err(fault),
        }
    }
    Ok(ends)
}

/// How many inner pages there are on the way down by the first children, [`MAX_DEPTH`] where there are more.
fn depth_of(space: &Space, root: u32) -> u32
    ensures { result ≡ tree_depth space.now root }
{
    let mut page = root;
    for level in 0..MAX_DEPTH {
        if !is_inner_page(space, page) {
            return level;
        }
        page = LittleEndian::read_u32(space.page(page).data(0));
    }
    MAX_DEPTH
}

/// Walks what stands below a root page: each inner page before its children, and these from the left. It answers the depth of the
/// tree, how many inner pages stand above each leaf, and marks its pages; or it answers the first fault, and the marks are of no
/// use then. There is to be a mark for each page of the space: a page past the last mark counts as marked. It takes no memory, and
/// goes down through at most [`MAX_DEPTH`] inner pages whatever the pages say.
///
/// A page that has a mark and is taken is a fault of its own, so that several trees are walked one after another with the same
/// marks. Every other fault names the page that is not what a tree has in its place: a free page, one of the other kind or of
/// another number, one with a node that is too long, an inner page whose nodes are no children or whose keys are no bounds of
/// what stands below them, a child without a node, or an inner page below [`MAX_DEPTH`] others.
pub fn walk_tree(space: &Space, root: u32, marks: &mut [bool]) -> Result<u32, WalkFault>
    ensures tree { IfOk result (λ depth. IsSubtree depth space.now root × (depth ≤ MAX_DEPTH)) }
    ensures own { IfOk result (λ depth. (page : ℕ) → copies page (pages depth space.now root) + times_marked marks.old page ≡ times_marked marks.new page) }
    ensures marks { IfOk result (λ depth. (depth ≡ tree_depth space.now root) × (marks.new ≡ with_marks (pages depth space.now root) marks.old)) }
    ensures none { OnOk result (tree_fault space.now marks.old root ≡ None) }
    ensures fault { IfErr result (λ fault. tree_fault space.now marks.old root ≡ Some fault) }
{
    let depth = depth_of(space, root);
    match walk_below(space, root, depth, marks) {
        Ok(_) => Ok(depth),
        Err(fault) => Err(fault),
    }
}

/// A tree of at most [`MAX_DEPTH`] inner pages one below the other, of whose pages none is marked and none is there twice, is
/// walked without a fault. So a fault tells that there is no such tree.
pub fn no_fault_is_told_of_a_tree()
    ensures fault { (frames : Frames) (marks : List Bool) (root depth : ℕ) → IsSubtree depth frames root → depth ≤ MAX_DEPTH → ((page : ℕ) → copies page (pages depth frames root) + times_marked marks page ≤ 1) → tree_fault frames marks root ≡ None }
    ensures depth { (frames : Frames) (root depth : ℕ) → IsSubtree depth frames root → depth ≤ MAX_DEPTH → tree_depth frames root ≡ depth }
{}
