//! The pages of a space once its trees are walked, one after another, with the same marks.

ghost use Rattle.std.specs.Prelude.{◌≡◌, ◌≢◌, ◌+◌, ◌<◌, ◌≤◌, ◌&&◌, ℕ, Bool, true, None, List, is_some, not, AllPairs};
ghost use Rattle.page_space.specs.Frames.{Frames, page_at};
ghost use Rattle.tree_check.specs.Marks.{copies, is_marked, times_marked};
ghost use Rattle.image_findings.specs.TreeFindings.{no_marks};
ghost use Rattle.image_opening.specs.MarkedPages.{IsEachOnce, unmarked_from};

use page_space::Space;
use tree_check::is_marked;

/// Whether a page is taken and has no mark.
fn is_unmarked(space: &Space, marks: &[bool], page: u32) -> bool
    ensures { result ≡ (is_some (page_at space.now page) && not (is_marked marks.now page)) }
{
    space.is_taken(page) && !is_marked(marks, page)
}

/// The least page that is taken and has no mark, if there is one. Once all trees of a space are walked it is a page that none of them has.
/// Each page is looked at once, and no memory is taken.
pub fn unmarked_page(space: &Space, marks: &[bool]) -> Option<u32>
    ensures { result ≡ unmarked_from 0 space.now marks.now }
{
    for number in 0..space.len() {
        if is_unmarked(space, marks, number as u32) {
            return Some(number as u32);
        }
    }
    None
}

/// Trees that were walked with marks that counted each of their pages, from none on, have no page in common; and where no page is left
/// that is taken and has no mark, each page that is taken is in one of them, and there once.
pub fn walked_trees_are_a_forest()
    ensures forest { (frames : Frames) (pages : List ℕ) (marks : List Bool) → ((p : ℕ) → copies p pages + times_marked (no_marks frames) p ≡ times_marked marks p) → ((p : ℕ) → 0 < copies p pages → is_some (page_at frames p) ≡ true) → unmarked_from 0 frames marks ≡ None → IsEachOnce frames pages }
    ensures once { (pages : List ℕ) → ((p : ℕ) → copies p pages ≤ 1) → AllPairs (λ p q. p ≢ q) pages }
{}
