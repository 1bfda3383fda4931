//! The bookmarks that lie in all of some ranges.

ghost use Rattle.std.specs.Prelude.{◌≡◌, ◌&&◌, ◌<◌, ℕ, List, length, IfOk};
ghost use Rattle.std.specs.BTreeSet.{IsOrdered};
ghost use Rattle.std.specs.Ordering.{nat_cmp};
ghost use Rattle.std.specs.Cmp.Lexicographic.{slice_cmp};
ghost use Rattle.index_intersect.specs.Intersection.{intersection, lies_in_all};
ghost use Rattle.index_intersect.specs.Walks.{has, will_all_read};

use crate::range_bookmarks::RangeBookmarks;
use crate::ranges::IndexRange;
use cursor_nav::View;
use jet_base::OutOfMemory;
use key_normal::Key;
use std::alloc::Global;
use std::collections::BTreeSet;

/// The bookmarks that lie in all of the ranges, in rising order and each once; none where there is no range. A bookmark lies in a
/// range where an entry of the range has it. All ranges are of one table, whose bookmarks are meant.
///
/// It reads each entry of each range once, and keeps of each range at most one bookmark more than the smallest has entries. Its
/// one error is want of memory.
pub fn intersect<W: View>(
    alloc: Global,
    view: &W,
    ranges: &[IndexRange],
) -> Result<Vec<Key>, OutOfMemory>
    ensures { IfOk result (λ bookmarks. bookmarks.items ≡ intersection (W.entries view.now) ranges.now) }
{
    let mut all = unread(alloc, view, ranges)?;
    if all.is_empty() {
        return Ok(Vec::new(alloc));
    }
    let smallest = take_smallest(view, &mut all)?;
    in_order(alloc, common_with(view, smallest, all)?)
}

/// The bookmarks of each range, none of them read.
fn unread<'a, W: View>(
    alloc: Global,
    view: &W,
    ranges: &'a [IndexRange],
) -> Result<Vec<RangeBookmarks<'a>>, OutOfMemory>
    ensures length { IfOk result (λ all. length all.items ≡ length ranges.now) }
    ensures all { IfOk result (λ all. (bookmark : List ℕ) → will_all_read (W.entries view.now) bookmark all.items ≡ lies_in_all (W.entries view.now) bookmark ranges.now) }
{
    let mut all = Vec::with_capacity(alloc, ranges.len())?;
    for range in ranges {
        all.push(RangeBookmarks::new(alloc, view, range))?;
    }
    Ok(all)
}

/// Reads the ranges side by side, an entry of each in turn, until one has none left, and takes the bookmarks of that one out.
fn take_smallest<W: View>(
    view: &W,
    all: &mut Vec<RangeBookmarks<'_>>,
) -> Result<BTreeSet<Key>, OutOfMemory>
    requires { 0 < length all.old.items }
    ensures { IfOk result (λ smallest. (bookmark : List ℕ) → (has smallest bookmark && will_all_read (W.entries view.now) bookmark all.new.items) ≡ will_all_read (W.entries view.now) bookmark all.old.items) }
{
    let mut turn = 0;
    while all[turn].read_next(view)? {
        turn = (turn + 1) % all.len();
    }
    Ok(all.remove(turn).read)
}

/// Reads the rest of each of the other ranges, and gives those of the bookmarks that all of them have.
fn common_with<W: View>(
    view: &W,
    bookmarks: BTreeSet<Key>,
    mut others: Vec<RangeBookmarks<'_>>,
) -> Result<BTreeSet<Key>, OutOfMemory>
    ensures { IfOk result (λ common. (bookmark : List ℕ) → has common bookmark ≡ (has bookmarks bookmark && will_all_read (W.entries view.now) bookmark others.entry.items)) }
{
    let mut common = bookmarks;
    while let Some(other) = others.pop() {
        common = other.read_rest_among(view, &common)?;
    }
    Ok(common)
}

/// The bookmarks as a list.
fn in_order(alloc: Global, bookmarks: BTreeSet<Key>) -> Result<Vec<Key>, OutOfMemory>
    ensures items { IfOk result (λ list. list.items ≡ bookmarks.keys) }
    ensures rising { IsOrdered (slice_cmp nat_cmp) bookmarks }
{
    let mut list = Vec::with_capacity(alloc, bookmarks.len())?;
    for bookmark in bookmarks {
        list.push(bookmark)?;
    }
    Ok(list)
}
