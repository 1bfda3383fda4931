//! The bookmarks of a range, read one by one.

ghost use Rattle.std.specs.Prelude.{◌≡◌, ◌&&◌, ℕ, List, suc, filter, length, IfOk, OnOk};
ghost use Rattle.std.specs.Bool.{OnFalse, OnTrue};
ghost use Rattle.index_intersect.specs.Intersection.{lies_in};
ghost use Rattle.index_intersect.specs.Walks.{bookmarks_ahead, has, will_have_among, will_read};

use crate::range_walk::RangeWalk;
use crate::ranges::IndexRange;
use cursor_nav::View;
use jet_base::OutOfMemory;
use key_normal::Key;
use std::alloc::Global;
use std::collections::BTreeSet;

/// The bookmarks of a range that were read, and the walk to those that were not.
#[derive(Drop)]
pub(crate) struct RangeBookmarks<'a> {
    pub(crate) read: BTreeSet<Key>,
    walk: RangeWalk<'a>,
}

impl<'a> RangeBookmarks<'a> {
    /// Those of the range, none of them read.
    pub(crate) fn new<W: View>(alloc: Global, view: &W, range: &'a IndexRange) -> RangeBookmarks<'a>
        ensures { (bookmark : List ℕ) → will_read (W.entries view.now) bookmark result ≡ lies_in (W.entries view.now) bookmark range.now }
    {
        RangeBookmarks {
            read: BTreeSet::new(alloc),
            walk: RangeWalk::new(view, range),
        }
    }

    /// Reads the bookmark of one entry more, or answers false where no entry is left.
    pub(crate) fn read_next<W: View>(&mut self, view: &W) -> Result<bool, OutOfMemory>
        ensures read { IfOk result (λ is_read. OnTrue is_read ((bookmark : List ℕ) → will_read (W.entries view.now) bookmark self.new ≡ will_read (W.entries view.now) bookmark self.old)) }
        ensures fewer { IfOk result (λ is_read. OnTrue is_read (suc (length (bookmarks_ahead (W.entries view.now) self.new.walk)) ≡ length (bookmarks_ahead (W.entries view.now) self.old.walk))) }
        ensures ended { IfOk result (λ is_read. OnFalse is_read ((bookmark : List ℕ) → has self.new.read bookmark ≡ will_read (W.entries view.now) bookmark self.old)) }
    {
        if !self.walk.advance(view) {
            return Ok(false);
        }
        self.read.insert(self.walk.bookmark().copy())?;
        Ok(true)
    }

    /// Reads the rest, and gives those bookmarks of the range that are also among these.
    pub(crate) fn read_rest_among<W: View>(
        mut self,
        view: &W,
        others: &BTreeSet<Key>,
    ) -> Result<BTreeSet<Key>, OutOfMemory>
        ensures { IfOk result (λ both. (bookmark : List ℕ) → has both bookmark ≡ (has others.now bookmark && will_read (W.entries view.now) bookmark self.entry)) }
    {
        keep_among(&mut self.read, others);
        self.read_among(view, others)?;
        Ok(self.read)
    }

    /// Reads those bookmarks of the rest that are also among these.
    fn read_among<W: View>(&mut self, view: &W, others: &BTreeSet<Key>) -> Result<(), OutOfMemory>
        ensures { OnOk result ((bookmark : List ℕ) → has self.new.read bookmark ≡ will_have_among (W.entries view.now) others.now bookmark self.old) }
    {
        while self.walk.advance(view) {
            let bookmark = self.walk.bookmark();
            if others.contains(bookmark) {
                self.read.insert(bookmark.copy())?;
            }
        }
        Ok(())
    }
}

/// Keeps those bookmarks that are also among others.
fn keep_among(bookmarks: &mut BTreeSet<Key>, others: &BTreeSet<Key>)
    ensures { bookmarks.new.keys ≡ filter (has others.now) bookmarks.old.keys }
{
    bookmarks.retain(|bookmark| others.contains(bookmark));
}
