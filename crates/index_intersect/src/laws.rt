//! Laws of intersections.

ghost use Rattle.std.specs.Prelude.{List};
ghost use Rattle.std.specs.List.Sorted.{IsStrictlySortedBy};
ghost use Rattle.std.specs.Ordering.{nat_cmp};
ghost use Rattle.std.specs.Cmp.Lexicographic.{slice_cmp};
ghost use Rattle.index_intersect.specs.declared.ranges.IndexRange.{IndexRange};
ghost use Rattle.index_intersect.specs.Intersection.{Indexes, intersection};

/// What ranges have in common rises, and each bookmark stands there once.
pub fn bookmarks_in_common_rise()
    ensures { (indexes : Indexes) (ranges : List IndexRange) → IsStrictlySortedBy (slice_cmp nat_cmp) (intersection indexes ranges) }
{}
