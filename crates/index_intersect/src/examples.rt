//! Worked examples of intersections, as theorems: each function's clauses say what the definitions give, and its body is empty.

ghost use Rattle.std.specs.Prelude.{◌≡◌, ◌∷◌, [], None};
ghost use Rattle.index_intersect.specs.Intersection.{intersection};
ghost use Rattle.index_intersect.specs.Examples.{below, bookmark, entry, indexes, range_from, up_to};

/// Two records have x and q. The first stands there once where the range over p and q has two entries of it, in whichever order
/// the ranges come.
pub fn records_in_two_ranges()
    ensures equal_keys { intersection indexes (range_from 1 (entry 120 1) (up_to 120) ∷ range_from 2 (entry 113 1) (up_to 113) ∷ []) ≡ bookmark 1 ∷ bookmark 2 ∷ [] }
    ensures two_entries { intersection indexes (range_from 1 (entry 120 1) (up_to 120) ∷ range_from 2 (entry 112 1) None ∷ []) ≡ bookmark 1 ∷ bookmark 2 ∷ [] }
    ensures turned { intersection indexes (range_from 2 (entry 112 1) None ∷ range_from 1 (entry 120 1) (up_to 120) ∷ []) ≡ bookmark 1 ∷ bookmark 2 ∷ [] }
{}

/// Bookmarks rise, whatever the order of the entries.
pub fn rising_bookmarks()
    ensures { intersection indexes (range_from 3 (entry 1 3) None ∷ range_from 2 (entry 112 1) None ∷ []) ≡ bookmark 1 ∷ bookmark 2 ∷ bookmark 3 ∷ [] }
{}

/// A range begins with its first entry, also where the entry is gone, and among those of one key; it ends with the limit's entries
/// or before them.
pub fn ends_of_ranges()
    ensures within_a_key { intersection indexes (range_from 1 (entry 120 2) None ∷ range_from 2 (entry 112 1) None ∷ []) ≡ bookmark 2 ∷ bookmark 3 ∷ [] }
    ensures gone { intersection indexes (range_from 1 (entry 120 3) None ∷ range_from 2 (entry 112 1) None ∷ []) ≡ bookmark 3 ∷ [] }
    ensures inclusive { intersection indexes (range_from 1 (entry 120 1) (up_to 121) ∷ range_from 2 (entry 112 1) None ∷ []) ≡ bookmark 1 ∷ bookmark 2 ∷ bookmark 3 ∷ [] }
    ensures exclusive { intersection indexes (range_from 1 (entry 120 1) (below 121) ∷ range_from 2 (entry 112 1) None ∷ []) ≡ bookmark 1 ∷ bookmark 2 ∷ [] }
{}

/// A bookmark must lie in every range: there are three here, and no record lies in all of them. Without a range there is none.
pub fn nothing_in_common()
    ensures three { intersection indexes (range_from 1 (entry 120 1) (up_to 120) ∷ range_from 3 (entry 1 3) (below 2) ∷ range_from 2 (entry 113 1) None ∷ []) ≡ [] }
    ensures no_range { intersection indexes [] ≡ [] }
{}
