//! Worked examples of walks. Each function has an empty body, and its clause says what the definitions give.
#![tactic(auto, unfolding(crate::specs::Walks::depth_within))]

ghost use Rattle.std.specs.Prelude.{◌≡◌, [], ◌∷◌, Some, None, true, false};
ghost use Rattle.btree_inplace.specs.Shape.{pages};
ghost use Rattle.tree_check.specs.Marks.{with_marks};
ghost use Rattle.tree_check.specs.Walks.{tree_depth, tree_fault};
ghost use Rattle.tree_check.specs.Samples.{chain_from, child, entry, inner, leaf, lower_leaf, no_marks, two_leaves, upper_leaf};
ghost use Rattle.tree_check.specs.declared.fault.WalkFault.TheVariants as fault;

/// A root with two leaves, and a root that is a leaf without a node.
pub fn trees_without_a_fault()
    ensures fault { tree_fault (two_leaves lower_leaf upper_leaf) (no_marks (two_leaves lower_leaf upper_leaf)) 0 ≡ None }
    ensures depth { tree_depth (two_leaves lower_leaf upper_leaf) 0 ≡ 1 }
    ensures marks { with_marks (pages 1 (two_leaves lower_leaf upper_leaf) 0) (no_marks (two_leaves lower_leaf upper_leaf)) ≡ true ∷ true ∷ true ∷ [] }
    ensures empty { tree_fault (leaf 0 [] ∷ []) (false ∷ []) 0 ≡ None }
{}

/// A page that two nodes name, one of a tree that was walked before, and a page below itself.
pub fn pages_that_are_met_twice()
    ensures named_twice { tree_fault (inner 0 (child [] 1 ∷ child (5 ∷ []) 1 ∷ []) ∷ lower_leaf ∷ []) (false ∷ false ∷ []) 0 ≡ Some (fault.MetBefore 1) }
    ensures of_another { tree_fault (two_leaves lower_leaf upper_leaf) (false ∷ false ∷ true ∷ []) 0 ≡ Some (fault.MetBefore 2) }
    ensures below_itself { tree_fault (inner 0 (child [] 0 ∷ []) ∷ []) (false ∷ []) 0 ≡ Some (fault.MetBefore 0) }
{}

/// A key that the next bound is not above, one below its own bound, and one of a leaf whose parent bounds it but not the page above.
pub fn bounds_that_are_not_kept()
    ensures upper { tree_fault (two_leaves (leaf 1 (entry 1 ∷ entry 5 ∷ [])) upper_leaf) (no_marks (two_leaves lower_leaf upper_leaf)) 0 ≡ Some (fault.Broken 0) }
    ensures lower { tree_fault (two_leaves lower_leaf (leaf 2 (entry 4 ∷ entry 9 ∷ []))) (no_marks (two_leaves lower_leaf upper_leaf)) 0 ≡ Some (fault.Broken 0) }
    ensures above { tree_fault (inner 0 (child [] 1 ∷ child (3 ∷ []) 3 ∷ []) ∷ inner 1 (child [] 2 ∷ []) ∷ leaf 2 (entry 1 ∷ entry 4 ∷ []) ∷ inner 3 (child [] 4 ∷ []) ∷ leaf 4 (entry 5 ∷ []) ∷ []) (false ∷ false ∷ false ∷ false ∷ false ∷ []) 0 ≡ Some (fault.Broken 0) }
{}

/// A free page, one that never was, a page of another number, an inner page beside a leaf, and a node that is too long.
pub fn pages_that_are_none_of_a_tree()
    ensures free { tree_fault (two_leaves lower_leaf None) (no_marks (two_leaves lower_leaf upper_leaf)) 0 ≡ Some (fault.Broken 2) }
    ensures missing { tree_fault (inner 0 (child [] 7 ∷ []) ∷ []) (false ∷ []) 0 ≡ Some (fault.Broken 7) }
    ensures number { tree_fault (two_leaves lower_leaf (leaf 3 (entry 5 ∷ []))) (no_marks (two_leaves lower_leaf upper_leaf)) 0 ≡ Some (fault.Broken 2) }
    ensures kind { tree_fault (two_leaves lower_leaf (inner 2 (child [] 1 ∷ []))) (no_marks (two_leaves lower_leaf upper_leaf)) 0 ≡ Some (fault.Broken 2) }
    ensures long { tree_fault (leaf 0 (record (entry 5) { extent = 2026 } ∷ []) ∷ []) (false ∷ []) 0 ≡ Some (fault.Broken 0) }
{}

/// A child with an extent beyond its four bytes, a first key that is not empty, and children without a node.
pub fn nodes_that_are_no_children()
    ensures extent { tree_fault (inner 0 (child [] 1 ∷ record (child (5 ∷ []) 2) { extent = 5 } ∷ []) ∷ lower_leaf ∷ upper_leaf ∷ []) (false ∷ false ∷ false ∷ []) 0 ≡ Some (fault.Broken 0) }
    ensures first { tree_fault (inner 0 (child (1 ∷ []) 1 ∷ child (5 ∷ []) 2 ∷ []) ∷ lower_leaf ∷ upper_leaf ∷ []) (false ∷ false ∷ false ∷ []) 0 ≡ Some (fault.Broken 0) }
    ensures empty_leaf { tree_fault (two_leaves lower_leaf (leaf 2 [])) (no_marks (two_leaves lower_leaf upper_leaf)) 0 ≡ Some (fault.Broken 2) }
    ensures empty_inner { tree_fault (inner 0 (child [] 1 ∷ []) ∷ inner 1 [] ∷ []) (false ∷ false ∷ []) 0 ≡ Some (fault.Broken 1) }
{}

/// 64 inner pages one below the other are a tree, and of 65 the last one is a fault.
pub fn inner_pages_in_a_row()
    ensures most { tree_fault (chain_from 0 64) (no_marks (chain_from 0 64)) 0 ≡ None }
    ensures deep { tree_fault (chain_from 0 65) (no_marks (chain_from 0 65)) 0 ≡ Some (fault.Broken 64) }
{}
