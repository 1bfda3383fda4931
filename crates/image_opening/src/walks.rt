//! The walk of one tree.

ghost use Rattle.std.specs.Prelude.{◌≡◌, [], ◌∷◌, Some, IfErr, IfOk, OnOk};
ghost use Rattle.image_findings.specs.TreeFindings.{finding_of_fault, trees_finding};
ghost use Rattle.image_opening.specs.OpenedCatalogs.{IsFirstFinding};
ghost use Rattle.image_opening.specs.WalkedTrees.{AreWalked, IsTreeBelow};

use crate::fault::OpenFault;
use btree_inplace::Tree;
use page_space::Space;
use tree_check::{WalkFault, walk_tree};

/// What the fault of a walk is to an opening.
pub fn fault_of_walk(root: u32, fault: WalkFault) -> OpenFault
    ensures { IsFirstFinding (Some (finding_of_fault root fault)) result }
{
    match fault {
        WalkFault::MetBefore(page) => OpenFault::Pages(page),
        WalkFault::Broken(page) => OpenFault::Tree(root, page),
    }
}

/// Walks the tree below a root page, and marks its pages.
pub fn open_tree(space: &Space, root: u32, marks: &mut [bool]) -> Result<Tree, OpenFault>
    ensures tree { IfOk result (IsTreeBelow space.now root) }
    ensures walked { OnOk result (AreWalked space.now (root ∷ []) marks.old marks.new) }
    ensures fault { IfErr result (IsFirstFinding (trees_finding space.now (root ∷ []) marks.old)) }
{
    match walk_tree(space, root, marks) {
        Ok(depth) => Ok(Tree::at(root, depth)),
        Err(fault) => Err(fault_of_walk(root, fault)),
    }
}
