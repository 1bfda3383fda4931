//! The trees of the tables of an image.

ghost use Rattle.std.specs.Prelude.{◌≡◌, ℕ, List, [], ◌∷◌, ◌++◌, None, Some, map, IfErr, IfOk, OnOk};
ghost use Rattle.std.specs.List.{flat_map};
ghost use Rattle.std.specs.Option.{option_or};
ghost use Rattle.table_trees.specs.StoredTrees.{StoredRoots};
ghost use Rattle.image_findings.specs.CatalogFindings.{CatalogTold, catalog_told};
ghost use Rattle.image_findings.specs.Findings.{catalog_marks, finding, held_in, live_finding, roots_told};
ghost use Rattle.image_findings.specs.Images.{Finding, ImageContents, first_of};
ghost use Rattle.image_findings.specs.TableContents.{contents_below};
ghost use Rattle.image_findings.specs.TreeFindings.{no_marks, nodes_below, trees_finding};
ghost use Rattle.image_findings.specs.ValueFindings.{value_finding};
ghost use Rattle.live_part.specs.LiveReading.{whole_in};
ghost use Rattle.image_opening.specs.OpenedCatalogs.{IsFirstFinding, opening_finding, root_kept, roots_of_told};
ghost use Rattle.image_opening.specs.OpenedTrees.{AreOpened, AreTreesBelow, EachWith, IsIndexBelow, roots_walked};
ghost use Rattle.image_opening.specs.WalkedTrees.{AreWalked, forest_finding};

use crate::fault::OpenFault;
use crate::forest::unmarked_page;
use crate::making::TreeRoots;
use crate::opened::{OpenedIndex, OpenedTable};
use crate::walks::open_tree;
use jet_base::IndexId;
use page_space::Space;
use std::alloc::Global;

/// Walks the tree of an index.
fn open_index(
    space: &Space,
    index: IndexId,
    root: u32,
    marks: &mut [bool],
) -> Result<OpenedIndex, OpenFault>
    ensures index { IfOk result (IsIndexBelow space.now (index.0, root)) }
    ensures walked { OnOk result (AreWalked space.now (root ∷ []) marks.old marks.new) }
    ensures fault { IfErr result (IsFirstFinding (trees_finding space.now (root ∷ []) marks.old)) }
{
    match open_tree(space, root, marks) {
        Ok(tree) => Ok(OpenedIndex { index, tree }),
        Err(fault) => Err(fault),
    }
}

/// Puts an index behind the others.
fn put_index(opened: &mut Vec<OpenedIndex>, index: OpenedIndex) -> Result<(), OpenFault>
    ensures ok { OnOk result (opened.new.items ≡ opened.old.items ++ index ∷ []) }
    ensures err { IfErr result (λ fault. fault ≡ OpenFault.OutOfMemory) }
{
    match opened.push(index) {
        Ok(()) => Ok(()),
        Err(_) => Err(OpenFault::OutOfMemory),
    }
}

/// Walks the tree of an index, and puts it behind the others.
fn walk_index(
    opened: &mut Vec<OpenedIndex>,
    space: &Space,
    index: IndexId,
    root: u32,
    marks: &mut [bool],
) -> Result<(), OpenFault>
    ensures index { OnOk result ((before : List (ℕ × ℕ)) → EachWith (IsIndexBelow space.now) before opened.old.items → EachWith (IsIndexBelow space.now) (before ++ (index.0, root) ∷ []) opened.new.items) }
    ensures walked { OnOk result (AreWalked space.now (root ∷ []) marks.old marks.new) }
    ensures fault { IfErr result (IsFirstFinding (trees_finding space.now (root ∷ []) marks.old)) }
{
    match open_index(space, index, root, marks) {
        Ok(made) => put_index(opened, made),
        Err(fault) => Err(fault),
    }
}

/// Walks the trees of indexes one after another.
fn open_indexes(
    alloc: Global,
    space: &Space,
    roots: &[(IndexId, u32)],
    marks: &mut [bool],
) -> Result<Vec<OpenedIndex>, OpenFault>
    ensures indexes { IfOk result (λ made. EachWith (IsIndexBelow space.now) (map root_kept roots.now) made.items) }
    ensures walked { OnOk result (AreWalked space.now (map (λ x. x.1) (map root_kept roots.now)) marks.old marks.new) }
    ensures fault { IfErr result (IsFirstFinding (trees_finding space.now (map (λ x. x.1) (map root_kept roots.now)) marks.old)) }
{
    let mut opened = Vec::new(alloc);
    for root in roots {
        match walk_index(&mut opened, space, root.0, root.1, marks) {
            Ok(()) => {}
            Err(fault) => return Err(fault),
        }
    }
    Ok(opened)
}

/// Walks the trees of a table: of its records, of its indexes, and of its long values.
fn open_table(
    alloc: Global,
    space: &Space,
    roots: &TreeRoots,
    marks: &mut [bool],
) -> Result<OpenedTable, OpenFault>
    ensures trees { IfOk result (AreTreesBelow space.now roots.now) }
    ensures walked { OnOk result (AreWalked space.now (roots_walked roots.now) marks.old marks.new) }
    ensures fault { IfErr result (IsFirstFinding (trees_finding space.now (roots_walked roots.now) marks.old)) }
{
    match open_tree(space, roots.records, marks) {
        Ok(nodes) => match open_indexes(alloc, space, roots.indexes.as_slice(), marks) {
            Ok(indexes) => match open_tree(space, roots.long_values, marks) {
                Ok(long_values) => Ok(OpenedTable {
                    table: roots.table,
                    nodes,
                    long_values,
                    indexes,
                }),
                Err(fault) => Err(fault),
            },
            Err(fault) => Err(fault),
        },
        Err(fault) => Err(fault),
    }
}

/// Puts a table behind the others.
fn put_table(opened: &mut Vec<OpenedTable>, table: OpenedTable) -> Result<(), OpenFault>
    ensures ok { OnOk result (opened.new.items ≡ opened.old.items ++ table ∷ []) }
    ensures err { IfErr result (λ fault. fault ≡ OpenFault.OutOfMemory) }
{
    match opened.push(table) {
        Ok(()) => Ok(()),
        Err(_) => Err(OpenFault::OutOfMemory),
    }
}

/// Walks the trees of a table, and puts it behind the others.
fn walk_table(
    opened: &mut Vec<OpenedTable>,
    alloc: Global,
    space: &Space,
    roots: &TreeRoots,
    marks: &mut [bool],
) -> Result<(), OpenFault>
    ensures table { OnOk result ((before : List StoredRoots) → EachWith (AreTreesBelow space.now) before opened.old.items → EachWith (AreTreesBelow space.now) (before ++ roots.now ∷ []) opened.new.items) }
    ensures walked { OnOk result (AreWalked space.now (roots_walked roots.now) marks.old marks.new) }
    ensures fault { IfErr result (IsFirstFinding (trees_finding space.now (roots_walked roots.now) marks.old)) }
{
    match open_table(alloc, space, roots, marks) {
        Ok(table) => put_table(opened, table),
        Err(fault) => Err(fault),
    }
}

/// Walks the trees of tables one after another.
fn open_tables(
    alloc: Global,
    space: &Space,
    roots: &[TreeRoots],
    marks: &mut [bool],
) -> Result<Vec<OpenedTable>, OpenFault>
    ensures trees { IfOk result (λ made. EachWith (AreTreesBelow space.now) roots.now made.items) }
    ensures walked { OnOk result (AreWalked space.now (flat_map roots_walked roots.now) marks.old marks.new) }
    ensures fault { IfErr result (IsFirstFinding (trees_finding space.now (flat_map roots_walked roots.now) marks.old)) }
{
    let mut opened = Vec::new(alloc);
    for table in roots {
        match walk_table(&mut opened, alloc, space, table, marks) {
            Ok(()) => {}
            Err(fault) => return Err(fault),
        }
    }
    Ok(opened)
}

/// Opens the trees of the tables of a catalog, whose own tree was walked with these marks: each tree is walked and its pages are
/// marked, and then there is to be no page that is taken and has no mark. There is to be a mark for each page of the space.
///
/// The call answers what is found first: the fault of a tree, in the order of the tables and of each table's records, indexes by rising
/// number, and long values; or the least page that no tree has.
pub fn open_trees(
    alloc: Global,
    space: &Space,
    roots: &[TreeRoots],
    marks: &mut [bool],
) -> Result<Vec<OpenedTable>, OpenFault>
    // Where these are the roots of a catalog that was told, its trees have what the image has of its tables, and no page is left.
    ensures opened { IfOk result (λ made. (told : CatalogTold) → roots.now ≡ roots_of_told told → AreOpened space.now marks.old marks.new told made.items) }
    // The trees are those below the root pages.
    ensures roots { IfOk result (λ made. EachWith (AreTreesBelow space.now) roots.now made.items) }
    // A fault is what is found first.
    ensures fault { IfErr result (λ why. (told : CatalogTold) → roots.now ≡ roots_of_told told → IsFirstFinding (forest_finding space.now marks.old (roots_told told)) why) }
{
    match open_tables(alloc, space, roots, marks) {
        Ok(opened) => match unmarked_page(space, marks) {
            Some(page) => Err(OpenFault::Pages(page)),
            None => Ok(opened),
        },
        Err(fault) => Err(fault),
    }
}

/// Where nothing is found of the catalog of an image, what is found first of the trees of its tables is what is found first of the
/// image; and where nothing is found of them either, it is what is found of long values and of all behind them.
pub fn what_trees_open_next_is_found_next()
    ensures found { (image : ImageContents) (told : CatalogTold) (found : Finding) → opening_finding image.pages (no_marks image.pages) image.catalog_root ≡ None → catalog_told (nodes_below image.pages image.catalog_root) ≡ Some told → forest_finding image.pages (catalog_marks image) (roots_told told) ≡ Some found → finding image ≡ Some found }
    ensures rest { (image : ImageContents) (told : CatalogTold) → opening_finding image.pages (no_marks image.pages) image.catalog_root ≡ None → catalog_told (nodes_below image.pages image.catalog_root) ≡ Some told → forest_finding image.pages (catalog_marks image) (roots_told told) ≡ None → finding image ≡ option_or (first_of (map (value_finding image.number (held_in (whole_in image.live))) (map (contents_below image.pages) told.tables))) (live_finding image.number (map (contents_below image.pages) told.tables) (whole_in image.live)) }
{}
