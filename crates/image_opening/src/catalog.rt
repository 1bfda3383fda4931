//! The catalog of an image.

ghost use Rattle.std.specs.List.{list_all};
ghost use Rattle.std.specs.Prelude.{◌≡◌, ◌+◌, ◌≤◌, ℕ, [], ◌∷◌, true, None, Some, length, map, IfErr, IfOk, OnOk};
ghost use Rattle.btree_inplace.specs.Shape.{IsSubtree, entries};
ghost use Rattle.page_image.specs.Page.{HasRisingKeys};
ghost use Rattle.catalog_grammar.specs.CatalogBytes.{item_fits, item_node};
ghost use Rattle.catalog_grammar.specs.Catalogs.{rise_above};
ghost use Rattle.catalog_record.specs.CatalogTrees.{own_pages};
ghost use Rattle.tree_check.specs.Marks.{copies, times_marked, with_marks};
ghost use Rattle.image_findings.specs.CatalogFindings.{catalog_told, table_of};
ghost use Rattle.image_findings.specs.Findings.{finding};
ghost use Rattle.image_findings.specs.Images.{Finding, ImageContents};
ghost use Rattle.image_findings.specs.TreeFindings.{no_marks, nodes_below, pages_below, trees_finding};
ghost use Rattle.image_opening.specs.OpenedCatalogs.{IsFirstFinding, IsOpened, catalog_of_told, is_sound, opening_finding, roots_of_told, stored_roots, told_finding};
ghost use Rattle.image_opening.specs.WalkedTrees.{AreMarked, IsTreeBelow};

use crate::fault::OpenFault;
use crate::making::{TreeRoots, roots_of_tables, table_defs};
use crate::opened::OpenedCatalog;
use crate::reading::read_below;
use crate::rules::is_sound_catalog;
use crate::told::{ToldCatalog, has_many_indexes, has_many_tables, told_catalog};
use crate::walks::fault_of_walk;
use btree_inplace::{Tree, nodes_of_a_tree_rise};
use catalog_grammar::CatalogItem;
use catalog_record::{CatalogFault, CatalogTree};
use jet_catalog::{Catalog, TableDef};
use page_space::Space;
use std::alloc::Global;
use tree_check::walk_tree;

/// The catalog that items tell.
fn told_by_items(alloc: Global, items: &[CatalogItem]) -> Result<ToldCatalog, OpenFault>
    requires rising { HasRisingKeys (map item_node items.now) }
    requires fit { list_all item_fits items.now ≡ true }
    ensures told { IfOk result (λ told. catalog_told (map item_node items.now) ≡ Some told) }
    ensures rising { IfOk result (λ told. rise_above 0 (map (λ x. x.table.id.0) told.tables) ≡ true) }
    ensures few { IfOk result (λ told. length told.tables ≤ 64) }
    ensures fault { IfErr result (IsFirstFinding (told_finding (catalog_told (map item_node items.now)))) }
{
    if has_many_tables(items) {
        return Err(OpenFault::Catalog);
    }
    match told_catalog(alloc, items) {
        Ok(Some(told)) => Ok(told),
        Ok(None) => Err(OpenFault::Catalog),
        Err(_) => Err(OpenFault::OutOfMemory),
    }
}

/// Reads the catalog that the nodes below a root page tell, each of them once.
///
/// The call answers `Catalog` where they tell none, or one of more than 64 tables. A column of a long type is tagged, also where its
/// node does not say so; the root of a primary index, which has no tree, is the one that its node tells, and nothing is read there.
fn read_told(alloc: Global, space: &Space, root: u32, depth: u32) -> Result<ToldCatalog, OpenFault>
    requires { IsSubtree depth space.now root }
    // The nodes tell this catalog.
    ensures told { IfOk result (λ told. catalog_told (entries depth space.now root) ≡ Some told) }
    // The numbers of its tables rise from 1.
    ensures rising { IfOk result (λ told. rise_above 0 (map (λ x. x.table.id.0) told.tables) ≡ true) }
    // There are 64 of them at most.
    ensures few { IfOk result (λ told. length told.tables ≤ 64) }
    // What is found of the catalog is that it is none.
    ensures fault { IfErr result (IsFirstFinding (told_finding (catalog_told (entries depth space.now root)))) }
{
    nodes_of_a_tree_rise();
    let mut items = Vec::new(alloc);
    match read_below(alloc, space, root, depth, &mut items) {
        Ok(()) => told_by_items(alloc, items.as_slice()),
        Err(CatalogFault::BadNode) => Err(OpenFault::Catalog),
        Err(CatalogFault::OutOfMemory) => Err(OpenFault::OutOfMemory),
    }
}

/// Reads the catalog that the nodes of a tree tell, behind the tree.
fn told_below(
    alloc: Global,
    space: &Space,
    root: u32,
    depth: u32,
) -> Result<(CatalogTree, ToldCatalog), OpenFault>
    requires { IsSubtree depth space.now root }
    ensures tree { IfOk result (λ made. (made.0.tree.root ≡ root) × (made.0.tree.depth ≡ depth)) }
    ensures told { IfOk result (λ made. catalog_told (entries depth space.now root) ≡ Some made.1) }
    ensures rising { IfOk result (λ made. rise_above 0 (map (λ x. x.table.id.0) made.1.tables) ≡ true) }
    ensures few { IfOk result (λ made. length made.1.tables ≤ 64) }
    ensures fault { IfErr result (IsFirstFinding (told_finding (catalog_told (entries depth space.now root)))) }
{
    match read_told(alloc, space, root, depth) {
        Ok(told) => Ok((CatalogTree::of(Tree::at(root, depth)), told)),
        Err(fault) => Err(fault),
    }
}

/// Opens the tree of a catalog, which has a root page, and reads what it tells: the tree is walked and its pages are marked, and each
/// of its nodes is read once. There is to be a mark for each page of the space.
///
/// The call answers what is found first: the fault of the tree, or `Catalog` where the nodes tell no catalog or one of more than 64
/// tables. Whether the tables are sound is not asked here. A column of a long type is tagged, also where its node does not say so, and
/// a primary index has the root that its node tells, where nothing is looked at.
pub fn open_told(
    alloc: Global,
    space: &Space,
    root: u32,
    marks: &mut [bool],
) -> Result<(CatalogTree, ToldCatalog), OpenFault>
    // The tree is the one below the root page.
    ensures tree { IfOk result (λ made. IsTreeBelow space.now root made.0.tree) }
    // Its nodes tell this catalog.
    ensures told { IfOk result (λ made. catalog_told (nodes_below space.now root) ≡ Some made.1) }
    // The numbers of its tables rise from 1.
    ensures rising { IfOk result (λ made. rise_above 0 (map (λ x. x.table.id.0) made.1.tables) ≡ true) }
    // There are 64 of them at most.
    ensures few { IfOk result (λ made. length made.1.tables ≤ 64) }
    // The tree has no fault.
    ensures none { OnOk result (trees_finding space.now (root ∷ []) marks.old ≡ None) }
    // Its pages, and they alone, were marked.
    ensures own { OnOk result ((page : ℕ) → copies page (pages_below space.now root) + times_marked marks.old page ≡ times_marked marks.new page) }
    ensures marks { OnOk result (marks.new ≡ with_marks (pages_below space.now root) marks.old) }
    // A fault is what is found first.
    ensures fault { IfErr result (IsFirstFinding (opening_finding space.now marks.old root)) }
{
    match walk_tree(space, root, marks) {
        Ok(depth) => told_below(alloc, space, root, depth),
        Err(fault) => Err(fault_of_walk(root, fault)),
    }
}

/// The tables of a catalog that was told, as a database has them, where it is sound, and the root pages of their trees.
///
/// The call answers `Catalog` exactly where the catalog is not sound: it is to have 64 tables at most, with names of their own and no
/// number above the greatest that was ever given, and each of them columns and up to 64 indexes that `jet_catalog` lets a table have.
pub fn sound_catalog(
    alloc: Global,
    told: &ToldCatalog,
) -> Result<(Vec<TableDef>, Vec<TreeRoots>), OpenFault>
    // These are its tables, with their indexes in the order of their making.
    ensures tables { IfOk result (λ made. made.0.items ≡ map table_of told.now.tables) }
    // These are the roots of their trees.
    ensures roots { IfOk result (λ made. made.1.items ≡ map stored_roots told.now.tables) }
    // The catalog is sound.
    ensures sound { OnOk result (is_sound told.now ≡ true) }
    // A fault is what is found of it, if it is not want of memory.
    ensures fault { IfErr result (IsFirstFinding (told_finding (Some told.now))) }
{
    if has_many_indexes(told) {
        return Err(OpenFault::Catalog);
    }
    let tables = table_defs(alloc, told.tables.as_slice())?;
    if !is_sound_catalog(alloc, told.greatest, tables.as_slice())? {
        return Err(OpenFault::Catalog);
    }
    let roots = roots_of_tables(alloc, told.tables.as_slice())?;
    Ok((tables, roots))
}

/// The catalog that was told, where it is sound, with its tree and the root pages of its tables' trees.
fn opened_catalog(
    alloc: Global,
    tree: CatalogTree,
    told: &ToldCatalog,
) -> Result<OpenedCatalog, OpenFault>
    requires { rise_above 0 (map (λ x. x.table.id.0) told.now.tables) ≡ true }
    ensures tree { IfOk result (λ made. made.tree ≡ tree) }
    ensures catalog { IfOk result (λ made. made.catalog ≡ catalog_of_told told.now) }
    ensures roots { IfOk result (λ made. made.roots.items ≡ roots_of_told told.now) }
    ensures sound { OnOk result (is_sound told.now ≡ true) }
    ensures fault { IfErr result (IsFirstFinding (told_finding (Some told.now))) }
{
    match sound_catalog(alloc, told) {
        Ok((tables, roots)) => Ok(OpenedCatalog {
            tree,
            catalog: Catalog::of(told.greatest, tables),
            roots,
        }),
        Err(fault) => Err(fault),
    }
}

/// Opens the catalog whose tree has a root page: the tree is walked and its pages are marked, each of its nodes is read once, and the
/// catalog is made of what they tell. There is to be a mark for each page of the space.
///
/// The call answers what is found first: the fault of the tree, or `Catalog` where its nodes do not tell a catalog that is sound, as
/// [`sound_catalog`] asks it. The tables' trees are not looked at.
pub fn open_catalog(
    alloc: Global,
    space: &Space,
    root: u32,
    marks: &mut [bool],
) -> Result<OpenedCatalog, OpenFault>
    // The tree is the one below the root page, and its nodes tell this sound catalog, with these roots.
    ensures opened { IfOk result (λ made. IsOpened space.now root made.tree made.catalog made.roots.items) }
    // Nothing is found of it.
    ensures none { OnOk result (opening_finding space.now marks.old root ≡ None) }
    // The pages of its tree, and they alone, were marked.
    ensures marks { OnOk result (marks.new ≡ with_marks (pages_below space.now root) marks.old) }
    ensures marked { IfOk result (λ made. marks.old ≡ no_marks space.now → AreMarked space.now (own_pages space.now made.tree) marks.new) }
    // A fault is what is found first.
    ensures fault { IfErr result (IsFirstFinding (opening_finding space.now marks.old root)) }
{
    match open_told(alloc, space, root, marks) {
        Ok((tree, told)) => opened_catalog(alloc, tree, &told),
        Err(fault) => Err(fault),
    }
}

/// What is found first of the catalog of an image, in which no page has a mark yet, is what is found first of the image.
pub fn what_opens_first_is_found_first()
    ensures { (image : ImageContents) (found : Finding) → opening_finding image.pages (no_marks image.pages) image.catalog_root ≡ Some found → finding image ≡ Some found }
{}
