//! The catalog of an image, and the trees of its tables.

ghost use Rattle.std.specs.Prelude.{◌≡◌, IfErr, IfOk};
ghost use Rattle.image_findings.specs.Findings.{catalog_marks, finding};
ghost use Rattle.image_findings.specs.Images.{ImageContents};
ghost use Rattle.image_findings.specs.TreeFindings.{no_marks};
ghost use Rattle.engine_image.specs.FoundFaults.{Refuses};
ghost use Rattle.engine_image.specs.OpenedImages.{IsOpenedForest};

use crate::fault::{ImageFault, fault_of_opening};
use image_opening::{
    OpenedCatalog, OpenedTable, open_catalog, open_trees, what_opens_first_is_found_first,
    what_trees_open_next_is_found_next,
};
use jet_base::OutOfMemory;
use page_space::Space;
use std::alloc::Global;

/// The catalog of an image and the trees of its tables, in the order of the catalog: each page that is taken is in one of them.
#[derive(Drop)]
pub(crate) struct OpenedForest {
    pub(crate) catalog: OpenedCatalog,
    pub(crate) trees: Vec<OpenedTable>,
}

/// No page of a space is marked.
fn unmarked(alloc: Global, space: &Space) -> Result<Vec<bool>, OutOfMemory>
    ensures { IfOk result (λ marks. marks.items ≡ no_marks space.now) }
{
    Ok(vec![in alloc; false; space.len()]?)
}

/// Opens the catalog whose tree has a root page, and then the trees of its tables. No page has a mark yet.
#[tactic(none)]
fn open_unmarked(
    alloc: Global,
    space: &Space,
    root: u32,
    marks: &mut [bool],
) -> Result<OpenedForest, ImageFault>
    requires { marks.old ≡ no_marks space.now }
    ensures opened { IfOk result (λ forest. (image : ImageContents) → image.pages ≡ space.now → image.catalog_root ≡ root → IsOpenedForest image forest) }
    ensures fault { IfErr result (λ why. (image : ImageContents) → image.pages ≡ space.now → image.catalog_root ≡ root → Refuses (finding image) why) }
{
    what_opens_first_is_found_first();
    what_trees_open_next_is_found_next();
    match open_catalog(alloc, space, root, marks) {
        Ok(catalog) => match open_trees(alloc, space, catalog.roots.as_slice(), marks) {
            Ok(trees) => Ok(OpenedForest { catalog, trees }),
            Err(fault) => Err(fault_of_opening(fault)),
        },
        Err(fault) => Err(fault_of_opening(fault)),
    }
}

/// Opens the catalog whose tree has a root page, and then the trees of its tables. The call answers what is found first of them.
pub(crate) fn open_forest(
    alloc: Global,
    space: &Space,
    root: u32,
) -> Result<OpenedForest, ImageFault>
    ensures opened { IfOk result (λ forest. (image : ImageContents) → image.pages ≡ space.now → image.catalog_root ≡ root → IsOpenedForest image forest) }
    ensures fault { IfErr result (λ why. (image : ImageContents) → image.pages ≡ space.now → image.catalog_root ≡ root → Refuses (finding image) why) }
{
    match unmarked(alloc, space) {
        Ok(mut marks) => open_unmarked(alloc, space, root, marks.as_mut_slice()),
        Err(_) => Err(ImageFault::OutOfMemory),
    }
}
