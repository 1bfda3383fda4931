//! The pages of an engine's trees.

ghost use Rattle.std.specs.Prelude.{◌≡◌, ◌≤◌, [], Some, length, IfOk};
ghost use Rattle.page_space.specs.declared.TheConstants.{MAX_PAGES};
ghost use Rattle.catalog_grammar.specs.Catalogs.{catalog_nodes};
ghost use Rattle.table_trees.specs.TreesInSpace.{StandsIn};
ghost use Rattle.image_writing.specs.EngineImages.{HasNoTables, first_trees};

use catalog_record::CatalogTree;
use jet_base::OutOfMemory;
use page_image::Page;
use page_space::Space;
use std::alloc::Global;
use table_trees::{TableTrees, a_catalog_stands_alone_in_its_space};

/// Pages by their numbers, `None` for a free one, and the number of the root page of the catalog's tree.
#[derive(Drop)]
pub(crate) struct TreePages {
    pub(crate) pages: Vec<Option<Page>>,
    pub(crate) root: u32,
}

/// A copy of all pages of a space.
fn copied_pages(alloc: Global, space: &Space, root: u32) -> Result<TreePages, OutOfMemory>
    ensures pages { IfOk result (λ copy. copy.pages.items ≡ space.now) }
    ensures root { IfOk result (λ copy. copy.root ≡ root) }
    ensures few { IfOk result (λ copy. length copy.pages.items ≤ MAX_PAGES) }
{
    let _few = space.len();
    let pages = space.copied(alloc)?;
    Ok(TreePages { pages, root })
}

/// The pages of the catalog of an empty database.
fn first_pages(alloc: Global) -> Result<TreePages, OutOfMemory>
    ensures trees { IfOk result (λ first. StandsIn first.pages.items (Some first.root) first_trees) }
    ensures few { IfOk result (λ first. length first.pages.items ≤ MAX_PAGES) }
{
    a_catalog_stands_alone_in_its_space();
    let mut space = Space::new(alloc);
    let catalog = CatalogTree::new(&mut space)?;
    copied_pages(alloc, &space, catalog.root())
}

/// The pages of all trees, each copied once. The catalog of an empty database that has no page yet has its page here.
pub(crate) fn tree_pages(alloc: Global, trees: &TableTrees) -> Result<TreePages, OutOfMemory>
    requires { HasNoTables trees.now }
    ensures trees { IfOk result (λ copy. StandsIn copy.pages.items (Some copy.root) trees.now) }
    ensures few { IfOk result (λ copy. length copy.pages.items ≤ MAX_PAGES) }
{
    let stored = trees.space();
    match stored.catalog_root {
        Some(root) => copied_pages(alloc, stored.space, root),
        None => first_pages(alloc),
    }
}
