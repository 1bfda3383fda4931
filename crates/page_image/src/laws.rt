//! What holds of every page.

ghost use Rattle.std.specs.Prelude.{◌≤◌, length};
ghost use Rattle.page_image.specs.Page.{IsPage, PageContents};
ghost use Rattle.page_image.specs.declared.offsets.TheConstants.{MAX_NODES};

/// A page has at most [`MAX_NODES`](crate::MAX_NODES): each takes six bytes at least.
pub fn nodes_of_a_page_are_few()
    ensures { (page : PageContents) → IsPage page → length page.nodes ≤ MAX_NODES }
{}
