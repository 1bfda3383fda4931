//! The pages and the live part of an image are bytes, since their types hold nothing else. Nothing is read for it.

ghost use Rattle.std.specs.Prelude.{IfSome};
ghost use Rattle.column_set.specs.NumberReading.{IsBytes};
ghost use Rattle.engine_image.specs.MadeEngines.{HasByteNodes, HaveByteNodes};

use page_image::Page;

/// Each item of a slice of bytes is a byte.
pub(crate) fn items_are_bytes(bytes: &[u8])
    ensures { IsBytes bytes.now }
{}

/// A page is in its form, and the keys and data of its nodes are bytes.
#[tactic(none)]
fn nodes_are_bytes(page: &Option<Page>)
    ensures { IfSome page.now HasByteNodes }
{
    match page {
        Some(page) => page.nodes_are_bytes(),
        None => {}
    }
}

/// So are all pages. The loop looks into none of them.
pub(crate) fn pages_are_bytes(pages: &[Option<Page>])
    ensures { HaveByteNodes pages.now }
{
    for page in pages {
        nodes_are_bytes(page);
    }
}
