//! Marks on pages that were walked.

ghost use Rattle.std.specs.Prelude.{◌≡◌, true, slice_set};
ghost use Rattle.tree_check.specs.Marks.{is_marked};

/// Whether the page of a number has a mark. A page past the last mark has one.
pub fn is_marked(marks: &[bool], page: u32) -> bool
    ensures { result ≡ is_marked marks.now page }
{
    let page = page as usize;
    page >= marks.len() || marks[page]
}

/// Marks a page.
pub fn mark(marks: &mut [bool], page: u32)
    ensures { marks.new ≡ slice_set marks.old page true }
{
    let page = page as usize;
    if page < marks.len() {
        marks[page] = true;
    }
}
