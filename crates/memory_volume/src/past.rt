//! What files held before, which only clauses read.

ghost use Rattle.std.specs.Prelude.{◌≡◌, List, [], ◌∷◌};
ghost use Rattle.std.specs.Borrow.{ftrue};
ghost use Rattle.jet_volume.specs.Image.{Image};

use crate::contents::Contents;
use std::marker::Model;

/// What files held before each of their writes, the newest first. It takes no memory.
#[derive(Drop)]
pub struct Past {
    pub ghost images: { List Image },
}

impl Model for Past {
    ghost also_owns = { λ _. ftrue };
}

// It owns nothing, so it may go to another thread.
unsafe impl Send for Past {}

impl Past {
    /// No write yet.
    pub(crate) fn new() -> Past
        ensures { result.images ≡ [] }
    {
        Past {}
    }

    /// This past, and what the files hold now.
    #[inline(always)]
    pub(crate) fn then(&self, _contents: &Contents) -> Past
        ensures { result.images ≡ _contents.now ∷ self.now.images }
    {
        Past {}
    }
}
