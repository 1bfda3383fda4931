//! A count that only clauses read.

ghost use Rattle.std.specs.Prelude.{◌≡◌, ℕ, ◌+◌};
ghost use Rattle.std.specs.Borrow.{ftrue};

use std::marker::{Model, PhantomData};

/// How often something rose. It takes no memory, so it has no greatest value.
#[derive(Drop)]
pub struct Rises {
    marker: PhantomData<u8>,
    pub ghost total: { ℕ },
}

impl Model for Rises {
    ghost also_owns = { λ _. ftrue };
}

// It owns nothing, so it may go to another thread.
unsafe impl Send for Rises {}

impl Rises {
    pub(crate) fn new() -> Rises
        ensures { result.total ≡ 0 }
    {
        Rises {
            marker: PhantomData,
        }
    }

    pub(crate) fn rise(&mut self)
        ensures { self.new.total ≡ self.old.total + 1 }
    {}
}
