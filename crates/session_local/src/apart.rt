//! Values that lie apart.

ghost use Rattle.std.specs.Prelude.{◌≡◌, IfOk};

use jet_base::OutOfMemory;
use std::alloc::Global;
use std::marker::Model;

/// A value in memory of its own, so that what holds it stays small. Contracts see the value.
#[derive(Debug, Drop)]
pub struct Apart<T> {
    inner: Box<T>,
}

impl<T> Model for Apart<T> {
    ghost Value = { T };

    ghost view = { λ a. a.inner.value };
}

impl<T: Drop> Apart<T> {
    /// The value, put into memory of its own. Where there is none it is dropped.
    pub fn new(alloc: Global, value: T) -> Result<Apart<T>, OutOfMemory>
        ensures { IfOk result (λ made. made ≡ value) }
    {
        let inner = Box::new(alloc, value)?;
        Ok(Apart { inner })
    }
}

impl<T> Apart<T> {
    /// The value.
    pub fn get(&self) -> &T
        ensures { result.now ≡ self.now }
    {
        &self.inner
    }
}

impl<T: PartialEq> PartialEq for Apart<T> {
    ghost eq = { T.eq };

    ghost laws = { T.laws };

    fn eq(&self, other: &Apart<T>) -> bool {
        self.get() == other.get()
    }
}

impl<T: Eq> Eq for Apart<T> {
    ghost laws = { T.Eq.laws };
}
