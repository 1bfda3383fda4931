//! Lists of values of one type, which contracts see as lists.

ghost use Rattle.std.specs.Prelude.{◌≡◌, [], ◌∷◌, ◌++◌, IfOk, if◌then◌else◌, is_ok};
ghost use Rattle.std.specs.List.{AllZip};
ghost use Rattle.std.specs.Cmp.Lexicographic.{pointwise, lists_per, lists_equiv};

use crate::memory::OutOfMemory;
use std::alloc::{AllocError, Global};
use std::marker::Model;

/// A list, in its order.
#[derive(Debug, Drop)]
pub struct Items<T> {
    items: Vec<T>,
}

impl<T> Model for Items<T> {
    ghost use Rattle.std.specs.Prelude.{List};

    ghost Value = { List T };

    ghost view = { λ a. a.items.items };
}

impl<T> Items<T> {
    /// The list without an item. It takes no memory.
    pub fn empty(alloc: Global) -> Items<T>
        ensures { result ≡ [] }
    {
        Items {
            items: Vec::new(alloc),
        }
    }

    /// The list of these items, which it takes over.
    pub fn new(items: Vec<T>) -> Items<T>
        ensures { result ≡ items.items }
    {
        Items { items }
    }

    /// The items.
    pub fn as_slice(&self) -> &[T]
        ensures { result.now ≡ self.now }
    {
        self.items.as_slice()
    }
}

impl<T: Drop> Items<T> {
    /// Puts one more item at the end. Where there is no memory the list stays and the item is dropped.
    pub fn push(&mut self, item: T) -> Result<(), OutOfMemory>
        ensures { self.new ≡ (if is_ok result then self.old ++ item ∷ [] else self.old) }
    {
        self.items.push(item)?;
        Ok(())
    }
}

impl<T: Clone> Items<T> {
    /// Another list of the same items, where a clone of an item is equal to it.
    pub fn copy(&self) -> Result<Items<T>, OutOfMemory>
        ensures { IfOk result (λ made. ((x y : T) → T.is_clone x y → y ≡ x) → made ≡ self.now) }
    {
        Ok(Items {
            items: self.items.clone()?,
        })
    }
}

impl<T: Clone> Clone for Items<T> {
    ghost is_clone = { λ a b. AllZip T.is_clone a b × (((x y : T) → T.is_clone x y → y ≡ x) → b ≡ a) };

    fn clone(&self) -> Result<Items<T>, AllocError> {
        Ok(Items {
            items: self.items.clone()?,
        })
    }
}

impl<T: PartialEq> PartialEq for Items<T> {
    ghost eq = { pointwise T.eq };

    ghost laws = { lists_per T.laws };

    fn eq(&self, other: &Items<T>) -> bool {
        self.as_slice() == other.as_slice()
    }
}

impl<T: Eq> Eq for Items<T> {
    ghost laws = { lists_equiv T.Eq.laws };
}
