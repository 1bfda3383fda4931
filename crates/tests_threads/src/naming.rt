//! The word that the values of one run agree on.

use std::marker::Brand;

/// Of a value under a lock no more is known than its type says, so the type names the word.
pub trait Naming {
    ghost use Rattle.atomic_table.specs.Seated.{TableId};

    ghost word: { TableId };
}

impl Naming for Brand {
    ghost use Rattle.std.specs.Prelude.{[]};

    ghost word = { record { words = 0; slots = 0; views_name = 0; atom = 0; block = 0; offset = 0; slot_names = [] } };
}
