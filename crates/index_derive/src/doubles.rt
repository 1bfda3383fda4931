//! Keys that stand twice.

ghost use Rattle.std.specs.Prelude.{◌≡◌};
ghost use Rattle.index_derive.specs.Entries.{has_double};

use key_normal::Key;

/// Whether a key stands twice among these: once they are sorted, equal keys are neighbours, of which one is kept.
pub fn has_double(mut keys: Vec<Key>) -> bool
    ensures { result ≡ has_double keys.items }
{
    let count = keys.len();
    keys.sort_unstable();
    keys.dedup();
    keys.len() < count
}
