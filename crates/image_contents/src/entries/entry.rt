//! Entries of an index, and their order.

ghost use Rattle.std.specs.Prelude.{◌≡◌, refl};
ghost use Rattle.std.specs.Cmp.{partial_equiv_from_equiv};
ghost use Rattle.std.specs.Ordering.{as_partial_cmp};
ghost use Rattle.image_contents.specs.EntryOrder.{pair_cmp, pair_eq, pair_equiv, pair_partial, pair_total};
ghost use Rattle.image_findings.specs.EntryFindings.{in_order};

use std::cmp::Ordering;
use std::marker::Model;

/// An entry of an index, in place: a key, and the bookmark of a record that has it.
///
/// Entries are ordered by key, then by bookmark. Contracts see one as a pair.
#[derive(Drop)]
pub(crate) struct EntryRef<'a> {
    pub key: &'a [u8],
    pub bookmark: &'a [u8],
}

impl<'a> Model for EntryRef<'a> {
    ghost use Rattle.cursor_nav.specs.Places.{Pair};

    ghost Value = { Pair };

    ghost view = { λ a. (a.key.now, a.bookmark.now) };
}

impl<'a> PartialEq for EntryRef<'a> {
    ghost eq = { pair_eq };

    ghost laws = { partial_equiv_from_equiv pair_equiv };

    fn eq(&self, other: &EntryRef<'a>) -> bool {
        self.cmp(other).is_eq()
    }
}

impl<'a> Eq for EntryRef<'a> {
    ghost laws = { pair_equiv };
}

impl<'a> PartialOrd for EntryRef<'a> {
    ghost partial_cmp = { as_partial_cmp pair_cmp };

    ghost laws = { pair_partial };

    fn partial_cmp(&self, other: &EntryRef<'a>) -> Option<Ordering> {
        Some(self.cmp(other))
    }
}

impl<'a> Ord for EntryRef<'a> {
    ghost cmp = { pair_cmp };

    ghost total = { pair_total };

    ghost matches_partial_cmp = { λ a b. refl };

    ghost matches_eq = { λ a b. refl };

    fn cmp(&self, other: &EntryRef<'a>) -> Ordering {
        self.key
            .cmp(other.key)
            .then(self.bookmark.cmp(other.bookmark))
    }
}

/// The entries in their order, each once.
pub(crate) fn in_order<'a>(mut entries: Vec<EntryRef<'a>>) -> Vec<EntryRef<'a>>
    ensures { result.items ≡ in_order entries.entry.items }
{
    entries.sort_unstable();
    entries.dedup();
    entries
}
