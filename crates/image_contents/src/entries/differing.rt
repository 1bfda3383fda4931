//! Where two lists of entries differ first.

ghost use Rattle.std.specs.Prelude.{◌≡◌, ℕ, Some, option_copied, option_map, slice_get};
ghost use Rattle.cursor_nav.specs.Places.{Pair};
ghost use Rattle.image_contents.specs.FoundEntries.{found_as, lesser};
ghost use Rattle.image_findings.specs.EntryFindings.{differing};
ghost use Rattle.image_findings.specs.Images.{Finding};

use crate::entries::entry::EntryRef;

/// An entry that one of two lists has alone.
#[derive(Clone, Copy)]
pub(crate) struct Difference<'a> {
    pub key: &'a [u8],
    pub bookmark: &'a [u8],
    /// It is stored and not wanted, or else wanted and not stored.
    pub is_stored: bool,
}

impl<'a> Difference<'a> {
    /// An entry that is stored and not wanted, or else wanted and not stored.
    fn new(entry: &EntryRef<'a>, is_stored: bool) -> Difference<'a>
        ensures entry { (result.key.now, result.bookmark.now) ≡ entry.now }
        ensures stored { result.is_stored ≡ is_stored }
    {
        Difference {
            key: entry.key,
            bookmark: entry.bookmark,
            is_stored,
        }
    }
}

/// The first entry that one of two lists in order has alone: one of entries that are stored, one of those that are wanted.
pub(crate) fn first_difference<'a>(
    have: &[EntryRef<'a>],
    want: &[EntryRef<'a>],
) -> Option<Difference<'a>>
    ensures { (found : Pair → ℕ → ℕ → Finding) → option_map (found_as found) result ≡ differing found have.now want.now }
{
    let mut at = 0;
    while at < have.len() && at < want.len() && have[at] == want[at] {
        at += 1;
    }
    lesser(entry_at(have, at), entry_at(want, at))
}

/// The entry at a place, none past the end.
fn entry_at<'e, 'a>(entries: &'e [EntryRef<'a>], place: usize) -> Option<&'e EntryRef<'a>>
    ensures { option_copied result ≡ slice_get entries.now place }
{
    entries.get(place)
}

/// The lesser of two entries that are not the same. Each is less than none.
fn lesser<'a>(have: Option<&EntryRef<'a>>, want: Option<&EntryRef<'a>>) -> Option<Difference<'a>>
    ensures { (found : Pair → ℕ → ℕ → Finding) → option_map (found_as found) result ≡ lesser found (option_copied have.entry) (option_copied want.entry) }
{
    match (have, want) {
        (Some(have), Some(want)) => Some(lesser_of(have, want)),
        (Some(have), None) => Some(Difference::new(have, true)),
        (None, Some(want)) => Some(Difference::new(want, false)),
        (None, None) => None,
    }
}

/// The lesser of two entries that are not the same.
fn lesser_of<'a>(have: &EntryRef<'a>, want: &EntryRef<'a>) -> Difference<'a>
    ensures { (found : Pair → ℕ → ℕ → Finding) → Some (found_as found result) ≡ lesser found (Some have.now) (Some want.now) }
{
    if have.cmp(want).is_lt() {
        Difference::new(have, true)
    } else {
        Difference::new(want, false)
    }
}
