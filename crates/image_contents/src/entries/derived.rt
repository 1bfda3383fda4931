//! The entries that an index derives of records.

ghost use Rattle.std.specs.Prelude.{◌≡◌, ◌++◌, map, IfOk};
ghost use Rattle.image_findings.specs.EntryFindings.{in_order};

use crate::entries::entry::{EntryRef, in_order};
use jet_base::OutOfMemory;
use key_normal::Key;
use std::alloc::Global;
use std::marker::Model;

/// An entry that was derived of a record: it has its own key. Contracts see it as a pair.
#[derive(Drop)]
pub(crate) struct DerivedEntry<'a> {
    key: Vec<u8>,
    bookmark: &'a [u8],
}

impl<'a> Model for DerivedEntry<'a> {
    ghost use Rattle.cursor_nav.specs.Places.{Pair};

    ghost Value = { Pair };

    ghost view = { λ a. (a.key.items, a.bookmark.now) };
}

impl<'a> DerivedEntry<'a> {
    /// The entry of a key and a bookmark.
    fn new(alloc: Global, key: &Key, bookmark: &'a [u8]) -> Result<DerivedEntry<'a>, OutOfMemory>
        ensures { IfOk result (λ made. made ≡ (key.now, bookmark.now)) }
    {
        let mut bytes = Vec::new(alloc);
        match bytes.extend_from_slice(key.as_bytes()) {
            Ok(()) => Ok(DerivedEntry {
                key: bytes,
                bookmark,
            }),
            Err(_) => Err(OutOfMemory),
        }
    }

    /// The entry in place.
    fn as_entry(&self) -> EntryRef<'_>
        ensures { result ≡ self.now }
    {
        EntryRef {
            key: self.key.as_slice(),
            bookmark: self.bookmark,
        }
    }
}

/// Puts the entries of some keys of a record at the end.
pub(crate) fn push_keys<'a>(
    alloc: Global,
    entries: &mut Vec<DerivedEntry<'a>>,
    keys: &[Key],
    bookmark: &'a [u8],
) -> Result<(), OutOfMemory>
    ensures { IfOk result (λ _. entries.new.items ≡ entries.old.items ++ map (λ key. (key, bookmark.now)) keys.now) }
{
    for key in keys {
        let entry = match DerivedEntry::new(alloc, key, bookmark) {
            Ok(entry) => entry,
            Err(fault) => return Err(fault),
        };
        match entries.push(entry) {
            Ok(()) => {}
            Err(_) => return Err(OutOfMemory),
        }
    }
    Ok(())
}

/// Derived entries in place.
fn in_place<'a>(
    alloc: Global,
    derived: &'a [DerivedEntry<'_>],
) -> Result<Vec<EntryRef<'a>>, OutOfMemory>
    ensures { IfOk result (λ entries. entries.items ≡ derived.now) }
{
    let mut entries = Vec::new(alloc);
    for entry in derived {
        match entries.push(entry.as_entry()) {
            Ok(()) => {}
            Err(_) => return Err(OutOfMemory),
        }
    }
    Ok(entries)
}

/// Derived entries in their order, each once.
pub(crate) fn derived_in_order<'a>(
    alloc: Global,
    derived: &'a [DerivedEntry<'_>],
) -> Result<Vec<EntryRef<'a>>, OutOfMemory>
    ensures { IfOk result (λ entries. entries.items ≡ in_order derived.now) }
{
    match in_place(alloc, derived) {
        Ok(entries) => Ok(in_order(entries)),
        Err(fault) => Err(fault),
    }
}
