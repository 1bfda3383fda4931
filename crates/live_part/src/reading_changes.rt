//! Reading the held changes of a live part.

ghost use Rattle.std.specs.Prelude.{◌≡◌, ◌≤◌, [], ◌∷◌, ◌++◌, nat_lt, is_some, length, option_copied, unwrap_or, IfOk, OnOk};
ghost use Rattle.column_set.specs.ChangedRecords.{changed_bookmark, changed_table};
ghost use Rattle.log_grammar.specs.EntryReading.{changed, tested};
ghost use Rattle.log_record.specs.EntrySeen.{Gives};
ghost use Rattle.version_store.specs.HeldChanges.{kind_of};
ghost use Rattle.live_part.specs.LiveBytes.{number_of, standing};
ghost use Rattle.live_part.specs.LiveReading.{change_in, changes_at, entry_at, held_at, kind_of_change, parted, rising_at, sized_entry_at, undone_of};
ghost use Rattle.live_part.specs.Read.{read_change};

use crate::fields::{level_of, read_u64, row_of, status_of};
use column_set::Change;
use index_derive::{Entry, EntryKind};
use jet_base::OutOfMemory;
use log_record::{EntryFault, bytes_of, entry_of, read_u32};
use std::alloc::Global;
use version_store::{By, Status, Versions};

/// A held change as it is read.
#[derive(Drop)]
pub(crate) struct ReadChange<'a> {
    by: By,
    change: Change,
    before: Option<&'a [u8]>,
    status: Status,
}

/// The changes that are open or committed, and those that are undone.
#[derive(Drop)]
pub(crate) struct PartedChanges {
    pub(crate) standing: Versions,
    pub(crate) undone: Versions,
}

/// The entry that has so many bytes.
#[tactic(auto, unfolding(crate::specs::LiveReading::entry_at))]
fn entry_of_size(alloc: Global, bytes: &[u8], size: u32) -> Result<(Entry, &[u8]), EntryFault>
    ensures { Gives (λ x. (x.0, x.1.now)) result (entry_at size bytes.now) }
{
    let (count, rest) = read_u32(bytes)?;
    if count as u64 + 4 != size as u64 {
        return Err(EntryFault::BadEntry);
    }
    let (own, rest) = bytes_of(rest, count as usize)?;
    let entry = entry_of(alloc, own)?;
    Ok((entry, rest))
}

/// An entry behind the count of its bytes.
#[tactic(auto, unfolding(crate::specs::LiveReading::sized_entry_at))]
fn sized_entry_of(alloc: Global, bytes: &[u8]) -> Result<(Entry, &[u8]), EntryFault>
    ensures { Gives (λ x. (x.0, x.1.now)) result (sized_entry_at bytes.now) }
{
    let (size, rest) = read_u32(bytes)?;
    let (entry, rest) = entry_of_size(alloc, rest, size)?;
    Ok((entry, rest))
}

/// Whether the change is told without the record of a put.
fn is_bare(change: &Change) -> bool
    ensures { result ≡ is_some (kind_of_change change.now) }
{
    match change {
        Change::Put { copied, values, .. } => copied.is_none() && values.fields().is_empty(),
        Change::Drop { .. } | Change::Hold { .. } | Change::Add { .. } => true,
    }
}

/// The change that an entry is, without the record of a put.
fn change_of(kind: EntryKind) -> Result<Change, EntryFault>
    ensures { Gives (λ x. (kind_of x, (changed_table x, changed_bookmark x))) result (change_in kind) }
{
    match kind {
        EntryKind::Change(change) => {
            if !is_bare(&change) {
                return Err(EntryFault::BadEntry);
            }
            Ok(change)
        }
        _ => Err(EntryFault::BadEntry),
    }
}

/// A held change.
#[tactic(auto, unfolding(crate::specs::LiveReading::held_at, crate::specs::LiveReading::held_fields_at))]
fn held_of(alloc: Global, bytes: &[u8]) -> Result<(ReadChange<'_>, &[u8]), EntryFault>
    ensures read { Gives (λ x. (read_change x.0, x.1.now)) result (held_at bytes.now) }
    ensures short { IfOk result (λ x. length (unwrap_or (option_copied x.0.before) []) ≤ 4096) }
{
    let (number, rest) = read_u64(bytes)?;
    let (level, rest) = level_of(rest)?;
    let (status, rest) = status_of(rest)?;
    let (made, rest) = sized_entry_of(alloc, rest)?;
    let (before, rest) = row_of(rest)?;
    let Entry { session, kind } = made;
    let change = change_of(kind)?;
    let by = By {
        number,
        session,
        begin: 0,
        level,
        limit: 0,
        oldest: None,
    };
    let held = ReadChange {
        by,
        change,
        before,
        status,
    };
    Ok((held, rest))
}

/// A held change whose number is above `last`.
fn next_change(
    alloc: Global,
    bytes: &[u8],
    last: u64,
) -> Result<(ReadChange<'_>, &[u8]), EntryFault>
    ensures read { Gives (λ x. (read_change x.0, x.1.now)) result (tested (λ h. nat_lt last (number_of h)) held_at bytes.now) }
    ensures short { IfOk result (λ x. length (unwrap_or (option_copied x.0.before) []) ≤ 4096) }
{
    let (held, rest) = held_of(alloc, bytes)?;
    if held.by.number <= last {
        return Err(EntryFault::BadEntry);
    }
    Ok((held, rest))
}

impl PartedChanges {
    /// No change.
    fn new(alloc: Global) -> PartedChanges
        ensures standing { result.standing ≡ [] }
        ensures undone { result.undone ≡ [] }
    {
        PartedChanges {
            standing: Versions::new(alloc),
            undone: Versions::new(alloc),
        }
    }

    /// Holds a change behind the others of its part.
    fn hold(&mut self, held: &ReadChange<'_>) -> Result<(), OutOfMemory>
        requires { length (unwrap_or (option_copied held.now.before) []) ≤ 4096 }
        ensures standing { OnOk result (self.new.standing ≡ self.old.standing ++ standing (read_change held.now ∷ [])) }
        ensures undone { OnOk result (self.new.undone ≡ self.old.undone ++ undone_of (read_change held.now ∷ [])) }
    {
        let before = held.before;
        let status = held.status;
        match status {
            Status::Undone => self.undone.hold(held.by, &held.change, before, status),
            _ => self.standing.hold(held.by, &held.change, before, status),
        }
    }
}

/// So many changes by rising number.
fn so_many_changes(
    alloc: Global,
    bytes: &[u8],
    count: u32,
) -> Result<(PartedChanges, &[u8]), EntryFault>
    ensures { Gives (λ x. ((x.0.standing, x.0.undone), x.1.now)) result (changed parted (rising_at number_of held_at 0 count) bytes.now) }
{
    let mut changes = PartedChanges::new(alloc);
    let mut rest = bytes;
    let mut last = 0;
    for _ in 0..count {
        let (held, after) = next_change(alloc, rest, last)?;
        changes.hold(&held)?;
        last = held.by.number;
        rest = after;
    }
    Ok((changes, rest))
}

/// The changes behind their count.
pub(crate) fn changes_of(alloc: Global, bytes: &[u8]) -> Result<(PartedChanges, &[u8]), EntryFault>
    ensures { Gives (λ x. ((x.0.standing, x.0.undone), x.1.now)) result (changed parted changes_at bytes.now) }
{
    let (count, rest) = read_u32(bytes)?;
    so_many_changes(alloc, rest, count)
}
