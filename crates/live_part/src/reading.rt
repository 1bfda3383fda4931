//! Reading a live part.

ghost use Rattle.std.specs.Prelude.{◌≡◌, option_map, IfOk};
ghost use Rattle.log_record.specs.EntrySeen.{Gives};
ghost use Rattle.live_part.specs.LiveReading.{live_in, undone_in};
ghost use Rattle.live_part.specs.Read.{loaded, opened_part, with_changes};

use crate::reading_changes::changes_of;
use crate::reading_sessions::sessions_of;
use jet_base::OutOfMemory;
use log_record::EntryFault;
use std::alloc::Global;
use version_cleanup::Sessions;
use version_store::Versions;

/// The live part that bytes are.
#[derive(Drop)]
pub struct LoadedPart {
    /// The live sessions, by rising label.
    pub sessions: Sessions,
    /// The changes that are open or committed.
    pub versions: Versions,
    /// The changes that are undone. They are left out of what is opened, and only their form is checked.
    pub undone: Versions,
}

/// The live part of these sessions, and of the held changes that the bytes are, all of them.
fn part_with(alloc: Global, sessions: Sessions, bytes: &[u8]) -> Result<LoadedPart, EntryFault>
    ensures { Gives loaded result (with_changes sessions bytes.now) }
{
    let (changes, rest) = changes_of(alloc, bytes)?;
    if !rest.is_empty() {
        return Err(EntryFault::BadEntry);
    }
    Ok(LoadedPart {
        sessions,
        versions: changes.standing,
        undone: changes.undone,
    })
}

/// The live part that the bytes are, or why there is none.
#[tactic(auto, unfolding(crate::specs::LiveReading::whole_in))]
fn part_of(alloc: Global, bytes: &[u8]) -> Result<LoadedPart, EntryFault>
    ensures opened { Gives opened_part result (live_in bytes.now) }
    ensures undone { Gives (λ part. part.undone) result (undone_in bytes.now) }
{
    let (sessions, rest) = sessions_of(alloc, bytes)?;
    part_with(alloc, sessions, rest)
}

/// The live part that the bytes are, all of them, or `None` where they are none: at most 64 sessions by rising label, from 1 to
/// 99, each with its open tables and its transaction of at most 7 levels; and the held changes by rising number, from 1, each at a
/// level from 1 to 7, with a row before of at most 1,700 bytes or none. Whether the tables, the columns and the numbers are those
/// of the image is not asked here. It takes no more memory than in proportion to the bytes.
pub fn read(alloc: Global, bytes: &[u8]) -> Result<Option<LoadedPart>, OutOfMemory>
    ensures opened { IfOk result (λ part. option_map opened_part part ≡ live_in bytes.now) }
    ensures undone { IfOk result (λ part. option_map (λ p. p.undone) part ≡ undone_in bytes.now) }
{
    match part_of(alloc, bytes) {
        Ok(part) => Ok(Some(part)),
        Err(EntryFault::BadEntry) => Ok(None),
        Err(EntryFault::OutOfMemory) => Err(OutOfMemory),
    }
}
