//! Reading the entry that bytes begin with, or that they are cut from.

ghost use Rattle.log_record.specs.EntryParsed.{Parses};

use crate::fault::EntryFault;
use crate::front::read_front;
use crate::is_cut;
use index_derive::Entry;
use std::alloc::Global;

/// What bytes hold.
#[derive(Drop)]
pub enum Parsed {
    /// They begin with the entry, which has so many bytes.
    Whole(Entry, usize),
    /// They are less than the whole of some entry.
    Cut,
}

/// The entry that the bytes begin with, or that they are less than the whole of one: any number of bytes may follow
/// an entry, and no byte at all is a front of each.
///
/// The call answers `BadEntry` where the bytes begin with no entry, and no bytes behind them would make one.
pub fn decode(alloc: Global, bytes: &[u8]) -> Result<Parsed, EntryFault>
    ensures { Parses bytes.now result }
{
    match read_front(alloc, bytes) {
        Ok((entry, size)) => Ok(Parsed::Whole(entry, size)),
        Err(EntryFault::OutOfMemory) => Err(EntryFault::OutOfMemory),
        Err(EntryFault::BadEntry) => {
            if is_cut(bytes) {
                Ok(Parsed::Cut)
            } else {
                Err(EntryFault::BadEntry)
            }
        }
    }
}
