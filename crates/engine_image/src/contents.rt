//! The live part of an image, as it is read.

ghost use Rattle.std.specs.Prelude.{◌≡◌, [], IfOk};
ghost use Rattle.live_part.specs.LiveReading.{whole_in};
ghost use Rattle.engine_image.specs.OpenedImages.{IsReadLive};

use crate::bytes::items_are_bytes;
use jet_base::OutOfMemory;
use live_part::{LoadedPart, live_parts_are_read_back, read};
use std::alloc::Global;
use version_cleanup::Sessions;
use version_store::Versions;

/// A live part, or none in its place where the bytes have not the form of one.
#[derive(Drop)]
pub(crate) struct ReadLive {
    pub(crate) part: LoadedPart,
    pub(crate) is_formed: bool,
}

impl ReadLive {
    /// The held changes that are not undone.
    pub(crate) fn versions(&self) -> &Versions
        ensures { result.now ≡ self.now.part.versions }
    {
        &self.part.versions
    }
}

/// No session and no change.
fn nothing(alloc: Global) -> LoadedPart
    ensures { result.versions ≡ [] }
{
    LoadedPart {
        sessions: Sessions::new(alloc),
        versions: Versions::new(alloc),
        undone: Versions::new(alloc),
    }
}

/// The live part that the bytes are. That they are none is found only once it is asked whether it is sound.
#[tactic(none)]
pub(crate) fn read_live(alloc: Global, bytes: &[u8]) -> Result<ReadLive, OutOfMemory>
    ensures { IfOk result (IsReadLive (whole_in bytes.now)) }
{
    live_parts_are_read_back();
    items_are_bytes(bytes);
    match read(alloc, bytes) {
        Ok(Some(part)) => Ok(ReadLive {
            part,
            is_formed: true,
        }),
        Ok(None) => Ok(ReadLive {
            part: nothing(alloc),
            is_formed: false,
        }),
        Err(fault) => Err(fault),
    }
}
