//! The live part of an engine.

ghost use Rattle.std.specs.Prelude.{◌≡◌, ◌≤◌, length, IfOk, OnOk};
ghost use Rattle.checkpoint.specs.declared.image.TheConstants.{MAX_LIVE_BYTES};
ghost use Rattle.live_part.specs.LiveBytes.{live_bytes, standing};
ghost use Rattle.live_part.specs.Written.{IsSpelled};

use checkpoint::MAX_LIVE_BYTES;
use jet_base::OutOfMemory;
use std::alloc::Global;
use version_cleanup::Sessions;
use version_store::Versions;

/// The bytes of the sessions and of the held changes that are not undone. More than [`MAX_LIVE_BYTES`] of them are refused as for want
/// of memory, as is what has no spelling.
pub(crate) fn written_live(
    alloc: Global,
    sessions: &Sessions,
    versions: &Versions,
) -> Result<Vec<u8>, OutOfMemory>
    ensures bytes { IfOk result (λ live. live.items ≡ live_bytes (record { sessions = sessions.now; held = standing versions.now })) }
    ensures spelled { OnOk result (IsSpelled (record { sessions = sessions.now; held = standing versions.now })) }
    ensures short { IfOk result (λ live. length live.items ≤ MAX_LIVE_BYTES) }
{
    let mut live = Vec::new(alloc);
    live_part::write(sessions, versions, &mut live)?;
    if live.len() > MAX_LIVE_BYTES as usize {
        return Err(OutOfMemory);
    }
    Ok(live)
}
