//! Writing a live part.

ghost use Rattle.std.specs.Prelude.{◌≡◌, ◌++◌, OnOk, OnErr};
ghost use Rattle.live_part.specs.LiveBytes.{live_bytes, without_undone};
ghost use Rattle.live_part.specs.Written.{Extends, IsSpelled};

use crate::writing_changes::append_changes;
use crate::writing_sessions::append_sessions;
use jet_base::OutOfMemory;
use version_cleanup::Sessions;
use version_store::Versions;

/// Writes both parts behind the bytes of a buffer. Where memory fails, some of their bytes may stand there.
#[tactic(auto, using(crate::proofs::WriteLoops::extends_again))]
fn append_parts(
    sessions: &Sessions,
    versions: &Versions,
    into: &mut Vec<u8>,
) -> Result<(), OutOfMemory>
    ensures ok { OnOk result (into.new.items ≡ into.old.items ++ live_bytes (without_undone (record { sessions = sessions.now; held = versions.now }))) }
    ensures spelled { OnOk result (IsSpelled (without_undone (record { sessions = sessions.now; held = versions.now }))) }
    ensures err { OnErr result (Extends into.old.items into.new.items) }
{
    append_sessions(sessions, into)?;
    append_changes(versions, into)?;
    Ok(())
}

/// Writes the live part of an image behind the bytes of a buffer: the sessions, and the held changes that are not undone, each
/// number lowest byte first. Where memory fails the buffer keeps the bytes that it had.
///
/// More than 2^32 - 1 changes or open tables of a session, a change that no log entry can tell, and a row of 65,536 bytes or more
/// have no spelling. No engine holds them, and they are refused as for want of memory.
#[tactic(auto, using(crate::proofs::WriteLoops::cut_back))]
pub fn write(
    sessions: &Sessions,
    versions: &Versions,
    into: &mut Vec<u8>,
) -> Result<(), OutOfMemory>
    ensures ok { OnOk result (into.new.items ≡ into.old.items ++ live_bytes (without_undone (record { sessions = sessions.now; held = versions.now }))) }
    ensures spelled { OnOk result (IsSpelled (without_undone (record { sessions = sessions.now; held = versions.now }))) }
    ensures err { OnErr result (into.new.items ≡ into.old.items) }
{
    let len = into.len();
    match append_parts(sessions, versions, into) {
        Ok(()) => Ok(()),
        Err(error) => {
            into.truncate(len);
            Err(error)
        }
    }
}
