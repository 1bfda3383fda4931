//! The second and the last part of writing a checkpoint: the gate of its file is closed, and opened.

ghost use Rattle.std.specs.Prelude.{◌≡◌, ◌≢◌, ◌⊎◌, ℕ, ◌+◌, ◌<◌, ◌≤◌, List, ◌∷◌, length, OnOk};
ghost use Rattle.jet_io.specs.Faults.{CountsFault};
ghost use Rattle.jet_volume.specs.Image.{SameBut, file_bytes};
ghost use Rattle.jet_volume.specs.Crash.{CrashLeaves};
ghost use Rattle.checkpoint.specs.Steps.{ClosesGate, EachFollows, IsShut, OpensGate};

use jet_io::Failed;
use jet_volume::{File, Volume};

/// The gate of a file that counts.
pub const OPEN: u8 = 1;

/// The gate of a file that is being written.
const CLOSED: u8 = 0;

/// Closes the gate of a file that is to be written: it reads as 1, or is not in the file yet.
///
/// The file is synced first, so that from there on a crash leaves of it what a read gives.
pub fn close_gate<V: Volume>(volume: &mut V, file: File) -> Result<(), Failed>
    ensures closed { OnOk result (V.tells_contents → IsShut (file_bytes file (V.seen volume.new))) }
    ensures durable { OnOk result (CrashLeaves V.moment V.left_at volume.new (λ image. file_bytes file image ≡ file_bytes file (V.seen volume.new))) }
    ensures seen { V.tells_contents → SameBut file (V.seen volume.old) (V.seen volume.new) }
    ensures each { V.tells_contents → EachFollows V.moment V.left_at (ClosesGate file) volume.old volume.new }
    ensures faults { CountsFault result (V.faults volume.old) (V.faults volume.new) }
    ensures identity { V.identity volume.new ≡ V.identity volume.old }
{
    volume.sync(file)?;
    let mut gate = [CLOSED];
    let count = volume.read(file, 0, &mut gate)?;
    if count == 1 && gate[0] != OPEN {
        return Ok(());
    }
    volume.write_at(file, 0, &[CLOSED])?;
    volume.sync(file)
}

/// Opens the gate of a file that is written.
pub fn open_gate<V: Volume>(volume: &mut V, file: File) -> Result<(), Failed>
    ensures opened { OnOk result (V.tells_contents → (gate : ℕ) (behind : List ℕ) → file_bytes file (V.seen volume.old) ≡ gate ∷ behind → file_bytes file (V.seen volume.new) ≡ 1 ∷ behind) }
    ensures durable { OnOk result (CrashLeaves V.moment V.left_at volume.new (λ image. file_bytes file image ≡ file_bytes file (V.seen volume.new))) }
    ensures seen { V.tells_contents → SameBut file (V.seen volume.old) (V.seen volume.new) }
    ensures each { (gate : ℕ) (behind : List ℕ) → CrashLeaves V.moment V.left_at volume.old (λ image. file_bytes file image ≡ gate ∷ behind)
        → EachFollows V.moment V.left_at (OpensGate file behind) volume.old volume.new }
    ensures faults { CountsFault result (V.faults volume.old) (V.faults volume.new) }
    ensures identity { V.identity volume.new ≡ V.identity volume.old }
{
    volume.write_at(file, 0, &[OPEN])?;
    volume.sync(file)
}
