//! Whole pieces to a sink.

ghost use Rattle.std.specs.Prelude.{◌≡◌, ◌<◌, ℕ, length, take, OnOk, OnErr};
ghost use Rattle.std.specs.Io.KnownBytes.{append_known};
ghost use Rattle.jet_io.specs.Faults.{CountsFault};

use crate::failed::Failed;
use crate::sink::Sink;

/// Writes a whole piece.
pub fn write_all<K: Sink>(sink: &mut K, piece: &[u8]) -> Result<(), Failed>
    ensures ok { OnOk result (K.taken sink.new ≡ append_known (K.taken sink.old) piece.now) }

    // A failure leaves the sink with some front of the piece that is not all of it.
    ensures err { OnErr result ((n : ℕ) × (n < length piece.now) × (K.taken sink.new ≡ append_known (K.taken sink.old) (take n piece.now))) }
    ensures faults { CountsFault result (K.faults sink.old) (K.faults sink.new) }
{
    let mut written = 0;
    while written < piece.len() {
        written += sink.write(&piece[written..])?;
    }
    Ok(())
}
