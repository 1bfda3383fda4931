//! Values that are read into the reply buffer where they lie.

ghost use Rattle.std.specs.Prelude.{List, ℕ, ◌≡◌, ◌≤◌, IfSome, IsTrue, length, min, Option};
ghost use Rattle.session_local.specs.Answer.{answered_by};
ghost use Rattle.session_local.specs.Showing.{IsRead, names_within, value_answered};

use crate::reply::{Reply, Value};
use jet_base::Jet;

/// A value that is read where it lies, in parts or in one.
pub trait RetrievedValue {
    /// Its bytes, where there is such a value.
    ghost bytes: { Self → Option (List ℕ) };

    /// Reads its first bytes, as many as there is room for: how many were read, and how many it has. What is behind them in the
    /// slice stays. None where there is no such value.
    fn read(&self, into: &mut [u8]) -> Option<(usize, usize)>
        ensures { IsRead (bytes self.now) result into.old into.new };
}

/// Reads the first bytes of a value, up to the most that was asked for, to the front of a buffer that is long enough.
pub(crate) fn show_front<V: RetrievedValue>(buffer: &mut [u8], value: &V, most: usize) -> Reply
    requires long { min most 1048576 ≤ length buffer.old }
    requires short { IfSome (V.bytes value.now) (λ bytes. length bytes ≤ 1048576) }
    ensures answer { answered_by result buffer.new ≡ value_answered most (V.bytes value.now) }
    ensures named { IsTrue (names_within result.value (length buffer.new)) }
{
    let room = most.min(buffer.len());
    let (front, _) = buffer.split_at_mut(room);
    match value.read(front) {
        Some((count, whole)) => Reply {
            jet: if most < whole {
                Jet::BufferTruncated
            } else {
                Jet::Success
            },
            value: Value::Bytes(count, whole as u64),
        },
        None => Reply {
            jet: Jet::ColumnNull,
            value: Value::Nothing,
        },
    }
}
