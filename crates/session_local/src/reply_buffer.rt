//! The buffer that replies show bytes in.

ghost use Rattle.std.specs.Prelude.{◌≡◌, ◌≤◌, ◌+◌, ◌-◌, ◌++◌, [], IfOk, IfSome, IsTrue, drop, length, replicate, vec_capacity, vec_len};
ghost use Rattle.session_local.specs.Answer.{Bytes, answered_by, shown_by};
ghost use Rattle.session_local.specs.declared.reply.Value.TheVariants as value;
ghost use Rattle.session_local.specs.Showing.{names_within, value_answered};

use crate::reply::{Reply, Value};
use crate::retrieved_value::{RetrievedValue, show_front};
use jet_base::OutOfMemory;
use std::alloc::Global;
use std::marker::Model;

/// How many bytes the buffer has room for: as many as the largest value.
const ROOM: usize = 1_048_576;

/// A buffer with room for the bytes of every reply. It has as many bytes as the replies so far may have shown, and no more
/// of its room was written.
///
/// Contracts see its bytes.
#[derive(Debug, Drop)]
pub(crate) struct ReplyBuffer {
    bytes: Vec<u8>,
}

impl Model for ReplyBuffer {
    ghost use Rattle.std.specs.Prelude.{List, ℕ};

    ghost Value = { List ℕ };

    ghost use Rattle.session_local.specs.Holding.{HasItsRoom};

    ghost view = { λ a. a.bytes.items };

    ghost invariant = { HasItsRoom };
}

impl ReplyBuffer {
    /// An empty buffer, with its room.
    pub(crate) fn take(alloc: Global) -> Result<ReplyBuffer, OutOfMemory>
        ensures { IfOk result (λ taken. taken ≡ []) }
    {
        let bytes = Vec::with_capacity(alloc, ROOM)?;
        Ok(ReplyBuffer { bytes })
    }

    /// Its bytes.
    pub(crate) fn as_bytes(&self) -> &[u8]
        ensures bytes { result.now ≡ self.now }
        ensures short { length self.now ≤ 1048576 }
    {
        self.bytes.as_slice()
    }

    /// Writes these bytes to the front: the value that shows them, as a front of one of so many.
    pub(crate) fn show(&mut self, front: &[u8], whole: u64) -> Value
        requires { length front.now ≤ 1048576 }
        ensures shown { shown_by result self.new ≡ Bytes front.now whole }
        ensures named { IsTrue (names_within result (length self.new)) }
        ensures value { result ≡ value.Bytes (length front.now) whole }
    {
        lengthen(&mut self.bytes, front.len());
        write_front(&mut self.bytes, front);
        Value::Bytes(front.len(), whole)
    }

    /// Reads the first bytes of a value, up to the most that was asked for, to the front.
    pub(crate) fn show_value<V: RetrievedValue>(&mut self, value: &V, most: u32) -> Reply
        requires { IfSome (V.bytes value.now) (λ bytes. length bytes ≤ 1048576) }
        ensures shown { answered_by result self.new ≡ value_answered most (V.bytes value.now) }
        ensures named { IsTrue (names_within result.value (length self.new)) }
    {
        let most = most as usize;
        lengthen(&mut self.bytes, most.min(ROOM));
        show_front(&mut self.bytes, value, most)
    }
}

// Makes the bytes so many, unless they are more, within their room: zeros come behind them.
#[inline]
fn lengthen(bytes: &mut Vec<u8>, count: usize)
    requires { count ≤ vec_capacity bytes.old }
    ensures items { bytes.new.items ≡ bytes.old.items ++ replicate (count - vec_len bytes.old) 0 }
    ensures len { vec_len bytes.new ≡ vec_len bytes.old + (count - vec_len bytes.old) }
    ensures capacity { vec_capacity bytes.old ≤ vec_capacity bytes.new }
{
    if bytes.len() < count {
        match bytes.resize(count, 0) {
            Ok(()) => {}
            Err(_) => unreachable!(),
        }
    }
}

// Writes the piece over the first bytes.
fn write_front(bytes: &mut [u8], piece: &[u8])
    requires { length piece.now ≤ length bytes.old }
    ensures { bytes.new ≡ piece.now ++ drop (length piece.now) bytes.old }
{
    let (front, _) = bytes.split_at_mut(piece.len());
    front.copy_from_slice(piece);
}
