//! What a session takes as it begins.

ghost use Rattle.std.specs.Prelude.{◌≡◌, [], IfOk};

use crate::open_cursor::OpenCursor;
use crate::reply_buffer::ReplyBuffer;
use crate::temps::Temps;
use jet_base::OutOfMemory;
use std::alloc::Global;
use std::marker::Model;

/// How many cursors a session may have open.
pub const MOST_CURSORS: usize = 16;

/// The memory that a session takes as it begins: its reply buffer, with room for 1,048,576 bytes, and room for its cursors and
/// temporary tables.
/// Contracts see the bytes of the reply buffer.
#[derive(Debug, Drop)]
pub struct Buffers {
    pub(crate) cursors: Vec<OpenCursor>,
    pub(crate) temps: Temps,
    pub(crate) reply: ReplyBuffer,
}

impl Model for Buffers {
    ghost use Rattle.std.specs.Prelude.{List, ℕ};

    ghost Value = { List ℕ };

    ghost use Rattle.session_local.specs.Holding.{AreTaken};

    ghost view = { λ a. a.reply };

    ghost invariant = { AreTaken };
}

impl Buffers {
    /// Takes the memory. The reply buffer is empty.
    pub fn take(alloc: Global) -> Result<Buffers, OutOfMemory>
        ensures { IfOk result (λ taken. taken ≡ []) }
    {
        let cursors = Vec::with_capacity(alloc, MOST_CURSORS)?;
        let temps = Temps::take(alloc)?;
        let reply = ReplyBuffer::take(alloc)?;
        Ok(Buffers {
            cursors,
            temps,
            reply,
        })
    }
}
