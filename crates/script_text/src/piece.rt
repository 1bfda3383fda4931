//! A piece of a script's calls.

ghost use Rattle.std.specs.Prelude.{◌≡◌, ◌<◌, All, get_or, length};
ghost use Rattle.script_text.specs.Pieces.{calls_at};

use jet_base::Session;
use session_local::Request;
use std::marker::Model;

/// The calls of lines that stand together, in the order of the lines, each with the session that makes it.
///
/// A call that several lines make may stand once.
#[derive(Drop)]
pub struct CallPiece {
    calls: Vec<(Session, Request)>,
    /// Of each line, the place of its call.
    order: Vec<u32>,
}

impl Model for CallPiece {
    ghost use Rattle.std.specs.Prelude.{List};
    ghost use Rattle.jet_base.specs.declared.ids.Session.{Session};
    ghost use Rattle.session_local.specs.declared.request.Request.{Request};

    ghost Value = { List (Session × Request) };

    ghost use Rattle.script_text.specs.Pieces.{calls_at, HasItsCalls};

    ghost view = { λ inside. calls_at inside.calls.items inside.order.items };

    ghost invariant = { HasItsCalls };
}

impl CallPiece {
    /// The lines whose calls stand at these places.
    pub(crate) fn new(calls: Vec<(Session, Request)>, order: Vec<u32>) -> CallPiece
        requires { All (λ place. place < length calls.items) order.items }
        ensures { result ≡ calls_at calls.items order.items }
    {
        CallPiece { calls, order }
    }

    /// How many lines there are.
    pub fn len(&self) -> usize
        ensures { result ≡ length self.now }
    {
        self.order.len()
    }

    /// The call of the line at an index, and the session that makes it.
    #[inline(always)]
    pub fn call(&self, index: usize) -> &(Session, Request)
        requires { index < length self.now }
        ensures { result.now ≡ get_or self.now index result.now }
    {
        &self.calls[self.order[index] as usize]
    }
}
