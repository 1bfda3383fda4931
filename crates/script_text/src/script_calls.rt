//! The calls of a script.

ghost use Rattle.std.specs.Prelude.{◌≡◌};
ghost use Rattle.script_text.specs.Pieces.{calls_in};

use crate::piece::CallPiece;
use std::marker::Model;

/// The calls of a script in the order of their lines, each with the session that makes it.
///
/// They stand in pieces, so that a piece can be freed when its calls have run, and its memory serves those that follow.
#[derive(Drop)]
pub struct ScriptCalls {
    pieces: Vec<CallPiece>,
}

impl Model for ScriptCalls {
    ghost use Rattle.std.specs.Prelude.{List};
    ghost use Rattle.jet_base.specs.declared.ids.Session.{Session};
    ghost use Rattle.session_local.specs.declared.request.Request.{Request};

    ghost Value = { List (Session × Request) };

    ghost use Rattle.script_text.specs.Pieces.{calls_in};

    ghost view = { λ inside. calls_in inside.pieces.items };
}

impl ScriptCalls {
    /// The calls of the pieces, one behind the other.
    pub(crate) fn of_pieces(pieces: Vec<CallPiece>) -> ScriptCalls
        ensures { result ≡ calls_in pieces.items }
    {
        ScriptCalls { pieces }
    }

    /// The pieces that they stand in, in their order.
    pub fn into_pieces(self) -> Vec<CallPiece>
        ensures { calls_in result.items ≡ self }
    {
        self.pieces
    }
}
