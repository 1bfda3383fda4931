//! The calls of the lines that are read so far.

ghost use Rattle.std.specs.Prelude.{◌≡◌, ◌++◌, [], false, Some, IfOk, IsFalse, IsTrue, OnOk};
ghost use Rattle.script_words.specs.Reading.{Reads};
ghost use Rattle.script_text.specs.Grammar.{line_request};
ghost use Rattle.script_text.specs.Kept.{KeptCalls, calls_with_line, kept_behind};
ghost use Rattle.script_text.specs.Pieces.{calls_in};

use crate::open_piece::OpenPiece;
use crate::piece::CallPiece;
use crate::script_calls::ScriptCalls;
use jet_base::Session;
use script_words::Refusal;
use session_local::Request;
use std::alloc::{AllocError, Global};
use std::marker::Model;
use std::mem;

/// The full pieces that there is room for at first. A list that grew between two pieces would leave small blocks there, and the
/// memory of the two would not become one when they are freed.
const PIECES_AT_FIRST: usize = 256;

/// Calls in the order of their lines, each with the session that makes it, and the session of the line that is being read.
#[derive(Drop)]
pub struct Calls {
    alloc: Global,
    session: Session,
    full: Vec<CallPiece>,
    last: OpenPiece,
}

impl Model for Calls {
    ghost use Rattle.script_text.specs.Kept.{KeptCalls};

    ghost Value = { KeptCalls };

    ghost use Rattle.script_text.specs.Kept.{kept_calls};

    ghost view = { kept_calls };
}

impl Calls {
    /// No calls, and the room for the first piece.
    pub fn new(alloc: Global) -> Result<Calls, AllocError>
        ensures { IfOk result (λ kept. kept.calls ≡ []) }
    {
        Ok(Calls {
            alloc,
            session: Session(1),
            full: Vec::with_capacity(alloc, PIECES_AT_FIRST)?,
            last: OpenPiece::new(alloc)?,
        })
    }

    /// The calls that are put in from now on are of the session.
    pub fn begin_line(&mut self, session: Session)
        ensures { self.new ≡ record self.old { session = session } }
    {
        self.session = session;
    }

    /// Puts the call of a line behind the others, where the same line was read not long before. Answers whether it was.
    #[inline(always)]
    pub fn repeat(&mut self, line: &[u8]) -> bool
        ensures found { IsTrue result → calls_with_line self.old (line_request line.now) ≡ Some self.new }
        ensures none { IsFalse result → self.new ≡ self.old }
    {
        match self.last.repeat(line) {
            Some(session) => {
                self.session = session;
                true
            }
            None => false,
        }
    }

    /// Remembers a line, whose call is the last.
    #[inline(always)]
    pub fn remember(&mut self, line: &[u8])
        requires { (before : KeptCalls) × (calls_with_line before (line_request line.now) ≡ Some self.old) }
        ensures { self.new ≡ self.old }
    {
        self.last.remember(line);
    }

    /// The calls.
    pub fn into_calls(self) -> Result<ScriptCalls, AllocError>
        ensures { IfOk result (λ calls. calls ≡ self.calls) }
    {
        let mut pieces = self.full;
        pieces.push(self.last.into_piece())?;
        Ok(ScriptCalls::of_pieces(pieces))
    }
}

/// Begins the next piece.
#[cold]
fn begin_piece(
    alloc: Global,
    full: &mut Vec<CallPiece>,
    last: &mut OpenPiece,
) -> Result<(), Refusal>
    ensures calls { Reads (λ _. calls_in full.new.items ++ last.new.calls) result (Some (calls_in full.old.items ++ last.old.calls)) }
    ensures room { OnOk result (last.new.is_full ≡ false) }
{
    let next = OpenPiece::new(alloc)?;
    full.push(mem::replace(last, next).into_piece())?;
    Ok(())
}

/// Makes room for one more call in the last piece.
#[inline(always)]
fn make_room(alloc: Global, full: &mut Vec<CallPiece>, last: &mut OpenPiece) -> Result<(), Refusal>
    ensures calls { Reads (λ _. calls_in full.new.items ++ last.new.calls) result (Some (calls_in full.old.items ++ last.old.calls)) }
    ensures room { OnOk result (last.new.is_full ≡ false) }
{
    if !last.is_full() {
        return Ok(());
    }
    begin_piece(alloc, full, last)
}

/// Puts a call of the line's session behind the others.
///
/// A call is moved once, from the place where it is made to its place in the list, where there is room for it.
#[inline(always)]
pub fn keep(kept: &mut Calls, request: Request) -> Result<(), Refusal>
    ensures { Reads (λ _. kept.new) result (kept_behind kept.old request) }
{
    make_room(kept.alloc, &mut kept.full, &mut kept.last)?;
    kept.last.push((kept.session, request));
    Ok(())
}
