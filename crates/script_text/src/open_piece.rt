//! The piece of a script's calls that grows.

ghost use Rattle.std.specs.Prelude.{◌≡◌, false, [], ◌∷◌, ◌++◌, Some, IfNone, IfOk, IfSome};
ghost use Rattle.jet_base.specs.declared.ids.Session.{Session};
ghost use Rattle.session_local.specs.declared.request.Request.{Request};
ghost use Rattle.script_text.specs.Grammar.{line_request};
ghost use Rattle.script_text.specs.Parsed.{call_of};
ghost use Rattle.script_text.specs.Pieces.{IsOfLast};

use crate::piece::CallPiece;
use crate::recent::RecentLines;
use jet_base::Session;
use session_local::Request;
use std::alloc::{AllocError, Global};
use std::marker::Model;

/// How many calls a piece has room for, in 80 KiB. A block of 128 KiB and more is mapped by itself and unmapped when it is
/// freed; the memory of a smaller one serves what comes later.
const CALLS: usize = 1024;

/// How many lines a piece has room for, in 16 KiB.
const LINES: usize = 4096;

/// A piece that grows, with room for all that it may hold. A line that was read in it not long before has the same call again.
#[derive(Drop)]
pub struct OpenPiece {
    calls: Vec<(Session, Request)>,
    /// Of each line, the place of its call.
    order: Vec<u32>,
    recent: RecentLines,
}

impl Model for OpenPiece {
    ghost use Rattle.script_text.specs.Pieces.{OpenCalls, open_calls, IsOpen};

    ghost Value = { OpenCalls };

    ghost view = { open_calls };

    ghost invariant = { IsOpen };
}

impl OpenPiece {
    /// A piece without a line.
    pub fn new(alloc: Global) -> Result<OpenPiece, AllocError>
        ensures { IfOk result (λ made. made ≡ record { calls = []; is_full = false }) }
    {
        Ok(OpenPiece {
            calls: Vec::with_capacity(alloc, CALLS)?,
            order: Vec::with_capacity(alloc, LINES)?,
            recent: RecentLines::new(alloc)?,
        })
    }

    /// Whether it has no room for one more line.
    #[inline(always)]
    pub fn is_full(&self) -> bool
        ensures { result ≡ self.now.is_full }
    {
        !(self.calls.len() < CALLS && self.order.len() < LINES)
    }

    /// Puts a line with a call of its own behind the others.
    #[inline(always)]
    pub fn push(&mut self, call: (Session, Request))
        requires { self.old.is_full ≡ false }
        ensures { self.new.calls ≡ self.old.calls ++ call ∷ [] }
    {
        self.order.push_reserved(self.calls.len() as u32);
        self.calls.push_reserved(call);
    }

    /// Puts a line behind the others that is remembered, where there is room, and answers the session that makes its call.
    #[inline(always)]
    pub fn repeat(&mut self, line: &[u8]) -> Option<Session>
        ensures some { IfSome result (λ session. (request : Request) × (self.new.calls ≡ self.old.calls ++ (session, request) ∷ []) × (line_request line.now ≡ Some (session.0, request))) }
        ensures none { IfNone result (self.new ≡ self.old) }
    {
        if self.is_full() {
            return None;
        }
        let place = self.recent.place(line)?;
        self.order.push_reserved(place);
        Some(self.calls[place as usize].0)
    }

    /// Remembers the line whose call is the last.
    #[inline(always)]
    pub fn remember(&mut self, line: &[u8])
        requires { IsOfLast line.now self.old.calls }
        ensures { self.new ≡ self.old }
    {
        if let Some(place) = self.order.last() {
            self.recent.remember(line, *place);
        }
    }

    /// The piece, which grows no more.
    pub fn into_piece(self) -> CallPiece
        ensures { result ≡ self.calls }
    {
        CallPiece::new(self.calls, self.order)
    }
}
