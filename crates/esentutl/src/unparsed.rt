//! The bytes of a script between its source and its parser.

ghost use Rattle.std.specs.Prelude.{◌≡◌, ◌<◌, ◌≤◌, ◌+◌, ◌^◌, ◌++◌, ◌↔◌, ℕ, List, [], take, drop, length, IfOk, OnOk, OnErr, IfSome};
ghost use Rattle.std.specs.Io.KnownBytes.{prepend_known};
ghost use Rattle.script_text.specs.Parser.{result_with};
ghost use Rattle.jet_io.specs.Faults.{CountsFault};
ghost use Rattle.esentutl.specs.Reading.{CountsPiece};

use crate::reading::ReadScriptFault;
use jet_io::{Failed, Source};
use memchr::memrchr;
use script_text::ScriptParser;
use std::alloc::{AllocError, Global};
use std::marker::Model;

/// The room that is made for the next bytes where there is none.
const ROOM: usize = 65_536;

/// The bytes of a script that were read and are not parsed yet.
///
/// Once its whole lines are parsed they are the begin of a line, so that the room grows only for a line that is longer.
#[derive(Drop)]
pub struct Unparsed {
    buffer: Vec<u8>,
    /// How many bytes of the buffer were read. What stands behind them means nothing.
    len: usize,
}

impl Model for Unparsed {
    ghost use Rattle.std.specs.Prelude.{ℕ, List, ◌≤◌, length, take};

    ghost Value = { List ℕ };

    ghost view = { λ inside. take inside.len inside.buffer.items };

    ghost invariant = { λ inside. inside.len ≤ length inside.buffer.items };
}

impl Unparsed {
    /// No bytes.
    pub fn new(alloc: Global) -> Unparsed
        ensures { result ≡ [] }
    {
        Unparsed {
            buffer: Vec::new(alloc),
            len: 0,
        }
    }

    /// The bytes.
    pub fn as_slice(&self) -> &[u8]
        ensures { result.now ≡ self.now }
    {
        &self.buffer[..self.len]
    }

    /// Reads once, at most so many bytes, and answers how many came. None comes where the source has none left.
    pub fn read<S: Source>(&mut self, script: &mut S, most: usize) -> Result<usize, ReadScriptFault>
        requires some { 0 < most }
        requires fits { length self.old + most < 2 ^ 64 }
        ensures most { IfOk result (λ n. n ≤ most) }
        ensures bytes { IfOk result (λ n. (piece : List ℕ) × (length piece ≡ n) × (self.new ≡ self.old ++ piece) × (S.left script.old ≡ prepend_known piece (S.left script.new))) }
        ensures ends { IfOk result (λ n. IfSome (S.left script.old) (λ left. (n ≡ 0) ↔ (left ≡ []))) }
        ensures kept { OnErr result (S.left script.new ≡ S.left script.old) }
        ensures faults { CountsPiece result (S.faults script.old) (S.faults script.new) }
    {
        match make_room(&mut self.buffer, self.len, most) {
            Ok(()) => match read_behind(script, &mut self.buffer, self.len) {
                Ok(count) => {
                    self.len += count;
                    Ok(count)
                }
                Err(Failed) => Err(ReadScriptFault::Source),
            },
            Err(AllocError) => Err(ReadScriptFault::Memory),
        }
    }

    /// Drops the first bytes.
    fn consume(&mut self, amount: usize)
        requires { amount ≤ length self.old }
        ensures { self.new ≡ drop amount self.old }
    {
        let len = self.len;
        self.buffer.copy_within(amount..len, 0);
        self.len = len - amount;
    }

    /// Parses the whole lines, where the last `count` bytes are those that were read last, and drops them. No line ends
    /// before those bytes, so the whole is gone over once, however long a line is.
    pub fn parse_lines(&mut self, parser: &mut ScriptParser, count: usize) -> Result<(), AllocError>
        requires came { count ≤ length self.old }
        requires number { parser.old.number + length self.old < 2 ^ 64 }
        ensures number { OnOk result (parser.new.number + length self.new ≤ parser.old.number + length self.old) }
        ensures read { OnOk result ((rest : List ℕ) → result_with parser.new (self.new ++ rest) ≡ result_with parser.old (self.old ++ rest)) }
    {
        let bytes = self.as_slice();
        let first = bytes.len() - count;
        match memrchr(b'\n', &bytes[first..]) {
            Some(place) => {
                let end = first + place;
                parser.feed(&bytes[..end])?;
                self.consume(end + 1);
                Ok(())
            }
            None => Ok(()),
        }
    }
}

/// Makes room behind the first `len` bytes, for one byte and at most so many.
fn make_room(buffer: &mut Vec<u8>, len: usize, most: usize) -> Result<(), AllocError>
    requires within { len ≤ length buffer.old.items }
    requires some { 0 < most }
    requires fits { len + most < 2 ^ 64 }
    ensures front { OnOk result (take len buffer.new.items ≡ take len buffer.old.items) }
    ensures room { OnOk result (len < length buffer.new.items) }
    ensures most { OnOk result (length buffer.new.items ≤ len + most) }
    ensures kept { OnErr result (buffer.new.items ≡ buffer.old.items) }
{
    let room = buffer.len() - len;
    if 0 < room && room <= most {
        return Ok(());
    }
    buffer.resize(len + most.min(ROOM), 0)
}

/// Reads once, into the bytes behind the first `len`.
fn read_behind<S: Source>(script: &mut S, buffer: &mut [u8], len: usize) -> Result<usize, Failed>
    requires { len < length buffer.old }
    ensures within { IfOk result (λ n. len + n ≤ length buffer.old) }
    ensures bytes { IfOk result (λ n. S.left script.old ≡ prepend_known (take n (drop len buffer.new)) (S.left script.new)) }
    ensures ends { IfOk result (λ n. IfSome (S.left script.old) (λ left. (n ≡ 0) ↔ (left ≡ []))) }
    ensures front { take len buffer.new ≡ take len buffer.old }
    ensures kept { OnErr result (S.left script.new ≡ S.left script.old) }
    ensures faults { CountsFault result (S.faults script.old) (S.faults script.new) }
{
    script.read(&mut buffer[len..])
}
