//! A script whose text comes in pieces.

ghost use Rattle.std.specs.Prelude.{◌≡◌, ◌≤◌, ◌<◌, ◌+◌, ◌^◌, ◌++◌, ◌∷◌, ℕ, List, length, Ok, Err, IfOk, OnOk};
ghost use Rattle.script_text.specs.Grammar.{script_lines};
ghost use Rattle.script_text.specs.Parsed.{calls_of};
ghost use Rattle.script_text.specs.Parser.{result_with};

use crate::grammar::is_skipped;
use crate::kept::Calls;
use crate::line::keep_line;
use crate::script::ScriptFault;
use crate::script_calls::ScriptCalls;
use script_words::{Parts, Refusal};
use std::alloc::{AllocError, Global};
use std::marker::Model;

/// The parser of a script whose text comes in pieces, each of whole lines.
///
/// It keeps the calls of the lines, and none of their text. A line that is outside the grammar is told when the script ends.
#[derive(Drop)]
pub struct ScriptParser {
    alloc: Global,
    kept: Calls,
    /// How many lines were read.
    number: u64,
    /// The first of them that is outside the grammar. Those behind it are not read.
    bad_line: Option<u64>,
}

impl Model for ScriptParser {
    ghost use Rattle.script_text.specs.Parser.{LinesRead};

    ghost Value = { LinesRead };

    ghost view = { λ inside. record { calls = inside.kept.calls; number = inside.number; bad_line = inside.bad_line } };
}

impl ScriptParser {
    /// No line is read yet.
    pub fn new(alloc: Global) -> Result<ScriptParser, AllocError>
        ensures begin { IfOk result (λ parser. parser.number ≡ 0) }
        // What follows is the whole script.
        ensures whole { IfOk result (λ parser. (text : List ℕ) → result_with parser text ≡ script_lines text) }
    {
        let kept = Calls::new(alloc)?;
        Ok(ScriptParser {
            alloc,
            kept,
            number: 0,
            bad_line: None,
        })
    }

    /// Reads the next lines of the script. The byte 0A that ends the last of them is left out.
    pub fn feed(&mut self, text: &[u8]) -> Result<(), AllocError>
        requires { self.old.number + length text.now + 1 < 2 ^ 64 }
        ensures number { OnOk result (self.new.number ≤ self.old.number + length text.now + 1) }
        ensures read { OnOk result ((rest : List ℕ) → result_with self.new rest ≡ result_with self.old (text.now ++ 10 ∷ rest)) }
    {
        if self.bad_line.is_some() {
            return Ok(());
        }
        let mut lines = Parts::of(text, b'\n');
        while let Some(line) = lines.next() {
            self.number += 1;
            if is_skipped(line) {
                continue;
            }
            match keep_line(self.alloc, line, &mut self.kept) {
                Ok(()) => {}
                Err(Refusal::Bad) => {
                    self.bad_line = Some(self.number);
                    return Ok(());
                }
                Err(Refusal::Memory) => return Err(AllocError),
            }
        }
        Ok(())
    }

    /// Reads the rest of the script, and answers its calls in order, each with the session that makes it.
    ///
    /// The fault `BadLine` comes only where some line of the script is outside the grammar, and names the first such line.
    pub fn finish(self, rest: &[u8]) -> Result<ScriptCalls, ScriptFault>
        requires { self.number + length rest.now + 1 < 2 ^ 64 }
        ensures read { IfOk result (λ calls. result_with self rest.now ≡ Ok (calls_of calls)) }
        ensures bad_line { (line : ℕ) → result ≡ Err (ScriptFault.BadLine line) → result_with self rest.now ≡ Err line }
    {
        let mut parser = self;
        parser.feed(rest)?;
        match parser.bad_line {
            Some(line) => Err(ScriptFault::BadLine(line)),
            None => Ok(parser.kept.into_calls()?),
        }
    }
}
