//! The reading of a script.

ghost use Rattle.std.specs.Prelude.{◌≡◌, ◌<◌, ◌+◌, ◌^◌, true, ℕ, List, length, MatchResult, IfOk, Ok, Err};
ghost use Rattle.std.specs.Io.KnownBytes.{prepend_known};
ghost use Rattle.script_text.specs.Built.{are_built};
ghost use Rattle.script_text.specs.Parsed.{calls_of};
ghost use Rattle.esentutl.specs.Reading.{ReadsAs, FinishesAs};

use crate::unparsed::Unparsed;
use jet_io::Source;
use script_text::{ScriptCalls, ScriptFault, ScriptParser, a_call_of_the_grammar_is_answered};
use std::alloc::{AllocError, Global};
use thiserror::Error;

/// The most bytes of a script.
const SCRIPT_LIMIT: usize = 16_777_216;

/// Why a script is not run.
#[derive(Clone, Copy, Debug, PartialEq, Eq, Error)]
pub enum ReadScriptFault {
    /// The source failed.
    #[error("source")]
    Source,
    /// It has more than 16,777,216 bytes.
    #[error("script too long")]
    TooLong,
    /// The first line that is outside the grammar, counted from 1.
    #[error("script line {0}")]
    BadLine(u64),
    /// There was no memory for the script.
    #[error("out of memory")]
    Memory,
}

impl From<AllocError> for ReadScriptFault {
    ghost use Rattle.esentutl.specs.declared.reading.ReadScriptFault.TheVariants as fault;

    ghost from_gives = { λ _ e. e ≡ fault.Memory };

    fn from(_: AllocError) -> ReadScriptFault {
        ReadScriptFault::Memory
    }
}

/// Reads a script to its end, and its calls from it.
///
/// Its text is parsed as it comes, and only the begin of a line is kept of it. It is read to its end, or to one byte above the
/// limit, also behind a line that is outside the grammar, so that a source that fails and a script that is too long are told
/// before such a line.
pub fn read_script<S: Source>(alloc: Global, script: &mut S) -> Result<ScriptCalls, ReadScriptFault>
    ensures script { (text : List ℕ) × (S.left script.old ≡ prepend_known text (S.left script.new))
        × MatchResult result
        (λ calls. ReadsAs (record { left_before = S.left script.old; left_after = S.left script.new; faults_before = S.faults script.old; faults_after = S.faults script.new }) text (Ok calls))
        (λ e. ReadsAs (record { left_before = S.left script.old; left_after = S.left script.new; faults_before = S.faults script.old; faults_after = S.faults script.new }) text (Err e)) }
    // Each call is one that the engine answers, whatever stands before it.
    ensures built { IfOk result (λ calls. are_built (calls_of calls) ≡ true) }
{
    a_call_of_the_grammar_is_answered();
    let mut parser = ScriptParser::new(alloc)?;
    let mut unparsed = Unparsed::new(alloc);
    let mut taken = 0;
    while taken <= SCRIPT_LIMIT {
        match unparsed.read(script, SCRIPT_LIMIT + 1 - taken) {
            Ok(0) => return finish(parser, unparsed.as_slice()),
            Ok(count) => {
                taken += count;
                unparsed.parse_lines(&mut parser, count)?;
            }
            Err(fault) => return Err(fault),
        }
    }
    Err(ReadScriptFault::TooLong)
}

/// Parses the rest of a script.
fn finish(parser: ScriptParser, rest: &[u8]) -> Result<ScriptCalls, ReadScriptFault>
    requires { parser.number + length rest.now + 1 < 2 ^ 64 }
    ensures { FinishesAs parser rest.now result }
{
    match parser.finish(rest) {
        Ok(calls) => Ok(calls),
        Err(ScriptFault::BadLine(line)) => Err(ReadScriptFault::BadLine(line)),
        Err(ScriptFault::OutOfMemory) => Err(ReadScriptFault::Memory),
    }
}
