//! A line of the grammar, whatever stands before it.

ghost use Rattle.std.specs.Prelude.{◌≡◌};
ghost use Rattle.std.specs.Option.{option_copied};
ghost use Rattle.script_words.specs.Words.{parts_left};
ghost use Rattle.script_words.specs.Reading.{Reads};
ghost use Rattle.script_text.specs.CallNames.{cursor_reading, said_by};
ghost use Rattle.script_text.specs.Grammar.{line_request};
ghost use Rattle.script_text.specs.Kept.{calls_with_line};

use crate::frequent::{Head, frequent_head};
use crate::frequent_calls::{bare_call, call_behind};
use crate::grammar::named_call;
use crate::kept::Calls;
use jet_base::{CursorId, Session};
use script_words::arity::first_word;
use script_words::numbers::label;
use script_words::{Parts, Refusal};
use std::alloc::Global;

/// Puts the call of a line behind the others, where the line is in the grammar.
///
/// A line is the label of a session, the name of a call, and the words of that call. The lines that a script has for each
/// record are read without a search for the ends of these words.
#[tactic(auto, using(crate::proofs::Lines::steps))]
pub fn keep_line(alloc: Global, line: &[u8], kept: &mut Calls) -> Result<(), Refusal>
    ensures { Reads (λ _. kept.new) result (calls_with_line kept.old (line_request line.now)) }
{
    if kept.repeat(line) {
        return Ok(());
    }
    keep_new_line(alloc, line, kept)?;
    kept.remember(line);
    Ok(())
}

/// The same of a line that was not read before.
#[inline(always)]
fn keep_new_line(alloc: Global, line: &[u8], kept: &mut Calls) -> Result<(), Refusal>
    ensures { Reads (λ _. kept.new) result (calls_with_line kept.old (line_request line.now)) }
{
    match frequent_head(line) {
        Some(head) => keep_headed(alloc, &head, kept),
        None => keep_any_line(alloc, line, kept),
    }
}

/// The same of a line that begins with a head.
#[tactic(auto, using(crate::proofs::Lines::steps))]
#[inline(always)]
fn keep_headed(alloc: Global, head: &Head<'_>, kept: &mut Calls) -> Result<(), Refusal>
    ensures { Reads (λ _. kept.new) result (calls_with_line kept.old (said_by head.now.session (cursor_reading head.now.call (record { 0 = head.now.cursor }) (parts_left 32 (option_copied head.now.rest))))) }
{
    kept.begin_line(Session(head.session));
    let cursor = CursorId(head.cursor);
    match head.rest {
        Some(text) => call_behind(alloc, head.call, cursor, text, kept),
        None => bare_call(alloc, head.call, cursor, kept),
    }
}

/// The same, word by word.
#[tactic(auto, using(crate::proofs::Lines::steps))]
fn keep_any_line(alloc: Global, line: &[u8], kept: &mut Calls) -> Result<(), Refusal>
    ensures { Reads (λ _. kept.new) result (calls_with_line kept.old (line_request line.now)) }
{
    let mut words = Parts::of(line, b' ');
    let session = first_word(&mut words)?;
    let name = first_word(&mut words)?;
    kept.begin_line(Session(label(session)?));
    named_call(alloc, name, &mut words, kept)
}
