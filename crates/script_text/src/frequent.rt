//! The lines that a script has for each record, by the words that they begin with.

ghost use Rattle.std.specs.Prelude.{◌≡◌, ◌∷◌, List, ℕ, IfSome};
ghost use Rattle.std.specs.Option.{option_copied};
ghost use Rattle.script_words.specs.Words.{parts_left, words_of};
ghost use Rattle.script_text.specs.Calls as calls;
ghost use Rattle.script_text.specs.CallNames.{cursor_reading, said_by};
ghost use Rattle.script_text.specs.Grammar.{line_request};

use crate::call_names::CursorCall;
use crate::leading::{behind_word, leading_digit};
use script_transcript::call_lines::{MOVE, PREPARE_UPDATE, RETRIEVE_COLUMN, SET_COLUMN, UPDATE};

/// The words that a line begins with: a session, the name of a call and a cursor; and the text behind them, if there is any.
#[derive(Clone, Copy)]
pub struct Head<'a> {
    pub session: u32,
    pub call: CursorCall,
    pub cursor: u32,
    pub rest: Option<&'a [u8]>,
}

/// The call that a text begins with, if it is a frequent one of a cursor, and the text behind its name.
///
/// Each of these names is told from the others by its first byte.
#[inline(always)]
fn leading_call(text: &[u8]) -> Option<(CursorCall, &[u8])>
    ensures { IfSome result (λ found. (name : List ℕ) × (words_of text.now ≡ name ∷ words_of found.1.now)
        × ((words : List (List ℕ)) → calls.named_call name words ≡ calls.cursor_call (cursor_reading found.0) words)) }
{
    match text {
        [b'S', ..] => {
            let rest = behind_word(text, SET_COLUMN.name)?;
            Some((CursorCall::SetColumn, rest))
        }
        [b'M', ..] => {
            let rest = behind_word(text, MOVE.name)?;
            Some((CursorCall::Move, rest))
        }
        [b'R', ..] => {
            let rest = behind_word(text, RETRIEVE_COLUMN.name)?;
            Some((CursorCall::RetrieveColumn, rest))
        }
        [b'P', ..] => {
            let rest = behind_word(text, PREPARE_UPDATE.name)?;
            Some((CursorCall::PrepareUpdate, rest))
        }
        [b'U', ..] => {
            let rest = behind_word(text, UPDATE.name)?;
            Some((CursorCall::Update, rest))
        }
        _ => None,
    }
}

/// The words that a line begins with, where its labels are of one digit and its call is a frequent one.
#[inline(always)]
pub fn frequent_head(line: &[u8]) -> Option<Head<'_>>
    ensures { IfSome result (λ head. line_request line.now
        ≡ said_by head.session (cursor_reading head.call (record { 0 = head.cursor }) (parts_left 32 (option_copied head.rest)))) }
{
    let (session, rest) = leading_digit(line)?;
    let (call, rest) = leading_call(rest?)?;
    let (cursor, rest) = leading_digit(rest)?;
    Some(Head {
        session: u32::from(session - b'0'),
        call,
        cursor: u32::from(cursor - b'0'),
        rest,
    })
}
