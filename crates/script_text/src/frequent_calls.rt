//! The calls that a script has for each record, by the text behind their cursor.
//!
//! What stands there is compared with what it mostly is, so that the ends of its words need not be searched. The last word
//! of a line is what is left of it.

ghost use Rattle.std.specs.Prelude.{◌≡◌, [], Some, IfSome};
ghost use Rattle.jet_base.specs.declared.ids.CursorId.{CursorId};
ghost use Rattle.session_local.specs.declared.request.Request.TheVariants as call;
ghost use Rattle.script_words.specs.Reading.{Reads};
ghost use Rattle.script_words.specs.Words.{words_of};
ghost use Rattle.script_text.specs.CallNames.{cursor_reading};
ghost use Rattle.script_text.specs.Kept.{calls_with};
ghost use Rattle.script_text.specs.Calls as calls;
ghost use Rattle.script_text.specs.LastWords.{set_reading, retrieve_reading};

use crate::call_names::CursorCall;
use crate::calls::{move_to, prepare_update, retrieve_column, set_column};
use crate::grammar::call_of_cursor;
use crate::kept::{Calls, keep};
use crate::leading::{is_the_word, leading_digit, leading_word};
use jet_base::{CursorId, Prepare, Way};
use script_words::texts::{given, name};
use script_words::{Parts, Refusal};
use session_local::Request;
use std::alloc::Global;

/// The move that a text is, where it is a frequent one.
#[inline(always)]
fn frequent_way(text: &[u8]) -> Option<Way>
    ensures { IfSome result (λ way. (cursor : CursorId) → calls.move_call cursor (words_of text.now) ≡ Some (call.Move cursor way)) }
{
    if is_the_word(text, b"Next") {
        Some(Way::Next)
    } else if is_the_word(text, b"First") {
        Some(Way::First)
    } else {
        None
    }
}

/// What a text says that an update is prepared for, where that is frequent.
#[inline(always)]
fn frequent_preparation(text: &[u8]) -> Option<Prepare>
    ensures { IfSome result (λ how. (cursor : CursorId) → calls.prepare_update_call cursor (words_of text.now) ≡ Some (call.PrepareUpdate cursor how)) }
{
    if is_the_word(text, b"insert") {
        Some(Prepare::Insert)
    } else if is_the_word(text, b"replace") {
        Some(Prepare::Replace)
    } else {
        None
    }
}

/// `Move c` and a text.
fn move_behind(cursor: CursorId, text: &[u8], kept: &mut Calls) -> Result<(), Refusal>
    ensures { Reads (λ _. kept.new) result (calls_with kept.old (calls.move_call cursor (words_of text.now))) }
{
    match frequent_way(text) {
        Some(way) => keep(kept, Request::Move { cursor, way }),
        None => move_to(cursor, &mut Parts::of(text, b' '), kept),
    }
}

/// `PrepareUpdate c` and a text.
fn prepare_update_behind(cursor: CursorId, text: &[u8], kept: &mut Calls) -> Result<(), Refusal>
    ensures { Reads (λ _. kept.new) result (calls_with kept.old (calls.prepare_update_call cursor (words_of text.now))) }
{
    match frequent_preparation(text) {
        Some(how) => keep(kept, Request::PrepareUpdate { cursor, how }),
        None => prepare_update(cursor, &mut Parts::of(text, b' '), kept),
    }
}

/// A value of a column: the column's name, its place, and what is written for it.
#[derive(Clone, Copy)]
struct ColumnValue<'a> {
    column: &'a [u8],
    sequence: u32,
    value: &'a [u8],
}

/// The value that a text sets, where its place is of one digit.
#[inline(always)]
fn value_to_set(text: &[u8]) -> Option<ColumnValue<'_>>
    ensures { IfSome result (λ found. (cursor : CursorId) → calls.set_column_call cursor (words_of text.now)
        ≡ set_reading cursor found.column.now found.sequence found.value.now) }
{
    let (column, rest) = leading_word(text)?;
    let (sequence, rest) = leading_digit(rest)?;
    Some(ColumnValue {
        column,
        sequence: u32::from(sequence - b'0'),
        value: rest?,
    })
}

/// `SetColumn c` and a text.
fn set_column_behind(
    alloc: Global,
    cursor: CursorId,
    text: &[u8],
    kept: &mut Calls,
) -> Result<(), Refusal>
    ensures { Reads (λ _. kept.new) result (calls_with kept.old (calls.set_column_call cursor (words_of text.now))) }
{
    match value_to_set(text) {
        Some(found) => {
            let column = name(alloc, found.column)?;
            let value = given(alloc, found.value)?;
            keep(
                kept,
                Request::SetColumn {
                    cursor,
                    column,
                    sequence: found.sequence,
                    value,
                },
            )
        }
        None => set_column(alloc, cursor, &mut Parts::of(text, b' '), kept),
    }
}

/// The name of a column and the place of a value in it, of one digit, where a text is these two.
#[inline(always)]
fn value_to_retrieve(text: &[u8]) -> Option<(&[u8], u32)>
    ensures { IfSome result (λ found. (cursor : CursorId) → calls.retrieve_column_call cursor (words_of text.now)
        ≡ retrieve_reading cursor found.0.now found.1) }
{
    let (column, rest) = leading_word(text)?;
    match leading_digit(rest)? {
        (sequence, None) => Some((column, u32::from(sequence - b'0'))),
        _ => None,
    }
}

/// `RetrieveColumn c` and a text.
fn retrieve_column_behind(
    alloc: Global,
    cursor: CursorId,
    text: &[u8],
    kept: &mut Calls,
) -> Result<(), Refusal>
    ensures { Reads (λ _. kept.new) result (calls_with kept.old (calls.retrieve_column_call cursor (words_of text.now))) }
{
    match value_to_retrieve(text) {
        Some((column, sequence)) => {
            let column = name(alloc, column)?;
            keep(
                kept,
                Request::RetrieveColumn {
                    cursor,
                    column,
                    sequence,
                    copy: false,
                    most: 255,
                },
            )
        }
        None => retrieve_column(alloc, cursor, &mut Parts::of(text, b' '), kept),
    }
}

/// A call of a cursor and the text behind it.
#[inline(always)]
pub fn call_behind(
    alloc: Global,
    call: CursorCall,
    cursor: CursorId,
    text: &[u8],
    kept: &mut Calls,
) -> Result<(), Refusal>
    ensures { Reads (λ _. kept.new) result (calls_with kept.old (cursor_reading call cursor (words_of text.now))) }
{
    match call {
        CursorCall::SetColumn => set_column_behind(alloc, cursor, text, kept),
        CursorCall::RetrieveColumn => retrieve_column_behind(alloc, cursor, text, kept),
        CursorCall::Move => move_behind(cursor, text, kept),
        CursorCall::PrepareUpdate => prepare_update_behind(cursor, text, kept),
        _ => call_of_cursor(alloc, call, cursor, &mut Parts::of(text, b' '), kept),
    }
}

/// A call of a cursor without words.
#[tactic(auto, unfolding(crate::specs::Calls::only_cursor, crate::specs::Calls::bare_call))]
#[inline(always)]
pub fn bare_call(
    alloc: Global,
    call: CursorCall,
    cursor: CursorId,
    kept: &mut Calls,
) -> Result<(), Refusal>
    ensures { Reads (λ _. kept.new) result (calls_with kept.old (cursor_reading call cursor [])) }
{
    match call {
        CursorCall::Update => keep(kept, Request::Update { cursor }),
        _ => call_of_cursor(alloc, call, cursor, &mut no_words(), kept),
    }
}

/// No words: none follows the one of an empty text.
fn no_words() -> Parts<'static>
    ensures { result ≡ [] }
{
    let mut words = Parts::of(b"", b' ');
    let _empty = words.next();
    words
}
