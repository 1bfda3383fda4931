//! A line of a script: who calls, and what.

ghost use Rattle.std.specs.Prelude.{◌≡◌};
ghost use Rattle.script_words.specs.Reading.{Reads};
ghost use Rattle.script_text.specs.Calls as calls;
ghost use Rattle.script_text.specs.CallNames.{reading, cursor_reading};
ghost use Rattle.script_text.specs.Grammar.{is_skipped};
ghost use Rattle.script_text.specs.Kept.{calls_with};

use crate::bare_calls::{
    begin_session, begin_transaction, close_table, delete, end_session, get_bookmark, get_lock,
    retrieve_key, update,
};
use crate::call_names::{CallName, CursorCall, call_named};
use crate::calls::{
    add_column, commit, count, create_index, create_table, delete_column, delete_index,
    delete_table, escrow_update, goto_bookmark, make_key, move_to, open_table, prepare_update,
    retrieve_column, rollback, seek, set_column, set_current_index, set_index_range,
};
use crate::kept::Calls;
use crate::temp_calls::{
    intersect_indexes, temp_close, temp_count, temp_move, temp_open, temp_put, temp_read,
};
use jet_base::CursorId;
use script_words::arity::first_word;
use script_words::numbers::label;
use script_words::{Parts, Refusal};
use std::alloc::Global;

/// A call of a cursor.
pub fn call_of_cursor(
    alloc: Global,
    call: CursorCall,
    cursor: CursorId,
    words: &mut Parts<'_>,
    kept: &mut Calls,
) -> Result<(), Refusal>
    ensures { Reads (λ _. kept.new) result (calls_with kept.old (cursor_reading call cursor words.old)) }
{
    match call {
        CursorCall::OpenTable => open_table(alloc, cursor, words, kept),
        CursorCall::CloseTable => close_table(cursor, words, kept),
        CursorCall::SetCurrentIndex => set_current_index(alloc, cursor, words, kept),
        CursorCall::MakeKey => make_key(alloc, cursor, words, kept),
        CursorCall::Move => move_to(cursor, words, kept),
        CursorCall::Seek => seek(cursor, words, kept),
        CursorCall::SetIndexRange => set_index_range(cursor, words, kept),
        CursorCall::IndexRecordCount => count(cursor, words, kept),
        CursorCall::RetrieveKey => retrieve_key(cursor, words, kept),
        CursorCall::GetBookmark => get_bookmark(cursor, words, kept),
        CursorCall::GotoBookmark => goto_bookmark(alloc, cursor, words, kept),
        CursorCall::PrepareUpdate => prepare_update(cursor, words, kept),
        CursorCall::SetColumn => set_column(alloc, cursor, words, kept),
        CursorCall::RetrieveColumn => retrieve_column(alloc, cursor, words, kept),
        CursorCall::Update => update(cursor, words, kept),
        CursorCall::Delete => delete(cursor, words, kept),
        CursorCall::GetLock => get_lock(cursor, words, kept),
        CursorCall::EscrowUpdate => escrow_update(alloc, cursor, words, kept),
        CursorCall::TempOpen => temp_open(alloc, cursor, words, kept),
        CursorCall::TempPut => temp_put(alloc, cursor, words, kept),
        CursorCall::TempMove => temp_move(cursor, words, kept),
        CursorCall::TempRead => temp_read(cursor, words, kept),
        CursorCall::TempCount => temp_count(cursor, words, kept),
        CursorCall::TempClose => temp_close(cursor, words, kept),
        CursorCall::IntersectIndexes => intersect_indexes(alloc, cursor, words, kept),
    }
}

/// The label of a cursor, and then a call of it.
#[tactic(auto, unfolding(crate::specs::Calls::cursor_call))]
fn labelled_call(
    alloc: Global,
    call: CursorCall,
    words: &mut Parts<'_>,
    kept: &mut Calls,
) -> Result<(), Refusal>
    ensures { Reads (λ _. kept.new) result (calls_with kept.old (calls.cursor_call (cursor_reading call) words.old)) }
{
    let word = first_word(words)?;
    let cursor = CursorId(label(word)?);
    call_of_cursor(alloc, call, cursor, words, kept)
}

/// A call by its name.
fn call_by_name(
    alloc: Global,
    call: CallName,
    words: &mut Parts<'_>,
    kept: &mut Calls,
) -> Result<(), Refusal>
    ensures { Reads (λ _. kept.new) result (calls_with kept.old (reading call words.old)) }
{
    match call {
        CallName::BeginSession => begin_session(words, kept),
        CallName::EndSession => end_session(words, kept),
        CallName::BeginTransaction => begin_transaction(words, kept),
        CallName::CommitTransaction => commit(words, kept),
        CallName::Rollback => rollback(words, kept),
        CallName::CreateTable => create_table(alloc, words, kept),
        CallName::DeleteTable => delete_table(alloc, words, kept),
        CallName::AddColumn => add_column(alloc, words, kept),
        CallName::DeleteColumn => delete_column(alloc, words, kept),
        CallName::CreateIndex => create_index(alloc, words, kept),
        CallName::DeleteIndex => delete_index(alloc, words, kept),
        CallName::OfCursor(call) => labelled_call(alloc, call, words, kept),
    }
}

/// A call by what is written for its name.
pub fn named_call(
    alloc: Global,
    name: &[u8],
    words: &mut Parts<'_>,
    kept: &mut Calls,
) -> Result<(), Refusal>
    ensures { Reads (λ _. kept.new) result (calls_with kept.old (calls.named_call name.now words.old)) }
{
    match call_named(name) {
        Some(call) => call_by_name(alloc, call, words, kept),
        None => Err(Refusal::Bad),
    }
}

/// Whether a line says nothing: an empty one, or one that begins with `#`.
pub fn is_skipped(line: &[u8]) -> bool
    ensures { result ≡ is_skipped line.now }
{
    match line {
        [] => true,
        [first, ..] => *first == b'#',
    }
}
