//! The calls of a script: what each reads of the words behind its name.

ghost use Rattle.std.specs.Prelude.{◌≡◌, List, ℕ, Some};
ghost use Rattle.jet_base.specs.declared.ids.CursorId.{CursorId};
ghost use Rattle.session_local.specs.declared.request.Request.TheVariants as call;
ghost use Rattle.script_words.specs.Reading.{Reads};
ghost use Rattle.script_text.specs.Kept.{calls_with};
ghost use Rattle.script_text.specs.Calls as calls;

use crate::choices::{column_type, comparison, preparation, way};
use crate::flags::{after_prefix, column_flags, index_flags};
use crate::index_words::{are_index_words, conditions, segments};
use crate::kept::{Calls, keep};
use jet_base::{CursorId, Name, Octets};
use script_words::arity::{
    first_word, no_more, only_word, optional_word, takes_word, three_words, two_words,
};
use script_words::numbers::{label, number_within, signed_number};
use script_words::texts::{given, hex_bytes, is_word, name};
use script_words::{Parts, Refusal};
use session_local::{Apart, Request};
use std::alloc::Global;

/// `CommitTransaction`, with `lazy` or without.
#[tactic(auto, unfolding(crate::specs::Calls::commit_call))]
pub fn commit(words: &mut Parts<'_>, kept: &mut Calls) -> Result<(), Refusal>
    ensures { Reads (λ _. kept.new) result (calls_with kept.old (calls.commit_call words.old)) }
{
    let lazy = optional_word(words, b"lazy")?;
    keep(kept, Request::CommitTransaction { lazy })
}

/// `Rollback`, with `all` or without.
#[tactic(auto, unfolding(crate::specs::Calls::rollback_call))]
pub fn rollback(words: &mut Parts<'_>, kept: &mut Calls) -> Result<(), Refusal>
    ensures { Reads (λ _. kept.new) result (calls_with kept.old (calls.rollback_call words.old)) }
{
    let all = optional_word(words, b"all")?;
    keep(kept, Request::Rollback { all })
}

/// `CreateTable T`.
#[tactic(auto, unfolding(crate::specs::Calls::table_call))]
pub fn create_table(alloc: Global, words: &mut Parts<'_>, kept: &mut Calls) -> Result<(), Refusal>
    ensures { Reads (λ _. kept.new) result (calls_with kept.old (calls.table_call call.CreateTable words.old)) }
{
    let table = only_word(words)?;
    let table = name(alloc, table)?;
    keep(kept, Request::CreateTable { table })
}

/// `DeleteTable T`.
#[tactic(auto, unfolding(crate::specs::Calls::table_call))]
pub fn delete_table(alloc: Global, words: &mut Parts<'_>, kept: &mut Calls) -> Result<(), Refusal>
    ensures { Reads (λ _. kept.new) result (calls_with kept.old (calls.table_call call.DeleteTable words.old)) }
{
    let table = only_word(words)?;
    let table = name(alloc, table)?;
    keep(kept, Request::DeleteTable { table })
}

/// `AddColumn T C TYPE FLAGS`.
#[tactic(auto, unfolding(crate::specs::Calls::add_column_call))]
pub fn add_column(alloc: Global, words: &mut Parts<'_>, kept: &mut Calls) -> Result<(), Refusal>
    ensures { Reads (λ _. kept.new) result (calls_with kept.old (calls.add_column_call words.old)) }
{
    let table = first_word(words)?;
    let column = first_word(words)?;
    let kind = first_word(words)?;
    let table = name(alloc, table)?;
    let column = name(alloc, column)?;
    let kind = column_type(kind)?;
    let flags = column_flags(words)?;
    keep(
        kept,
        Request::AddColumn {
            table,
            column,
            kind,
            flags,
        },
    )
}

/// `DeleteColumn T C`.
#[tactic(auto, unfolding(crate::specs::Calls::part_call))]
pub fn delete_column(alloc: Global, words: &mut Parts<'_>, kept: &mut Calls) -> Result<(), Refusal>
    ensures { Reads (λ _. kept.new) result (calls_with kept.old (calls.part_call call.DeleteColumn words.old)) }
{
    let (table, column) = two_words(words)?;
    let table = name(alloc, table)?;
    let column = name(alloc, column)?;
    keep(kept, Request::DeleteColumn { table, column })
}

/// `DeleteIndex T I`.
#[tactic(auto, unfolding(crate::specs::Calls::part_call))]
pub fn delete_index(alloc: Global, words: &mut Parts<'_>, kept: &mut Calls) -> Result<(), Refusal>
    ensures { Reads (λ _. kept.new) result (calls_with kept.old (calls.part_call call.DeleteIndex words.old)) }
{
    let (table, index) = two_words(words)?;
    let table = name(alloc, table)?;
    let index = name(alloc, index)?;
    keep(kept, Request::DeleteIndex { table, index })
}

/// `CreateIndex T I WORDS`.
#[tactic(auto, unfolding(crate::specs::Calls::create_index_call))]
pub fn create_index(alloc: Global, words: &mut Parts<'_>, kept: &mut Calls) -> Result<(), Refusal>
    ensures { Reads (λ _. kept.new) result (calls_with kept.old (calls.create_index_call words.old)) }
{
    let table = first_word(words)?;
    let index = first_word(words)?;
    let table = name(alloc, table)?;
    let index = name(alloc, index)?;
    if !are_index_words(words) {
        return Err(Refusal::Bad);
    }
    keep(
        kept,
        Request::CreateIndex {
            table,
            index: Apart::new(alloc, index)?,
            flags: index_flags(words),
            key_most: 255,
            segments: Apart::new(alloc, segments(alloc, words)?)?,
            conditions: Apart::new(alloc, conditions(alloc, words)?)?,
        },
    )
}

/// `OpenTable c T`.
#[tactic(auto, unfolding(crate::specs::Calls::open_table_call, crate::specs::Calls::table_call))]
pub fn open_table(
    alloc: Global,
    cursor: CursorId,
    words: &mut Parts<'_>,
    kept: &mut Calls,
) -> Result<(), Refusal>
    ensures { Reads (λ _. kept.new) result (calls_with kept.old (calls.open_table_call cursor words.old)) }
{
    let table = only_word(words)?;
    let table = name(alloc, table)?;
    keep(kept, Request::OpenTable { cursor, table })
}

/// `SetCurrentIndex c`, or with the name of an index.
#[tactic(auto, unfolding(crate::specs::Calls::set_current_index_call, crate::specs::Calls::table_call))]
pub fn set_current_index(
    alloc: Global,
    cursor: CursorId,
    words: &mut Parts<'_>,
    kept: &mut Calls,
) -> Result<(), Refusal>
    ensures { Reads (λ _. kept.new) result (calls_with kept.old (calls.set_current_index_call cursor words.old)) }
{
    if words.is_empty() {
        return keep(
            kept,
            Request::SetCurrentIndex {
                cursor,
                index: None,
            },
        );
    }
    let index = only_word(words)?;
    let index = Some(name(alloc, index)?);
    keep(kept, Request::SetCurrentIndex { cursor, index })
}

/// `MakeKey c VALUE`, or `MakeKey c new VALUE`.
#[tactic(auto, unfolding(crate::specs::Calls::make_key_call))]
pub fn make_key(
    alloc: Global,
    cursor: CursorId,
    words: &mut Parts<'_>,
    kept: &mut Calls,
) -> Result<(), Refusal>
    ensures { Reads (λ _. kept.new) result (calls_with kept.old (calls.make_key_call cursor words.old)) }
{
    let fresh = takes_word(words, b"new");
    let value = only_word(words)?;
    let value = given(alloc, value)?;
    keep(
        kept,
        Request::MakeKey {
            cursor,
            fresh,
            value,
        },
    )
}

/// `Move c WAY`.
#[tactic(auto, unfolding(crate::specs::Calls::move_call))]
pub fn move_to(cursor: CursorId, words: &mut Parts<'_>, kept: &mut Calls) -> Result<(), Refusal>
    ensures { Reads (λ _. kept.new) result (calls_with kept.old (calls.move_call cursor words.old)) }
{
    let word = only_word(words)?;
    let way = way(word)?;
    keep(kept, Request::Move { cursor, way })
}

/// `Seek c COMPARISON`.
#[tactic(auto, unfolding(crate::specs::Calls::seek_call))]
pub fn seek(cursor: CursorId, words: &mut Parts<'_>, kept: &mut Calls) -> Result<(), Refusal>
    ensures { Reads (λ _. kept.new) result (calls_with kept.old (calls.seek_call cursor words.old)) }
{
    let word = only_word(words)?;
    let by = comparison(word)?;
    keep(kept, Request::Seek { cursor, by })
}

/// `inclusive` or nothing, behind `SetIndexRange c` and perhaps `upper`.
#[tactic(auto, unfolding(crate::specs::Calls::limit_call))]
fn limit(
    cursor: CursorId,
    upper: bool,
    words: &mut Parts<'_>,
    kept: &mut Calls,
) -> Result<(), Refusal>
    ensures { Reads (λ _. kept.new) result (calls_with kept.old (calls.limit_call cursor upper words.old)) }
{
    let inclusive = optional_word(words, b"inclusive")?;
    keep(
        kept,
        Request::SetIndexRange {
            cursor,
            upper,
            inclusive,
        },
    )
}

/// `SetIndexRange c`, with `upper`, with `inclusive`, with both in this order, or with `remove`.
#[tactic(auto, unfolding(crate::specs::Calls::set_index_range_call, crate::specs::Calls::bare_call))]
pub fn set_index_range(
    cursor: CursorId,
    words: &mut Parts<'_>,
    kept: &mut Calls,
) -> Result<(), Refusal>
    ensures { Reads (λ _. kept.new) result (calls_with kept.old (calls.set_index_range_call cursor words.old)) }
{
    if takes_word(words, b"remove") {
        no_more(words)?;
        return keep(kept, Request::RemoveIndexRange { cursor });
    }
    let upper = takes_word(words, b"upper");
    limit(cursor, upper, words, kept)
}

/// `IndexRecordCount c`, or with the most that is counted.
#[tactic(auto, unfolding(crate::specs::Calls::count_call, crate::specs::Calls::limited_count_call))]
pub fn count(cursor: CursorId, words: &mut Parts<'_>, kept: &mut Calls) -> Result<(), Refusal>
    ensures { Reads (λ _. kept.new) result (calls_with kept.old (calls.count_call cursor words.old)) }
{
    if words.is_empty() {
        return keep(kept, Request::IndexRecordCount { cursor, most: None });
    }
    let most = only_word(words)?;
    let most = number_within(1, 4_294_967_295, most)?;
    keep(
        kept,
        Request::IndexRecordCount {
            cursor,
            most: Some(most as u32),
        },
    )
}

/// `GotoBookmark c x:HEX`.
#[tactic(auto, unfolding(crate::specs::Calls::goto_bookmark_call))]
pub fn goto_bookmark(
    alloc: Global,
    cursor: CursorId,
    words: &mut Parts<'_>,
    kept: &mut Calls,
) -> Result<(), Refusal>
    ensures { Reads (λ _. kept.new) result (calls_with kept.old (calls.goto_bookmark_call cursor words.old)) }
{
    let word = only_word(words)?;
    let text = after_prefix(word, b"x:").ok_or(Refusal::Bad)?;
    let bytes = hex_bytes(alloc, text)?;
    keep(
        kept,
        Request::GotoBookmark {
            cursor,
            bookmark: Octets::new(bytes)?,
        },
    )
}

/// `PrepareUpdate c HOW`.
#[tactic(auto, unfolding(crate::specs::Calls::prepare_update_call))]
pub fn prepare_update(
    cursor: CursorId,
    words: &mut Parts<'_>,
    kept: &mut Calls,
) -> Result<(), Refusal>
    ensures { Reads (λ _. kept.new) result (calls_with kept.old (calls.prepare_update_call cursor words.old)) }
{
    let word = only_word(words)?;
    let how = preparation(word)?;
    keep(kept, Request::PrepareUpdate { cursor, how })
}

/// The place of a value in its column.
#[tactic(auto, unfolding(crate::specs::Calls::sequence_of))]
fn sequence(word: &[u8]) -> Result<u32, Refusal>
    ensures { Reads (λ n. n) result (calls.sequence_of word.now) }
{
    let number = number_within(0, 65_535, word)?;
    Ok(number as u32)
}

/// `SetColumn c C SEQ VALUE`.
#[tactic(auto, unfolding(crate::specs::Calls::set_column_call))]
pub fn set_column(
    alloc: Global,
    cursor: CursorId,
    words: &mut Parts<'_>,
    kept: &mut Calls,
) -> Result<(), Refusal>
    ensures { Reads (λ _. kept.new) result (calls_with kept.old (calls.set_column_call cursor words.old)) }
{
    let (column, sequence_word, value) = three_words(words)?;
    let column = name(alloc, column)?;
    let sequence = sequence(sequence_word)?;
    let value = given(alloc, value)?;
    keep(
        kept,
        Request::SetColumn {
            cursor,
            column,
            sequence,
            value,
        },
    )
}

/// The greatest number of bytes to answer: `max N`, or 255 where nothing is written.
#[tactic(auto, unfolding(crate::specs::Calls::most_bytes_of))]
fn most_bytes(words: &mut Parts<'_>) -> Result<u32, Refusal>
    ensures { Reads (λ n. n) result (calls.most_bytes_of words.old) }
{
    if words.is_empty() {
        return Ok(255);
    }
    let (word, most) = two_words(words)?;
    if !is_word(word, b"max") {
        return Err(Refusal::Bad);
    }
    let number = number_within(0, 1_048_576, most)?;
    Ok(number as u32)
}

/// `RetrieveColumn c C SEQ`, then `copy` or not, then `max N` or not.
#[tactic(auto, unfolding(crate::specs::Calls::retrieve_column_call))]
pub fn retrieve_column(
    alloc: Global,
    cursor: CursorId,
    words: &mut Parts<'_>,
    kept: &mut Calls,
) -> Result<(), Refusal>
    ensures { Reads (λ _. kept.new) result (calls_with kept.old (calls.retrieve_column_call cursor words.old)) }
{
    let column = first_word(words)?;
    let sequence_word = first_word(words)?;
    let column = name(alloc, column)?;
    let sequence = sequence(sequence_word)?;
    let copy = takes_word(words, b"copy");
    let most = most_bytes(words)?;
    keep(
        kept,
        Request::RetrieveColumn {
            cursor,
            column,
            sequence,
            copy,
            most,
        },
    )
}

/// `EscrowUpdate c C AMOUNT`.
#[tactic(auto, unfolding(crate::specs::Calls::escrow_update_call))]
pub fn escrow_update(
    alloc: Global,
    cursor: CursorId,
    words: &mut Parts<'_>,
    kept: &mut Calls,
) -> Result<(), Refusal>
    ensures { Reads (λ _. kept.new) result (calls_with kept.old (calls.escrow_update_call cursor words.old)) }
{
    let (column, amount) = two_words(words)?;
    let column = name(alloc, column)?;
    let amount = signed_number(2_147_483_648, amount)?;
    keep(
        kept,
        Request::EscrowUpdate {
            cursor,
            column,
            amount: amount as i32,
        },
    )
}
