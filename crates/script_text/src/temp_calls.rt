//! The calls on temporary tables: what each reads of the words behind the label of its table.

ghost use Rattle.session_local.specs.declared.request.Request.TheVariants as call;
ghost use Rattle.script_words.specs.Reading.{Reads};
ghost use Rattle.script_words.specs.Values.{given_of};
ghost use Rattle.script_text.specs.Calls as calls;
ghost use Rattle.script_text.specs.Calls.{cursor_of, each_of, key_column_of, plain_column_of, temp_column_of, temp_columns_of};
ghost use Rattle.script_text.specs.Kept.{calls_with};

use crate::choices::{column_type, way};
use crate::flags::direction;
use crate::kept::{Calls, keep};
use jet_base::{CursorId, Given, Items};
use script_words::arity::{no_more, only_word, takes_word};
use script_words::numbers::{label, number_within};
use script_words::texts::given;
use script_words::{Parts, Refusal};
use session_local::Request;
use std::alloc::Global;
use temp_table::{MAX_COLUMNS, TempColumn, are_temp_columns};

/// `TempOpen t COLUMNS`, or `TempOpen t unique COLUMNS`.
#[tactic(auto, unfolding(crate::specs::Calls::temp_open_call))]
pub fn temp_open(
    alloc: Global,
    temp: CursorId,
    words: &mut Parts<'_>,
    kept: &mut Calls,
) -> Result<(), Refusal>
    ensures { Reads (λ _. kept.new) result (calls_with kept.old (calls.temp_open_call temp words.old)) }
{
    let unique = takes_word(words, b"unique");
    let columns = temp_columns(alloc, words)?;
    keep(
        kept,
        Request::TempOpen {
            temp,
            unique,
            columns,
        },
    )
}

/// The columns, where a temporary table may have them.
#[tactic(auto, unfolding(crate::specs::Calls::temp_columns_of))]
fn temp_columns(alloc: Global, words: &mut Parts<'_>) -> Result<Items<TempColumn>, Refusal>
    ensures { Reads (λ columns. columns) result (temp_columns_of words.old) }
{
    let columns = each_column(alloc, words)?;
    if are_temp_columns(columns.as_slice()) {
        Ok(columns)
    } else {
        Err(Refusal::Bad)
    }
}

/// The columns that the words are.
fn each_column(alloc: Global, words: &mut Parts<'_>) -> Result<Items<TempColumn>, Refusal>
    ensures { Reads (λ columns. columns) result (each_of temp_column_of words.old) }
{
    let mut columns = Items::empty(alloc);
    while let Some(word) = words.next() {
        columns.push(temp_column(word)?)?;
    }
    Ok(columns)
}

/// A column: a key column behind its sign, or another.
#[tactic(auto, unfolding(crate::specs::Calls::temp_column_of))]
fn temp_column(word: &[u8]) -> Result<TempColumn, Refusal>
    ensures { Reads (λ column. column) result (temp_column_of word.now) }
{
    match key_column(word) {
        Err(Refusal::Bad) => plain_column(word),
        outcome => outcome,
    }
}

/// `+TYPE` or `-TYPE`.
fn key_column(word: &[u8]) -> Result<TempColumn, Refusal>
    ensures { Reads (λ column. column) result (key_column_of word.now) }
{
    match word {
        [] => Err(Refusal::Bad),
        [sign, text @ ..] => {
            let descending = direction(*sign)?;
            let kind = column_type(text)?;
            Ok(TempColumn {
                kind,
                is_key: true,
                descending,
            })
        }
    }
}

/// `TYPE`.
fn plain_column(word: &[u8]) -> Result<TempColumn, Refusal>
    ensures { Reads (λ column. column) result (plain_column_of word.now) }
{
    let kind = column_type(word)?;
    Ok(TempColumn {
        kind,
        is_key: false,
        descending: false,
    })
}

/// `TempPut t VALUES`.
#[tactic(auto, unfolding(crate::specs::Calls::temp_put_call))]
pub fn temp_put(
    alloc: Global,
    temp: CursorId,
    words: &mut Parts<'_>,
    kept: &mut Calls,
) -> Result<(), Refusal>
    ensures { Reads (λ _. kept.new) result (calls_with kept.old (calls.temp_put_call temp words.old)) }
{
    let values = each_value(alloc, words)?;
    let count = values.as_slice().len();
    if count < 1 || MAX_COLUMNS < count {
        return Err(Refusal::Bad);
    }
    keep(kept, Request::TempPut { temp, values })
}

/// The values that the words are.
fn each_value(alloc: Global, words: &mut Parts<'_>) -> Result<Items<Given>, Refusal>
    ensures { Reads (λ values. values) result (each_of given_of words.old) }
{
    let mut values = Items::empty(alloc);
    while let Some(word) = words.next() {
        values.push(given(alloc, word)?)?;
    }
    Ok(values)
}

/// `TempMove t WAY`.
#[tactic(auto, unfolding(crate::specs::Calls::temp_move_call))]
pub fn temp_move(temp: CursorId, words: &mut Parts<'_>, kept: &mut Calls) -> Result<(), Refusal>
    ensures { Reads (λ _. kept.new) result (calls_with kept.old (calls.temp_move_call temp words.old)) }
{
    let word = only_word(words)?;
    let way = way(word)?;
    keep(kept, Request::TempMove { temp, way })
}

/// `TempRead t I`.
#[tactic(auto, unfolding(crate::specs::Calls::temp_read_call))]
pub fn temp_read(temp: CursorId, words: &mut Parts<'_>, kept: &mut Calls) -> Result<(), Refusal>
    ensures { Reads (λ _. kept.new) result (calls_with kept.old (calls.temp_read_call temp words.old)) }
{
    let word = only_word(words)?;
    let column = number_within(1, 99, word)?;
    keep(
        kept,
        Request::TempRead {
            temp,
            column: column as u8,
        },
    )
}

/// `TempCount t`.
#[tactic(auto, unfolding(crate::specs::Calls::only_cursor, crate::specs::Calls::bare_call))]
pub fn temp_count(temp: CursorId, words: &mut Parts<'_>, kept: &mut Calls) -> Result<(), Refusal>
    ensures { Reads (λ _. kept.new) result (calls_with kept.old (calls.only_cursor call.TempCount temp words.old)) }
{
    no_more(words)?;
    keep(kept, Request::TempCount { temp })
}

/// `TempClose t`.
#[tactic(auto, unfolding(crate::specs::Calls::only_cursor, crate::specs::Calls::bare_call))]
pub fn temp_close(temp: CursorId, words: &mut Parts<'_>, kept: &mut Calls) -> Result<(), Refusal>
    ensures { Reads (λ _. kept.new) result (calls_with kept.old (calls.only_cursor call.TempClose temp words.old)) }
{
    no_more(words)?;
    keep(kept, Request::TempClose { temp })
}

/// How many cursors an intersection has.
const FEWEST_CURSORS: usize = 2;

const MOST_CURSORS: usize = 6;

/// `IntersectIndexes t CURSORS`.
#[tactic(auto, unfolding(crate::specs::Calls::intersect_indexes_call))]
pub fn intersect_indexes(
    alloc: Global,
    temp: CursorId,
    words: &mut Parts<'_>,
    kept: &mut Calls,
) -> Result<(), Refusal>
    ensures { Reads (λ _. kept.new) result (calls_with kept.old (calls.intersect_indexes_call temp words.old)) }
{
    let cursors = each_cursor(alloc, words)?;
    let count = cursors.as_slice().len();
    if count < FEWEST_CURSORS || MOST_CURSORS < count {
        return Err(Refusal::Bad);
    }
    keep(kept, Request::IntersectIndexes { temp, cursors })
}

/// The cursors whose labels the words are.
fn each_cursor(alloc: Global, words: &mut Parts<'_>) -> Result<Items<CursorId>, Refusal>
    ensures { Reads (λ cursors. cursors) result (each_of cursor_of words.old) }
{
    let mut cursors = Items::empty(alloc);
    while let Some(word) = words.next() {
        cursors.push(cursor(word)?)?;
    }
    Ok(cursors)
}

/// The label of a cursor.
fn cursor(word: &[u8]) -> Result<CursorId, Refusal>
    ensures { Reads (λ cursor. cursor) result (cursor_of word.now) }
{
    Ok(CursorId(label(word)?))
}
