//! The flags, key columns and conditions that stand behind the names of a new column or index.

ghost use Rattle.std.specs.Prelude.{◌≡◌, ◌&&◌, is_some, filter};
ghost use Rattle.std.specs.List.{list_all, filter_map};
ghost use Rattle.std.specs.Option.{option_copied};
ghost use Rattle.script_words.specs.Reading.{Reads};
ghost use Rattle.script_words.specs.Words.{has_word, are_distinct, after_prefix};
ghost use Rattle.script_text.specs.Calls.{is_column_flag, column_flags_of, is_index_flag, index_flags_of, direction_of, segment_of, prefixed_condition_of, condition_of, is_index_word, has_flags_once, are_index_words};

use index_derive::{IndexFlags, NamedCondition, NamedSegment};
use jet_base::{ColumnFlags, Items};
use script_words::texts::{is_word, name};
use script_words::{Parts, Refusal};
use std::alloc::Global;

/// Whether a word stands among the words.
fn has_word(words: &Parts<'_>, expected: &[u8]) -> bool
    ensures { result ≡ has_word expected.now words.now }
{
    let mut ahead = words.copy();
    while let Some(word) = ahead.next() {
        if is_word(expected, word) {
            return true;
        }
    }
    false
}

/// Whether a word is a flag of a column.
fn is_column_flag(word: &[u8]) -> bool
    ensures { result ≡ is_column_flag word.now }
{
    is_word(word, b"notnull")
        || is_word(word, b"tagged")
        || is_word(word, b"multi")
        || is_word(word, b"escrow")
}

/// Whether each word is a flag of a column, and none stands twice.
fn are_column_flags(words: &Parts<'_>) -> bool
    ensures { result ≡ (list_all is_column_flag words.now && are_distinct words.now) }
{
    let mut ahead = words.copy();
    while let Some(word) = ahead.next() {
        if !is_column_flag(word) || has_word(&ahead, word) {
            return false;
        }
    }
    true
}

/// The flags of a column, each at most once.
#[tactic(auto, unfolding(crate::specs::Calls::column_flags_of))]
pub fn column_flags(words: &Parts<'_>) -> Result<ColumnFlags, Refusal>
    ensures { Reads (λ flags. flags) result (column_flags_of words.now) }
{
    if !are_column_flags(words) {
        return Err(Refusal::Bad);
    }
    Ok(ColumnFlags {
        not_null: has_word(words, b"notnull"),
        tagged: has_word(words, b"tagged"),
        multi: has_word(words, b"multi"),
        escrow: has_word(words, b"escrow"),
        version: false,
        auto: false,
    })
}

/// Whether a word is a flag of an index.
pub fn is_index_flag(word: &[u8]) -> bool
    ensures { result ≡ is_index_flag word.now }
{
    is_word(word, b"primary")
        || is_word(word, b"unique")
        || is_word(word, b"disallownull")
        || is_word(word, b"ignorenull")
        || is_word(word, b"ignoreanynull")
        || is_word(word, b"ignorefirstnull")
        || is_word(word, b"sortnullshigh")
        || is_word(word, b"crossproduct")
        || is_word(word, b"disallowtruncation")
        || is_word(word, b"tuples")
}

/// Whether no flag of an index stands twice.
pub fn has_flags_once(words: &Parts<'_>) -> bool
    ensures { result ≡ has_flags_once words.now }
{
    let mut ahead = words.copy();
    while let Some(word) = ahead.next() {
        if is_index_flag(word) && has_word(&ahead, word) {
            return false;
        }
    }
    true
}

/// The flags of an index that stand among the words.
#[tactic(auto, unfolding(crate::specs::Calls::index_flags_of))]
pub fn index_flags(words: &Parts<'_>) -> IndexFlags
    ensures { result ≡ index_flags_of words.now }
{
    IndexFlags {
        primary: has_word(words, b"primary"),
        unique: has_word(words, b"unique"),
        disallownull: has_word(words, b"disallownull"),
        ignorenull: has_word(words, b"ignorenull"),
        ignoreanynull: has_word(words, b"ignoreanynull"),
        ignorefirstnull: has_word(words, b"ignorefirstnull"),
        sortnullshigh: has_word(words, b"sortnullshigh"),
        crossproduct: has_word(words, b"crossproduct"),
        disallowtruncation: has_word(words, b"disallowtruncation"),
        tuples: has_word(words, b"tuples"),
    }
}

/// Whether a key column is descending, by its sign.
#[tactic(auto, unfolding(crate::specs::Calls::direction_of))]
pub fn direction(sign: u8) -> Result<bool, Refusal>
    ensures { Reads (λ descending. descending) result (direction_of sign) }
{
    match sign {
        b'+' => Ok(false),
        b'-' => Ok(true),
        _ => Err(Refusal::Bad),
    }
}

/// A key column behind its sign.
#[tactic(auto, unfolding(crate::specs::Calls::segment_of))]
pub fn segment(alloc: Global, word: &[u8]) -> Result<NamedSegment, Refusal>
    ensures { Reads (λ segment. segment) result (segment_of word.now) }
{
    match word {
        [] => Err(Refusal::Bad),
        [sign, text @ ..] => {
            let descending = direction(*sign)?;
            let column = name(alloc, text)?;
            Ok(NamedSegment { column, descending })
        }
    }
}

/// What follows a prefix, where the word begins with it.
pub fn after_prefix<'a>(word: &'a [u8], prefix: &[u8]) -> Option<&'a [u8]>
    ensures { option_copied result ≡ after_prefix prefix.now word.now }
{
    if word.len() < prefix.len() || !is_word(prefix, &word[..prefix.len()]) {
        return None;
    }
    Some(&word[prefix.len()..])
}

/// A condition behind one prefix.
#[tactic(auto, unfolding(crate::specs::Calls::prefixed_condition_of))]
fn prefixed_condition(
    alloc: Global,
    word: &[u8],
    prefix: &[u8],
    must_be_null: bool,
) -> Result<NamedCondition, Refusal>
    ensures { Reads (λ condition. condition) result (prefixed_condition_of prefix.now must_be_null word.now) }
{
    let text = after_prefix(word, prefix).ok_or(Refusal::Bad)?;
    let column = name(alloc, text)?;
    Ok(NamedCondition {
        column,
        must_be_null,
    })
}

/// A condition behind its prefix.
#[tactic(auto, unfolding(crate::specs::Calls::condition_of))]
pub fn condition(alloc: Global, word: &[u8]) -> Result<NamedCondition, Refusal>
    ensures { Reads (λ condition. condition) result (condition_of word.now) }
{
    match prefixed_condition(alloc, word, b"ifnull:", true) {
        Err(Refusal::Bad) => prefixed_condition(alloc, word, b"ifnotnull:", false),
        outcome => outcome,
    }
}
