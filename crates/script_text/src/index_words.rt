//! The words behind the names of a new index, together.

ghost use Rattle.std.specs.Prelude.{◌≡◌, Bool, is_some, IfOk};
ghost use Rattle.std.specs.List.{list_all, filter_map};
ghost use Rattle.script_text.specs.Calls.{segment_of, prefixed_condition_of, condition_of, is_index_word, are_index_words};

use crate::flags::{after_prefix, condition, has_flags_once, is_index_flag, segment};
use index_derive::{NamedCondition, NamedSegment};
use jet_base::{Items, OutOfMemory};
use script_words::texts::is_name;
use script_words::{Parts, Refusal};
use std::alloc::Global;

/// Whether a word is a key column behind its sign.
#[tactic(auto, unfolding(crate::specs::Calls::segment_of, crate::specs::Calls::direction_of, script_words::specs::Words::name_of))]
fn is_segment(word: &[u8]) -> bool
    ensures { result ≡ is_some (segment_of word.now) }
{
    match word {
        [b'+', text @ ..] => is_name(text),
        [b'-', text @ ..] => is_name(text),
        _ => false,
    }
}

/// Whether a word is a name behind the prefix of a condition.
#[tactic(auto, unfolding(crate::specs::Calls::prefixed_condition_of, script_words::specs::Words::name_of))]
fn is_prefixed_name(word: &[u8], prefix: &[u8]) -> bool
    ensures { (b : Bool) → result ≡ is_some (prefixed_condition_of prefix.now b word.now) }
{
    match after_prefix(word, prefix) {
        Some(text) => is_name(text),
        None => false,
    }
}

/// Whether a word is a condition.
#[tactic(auto, unfolding(crate::specs::Calls::condition_of))]
fn is_condition(word: &[u8]) -> bool
    ensures { result ≡ is_some (condition_of word.now) }
{
    is_prefixed_name(word, b"ifnull:") || is_prefixed_name(word, b"ifnotnull:")
}

/// Whether a word may stand behind the names of a new index.
#[tactic(auto, unfolding(crate::specs::Calls::is_index_word))]
fn is_index_word(word: &[u8]) -> bool
    ensures { result ≡ is_index_word word.now }
{
    is_index_flag(word) || is_segment(word) || is_condition(word)
}

/// Whether each word may stand there.
fn each_is_index_word(words: &Parts<'_>) -> bool
    ensures { result ≡ list_all is_index_word words.now }
{
    let mut ahead = words.copy();
    while let Some(word) = ahead.next() {
        if !is_index_word(word) {
            return false;
        }
    }
    true
}

/// Whether the words may stand behind the names of a new index.
#[tactic(auto, unfolding(crate::specs::Calls::are_index_words))]
pub fn are_index_words(words: &Parts<'_>) -> bool
    ensures { result ≡ are_index_words words.now }
{
    each_is_index_word(words) && has_flags_once(words)
}

/// The key columns among the words, in their order.
pub fn segments(alloc: Global, words: &Parts<'_>) -> Result<Items<NamedSegment>, OutOfMemory>
    ensures { IfOk result (λ made. made ≡ filter_map segment_of words.now) }
{
    let mut made = Items::empty(alloc);
    let mut ahead = words.copy();
    while let Some(word) = ahead.next() {
        match segment(alloc, word) {
            Ok(segment) => made.push(segment)?,
            Err(Refusal::Bad) => {}
            Err(Refusal::Memory) => return Err(OutOfMemory),
        }
    }
    Ok(made)
}

/// The conditions among the words, in their order.
pub fn conditions(alloc: Global, words: &Parts<'_>) -> Result<Items<NamedCondition>, OutOfMemory>
    ensures { IfOk result (λ made. made ≡ filter_map condition_of words.now) }
{
    let mut made = Items::empty(alloc);
    let mut ahead = words.copy();
    while let Some(word) = ahead.next() {
        match condition(alloc, word) {
            Ok(condition) => made.push(condition)?,
            Err(Refusal::Bad) => {}
            Err(Refusal::Memory) => return Err(OutOfMemory),
        }
    }
    Ok(made)
}
